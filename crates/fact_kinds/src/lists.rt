//! Lists and maps around their elements: their lengths and regions, the loop, and the new pointer and length.

ghost use Rattle.std.specs.Prelude.{IfOk, OnOk, ◌≡◌, ◌∷◌, [], ◌++◌, ◌<◌, true, not};
ghost use Rattle.std.specs.List.{AllByRecursion};
ghost use Rattle.fact_wasm.specs.declared.instr.Instr.TheVariants as I;
ghost use Rattle.fact_machine.specs.Typing.{address_type as address_type_of};
ghost use Rattle.fact_code_laws.specs.Lists.{is_few, add_code, few_code, bump_code, count_code, left_code, put_code};
ghost use Rattle.fact_emit.specs.Emits.{Emits};
ghost use Rattle.fact_emit.specs.Places.{from_of, to_of};
ghost use Rattle.fact_emit.specs.Requests.{IsReallocImported};
ghost use Rattle.fact_emit.specs.Writers.{AreDistinctNumbers, Wrote, TookAll, FreedAll, taken_in};
ghost use Rattle.fact_kinds.specs.Lists.{ChecksFew, ChecksBytes, OpensList, ClosesList, AsksList, begin_code, turn_end_code, list_slots, list_numbers};

use fact_emit::{
    ContextLocals, LinearMemory, NewRegion, Sides, SourcePlace, TargetPlace, Writer, check_region,
    free_locals, put_address, put_bytes, put_const, put_counted, put_guard, read_pair, reallocate,
    write_pair,
};
use fact_types::Trap;
use fact_wasm::{Instr, OutOfMemory, ValType};

/// The elements of a list on both sides: the bytes from one to the next, of which there is at least one, and their alignments.
#[derive(Clone, Copy)]
pub struct Elements {
    pub from_size: u32,
    pub from_align: u32,
    pub to_size: u32,
    pub to_align: u32,
}

/// The locals of a list: its pointer and its length, bytes, its new pointer, the length of a memory, how many elements are left,
/// the addresses of an element on both sides, and two for what the slots of the context held.
#[derive(Clone, Copy)]
pub struct ListLocals {
    pub pointer: u32,
    pub number: u32,
    pub bytes: u32,
    pub address: u32,
    pub length: u32,
    pub left: u32,
    pub source: u32,
    pub target: u32,
    pub saved0: u32,
    pub saved1: u32,
}

/// The type of an address.
pub fn address_type(memory64: bool) -> ValType
    ensures { result ≡ address_type_of memory64 }
{
    if memory64 { ValType::I64 } else { ValType::I32 }
}

/// Takes the locals of a list.
pub fn take_list_locals(w: &mut Writer, sides: Sides) -> Result<ListLocals, OutOfMemory>
    ensures { IfOk result (λ l. TookAll w.old w.new (list_slots sides.from.memory64 sides.to.memory64 l)) }
{
    let pointer = w.take_local(ValType::I64)?;
    let number = w.take_local(ValType::I64)?;
    let bytes = w.take_local(ValType::I64)?;
    let address = w.take_local(ValType::I64)?;
    let length = w.take_local(ValType::I64)?;
    let left = w.take_local(ValType::I64)?;
    let source = w.take_local(address_type(sides.from.memory64))?;
    let target = w.take_local(address_type(sides.to.memory64))?;
    let saved0 = w.take_local(ValType::I32)?;
    let saved1 = w.take_local(ValType::I32)?;
    Ok(ListLocals {
        pointer,
        number,
        bytes,
        address,
        length,
        left,
        source,
        target,
        saved0,
        saved1,
    })
}

/// The locals of a list are in use no more.
pub fn free_list_locals(w: &mut Writer, l: ListLocals) -> Result<(), OutOfMemory>
    requires taken { AllByRecursion (λ i. taken_in w.old i ≡ true) (list_numbers l) }
    requires distinct { AreDistinctNumbers (list_numbers l) }
    ensures { OnOk result (FreedAll w.old w.new (list_numbers l)) }
{
    let locals = [
        l.pointer, l.number, l.bytes, l.address, l.length, l.left, l.source, l.target, l.saved0,
        l.saved1,
    ];
    free_locals(w, &locals)?;
    Ok(())
}

/// Whether so many things of a size, as a local says, have fewer than 2 to the power of 32 bytes.
fn few_test(w: &Writer, number: u32, size: u32) -> Result<Vec<Instr>, OutOfMemory>
    requires { 0 < size }
    ensures { IfOk result (λ test. test.items ≡ few_code number size) }
{
    let test = vec![in w.alloc;
        Instr::LocalGet(number),
        Instr::I64Const(u64::from(u32::MAX / size) + 1),
        Instr::I64LtU,
    ]?;
    Ok(test)
}

/// Whether a number of things of a size may have 2 to the power of 32 bytes or more: not where they are single bytes of a side of 32
/// bits.
fn may_be_many(memory64: bool, size: u32) -> bool
    ensures { result ≡ not (is_few memory64 size) }
{
    memory64 || size != 1
}

/// Traps where so many things of a size have 2 to the power of 32 bytes or more.
fn check_few(w: &mut Writer, memory64: bool, number: u32, size: u32) -> Result<(), OutOfMemory>
    requires { 0 < size }
    ensures { OnOk result (Emits w.old w.new (ChecksFew memory64 size number)) }
{
    let tested = may_be_many(memory64, size);
    if tested {
        let test = few_test(w, number, size)?;
        put_guard(w, test, Trap::ListOutOfBounds)?;
    }
    Ok(())
}

/// Checks the region of a list.
fn check_bytes(
    w: &mut Writer,
    linear: LinearMemory,
    size: u32,
    align: u32,
    l: ListLocals,
) -> Result<(), OutOfMemory>
    requires { 0 < align }
    ensures { OnOk result (Emits w.old w.new (ChecksBytes linear size align l)) }
{
    put_bytes(w, l.number, size, l.bytes)?;
    let trap = Trap::ListOutOfBounds;
    check_region(w, linear, l.pointer, l.bytes, l.length, align, trap)?;
    Ok(())
}

/// Asks for the new region of a list, and checks it.
fn ask_list(
    w: &mut Writer,
    concurrency: bool,
    linear: LinearMemory,
    size: u32,
    align: u32,
    l: ListLocals,
) -> Result<(), OutOfMemory>
    requires aligned { 0 < align }
    requires realloc { IsReallocImported linear w.old.sections }
    ensures { OnOk result (Emits w.old w.new (AsksList concurrency linear size align l)) }
{
    put_bytes(w, l.number, size, l.bytes)?;
    let region = NewRegion {
        align,
        bytes: l.bytes,
        address: l.address,
        length: l.length,
        context: ContextLocals {
            first: l.saved0,
            second: l.saved1,
        },
    };
    reallocate(w, concurrency, linear, region, Trap::ListOutOfBounds)?;
    Ok(())
}

/// The first elements, and how many there are.
fn begin_elements(w: &mut Writer, sides: Sides, l: ListLocals) -> Result<(), OutOfMemory>
    ensures { OnOk result (Wrote w.old w.new (begin_code sides.from.memory64 sides.to.memory64 l)) }
{
    put_address(w, sides.from.memory64, l.pointer)?;
    w.put(Instr::LocalSet(l.source))?;
    put_address(w, sides.to.memory64, l.address)?;
    w.put(Instr::LocalSet(l.target))?;
    w.put(Instr::LocalGet(l.number))?;
    w.put(Instr::LocalSet(l.left))?;
    Ok(())
}

/// Reads a list, checks its lengths in both layouts and its region, and asks for a new one. Its elements come next.
pub fn open_list(
    w: &mut Writer,
    sides: Sides,
    e: Elements,
    l: ListLocals,
    source: SourcePlace<'_>,
) -> Result<(), OutOfMemory>
    requires from_size { 0 < e.from_size }
    requires to_size { 0 < e.to_size }
    requires from_align { 0 < e.from_align }
    requires to_align { 0 < e.to_align }
    requires realloc { IsReallocImported sides.to w.old.sections }
    ensures { OnOk result (Emits w.old w.new (OpensList sides e l (from_of sides.from source.entry))) }
{
    read_pair(w, sides.debug, sides.from, source, l.pointer, l.number)?;
    check_few(w, sides.from.memory64, l.number, e.from_size)?;
    check_few(w, sides.to.memory64, l.number, e.to_size)?;
    check_bytes(w, sides.from, e.from_size, e.from_align, l)?;
    ask_list(w, sides.concurrency, sides.to, e.to_size, e.to_align, l)?;
    begin_elements(w, sides, l)?;
    Ok(())
}

/// The sum of two addresses.
pub fn put_add(w: &mut Writer, memory64: bool) -> Result<(), OutOfMemory>
    ensures { OnOk result (Wrote w.old w.new (add_code memory64 ∷ [])) }
{
    w.put(if memory64 {
        Instr::I64Add
    } else {
        Instr::I32Add
    })?;
    Ok(())
}

/// An address goes on by so many bytes.
pub fn bump(w: &mut Writer, memory64: bool, local: u32, size: u32) -> Result<(), OutOfMemory>
    ensures { OnOk result (Wrote w.old w.new (bump_code memory64 local size)) }
{
    w.put(Instr::LocalGet(local))?;
    put_const(w, memory64, size)?;
    put_add(w, memory64)?;
    w.put(Instr::LocalSet(local))?;
    Ok(())
}

/// One is left less.
fn count(w: &mut Writer, local: u32) -> Result<(), OutOfMemory>
    ensures { OnOk result (Wrote w.old w.new (count_code local)) }
{
    w.put(Instr::LocalGet(local))?;
    w.put(Instr::I64Const(1))?;
    w.put(Instr::I64Sub)?;
    w.put(Instr::LocalSet(local))?;
    Ok(())
}

/// Both addresses go on, each by its own side's bytes, and one element is left less.
fn end_turn(w: &mut Writer, sides: Sides, e: Elements, l: ListLocals) -> Result<(), OutOfMemory>
    ensures { OnOk result (Wrote w.old w.new (turn_end_code sides.from.memory64 sides.to.memory64 e l)) }
{
    bump(w, sides.from.memory64, l.source, e.from_size)?;
    bump(w, sides.to.memory64, l.target, e.to_size)?;
    count(w, l.left)?;
    Ok(())
}

/// Whether no element is left.
fn left_test(w: &Writer, left: u32) -> Result<Vec<Instr>, OutOfMemory>
    ensures { IfOk result (λ test. test.items ≡ left_code left) }
{
    let test = vec![in w.alloc; Instr::LocalGet(left), Instr::I64Eqz]?;
    Ok(test)
}

/// Ends the code of an element, which is all the code since a body began: it is done for each element, and then the new list is
/// written.
pub fn close_list(
    w: &mut Writer,
    sides: Sides,
    e: Elements,
    l: ListLocals,
    outer: Vec<Instr>,
    target: TargetPlace<'_>,
) -> Result<(), OutOfMemory>
    ensures { OnOk result (ClosesList sides e l outer.items (to_of sides.to target.entry) w.old w.new) }
{
    end_turn(w, sides, e, l)?;
    let body = w.end(outer);
    let test = left_test(w, l.left)?;
    put_counted(w, test, body)?;
    write_pair(w, sides.to, l.address, l.number, target)?;
    Ok(())
}
