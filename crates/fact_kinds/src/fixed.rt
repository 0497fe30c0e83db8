//! Lists of fixed length around their elements: from memory to memory a loop, and else the places of elements one after another.

ghost use Rattle.std.specs.Prelude.{IfOk, OnOk, ◌≡◌, true};
ghost use Rattle.std.specs.List.{AllByRecursion};
ghost use Rattle.fact_emit.specs.declared.places.LinearMemory as linear;
ghost use Rattle.fact_code_laws.specs.FixedLists.{offset_code};
ghost use Rattle.fact_emit.specs.Places.{from_of, to_of};
ghost use Rattle.fact_emit.specs.Writers.{AreDistinctNumbers, Wrote, TookAll, FreedAll, taken_in};
ghost use Rattle.fact_kinds.specs.FixedLists.{ClosesFixed, fixed_begin_code, fixed_slots, fixed_numbers, fixed_end_code, nth_from, nth_to};

use crate::lists::{address_type, bump, put_add};
use fact_emit::{
    Address, Sides, SourcePlace, TargetPlace, Writer, free_locals, put_const, put_countdown,
};
use fact_wasm::{Instr, OutOfMemory, ValType};

/// The elements of a list of fixed length: how many there are, at least one, and the bytes from one to the next on both sides.
#[derive(Clone, Copy)]
pub struct FixedElements {
    pub count: u32,
    pub from_size: u32,
    pub to_size: u32,
}

/// The locals of a list of fixed length: the addresses of an element on both sides, and how many elements are left.
#[derive(Clone, Copy)]
pub struct FixedLocals {
    pub source: u32,
    pub target: u32,
    pub left: u32,
}

/// Takes the locals of a list.
pub fn take_fixed_locals(w: &mut Writer, sides: Sides) -> Result<FixedLocals, OutOfMemory>
    ensures { IfOk result (λ l. TookAll w.old w.new (fixed_slots sides.from.memory64 sides.to.memory64 l)) }
{
    let source = w.take_local(address_type(sides.from.memory64))?;
    let target = w.take_local(address_type(sides.to.memory64))?;
    let left = w.take_local(ValType::I32)?;
    Ok(FixedLocals {
        source,
        target,
        left,
    })
}

/// The locals of a list are in use no more.
pub fn free_fixed_locals(w: &mut Writer, l: FixedLocals) -> Result<(), OutOfMemory>
    requires taken { AllByRecursion (λ i. taken_in w.old i ≡ true) (fixed_numbers l) }
    requires distinct { AreDistinctNumbers (fixed_numbers l) }
    ensures { OnOk result (FreedAll w.old w.new (fixed_numbers l)) }
{
    let locals = [l.source, l.target, l.left];
    free_locals(w, &locals)?;
    Ok(())
}

/// An address that is so far from another, into a local.
fn put_offset(
    w: &mut Writer,
    memory64: bool,
    address: Address,
    local: u32,
) -> Result<(), OutOfMemory>
    ensures { OnOk result (Wrote w.old w.new (offset_code memory64 address.local address.offset local)) }
{
    w.put(Instr::LocalGet(address.local))?;
    put_const(w, memory64, address.offset)?;
    put_add(w, memory64)?;
    w.put(Instr::LocalSet(local))?;
    Ok(())
}

/// The first elements, and how many there are.
pub fn open_fixed(
    w: &mut Writer,
    sides: Sides,
    e: FixedElements,
    l: FixedLocals,
    from: Address,
    to: Address,
) -> Result<(), OutOfMemory>
    ensures { OnOk result (Wrote w.old w.new (fixed_begin_code sides.from.memory64 sides.to.memory64 e l from to)) }
{
    put_offset(w, sides.from.memory64, from, l.source)?;
    put_offset(w, sides.to.memory64, to, l.target)?;
    w.put(Instr::I32Const(e.count))?;
    w.put(Instr::LocalSet(l.left))?;
    Ok(())
}

/// Both addresses go on, each by its own side's bytes.
fn end_fixed_turn(
    w: &mut Writer,
    sides: Sides,
    e: FixedElements,
    l: FixedLocals,
) -> Result<(), OutOfMemory>
    ensures { OnOk result (Wrote w.old w.new (fixed_end_code sides.from.memory64 sides.to.memory64 e l)) }
{
    bump(w, sides.from.memory64, l.source, e.from_size)?;
    bump(w, sides.to.memory64, l.target, e.to_size)?;
    Ok(())
}

/// Ends the code of an element, which is all the code since a body began: it is done for each element.
pub fn close_fixed(
    w: &mut Writer,
    sides: Sides,
    e: FixedElements,
    l: FixedLocals,
    outer: Vec<Instr>,
) -> Result<(), OutOfMemory>
    ensures { OnOk result (ClosesFixed sides e l outer.items w.old w.new) }
{
    end_fixed_turn(w, sides, e, l)?;
    let body = w.end(outer);
    put_countdown(w, l.left, body)?;
    Ok(())
}

/// The place of the nth element of so many locals and so many bytes each.
pub fn nth_source<'a>(source: SourcePlace<'a>, flats: usize, bytes: u32, n: u32) -> SourcePlace<'a>
    ensures { (m : linear.LinearMemory) → from_of m result ≡ nth_from flats bytes n (from_of m source.entry) }
{
    let skip = (n as usize).saturating_mul(flats);
    source.part(skip, flats, n.saturating_mul(bytes))
}

/// The place of the nth element of so many locals and so many bytes each, where the locals of those before it were passed.
pub fn nth_target<'a>(rest: TargetPlace<'a>, flats: usize, bytes: u32, n: u32) -> TargetPlace<'a>
    ensures { (m : linear.LinearMemory) → to_of m result ≡ nth_to flats bytes n (to_of m rest.entry) }
{
    rest.part(0, flats, n.saturating_mul(bytes))
}
