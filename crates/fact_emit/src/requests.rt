//! Requests of memory for lists and areas: calls of realloc, and the check of what it answers.

ghost use Rattle.std.specs.Prelude.{OnOk, ◌≡◌, ◌∷◌, [], ◌++◌, ◌<◌};
ghost use Rattle.fact_wasm.specs.declared.instr.Instr.TheVariants as I;
ghost use Rattle.fact_wasm.specs.declared.types.ValType.TheVariants as val;
ghost use Rattle.fact_code_laws.specs.Lists.{const_code, address_code, ask_code, bytes_code};
ghost use Rattle.fact_code_laws.specs.Places.{widen};
ghost use Rattle.fact_code_laws.specs.Tests.{pointer_of_width};
ghost use Rattle.fact_emit.specs.Emits.{Emits};
ghost use Rattle.fact_emit.specs.NewAreas.{AsksArea, NewAreaCode};
ghost use Rattle.fact_emit.specs.Requests.{IsReallocImported, ask_code_if, AsksRegion, CallsRealloc};
ghost use Rattle.fact_emit.specs.Writers.{Wrote, taken_in};

use crate::context::{ContextLocals, restore_context, save_context};
use crate::numbers::{put_narrowed, put_scaled, put_widened};
use crate::places::LinearMemory;
use crate::pointers::{AreaLocals, check_region, pointer_number};
use crate::writer::Writer;
use fact_types::Trap;
use fact_wasm::{FuncName, Instr, OutOfMemory, ValType};

/// A region that is asked for: its alignment, a local with its bytes, one for its address, and one for the memory's length, which are
/// of type i64, and locals for the slots of the context.
#[derive(Clone, Copy)]
pub struct NewRegion {
    pub align: u32,
    pub bytes: u32,
    pub address: u32,
    pub length: u32,
    pub context: ContextLocals,
}

/// Pushes a number that is as wide as addresses.
pub fn put_const(w: &mut Writer, memory64: bool, number: u32) -> Result<(), OutOfMemory>
    ensures { OnOk result (Wrote w.old w.new (const_code memory64 number ∷ [])) }
{
    if memory64 {
        w.put(Instr::I64Const(u64::from(number)))
    } else {
        w.put(Instr::I32Const(number))
    }
}

/// Pushes the address that a local of type i64 holds.
pub fn put_address(w: &mut Writer, memory64: bool, local: u32) -> Result<(), OutOfMemory>
    ensures { OnOk result (Wrote w.old w.new (address_code memory64 local)) }
{
    w.put(Instr::LocalGet(local))?;
    put_narrowed(w, pointer_number(memory64), ValType::I64)?;
    Ok(())
}

/// An address off the operand stack into a local of type i64.
fn keep_address(w: &mut Writer, memory64: bool, local: u32) -> Result<(), OutOfMemory>
    ensures { OnOk result (Wrote w.old w.new (widen (pointer_of_width memory64) val.I64 ++ I.LocalSet local ∷ [])) }
{
    put_widened(w, pointer_number(memory64), ValType::I64)?;
    w.put(Instr::LocalSet(local))?;
    Ok(())
}

/// Calls realloc of this place for a new region of an alignment, and of as many bytes as a local says.
fn put_realloc(
    w: &mut Writer,
    memory64: bool,
    align: u32,
    bytes: u32,
    place: u32,
) -> Result<(), OutOfMemory>
    ensures { OnOk result (Wrote w.old w.new (ask_code memory64 align bytes place)) }
{
    put_const(w, memory64, 0)?;
    put_const(w, memory64, 0)?;
    put_const(w, memory64, align)?;
    put_address(w, memory64, bytes)?;
    w.put(Instr::Call(FuncName::Import(place)))?;
    Ok(())
}

/// Asks a side for a new region of an alignment, and of as many bytes as a local says. A side without realloc is never asked.
fn put_ask(w: &mut Writer, linear: LinearMemory, align: u32, bytes: u32) -> Result<(), OutOfMemory>
    ensures { OnOk result (Wrote w.old w.new (ask_code_if linear.realloc linear.memory64 align bytes)) }
{
    match linear.realloc {
        Some(place) => put_realloc(w, linear.memory64, align, bytes, place),
        None => w.put(Instr::Unreachable),
    }
}

/// Asks a side for a new region. With concurrency on, the slots of the context are saved and 0 during the call.
fn put_request(
    w: &mut Writer,
    concurrency: bool,
    linear: LinearMemory,
    region: NewRegion,
) -> Result<(), OutOfMemory>
    requires realloc { IsReallocImported linear w.old.sections }
    ensures { OnOk result (Emits w.old w.new (CallsRealloc concurrency linear region)) }
{
    save_context(w, concurrency, region.context)?;
    put_ask(w, linear, region.align, region.bytes)?;
    restore_context(w, concurrency, region.context)?;
    Ok(())
}

/// Asks a side for a new region, and checks the address that it answers: it is aligned, and the region lies within the memory. With
/// concurrency on, the slots of the context are saved and 0 during the call.
pub fn reallocate(
    w: &mut Writer,
    concurrency: bool,
    linear: LinearMemory,
    region: NewRegion,
    trap: Trap,
) -> Result<(), OutOfMemory>
    requires aligned { 0 < region.align }
    requires realloc { IsReallocImported linear w.old.sections }
    ensures { OnOk result (Emits w.old w.new (AsksRegion concurrency linear region trap)) }
{
    put_request(w, concurrency, linear, region)?;
    keep_address(w, linear.memory64, region.address)?;
    check_region(
        w,
        linear,
        region.address,
        region.bytes,
        region.length,
        region.align,
        trap,
    )?;
    Ok(())
}

/// Asks a side for an area of so many bytes, checks it, and puts its address into a local of the address's type. Three of the other
/// locals are of type i64.
fn ask_area_by(
    w: &mut Writer,
    concurrency: bool,
    linear: LinearMemory,
    address: u32,
    size: u32,
    align: u32,
    temporaries: AreaLocals,
    context: ContextLocals,
) -> Result<(), OutOfMemory>
    requires aligned { 0 < align }
    requires realloc { IsReallocImported linear w.old.sections }
    ensures { OnOk result (Emits w.old w.new (NewAreaCode concurrency linear address size align temporaries context)) }
{
    w.put(Instr::I64Const(u64::from(size)))?;
    w.put(Instr::LocalSet(temporaries.bytes))?;
    let region = NewRegion {
        align,
        bytes: temporaries.bytes,
        address: temporaries.pointer,
        length: temporaries.length,
        context,
    };
    reallocate(w, concurrency, linear, region, Trap::MemoryOutOfBounds)?;
    put_address(w, linear.memory64, temporaries.pointer)?;
    w.put(Instr::LocalSet(address))?;
    Ok(())
}

/// Asks a side for an area of so many bytes, checks what realloc answers, and puts the area's address into a local of the address's
/// type. With concurrency on, the slots of the context are saved and 0 during the call.
pub fn ask_area(
    w: &mut Writer,
    concurrency: bool,
    linear: LinearMemory,
    address: u32,
    size: u32,
    align: u32,
) -> Result<(), OutOfMemory>
    requires aligned { 0 < align }
    requires realloc { IsReallocImported linear w.old.sections }
    ensures { OnOk result (Emits w.old w.new (AsksArea concurrency linear (taken_in w.old) address size align)) }
{
    let pointer = w.take_local(ValType::I64)?;
    let bytes = w.take_local(ValType::I64)?;
    let length = w.take_local(ValType::I64)?;
    let first = w.take_local(ValType::I32)?;
    let second = w.take_local(ValType::I32)?;
    let temporaries = AreaLocals {
        pointer,
        bytes,
        length,
    };
    let context = ContextLocals { first, second };
    ask_area_by(
        w,
        concurrency,
        linear,
        address,
        size,
        align,
        temporaries,
        context,
    )?;
    w.free_local(second)?;
    w.free_local(first)?;
    w.free_local(length)?;
    w.free_local(bytes)?;
    w.free_local(pointer)?;
    Ok(())
}

/// The bytes of so many things of a size, in 64 bits.
pub fn put_bytes(w: &mut Writer, number: u32, size: u32, bytes: u32) -> Result<(), OutOfMemory>
    ensures { OnOk result (Wrote w.old w.new (bytes_code number size ++ I.LocalSet bytes ∷ [])) }
{
    w.put(Instr::LocalGet(number))?;
    put_scaled(w, u64::from(size))?;
    w.put(Instr::LocalSet(bytes))?;
    Ok(())
}
