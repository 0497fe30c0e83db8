//! Pointers: as wide as the addresses of their side in memory and among flat types, and i64s in locals.

ghost use Rattle.std.specs.Prelude.{IfOk, OnOk, ◌≡◌, ◌<◌, ◌%◌, ◌^◌};
ghost use Rattle.fact_machine.specs.Machine.{page_bytes};
ghost use Rattle.fact_code_laws.specs.Code.{length_code, pages_code};
ghost use Rattle.fact_code_laws.specs.Tests.{aligned_code, bounds_code, pointer_of_width};
ghost use Rattle.fact_emit.specs.Areas.{AreaCode, ChecksArea, widened_code};
ghost use Rattle.fact_emit.specs.Checks.{ChecksAligned, ChecksRegion, ReadsPointer};
ghost use Rattle.fact_emit.specs.Emits.{Emits};
ghost use Rattle.fact_emit.specs.Numbers.{number_sized};
ghost use Rattle.fact_emit.specs.Places.{from_of};
ghost use Rattle.fact_emit.specs.Writers.{Wrote, taken_in};

use crate::checks::put_guard;
use crate::numbers::{NumberSize, put_scaled, put_widened, read_number};
use crate::places::{LinearMemory, SourcePlace};
use crate::writer::Writer;
use fact_types::Trap;
use fact_wasm::{Instr, OutOfMemory, ValType};

/// Three locals of type i64 for the check of an area, or the request of one: its address, its bytes, and the length of the memory.
#[derive(Clone, Copy)]
pub struct AreaLocals {
    pub pointer: u32,
    pub bytes: u32,
    pub length: u32,
}

/// A number as wide as addresses.
pub fn pointer_number(memory64: bool) -> NumberSize
    ensures { number_sized result ≡ pointer_of_width memory64 }
{
    if memory64 {
        NumberSize::Bits64
    } else {
        NumberSize::Bits32
    }
}

/// Reads a pointer at a place to a local of type i64.
pub fn read_pointer(
    w: &mut Writer,
    debug: bool,
    linear: LinearMemory,
    source: SourcePlace<'_>,
    local: u32,
) -> Result<(), OutOfMemory>
    ensures { OnOk result (Emits w.old w.new (ReadsPointer debug linear.memory64 (from_of linear source.entry) local)) }
{
    let number = pointer_number(linear.memory64);
    read_number(w, debug, linear, number, source)?;
    put_widened(w, number, ValType::I64)?;
    w.put(Instr::LocalSet(local))?;
    Ok(())
}

/// The bytes of a page, modulo 2 to the power of 64.
fn page_size(log2: Option<u32>) -> u64
    ensures { result ≡ page_bytes log2 % 2 ^ 64 }
{
    match log2 {
        None => 65536,
        Some(log2) => { if log2 < 64 { 1 << log2 } else { 0 } }
    }
}

/// The number of pages of a side's memory, as an i64.
fn put_pages(w: &mut Writer, linear: LinearMemory) -> Result<(), OutOfMemory>
    ensures { OnOk result (Wrote w.old w.new (pages_code linear.memory linear.memory64)) }
{
    w.put(Instr::MemorySize(linear.memory))?;
    if !linear.memory64 {
        w.put(Instr::I64ExtendI32U)?;
    }
    Ok(())
}

/// The length of a side's memory in bytes, as an i64.
fn put_length(w: &mut Writer, linear: LinearMemory) -> Result<(), OutOfMemory>
    ensures { OnOk result (Wrote w.old w.new (length_code linear.memory linear.memory64 linear.page_size_log2)) }
{
    put_pages(w, linear)?;
    put_scaled(w, page_size(linear.page_size_log2))?;
    Ok(())
}

/// Whether a pointer is a multiple of a power of two.
fn aligned_test(w: &Writer, pointer: u32, align: u32) -> Result<Vec<Instr>, OutOfMemory>
    requires { 0 < align }
    ensures { IfOk result (λ test. test.items ≡ aligned_code pointer align) }
{
    let test = vec![in w.alloc;
        Instr::LocalGet(pointer),
        Instr::I64Const(u64::from(align - 1)),
        Instr::I64And,
        Instr::I64Eqz,
    ]?;
    Ok(test)
}

/// Whether so many bytes from a pointer on are within a length.
fn bounds_test(w: &Writer, pointer: u32, bytes: u32, length: u32) -> Result<Vec<Instr>, OutOfMemory>
    ensures { IfOk result (λ test. test.items ≡ bounds_code pointer bytes length) }
{
    let test = vec![in w.alloc;
        Instr::LocalGet(length),
        Instr::LocalGet(bytes),
        Instr::I64GeU,
        Instr::LocalGet(length),
        Instr::LocalGet(bytes),
        Instr::I64Sub,
        Instr::LocalGet(pointer),
        Instr::I64GeU,
        Instr::I32And,
    ]?;
    Ok(test)
}

/// Traps where a pointer is not a multiple of a power of two. One byte needs no test.
fn check_aligned(w: &mut Writer, pointer: u32, align: u32) -> Result<(), OutOfMemory>
    requires { 0 < align }
    ensures { OnOk result (Emits w.old w.new (ChecksAligned align pointer)) }
{
    if align != 1 {
        let test = aligned_test(w, pointer, align)?;
        put_guard(w, test, Trap::UnalignedPointer)?;
    }
    Ok(())
}

/// Checks a region of a side's memory, of so many bytes at a pointer: it is aligned, and lies within the memory. The locals are
/// of type i64; one is for the memory's length.
pub fn check_region(
    w: &mut Writer,
    linear: LinearMemory,
    pointer: u32,
    bytes: u32,
    length: u32,
    align: u32,
    trap: Trap,
) -> Result<(), OutOfMemory>
    requires { 0 < align }
    ensures { OnOk result (Emits w.old w.new (ChecksRegion linear align pointer bytes length trap)) }
{
    check_aligned(w, pointer, align)?;
    put_length(w, linear)?;
    w.put(Instr::LocalSet(length))?;
    let bounds = bounds_test(w, pointer, bytes, length)?;
    put_guard(w, bounds, trap)?;
    Ok(())
}

/// Reads an address to a local of type i64.
fn widen_address(
    w: &mut Writer,
    linear: LinearMemory,
    address: u32,
    pointer: u32,
) -> Result<(), OutOfMemory>
    ensures { OnOk result (Wrote w.old w.new (widened_code linear.memory64 address pointer)) }
{
    w.put(Instr::LocalGet(address))?;
    put_widened(w, pointer_number(linear.memory64), ValType::I64)?;
    w.put(Instr::LocalSet(pointer))?;
    Ok(())
}

/// Checks the area of so many bytes at an address that a local of its type holds: it is aligned, and lies within the memory. The
/// three other locals are of type i64.
fn check_area_by(
    w: &mut Writer,
    linear: LinearMemory,
    address: u32,
    size: u32,
    align: u32,
    temporaries: AreaLocals,
) -> Result<(), OutOfMemory>
    requires { 0 < align }
    ensures { OnOk result (Emits w.old w.new (AreaCode linear address size align temporaries)) }
{
    widen_address(w, linear, address, temporaries.pointer)?;
    w.put(Instr::I64Const(u64::from(size)))?;
    w.put(Instr::LocalSet(temporaries.bytes))?;
    check_region(
        w,
        linear,
        temporaries.pointer,
        temporaries.bytes,
        temporaries.length,
        align,
        Trap::MemoryOutOfBounds,
    )?;
    Ok(())
}

/// Checks the area of so many bytes at an address, which a local of the address's type holds: it is aligned, and lies within the
/// memory.
pub fn check_area(
    w: &mut Writer,
    linear: LinearMemory,
    address: u32,
    size: u32,
    align: u32,
) -> Result<(), OutOfMemory>
    requires { 0 < align }
    ensures { OnOk result (Emits w.old w.new (ChecksArea linear (taken_in w.old) address size align)) }
{
    let pointer = w.take_local(ValType::I64)?;
    let bytes = w.take_local(ValType::I64)?;
    let length = w.take_local(ValType::I64)?;
    let temporaries = AreaLocals {
        pointer,
        bytes,
        length,
    };
    check_area_by(w, linear, address, size, align, temporaries)?;
    w.free_local(length)?;
    w.free_local(bytes)?;
    w.free_local(pointer)?;
    Ok(())
}
