//! Numbers, read from a place to the operand stack and written from the operand stack to a place.

ghost use Rattle.std.specs.Prelude.{OnOk, ◌≡◌, ◌∷◌, []};
ghost use Rattle.fact_code_laws.specs.Code.{scaled_code};
ghost use Rattle.fact_code_laws.specs.Places.{InLocals, InMemory, Off, is_halved, load_of, store_of, memarg_at, narrow, widen, read_code, code_before, code_behind};
ghost use Rattle.fact_code_laws.specs.Rows.{load_code, load_align, store_code, store_align};
ghost use Rattle.fact_emit.specs.Emits.{Emits};
ghost use Rattle.fact_emit.specs.Numbers.{number_sized, ReadsNumber};
ghost use Rattle.fact_emit.specs.Places.{from_of, to_of};
ghost use Rattle.fact_emit.specs.Writers.{Wrote};

use crate::checks::check_upper_half;
use crate::places::{Address, LinearMemory, SourcePlace, TargetPlace, TypedLocal};
use crate::width::{W32, W64, Width};
use crate::writer::Writer;
use fact_wasm::{Instr, MemArg, OutOfMemory, ValType};

/// A number of one, two, four or eight bytes. On the operand stack it is an i32, and of eight bytes an i64.
#[derive(Clone, Copy)]
pub enum NumberSize {
    Bits8,
    Bits16,
    Bits32,
    Bits64,
}

/// The immediate of a load or store of 2 to the power of `align` bytes.
fn argument(linear: LinearMemory, address: Address, align: u32) -> MemArg
    ensures { result ≡ memarg_at align address.offset linear.memory }
{
    MemArg {
        offset: u64::from(address.offset),
        align,
        memory_index: linear.memory,
    }
}

/// The instruction that reads a number.
fn load(linear: LinearMemory, number: NumberSize, address: Address) -> Instr
    ensures { result ≡ load_code (load_of (number_sized number)) (memarg_at (load_align (load_of (number_sized number))) address.offset linear.memory) }
{
    match number {
        NumberSize::Bits8 => Instr::I32Load8U(argument(linear, address, 0)),
        NumberSize::Bits16 => Instr::I32Load16U(argument(linear, address, 1)),
        NumberSize::Bits32 => W32::ptr_load(argument(linear, address, 2)),
        NumberSize::Bits64 => W64::ptr_load(argument(linear, address, 3)),
    }
}

/// The instruction that writes a number.
fn store(linear: LinearMemory, number: NumberSize, address: Address) -> Instr
    ensures { result ≡ store_code (store_of (number_sized number)) (memarg_at (store_align (store_of (number_sized number))) address.offset linear.memory) }
{
    match number {
        NumberSize::Bits8 => Instr::I32Store8(argument(linear, address, 0)),
        NumberSize::Bits16 => Instr::I32Store16(argument(linear, address, 1)),
        NumberSize::Bits32 => W32::ptr_store(argument(linear, address, 2)),
        NumberSize::Bits64 => W64::ptr_store(argument(linear, address, 3)),
    }
}

/// From what a local holds to the number (canonical ABI, `lift_flat_variant`).
pub fn put_narrowed(w: &mut Writer, number: NumberSize, ty: ValType) -> Result<(), OutOfMemory>
    ensures { OnOk result (Wrote w.old w.new (narrow (number_sized number) ty)) }
{
    match (number, ty) {
        (NumberSize::Bits64, ValType::F64) => w.put(Instr::I64ReinterpretF64),
        (NumberSize::Bits64, _) => Ok(()),
        (_, ValType::I64) => w.put(Instr::I32WrapI64),
        (_, ValType::F32) => w.put(Instr::I32ReinterpretF32),
        _ => Ok(()),
    }
}

/// From a number to what a local holds (canonical ABI, `lower_flat_variant`).
pub fn put_widened(w: &mut Writer, number: NumberSize, ty: ValType) -> Result<(), OutOfMemory>
    ensures { OnOk result (Wrote w.old w.new (widen (number_sized number) ty)) }
{
    match (number, ty) {
        (NumberSize::Bits64, ValType::F64) => w.put(Instr::F64ReinterpretI64),
        (NumberSize::Bits64, _) => Ok(()),
        (_, ValType::I64) => w.put(Instr::I64ExtendI32U),
        (_, ValType::F32) => w.put(Instr::F32ReinterpretI32),
        _ => Ok(()),
    }
}

/// An i64 on the operand stack times a number, which needs no product where the number is 1.
pub fn put_scaled(w: &mut Writer, factor: u64) -> Result<(), OutOfMemory>
    ensures { OnOk result (Wrote w.old w.new (scaled_code factor)) }
{
    if factor != 1 {
        w.put(Instr::I64Const(factor))?;
        w.put(Instr::I64Mul)?;
    }
    Ok(())
}

/// Whether the upper half of what a local holds is left out where a number is read of it.
fn leaves_upper_half(number: NumberSize, ty: ValType) -> bool
    ensures { result ≡ is_halved (number_sized number) ty }
{
    match (number, ty) {
        (NumberSize::Bits64, _) => false,
        (_, ValType::I64) => true,
        _ => false,
    }
}

/// Reads a number of what a local holds to the operand stack.
fn read_local(
    w: &mut Writer,
    debug: bool,
    number: NumberSize,
    local: TypedLocal,
) -> Result<(), OutOfMemory>
    ensures { OnOk result (Emits w.old w.new (ReadsNumber debug (number_sized number) (InLocals ((local.local, local.ty) ∷ [])))) }
{
    let halved = leaves_upper_half(number, local.ty);
    check_upper_half(w, debug, halved, local.local)?;
    w.put(Instr::LocalGet(local.local))?;
    put_narrowed(w, number, local.ty)?;
    Ok(())
}

/// Reads a number at an address to the operand stack.
fn read_memory(
    w: &mut Writer,
    linear: LinearMemory,
    number: NumberSize,
    address: Address,
) -> Result<(), OutOfMemory>
    ensures { OnOk result (Wrote w.old w.new (read_code Off (number_sized number) (InMemory linear.memory address.local address.offset))) }
{
    w.put(Instr::LocalGet(address.local))?;
    w.put(load(linear, number, address))?;
    Ok(())
}

/// Reads a number at a place to the operand stack. With debug checks on, it traps where it leaves out bits that are not 0.
pub fn read_number(
    w: &mut Writer,
    debug: bool,
    linear: LinearMemory,
    number: NumberSize,
    source: SourcePlace<'_>,
) -> Result<(), OutOfMemory>
    ensures { OnOk result (Emits w.old w.new (ReadsNumber debug (number_sized number) (from_of linear source.entry))) }
{
    match source {
        SourcePlace::Locals(locals) => match locals.first() {
            Some(local) => read_local(w, debug, number, *local)?,
            None => (),
        },
        SourcePlace::Memory(address) => read_memory(w, linear, number, address)?,
    }
    Ok(())
}

/// The address of a target in memory, in front of what is written there.
pub fn open(
    w: &mut Writer,
    linear: LinearMemory,
    target: TargetPlace<'_>,
) -> Result<(), OutOfMemory>
    ensures { OnOk result (Wrote w.old w.new (code_before (to_of linear target.entry))) }
{
    match target {
        TargetPlace::Locals(_) => Ok(()),
        TargetPlace::Memory(address) => w.put(Instr::LocalGet(address.local)),
    }
}

/// Takes a number off the operand stack, and the address below it, and writes it to a place.
pub fn write_number(
    w: &mut Writer,
    linear: LinearMemory,
    number: NumberSize,
    target: TargetPlace<'_>,
) -> Result<(), OutOfMemory>
    ensures { OnOk result (Wrote w.old w.new (code_behind (number_sized number) (to_of linear target.entry))) }
{
    match target {
        TargetPlace::Locals(locals) => match locals.first() {
            Some(local) => {
                put_widened(w, number, local.ty)?;
                w.put(Instr::LocalSet(local.local))
            }
            None => Ok(()),
        },
        TargetPlace::Memory(address) => w.put(store(linear, number, address)),
    }
}
