//! Values that are one number: bool, integers, floats, characters, flags of at most 32 names and cases without payloads. What
//! these functions write stands behind the debug checks of the places.

ghost use Rattle.std.specs.Prelude.{IfOk, OnOk, [], ◌≡◌, ◌≢◌, ◌≤◌, ◌^◌, ◌-◌};
ghost use Rattle.fact_wasm.specs.declared.types.ValType.TheVariants as val;
ghost use Rattle.fact_code_laws.specs.Places.{N64};
ghost use Rattle.fact_code_laws.specs.Tests.{scalar_test, case_test};
ghost use Rattle.fact_emit.specs.Checks.{Guarded};
ghost use Rattle.fact_emit.specs.Emits.{Emits};
ghost use Rattle.fact_emit.specs.MovesValue.{MovesValue, except, HasLocal};
ghost use Rattle.fact_emit.specs.Numbers.{number_sized, FitsUnchecked};
ghost use Rattle.fact_emit.specs.Places.{from_of, to_of};
ghost use Rattle.fact_emit.specs.Scalars.{canonical_code, canonical_of, IsCanonicalFor, number_moves, tested_moves, code_of_test, trap_of_test, size_of_type, canonical_for, MovedScalar};
ghost use Rattle.fact_emit.specs.Writers.{Wrote, taken_in};

use crate::checks::put_guard;
use crate::numbers::{NumberSize, open, read_number, write_number};
use crate::places::{Sides, SourcePlace, TargetPlace};
use crate::writer::Writer;
use fact_types::{InterfaceType, Trap};
use fact_wasm::{Instr, OutOfMemory, ValType};

/// What makes a number that was read canonical: nothing, 0 or 1 of it, its low 8 or 16 bits with their sign, or so many of its
/// low bits.
#[derive(Clone, Copy)]
pub enum Canonical {
    AsIs,
    Truth,
    Signed8,
    Signed16,
    Low(u32),
}

/// What a number has to be: a Unicode scalar value, or that of one of so many cases.
#[derive(Clone, Copy)]
pub enum NumberTest {
    ScalarValue,
    CaseBelow(u32),
}

/// So many low bits, at most 32.
fn mask(bits: u32) -> u32
    requires { bits ≤ 32 }
    ensures { result ≡ 2 ^ bits - 1 }
{
    if bits < 32 { (1 << bits) - 1 } else { u32::MAX }
}

/// Makes a number on the operand stack canonical.
fn put_canonical(
    w: &mut Writer,
    canonical: Canonical,
    number: NumberSize,
) -> Result<(), OutOfMemory>
    requires { IsCanonicalFor canonical (number_sized number) }
    ensures { OnOk result (Wrote w.old w.new (canonical_code canonical)) }
{
    match canonical {
        Canonical::AsIs => Ok(()),
        Canonical::Truth => {
            w.put(Instr::I32Const(0))?;
            w.put(Instr::I32Ne)
        }
        Canonical::Signed8 => w.put(Instr::I32Extend8S),
        Canonical::Signed16 => w.put(Instr::I32Extend16S),
        Canonical::Low(bits) => {
            w.put(Instr::I32Const(mask(bits)))?;
            w.put(Instr::I32And)
        }
    }
}

/// Moves a number, made canonical.
pub fn move_number(
    w: &mut Writer,
    sides: Sides,
    number: NumberSize,
    canonical: Canonical,
    source: SourcePlace<'_>,
    target: TargetPlace<'_>,
) -> Result<(), OutOfMemory>
    requires { IsCanonicalFor canonical (number_sized number) }
    ensures { OnOk result (Emits w.old w.new (MovesValue sides (from_of sides.from source.entry) (to_of sides.to target.entry) (taken_in w.old) 516 (FitsUnchecked (number_sized number) (from_of sides.from source.entry) (to_of sides.to target.entry)) (number_moves (number_sized number) (canonical_of canonical)))) }
{
    open(w, sides.to, target)?;
    read_number(w, sides.debug, sides.from, number, source)?;
    put_canonical(w, canonical, number)?;
    write_number(w, sides.to, number, target)?;
    Ok(())
}

/// The test of a Unicode scalar value in a local.
fn scalar_value_test(w: &Writer, local: u32) -> Result<Vec<Instr>, OutOfMemory>
    ensures { IfOk result (λ test. test.items ≡ scalar_test local) }
{
    let test = vec![in w.alloc;
        Instr::LocalGet(local),
        Instr::I32Const(0xd800),
        Instr::I32LtU,
        Instr::LocalGet(local),
        Instr::I32Const(0xdfff),
        Instr::I32GtU,
        Instr::LocalGet(local),
        Instr::I32Const(0x11_0000),
        Instr::I32LtU,
        Instr::I32And,
        Instr::I32Or,
    ]?;
    Ok(test)
}

/// The test of a number of cases in a local.
fn case_below_test(w: &Writer, cases: u32, local: u32) -> Result<Vec<Instr>, OutOfMemory>
    ensures { IfOk result (λ test. test.items ≡ case_test cases local) }
{
    let test = vec![in w.alloc;
        Instr::LocalGet(local),
        Instr::I32Const(cases),
        Instr::I32LtU,
    ]?;
    Ok(test)
}

/// Traps where the number in a local does not pass a test.
fn put_number_test(w: &mut Writer, test: NumberTest, local: u32) -> Result<(), OutOfMemory>
    ensures { OnOk result (Emits w.old w.new (Guarded (code_of_test test local) (trap_of_test test) [])) }
{
    match test {
        NumberTest::ScalarValue => {
            let test = scalar_value_test(w, local)?;
            put_guard(w, test, Trap::InvalidChar)?;
        }
        NumberTest::CaseBelow(cases) => {
            let test = case_below_test(w, cases, local)?;
            put_guard(w, test, Trap::InvalidDiscriminant)?;
        }
    }
    Ok(())
}

/// Moves a number through a local of type i32, with a trap where it does not pass a test.
fn move_tested_by(
    w: &mut Writer,
    sides: Sides,
    number: NumberSize,
    test: NumberTest,
    local: u32,
    source: SourcePlace<'_>,
    target: TargetPlace<'_>,
) -> Result<(), OutOfMemory>
    requires { number_sized number ≢ N64 }
    ensures { OnOk result (Emits w.old w.new (MovesValue sides (from_of sides.from source.entry) (to_of sides.to target.entry) (except local (taken_in w.old)) 516 (λ S. FitsUnchecked (number_sized number) (from_of sides.from source.entry) (to_of sides.to target.entry) S × HasLocal local val.I32 S) (tested_moves (number_sized number) test))) }
{
    open(w, sides.to, target)?;
    read_number(w, sides.debug, sides.from, number, source)?;
    w.put(Instr::LocalSet(local))?;
    put_number_test(w, test, local)?;
    w.put(Instr::LocalGet(local))?;
    write_number(w, sides.to, number, target)?;
    Ok(())
}

/// Moves a number of at most 32 bits, with a trap where it does not pass a test.
pub fn move_tested(
    w: &mut Writer,
    sides: Sides,
    number: NumberSize,
    test: NumberTest,
    source: SourcePlace<'_>,
    target: TargetPlace<'_>,
) -> Result<(), OutOfMemory>
    requires { number_sized number ≢ N64 }
    ensures { OnOk result (Emits w.old w.new (MovesValue sides (from_of sides.from source.entry) (to_of sides.to target.entry) (taken_in w.old) 516 (FitsUnchecked (number_sized number) (from_of sides.from source.entry) (to_of sides.to target.entry)) (tested_moves (number_sized number) test))) }
{
    let local = w.take_local(ValType::I32)?;
    move_tested_by(w, sides, number, test, local, source, target)?;
    w.free_local(local)?;
    Ok(())
}

/// The number that stands for values of a scalar type.
fn number_for(ty: InterfaceType) -> NumberSize
    ensures { number_sized result ≡ size_of_type ty }
{
    match ty {
        InterfaceType::Bool | InterfaceType::S8 | InterfaceType::U8 => NumberSize::Bits8,
        InterfaceType::S16 | InterfaceType::U16 => NumberSize::Bits16,
        InterfaceType::S64 | InterfaceType::U64 | InterfaceType::Float64 => NumberSize::Bits64,
        _ => NumberSize::Bits32,
    }
}

/// What makes numbers of a scalar type canonical.
fn canonical_form(ty: InterfaceType) -> Canonical
    ensures { result ≡ canonical_for ty }
{
    match ty {
        InterfaceType::Bool => Canonical::Truth,
        InterfaceType::S8 => Canonical::Signed8,
        InterfaceType::U8 => Canonical::Low(8),
        InterfaceType::S16 => Canonical::Signed16,
        InterfaceType::U16 => Canonical::Low(16),
        _ => Canonical::AsIs,
    }
}

/// Moves a value of a scalar type.
pub fn move_scalar(
    w: &mut Writer,
    sides: Sides,
    ty: InterfaceType,
    source: SourcePlace<'_>,
    target: TargetPlace<'_>,
) -> Result<(), OutOfMemory>
    ensures { OnOk result (MovedScalar ty sides (from_of sides.from source.entry) (to_of sides.to target.entry) w.old w.new) }
{
    match ty {
        InterfaceType::Char => {
            let number = NumberSize::Bits32;
            move_tested(w, sides, number, NumberTest::ScalarValue, source, target)?;
        }
        _ => move_number(w, sides, number_for(ty), canonical_form(ty), source, target)?,
    }
    Ok(())
}
