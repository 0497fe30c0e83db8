//! The code of single steps of a string's path: numbers, tests, and the request of its region, which grows and is cut. All numbers of a path stand in
//! locals of type i64, and are taken modulo the width of the addresses of their side.

ghost use Rattle.std.specs.Prelude.{IfOk, OnOk, ◌≡◌, ◌∷◌, [], ◌++◌, ◌<◌, ◌-◌};
ghost use Rattle.fact_wasm.specs.declared.instr.Instr.TheVariants as I;
ghost use Rattle.fact_types.specs.declared.outside.Trap.TheVariants.{StringOutOfBounds};
ghost use Rattle.fact_values.specs.Texts.{utf16_tag};
ghost use Rattle.fact_actions.specs.Paths.{align_of};
ghost use Rattle.fact_code_laws.specs.Code.{guard_code};
ghost use Rattle.fact_code_laws.specs.StringCode.{add_to_code, amount_code, assert_code, from_address as from_address_code, keep_code, limit_code, no_tag_code, regrow_code, resize_code, test_code, times_code, to_address as to_address_code, wrap_code};
ghost use Rattle.fact_code_laws.specs.StringNeeds.{NeedsRequest, NeedsTrap};
ghost use Rattle.fact_emit.specs.Emits.{Emits};
ghost use Rattle.fact_emit.specs.StringPaths.{amount_of, path_test_of};
ghost use Rattle.fact_emit.specs.StringPieces.{AreSidesImported, IsPart, NeedsTrapIf, StringPiece, WroteStringPart};
ghost use Rattle.fact_emit.specs.Writers.{Wrote};

use crate::checks::put_guard;
use crate::context::{restore_context, save_context};
use crate::numbers::{put_narrowed, put_scaled, put_widened};
use crate::paths::{Amount, PathTest, written_alignment};
use crate::places::{LinearMemory, Sides};
use crate::pointers::{check_region, pointer_number};
use crate::requests::{put_address, put_const};
use crate::string_locals::StringLocals;
use crate::writer::Writer;
use fact_types::Trap;
use fact_wasm::{FuncName, Instr, OutOfMemory, ValType};

/// The most bytes of a string.
const MOST_STRING_BYTES: u32 = 2_147_483_647;

/// What is left of a length without bit 31, which tells UTF-16 from Latin-1.
const BELOW_TAG: u64 = 2_147_483_647;

/// An i64 on the operand stack as an address.
pub fn to_address(w: &mut Writer, memory64: bool) -> Result<(), OutOfMemory>
    ensures { OnOk result (Wrote w.old w.new (to_address_code memory64)) }
{
    put_narrowed(w, pointer_number(memory64), ValType::I64)?;
    Ok(())
}

/// An address on the operand stack as an i64.
fn from_address(w: &mut Writer, memory64: bool) -> Result<(), OutOfMemory>
    ensures { OnOk result (Wrote w.old w.new (from_address_code memory64)) }
{
    put_widened(w, pointer_number(memory64), ValType::I64)?;
    Ok(())
}

/// An i64 modulo 2 to the power of the width of addresses.
fn put_wrap(w: &mut Writer, memory64: bool) -> Result<(), OutOfMemory>
    ensures { OnOk result (Wrote w.old w.new (wrap_code memory64)) }
{
    if !memory64 {
        w.put(Instr::I32WrapI64)?;
        w.put(Instr::I64ExtendI32U)?;
    }
    Ok(())
}

/// So many times what a local holds, modulo the width.
pub fn put_times(w: &mut Writer, memory64: bool, factor: u32, local: u32) -> Result<(), OutOfMemory>
    ensures { OnOk result (Wrote w.old w.new (times_code memory64 factor local)) }
{
    w.put(Instr::LocalGet(local))?;
    put_scaled(w, u64::from(factor))?;
    put_wrap(w, memory64)?;
    Ok(())
}

/// A number of bytes.
fn put_amount(
    w: &mut Writer,
    sides: Sides,
    amount: Amount,
    l: StringLocals,
) -> Result<(), OutOfMemory>
    ensures { OnOk result (WroteStringPart sides l (λ m. amount_code m (amount_of amount)) w.old w.new) }
{
    match amount {
        Amount::SourceUnits(factor) => put_times(w, sides.to.memory64, factor, l.units),
        Amount::WrittenUnits(factor) => put_times(w, sides.to.memory64, factor, l.written),
    }
}

/// An address off the operand stack into a local, as an i64.
pub fn keep(w: &mut Writer, memory64: bool, local: u32) -> Result<(), OutOfMemory>
    ensures { OnOk result (Wrote w.old w.new (keep_code memory64 local)) }
{
    from_address(w, memory64)?;
    w.put(Instr::LocalSet(local))?;
    Ok(())
}

/// An address is added to what a local holds, modulo the width.
pub fn add_to(w: &mut Writer, memory64: bool, local: u32) -> Result<(), OutOfMemory>
    ensures { OnOk result (Wrote w.old w.new (add_to_code memory64 local)) }
{
    from_address(w, memory64)?;
    w.put(Instr::LocalGet(local))?;
    w.put(Instr::I64Add)?;
    put_wrap(w, memory64)?;
    w.put(Instr::LocalSet(local))?;
    Ok(())
}

// ---- tests

/// Whether bit 31 of what a local holds is not set.
pub fn put_no_tag(w: &mut Writer, local: u32) -> Result<(), OutOfMemory>
    ensures { OnOk result (Wrote w.old w.new (no_tag_code local)) }
{
    w.put(Instr::LocalGet(local))?;
    w.put(Instr::I64Const(31))?;
    w.put(Instr::I64ShrU)?;
    w.put(Instr::I64Const(1))?;
    w.put(Instr::I64And)?;
    w.put(Instr::I64Eqz)?;
    Ok(())
}

/// Whether two locals are equal.
fn put_equal(w: &mut Writer, first: u32, second: u32) -> Result<(), OutOfMemory>
    ensures { OnOk result (Wrote w.old w.new (I.LocalGet first ∷ I.LocalGet second ∷ I.I64Eq ∷ [])) }
{
    w.put(Instr::LocalGet(first))?;
    w.put(Instr::LocalGet(second))?;
    w.put(Instr::I64Eq)?;
    Ok(())
}

/// Whether a local is so many times another one.
fn put_multiple(
    w: &mut Writer,
    memory64: bool,
    local: u32,
    factor: u32,
    units: u32,
) -> Result<(), OutOfMemory>
    ensures { OnOk result (Wrote w.old w.new (I.LocalGet local ∷ (times_code memory64 factor units ++ I.I64Eq ∷ []))) }
{
    w.put(Instr::LocalGet(local))?;
    put_times(w, memory64, factor, units)?;
    w.put(Instr::I64Eq)?;
    Ok(())
}

/// Whether two locals are equal, the first without its tag.
fn put_keeps_units(w: &mut Writer, written: u32, units: u32) -> Result<(), OutOfMemory>
    ensures { OnOk result (Wrote w.old w.new (I.LocalGet written ∷ I.I64Const (utf16_tag - 1) ∷ I.I64And ∷ I.LocalGet units ∷ I.I64Eq ∷ [])) }
{
    w.put(Instr::LocalGet(written))?;
    w.put(Instr::I64Const(BELOW_TAG))?;
    w.put(Instr::I64And)?;
    w.put(Instr::LocalGet(units))?;
    w.put(Instr::I64Eq)?;
    Ok(())
}

/// An i32 that is not 0 where a test holds.
fn put_test(
    w: &mut Writer,
    sides: Sides,
    test: PathTest,
    l: StringLocals,
) -> Result<(), OutOfMemory>
    ensures { OnOk result (WroteStringPart sides l (λ m. test_code m (path_test_of test)) w.old w.new) }
{
    match test {
        PathTest::AllRead => put_equal(w, l.read, l.units),
        PathTest::WrittenIs(factor) => {
            put_multiple(w, sides.to.memory64, l.written, factor, l.units)
        }
        PathTest::HasNoTag => put_no_tag(w, l.written),
        PathTest::KeepsUnits => put_keeps_units(w, l.written, l.units),
    }
}

/// The code of a test, in a buffer of its own: nothing is put behind the code so far.
pub fn test_of(
    w: &mut Writer,
    sides: Sides,
    test: PathTest,
    l: StringLocals,
) -> Result<Vec<Instr>, OutOfMemory>
    ensures is { IfOk result (λ code. IsPart sides l (λ m. test_code m (path_test_of test)) code.items) }
    ensures aside { OnOk result (Wrote w.old w.new []) }
{
    let outer = w.begin();
    put_test(w, sides, test, l)?;
    let code = w.end(outer);
    Ok(code.into_vec())
}

/// Whether so many times the units of the source are no more than the most bytes of a string.
fn limit_test(w: &Writer, units: u32, factor: u32) -> Result<Vec<Instr>, OutOfMemory>
    requires { 0 < factor }
    ensures { IfOk result (λ test. test.items ≡ limit_code units factor) }
{
    let test = vec![in w.alloc;
        Instr::LocalGet(units),
        Instr::I64Const(u64::from(MOST_STRING_BYTES / factor) + 1),
        Instr::I64LtU,
    ]?;
    Ok(test)
}

/// Traps where so many times the units of the source are more than the most bytes of a string.
pub fn check_limit(
    w: &mut Writer,
    sides: Sides,
    factor: u32,
    l: StringLocals,
) -> Result<(), OutOfMemory>
    requires { 0 < factor }
    ensures { OnOk result (Emits w.old w.new (StringPiece sides l (λ m. guard_code (limit_code m.temporaries.units factor) (m.trap StringOutOfBounds)) (NeedsTrap StringOutOfBounds))) }
{
    let test = limit_test(w, l.units, factor)?;
    put_guard(w, test, Trap::StringOutOfBounds)?;
    Ok(())
}

/// With debug checks on, traps where a test does not hold.
pub fn check_assert(
    w: &mut Writer,
    sides: Sides,
    trap: Trap,
    test: PathTest,
    l: StringLocals,
) -> Result<(), OutOfMemory>
    ensures { OnOk result (Emits w.old w.new (StringPiece sides l (λ m. assert_code m trap (path_test_of test)) (NeedsTrapIf trap))) }
{
    let debug = sides.debug;
    if debug {
        let test = test_of(w, sides, test, l)?;
        put_guard(w, test, trap)?;
    }
    Ok(())
}

// ---- the region

/// Calls realloc, where there is one, for a region of so many bytes in place of the one before.
fn put_regrow(
    w: &mut Writer,
    linear: LinearMemory,
    align: u32,
    l: StringLocals,
) -> Result<(), OutOfMemory>
    ensures { OnOk result (Wrote w.old w.new (regrow_code linear.realloc linear.memory64 l.region l.before align l.bytes)) }
{
    let Some(place) = linear.realloc else {
        return w.put(Instr::Unreachable);
    };
    put_address(w, linear.memory64, l.region)?;
    put_address(w, linear.memory64, l.before)?;
    put_const(w, linear.memory64, align)?;
    put_address(w, linear.memory64, l.bytes)?;
    w.put(Instr::Call(FuncName::Import(place)))?;
    Ok(())
}

/// The region gets another number of bytes, and what realloc answers is checked. With concurrency on, the slots of the context are
/// saved and 0 during the call.
pub fn resize(
    w: &mut Writer,
    sides: Sides,
    from: Amount,
    to: Amount,
    l: StringLocals,
) -> Result<(), OutOfMemory>
    requires sides { AreSidesImported sides w.old.sections }
    ensures { OnOk result (Emits w.old w.new (StringPiece sides l (λ m. resize_code m (align_of sides.to.encoding) (amount_of from) (amount_of to)) (NeedsRequest (align_of sides.to.encoding)))) }
{
    let align = written_alignment(sides.to.encoding);
    put_amount(w, sides, from, l)?;
    w.put(Instr::LocalSet(l.before))?;
    put_amount(w, sides, to, l)?;
    w.put(Instr::LocalSet(l.bytes))?;
    save_context(w, sides.concurrency, l.context)?;
    put_regrow(w, sides.to, align, l)?;
    restore_context(w, sides.concurrency, l.context)?;
    from_address(w, sides.to.memory64)?;
    w.put(Instr::LocalSet(l.region))?;
    let trap = Trap::StringOutOfBounds;
    check_region(w, sides.to, l.region, l.bytes, l.length, align, trap)?;
    Ok(())
}
