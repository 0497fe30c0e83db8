//! Tests that trap, and the debug checks of places.

ghost use Rattle.std.specs.Prelude.{IfOk, OnOk, [], ◌∷◌, ◌≡◌, ◌++◌, ◌<◌};
ghost use Rattle.fact_wasm.specs.Ranges.{AreRanged};
ghost use Rattle.fact_wasm.specs.declared.instr.Instr.TheVariants as I;
ghost use Rattle.fact_code_laws.specs.Code.{trap_code};
ghost use Rattle.fact_code_laws.specs.Places.{place_test, upper_test};
ghost use Rattle.fact_emit.specs.Emits.{Emits};
ghost use Rattle.fact_emit.specs.Checks.{Guarded, ChecksUpper, ChecksAddress, ChecksFrom, ChecksTo};
ghost use Rattle.fact_emit.specs.Places.{from_of, to_of};

use crate::places::{Address, LinearMemory, SourcePlace, TargetPlace};
use crate::width::{W32, W64, Width};
use crate::writer::Writer;
use fact_types::Trap;
use fact_wasm::{BlockType, FuncName, Instr, OutOfMemory, Seq};

/// A test, and a trap of this place where it gives 0.
fn guard_body(test: Vec<Instr>, place: u32) -> Result<Seq<Instr>, OutOfMemory>
    ensures { IfOk result (λ body. body ≡ test.items ++ I.BrIf 0 ∷ trap_code place) }
{
    let mut body = test;
    body.push(Instr::BrIf(0))?;
    body.push(Instr::Call(FuncName::Import(place)))?;
    body.push(Instr::Unreachable)?;
    Ok(Seq::from_vec(body))
}

/// Traps where a test, which leaves an i32 and names no function, gives 0.
pub fn put_guard(w: &mut Writer, test: Vec<Instr>, trap: Trap) -> Result<(), OutOfMemory>
    requires { AreRanged 0 0 test.items }
    ensures { OnOk result (Emits w.old w.new (Guarded test.items trap [])) }
{
    let place = w.trap(trap)?;
    let body = guard_body(test, place)?;
    w.put(Instr::Block(BlockType::Empty, body))?;
    Ok(())
}

/// Whether the upper half of a local of type i64 is 0.
fn upper_half_test(w: &Writer, local: u32) -> Result<Vec<Instr>, OutOfMemory>
    ensures { IfOk result (λ test. test.items ≡ upper_test local) }
{
    let test = vec![in w.alloc;
        Instr::LocalGet(local),
        Instr::I64Const(32),
        Instr::I64ShrU,
        Instr::I64Eqz,
    ]?;
    Ok(test)
}

/// With debug checks on, traps where the upper half of a local is left out and not 0.
pub fn check_upper_half(
    w: &mut Writer,
    debug: bool,
    halved: bool,
    local: u32,
) -> Result<(), OutOfMemory>
    ensures { OnOk result (Emits w.old w.new (ChecksUpper debug halved local)) }
{
    if debug && halved {
        let test = upper_half_test(w, local)?;
        put_guard(w, test, Trap::DebugAssertUpperBitsUnset)?;
    }
    Ok(())
}

/// Whether an address of a width is a multiple of an alignment.
fn place_test_by<W: Width>(
    w: &Writer,
    address: Address,
    align: u32,
) -> Result<Vec<Instr>, OutOfMemory>
    requires { 0 < align }
    ensures { IfOk result (λ test. test.items ≡ place_test W.memory64 address.local address.offset align) }
{
    let test = vec![in w.alloc;
        Instr::LocalGet(address.local),
        W::ptr_uconst(address.offset),
        W::ptr_add(),
        W::ptr_uconst(align - 1),
        W::ptr_and(),
        W::ptr_eqz(),
    ]?;
    Ok(test)
}

/// Whether an address is a multiple of an alignment.
fn place_multiple_test(
    w: &Writer,
    memory64: bool,
    align: u32,
    address: Address,
) -> Result<Vec<Instr>, OutOfMemory>
    requires { 0 < align }
    ensures { IfOk result (λ test. test.items ≡ place_test memory64 address.local address.offset align) }
{
    if memory64 {
        place_test_by::<W64>(w, address, align)
    } else {
        place_test_by::<W32>(w, address, align)
    }
}

/// With debug checks on, traps where a place in memory is not a multiple of an alignment. One byte needs no test.
fn check_address(
    w: &mut Writer,
    debug: bool,
    memory64: bool,
    align: u32,
    address: Address,
) -> Result<(), OutOfMemory>
    requires { 0 < align }
    ensures { OnOk result (Emits w.old w.new (ChecksAddress debug memory64 align address.local address.offset)) }
{
    if debug && align != 1 {
        let test = place_multiple_test(w, memory64, align, address)?;
        put_guard(w, test, Trap::DebugAssertPointerAligned)?;
    }
    Ok(())
}

/// With debug checks on, traps where a source is in memory at a place that is not a multiple of an alignment.
pub fn check_source(
    w: &mut Writer,
    debug: bool,
    linear: LinearMemory,
    align: u32,
    source: SourcePlace<'_>,
) -> Result<(), OutOfMemory>
    requires { 0 < align }
    ensures { OnOk result (Emits w.old w.new (ChecksFrom debug linear.memory64 align (from_of linear source.entry))) }
{
    match source {
        SourcePlace::Locals(_) => (),
        SourcePlace::Memory(address) => check_address(w, debug, linear.memory64, align, address)?,
    }
    Ok(())
}

/// With debug checks on, traps where a target is in memory at a place that is not a multiple of an alignment.
pub fn check_target(
    w: &mut Writer,
    debug: bool,
    linear: LinearMemory,
    align: u32,
    target: TargetPlace<'_>,
) -> Result<(), OutOfMemory>
    requires { 0 < align }
    ensures { OnOk result (Emits w.old w.new (ChecksTo debug linear.memory64 align (to_of linear target.entry))) }
{
    match target {
        TargetPlace::Locals(_) => (),
        TargetPlace::Memory(address) => check_address(w, debug, linear.memory64, align, address)?,
    }
    Ok(())
}
