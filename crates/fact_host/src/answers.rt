//! How a host answers the calls of all imported functions but the callee's.

ghost use Rattle.std.specs.Prelude.{◌≡◌, ◌≢◌, ◌∷◌, ◌++◌, ◌<◌, ◌^◌, ℕ, suc, List, [], map, IfOk};
ghost use Rattle.std.specs.declared.option.Option.{Option as an_option};
ghost use Rattle.fact_types.specs.Signatures.{address};
ghost use Rattle.fact_machine.specs.Typed.{IsValue};
ghost use Rattle.fact_machine.specs.Typing.{address_operand};
ghost use Rattle.fact_actions.specs.Calls.{nth_number};
ghost use Rattle.fact_values.specs.Lift.{bits_of};
ghost use Rattle.fact_values.specs.declared.value.Value.{Value as a_value};
ghost use Rattle.fact_host.specs.declared.known.Known.{Known as what_is_known};
ghost use Rattle.fact_host.specs.Hosts.{both_listed, event_by, listed, number_types};
ghost use Rattle.fact_host.specs.Rules.{Answers, AreOfCoreTypes, CallShapes, ReallocsBy, ReallocsIn, TranscodesBy, bytes_of_memory, memory_at, with_memory_at};

use crate::allocator::{Region, Request, reallocate, replaced};
use crate::calling::{HostCall, HostSide};
use crate::known::Known;
use crate::roles::Role;
use crate::transcoders::{Told, Transcoded, transcode};
use fact_lowering::{Store, address_value, number_of_core};
use fact_machine::{Answer, CoreValue, MachineState};
use fact_types::Transcode;
use fact_wasm::{OutOfMemory, Seq};
use std::alloc::{AllocError, Global};

/// The nth argument of a call by its bits, 0 where there is none.
fn number_at(args: &[CoreValue], place: usize) -> u64
    ensures { result ≡ nth_number args.now place }
{
    match args.get(place) {
        Some(value) => number_of_core(value),
        None => 0,
    }
}

/// The bytes of the nth memory, none where there is no such memory.
pub fn memory_at<'s>(state: &'s MachineState, number: u32) -> &'s [u8]
    ensures { result.now ≡ memory_at state.now number }
{
    match state.memories.get(number as usize) {
        Some(bytes) => bytes.as_slice(),
        None => &[],
    }
}

/// The bytes of a memory that may be named.
pub fn memory_of<'s>(state: &'s MachineState, memory: Option<u32>) -> &'s [u8]
    ensures { result.now ≡ bytes_of_memory memory state.now }
{
    match memory {
        Some(number) => memory_at(state, number),
        None => &[],
    }
}

/// An equal state but for the nth memory, if there is one, which has other bytes.
pub fn with_memory(
    state: &MachineState,
    number: u32,
    bytes: Vec<u8>,
) -> Result<MachineState, OutOfMemory>
    ensures { IfOk result (λ after. after ≡ with_memory_at state.now number bytes.items) }
{
    let mut after = state.try_clone()?;
    let place = number as usize;
    if place < after.memories.len() {
        let old = after.memories.set(place, Seq::from_vec(bytes));
        drop(old);
    }
    Ok(after)
}

/// The answer that leaves a state as it is, with a result, if there is one.
fn unchanged(
    alloc: Global,
    state: &MachineState,
    answered: Option<CoreValue>,
) -> Result<Answer, OutOfMemory>
    ensures { IfOk result (λ answer. answer ≡ Answer.Returns (listed answered) state.now) }
{
    let mut results = Seq::new(alloc);
    if let Some(value) = answered {
        results.push(value)?;
    }
    Ok(Answer::Returns {
        results,
        state: state.try_clone()?,
    })
}

/// An address of a memory, or a number that is as wide. No memory of 32 bits that a host has reaches to what does not fit.
fn address_of(memory64: bool, number: u64) -> Result<CoreValue, OutOfMemory>
    ensures value { IfOk result (λ value. value ≡ address_operand memory64 number) }
    ensures typed { IfOk result (λ value. IsValue value (address memory64)) }
{
    if memory64 || number < 0x1_0000_0000 {
        Ok(address_value(memory64, number))
    } else {
        Err(AllocError)
    }
}

/// What a call of realloc asks for.
fn request_of(args: &[CoreValue]) -> Request
    ensures old { result.old ≡ record { at = nth_number args.now 0; size = nth_number args.now 1 } }
    ensures align { result.align ≡ nth_number args.now 2 }
    ensures size { result.size ≡ nth_number args.now 3 }
{
    Request {
        old: Region {
            at: number_at(args, 0),
            size: number_at(args, 1),
        },
        align: number_at(args, 2),
        size: number_at(args, 3),
    }
}

/// A call of the realloc of a side with a memory.
fn reallocates_in(
    alloc: Global,
    known: &mut Known,
    memory: u32,
    memory64: bool,
    is_destination: bool,
    args: &[CoreValue],
    state: &MachineState,
) -> Result<Answer, OutOfMemory>
    ensures answers { IfOk result (λ answer. (func : ℕ) → ReallocsIn known.old memory memory64 is_destination (event_by func args.now state.now answer) known.new) }
    ensures returned { known.new.returned ≡ known.old.returned }
{
    if !is_destination {
        return Ok(Answer::Traps);
    }
    let request = request_of(args);
    let mut store = Store::of_memory(alloc, memory_at(state, memory), known.cursor_of(memory))?;
    let Some(at) = reallocate(alloc, &mut store, &known.live, &request)? else {
        return Ok(Answer::Traps);
    };
    let region = Region {
        at,
        size: request.size,
    };
    let live = replaced(alloc, &known.live, request.old, region)?;
    let mut results = Seq::new(alloc);
    results.push(address_of(memory64, at)?)?;
    let Store { bytes, cursor } = store;
    let state = with_memory(state, memory, bytes)?;
    known.live = live;
    known.raise(memory, cursor);
    Ok(Answer::Returns { results, state })
}

/// A call of the realloc of a side, which the values go to or not.
fn reallocates(
    alloc: Global,
    known: &mut Known,
    side: &HostSide,
    is_destination: bool,
    args: &[CoreValue],
    state: &MachineState,
) -> Result<Answer, OutOfMemory>
    ensures answers { IfOk result (λ answer. (func : ℕ) → ReallocsBy known.old side.now is_destination (event_by func args.now state.now answer) known.new) }
    ensures returned { known.new.returned ≡ known.old.returned }
{
    match side.memory {
        Some(memory) => reallocates_in(
            alloc,
            known,
            memory,
            side.abi.memory64,
            is_destination,
            args,
            state,
        ),
        None => Ok(Answer::Traps),
    }
}

/// What a transcoder is told.
fn told_of(args: &[CoreValue]) -> Told
    ensures from { result.from ≡ nth_number args.now 0 }
    ensures units { result.units ≡ nth_number args.now 1 }
    ensures to { result.to ≡ nth_number args.now 2 }
    ensures room { result.room ≡ nth_number args.now 3 }
    ensures latin1 { result.latin1 ≡ nth_number args.now 4 }
{
    Told {
        from: number_at(args, 0),
        units: number_at(args, 1),
        to: number_at(args, 2),
        room: number_at(args, 3),
        latin1: number_at(args, 4),
    }
}

/// The numbers that a transcoder answers: two of which the first is as wide as addresses of the source, or one as wide as those of the
/// destination.
fn numbers_of(
    alloc: Global,
    made: &Transcoded,
    from64: bool,
    to64: bool,
) -> Result<Seq<CoreValue>, OutOfMemory>
    ensures bits { IfOk result (λ values. map bits_of values ≡ both_listed made.now.first made.now.second) }
    ensures typed { IfOk result (λ values. AreOfCoreTypes (number_types from64 to64 made.now.first made.now.second) values) }
{
    let mut results = Seq::new(alloc);
    match (made.first, made.second) {
        (Some(read), Some(written)) => {
            results.push(address_of(from64, read)?)?;
            results.push(address_of(to64, written)?)?;
        }
        (Some(units), None) => results.push(address_of(to64, units)?)?,
        (None, Some(written)) => results.push(address_of(to64, written)?)?,
        (None, None) => {}
    }
    Ok(results)
}

/// A call of a transcoder between two memories.
fn transcodes(
    alloc: Global,
    op: Transcode,
    from: (u32, bool),
    to: (u32, bool),
    args: &[CoreValue],
    state: &MachineState,
) -> Result<Answer, OutOfMemory>
    ensures { IfOk result (λ answer. (func : ℕ) (k : what_is_known) → TranscodesBy k op from.0 from.1 to.0 to.1 (event_by func args.now state.now answer) k) }
{
    let asked = told_of(args);
    let destination = memory_at(state, to.0);
    let Some(transcoded) = transcode(alloc, op, memory_at(state, from.0), destination, &asked)?
    else {
        return Ok(Answer::Traps);
    };
    let results = numbers_of(alloc, &transcoded, from.1, to.1)?;
    let mut store = Store::of_memory(alloc, destination, 0)?;
    store.put(asked.to, transcoded.bytes.as_slice());
    let state = with_memory(state, to.0, store.bytes)?;
    Ok(Answer::Returns { results, state })
}

/// A call that moves a handle: its number is the next one.
fn transfers(alloc: Global, known: &mut Known, state: &MachineState) -> Result<Answer, OutOfMemory>
    ensures answers { IfOk result (λ answer. answer ≡ Answer.Returns (CoreValue.I32 (suc known.old.transfers) ∷ []) state.now) }
    ensures few { IfOk result (λ answer. suc known.old.transfers < 2 ^ 32) }
    ensures known { IfOk result (λ answer. known.new ≡ record known.old { transfers = suc known.old.transfers }) }
    ensures returned { known.new.returned ≡ known.old.returned }
{
    let Some(number) = known.transfers.checked_add(1) else {
        return Err(AllocError);
    };
    let answer = unchanged(alloc, state, Some(CoreValue::I32(number)))?;
    known.transfers = number;
    Ok(answer)
}

/// A call of an imported function that is not the callee, by what it is to the host.
pub fn answered(
    alloc: Global,
    known: &mut Known,
    call: &HostCall,
    role: Role,
    args: &[CoreValue],
    state: &MachineState,
) -> Result<Answer, OutOfMemory>
    requires { role ≢ Role.Callee }
    ensures answers { IfOk result (λ answer. (func : ℕ) (s : CallShapes) (values : an_option (List a_value)) → Answers call.now s values role known.old (event_by func args.now state.now answer) known.new) }
    ensures returned { known.new.returned ≡ known.old.returned }
{
    match role {
        Role::LiftRealloc => {
            let is_destination = !known.returned;
            reallocates(alloc, known, &call.lift, is_destination, args, state)
        }
        Role::LowerRealloc => {
            let is_destination = known.returned;
            reallocates(alloc, known, &call.lower, is_destination, args, state)
        }
        Role::Transcoder {
            op,
            from,
            from64,
            to,
            to64,
        } => transcodes(alloc, op, (from, from64), (to, to64), args, state),
        Role::Transfer => transfers(alloc, known, state),
        Role::Slot => unchanged(alloc, state, Some(CoreValue::I32(0))),
        Role::Told | Role::PostReturn => unchanged(alloc, state, None),
        Role::Refused => Ok(Answer::Traps),
        Role::Callee => unreachable!(),
    }
}
