//! What a callee answered, judged and stored.

ghost use Rattle.std.specs.Prelude.{◌≡◌, ◌↔◌, IfOk, IsNone, IsTrue, List, Some, false, MatchOption};
ghost use Rattle.fact_types.specs.Functions.{HaveShapes};
ghost use Rattle.fact_types.specs.Shapes.{Shape};
ghost use Rattle.fact_lowering.specs.Lowered.{AreAllLive};
ghost use Rattle.fact_host.specs.Contract.{AreOfTypes, AnsweredTooMuch, AnsweredUnsuited};
ghost use Rattle.fact_host.specs.Describes.{HasCallShapes};
ghost use Rattle.fact_host.specs.Lawful.{IsAnswerOf, IsRefusal, IsSoundCall, called_known};
ghost use Rattle.fact_host.specs.Hosts.{cursor_in, left_known, left_state};
ghost use Rattle.fact_host.specs.Rules.{AreWrittenBytes, CallShapes, bytes_of_memory};
ghost use Rattle.fact_host.specs.declared.known.Known.{Known as what_is_known};

use crate::answers::{memory_of, with_memory};
use crate::callee::HostError;
use crate::calling::HostCall;
use crate::known::Known;
use fact_abi::{Value, is_value_of};
use fact_lowering::{Lowering, Store, fits, lower_tuple};
use fact_machine::{Answer, CoreValue, MachineState};
use fact_types::{ComponentTypes, InterfaceType, MAX_FLAT_RESULTS};
use fact_wasm::{OutOfMemory, Seq};
use std::alloc::{AllocError, Global};

/// Whether values are of types, one by one.
pub fn are_values(
    alloc: Global,
    types: &ComponentTypes,
    tys: &[InterfaceType],
    values: &[Value],
) -> Result<bool, OutOfMemory>
    requires { AreAllLive types.now tys.now }
    ensures { IfOk result (λ yes. (ss : List Shape) → HaveShapes types.now tys.now ss → IsTrue yes ↔ AreOfTypes ss values.now) }
{
    if tys.len() != values.len() {
        return Ok(false);
    }
    for (place, ty) in tys.iter().enumerate() {
        if !is_value_of(alloc, types, ty, &values[place])? {
            return Ok(false);
        }
    }
    Ok(true)
}

/// Why what the callee answered is not taken, if it is not.
pub fn refusal(
    alloc: Global,
    types: &ComponentTypes,
    call: &HostCall,
    values: &[Value],
) -> Result<Option<HostError>, OutOfMemory>
    requires { IsSoundCall types.now call.now }
    ensures why { IfOk result (λ o. (s : CallShapes) → HasCallShapes types.now call.now s → MatchOption o ((AnsweredUnsuited s (Some values.now) → ⊥) × (AnsweredTooMuch s (Some values.now) → ⊥)) (λ error. IsRefusal s values.now error)) }
    ensures suited { IfOk result (λ o. IsNone o → (s : CallShapes) → HasCallShapes types.now call.now s → AreOfTypes s.lift_results values.now) }
{
    let tys = call.lift.results.as_slice();
    if !are_values(alloc, types, tys, values)? {
        return Ok(Some(HostError::Unsuited));
    }
    if !fits(alloc, types, tys, call.lower.results.as_slice(), values)? {
        return Ok(Some(HostError::OverLimit));
    }
    Ok(None)
}

/// A copy of a memory that may be named, with its cursor.
fn store_of(
    alloc: Global,
    known: &Known,
    state: &MachineState,
    memory: Option<u32>,
) -> Result<Store, OutOfMemory>
    ensures bytes { IfOk result (λ store. store.bytes.items ≡ bytes_of_memory memory state.now) }
    ensures cursor { IfOk result (λ store. store.cursor ≡ cursor_in memory known.now) }
{
    let cursor = match memory {
        Some(number) => known.cursor_of(number),
        None => 0,
    };
    Store::of_memory(alloc, memory_of(state, memory), cursor)
}

/// What is answered where the callee answered these values, which are stored in the memory of its side.
pub fn answer_of(
    alloc: Global,
    types: &ComponentTypes,
    call: &HostCall,
    known: &mut Known,
    values: &[Value],
    state: &MachineState,
) -> Result<Answer, OutOfMemory>
    requires sound { IsSoundCall types.now call.now }
    requires suited { (s : CallShapes) → HasCallShapes types.now call.now s → AreOfTypes s.lift_results values.now }
    ensures { IfOk result (λ answer. (s : CallShapes) (k : what_is_known) → HasCallShapes types.now call.now s → k.returned ≡ false → known.old ≡ called_known k → IsAnswerOf k call.now s values.now state.now answer known.new) }
{
    let memory = call.lift.memory;
    let to = Lowering {
        alloc,
        types,
        side: call.lift.abi,
    };
    let mut store = store_of(alloc, known, state, memory)?;
    if store.bytes.len() >= 0x8000_0000 {
        return Err(AllocError);
    }
    if store.cursor > store.bytes.len() as u64 {
        return Ok(Answer::Traps);
    }
    let tys = call.lift.results.as_slice();
    match lower_tuple(&to, tys, &mut store, values, MAX_FLAT_RESULTS)? {
        Some(results) => left(known, memory, store, results, state),
        None => Ok(Answer::Traps),
    }
}

/// The answer that leaves a memory that may be named, and its cursor, as they are in a store.
fn left(
    known: &mut Known,
    memory: Option<u32>,
    store: Store,
    results: Seq<CoreValue>,
    state: &MachineState,
) -> Result<Answer, OutOfMemory>
    ensures leaves { IfOk result (λ answer. (answer ≡ Answer.Returns results (left_state memory state.now store.bytes.items)) × (known.new ≡ left_known memory known.old store.cursor)) }
    ensures bytes { AreWrittenBytes store.bytes.items }
{
    let Store { bytes, cursor } = store;
    if let Some(number) = memory {
        known.raise(number, cursor);
    }
    let state = with_bytes(state, memory, bytes)?;
    Ok(Answer::Returns { results, state })
}

/// An equal state but for a memory that may be named, which has other bytes.
pub fn with_bytes(
    state: &MachineState,
    memory: Option<u32>,
    bytes: Vec<u8>,
) -> Result<MachineState, OutOfMemory>
    ensures state { IfOk result (λ after. after ≡ left_state memory state.now bytes.items) }
    ensures bytes { AreWrittenBytes bytes.items }
{
    are_bytes(bytes.as_slice());
    match memory {
        Some(number) => with_memory(state, number, bytes),
        None => state.try_clone(),
    }
}

/// Bytes are below 256.
fn are_bytes(bytes: &[u8])
    ensures { AreWrittenBytes bytes.now }
{
    let _count = bytes.len();
}
