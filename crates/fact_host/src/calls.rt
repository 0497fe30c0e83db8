//! The call of an adapter with values: [`call`].

ghost use Rattle.std.specs.Prelude.{◌≡◌, ◌≢◌, ◌++◌, ℕ, List, IfErr, IfOk};
ghost use Rattle.fact_machine.specs.Causes.{answers_of};
ghost use Rattle.fact_machine.specs.Machine.{run_of};
ghost use Rattle.fact_host.specs.Contract.{AreTypesLive, AreSuited, HasNoCause, IsCallable, IsHostCause, IsFresh, IsOutcomeOf, IsReachedBy, results_reached, steps_given};
ghost use Rattle.fact_host.specs.Describes.{HasCallShapes};
ghost use Rattle.fact_host.specs.Lawful.{CameOf, HasGivenBy, IsCalleeCause, IsHosting, IsLawfulHost, IsSameHost, told_by};
ghost use Rattle.fact_host.specs.Rules.{CallShapes};

use crate::answers::memory_of;
use crate::beginning::{Begun, Started, start};
use crate::callee::{Callee, HostError};
use crate::calling::{HostCall, HostOutcome};
use crate::host::{Host, Kept};
use crate::known::Known;
use crate::laws::laws_of_typed_answers;
use crate::results::are_values;
use crate::roles::roles_of;
use fact_abi::Value;
use fact_check::{laws_of_seen, read_constants};
use fact_interpreter::Machine;
use fact_lowering::{Lowering, fits, lift_results};
use fact_machine::{CoreValue, End, MachineState, Outcome};
use fact_types::ComponentTypes;
use fact_wasm::{OutOfMemory, Seq, WasmModule};
use std::alloc::Global;

/// The steps that a run may take: enough for the heaviest values.
const MOST_STEPS: u64 = 2_000_001_000;

/// What the caller got of a run that returned.
fn results_of(
    alloc: Global,
    types: &ComponentTypes,
    call: &HostCall,
    args: &[CoreValue],
    outcome: &Outcome,
) -> Result<Option<Seq<Value>>, OutOfMemory>
    requires { AreTypesLive types.now call.now }
    ensures { IfOk result (λ values. (s : CallShapes) → HasCallShapes types.now call.now s → values ≡ results_reached call.now s args.now outcome.now.end outcome.now.state) }
{
    let End::Returned(results) = &outcome.end else {
        return Ok(None);
    };
    let side = &call.lower;
    let from = Lowering {
        alloc,
        types,
        side: side.abi,
    };
    let bytes = memory_of(&outcome.state, side.memory);
    lift_results(
        &from,
        side.results.as_slice(),
        bytes,
        args,
        results.as_slice(),
    )
}

/// A run on a host: its outcome, and what the callee was given.
#[derive(Drop)]
struct HostRun {
    outcome: Outcome,
    params: Option<Seq<Value>>,
}

/// Runs the adapter's function on a host.
fn run_with_host<C: Callee>(
    alloc: Global,
    module: &WasmModule,
    func: u32,
    begun: &Begun,
    host: &mut Host<'_, C>,
) -> Result<Outcome, OutOfMemory>
    requires hosting { IsHosting host.old.types.now host.old.call.now host.old.kept.now.roles }
    requires ready { C.ready host.old.callee.now }
    ensures same_callee { host.new.callee.ghost_name ≡ host.old.callee.ghost_name }
    ensures same_kept { host.new.kept.ghost_name ≡ host.old.kept.ghost_name }
    ensures same { IsSameHost host.old host.new }
    ensures callee { (first : C) → C.stays first host.old.callee.now → C.stays first host.new.callee.now }
    ensures lawful { (cursors : List ℕ) → IsLawfulHost (told_by C.last C.answered C.given) cursors host.old → IsLawfulHost (told_by C.last C.answered C.given) cursors host.new }
    ensures runs { IfOk result (λ outcome. outcome ≡ run_of «module».now func begun.now.args begun.now.state (answers_of outcome.log) steps_given) }
    ensures events { IfOk result (λ outcome. host.new.kept.now.events ≡ host.old.kept.now.events ++ outcome.log) }
    ensures lacks_none { IfOk result (λ outcome. outcome.end ≢ End.Lacks) }
{
    let args = begun.args.as_slice();
    Machine::run_with(alloc, module, func, args, &begun.state, host, MOST_STEPS)
}

/// Runs the adapter's function on a host whose memories have these cursors.
fn run_on_host<C: Callee>(
    alloc: Global,
    types: &ComponentTypes,
    module: &WasmModule,
    call: &HostCall,
    begun: &Begun,
    cursors: Seq<u64>,
    callee: &mut C,
) -> Result<HostRun, HostError>
    requires callable { (s : CallShapes) × IsCallable «module».now types.now call.now s }
    requires live { AreTypesLive types.now call.now }
    requires fresh { IsFresh (C.last callee.old) (C.answered callee.old) (C.given callee.old) }
    requires ready { C.ready callee.old }
    ensures stays { (first : C) → C.stays first callee.old → C.stays first callee.new }
    ensures runs { IfOk result (λ run. run.outcome ≡ run_of «module».now call.now.func begun.now.args begun.now.state (answers_of run.outcome.log) steps_given) }
    ensures lacks_none { IfOk result (λ run. run.outcome.end ≢ End.Lacks) }
    ensures came { IfOk result (λ run. (s : CallShapes) → HasCallShapes types.now call.now s → CameOf «module».now types.now call.now s cursors (told_by C.last C.answered C.given callee.new) run.outcome.log run.params) }
    ensures cause { IfErr result (λ error. (s : CallShapes) → HasCallShapes types.now call.now s → IsCalleeCause s (told_by C.last C.answered C.given callee.new) error) }
    ensures given { IfErr result (λ error. (s : CallShapes) → HasCallShapes types.now call.now s → HasGivenBy «module».now types.now call.now s cursors begun.now.args begun.now.state (C.given callee.new) error) }
{
    let roles = roles_of(alloc, module, call)?;
    let known = Known {
        cursors,
        live: Seq::new(alloc),
        returned: false,
        transfers: 0,
    };
    let mut kept = Kept {
        roles,
        known,
        params: None,
        error: None,
        events: Seq::new(alloc),
    };
    let run = {
        let mut host = Host {
            alloc,
            types,
            call,
            callee,
            kept: &mut kept,
        };
        run_with_host(alloc, module, call.func, begun, &mut host)
    };
    let Kept { params, error, .. } = kept;
    let outcome = run?;
    match error {
        Some(error) => Err(error),
        None => Ok(HostRun { outcome, params }),
    }
}

/// Calls an adapter of a module with values (canonical ABI, "canon lower" and "canon lift"), on a host of its own, in whose run the callee
/// is asked for its results. Each memory that a side names has 65,536 bytes, and the run at most 2,000,001,000 steps. The errors are those
/// of the arguments, and then what the callee errs with, those of what it answers, and a want of memory.
pub fn call<C: Callee>(
    alloc: Global,
    types: &ComponentTypes,
    module: &WasmModule,
    call: &HostCall,
    args: &[Value],
    callee: &mut C,
) -> Result<HostOutcome, HostError>
    requires callable { (s : CallShapes) × IsCallable «module».now types.now call.now s }
    requires live { AreTypesLive types.now call.now }
    requires fresh { IsFresh (C.last callee.old) (C.answered callee.old) (C.given callee.old) }
    requires ready { C.ready callee.old }
    ensures outcome { IfOk result (λ o. (s : CallShapes) → HasCallShapes types.now call.now s → IsOutcomeOf «module».now types.now call.now s args.now (C.answered callee.new) (C.given callee.new) o) }
    ensures no_cause { IfOk result (λ o. (s : CallShapes) → HasCallShapes types.now call.now s → HasNoCause s args.now (C.last callee.new) (C.answered callee.new)) }
    ensures cause { IfErr result (λ e. (s : CallShapes) → HasCallShapes types.now call.now s → IsHostCause s args.now (C.last callee.new) (C.answered callee.new) e) }
    ensures reached { IfErr result (λ e. (s : CallShapes) → HasCallShapes types.now call.now s → IsReachedBy «module».now types.now call.now s args.now (C.given callee.new) e) }
    // Where the arguments cannot be carried, the callee is not asked.
    ensures unasked { (s : CallShapes) → HasCallShapes types.now call.now s → (AreSuited s args.now → ⊥) → IsFresh (C.last callee.new) (C.answered callee.new) (C.given callee.new) }
    ensures stays { (first : C) → C.stays first callee.old → C.stays first callee.new }
{
    let tys = call.lower.params.as_slice();
    if !are_values(alloc, types, tys, args)? {
        return Err(HostError::Unsuited);
    }
    if !fits(alloc, types, tys, call.lift.params.as_slice(), args)? {
        return Err(HostError::OverLimit);
    }
    let started = start(alloc, types, module, call, args)?;
    let Started { begun, cursors } = started;
    read_constants(module);
    laws_of_seen();
    laws_of_typed_answers();
    let run = run_on_host(alloc, types, module, call, &begun, cursors, callee)?;
    let HostRun { outcome, params } = run;
    let results = results_of(alloc, types, call, begun.args.as_slice(), &outcome)?;
    Ok(HostOutcome {
        outcome,
        params,
        results,
    })
}
