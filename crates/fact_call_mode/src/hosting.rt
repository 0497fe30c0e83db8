//! The call of an adapter on a host.

ghost use Rattle.std.specs.Prelude.{◌≡◌, ℕ, Bool, IfOk, string_bytes};
ghost use Rattle.fact_types.specs.Adapters.{LinkedAdapter};
ghost use Rattle.fact_plan.specs.declared.plan.FusePlan.{FusePlan as a_plan};
ghost use Rattle.fact_check.specs.Constants.{HasTypedConstants};
ghost use Rattle.fact_host.specs.Contract.{AreTypesLive, IsCallable};
ghost use Rattle.fact_host.specs.Rules.{CallShapes};
ghost use Rattle.fact_call_mode.specs.Calls.{TellsCall};
ghost use Rattle.fact_call_mode.specs.Replies.{CanBeCalled, CanBeCarried, HasOutcome, IsCallOf, IsHosted, IsNamedCall};

use crate::places::{func_named, host_call};
use crate::telling::outcome_text;
use crate::values::Values;
use fact_abi::Value;
use fact_adapter_rules::Adapter;
use fact_call_laws::laws_of_calls;
use fact_check::read_constants;
use fact_host::{HostCall, HostError, HostOutcome, Scripted, call};
use fact_module::Fused;
use fact_plan_types::PlanTypes;
use fact_types::ComponentTypes;
use fact_wasm::{OutOfMemory, Seq};
use std::alloc::{AllocError, Global};

/// The want of memory that an error is.
fn out_of_memory(error: HostError) -> OutOfMemory
    requires { error ≡ HostError.OutOfMemory }
{
    match error {
        HostError::OutOfMemory => AllocError,
        _ => unreachable!(),
    }
}

/// The outcome of a call whose callee answers these results, whatever it is given. Arguments and results can be carried, so that its one error is a
/// want of memory.
fn outcome_of(
    alloc: Global,
    types: &ComponentTypes,
    fused: &Fused,
    host: &HostCall,
    args: &[Value],
    results: Seq<Value>,
) -> Result<HostOutcome, OutOfMemory>
    requires live { AreTypesLive types.now host.now }
    requires callable { (s : CallShapes) × IsCallable fused.now.module types.now host.now s × CanBeCarried s args.now results }
    ensures { IfOk result (λ o. (last : ℕ) × (asked : Bool) × HasOutcome fused.now types.now host.now args.now results last asked o) }
{
    let mut callee = Scripted::new(results);
    match call(alloc, types, &fused.module, host, args, &mut callee) {
        Ok(outcome) => Ok(outcome),
        Err(error) => Err(out_of_memory(error)),
    }
}

/// The text that tells the call of an adapter with values: its callee answers these results, whatever it is given.
fn told(
    alloc: Global,
    types: &ComponentTypes,
    fused: &Fused,
    host: &HostCall,
    values: Values,
) -> Result<String, OutOfMemory>
    requires live { AreTypesLive types.now host.now }
    requires hosted { (fuel : ℕ) × (p : a_plan) × (a : LinkedAdapter) × IsHosted fuel p a types.now fused.now host.now values }
    ensures { IfOk result (λ text. (fuel : ℕ) (p : a_plan) (a : LinkedAdapter) → IsHosted fuel p a types.now fused.now host.now values → TellsCall fuel p a values.args values.results (string_bytes text)) }
{
    laws_of_calls();
    let Values {
        args: passed,
        results: answered,
    } = values;
    let outcome = outcome_of(alloc, types, fused, host, passed.as_slice(), answered)?;
    drop(passed);
    let text = outcome_text(alloc, types, host, &outcome);
    drop(outcome);
    text
}

/// The call of an adapter over the types of its plan, by its name in the module that was fused of the plan.
pub fn call_of(
    alloc: Global,
    types: &PlanTypes,
    fused: &Fused,
    adapter: &Adapter,
    name: &str,
) -> Result<HostCall, OutOfMemory>
    requires constants { HasTypedConstants fused.now.module }
    requires named { (fuel : ℕ) × (p : a_plan) × IsNamedCall fuel p name.now types.now adapter.now fused.now }
    ensures live { IfOk result (λ c. AreTypesLive types.now.builder.tables c) }
    ensures calls { IfOk result (λ c. (fuel : ℕ) (p : a_plan) (named : IsNamedCall fuel p name.now types.now adapter.now fused.now) → IsCallOf fuel p named.linked.links.linked types.now.builder.tables fused.now c) }
{
    let func = func_named(&fused.module, name);
    host_call(alloc, fused, types, adapter, func)
}

/// The text that tells the call of an adapter over the types of its plan, by its name in the module that was fused of the plan.
pub(crate) fn call_told(
    alloc: Global,
    types: &PlanTypes,
    fused: &Fused,
    adapter: &Adapter,
    name: &str,
    values: Values,
) -> Result<String, OutOfMemory>
    requires { (fuel : ℕ) × (p : a_plan) × CanBeCalled fuel p name.now types.now adapter.now fused.now values }
    ensures { IfOk result (λ text. (fuel : ℕ) (p : a_plan) (can : CanBeCalled fuel p name.now types.now adapter.now fused.now values)
        → TellsCall fuel p can.may.linked.links.linked values.args values.results (string_bytes text)) }
{
    read_constants(&fused.module);
    let host = match call_of(alloc, types, fused, adapter, name) {
        Ok(host) => host,
        Err(error) => {
            drop(values);
            return Err(error);
        }
    };
    let text = told(alloc, types.builder.component_types(), fused, &host, values);
    drop(host);
    text
}
