//! The chain of two adapters on a host.

ghost use Rattle.std.specs.Prelude.{◌≡◌, ℕ, List, Some};
ghost use Rattle.fact_types.specs.Adapters.{LinkedAdapter};
ghost use Rattle.fact_plan.specs.declared.plan.FusePlan.{FusePlan as a_plan};
ghost use Rattle.fact_values.specs.declared.value.Value.{Value as a_value};
ghost use Rattle.fact_host.specs.Contract.{AreTypesLive};
ghost use Rattle.fact_host.specs.declared.calling.HostOutcome.{HostOutcome as an_outcome};
ghost use Rattle.fact_chain_mode.specs.ChainReplies.{AreHosted, CanBeChained, IsReplyToError, IsReplyToOutcomes, IsToldChain};

use crate::input::Asked;
use crate::pairs::Pair;
use crate::telling::outcomes_text;
use fact_adapter_rules::Adapter;
use fact_call_mode::{CallReply, Values, call_of};
use fact_chain::{Chained, chain};
use fact_chain_laws::laws_of_chains;
use fact_check::read_constants;
use fact_host::{HostCall, HostError};
use fact_module::Fused;
use fact_plan_types::PlanTypes;
use fact_types::ComponentTypes;
use fact_wasm::OutOfMemory;
use std::alloc::Global;

/// What the outcomes of two calls come to: the text that tells them. Where the second call was not made, the values do not fit on one of their ways.
fn reply_to_outcomes(
    alloc: Global,
    types: &ComponentTypes,
    first: &HostCall,
    second: &HostCall,
    chained: &Chained,
) -> CallReply
    requires first_live { AreTypesLive types.now first.now }
    requires second_live { AreTypesLive types.now second.now }
    requires there { (o : an_outcome) → chained.now.inner ≡ Some o → ((vs : List a_value) × (o.params ≡ Some vs)) × ((vs : List a_value) × (chained.now.outer.results ≡ Some vs)) }
    ensures { IsReplyToOutcomes types.now first.now second.now chained.now result }
{
    match &chained.inner {
        Some(inner) => {
            match outcomes_text(alloc, types, first, second, &chained.outer, inner) {
                Ok(text) => CallReply::Page(text),
                Err(_) => CallReply::OutOfMemory,
            }
        }
        None => CallReply::OverLimit,
    }
}

/// What an error of a chain comes to. One that is no want of memory comes where the values do not fit on one of their ways.
fn reply_to_error(error: HostError) -> CallReply
    ensures { IsReplyToError error result }
{
    match error {
        HostError::OutOfMemory => CallReply::OutOfMemory,
        _ => CallReply::OverLimit,
    }
}

/// What a chain of two calls with values comes to: the last callee answers the results, whatever it is given.
fn told(
    alloc: Global,
    types: &ComponentTypes,
    fused: &Fused,
    first: &HostCall,
    second: &HostCall,
    values: Values,
) -> CallReply
    requires first_live { AreTypesLive types.now first.now }
    requires second_live { AreTypesLive types.now second.now }
    requires hosted { (fuel : ℕ) × (p : a_plan) × (a : LinkedAdapter) × (b : LinkedAdapter) × AreHosted fuel p a b types.now fused.now first.now second.now values }
    ensures { (fuel : ℕ) (p : a_plan) (a b : LinkedAdapter) → AreHosted fuel p a b types.now fused.now first.now second.now values → IsToldChain fuel p a b values result }
{
    laws_of_chains();
    let args = values.args.as_slice();
    let results = values.results.as_slice();
    let outcomes = chain(alloc, types, &fused.module, first, second, args, results);
    drop(values);
    match outcomes {
        Ok(chained) => {
            let reply = reply_to_outcomes(alloc, types, first, second, &chained);
            drop(chained);
            reply
        }
        Err(error) => reply_to_error(error),
    }
}

/// What the chain of two adapters comes to, over the types of their plan, by their names in the module that was fused of the plan.
pub(crate) fn chain_told(
    alloc: Global,
    types: &PlanTypes,
    fused: &Fused,
    pair: &Pair,
    asked: &Asked<'_>,
    values: Values,
) -> CallReply
    requires { (fuel : ℕ) × (p : a_plan) × CanBeChained fuel p asked.now types.now pair.now fused.now values }
    ensures { (fuel : ℕ) (p : a_plan) (can : CanBeChained fuel p asked.now types.now pair.now fused.now values)
        → IsToldChain fuel p can.may.paired.first.links.linked can.may.paired.second.links.linked values result }
{
    read_constants(&fused.module);
    types.builder.reveal();
    let first = match call_of(alloc, types, fused, &pair.first, asked.first) {
        Ok(first) => first,
        Err(_) => {
            drop(values);
            return CallReply::OutOfMemory;
        }
    };
    let second = match call_of(alloc, types, fused, &pair.second, asked.second) {
        Ok(second) => second,
        Err(_) => {
            drop(values);
            drop(first);
            return CallReply::OutOfMemory;
        }
    };
    let tables = types.builder.component_types();
    let reply = told(alloc, tables, fused, &first, &second, values);
    drop(first);
    drop(second);
    reply
}
