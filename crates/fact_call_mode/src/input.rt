//! The input of a call: a JSON object of a plan, of arguments and of results.

ghost use Rattle.std.specs.Prelude.{◌≡◌, Ok, Err, MatchResult};
ghost use Rattle.serde_json.specs.Find.{get};
ghost use Rattle.serde_json.specs.View.{view};
ghost use Rattle.fact_plan.specs.Fault.{UnlessMemory};
ghost use Rattle.fact_plan.specs.Parts.{required_value};
ghost use Rattle.fact_call_mode.specs.Inputs.{call_input, input_in};
ghost use Rattle.fact_call_mode.specs.Replies.{input_of};

use fact_plan::{FusePlan, PlanFault, check_known, check_required, plan_at};
use serde_json::Value as Json;
use std::alloc::Global;

const CALL_KEYS: [&str; 3] = ["plan", "args", "results"];

/// A plan, and the JSON values of arguments and results, whose types only the plan tells.
#[derive(Drop)]
pub(crate) struct Input<'a> {
    pub plan: FusePlan,
    pub args: &'a Json,
    pub results: &'a Json,
}

/// The value of a key of an object, which has to be there: a fault is that it is missing, and its path is a dot and the key.
pub fn member<'a>(alloc: Global, json: &'a Json, key: &str) -> Result<&'a Json, PlanFault>
    ensures { MatchResult result (λ v. required_value key.now (get key.now (view json.now)) ≡ Ok (view v.now))
        (λ e. UnlessMemory e (required_value key.now (get key.now (view json.now)) ≡ Err e)) }
{
    match json.get(key) {
        Some(value) => Ok(value),
        None => Err(PlanFault::missing(alloc, key)?),
    }
}

/// The input that stands in a JSON value, or the first fault in it, whose path begins below the value.
#[tactic(auto, unfolding(crate::specs::Inputs::input_in))]
fn read_members<'a>(alloc: Global, json: &'a Json) -> Result<Input<'a>, PlanFault>
    ensures { MatchResult result (λ x. input_in (view json.now) ≡ Ok (input_of x)) (λ e. UnlessMemory e (input_in (view json.now) ≡ Err e)) }
{
    check_known(alloc, json, &CALL_KEYS)?;
    check_required(alloc, json, &CALL_KEYS)?;
    let plan = plan_at(alloc, json, "plan")?;
    let args = member(alloc, json, "args")?;
    let results = member(alloc, json, "results")?;
    Ok(Input {
        plan,
        args,
        results,
    })
}

/// The input that stands in a JSON value, or the first fault in it: the least unknown key by bytes, then the first missing key, then what is no
/// plan. Paths begin with `call`.
#[tactic(auto, unfolding(crate::specs::Inputs::call_input))]
pub(crate) fn read_input<'a>(alloc: Global, json: &'a Json) -> Result<Input<'a>, PlanFault>
    ensures { MatchResult result (λ x. call_input (view json.now) ≡ Ok (input_of x)) (λ e. UnlessMemory e (call_input (view json.now) ≡ Err e)) }
{
    match read_members(alloc, json) {
        Ok(input) => Ok(input),
        Err(fault) => Err(fault.under(alloc, "call")?),
    }
}
