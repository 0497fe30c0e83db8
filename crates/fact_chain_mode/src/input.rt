//! The input of a chain: a JSON object of a plan, of the names of two adapters, of arguments and of results.

ghost use Rattle.std.specs.Prelude.{◌≡◌, Ok, Err, MatchResult};
ghost use Rattle.serde_json.specs.View.{view};
ghost use Rattle.fact_plan.specs.Fault.{UnlessMemory};
ghost use Rattle.fact_plan.specs.Parts.{field, text_in};
ghost use Rattle.fact_chain_mode.specs.ChainInputs.{chain_input, chain_input_in};
ghost use Rattle.fact_chain_mode.specs.ChainReplies.{input_of};

use fact_call_mode::member;
use fact_plan::{FusePlan, PlanFault, check_known, check_required, plan_at};
use serde_json::Value as Json;
use std::alloc::Global;

const CHAIN_KEYS: [&str; 5] = ["plan", "first", "second", "args", "results"];

/// What is asked of a plan: the names of two adapters, and the JSON values of arguments and results, whose types only the plan tells.
#[derive(Drop)]
pub(crate) struct Asked<'a> {
    pub first: &'a str,
    pub second: &'a str,
    pub args: &'a Json,
    pub results: &'a Json,
}

/// A plan, and what is asked of it.
#[derive(Drop)]
pub(crate) struct Input<'a> {
    pub plan: FusePlan,
    pub asked: Asked<'a>,
}

/// The name that the value of a key of an object is, which has to be there.
#[tactic(auto, unfolding(fact_plan::specs::Parts::text_in))]
fn name_at<'a>(alloc: Global, json: &'a Json, key: &str) -> Result<&'a str, PlanFault>
    ensures { MatchResult result (λ name. field text_in key.now (view json.now) ≡ Ok name.now) (λ e. UnlessMemory e (field text_in key.now (view json.now) ≡ Err e)) }
{
    let value = member(alloc, json, key)?;
    match value.as_str() {
        Some(name) => Ok(name),
        None => {
            let step = format!(in alloc; ".{key}")?;
            Err(PlanFault::wrong_kind(alloc).under(alloc, step.as_str())?)
        }
    }
}

/// What is asked of the plan that stands in a JSON value, or the first fault in it, whose path begins below the value.
#[tactic(auto, unfolding(crate::specs::ChainInputs::chain_input_in))]
fn read_members<'a>(alloc: Global, json: &'a Json) -> Result<Input<'a>, PlanFault>
    ensures { MatchResult result (λ x. chain_input_in (view json.now) ≡ Ok (input_of x)) (λ e. UnlessMemory e (chain_input_in (view json.now) ≡ Err e)) }
{
    check_known(alloc, json, &CHAIN_KEYS)?;
    check_required(alloc, json, &CHAIN_KEYS)?;
    let plan = plan_at(alloc, json, "plan")?;
    let first = name_at(alloc, json, "first")?;
    let second = name_at(alloc, json, "second")?;
    let args = member(alloc, json, "args")?;
    let results = member(alloc, json, "results")?;
    let asked = Asked {
        first,
        second,
        args,
        results,
    };
    Ok(Input { plan, asked })
}

/// The input that stands in a JSON value, or the first fault in it: the least unknown key by bytes, then the first missing key, then what is no
/// plan, then what is no name. Paths begin with `chain`.
#[tactic(auto, unfolding(crate::specs::ChainInputs::chain_input))]
pub(crate) fn read_input<'a>(alloc: Global, json: &'a Json) -> Result<Input<'a>, PlanFault>
    ensures { MatchResult result (λ x. chain_input (view json.now) ≡ Ok (input_of x)) (λ e. UnlessMemory e (chain_input (view json.now) ≡ Err e)) }
{
    match read_members(alloc, json) {
        Ok(input) => Ok(input),
        Err(fault) => Err(fault.under(alloc, "chain")?),
    }
}
