//! The values of the input of a chain.

ghost use Rattle.std.specs.Prelude.{◌<◌, MatchResult, Ok, length};
ghost use Rattle.fact_types.specs.Adapters.{LinkedAdapter};
ghost use Rattle.fact_plan.specs.declared.plan.FusePlan.{FusePlan as a_plan};
ghost use Rattle.fact_adapter_rules.specs.Linked.{HasSides};
ghost use Rattle.fact_chain_mode.specs.ChainReplies.{AreRead, IsReplyToValues, input_with};

use crate::input::Asked;
use crate::pairs::Pair;
use fact_call_mode::{CallReply, Values, check_fits, read_list};
use fact_plan_types::PlanTypes;
use std::alloc::Global;

/// The values that are asked for, by the types of two adapters' functions: the arguments by the parameters of the first caller, and the results by
/// those of the last callee. The results fit on their first way; the other ways are judged by the calls.
pub(crate) fn values_in(
    alloc: Global,
    types: &PlanTypes,
    pair: &Pair,
    asked: &Asked<'_>,
) -> Result<Values, CallReply>
    requires args { pair.now.first.lower_ty.number < length types.now.builder.tables.functions }
    requires results { pair.now.second.lift_ty.number < length types.now.builder.tables.functions }
    requires back { pair.now.second.lower_ty.number < length types.now.builder.tables.functions }
    ensures { (p : a_plan) (a b : LinkedAdapter) → HasSides types.now.builder pair.now.first a → HasSides types.now.builder pair.now.second b
        → MatchResult result (λ v. AreRead a b (input_with p asked.now) v) (λ r. IsReplyToValues a b (input_with p asked.now) r) }
{
    let builder = &types.builder;
    let tables = builder.component_types();
    let given = builder.params_of(pair.first.lower_ty);
    let answered = builder.results_of(pair.second.lift_ty);
    let args = read_list(alloc, tables, given, asked.args, "chain.args")?;
    let results = read_list(alloc, tables, answered, asked.results, "chain.results")?;
    let returned = builder.results_of(pair.second.lower_ty);
    check_fits(alloc, tables, answered, returned, results.as_slice())?;
    Ok(Values { args, results })
}
