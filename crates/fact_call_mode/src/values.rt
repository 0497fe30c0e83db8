//! The values of the input of a call.

ghost use Rattle.std.specs.Prelude.{◌≡◌, ◌<◌, All, IfOk, List, MatchResult, Ok, Err, true, length};
ghost use Rattle.serde_json.specs.View.{view};
ghost use Rattle.fact_types.specs.Adapters.{LinkedAdapter};
ghost use Rattle.fact_types.specs.Functions.{HaveShapes};
ghost use Rattle.fact_types.specs.Shapes.{Shape};
ghost use Rattle.fact_types.specs.Tables.{IsLive};
ghost use Rattle.fact_plan.specs.declared.plan.FusePlan.{FusePlan as a_plan};
ghost use Rattle.fact_adapter_rules.specs.Linked.{HasSides};
ghost use Rattle.fact_lowering.specs.Room.{fits as values_fit};
ghost use Rattle.fact_host.specs.Contract.{AreOfTypes};
ghost use Rattle.fact_value_json.specs.Reading.{values_at};
ghost use Rattle.fact_call_mode.specs.Calls.{AreFitting};
ghost use Rattle.fact_call_mode.specs.Replies.{CanBeCarried, HasBadValues, IsReplyOver, IsReplyToValues, input_with, shapes_of};

use crate::reply::{CallReply, bad_value};
use fact_abi::Value;
use fact_adapter_rules::Adapter;
use fact_lowering::fits;
use fact_plan_types::PlanTypes;
use fact_types::{ComponentTypes, InterfaceType};
use fact_value_json::{laws_of_json_values, read_values};
use fact_wasm::Seq;
use serde_json::Value as Json;
use std::alloc::Global;

/// The arguments that the first caller gives, and the results that the last callee answers.
#[derive(Drop)]
pub struct Values {
    pub args: Seq<Value>,
    pub results: Seq<Value>,
}

/// The values of live types, one by one, that stand in a JSON list, or what a fault of them comes to; its path begins with `path`.
pub fn read_list(
    alloc: Global,
    types: &ComponentTypes,
    tys: &[InterfaceType],
    json: &Json,
    path: &str,
) -> Result<Seq<Value>, CallReply>
    requires { All (λ ty. IsLive types.now ty) tys.now }
    ensures values { (ss : List Shape) → HaveShapes types.now tys.now ss → MatchResult result (λ vs. values_at path.now ss (view json.now) ≡ Ok vs) (λ r. HasBadValues (values_at path.now ss (view json.now)) r) }
    ensures typed { IfOk result (λ vs. (ss : List Shape) → HaveShapes types.now tys.now ss → AreOfTypes ss vs) }
{
    laws_of_json_values();
    match read_values(alloc, types, tys, json, path) {
        Ok(values) => Ok(values),
        Err(fault) => Err(bad_value(fault)),
    }
}

/// Refuses values that ask for too much on their way from types to others, all of them live.
pub fn check_fits(
    alloc: Global,
    types: &ComponentTypes,
    from: &[InterfaceType],
    to: &[InterfaceType],
    values: &[Value],
) -> Result<(), CallReply>
    requires from { All (λ ty. IsLive types.now ty) from.now }
    requires to { All (λ ty. IsLive types.now ty) to.now }
    ensures { (ts us : List Shape) → HaveShapes types.now from.now ts → HaveShapes types.now to.now us
        → MatchResult result (λ _. values_fit ts us values.now ≡ true) (λ r. IsReplyOver (values_fit ts us values.now) r) }
{
    if fits(alloc, types, from, to, values)? {
        Ok(())
    } else {
        Err(CallReply::OverLimit)
    }
}

/// The values of an input, by the types of an adapter's functions: the arguments by the parameters of the caller, and the results by those of the
/// callee. They can be carried: they are of these types, and fit in the memories of a host.
pub(crate) fn values_in(
    alloc: Global,
    types: &PlanTypes,
    adapter: &Adapter,
    args: &Json,
    results: &Json,
) -> Result<Values, CallReply>
    requires lower { adapter.now.lower_ty.number < length types.now.builder.tables.functions }
    requires lift { adapter.now.lift_ty.number < length types.now.builder.tables.functions }
    ensures values { (p : a_plan) (a : LinkedAdapter) → HasSides types.now.builder adapter.now a
        → MatchResult result (λ v. AreFitting a (input_with p args.now results.now) v.args v.results) (λ r. IsReplyToValues a (input_with p args.now results.now) r) }
    ensures carried { IfOk result (λ v. (a : LinkedAdapter) → HasSides types.now.builder adapter.now a → CanBeCarried (shapes_of a) v.args v.results) }
{
    let builder = &types.builder;
    let tables = builder.component_types();
    let given = builder.params_of(adapter.lower_ty);
    let answered = builder.results_of(adapter.lift_ty);
    let args = read_list(alloc, tables, given, args, "call.args")?;
    let results = read_list(alloc, tables, answered, results, "call.results")?;
    let passed = builder.params_of(adapter.lift_ty);
    let returned = builder.results_of(adapter.lower_ty);
    check_fits(alloc, tables, given, passed, args.as_slice())?;
    check_fits(alloc, tables, answered, returned, results.as_slice())?;
    Ok(Values { args, results })
}
