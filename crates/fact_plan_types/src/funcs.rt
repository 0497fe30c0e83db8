//! The functions of a plan, added to a builder in order.

ghost use Rattle.std.specs.Prelude.{◌≡◌, ◌+◌, ◌↔◌, All, Any, IfOk, IfErr, IfSome, IsTrue, List, OnOk, Some, length, slice_get};
ghost use Rattle.std.specs.List.{AllZip};
ghost use Rattle.fact_types.specs.Handles.{has_borrow};
ghost use Rattle.fact_types.specs.Functions.{HaveShapes};
ghost use Rattle.fact_types.specs.Shapes.{Shape};
ghost use Rattle.fact_types.specs.Tables.{IsLive};
ghost use Rattle.fact_plan_types.specs.Adding.{AddsFunc, KeepsFuncs, MakesTuple};
ghost use Rattle.fact_plan_types.specs.PlanShapes.{plan_shapes, shapes_of};
ghost use Rattle.fact_plan_types.specs.PlanTypes.{IsFirstOfTypes, IsFuncOf, told};
ghost use Rattle.fact_plan_types.specs.Reached.{HasFuncs, FuncBreaksFirst};
ghost use Rattle.fact_plan_types.specs.TypeRules.{IsFrom, NamesNoType, result_shapes};

use crate::error::{FuseError, Place};
use crate::members::{names_of_params, type_of, types_of};
use crate::rules::{Rule, broken_func_rule, types_of_fields};
use fact_builder::{ComponentTypesBuilder, make_tuple};
use fact_entity::PushError;
use fact_plan::{FusePlan, PlanFunc, PlanRef};
use fact_types::{InterfaceType, TypeFunc, TypeFuncIndex, TypeTupleIndex};
use fact_wasm::{OutOfMemory, Seq};
use std::alloc::Global;

/// Adds the functions of a plan behind its types, or tells the first fault among them.
pub(crate) fn add_funcs(
    alloc: Global,
    builder: &mut ComponentTypesBuilder,
    plan: &FusePlan,
    types: &[InterfaceType],
) -> Result<Vec<TypeFuncIndex>, FuseError>
    requires { HasFuncs plan.now 0 builder.old types.now }
    ensures reached { OnOk result (HasFuncs plan.now (length plan.now.funcs) builder.new types.now) }
    ensures added { IfOk result (λ funcs. AllZip (IsFuncOf plan.now builder.new.tables) funcs.items plan.now.funcs) }
    ensures refused { IfErr result (λ e. IfSome (told e) (λ x. IsFirstOfTypes plan.now x.0 x.1)) }
{
    let mut funcs = Vec::new(alloc);
    for (k, func) in plan.funcs.as_slice().iter().enumerate() {
        let index = add_func(alloc, builder, plan, types, k, func)?;
        funcs.push(index)?;
    }
    Ok(funcs)
}

/// Adds a function, or tells its first fault.
fn add_func(
    alloc: Global,
    builder: &mut ComponentTypesBuilder,
    plan: &FusePlan,
    types: &[InterfaceType],
    k: usize,
    func: &PlanFunc,
) -> Result<TypeFuncIndex, FuseError>
    requires reached { HasFuncs plan.now k builder.old types.now }
    requires here { slice_get plan.now.funcs k ≡ Some func.now }
    ensures reached { OnOk result (HasFuncs plan.now (k + 1) builder.new types.now) }
    ensures added { IfOk result (λ i. IsFuncOf plan.now builder.new.tables i func.now) }
    ensures keeps { OnOk result (KeepsFuncs builder.old.tables builder.new.tables) }
    ensures refused { IfErr result (λ e. IfSome (told e) (λ x. IsFirstOfTypes plan.now x.0 x.1)) }
{
    let place = Place::Func(k as u32);
    if let Some(rule) = broken_by(alloc, builder, plan, types, k, func)? {
        return Err(rule.broken_at(place));
    }
    match add_func_type(alloc, builder, types, func) {
        Ok(index) => Ok(index),
        Err(PushError::TooLarge) => Err(FuseError::TooLarge(place)),
        Err(PushError::OutOfMemory) => Err(FuseError::OutOfMemory),
    }
}

/// The first rule that a function breaks, but for those on the layouts of its tuples.
fn broken_by(
    alloc: Global,
    builder: &ComponentTypesBuilder,
    plan: &FusePlan,
    types: &[InterfaceType],
    k: usize,
    func: &PlanFunc,
) -> Result<Option<Rule>, OutOfMemory>
    requires live { All (IsLive builder.now.tables) types.now }
    requires shaped { HaveShapes builder.now.tables types.now (plan_shapes plan.now) }
    requires count { length types.now ≡ length plan.now.types }
    ensures { IfOk result (λ rule. FuncBreaksFirst plan.now k func.now (result_shapes plan.now func.now) rule) }
{
    let results = func.results.as_slice();
    match broken_func_rule(alloc, plan, k, func)? {
        Some(Rule::UnknownIndex) => Ok(Some(Rule::UnknownIndex)),
        Some(Rule::BadType) => Ok(Some(Rule::BadType)),
        Some(Rule::TooLarge) => {
            if is_any_borrow(builder, types, results) {
                return Ok(Some(Rule::BadType));
            }
            Ok(Some(Rule::TooLarge))
        }
        None => {
            if is_any_borrow(builder, types, results) {
                return Ok(Some(Rule::BadType));
            }
            Ok(None)
        }
    }
}

/// Whether one of the types holds a borrow.
fn is_any_borrow(builder: &ComponentTypesBuilder, types: &[InterfaceType], refs: &[PlanRef]) -> bool
    requires live { All (IsLive builder.now.tables) types.now }
    requires known { All (λ r. IsFrom (length types.now) r → ⊥) refs.now }
    ensures { (ss : List Shape) → HaveShapes builder.now.tables types.now ss → IsTrue result ↔ Any (λ s. IsTrue (has_borrow s)) (shapes_of ss refs.now) }
{
    for ty in refs {
        if builder.ty_contains_borrow_resource(&type_of(types, *ty)) {
            return true;
        }
    }
    false
}

/// Adds the tuples of a function and the function itself.
fn add_func_type(
    alloc: Global,
    builder: &mut ComponentTypesBuilder,
    types: &[InterfaceType],
    func: &PlanFunc,
) -> Result<TypeFuncIndex, PushError>
    requires live { All (IsLive builder.old.tables) types.now }
    requires known { NamesNoType (length types.now) func.now → ⊥ }
    ensures { AddsFunc builder.old builder.new types.now func.now result }
{
    let param_types = types_of_fields(alloc, func.params.as_slice())?;
    let param_names = names_of_params(alloc, func.params.as_slice())?;
    let params = add_tuple(alloc, builder, types, param_types.as_slice())?;
    let results = add_tuple(alloc, builder, types, func.results.as_slice())?;
    builder.add_func_type(TypeFunc {
        async_: func.async_,
        param_names,
        params,
        results,
    })
}

/// Adds the tuple of types.
fn add_tuple(
    alloc: Global,
    builder: &mut ComponentTypesBuilder,
    types: &[InterfaceType],
    refs: &[PlanRef],
) -> Result<TypeTupleIndex, PushError>
    requires live { All (IsLive builder.old.tables) types.now }
    requires known { All (λ r. IsFrom (length types.now) r → ⊥) refs.now }
    ensures { MakesTuple builder.old builder.new types.now refs.now result }
{
    builder.reveal();
    let members = types_of(alloc, types, refs)?;
    let tuple = make_tuple(alloc, builder, Seq::from_vec(members))?;
    builder.reveal();
    match tuple {
        InterfaceType::Tuple(index) => Ok(index),
        _ => unreachable!(),
    }
}
