//! The types of a plan, added to a builder in order.

ghost use Rattle.std.specs.Prelude.{◌≡◌, ◌+◌, ◌++◌, ◌∷◌, [], IfOk, IfErr, IfSome, OnOk, Some, length, slice_get};
ghost use Rattle.fact_builder.specs.Builder.{no_types};
ghost use Rattle.fact_plan_types.specs.PlanTypes.{IsFirstOfTypes, told};
ghost use Rattle.fact_plan_types.specs.Reached.{HasTypes};

use crate::entries::add_entry;
use crate::error::{FuseError, Place};
use crate::handles::push_resource_tables;
use crate::rules::broken_rule;
use fact_builder::ComponentTypesBuilder;
use fact_entity::PushError;
use fact_plan::{FusePlan, PlanType};
use fact_types::InterfaceType;
use std::alloc::Global;

/// How deep types may nest.
const MOST_NESTING: u32 = 100;

/// Adds the types of a plan to a new builder, or tells the first fault among them.
pub(crate) fn add_types(
    alloc: Global,
    builder: &mut ComponentTypesBuilder,
    plan: &FusePlan,
) -> Result<Vec<InterfaceType>, FuseError>
    requires { builder.old ≡ no_types 0 }
    ensures added { IfOk result (λ types. HasTypes plan.now (length plan.now.types) builder.new types.items) }
    ensures refused { IfErr result (λ e. IfSome (told e) (λ x. IsFirstOfTypes plan.now x.0 x.1)) }
{
    let mut types = Vec::new(alloc);
    for (k, entry) in plan.types.as_slice().iter().enumerate() {
        let ty = add_type(alloc, builder, plan, types.as_slice(), k, entry)?;
        types.push(ty)?;
    }
    Ok(types)
}

/// Adds the type of an entry, behind those of the entries before, or tells its first fault.
fn add_type(
    alloc: Global,
    builder: &mut ComponentTypesBuilder,
    plan: &FusePlan,
    types: &[InterfaceType],
    k: usize,
    entry: &PlanType,
) -> Result<InterfaceType, FuseError>
    requires reached { HasTypes plan.now k builder.old types.now }
    requires here { slice_get plan.now.types k ≡ Some entry.now }
    ensures added { IfOk result (λ ty. HasTypes plan.now (k + 1) builder.new (types.now ++ ty ∷ [])) }
    ensures refused { IfErr result (λ e. IfSome (told e) (λ x. IsFirstOfTypes plan.now x.0 x.1)) }
{
    let place = Place::TypeEntry(k as u32);
    if let Some(rule) = broken_rule(alloc, plan, k, entry)? {
        return Err(rule.broken_at(place));
    }
    push_resource_tables(builder, plan, entry)?;
    match add_entry(alloc, builder, types, entry) {
        Ok(ty) if builder.nesting(&ty) <= MOST_NESTING => Ok(ty),
        Ok(_) => Err(FuseError::TooLarge(place)),
        Err(PushError::TooLarge) => Err(FuseError::TooLarge(place)),
        Err(PushError::OutOfMemory) => Err(FuseError::OutOfMemory),
    }
}
