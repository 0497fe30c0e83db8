//! The checks of a plan, and its adapters as they are checked: over the types of a builder ([`linked_adapter`]), with their names ([`candidate_of`]).

ghost use Rattle.std.specs.Prelude.{◌≡◌, ◌↔◌, ◌⊎◌, ◌<◌, ◌≤◌, ◌+◌, IfErr, IfOk, IfSome, IsTrue, OnOk, Some, slice_get};
ghost use Rattle.fact_plan.specs.declared.plan.FusePlan.{FusePlan};
ghost use Rattle.fact_plan_types.specs.Faults.{Fault, too_large};
ghost use Rattle.fact_plan_types.specs.declared.error.Place.{Place};
ghost use Rattle.fact_plan_types.specs.PlanTypes.{HasFaultlessTypes, AreTypesOf, told};
ghost use Rattle.fact_plan_types.specs.TypeRules.{most_entries};
ghost use Rattle.fact_adapter_rules.specs.AdapterRules.{AdapterHas, AdapterLacks, most_instance};
ghost use Rattle.fact_adapter_rules.specs.PlanLinks.{IsAt, IsFirstHere, LinksAdapter};
ghost use Rattle.fact_adapter_rules.specs.FirstFault.{IsFaultlessPlan, IsFirstAt};

use crate::adapter::Adapter;
use crate::checks::AdapterChecks;
use crate::linking::{adapter_lacks, adapter_of};
use crate::sides::Candidate;
use fact_plan::{FusePlan, PlanAdapter};
use fact_plan_types::{FuseError, MOST_ENTRIES, Place, PlanTypes};
use std::alloc::Global;

/// The greatest number of an instance.
pub const MOST_INSTANCE: u32 = 2_147_483_647;

/// Whether an adapter has too large a place or instance.
fn is_large(k: usize, adapter: &PlanAdapter) -> bool
    ensures { IsTrue result ↔ ((most_entries ≤ k) ⊎ ((most_instance < adapter.now.lift.instance) ⊎ (most_instance < adapter.now.lower.instance))) }
{
    k >= MOST_ENTRIES
        || adapter.lift.instance > MOST_INSTANCE
        || adapter.lower.instance > MOST_INSTANCE
}

/// The adapter at a place of a plan, over the types of the plan. It is refused where it names what the plan lacks, and where
/// its place or the number of one of its instances is too large.
pub fn linked_adapter(
    plan: &FusePlan,
    types: &PlanTypes,
    k: usize,
    adapter: &PlanAdapter,
) -> Result<Adapter, FuseError>
    requires types { AreTypesOf plan.now types.now }
    requires there { slice_get plan.now.adapters k ≡ Some adapter.now }
    requires few { k ≤ most_entries }
    ensures links { IfOk result (LinksAdapter plan.now types.now.builder adapter.now) }
    ensures lift_ty { IfOk result (λ a. slice_get types.now.funcs adapter.now.lift.ty ≡ Some a.lift_ty) }
    ensures known { OnOk result (AdapterLacks plan.now adapter.now → ⊥) }
    ensures small { OnOk result (AdapterHas plan.now k adapter.now too_large → ⊥) }
    ensures refused { IfErr result (λ e. IfSome (told e) (λ x. IsFirstHere plan.now k x.0 x.1)) }
{
    let number = k as u32;
    if adapter_lacks(plan, adapter) {
        return Err(FuseError::UnknownIndex(Place::Adapter(number)));
    }
    if is_large(k, adapter) {
        return Err(FuseError::TooLarge(Place::Adapter(number)));
    }
    Ok(adapter_of(plan, types, adapter)?)
}

/// An adapter of a plan, made over the types of the plan, as it is checked: with its name and its mark of transparency.
pub fn candidate_of<'a>(adapter: &'a PlanAdapter, linked: &'a Adapter) -> Candidate<'a>
    ensures name { result.name.now ≡ adapter.now.name }
    ensures transparent { result.transparent ≡ adapter.now.transparent }
    ensures linked { result.adapter.now ≡ linked.now }
{
    Candidate {
        name: adapter.name.as_str(),
        transparent: adapter.transparent,
        adapter: linked,
    }
}

/// Checks the adapter at a place that was made over the types of the plan, behind those before it.
fn check_linked(
    checks: &mut AdapterChecks<'_>,
    plan: &FusePlan,
    types: &PlanTypes,
    k: usize,
    adapter: &PlanAdapter,
    linked: &Adapter,
) -> Result<(), FuseError>
    requires at { IsAt plan.now types.now.builder checks.old k }
    requires there { slice_get plan.now.adapters k ≡ Some adapter.now }
    requires links { LinksAdapter plan.now types.now.builder adapter.now linked.now }
    requires known { AdapterLacks plan.now adapter.now → ⊥ }
    requires small { AdapterHas plan.now k adapter.now too_large → ⊥ }
    ensures sound { OnOk result (IsAt plan.now types.now.builder checks.new (k + 1)) }
    ensures refused { IfErr result (λ e. IfSome (told e) (λ x. IsFirstHere plan.now k x.0 x.1)) }
{
    let candidate = candidate_of(adapter, linked);
    checks.check(k as u32, &candidate)
}

/// Checks the adapter at a place, behind those before it.
fn check_adapter(
    checks: &mut AdapterChecks<'_>,
    plan: &FusePlan,
    types: &PlanTypes,
    k: usize,
    adapter: &PlanAdapter,
) -> Result<(), FuseError>
    requires types { AreTypesOf plan.now types.now }
    requires at { IsAt plan.now types.now.builder checks.old k }
    requires there { slice_get plan.now.adapters k ≡ Some adapter.now }
    ensures sound { OnOk result (IsAt plan.now types.now.builder checks.new (k + 1)) }
    ensures refused { IfErr result (λ e. IfSome (told e) (λ x. IsFirstHere plan.now k x.0 x.1)) }
{
    let linked = linked_adapter(plan, types, k, adapter)?;
    let checked = check_linked(checks, plan, types, k, adapter, &linked);
    drop(linked);
    checked
}

/// Checks the adapters of a plan, one behind the other.
fn check_each(
    checks: &mut AdapterChecks<'_>,
    plan: &FusePlan,
    types: &PlanTypes,
) -> Result<(), FuseError>
    requires types { AreTypesOf plan.now types.now }
    requires faultless { HasFaultlessTypes plan.now }
    requires at { IsAt plan.now types.now.builder checks.old 0 }
    ensures faultless { OnOk result (IsFaultlessPlan plan.now) }
    ensures refused { IfErr result (λ e. IfSome (told e) (λ x. IsFirstAt plan.now x.0 x.1)) }
{
    for (k, adapter) in plan.adapters.as_slice().iter().enumerate() {
        check_adapter(checks, plan, types, k, adapter)?;
    }
    Ok(())
}

/// Tells the first fault of a plan whose types and functions have none, over its types.
fn check_adapters(alloc: Global, plan: &FusePlan, types: &PlanTypes) -> Result<(), FuseError>
    requires types { AreTypesOf plan.now types.now }
    requires faultless { HasFaultlessTypes plan.now }
    ensures faultless { OnOk result (IsFaultlessPlan plan.now) }
    ensures refused { IfErr result (λ e. IfSome (told e) (λ x. IsFirstAt plan.now x.0 x.1)) }
{
    let mut checks = AdapterChecks::new(alloc, &types.builder, plan.tunables.concurrency);
    let checked = check_each(&mut checks, plan, types);
    drop(checks);
    checked
}

/// Tells the first fault of a plan, with its place: types come before functions, these before adapters, each list from its
/// front, and at an entry the kinds of faults in the order of [`FuseError`].
pub fn check_plan(alloc: Global, plan: &FusePlan) -> Result<(), FuseError>
    ensures faultless { OnOk result (IsFaultlessPlan plan.now) }
    ensures refused { IfErr result (λ e. IfSome (told e) (λ x. IsFirstAt plan.now x.0 x.1)) }
{
    let types = PlanTypes::new(alloc, plan)?;
    let checked = check_adapters(alloc, plan, &types);
    drop(types);
    checked
}

/// A plan has at most one first fault, and one without faults has none. This function carries the law and does nothing.
pub fn one_first_fault()
    ensures one { (plan : FusePlan) (f g : Fault) (x y : Place) → IsFirstAt plan f x → IsFirstAt plan g y → (f ≡ g) × (x ≡ y) }
    ensures none { (plan : FusePlan) (f : Fault) (x : Place) → IsFaultlessPlan plan → IsFirstAt plan f x → ⊥ }
{}
