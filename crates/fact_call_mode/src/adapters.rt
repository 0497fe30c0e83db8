//! Adapters of plans that can be called with values.

ghost use Rattle.std.specs.Prelude.{◌≡◌, ℕ, ◌&&◌, IfOk, List, None, MatchOption, false, slice_get};
ghost use Rattle.std.specs.Option.{option_map_or};
ghost use Rattle.std.specs.Str.{bytes_eq};
ghost use Rattle.fact_plan_types.specs.PlanTypes.{AreTypesOf};
ghost use Rattle.fact_adapter_rules.specs.Adapters.{adapters_of};
ghost use Rattle.fact_adapter_rules.specs.FirstFault.{IsFaultlessPlan};
ghost use Rattle.fact_call_mode.specs.Calls.{callable_named};
ghost use Rattle.fact_call_mode.specs.Replies.{AreLinked, IsAtPlace, IsLinkedAt, is_async_in, is_free};

use fact_adapter_rules::{Adapter, linked_adapter};
use fact_plan::{FusePlan, PlanAdapter, PlanSide};
use fact_plan_types::{FuseError, PlanTypes};
use fact_wasm::OutOfMemory;
use std::alloc::AllocError;

/// Whether a function of a plan is marked as async.
fn is_async_func(plan: &FusePlan, number: u32) -> bool
    ensures { result ≡ option_map_or (λ f. f.async_) (slice_get plan.now.funcs number) false }
{
    match plan.funcs.get(number as usize) {
        Some(func) => func.async_,
        None => false,
    }
}

/// Whether a side is async, or its function type is marked so.
fn is_async_side(plan: &FusePlan, side: &PlanSide) -> bool
    ensures { result ≡ is_async_in plan.now side.now }
{
    let is_marked = is_async_func(plan, side.ty);
    side.async_ || is_marked
}

/// Whether an adapter is a sync one between two instances.
fn is_free(plan: &FusePlan, adapter: &PlanAdapter) -> bool
    ensures { result ≡ is_free plan.now adapter.now }
{
    let is_crossing = adapter.lift.instance != adapter.lower.instance;
    let lift = is_async_side(plan, &adapter.lift);
    let lower = is_async_side(plan, &adapter.lower);
    is_crossing && !(lift || lower)
}

/// Whether it is one that has a name.
fn is_named(plan: &FusePlan, adapter: &PlanAdapter, name: &str) -> bool
    ensures { result ≡ bytes_eq adapter.now.name name.now && is_free plan.now adapter.now }
{
    let has_name = adapter.name.as_str() == name;
    let is_free = is_free(plan, adapter);
    has_name && is_free
}

/// The place of the sync adapter between two instances that has a name, where there is one.
pub fn callable_place(plan: &FusePlan, name: &str) -> Option<usize>
    requires { AreLinked plan.now }
    ensures { MatchOption result (callable_named name.now (adapters_of plan.now) ≡ None) (IsAtPlace plan.now name.now) }
{
    for (k, adapter) in plan.adapters.as_slice().iter().enumerate() {
        if is_named(plan, adapter, name) {
            return Some(k);
        }
    }
    None
}

/// The want of memory that a refusal is.
fn want_of_memory(error: FuseError) -> OutOfMemory
    requires { error ≡ FuseError.OutOfMemory }
{
    match error {
        FuseError::OutOfMemory => AllocError,
        _ => unreachable!(),
    }
}

/// The adapter at a place of a plan, which is the one of a name that can be called, over the types of the plan.
pub fn adapter_at(plan: &FusePlan, types: &PlanTypes, place: usize) -> Result<Adapter, OutOfMemory>
    requires faultless { IsFaultlessPlan plan.now }
    requires types { AreTypesOf plan.now types.now }
    requires at { (name : List ℕ) × IsAtPlace plan.now name place }
    ensures { IfOk result (λ x. (name : List ℕ) → IsAtPlace plan.now name place → IsLinkedAt plan.now name types.now x) }
{
    match linked_adapter(plan, types, place, &plan.adapters.as_slice()[place]) {
        Ok(adapter) => Ok(adapter),
        Err(error) => Err(want_of_memory(error)),
    }
}
