//! Pairs of adapters of plans, the second of which can be called by the callee of the first.

ghost use Rattle.std.specs.Prelude.{◌≡◌, ◌<◌, ℕ, IfOk, List, MatchOption, length};
ghost use Rattle.fact_types.specs.Adapters.{LinkedAdapter};
ghost use Rattle.fact_types.specs.Functions.{HaveShapes};
ghost use Rattle.fact_types.specs.Shapes.{Shape};
ghost use Rattle.fact_adapter_rules.specs.FirstFault.{IsFaultlessPlan};
ghost use Rattle.fact_adapter_rules.specs.Linked.{HasSides};
ghost use Rattle.fact_plan_types.specs.PlanTypes.{AreTypesOf};
ghost use Rattle.fact_call_mode.specs.Replies.{AreLinked};
ghost use Rattle.fact_chain_mode.specs.ChainReplies.{AreAtPlaces, ArePaired, LacksOneName};
ghost use Rattle.fact_chain_mode.specs.ChainTexts.{are_same_types, leads_to as leads_to_next};

use fact_adapter_rules::Adapter;
use fact_builder::ComponentTypesBuilder;
use fact_call_mode::{adapter_at, callable_place};
use fact_plan::FusePlan;
use fact_plan_types::PlanTypes;
use fact_types::InterfaceType;
use fact_wasm::OutOfMemory;

/// The places of two adapters in a plan.
#[derive(Clone, Copy)]
pub(crate) struct Places {
    pub first: usize,
    pub second: usize,
}

/// Two adapters over the types of their plan.
#[derive(Drop)]
pub(crate) struct Pair {
    pub first: Adapter,
    pub second: Adapter,
}

/// The places of the sync adapters between two instances that have these names, where there are both.
pub(crate) fn places_of(plan: &FusePlan, first: &str, second: &str) -> Option<Places>
    requires { AreLinked plan.now }
    ensures { MatchOption result (LacksOneName plan.now first.now second.now) (AreAtPlaces plan.now first.now second.now) }
{
    let first = callable_place(plan, first)?;
    let second = callable_place(plan, second)?;
    Some(Places { first, second })
}

/// The adapters at two places of a plan, over its types.
pub(crate) fn pair_at(
    plan: &FusePlan,
    types: &PlanTypes,
    places: Places,
) -> Result<Pair, OutOfMemory>
    requires faultless { IsFaultlessPlan plan.now }
    requires types { AreTypesOf plan.now types.now }
    requires at { (first : List ℕ) × (second : List ℕ) × AreAtPlaces plan.now first second places }
    ensures { IfOk result (λ x. (first second : List ℕ) → AreAtPlaces plan.now first second places → ArePaired plan.now first second types.now x) }
{
    let first = adapter_at(plan, types, places.first)?;
    let second = match adapter_at(plan, types, places.second) {
        Ok(second) => second,
        Err(error) => {
            drop(first);
            return Err(error);
        }
    };
    Ok(Pair { first, second })
}

/// Whether types of a builder are the same, one by one. Types of equal content are one there.
fn are_same(
    builder: &ComponentTypesBuilder,
    types: &[InterfaceType],
    others: &[InterfaceType],
) -> bool
    ensures { (ss zs : List Shape) → HaveShapes builder.now.tables types.now ss → HaveShapes builder.now.tables others.now zs → result ≡ are_same_types ss zs }
{
    builder.reveal();
    types == others
}

/// Whether the callee of the first adapter is where the second one is called, and has its function type.
pub(crate) fn leads_to(types: &PlanTypes, pair: &Pair) -> bool
    requires first { pair.now.first.lift_ty.number < length types.now.builder.tables.functions }
    requires second { pair.now.second.lower_ty.number < length types.now.builder.tables.functions }
    ensures { (a b : LinkedAdapter) → HasSides types.now.builder pair.now.first a → HasSides types.now.builder pair.now.second b → result ≡ leads_to_next a b }
{
    let builder = &types.builder;
    let passed = builder.params_of(pair.first.lift_ty);
    let taken = builder.params_of(pair.second.lower_ty);
    let same_params = are_same(builder, passed, taken);
    let answered = builder.results_of(pair.first.lift_ty);
    let given = builder.results_of(pair.second.lower_ty);
    let same_results = are_same(builder, answered, given);
    let is_there = pair.first.lift_options.instance == pair.second.lower_options.instance;
    is_there && (same_params && same_results)
}
