//! The page that tells a plan without faults.

ghost use Rattle.std.specs.Prelude.{◌≤◌, IfOk, string_bytes};
ghost use Rattle.fact_module.specs.Fused.{IsFused};
ghost use Rattle.fact_module.specs.declared.fusion.Fused.{Fused as a_module};
ghost use Rattle.fact_plan_types.specs.PlanTypes.{AreTypesOf};
ghost use Rattle.fact_explain.specs.Pages.{IsImportPart, IsPage, IsPlanPart, IsAdapterPart, IsSidePart, IsTypePart};
ghost use Rattle.fact_explain.specs.Concatenations.{IsConcatenation};
ghost use Rattle.fact_explain.specs.Roles.{text_by};

use crate::imports::imports_text;
use crate::layouts::entry_line;
use crate::names::{entry_text, func_text, names_of_types};
use crate::shown::shown_text;
use crate::sides::{Role, side_text};
use fact_module::fuse;
use fact_plan::{FusePlan, PlanAdapter, PlanSide, PlanType};
use fact_plan_types::PlanTypes;
use fact_wasm::{OutOfMemory, Text};
use std::alloc::{AllocError, Global};

/// The lines of a side of the adapter at a place: its function, its core type, and what it needs.
fn side_lines(
    alloc: Global,
    plan: &FusePlan,
    types: &PlanTypes,
    names: &[Text],
    k: usize,
    role: Role,
    side: &PlanSide,
) -> Result<String, OutOfMemory>
    requires { AreTypesOf plan.now types.now }
    ensures { IfOk result (λ t. IsSidePart (text_by role k side.now) plan.now side.now (string_bytes t)) }
{
    let Some(func) = plan.funcs.get(side.ty as usize) else {
        return Ok(String::new(alloc));
    };
    let Some(ty) = types.funcs.get(side.ty as usize) else {
        return Ok(String::new(alloc));
    };
    let function = func_text(alloc, names, func)?;
    side_text(alloc, &types.builder, *ty, k, role, side, &function)
}

/// The lines of the adapter at a place.
fn adapter_lines(
    alloc: Global,
    plan: &FusePlan,
    types: &PlanTypes,
    names: &[Text],
    k: usize,
    adapter: &PlanAdapter,
) -> Result<String, OutOfMemory>
    requires { AreTypesOf plan.now types.now }
    ensures { IfOk result (λ t. IsAdapterPart plan.now k adapter.now (string_bytes t)) }
{
    let name = shown_text(alloc, adapter.name.as_str())?;
    let lift = side_lines(alloc, plan, types, names, k, Role::Lift, &adapter.lift)?;
    let lower = side_lines(alloc, plan, types, names, k, Role::Lower, &adapter.lower)?;
    format!(in alloc; "adapter {k}, \"{name}\"\n{lift}{lower}")
}

/// The lines of all adapters.
fn adapters_text(
    alloc: Global,
    plan: &FusePlan,
    types: &PlanTypes,
    names: &[Text],
) -> Result<String, OutOfMemory>
    requires { AreTypesOf plan.now types.now }
    ensures { IfOk result (λ t. IsConcatenation (IsAdapterPart plan.now) 0 plan.now.adapters (string_bytes t)) }
{
    let mut text = String::new(alloc);
    for (k, adapter) in plan.adapters.as_slice().iter().enumerate() {
        let lines = adapter_lines(alloc, plan, types, names, k, adapter)?;
        text.push_str(&lines)?;
    }
    Ok(text)
}

/// The lines of the type at a place, with its layouts.
fn type_lines(
    alloc: Global,
    plan: &FusePlan,
    types: &PlanTypes,
    names: &[Text],
    k: usize,
    entry: &PlanType,
) -> Result<String, OutOfMemory>
    requires { AreTypesOf plan.now types.now }
    ensures { IfOk result (λ t. IsTypePart plan.now k entry.now (string_bytes t)) }
{
    let notation = entry_text(alloc, names, entry)?;
    let written = shown_text(alloc, &notation)?;
    let narrow = entry_line(alloc, types, k, entry, false)?;
    let wide = entry_line(alloc, types, k, entry, true)?;
    format!(in alloc; "  plan.types.{k}: {written}\n{narrow}{wide}")
}

/// The lines of all types.
fn types_text(
    alloc: Global,
    plan: &FusePlan,
    types: &PlanTypes,
    names: &[Text],
) -> Result<String, OutOfMemory>
    requires { AreTypesOf plan.now types.now }
    ensures { IfOk result (λ t. IsConcatenation (IsTypePart plan.now) 0 plan.now.types (string_bytes t)) }
{
    let mut text = String::new(alloc);
    for (k, entry) in plan.types.as_slice().iter().enumerate() {
        let lines = type_lines(alloc, plan, types, names, k, entry)?;
        text.push_str(&lines)?;
    }
    Ok(text)
}

/// What a plan says itself, over its types.
fn plan_text(alloc: Global, plan: &FusePlan, types: &PlanTypes) -> Result<String, OutOfMemory>
    requires { AreTypesOf plan.now types.now }
    ensures { IfOk result (λ t. IsPlanPart plan.now (string_bytes t)) }
{
    let names = names_of_types(alloc, plan)?;
    let adapters = adapters_text(alloc, plan, types, names.as_slice())?;
    let types = types_text(alloc, plan, types, names.as_slice())?;
    format!(in alloc; "{adapters}types\n{types}")
}

/// What the module of a plan imports.
fn module_text(alloc: Global, plan: &FusePlan) -> Result<String, OutOfMemory>
    requires { 1 ≤ plan.now.tunables.fuel }
    ensures { IfOk result (λ t. (f : a_module) × IsFused f plan.now × IsImportPart f (string_bytes t)) }
{
    let Ok(fused) = fuse(alloc, plan) else {
        return Err(AllocError);
    };
    let text = imports_text(alloc, &fused);
    drop(fused);
    text
}

/// The page that tells a plan without faults: its adapters with what each side needs, its types with their layouts, and the imports of its module.
pub(crate) fn plan_page(alloc: Global, plan: &FusePlan) -> Result<String, OutOfMemory>
    requires { 1 ≤ plan.now.tunables.fuel }
    ensures { IfOk result (λ page. IsPage plan.now (string_bytes page)) }
{
    let Ok(types) = PlanTypes::new(alloc, plan) else {
        return Err(AllocError);
    };
    let told = plan_text(alloc, plan, &types);
    drop(types);
    let told = told?;
    let imports = module_text(alloc, plan)?;
    format!(in alloc; "{told}{imports}")
}
