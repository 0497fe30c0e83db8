//! Why a plan is refused at an adapter.

ghost use Rattle.std.specs.Prelude.{◌<◌, Some, length};
ghost use Rattle.fact_plan_types.specs.PlanTypes.{AreTypesOf};

use crate::agreement::{Known, push_mismatch};
use crate::named::{core_use, push_conflicts, push_unknown};
use crate::names::{func_text, names_of_types};
use crate::sides::{Needs, Role, core_type_text, needs_of};
use crate::texts::{push_line, push_reason};
use fact_plan::{FusePlan, PlanAdapter, PlanSide};
use fact_plan_types::{FuseError, PlanTypes};
use fact_types::TypeFuncIndex;
use fact_wasm::OutOfMemory;
use std::alloc::Global;

/// Whether a side is async, or its function type is marked so.
fn is_async(plan: &FusePlan, side: &PlanSide) -> bool {
    let is_marked = match plan.funcs.get(side.ty as usize) {
        Some(func) => func.async_,
        None => false,
    };
    side.async_ || is_marked
}

/// Appends the options of the adapter at a place that do not go together.
fn push_options(
    alloc: Global,
    text: &mut String,
    plan: &FusePlan,
    k: usize,
    adapter: &PlanAdapter,
) -> Result<(), OutOfMemory> {
    if adapter.lower.post_return.is_some() {
        let path = format!(in alloc; "plan.adapters.{k}.lower.post_return")?;
        return push_reason(
            alloc,
            text,
            path.as_str(),
            "none, as the side that lowers has none",
            "one",
        );
    }
    let is_crossing = adapter.lift.instance != adapter.lower.instance;
    let is_async = is_async(plan, &adapter.lift) || is_async(plan, &adapter.lower);
    if is_async && is_crossing && !plan.tunables.concurrency {
        let wanted = "true, as an adapter between two instances is async";
        return push_reason(alloc, text, "plan.tunables.concurrency", wanted, "false");
    }
    let path = format!(in alloc; "plan.adapters.{k}.transparent")?;
    let wanted = "false, as a function of the adapter has a handle";
    push_reason(alloc, text, path.as_str(), wanted, "true")
}

/// A key, what is wanted there, and what is there.
type Reason = (&'static str, &'static str, &'static str);

const NEEDED: &str = "one, as the function's values need it";

/// What is wrong with a side with some needs that has no memory.
fn fault_without_memory(needs: Needs, side: &PlanSide) -> Option<Reason> {
    if needs.memory {
        Some(("memory", NEEDED, "none"))
    } else if side.realloc.is_some() {
        Some(("realloc", "none, as the side has no memory", "one"))
    } else {
        None
    }
}

/// What is wrong with the memory or the realloc of a side with some needs.
fn memory_fault(needs: Needs, side: &PlanSide) -> Option<Reason> {
    let Some(memory) = side.memory else {
        return fault_without_memory(needs, side);
    };
    if memory.shared {
        Some(("memory.shared", "false", "true"))
    } else if memory.page_size_log2 != 0 && memory.page_size_log2 != 16 {
        Some(("memory.page_size_log2", "0 or 16", "another number"))
    } else if needs.realloc && side.realloc.is_none() {
        Some(("realloc", NEEDED, "none"))
    } else {
        None
    }
}

/// Appends what is wrong with the memory or the realloc of a side of a live function.
fn push_memory(
    alloc: Global,
    text: &mut String,
    types: &PlanTypes,
    ty: TypeFuncIndex,
    place: &str,
    role: Role,
    side: &PlanSide,
) -> Result<(), OutOfMemory>
    requires { ty.number < length types.now.builder.tables.functions }
{
    let needs = needs_of(&types.builder, ty, role, side)?;
    if let Some((key, wanted, found)) = memory_fault(needs, side) {
        let line = format!(in alloc; "{place}.{key}: wanted {wanted}, found {found}")?;
        push_line(alloc, text, &line)?;
    }
    Ok(())
}

/// Appends the core type that the canonical ABI gives a side of a live function, where the plan has another one.
fn push_signature(
    alloc: Global,
    text: &mut String,
    plan: &FusePlan,
    types: &PlanTypes,
    ty: TypeFuncIndex,
    place: &str,
    role: Role,
    side: &PlanSide,
) -> Result<(), OutOfMemory>
    requires { ty.number < length types.now.builder.tables.functions }
{
    let wanted = core_type_text(alloc, &types.builder, ty, role, side)?;
    let found = core_use(alloc, plan, side.core_type, false)?;
    if wanted.as_str() == found.as_str() {
        return Ok(());
    }
    let line = format!(in alloc; "{place}.core_type: wanted {wanted}, found {found}")?;
    push_line(alloc, text, &line)
}

/// Appends what is wrong with a side, where its memory or its core type has the fault.
fn push_side(
    alloc: Global,
    text: &mut String,
    plan: &FusePlan,
    types: &PlanTypes,
    k: usize,
    role: Role,
    side: &PlanSide,
    of_memory: bool,
) -> Result<(), OutOfMemory>
    requires { AreTypesOf plan.now types.now }
{
    let Some(ty) = types.funcs.get(side.ty as usize) else {
        return Ok(());
    };
    let key = role.key();
    let place = format!(in alloc; "plan.adapters.{k}.{key}")?;
    if of_memory {
        push_memory(alloc, text, types, *ty, place.as_str(), role, side)
    } else {
        push_signature(alloc, text, plan, types, *ty, place.as_str(), role, side)
    }
}

/// Appends what is wrong with both sides, where a memory or a core type has the fault.
fn push_sides(
    alloc: Global,
    text: &mut String,
    plan: &FusePlan,
    types: &PlanTypes,
    k: usize,
    adapter: &PlanAdapter,
    of_memory: bool,
) -> Result<(), OutOfMemory>
    requires { AreTypesOf plan.now types.now }
{
    let (lift, lower) = (&adapter.lift, &adapter.lower);
    push_side(alloc, text, plan, types, k, Role::Lift, lift, of_memory)?;
    push_side(alloc, text, plan, types, k, Role::Lower, lower, of_memory)
}

/// Appends where the types of the adapter at a place cease to agree, and the function types of both sides.
fn push_types(
    alloc: Global,
    text: &mut String,
    plan: &FusePlan,
    types: &PlanTypes,
    k: usize,
    adapter: &PlanAdapter,
) -> Result<(), OutOfMemory> {
    let (lift_ty, lower_ty) = (adapter.lift.ty, adapter.lower.ty);
    let Some(lift) = plan.funcs.get(lift_ty as usize) else {
        return Ok(());
    };
    let Some(lower) = plan.funcs.get(lower_ty as usize) else {
        return Ok(());
    };
    let names = names_of_types(alloc, plan)?;
    let known = Known {
        plan,
        types,
        names: names.as_slice(),
    };
    push_mismatch(alloc, text, &known, k, lift, lower)?;
    let path = format!(in alloc; "plan.adapters.{k}, functions {lower_ty} and {lift_ty}")?;
    let wanted = func_text(alloc, known.names, lift)?;
    let found = func_text(alloc, known.names, lower)?;
    push_reason(alloc, text, path.as_str(), wanted.as_str(), found.as_str())
}

/// The first adapter before a place that has a name.
fn same_before(plan: &FusePlan, k: usize, name: &str) -> Option<usize> {
    for (j, before) in plan.adapters.as_slice().iter().enumerate() {
        if j < k && before.name.as_str() == name {
            return Some(j);
        }
    }
    None
}

/// Appends where the name of the adapter at a place is that of one before it.
fn push_name(
    alloc: Global,
    text: &mut String,
    plan: &FusePlan,
    k: usize,
    adapter: &PlanAdapter,
) -> Result<(), OutOfMemory> {
    let name = adapter.name.as_str();
    let line = match same_before(plan, k, name) {
        Some(j) => format!(in alloc;
            "plan.adapters.{k}.name: wanted another name than plan.adapters.{j}.name, found {name:?}"
        )?,
        None => format!(in alloc;
            "plan.adapters.{k}.name: wanted a name of which no adapter before exports a part, found {name:?}"
        )?,
    };
    push_line(alloc, text, &line)
}

/// Appends why the adapter at a place is refused, over the types of its plan.
fn push_adapter(
    alloc: Global,
    text: &mut String,
    plan: &FusePlan,
    types: &PlanTypes,
    k: usize,
    adapter: &PlanAdapter,
    error: &FuseError,
) -> Result<(), OutOfMemory>
    requires { AreTypesOf plan.now types.now }
{
    match error {
        FuseError::UnknownIndex(_) => push_unknown(alloc, text, plan, k, adapter),
        FuseError::TooLarge(_) => {
            let wanted = "instances up to 2147483647, and at most 268435456 adapters";
            push_reason(alloc, text, "plan.adapters", wanted, "more")
        }
        FuseError::BadOptions(_) => push_options(alloc, text, plan, k, adapter),
        FuseError::TypeMismatch(_) => push_types(alloc, text, plan, types, k, adapter),
        FuseError::BadMemory(_) => {
            push_sides(alloc, text, plan, types, k, adapter, true)?;
            push_conflicts(alloc, text, plan, k, adapter, true)
        }
        FuseError::BadSignature(_) => push_sides(alloc, text, plan, types, k, adapter, false),
        FuseError::ImportConflict(_) => push_conflicts(alloc, text, plan, k, adapter, false),
        FuseError::DuplicateName(_) => push_name(alloc, text, plan, k, adapter),
        FuseError::OutOfMemory | FuseError::BadType(_) => Ok(()),
    }
}

/// Appends why the adapter at a place is refused.
pub(crate) fn push_adapter_reasons(
    alloc: Global,
    text: &mut String,
    plan: &FusePlan,
    k: u32,
    error: &FuseError,
) -> Result<(), OutOfMemory> {
    let Some(adapter) = plan.adapters.get(k as usize) else {
        return Ok(());
    };
    let Ok(types) = PlanTypes::new(alloc, plan) else {
        return Ok(());
    };
    let pushed = push_adapter(alloc, text, plan, &types, k as usize, adapter, error);
    drop(types);
    pushed
}
