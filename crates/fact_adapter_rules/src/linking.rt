//! What an adapter of a plan names is looked up among the lists of the plan, or the plan lacks it.

ghost use Rattle.std.specs.Prelude.{◌≡◌, ◌↔◌, ◌≤◌, ◌<◌, IfOk, IsTrue, Some, length, slice_get};
ghost use Rattle.fact_entity.specs.declared.id.Id.{Id};
ghost use Rattle.fact_entity.specs.declared.table.TypeFuncs.{TypeFuncs};
ghost use Rattle.fact_plan_types.specs.PlanTypes.{AreTypesOf};
ghost use Rattle.fact_adapter_rules.specs.Adapters.{named_def as def_named, named_memory as memory_named};
ghost use Rattle.fact_adapter_rules.specs.AdapterRules.{AdapterLacks, IsPastList, SideLacks, memory_def as memory_number};
ghost use Rattle.fact_adapter_rules.specs.PlanLinks.{LinksAdapter, LinksSide};

use crate::adapter::{Adapter, AdapterOptionsDfg};
use fact_entity::{EntityRef, RuntimeComponentInstanceIndex};
use fact_plan::{FusePlan, PlanAdapter, PlanMemory, PlanSide};
use fact_plan_types::PlanTypes;
use fact_types::{CoreDef, MemoryOption};
use fact_wasm::OutOfMemory;
use std::alloc::AllocError;

/// Whether a plan lacks the core definition of a number.
fn lacks_def(plan: &FusePlan, def: u32) -> bool
    ensures { IsTrue result ↔ (length plan.now.core_defs ≤ def) }
{
    plan.core_defs.len() <= def as usize
}

/// Whether a plan lacks the core definition that an option names.
fn lacks_any(plan: &FusePlan, def: Option<u32>) -> bool
    ensures { IsTrue result ↔ IsPastList (length plan.now.core_defs) def }
{
    match def {
        Some(def) => lacks_def(plan, def),
        None => false,
    }
}

/// Whether a plan lacks a function, a core type, an instance or a core definition that a side names.
fn side_lacks(plan: &FusePlan, side: &PlanSide) -> bool
    ensures { IsTrue result ↔ SideLacks plan.now side.now }
{
    plan.funcs.len() <= side.ty as usize
        || plan.core_types.len() <= side.core_type as usize
        || plan.instances <= side.instance
        || lacks_any(plan, memory_def(side.memory))
        || lacks_any(plan, side.realloc)
        || lacks_any(plan, side.callback)
        || lacks_any(plan, side.post_return)
}

/// The number of the core definition of a memory.
fn memory_def(memory: Option<PlanMemory>) -> Option<u32>
    ensures { result ≡ memory_number memory }
{
    match memory {
        Some(memory) => Some(memory.def),
        None => None,
    }
}

/// Whether a plan lacks what an adapter names.
pub(crate) fn adapter_lacks(plan: &FusePlan, adapter: &PlanAdapter) -> bool
    ensures { IsTrue result ↔ AdapterLacks plan.now adapter.now }
{
    lacks_def(plan, adapter.func)
        || side_lacks(plan, &adapter.lift)
        || side_lacks(plan, &adapter.lower)
}

/// The core definition that an option names.
fn def_of(plan: &FusePlan, def: Option<u32>) -> Result<Option<CoreDef>, OutOfMemory>
    requires { IsPastList (length plan.now.core_defs) def → ⊥ }
    ensures { IfOk result (λ found. def_named plan.now def ≡ Some found) }
{
    match def {
        Some(def) => {
            let copy = plan.core_defs.as_slice()[def as usize].try_clone()?;
            Ok(Some(copy))
        }
        None => Ok(None),
    }
}

/// The memory that an option names.
fn memory_of(
    plan: &FusePlan,
    memory: Option<PlanMemory>,
) -> Result<Option<MemoryOption>, OutOfMemory>
    requires { IsPastList (length plan.now.core_defs) (memory_number memory) → ⊥ }
    ensures { IfOk result (λ found. memory_named plan.now memory ≡ Some found) }
{
    match memory {
        Some(memory) => {
            let def = plan.core_defs.as_slice()[memory.def as usize].try_clone()?;
            Ok(Some(MemoryOption {
                def,
                memory64: memory.memory64,
                shared: memory.shared,
                page_size_log2: memory.page_size_log2,
            }))
        }
        None => Ok(None),
    }
}

/// The options of a side.
fn options_of(
    plan: &FusePlan,
    types: &PlanTypes,
    side: &PlanSide,
) -> Result<AdapterOptionsDfg, OutOfMemory>
    requires types { AreTypesOf plan.now types.now }
    requires there { SideLacks plan.now side.now → ⊥ }
    ensures { IfOk result (λ o. (ty : Id TypeFuncs) → slice_get types.now.funcs side.now.ty ≡ Some ty → LinksSide plan.now types.now.builder side.now ty o) }
{
    // What is owned ends by a call: the end of its scope would have a long proof.
    let memory = memory_of(plan, side.memory)?;
    let Ok(realloc) = def_of(plan, side.realloc) else {
        drop(memory);
        return Err(AllocError);
    };
    let Ok(callback) = def_of(plan, side.callback) else {
        drop(memory);
        drop(realloc);
        return Err(AllocError);
    };
    let Ok(post_return) = def_of(plan, side.post_return) else {
        drop(memory);
        drop(realloc);
        drop(callback);
        return Err(AllocError);
    };
    Ok(AdapterOptionsDfg {
        instance: RuntimeComponentInstanceIndex::from_u32(side.instance),
        string_encoding: side.encoding,
        memory,
        realloc,
        callback,
        post_return,
        async_: side.async_,
        core_type: types.core_types.as_slice()[side.core_type as usize],
    })
}

/// An adapter that names nothing that a plan lacks, over the types of the plan.
pub(crate) fn adapter_of(
    plan: &FusePlan,
    types: &PlanTypes,
    adapter: &PlanAdapter,
) -> Result<Adapter, OutOfMemory>
    requires types { AreTypesOf plan.now types.now }
    requires there { AdapterLacks plan.now adapter.now → ⊥ }
    ensures links { IfOk result (LinksAdapter plan.now types.now.builder adapter.now) }
    ensures lift_ty { IfOk result (λ a. slice_get types.now.funcs adapter.now.lift.ty ≡ Some a.lift_ty) }
{
    let func = plan.core_defs.as_slice()[adapter.func as usize].try_clone()?;
    let Ok(lift_options) = options_of(plan, types, &adapter.lift) else {
        drop(func);
        return Err(AllocError);
    };
    let Ok(lower_options) = options_of(plan, types, &adapter.lower) else {
        drop(func);
        drop(lift_options);
        return Err(AllocError);
    };
    Ok(Adapter {
        lift_ty: types.funcs.as_slice()[adapter.lift.ty as usize],
        lift_options,
        lower_ty: types.funcs.as_slice()[adapter.lower.ty as usize],
        lower_options,
        func,
    })
}
