//! The plan of a number of adapters, adapter after adapter.

ghost use Rattle.std.specs.Prelude.{◌≡◌, ◌+◌, ◌<◌, ◌≤◌, ◌++◌, ◌∷◌, [], length, IfOk, OnOk};
ghost use Rattle.fact_generate.specs.Forms.{adapter_form, types_for};
ghost use Rattle.fact_generate.specs.Generated.{generated, most_generated, shared_defs, with_adapter, with_types, without_adapters};
ghost use Rattle.fact_generate.specs.Linked.{linked_side};

use crate::core_types::core_type_for;
use crate::form::adapter_form;
use crate::funcs::func_for;
use crate::sides::{adapter_for, adapter_name, export_of};
use crate::types::add_types;
use fact_plan::{FusePlan, PlanTunables};
use fact_types::{CoreDef, OutOfMemory};
use fact_wasm::Seq;
use std::alloc::Global;

/// The most adapters of a plan that is generated.
pub const MOST_GENERATED: u32 = 4096;

/// The fuel of a function, which no plan names.
const FUEL: u32 = 1000;

/// The memories and the reallocs.
fn shared_defs(alloc: Global) -> Result<Seq<CoreDef>, OutOfMemory>
    ensures { IfOk result (λ defs. defs ≡ shared_defs) }
{
    let defs = vec![in alloc;
        export_of(alloc, 0, "memory")?,
        export_of(alloc, 0, "realloc")?,
        export_of(alloc, 1, "memory")?,
        export_of(alloc, 1, "realloc")?,
    ]?;
    Ok(Seq::from_vec(defs))
}

fn without_adapters(alloc: Global) -> Result<FusePlan, OutOfMemory>
    ensures { IfOk result (λ plan. plan ≡ without_adapters) }
{
    Ok(FusePlan {
        instances: 2,
        types: Seq::new(alloc),
        tables: Seq::new(alloc),
        funcs: Seq::new(alloc),
        core_types: Seq::new(alloc),
        core_defs: shared_defs(alloc)?,
        adapters: Seq::new(alloc),
        tunables: PlanTunables {
            concurrency: false,
            exceptions: false,
            debug: false,
            fuel: FUEL,
        },
    })
}

/// Adds a side of the adapter of a number: its types, its function and its core type.
#[tactic(auto, using(crate::proofs::FormTypes::func_fits))]
fn add_function(alloc: Global, plan: &mut FusePlan, lifts: bool, k: u32) -> Result<(), OutOfMemory>
    requires { length plan.old.types + length (types_for lifts (adapter_form k) (length plan.old.types)) ≤ 4294967295 }
    ensures { OnOk result (plan.new ≡ record (with_types lifts (adapter_form k) plan.old) { core_types = plan.old.core_types ++ (linked_side lifts (adapter_form k)).core_type ∷ [] }) }
{
    let form = adapter_form(k);
    let place = plan.types.len() as u32;
    add_types(alloc, &mut plan.types, lifts, form)?;
    plan.funcs.push(func_for(alloc, form, place)?)?;
    plan.core_types.push(core_type_for(alloc, lifts, form)?)
}

/// Adds the adapter of a number to the plan of those before it.
fn add_adapter(alloc: Global, plan: &mut FusePlan, k: u32) -> Result<(), OutOfMemory>
    requires number { k < most_generated }
    requires before { plan.old ≡ generated k }
    ensures { OnOk result (plan.new ≡ with_adapter k plan.old) }
{
    add_function(alloc, plan, false, k)?;
    add_function(alloc, plan, true, k)?;
    let name = adapter_name(alloc, k)?;
    plan.core_defs.push(export_of(alloc, 1, name.as_str())?)?;
    plan.adapters.push(adapter_for(alloc, k)?)
}

/// A plan of so many adapters between two instances. Its adapters have eight forms by turns.
pub fn generate(alloc: Global, n: u32) -> Result<FusePlan, OutOfMemory>
    requires { n ≤ most_generated }
    ensures { IfOk result (λ plan. plan ≡ generated n) }
{
    let mut plan = without_adapters(alloc)?;
    for k in 0..n {
        add_adapter(alloc, &mut plan, k)?;
    }
    Ok(plan)
}
