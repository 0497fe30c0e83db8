//! The fused module of a plan: [`fuse`].

ghost use Rattle.std.specs.Prelude.{◌≡◌, ◌≤◌, ◌+◌, Some, slice_get, IfErr, IfOk, IfSome, OnOk};
ghost use Rattle.fact_plan_types.specs.PlanTypes.{HasFaultlessTypes, AreTypesOf, told};
ghost use Rattle.fact_check.specs.Accepted.{IsAccepted};
ghost use Rattle.fact_adapter_rules.specs.FirstFault.{IsFaultlessPlan, IsFirstAt};
ghost use Rattle.fact_adapter_rules.specs.PlanLinks.{IsFirstHere};
ghost use Rattle.fact_module.specs.Fusing.{HasTakenAll, HasTakenTo};
ghost use Rattle.fact_module.specs.Fused.{IsFused};
ghost use Rattle.fact_wasm.specs.Ranges.{InRange};
ghost use Rattle.fact_binary.specs.Spelling.{Spells};

use fact_adapter_rules::{FuseError, candidate_of, linked_adapter};
use fact_assembly::Module;
use fact_binary::encode;
use fact_emit::{Tunables, WasmFeatures};
use fact_plan::{FusePlan, PlanAdapter};
use fact_plan_types::PlanTypes;
use fact_types::Import;
use fact_wasm::{OutOfMemory, Seq, WasmModule};
use std::alloc::{AllocError, Global};

/// An adapter module: as a tree, as the bytes that spell it, and what its imports are, in the order of its import section.
#[derive(Drop)]
pub struct Fused {
    pub module: WasmModule,
    pub bytes: Seq<u8>,
    pub imports: Seq<Import>,
}

/// Takes the adapter at a place of a plan, behind those before it.
fn take_adapter(
    made: &mut Module<'_>,
    plan: &FusePlan,
    types: &PlanTypes,
    k: usize,
    adapter: &PlanAdapter,
) -> Result<(), FuseError>
    requires types { AreTypesOf plan.now types.now }
    requires at { HasTakenTo plan.now types.now.builder made.old k }
    requires there { slice_get plan.now.adapters k ≡ Some adapter.now }
    ensures taken { OnOk result (HasTakenTo plan.now types.now.builder made.new (k + 1)) }
    ensures refused { IfErr result (λ e. IfSome (told e) (λ x. IsFirstHere plan.now k x.0 x.1)) }
{
    types.builder.component_types().reveal();
    let linked = linked_adapter(plan, types, k, adapter)?;
    let candidate = candidate_of(adapter, &linked);
    let taken = made.take(k as u32, &candidate);
    drop(linked);
    taken
}

/// Takes the adapters of a plan.
fn take_adapters(made: &mut Module<'_>, plan: &FusePlan, types: &PlanTypes) -> Result<(), FuseError>
    requires types { AreTypesOf plan.now types.now }
    requires faultless { HasFaultlessTypes plan.now }
    requires at { HasTakenTo plan.now types.now.builder made.old 0 }
    ensures faultless { OnOk result (IsFaultlessPlan plan.now) }
    ensures taken { OnOk result (HasTakenAll plan.now made.new) }
    ensures refused { IfErr result (λ e. IfSome (told e) (λ x. IsFirstAt plan.now x.0 x.1)) }
{
    for (k, adapter) in plan.adapters.as_slice().iter().enumerate() {
        take_adapter(made, plan, types, k, adapter)?;
    }
    Ok(())
}

/// A module and its imports, with the bytes that spell it.
fn spelled(alloc: Global, module: WasmModule, imports: Seq<Import>) -> Result<Fused, OutOfMemory>
    requires { InRange «module» }
    ensures fused { IfOk result (λ f. (f.module ≡ «module») × (f.imports ≡ imports) × Spells f.bytes «module») }
{
    let Ok(bytes) = encode(alloc, &module) else {
        drop(module);
        drop(imports);
        return Err(AllocError);
    };
    Ok(Fused {
        module,
        bytes: Seq::from_vec(bytes),
        imports,
    })
}

/// The adapters of a plan, over its types, in one module.
fn fuse_over(alloc: Global, plan: &FusePlan, types: &PlanTypes) -> Result<Fused, FuseError>
    requires types { AreTypesOf plan.now types.now }
    requires faultless { HasFaultlessTypes plan.now }
    requires fuel { 1 ≤ plan.now.tunables.fuel }
    ensures fused { IfOk result (λ f. IsFused f plan.now) }
    ensures faultless { OnOk result (IsFaultlessPlan plan.now) }
    ensures refused { IfErr result (λ e. IfSome (told e) (λ x. IsFirstAt plan.now x.0 x.1)) }
{
    let tunables = Tunables {
        concurrency_support: plan.tunables.concurrency,
        debug_adapter_modules: plan.tunables.debug,
        fuel: plan.tunables.fuel,
    };
    let features = WasmFeatures {
        exceptions: plan.tunables.exceptions,
    };
    let mut module_so_far = Module::new(alloc, &types.builder, &tunables, features);
    if let Err(error) = take_adapters(&mut module_so_far, plan, types) {
        // A call that drops the module has a short proof, the end of its scope a long one.
        drop(module_so_far);
        return Err(error);
    }
    let (module, imports) = module_so_far.into_parts()?;
    Ok(spelled(alloc, module, imports)?)
}

/// The module that joins the two sides of each adapter of a plan. Its imports and exports are those of the plan ([`Import`],
/// each adapter's name, and for an async one between two instances those of its two parts and its callee), and its functions
/// carry values unchanged; that of an adapter within one instance traps at each call. A plan that has a fault is refused with
/// its first one, as by `check_plan`. The bytes of the module are those of an adapter module, whatever plan it was made for, as `check` of
/// `fact_check` looks at them.
pub fn fuse(alloc: Global, plan: &FusePlan) -> Result<Fused, FuseError>
    requires fuel { 1 ≤ plan.now.tunables.fuel }
    ensures fused { IfOk result (λ f. IsFused f plan.now) }
    ensures accepted { IfOk result (λ f. IsAccepted f.bytes f.module) }
    ensures faultless { OnOk result (IsFaultlessPlan plan.now) }
    ensures refused { IfErr result (λ e. IfSome (told e) (λ x. IsFirstAt plan.now x.0 x.1)) }
{
    let types = PlanTypes::new(alloc, plan)?;
    let fused = fuse_over(alloc, plan, &types);
    drop(types);
    fused
}
