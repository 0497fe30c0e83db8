//! The types and the functions of a plan, added to a builder.

ghost use Rattle.std.specs.Prelude.{◌≡◌, IfOk, IfErr, IfSome, Some, length, slice_get};
ghost use Rattle.std.specs.List.{AllZip};
ghost use Rattle.fact_builder.specs.Builder.{no_types};
ghost use Rattle.fact_plan_types.specs.PlanTypes.{HasFaultlessTypes, AreTypesOf, HasTupleNumbers, IsFirstOfTypes, IsFuncOf, told};
ghost use Rattle.fact_plan_types.specs.Reached.{HasFuncs};

use crate::core_types::intern_all;
use crate::error::FuseError;
use crate::funcs::add_funcs;
use crate::types::add_types;
use fact_builder::ComponentTypesBuilder;
use fact_plan::FusePlan;
use fact_types::{InterfaceType, ModuleInternedTypeIndex, TypeFuncIndex};
use fact_wasm::{OutOfMemory, Seq};
use std::alloc::Global;

/// The types of a plan in a builder: the type of each entry, the function type of each function and the index of each core
/// type, in the order of the plan.
pub struct PlanTypes {
    pub builder: ComponentTypesBuilder,
    pub types: Seq<InterfaceType>,
    pub funcs: Seq<TypeFuncIndex>,
    pub core_types: Seq<ModuleInternedTypeIndex>,
}

// It ends by a function of its own, so that crates that end one prove nothing of its parts.
impl Drop for PlanTypes {
    fn drop(self) {
        let PlanTypes {
            builder,
            types,
            funcs,
            core_types,
        } = self;
        drop(builder);
        drop(types);
        drop(funcs);
        drop(core_types);
    }
}

impl PlanTypes {
    /// Adds the types of a plan to a new builder: resource tables up to the last one that a type names, the types in order,
    /// and for each function its parameters, its results and the function. Where a type or a function has a fault, the
    /// first one is told.
    pub fn new(alloc: Global, plan: &FusePlan) -> Result<PlanTypes, FuseError>
        ensures stand { IfOk result (λ t. AreTypesOf plan.now t) }
        ensures faultless { IfOk result (λ t. HasFaultlessTypes plan.now) }
        ensures refused { IfErr result (λ e. IfSome (told e) (λ x. IsFirstOfTypes plan.now x.0 x.1)) }
    {
        let mut builder = ComponentTypesBuilder::new(alloc, 0);
        match add_all(alloc, &mut builder, plan) {
            Ok(indices) => Ok(indices.within(builder)),
            Err(e) => {
                // A call that drops the builder has a short proof, the end of its scope a long one.
                drop(builder);
                Err(e)
            }
        }
    }
}

/// The types, the functions and the core types of a plan in a builder.
#[derive(Drop)]
struct Indices {
    types: Vec<InterfaceType>,
    funcs: Vec<TypeFuncIndex>,
    core_types: Vec<ModuleInternedTypeIndex>,
}

impl Indices {
    /// The indices with their builder.
    fn within(self, builder: ComponentTypesBuilder) -> PlanTypes
        ensures builder { result.builder ≡ builder }
        ensures types { result.types ≡ self.types.items }
        ensures funcs { result.funcs ≡ self.funcs.items }
        ensures core_types { result.core_types ≡ self.core_types.items }
    {
        let Indices {
            types,
            funcs,
            core_types,
        } = self;
        PlanTypes {
            builder,
            types: Seq::from_vec(types),
            funcs: Seq::from_vec(funcs),
            core_types: Seq::from_vec(core_types),
        }
    }
}

/// Adds all of a plan's types, functions and core types to a new builder, or tells the first fault.
fn add_all(
    alloc: Global,
    builder: &mut ComponentTypesBuilder,
    plan: &FusePlan,
) -> Result<Indices, FuseError>
    requires { builder.old ≡ no_types 0 }
    ensures reached { IfOk result (λ i. HasFuncs plan.now (length plan.now.funcs) builder.new i.types.items) }
    ensures funcs { IfOk result (λ i. AllZip (IsFuncOf plan.now builder.new.tables) i.funcs.items plan.now.funcs) }
    ensures numbers { IfOk result (λ i. AllZip (HasTupleNumbers plan.now builder.new.tables) i.funcs.items plan.now.funcs) }
    ensures core_types { IfOk result (λ i. AllZip (λ j ty. slice_get builder.new.module_types j.number ≡ Some ty) i.core_types.items plan.now.core_types) }
    ensures refused { IfErr result (λ e. IfSome (told e) (λ x. IsFirstOfTypes plan.now x.0 x.1)) }
{
    let types = add_types(alloc, builder, plan)?;
    let funcs = add_funcs(alloc, builder, plan, types.as_slice())?;
    let core_types = add_core_types(alloc, builder, plan)?;
    builder.reveal();
    Ok(Indices {
        types,
        funcs,
        core_types,
    })
}

/// Adds the core types of a plan, and nothing else.
fn add_core_types(
    alloc: Global,
    builder: &mut ComponentTypesBuilder,
    plan: &FusePlan,
) -> Result<Vec<ModuleInternedTypeIndex>, OutOfMemory>
    ensures added { IfOk result (λ found. AllZip (λ j ty. slice_get builder.new.module_types j.number ≡ Some ty) found.items plan.now.core_types) }
    ensures tables { builder.new.tables ≡ builder.old.tables }
{
    intern_all(
        alloc,
        builder.module_types_builder_mut(),
        plan.core_types.as_slice(),
    )
}
