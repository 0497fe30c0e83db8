//! Whether two plans are the same, part by part.

use fact_plan::{FusePlan, PlanAdapter, PlanFunc, PlanMemory, PlanRef, PlanSide, PlanType};
use fact_wasm::{Seq, Text};

/// What is the same as another one where its parts are.
trait Parts {
    fn is_same(&self, other: &Self) -> bool;
}

impl Parts for PlanRef {
    fn is_same(&self, other: &PlanRef) -> bool {
        match (*self, *other) {
            (PlanRef::Word(word), PlanRef::Word(other)) => word == other,
            (PlanRef::Entry(place), PlanRef::Entry(other)) => place == other,
            _ => false,
        }
    }
}

impl<T: Parts> Parts for Option<T> {
    fn is_same(&self, other: &Option<T>) -> bool {
        match (self, other) {
            (Some(part), Some(other)) => part.is_same(other),
            (None, None) => true,
            _ => false,
        }
    }
}

impl<T: Parts> Parts for (Text, T) {
    fn is_same(&self, other: &(Text, T)) -> bool {
        (self.0 == other.0) & self.1.is_same(&other.1)
    }
}

impl<T: Parts> Parts for Seq<T> {
    fn is_same(&self, other: &Seq<T>) -> bool {
        for (part, its) in self.as_slice().iter().zip(other.as_slice()) {
            if !part.is_same(its) {
                return false;
            }
        }
        self.len() == other.len()
    }
}

/// Types of the kinds that are generated.
impl Parts for PlanType {
    fn is_same(&self, other: &PlanType) -> bool {
        match (self, other) {
            (PlanType::Record(fields), PlanType::Record(other)) => fields.is_same(other),
            (PlanType::Variant(cases), PlanType::Variant(other)) => cases.is_same(other),
            (PlanType::Tuple(types), PlanType::Tuple(other)) => types.is_same(other),
            (PlanType::List(ty), PlanType::List(other)) => ty.is_same(other),
            (PlanType::Option(ty), PlanType::Option(other)) => ty.is_same(other),
            (PlanType::Result(ok, err), PlanType::Result(other_ok, other_err)) => {
                ok.is_same(other_ok) & err.is_same(other_err)
            }
            _ => false,
        }
    }
}

impl Parts for PlanFunc {
    fn is_same(&self, other: &PlanFunc) -> bool {
        self.params.is_same(&other.params)
            & self.results.is_same(&other.results)
            & (self.async_ == other.async_)
    }
}

impl Parts for PlanMemory {
    fn is_same(&self, other: &PlanMemory) -> bool {
        (self.def, self.memory64, self.shared, self.page_size_log2)
            == (
                other.def,
                other.memory64,
                other.shared,
                other.page_size_log2,
            )
    }
}

impl Parts for PlanSide {
    fn is_same(&self, other: &PlanSide) -> bool {
        (self.ty == other.ty)
            & (self.instance == other.instance)
            & (self.core_type == other.core_type)
            & (self.async_ == other.async_)
            & (self.encoding == other.encoding)
            & self.memory.is_same(&other.memory)
            & (self.realloc == other.realloc)
            & (self.callback == other.callback)
            & (self.post_return == other.post_return)
    }
}

impl Parts for PlanAdapter {
    fn is_same(&self, other: &PlanAdapter) -> bool {
        (self.name == other.name)
            & (self.func == other.func)
            & (self.transparent == other.transparent)
            & self.lift.is_same(&other.lift)
            & self.lower.is_same(&other.lower)
    }
}

/// Whether two plans, of types of the kinds that are generated, are the same.
pub fn is_same_plan(plan: &FusePlan, other: &FusePlan) -> bool {
    let (its, others) = (plan.tunables, other.tunables);
    plan.instances == other.instances
        && plan.types.is_same(&other.types)
        && plan.tables == other.tables
        && plan.funcs.is_same(&other.funcs)
        && plan.core_types == other.core_types
        && plan.core_defs == other.core_defs
        && plan.adapters.is_same(&other.adapters)
        && (its.concurrency, its.exceptions, its.debug, its.fuel)
            == (
                others.concurrency,
                others.exceptions,
                others.debug,
                others.fuel,
            )
}
