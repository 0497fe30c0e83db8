//! Plans as values, and the reader of plans from JSON.
//!
//! A [`FusePlan`] lists types, functions and core items, and the adapters to make between them. [`read_value`] finds the
//! JSON value in some bytes, and [`plan_of`] the plan in a JSON value, or the first fault in it. The keys of other
//! objects are read by [`check_known`] and [`check_required`], with the same faults.
#![tactic(auto)]

mod entries;
mod fault;
mod objects;
mod parts;
mod plan;
mod reading;
mod words;

pub use fact_source::PrimitiveValType;
pub use fault::{PlanFault, at_key, at_place, fault_line};
pub use objects::{plan_at, plan_of};
pub use parts::{check_known, check_required};
pub use plan::{
    FusePlan, PlanAdapter, PlanFunc, PlanMemory, PlanRef, PlanSide, PlanTunables, PlanType,
};
pub use reading::read_value;
