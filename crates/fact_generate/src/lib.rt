//! Plans that are made without an input: many adapters, in eight forms by turns, between two instances.
#![tactic(auto)]

mod core_types;
mod form;
mod funcs;
mod laws;
mod plan;
mod sides;
mod types;

pub use fact_plan::FusePlan;
pub use fact_types::OutOfMemory;
pub use form::AdapterForm;
pub use laws::laws_of_generated;
pub use plan::{MOST_GENERATED, generate};
