//! What the runs of an adapter's function promise, from what the function does.
#![tactic(auto)]

mod laws;
mod worked;

pub use crate::laws::laws_of_functions;
pub use crate::worked::laws_of_worked_modules;
