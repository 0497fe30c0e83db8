//! The types and the functions of a plan: the rules that they have to keep, and their place in a builder.
//!
//! - Refusals: `error` (the faults and their places), and the rules for entries and functions (`rules`, with `names`).
//! - `plan_types` puts a plan into a builder: its types (`types`, by `entries` and `members`), tables of handles (`handles`), functions (`funcs`) and core
//!   types (`core_types`).
#![tactic(auto)]

mod core_types;
mod entries;
mod error;
mod funcs;
mod handles;
mod members;
mod names;
mod plan_types;
mod rules;
mod types;

pub use error::{FuseError, Place};
pub use names::{are_repeated, is_repeated};
pub use plan_types::PlanTypes;
pub use rules::{MOST_CASES, MOST_ENTRIES, MOST_FLAGS};
