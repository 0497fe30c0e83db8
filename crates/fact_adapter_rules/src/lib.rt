//! The checks of a plan: its first fault, with its place.
//!
//! [`check_plan`] looks at the types, the functions and the adapters of a plan (`plan`, `linking`). [`AdapterChecks`] (`checks`) checks adapters over the
//! types of any builder, each behind those that it found sound: its options (`options`), types (`mismatch`), memories (`memories`, `uses`), core types
//! (`signatures`), core items (`uses`, `bindings`) and names (`names`, `export_names`), in this order; `bound` has what adapters bind and export.
#![tactic(auto)]

mod adapter;
mod bindings;
mod bound;
mod checks;
mod export_names;
mod linking;
mod memories;
mod mismatch;
mod names;
mod options;
mod plan;
mod sides;
mod signatures;
mod uses;

pub use adapter::{Adapter, AdapterOptionsDfg};
pub use bindings::Bindings;
pub use checks::AdapterChecks;
pub use export_names::ExportNames;
pub use fact_plan_types::{FuseError, Place};
pub use fact_types::{MemoryOption, OutOfMemory};
pub use plan::{MOST_INSTANCE, candidate_of, check_plan, linked_adapter, one_first_fault};
pub use sides::Candidate;
