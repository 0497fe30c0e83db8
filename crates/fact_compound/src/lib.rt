//! Whole functions of adapters: [`compile`] puts those of an adapter into a module. Their code is of the moves of `fact_translate` and the steps of
//! `fact_steps`. What each function ensures is what the code does that it has written.
//!
//! - [`compile`] (`functions`), over a `state` and the data of an adapter (`adapters`).
//! - Of a sync adapter: the function (`functions`), its steps (`syncs`), and the moves of parameters and results between them (`tuples`).
//! - Of an async adapter: the functions that move parameters and results (`asyncs`), and the one that hands its call to the runtime (`entries`).
//! - Of an adapter within one instance: `same_instance`. Of helpers: `helpers`.
#![tactic(auto)]

mod adapters;
mod asyncs;
mod entries;
mod functions;
mod helpers;
mod same_instance;
mod state;
mod syncs;
mod tuples;

pub use adapters::{AdapterData, AdapterOptions, LinearMemoryOptions, Options};
pub use functions::compile;
pub use state::ModuleState;
