//! The rules for types and functions, over the types of a builder: whether a function type, or a type in it, breaks one.
#![tactic(auto)]

mod entries;
mod functions;
mod laws;
mod members;
mod names;
mod rules;
mod walk;

pub use fact_wasm::OutOfMemory;
pub use functions::FunctionTypes;
pub use laws::rules_are_one;
