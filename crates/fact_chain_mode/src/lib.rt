//! Chains of two adapters with values in JSON.
//!
//! An input is a JSON object of a plan, of the names of two of its adapters, of the arguments of the first, and of what the callee of the second
//! answers. The plan is fused without debug checks, and the first adapter is called on a host; the component between passes on what it is given to the
//! second one. The text that comes of it tells what the last callee was given, what the first caller got, and how many calls of the outside the two
//! runs made.
#![tactic(auto)]

mod chaining;
mod hosting;
mod input;
mod pairs;
mod telling;
mod values;

pub use chaining::reply_to_chain;
pub use fact_wasm::OutOfMemory;
