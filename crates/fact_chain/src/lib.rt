//! Chains of two adapters: the component between passes on what it is given to the callee of the second adapter, and gives back what
//! that one's caller got. It shares no memory between the two runs: each call begins with memories of its own.
//!
//! [`chain`] calls the first adapter on a host with a [`Passing`] as its callee, which calls the second one.
#![tactic(auto)]

mod chaining;
mod passing;

pub use chaining::{Chained, chain};
pub use passing::Passing;
