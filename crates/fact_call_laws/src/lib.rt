//! What calls of adapters on a host carry.
#![tactic(auto)]

mod laws;

pub use laws::laws_of_calls;
