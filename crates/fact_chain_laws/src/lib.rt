//! What chains of two adapters on a host carry.
#![tactic(auto)]

mod laws;

pub use laws::laws_of_chains;
