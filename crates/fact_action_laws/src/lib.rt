//! What actions make of values: what is carried from one side of a call to the other, and what is asked of realloc and of transcoders for it, where the
//! outside answers honestly, all of it or up to a trap, and of some laws its transcoders alone.
#![tactic(auto)]

mod adapter_value_laws;
mod async_laws;
mod laws;

pub use crate::adapter_value_laws::laws_of_adapter_values;
pub use crate::async_laws::laws_of_async_transfers;
pub use crate::laws::laws_of_transfers;
