//! Calls that read values of component types from memory and from core values, and that carry them from one type to another that
//! agrees with it. What is read and carried is defined in `fact_values`.
//!
//! - Read from memory: `loading` (`load`), with `numbers` and `texts`. Read from core values: `lifting` (`lift`), with `standing`.
//! - Carried to another type: `carrying` (`carry`). `belonging` tells which values a type has; `nodes` are types with members as these walks see them.
#![tactic(auto)]

mod belonging;
mod carrying;
mod lifting;
mod loading;
mod nodes;
mod numbers;
mod standing;
mod texts;

pub use belonging::{index_of_name, index_of_str, is_value_of, member_type, only_value};
pub use carrying::carry;
pub use fact_values::{HandleKind, SideAbi, Value, laws_of_values};
pub use fact_wasm::OutOfMemory;
pub use lifting::lift;
pub use loading::{case_bytes, load, named, plain_size};
pub use nodes::{Node, NodeKind, node_of_type};
pub use texts::decoded;
