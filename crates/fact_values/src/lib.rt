//! Values of component types: what they are, how they are read from memory and from core values, and how they are carried from one
//! type to another that agrees with it, as definitions with their laws. The calls that do it are those of `fact_abi`.
//!
//! Reading follows the Component Model's canonical ABI ("Loading", "Flat Lifting"), and crossing is by names: fields of
//! records, cases of variants and flags.
#![tactic(auto)]

mod copies;
mod laws;
mod side;
mod value;

pub use laws::laws_of_values;
pub use side::SideAbi;
pub use value::{HandleKind, Value};
