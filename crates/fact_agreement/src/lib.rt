//! Which types a value can cross between: whether a source type agrees with a destination type.
//!
//! Types agree member by member, the fields of records and the cases of variants by their names. [`Agreement`] remembers
//! each pair of types that it was asked for, so that types which many others share are compared once.
#![tactic(auto)]

mod agreement;
mod comparison;
mod fields;

pub use agreement::Agreement;
pub use fact_wasm::OutOfMemory;
