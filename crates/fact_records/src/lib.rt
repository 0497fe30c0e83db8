//! What a module imports as records that have the layout of C, and one text that they point into.
#![tactic(auto)]

mod definitions;
mod records;
mod spans;

pub use definitions::Definition;
pub use fact_wasm::OutOfMemory;
pub use records::{ImportRecord, ImportRecords, import_records};
pub use spans::TextSpan;
