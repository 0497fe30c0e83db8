//! Tests of what the libraries offer and no program calls, each a call that answers whether all is as it should be; the program `row_tests`
//! makes them. All else stands in its table.
//!
//! Of keys and plain types: keys and tables (`entities`), tables of types that no builder fills (`tables`), sizes (`sizes`), what is told of
//! imports and exports (`externs`), equality, hashes and copies (`traits`), traces (`traces`). Of modules: lists, texts and types (`lists`).
#![tactic(auto)]

mod entities;
mod externs;
mod lists;
mod named;
mod sizes;
mod tables;
mod traces;
mod traits;

pub use named::holds;
