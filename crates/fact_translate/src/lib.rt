//! The moves of values of any type ([`translate_in_place`], or by helpers where fuel is wanting): of records, tuples and other nodes with their members,
//! and of variants by the code of their cases, from the code of each kind of type in `fact_kinds`. What each function ensures is what the code does that it
//! has written.
#![tactic(auto)]

mod translate;

pub use translate::{move_tuple, translate_in_place};
