//! What an adapter does with values, memories and the outside, without a word of the code that does it, as definitions: what an action is
//! (`specs/Actions.antt`), those of whole adapters (`Adapters.antt`), of pairs of types (`Moves.antt`) and of texts (`Paths.antt`, `Strings.antt`). Nothing
//! here runs: each call carries laws.
#![tactic(auto)]

mod laws;

pub use crate::laws::{
    laws_of_actions, laws_of_adapters, laws_of_async_adapters, laws_of_moves, rows_of_outlining,
};
