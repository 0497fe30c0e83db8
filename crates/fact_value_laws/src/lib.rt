//! Laws of values that are carried through a type between two others.
#![tactic(auto)]

mod laws;

pub use laws::laws_of_composition;
