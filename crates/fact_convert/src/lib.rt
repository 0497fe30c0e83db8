//! What conversions make of the types of a source, and what the end of a builder makes of a component: calls of
//! `ComponentTypesBuilder`, by the trait [`Conversions`].
//!
//! - The calls: `conversions` and, of the end, `finish`, over a `component`.
//! - Types of values (`values`, with `members`, `names` and `handles`), functions (`funcs`), modules (`modules`), and imports and exports (`items`), whose
//!   resources are registered by `registers`.
#![tactic(auto)]

mod component;
mod conversions;
mod finish;
mod funcs;
mod handles;
mod items;
mod members;
mod modules;
mod names;
mod registers;
mod values;

pub use component::{Component, Export};
pub use conversions::Conversions;
pub use fact_builder::{BuildError, Registration, ResourcesBuilder};
