//! The builder of component types: it keeps one entry of each type, makes types of their members, and tells of each type its
//! flat types, whether it holds handles or what stands in memory behind a pointer, and how deep it nests; and of functions
//! their core signatures. Of the resources of a source it knows what each is registered as, and the table of its handles.
//!
//! - The tables: `builder`, over `known_types`; one entry of each type is added by `entry`, for the tables of `pushes`, by the calls of `adds`; items that are
//!   never looked for (`items`), and look-ups by index (`index`).
//! - Types made of their members: `products`, `sums` and `lists`, by `layouts`.
//! - What is known of a type (`information`, with `flat_list`) is worked out from its members (`known`), and told by `facts`; of functions by `signatures`.
//! - Resources of a source: what each is registered as (`registration`, `known_resources`); a `walk` finds them, and they are registered (`registering`,
//!   `beside`); the same as calls of the builder (`resources`).
#![tactic(auto)]

mod adds;
mod beside;
mod builder;
mod entry;
mod error;
mod facts;
mod flat_list;
mod index;
mod information;
mod items;
mod known;
mod known_resources;
mod known_types;
mod layouts;
mod lists;
mod products;
mod pushes;
mod registering;
mod registration;
mod resources;
mod signatures;
mod sums;
mod walk;

pub use builder::ComponentTypesBuilder;
pub use error::BuildError;
pub use fact_entity::{OutOfMemory, ResourceId};
pub use fact_types::{SideSig, Signature};
pub use known_resources::ResourcesBuilder;
pub use lists::{make_fixed_length_list, make_list, make_map};
pub use products::{make_record, make_tuple};
pub use registration::Registration;
pub use sums::{make_enum, make_flags, make_option, make_result, make_variant};
pub use walk::{FoundResource, find_resources};
