//! Plans explained to people: of a plan without faults its adapters with the core types of each side and what it needs, its types with their layouts, and
//! the imports of its module; of any other input its first fault, with its place, what is wanted there and what is there.
#![tactic(auto)]

mod adapters;
mod agreement;
mod asked;
mod core_types;
mod ending;
mod explanation;
mod imports;
mod layouts;
mod members;
mod named;
mod names;
mod page;
mod reading;
mod refusals;
mod shown;
mod sides;
mod texts;
mod top;

pub use ending::plain_line;
pub use top::{explain, module_bytes};
