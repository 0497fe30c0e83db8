//! Values of component types in JSON: how they are read by the types of a function, and how they are printed.
//!
//! A bool is `true` or `false`. An integer is a number, a float the number of its bits, and a handle its number. A char and a
//! string are texts; a list, a tuple and a list of fixed length are lists, and a map is a list of lists of two. A record is an
//! object of its fields. Flags are a list of the names that are set, and an enum is a name. A variant, an option and a result
//! are an object of one key, the case, whose value is the payload, or null where there is none.
#![tactic(auto)]

mod laws;
mod parts;
mod plain;
mod printing;
mod reading;
mod scalars;

pub use laws::laws_of_json_values;
pub use printing::values_text;
pub use reading::read_values;
