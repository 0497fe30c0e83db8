//! Lines of the table of `row_tests` that speak of modules by their bytes, of types and of sources, and what comes of them; `row_tests` has those of plans,
//! and of what the command answers. Apart from it, they are proved beside all that only the command needs.
#![tactic(auto)]

mod agreed;
mod asking;
mod conversions;
mod core_items;
mod defined;
mod finished;
mod funcs;
mod json_values;
mod layouts;
mod listed;
mod live;
mod live_source;
mod made;
mod modules;
mod runs;
mod same_plan;
mod sources;
mod told_defs;
mod told_runs;
mod told_values;
mod trees;
mod type_lines;
mod types;
mod values;
mod walked;
mod words;

pub use conversions::add_lines_of_source;
pub use made::{end_plan, made_of, plan_in};
pub use modules::{add_of_module, end_module, is_spelled, module_of_bytes};
pub use runs::add_run;
pub use same_plan::is_same_plan;
pub use trees::{add_tree, add_types};
pub use type_lines::add_of_types;
pub use words::{add_text, begins_answer, edited, first_of, number_of, small_number_of, word_of};
