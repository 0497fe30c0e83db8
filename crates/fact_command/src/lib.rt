//! What the command is asked and what it says: the words of its command line, its ends with their numbers and lines, the line of a
//! refusal, and the printed lines of what a module imports.
#![tactic(auto)]

mod command;
mod import_lines;
mod refusal;
mod status;

pub use command::{CommandOptions, command_of};
pub use import_lines::{import_text, with_import_lines};
pub use refusal::refusal_line;
pub use status::Status;
