//! The compiler as one call: from the bytes of a plan to the bytes of its module and to records of what the module imports, which have
//! the layout of C.
#![tactic(auto)]

mod compiling;
mod errors;
mod giving;

pub use compiling::{Compiled, compile};
pub use errors::CompileError;
pub use fact_records::{Definition, ImportRecord, TextSpan};
pub use giving::{Sizes, compile_into};
