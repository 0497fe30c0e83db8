//! A checker of adapter modules: [`check`] says of bytes whether they spell one, by its imports and by the types of its code, or why not.
//!
//! - The check (`checking`): of the imports (`imports`, kept by kinds in `section`), of the names of exports, and of the code.
//! - Code: `typing`, in a `context` of what stands around it (with the functions that are `exported`), over the types of `operands` and `locals`; `plain` has
//!   instructions of one type.
//! - `constants` reads the constants of code, and `laws` has what follows of modules that pass.
#![tactic(auto)]

mod checking;
mod constants;
mod context;
mod error;
mod exported;
mod imports;
mod laws;
mod locals;
mod operands;
mod plain;
mod section;
mod typing;

pub use checking::check;
pub use constants::read_constants;
pub use error::{CheckError, CheckPlace};
pub use imports::memories_of;
pub use laws::{accepted_bytes_have_no_cause, laws_of_checked, laws_of_seen};

/// Want of memory, the one free answer of each call that allocates.
pub type OutOfMemory = std::alloc::AllocError;
