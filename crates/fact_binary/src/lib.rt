//! The binary format of WebAssembly core modules, both ways: the bytes that spell a module, and the module that bytes spell.
//!
//! [`encode`] gives the bytes of a module by the core specification ("Binary Format"), in the subset that adapters use, with
//! multi-memory, memory64, custom page sizes and exception handling. [`decode`] gives the one module that bytes spell.
//!
//! - Written: `encoder` the sections, `code` the instructions, over `list` and `number`.
//! - Read: `decoder` the sections, `read_code` the instructions by the table of `forms`, over `read_list` and `reading`; `error` says why bytes are no module.
#![tactic(auto)]

mod code;
mod decoder;
mod encoder;
mod error;
mod forms;
mod list;
mod number;
mod read_code;
mod read_list;
mod reading;

pub use decoder::{MAX_NESTING, bytes_spell_one_module, decode};
pub use encoder::encode;
pub use error::DecodeError;
pub use number::numbers_are_shortest;
