//! WebAssembly core modules as values.
//!
//! The types are those of the core specification ("Structure"), restricted to what adapter modules use, with
//! multi-memory, memory64, custom page sizes and exception handling. [`Seq`] and [`Text`] are the lists and texts that all
//! types here are made of. The bytes that spell a module are those of `fact_binary`.
#![tactic(auto)]

mod copies;
mod core_types;
mod instr;
mod module;
mod range;
mod seq;
mod text;
mod types;

pub use copies::copy_items;
pub use core_types::CoreTypes;
pub use instr::{BlockType, FuncName, Instr, MemArg};
pub use module::{ImportType, WasmExport, WasmFunc, WasmImport, WasmModule};
pub use range::count_functions;
pub use seq::Seq;
pub use text::Text;
pub use types::{FuncType, ValType};

/// Want of memory, the one free answer of each call that allocates.
pub type OutOfMemory = std::alloc::AllocError;
