//! Modules of blocks: those that the command prints for their plans, and those of their bytes.

use crate::command::{plain, run_on};
use fact_binary::decode;
use fact_wasm::WasmModule;
use line_tests::{module_of_bytes, word_of};
use std::alloc::{AllocError, Global};

/// The module in a text that begins with a line of hex, if there is one.
pub fn module_in(alloc: Global, text: &str) -> Result<Option<WasmModule>, AllocError> {
    let Some(line) = text.lines().next() else {
        return Ok(None);
    };
    let Ok(bytes) = hex::decode(alloc, line) else {
        return Ok(None);
    };
    Ok(decode(alloc, bytes.as_slice()).ok())
}

/// The module that the command prints for a plan, if it prints one.
fn module_of(alloc: Global, plan: &str) -> Result<Option<WasmModule>, AllocError> {
    let seen = run_on(alloc, &plain(plan))?;
    let module = module_in(alloc, seen.printed());
    drop(seen);
    module
}

/// The module of a block's text.
pub fn module_of_block(alloc: Global, text: &str) -> Result<Option<WasmModule>, AllocError> {
    let (how, parts) = word_of(text);
    if matches!(how, "bytes" | "copy" | "shortened") {
        return module_of_bytes(alloc, how, parts);
    }
    module_of(alloc, text)
}
