//! Modules by their bytes. Where `bytes`, `copy` or `shortened` stands before the text of a block, this is no plan but the bytes of a
//! module, which its lines speak of: as it is decoded, a copy of it, or without its last function and its imports.
//!
//!     spells WHAT | BYTES                         what other bytes spell: `module`, where this has the same bytes, or `no module`
//!     call STATE | NAME | STEPS | ARGS | ANSWERS  a `run` of the function that the module exports by a name
//!     tree types                                  its types; likewise `imports`, `functions` and `exports`
//!     tree body FUNC                              the code of the nth function that it defines
//!
//! Bytes are parts of hex, each as often as `*N` behind it says.

use crate::runs::add_run;
use crate::trees::add_tree;
use crate::words::{first_of, number_of};
use fact_binary::{DecodeError, decode, encode};
use fact_wasm::{FuncName, Seq, WasmModule};
use std::alloc::{AllocError, Global};

/// Adds a part of bytes, and answers whether it is one.
fn add_part(alloc: Global, bytes: &mut Vec<u8>, part: &str) -> Result<bool, AllocError> {
    let (digits, count) = part.split_once("*").unwrap_or((part, "1"));
    let Ok(part) = hex::decode(alloc, digits) else {
        return Ok(false);
    };
    for _ in 0..number_of(count) {
        bytes.extend_from_slice(part.as_slice())?;
    }
    Ok(true)
}

/// The bytes of a line, where each of its parts is one.
fn bytes_of(alloc: Global, parts: &str) -> Result<Option<Vec<u8>>, AllocError> {
    let mut bytes = Vec::new(alloc);
    for part in parts.split_whitespace() {
        if !add_part(alloc, &mut bytes, part)? {
            return Ok(None);
        }
    }
    Ok(Some(bytes))
}

/// The module that the bytes of a block spell, if they spell one.
fn module_spelled(alloc: Global, parts: &str) -> Result<Option<WasmModule>, AllocError> {
    match bytes_of(alloc, parts)? {
        Some(bytes) => Ok(decode(alloc, bytes.as_slice()).ok()),
        None => Ok(None),
    }
}

/// Ends a module, where there is one.
pub fn end_module(module: Option<WasmModule>) {
    drop(module);
}

/// A copy in place of a module.
fn copy_of(module: WasmModule) -> Result<WasmModule, AllocError> {
    let copy = module.try_clone();
    drop(module);
    copy
}

/// A module without its last function and its imports.
fn shortened(alloc: Global, mut module: WasmModule) -> WasmModule {
    let last = module.funcs.pop();
    drop(last);
    module.imports = Seq::new(alloc);
    module
}

/// The module that bytes spell, as the word before them says: itself, a copy of it, or without its last function and its imports.
pub fn module_of_bytes(
    alloc: Global,
    how: &str,
    parts: &str,
) -> Result<Option<WasmModule>, AllocError> {
    match (module_spelled(alloc, parts)?, how) {
        (Some(module), "copy") => Ok(Some(copy_of(module)?)),
        (Some(module), "shortened") => Ok(Some(shortened(alloc, module))),
        (module, _) => Ok(module),
    }
}

/// Whether a module is in range and has these bytes.
pub fn is_spelled(alloc: Global, module: &WasmModule, bytes: &[u8]) -> Result<bool, AllocError> {
    if !module.in_range() {
        return Ok(false);
    }
    let spelled = encode(alloc, module)?;
    Ok(spelled.as_slice() == bytes)
}

/// Adds what bytes spell.
fn add_verdict(page: &mut String, alloc: Global, bytes: &[u8]) -> Result<(), AllocError> {
    match decode(alloc, bytes) {
        Ok(module) => {
            let same = is_spelled(alloc, &module, bytes);
            drop(module);
            page.push_str(if same? { "module" } else { "other bytes" })
        }
        Err(DecodeError::NotInGrammar) => page.push_str("no module"),
        Err(DecodeError::OutOfMemory) => Err(AllocError),
    }
}

/// Adds what the bytes of a line spell, behind the words that tell a reader what they are.
fn add_spelled(page: &mut String, alloc: Global, line: &str) -> Result<(), AllocError> {
    let (_, parts) = first_of(line);
    match bytes_of(alloc, parts)? {
        Some(bytes) => add_verdict(page, alloc, bytes.as_slice()),
        None => page.push_str("no bytes"),
    }
}

/// The number of the defined function that a module exports by a name.
fn defined_as(module: &WasmModule, name: &str) -> Option<u32> {
    for export in module.exports.as_slice() {
        if export.name.as_str() == name {
            return match export.func {
                FuncName::Defined(number) => Some(number),
                FuncName::Import(_) => None,
            };
        }
    }
    None
}

/// Adds what comes of a `call`, which is a run of the function of its name.
fn add_call(
    page: &mut String,
    alloc: Global,
    module: &WasmModule,
    line: &str,
) -> Result<(), AllocError> {
    let (state, line) = first_of(line);
    let (name, line) = first_of(line);
    let Some(number) = defined_as(module, name) else {
        return page.push_str("no such function");
    };
    let line = format!(in alloc; "{state} | {number} {line}")?;
    add_run(page, alloc, module, line.as_str())
}

/// Adds what comes of a line of one of these kinds.
pub fn add_of_module(
    page: &mut String,
    alloc: Global,
    module: &Option<WasmModule>,
    kind: &str,
    line: &str,
) -> Result<(), AllocError> {
    match (kind, module) {
        ("spells", _) => add_spelled(page, alloc, line),
        (_, None) => page.push_str("no module"),
        ("call", Some(module)) => add_call(page, alloc, module, line),
        (_, Some(module)) => add_tree(page, module, line),
    }
}
