//! The printed lines of what a module imports.

ghost use Rattle.std.specs.Prelude.{◌≡◌, ◌++◌, IfOk, codes, string_bytes};
ghost use Rattle.fact_types.specs.TranscoderNames.{transcode_name as transcode_name_of};
ghost use Rattle.fact_command.specs.ImportLines.{def_text, import_lines, import_text, memory_text, optional_text, width_text};

use fact_emit::{slot_name, transcode_name, trap_number};
use fact_entity::EntityRef;
use fact_types::{CoreDef, Import, Transcode};
use fact_wasm::OutOfMemory;
use std::alloc::Global;

fn def_text(alloc: Global, def: &CoreDef) -> Result<String, OutOfMemory>
    ensures { IfOk result (λ text. string_bytes text ≡ def_text def.now) }
{
    match def {
        CoreDef::Export { instance, name } => {
            let number = instance.as_u32();
            let name = hex::encode(alloc, name.as_str().as_bytes())?;
            format!(in alloc; "export {number} {name}")
        }
        CoreDef::InstanceFlags(instance) => {
            let number = instance.as_u32();
            format!(in alloc; "instance-flags {number}")
        }
        CoreDef::Trampoline(trampoline) => {
            let number = trampoline.as_u32();
            format!(in alloc; "trampoline {number}")
        }
    }
}

fn optional_text(alloc: Global, def: &Option<CoreDef>) -> Result<String, OutOfMemory>
    ensures { IfOk result (λ text. string_bytes text ≡ optional_text def.now) }
{
    match def {
        None => String::from_str(alloc, "none"),
        Some(def) => def_text(alloc, def),
    }
}

/// The width of a memory's pointers in bits.
fn width(wide: bool) -> &'static str
    ensures { result.now ≡ width_text wide }
{
    if wide { "64" } else { "32" }
}

/// A memory, behind the width of its pointers.
fn memory_text(alloc: Global, wide: bool, def: &CoreDef) -> Result<String, OutOfMemory>
    ensures { IfOk result (λ text. string_bytes text ≡ memory_text wide def.now) }
{
    let width = width(wide);
    let def = def_text(alloc, def)?;
    format!(in alloc; "{width} {def}")
}

fn transcode_text(alloc: Global, op: Transcode, from: &str, to: &str) -> Result<String, OutOfMemory>
    ensures { IfOk result (λ text. string_bytes text ≡ codes "transcode " ++ (transcode_name_of op ++ (codes " " ++ (from.now ++ (codes " " ++ to.now))))) }
{
    let op = transcode_name(op);
    format!(in alloc; "transcode {op} {from} {to}")
}

fn prepare_call_text(alloc: Global, memory: &Option<CoreDef>) -> Result<String, OutOfMemory>
    ensures { IfOk result (λ text. string_bytes text ≡ codes "prepare-call " ++ optional_text memory.now) }
{
    let memory = optional_text(alloc, memory)?;
    format!(in alloc; "prepare-call {memory}")
}

fn start_call_text(
    alloc: Global,
    callback: &Option<CoreDef>,
    post_return: &Option<CoreDef>,
) -> Result<String, OutOfMemory>
    ensures { IfOk result (λ text. string_bytes text ≡ codes "start-call " ++ (optional_text callback.now ++ (codes " " ++ optional_text post_return.now))) }
{
    let callback = optional_text(alloc, callback)?;
    let post_return = optional_text(alloc, post_return)?;
    format!(in alloc; "start-call {callback} {post_return}")
}

/// An import, by what it stands for: the line of it, without a newline.
pub fn import_text(alloc: Global, import: &Import) -> Result<String, OutOfMemory>
    ensures { IfOk result (λ text. string_bytes text ≡ import_text import.now) }
{
    match import {
        Import::CoreDef(def) => {
            let def = def_text(alloc, def)?;
            format!(in alloc; "core-def {def}")
        }
        Import::Transcode {
            op,
            from,
            from64,
            to,
            to64,
        } => {
            let from = memory_text(alloc, *from64, from)?;
            let to = memory_text(alloc, *to64, to)?;
            transcode_text(alloc, *op, &from, &to)
        }
        Import::ResourceTransferOwn => String::from_str(alloc, "resource-transfer-own"),
        Import::ResourceTransferBorrow => String::from_str(alloc, "resource-transfer-borrow"),
        Import::PrepareCall { memory } => prepare_call_text(alloc, memory),
        Import::StartCall {
            callback,
            post_return,
        } => start_call_text(alloc, callback, post_return),
        Import::FutureTransfer => String::from_str(alloc, "future-transfer"),
        Import::StreamTransfer => String::from_str(alloc, "stream-transfer"),
        Import::ErrorContextTransfer => String::from_str(alloc, "error-context-transfer"),
        Import::Trap(trap) => {
            let number = trap_number(*trap);
            format!(in alloc; "trap {number}")
        }
        Import::EnterSyncCall => String::from_str(alloc, "enter-sync-call"),
        Import::ExitSyncCall => String::from_str(alloc, "exit-sync-call"),
        Import::UnsafeIntrinsic(slot) => {
            let slot = slot_name(*slot);
            format!(in alloc; "unsafe-intrinsic {slot}")
        }
    }
}

/// The text with one line an import behind it, in order.
pub fn with_import_lines(
    alloc: Global,
    mut text: String,
    imports: &[Import],
) -> Result<String, OutOfMemory>
    ensures { IfOk result (λ page. string_bytes page ≡ string_bytes text ++ import_lines imports.now) }
{
    for import in imports {
        let line = import_text(alloc, import)?;
        text.push_str(&line)?;
        text.push('\n')?;
    }
    Ok(text)
}
