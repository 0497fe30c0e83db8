//! Records of what a module imports, one for each import, in the order of its import section.

ghost use Rattle.std.specs.Prelude.{◌≡◌, IfOk, OnOk, length, string_bytes};
ghost use Rattle.std.specs.List.{AllZip};
ghost use Rattle.fact_command.specs.ImportLines.{import_line};
ghost use Rattle.fact_records.specs.Texts.{Grows, HasTextAt};
ghost use Rattle.fact_records.specs.Records.{Means, Names, TellsBoth, kind_of, operation_of, slot_number, transcode_number};

use crate::definitions::{Definition, made_definition, nothing, optional_definition, width_of};
use crate::spans::{TextSpan, add_text};
use fact_command::import_text;
use fact_emit::trap_number;
use fact_types::{FixedEncoding, Import, Transcode, UnsafeIntrinsic};
use fact_wasm::{OutOfMemory, WasmImport};
use std::alloc::Global;

/// An import of an adapter module: its two names, and what it is.
#[repr(C)]
#[derive(Clone, Copy)]
pub struct ImportRecord {
    /// What it stands for. 0: a core definition. 1: a transcoder. 2, 3: the transfer of an owned, of a borrowed handle. 4: a
    /// prepare-call. 5: a start-call. 6, 7, 8: the transfer of a future, of a stream, of an error context. 9: a trap. 10, 11: the entry
    /// into a sync call and the exit from it. 12: a slot of the context.
    pub kind: u32,
    /// Of a transcoder what it does, of a trap its number, of a slot which one is read or written; else 0.
    pub operation: u32,
    /// The core definition, the memory that a transcoder reads, the memory of a prepare-call, or the callback of a start-call.
    pub first: Definition,
    /// The memory that a transcoder writes, or the post-return of a start-call.
    pub second: Definition,
    /// The module that it is imported from.
    pub module: TextSpan,
    /// Its name there.
    pub name: TextSpan,
    /// The line that `factc --imports` prints of it, with its newline.
    pub line: TextSpan,
}

/// The records of a module's imports, and the texts that they point into.
#[derive(Drop)]
pub struct ImportRecords {
    pub records: Vec<ImportRecord>,
    pub text: String,
}

fn kind_of(import: &Import) -> u32
    ensures { result ≡ kind_of import.now }
{
    match import {
        Import::CoreDef(_) => 0,
        Import::Transcode { .. } => 1,
        Import::ResourceTransferOwn => 2,
        Import::ResourceTransferBorrow => 3,
        Import::PrepareCall { .. } => 4,
        Import::StartCall { .. } => 5,
        Import::FutureTransfer => 6,
        Import::StreamTransfer => 7,
        Import::ErrorContextTransfer => 8,
        Import::Trap(_) => 9,
        Import::EnterSyncCall => 10,
        Import::ExitSyncCall => 11,
        Import::UnsafeIntrinsic(_) => 12,
    }
}

fn transcode_number(op: Transcode) -> u32
    ensures { result ≡ transcode_number op }
{
    match op {
        Transcode::Copy(FixedEncoding::Utf8) => 0,
        Transcode::Copy(FixedEncoding::Utf16) => 1,
        Transcode::Copy(FixedEncoding::Latin1) => 2,
        Transcode::Latin1ToUtf16 => 3,
        Transcode::Utf8ToUtf16 => 4,
        Transcode::Utf16ToUtf8 => 5,
        Transcode::Latin1ToUtf8 => 6,
        Transcode::Utf8ToLatin1 => 7,
        Transcode::Utf16ToLatin1 => 8,
        Transcode::Utf8ToCompactUtf16 => 9,
        Transcode::Utf16ToCompactUtf16 => 10,
        Transcode::Utf16ToCompactProbablyUtf16 => 11,
    }
}

fn slot_number(slot: UnsafeIntrinsic) -> u32
    ensures { result ≡ slot_number slot }
{
    match slot {
        UnsafeIntrinsic::ContextGetI32_0 => 0,
        UnsafeIntrinsic::ContextGetI32_1 => 1,
        UnsafeIntrinsic::ContextSetI32_0 => 2,
        UnsafeIntrinsic::ContextSetI32_1 => 3,
    }
}

fn operation_of(import: &Import) -> u32
    ensures { result ≡ operation_of import.now }
{
    match import {
        Import::Transcode { op, .. } => transcode_number(*op),
        Import::Trap(trap) => trap_number(*trap),
        Import::UnsafeIntrinsic(slot) => slot_number(*slot),
        Import::CoreDef(_)
        | Import::ResourceTransferOwn
        | Import::ResourceTransferBorrow
        | Import::PrepareCall { .. }
        | Import::StartCall { .. }
        | Import::FutureTransfer
        | Import::StreamTransfer
        | Import::ErrorContextTransfer
        | Import::EnterSyncCall
        | Import::ExitSyncCall => 0,
    }
}

/// The definitions that an import names, whose names are put behind the other texts.
fn definitions_of(
    text: &mut String,
    import: &Import,
) -> Result<(Definition, Definition), OutOfMemory>
    ensures grown { OnOk result (Grows (string_bytes text.old) (string_bytes text.new)) }
    ensures told { IfOk result (λ both. TellsBoth (string_bytes text.new) import.now both.0 both.1) }
{
    match import {
        Import::CoreDef(def) => Ok((made_definition(text, def, 0)?, nothing())),
        Import::Transcode {
            op: _,
            from,
            from64,
            to,
            to64,
        } => {
            let read = made_definition(text, from, width_of(*from64))?;
            let written = made_definition(text, to, width_of(*to64))?;
            Ok((read, written))
        }
        Import::PrepareCall { memory } => Ok((optional_definition(text, memory)?, nothing())),
        Import::StartCall {
            callback,
            post_return,
        } => {
            let called_back = optional_definition(text, callback)?;
            let returned = optional_definition(text, post_return)?;
            Ok((called_back, returned))
        }
        Import::ResourceTransferOwn
        | Import::ResourceTransferBorrow
        | Import::FutureTransfer
        | Import::StreamTransfer
        | Import::ErrorContextTransfer
        | Import::Trap(_)
        | Import::EnterSyncCall
        | Import::ExitSyncCall
        | Import::UnsafeIntrinsic(_) => Ok((nothing(), nothing())),
    }
}

/// The line of an import, behind the other texts.
fn add_line(alloc: Global, text: &mut String, import: &Import) -> Result<TextSpan, OutOfMemory>
    ensures grown { OnOk result (Grows (string_bytes text.old) (string_bytes text.new)) }
    ensures stands { IfOk result (λ at. HasTextAt (string_bytes text.new) at (import_line import.now)) }
{
    let mut line = import_text(alloc, import)?;
    line.push('\n')?;
    add_text(text, &line)
}

/// The record of an import, whose texts are put behind the others.
fn import_record(
    alloc: Global,
    text: &mut String,
    named: &WasmImport,
    import: &Import,
) -> Result<ImportRecord, OutOfMemory>
    ensures grown { OnOk result (Grows (string_bytes text.old) (string_bytes text.new)) }
    ensures names { IfOk result (λ r. Names (string_bytes text.new) r named.now) }
    ensures means { IfOk result (λ r. Means (string_bytes text.new) r import.now) }
{
    let origin = add_text(text, named.module.as_str())?;
    let name = add_text(text, named.name.as_str())?;
    let line = add_line(alloc, text, import)?;
    let (first, second) = definitions_of(text, import)?;
    Ok(ImportRecord {
        kind: kind_of(import),
        operation: operation_of(import),
        first,
        second,
        module: origin,
        name,
        line,
    })
}

/// The records of what a module imports: what it names in its import section, and what these are.
pub fn import_records(
    alloc: Global,
    section: &[WasmImport],
    imports: &[Import],
) -> Result<ImportRecords, OutOfMemory>
    requires { length section.now ≡ length imports.now }
    ensures names { IfOk result (λ all. AllZip (Names (string_bytes all.text)) all.records.items section.now) }
    ensures means { IfOk result (λ all. AllZip (Means (string_bytes all.text)) all.records.items imports.now) }
{
    let mut records = Vec::new(alloc);
    let mut text = String::new(alloc);
    for (place, import) in imports.iter().enumerate() {
        let told = import_record(alloc, &mut text, &section[place], import)?;
        records.push(told)?;
    }
    Ok(ImportRecords { records, text })
}
