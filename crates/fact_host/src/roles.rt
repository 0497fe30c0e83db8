//! What the imported functions of an adapter module are to a host, by the places that a call names and by their names.

ghost use Rattle.std.specs.Prelude.{◌≡◌, ℕ, Bool, Some, None, IfOk, MatchOption};
ghost use Rattle.fact_types.specs.declared.outside.Transcode.{Transcode as an_operation};
ghost use Rattle.fact_types.specs.TranscoderNames.{transcode_name};
ghost use Rattle.fact_machine.specs.Machine.{memory_import};
ghost use Rattle.fact_host.specs.Roles.{HaveRoles, IsNamedRole, IsRole, IsTranscoder, has_names, function_imports, is_place, is_slot, is_told, is_transfer, role_by_place};
ghost use Rattle.std.specs.declared.option.Option.{Option as an_option};

use crate::calling::HostCall;
use fact_check::memories_of;
use fact_types::{FixedEncoding, Transcode};
use fact_wasm::{ImportType, OutOfMemory, Seq, WasmImport, WasmModule};
use std::alloc::Global;

/// What an imported function is to a host.
#[derive(Clone, Copy)]
pub enum Role {
    /// The function that the adapter calls.
    Callee,
    /// The realloc of the side that is called, and of the side that calls.
    LiftRealloc,
    LowerRealloc,
    PostReturn,
    /// A transcoder between two memories, with whether the addresses of each have 64 bits.
    Transcoder {
        op: Transcode,
        from: u32,
        from64: bool,
        to: u32,
        to64: bool,
    },
    /// It moves a handle.
    Transfer,
    /// It reads a slot of the context.
    Slot,
    /// It tells the runtime of a call, or writes a slot of the context.
    Told,
    /// All else.
    Refused,
}

/// The roles of the imported functions, in order.
pub fn roles_of(
    alloc: Global,
    module: &WasmModule,
    call: &HostCall,
) -> Result<Seq<Role>, OutOfMemory>
    ensures { IfOk result (λ roles. HaveRoles «module».now call.now 0 (function_imports «module».now) roles) }
{
    let mut roles = Seq::new(alloc);
    for import in module.imports.as_slice() {
        if let ImportType::Func(_) = import.ty {
            let role = role_of(module, call, roles.len(), import);
            roles.push(role)?;
        }
    }
    Ok(roles)
}

/// The role of the nth imported function.
fn role_of(module: &WasmModule, call: &HostCall, number: usize, import: &WasmImport) -> Role
    ensures { IsRole «module».now call.now number import.now result }
{
    match role_by_place(call, number) {
        Some(role) => role,
        None => role_by_name(module, import),
    }
}

/// Whether a place is there, and is this one.
pub fn is_place(place: Option<u32>, number: usize) -> bool
    ensures { result ≡ is_place place number }
{
    match place {
        Some(place) => place as usize == number,
        None => false,
    }
}

/// The role of the nth imported function by the places that a call names.
fn role_by_place(call: &HostCall, number: usize) -> Option<Role>
    ensures { result ≡ role_by_place call.now number }
{
    if call.callee as usize == number {
        Some(Role::Callee)
    } else if is_place(call.lift.realloc, number) {
        Some(Role::LiftRealloc)
    } else if is_place(call.lower.realloc, number) {
        Some(Role::LowerRealloc)
    } else if is_place(call.post_return, number) {
        Some(Role::PostReturn)
    } else {
        None
    }
}

/// Whether an import has these names.
fn has_names(import: &WasmImport, origin: &str, name: &str) -> bool
    ensures { result ≡ has_names origin.now name.now import.now }
{
    import.module.as_str() == origin && import.name.as_str() == name
}

/// Whether an import moves a handle.
fn is_transfer(import: &WasmImport) -> bool
    ensures { result ≡ is_transfer import.now }
{
    has_names(import, "resource", "transfer-own")
        || has_names(import, "resource", "transfer-borrow")
        || has_names(import, "future", "transfer")
        || has_names(import, "stream", "transfer")
        || has_names(import, "error-context", "transfer")
}

/// Whether an import reads a slot of the context.
fn is_slot(import: &WasmImport) -> bool
    ensures { result ≡ is_slot import.now }
{
    has_names(import, "context", "get0") || has_names(import, "context", "get1")
}

/// Whether an import writes a slot of the context, or tells the runtime of a call.
fn is_told(import: &WasmImport) -> bool
    ensures { result ≡ is_told import.now }
{
    has_names(import, "context", "set0")
        || has_names(import, "context", "set1")
        || has_names(import, "async", "enter-sync-call")
        || has_names(import, "async", "exit-sync-call")
}

/// The role of an imported function that is at no place that a call names.
fn role_by_name(module: &WasmModule, import: &WasmImport) -> Role
    ensures { IsNamedRole «module».now import.now result }
{
    if is_transfer(import) {
        Role::Transfer
    } else if is_slot(import) {
        Role::Slot
    } else if is_told(import) {
        Role::Told
    } else {
        match transcoder_of(module, import) {
            Some(role) => role,
            None => Role::Refused,
        }
    }
}

/// The transcoder that an import is: its name is `{op} (mem{from} => mem{to})`.
fn transcoder_of(module: &WasmModule, import: &WasmImport) -> Option<Role>
    ensures { MatchOption result ((o : an_operation) (from : ℕ) (from64 : Bool) (to : ℕ) (to64 : Bool) → IsTranscoder «module».now import.now o from from64 to to64 → ⊥) (λ role. IsNamedRole «module».now import.now role) }
{
    if import.module.as_str() != "transcode" {
        return None;
    }
    let Some((description, rest)) = import.name.as_str().split_once(' ') else {
        return None;
    };
    let Some(op) = operation_of(description) else {
        return None;
    };
    let Some((from, to)) = memories_of(rest) else {
        return None;
    };
    let Some(from64) = is_wide(module, from) else {
        return None;
    };
    let Some(to64) = is_wide(module, to) else {
        return None;
    };
    Some(Role::Transcoder {
        op,
        from,
        from64,
        to,
        to64,
    })
}

/// The operation of a name.
fn operation_of(name: &str) -> Option<Transcode>
    ensures { MatchOption result ((o : an_operation) → name.now ≡ transcode_name o → ⊥) (λ o. name.now ≡ transcode_name o) }
{
    match name {
        "utf8-to-utf8" => Some(Transcode::Copy(FixedEncoding::Utf8)),
        "utf16-to-utf16" => Some(Transcode::Copy(FixedEncoding::Utf16)),
        "latin1-to-latin1" => Some(Transcode::Copy(FixedEncoding::Latin1)),
        "latin1-to-utf16" => Some(Transcode::Latin1ToUtf16),
        "latin1-to-utf8" => Some(Transcode::Latin1ToUtf8),
        "utf16-to-compact-probably-utf16" => Some(Transcode::Utf16ToCompactProbablyUtf16),
        "utf16-to-compact-utf16" => Some(Transcode::Utf16ToCompactUtf16),
        "utf16-to-latin1" => Some(Transcode::Utf16ToLatin1),
        "utf16-to-utf8" => Some(Transcode::Utf16ToUtf8),
        "utf8-to-compact-utf16" => Some(Transcode::Utf8ToCompactUtf16),
        "utf8-to-latin1" => Some(Transcode::Utf8ToLatin1),
        "utf8-to-utf16" => Some(Transcode::Utf8ToUtf16),
        _ => None,
    }
}

/// Whether the addresses of the nth imported memory have 64 bits, where it is there.
fn is_wide(module: &WasmModule, number: u32) -> Option<bool>
    ensures { MatchOption result (memory_import «module».now.imports number ≡ None) (λ wide. (pages : an_option ℕ) × (memory_import «module».now.imports number ≡ Some (wide, pages))) }
{
    let mut before = number;
    for import in module.imports.as_slice() {
        if let ImportType::Memory { memory64, .. } = import.ty {
            if before == 0 {
                return Some(memory64);
            }
            before -= 1;
        }
    }
    None
}
