//! What adapter modules import.

ghost use Rattle.std.specs.Prelude.{◌≡◌, ◌↔◌, ◌<◌, ◌≤◌, ◌^◌, ◌⊎◌, [], ◌++◌, ℕ, List, false, true, codes, IsTrue, MatchOption};
ghost use Rattle.std.specs.List.{list_all};
ghost use Rattle.std.specs.Fmt.{decimal};
ghost use Rattle.fact_machine.specs.Typing.{is_number};
ghost use Rattle.fact_wasm.specs.declared.types.ValType.{ValType};
ghost use Rattle.fact_wasm.specs.declared.module.WasmImport.{WasmImport};
ghost use Rattle.fact_check.specs.Sections.{IsSectionOf};
ghost use Rattle.fact_check.specs.NameNumbers.{is_plain, memories_text};
ghost use Rattle.fact_check.specs.Imports.{AreNumbers, BeginsWith, IsFunctionRow, IsNamedFunction, IsNumbered, IsRow, IsTranscoderRow, fixed_signature, function, last_trap, operation_of, origin_of, prepare_types, realloc_type, start_types, transcoder_type, type_of_signature};

use crate::context::address_type;
use crate::section::Section;
use fact_wasm::{FuncType, ImportType, Seq, ValType, WasmImport};

/// What an imported function is, by the module that its import names.
#[derive(Clone, Copy)]
pub enum Origin {
    Realloc,
    Callback,
    Callee,
    PostReturn,
    Transcode,
    Sync,
    Async,
    Transfer,
    Resource,
    Context,
    Runtime,
}

/// The type of a function of the runtime that has one name.
#[derive(Clone, Copy)]
pub enum Signature {
    Enter,
    Exit,
    Transfer,
    Get,
    Set,
}

/// How text is read in one memory and written into another.
#[derive(Clone, Copy)]
pub enum Operation {
    /// All units as they are, or each as one.
    Exact,
    /// All units, of which those that are written are counted.
    Counted,
    /// A front of the text, as far as there is room.
    Fitting,
    /// A front of the text, as far as it can be Latin-1.
    Narrow,
    /// What was written becomes UTF-16, and more follows.
    Widening,
}

/// What a function is whose import names a module.
#[tactic(auto, unfolding(crate::specs::Imports::origin_of))]
fn origin_of(module: &str) -> Option<Origin>
    ensures { result ≡ origin_of «module».now }
{
    match module {
        "realloc" => Some(Origin::Realloc),
        "callback" => Some(Origin::Callback),
        "callee" => Some(Origin::Callee),
        "post_return" => Some(Origin::PostReturn),
        "transcode" => Some(Origin::Transcode),
        "sync" => Some(Origin::Sync),
        "async" => Some(Origin::Async),
        "future" | "stream" | "error-context" => Some(Origin::Transfer),
        "resource" => Some(Origin::Resource),
        "context" => Some(Origin::Context),
        "runtime" => Some(Origin::Runtime),
        _ => None,
    }
}

/// The type of a function of the runtime that has one name.
#[tactic(auto, unfolding(crate::specs::Imports::fixed_signature))]
fn fixed_signature(origin: Origin, name: &str) -> Option<Signature>
    ensures { result ≡ fixed_signature origin name.now }
{
    match origin {
        Origin::Async => match name {
            "enter-sync-call" => Some(Signature::Enter),
            "exit-sync-call" => Some(Signature::Exit),
            _ => None,
        },
        Origin::Transfer => match name {
            "transfer" => Some(Signature::Transfer),
            _ => None,
        },
        Origin::Resource => match name {
            "transfer-own" | "transfer-borrow" => Some(Signature::Transfer),
            _ => None,
        },
        Origin::Context => match name {
            "get0" | "get1" => Some(Signature::Get),
            "set0" | "set1" => Some(Signature::Set),
            _ => None,
        },
        _ => None,
    }
}

/// What a transcoder does, by what its name begins with.
#[tactic(auto, unfolding(crate::specs::Imports::operation_of))]
fn operation_of(description: &str) -> Option<Operation>
    ensures { result ≡ operation_of description.now }
{
    match description {
        "utf8-to-utf8" | "utf16-to-utf16" | "latin1-to-latin1" | "latin1-to-utf16" => {
            Some(Operation::Exact)
        }
        "utf8-to-utf16" | "utf16-to-compact-probably-utf16" => Some(Operation::Counted),
        "utf16-to-utf8" | "latin1-to-utf8" => Some(Operation::Fitting),
        "utf8-to-latin1" | "utf16-to-latin1" => Some(Operation::Narrow),
        "utf8-to-compact-utf16" | "utf16-to-compact-utf16" => Some(Operation::Widening),
        _ => None,
    }
}

/// Whether a type has these parameters and results.
fn has_types(ty: &FuncType, params: &[ValType], results: &[ValType]) -> bool
    ensures { IsTrue result ↔ (ty.now ≡ function params.now results.now) }
{
    ty.params.as_slice() == params && ty.results.as_slice() == results
}

/// Whether all of these are numbers.
fn are_numbers(types: &[ValType]) -> bool
    ensures { result ≡ list_all is_number types.now }
{
    types.iter().all(|ty| *ty != ValType::FuncRef)
}

/// Whether a function has the type of a signature.
fn has_signature(ty: &FuncType, signature: Signature) -> bool
    ensures { IsTrue result ↔ (ty.now ≡ type_of_signature signature) }
{
    match signature {
        Signature::Enter => has_types(ty, &[ValType::I32, ValType::I32], &[]),
        Signature::Exit => has_types(ty, &[], &[]),
        Signature::Transfer => has_types(
            ty,
            &[ValType::I32, ValType::I32, ValType::I32],
            &[ValType::I32],
        ),
        Signature::Get => has_types(ty, &[], &[ValType::I32]),
        Signature::Set => has_types(ty, &[ValType::I32], &[]),
    }
}

/// Whether a function has the type of a transcoder between memories of these widths.
fn transcodes(ty: &FuncType, operation: Operation, from64: bool, to64: bool) -> bool
    ensures { IsTrue result ↔ (ty.now ≡ transcoder_type operation from64 to64) }
{
    let from = address_type(from64);
    let to = address_type(to64);
    match operation {
        Operation::Exact => has_types(ty, &[from, from, to], &[]),
        Operation::Counted => has_types(ty, &[from, from, to], &[to]),
        Operation::Fitting => has_types(ty, &[from, from, to, to, ValType::I32], &[from, to]),
        Operation::Narrow => has_types(ty, &[from, from, to], &[from, to]),
        Operation::Widening => has_types(ty, &[from, from, to, to, to], &[to]),
    }
}

fn is_plain(text: &[u8]) -> bool
    ensures { result ≡ is_plain text.now }
{
    match text {
        [] => false,
        [first] => *first != b'+',
        [first, ..] => *first != b'0' && *first != b'+',
    }
}

/// The number of 32 bits that a text is, in decimal digits without a leading zero.
fn number(text: &str) -> Option<u32>
    ensures { MatchOption result ((n : ℕ) → n < 2 ^ 32 → text.now ≡ decimal n → ⊥) (λ n. (n < 2 ^ 32) × (text.now ≡ decimal n)) }
{
    if !is_plain(text.as_bytes()) {
        return None;
    }
    match text.parse::<u32>() {
        Ok(number) => Some(number),
        Err(_) => None,
    }
}

/// What stands behind a prefix.
fn behind<'a>(text: &'a str, prefix: &str) -> Option<&'a str>
    ensures { MatchOption result ((rest : List ℕ) → text.now ≡ prefix.entry.now ++ rest → ⊥) (λ rest. text.now ≡ prefix.entry.now ++ rest.now) }
{
    text.strip_prefix(prefix)
}

/// The number of 32 bits behind a prefix.
fn numbered(name: &str, prefix: &str) -> Option<u32>
    ensures { MatchOption result ((n : ℕ) → IsNumbered prefix.entry.now n name.now → ⊥) (λ n. IsNumbered prefix.entry.now n name.now) }
{
    match behind(name, prefix) {
        Some(text) => number(text),
        None => None,
    }
}

/// Whether a name is a prefix with this number of 32 bits behind it.
fn is_counted(name: &str, prefix: &str, count: usize) -> bool
    ensures { IsTrue result ↔ IsNumbered prefix.entry.now count name.now }
{
    match numbered(name, prefix) {
        Some(number) => number as usize == count,
        None => false,
    }
}

/// The numbers of the memories in a transcoder's name, `(mem{from} => mem{to})`, which stand behind what it does.
pub fn memories_of(text: &str) -> Option<(u32, u32)>
    ensures { MatchOption result ((from to : ℕ) → from < 2 ^ 32 → to < 2 ^ 32 → text.now ≡ memories_text from to → ⊥) (λ x. (x.0 < 2 ^ 32) × (x.1 < 2 ^ 32) × (text.now ≡ memories_text x.0 x.1)) }
{
    let Some(text) = behind(text, "(mem") else {
        return None;
    };
    let Some((from, text)) = text.split_once(' ') else {
        return None;
    };
    let Some(text) = behind(text, "=> mem") else {
        return None;
    };
    let Some(to) = text.strip_suffix(')') else {
        return None;
    };
    let Some(from) = number(from) else {
        return None;
    };
    let Some(to) = number(to) else {
        return None;
    };
    Some((from, to))
}

/// Whether a function has the name and the type of a transcoder between two of these memories.
fn is_transcoder(memories: &Seq<bool>, name: &str, ty: &FuncType) -> bool
    ensures { IsTrue result ↔ IsTranscoderRow memories.now name.now ty.now }
{
    let Some((description, rest)) = name.split_once(' ') else {
        return false;
    };
    let Some(operation) = operation_of(description) else {
        return false;
    };
    let Some((from, to)) = memories_of(rest) else {
        return false;
    };
    let Some(from64) = memories.get(from as usize) else {
        return false;
    };
    let Some(to64) = memories.get(to as usize) else {
        return false;
    };
    transcodes(ty, operation, *from64, *to64)
}

/// Whether two lists of types are the same.
fn same_types(a: &[ValType], b: &[ValType]) -> bool
    ensures { IsTrue result ↔ (a.now ≡ b.now) }
{
    a == b
}

fn is_realloc(ty: &FuncType) -> bool
    ensures { IsTrue result ↔ ((ty.now ≡ realloc_type false) ⊎ (ty.now ≡ realloc_type true)) }
{
    has_types(
        ty,
        &[ValType::I32, ValType::I32, ValType::I32, ValType::I32],
        &[ValType::I32],
    ) || has_types(
        ty,
        &[ValType::I64, ValType::I64, ValType::I64, ValType::I64],
        &[ValType::I64],
    )
}

/// Whether a name begins with a prefix.
fn begins_with(name: &str, prefix: &str) -> bool
    ensures { IsTrue result ↔ BeginsWith prefix.entry.now name.now }
{
    match behind(name, prefix) {
        Some(_) => true,
        None => false,
    }
}

/// Whether a function takes what each prepare-call takes and then numbers, and gives nothing.
fn prepares(ty: &FuncType) -> bool
    ensures { IsTrue result ↔ ((params : List ValType) × AreNumbers params × (ty.now ≡ function (prepare_types ++ params) [])) }
{
    let params = ty.params.as_slice();
    if params.len() < 8 || ty.results.len() != 0 {
        return false;
    }
    same_types(
        &params[..8],
        &[
            ValType::FuncRef,
            ValType::FuncRef,
            ValType::I32,
            ValType::I32,
            ValType::I32,
            ValType::I32,
            ValType::I32,
            ValType::I32,
        ],
    ) && are_numbers(&params[8..])
}

/// Whether a function takes what each start-call takes, and gives numbers.
fn starts(ty: &FuncType) -> bool
    ensures { IsTrue result ↔ ((ty.now.params ≡ start_types) × AreNumbers ty.now.results) }
{
    same_types(
        ty.params.as_slice(),
        &[ValType::FuncRef, ValType::I32, ValType::I32, ValType::I32],
    ) && are_numbers(ty.results.as_slice())
}

/// Whether a name is that of a trap.
fn is_trap(name: &str) -> bool
    ensures { IsTrue result ↔ ((trap : ℕ) × (trap ≤ last_trap) × IsNumbered (codes "trap") trap name.now) }
{
    match numbered(name, "trap") {
        Some(number) => number <= 12,
        None => false,
    }
}

/// Whether a function of an origin that has no fixed name is imported under a name behind so many functions and these memories.
fn is_named(
    functions: usize,
    memories: &Seq<bool>,
    name: &str,
    ty: &FuncType,
    origin: Origin,
) -> bool
    ensures { IsTrue result ↔ IsNamedFunction functions memories.now name.now ty.now origin }
{
    match origin {
        Origin::Realloc => is_counted(name, "f", functions) && is_realloc(ty),
        Origin::Callback => {
            is_counted(name, "f", functions)
                && has_types(
                    ty,
                    &[ValType::I32, ValType::I32, ValType::I32],
                    &[ValType::I32],
                )
        }
        Origin::Callee => are_numbers(ty.params.as_slice()) && are_numbers(ty.results.as_slice()),
        Origin::PostReturn => {
            are_numbers(ty.params.as_slice()) && same_types(ty.results.as_slice(), &[])
        }
        Origin::Transcode => is_transcoder(memories, name, ty),
        Origin::Sync => begins_with(name, "[prepare-call]") && prepares(ty),
        Origin::Async => begins_with(name, "[start-call]") && starts(ty),
        Origin::Runtime => is_trap(name) && has_types(ty, &[], &[]),
        _ => false,
    }
}

/// Whether a function is imported from a module under a name, behind so many functions and these memories.
fn is_function_row(
    functions: usize,
    memories: &Seq<bool>,
    module: &str,
    name: &str,
    ty: &FuncType,
) -> bool
    ensures { IsTrue result ↔ IsFunctionRow functions memories.now (origin_of «module».now) name.now ty.now }
{
    let Some(origin) = origin_of(module) else {
        return false;
    };
    match fixed_signature(origin, name) {
        Some(signature) => has_signature(ty, signature),
        None => is_named(functions, memories, name, ty, origin),
    }
}

/// Whether an import, behind these, has the module, the name and the type of a row.
pub fn is_row(types: &[FuncType], section: &Section, import: &WasmImport) -> bool
    ensures { (before : List WasmImport) → IsSectionOf section.now before → IsTrue result ↔ IsRow types.now before import.now.module import.now.name import.now.ty }
{
    let module = import.module.as_str();
    let name = import.name.as_str();
    match import.ty {
        ImportType::Func(ty) => match types.get(ty as usize) {
            Some(ty) => is_function_row(
                section.functions.len(),
                &section.memories,
                module,
                name,
                ty,
            ),
            None => false,
        },
        ImportType::Memory {
            minimum,
            page_size_log2,
            ..
        } => {
            module == "memory"
                && is_counted(name, "m", section.memories.len())
                && minimum == 0
                && matches!(page_size_log2, None | Some(0))
        }
        ImportType::Global { ty, mutable } => {
            module == "flags"
                && numbered(name, "instance").is_some()
                && ty == ValType::I32
                && mutable
        }
    }
}
