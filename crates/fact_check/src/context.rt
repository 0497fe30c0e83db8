//! What code of a function stands in (core specification, "Validation", "Contexts").

ghost use Rattle.std.specs.Prelude.{◌≡◌, ◌&&◌, ◌^◌, true, [], ◌∷◌, nat_le, nat_lt, is_some, slice_get, option_map};
ghost use Rattle.std.specs.Option.{option_copied};
ghost use Rattle.fact_machine.specs.Typing.{address_at, address_bits, address_type, function_type, global_import, is_exported, types_of_block};
ghost use Rattle.fact_machine.specs.Machine.{memory_import};
ghost use Rattle.fact_check.specs.Sections.{IsCodeContext, context_of, labels_of};

use crate::exported::{Exported, is_marked};
use crate::section::Section;
use fact_wasm::{BlockType, FuncName, FuncType, MemArg, Seq, ValType, WasmModule};

/// The module around code, its imports by their kinds and which functions it exports; the parameters and the declared locals of
/// the function, and how many locals there are up to the end of each run.
#[derive(Drop)]
pub struct CodeContext<'m> {
    pub module: &'m WasmModule,
    pub section: &'m Section,
    pub exported: &'m Exported,
    pub params: &'m [ValType],
    pub locals: &'m [(u32, ValType)],
    pub ends: Seq<u64>,
}

/// The type of addresses of so many bits.
pub fn address_type(memory64: bool) -> ValType
    ensures { result ≡ address_type memory64 }
{
    if memory64 { ValType::I64 } else { ValType::I32 }
}

/// The types that a branch to a label takes, counted from the innermost, which is the last.
pub fn label<'m>(labels: &[&'m [ValType]], n: u32) -> Option<&'m [ValType]>
    ensures { option_copied result ≡ slice_get (labels_of labels.now) n }
{
    let n = n as usize;
    if n < labels.len() {
        Some(labels[labels.len() - 1 - n])
    } else {
        None
    }
}

/// A list of one type.
fn one_type(ty: ValType) -> &'static [ValType]
    ensures { result.now ≡ ty ∷ [] }
{
    match ty {
        ValType::I32 => &[ValType::I32],
        ValType::I64 => &[ValType::I64],
        ValType::F32 => &[ValType::F32],
        ValType::F64 => &[ValType::F64],
        ValType::FuncRef => &[ValType::FuncRef],
    }
}

/// What a block takes and gives.
#[derive(Clone, Copy)]
pub struct BlockTypes<'m> {
    pub params: &'m [ValType],
    pub results: &'m [ValType],
}

/// What a block of a type takes and gives, where the type is there.
pub fn types_of_block<'m>(types: &'m [FuncType], ty: BlockType) -> Option<BlockTypes<'m>>
    ensures { option_map (λ b. (b.params.now, b.results.now)) result ≡ types_of_block types.now ty }
{
    match ty {
        BlockType::Empty => Some(BlockTypes {
            params: &[],
            results: &[],
        }),
        BlockType::Result(ty) => Some(BlockTypes {
            params: &[],
            results: one_type(ty),
        }),
        BlockType::FunctionType(n) => match types.get(n as usize) {
            Some(ty) => Some(BlockTypes {
                params: ty.params.as_slice(),
                results: ty.results.as_slice(),
            }),
            None => None,
        },
    }
}

/// Whether a place of a memory is aligned to no more than its bytes, whose exponent is `natural`, and its offset is one that the
/// memory's addresses could say.
fn is_placed(memory64: bool, natural: u32, place: MemArg) -> bool
    ensures { result ≡ (nat_le place.align natural && nat_lt place.offset (2 ^ address_bits memory64)) }
{
    if memory64 {
        place.align <= natural
    } else {
        place.align <= natural && place.offset < 4_294_967_296
    }
}

/// The type of a function, where it is there.
pub fn function_type<'m>(context: &CodeContext<'m>, func: FuncName) -> Option<&'m FuncType>
    requires { IsCodeContext context.now }
    ensures { option_copied result ≡ function_type context.now.module.now func }
{
    match func {
        FuncName::Import(n) => match context.section.functions.get(n as usize) {
            Some(ty) => context.module.types.get(*ty as usize),
            None => None,
        },
        FuncName::Defined(n) => match context.module.funcs.get(n as usize) {
            Some(func) => context.module.types.get(func.ty as usize),
            None => None,
        },
    }
}

/// Whether a function that is there is exported.
pub fn is_exported(context: &CodeContext, func: FuncName) -> bool
    requires context { IsCodeContext context.now }
    requires there { is_some (function_type context.now.module.now func) ≡ true }
    ensures { result ≡ is_exported func context.now.module.now.exports }
{
    match func {
        FuncName::Import(n) => is_marked(&context.exported.imports, n),
        FuncName::Defined(n) => is_marked(&context.exported.defined, n),
    }
}

/// Whether the addresses of a memory have 64 bits, where it is there.
pub fn memory64(context: &CodeContext, n: u32) -> Option<bool>
    requires { IsCodeContext context.now }
    ensures { result ≡ option_map (λ k. k.0) (memory_import context.now.module.now.imports n) }
{
    context.section.memories.get(n as usize).copied()
}

/// The type of a global, with whether it may be set, where it is there.
pub fn global(context: &CodeContext, n: u32) -> Option<(ValType, bool)>
    requires { IsCodeContext context.now }
    ensures { result ≡ global_import context.now.module.now.imports n }
{
    context.section.globals.get(n as usize).copied()
}

/// The type of a place's address, where its memory is there, it is aligned to no more than its bytes, whose exponent is
/// `natural`, and the memory's addresses could say its offset.
pub fn address_at(context: &CodeContext, natural: u32, place: MemArg) -> Option<ValType>
    requires { IsCodeContext context.now }
    ensures { (labels : _) → result ≡ address_at (context_of context.now labels) natural place }
{
    match memory64(context, place.memory_index) {
        Some(memory64) => {
            if is_placed(memory64, natural, place) {
                Some(address_type(memory64))
            } else {
                None
            }
        }
        None => None,
    }
}
