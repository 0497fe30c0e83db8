//! Modules (core specification, "Structure", "Modules"), in the subset that adapters use.

use crate::instr::{FuncName, Instr};
use crate::seq::Seq;
use crate::text::Text;
use crate::types::{FuncType, ValType};

/// What an import is: a function by the index of its type, a memory, or a global. A memory's minimum counts its pages, of
/// 65,536 bytes or of 2 to the power of `page_size_log2`; it has no maximum and is not shared.
#[derive(Drop)]
pub enum ImportType {
    Func(u32),
    Memory {
        minimum: u64,
        memory64: bool,
        page_size_log2: Option<u32>,
    },
    Global {
        ty: ValType,
        mutable: bool,
    },
}

/// An import by its two names.
#[derive(Drop)]
pub struct WasmImport {
    pub module: Text,
    pub name: Text,
    pub ty: ImportType,
}

/// A function of the module: the index of its type, runs of so many locals of one type, and its code.
#[derive(Drop)]
pub struct WasmFunc {
    pub ty: u32,
    pub locals: Seq<(u32, ValType)>,
    pub body: Seq<Instr>,
}

/// A function under the name that it is exported by.
#[derive(Drop)]
pub struct WasmExport {
    pub name: Text,
    pub func: FuncName,
}

/// A module, in the order of its sections.
#[derive(Drop)]
pub struct WasmModule {
    pub types: Seq<FuncType>,
    pub imports: Seq<WasmImport>,
    pub funcs: Seq<WasmFunc>,
    pub exports: Seq<WasmExport>,
}
