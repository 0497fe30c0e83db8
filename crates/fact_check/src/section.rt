//! The imports of a module by their kinds.

ghost use Rattle.std.specs.Prelude.{◌≡◌, [], ◌∷◌, ◌++◌, OnOk};
ghost use Rattle.fact_check.specs.Sections.{IsSectionOf};

use crate::OutOfMemory;
use fact_wasm::{ImportType, Seq, ValType, WasmImport};
use std::alloc::Global;

/// The functions by the indices of their types, whether the addresses of each memory have 64 bits, and the types of the
/// globals, with whether each may be set.
#[derive(Drop)]
pub struct Section {
    pub functions: Seq<u32>,
    pub memories: Seq<bool>,
    pub globals: Seq<(ValType, bool)>,
}

impl Section {
    /// Of no imports.
    pub fn new(alloc: Global) -> Section
        ensures { IsSectionOf result [] }
    {
        Section {
            functions: Seq::new(alloc),
            memories: Seq::new(alloc),
            globals: Seq::new(alloc),
        }
    }

    /// Puts an import behind the last one.
    pub fn add(&mut self, import: &WasmImport) -> Result<(), OutOfMemory>
        ensures { (before : _) → IsSectionOf self.old before → OnOk result (IsSectionOf self.new (before ++ import.now ∷ [])) }
    {
        match import.ty {
            ImportType::Func(ty) => self.functions.push(ty),
            ImportType::Memory { memory64, .. } => self.memories.push(memory64),
            ImportType::Global { ty, mutable } => self.globals.push((ty, mutable)),
        }
    }
}
