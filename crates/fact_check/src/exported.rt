//! Which functions a module exports.

ghost use Rattle.std.specs.Prelude.{◌≡◌, [], ◌∷◌, ◌++◌, true, false, IfOk, List, replicate, unwrap_or, slice_get, slice_set};
ghost use Rattle.fact_wasm.specs.declared.module.WasmExport.{WasmExport};
ghost use Rattle.fact_check.specs.Sections.{IsExportedOf};

use crate::OutOfMemory;
use fact_wasm::{FuncName, Seq, WasmExport};
use std::alloc::Global;

/// Of each function that is imported, and of each that the module defines, whether it is exported.
#[derive(Drop)]
pub struct Exported {
    pub imports: Seq<bool>,
    pub defined: Seq<bool>,
}

/// Of so many functions, that none is.
fn none_of(alloc: Global, count: usize) -> Result<Seq<bool>, OutOfMemory>
    ensures { IfOk result (λ marks. marks ≡ replicate count false) }
{
    let marks = vec![in alloc; false; count]?;
    Ok(Seq::from_vec(marks))
}

/// Marks the function of a place, where it is there.
fn mark(marks: &mut Seq<bool>, n: u32)
    ensures { marks.new ≡ slice_set marks.old n true }
{
    let n = n as usize;
    if n < marks.len() {
        marks.set(n, true);
    }
}

/// Whether the function of a place is there and marked.
pub fn is_marked(marks: &Seq<bool>, n: u32) -> bool
    ensures { result ≡ unwrap_or (slice_get marks.now n) false }
{
    match marks.get(n as usize) {
        Some(mark) => *mark,
        None => false,
    }
}

impl Exported {
    /// Of so many functions that are imported and that are defined, without an export.
    fn new(alloc: Global, imports: usize, defined: usize) -> Result<Exported, OutOfMemory>
        ensures { IfOk result (λ e. IsExportedOf e imports defined []) }
    {
        let imports = none_of(alloc, imports)?;
        let defined = none_of(alloc, defined)?;
        Ok(Exported { imports, defined })
    }

    /// Takes up one export more.
    fn add(&mut self, export: &WasmExport)
        ensures { (imports defined : _) (before : List WasmExport) → IsExportedOf self.old imports defined before → IsExportedOf self.new imports defined (before ++ export.now ∷ []) }
    {
        match export.func {
            FuncName::Import(n) => mark(&mut self.imports, n),
            FuncName::Defined(n) => mark(&mut self.defined, n),
        }
    }

    /// Of so many functions that are imported and that are defined, by these exports.
    pub fn of(
        alloc: Global,
        imports: usize,
        defined: usize,
        exports: &[WasmExport],
    ) -> Result<Exported, OutOfMemory>
        ensures { IfOk result (λ e. IsExportedOf e imports defined exports.now) }
    {
        let mut exported = Exported::new(alloc, imports, defined)?;
        for export in exports {
            exported.add(export);
        }
        Ok(exported)
    }
}
