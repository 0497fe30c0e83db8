//! Whether a module is in range: what it names is there, and its numbers have a place in the binary format.

ghost use Rattle.std.specs.Prelude.{◌≡◌, ◌↔◌, ℕ, ◌<◌, IsTrue, count_by};
ghost use Rattle.std.specs.List.{AllByRecursion};
ghost use Rattle.fact_wasm.specs.Ranges.{HasFunction, IsPoint, AreRanged, AreBodiesRanged, AreExportsNamed, InRange, is_function, points};

use crate::instr::{FuncName, Instr};
use crate::module::{ImportType, WasmExport, WasmFunc, WasmImport, WasmModule};

/// Whether the function is there, where so many are imported and so many defined.
fn names_function(imports: usize, funcs: usize, func: FuncName) -> bool
    ensures { IsTrue result ↔ HasFunction imports funcs func }
{
    match func {
        FuncName::Import(n) => (n as usize) < imports,
        FuncName::Defined(n) => (n as usize) < funcs,
    }
}

#[cycle(ranged)]
fn is_ranged(imports: usize, funcs: usize, instr: &Instr) -> bool
    ensures { IsTrue result ↔ AllByRecursion (IsPoint imports funcs) (points instr.now) }
{
    match instr {
        Instr::Block(_, body) => are_ranged(imports, funcs, body.as_slice()),
        Instr::Loop(_, body) => are_ranged(imports, funcs, body.as_slice()),
        Instr::TryTable(_, _, body) => are_ranged(imports, funcs, body.as_slice()),
        Instr::If(_, body, other) => match other {
            None => are_ranged(imports, funcs, body.as_slice()),
            Some(other) => {
                if other.len() == 0 {
                    return false;
                }
                if !are_ranged(imports, funcs, body.as_slice()) {
                    return false;
                }
                are_ranged(imports, funcs, other.as_slice())
            }
        },
        Instr::Call(func) | Instr::RefFunc(func) => names_function(imports, funcs, *func),
        Instr::I32Load(place)
        | Instr::I64Load(place)
        | Instr::F32Load(place)
        | Instr::F64Load(place)
        | Instr::I32Load8S(place)
        | Instr::I32Load8U(place)
        | Instr::I32Load16S(place)
        | Instr::I32Load16U(place)
        | Instr::I32Store(place)
        | Instr::I64Store(place)
        | Instr::F32Store(place)
        | Instr::F64Store(place)
        | Instr::I32Store8(place)
        | Instr::I32Store16(place) => place.align < 64,
        _ => true,
    }
}

#[cycle(ranged)]
fn are_ranged(imports: usize, funcs: usize, body: &[Instr]) -> bool
    ensures { IsTrue result ↔ AreRanged imports funcs body.now }
{
    for instr in body {
        if !is_ranged(imports, funcs, instr) {
            return false;
        }
    }
    true
}

fn are_bodies_ranged(imports: usize, funcs: usize, bodies: &[WasmFunc]) -> bool
    ensures { IsTrue result ↔ AreBodiesRanged imports funcs bodies.now }
{
    for func in bodies {
        if !are_ranged(imports, funcs, func.body.as_slice()) {
            return false;
        }
    }
    true
}

fn are_exports_named(imports: usize, funcs: usize, exports: &[WasmExport]) -> bool
    ensures { IsTrue result ↔ AreExportsNamed imports funcs exports.now }
{
    for export in exports {
        if !names_function(imports, funcs, export.func) {
            return false;
        }
    }
    true
}

/// How many of the imports are functions.
pub fn count_functions(imports: &[WasmImport]) -> usize
    ensures { result ≡ count_by is_function imports.now }
{
    imports
        .iter()
        .filter(|import| matches!(import.ty, ImportType::Func(_)))
        .count()
}

impl WasmModule {
    /// Whether each function name names a function that is there, the number of functions, imported and defined, is a u32,
    /// the `align` of each `MemArg` is below 64, and no else body that is there is empty. It takes no memory.
    pub fn in_range(&self) -> bool
        ensures { IsTrue result ↔ InRange self.now }
    {
        let imports = count_functions(self.imports.as_slice());
        let funcs = self.funcs.len();
        if imports > u32::MAX as usize || funcs > u32::MAX as usize - imports {
            return false;
        }
        are_bodies_ranged(imports, funcs, self.funcs.as_slice())
            && are_exports_named(imports, funcs, self.exports.as_slice())
    }
}
