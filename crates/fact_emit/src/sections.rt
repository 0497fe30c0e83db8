//! The sections of a module that is being made: [`ModuleSections`], with what its imports are found by.

ghost use Rattle.std.specs.Prelude.{◌≡◌, ◌⊎◌, ◌+◌, ◌++◌, ◌∷◌, [], ◌<◌, ◌≤◌, ◌^◌, max, Contains, IsTrue, None, Some, position, slice_get, length, IfOk, IfSome, IsFalse, OnErr, OnOk, count_by};
ghost use Rattle.fact_wasm.specs.CoreTypes.{signature};
ghost use Rattle.fact_types.specs.declared.import.Import.TheVariants as known;
ghost use Rattle.fact_wasm.specs.declared.instr.FuncName.TheVariants as func_named;
ghost use Rattle.fact_wasm.specs.declared.types.FuncType.{FuncType};
ghost use Rattle.fact_emit.specs.ImportSection.{a_function, a_memory, imported_type, is_of};
ghost use Rattle.fact_emit.specs.Imports.{AreOnce, Extended, HasImport};
ghost use Rattle.fact_emit.specs.State.{IsAdded, IsKept};
ghost use Rattle.fact_emit.specs.States.{HasType, IsHelperAsked, IsImported, IsTypeThere, MayImport, export_as, functions_of, import_as, known_as, memories_of, module_of, next_number as number_behind, nothing_so_far, type_of_item, type_of_transcoder, with_numbered};
ghost use Rattle.fact_emit.specs.TaskCalls.{IsItemImported};

use crate::helpers::Helper;
use crate::imported::ImportedItem;
use crate::transcoders::Transcoder;
use fact_entity::{EntityRef, FuncIndex, GlobalIndex, Interner, MemoryIndex};
use fact_types::{CoreDef, Import};
use fact_wasm::{
    CoreTypes, FuncName, ImportType, OutOfMemory, Seq, Text, ValType, WasmExport, WasmFunc,
    WasmImport, WasmModule,
};
use indexmap::IndexMap;
use std::alloc::{AllocError, Global};
use std::marker::Model;
use std::mem;

/// The most functions that a module has, imported and defined.
const MOST_FUNCTIONS: usize = 4_294_967_295;

/// The sections of a module that is being made, and what its imports are. Each type stands in them once, and so does each
/// definition and each function of the runtime among the imports of its kind. A refusal leaves the imports as they were.
/// Clauses speak of it as a `ModuleSoFar`.
#[derive(Drop)]
pub struct ModuleSections {
    alloc: Global,
    types: CoreTypes,
    // The imports of each kind, in order.
    globals: Interner<GlobalIndex, ImportedItem>,
    memories: Interner<MemoryIndex, ImportedItem>,
    functions: Interner<FuncIndex, ImportedItem>,
    // The other sections: a module without types.
    module: WasmModule,
    // What the imports of the module are.
    imports: Seq<Import>,
    // The exports of imported functions, which stand behind those of the functions that the module defines.
    callees: Seq<WasmExport>,
    // The helpers that code asked for, in that order, with the numbers of their functions.
    helpers: IndexMap<Helper, u32>,
    // The functions below this number are numbered, be there code of them or not yet.
    numbered: usize,
}

impl Model for ModuleSections {
    ghost use Rattle.fact_emit.specs.State.{IsIndexed};
    ghost use Rattle.fact_emit.specs.States.{ModuleSoFar};
    ghost use Rattle.fact_wasm.specs.contracts.instr.Instr as instr;
    ghost use Rattle.std.specs.Coded.{codes as coded_as};

    ghost Value = { ModuleSoFar };

    ghost coded = { Prim.hlevel (coded_as, instr.the_row.coded) };

    ghost view = { λ s. record { types = s.types; section = s.module.imports; imports = s.imports; functions = s.module.funcs; exports = s.module.exports; callees = s.callees; helpers = s.helpers.entries; numbered = s.numbered } };

    ghost invariant = { λ s. IsIndexed (record { types = s.types; section = s.module.imports; imports = s.imports; functions = s.module.funcs; exports = s.module.exports; callees = s.callees; helpers = s.helpers.entries; numbered = s.numbered }) s.globals s.memories s.functions };
}

/// An import by its two names.
fn import_named(
    alloc: Global,
    origin: &str,
    name: &str,
    ty: ImportType,
) -> Result<WasmImport, OutOfMemory>
    ensures { IfOk result (λ i. i ≡ import_as origin.now name.now ty) }
{
    let origin = Text::from_str(alloc, origin)?;
    let name = Text::from_str(alloc, name)?;
    Ok(WasmImport {
        module: origin,
        name,
        ty,
    })
}

/// Puts copies of exports behind others.
fn add_exports(exports: &mut Seq<WasmExport>, more: &[WasmExport]) -> Result<(), OutOfMemory>
    ensures { OnOk result (exports.new ≡ exports.old ++ more.now) }
{
    for export in more {
        let name = export.name.try_clone()?;
        exports.push(WasmExport {
            name,
            func: export.func,
        })?;
    }
    Ok(())
}

/// Puts an import, and what it is, behind the others.
fn push_import(
    section: &mut Seq<WasmImport>,
    imports: &mut Seq<Import>,
    import: WasmImport,
    known: Import,
) -> Result<(), OutOfMemory>
    ensures pushed { OnOk result ((section.new ≡ section.old ++ import ∷ []) × (imports.new ≡ imports.old ++ known ∷ [])) }
    ensures refused { OnErr result ((section.new ≡ section.old) × (imports.new ≡ imports.old)) }
{
    if let Err(error) = section.push(import) {
        drop(known);
        return Err(error);
    }
    if let Err(error) = imports.push(known) {
        drop(section.pop());
        return Err(error);
    }
    Ok(())
}

/// Puts an item that is not among these, and its import, behind the others, and answers its place.
fn add_import<K: EntityRef>(
    section: &mut Seq<WasmImport>,
    imports: &mut Seq<Import>,
    items: &mut Interner<K, ImportedItem>,
    item: ImportedItem,
    import: WasmImport,
) -> Result<u32, OutOfMemory>
    requires { position (⟦<ImportedItem as PartialEq>⟧.eq item) items.old ≡ None }
    ensures place { IfOk result (λ n. slice_get items.new n ≡ Some item) }
    ensures added { OnOk result (IsAdded section.old section.new imports.old imports.new items.old items.new item import) }
    ensures refused { OnErr result (IsKept section.old section.new imports.old imports.new items.old items.new) }
{
    let Ok(known) = item.import() else {
        drop(import);
        drop(item);
        return Err(AllocError);
    };
    if let Err(error) = push_import(section, imports, import, known) {
        drop(item);
        return Err(error);
    }
    match items.add_new(item) {
        Ok(place) => Ok(place.as_u32()),
        Err(_) => {
            drop(imports.pop());
            drop(section.pop());
            Err(AllocError)
        }
    }
}

/// The place of an item among these. A new one is put behind the others, and so is its import, where there is room.
fn find_or_add<K: EntityRef>(
    section: &mut Seq<WasmImport>,
    imports: &mut Seq<Import>,
    items: &mut Interner<K, ImportedItem>,
    item: ImportedItem,
    import: WasmImport,
    has_room: bool,
) -> Result<u32, OutOfMemory>
    ensures place { IfOk result (λ n. slice_get items.new n ≡ Some item) }
    ensures step { IsKept section.old section.new imports.old imports.new items.old items.new ⊎ (IsTrue has_room × IsAdded section.old section.new imports.old imports.new items.old items.new item import) }
    ensures refused { OnErr result (IsKept section.old section.new imports.old imports.new items.old items.new) }
{
    if let Some(place) = items.find(&item) {
        drop(item);
        drop(import);
        return Ok(place.as_u32());
    }
    if !has_room {
        drop(item);
        drop(import);
        return Err(AllocError);
    }
    let place = add_import(section, imports, items, item, import)?;
    Ok(place)
}

impl ModuleSections {
    /// Nothing is there yet. It takes no memory.
    pub fn new(alloc: Global) -> ModuleSections
        ensures nothing { result ≡ nothing_so_far }
        ensures once { AreOnce result }
    {
        ModuleSections {
            alloc,
            types: CoreTypes::new(alloc),
            globals: Interner::new(alloc),
            memories: Interner::new(alloc),
            functions: Interner::new(alloc),
            module: WasmModule {
                types: Seq::new(alloc),
                imports: Seq::new(alloc),
                funcs: Seq::new(alloc),
                exports: Seq::new(alloc),
            },
            imports: Seq::new(alloc),
            callees: Seq::new(alloc),
            helpers: IndexMap::new(alloc),
            numbered: 0,
        }
    }

    /// What allocates.
    pub fn alloc(&self) -> Global {
        self.alloc
    }

    /// The number of imported memories.
    pub fn memory_count(&self) -> usize
        ensures { result ≡ count_by (is_of a_memory) self.now.section }
    {
        self.memories.len()
    }

    /// The number of imported functions.
    pub fn function_count(&self) -> usize
        ensures { result ≡ count_by (is_of a_function) self.now.section }
    {
        self.functions.len()
    }

    /// The place behind all imported functions.
    pub(crate) fn next_function(&self) -> u32
        ensures { result ≡ length (functions_of self.now) }
    {
        self.functions.len() as u32
    }

    /// The definition of the imported memory of this place.
    pub(crate) fn memory_def(&self, place: MemoryIndex) -> &CoreDef
        requires { place.number < length (memories_of self.now) }
        ensures { slice_get (memories_of self.now) place.number ≡ Some (known.CoreDef result.now) }
    {
        match self.memories.get(place) {
            Some(ImportedItem::Def(def)) => def,
            Some(ImportedItem::Runtime(_)) => unreachable!(),
            Some(ImportedItem::Transcoder(_)) => unreachable!(),
            Some(ImportedItem::StartCall(_)) => unreachable!(),
            Some(ImportedItem::PrepareCall(_)) => unreachable!(),
            None => unreachable!(),
        }
    }

    /// The definition of the imported function of this place, where it is a core function.
    pub(crate) fn function_def(&self, place: FuncIndex) -> Option<&CoreDef>
        ensures { IfSome result (λ def. slice_get (functions_of self.now) place.number ≡ Some (known.CoreDef def.now)) }
    {
        match self.functions.get(place) {
            Some(ImportedItem::Def(def)) => Some(def),
            _ => None,
        }
    }

    /// Whether a memory of this place is imported.
    pub fn has_memory(&self, place: u32) -> bool
        ensures { IsTrue result → place < length (memories_of self.now) }
    {
        (place as usize) < self.memories.len()
    }

    /// The core function types so far.
    pub fn core_types(&self) -> &CoreTypes
        ensures { result.now ≡ self.now.types }
    {
        &self.types
    }

    /// The imports so far, as they stand in the module.
    pub fn import_section(&self) -> &Seq<WasmImport>
        ensures { result.now ≡ self.now.section }
    {
        &self.module.imports
    }

    /// What the imports so far are, in the same order.
    pub fn imports(&self) -> &[Import]
        ensures { result.now ≡ self.now.imports }
    {
        self.imports.as_slice()
    }

    /// The defined functions so far.
    pub fn functions(&self) -> &Seq<WasmFunc>
        ensures { result.now ≡ self.now.functions }
    {
        &self.module.funcs
    }

    /// The number of a core type, which comes last where it is new.
    pub fn function(&mut self, params: &[ValType], results: &[ValType]) -> Result<u32, OutOfMemory>
        ensures place { IfOk result (λ n. slice_get self.new.types n ≡ Some (signature params.now results.now)) }
        ensures types { OnOk result (HasType self.old self.new (signature params.now results.now)) }
        ensures keeps { Extended self.old self.new }
        ensures once { AreOnce self.old → AreOnce self.new }
        ensures refused { OnErr result (self.new ≡ self.old) }
    {
        self.types.function(params, results)
    }

    /// The number of a transcoder's type, which comes last where it is new.
    pub(crate) fn transcoder_type(&mut self, transcoder: &Transcoder) -> Result<u32, OutOfMemory>
        ensures place { IfOk result (λ n. slice_get self.new.types n ≡ Some (type_of_transcoder transcoder.now)) }
        ensures types { OnOk result (HasType self.old self.new (type_of_transcoder transcoder.now)) }
        ensures keeps { Extended self.old self.new }
        ensures once { AreOnce self.old → AreOnce self.new }
        ensures refused { OnErr result (self.new ≡ self.old) }
    {
        transcoder.type_number(&mut self.types)
    }

    /// The place of a core definition among the imports of its kind. A new one is imported last, under these names, with this
    /// type, whose index, if it has one, is that of a type that is there.
    pub fn core_def(
        &mut self,
        def: &CoreDef,
        module: &str,
        name: &str,
        ty: ImportType,
    ) -> Result<u32, OutOfMemory>
        requires { IsTypeThere self.old ty }
        ensures imported { IfOk result (λ place. IsImported self.old self.new (import_as «module».now name.now ty) (known.CoreDef def.now) place) }
        ensures keeps { Extended self.old self.new }
        ensures once { AreOnce self.old → AreOnce self.new }
        ensures refused { OnErr result (self.new ≡ self.old) }
    {
        let Ok(def) = def.try_clone() else {
            drop(ty);
            return Err(AllocError);
        };
        let place = self.import(ImportedItem::Def(def), module, name, ty)?;
        Ok(place)
    }

    /// Puts a function behind the others that the module defines, and answers its number among them, also where it was numbered
    /// ahead. More functions than have numbers are a want of memory.
    pub fn define(&mut self, func: WasmFunc) -> Result<u32, OutOfMemory>
        ensures number { IfOk result (λ n. n ≡ length self.old.functions) }
        ensures defined { OnOk result (self.new ≡ record self.old { functions = self.old.functions ++ func ∷ [] }) }
        ensures refused { OnErr result (self.new ≡ self.old) }
    {
        if !self.may_define() {
            drop(func);
            return Err(AllocError);
        }
        let number = self.module.funcs.len();
        self.module.funcs.push(func)?;
        Ok(number as u32)
    }

    /// Exports a function under a name, behind the other exports.
    pub fn export(&mut self, name: &str, func: FuncName) -> Result<(), OutOfMemory>
        ensures exported { OnOk result (self.new ≡ record self.old { exports = self.old.exports ++ export_as name.now func ∷ [] }) }
        ensures refused { OnErr result (self.new ≡ self.old) }
    {
        let name = Text::from_str(self.alloc, name)?;
        self.module.exports.push(WasmExport { name, func })?;
        Ok(())
    }

    /// Exports an imported function under a name. Such exports stand behind those of the functions that the module defines.
    pub fn export_callee(&mut self, name: &str, func: FuncIndex) -> Result<(), OutOfMemory>
        ensures exported { OnOk result (self.new ≡ record self.old { callees = self.old.callees ++ export_as name.now (func_named.Import func.number) ∷ [] }) }
        ensures refused { OnErr result (self.new ≡ self.old) }
    {
        let name = Text::from_str(self.alloc, name)?;
        let func = FuncName::Import(func.number);
        self.callees.push(WasmExport { name, func })?;
        Ok(())
    }

    /// A copy of the module so far.
    pub fn copy(&self) -> Result<WasmModule, OutOfMemory>
        ensures copy { IfOk result (λ m. m ≡ module_of self.now) }
        ensures numbered { length (functions_of self.now) + length self.now.functions < 2 ^ 32 }
    {
        let mut module = self.module.try_clone()?;
        if let Err(error) = self.complete(&mut module) {
            drop(module);
            return Err(error);
        }
        Ok(module)
    }

    /// Puts a copy of the types into a module, and copies of the exports of imported functions behind its exports.
    fn complete(&self, module: &mut WasmModule) -> Result<(), OutOfMemory>
        ensures { OnOk result («module».new ≡ record «module».old { types = self.now.types; exports = «module».old.exports ++ self.now.callees }) }
    {
        let types = self.types.copied_types()?;
        drop(mem::replace(&mut module.types, types));
        add_exports(&mut module.exports, self.callees.as_slice())
    }

    /// The module, and what its imports are.
    pub fn into_parts(self) -> Result<(WasmModule, Seq<Import>), OutOfMemory>
        ensures parts { IfOk result (λ parts. (parts.0 ≡ module_of self) × (parts.1 ≡ self.imports)) }
        ensures numbered { length (functions_of self) + length self.functions < 2 ^ 32 }
    {
        let ModuleSections {
            types,
            globals,
            memories,
            functions,
            module,
            imports,
            callees,
            helpers,
            ..
        } = self;
        drop(helpers);
        drop(globals);
        drop(memories);
        drop(functions);
        let WasmModule {
            types: none,
            imports: section,
            funcs,
            exports,
        } = module;
        drop(none);
        let mut exports = exports;
        let exported = add_exports(&mut exports, callees.as_slice());
        drop(callees);
        let module = WasmModule {
            types: types.into_types(),
            imports: section,
            funcs,
            exports,
        };
        match exported {
            Ok(()) => Ok((module, imports)),
            Err(error) => {
                drop(module);
                drop(imports);
                Err(error)
            }
        }
    }

    /// The number of the next function, behind those that are defined and those that are numbered ahead.
    fn next_number(&self) -> usize
        ensures { result ≡ number_behind self.now }
    {
        self.numbered.max(self.module.funcs.len())
    }

    /// Whether no further function has a number.
    fn is_full(&self) -> bool
        ensures { IsFalse result → length (functions_of self.now) + number_behind self.now + 1 < 2 ^ 32 }
    {
        self.functions.len() + self.next_number() >= MOST_FUNCTIONS
    }

    /// Whether one more function can be defined: it is numbered ahead, or there is a number for it.
    fn may_define(&self) -> bool
        ensures { IsTrue result → length (functions_of self.now) + max self.now.numbered (length self.now.functions + 1) < 2 ^ 32 }
    {
        let defined = self.module.funcs.len();
        if defined < self.numbered {
            return true;
        }
        !self.is_full()
    }

    /// Numbers so many functions ahead, behind those that are defined or numbered: they are defined in the order of their numbers.
    pub fn number_functions(&mut self, count: usize) -> Result<(), OutOfMemory>
        ensures numbered { OnOk result (self.new ≡ with_numbered self.old count) }
        ensures keeps { Extended self.old self.new }
        ensures once { AreOnce self.old → AreOnce self.new }
        ensures refused { OnErr result (self.new ≡ self.old) }
    {
        let number = self.next_number();
        if count > MOST_FUNCTIONS - self.functions.len() - number {
            return Err(AllocError);
        }
        self.numbered = number + count;
        Ok(())
    }

    /// How many helpers code asked for.
    pub fn helper_count(&self) -> usize
        ensures { result ≡ length self.now.helpers }
    {
        self.helpers.len()
    }

    /// The helper of a place, in the order in which they were asked for, with the number of its function.
    pub fn helper_at(&self, place: usize) -> Option<(Helper, u32)>
        ensures { result ≡ slice_get self.now.helpers place }
    {
        match self.helpers.get_index(place) {
            Some((helper, number)) => Some((*helper, *number)),
            None => None,
        }
    }

    /// The number of the function of a helper. One that no code asked for before gets the next number.
    pub fn helper(&mut self, helper: Helper) -> Result<u32, OutOfMemory>
        ensures asked { IfOk result (λ number. IsHelperAsked self.old self.new helper number) }
        ensures keeps { Extended self.old self.new }
        ensures once { AreOnce self.old → AreOnce self.new }
        ensures refused { OnErr result (self.new ≡ self.old) }
    {
        if let Some(number) = self.helpers.get(&helper).copied() {
            return Ok(number);
        }
        if self.is_full() {
            return Err(AllocError);
        }
        let number = self.next_number();
        self.helpers.insert(helper, number as u32)?;
        self.numbered = number + 1;
        Ok(number as u32)
    }

    /// The place of an item among the imports of its kind; a new one is imported last, under these names, with this type. It asks that
    /// the type of a function of the runtime is the one that such a function has, which goes for transcoders, start-calls and
    /// prepare-calls too, and that a prepare-call is given the number of imported functions so far: so each is imported anew.
    pub(crate) fn import(
        &mut self,
        item: ImportedItem,
        origin: &str,
        name: &str,
        ty: ImportType,
    ) -> Result<u32, OutOfMemory>
        requires may { MayImport self.old item ty }
        ensures imported { IfOk result (λ place. IsItemImported self.old self.new (import_as origin.now name.now ty) item place) }
        ensures typed { IfOk result (λ place. (f : FuncType) → type_of_item item ≡ Some f → HasImport self.new (known_as item) place f.params f.results) }
        ensures keeps { Extended self.old self.new }
        ensures once { AreOnce self.old → AreOnce self.new }
        ensures refused { OnErr result (self.new ≡ self.old) }
    {
        let has_room = !self.is_full();
        let Ok(import) = import_named(self.alloc, origin, name, ty) else {
            drop(item);
            return Err(AllocError);
        };
        match import.ty {
            ImportType::Func(_) => find_or_add(
                &mut self.module.imports,
                &mut self.imports,
                &mut self.functions,
                item,
                import,
                has_room,
            ),
            ImportType::Memory { .. } => find_or_add(
                &mut self.module.imports,
                &mut self.imports,
                &mut self.memories,
                item,
                import,
                true,
            ),
            ImportType::Global { .. } => find_or_add(
                &mut self.module.imports,
                &mut self.imports,
                &mut self.globals,
                item,
                import,
                true,
            ),
        }
    }
}
