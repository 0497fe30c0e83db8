//! The state of a module that is being made: its sections, and what it is made with.

ghost use Rattle.std.specs.Prelude.{◌≡◌, IfOk, OnErr, OnOk, Some, slice_get};
ghost use Rattle.fact_wasm.specs.CoreTypes.{signature};
ghost use Rattle.fact_types.specs.declared.import.Import.TheVariants as known;
ghost use Rattle.fact_emit.specs.Imports.{AreOnce, Extended};
ghost use Rattle.fact_emit.specs.States.{HasNoOtherType, HasType, IsImported, IsTypeThere, import_as, nothing_so_far};
ghost use Rattle.fact_compound.specs.Settings.{OnlySectionsChanged};

use fact_builder::ComponentTypesBuilder;
use fact_emit::{ModuleSections, Tunables, WasmFeatures};
use fact_types::{CoreDef, Import};
use fact_wasm::{CoreTypes, ImportType, OutOfMemory, Seq, ValType, WasmFunc, WasmImport};
use std::alloc::Global;

/// A module that is being made: its sections, the types of adapters, and what else `Module::new` was given.
#[derive(Drop)]
pub struct ModuleState<'a> {
    pub sections: ModuleSections,
    pub builder: &'a ComponentTypesBuilder,
    pub tunables: &'a Tunables,
    pub features: WasmFeatures,
}

impl<'a> ModuleState<'a> {
    /// Nothing is there yet. It takes no memory.
    pub fn new(
        alloc: Global,
        types: &'a ComponentTypesBuilder,
        tunables: &'a Tunables,
        features: WasmFeatures,
    ) -> ModuleState<'a>
        ensures nothing { result.sections ≡ nothing_so_far }
        ensures once { AreOnce result.sections }
        ensures builder { result.builder.now ≡ types.now }
        ensures tunables { result.tunables.now ≡ tunables.now }
        ensures features { result.features ≡ features }
    {
        ModuleState {
            sections: ModuleSections::new(alloc),
            builder: types,
            tunables,
            features,
        }
    }

    /// The core function types so far.
    pub fn core_types(&self) -> &CoreTypes
        ensures { result.now ≡ self.now.sections.types }
    {
        self.sections.core_types()
    }

    /// The imports so far, as they stand in the module.
    pub fn import_section(&self) -> &Seq<WasmImport>
        ensures { result.now ≡ self.now.sections.section }
    {
        self.sections.import_section()
    }

    /// What the imports so far are, in the same order.
    pub fn imports(&self) -> &[Import]
        ensures { result.now ≡ self.now.sections.imports }
    {
        self.sections.imports()
    }

    /// The defined functions so far.
    pub fn functions(&self) -> &Seq<WasmFunc>
        ensures { result.now ≡ self.now.sections.functions }
    {
        self.sections.functions()
    }

    /// The number of a core type, which comes last where it is new.
    pub fn function(&mut self, params: &[ValType], results: &[ValType]) -> Result<u32, OutOfMemory>
        ensures place { IfOk result (λ n. slice_get self.new.sections.types n ≡ Some (signature params.now results.now)) }
        ensures types { OnOk result (HasType self.old.sections self.new.sections (signature params.now results.now)) }
        ensures extended { Extended self.old.sections self.new.sections }
        ensures keeps { OnlySectionsChanged self.old self.new }
        ensures once { AreOnce self.old.sections → AreOnce self.new.sections }
        ensures refused { OnErr result (self.new ≡ self.old) }
    {
        self.sections.function(params, results)
    }

    /// The place of a core definition among the imports of its kind. A new one is imported last, under these names, with this
    /// type, whose index, if it has one, is that of a type that is there. One that was imported before has this type too.
    pub fn core_def(
        &mut self,
        def: &CoreDef,
        module: &str,
        name: &str,
        ty: ImportType,
    ) -> Result<u32, OutOfMemory>
        requires same { HasNoOtherType self.old.sections def.now ty }
        requires live { IsTypeThere self.old.sections ty }
        ensures imported { IfOk result (λ place. IsImported self.old.sections self.new.sections (import_as «module».now name.now ty) (known.CoreDef def.now) place) }
        ensures extended { Extended self.old.sections self.new.sections }
        ensures keeps { OnlySectionsChanged self.old self.new }
        ensures once { AreOnce self.old.sections → AreOnce self.new.sections }
        ensures refused { OnErr result (self.new ≡ self.old) }
    {
        self.sections.core_def(def, module, name, ty)
    }
}
