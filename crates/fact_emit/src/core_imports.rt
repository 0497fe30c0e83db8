//! The imports of core definitions, by what they are used as.

ghost use Rattle.std.specs.Prelude.{◌≡◌, IfOk, OnErr};
ghost use Rattle.fact_types.specs.Signatures.{address as address_of};
ghost use Rattle.fact_types.specs.declared.outside.CoreDef.TheVariants as def_is;
ghost use Rattle.fact_emit.specs.ImportSection.{custom_page_size as custom_page_size_of, Flags, Storage, Realloc, Callback, Callee, PostReturn};
ghost use Rattle.fact_emit.specs.Imports.{AreOnce, Extended};
ghost use Rattle.fact_emit.specs.DefImports.{IsDefImported};
ghost use Rattle.fact_emit.specs.States.{OnlyTypesAdded};

use crate::sections::ModuleSections;
use fact_entity::{EntityRef, RuntimeComponentInstanceIndex};
use fact_types::CoreDef;
use fact_wasm::{FuncType, ImportType, OutOfMemory, ValType};

/// The exponent of a memory's page size, where it is not the usual one.
pub fn custom_page_size(page_size_log2: u8) -> Option<u32>
    ensures { result ≡ custom_page_size_of page_size_log2 }
{
    if page_size_log2 == 16 {
        None
    } else {
        Some(page_size_log2 as u32)
    }
}

/// The type of an address.
pub(crate) fn address(memory64: bool) -> ValType
    ensures { result ≡ address_of memory64 }
{
    if memory64 { ValType::I64 } else { ValType::I32 }
}

impl ModuleSections {
    /// The place of an instance's flags among the imported globals.
    pub fn flags(&mut self, instance: RuntimeComponentInstanceIndex) -> Result<u32, OutOfMemory>
        ensures imported { IfOk result (λ place. IsDefImported self.old self.new (Flags instance.number) (def_is.InstanceFlags instance) place) }
        ensures keeps { Extended self.old self.new }
        ensures once { AreOnce self.old → AreOnce self.new }
        ensures refused { OnErr result (OnlyTypesAdded self.old self.new) }
    {
        let number = instance.as_u32();
        let name = format!(in self.alloc(); "instance{number}")?;
        let ty = ImportType::Global {
            ty: ValType::I32,
            mutable: true,
        };
        let def = CoreDef::InstanceFlags(instance);
        let place = self.core_def(&def, "flags", &name, ty);
        drop(def);
        let place = place?;
        Ok(place)
    }

    /// The place of a memory among the imported memories.
    pub fn memory(
        &mut self,
        def: &CoreDef,
        memory64: bool,
        page_size_log2: u8,
    ) -> Result<u32, OutOfMemory>
        ensures imported { IfOk result (λ place. IsDefImported self.old self.new (Storage memory64 page_size_log2) def.now place) }
        ensures keeps { Extended self.old self.new }
        ensures once { AreOnce self.old → AreOnce self.new }
        ensures refused { OnErr result (OnlyTypesAdded self.old self.new) }
    {
        let count = self.memory_count();
        let name = format!(in self.alloc(); "m{count}")?;
        let ty = ImportType::Memory {
            minimum: 0,
            memory64,
            page_size_log2: custom_page_size(page_size_log2),
        };
        let place = self.core_def(def, "memory", &name, ty)?;
        Ok(place)
    }

    /// The place of a function that gives memory among the imported functions.
    pub fn realloc(&mut self, def: &CoreDef, memory64: bool) -> Result<u32, OutOfMemory>
        ensures imported { IfOk result (λ place. IsDefImported self.old self.new (Realloc memory64) def.now place) }
        ensures keeps { Extended self.old self.new }
        ensures once { AreOnce self.old → AreOnce self.new }
        ensures refused { OnErr result (OnlyTypesAdded self.old self.new) }
    {
        let count = self.function_count();
        let name = format!(in self.alloc(); "f{count}")?;
        let p = address(memory64);
        let ty = self.function(&[p, p, p, p], &[p])?;
        let place = self.core_def(def, "realloc", &name, ImportType::Func(ty))?;
        Ok(place)
    }

    /// The place of a callback among the imported functions.
    pub fn callback(&mut self, def: &CoreDef) -> Result<u32, OutOfMemory>
        ensures imported { IfOk result (λ place. IsDefImported self.old self.new Callback def.now place) }
        ensures keeps { Extended self.old self.new }
        ensures once { AreOnce self.old → AreOnce self.new }
        ensures refused { OnErr result (OnlyTypesAdded self.old self.new) }
    {
        let count = self.function_count();
        let name = format!(in self.alloc(); "f{count}")?;
        let ty = self.function(&[ValType::I32, ValType::I32, ValType::I32], &[ValType::I32])?;
        let place = self.core_def(def, "callback", &name, ImportType::Func(ty))?;
        Ok(place)
    }

    /// The place of the callee of an adapter of this name among the imported functions.
    pub fn callee(
        &mut self,
        adapter: &str,
        def: &CoreDef,
        ty: &FuncType,
    ) -> Result<u32, OutOfMemory>
        ensures imported { IfOk result (λ place. IsDefImported self.old self.new (Callee adapter.now ty.now) def.now place) }
        ensures keeps { Extended self.old self.new }
        ensures once { AreOnce self.old → AreOnce self.new }
        ensures refused { OnErr result (OnlyTypesAdded self.old self.new) }
    {
        let ty = self.function(ty.params.as_slice(), ty.results.as_slice())?;
        let place = self.core_def(def, "callee", adapter, ImportType::Func(ty))?;
        Ok(place)
    }

    /// The place of what is called behind an adapter of this name, whose callee has these results, among the imported functions.
    pub fn post_return(
        &mut self,
        adapter: &str,
        def: &CoreDef,
        results: &[ValType],
    ) -> Result<u32, OutOfMemory>
        ensures imported { IfOk result (λ place. IsDefImported self.old self.new (PostReturn adapter.now results.now) def.now place) }
        ensures keeps { Extended self.old self.new }
        ensures once { AreOnce self.old → AreOnce self.new }
        ensures refused { OnErr result (OnlyTypesAdded self.old self.new) }
    {
        let ty = self.function(results, &[])?;
        let place = self.core_def(def, "post_return", adapter, ImportType::Func(ty))?;
        Ok(place)
    }
}
