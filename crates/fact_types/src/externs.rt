//! Types of core modules, components and instances: their imports and exports, in order.

ghost use Rattle.std.specs.Prelude.{◌≡◌, [], IfOk};

use crate::OutOfMemory;
use crate::interface::TypeDef;
use fact_entity::ModuleInternedTypeIndex;
use fact_wasm::{Text, ValType};
use indexmap::IndexMap;
use std::alloc::Global;
use std::marker::Model;

/// A core function type, of an engine or of the module types that stand beside the tables.
#[derive(Clone, Copy, PartialEq, Eq, Hash)]
pub enum EngineOrModuleTypeIndex {
    Engine(u32),
    Module(ModuleInternedTypeIndex),
}

/// The type of an import or export of a core module (core specification, "External Types"). The limits of a table count
/// elements, those of a memory count pages.
#[derive(Clone, Copy)]
pub enum EntityType {
    Function(EngineOrModuleTypeIndex),
    Table {
        minimum: u64,
        maximum: Option<u64>,
        table64: bool,
    },
    Memory {
        minimum: u64,
        maximum: Option<u64>,
        shared: bool,
        memory64: bool,
        page_size_log2: u8,
    },
    Global {
        ty: ValType,
        mutable: bool,
    },
    Tag {
        signature: EngineOrModuleTypeIndex,
    },
}

/// What is said of an import or export beside its type.
#[derive(Drop)]
pub struct ComponentExternData {
    /// The name of the interface that an instance implements.
    pub implements: Option<Text>,
    /// The name that the outside knows it by.
    pub external_id: Option<Text>,
}

impl ComponentExternData {
    /// Equal data.
    pub fn try_clone(&self) -> Result<ComponentExternData, OutOfMemory>
        ensures { IfOk result (λ copy. copy ≡ self.now) }
    {
        Ok(ComponentExternData {
            implements: clone_text(&self.implements)?,
            external_id: clone_text(&self.external_id)?,
        })
    }
}

/// An import or export of a component or of an instance.
#[derive(Drop)]
pub struct ComponentExtern {
    pub extern_data: ComponentExternData,
    pub ty: TypeDef,
}

impl ComponentExtern {
    /// An equal import or export.
    pub fn try_clone(&self) -> Result<ComponentExtern, OutOfMemory>
        ensures { IfOk result (λ copy. copy ≡ self.now) }
    {
        Ok(ComponentExtern {
            extern_data: self.extern_data.try_clone()?,
            ty: self.ty,
        })
    }
}

/// A type of core modules: its imports by module and name, and its exports by name.
pub struct TypeModule {
    pub imports: IndexMap<(Text, Text), EntityType>,
    pub exports: IndexMap<Text, EntityType>,
}

// Written out, it is proved here once, where a derived one is proved anew in each crate that ends such a value.
impl Drop for TypeModule {
    fn drop(self) {
        let TypeModule { imports, exports } = self;
        drop(imports);
        drop(exports);
    }
}

impl Model for TypeModule {
    ghost use Rattle.fact_types.specs.Externs.{ModuleType};

    ghost Value = { ModuleType };

    ghost view = { λ m. record { imports = m.imports.entries; exports = m.exports.entries } };
}

impl TypeModule {
    /// The type of a module without imports and exports. It takes no memory.
    pub fn new(alloc: Global) -> TypeModule
        ensures { result ≡ record { imports = []; exports = [] } }
    {
        TypeModule {
            imports: IndexMap::new(alloc),
            exports: IndexMap::new(alloc),
        }
    }
}

/// A type of components: its imports and exports by name.
pub struct TypeComponent {
    pub imports: IndexMap<Text, ComponentExtern>,
    pub exports: IndexMap<Text, ComponentExtern>,
}

// Written out, it is proved here once, where a derived one is proved anew in each crate that ends such a value.
impl Drop for TypeComponent {
    fn drop(self) {
        let TypeComponent { imports, exports } = self;
        drop(imports);
        drop(exports);
    }
}

impl Model for TypeComponent {
    ghost use Rattle.fact_types.specs.Externs.{ComponentType};

    ghost Value = { ComponentType };

    ghost view = { λ m. record { imports = m.imports.entries; exports = m.exports.entries } };
}

impl TypeComponent {
    /// The type of a component without imports and exports. It takes no memory.
    pub fn new(alloc: Global) -> TypeComponent
        ensures { result ≡ record { imports = []; exports = [] } }
    {
        TypeComponent {
            imports: IndexMap::new(alloc),
            exports: IndexMap::new(alloc),
        }
    }
}

/// A type of instances of components: its exports by name.
pub struct TypeComponentInstance {
    pub exports: IndexMap<Text, ComponentExtern>,
}

// Written out, it is proved here once, where a derived one is proved anew in each crate that ends such a value.
impl Drop for TypeComponentInstance {
    fn drop(self) {
        let TypeComponentInstance { exports } = self;
        drop(exports);
    }
}

impl Model for TypeComponentInstance {
    ghost use Rattle.fact_types.specs.Externs.{InstanceType};

    ghost Value = { InstanceType };

    ghost view = { λ m. record { exports = m.exports.entries } };
}

impl TypeComponentInstance {
    /// The type of an instance without exports. It takes no memory.
    pub fn new(alloc: Global) -> TypeComponentInstance
        ensures { result ≡ record { exports = [] } }
    {
        TypeComponentInstance {
            exports: IndexMap::new(alloc),
        }
    }
}

/// An equal text, or none.
fn clone_text(text: &Option<Text>) -> Result<Option<Text>, OutOfMemory>
    ensures { IfOk result (λ copy. copy ≡ text.now) }
{
    match text {
        Some(text) => Ok(Some(text.try_clone()?)),
        None => Ok(None),
    }
}
