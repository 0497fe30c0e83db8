//! The index types that no type here holds, each the key type of one table.

use crate::table;
use fact_entity::Id;

/// A type of a component (Component Model, "Index Spaces").
pub type ComponentTypeIndex = Id<table::Types>;

/// A core instance of a component (Component Model, "Index Spaces").
pub type ModuleInstanceIndex = Id<table::ModuleInstances>;

/// A table of error contexts that all instances share.
pub type TypeComponentGlobalErrorContextTableIndex = Id<
    table::TypeComponentGlobalErrorContextTables,
>;

/// A resource type that a component defines.
pub type DefinedResourceIndex = Id<table::DefinedResources>;

/// A core module taken from a component around (Component Model, "Alias Definitions", `outer`).
pub type ModuleUpvarIndex = Id<table::ModuleUpvars>;

/// A component taken from a component around (Component Model, "Alias Definitions", `outer`).
pub type ComponentUpvarIndex = Id<table::ComponentUpvars>;

/// A component in a component's binary.
pub type StaticComponentIndex = Id<table::StaticComponents>;

/// A core module in a component's binary.
pub type StaticModuleIndex = Id<table::StaticModules>;

/// An import of the outermost component.
pub type ImportIndex = Id<table::Imports>;

/// An item that an embedder gives to a component at run time.
pub type RuntimeImportIndex = Id<table::RuntimeImports>;

/// A lowered function of the host (canonical ABI, `canon lower`).
pub type LoweredIndex = Id<table::Lowerings>;

/// A memory that canonical options name, at run time.
pub type RuntimeMemoryIndex = Id<table::RuntimeMemories>;

/// A realloc that canonical options name, at run time.
pub type RuntimeReallocIndex = Id<table::RuntimeReallocs>;

/// A callback that canonical options name, at run time.
pub type RuntimeCallbackIndex = Id<table::RuntimeCallbacks>;

/// A post-return that canonical options name, at run time.
pub type RuntimePostReturnIndex = Id<table::RuntimePostReturns>;

/// A core table that a component uses at run time.
pub type RuntimeTableIndex = Id<table::RuntimeTables>;

/// A list of canonical options (canonical ABI, "Canonical ABI options").
pub type OptionsIndex = Id<table::OptionLists>;

/// A table of a core module (core specification, "Indices").
pub type TableIndex = Id<table::Tables>;
