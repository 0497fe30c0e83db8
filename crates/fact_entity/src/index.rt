//! The index types that other types hold, each the key type of one table.

use crate::id::Id;
use crate::table;

/// A function of a component (Component Model, "Index Spaces").
pub type ComponentFuncIndex = Id<table::ComponentFuncs>;

/// A core module of a component (Component Model, "Index Spaces").
pub type ModuleIndex = Id<table::Modules>;

/// A component of a component (Component Model, "Index Spaces").
pub type ComponentIndex = Id<table::Components>;

/// An instance of a component (Component Model, "Index Spaces").
pub type ComponentInstanceIndex = Id<table::ComponentInstances>;

/// An export of a component or of an instance.
pub type ExportIndex = Id<table::Exports>;

/// A type of core modules.
pub type TypeModuleIndex = Id<table::TypeModules>;

/// A type of components.
pub type TypeComponentIndex = Id<table::TypeComponents>;

/// A type of instances.
pub type TypeComponentInstanceIndex = Id<table::TypeComponentInstances>;

/// A type of component functions.
pub type TypeFuncIndex = Id<table::TypeFuncs>;

/// A record type.
pub type TypeRecordIndex = Id<table::TypeRecords>;

/// A variant type.
pub type TypeVariantIndex = Id<table::TypeVariants>;

/// A tuple type.
pub type TypeTupleIndex = Id<table::TypeTuples>;

/// A flags type.
pub type TypeFlagsIndex = Id<table::TypeFlags>;

/// An enum type.
pub type TypeEnumIndex = Id<table::TypeEnums>;

/// An option type.
pub type TypeOptionIndex = Id<table::TypeOptions>;

/// A result type.
pub type TypeResultIndex = Id<table::TypeResults>;

/// A list type.
pub type TypeListIndex = Id<table::TypeLists>;

/// A map type.
pub type TypeMapIndex = Id<table::TypeMaps>;

/// A type of lists of fixed length.
pub type TypeFixedLengthListIndex = Id<table::TypeFixedLengthLists>;

/// A future type.
pub type TypeFutureIndex = Id<table::TypeFutures>;

/// A table of futures, of one future type in one instance.
pub type TypeFutureTableIndex = Id<table::TypeFutureTables>;

/// A stream type.
pub type TypeStreamIndex = Id<table::TypeStreams>;

/// A table of streams, of one stream type in one instance.
pub type TypeStreamTableIndex = Id<table::TypeStreamTables>;

/// A table of error contexts, of one instance.
pub type TypeComponentLocalErrorContextTableIndex = Id<table::TypeComponentLocalErrorContextTables>;

/// A table of handles, of one resource type in one instance.
pub type TypeResourceTableIndex = Id<table::TypeResourceTables>;

/// A resource type.
pub type ResourceIndex = Id<table::Resources>;

/// A resource type that stands for any resource.
pub type AbstractResourceIndex = Id<table::AbstractResources>;

/// A core function type.
pub type ModuleInternedTypeIndex = Id<table::ModuleInternedTypes>;

/// An instance of a core module at run time.
pub type RuntimeInstanceIndex = Id<table::RuntimeInstances>;

/// An instance of a component at run time.
pub type RuntimeComponentInstanceIndex = Id<table::RuntimeComponentInstances>;

/// A function that the runtime supplies.
pub type TrampolineIndex = Id<table::Trampolines>;

/// A function of a core module (core specification, "Indices").
pub type FuncIndex = Id<table::Funcs>;

/// A global of a core module (core specification, "Indices").
pub type GlobalIndex = Id<table::Globals>;

/// A memory of a core module (core specification, "Indices").
pub type MemoryIndex = Id<table::Memories>;

/// A fused adapter.
pub type AdapterId = Id<table::Adapters>;
