//! Keys of tables, and the tables that they name.
//!
//! A key is a 32-bit number under a type of its own ([`EntityRef`]); [`Id`] is the key type that all index types and
//! source ids of the Component Model's types are made of. [`PrimaryMap`] is a table whose entries have their places as
//! keys, and [`Interner`] one that holds each value once.
#![tactic(auto)]

mod error;
mod id;
mod index;
mod interner;
mod key;
mod map;
mod pairs;
mod source_ids;
pub mod table;

pub use error::PushError;
pub use id::Id;
pub use index::{
    AbstractResourceIndex, AdapterId, ComponentFuncIndex, ComponentIndex, ComponentInstanceIndex,
    ExportIndex, FuncIndex, GlobalIndex, MemoryIndex, ModuleIndex, ModuleInternedTypeIndex,
    ResourceIndex, RuntimeComponentInstanceIndex, RuntimeInstanceIndex, TrampolineIndex,
    TypeComponentIndex, TypeComponentInstanceIndex, TypeComponentLocalErrorContextTableIndex,
    TypeEnumIndex, TypeFixedLengthListIndex, TypeFlagsIndex, TypeFuncIndex, TypeFutureIndex,
    TypeFutureTableIndex, TypeListIndex, TypeMapIndex, TypeModuleIndex, TypeOptionIndex,
    TypeRecordIndex, TypeResourceTableIndex, TypeResultIndex, TypeStreamIndex,
    TypeStreamTableIndex, TypeTupleIndex, TypeVariantIndex,
};
pub use interner::Interner;
pub use key::EntityRef;
pub use map::PrimaryMap;
pub use pairs::Iter;
pub use source_ids::{
    ComponentAnyTypeId, ComponentCoreModuleTypeId, ComponentDefinedTypeId, ComponentFuncTypeId,
    ComponentInstanceTypeId, ComponentTypeId, ResourceId,
};

/// Want of memory, the one free answer of each call that allocates.
pub type OutOfMemory = std::alloc::AllocError;
