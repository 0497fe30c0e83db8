//! Ids of the types that a conversion reads, each the key type of one table.

use crate::id::Id;
use crate::table;

/// A defined type of the source (Component Model, "Type Definitions", `defvaltype`).
pub type ComponentDefinedTypeId = Id<table::SourceDefinedTypes>;

/// A function type of the source.
pub type ComponentFuncTypeId = Id<table::SourceFuncTypes>;

/// An instance type of the source.
pub type ComponentInstanceTypeId = Id<table::SourceInstanceTypes>;

/// A component type of the source.
pub type ComponentTypeId = Id<table::SourceComponentTypes>;

/// A core module type of the source.
pub type ComponentCoreModuleTypeId = Id<table::SourceModuleTypes>;

/// A resource of the source.
pub type ResourceId = Id<table::SourceResources>;

/// An id of any type of the source that a component can export as a type.
#[derive(Clone, Copy, PartialEq, Eq, Hash)]
pub enum ComponentAnyTypeId {
    Resource(ResourceId),
    Defined(ComponentDefinedTypeId),
    Func(ComponentFuncTypeId),
    Instance(ComponentInstanceTypeId),
    Component(ComponentTypeId),
}
