//! The tables that the index types of this crate name, each a type without values.

/// The types of a component.
pub enum Types {}

/// The core instances of a component.
pub enum ModuleInstances {}

/// The tables of error contexts that all instances share.
pub enum TypeComponentGlobalErrorContextTables {}

/// The resource types that a component defines.
pub enum DefinedResources {}

/// The core modules that a component takes from the components around it.
pub enum ModuleUpvars {}

/// The components that a component takes from the components around it.
pub enum ComponentUpvars {}

/// The components in a component's binary.
pub enum StaticComponents {}

/// The core modules in a component's binary.
pub enum StaticModules {}

/// The imports of the outermost component.
pub enum Imports {}

/// The items that an embedder gives to a component at run time.
pub enum RuntimeImports {}

/// The functions of the host that are lowered.
pub enum Lowerings {}

/// The memories that canonical options name, at run time.
pub enum RuntimeMemories {}

/// The reallocs that canonical options name, at run time.
pub enum RuntimeReallocs {}

/// The callbacks that canonical options name, at run time.
pub enum RuntimeCallbacks {}

/// The post-returns that canonical options name, at run time.
pub enum RuntimePostReturns {}

/// The core tables that a component uses at run time.
pub enum RuntimeTables {}

/// The lists of canonical options.
pub enum OptionLists {}

/// The tables of a core module, imported ones first.
pub enum Tables {}
