//! Index types of a component and of its run, for users of the library: those that no other crate here names.
#![tactic(auto)]

mod index;
pub mod table;

pub use index::{
    ComponentTypeIndex, ComponentUpvarIndex, DefinedResourceIndex, ImportIndex, LoweredIndex,
    ModuleInstanceIndex, ModuleUpvarIndex, OptionsIndex, RuntimeCallbackIndex, RuntimeImportIndex,
    RuntimeMemoryIndex, RuntimePostReturnIndex, RuntimeReallocIndex, RuntimeTableIndex,
    StaticComponentIndex, StaticModuleIndex, TableIndex, TypeComponentGlobalErrorContextTableIndex,
};
