//! The tables that index types and source ids name, each a type without values.

/// The functions of a component.
pub enum ComponentFuncs {}

/// The core modules of a component.
pub enum Modules {}

/// The components of a component.
pub enum Components {}

/// The instances of a component.
pub enum ComponentInstances {}

/// The exports of a component and of its instances.
pub enum Exports {}

/// The types of core modules.
pub enum TypeModules {}

/// The types of components.
pub enum TypeComponents {}

/// The types of instances.
pub enum TypeComponentInstances {}

/// The types of functions.
pub enum TypeFuncs {}

/// The record types.
pub enum TypeRecords {}

/// The variant types.
pub enum TypeVariants {}

/// The tuple types.
pub enum TypeTuples {}

/// The flags types.
pub enum TypeFlags {}

/// The enum types.
pub enum TypeEnums {}

/// The option types.
pub enum TypeOptions {}

/// The result types.
pub enum TypeResults {}

/// The list types.
pub enum TypeLists {}

/// The map types.
pub enum TypeMaps {}

/// The types of lists of fixed length.
pub enum TypeFixedLengthLists {}

/// The future types.
pub enum TypeFutures {}

/// The tables of futures, one for each future type and instance.
pub enum TypeFutureTables {}

/// The stream types.
pub enum TypeStreams {}

/// The tables of streams, one for each stream type and instance.
pub enum TypeStreamTables {}

/// The tables of error contexts, one for each instance.
pub enum TypeComponentLocalErrorContextTables {}

/// The tables of handles of resources, one for each resource type and instance.
pub enum TypeResourceTables {}

/// The resource types.
pub enum Resources {}

/// The resource types that stand for any resource, as in the type of a component.
pub enum AbstractResources {}

/// The core function types of a module, each once.
pub enum ModuleInternedTypes {}

/// The instances of core modules at run time.
pub enum RuntimeInstances {}

/// The instances of components at run time.
pub enum RuntimeComponentInstances {}

/// The functions that the runtime supplies.
pub enum Trampolines {}

/// The functions of a core module, imported ones first.
pub enum Funcs {}

/// The globals of a core module, imported ones first.
pub enum Globals {}

/// The memories of a core module, imported ones first.
pub enum Memories {}

/// The fused adapters of a component.
pub enum Adapters {}

/// The defined types of the source.
pub enum SourceDefinedTypes {}

/// The function types of the source.
pub enum SourceFuncTypes {}

/// The instance types of the source.
pub enum SourceInstanceTypes {}

/// The component types of the source.
pub enum SourceComponentTypes {}

/// The core module types of the source.
pub enum SourceModuleTypes {}

/// The resources of the source.
pub enum SourceResources {}
