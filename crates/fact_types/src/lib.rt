//! The types of components: the tables that hold them, how values of a type are laid out in memory, and which core types
//! stand for them.
//!
//! Layout follows the Component Model's canonical ABI ("Alignment", "Element Size", "Flattening"). Each call takes the
//! exact numbers to fit 32 bits, and stands beside a test of that condition. None of them takes memory.
//!
//! - Tables: `tables`, of the types of `interface`, `kinds`, `ordered` and `externs`; what is added (`pushes`), looked up (`lookup`, `fields`), known to be
//!   there (`live`), and visited (`trace`); the core function types of modules beside them (`module_types`).
//! - Layout in memory: `abi`, of records (`records`) and of variants (`variants`, with `sizes`), by the sizes and alignments of `extents`.
//! - Core values: `flats`, `signature`, and how many of them a side passes (`limits`).
//! - What adapters use of the outside: `outside`, and what their modules import (`import`).
#![tactic(auto)]

mod abi;
mod extents;
mod externs;
mod fields;
mod flats;
mod import;
mod interface;
mod kinds;
mod limits;
mod live;
mod lookup;
mod module_types;
mod ordered;
mod outside;
mod pushes;
mod records;
mod signature;
mod sizes;
mod tables;
mod trace;
mod variants;

pub use abi::CanonicalAbiInfo;
pub use externs::{
    ComponentExtern, ComponentExternData, EngineOrModuleTypeIndex, EntityType, TypeComponent,
    TypeComponentInstance, TypeModule,
};
pub use fact_entity::{
    AbstractResourceIndex, AdapterId, ComponentFuncIndex, ComponentIndex, ComponentInstanceIndex,
    ExportIndex, FuncIndex, GlobalIndex, MemoryIndex, ModuleIndex, ModuleInternedTypeIndex,
    OutOfMemory, ResourceIndex, RuntimeComponentInstanceIndex, RuntimeInstanceIndex,
    TrampolineIndex, TypeComponentIndex, TypeComponentInstanceIndex,
    TypeComponentLocalErrorContextTableIndex, TypeEnumIndex, TypeFixedLengthListIndex,
    TypeFlagsIndex, TypeFuncIndex, TypeFutureIndex, TypeFutureTableIndex, TypeListIndex,
    TypeMapIndex, TypeModuleIndex, TypeOptionIndex, TypeRecordIndex, TypeResourceTableIndex,
    TypeResultIndex, TypeStreamIndex, TypeStreamTableIndex, TypeTupleIndex, TypeVariantIndex,
};
pub use fields::FieldPlace;
pub use flats::{
    FlatType, FlatTypes, MAX_FLAT_ASYNC_PARAMS, MAX_FLAT_PARAMS, MAX_FLAT_RESULTS, MAX_FLAT_TYPES,
};
pub use import::Import;
pub use interface::{ComponentItem, InterfaceType, TypeDef};
pub use kinds::{
    RecordField, TypeErrorContextTable, TypeFixedLengthList, TypeFunc, TypeFuture, TypeFutureTable,
    TypeList, TypeMap, TypeOption, TypeRecord, TypeResourceTable, TypeResult, TypeStream,
    TypeStreamTable, TypeTuple,
};
pub use limits::{lift_results_limit, lower_limit};
pub use lookup::Lookup;
pub use module_types::{ModuleTypes, ModuleTypesBuilder};
pub use ordered::{TypeEnum, TypeFlags, TypeVariant};
pub use outside::{
    CoreDef, FixedEncoding, MemoryOption, StringEncoding, Transcode, Trap, UnsafeIntrinsic,
};
pub use signature::{SideSig, Signature};
pub use sizes::{DiscriminantSize, FlagsSize};
pub use tables::ComponentTypes;
pub use trace::TypeTrace;
pub use variants::VariantInfo;
