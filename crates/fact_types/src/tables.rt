//! The tables of the types that a component names.

ghost use Rattle.std.specs.Prelude.{◌≡◌, ◌≤◌, ◌<◌, List, length, Option, Some, IsSome, option_copied};
ghost use Rattle.fact_entity.specs.declared.id.Id.{Id};
ghost use Rattle.fact_entity.specs.declared.table.TypeFuncs.{TypeFuncs};
ghost use Rattle.std.specs.Borrow.{sem};
ghost use Rattle.fact_types.specs.declared.extents.MemoryWidth.{MemoryWidth};
ghost use Rattle.fact_types.specs.Flat.{flat_within};
ghost use Rattle.fact_types.specs.FlatShapes.{flat};
ghost use Rattle.fact_types.specs.Lending.{LendsTypes};
ghost use Rattle.fact_types.specs.Sound.{IsSoundLayout, TakesBytes};
ghost use Rattle.fact_types.specs.Shapes.{Shape, layout_of, depth, IsWithin};
ghost use Rattle.fact_types.specs.Functions.{HasSignature};
ghost use Rattle.fact_types.specs.Tables.{no_tables, abi_at, IsLive, HasShape, IsSound, Node, node_of, entries};
ghost use Rattle.fact_types.specs.Valid.{IsValid};

use crate::abi::CanonicalAbiInfo;
use crate::externs::{TypeComponent, TypeComponentInstance, TypeModule};
use crate::interface::InterfaceType;
use crate::kinds::{
    TypeErrorContextTable, TypeFixedLengthList, TypeFunc, TypeFuture, TypeFutureTable, TypeList,
    TypeMap, TypeOption, TypeRecord, TypeResourceTable, TypeResult, TypeStream, TypeStreamTable,
    TypeTuple,
};
use crate::module_types::ModuleTypes;
use crate::ordered::{TypeEnum, TypeFlags, TypeVariant};
use fact_entity::{
    PrimaryMap, TypeComponentIndex, TypeComponentInstanceIndex,
    TypeComponentLocalErrorContextTableIndex, TypeEnumIndex, TypeFixedLengthListIndex,
    TypeFlagsIndex, TypeFuncIndex, TypeFutureIndex, TypeFutureTableIndex, TypeListIndex,
    TypeMapIndex, TypeModuleIndex, TypeOptionIndex, TypeRecordIndex, TypeResourceTableIndex,
    TypeResultIndex, TypeStreamIndex, TypeStreamTableIndex, TypeTupleIndex, TypeVariantIndex,
};
use std::alloc::Global;
use std::marker::Model;

/// The types that a component names, one table for each kind. Contracts see it as the lists of the tables; an index is
/// live where its number is below the length of its table. At all times each type has a shape, its layout is that of the
/// shape, and every index that an entry holds is live.
pub struct ComponentTypes {
    pub(crate) modules: PrimaryMap<TypeModuleIndex, TypeModule>,
    pub(crate) components: PrimaryMap<TypeComponentIndex, TypeComponent>,
    pub(crate) component_instances: PrimaryMap<TypeComponentInstanceIndex, TypeComponentInstance>,
    pub(crate) functions: PrimaryMap<TypeFuncIndex, TypeFunc>,
    pub(crate) records: PrimaryMap<TypeRecordIndex, TypeRecord>,
    pub(crate) variants: PrimaryMap<TypeVariantIndex, TypeVariant>,
    pub(crate) tuples: PrimaryMap<TypeTupleIndex, TypeTuple>,
    pub(crate) flags: PrimaryMap<TypeFlagsIndex, TypeFlags>,
    pub(crate) enums: PrimaryMap<TypeEnumIndex, TypeEnum>,
    pub(crate) options: PrimaryMap<TypeOptionIndex, TypeOption>,
    pub(crate) results: PrimaryMap<TypeResultIndex, TypeResult>,
    pub(crate) lists: PrimaryMap<TypeListIndex, TypeList>,
    pub(crate) maps: PrimaryMap<TypeMapIndex, TypeMap>,
    pub(crate) fixed_length_lists: PrimaryMap<TypeFixedLengthListIndex, TypeFixedLengthList>,
    pub(crate) futures: PrimaryMap<TypeFutureIndex, TypeFuture>,
    pub(crate) future_tables: PrimaryMap<TypeFutureTableIndex, TypeFutureTable>,
    pub(crate) streams: PrimaryMap<TypeStreamIndex, TypeStream>,
    pub(crate) stream_tables: PrimaryMap<TypeStreamTableIndex, TypeStreamTable>,
    pub(crate) error_context_tables: PrimaryMap<
        TypeComponentLocalErrorContextTableIndex,
        TypeErrorContextTable,
    >,
    pub(crate) resource_tables: PrimaryMap<TypeResourceTableIndex, TypeResourceTable>,
    pub(crate) module_types: Option<ModuleTypes>,
}

// Written out, it is proved here once, where a derived one is proved anew in each crate that ends such a value.
impl Drop for ComponentTypes {
    fn drop(self) {
        let ComponentTypes {
            modules,
            components,
            component_instances,
            functions,
            records,
            variants,
            tuples,
            flags,
            enums,
            options,
            results,
            lists,
            maps,
            fixed_length_lists,
            futures,
            future_tables,
            streams,
            stream_tables,
            error_context_tables,
            resource_tables,
            module_types,
        } = self;
        drop(modules);
        drop(components);
        drop(component_instances);
        drop(functions);
        drop(records);
        drop(variants);
        drop(tuples);
        drop(flags);
        drop(enums);
        drop(options);
        drop(results);
        drop(lists);
        drop(maps);
        drop(fixed_length_lists);
        drop(futures);
        drop(future_tables);
        drop(streams);
        drop(stream_tables);
        drop(error_context_tables);
        drop(resource_tables);
        drop(module_types);
    }
}

impl Model for ComponentTypes {
    ghost use Rattle.fact_types.specs.Tables.{Tables, IsSound};

    ghost Value = { Tables };

    ghost view = { λ c. record { modules = c.modules; components = c.components; component_instances = c.component_instances; functions = c.functions; records = c.records; variants = c.variants; tuples = c.tuples; flags = c.flags; enums = c.enums; options = c.options; results = c.results; lists = c.lists; maps = c.maps; fixed_length_lists = c.fixed_length_lists; futures = c.futures; future_tables = c.future_tables; streams = c.streams; stream_tables = c.stream_tables; error_context_tables = c.error_context_tables; resource_tables = c.resource_tables; module_types = c.module_types } };

    ghost invariant = { λ c. IsSound (record { modules = c.modules; components = c.components; component_instances = c.component_instances; functions = c.functions; records = c.records; variants = c.variants; tuples = c.tuples; flags = c.flags; enums = c.enums; options = c.options; results = c.results; lists = c.lists; maps = c.maps; fixed_length_lists = c.fixed_length_lists; futures = c.futures; future_tables = c.future_tables; streams = c.streams; stream_tables = c.stream_tables; error_context_tables = c.error_context_tables; resource_tables = c.resource_tables; module_types = c.module_types }) };
}

impl ComponentTypes {
    /// Tables without entries, and no module types. It takes no memory.
    #[tactic(auto, using(crate::proofs::PushLaws::empty_sound))]
    pub fn new(alloc: Global) -> ComponentTypes
        ensures { result ≡ no_tables }
    {
        ComponentTypes {
            modules: PrimaryMap::new(alloc),
            components: PrimaryMap::new(alloc),
            component_instances: PrimaryMap::new(alloc),
            functions: PrimaryMap::new(alloc),
            records: PrimaryMap::new(alloc),
            variants: PrimaryMap::new(alloc),
            tuples: PrimaryMap::new(alloc),
            flags: PrimaryMap::new(alloc),
            enums: PrimaryMap::new(alloc),
            options: PrimaryMap::new(alloc),
            results: PrimaryMap::new(alloc),
            lists: PrimaryMap::new(alloc),
            maps: PrimaryMap::new(alloc),
            fixed_length_lists: PrimaryMap::new(alloc),
            futures: PrimaryMap::new(alloc),
            future_tables: PrimaryMap::new(alloc),
            streams: PrimaryMap::new(alloc),
            stream_tables: PrimaryMap::new(alloc),
            error_context_tables: PrimaryMap::new(alloc),
            resource_tables: PrimaryMap::new(alloc),
            module_types: None,
        }
    }

    /// Does nothing: it says what holds of the tables at all times. A type stands for one shape, and so do types whose
    /// entries are equal.
    pub fn reveal(&self)
        ensures sound { IsSound self.now }
        ensures one_shape { (ty : InterfaceType) (s z : Shape) → HasShape self.now ty s → HasShape self.now ty z → s ≡ z }
        ensures equal_entries { (a b : InterfaceType) (n : Node) (s z : Shape) → node_of self.now a ≡ Some n → node_of self.now b ≡ Some n → HasShape self.now a s → HasShape self.now b z → s ≡ z }
        ensures signatures { (i : Id TypeFuncs) → i.number < length self.now.functions → (params results : List Shape) × HasSignature self.now i params results }
    {
        let _opened = &self.records;
    }

    /// How values of a live type are laid out. Values of a valid type take at least one byte, and the count of flat types
    /// is their number in either width, none above 16.
    pub fn canonical_abi(&self, ty: &InterfaceType) -> &CanonicalAbiInfo
        requires { IsLive self.now ty.now }
        ensures stands { result.now ≡ abi_at self.now ty.now }
        ensures shaped { (s : Shape) × HasShape self.now ty.now s × (depth s ≤ entries self.now) }
        ensures laid { (s : Shape) → HasShape self.now ty.now s → result.now ≡ layout_of s }
        ensures sound { IsSoundLayout result.now }
        ensures takes_bytes { (s : Shape) → HasShape self.now ty.now s → IsValid s → TakesBytes result.now }
        ensures counts { (s : Shape) (w : MemoryWidth) → HasShape self.now ty.now s → IsValid s → result.now.flat_count ≡ flat_within (length (flat w s)) }
        ensures within { IsWithin result.now }
    {
        let _opened = &self.records;
        let abi = self.stored_abi(ty);
        let _size32 = abi.size32;
        let _size64 = abi.size64;
        abi
    }

    // The layout that stands in the tables.
    fn stored_abi(&self, ty: &InterfaceType) -> &CanonicalAbiInfo
        requires { IsLive self.now ty.now }
        ensures { result.now ≡ abi_at self.now ty.now }
    {
        match *ty {
            InterfaceType::Bool | InterfaceType::S8 | InterfaceType::U8 => {
                &CanonicalAbiInfo::SCALAR1
            }
            InterfaceType::S16 | InterfaceType::U16 => &CanonicalAbiInfo::SCALAR2,
            InterfaceType::S64 | InterfaceType::U64 | InterfaceType::Float64 => {
                &CanonicalAbiInfo::SCALAR8
            }
            InterfaceType::String | InterfaceType::List(_) | InterfaceType::Map(_) => {
                &CanonicalAbiInfo::POINTER_PAIR
            }
            InterfaceType::Record(i) => &self.records[i].abi,
            InterfaceType::Variant(i) => &self.variants[i].abi,
            InterfaceType::Tuple(i) => &self.tuples[i].abi,
            InterfaceType::Flags(i) => &self.flags[i].abi,
            InterfaceType::Enum(i) => &self.enums[i].abi,
            InterfaceType::Option(i) => &self.options[i].abi,
            InterfaceType::Result(i) => &self.results[i].abi,
            InterfaceType::FixedLengthList(i) => &self.fixed_length_lists[i].abi,
            InterfaceType::S32
            | InterfaceType::U32
            | InterfaceType::Float32
            | InterfaceType::Char
            | InterfaceType::Own(_)
            | InterfaceType::Borrow(_)
            | InterfaceType::Future(_)
            | InterfaceType::Stream(_)
            | InterfaceType::ErrorContext(_) => &CanonicalAbiInfo::SCALAR4,
        }
    }

    /// The module types, which are set.
    pub fn module_types(&self) -> &ModuleTypes
        requires { IsSome self.now.module_types }
        ensures { self.now.module_types ≡ Some result.now }
    {
        self.module_types.as_ref().unwrap()
    }

    /// The module types, or `None` where they are not set.
    pub fn module_types_opt(&self) -> Option<&ModuleTypes>
        ensures { option_copied result ≡ self.now.module_types }
    {
        self.module_types.as_ref()
    }

    /// The module types, which are set, to change them.
    pub fn module_types_mut(&mut self) -> &mut ModuleTypes
        requires { IsSome self.old.module_types }
        ensures* writes_back { sem 𝓛 (LendsTypes self.entry result) }
        ensures value { self.old.module_types ≡ Some result.now }
    {
        self.module_types.as_mut().unwrap()
    }

    /// Sets the module types; those that were set before are dropped.
    pub fn set_module_types(&mut self, types: ModuleTypes)
        ensures { self.new ≡ record self.old { module_types = Some types } }
    {
        self.module_types = Some(types);
    }
}
