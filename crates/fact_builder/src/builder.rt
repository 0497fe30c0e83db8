//! The builder of component types.

ghost use Rattle.std.specs.Prelude.{◌≡◌, ◌↔◌, ◌++◌, ◌∷◌, [], length, Some, IfOk, OnOk, OnErr, Err};
ghost use Rattle.std.specs.Borrow.{sem};
ghost use Rattle.fact_builder.specs.Builder.{no_types};
ghost use Rattle.fact_builder.specs.Keeps.{Keeps};
ghost use Rattle.fact_builder.specs.Lending.{LendsModuleTypes, LendsResources};

use crate::ResourcesBuilder;
use crate::known_types::KnownTypes;
use fact_entity::{EntityRef, Interner, PushError};
use fact_types::{
    ComponentTypes, ModuleTypesBuilder, TypeComponentLocalErrorContextTableIndex, TypeEnum,
    TypeEnumIndex, TypeErrorContextTable, TypeFixedLengthList, TypeFixedLengthListIndex, TypeFlags,
    TypeFlagsIndex, TypeFunc, TypeFuncIndex, TypeFuture, TypeFutureIndex, TypeFutureTable,
    TypeFutureTableIndex, TypeList, TypeListIndex, TypeMap, TypeMapIndex, TypeOption,
    TypeOptionIndex, TypeRecord, TypeRecordIndex, TypeResourceTable, TypeResourceTableIndex,
    TypeResult, TypeResultIndex, TypeStream, TypeStreamIndex, TypeStreamTable,
    TypeStreamTableIndex, TypeTuple, TypeTupleIndex, TypeVariant, TypeVariantIndex,
};
use std::alloc::Global;
use std::marker::Model;

/// Tables of types with one entry of each type, core function types, and what is known of the resources of the source whose
/// types are converted. Contracts see it as the number of that source, the tables, the list of the core function types, the
/// resources, and how many abstract ones have numbers. At all times equal types have one index.
pub struct ComponentTypesBuilder {
    pub(crate) source: u64,
    pub(crate) types: KnownTypes,
    pub(crate) module_types: ModuleTypesBuilder,
    pub(crate) functions: Interner<TypeFuncIndex, TypeFunc>,
    pub(crate) records: Interner<TypeRecordIndex, TypeRecord>,
    pub(crate) flags: Interner<TypeFlagsIndex, TypeFlags>,
    pub(crate) tuples: Interner<TypeTupleIndex, TypeTuple>,
    pub(crate) fixed_length_lists: Interner<TypeFixedLengthListIndex, TypeFixedLengthList>,
    pub(crate) variants: Interner<TypeVariantIndex, TypeVariant>,
    pub(crate) enums: Interner<TypeEnumIndex, TypeEnum>,
    pub(crate) options: Interner<TypeOptionIndex, TypeOption>,
    pub(crate) results: Interner<TypeResultIndex, TypeResult>,
    pub(crate) lists: Interner<TypeListIndex, TypeList>,
    pub(crate) maps: Interner<TypeMapIndex, TypeMap>,
    pub(crate) futures: Interner<TypeFutureIndex, TypeFuture>,
    pub(crate) future_tables: Interner<TypeFutureTableIndex, TypeFutureTable>,
    pub(crate) streams: Interner<TypeStreamIndex, TypeStream>,
    pub(crate) stream_tables: Interner<TypeStreamTableIndex, TypeStreamTable>,
    pub(crate) error_context_tables: Interner<
        TypeComponentLocalErrorContextTableIndex,
        TypeErrorContextTable,
    >,
    pub(crate) resource_table_count: usize,
    pub(crate) resources: ResourcesBuilder,
    pub(crate) abstracts: u32,
}

impl Model for ComponentTypesBuilder {
    ghost use Rattle.std.specs.Prelude.{◌≡◌, length};
    ghost use Rattle.fact_builder.specs.Builder.{Builder};

    ghost Value = { Builder };

    ghost view = { λ b. record { source = b.source; tables = b.types; module_types = b.module_types; resources = b.resources; abstracts = b.abstracts } };

    // the entries that are found by their value are those of the tables, and the resource tables are counted
    ghost invariant = { λ b. (record b.types { functions = b.functions; records = b.records; flags = b.flags; tuples = b.tuples; fixed_length_lists = b.fixed_length_lists; variants = b.variants; enums = b.enums; options = b.options; results = b.results; lists = b.lists; maps = b.maps; futures = b.futures; future_tables = b.future_tables; streams = b.streams; stream_tables = b.stream_tables; error_context_tables = b.error_context_tables } ≡ b.types) × (b.resource_table_count ≡ length b.types.resource_tables) };
}

// Written out, it is proved here once, where a derived one is proved anew in each crate that owns a builder. Each part is
// dropped by a call: the walk of the end of a scope with so many parts does not end.
impl Drop for ComponentTypesBuilder {
    fn drop(self) {
        let ComponentTypesBuilder {
            source: _,
            types,
            module_types,
            functions,
            records,
            flags,
            tuples,
            fixed_length_lists,
            variants,
            enums,
            options,
            results,
            lists,
            maps,
            futures,
            future_tables,
            streams,
            stream_tables,
            error_context_tables,
            resource_table_count: _,
            resources,
            abstracts: _,
        } = self;
        drop(resources);
        drop(error_context_tables);
        drop(stream_tables);
        drop(streams);
        drop(future_tables);
        drop(futures);
        drop(maps);
        drop(lists);
        drop(results);
        drop(options);
        drop(enums);
        drop(variants);
        drop(fixed_length_lists);
        drop(tuples);
        drop(flags);
        drop(records);
        drop(functions);
        drop(module_types);
        drop(types);
    }
}

impl ComponentTypesBuilder {
    /// A builder without types and resources, for those of the source of a number. It takes no memory.
    pub fn new(alloc: Global, source: u64) -> ComponentTypesBuilder
        ensures { result ≡ no_types source }
    {
        ComponentTypesBuilder {
            source,
            types: KnownTypes::new(alloc),
            module_types: ModuleTypesBuilder::new(alloc, source),
            functions: Interner::new(alloc),
            records: Interner::new(alloc),
            flags: Interner::new(alloc),
            tuples: Interner::new(alloc),
            fixed_length_lists: Interner::new(alloc),
            variants: Interner::new(alloc),
            enums: Interner::new(alloc),
            options: Interner::new(alloc),
            results: Interner::new(alloc),
            lists: Interner::new(alloc),
            maps: Interner::new(alloc),
            futures: Interner::new(alloc),
            future_tables: Interner::new(alloc),
            streams: Interner::new(alloc),
            stream_tables: Interner::new(alloc),
            error_context_tables: Interner::new(alloc),
            resource_table_count: 0,
            resources: ResourcesBuilder::new(alloc),
            abstracts: 0,
        }
    }

    /// The number of the source that types come from.
    pub fn source(&self) -> u64
        ensures { result ≡ self.now.source }
    {
        self.source
    }

    /// The allocator.
    pub fn allocator(&self) -> Global {
        self.types.allocator()
    }

    /// What is known of the resources.
    pub fn resources(&self) -> &ResourcesBuilder
        ensures { result.now ≡ self.now.resources }
    {
        &self.resources
    }

    /// What is known of the resources, to set an instance or to register some.
    pub fn resources_mut(&mut self) -> &mut ResourcesBuilder
        ensures* writes_back { sem 𝓛 (LendsResources self.entry result) }
        ensures value { result.now ≡ self.old.resources }
    {
        &mut self.resources
    }

    /// The tables so far.
    pub fn component_types(&self) -> &ComponentTypes
        ensures { result.now ≡ self.now.tables }
    {
        self.types.tables()
    }

    /// The core function types.
    pub fn module_types_builder(&self) -> &ModuleTypesBuilder
        ensures { result.now ≡ self.now.module_types }
    {
        &self.module_types
    }

    /// The core function types, to add to them.
    pub fn module_types_builder_mut(&mut self) -> &mut ModuleTypesBuilder
        ensures* writes_back { sem 𝓛 (LendsModuleTypes self.entry result) }
        ensures value { result.now ≡ self.old.module_types }
    {
        &mut self.module_types
    }

    /// Appends a table of the handles of a resource; a table that is equal to another one gets an index of its own.
    /// `TooLarge` comes exactly where there are 4,294,967,295. The builder is unchanged after a refusal.
    pub fn push_resource_table(
        &mut self,
        table: TypeResourceTable,
    ) -> Result<TypeResourceTableIndex, PushError>
        ensures key { IfOk result (λ k. k.number ≡ length self.old.tables.resource_tables) }
        ensures table { OnOk result (self.new ≡ record self.old { tables = record self.old.tables { resource_tables = self.old.tables.resource_tables ++ table ∷ [] } }) }
        ensures refused { OnErr result (self.new ≡ self.old) }
        ensures keeps { Keeps self.old.tables self.new.tables }
        ensures too_large { result ≡ Err PushError.TooLarge ↔ (length self.old.tables.resource_tables ≡ 4294967295) }
    {
        let k = self.types.push_resource_table(table)?;
        self.resource_table_count = k.as_u32() as usize + 1;
        Ok(k)
    }

    /// The number of tables of the handles of resources.
    pub fn num_resource_tables(&self) -> usize
        ensures { result ≡ length self.now.tables.resource_tables }
    {
        self.resource_table_count
    }

    /// The number of tables of futures.
    pub fn num_future_tables(&self) -> usize
        ensures { result ≡ length self.now.tables.future_tables }
    {
        self.future_tables.len()
    }

    /// The number of tables of streams.
    pub fn num_stream_tables(&self) -> usize
        ensures { result ≡ length self.now.tables.stream_tables }
    {
        self.stream_tables.len()
    }

    /// The number of tables of error contexts.
    pub fn num_error_context_tables(&self) -> usize
        ensures { result ≡ length self.now.tables.error_context_tables }
    {
        self.error_context_tables.len()
    }

    /// The tables, with the core function types.
    pub fn into_types(self) -> ComponentTypes
        ensures { result ≡ record self.tables { module_types = Some self.module_types } }
    {
        let ComponentTypesBuilder {
            source: _,
            types,
            module_types,
            functions,
            records,
            flags,
            tuples,
            fixed_length_lists,
            variants,
            enums,
            options,
            results,
            lists,
            maps,
            futures,
            future_tables,
            streams,
            stream_tables,
            error_context_tables,
            resource_table_count: _,
            resources,
            abstracts: _,
        } = self;
        drop(resources);
        drop(error_context_tables);
        drop(stream_tables);
        drop(streams);
        drop(future_tables);
        drop(futures);
        drop(maps);
        drop(lists);
        drop(results);
        drop(options);
        drop(enums);
        drop(variants);
        drop(fixed_length_lists);
        drop(tuples);
        drop(flags);
        drop(records);
        drop(functions);
        let mut tables = types.into_tables();
        tables.set_module_types(module_types.finish());
        tables
    }
}
