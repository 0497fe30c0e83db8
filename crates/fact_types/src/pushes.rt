//! New entries of the tables of types.
//!
//! Each call puts an entry behind the last one of its table and answers its index; all else stays. `TooLarge` comes
//! exactly where the table holds 4,294,967,295 entries. The tables are unchanged after a refusal.

ghost use Rattle.std.specs.Prelude.{◌≡◌, ◌↔◌, ◌<◌, ◌++◌, ◌∷◌, [], length, IfOk, OnOk, OnErr, Err};
ghost use Rattle.fact_types.specs.Tables.{Stands, record_node, variant_node, tuple_node, flags_node, enum_node, option_node, result_node, list_node, map_node, fixed_length_list_node, IsLiveMember, IsLiveFunc, AreLiveExterns, IsLiveComponent};

use crate::externs::{TypeComponent, TypeComponentInstance, TypeModule};
use crate::kinds::{
    TypeErrorContextTable, TypeFixedLengthList, TypeFunc, TypeFuture, TypeFutureTable, TypeList,
    TypeMap, TypeOption, TypeRecord, TypeResourceTable, TypeResult, TypeStream, TypeStreamTable,
    TypeTuple,
};
use crate::ordered::{TypeEnum, TypeFlags, TypeVariant};
use crate::tables::ComponentTypes;
use fact_entity::{
    PushError, TypeComponentIndex, TypeComponentInstanceIndex,
    TypeComponentLocalErrorContextTableIndex, TypeEnumIndex, TypeFixedLengthListIndex,
    TypeFlagsIndex, TypeFuncIndex, TypeFutureIndex, TypeFutureTableIndex, TypeListIndex,
    TypeMapIndex, TypeModuleIndex, TypeOptionIndex, TypeRecordIndex, TypeResourceTableIndex,
    TypeResultIndex, TypeStreamIndex, TypeStreamTableIndex, TypeTupleIndex, TypeVariantIndex,
};

impl ComponentTypes {
    /// Appends a type of core modules.
    pub fn push_module(&mut self, entry: TypeModule) -> Result<TypeModuleIndex, PushError>
        ensures key { IfOk result (λ k. k.number ≡ length self.old.modules) }
        ensures table { OnOk result (self.new ≡ record self.old { modules = self.old.modules ++ entry ∷ [] }) }
        ensures refused { OnErr result (self.new ≡ self.old) }
        ensures too_large { result ≡ Err PushError.TooLarge ↔ (length self.old.modules ≡ 4294967295) }
    {
        self.modules.push(entry)
    }

    /// Appends a type of components. Each type that its imports and exports name is live.
    pub fn push_component(&mut self, entry: TypeComponent) -> Result<TypeComponentIndex, PushError>
        requires { IsLiveComponent self.old entry }
        ensures key { IfOk result (λ k. k.number ≡ length self.old.components) }
        ensures table { OnOk result (self.new ≡ record self.old { components = self.old.components ++ entry ∷ [] }) }
        ensures refused { OnErr result (self.new ≡ self.old) }
        ensures too_large { result ≡ Err PushError.TooLarge ↔ (length self.old.components ≡ 4294967295) }
    {
        self.components.push(entry)
    }

    /// Appends a type of instances. Each type that its exports name is live.
    pub fn push_component_instance(
        &mut self,
        entry: TypeComponentInstance,
    ) -> Result<TypeComponentInstanceIndex, PushError>
        requires { AreLiveExterns self.old entry.exports }
        ensures key { IfOk result (λ k. k.number ≡ length self.old.component_instances) }
        ensures table { OnOk result (self.new ≡ record self.old { component_instances = self.old.component_instances ++ entry ∷ [] }) }
        ensures refused { OnErr result (self.new ≡ self.old) }
        ensures too_large { result ≡ Err PushError.TooLarge ↔ (length self.old.component_instances ≡ 4294967295) }
    {
        self.component_instances.push(entry)
    }

    /// Appends a function type. Its tuples are live.
    pub fn push_func(&mut self, entry: TypeFunc) -> Result<TypeFuncIndex, PushError>
        requires { IsLiveFunc self.old entry }
        ensures key { IfOk result (λ k. k.number ≡ length self.old.functions) }
        ensures table { OnOk result (self.new ≡ record self.old { functions = self.old.functions ++ entry ∷ [] }) }
        ensures refused { OnErr result (self.new ≡ self.old) }
        ensures too_large { result ≡ Err PushError.TooLarge ↔ (length self.old.functions ≡ 4294967295) }
    {
        self.functions.push(entry)
    }

    /// Appends a record type. Its fields have live types, and its layout is that of the fields.
    pub fn push_record(&mut self, entry: TypeRecord) -> Result<TypeRecordIndex, PushError>
        requires { Stands self.old (record_node entry) }
        ensures key { IfOk result (λ k. k.number ≡ length self.old.records) }
        ensures table { OnOk result (self.new ≡ record self.old { records = self.old.records ++ entry ∷ [] }) }
        ensures refused { OnErr result (self.new ≡ self.old) }
        ensures too_large { result ≡ Err PushError.TooLarge ↔ (length self.old.records ≡ 4294967295) }
    {
        self.records.push(entry)
    }

    /// Appends a variant type. Its payloads have live types, and its layout and places are those of the cases.
    pub fn push_variant(&mut self, entry: TypeVariant) -> Result<TypeVariantIndex, PushError>
        requires { Stands self.old (variant_node entry) }
        ensures key { IfOk result (λ k. k.number ≡ length self.old.variants) }
        ensures table { OnOk result (self.new ≡ record self.old { variants = self.old.variants ++ entry ∷ [] }) }
        ensures refused { OnErr result (self.new ≡ self.old) }
        ensures too_large { result ≡ Err PushError.TooLarge ↔ (length self.old.variants ≡ 4294967295) }
    {
        self.variants.push(entry)
    }

    /// Appends a tuple type. Its members have live types, and its layout is that of the members.
    pub fn push_tuple(&mut self, entry: TypeTuple) -> Result<TypeTupleIndex, PushError>
        requires { Stands self.old (tuple_node entry) }
        ensures key { IfOk result (λ k. k.number ≡ length self.old.tuples) }
        ensures table { OnOk result (self.new ≡ record self.old { tuples = self.old.tuples ++ entry ∷ [] }) }
        ensures refused { OnErr result (self.new ≡ self.old) }
        ensures too_large { result ≡ Err PushError.TooLarge ↔ (length self.old.tuples ≡ 4294967295) }
    {
        self.tuples.push(entry)
    }

    /// Appends a flags type. Its layout is that of its names.
    pub fn push_flags(&mut self, entry: TypeFlags) -> Result<TypeFlagsIndex, PushError>
        requires { Stands self.old (flags_node entry) }
        ensures key { IfOk result (λ k. k.number ≡ length self.old.flags) }
        ensures table { OnOk result (self.new ≡ record self.old { flags = self.old.flags ++ entry ∷ [] }) }
        ensures refused { OnErr result (self.new ≡ self.old) }
        ensures too_large { result ≡ Err PushError.TooLarge ↔ (length self.old.flags ≡ 4294967295) }
    {
        self.flags.push(entry)
    }

    /// Appends an enum type. Its layout and places are those of its names.
    pub fn push_enum(&mut self, entry: TypeEnum) -> Result<TypeEnumIndex, PushError>
        requires { Stands self.old (enum_node entry) }
        ensures key { IfOk result (λ k. k.number ≡ length self.old.enums) }
        ensures table { OnOk result (self.new ≡ record self.old { enums = self.old.enums ++ entry ∷ [] }) }
        ensures refused { OnErr result (self.new ≡ self.old) }
        ensures too_large { result ≡ Err PushError.TooLarge ↔ (length self.old.enums ≡ 4294967295) }
    {
        self.enums.push(entry)
    }

    /// Appends an option type. Its payload has a live type, and its layout and places are those of the cases.
    pub fn push_option(&mut self, entry: TypeOption) -> Result<TypeOptionIndex, PushError>
        requires { Stands self.old (option_node entry) }
        ensures key { IfOk result (λ k. k.number ≡ length self.old.options) }
        ensures table { OnOk result (self.new ≡ record self.old { options = self.old.options ++ entry ∷ [] }) }
        ensures refused { OnErr result (self.new ≡ self.old) }
        ensures too_large { result ≡ Err PushError.TooLarge ↔ (length self.old.options ≡ 4294967295) }
    {
        self.options.push(entry)
    }

    /// Appends a result type. Its payloads have live types, and its layout and places are those of the cases.
    pub fn push_result(&mut self, entry: TypeResult) -> Result<TypeResultIndex, PushError>
        requires { Stands self.old (result_node entry) }
        ensures key { IfOk result (λ k. k.number ≡ length self.old.results) }
        ensures table { OnOk result (self.new ≡ record self.old { results = self.old.results ++ entry ∷ [] }) }
        ensures refused { OnErr result (self.new ≡ self.old) }
        ensures too_large { result ≡ Err PushError.TooLarge ↔ (length self.old.results ≡ 4294967295) }
    {
        self.results.push(entry)
    }

    /// Appends a list type. Its elements have a live type.
    pub fn push_list(&mut self, entry: TypeList) -> Result<TypeListIndex, PushError>
        requires { Stands self.old (list_node entry) }
        ensures key { IfOk result (λ k. k.number ≡ length self.old.lists) }
        ensures table { OnOk result (self.new ≡ record self.old { lists = self.old.lists ++ entry ∷ [] }) }
        ensures refused { OnErr result (self.new ≡ self.old) }
        ensures too_large { result ≡ Err PushError.TooLarge ↔ (length self.old.lists ≡ 4294967295) }
    {
        self.lists.push(entry)
    }

    /// Appends a map type. Its keys and values have live types, and the layout of its entries is that of key and value.
    pub fn push_map(&mut self, entry: TypeMap) -> Result<TypeMapIndex, PushError>
        requires { Stands self.old (map_node entry) }
        ensures key { IfOk result (λ k. k.number ≡ length self.old.maps) }
        ensures table { OnOk result (self.new ≡ record self.old { maps = self.old.maps ++ entry ∷ [] }) }
        ensures refused { OnErr result (self.new ≡ self.old) }
        ensures too_large { result ≡ Err PushError.TooLarge ↔ (length self.old.maps ≡ 4294967295) }
    {
        self.maps.push(entry)
    }

    /// Appends a type of lists of fixed length. Its elements have a live type, and its layout is that of the elements.
    pub fn push_fixed_length_list(
        &mut self,
        entry: TypeFixedLengthList,
    ) -> Result<TypeFixedLengthListIndex, PushError>
        requires { Stands self.old (fixed_length_list_node entry) }
        ensures key { IfOk result (λ k. k.number ≡ length self.old.fixed_length_lists) }
        ensures table { OnOk result (self.new ≡ record self.old { fixed_length_lists = self.old.fixed_length_lists ++ entry ∷ [] }) }
        ensures refused { OnErr result (self.new ≡ self.old) }
        ensures too_large { result ≡ Err PushError.TooLarge ↔ (length self.old.fixed_length_lists ≡ 4294967295) }
    {
        self.fixed_length_lists.push(entry)
    }

    /// Appends a future type. Its payload has a live type.
    pub fn push_future(&mut self, entry: TypeFuture) -> Result<TypeFutureIndex, PushError>
        requires { IsLiveMember self.old entry.payload }
        ensures key { IfOk result (λ k. k.number ≡ length self.old.futures) }
        ensures table { OnOk result (self.new ≡ record self.old { futures = self.old.futures ++ entry ∷ [] }) }
        ensures refused { OnErr result (self.new ≡ self.old) }
        ensures too_large { result ≡ Err PushError.TooLarge ↔ (length self.old.futures ≡ 4294967295) }
    {
        self.futures.push(entry)
    }

    /// Appends a table of futures. Its future type is live.
    pub fn push_future_table(
        &mut self,
        entry: TypeFutureTable,
    ) -> Result<TypeFutureTableIndex, PushError>
        requires { entry.ty.number < length self.old.futures }
        ensures key { IfOk result (λ k. k.number ≡ length self.old.future_tables) }
        ensures table { OnOk result (self.new ≡ record self.old { future_tables = self.old.future_tables ++ entry ∷ [] }) }
        ensures refused { OnErr result (self.new ≡ self.old) }
        ensures too_large { result ≡ Err PushError.TooLarge ↔ (length self.old.future_tables ≡ 4294967295) }
    {
        self.future_tables.push(entry)
    }

    /// Appends a stream type. Its payload has a live type.
    pub fn push_stream(&mut self, entry: TypeStream) -> Result<TypeStreamIndex, PushError>
        requires { IsLiveMember self.old entry.payload }
        ensures key { IfOk result (λ k. k.number ≡ length self.old.streams) }
        ensures table { OnOk result (self.new ≡ record self.old { streams = self.old.streams ++ entry ∷ [] }) }
        ensures refused { OnErr result (self.new ≡ self.old) }
        ensures too_large { result ≡ Err PushError.TooLarge ↔ (length self.old.streams ≡ 4294967295) }
    {
        self.streams.push(entry)
    }

    /// Appends a table of streams. Its stream type is live.
    pub fn push_stream_table(
        &mut self,
        entry: TypeStreamTable,
    ) -> Result<TypeStreamTableIndex, PushError>
        requires { entry.ty.number < length self.old.streams }
        ensures key { IfOk result (λ k. k.number ≡ length self.old.stream_tables) }
        ensures table { OnOk result (self.new ≡ record self.old { stream_tables = self.old.stream_tables ++ entry ∷ [] }) }
        ensures refused { OnErr result (self.new ≡ self.old) }
        ensures too_large { result ≡ Err PushError.TooLarge ↔ (length self.old.stream_tables ≡ 4294967295) }
    {
        self.stream_tables.push(entry)
    }

    /// Appends a table of error contexts.
    pub fn push_error_context_table(
        &mut self,
        entry: TypeErrorContextTable,
    ) -> Result<TypeComponentLocalErrorContextTableIndex, PushError>
        ensures key { IfOk result (λ k. k.number ≡ length self.old.error_context_tables) }
        ensures table { OnOk result (self.new ≡ record self.old { error_context_tables = self.old.error_context_tables ++ entry ∷ [] }) }
        ensures refused { OnErr result (self.new ≡ self.old) }
        ensures too_large { result ≡ Err PushError.TooLarge ↔ (length self.old.error_context_tables ≡ 4294967295) }
    {
        self.error_context_tables.push(entry)
    }

    /// Appends a table of the handles of a resource.
    pub fn push_resource_table(
        &mut self,
        entry: TypeResourceTable,
    ) -> Result<TypeResourceTableIndex, PushError>
        ensures key { IfOk result (λ k. k.number ≡ length self.old.resource_tables) }
        ensures table { OnOk result (self.new ≡ record self.old { resource_tables = self.old.resource_tables ++ entry ∷ [] }) }
        ensures refused { OnErr result (self.new ≡ self.old) }
        ensures too_large { result ≡ Err PushError.TooLarge ↔ (length self.old.resource_tables ≡ 4294967295) }
    {
        self.resource_tables.push(entry)
    }
}
