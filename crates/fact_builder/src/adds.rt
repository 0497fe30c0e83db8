//! New types.
//!
//! Each call answers the index at which its table holds this type. Where the type is new, it is put behind the last one.
//! No other table changes, and earlier indices keep their types. A type that is there already is not refused. `TooLarge`
//! comes exactly where the type is new and the table holds 4,294,967,295. The builder is unchanged after a refusal.

ghost use Rattle.std.specs.Prelude.{◌≡◌, ◌↔◌, ◌<◌, length, position, slice_get, IsSome, IsOk, IfOk, OnOk, OnErr, Err, Some, None};
ghost use Rattle.fact_entity.specs.Places.{IsInterned};
ghost use Rattle.fact_types.specs.Tables.{Stands, record_node, flags_node, tuple_node, fixed_length_list_node, variant_node, enum_node, option_node, result_node, list_node, map_node, IsLiveMember, IsLiveFunc};
ghost use Rattle.fact_builder.specs.Keeps.{Keeps};

use crate::builder::ComponentTypesBuilder;
use crate::entry::add;
use fact_entity::PushError;
use fact_types::{
    TypeComponentLocalErrorContextTableIndex, TypeEnum, TypeEnumIndex, TypeErrorContextTable,
    TypeFixedLengthList, TypeFixedLengthListIndex, TypeFlags, TypeFlagsIndex, TypeFunc,
    TypeFuncIndex, TypeFuture, TypeFutureIndex, TypeFutureTable, TypeFutureTableIndex, TypeList,
    TypeListIndex, TypeMap, TypeMapIndex, TypeOption, TypeOptionIndex, TypeRecord, TypeRecordIndex,
    TypeResult, TypeResultIndex, TypeStream, TypeStreamIndex, TypeStreamTable,
    TypeStreamTableIndex, TypeTuple, TypeTupleIndex, TypeVariant, TypeVariantIndex,
};

impl ComponentTypesBuilder {
    /// Adds a function type. Its tuples are live.
    pub fn add_func_type(&mut self, ty: TypeFunc) -> Result<TypeFuncIndex, PushError>
        requires { IsLiveFunc self.old.tables ty }
        ensures interned { IfOk result (λ k. IsInterned ⟦<TypeFunc as PartialEq>⟧.eq self.old.tables.functions self.new.tables.functions ty k.number) }
        ensures entry { IfOk result (λ k. slice_get self.new.tables.functions k.number ≡ Some ty) }
        ensures rest { OnOk result (self.new ≡ record self.old { tables = record self.old.tables { functions = self.new.tables.functions } }) }
        ensures refused { OnErr result (self.new ≡ self.old) }
        ensures keeps { Keeps self.old.tables self.new.tables }
        ensures found { IsSome (position (⟦<TypeFunc as PartialEq>⟧.eq ty) self.old.tables.functions) → IsOk result }
        ensures too_large { result ≡ Err PushError.TooLarge ↔ ((position (⟦<TypeFunc as PartialEq>⟧.eq ty) self.old.tables.functions ≡ None) × (length self.old.tables.functions ≡ 4294967295)) }
    {
        add(&mut self.types, &mut self.functions, ty)
    }

    /// Adds a record type. Its fields have live types, and its layout is that of the fields.
    pub fn add_record_type(&mut self, ty: TypeRecord) -> Result<TypeRecordIndex, PushError>
        requires { Stands self.old.tables (record_node ty) }
        ensures interned { IfOk result (λ k. IsInterned ⟦<TypeRecord as PartialEq>⟧.eq self.old.tables.records self.new.tables.records ty k.number) }
        ensures entry { IfOk result (λ k. slice_get self.new.tables.records k.number ≡ Some ty) }
        ensures rest { OnOk result (self.new ≡ record self.old { tables = record self.old.tables { records = self.new.tables.records } }) }
        ensures refused { OnErr result (self.new ≡ self.old) }
        ensures keeps { Keeps self.old.tables self.new.tables }
        ensures found { IsSome (position (⟦<TypeRecord as PartialEq>⟧.eq ty) self.old.tables.records) → IsOk result }
        ensures too_large { result ≡ Err PushError.TooLarge ↔ ((position (⟦<TypeRecord as PartialEq>⟧.eq ty) self.old.tables.records ≡ None) × (length self.old.tables.records ≡ 4294967295)) }
    {
        add(&mut self.types, &mut self.records, ty)
    }

    /// Adds a flags type. Its layout is that of its names.
    pub fn add_flags_type(&mut self, ty: TypeFlags) -> Result<TypeFlagsIndex, PushError>
        requires { Stands self.old.tables (flags_node ty) }
        ensures interned { IfOk result (λ k. IsInterned ⟦<TypeFlags as PartialEq>⟧.eq self.old.tables.flags self.new.tables.flags ty k.number) }
        ensures entry { IfOk result (λ k. slice_get self.new.tables.flags k.number ≡ Some ty) }
        ensures rest { OnOk result (self.new ≡ record self.old { tables = record self.old.tables { flags = self.new.tables.flags } }) }
        ensures refused { OnErr result (self.new ≡ self.old) }
        ensures keeps { Keeps self.old.tables self.new.tables }
        ensures found { IsSome (position (⟦<TypeFlags as PartialEq>⟧.eq ty) self.old.tables.flags) → IsOk result }
        ensures too_large { result ≡ Err PushError.TooLarge ↔ ((position (⟦<TypeFlags as PartialEq>⟧.eq ty) self.old.tables.flags ≡ None) × (length self.old.tables.flags ≡ 4294967295)) }
    {
        add(&mut self.types, &mut self.flags, ty)
    }

    /// Adds a tuple type. Its members have live types, and its layout is that of the members.
    pub fn add_tuple_type(&mut self, ty: TypeTuple) -> Result<TypeTupleIndex, PushError>
        requires { Stands self.old.tables (tuple_node ty) }
        ensures interned { IfOk result (λ k. IsInterned ⟦<TypeTuple as PartialEq>⟧.eq self.old.tables.tuples self.new.tables.tuples ty k.number) }
        ensures entry { IfOk result (λ k. slice_get self.new.tables.tuples k.number ≡ Some ty) }
        ensures rest { OnOk result (self.new ≡ record self.old { tables = record self.old.tables { tuples = self.new.tables.tuples } }) }
        ensures refused { OnErr result (self.new ≡ self.old) }
        ensures keeps { Keeps self.old.tables self.new.tables }
        ensures found { IsSome (position (⟦<TypeTuple as PartialEq>⟧.eq ty) self.old.tables.tuples) → IsOk result }
        ensures too_large { result ≡ Err PushError.TooLarge ↔ ((position (⟦<TypeTuple as PartialEq>⟧.eq ty) self.old.tables.tuples ≡ None) × (length self.old.tables.tuples ≡ 4294967295)) }
    {
        add(&mut self.types, &mut self.tuples, ty)
    }

    /// Adds a type of lists of fixed length. Its elements have a live type, and its layout is that of the elements.
    pub fn add_fixed_length_list_type(
        &mut self,
        ty: TypeFixedLengthList,
    ) -> Result<TypeFixedLengthListIndex, PushError>
        requires { Stands self.old.tables (fixed_length_list_node ty) }
        ensures interned { IfOk result (λ k. IsInterned ⟦<TypeFixedLengthList as PartialEq>⟧.eq self.old.tables.fixed_length_lists self.new.tables.fixed_length_lists ty k.number) }
        ensures entry { IfOk result (λ k. slice_get self.new.tables.fixed_length_lists k.number ≡ Some ty) }
        ensures rest { OnOk result (self.new ≡ record self.old { tables = record self.old.tables { fixed_length_lists = self.new.tables.fixed_length_lists } }) }
        ensures refused { OnErr result (self.new ≡ self.old) }
        ensures keeps { Keeps self.old.tables self.new.tables }
        ensures found { IsSome (position (⟦<TypeFixedLengthList as PartialEq>⟧.eq ty) self.old.tables.fixed_length_lists) → IsOk result }
        ensures too_large { result ≡ Err PushError.TooLarge ↔ ((position (⟦<TypeFixedLengthList as PartialEq>⟧.eq ty) self.old.tables.fixed_length_lists ≡ None) × (length self.old.tables.fixed_length_lists ≡ 4294967295)) }
    {
        add(&mut self.types, &mut self.fixed_length_lists, ty)
    }

    /// Adds a variant type. Its payloads have live types, and its layout and places are those of the cases.
    pub fn add_variant_type(&mut self, ty: TypeVariant) -> Result<TypeVariantIndex, PushError>
        requires { Stands self.old.tables (variant_node ty) }
        ensures interned { IfOk result (λ k. IsInterned ⟦<TypeVariant as PartialEq>⟧.eq self.old.tables.variants self.new.tables.variants ty k.number) }
        ensures entry { IfOk result (λ k. slice_get self.new.tables.variants k.number ≡ Some ty) }
        ensures rest { OnOk result (self.new ≡ record self.old { tables = record self.old.tables { variants = self.new.tables.variants } }) }
        ensures refused { OnErr result (self.new ≡ self.old) }
        ensures keeps { Keeps self.old.tables self.new.tables }
        ensures found { IsSome (position (⟦<TypeVariant as PartialEq>⟧.eq ty) self.old.tables.variants) → IsOk result }
        ensures too_large { result ≡ Err PushError.TooLarge ↔ ((position (⟦<TypeVariant as PartialEq>⟧.eq ty) self.old.tables.variants ≡ None) × (length self.old.tables.variants ≡ 4294967295)) }
    {
        add(&mut self.types, &mut self.variants, ty)
    }

    /// Adds an enum type. Its layout and places are those of its names.
    pub fn add_enum_type(&mut self, ty: TypeEnum) -> Result<TypeEnumIndex, PushError>
        requires { Stands self.old.tables (enum_node ty) }
        ensures interned { IfOk result (λ k. IsInterned ⟦<TypeEnum as PartialEq>⟧.eq self.old.tables.enums self.new.tables.enums ty k.number) }
        ensures entry { IfOk result (λ k. slice_get self.new.tables.enums k.number ≡ Some ty) }
        ensures rest { OnOk result (self.new ≡ record self.old { tables = record self.old.tables { enums = self.new.tables.enums } }) }
        ensures refused { OnErr result (self.new ≡ self.old) }
        ensures keeps { Keeps self.old.tables self.new.tables }
        ensures found { IsSome (position (⟦<TypeEnum as PartialEq>⟧.eq ty) self.old.tables.enums) → IsOk result }
        ensures too_large { result ≡ Err PushError.TooLarge ↔ ((position (⟦<TypeEnum as PartialEq>⟧.eq ty) self.old.tables.enums ≡ None) × (length self.old.tables.enums ≡ 4294967295)) }
    {
        add(&mut self.types, &mut self.enums, ty)
    }

    /// Adds an option type. Its payload has a live type, and its layout and places are those of the cases.
    pub fn add_option_type(&mut self, ty: TypeOption) -> Result<TypeOptionIndex, PushError>
        requires { Stands self.old.tables (option_node ty) }
        ensures interned { IfOk result (λ k. IsInterned ⟦<TypeOption as PartialEq>⟧.eq self.old.tables.options self.new.tables.options ty k.number) }
        ensures entry { IfOk result (λ k. slice_get self.new.tables.options k.number ≡ Some ty) }
        ensures rest { OnOk result (self.new ≡ record self.old { tables = record self.old.tables { options = self.new.tables.options } }) }
        ensures refused { OnErr result (self.new ≡ self.old) }
        ensures keeps { Keeps self.old.tables self.new.tables }
        ensures found { IsSome (position (⟦<TypeOption as PartialEq>⟧.eq ty) self.old.tables.options) → IsOk result }
        ensures too_large { result ≡ Err PushError.TooLarge ↔ ((position (⟦<TypeOption as PartialEq>⟧.eq ty) self.old.tables.options ≡ None) × (length self.old.tables.options ≡ 4294967295)) }
    {
        add(&mut self.types, &mut self.options, ty)
    }

    /// Adds a result type. Its payloads have live types, and its layout and places are those of the cases.
    pub fn add_result_type(&mut self, ty: TypeResult) -> Result<TypeResultIndex, PushError>
        requires { Stands self.old.tables (result_node ty) }
        ensures interned { IfOk result (λ k. IsInterned ⟦<TypeResult as PartialEq>⟧.eq self.old.tables.results self.new.tables.results ty k.number) }
        ensures entry { IfOk result (λ k. slice_get self.new.tables.results k.number ≡ Some ty) }
        ensures rest { OnOk result (self.new ≡ record self.old { tables = record self.old.tables { results = self.new.tables.results } }) }
        ensures refused { OnErr result (self.new ≡ self.old) }
        ensures keeps { Keeps self.old.tables self.new.tables }
        ensures found { IsSome (position (⟦<TypeResult as PartialEq>⟧.eq ty) self.old.tables.results) → IsOk result }
        ensures too_large { result ≡ Err PushError.TooLarge ↔ ((position (⟦<TypeResult as PartialEq>⟧.eq ty) self.old.tables.results ≡ None) × (length self.old.tables.results ≡ 4294967295)) }
    {
        add(&mut self.types, &mut self.results, ty)
    }

    /// Adds a list type. Its elements have a live type.
    pub fn add_list_type(&mut self, ty: TypeList) -> Result<TypeListIndex, PushError>
        requires { Stands self.old.tables (list_node ty) }
        ensures interned { IfOk result (λ k. IsInterned ⟦<TypeList as PartialEq>⟧.eq self.old.tables.lists self.new.tables.lists ty k.number) }
        ensures entry { IfOk result (λ k. slice_get self.new.tables.lists k.number ≡ Some ty) }
        ensures rest { OnOk result (self.new ≡ record self.old { tables = record self.old.tables { lists = self.new.tables.lists } }) }
        ensures refused { OnErr result (self.new ≡ self.old) }
        ensures keeps { Keeps self.old.tables self.new.tables }
        ensures found { IsSome (position (⟦<TypeList as PartialEq>⟧.eq ty) self.old.tables.lists) → IsOk result }
        ensures too_large { result ≡ Err PushError.TooLarge ↔ ((position (⟦<TypeList as PartialEq>⟧.eq ty) self.old.tables.lists ≡ None) × (length self.old.tables.lists ≡ 4294967295)) }
    {
        add(&mut self.types, &mut self.lists, ty)
    }

    /// Adds a map type. Its keys and values have live types, and the layout of its entries is that of key and value.
    pub fn add_map_type(&mut self, ty: TypeMap) -> Result<TypeMapIndex, PushError>
        requires { Stands self.old.tables (map_node ty) }
        ensures interned { IfOk result (λ k. IsInterned ⟦<TypeMap as PartialEq>⟧.eq self.old.tables.maps self.new.tables.maps ty k.number) }
        ensures entry { IfOk result (λ k. slice_get self.new.tables.maps k.number ≡ Some ty) }
        ensures rest { OnOk result (self.new ≡ record self.old { tables = record self.old.tables { maps = self.new.tables.maps } }) }
        ensures refused { OnErr result (self.new ≡ self.old) }
        ensures keeps { Keeps self.old.tables self.new.tables }
        ensures found { IsSome (position (⟦<TypeMap as PartialEq>⟧.eq ty) self.old.tables.maps) → IsOk result }
        ensures too_large { result ≡ Err PushError.TooLarge ↔ ((position (⟦<TypeMap as PartialEq>⟧.eq ty) self.old.tables.maps ≡ None) × (length self.old.tables.maps ≡ 4294967295)) }
    {
        add(&mut self.types, &mut self.maps, ty)
    }

    /// Adds a future type. Its payload has a live type.
    pub fn add_future_type(&mut self, ty: TypeFuture) -> Result<TypeFutureIndex, PushError>
        requires { IsLiveMember self.old.tables ty.payload }
        ensures interned { IfOk result (λ k. IsInterned ⟦<TypeFuture as PartialEq>⟧.eq self.old.tables.futures self.new.tables.futures ty k.number) }
        ensures entry { IfOk result (λ k. slice_get self.new.tables.futures k.number ≡ Some ty) }
        ensures rest { OnOk result (self.new ≡ record self.old { tables = record self.old.tables { futures = self.new.tables.futures } }) }
        ensures refused { OnErr result (self.new ≡ self.old) }
        ensures keeps { Keeps self.old.tables self.new.tables }
        ensures found { IsSome (position (⟦<TypeFuture as PartialEq>⟧.eq ty) self.old.tables.futures) → IsOk result }
        ensures too_large { result ≡ Err PushError.TooLarge ↔ ((position (⟦<TypeFuture as PartialEq>⟧.eq ty) self.old.tables.futures ≡ None) × (length self.old.tables.futures ≡ 4294967295)) }
    {
        add(&mut self.types, &mut self.futures, ty)
    }

    /// Adds a table of futures. Its future type is live.
    pub fn add_future_table_type(
        &mut self,
        ty: TypeFutureTable,
    ) -> Result<TypeFutureTableIndex, PushError>
        requires { ty.ty.number < length self.old.tables.futures }
        ensures interned { IfOk result (λ k. IsInterned ⟦<TypeFutureTable as PartialEq>⟧.eq self.old.tables.future_tables self.new.tables.future_tables ty k.number) }
        ensures entry { IfOk result (λ k. slice_get self.new.tables.future_tables k.number ≡ Some ty) }
        ensures rest { OnOk result (self.new ≡ record self.old { tables = record self.old.tables { future_tables = self.new.tables.future_tables } }) }
        ensures refused { OnErr result (self.new ≡ self.old) }
        ensures keeps { Keeps self.old.tables self.new.tables }
        ensures found { IsSome (position (⟦<TypeFutureTable as PartialEq>⟧.eq ty) self.old.tables.future_tables) → IsOk result }
        ensures too_large { result ≡ Err PushError.TooLarge ↔ ((position (⟦<TypeFutureTable as PartialEq>⟧.eq ty) self.old.tables.future_tables ≡ None) × (length self.old.tables.future_tables ≡ 4294967295)) }
    {
        add(&mut self.types, &mut self.future_tables, ty)
    }

    /// Adds a stream type. Its payload has a live type.
    pub fn add_stream_type(&mut self, ty: TypeStream) -> Result<TypeStreamIndex, PushError>
        requires { IsLiveMember self.old.tables ty.payload }
        ensures interned { IfOk result (λ k. IsInterned ⟦<TypeStream as PartialEq>⟧.eq self.old.tables.streams self.new.tables.streams ty k.number) }
        ensures entry { IfOk result (λ k. slice_get self.new.tables.streams k.number ≡ Some ty) }
        ensures rest { OnOk result (self.new ≡ record self.old { tables = record self.old.tables { streams = self.new.tables.streams } }) }
        ensures refused { OnErr result (self.new ≡ self.old) }
        ensures keeps { Keeps self.old.tables self.new.tables }
        ensures found { IsSome (position (⟦<TypeStream as PartialEq>⟧.eq ty) self.old.tables.streams) → IsOk result }
        ensures too_large { result ≡ Err PushError.TooLarge ↔ ((position (⟦<TypeStream as PartialEq>⟧.eq ty) self.old.tables.streams ≡ None) × (length self.old.tables.streams ≡ 4294967295)) }
    {
        add(&mut self.types, &mut self.streams, ty)
    }

    /// Adds a table of streams. Its stream type is live.
    pub fn add_stream_table_type(
        &mut self,
        ty: TypeStreamTable,
    ) -> Result<TypeStreamTableIndex, PushError>
        requires { ty.ty.number < length self.old.tables.streams }
        ensures interned { IfOk result (λ k. IsInterned ⟦<TypeStreamTable as PartialEq>⟧.eq self.old.tables.stream_tables self.new.tables.stream_tables ty k.number) }
        ensures entry { IfOk result (λ k. slice_get self.new.tables.stream_tables k.number ≡ Some ty) }
        ensures rest { OnOk result (self.new ≡ record self.old { tables = record self.old.tables { stream_tables = self.new.tables.stream_tables } }) }
        ensures refused { OnErr result (self.new ≡ self.old) }
        ensures keeps { Keeps self.old.tables self.new.tables }
        ensures found { IsSome (position (⟦<TypeStreamTable as PartialEq>⟧.eq ty) self.old.tables.stream_tables) → IsOk result }
        ensures too_large { result ≡ Err PushError.TooLarge ↔ ((position (⟦<TypeStreamTable as PartialEq>⟧.eq ty) self.old.tables.stream_tables ≡ None) × (length self.old.tables.stream_tables ≡ 4294967295)) }
    {
        add(&mut self.types, &mut self.stream_tables, ty)
    }

    /// Adds a table of error contexts.
    pub fn add_error_context_table_type(
        &mut self,
        ty: TypeErrorContextTable,
    ) -> Result<TypeComponentLocalErrorContextTableIndex, PushError>
        ensures interned { IfOk result (λ k. IsInterned ⟦<TypeErrorContextTable as PartialEq>⟧.eq self.old.tables.error_context_tables self.new.tables.error_context_tables ty k.number) }
        ensures entry { IfOk result (λ k. slice_get self.new.tables.error_context_tables k.number ≡ Some ty) }
        ensures rest { OnOk result (self.new ≡ record self.old { tables = record self.old.tables { error_context_tables = self.new.tables.error_context_tables } }) }
        ensures refused { OnErr result (self.new ≡ self.old) }
        ensures keeps { Keeps self.old.tables self.new.tables }
        ensures found { IsSome (position (⟦<TypeErrorContextTable as PartialEq>⟧.eq ty) self.old.tables.error_context_tables) → IsOk result }
        ensures too_large { result ≡ Err PushError.TooLarge ↔ ((position (⟦<TypeErrorContextTable as PartialEq>⟧.eq ty) self.old.tables.error_context_tables ≡ None) × (length self.old.tables.error_context_tables ≡ 4294967295)) }
    {
        add(&mut self.types, &mut self.error_context_tables, ty)
    }
}
