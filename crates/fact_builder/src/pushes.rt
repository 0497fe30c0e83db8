//! The types that stand in their tables once, and tables of the handles of resources: what is known of an entry is kept with
//! it, where it has members.

ghost use Rattle.std.specs.Prelude.{◌≡◌, ◌↔◌, ◌<◌, ◌++◌, ◌∷◌, [], length, refl, IfOk, IfErr, OnOk, OnErr, None, Err};
ghost use Rattle.fact_types.specs.Exact.{exact_variant, exact_flags, exact_enum};
ghost use Rattle.fact_types.specs.Tables.{Stands, record_node, flags_node, tuple_node, fixed_length_list_node, variant_node, enum_node, option_node, result_node, list_node, map_node, IsLiveMember, IsLiveFunc};
ghost use Rattle.fact_builder.specs.Known.{MakesTable, MayRefuseTable, kept_table};
ghost use Rattle.fact_builder.specs.ExactEntries.{exact_func, exact_record, exact_tuple, exact_fixed_length_list, exact_option_type, exact_result, exact_list_type, exact_map, exact_future, exact_future_table, exact_stream, exact_stream_table, exact_error_context_table};
ghost use Rattle.fact_builder.specs.Keeps.{Keeps};

use crate::entry::Entry;
use crate::information::TypeInformation;
use crate::known::{keep, known, product_of_fields, product_of_types, sum_of_cases, with_payload};
use crate::known_types::KnownTypes;
use crate::{BuildError, ResourcesBuilder};
use fact_entity::{OutOfMemory, PushError, ResourceId};
use fact_types::{
    InterfaceType, TypeComponentLocalErrorContextTableIndex, TypeEnum, TypeEnumIndex,
    TypeErrorContextTable, TypeFixedLengthList, TypeFixedLengthListIndex, TypeFlags,
    TypeFlagsIndex, TypeFunc, TypeFuncIndex, TypeFuture, TypeFutureIndex, TypeFutureTable,
    TypeFutureTableIndex, TypeList, TypeListIndex, TypeMap, TypeMapIndex, TypeOption,
    TypeOptionIndex, TypeRecord, TypeRecordIndex, TypeResourceTable, TypeResourceTableIndex,
    TypeResult, TypeResultIndex, TypeStream, TypeStreamIndex, TypeStreamTable,
    TypeStreamTableIndex, TypeTuple, TypeTupleIndex, TypeVariant, TypeVariantIndex,
};

impl Entry for TypeFunc {
    type Index = TypeFuncIndex;

    ghost entries = { λ t. t.functions };

    ghost with_entries = { λ t es. record t { functions = es } };

    ghost stands = { λ t e. IsLiveFunc t e };

    ghost entries_of_with = { λ _ _. refl };

    ghost with_its_entries = { λ _. refl };

    ghost exact = { exact_func };

    fn copied(&self) -> Result<TypeFunc, OutOfMemory> {
        self.try_clone()
    }

    fn push(self, types: &mut KnownTypes, _: TypeFuncIndex) -> Result<TypeFuncIndex, PushError> {
        types.types.push_func(self)
    }
}

impl Entry for TypeRecord {
    type Index = TypeRecordIndex;

    ghost entries = { λ t. t.records };

    ghost with_entries = { λ t es. record t { records = es } };

    ghost stands = { λ t e. Stands t (record_node e) };

    ghost entries_of_with = { λ _ _. refl };

    ghost with_its_entries = { λ _. refl };

    ghost exact = { exact_record };

    fn copied(&self) -> Result<TypeRecord, OutOfMemory> {
        self.try_clone()
    }

    fn push(
        self,
        types: &mut KnownTypes,
        index: TypeRecordIndex,
    ) -> Result<TypeRecordIndex, PushError> {
        types.types.reveal();
        let information = product_of_fields(&types.kept, self.fields.as_slice());
        keep(&mut types.kept, InterfaceType::Record(index), information)?;
        types.types.push_record(self)
    }
}

impl Entry for TypeFlags {
    type Index = TypeFlagsIndex;

    ghost entries = { λ t. t.flags };

    ghost with_entries = { λ t es. record t { flags = es } };

    ghost stands = { λ t e. Stands t (flags_node e) };

    ghost entries_of_with = { λ _ _. refl };

    ghost with_its_entries = { λ _. refl };

    ghost exact = { exact_flags };

    fn copied(&self) -> Result<TypeFlags, OutOfMemory> {
        self.try_clone()
    }

    fn push(
        self,
        types: &mut KnownTypes,
        index: TypeFlagsIndex,
    ) -> Result<TypeFlagsIndex, PushError> {
        types.types.reveal();
        let information = TypeInformation::new().with_words(usize::from(
            self.abi.flat_count.unwrap_or(0),
        ));
        keep(&mut types.kept, InterfaceType::Flags(index), information)?;
        types.types.push_flags(self)
    }
}

impl Entry for TypeTuple {
    type Index = TypeTupleIndex;

    ghost entries = { λ t. t.tuples };

    ghost with_entries = { λ t es. record t { tuples = es } };

    ghost stands = { λ t e. Stands t (tuple_node e) };

    ghost entries_of_with = { λ _ _. refl };

    ghost with_its_entries = { λ _. refl };

    ghost exact = { exact_tuple };

    fn copied(&self) -> Result<TypeTuple, OutOfMemory> {
        self.try_clone()
    }

    fn push(
        self,
        types: &mut KnownTypes,
        index: TypeTupleIndex,
    ) -> Result<TypeTupleIndex, PushError> {
        types.types.reveal();
        let information = product_of_types(&types.kept, self.types.as_slice());
        keep(&mut types.kept, InterfaceType::Tuple(index), information)?;
        types.types.push_tuple(self)
    }
}

impl Entry for TypeFixedLengthList {
    type Index = TypeFixedLengthListIndex;

    ghost entries = { λ t. t.fixed_length_lists };

    ghost with_entries = { λ t es. record t { fixed_length_lists = es } };

    ghost stands = { λ t e. Stands t (fixed_length_list_node e) };

    ghost entries_of_with = { λ _ _. refl };

    ghost with_its_entries = { λ _. refl };

    ghost exact = { exact_fixed_length_list };

    fn copied(&self) -> Result<TypeFixedLengthList, OutOfMemory> {
        Ok(*self)
    }

    fn push(
        self,
        types: &mut KnownTypes,
        index: TypeFixedLengthListIndex,
    ) -> Result<TypeFixedLengthListIndex, PushError> {
        types.types.reveal();
        let information = TypeInformation::new()
            .followed_by(&known(&types.kept, &self.element))
            .repeated(self.size);
        keep(
            &mut types.kept,
            InterfaceType::FixedLengthList(index),
            information,
        )?;
        types.types.push_fixed_length_list(self)
    }
}

impl Entry for TypeVariant {
    type Index = TypeVariantIndex;

    ghost entries = { λ t. t.variants };

    ghost with_entries = { λ t es. record t { variants = es } };

    ghost stands = { λ t e. Stands t (variant_node e) };

    ghost entries_of_with = { λ _ _. refl };

    ghost with_its_entries = { λ _. refl };

    ghost exact = { exact_variant };

    fn copied(&self) -> Result<TypeVariant, OutOfMemory> {
        self.try_clone()
    }

    fn push(
        self,
        types: &mut KnownTypes,
        index: TypeVariantIndex,
    ) -> Result<TypeVariantIndex, PushError> {
        types.types.reveal();
        let information = sum_of_cases(&types.kept, &self.cases).tagged();
        keep(&mut types.kept, InterfaceType::Variant(index), information)?;
        types.types.push_variant(self)
    }
}

impl Entry for TypeEnum {
    type Index = TypeEnumIndex;

    ghost entries = { λ t. t.enums };

    ghost with_entries = { λ t es. record t { enums = es } };

    ghost stands = { λ t e. Stands t (enum_node e) };

    ghost entries_of_with = { λ _ _. refl };

    ghost with_its_entries = { λ _. refl };

    ghost exact = { exact_enum };

    fn copied(&self) -> Result<TypeEnum, OutOfMemory> {
        self.try_clone()
    }

    fn push(
        self,
        types: &mut KnownTypes,
        index: TypeEnumIndex,
    ) -> Result<TypeEnumIndex, PushError> {
        types.types.reveal();
        let information = TypeInformation::new().with_words(1);
        keep(&mut types.kept, InterfaceType::Enum(index), information)?;
        types.types.push_enum(self)
    }
}

impl Entry for TypeOption {
    type Index = TypeOptionIndex;

    ghost entries = { λ t. t.options };

    ghost with_entries = { λ t es. record t { options = es } };

    ghost stands = { λ t e. Stands t (option_node e) };

    ghost entries_of_with = { λ _ _. refl };

    ghost with_its_entries = { λ _. refl };

    ghost exact = { exact_option_type };

    fn copied(&self) -> Result<TypeOption, OutOfMemory> {
        Ok(*self)
    }

    fn push(
        self,
        types: &mut KnownTypes,
        index: TypeOptionIndex,
    ) -> Result<TypeOptionIndex, PushError> {
        types.types.reveal();
        let information = with_payload(&types.kept, TypeInformation::new(), Some(self.ty)).tagged();
        keep(&mut types.kept, InterfaceType::Option(index), information)?;
        types.types.push_option(self)
    }
}

impl Entry for TypeResult {
    type Index = TypeResultIndex;

    ghost entries = { λ t. t.results };

    ghost with_entries = { λ t es. record t { results = es } };

    ghost stands = { λ t e. Stands t (result_node e) };

    ghost entries_of_with = { λ _ _. refl };

    ghost with_its_entries = { λ _. refl };

    ghost exact = { exact_result };

    fn copied(&self) -> Result<TypeResult, OutOfMemory> {
        Ok(*self)
    }

    fn push(
        self,
        types: &mut KnownTypes,
        index: TypeResultIndex,
    ) -> Result<TypeResultIndex, PushError> {
        types.types.reveal();
        let information = with_payload(
            &types.kept,
            with_payload(&types.kept, TypeInformation::new(), self.ok),
            self.err,
        )
        .tagged();
        keep(&mut types.kept, InterfaceType::Result(index), information)?;
        types.types.push_result(self)
    }
}

impl Entry for TypeList {
    type Index = TypeListIndex;

    ghost entries = { λ t. t.lists };

    ghost with_entries = { λ t es. record t { lists = es } };

    ghost stands = { λ t e. Stands t (list_node e) };

    ghost entries_of_with = { λ _ _. refl };

    ghost with_its_entries = { λ _. refl };

    ghost exact = { exact_list_type };

    fn copied(&self) -> Result<TypeList, OutOfMemory> {
        Ok(*self)
    }

    fn push(
        self,
        types: &mut KnownTypes,
        index: TypeListIndex,
    ) -> Result<TypeListIndex, PushError> {
        types.types.reveal();
        let information = with_payload(
            &types.kept,
            TypeInformation::new(),
            Some(self.element),
        ).with_pointer_pair();
        keep(&mut types.kept, InterfaceType::List(index), information)?;
        types.types.push_list(self)
    }
}

impl Entry for TypeMap {
    type Index = TypeMapIndex;

    ghost entries = { λ t. t.maps };

    ghost with_entries = { λ t es. record t { maps = es } };

    ghost stands = { λ t e. Stands t (map_node e) };

    ghost entries_of_with = { λ _ _. refl };

    ghost with_its_entries = { λ _. refl };

    ghost exact = { exact_map };

    fn copied(&self) -> Result<TypeMap, OutOfMemory> {
        Ok(*self)
    }

    fn push(self, types: &mut KnownTypes, index: TypeMapIndex) -> Result<TypeMapIndex, PushError> {
        types.types.reveal();
        let information = with_payload(
            &types.kept,
            with_payload(&types.kept, TypeInformation::new(), Some(self.key)),
            Some(self.value),
        )
        .with_pointer_pair();
        keep(&mut types.kept, InterfaceType::Map(index), information)?;
        types.types.push_map(self)
    }
}

impl Entry for TypeFuture {
    type Index = TypeFutureIndex;

    ghost entries = { λ t. t.futures };

    ghost with_entries = { λ t es. record t { futures = es } };

    ghost stands = { λ t e. IsLiveMember t e.payload };

    ghost entries_of_with = { λ _ _. refl };

    ghost with_its_entries = { λ _. refl };

    ghost exact = { exact_future };

    fn copied(&self) -> Result<TypeFuture, OutOfMemory> {
        Ok(*self)
    }

    fn push(
        self,
        types: &mut KnownTypes,
        _: TypeFutureIndex,
    ) -> Result<TypeFutureIndex, PushError> {
        types.types.reveal();
        types.types.push_future(self)
    }
}

impl Entry for TypeFutureTable {
    type Index = TypeFutureTableIndex;

    ghost entries = { λ t. t.future_tables };

    ghost with_entries = { λ t es. record t { future_tables = es } };

    ghost stands = { λ t e. e.ty.number < length t.futures };

    ghost entries_of_with = { λ _ _. refl };

    ghost with_its_entries = { λ _. refl };

    ghost exact = { exact_future_table };

    fn copied(&self) -> Result<TypeFutureTable, OutOfMemory> {
        Ok(*self)
    }

    fn push(
        self,
        types: &mut KnownTypes,
        index: TypeFutureTableIndex,
    ) -> Result<TypeFutureTableIndex, PushError> {
        types.types.reveal();
        let payload = types.types[self.ty].payload;
        let information = with_payload(&types.kept, TypeInformation::new(), payload).as_handle();
        keep(&mut types.kept, InterfaceType::Future(index), information)?;
        types.types.push_future_table(self)
    }
}

impl Entry for TypeStream {
    type Index = TypeStreamIndex;

    ghost entries = { λ t. t.streams };

    ghost with_entries = { λ t es. record t { streams = es } };

    ghost stands = { λ t e. IsLiveMember t e.payload };

    ghost entries_of_with = { λ _ _. refl };

    ghost with_its_entries = { λ _. refl };

    ghost exact = { exact_stream };

    fn copied(&self) -> Result<TypeStream, OutOfMemory> {
        Ok(*self)
    }

    fn push(
        self,
        types: &mut KnownTypes,
        _: TypeStreamIndex,
    ) -> Result<TypeStreamIndex, PushError> {
        types.types.reveal();
        types.types.push_stream(self)
    }
}

impl Entry for TypeStreamTable {
    type Index = TypeStreamTableIndex;

    ghost entries = { λ t. t.stream_tables };

    ghost with_entries = { λ t es. record t { stream_tables = es } };

    ghost stands = { λ t e. e.ty.number < length t.streams };

    ghost entries_of_with = { λ _ _. refl };

    ghost with_its_entries = { λ _. refl };

    ghost exact = { exact_stream_table };

    fn copied(&self) -> Result<TypeStreamTable, OutOfMemory> {
        Ok(*self)
    }

    fn push(
        self,
        types: &mut KnownTypes,
        index: TypeStreamTableIndex,
    ) -> Result<TypeStreamTableIndex, PushError> {
        types.types.reveal();
        let payload = types.types[self.ty].payload;
        let information = with_payload(&types.kept, TypeInformation::new(), payload).as_handle();
        keep(&mut types.kept, InterfaceType::Stream(index), information)?;
        types.types.push_stream_table(self)
    }
}

impl Entry for TypeErrorContextTable {
    type Index = TypeComponentLocalErrorContextTableIndex;

    ghost entries = { λ t. t.error_context_tables };

    ghost with_entries = { λ t es. record t { error_context_tables = es } };

    ghost stands = { λ t e. Unit {0} };

    ghost entries_of_with = { λ _ _. refl };

    ghost with_its_entries = { λ _. refl };

    ghost exact = { exact_error_context_table };

    fn copied(&self) -> Result<TypeErrorContextTable, OutOfMemory> {
        Ok(*self)
    }

    fn push(
        self,
        types: &mut KnownTypes,
        _: TypeComponentLocalErrorContextTableIndex,
    ) -> Result<TypeComponentLocalErrorContextTableIndex, PushError> {
        types.types.push_error_context_table(self)
    }
}

impl KnownTypes {
    /// Appends a table of the handles of a resource.
    pub(crate) fn push_resource_table(
        &mut self,
        ty: TypeResourceTable,
    ) -> Result<TypeResourceTableIndex, PushError>
        ensures key { IfOk result (λ k. k.number ≡ length self.old.resource_tables) }
        ensures table { OnOk result (self.new ≡ record self.old { resource_tables = self.old.resource_tables ++ ty ∷ [] }) }
        ensures refused { OnErr result (self.new ≡ self.old) }
        ensures keeps { Keeps self.old self.new }
        ensures too_large { result ≡ Err PushError.TooLarge ↔ (length self.old.resource_tables ≡ 4294967295) }
    {
        self.types.push_resource_table(ty)
    }

    /// Makes the table of the handles of a resource that has none, behind the others, and keeps it among what is known of
    /// resources.
    pub(crate) fn make_resource_table(
        &mut self,
        resources: &mut ResourcesBuilder,
        id: ResourceId,
    ) -> Result<TypeResourceTableIndex, BuildError>
        requires { kept_table resources.old id ≡ None }
        ensures made { IfOk result (MakesTable resources.old self.old id resources.new self.new) }
        ensures refused { IfErr result (λ e. (resources.new ≡ resources.old) × (self.new ≡ self.old) × MayRefuseTable resources.old self.old id e) }
        ensures keeps { Keeps self.old self.new }
    {
        resources.make_table(id, &mut self.types)
    }
}
