//! Look-ups in the tables of types.

ghost use Rattle.std.specs.Prelude.{◌≡◌, ◌<◌, length, Option, Some, IsSome, slice_get, option_copied};
ghost use Rattle.fact_types.specs.Live.{slice_get_live};
ghost use Rattle.fact_types.specs.Tables.{module_type_at};

use crate::externs::{TypeComponent, TypeComponentInstance, TypeModule};
use crate::kinds::{
    TypeErrorContextTable, TypeFixedLengthList, TypeFunc, TypeFuture, TypeFutureTable, TypeList,
    TypeMap, TypeOption, TypeRecord, TypeResourceTable, TypeResult, TypeStream, TypeStreamTable,
    TypeTuple,
};
use crate::ordered::{TypeEnum, TypeFlags, TypeVariant};
use crate::tables::ComponentTypes;
use fact_entity::{
    ModuleInternedTypeIndex, TypeComponentIndex, TypeComponentInstanceIndex,
    TypeComponentLocalErrorContextTableIndex, TypeEnumIndex, TypeFixedLengthListIndex,
    TypeFlagsIndex, TypeFuncIndex, TypeFutureIndex, TypeFutureTableIndex, TypeListIndex,
    TypeMapIndex, TypeModuleIndex, TypeOptionIndex, TypeRecordIndex, TypeResourceTableIndex,
    TypeResultIndex, TypeStreamIndex, TypeStreamTableIndex, TypeTupleIndex, TypeVariantIndex,
};
use fact_wasm::FuncType;
use std::ops::Index;

/// A look-up in one of several tables, which the type of the index tells.
pub trait Lookup<I> {
    /// The entries of the table.
    type Item;

    // the entry of an index, where the index is live
    ghost found: { Self → I → Option Self.Item };

    // whether an index is live
    ghost live: { Self → I → Type 0 };

    /// The entry of an index, or `None` where the index is not live.
    fn get(&self, index: I) -> Option<&Self::Item>
        ensures { option_copied result ≡ found self.now index };

    // a live index has an entry
    ghost live_found: { (t : Self) (i : I) → live t i → IsSome (found t i) };
}

impl Lookup<TypeModuleIndex> for ComponentTypes {
    type Item = TypeModule;

    ghost found = { λ t i. slice_get t.modules i.number };

    ghost live = { λ t i. i.number < length t.modules };

    ghost live_found = { λ t i. slice_get_live t.modules i.number };

    fn get(&self, index: TypeModuleIndex) -> Option<&TypeModule> {
        self.modules.get(index)
    }
}

impl Lookup<TypeComponentIndex> for ComponentTypes {
    type Item = TypeComponent;

    ghost found = { λ t i. slice_get t.components i.number };

    ghost live = { λ t i. i.number < length t.components };

    ghost live_found = { λ t i. slice_get_live t.components i.number };

    fn get(&self, index: TypeComponentIndex) -> Option<&TypeComponent> {
        self.components.get(index)
    }
}

impl Lookup<TypeComponentInstanceIndex> for ComponentTypes {
    type Item = TypeComponentInstance;

    ghost found = { λ t i. slice_get t.component_instances i.number };

    ghost live = { λ t i. i.number < length t.component_instances };

    ghost live_found = { λ t i. slice_get_live t.component_instances i.number };

    fn get(&self, index: TypeComponentInstanceIndex) -> Option<&TypeComponentInstance> {
        self.component_instances.get(index)
    }
}

impl Lookup<TypeFuncIndex> for ComponentTypes {
    type Item = TypeFunc;

    ghost found = { λ t i. slice_get t.functions i.number };

    ghost live = { λ t i. i.number < length t.functions };

    ghost live_found = { λ t i. slice_get_live t.functions i.number };

    fn get(&self, index: TypeFuncIndex) -> Option<&TypeFunc> {
        self.functions.get(index)
    }
}

impl Lookup<TypeRecordIndex> for ComponentTypes {
    type Item = TypeRecord;

    ghost found = { λ t i. slice_get t.records i.number };

    ghost live = { λ t i. i.number < length t.records };

    ghost live_found = { λ t i. slice_get_live t.records i.number };

    fn get(&self, index: TypeRecordIndex) -> Option<&TypeRecord> {
        self.records.get(index)
    }
}

impl Lookup<TypeVariantIndex> for ComponentTypes {
    type Item = TypeVariant;

    ghost found = { λ t i. slice_get t.variants i.number };

    ghost live = { λ t i. i.number < length t.variants };

    ghost live_found = { λ t i. slice_get_live t.variants i.number };

    fn get(&self, index: TypeVariantIndex) -> Option<&TypeVariant> {
        self.variants.get(index)
    }
}

impl Lookup<TypeTupleIndex> for ComponentTypes {
    type Item = TypeTuple;

    ghost found = { λ t i. slice_get t.tuples i.number };

    ghost live = { λ t i. i.number < length t.tuples };

    ghost live_found = { λ t i. slice_get_live t.tuples i.number };

    fn get(&self, index: TypeTupleIndex) -> Option<&TypeTuple> {
        self.tuples.get(index)
    }
}

impl Lookup<TypeFlagsIndex> for ComponentTypes {
    type Item = TypeFlags;

    ghost found = { λ t i. slice_get t.flags i.number };

    ghost live = { λ t i. i.number < length t.flags };

    ghost live_found = { λ t i. slice_get_live t.flags i.number };

    fn get(&self, index: TypeFlagsIndex) -> Option<&TypeFlags> {
        self.flags.get(index)
    }
}

impl Lookup<TypeEnumIndex> for ComponentTypes {
    type Item = TypeEnum;

    ghost found = { λ t i. slice_get t.enums i.number };

    ghost live = { λ t i. i.number < length t.enums };

    ghost live_found = { λ t i. slice_get_live t.enums i.number };

    fn get(&self, index: TypeEnumIndex) -> Option<&TypeEnum> {
        self.enums.get(index)
    }
}

impl Lookup<TypeOptionIndex> for ComponentTypes {
    type Item = TypeOption;

    ghost found = { λ t i. slice_get t.options i.number };

    ghost live = { λ t i. i.number < length t.options };

    ghost live_found = { λ t i. slice_get_live t.options i.number };

    fn get(&self, index: TypeOptionIndex) -> Option<&TypeOption> {
        self.options.get(index)
    }
}

impl Lookup<TypeResultIndex> for ComponentTypes {
    type Item = TypeResult;

    ghost found = { λ t i. slice_get t.results i.number };

    ghost live = { λ t i. i.number < length t.results };

    ghost live_found = { λ t i. slice_get_live t.results i.number };

    fn get(&self, index: TypeResultIndex) -> Option<&TypeResult> {
        self.results.get(index)
    }
}

impl Lookup<TypeListIndex> for ComponentTypes {
    type Item = TypeList;

    ghost found = { λ t i. slice_get t.lists i.number };

    ghost live = { λ t i. i.number < length t.lists };

    ghost live_found = { λ t i. slice_get_live t.lists i.number };

    fn get(&self, index: TypeListIndex) -> Option<&TypeList> {
        self.lists.get(index)
    }
}

impl Lookup<TypeMapIndex> for ComponentTypes {
    type Item = TypeMap;

    ghost found = { λ t i. slice_get t.maps i.number };

    ghost live = { λ t i. i.number < length t.maps };

    ghost live_found = { λ t i. slice_get_live t.maps i.number };

    fn get(&self, index: TypeMapIndex) -> Option<&TypeMap> {
        self.maps.get(index)
    }
}

impl Lookup<TypeFixedLengthListIndex> for ComponentTypes {
    type Item = TypeFixedLengthList;

    ghost found = { λ t i. slice_get t.fixed_length_lists i.number };

    ghost live = { λ t i. i.number < length t.fixed_length_lists };

    ghost live_found = { λ t i. slice_get_live t.fixed_length_lists i.number };

    fn get(&self, index: TypeFixedLengthListIndex) -> Option<&TypeFixedLengthList> {
        self.fixed_length_lists.get(index)
    }
}

impl Lookup<TypeFutureIndex> for ComponentTypes {
    type Item = TypeFuture;

    ghost found = { λ t i. slice_get t.futures i.number };

    ghost live = { λ t i. i.number < length t.futures };

    ghost live_found = { λ t i. slice_get_live t.futures i.number };

    fn get(&self, index: TypeFutureIndex) -> Option<&TypeFuture> {
        self.futures.get(index)
    }
}

impl Lookup<TypeFutureTableIndex> for ComponentTypes {
    type Item = TypeFutureTable;

    ghost found = { λ t i. slice_get t.future_tables i.number };

    ghost live = { λ t i. i.number < length t.future_tables };

    ghost live_found = { λ t i. slice_get_live t.future_tables i.number };

    fn get(&self, index: TypeFutureTableIndex) -> Option<&TypeFutureTable> {
        self.future_tables.get(index)
    }
}

impl Lookup<TypeStreamIndex> for ComponentTypes {
    type Item = TypeStream;

    ghost found = { λ t i. slice_get t.streams i.number };

    ghost live = { λ t i. i.number < length t.streams };

    ghost live_found = { λ t i. slice_get_live t.streams i.number };

    fn get(&self, index: TypeStreamIndex) -> Option<&TypeStream> {
        self.streams.get(index)
    }
}

impl Lookup<TypeStreamTableIndex> for ComponentTypes {
    type Item = TypeStreamTable;

    ghost found = { λ t i. slice_get t.stream_tables i.number };

    ghost live = { λ t i. i.number < length t.stream_tables };

    ghost live_found = { λ t i. slice_get_live t.stream_tables i.number };

    fn get(&self, index: TypeStreamTableIndex) -> Option<&TypeStreamTable> {
        self.stream_tables.get(index)
    }
}

impl Lookup<TypeComponentLocalErrorContextTableIndex> for ComponentTypes {
    type Item = TypeErrorContextTable;

    ghost found = { λ t i. slice_get t.error_context_tables i.number };

    ghost live = { λ t i. i.number < length t.error_context_tables };

    ghost live_found = { λ t i. slice_get_live t.error_context_tables i.number };

    fn get(
        &self,
        index: TypeComponentLocalErrorContextTableIndex,
    ) -> Option<&TypeErrorContextTable> {
        self.error_context_tables.get(index)
    }
}

impl Lookup<TypeResourceTableIndex> for ComponentTypes {
    type Item = TypeResourceTable;

    ghost found = { λ t i. slice_get t.resource_tables i.number };

    ghost live = { λ t i. i.number < length t.resource_tables };

    ghost live_found = { λ t i. slice_get_live t.resource_tables i.number };

    fn get(&self, index: TypeResourceTableIndex) -> Option<&TypeResourceTable> {
        self.resource_tables.get(index)
    }
}

impl Lookup<ModuleInternedTypeIndex> for ComponentTypes {
    type Item = FuncType;

    ghost found = { λ t i. module_type_at t i.number };

    ghost live = { λ t i. IsSome (module_type_at t i.number) };

    ghost live_found = { λ t i h. h };

    fn get(&self, index: ModuleInternedTypeIndex) -> Option<&FuncType> {
        match &self.module_types {
            Some(types) => types.get(index),
            None => None,
        }
    }
}

/// The entry of a live index, in the table of its type.
impl<I> Index<I> for ComponentTypes
where
    ComponentTypes: Lookup<I>,
{
    type Output = <ComponentTypes as Lookup<I>>::Item;

    ghost can_index = { ⟦<ComponentTypes as Lookup<I>>⟧.live };

    ghost index_gives = { λ t i entry. ⟦<ComponentTypes as Lookup<I>>⟧.found t i ≡ Some entry };

    fn index(&self, index: I) -> &<ComponentTypes as Lookup<I>>::Item {
        self.get(index).unwrap()
    }
}
