//! Look-ups in the builder by index.

ghost use Rattle.std.specs.Prelude.{◌≡◌, ◌<◌, length, slice_get, Some};

use crate::builder::ComponentTypesBuilder;
use fact_entity::ModuleInternedTypeIndex;
use fact_types::{
    ComponentTypes, Lookup, TypeComponentIndex, TypeComponentInstanceIndex,
    TypeComponentLocalErrorContextTableIndex, TypeEnumIndex, TypeFixedLengthListIndex,
    TypeFlagsIndex, TypeFuncIndex, TypeFutureIndex, TypeFutureTableIndex, TypeListIndex,
    TypeMapIndex, TypeModuleIndex, TypeOptionIndex, TypeRecordIndex, TypeResourceTableIndex,
    TypeResultIndex, TypeStreamIndex, TypeStreamTableIndex, TypeTupleIndex, TypeVariantIndex,
};
use fact_wasm::FuncType;
use std::ops::Index;

/// An index into a table of types.
pub trait TypesIndex {}

impl TypesIndex for TypeModuleIndex {}

impl TypesIndex for TypeComponentIndex {}

impl TypesIndex for TypeComponentInstanceIndex {}

impl TypesIndex for TypeFuncIndex {}

impl TypesIndex for TypeRecordIndex {}

impl TypesIndex for TypeFlagsIndex {}

impl TypesIndex for TypeTupleIndex {}

impl TypesIndex for TypeFixedLengthListIndex {}

impl TypesIndex for TypeVariantIndex {}

impl TypesIndex for TypeEnumIndex {}

impl TypesIndex for TypeOptionIndex {}

impl TypesIndex for TypeResultIndex {}

impl TypesIndex for TypeListIndex {}

impl TypesIndex for TypeMapIndex {}

impl TypesIndex for TypeFutureIndex {}

impl TypesIndex for TypeFutureTableIndex {}

impl TypesIndex for TypeStreamIndex {}

impl TypesIndex for TypeStreamTableIndex {}

impl TypesIndex for TypeComponentLocalErrorContextTableIndex {}

impl TypesIndex for TypeResourceTableIndex {}

impl<I: TypesIndex> Index<I> for ComponentTypesBuilder
where
    ComponentTypes: Lookup<I>,
{
    type Output = <ComponentTypes as Lookup<I>>::Item;

    ghost can_index = { λ b i. ⟦<ComponentTypes as Lookup<I>>⟧.live b.tables i };

    ghost index_gives = { λ b i entry. ⟦<ComponentTypes as Lookup<I>>⟧.found b.tables i ≡ Some entry };

    fn index(&self, index: I) -> &<ComponentTypes as Lookup<I>>::Item {
        &self.types.tables()[index]
    }
}

impl Index<ModuleInternedTypeIndex> for ComponentTypesBuilder {
    type Output = FuncType;

    ghost can_index = { λ b i. i.number < length b.module_types };

    ghost index_gives = { λ b i ty. slice_get b.module_types i.number ≡ Some ty };

    fn index(&self, index: ModuleInternedTypeIndex) -> &FuncType {
        &self.module_types[index]
    }
}
