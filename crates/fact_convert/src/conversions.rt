//! The conversions of the types of a source, as calls of the builder.

ghost use Rattle.std.specs.Prelude.{◌≡◌, ◌<◌, length, IfOk};
ghost use Rattle.fact_builder.specs.Known.{AreKeptLive};
ghost use Rattle.fact_source.specs.Live.{IsLiveAny, IsLiveEntity};
ghost use Rattle.fact_types.specs.Tables.{IsLive, IsLiveDef};
ghost use Rattle.fact_builder.specs.Builder.{Builder};
ghost use Rattle.fact_convert.specs.Conversion.{BuilderGrows, ConvertsDefined, ConvertsEntity, ConvertsErrorContext, ConvertsFunc, ConvertsItem, IsReadyFor};
ghost use Rattle.fact_convert.specs.Converted.{entity_of};
ghost use Rattle.fact_convert.specs.BuilderTables.{tables_of};
ghost use Rattle.fact_convert.specs.Finished.{Finishes, NamesLiveItems};

use crate::component::Component;
use crate::finish::finish_with;
use crate::funcs::func_type;
use crate::handles::table_of_error_contexts;
use crate::items::{def_of_entity, entity_of_type, extern_of_item};
use crate::values::type_of_defined;
use fact_builder::{BuildError, ComponentTypesBuilder};
use fact_source::{
    ComponentAnyTypeId, ComponentDefinedTypeId, ComponentEntityType, ComponentFuncTypeId,
    SourceItem, SourceTypes,
};
use fact_types::{
    ComponentExtern, ComponentTypes, InterfaceType, TypeComponentIndex,
    TypeComponentLocalErrorContextTableIndex, TypeDef, TypeFuncIndex,
};

/// A builder of component types that converts the types of a source.
pub trait Conversions: Sized {
    // what contracts see of the builder
    ghost builder: { Self → Builder };

    /// Converts a function type: the types of its parameters and of its result, their tuples, and the function.
    fn convert_component_func_type(
        &mut self,
        types: &SourceTypes,
        id: ComponentFuncTypeId,
    ) -> Result<TypeFuncIndex, BuildError>
        requires ready { IsReadyFor types.now (builder self.old) }
        requires live { id.number < length types.now.funcs }
        ensures converts { ConvertsFunc types.now (builder self.old) id (builder self.new) result }
        ensures live { IfOk result (λ i. i.number < length (tables_of (builder self.new)).functions) }
        ensures grows { BuilderGrows (builder self.old) (builder self.new) }
        ensures kept_live { AreKeptLive (builder self.new).resources (tables_of (builder self.new)) };

    /// Converts an import or export, with what is said of it beside its type.
    fn convert_component_item(
        &mut self,
        types: &SourceTypes,
        item: &SourceItem,
    ) -> Result<ComponentExtern, BuildError>
        requires ready { IsReadyFor types.now (builder self.old) }
        requires live { IsLiveEntity types.now item.now.ty }
        ensures converts { ConvertsItem types.now (builder self.old) item.now (builder self.new) result }
        ensures live { IfOk result (λ converted. IsLiveDef (tables_of (builder self.new)) converted.ty) }
        ensures grows { BuilderGrows (builder self.old) (builder self.new) }
        ensures kept_live { AreKeptLive (builder self.new).resources (tables_of (builder self.new)) };

    /// Converts an import or export by its type. A type is one that is defined or a resource.
    fn convert_component_entity_type(
        &mut self,
        types: &SourceTypes,
        ty: ComponentEntityType,
    ) -> Result<TypeDef, BuildError>
        requires ready { IsReadyFor types.now (builder self.old) }
        requires live { IsLiveEntity types.now ty }
        ensures converts { ConvertsEntity types.now (builder self.old) ty (builder self.new) result }
        ensures live { IfOk result (IsLiveDef (tables_of (builder self.new))) }
        ensures grows { BuilderGrows (builder self.old) (builder self.new) }
        ensures kept_live { AreKeptLive (builder self.new).resources (tables_of (builder self.new)) };

    /// Converts a type of any kind.
    fn convert_type(
        &mut self,
        types: &SourceTypes,
        id: ComponentAnyTypeId,
    ) -> Result<TypeDef, BuildError>
        requires ready { IsReadyFor types.now (builder self.old) }
        requires live { IsLiveAny types.now id }
        ensures converts { ConvertsEntity types.now (builder self.old) (entity_of id) (builder self.new) result }
        ensures live { IfOk result (IsLiveDef (tables_of (builder self.new))) }
        ensures grows { BuilderGrows (builder self.old) (builder self.new) }
        ensures kept_live { AreKeptLive (builder self.new).resources (tables_of (builder self.new)) };

    /// Converts a defined type, and the types that it names.
    fn defined_type(
        &mut self,
        types: &SourceTypes,
        id: ComponentDefinedTypeId,
    ) -> Result<InterfaceType, BuildError>
        requires ready { IsReadyFor types.now (builder self.old) }
        requires live { id.number < length types.now.defined }
        ensures converts { ConvertsDefined types.now (builder self.old) id (builder self.new) result }
        ensures live { IfOk result (IsLive (tables_of (builder self.new))) }
        ensures grows { BuilderGrows (builder self.old) (builder self.new) }
        ensures kept_live { AreKeptLive (builder self.new).resources (tables_of (builder self.new)) };

    /// The type of error contexts: the table of those of the instance that is set.
    fn error_context_type(&mut self) -> Result<TypeComponentLocalErrorContextTableIndex, BuildError>
        ensures converts { ConvertsErrorContext (builder self.old) (builder self.new) result }
        ensures live { IfOk result (λ i. i.number < length (tables_of (builder self.new)).error_context_tables) }
        ensures grows { BuilderGrows (builder self.old) (builder self.new) }
        ensures kept { (builder self.new).resources ≡ (builder self.old).resources };

    /// The table of the error contexts of the instance that is set.
    fn error_context_table_type(
        &mut self,
    ) -> Result<TypeComponentLocalErrorContextTableIndex, BuildError>
        ensures converts { ConvertsErrorContext (builder self.old) (builder self.new) result }
        ensures live { IfOk result (λ i. i.number < length (tables_of (builder self.new)).error_context_tables) }
        ensures grows { BuilderGrows (builder self.old) (builder self.new) }
        ensures kept { (builder self.new).resources ≡ (builder self.old).resources };

    /// All tables, with the core function types and, behind the last component, that of the imports and exports of this one.
    fn finish(
        self,
        component: &Component,
    ) -> Result<(ComponentTypes, TypeComponentIndex), BuildError>
        requires { NamesLiveItems (builder self).tables component.now }
        ensures { Finishes (builder self) component.now result };
}

impl Conversions for ComponentTypesBuilder {
    ghost builder = { λ b. b };

    fn convert_component_func_type(
        &mut self,
        types: &SourceTypes,
        id: ComponentFuncTypeId,
    ) -> Result<TypeFuncIndex, BuildError> {
        func_type(self, types, id)
    }

    fn convert_component_item(
        &mut self,
        types: &SourceTypes,
        item: &SourceItem,
    ) -> Result<ComponentExtern, BuildError> {
        extern_of_item(self, types, item)
    }

    fn convert_component_entity_type(
        &mut self,
        types: &SourceTypes,
        ty: ComponentEntityType,
    ) -> Result<TypeDef, BuildError> {
        def_of_entity(self, types, ty)
    }

    fn convert_type(
        &mut self,
        types: &SourceTypes,
        id: ComponentAnyTypeId,
    ) -> Result<TypeDef, BuildError> {
        self.convert_component_entity_type(types, entity_of_type(id))
    }

    fn defined_type(
        &mut self,
        types: &SourceTypes,
        id: ComponentDefinedTypeId,
    ) -> Result<InterfaceType, BuildError> {
        type_of_defined(self, types, id)
    }

    fn error_context_type(
        &mut self,
    ) -> Result<TypeComponentLocalErrorContextTableIndex, BuildError> {
        self.error_context_table_type()
    }

    fn error_context_table_type(
        &mut self,
    ) -> Result<TypeComponentLocalErrorContextTableIndex, BuildError> {
        table_of_error_contexts(self)
    }

    fn finish(
        self,
        component: &Component,
    ) -> Result<(ComponentTypes, TypeComponentIndex), BuildError> {
        let alloc = self.allocator();
        finish_with(alloc, self, component)
    }
}
