//! Imports and exports of components and instances.

ghost use Rattle.std.specs.Prelude.{◌≡◌, ◌<◌, length, flat_map, IfOk};
ghost use Rattle.fact_source.specs.declared.items.ComponentEntityType.TheVariants as entity;
ghost use Rattle.fact_source.specs.Live.{IsLiveEntity, IsLiveAny, AreLiveItems};
ghost use Rattle.fact_types.specs.declared.interface.TypeDef.TheVariants as def;
ghost use Rattle.fact_convert.specs.Conversion.{IsReadyFor};
ghost use Rattle.fact_convert.specs.Appended.{IsDefMade};
ghost use Rattle.fact_convert.specs.Converted.{entity_of};
ghost use Rattle.fact_convert.specs.Progress.{Comes, AreItemsMade, IsExternMade, registered_tasks};
ghost use Rattle.fact_convert.specs.Tasks.{item_tasks, tasks_of};

use crate::funcs::func_type;
use crate::handles::table_of_resource;
use crate::modules::module_type;
use crate::names::put;
use crate::registers::register_abstract;
use crate::values::type_of_defined;
use fact_builder::{BuildError, ComponentTypesBuilder};
use fact_entity::OutOfMemory;
use fact_source::{
    ComponentAnyTypeId, ComponentEntityType, ComponentInstanceTypeId, ComponentTypeId, SourceItem,
    SourceTypes,
};
use fact_types::{
    ComponentExtern, ComponentExternData, TypeComponent, TypeComponentIndex, TypeComponentInstance,
    TypeComponentInstanceIndex, TypeDef,
};
use fact_wasm::Text;
use indexmap::IndexMap;

// Converts an import or export by its type.
#[cycle(items)]
pub(crate) fn def_of_entity(
    builder: &mut ComponentTypesBuilder,
    types: &SourceTypes,
    ty: ComponentEntityType,
) -> Result<TypeDef, BuildError>
    requires ready { IsReadyFor types.now builder.old }
    requires live { IsLiveEntity types.now ty }
    ensures { Comes types.now builder.old (tasks_of types.now ty) (λ c d. IsDefMade types.now c ty d) builder.new result }
{
    match ty {
        ComponentEntityType::Module(id) => {
            let module = module_type(builder, types, id)?;
            Ok(TypeDef::Module(module))
        }
        ComponentEntityType::Func(id) => {
            let func = func_type(builder, types, id)?;
            Ok(TypeDef::ComponentFunc(func))
        }
        ComponentEntityType::Value(_) => Err(BuildError::ValuesNotSupported),
        ComponentEntityType::AnyType { created } => def_of_type(builder, types, created),
        ComponentEntityType::Instance(id) => {
            let instance = instance_type(builder, types, id)?;
            Ok(TypeDef::ComponentInstance(instance))
        }
        ComponentEntityType::Component(id) => {
            let component = component_type(builder, types, id)?;
            Ok(TypeDef::Component(component))
        }
    }
}

// Converts the type that a type export makes known: one that is defined or a resource.
fn def_of_type(
    builder: &mut ComponentTypesBuilder,
    types: &SourceTypes,
    created: ComponentAnyTypeId,
) -> Result<TypeDef, BuildError>
    requires ready { IsReadyFor types.now builder.old }
    requires live { IsLiveAny types.now created }
    ensures { Comes types.now builder.old (tasks_of types.now (entity.AnyType created)) (λ c d. IsDefMade types.now c (entity.AnyType created) d) builder.new result }
{
    match created {
        ComponentAnyTypeId::Defined(id) => {
            let ty = type_of_defined(builder, types, id)?;
            Ok(TypeDef::Interface(ty))
        }
        ComponentAnyTypeId::Resource(id) => {
            let index = table_of_resource(builder, id)?;
            Ok(TypeDef::Resource(index))
        }
        _ => Err(BuildError::UnsupportedTypeExport),
    }
}

// Converts an import or export, with what is said of it beside its type.
#[cycle(items)]
pub(crate) fn extern_of_item(
    builder: &mut ComponentTypesBuilder,
    types: &SourceTypes,
    item: &SourceItem,
) -> Result<ComponentExtern, BuildError>
    requires ready { IsReadyFor types.now builder.old }
    requires live { IsLiveEntity types.now item.now.ty }
    ensures { Comes types.now builder.old (tasks_of types.now item.now.ty) (λ c y. IsExternMade types.now c item.now y) builder.new result }
{
    let ty = def_of_entity(builder, types, item.ty)?;
    let extern_data = data_of(item)?;
    Ok(ComponentExtern { extern_data, ty })
}

// Converts a type of instances: its exports in order.
#[cycle(items)]
fn instance_type(
    builder: &mut ComponentTypesBuilder,
    types: &SourceTypes,
    id: ComponentInstanceTypeId,
) -> Result<TypeComponentInstanceIndex, BuildError>
    requires ready { IsReadyFor types.now builder.old }
    requires live { id.number < length types.now.instances }
    ensures { Comes types.now builder.old (tasks_of types.now (entity.Instance id)) (λ c i. IsDefMade types.now c (entity.Instance id) (def.ComponentInstance i)) builder.new result }
{
    types.reveal();
    let Some(instance) = types.get_instance(id) else {
        unreachable!();
    };
    let exports = externs_of_items(builder, types, instance.exports.as_slice())?;
    let entry = TypeComponentInstance { exports };
    let index = builder.push_component_instance(entry)?;
    Ok(index)
}

// Converts a type of components: its imports, then its exports.
#[cycle(items)]
fn component_type(
    builder: &mut ComponentTypesBuilder,
    types: &SourceTypes,
    id: ComponentTypeId,
) -> Result<TypeComponentIndex, BuildError>
    requires ready { IsReadyFor types.now builder.old }
    requires live { id.number < length types.now.components }
    ensures { Comes types.now builder.old (tasks_of types.now (entity.Component id)) (λ c i. IsDefMade types.now c (entity.Component id) (def.Component i)) builder.new result }
{
    types.reveal();
    let Some(component) = types.get_component(id) else {
        unreachable!();
    };
    let imports = externs_of_items(builder, types, component.imports.as_slice())?;
    let exports = externs_of_items(builder, types, component.exports.as_slice())?;
    let entry = TypeComponent { imports, exports };
    let index = builder.push_component(entry)?;
    Ok(index)
}

// Converts imports or exports in order.
#[cycle(items)]
fn externs_of_items(
    builder: &mut ComponentTypesBuilder,
    types: &SourceTypes,
    items: &[(Text, SourceItem)],
) -> Result<IndexMap<Text, ComponentExtern>, BuildError>
    requires ready { IsReadyFor types.now builder.old }
    requires live { AreLiveItems types.now items.now }
    ensures { Comes types.now builder.old (flat_map (item_tasks types.now (tasks_of types.now)) items.now) (λ c made. AreItemsMade types.now builder.old c items.now made.entries) builder.new result }
{
    let mut externs = IndexMap::new(builder.allocator());
    for (name, item) in items {
        let next = registered_extern(builder, types, item)?;
        put(&mut externs, name, next)?;
    }
    Ok(externs)
}

// Converts an import or export of an instance or a component: the resources that it makes known are registered before.
#[cycle(items)]
fn registered_extern(
    builder: &mut ComponentTypesBuilder,
    types: &SourceTypes,
    item: &SourceItem,
) -> Result<ComponentExtern, BuildError>
    requires ready { IsReadyFor types.now builder.old }
    requires live { IsLiveEntity types.now item.now.ty }
    ensures { Comes types.now builder.old (registered_tasks types.now item.now.ty) (λ c y. IsExternMade types.now c item.now y) builder.new result }
{
    register_abstract(builder, types, item.ty)?;
    extern_of_item(builder, types, item)
}

// A type of any kind, as an import or export of that type.
pub(crate) fn entity_of_type(id: ComponentAnyTypeId) -> ComponentEntityType
    ensures { result ≡ entity_of id }
{
    match id {
        ComponentAnyTypeId::Func(id) => ComponentEntityType::Func(id),
        ComponentAnyTypeId::Instance(id) => ComponentEntityType::Instance(id),
        ComponentAnyTypeId::Component(id) => ComponentEntityType::Component(id),
        created => ComponentEntityType::AnyType { created },
    }
}

// What is said of an import or export beside its type.
fn data_of(item: &SourceItem) -> Result<ComponentExternData, OutOfMemory>
    ensures implements { IfOk result (λ told. told.implements ≡ item.now.implements) }
    ensures external_id { IfOk result (λ told. told.external_id ≡ item.now.external_id) }
{
    Ok(ComponentExternData {
        implements: item.implements.clone()?,
        external_id: item.external_id.clone()?,
    })
}
