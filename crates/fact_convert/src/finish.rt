//! The end of a builder.

ghost use Rattle.std.specs.Prelude.{◌≡◌, ◌<◌, IfOk, All, length, map};
ghost use Rattle.std.specs.List.{AllZip};
ghost use Rattle.fact_convert.specs.Finished.{type_of_export as type_of, NamesLiveItems, IsExternOf, Finishes, FinishesWith};
ghost use Rattle.fact_convert.specs.Merging.{merged};

use crate::component::{Component, Export};
use crate::names::put;
use fact_builder::{BuildError, ComponentTypesBuilder};
use fact_entity::OutOfMemory;
use fact_types::{ComponentExtern, ComponentTypes, TypeComponent, TypeComponentIndex, TypeDef};
use fact_wasm::Text;
use indexmap::IndexMap;
use std::alloc::Global;

// The tables of a builder, with a component behind the last one. The builder ends on each answer.
pub(crate) fn finish_with(
    alloc: Global,
    mut builder: ComponentTypesBuilder,
    component: &Component,
) -> Result<(ComponentTypes, TypeComponentIndex), BuildError>
    requires { NamesLiveItems builder.tables component.now }
    ensures { Finishes builder component.now result }
{
    let index = push_whole(alloc, &mut builder, component);
    let types = builder.into_types();
    match index {
        Ok(index) => Ok((types, index)),
        Err(error) => {
            drop(types);
            Err(error)
        }
    }
}

// Puts the type of a component behind the others. The builder is unchanged after a refusal.
fn push_whole(
    alloc: Global,
    builder: &mut ComponentTypesBuilder,
    component: &Component,
) -> Result<TypeComponentIndex, BuildError>
    requires { NamesLiveItems builder.old.tables component.now }
    ensures { FinishesWith builder.old component.now builder.new result }
{
    let imports = import_types_of(alloc, component)?;
    let exports = export_types_of(alloc, component)?;
    Ok(builder.push_component(TypeComponent { imports, exports })?)
}

// The imports of a component by their names.
fn import_types_of(
    alloc: Global,
    component: &Component,
) -> Result<IndexMap<Text, ComponentExtern>, OutOfMemory>
    ensures { IfOk result (λ imports. imports.entries ≡ merged component.now.import_types) }
{
    let mut imports = IndexMap::new(alloc);
    for (name, import) in component.import_types.as_slice() {
        put(&mut imports, name, import.try_clone()?)?;
    }
    Ok(imports)
}

// The exports of a component by their names, each with the type of its item.
fn export_types_of(
    alloc: Global,
    component: &Component,
) -> Result<IndexMap<Text, ComponentExtern>, OutOfMemory>
    requires { All (λ x. x.1.number < length component.now.export_items) component.now.exports }
    ensures { IfOk result (λ exports. AllZip (IsExternOf component.now.export_items) (merged (map (λ x. (x.0, (x.1, x.2))) component.now.exports)) exports.entries) }
{
    let mut exports = IndexMap::new(alloc);
    for (name, export, extern_data) in component.exports.as_slice() {
        let ty = type_of_item(&component.export_items[*export]);
        let extern_data = extern_data.try_clone()?;
        put(&mut exports, name, ComponentExtern { extern_data, ty })?;
    }
    Ok(exports)
}

// The type of an item that is exported.
fn type_of_item(item: &Export) -> TypeDef
    ensures { result ≡ type_of item.now }
{
    match item {
        Export::LiftedFunction(index) => TypeDef::ComponentFunc(*index),
        Export::ModuleStatic(index) => TypeDef::Module(*index),
        Export::ModuleImport(index) => TypeDef::Module(*index),
        Export::Instance(index) => TypeDef::ComponentInstance(*index),
        Export::AnyType(ty) => *ty,
    }
}
