//! How types of components are told: a type by its kind and its index, a type of values by its own kind, or `word`; imports and exports by
//! their names, each with `=` and its type.

use crate::funcs::add_tables;
use crate::types::{add_abi, named};
use fact_builder::ComponentTypesBuilder;
use fact_entity::EntityRef;
use fact_types::{
    ComponentExtern, ComponentTypes, InterfaceType, Lookup, TypeComponent, TypeComponentIndex,
    TypeComponentInstanceIndex, TypeDef, TypeFuncIndex, TypeResourceTable, TypeResourceTableIndex,
    TypeTupleIndex,
};
use fact_wasm::Text;
use indexmap::IndexMap;
use std::alloc::AllocError;

/// The kind of a type, and its index in the table of this kind.
fn named_def(def: &TypeDef) -> (&'static str, u32) {
    match *def {
        TypeDef::Component(i) => ("component", i.number),
        TypeDef::ComponentInstance(i) => ("instance", i.number),
        TypeDef::ComponentFunc(i) => ("func", i.number),
        TypeDef::Interface(ty) => named(&ty),
        TypeDef::Module(i) => ("module", i.number),
        TypeDef::CoreFunc(i) => ("core-func", i.number),
        TypeDef::Resource(i) => ("resource", i.number),
    }
}

pub fn add_def(page: &mut String, def: &TypeDef) -> Result<(), AllocError> {
    let (kind, index) = named_def(def);
    write!(page, "{kind} {index}")
}

fn add_externs(
    page: &mut String,
    externs: &IndexMap<Text, ComponentExtern>,
) -> Result<(), AllocError> {
    for (name, it) in externs.iter() {
        write!(page, "{}=", name.as_str())?;
        add_def(page, &it.ty)?;
        page.push(' ')?;
    }
    Ok(())
}

/// Adds the imports of a component, and behind `>` its exports.
fn add_component(page: &mut String, component: &TypeComponent) -> Result<(), AllocError> {
    add_externs(page, &component.imports)?;
    page.push_str("> ")?;
    add_externs(page, &component.exports)
}

/// Adds the types of members.
fn add_members(page: &mut String, types: &[InterfaceType]) -> Result<(), AllocError> {
    for ty in types {
        let (kind, index) = named(ty);
        write!(page, "{kind} {index} ")?;
    }
    Ok(())
}

/// Adds what the entry of a kind and a number has: the members of a tuple, the exports of an instance, or the imports of a component, and
/// behind `>` its exports.
pub fn add_entry(
    page: &mut String,
    tables: &ComponentTypes,
    kind: &str,
    number: u32,
) -> Result<(), AllocError> {
    match kind {
        "tuple" => {
            if let Some(tuple) = tables.get(TypeTupleIndex::from_u32(number)) {
                return add_members(page, tuple.types.as_slice());
            }
        }
        "instance" => {
            if let Some(instance) = tables.get(TypeComponentInstanceIndex::from_u32(number)) {
                return add_externs(page, &instance.exports);
            }
        }
        _ => {
            if let Some(component) = tables.get(TypeComponentIndex::from_u32(number)) {
                return add_component(page, component);
            }
        }
    }
    page.push_str("no such entry")
}

/// Adds how the parameters of a function are laid out one behind another.
pub fn add_params(
    page: &mut String,
    tables: &ComponentTypes,
    index: TypeFuncIndex,
) -> Result<(), AllocError> {
    let Some(func) = tables.get(index) else {
        return page.push_str("no such entry");
    };
    match tables.get(func.params) {
        Some(params) => add_abi(page, &params.abi),
        None => page.push_str("no such entry"),
    }
}

/// Adds a table of a resource: its index, and what the resource is.
pub fn add_table(
    page: &mut String,
    tables: &ComponentTypes,
    index: TypeResourceTableIndex,
) -> Result<(), AllocError> {
    let number = index.as_u32();
    match tables.get(index) {
        Some(TypeResourceTable::Abstract(ty)) => write!(page, "{number} abstract {}", ty.as_u32()),
        Some(TypeResourceTable::Concrete { ty, instance }) => {
            let (ty, instance) = (ty.as_u32(), instance.as_u32());
            write!(page, "{number} concrete {ty} in {instance}")
        }
        None => page.push_str("no such entry"),
    }
}

/// Adds how many tables of handles there are, and how many core types.
pub fn add_counts(page: &mut String, builder: &ComponentTypesBuilder) -> Result<(), AllocError> {
    add_tables(page, builder)?;
    write!(page, " core {}", builder.module_types_builder().len())
}
