//! The tables of types that no builder fills, and the module types beside them.

use crate::traits::signature;
use fact_entity::{EntityRef, ModuleInternedTypeIndex, PushError};
use fact_types::{
    ComponentTypes, Lookup, ModuleTypes, ModuleTypesBuilder, TypeComponent, TypeComponentInstance,
    TypeModule,
};
use fact_wasm::ValType;
use std::alloc::Global;

/// Whether an index is the first of its table, and the table has no second entry.
fn is_only<T: Lookup<I>, I: EntityRef>(table: &T, index: I) -> bool {
    (index.as_u32() == 0) & table.get(index).is_some() & table.get(I::from_u32(1)).is_none()
}

/// Whether a type of core modules stands where it is put.
fn puts_module(alloc: Global, types: &mut ComponentTypes) -> Result<bool, PushError> {
    let index = types.push_module(TypeModule::new(alloc))?;
    let module = &types[index];
    let is_empty = module.imports.is_empty() & module.exports.is_empty();
    Ok(is_empty & is_only(types, index))
}

/// Whether a type of components stands where it is put.
fn puts_component(alloc: Global, types: &mut ComponentTypes) -> Result<bool, PushError> {
    let index = types.push_component(TypeComponent::new(alloc))?;
    let component = &types[index];
    let is_empty = component.imports.is_empty() & component.exports.is_empty();
    Ok(is_empty & is_only(types, index))
}

/// Whether a type of instances stands where it is put.
fn puts_instance(alloc: Global, types: &mut ComponentTypes) -> Result<bool, PushError> {
    let index = types.push_component_instance(TypeComponentInstance::new(alloc))?;
    Ok(types[index].exports.is_empty() & is_only(types, index))
}

/// Whether tables hold what is pushed.
pub fn tables_hold_what_is_pushed(alloc: Global) -> bool {
    let mut types = ComponentTypes::new(alloc);
    let module = matches!(puts_module(alloc, &mut types), Ok(true));
    let component = matches!(puts_component(alloc, &mut types), Ok(true));
    let instance = matches!(puts_instance(alloc, &mut types), Ok(true));
    types.reveal();
    drop(types);
    module & component & instance
}

/// Whether the type of core functions of these parameters gets the index of a number.
fn is_interned(
    alloc: Global,
    builder: &mut ModuleTypesBuilder,
    params: &[ValType],
    number: u32,
) -> bool {
    match signature(alloc, params) {
        Ok(ty) => matches!(builder.intern(ty), Ok(index) if index.as_u32() == number),
        Err(_) => false,
    }
}

/// Whether a type of one i32 is interned, the same once more under its index, and one of nothing behind it.
fn are_interned(alloc: Global, builder: &mut ModuleTypesBuilder) -> bool {
    is_interned(alloc, builder, &[ValType::I32], 0)
        & is_interned(alloc, builder, &[ValType::I32], 0)
        & is_interned(alloc, builder, &[], 1)
        & (builder.len() == 2)
        & builder.get(EntityRef::from_u32(2)).is_none()
}

/// Whether module types are one of a parameter and one of none.
fn are_two(module_types: &ModuleTypes) -> bool {
    module_types.len() == 2
        && module_types[EntityRef::from_u32(0)].params.len() == 1
        && module_types.get(EntityRef::from_u32(1)).is_some()
        && module_types.get(EntityRef::from_u32(2)).is_none()
}

/// Whether module types that are set are those that are read.
fn are_set(types: &mut ComponentTypes, module_types: ModuleTypes) -> bool {
    let unset = types.module_types_opt().is_none();
    types.set_module_types(module_types);
    let set = types.module_types_opt().is_some();
    let read = are_two(types.module_types());
    let second = types.get(ModuleInternedTypeIndex::from_u32(1)).is_some();
    unset && set && read && second && are_two(types.module_types_mut())
}

/// Whether module types stand once.
pub fn module_types_stand_once(alloc: Global) -> bool {
    let mut builder = ModuleTypesBuilder::new(alloc, 7);
    let interned = are_interned(alloc, &mut builder);
    let mut types = ComponentTypes::new(alloc);
    let set = are_set(&mut types, builder.finish());
    drop(types);
    interned && set
}
