//! Imports and exports, and what is told of them.

use fact_entity::{
    ComponentAnyTypeId, ComponentDefinedTypeId, EntityRef, ResourceIndex,
    RuntimeComponentInstanceIndex,
};
use fact_types::{
    AbstractResourceIndex, ComponentExtern, ComponentExternData, ComponentItem, EntityType,
    InterfaceType, TypeDef, TypeResourceTable,
};
use fact_wasm::{Text, ValType};
use std::alloc::{AllocError, Global};

/// A value and a copy of it.
fn twice<T: Copy>(value: T) -> (T, T) {
    (value, value)
}

/// Whether items and types are copied.
fn are_copied() -> bool {
    let id = ComponentAnyTypeId::Defined(ComponentDefinedTypeId::from_u32(3));
    let global = EntityType::Global {
        ty: ValType::I32,
        mutable: true,
    };
    matches!(
        twice(ComponentItem::AnyType(id)).1,
        ComponentItem::AnyType(_)
    ) & matches!(twice(global).1, EntityType::Global { mutable: true, .. })
        & matches!(
            twice(TypeDef::Interface(InterfaceType::Char)).1,
            TypeDef::Interface(InterfaceType::Char)
        )
}

/// What is said of an import or export, with two texts.
fn data(alloc: Global) -> Result<ComponentExternData, AllocError> {
    Ok(ComponentExternData {
        implements: Some(Text::from_str(alloc, "a:b/c")?),
        external_id: Some(Text::from_str(alloc, "d")?),
    })
}

/// Whether the same is said.
fn is_same(first: &ComponentExternData, second: &ComponentExternData) -> bool {
    first.implements == second.implements && first.external_id == second.external_id
}

/// An import or export of a type of characters.
fn character(alloc: Global) -> Result<ComponentExtern, AllocError> {
    Ok(ComponentExtern {
        extern_data: data(alloc)?,
        ty: TypeDef::Interface(InterfaceType::Char),
    })
}

/// Whether an import or export is of a type of characters, and says what another one says.
fn is_copy(copy: &ComponentExtern, first: &ComponentExtern) -> bool {
    matches!(copy.ty, TypeDef::Interface(InterfaceType::Char))
        && is_same(&copy.extern_data, &first.extern_data)
}

/// Whether an import or export is copied, with what is said beside its type.
fn is_copied(first: &ComponentExtern) -> bool {
    match first.try_clone() {
        Ok(copy) => is_copy(&copy, first),
        Err(_) => false,
    }
}

/// Whether the words for what is exported are those of a user.
fn are_described() -> bool {
    let kinds = [
        (TypeDef::Component(EntityRef::from_u32(0)), "component"),
        (
            TypeDef::ComponentInstance(EntityRef::from_u32(0)),
            "instance",
        ),
        (TypeDef::ComponentFunc(EntityRef::from_u32(0)), "function"),
        (TypeDef::Interface(InterfaceType::U8), "type"),
        (TypeDef::Module(EntityRef::from_u32(0)), "core module"),
        (TypeDef::CoreFunc(EntityRef::from_u32(0)), "core function"),
        (TypeDef::Resource(EntityRef::from_u32(0)), "resource"),
    ];
    for (kind, words) in &kinds {
        if kind.desc() != *words {
            return false;
        }
    }
    true
}

/// Whether a concrete table of handles has parts, and an abstract one has none.
fn have_parts() -> bool {
    let ty = ResourceIndex::from_u32(3);
    let instance = RuntimeComponentInstanceIndex::from_u32(1);
    let table = TypeResourceTable::Concrete { ty, instance };
    let general = TypeResourceTable::Abstract(AbstractResourceIndex::from_u32(1));
    table.concrete() == Some((ty, instance))
        && table.unwrap_concrete_ty() == ty
        && table.unwrap_concrete_instance() == instance
        && general.concrete().is_none()
}

/// Whether imports and exports are copied, and what they are is told.
pub fn imports_and_exports_are_told(alloc: Global) -> bool {
    let whole = match character(alloc) {
        Ok(first) => is_copied(&first),
        Err(_) => false,
    };
    whole & are_copied() & are_described() & have_parts()
}
