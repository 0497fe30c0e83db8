//! The source of a block, by its entries, which are parted by `; `: `resource`, a defined type (`defined`), `module` with its imports
//! and exports (`core_items`), and
//!
//!     func T NAME=T..                  a function type, by its result and its parameters; `async-func` is an async one
//!     instance NAME=E..                an instance type, by its exports
//!     component NAME=E.. > NAME=E..    a component type, by its imports and its exports
//!
//! An E is the kind and the number of an entry, as `func:0`, or `value:` and a type of values. One that makes a type known is of the kind
//! `resource` or `type`, or of `func-type`, `instance-type` or `component-type`.

ghost use Rattle.std.specs.Prelude.{◌≡◌, IsTrue};

use crate::core_items::add_module;
use crate::defined::{type_of, value_of};
use crate::listed::{Listed, list_of};
use crate::live_source::{are_live_items, is_live_defined, is_live_func};
use crate::words::{small_number_of, word_of};
use fact_entity::{EntityRef, PushError, ResourceId};
use fact_source::{
    ComponentAnyTypeId, ComponentEntityType, SourceComponent, SourceFunc, SourceInstance,
    SourceItem, SourceTypes,
};
use std::alloc::{AllocError, Global};

/// The number of the source.
pub const SOURCE: u64 = 7;

/// The type that an import or export makes known.
fn created_of(kind: &str, number: u32) -> Option<ComponentAnyTypeId> {
    match kind {
        "resource" => Some(ComponentAnyTypeId::Resource(ResourceId::from_u32(number))),
        "type" => Some(ComponentAnyTypeId::Defined(EntityRef::from_u32(number))),
        "func-type" => Some(ComponentAnyTypeId::Func(EntityRef::from_u32(number))),
        "instance-type" => Some(ComponentAnyTypeId::Instance(EntityRef::from_u32(number))),
        "component-type" => Some(ComponentAnyTypeId::Component(EntityRef::from_u32(number))),
        _ => None,
    }
}

/// The type of any kind that a word names.
pub fn any_of(word: &str) -> Option<ComponentAnyTypeId> {
    let (kind, number) = word.split_once(":")?;
    created_of(kind, small_number_of(number))
}

/// The type of an import or export that a word names.
pub fn entity_of(word: &str) -> Option<ComponentEntityType> {
    let (kind, id) = word.split_once(":")?;
    let number = small_number_of(id);
    match kind {
        "module" => Some(ComponentEntityType::Module(EntityRef::from_u32(number))),
        "func" => Some(ComponentEntityType::Func(EntityRef::from_u32(number))),
        "instance" => Some(ComponentEntityType::Instance(EntityRef::from_u32(number))),
        "component" => Some(ComponentEntityType::Component(EntityRef::from_u32(number))),
        "value" => Some(ComponentEntityType::Value(value_of(id)?)),
        _ => {
            let created = created_of(kind, number)?;
            Some(ComponentEntityType::AnyType { created })
        }
    }
}

/// An import or export of which nothing but the type is said.
impl Listed for SourceItem {
    fn of_word(_alloc: Global, word: &str) -> Result<Option<SourceItem>, AllocError> {
        let Some(ty) = entity_of(word) else {
            return Ok(None);
        };
        Ok(Some(SourceItem {
            ty,
            implements: None,
            external_id: None,
        }))
    }
}

/// Adds a defined type, and answers whether it names what is there; so do those below.
fn add_defined(
    alloc: Global,
    types: &mut SourceTypes,
    kind: &str,
    words: &str,
) -> Result<bool, PushError> {
    let Some(ty) = type_of(alloc, kind, words)? else {
        return Ok(false);
    };
    if !is_live_defined(types, &ty) {
        return Ok(false);
    }
    types.add_defined(ty)?;
    Ok(true)
}

fn add_func(
    alloc: Global,
    types: &mut SourceTypes,
    async_: bool,
    words: &str,
) -> Result<bool, PushError> {
    let (result, params) = word_of(words);
    let func = SourceFunc {
        async_,
        params: list_of(alloc, params)?,
        result: value_of(result),
    };
    if !is_live_func(types, &func) {
        return Ok(false);
    }
    types.add_func(func)?;
    Ok(true)
}

fn add_instance(alloc: Global, types: &mut SourceTypes, words: &str) -> Result<bool, PushError> {
    let exports = list_of(alloc, words)?;
    if !are_live_items(types, &exports) {
        return Ok(false);
    }
    types.add_instance(SourceInstance { exports })?;
    Ok(true)
}

fn add_component(alloc: Global, types: &mut SourceTypes, words: &str) -> Result<bool, PushError> {
    let (imports, exports) = words.split_once(">").unwrap_or((words, ""));
    let imports = list_of(alloc, imports)?;
    let exports = list_of(alloc, exports)?;
    if !are_live_items(types, &imports) || !are_live_items(types, &exports) {
        return Ok(false);
    }
    types.add_component(SourceComponent { imports, exports })?;
    Ok(true)
}

fn add_resource(types: &mut SourceTypes) -> Result<bool, PushError> {
    types.add_resource()?;
    Ok(true)
}

fn add_entry(alloc: Global, types: &mut SourceTypes, entry: &str) -> Result<bool, PushError> {
    let (kind, words) = word_of(entry);
    match kind {
        "resource" => add_resource(types),
        "func" => add_func(alloc, types, false, words),
        "async-func" => add_func(alloc, types, true, words),
        "instance" => add_instance(alloc, types, words),
        "component" => add_component(alloc, types, words),
        "module" => add_module(alloc, types, words),
        _ => add_defined(alloc, types, kind, words),
    }
}

fn add_entries(alloc: Global, types: &mut SourceTypes, entries: &str) -> Result<bool, PushError> {
    for entry in entries.split("; ") {
        if !add_entry(alloc, types, entry)? {
            return Ok(false);
        }
    }
    Ok(true)
}

/// Adds the entries of a text, and answers whether that was done.
pub fn is_filled(alloc: Global, types: &mut SourceTypes, entries: &str) -> bool
    ensures { IsTrue result → types.new.number ≡ 7 }
{
    matches!(add_entries(alloc, types, entries), Ok(true)) && types.number() == SOURCE
}
