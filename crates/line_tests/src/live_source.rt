//! Whether types of a source name entries that it holds.

ghost use Rattle.std.specs.Prelude.{IsTrue, length};
ghost use Rattle.fact_source.specs.Live.{IsValueBelow, IsPayloadBelow, IsLiveDefined, IsLiveSourceFunc, IsLiveAny, IsLiveEntity, AreLiveItems};

use fact_source::{
    ComponentAnyTypeId, ComponentDefinedType, ComponentEntityType, ComponentValType, SourceFunc,
    SourceItem, SourceTypes,
};
use fact_wasm::{Seq, Text};

/// Whether a type of values is a primitive one, or names an entry that the source holds.
fn is_live(types: &SourceTypes, ty: &ComponentValType) -> bool
    ensures { IsTrue result → IsValueBelow (length types.now.defined) ty.now }
{
    match *ty {
        ComponentValType::Primitive(_) => true,
        ComponentValType::Defined(id) => types.get_defined(id).is_some(),
    }
}

/// Whether a payload, if there is one, has such a type.
fn is_live_payload(types: &SourceTypes, payload: &Option<ComponentValType>) -> bool
    ensures { IsTrue result → IsPayloadBelow (length types.now.defined) payload.now }
{
    match payload {
        Some(ty) => is_live(types, ty),
        None => true,
    }
}

/// Whether each type that a defined type names is such a type, and its resource is there.
pub fn is_live_defined(types: &SourceTypes, entry: &ComponentDefinedType) -> bool
    ensures { IsTrue result → IsLiveDefined types.now entry.now }
{
    match entry {
        ComponentDefinedType::Record(fields) => {
            fields
                .as_slice()
                .iter()
                .all(|field| is_live(types, &field.1))
        }
        ComponentDefinedType::Variant(cases) => cases
            .as_slice()
            .iter()
            .all(|case| is_live_payload(types, &case.1)),
        ComponentDefinedType::Tuple(members) => {
            members.as_slice().iter().all(|ty| is_live(types, ty))
        }
        ComponentDefinedType::Map(key, value) => is_live(types, key) && is_live(types, value),
        ComponentDefinedType::List(ty) => is_live(types, ty),
        ComponentDefinedType::Option(ty) => is_live(types, ty),
        ComponentDefinedType::FixedLengthList(ty, _) => is_live(types, ty),
        ComponentDefinedType::Result { ok, err } => {
            is_live_payload(types, ok) && is_live_payload(types, err)
        }
        ComponentDefinedType::Own(id) => types.has_resource(*id),
        ComponentDefinedType::Borrow(id) => types.has_resource(*id),
        ComponentDefinedType::Future(payload) => is_live_payload(types, payload),
        ComponentDefinedType::Stream(payload) => is_live_payload(types, payload),
        ComponentDefinedType::Primitive(_) => true,
        ComponentDefinedType::Flags(_) => true,
        ComponentDefinedType::Enum(_) => true,
    }
}

/// Whether each type that a function names is such a type.
pub fn is_live_func(types: &SourceTypes, func: &SourceFunc) -> bool
    ensures { IsTrue result → IsLiveSourceFunc types.now func.now }
{
    let params = func.params.as_slice();
    params.iter().all(|param| is_live(types, &param.1)) && is_live_payload(types, &func.result)
}

/// Whether a type that an export makes known is there.
pub fn is_live_any(types: &SourceTypes, id: ComponentAnyTypeId) -> bool
    ensures { IsTrue result → IsLiveAny types.now id }
{
    match id {
        ComponentAnyTypeId::Resource(id) => types.has_resource(id),
        ComponentAnyTypeId::Defined(id) => types.get_defined(id).is_some(),
        ComponentAnyTypeId::Func(id) => types.get_func(id).is_some(),
        ComponentAnyTypeId::Instance(id) => types.get_instance(id).is_some(),
        ComponentAnyTypeId::Component(id) => types.get_component(id).is_some(),
    }
}

/// Whether the type of an import or export is there.
pub fn is_live_entity(types: &SourceTypes, ty: &ComponentEntityType) -> bool
    ensures { IsTrue result → IsLiveEntity types.now ty.now }
{
    match *ty {
        ComponentEntityType::Module(id) => types.get_module(id).is_some(),
        ComponentEntityType::Func(id) => types.get_func(id).is_some(),
        ComponentEntityType::Value(ty) => is_live(types, &ty),
        ComponentEntityType::AnyType { created } => is_live_any(types, created),
        ComponentEntityType::Instance(id) => types.get_instance(id).is_some(),
        ComponentEntityType::Component(id) => types.get_component(id).is_some(),
    }
}

/// Whether those of all imports or exports are there.
pub fn are_live_items(types: &SourceTypes, items: &Seq<(Text, SourceItem)>) -> bool
    ensures { IsTrue result → AreLiveItems types.now items.now }
{
    items
        .as_slice()
        .iter()
        .all(|item| is_live_entity(types, &item.1.ty))
}
