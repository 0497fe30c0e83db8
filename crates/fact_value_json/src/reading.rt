//! Values that are read from JSON by their types.
ghost use Rattle.std.specs.Prelude.{◌≡◌, All, List, Ok, Err, IfOk, MatchResult, Some, length, slice_get};
ghost use Rattle.serde_json.specs.View.{view, items_view};
ghost use Rattle.fact_types.specs.Functions.{HaveShapes};
ghost use Rattle.fact_types.specs.Heights.{IsMemberOf};
ghost use Rattle.fact_types.specs.Shapes.{Shape};
ghost use Rattle.fact_types.specs.Tables.{IsLive};
ghost use Rattle.fact_values.specs.Load.{entry_of as entry};
ghost use Rattle.fact_abi.specs.Finding.{member_type_at};
ghost use Rattle.fact_abi.specs.Nodes.{HasNode, AreLower};
ghost use Rattle.fact_plan.specs.Fault.{Gives, UnlessMemory};
ghost use Rattle.fact_value_json.specs.Reading.{counted_items as counted, entry_from, items_in, only_member as only_member_in, values_at, values_in as values_read};
ghost use Rattle.fact_value_json.specs.Walks.{ReadsValue, ReadsItem, ReadsMember, ReadsField, ReadsFields, ReadsPlaces, ReadsCase, ReadsRecord, ReadsTuple, ReadsItems, ReadsList, ReadsFixedList, ReadsMap, ReadsEntry, ReadsChoice, ReadsPayload};

use crate::parts::{check_known, check_null, check_required, read_enum, read_flags};
use crate::plain::{read_handle, read_plain};
use fact_abi::{HandleKind, Node, NodeKind, Value, index_of_str, member_type, named, node_of_type};
use fact_plan::{PlanFault, at_key, at_place};
use fact_types::{ComponentTypes, InterfaceType};
use fact_wasm::{Seq, Text};
use serde_json::Value as Json;
use std::alloc::Global;

/// The values of live types, one by one, that stand in a JSON list of as many, or the first fault in it. The path to a fault
/// begins with `path`, and goes on by a dot and a key, or a dot and a place in a list.
pub fn read_values(
    alloc: Global,
    types: &ComponentTypes,
    tys: &[InterfaceType],
    json: &Json,
    path: &str,
) -> Result<Seq<Value>, PlanFault>
    requires { All (λ ty. IsLive types.now ty) tys.now }
    ensures { (ss : List Shape) → HaveShapes types.now tys.now ss → Gives (values_at path.now ss (view json.now)) result }
{
    match values_in(alloc, types, tys, json) {
        Ok(values) => Ok(values),
        Err(fault) => Err(fault.under(alloc, path)?),
    }
}

/// The items of a JSON list.
#[tactic(auto, unfolding(crate::specs::Reading::items_in))]
fn items_of(alloc: Global, json: &Json) -> Result<&[Json], PlanFault>
    ensures { MatchResult result (λ list. items_in (view json.now) ≡ Ok (items_view list.now)) (λ e. UnlessMemory e (items_in (view json.now) ≡ Err e)) }
{
    match json.as_array() {
        Some(list) => Ok(list.as_slice()),
        None => Err(PlanFault::wrong_kind(alloc)),
    }
}

/// The items of a JSON list of so many.
fn counted_items(alloc: Global, count: usize, json: &Json) -> Result<&[Json], PlanFault>
    ensures items { MatchResult result (λ list. counted count (view json.now) ≡ Ok (items_view list.now)) (λ e. UnlessMemory e (counted count (view json.now) ≡ Err e)) }
    ensures count { IfOk result (λ list. length list.now ≡ count) }
{
    let list = items_of(alloc, json)?;
    if list.len() == count {
        Ok(list)
    } else {
        Err(PlanFault::wrong_kind(alloc))
    }
}

/// The one key of a JSON object, with its value.
#[tactic(auto, unfolding(crate::specs::Reading::only_member))]
fn only_member(alloc: Global, json: &Json) -> Result<(&str, &Json), PlanFault>
    ensures { MatchResult result (λ m. only_member_in (view json.now) ≡ Ok (m.0.now, view m.1.now)) (λ e. UnlessMemory e (only_member_in (view json.now) ≡ Err e)) }
{
    let Some(members) = json.as_object() else {
        return Err(PlanFault::wrong_kind(alloc));
    };
    if members.len() != 1 {
        return Err(PlanFault::wrong_kind(alloc));
    }
    match members.first_key_value() {
        Some((name, payload)) => Ok((name.as_str(), payload)),
        None => Err(PlanFault::wrong_kind(alloc)),
    }
}

/// The entry of a key and a value, and no other.
fn entry_of(alloc: Global, values: Seq<Value>) -> Result<(Value, Value), PlanFault>
    ensures { Gives (entry_from (entry values)) result }
{
    match <[Value; 2]>::try_from(values.into_vec()) {
        Ok(members) => {
            let [key, value] = members;
            Ok((key, value))
        }
        Err(others) => {
            drop(others);
            Err(PlanFault::wrong_kind(alloc))
        }
    }
}

/// Values of types, one by one.
fn values_in(
    alloc: Global,
    types: &ComponentTypes,
    tys: &[InterfaceType],
    json: &Json,
) -> Result<Seq<Value>, PlanFault>
    requires { All (λ ty. IsLive types.now ty) tys.now }
    ensures { (ss : List Shape) → HaveShapes types.now tys.now ss → Gives (values_read ss (view json.now)) result }
{
    let list = counted_items(alloc, tys.len(), json)?;
    let mut values = Seq::new(alloc);
    for (place, item) in list.iter().enumerate() {
        values.push(read_at(alloc, types, tys, place, item)?)?;
    }
    Ok(values)
}

/// The item of a place of a list, a value of the type of that place.
fn read_at(
    alloc: Global,
    types: &ComponentTypes,
    tys: &[InterfaceType],
    place: usize,
    json: &Json,
) -> Result<Value, PlanFault>
    requires { All (λ ty. IsLive types.now ty) tys.now }
    ensures { (ty : InterfaceType) → slice_get tys.now place ≡ Some ty → ReadsItem types.now ty place (view json.now) result }
{
    match tys.get(place) {
        Some(ty) => read_item(alloc, types, ty, place, json),
        None => Err(PlanFault::wrong_kind(alloc)),
    }
}

/// A value of a type.
#[cycle(reading)]
fn read_value(
    alloc: Global,
    types: &ComponentTypes,
    ty: &InterfaceType,
    json: &Json,
) -> Result<Value, PlanFault>
    requires { IsLive types.now ty.now }
    ensures { ReadsValue types.now ty.now (view json.now) result }
{
    match node_of_type(alloc, types, ty)? {
        None => read_plain(alloc, ty, json),
        Some(node) => read_node(alloc, types, ty, &node, json),
    }
}

/// A value of a type with members.
#[cycle(reading)]
fn read_node(
    alloc: Global,
    types: &ComponentTypes,
    ty: &InterfaceType,
    node: &Node,
    json: &Json,
) -> Result<Value, PlanFault>
    requires live { IsLive types.now ty.now }
    requires told { HasNode types.now ty.now node.now }
    ensures { ReadsValue types.now ty.now (view json.now) result }
{
    let _whole = types.canonical_abi(ty);
    match node.kind {
        NodeKind::Record => read_record(alloc, types, ty, node, json),
        NodeKind::Tuple => read_tuple(alloc, types, ty, node, json),
        NodeKind::Variant => read_case(alloc, types, ty, node, json),
        NodeKind::Option => read_case(alloc, types, ty, node, json),
        NodeKind::Result => read_case(alloc, types, ty, node, json),
        NodeKind::Enum => read_enum(alloc, &node.names, json),
        NodeKind::Flags => read_flags(alloc, &node.names, json),
        NodeKind::List(element) => read_list(alloc, types, ty, &element, json),
        NodeKind::FixedList(count, element) => {
            read_fixed_list(alloc, types, ty, &element, count, json)
        }
        NodeKind::Map(_, _) => read_map(alloc, types, ty, node, json),
        NodeKind::Future(table, _) => read_handle(alloc, HandleKind::Future, table, json),
        NodeKind::Stream(table, _) => read_handle(alloc, HandleKind::Stream, table, json),
    }
}

/// A record, by the names of its fields.
#[cycle(reading)]
fn read_record(
    alloc: Global,
    types: &ComponentTypes,
    owner: &InterfaceType,
    node: &Node,
    json: &Json,
) -> Result<Value, PlanFault>
    requires { AreLower types.now owner.now node.now.types }
    ensures { ReadsRecord types.now node.now (view json.now) result }
{
    check_known(alloc, json, node.names.as_slice())?;
    check_required(alloc, json, node.names.as_slice())?;
    let values = read_fields(alloc, types, owner, node, json)?;
    Ok(Value::Record(named(alloc, &node.names, values)?))
}

/// The values of the fields of a type, in its order.
#[cycle(reading)]
fn read_fields(
    alloc: Global,
    types: &ComponentTypes,
    owner: &InterfaceType,
    node: &Node,
    json: &Json,
) -> Result<Seq<Value>, PlanFault>
    requires { AreLower types.now owner.now node.now.types }
    ensures { ReadsFields types.now node.now (view json.now) result }
{
    let mut values = Seq::new(alloc);
    for (place, name) in node.names.as_slice().iter().enumerate() {
        values.push(read_field(alloc, types, owner, node, place, name, json)?)?;
    }
    Ok(values)
}

/// The value of the field of a place, which has a name.
#[cycle(reading)]
fn read_field(
    alloc: Global,
    types: &ComponentTypes,
    owner: &InterfaceType,
    node: &Node,
    place: usize,
    name: &Text,
    json: &Json,
) -> Result<Value, PlanFault>
    requires { AreLower types.now owner.now node.now.types }
    ensures { ReadsField types.now (member_type_at node.now.types place) name.now (view json.now) result }
{
    match json.get(name.as_str()) {
        Some(inner) => {
            let value = read_member(alloc, types, owner, node, place, inner);
            at_key(alloc, name.as_str(), value)
        }
        None => Err(PlanFault::missing(alloc, name.as_str())?),
    }
}

/// A value of the member of a place.
#[cycle(reading)]
fn read_member(
    alloc: Global,
    types: &ComponentTypes,
    owner: &InterfaceType,
    node: &Node,
    place: usize,
    json: &Json,
) -> Result<Value, PlanFault>
    requires { AreLower types.now owner.now node.now.types }
    ensures { ReadsMember types.now (member_type_at node.now.types place) (view json.now) result }
{
    match member_type(node, place) {
        Some(ty) => read_value(alloc, types, &ty, json),
        None => Err(PlanFault::wrong_kind(alloc)),
    }
}

/// The values of the members of a type, one by one.
#[cycle(reading)]
fn read_places(
    alloc: Global,
    types: &ComponentTypes,
    owner: &InterfaceType,
    node: &Node,
    json: &Json,
) -> Result<Seq<Value>, PlanFault>
    requires { AreLower types.now owner.now node.now.types }
    ensures { ReadsPlaces types.now node.now (view json.now) result }
{
    let list = counted_items(alloc, node.types.len(), json)?;
    let mut values = Seq::new(alloc);
    for (place, item) in list.iter().enumerate() {
        let value = read_member(alloc, types, owner, node, place, item);
        values.push(at_place(alloc, place, value)?)?;
    }
    Ok(values)
}

#[cycle(reading)]
fn read_tuple(
    alloc: Global,
    types: &ComponentTypes,
    owner: &InterfaceType,
    node: &Node,
    json: &Json,
) -> Result<Value, PlanFault>
    requires { AreLower types.now owner.now node.now.types }
    ensures { ReadsTuple types.now node.now (view json.now) result }
{
    let values = read_places(alloc, types, owner, node, json)?;
    Ok(Value::Tuple(values))
}

/// A case of a type, by its name.
#[cycle(reading)]
fn read_case(
    alloc: Global,
    types: &ComponentTypes,
    owner: &InterfaceType,
    node: &Node,
    json: &Json,
) -> Result<Value, PlanFault>
    requires { AreLower types.now owner.now node.now.types }
    ensures { ReadsCase types.now node.now (view json.now) result }
{
    let (name, payload) = only_member(alloc, json)?;
    read_choice(alloc, types, owner, node, name, payload)
}

/// The first case of a name, with its payload.
#[cycle(reading)]
fn read_choice(
    alloc: Global,
    types: &ComponentTypes,
    owner: &InterfaceType,
    node: &Node,
    name: &str,
    json: &Json,
) -> Result<Value, PlanFault>
    requires { AreLower types.now owner.now node.now.types }
    ensures { ReadsChoice types.now node.now name.now (view json.now) result }
{
    let Some(place) = index_of_str(&node.names, name) else {
        return Err(PlanFault::unknown_key(alloc, name)?);
    };
    let payload = read_payload(alloc, types, owner, node, place, json);
    Ok(Value::Case {
        payload: at_key(alloc, name, payload)?,
        name: Text::from_str(alloc, name)?,
    })
}

/// The payload of the case of a place.
#[cycle(reading)]
fn read_payload(
    alloc: Global,
    types: &ComponentTypes,
    owner: &InterfaceType,
    node: &Node,
    place: usize,
    json: &Json,
) -> Result<Seq<Value>, PlanFault>
    requires { AreLower types.now owner.now node.now.types }
    ensures { ReadsPayload types.now (member_type_at node.now.types place) (view json.now) result }
{
    let mut payload = Seq::new(alloc);
    match member_type(node, place) {
        Some(ty) => payload.push(read_value(alloc, types, &ty, json)?)?,
        None => check_null(alloc, json)?,
    }
    Ok(payload)
}

/// The item of a place of a list, a value of a type.
#[cycle(reading)]
fn read_item(
    alloc: Global,
    types: &ComponentTypes,
    ty: &InterfaceType,
    place: usize,
    json: &Json,
) -> Result<Value, PlanFault>
    requires { IsLive types.now ty.now }
    ensures { ReadsItem types.now ty.now place (view json.now) result }
{
    let value = read_value(alloc, types, ty, json);
    at_place(alloc, place, value)
}

/// A list of any length.
#[cycle(reading)]
fn read_list(
    alloc: Global,
    types: &ComponentTypes,
    owner: &InterfaceType,
    element: &InterfaceType,
    json: &Json,
) -> Result<Value, PlanFault>
    requires { IsMemberOf types.now element.now owner.now }
    ensures { ReadsList types.now element.now (view json.now) result }
{
    let list = items_of(alloc, json)?;
    let values = read_items(alloc, types, owner, element, list)?;
    Ok(Value::List(values))
}

/// Values of one type, one after another.
#[cycle(reading)]
fn read_items(
    alloc: Global,
    types: &ComponentTypes,
    owner: &InterfaceType,
    element: &InterfaceType,
    list: &[Json],
) -> Result<Seq<Value>, PlanFault>
    requires { IsMemberOf types.now element.now owner.now }
    ensures { ReadsItems types.now element.now (items_view list.now) result }
{
    let mut values = Seq::new(alloc);
    for (place, item) in list.iter().enumerate() {
        values.push(read_item(alloc, types, element, place, item)?)?;
    }
    Ok(values)
}

/// A list of a fixed length.
#[cycle(reading)]
fn read_fixed_list(
    alloc: Global,
    types: &ComponentTypes,
    owner: &InterfaceType,
    element: &InterfaceType,
    count: u32,
    json: &Json,
) -> Result<Value, PlanFault>
    requires { IsMemberOf types.now element.now owner.now }
    ensures { ReadsFixedList types.now element.now count (view json.now) result }
{
    let list = counted_items(alloc, count as usize, json)?;
    let values = read_items(alloc, types, owner, element, list)?;
    Ok(Value::List(values))
}

/// A map: a list of lists of a key and a value.
#[cycle(reading)]
fn read_map(
    alloc: Global,
    types: &ComponentTypes,
    owner: &InterfaceType,
    node: &Node,
    json: &Json,
) -> Result<Value, PlanFault>
    requires { AreLower types.now owner.now node.now.types }
    ensures { ReadsMap types.now node.now (view json.now) result }
{
    let list = items_of(alloc, json)?;
    let mut entries = Seq::new(alloc);
    for (place, item) in list.iter().enumerate() {
        let entry = read_entry(alloc, types, owner, node, item);
        entries.push(at_place(alloc, place, entry)?)?;
    }
    Ok(Value::Map(entries))
}

/// A key and a value.
#[cycle(reading)]
fn read_entry(
    alloc: Global,
    types: &ComponentTypes,
    owner: &InterfaceType,
    node: &Node,
    json: &Json,
) -> Result<(Value, Value), PlanFault>
    requires { AreLower types.now owner.now node.now.types }
    ensures { ReadsEntry types.now node.now (view json.now) result }
{
    let values = read_places(alloc, types, owner, node, json)?;
    entry_of(alloc, values)
}
