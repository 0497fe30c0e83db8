//! Values that are printed as JSON by their types.
ghost use Rattle.std.specs.Prelude.{◌≡◌, ◌≤◌, All, IfOk, List, Some, map, slice_get, string_bytes};
ghost use Rattle.serde_json.specs.Data.{depth};
ghost use Rattle.serde_json.specs.Read.{max_depth, read as read_json};
ghost use Rattle.serde_json.specs.View.{members_view, view};
ghost use Rattle.fact_types.specs.Functions.{HaveShapes};
ghost use Rattle.fact_types.specs.Heights.{IsMemberOf};
ghost use Rattle.fact_types.specs.Shapes.{Shape};
ghost use Rattle.fact_types.specs.Tables.{IsLive};
ghost use Rattle.fact_types.specs.Tuples.{tuple_members};
ghost use Rattle.fact_values.specs.IsA.{AreMembers};
ghost use Rattle.fact_abi.specs.Finding.{member_type_at};
ghost use Rattle.fact_abi.specs.Nodes.{AreLower, HasNode};
ghost use Rattle.fact_value_json.specs.Printing.{data_places, values_data, values_text as text_of};
ghost use Rattle.fact_value_json.specs.Walks.{PrintsCase, PrintsEntries, PrintsEntry, PrintsFields, PrintsItems, PrintsList, PrintsMap, PrintsMember, PrintsPayload, PrintsPlaces, PrintsRecord, PrintsTuple, PrintsValue};

use crate::scalars::{print_enum, print_flags, print_plain};
use fact_abi::{Node, NodeKind, Value, index_of_name, member_type, node_of_type};
use fact_types::{ComponentTypes, InterfaceType};
use fact_wasm::{OutOfMemory, Seq, Text};
use serde_json::{Map, Value as Json, put};
use std::alloc::Global;

/// The JSON text of values of live types, one by one, as a list with no space (RFC 8259). Where it nests at most 127 deep, it
/// reads back as that list.
pub fn values_text(
    alloc: Global,
    types: &ComponentTypes,
    tys: &[InterfaceType],
    values: &[Value],
) -> Result<String, OutOfMemory>
    requires { All (λ ty. IsLive types.now ty) tys.now }
    ensures text { IfOk result (λ text. (ss : List Shape) → HaveShapes types.now tys.now ss → AreMembers (tuple_members ss) values.now → string_bytes text ≡ text_of ss values.now) }
    ensures reads_back { IfOk result (λ text. (ss : List Shape) → HaveShapes types.now tys.now ss → AreMembers (tuple_members ss) values.now → depth (values_data ss values.now) ≤ max_depth → read_json (string_bytes text) ≡ Some (values_data ss values.now)) }
{
    let list = Json::Array(values_list(alloc, types, tys, values)?);
    let text = list.to_string(alloc);
    drop(list);
    text
}

/// Values of types, one by one.
fn values_list(
    alloc: Global,
    types: &ComponentTypes,
    tys: &[InterfaceType],
    values: &[Value],
) -> Result<Vec<Json>, OutOfMemory>
    requires { All (λ ty. IsLive types.now ty) tys.now }
    ensures { IfOk result (λ list. (ss : List Shape) → HaveShapes types.now tys.now ss → AreMembers (tuple_members ss) values.now → map view list.items ≡ data_places (tuple_members ss) values.now) }
{
    let mut list = Vec::new(alloc);
    for (place, value) in values.iter().enumerate() {
        list.push(print_at(alloc, types, tys, place, value)?)?;
    }
    Ok(list)
}

/// A value of the type at a place.
fn print_at(
    alloc: Global,
    types: &ComponentTypes,
    tys: &[InterfaceType],
    place: usize,
    value: &Value,
) -> Result<Json, OutOfMemory>
    requires { All (λ ty. IsLive types.now ty) tys.now }
    ensures { IfOk result (λ json. (ty : InterfaceType) → slice_get tys.now place ≡ Some ty → PrintsValue types.now ty value.now (view json)) }
{
    match tys.get(place) {
        Some(ty) => print_value(alloc, types, ty, value),
        None => Ok(Json::Null),
    }
}

/// A value of a type.
#[cycle(printing)]
fn print_value(
    alloc: Global,
    types: &ComponentTypes,
    ty: &InterfaceType,
    value: &Value,
) -> Result<Json, OutOfMemory>
    requires { IsLive types.now ty.now }
    ensures { IfOk result (λ json. PrintsValue types.now ty.now value.now (view json)) }
{
    match node_of_type(alloc, types, ty)? {
        None => print_plain(alloc, value),
        Some(node) => print_node(alloc, types, ty, &node, value),
    }
}

/// A value of a type with members.
#[cycle(printing)]
fn print_node(
    alloc: Global,
    types: &ComponentTypes,
    ty: &InterfaceType,
    node: &Node,
    value: &Value,
) -> Result<Json, OutOfMemory>
    requires live { IsLive types.now ty.now }
    requires told { HasNode types.now ty.now node.now }
    ensures { IfOk result (λ json. PrintsValue types.now ty.now value.now (view json)) }
{
    let _whole = types.canonical_abi(ty);
    match node.kind {
        NodeKind::Record => print_record(alloc, types, ty, node, value),
        NodeKind::Tuple => print_tuple(alloc, types, ty, node, value),
        NodeKind::Variant => print_case(alloc, types, ty, node, value),
        NodeKind::Option => print_case(alloc, types, ty, node, value),
        NodeKind::Result => print_case(alloc, types, ty, node, value),
        NodeKind::Enum => print_enum(alloc, value),
        NodeKind::Flags => print_flags(alloc, value),
        NodeKind::List(element) => print_list(alloc, types, ty, &element, value),
        NodeKind::FixedList(_, element) => print_list(alloc, types, ty, &element, value),
        NodeKind::Map(_, _) => print_map(alloc, types, ty, node, value),
        NodeKind::Future(_, _) => print_plain(alloc, value),
        NodeKind::Stream(_, _) => print_plain(alloc, value),
    }
}

/// A value of the member of a place.
#[cycle(printing)]
fn print_member(
    alloc: Global,
    types: &ComponentTypes,
    owner: &InterfaceType,
    node: &Node,
    place: usize,
    value: &Value,
) -> Result<Json, OutOfMemory>
    requires { AreLower types.now owner.now node.now.types }
    ensures { IfOk result (λ json. PrintsMember types.now (member_type_at node.now.types place) value.now (view json)) }
{
    match member_type(node, place) {
        Some(ty) => print_value(alloc, types, &ty, value),
        None => Ok(Json::Null),
    }
}

/// A record, as an object of its fields.
#[cycle(printing)]
fn print_record(
    alloc: Global,
    types: &ComponentTypes,
    owner: &InterfaceType,
    node: &Node,
    value: &Value,
) -> Result<Json, OutOfMemory>
    requires { AreLower types.now owner.now node.now.types }
    ensures { IfOk result (λ json. PrintsRecord types.now node.now value.now (view json)) }
{
    let Value::Record(fields) = value else {
        return Ok(Json::Null);
    };
    let members = print_fields(alloc, types, owner, node, fields.as_slice())?;
    Ok(Json::Object(members))
}

/// The values of fields, at their names.
#[cycle(printing)]
fn print_fields(
    alloc: Global,
    types: &ComponentTypes,
    owner: &InterfaceType,
    node: &Node,
    fields: &[(Text, Value)],
) -> Result<Map<String, Json>, OutOfMemory>
    requires { AreLower types.now owner.now node.now.types }
    ensures { IfOk result (λ members. PrintsFields types.now node.now fields.now (members_view members.entries)) }
{
    let mut members = Map::new(alloc);
    for (place, field) in fields.iter().enumerate() {
        let value = print_member(alloc, types, owner, node, place, &field.1)?;
        put(&mut members, alloc, field.0.as_str(), value)?;
    }
    Ok(members)
}

#[cycle(printing)]
fn print_tuple(
    alloc: Global,
    types: &ComponentTypes,
    owner: &InterfaceType,
    node: &Node,
    value: &Value,
) -> Result<Json, OutOfMemory>
    requires { AreLower types.now owner.now node.now.types }
    ensures { IfOk result (λ json. PrintsTuple types.now node.now value.now (view json)) }
{
    let Value::Tuple(values) = value else {
        return Ok(Json::Null);
    };
    let list = print_places(alloc, types, owner, node, values.as_slice())?;
    Ok(Json::Array(list))
}

/// Values of the members of a type, one by one.
#[cycle(printing)]
fn print_places(
    alloc: Global,
    types: &ComponentTypes,
    owner: &InterfaceType,
    node: &Node,
    values: &[Value],
) -> Result<Vec<Json>, OutOfMemory>
    requires { AreLower types.now owner.now node.now.types }
    ensures { IfOk result (λ list. PrintsPlaces types.now node.now values.now (map view list.items)) }
{
    let mut list = Vec::new(alloc);
    for (place, value) in values.iter().enumerate() {
        list.push(print_member(alloc, types, owner, node, place, value)?)?;
    }
    Ok(list)
}

/// A list of elements of a type.
#[cycle(printing)]
fn print_list(
    alloc: Global,
    types: &ComponentTypes,
    owner: &InterfaceType,
    element: &InterfaceType,
    value: &Value,
) -> Result<Json, OutOfMemory>
    requires { IsMemberOf types.now element.now owner.now }
    ensures { IfOk result (λ json. PrintsList types.now element.now value.now (view json)) }
{
    let Value::List(values) = value else {
        return Ok(Json::Null);
    };
    let list = print_items(alloc, types, owner, element, values.as_slice())?;
    Ok(Json::Array(list))
}

/// Values of one type, one after another.
#[cycle(printing)]
fn print_items(
    alloc: Global,
    types: &ComponentTypes,
    owner: &InterfaceType,
    element: &InterfaceType,
    values: &[Value],
) -> Result<Vec<Json>, OutOfMemory>
    requires { IsMemberOf types.now element.now owner.now }
    ensures { IfOk result (λ list. PrintsItems types.now element.now values.now (map view list.items)) }
{
    let mut list = Vec::new(alloc);
    for value in values {
        list.push(print_value(alloc, types, element, value)?)?;
    }
    Ok(list)
}

/// A map, as a list of its entries.
#[cycle(printing)]
fn print_map(
    alloc: Global,
    types: &ComponentTypes,
    owner: &InterfaceType,
    node: &Node,
    value: &Value,
) -> Result<Json, OutOfMemory>
    requires { AreLower types.now owner.now node.now.types }
    ensures { IfOk result (λ json. PrintsMap types.now node.now value.now (view json)) }
{
    let Value::Map(entries) = value else {
        return Ok(Json::Null);
    };
    let list = print_entries(alloc, types, owner, node, entries.as_slice())?;
    Ok(Json::Array(list))
}

/// Entries of a map, one after another.
#[cycle(printing)]
fn print_entries(
    alloc: Global,
    types: &ComponentTypes,
    owner: &InterfaceType,
    node: &Node,
    entries: &[(Value, Value)],
) -> Result<Vec<Json>, OutOfMemory>
    requires { AreLower types.now owner.now node.now.types }
    ensures { IfOk result (λ list. PrintsEntries types.now node.now entries.now (map view list.items)) }
{
    let mut list = Vec::new(alloc);
    for entry in entries {
        list.push(print_entry(alloc, types, owner, node, &entry.0, &entry.1)?)?;
    }
    Ok(list)
}

/// A key and a value, as a list of two.
#[cycle(printing)]
fn print_entry(
    alloc: Global,
    types: &ComponentTypes,
    owner: &InterfaceType,
    node: &Node,
    key: &Value,
    value: &Value,
) -> Result<Json, OutOfMemory>
    requires { AreLower types.now owner.now node.now.types }
    ensures { IfOk result (λ json. PrintsEntry types.now node.now (key.now, value.now) (view json)) }
{
    let mut pair = Vec::new(alloc);
    pair.push(print_member(alloc, types, owner, node, 0, key)?)?;
    pair.push(print_member(alloc, types, owner, node, 1, value)?)?;
    Ok(Json::Array(pair))
}

/// A case, as an object of its name alone.
#[cycle(printing)]
fn print_case(
    alloc: Global,
    types: &ComponentTypes,
    owner: &InterfaceType,
    node: &Node,
    value: &Value,
) -> Result<Json, OutOfMemory>
    requires { AreLower types.now owner.now node.now.types }
    ensures { IfOk result (λ json. PrintsCase types.now node.now value.now (view json)) }
{
    let Value::Case { name, payload } = value else {
        return Ok(Json::Null);
    };
    let inner = print_payload(alloc, types, owner, node, name, payload)?;
    let mut members = Map::new(alloc);
    put(&mut members, alloc, name.as_str(), inner)?;
    Ok(Json::Object(members))
}

/// The payload of a case, or null where it has none.
#[cycle(printing)]
fn print_payload(
    alloc: Global,
    types: &ComponentTypes,
    owner: &InterfaceType,
    node: &Node,
    name: &Text,
    payload: &Seq<Value>,
) -> Result<Json, OutOfMemory>
    requires { AreLower types.now owner.now node.now.types }
    ensures { IfOk result (λ json. PrintsPayload types.now node.now name.now payload.now (view json)) }
{
    let Some(place) = index_of_name(&node.names, name) else {
        return Ok(Json::Null);
    };
    match payload.get(0) {
        Some(value) => print_member(alloc, types, owner, node, place, value),
        None => Ok(Json::Null),
    }
}
