//! Which values are values of a type.

ghost use Rattle.std.specs.Prelude.{◌≡◌, [], ◌+◌, ◌-◌, ◌^◌, ◌≤◌, ◌↔◌, ℕ, map, slice_get, IfOk, IsTrue};
ghost use Rattle.std.specs.Char.{IsScalar};
ghost use Rattle.std.specs.List.{AllByRecursion};
ghost use Rattle.std.specs.Option.{option_copied};
ghost use Rattle.fact_types.specs.Agrees.{names_of};
ghost use Rattle.fact_types.specs.Heights.{IsMemberOf};
ghost use Rattle.fact_types.specs.Shapes.{Shape, Members};
ghost use Rattle.fact_types.specs.Tables.{IsLive, HasShape};
ghost use Rattle.fact_values.specs.declared.value.Value.{Value, out-Value};
ghost use Rattle.fact_abi.specs.Finding.{IsIndexOf, IsMapOf, IsTaken, name_is, member_type_at};
ghost use Rattle.fact_values.specs.Handles.{only as only_one};
ghost use Rattle.fact_values.specs.IsA.{IsHandle, IsPlainValue, IsRecord, IsTuple, IsListOf, IsFixedList, IsMap, IsFlags, IsCase, IsA, AreMembers, HasCase};
ghost use Rattle.fact_abi.specs.Nodes.{AreOf, HasNode, AreLower};
ghost use Rattle.fact_values.specs.Numbers.{character, float32, float64, plain_of, signed, text, unsigned};
ghost use Rattle.fact_values.specs.Places.{typed_names};

use crate::OutOfMemory;
use crate::nodes::{Node, NodeKind, node_of_type};
use fact_entity::EntityRef;
use fact_types::{ComponentTypes, InterfaceType};
use fact_values::{HandleKind, Value};
use fact_wasm::{Seq, Text};
use std::alloc::Global;

/// Whether a value is an integer from 0 to a number.
fn is_unsigned(value: &Value, most: u64) -> bool
    ensures { (bits : ℕ) → most + 1 ≡ 2 ^ bits → (IsTrue result ↔ IsPlainValue (unsigned bits) (out-Value value.now)) }
{
    match value {
        Value::Int(number) => 0 <= *number && *number <= i128::from(most),
        _ => false,
    }
}

/// Whether a value is an integer of two's complement, of which the greatest is a number.
fn is_signed(value: &Value, most: u64) -> bool
    ensures { (bits : ℕ) → most + 1 ≡ 2 ^ (bits - 1) → (IsTrue result ↔ IsPlainValue (signed bits) (out-Value value.now)) }
{
    match value {
        Value::Int(number) => -1 - i128::from(most) <= *number && *number <= i128::from(most),
        _ => false,
    }
}

/// Whether a value is a handle of a kind in a table.
fn is_handle(value: &Value, kind: HandleKind, table: u32) -> bool
    ensures { IsTrue result ↔ IsHandle kind table (out-Value value.now) }
{
    match value {
        Value::Handle {
            kind: own_kind,
            table: own_table,
            number,
        } => {
            let _number = *number;
            *own_kind == kind && *own_table == table
        }
        _ => false,
    }
}

/// Whether a value is a float of 32 bits.
fn is_float32(value: &Value) -> bool
    ensures { IsTrue result ↔ IsPlainValue float32 (out-Value value.now) }
{
    match value {
        Value::Float32(bits) => {
            let _bits = *bits;
            true
        }
        _ => false,
    }
}

/// Whether a value is a float of 64 bits.
fn is_float64(value: &Value) -> bool
    ensures { IsTrue result ↔ IsPlainValue float64 (out-Value value.now) }
{
    match value {
        Value::Float64(bits) => {
            let _bits = *bits;
            true
        }
        _ => false,
    }
}

/// Whether a value is a character.
fn is_character(value: &Value) -> bool
    ensures { IsTrue result ↔ IsPlainValue character (out-Value value.now) }
{
    match value {
        Value::Char(c) => {
            let _c = *c;
            true
        }
        _ => false,
    }
}

/// Whether each of these is a Unicode scalar value, as every `char` is.
fn are_characters(chars: &[char]) -> bool
    ensures { IsTrue result ↔ AllByRecursion IsScalar chars.now }
{
    for place in 0..chars.len() {
        let _character = chars[place];
    }
    true
}

/// Whether a value is a text.
fn is_text(value: &Value) -> bool
    ensures { IsTrue result ↔ IsPlainValue text (out-Value value.now) }
{
    match value {
        Value::Str(chars) => are_characters(chars.as_slice()),
        _ => false,
    }
}

/// Whether a value is of a type without members.
fn is_plain_value(ty: &InterfaceType, value: &Value) -> bool
    ensures { IsTrue result ↔ IsPlainValue (plain_of ty.now) (out-Value value.now) }
{
    match *ty {
        InterfaceType::Bool => matches!(value, Value::Bool(_)),
        InterfaceType::S8 => is_signed(value, 0x7F),
        InterfaceType::U8 => is_unsigned(value, 0xFF),
        InterfaceType::S16 => is_signed(value, 0x7FFF),
        InterfaceType::U16 => is_unsigned(value, 0xFFFF),
        InterfaceType::S32 => is_signed(value, 0x7FFF_FFFF),
        InterfaceType::U32 => is_unsigned(value, 0xFFFF_FFFF),
        InterfaceType::S64 => is_signed(value, 0x7FFF_FFFF_FFFF_FFFF),
        InterfaceType::U64 => is_unsigned(value, 0xFFFF_FFFF_FFFF_FFFF),
        InterfaceType::Float32 => is_float32(value),
        InterfaceType::Float64 => is_float64(value),
        InterfaceType::Char => is_character(value),
        InterfaceType::String => is_text(value),
        InterfaceType::Own(i) => is_handle(value, HandleKind::Own, i.as_u32()),
        InterfaceType::Borrow(i) => is_handle(value, HandleKind::Borrow, i.as_u32()),
        InterfaceType::ErrorContext(i) => is_handle(value, HandleKind::ErrorContext, i.as_u32()),
        _ => false,
    }
}

/// Whether items have these names, one by one.
fn are_named<T>(items: &[(Text, T)], names: &Seq<Text>) -> bool
    ensures { IsTrue result ↔ (map (λ f. f.0) items.now ≡ names.now) }
{
    if items.len() != names.len() {
        return false;
    }
    for place in 0..items.len() {
        if !is_name_at(names, place, &items[place].0) {
            return false;
        }
    }
    true
}

/// Whether a value is flags of these names, in this order.
fn is_flags(names: &Seq<Text>, value: &Value) -> bool
    ensures { (ms : Members) → names.now ≡ names_of ms → (IsTrue result ↔ IsFlags ms (out-Value value.now)) }
{
    match value {
        Value::Flags(flags) => are_named(flags.as_slice(), names),
        _ => false,
    }
}

/// Whether the one of some names at a place is this name.
fn is_str_at(names: &Seq<Text>, place: usize, name: &str) -> bool
    ensures { result ≡ name_is name.now (slice_get names.now place) }
{
    match names.get(place) {
        Some(other) => other.as_str() == name,
        None => false,
    }
}

/// The same of a name that is held as a text.
pub(crate) fn is_name_at(names: &Seq<Text>, place: usize, name: &Text) -> bool
    ensures { result ≡ name_is name.now (slice_get names.now place) }
{
    is_str_at(names, place, name.as_str())
}

/// The place of the first of some names that is this name, counted from 0, or `None` where none is.
pub fn index_of_str(names: &Seq<Text>, name: &str) -> Option<usize>
    ensures { IsIndexOf name.now names.now result }
{
    for place in 0..names.len() {
        if is_str_at(names, place, name) {
            return Some(place);
        }
    }
    None
}

/// The same of a name that is held as a text: see [`index_of_str`].
pub fn index_of_name(names: &Seq<Text>, name: &Text) -> Option<usize>
    ensures { IsIndexOf name.now names.now result }
{
    index_of_str(names, name.as_str())
}

/// The type of the member of a place, or `None` where it has none.
pub fn member_type(node: &Node, place: usize) -> Option<InterfaceType>
    ensures { result ≡ member_type_at node.now.types place }
{
    match node.types.get(place) {
        Some(ty) => *ty,
        None => None,
    }
}

/// The value of a list of one value.
pub fn only_value(values: &Seq<Value>) -> Option<&Value>
    ensures { option_copied result ≡ only_one values.now }
{
    if values.len() == 1 {
        values.get(0)
    } else {
        None
    }
}

/// Whether there is no value in a list.
fn is_nothing(values: &Seq<Value>) -> bool
    ensures { IsTrue result ↔ (values.now ≡ []) }
{
    match values.get(0) {
        Some(_) => false,
        None => true,
    }
}

/// Whether a value is of a live type.
#[cycle(belonging)]
pub fn is_value_of(
    alloc: Global,
    types: &ComponentTypes,
    ty: &InterfaceType,
    value: &Value,
) -> Result<bool, OutOfMemory>
    requires { IsLive types.now ty.now }
    ensures { IfOk result (λ b. (s : Shape) → HasShape types.now ty.now s → (IsTrue b ↔ IsA s value.now)) }
{
    match node_of_type(alloc, types, ty)? {
        None => Ok(is_plain_value(ty, value)),
        Some(node) => is_of_node(alloc, types, ty, &node, value),
    }
}

/// Whether a value is of a type with members.
#[cycle(belonging)]
fn is_of_node(
    alloc: Global,
    types: &ComponentTypes,
    ty: &InterfaceType,
    node: &Node,
    value: &Value,
) -> Result<bool, OutOfMemory>
    requires live { IsLive types.now ty.now }
    requires told { HasNode types.now ty.now node.now }
    ensures { IfOk result (λ b. (s : Shape) → HasShape types.now ty.now s → (IsTrue b ↔ IsA s value.now)) }
{
    let _whole = types.canonical_abi(ty);
    match node.kind {
        NodeKind::Record => is_record(alloc, types, ty, node, value),
        NodeKind::Tuple => is_tuple(alloc, types, ty, node, value),
        NodeKind::Variant => is_case(alloc, types, ty, node, value),
        NodeKind::Enum => is_case(alloc, types, ty, node, value),
        NodeKind::Option => is_case(alloc, types, ty, node, value),
        NodeKind::Result => is_case(alloc, types, ty, node, value),
        NodeKind::List(element) => is_list(alloc, types, ty, &element, value),
        NodeKind::FixedList(count, element) => {
            is_fixed_list(alloc, types, ty, &element, count, value)
        }
        NodeKind::Map(key, item) => is_map(alloc, types, ty, &key, &item, value),
        NodeKind::Flags => Ok(is_flags(&node.names, value)),
        NodeKind::Future(table, _) => Ok(is_handle(value, HandleKind::Future, table)),
        NodeKind::Stream(table, _) => Ok(is_handle(value, HandleKind::Stream, table)),
    }
}

/// Whether a value is a record of the fields of a type, by name and one by one.
#[cycle(belonging)]
fn is_record(
    alloc: Global,
    types: &ComponentTypes,
    owner: &InterfaceType,
    node: &Node,
    value: &Value,
) -> Result<bool, OutOfMemory>
    requires { AreLower types.now owner.now node.now.types }
    ensures { IfOk result (λ b. (ms : Members) → node.now.names ≡ typed_names ms → AreOf types.now node.now.types ms → (IsTrue b ↔ IsRecord ms (λ vs. AreMembers ms vs) (out-Value value.now))) }
{
    let Value::Record(fields) = value else {
        return Ok(false);
    };
    if !are_named(fields.as_slice(), &node.names) {
        return Ok(false);
    }
    are_fields(alloc, types, owner, node, fields)
}

/// Whether the values of fields are those of members, one by one.
#[cycle(belonging)]
fn are_fields(
    alloc: Global,
    types: &ComponentTypes,
    owner: &InterfaceType,
    node: &Node,
    fields: &Seq<(Text, Value)>,
) -> Result<bool, OutOfMemory>
    requires { AreLower types.now owner.now node.now.types }
    ensures { IfOk result (λ b. (ms : Members) → AreOf types.now node.now.types ms → (IsTrue b ↔ AreMembers ms (map (λ f. f.1) fields.now))) }
{
    let mut at = 0;
    for place in 0..node.types.len() {
        let first = value_of_field(fields, at);
        match values_taken(alloc, types, owner, node, place, first)? {
            Some(taken) => at += taken,
            None => return Ok(false),
        }
    }
    let count = fields.len();
    Ok(is_past(at, count))
}

/// The value of the field of a place.
fn value_of_field(fields: &Seq<(Text, Value)>, place: usize) -> Option<&Value>
    ensures { option_copied result ≡ slice_get (map (λ f. f.1) fields.now) place }
{
    match fields.get(place) {
        Some(field) => Some(&field.1),
        None => None,
    }
}

/// Whether a place is past the last of so many.
fn is_past(place: usize, count: usize) -> bool
    ensures { IsTrue result ↔ (count ≤ place) }
{
    place >= count
}

/// How many of the values that are left are of the member of a place: the first of them where it has a type, and none where
/// it has none. `None` where the first is of another type, or missing.
#[cycle(belonging)]
fn values_taken(
    alloc: Global,
    types: &ComponentTypes,
    owner: &InterfaceType,
    node: &Node,
    place: usize,
    first: Option<&Value>,
) -> Result<Option<usize>, OutOfMemory>
    requires { AreLower types.now owner.now node.now.types }
    ensures { IfOk result (λ o. IsTaken types.now (member_type_at node.now.types place) (option_copied first.entry) o) }
{
    let Some(ty) = member_type(node, place) else {
        return Ok(Some(0));
    };
    let Some(value) = first else {
        return Ok(None);
    };
    if is_value_of(alloc, types, &ty, value)? {
        return Ok(Some(1));
    }
    Ok(None)
}

/// Whether a value is a tuple of the members of a type.
#[cycle(belonging)]
fn is_tuple(
    alloc: Global,
    types: &ComponentTypes,
    owner: &InterfaceType,
    node: &Node,
    value: &Value,
) -> Result<bool, OutOfMemory>
    requires { AreLower types.now owner.now node.now.types }
    ensures { IfOk result (λ b. (ms : Members) → AreOf types.now node.now.types ms → (IsTrue b ↔ IsTuple (λ vs. AreMembers ms vs) (out-Value value.now))) }
{
    let Value::Tuple(values) = value else {
        return Ok(false);
    };
    are_members(alloc, types, owner, node, values)
}

/// Whether values are those of members, one by one.
#[cycle(belonging)]
fn are_members(
    alloc: Global,
    types: &ComponentTypes,
    owner: &InterfaceType,
    node: &Node,
    values: &Seq<Value>,
) -> Result<bool, OutOfMemory>
    requires { AreLower types.now owner.now node.now.types }
    ensures { IfOk result (λ b. (ms : Members) → AreOf types.now node.now.types ms → (IsTrue b ↔ AreMembers ms values.now)) }
{
    let mut at = 0;
    for place in 0..node.types.len() {
        let first = values.get(at);
        match values_taken(alloc, types, owner, node, place, first)? {
            Some(taken) => at += taken,
            None => return Ok(false),
        }
    }
    let count = values.len();
    Ok(is_past(at, count))
}

/// Whether a value is a case of a type, with the payload of that case.
#[cycle(belonging)]
fn is_case(
    alloc: Global,
    types: &ComponentTypes,
    owner: &InterfaceType,
    node: &Node,
    value: &Value,
) -> Result<bool, OutOfMemory>
    requires { AreLower types.now owner.now node.now.types }
    ensures { IfOk result (λ b. (ms : Members) → node.now.names ≡ names_of ms → AreOf types.now node.now.types ms → (IsTrue b ↔ IsCase (λ x vs. HasCase ms x vs) (out-Value value.now))) }
{
    let Value::Case { name, payload } = value else {
        return Ok(false);
    };
    let Some(at) = index_of_name(&node.names, name) else {
        return Ok(false);
    };
    match member_type(node, at) {
        None => Ok(is_nothing(payload)),
        Some(ty) => match only_value(payload) {
            Some(value) => is_value_of(alloc, types, &ty, value),
            None => Ok(false),
        },
    }
}

/// Whether a value is a list of elements of a type.
#[cycle(belonging)]
fn is_list(
    alloc: Global,
    types: &ComponentTypes,
    owner: &InterfaceType,
    element: &InterfaceType,
    value: &Value,
) -> Result<bool, OutOfMemory>
    requires { IsMemberOf types.now element.now owner.now }
    ensures { IfOk result (λ b. (s : Shape) → HasShape types.now element.now s → (IsTrue b ↔ IsListOf (λ v. IsA s v) (out-Value value.now))) }
{
    let Value::List(values) = value else {
        return Ok(false);
    };
    are_elements(alloc, types, owner, element, values.as_slice())
}

/// Whether a value is a list of so many elements of a type.
#[cycle(belonging)]
fn is_fixed_list(
    alloc: Global,
    types: &ComponentTypes,
    owner: &InterfaceType,
    element: &InterfaceType,
    count: u32,
    value: &Value,
) -> Result<bool, OutOfMemory>
    requires { IsMemberOf types.now element.now owner.now }
    ensures { IfOk result (λ b. (s : Shape) → HasShape types.now element.now s → (IsTrue b ↔ IsFixedList count (λ v. IsA s v) (out-Value value.now))) }
{
    let Value::List(values) = value else {
        return Ok(false);
    };
    if values.len() != count as usize {
        return Ok(false);
    }
    are_elements(alloc, types, owner, element, values.as_slice())
}

/// Whether values are of one type.
#[cycle(belonging)]
fn are_elements(
    alloc: Global,
    types: &ComponentTypes,
    owner: &InterfaceType,
    element: &InterfaceType,
    values: &[Value],
) -> Result<bool, OutOfMemory>
    requires { IsMemberOf types.now element.now owner.now }
    ensures { IfOk result (λ b. (s : Shape) → HasShape types.now element.now s → (IsTrue b ↔ AllByRecursion (λ v. IsA s v) values.now)) }
{
    for value in values {
        if !is_value_of(alloc, types, element, value)? {
            return Ok(false);
        }
    }
    Ok(true)
}

/// Whether a value is a map of keys and values of these types.
#[cycle(belonging)]
fn is_map(
    alloc: Global,
    types: &ComponentTypes,
    owner: &InterfaceType,
    key: &InterfaceType,
    item: &InterfaceType,
    value: &Value,
) -> Result<bool, OutOfMemory>
    requires key { IsMemberOf types.now key.now owner.now }
    requires item { IsMemberOf types.now item.now owner.now }
    ensures { IfOk result (λ b. (s u : Shape) → HasShape types.now key.now s → HasShape types.now item.now u → (IsTrue b ↔ IsMapOf (λ k. IsA s k) (λ v. IsA u v) (out-Value value.now))) }
{
    let Value::Map(entries) = value else {
        return Ok(false);
    };
    are_entries(alloc, types, owner, key, item, entries.as_slice())
}

/// Whether entries have keys and values of these types.
#[cycle(belonging)]
fn are_entries(
    alloc: Global,
    types: &ComponentTypes,
    owner: &InterfaceType,
    key: &InterfaceType,
    item: &InterfaceType,
    entries: &[(Value, Value)],
) -> Result<bool, OutOfMemory>
    requires key { IsMemberOf types.now key.now owner.now }
    requires item { IsMemberOf types.now item.now owner.now }
    ensures { IfOk result (λ b. (s u : Shape) → HasShape types.now key.now s → HasShape types.now item.now u → (IsTrue b ↔ AllByRecursion (λ e. IsA s e.0 × IsA u e.1) entries.now)) }
{
    for entry in entries {
        if !is_value_of(alloc, types, key, &entry.0)? {
            return Ok(false);
        }
        if !is_value_of(alloc, types, item, &entry.1)? {
            return Ok(false);
        }
    }
    Ok(true)
}
