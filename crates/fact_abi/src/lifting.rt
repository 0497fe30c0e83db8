//! Values that core values stand for (canonical ABI, "Flat Lifting").

ghost use Rattle.std.specs.Prelude.{◌≡◌, [], ◌∷◌, ◌^◌, ◌<◌, List, length, ℕ, option_map, replicate, true, IfOk, IfSome, Some};
ghost use Rattle.fact_values.specs.declared.value.Value.TheVariants as a_value;
ghost use Rattle.fact_types.specs.declared.flats.FlatType.TheVariants as f;
ghost use Rattle.fact_types.specs.Agrees.{names_of};
ghost use Rattle.fact_types.specs.FlatShapes.{flat, flat_members, flat_any, times};
ghost use Rattle.fact_types.specs.Heights.{IsMemberOf};
ghost use Rattle.fact_types.specs.Layout.{flags_size, flags_flat};
ghost use Rattle.fact_types.specs.Shapes.{k_record, k_tuple, k_list, k_map, Shape, s_node, Members};
ghost use Rattle.fact_types.specs.Signatures.{width};
ghost use Rattle.fact_types.specs.Tables.{IsLive, HasShape};
ghost use Rattle.fact_machine.specs.World.{number_of};
ghost use Rattle.fact_abi.specs.declared.nodes.NodeKind.TheVariants as kinds;
ghost use Rattle.fact_abi.specs.Leading.{can_lead, IsHalf};
ghost use Rattle.fact_values.specs.Lift.{lift as lifts, lift_leading, lift_plain as plain_lifts, lift_members as members_lift, lift_case as case_lifts, lift_variant as variant_lifts, one_number, numbers_as, leading_pair as pair_there, each_of};
ghost use Rattle.fact_abi.specs.Loading.{text_of_pair};
ghost use Rattle.fact_abi.specs.Nodes.{AreOf, AreTold, HasNode, AreLower};
ghost use Rattle.fact_values.specs.Numbers.{plain_of, flags_of_number, number_of_words};

use crate::loading::{flags_in, list_behind, map_behind, named};
use crate::nodes::{Node, NodeKind, node_of_type};
use crate::numbers::value_of_number;
use crate::standing::{flags_words, flat_of_plain, leading_values, number_as, pointer_of};
use crate::texts::text_at;
use fact_machine::CoreValue;
use fact_types::{ComponentTypes, FlatType, InterfaceType, MAX_FLAT_TYPES};
use fact_values::{HandleKind, SideAbi, Value};
use fact_wasm::{OutOfMemory, Seq, Text};
use std::alloc::Global;

/// The value of a live type that core values stand for, or `None` where they stand for none (canonical ABI, "Flat Lifting",
/// `lift_flat`): where the type has more than 16 flat types or another number of them, where a core value cannot stand at its
/// place, or where nothing of the type is there. Strings, lists and maps are read from the bytes of the side's memory. The one
/// error is a want of memory.
pub fn lift(
    alloc: Global,
    types: &ComponentTypes,
    ty: &InterfaceType,
    side: &SideAbi,
    bytes: &[u8],
    flat: &[CoreValue],
) -> Result<Option<Value>, OutOfMemory>
    requires { IsLive types.now ty.now }
    ensures { IfOk result (λ o. (s : Shape) → HasShape types.now ty.now s → o ≡ lifts side.now bytes.now s flat.now) }
{
    let Some(count) = leading_values(alloc, types, ty, side, flat)? else {
        return Ok(None);
    };
    if count != flat.len() || count > MAX_FLAT_TYPES {
        return Ok(None);
    }
    lift_value(alloc, types, ty, side, bytes, flat)
}

/// The number of the first core value in the place of a flat type.
fn first_number(flat: FlatType, values: &[CoreValue]) -> Option<u64>
    ensures value { result ≡ one_number flat values.now }
    ensures half { IsHalf flat → IfSome result (λ n. n < 2 ^ 32) }
{
    match values {
        [first, ..] => Some(number_as(flat, first)),
        [] => None,
    }
}

/// The pointer and the length that the first two core values are.
fn first_pair(side: &SideAbi, values: &[CoreValue]) -> Option<(u64, u64)>
    ensures { option_map (λ p. record { pointer = p.0; count = p.1 }) result ≡ pair_there side.now values.now }
{
    match values {
        [pointer, count, ..] => Some((
            number_as(pointer_of(side), pointer),
            number_as(pointer_of(side), count),
        )),
        _ => None,
    }
}

/// The value of a type without members that the leading core values stand for.
fn lift_plain(
    alloc: Global,
    ty: &InterfaceType,
    side: &SideAbi,
    bytes: &[u8],
    values: &[CoreValue],
) -> Result<Option<Value>, OutOfMemory>
    ensures { IfOk result (λ o. o ≡ plain_lifts side.now bytes.now ty.now (plain_of ty.now) values.now) }
{
    match *ty {
        InterfaceType::String => lift_text(alloc, side, bytes, values),
        _ => match first_number(flat_of_plain(ty), values) {
            Some(number) => Ok(value_of_number(ty, number)),
            None => Ok(None),
        },
    }
}

/// The text whose pointer and length the first two core values are.
fn lift_text(
    alloc: Global,
    side: &SideAbi,
    bytes: &[u8],
    values: &[CoreValue],
) -> Result<Option<Value>, OutOfMemory>
    ensures { IfOk result (λ o. o ≡ text_of_pair side.now bytes.now (pair_there side.now values.now)) }
{
    let Some((pointer, count)) = first_pair(side, values) else {
        return Ok(None);
    };
    match text_at(alloc, side.encoding, bytes, pointer, count)? {
        Some(chars) => Ok(Some(Value::Str(chars))),
        None => Ok(None),
    }
}

/// The value of a live type that the leading core values stand for, where they can stand for its flat types.
#[cycle(lifting)]
fn lift_value(
    alloc: Global,
    types: &ComponentTypes,
    ty: &InterfaceType,
    side: &SideAbi,
    bytes: &[u8],
    values: &[CoreValue],
) -> Result<Option<Value>, OutOfMemory>
    requires { IsLive types.now ty.now }
    ensures { IfOk result (λ o. (s : Shape) → HasShape types.now ty.now s → can_lead (flat (width side.now.memory64) s) values.now ≡ true → o ≡ lift_leading side.now bytes.now s values.now) }
{
    match node_of_type(alloc, types, ty)? {
        None => lift_plain(alloc, ty, side, bytes, values),
        Some(node) => lift_node(alloc, types, ty, &node, side, bytes, values),
    }
}

/// The value of a type with members.
#[cycle(lifting)]
fn lift_node(
    alloc: Global,
    types: &ComponentTypes,
    ty: &InterfaceType,
    node: &Node,
    side: &SideAbi,
    bytes: &[u8],
    values: &[CoreValue],
) -> Result<Option<Value>, OutOfMemory>
    requires live { IsLive types.now ty.now }
    requires told { HasNode types.now ty.now node.now }
    ensures { IfOk result (λ o. (s : Shape) → HasShape types.now ty.now s → can_lead (flat (width side.now.memory64) s) values.now ≡ true → o ≡ lift_leading side.now bytes.now s values.now) }
{
    let _whole = types.canonical_abi(ty);
    match node.kind {
        NodeKind::Record => lift_record(alloc, types, ty, node, side, bytes, values),
        NodeKind::Tuple => lift_tuple(alloc, types, ty, node, side, bytes, values),
        NodeKind::Variant => lift_variant(alloc, types, ty, node, side, bytes, values),
        NodeKind::Enum => lift_variant(alloc, types, ty, node, side, bytes, values),
        NodeKind::Option => lift_variant(alloc, types, ty, node, side, bytes, values),
        NodeKind::Result => lift_variant(alloc, types, ty, node, side, bytes, values),
        NodeKind::List(element) => lift_list(alloc, types, ty, &element, side, bytes, values),
        NodeKind::FixedList(count, element) => {
            lift_fixed_list(alloc, types, ty, &element, side, bytes, count, values)
        }
        NodeKind::Map(_, _) => lift_map(alloc, types, ty, node, side, bytes, values),
        NodeKind::Flags => lift_flags(alloc, &node.names, values),
        NodeKind::Future(table, _) => Ok(lift_handle(HandleKind::Future, table, values)),
        NodeKind::Stream(table, _) => Ok(lift_handle(HandleKind::Stream, table, values)),
    }
}

/// The record whose fields the core values stand for, one behind the other.
#[cycle(lifting)]
fn lift_record(
    alloc: Global,
    types: &ComponentTypes,
    owner: &InterfaceType,
    node: &Node,
    side: &SideAbi,
    bytes: &[u8],
    values: &[CoreValue],
) -> Result<Option<Value>, OutOfMemory>
    requires { AreLower types.now owner.now node.now.types }
    ensures { IfOk result (λ o. (ms : Members) → AreTold kinds.Record types.now node.now.names node.now.types ms → can_lead (flat_members (width side.now.memory64) ms) values.now ≡ true → o ≡ lift_leading side.now bytes.now (s_node k_record ms) values.now) }
{
    let members = node.types.as_slice();
    match lift_members(alloc, types, owner, members, side, bytes, values)? {
        Some(lifted) => Ok(Some(Value::Record(named(alloc, &node.names, lifted)?))),
        None => Ok(None),
    }
}

/// The tuple whose members the core values stand for, one behind the other.
#[cycle(lifting)]
fn lift_tuple(
    alloc: Global,
    types: &ComponentTypes,
    owner: &InterfaceType,
    node: &Node,
    side: &SideAbi,
    bytes: &[u8],
    values: &[CoreValue],
) -> Result<Option<Value>, OutOfMemory>
    requires { AreLower types.now owner.now node.now.types }
    ensures { IfOk result (λ o. (ms : Members) → AreOf types.now node.now.types ms → can_lead (flat_members (width side.now.memory64) ms) values.now ≡ true → o ≡ lift_leading side.now bytes.now (s_node k_tuple ms) values.now) }
{
    let members = node.types.as_slice();
    match lift_members(alloc, types, owner, members, side, bytes, values)? {
        Some(lifted) => Ok(Some(Value::Tuple(lifted))),
        None => Ok(None),
    }
}

/// The values of members, each from the core values behind those of the members before it.
#[cycle(lifting)]
fn lift_members(
    alloc: Global,
    types: &ComponentTypes,
    owner: &InterfaceType,
    members: &[Option<InterfaceType>],
    side: &SideAbi,
    bytes: &[u8],
    values: &[CoreValue],
) -> Result<Option<Seq<Value>>, OutOfMemory>
    requires { AreLower types.now owner.now members.now }
    ensures { IfOk result (λ o. (ms : Members) → AreOf types.now members.now ms → can_lead (flat_members (width side.now.memory64) ms) values.now ≡ true → o ≡ members_lift side.now bytes.now ms values.now) }
{
    let mut lifted = Seq::new(alloc);
    let mut at = 0;
    for member in members {
        if let Some(ty) = member {
            let rest = &values[at..];
            let Some(count) = leading_values(alloc, types, ty, side, rest)? else {
                return Ok(None);
            };
            match lift_value(alloc, types, ty, side, bytes, rest)? {
                Some(value) => lifted.push(value)?,
                None => return Ok(None),
            }
            at += count;
        }
    }
    Ok(Some(lifted))
}

/// The case whose number is the first core value, with its payload behind it.
#[cycle(lifting)]
fn lift_variant(
    alloc: Global,
    types: &ComponentTypes,
    owner: &InterfaceType,
    node: &Node,
    side: &SideAbi,
    bytes: &[u8],
    values: &[CoreValue],
) -> Result<Option<Value>, OutOfMemory>
    requires { AreLower types.now owner.now node.now.types }
    ensures { IfOk result (λ o. (ms : Members) → node.now.names ≡ names_of ms → AreOf types.now node.now.types ms → can_lead (f.I32 ∷ flat_any (width side.now.memory64) ms) values.now ≡ true → o ≡ variant_lifts (λ x us. case_lifts side.now bytes.now ms x us) values.now) }
{
    let [discriminant, payload @ ..] = values else {
        return Ok(None);
    };
    let number = number_as(FlatType::I32, discriminant);
    lift_case(alloc, types, owner, node, side, bytes, number, payload)
}

/// The case of a number, with its payload.
#[cycle(lifting)]
fn lift_case(
    alloc: Global,
    types: &ComponentTypes,
    owner: &InterfaceType,
    node: &Node,
    side: &SideAbi,
    bytes: &[u8],
    number: u64,
    values: &[CoreValue],
) -> Result<Option<Value>, OutOfMemory>
    requires { AreLower types.now owner.now node.now.types }
    ensures { IfOk result (λ o. (ms : Members) → node.now.names ≡ names_of ms → AreOf types.now node.now.types ms → can_lead (flat_any (width side.now.memory64) ms) values.now ≡ true → o ≡ case_lifts side.now bytes.now ms number values.now) }
{
    let at = number as usize;
    let Some(payload) = node.types.get(at) else {
        return Ok(None);
    };
    let Some(name) = node.names.get(at) else {
        return Ok(None);
    };
    let mut lifted = Seq::new(alloc);
    if let Some(ty) = payload {
        match lift_value(alloc, types, ty, side, bytes, values)? {
            Some(value) => lifted.push(value)?,
            None => return Ok(None),
        }
    }
    Ok(Some(Value::Case {
        name: name.try_clone()?,
        payload: lifted,
    }))
}

/// The list whose pointer and length the first two core values are.
fn lift_list(
    alloc: Global,
    types: &ComponentTypes,
    owner: &InterfaceType,
    element: &InterfaceType,
    side: &SideAbi,
    bytes: &[u8],
    values: &[CoreValue],
) -> Result<Option<Value>, OutOfMemory>
    requires { IsMemberOf types.now element.now owner.now }
    ensures { IfOk result (λ o. (ms : Members) → AreOf types.now (Some element.now ∷ []) ms → o ≡ lift_leading side.now bytes.now (s_node k_list ms) values.now) }
{
    let Some((pointer, count)) = first_pair(side, values) else {
        return Ok(None);
    };
    list_behind(alloc, types, owner, element, side, bytes, pointer, count)
}

/// The map whose pointer and length the first two core values are.
fn lift_map(
    alloc: Global,
    types: &ComponentTypes,
    owner: &InterfaceType,
    node: &Node,
    side: &SideAbi,
    bytes: &[u8],
    values: &[CoreValue],
) -> Result<Option<Value>, OutOfMemory>
    requires live { IsLive types.now owner.now }
    requires shaped { (ms : Members) × HasShape types.now owner.now (s_node k_map ms) × AreOf types.now node.now.types ms }
    requires within { AreLower types.now owner.now node.now.types }
    ensures { IfOk result (λ o. (ms : Members) → HasShape types.now owner.now (s_node k_map ms) → AreOf types.now node.now.types ms → o ≡ lift_leading side.now bytes.now (s_node k_map ms) values.now) }
{
    let Some((pointer, count)) = first_pair(side, values) else {
        return Ok(None);
    };
    map_behind(alloc, types, owner, node, side, bytes, pointer, count)
}

/// The list of a fixed length whose elements the core values stand for, one behind the other.
#[cycle(lifting)]
fn lift_fixed_list(
    alloc: Global,
    types: &ComponentTypes,
    owner: &InterfaceType,
    element: &InterfaceType,
    side: &SideAbi,
    bytes: &[u8],
    count: u32,
    values: &[CoreValue],
) -> Result<Option<Value>, OutOfMemory>
    requires { IsMemberOf types.now element.now owner.now }
    ensures { IfOk result (λ o. (s : Shape) → HasShape types.now element.now s → can_lead (times count (flat (width side.now.memory64) s)) values.now ≡ true → o ≡ option_map (λ vs. a_value.List vs) (each_of count (length (flat (width side.now.memory64) s)) (λ us. lift_leading side.now bytes.now s us) values.now)) }
{
    let mut lifted = Seq::new(alloc);
    let mut at = 0;
    for _ in 0..count {
        let rest = &values[at..];
        let Some(size) = leading_values(alloc, types, element, side, rest)? else {
            return Ok(None);
        };
        match lift_value(alloc, types, element, side, bytes, rest)? {
            Some(value) => lifted.push(value)?,
            None => return Ok(None),
        }
        at += size;
    }
    Ok(Some(Value::List(lifted)))
}

/// The flags whose bits the leading core values hold, 32 in each.
fn lift_flags(
    alloc: Global,
    names: &Seq<Text>,
    values: &[CoreValue],
) -> Result<Option<Value>, OutOfMemory>
    ensures { IfOk result (λ o. o ≡ option_map (λ ws. a_value.Flags (flags_of_number names.now (number_of_words ws))) (numbers_as (replicate (flags_flat (flags_size (length names.now))) f.I32) values.now)) }
{
    let words = flags_words(names.as_slice().len());
    let Some(bytes) = bytes_of_words(alloc, words, values)? else {
        return Ok(None);
    };
    let flags = flags_in(alloc, names, bytes.as_slice())?;
    Ok(Some(Value::Flags(flags)))
}

/// The bytes of so many leading core values of 32 bits, the lowest byte of each first.
fn bytes_of_words(
    alloc: Global,
    count: usize,
    values: &[CoreValue],
) -> Result<Option<Vec<u8>>, OutOfMemory>
    ensures { IfOk result (λ o. option_map (λ v. number_of v.items) o ≡ option_map number_of_words (numbers_as (replicate count f.I32) values.now)) }
{
    let mut bytes = Vec::new(alloc);
    for index in 0..count {
        let Some(value) = values.get(index) else {
            return Ok(None);
        };
        let word = bytes_of_word(number_as(FlatType::I32, value));
        bytes.extend_from_slice(&word)?;
    }
    Ok(Some(bytes))
}

/// The bytes of a word of 32 bits, the lowest first.
fn bytes_of_word(word: u64) -> [u8; 4]
    requires { word < 2 ^ 32 }
    ensures value { number_of result ≡ word }
    ensures four { length result ≡ 4 }
{
    [
        (word % 0x100) as u8,
        (word / 0x100 % 0x100) as u8,
        (word / 0x1_0000 % 0x100) as u8,
        (word / 0x100_0000) as u8,
    ]
}

/// The handle of a kind whose number is the first core value.
fn lift_handle(kind: HandleKind, table: u32, values: &[CoreValue]) -> Option<Value>
    ensures { result ≡ option_map (λ n. a_value.Handle kind table n) (one_number f.I32 values.now) }
{
    match first_number(FlatType::I32, values) {
        Some(number) => Some(Value::Handle {
            kind,
            table,
            number: number as u32,
        }),
        None => None,
    }
}
