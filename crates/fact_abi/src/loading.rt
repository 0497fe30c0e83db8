//! Values that stand in memory (canonical ABI, "Loading").

ghost use Rattle.std.specs.Prelude.{◌≡◌, [], ◌∷◌, ◌+◌, ◌*◌, ◌<◌, ◌≤◌, ◌^◌, List, length, ℕ, option_map, slice_get, drop, IfOk, IfSome, Some};
ghost use Rattle.std.specs.List.{zip};
ghost use Rattle.fact_values.specs.declared.value.Value.TheVariants as a_value;
ghost use Rattle.fact_types.specs.declared.extents.MemoryWidth.{MemoryWidth};
ghost use Rattle.fact_types.specs.declared.interface.InterfaceType.{InterfaceType};
ghost use Rattle.fact_types.specs.Agrees.{names_of};
ghost use Rattle.fact_types.specs.Heights.{IsMemberOf};
ghost use Rattle.fact_types.specs.Layout.{extent, extents, payloads, payload_offset, discriminant_size, discriminant_bytes, flags_size, flags_extent};
ghost use Rattle.fact_types.specs.Shapes.{layouts_of, k_record, k_tuple, k_list, k_map, k_fixed, ends_of, Shape, s_node, Members, layout_of, place_of, next_of, plain_layout};
ghost use Rattle.fact_types.specs.Signatures.{width};
ghost use Rattle.fact_types.specs.Tables.{IsLive, HasShape, abi_at};
ghost use Rattle.fact_abi.specs.declared.nodes.NodeKind.TheVariants as kinds;
ghost use Rattle.fact_values.specs.Load.{entry_of as entry, load as stands, load_members as stand, load_case as case_stands, load_plain as plain_stands, load_variant as variant_stands, load_element as element_stands, list_value, map_value};
ghost use Rattle.fact_abi.specs.Loading.{text_of_pair, entry_of_members};
ghost use Rattle.fact_abi.specs.Nodes.{AreOf, AreTold, HasNode, AreLower};
ghost use Rattle.fact_machine.specs.World.{number_of};
ghost use Rattle.fact_values.specs.Numbers.{plain_of, flags_of_number, number_in as number_there, text};
ghost use Rattle.fact_values.specs.Places.{each_at, pair_at as pair_there, element_extent as extent_of_element};
ghost use Rattle.fact_abi.specs.Rooms.{plain_bytes, RoomFor, RoomForMembers, RoomForPayload, RoomForCases};

use crate::nodes::{Node, NodeKind, node_of_type};
use crate::numbers::{number_in, value_of_number};
use crate::texts::{is_in_range, text_at};
use fact_types::{ComponentTypes, InterfaceType};
use fact_values::{HandleKind, SideAbi, Value};
use fact_wasm::{OutOfMemory, Seq, Text};
use std::alloc::Global;

/// The value of a live type at an address of the bytes of a side's memory, or `None` where nothing of the type stands there
/// (canonical ABI, "Loading", `load`). The address, in bytes, may be one that is not aligned for the type; the pointers of
/// strings, lists and maps have to be aligned. The one error is a want of memory.
pub fn load(
    alloc: Global,
    types: &ComponentTypes,
    ty: &InterfaceType,
    side: &SideAbi,
    bytes: &[u8],
    address: u64,
) -> Result<Option<Value>, OutOfMemory>
    requires { IsLive types.now ty.now }
    ensures { IfOk result (λ o. (s : Shape) → HasShape types.now ty.now s → o ≡ stands side.now bytes.now s address) }
{
    let _whole = types.canonical_abi(ty);
    load_value(alloc, types, ty, side, bytes, u128::from(address))
}

/// A pointer and a length at an address, or `None` where they are not there.
fn pair_in(side: &SideAbi, bytes: &[u8], address: u128) -> Option<(u64, u64)>
    requires { address ≤ 2 ^ 95 }
    ensures { option_map (λ p. record { pointer = p.0; count = p.1 }) result ≡ pair_there side.now bytes.now address }
{
    let size = if side.memory64 { 8 } else { 4 };
    let pointer = number_in(bytes, size, address)?;
    let count = number_in(bytes, size, address + size as u128)?;
    Some((pointer, count))
}

/// The bytes of a value of a type without members that is no string, in memories of either width (canonical ABI, "Element Size").
pub fn plain_size(ty: &InterfaceType) -> usize
    ensures size { result ≡ plain_bytes ty.now }
    ensures value { (w : MemoryWidth) → (plain_of ty.now ≡ text → ⊥) → result ≡ (extent w (plain_layout ty.now)).size }
    ensures few { result ≤ 8 }
{
    match *ty {
        InterfaceType::Bool | InterfaceType::S8 | InterfaceType::U8 => 1,
        InterfaceType::S16 | InterfaceType::U16 => 2,
        InterfaceType::S64 | InterfaceType::U64 | InterfaceType::Float64 => 8,
        _ => 4,
    }
}

/// The value of a type without members at an address.
fn load_plain(
    alloc: Global,
    ty: &InterfaceType,
    side: &SideAbi,
    bytes: &[u8],
    address: u128,
) -> Result<Option<Value>, OutOfMemory>
    requires { address ≤ 2 ^ 95 }
    ensures { IfOk result (λ o. o ≡ plain_stands side.now bytes.now ty.now (plain_of ty.now) address) }
{
    match *ty {
        InterfaceType::String => load_text(alloc, side, bytes, address),
        _ => match number_in(bytes, plain_size(ty), address) {
            Some(number) => Ok(value_of_number(ty, number)),
            None => Ok(None),
        },
    }
}

/// The text whose pointer and length stand at an address.
fn load_text(
    alloc: Global,
    side: &SideAbi,
    bytes: &[u8],
    address: u128,
) -> Result<Option<Value>, OutOfMemory>
    requires { address ≤ 2 ^ 95 }
    ensures { IfOk result (λ o. o ≡ text_of_pair side.now bytes.now (pair_there side.now bytes.now address)) }
{
    let Some((pointer, count)) = pair_in(side, bytes, address) else {
        return Ok(None);
    };
    match text_at(alloc, side.encoding, bytes, pointer, count)? {
        Some(chars) => Ok(Some(Value::Str(chars))),
        None => Ok(None),
    }
}

/// The place of a member behind a number of bytes of a record, which moves to its end.
fn next_place(types: &ComponentTypes, ty: &InterfaceType, side: &SideAbi, offset: &mut u32) -> u32
    requires live { IsLive types.now ty.now }
    requires fits { (s : Shape) × HasShape types.now ty.now s × (next_of (width side.now.memory64) s offset.old ≤ 4294967295) }
    ensures place { (s : Shape) → HasShape types.now ty.now s → result ≡ place_of (width side.now.memory64) s offset.old }
    ensures moved { (s : Shape) → HasShape types.now ty.now s → offset.new ≡ next_of (width side.now.memory64) s offset.old }
    ensures laid { (s : Shape) → HasShape types.now ty.now s → abi_at types.now ty.now ≡ layout_of s }
{
    let abi = types.canonical_abi(ty);
    if side.memory64 {
        abi.next_field64(offset)
    } else {
        abi.next_field32(offset)
    }
}

/// The value of a live type at an address.
#[cycle(loading)]
fn load_value(
    alloc: Global,
    types: &ComponentTypes,
    ty: &InterfaceType,
    side: &SideAbi,
    bytes: &[u8],
    address: u128,
) -> Result<Option<Value>, OutOfMemory>
    requires live { IsLive types.now ty.now }
    requires room { RoomFor types.now (width side.now.memory64) address ty.now }
    ensures { IfOk result (λ o. (s : Shape) → HasShape types.now ty.now s → o ≡ stands side.now bytes.now s address) }
{
    match node_of_type(alloc, types, ty)? {
        None => load_plain(alloc, ty, side, bytes, address),
        Some(node) => load_node(alloc, types, ty, &node, side, bytes, address),
    }
}

/// The value of a type with members at an address.
#[cycle(loading)]
fn load_node(
    alloc: Global,
    types: &ComponentTypes,
    ty: &InterfaceType,
    node: &Node,
    side: &SideAbi,
    bytes: &[u8],
    address: u128,
) -> Result<Option<Value>, OutOfMemory>
    requires live { IsLive types.now ty.now }
    requires told { HasNode types.now ty.now node.now }
    requires room { RoomFor types.now (width side.now.memory64) address ty.now }
    ensures { IfOk result (λ o. (s : Shape) → HasShape types.now ty.now s → o ≡ stands side.now bytes.now s address) }
{
    types.reveal();
    let _whole = types.canonical_abi(ty);
    match node.kind {
        NodeKind::Record => load_record(alloc, types, ty, node, side, bytes, address),
        NodeKind::Tuple => load_tuple(alloc, types, ty, node, side, bytes, address),
        NodeKind::Variant => load_variant(alloc, types, ty, node, side, bytes, address),
        NodeKind::Enum => load_variant(alloc, types, ty, node, side, bytes, address),
        NodeKind::Option => load_variant(alloc, types, ty, node, side, bytes, address),
        NodeKind::Result => load_variant(alloc, types, ty, node, side, bytes, address),
        NodeKind::List(element) => load_list(alloc, types, ty, &element, side, bytes, address),
        NodeKind::FixedList(count, element) => {
            load_fixed_list(alloc, types, ty, &element, side, bytes, count, address)
        }
        NodeKind::Map(_, _) => load_map(alloc, types, ty, node, side, bytes, address),
        NodeKind::Flags => load_flags(alloc, &node.names, bytes, address),
        NodeKind::Future(table, _) => Ok(load_handle(HandleKind::Future, table, bytes, address)),
        NodeKind::Stream(table, _) => Ok(load_handle(HandleKind::Stream, table, bytes, address)),
    }
}

/// The record whose fields stand one behind the other from an address on.
#[cycle(loading)]
fn load_record(
    alloc: Global,
    types: &ComponentTypes,
    owner: &InterfaceType,
    node: &Node,
    side: &SideAbi,
    bytes: &[u8],
    address: u128,
) -> Result<Option<Value>, OutOfMemory>
    requires within { AreLower types.now owner.now node.now.types }
    requires room { RoomForMembers types.now (width side.now.memory64) address node.now.types }
    ensures { IfOk result (λ o. (ms : Members) → AreTold kinds.Record types.now node.now.names node.now.types ms → o ≡ stands side.now bytes.now (s_node k_record ms) address) }
{
    let members = node.types.as_slice();
    match load_members(alloc, types, owner, members, side, bytes, address)? {
        Some(values) => Ok(Some(Value::Record(named(alloc, &node.names, values)?))),
        None => Ok(None),
    }
}

/// The tuple whose members stand one behind the other from an address on.
#[cycle(loading)]
fn load_tuple(
    alloc: Global,
    types: &ComponentTypes,
    owner: &InterfaceType,
    node: &Node,
    side: &SideAbi,
    bytes: &[u8],
    address: u128,
) -> Result<Option<Value>, OutOfMemory>
    requires within { AreLower types.now owner.now node.now.types }
    requires room { RoomForMembers types.now (width side.now.memory64) address node.now.types }
    ensures { IfOk result (λ o. (ms : Members) → AreTold kinds.Tuple types.now node.now.names node.now.types ms → o ≡ stands side.now bytes.now (s_node k_tuple ms) address) }
{
    let members = node.types.as_slice();
    match load_members(alloc, types, owner, members, side, bytes, address)? {
        Some(values) => Ok(Some(Value::Tuple(values))),
        None => Ok(None),
    }
}

/// The case whose number stands at an address, with its payload behind it.
#[cycle(loading)]
fn load_variant(
    alloc: Global,
    types: &ComponentTypes,
    owner: &InterfaceType,
    node: &Node,
    side: &SideAbi,
    bytes: &[u8],
    address: u128,
) -> Result<Option<Value>, OutOfMemory>
    requires within { AreLower types.now owner.now node.now.types }
    requires low { address ≤ 2 ^ 90 }
    requires room { RoomForCases types.now side.now address node.now.types }
    ensures { IfOk result (λ o. (ms : Members) → node.now.names ≡ names_of ms → AreOf types.now node.now.types ms → o ≡ variant_stands side.now bytes.now ms (λ x b. case_stands side.now bytes.now ms x b) address) }
{
    let cases = node.types.as_slice();
    let size = case_bytes(cases.len());
    let Some(number) = number_in(bytes, size, address) else {
        return Ok(None);
    };
    let payload = address + u128::from(payload_place(types, cases, side, size));
    load_case(alloc, types, owner, node, side, bytes, number, payload)
}

/// The case of a number, with its payload at an address.
#[cycle(loading)]
fn load_case(
    alloc: Global,
    types: &ComponentTypes,
    owner: &InterfaceType,
    node: &Node,
    side: &SideAbi,
    bytes: &[u8],
    number: u64,
    address: u128,
) -> Result<Option<Value>, OutOfMemory>
    requires within { AreLower types.now owner.now node.now.types }
    requires room { RoomForPayload types.now (width side.now.memory64) address node.now.types }
    ensures { IfOk result (λ o. (ms : Members) → node.now.names ≡ names_of ms → AreOf types.now node.now.types ms → o ≡ case_stands side.now bytes.now ms number address) }
{
    let at = number as usize;
    let Some(payload) = node.types.get(at) else {
        return Ok(None);
    };
    let Some(name) = node.names.get(at) else {
        return Ok(None);
    };
    let mut values = Seq::new(alloc);
    if let Some(ty) = payload {
        match load_value(alloc, types, ty, side, bytes, address)? {
            Some(value) => values.push(value)?,
            None => return Ok(None),
        }
    }
    Ok(Some(Value::Case {
        name: name.try_clone()?,
        payload: values,
    }))
}

/// The bytes of the discriminant of so many cases (canonical ABI, `discriminant_type`).
pub fn case_bytes(count: usize) -> usize
    ensures value { result ≡ discriminant_bytes (discriminant_size count) }
    ensures few { result ≤ 4 }
{
    if count <= 0x100 {
        1
    } else if count <= 0x1_0000 {
        2
    } else {
        4
    }
}

/// The place of the payload of cases behind a discriminant of so many bytes.
fn payload_place(
    types: &ComponentTypes,
    cases: &[Option<InterfaceType>],
    side: &SideAbi,
    size: usize,
) -> u64
    requires live { (i : ℕ) (y : InterfaceType) → slice_get cases.now i ≡ Some (Some y) → IsLive types.now y }
    requires few { size ≤ 4 }
    ensures { (ms : Members) → AreOf types.now cases.now ms → result ≡ payload_offset size (extents (width side.now.memory64) (payloads (layouts_of ms))) }
{
    let mut align = 1;
    for case in cases {
        if let Some(ty) = case {
            let (_size, own) = element_extent(types, ty, side);
            align = own.max(align);
        }
    }
    (size as u64).next_multiple_of(u64::from(align))
}

/// The list whose pointer and length stand at an address.
#[cycle(loading)]
fn load_list(
    alloc: Global,
    types: &ComponentTypes,
    owner: &InterfaceType,
    element: &InterfaceType,
    side: &SideAbi,
    bytes: &[u8],
    address: u128,
) -> Result<Option<Value>, OutOfMemory>
    requires within { IsMemberOf types.now element.now owner.now }
    requires low { address ≤ 2 ^ 90 }
    ensures { IfOk result (λ o. (ms : Members) → AreOf types.now (Some element.now ∷ []) ms → o ≡ stands side.now bytes.now (s_node k_list ms) address) }
{
    let Some((pointer, count)) = pair_in(side, bytes, address) else {
        return Ok(None);
    };
    list_behind(alloc, types, owner, element, side, bytes, pointer, count)
}

/// The list of so many elements behind a pointer.
#[cycle(loading)]
pub(crate) fn list_behind(
    alloc: Global,
    types: &ComponentTypes,
    owner: &InterfaceType,
    element: &InterfaceType,
    side: &SideAbi,
    bytes: &[u8],
    pointer: u64,
    count: u64,
) -> Result<Option<Value>, OutOfMemory>
    requires { IsMemberOf types.now element.now owner.now }
    ensures { IfOk result (λ o. (ms : Members) → AreOf types.now (Some element.now ∷ []) ms → o ≡ list_value side.now bytes.now ms (λ b. element_stands side.now bytes.now ms b) (record { pointer = pointer; count = count })) }
{
    let (size, align) = element_extent(types, element, side);
    let length = u128::from(count) * u128::from(size);
    if !is_in_range(bytes, u64::from(align), pointer, length) {
        return Ok(None);
    }
    let start = u128::from(pointer);
    match load_elements(
        alloc, types, owner, element, side, bytes, count, size, start,
    )? {
        Some(values) => Ok(Some(Value::List(values))),
        None => Ok(None),
    }
}

/// The list of a fixed length from an address on.
#[cycle(loading)]
fn load_fixed_list(
    alloc: Global,
    types: &ComponentTypes,
    owner: &InterfaceType,
    element: &InterfaceType,
    side: &SideAbi,
    bytes: &[u8],
    count: u32,
    address: u128,
) -> Result<Option<Value>, OutOfMemory>
    requires within { IsMemberOf types.now element.now owner.now }
    requires room { address + count * (extent (width side.now.memory64) (abi_at types.now element.now)).size ≤ 2 ^ 90 }
    ensures { IfOk result (λ o. (ms : Members) → AreOf types.now (Some element.now ∷ []) ms → o ≡ stands side.now bytes.now (s_node (k_fixed count) ms) address) }
{
    let (size, _align) = element_extent(types, element, side);
    match load_elements(
        alloc,
        types,
        owner,
        element,
        side,
        bytes,
        u64::from(count),
        size,
        address,
    )? {
        Some(values) => Ok(Some(Value::List(values))),
        None => Ok(None),
    }
}

/// The bytes of a value of a type, and its alignment.
fn element_extent(types: &ComponentTypes, ty: &InterfaceType, side: &SideAbi) -> (u32, u32)
    requires { IsLive types.now ty.now }
    ensures stands { result.0 ≡ (extent (width side.now.memory64) (abi_at types.now ty.now)).size }
    ensures size { (s : Shape) → HasShape types.now ty.now s → result.0 ≡ (extent (width side.now.memory64) (layout_of s)).size }
    ensures align { (s : Shape) → HasShape types.now ty.now s → result.1 ≡ (extent (width side.now.memory64) (layout_of s)).align }
    ensures aligned { 1 ≤ result.1 }
{
    let abi = types.canonical_abi(ty);
    if side.memory64 {
        (abi.size64, abi.align64)
    } else {
        (abi.size32, abi.align32)
    }
}

/// The map whose pointer and length stand at an address.
#[cycle(loading)]
fn load_map(
    alloc: Global,
    types: &ComponentTypes,
    owner: &InterfaceType,
    node: &Node,
    side: &SideAbi,
    bytes: &[u8],
    address: u128,
) -> Result<Option<Value>, OutOfMemory>
    requires live { IsLive types.now owner.now }
    requires shaped { (ms : Members) × HasShape types.now owner.now (s_node k_map ms) × AreOf types.now node.now.types ms }
    requires within { AreLower types.now owner.now node.now.types }
    requires low { address ≤ 2 ^ 90 }
    ensures { IfOk result (λ o. (ms : Members) → HasShape types.now owner.now (s_node k_map ms) → AreOf types.now node.now.types ms → o ≡ stands side.now bytes.now (s_node k_map ms) address) }
{
    let Some((pointer, count)) = pair_in(side, bytes, address) else {
        return Ok(None);
    };
    map_behind(alloc, types, owner, node, side, bytes, pointer, count)
}

/// The map of so many entries behind a pointer.
#[cycle(loading)]
pub(crate) fn map_behind(
    alloc: Global,
    types: &ComponentTypes,
    owner: &InterfaceType,
    node: &Node,
    side: &SideAbi,
    bytes: &[u8],
    pointer: u64,
    count: u64,
) -> Result<Option<Value>, OutOfMemory>
    requires live { IsLive types.now owner.now }
    requires shaped { (ms : Members) × HasShape types.now owner.now (s_node k_map ms) × AreOf types.now node.now.types ms }
    requires within { AreLower types.now owner.now node.now.types }
    ensures { IfOk result (λ o. (ms : Members) → HasShape types.now owner.now (s_node k_map ms) → AreOf types.now node.now.types ms → o ≡ map_value side.now bytes.now ms (λ b. stand side.now bytes.now ms b 0) (record { pointer = pointer; count = count })) }
{
    let (size, align) = entry_extent(types, owner, side);
    let length = u128::from(count) * u128::from(size);
    if !is_in_range(bytes, u64::from(align), pointer, length) {
        return Ok(None);
    }
    let start = u128::from(pointer);
    match load_entries(alloc, types, owner, node, side, bytes, count, size, start)? {
        Some(entries) => Ok(Some(Value::Map(entries))),
        None => Ok(None),
    }
}

/// The bytes of an entry of a map, and its alignment.
fn entry_extent(types: &ComponentTypes, ty: &InterfaceType, side: &SideAbi) -> (u32, u32)
    requires { IsLive types.now ty.now }
    ensures size { (ms : Members) → HasShape types.now ty.now (s_node k_map ms) → result.0 ≡ (extent_of_element side.now k_map ms).size }
    ensures align { (ms : Members) → HasShape types.now ty.now (s_node k_map ms) → result.1 ≡ (extent_of_element side.now k_map ms).align }
    ensures aligned { 1 ≤ result.1 }
{
    types.reveal();
    let InterfaceType::Map(i) = *ty else {
        return (0, 1);
    };
    let abi = &types[i].entry_abi;
    if side.memory64 {
        (abi.size64, abi.align64.max(1))
    } else {
        (abi.size32, abi.align32.max(1))
    }
}

/// So many entries of a map from an address on, one behind the other.
#[cycle(loading)]
fn load_entries(
    alloc: Global,
    types: &ComponentTypes,
    owner: &InterfaceType,
    node: &Node,
    side: &SideAbi,
    bytes: &[u8],
    count: u64,
    size: u32,
    address: u128,
) -> Result<Option<Seq<(Value, Value)>>, OutOfMemory>
    requires within { AreLower types.now owner.now node.now.types }
    requires few { (ms : Members) × AreOf types.now node.now.types ms × (ends_of (width side.now.memory64) ms 0 ≤ size) }
    requires room { address + count * size ≤ 2 ^ 90 }
    ensures { IfOk result (λ o. (ms : Members) → AreOf types.now node.now.types ms → o ≡ each_at count size (λ b. entry_of_members (stand side.now bytes.now ms b 0)) address) }
{
    let members = node.types.as_slice();
    let mut entries = Seq::new(alloc);
    let mut at = address;
    for _ in 0..count {
        let Some(values) = load_members(alloc, types, owner, members, side, bytes, at)? else {
            return Ok(None);
        };
        let Some(entry) = entry_of(values) else {
            return Ok(None);
        };
        entries.push(entry)?;
        at += u128::from(size);
    }
    Ok(Some(entries))
}

/// The entry of a key and a value.
fn entry_of(values: Seq<Value>) -> Option<(Value, Value)>
    ensures { result ≡ entry values }
{
    match <[Value; 2]>::try_from(values.into_vec()) {
        Ok(members) => {
            let [key, value] = members;
            Some((key, value))
        }
        Err(others) => {
            drop(others);
            None
        }
    }
}

/// So many elements from an address on, one behind the other.
#[cycle(loading)]
fn load_elements(
    alloc: Global,
    types: &ComponentTypes,
    owner: &InterfaceType,
    element: &InterfaceType,
    side: &SideAbi,
    bytes: &[u8],
    count: u64,
    size: u32,
    address: u128,
) -> Result<Option<Seq<Value>>, OutOfMemory>
    requires within { IsMemberOf types.now element.now owner.now }
    requires size { size ≡ (extent (width side.now.memory64) (abi_at types.now element.now)).size }
    requires room { address + count * size ≤ 2 ^ 90 }
    ensures { IfOk result (λ o. (s : Shape) → HasShape types.now element.now s → o ≡ each_at count size (λ b. stands side.now bytes.now s b) address) }
{
    let mut values = Seq::new(alloc);
    let mut at = address;
    for _ in 0..count {
        match load_value(alloc, types, element, side, bytes, at)? {
            Some(value) => values.push(value)?,
            None => return Ok(None),
        }
        at += u128::from(size);
    }
    Ok(Some(values))
}

/// The flags whose bits stand at an address.
fn load_flags(
    alloc: Global,
    names: &Seq<Text>,
    bytes: &[u8],
    address: u128,
) -> Result<Option<Value>, OutOfMemory>
    requires { address ≤ 2 ^ 90 }
    ensures { IfOk result (λ o. o ≡ option_map (λ n. a_value.Flags (flags_of_number names.now n)) (number_there bytes.now (flags_extent (flags_size (length names.now))).size address)) }
{
    let size = flags_bytes(names.as_slice().len());
    if address + size as u128 > bytes.len() as u128 {
        return Ok(None);
    }
    let start = address as usize;
    let flags = flags_in(alloc, names, &bytes[start..start + size])?;
    Ok(Some(Value::Flags(flags)))
}

/// The bytes of flags of so many names.
fn flags_bytes(count: usize) -> usize
    ensures value { result ≡ (flags_extent (flags_size count)).size }
    ensures few { result ≤ count + 4 }
{
    if count == 0 {
        0
    } else if count <= 8 {
        1
    } else if count <= 16 {
        2
    } else {
        count.div_ceil(32) * 4
    }
}

/// The flags of names, the first by the lowest bit of the first byte.
pub(crate) fn flags_in(
    alloc: Global,
    names: &Seq<Text>,
    bytes: &[u8],
) -> Result<Seq<(Text, bool)>, OutOfMemory>
    ensures { IfOk result (λ flags. flags ≡ flags_of_number names.now (number_of bytes.now)) }
{
    let mut flags = Seq::new(alloc);
    let mut byte: u8 = 0;
    let mut left: u32 = 0;
    let mut index: usize = 0;
    for name in names.as_slice() {
        if left == 0 {
            byte = next_byte(bytes, index);
            index += 1;
            left = 8;
        }
        flags.push((name.try_clone()?, byte % 2 == 1))?;
        byte /= 2;
        left -= 1;
    }
    Ok(flags)
}

/// The byte at an index, 0 behind the last.
fn next_byte(bytes: &[u8], index: usize) -> u8
    ensures { number_of (drop index bytes.now) ≡ result + 256 * number_of (drop (index + 1) bytes.now) }
{
    if index < bytes.len() { bytes[index] } else { 0 }
}

/// The handle of a kind whose number stands at an address.
fn load_handle(kind: HandleKind, table: u32, bytes: &[u8], address: u128) -> Option<Value>
    requires { address ≤ 2 ^ 95 }
    ensures { result ≡ option_map (λ n. a_value.Handle kind table n) (number_there bytes.now 4 address) }
{
    match number_in(bytes, 4, address) {
        Some(number) => Some(Value::Handle {
            kind,
            table,
            number: number as u32,
        }),
        None => None,
    }
}

/// The values of members, each at its place in a record at an address.
#[cycle(loading)]
fn load_members(
    alloc: Global,
    types: &ComponentTypes,
    owner: &InterfaceType,
    members: &[Option<InterfaceType>],
    side: &SideAbi,
    bytes: &[u8],
    address: u128,
) -> Result<Option<Seq<Value>>, OutOfMemory>
    requires within { AreLower types.now owner.now members.now }
    requires room { RoomForMembers types.now (width side.now.memory64) address members.now }
    ensures { IfOk result (λ o. (ms : Members) → AreOf types.now members.now ms → o ≡ stand side.now bytes.now ms address 0) }
{
    let mut values = Seq::new(alloc);
    let mut offset = 0;
    for member in members {
        if let Some(ty) = member {
            let place = next_place(types, ty, side, &mut offset);
            let at = address + u128::from(place);
            match load_value(alloc, types, ty, side, bytes, at)? {
                Some(value) => values.push(value)?,
                None => return Ok(None),
            }
        }
    }
    Ok(Some(values))
}

/// Values with their names, one by one: as many as there are of both.
pub fn named(
    alloc: Global,
    names: &Seq<Text>,
    values: Seq<Value>,
) -> Result<Seq<(Text, Value)>, OutOfMemory>
    ensures { IfOk result (λ fields. fields ≡ zip names.now values) }
{
    let mut fields = Seq::new(alloc);
    let mut values = values.into_vec().into_iter();
    for name in names.as_slice() {
        let Some(value) = values.next() else {
            break;
        };
        fields.push((name.try_clone()?, value))?;
    }
    Ok(fields)
}
