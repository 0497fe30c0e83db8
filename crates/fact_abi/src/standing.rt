//! Core values in the place of flat types (canonical ABI, "Flat Lifting").

ghost use Rattle.std.specs.Prelude.{◌≡◌, [], ◌∷◌, ◌+◌, ◌*◌, ◌<◌, ◌≤◌, ◌^◌, List, length, ℕ, replicate, IfOk, IfSome, slice_get, Some};
ghost use Rattle.fact_types.specs.declared.interface.InterfaceType.{InterfaceType};
ghost use Rattle.fact_types.specs.declared.interface.InterfaceType.TheVariants as a_type;
ghost use Rattle.fact_types.specs.declared.extents.MemoryWidth.{MemoryWidth};
ghost use Rattle.fact_types.specs.declared.flats.FlatType.TheVariants.{I32};
ghost use Rattle.fact_types.specs.FlatShapes.{flat, flat_plain, flat_members, flat_any, times, pointer};
ghost use Rattle.fact_types.specs.Heights.{IsMemberOf};
ghost use Rattle.fact_types.specs.Layout.{flags_size, flags_flat};
ghost use Rattle.fact_types.specs.Shapes.{Shape, Members, plain_layout};
ghost use Rattle.fact_types.specs.Signatures.{width};
ghost use Rattle.fact_types.specs.Tables.{IsLive, HasShape};
ghost use Rattle.fact_abi.specs.Leading.{leading, IsHalf};
ghost use Rattle.fact_values.specs.Lift.{can_stand as stands, bits_of as bits_there, number_as as number_there};
ghost use Rattle.fact_abi.specs.Nodes.{AreOf, HasNode, AreLower};

use crate::nodes::{Node, NodeKind, node_of_type};
use fact_machine::CoreValue;
use fact_types::{ComponentTypes, FlatType, InterfaceType};
use fact_values::SideAbi;
use fact_wasm::OutOfMemory;
use std::alloc::Global;

/// Whether a core value can stand for a flat type: it may be the wider one of another case of a variant.
pub(crate) fn can_stand(flat: FlatType, value: &CoreValue) -> bool
    ensures { result ≡ stands flat value.now }
{
    match *value {
        CoreValue::I32(_) => matches!(flat, FlatType::I32 | FlatType::F32),
        CoreValue::I64(_) => true,
        CoreValue::F32(_) => matches!(flat, FlatType::F32),
        CoreValue::F64(_) => matches!(flat, FlatType::F64),
        CoreValue::Func(_) => false,
    }
}

/// The bits of a core value.
fn bits_of(value: &CoreValue) -> u64
    ensures { result ≡ bits_there value.now }
{
    match *value {
        CoreValue::I32(bits) | CoreValue::F32(bits) => u64::from(bits),
        CoreValue::I64(bits) | CoreValue::F64(bits) => bits,
        CoreValue::Func(_) => 0,
    }
}

/// A core value in the place of a flat type: one of 32 bits is the low half.
pub(crate) fn number_as(flat: FlatType, value: &CoreValue) -> u64
    ensures value { result ≡ number_there flat value.now }
    ensures half { IsHalf flat → result < 2 ^ 32 }
{
    match flat {
        FlatType::I32 | FlatType::F32 => bits_of(value) % 0x1_0000_0000,
        FlatType::I64 | FlatType::F64 => bits_of(value),
    }
}

/// The flat type of a type without members, but for a string.
pub(crate) fn flat_of_plain(ty: &InterfaceType) -> FlatType
    ensures value { (w : MemoryWidth) → (ty.now ≡ a_type.String → ⊥) → flat_plain w ty.now ≡ result ∷ [] }
    ensures half { (plain_layout ty.now).size32 ≤ 4 → IsHalf result }
{
    match *ty {
        InterfaceType::S64 | InterfaceType::U64 => FlatType::I64,
        InterfaceType::Float32 => FlatType::F32,
        InterfaceType::Float64 => FlatType::F64,
        InterfaceType::String => FlatType::I64,
        _ => FlatType::I32,
    }
}

/// The flat type of addresses.
pub(crate) fn pointer_of(side: &SideAbi) -> FlatType
    ensures { result ≡ pointer (width side.now.memory64) }
{
    if side.memory64 {
        FlatType::I64
    } else {
        FlatType::I32
    }
}

/// The words of 32 bits that stand for flags of so many names.
pub(crate) fn flags_words(count: usize) -> usize
    ensures { result ≡ flags_flat (flags_size count) }
{
    if count == 0 { 0 } else { count.div_ceil(32) }
}

/// So many core values, or `None` where not so many lead that each can stand for a flat type.
fn leading_same(flat: FlatType, count: usize, values: &[CoreValue]) -> Option<usize>
    ensures value { result ≡ leading (replicate count flat) values.now }
    ensures few { IfSome result (λ n. n ≤ length values.now) }
{
    for index in 0..count {
        let Some(value) = values.get(index) else {
            return None;
        };
        if !can_stand(flat, value) {
            return None;
        }
    }
    Some(count)
}

/// How many leading core values stand for a type without members.
fn leading_plain(ty: &InterfaceType, side: &SideAbi, values: &[CoreValue]) -> Option<usize>
    ensures value { result ≡ leading (flat_plain (width side.now.memory64) ty.now) values.now }
    ensures few { IfSome result (λ n. n ≤ length values.now) }
{
    match *ty {
        InterfaceType::String => leading_same(pointer_of(side), 2, values),
        _ => leading_same(flat_of_plain(ty), 1, values),
    }
}

/// How many leading core values stand for a live type, or `None` where they do not.
#[cycle(standing)]
pub(crate) fn leading_values(
    alloc: Global,
    types: &ComponentTypes,
    ty: &InterfaceType,
    side: &SideAbi,
    values: &[CoreValue],
) -> Result<Option<usize>, OutOfMemory>
    requires { IsLive types.now ty.now }
    ensures value { IfOk result (λ o. (s : Shape) → HasShape types.now ty.now s → o ≡ leading (flat (width side.now.memory64) s) values.now) }
    ensures few { IfOk result (λ o. IfSome o (λ n. n ≤ length values.now)) }
{
    match node_of_type(alloc, types, ty)? {
        None => Ok(leading_plain(ty, side, values)),
        Some(node) => leading_of_node(alloc, types, ty, &node, side, values),
    }
}

/// How many leading core values stand for a type with members.
#[cycle(standing)]
fn leading_of_node(
    alloc: Global,
    types: &ComponentTypes,
    ty: &InterfaceType,
    node: &Node,
    side: &SideAbi,
    values: &[CoreValue],
) -> Result<Option<usize>, OutOfMemory>
    requires live { IsLive types.now ty.now }
    requires told { HasNode types.now ty.now node.now }
    ensures value { IfOk result (λ o. (s : Shape) → HasShape types.now ty.now s → o ≡ leading (flat (width side.now.memory64) s) values.now) }
    ensures few { IfOk result (λ o. IfSome o (λ n. n ≤ length values.now)) }
{
    let _whole = types.canonical_abi(ty);
    let members = node.types.as_slice();
    match node.kind {
        NodeKind::Record => leading_members(alloc, types, ty, members, side, values),
        NodeKind::Tuple => leading_members(alloc, types, ty, members, side, values),
        NodeKind::Variant => leading_case(alloc, types, ty, members, side, values),
        NodeKind::Enum => leading_case(alloc, types, ty, members, side, values),
        NodeKind::Option => leading_case(alloc, types, ty, members, side, values),
        NodeKind::Result => leading_case(alloc, types, ty, members, side, values),
        NodeKind::List(_) => Ok(leading_same(pointer_of(side), 2, values)),
        NodeKind::Map(_, _) => Ok(leading_same(pointer_of(side), 2, values)),
        NodeKind::FixedList(count, element) => {
            leading_elements(alloc, types, ty, &element, side, count, values)
        }
        NodeKind::Flags => Ok(leading_same(
            FlatType::I32,
            flags_words(node.names.as_slice().len()),
            values,
        )),
        NodeKind::Future(_, _) => Ok(leading_same(FlatType::I32, 1, values)),
        NodeKind::Stream(_, _) => Ok(leading_same(FlatType::I32, 1, values)),
    }
}

/// How many leading core values stand for members, one behind the other.
#[cycle(standing)]
fn leading_members(
    alloc: Global,
    types: &ComponentTypes,
    owner: &InterfaceType,
    members: &[Option<InterfaceType>],
    side: &SideAbi,
    values: &[CoreValue],
) -> Result<Option<usize>, OutOfMemory>
    requires { AreLower types.now owner.now members.now }
    ensures value { IfOk result (λ o. (ms : Members) → AreOf types.now members.now ms → o ≡ leading (flat_members (width side.now.memory64) ms) values.now) }
    ensures few { IfOk result (λ o. IfSome o (λ n. n ≤ length values.now)) }
{
    let mut total = 0;
    for member in members {
        if let Some(ty) = member {
            let rest = &values[total..];
            let Some(count) = leading_values(alloc, types, ty, side, rest)? else {
                return Ok(None);
            };
            total += count;
        }
    }
    Ok(Some(total))
}

/// How many leading core values stand for a case of any number, with the payload of each case.
#[cycle(standing)]
fn leading_case(
    alloc: Global,
    types: &ComponentTypes,
    owner: &InterfaceType,
    cases: &[Option<InterfaceType>],
    side: &SideAbi,
    values: &[CoreValue],
) -> Result<Option<usize>, OutOfMemory>
    requires { AreLower types.now owner.now cases.now }
    ensures value { IfOk result (λ o. (ms : Members) → AreOf types.now cases.now ms → o ≡ leading (I32 ∷ flat_any (width side.now.memory64) ms) values.now) }
    ensures few { IfOk result (λ o. IfSome o (λ n. n ≤ length values.now)) }
{
    let [discriminant, payload @ ..] = values else {
        return Ok(None);
    };
    if !can_stand(FlatType::I32, discriminant) {
        return Ok(None);
    }
    match leading_payloads(alloc, types, owner, cases, side, payload)? {
        Some(most) => Ok(Some(1 + most)),
        None => Ok(None),
    }
}

/// How many leading core values stand for the payload of any case.
#[cycle(standing)]
fn leading_payloads(
    alloc: Global,
    types: &ComponentTypes,
    owner: &InterfaceType,
    cases: &[Option<InterfaceType>],
    side: &SideAbi,
    values: &[CoreValue],
) -> Result<Option<usize>, OutOfMemory>
    requires { AreLower types.now owner.now cases.now }
    ensures value { IfOk result (λ o. (ms : Members) → AreOf types.now cases.now ms → o ≡ leading (flat_any (width side.now.memory64) ms) values.now) }
    ensures few { IfOk result (λ o. IfSome o (λ n. n ≤ length values.now)) }
{
    let mut most = 0;
    for case in cases {
        if let Some(ty) = case {
            let Some(count) = leading_values(alloc, types, ty, side, values)? else {
                return Ok(None);
            };
            most = count.max(most);
        }
    }
    Ok(Some(most))
}

/// How many leading core values stand for so many elements, one behind the other.
#[cycle(standing)]
fn leading_elements(
    alloc: Global,
    types: &ComponentTypes,
    owner: &InterfaceType,
    element: &InterfaceType,
    side: &SideAbi,
    count: u32,
    values: &[CoreValue],
) -> Result<Option<usize>, OutOfMemory>
    requires { IsMemberOf types.now element.now owner.now }
    ensures value { IfOk result (λ o. (s : Shape) → HasShape types.now element.now s → o ≡ leading (times count (flat (width side.now.memory64) s)) values.now) }
    ensures few { IfOk result (λ o. IfSome o (λ n. n ≤ length values.now)) }
{
    let mut total = 0;
    for _ in 0..count {
        let rest = &values[total..];
        let Some(size) = leading_values(alloc, types, element, side, rest)? else {
            return Ok(None);
        };
        total += size;
    }
    Ok(Some(total))
}
