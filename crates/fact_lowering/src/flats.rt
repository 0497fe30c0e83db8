//! Flat types, as lists (canonical ABI, "Flattening").

ghost use Rattle.std.specs.Prelude.{◌≡◌, [], ◌∷◌, List, Some, None, replicate, slice_get, IfOk};
ghost use Rattle.fact_types.specs.FlatShapes.{flat, flat_all as all_flat, flat_any, flat_members as members_flat, flat_plain as plain_flat, flat_types as flat_there, joined as joined_lists, pointer, times, upto};
ghost use Rattle.fact_types.specs.Functions.{HaveShapes};
ghost use Rattle.fact_types.specs.Heights.{IsMemberOf};
ghost use Rattle.fact_types.specs.Layout.{flags_flat, flags_size};
ghost use Rattle.fact_types.specs.Shapes.{Shape, Members};
ghost use Rattle.fact_types.specs.Signatures.{width};
ghost use Rattle.fact_types.specs.Tables.{IsLive, HasShape};
ghost use Rattle.fact_abi.specs.Nodes.{AreLower, AreOf, HasNode};
ghost use Rattle.fact_lowering.specs.Lowered.{AreAllLive};

use fact_abi::{Node, NodeKind, node_of_type};
use fact_types::{ComponentTypes, FlatType, InterfaceType, MAX_FLAT_TYPES};
use fact_wasm::{OutOfMemory, Seq};
use std::alloc::Global;

/// The flat types of a live type on a side, or `None` where there are more than 16 (`flatten_type`).
#[cycle(flattening)]
pub fn flat_types(
    alloc: Global,
    types: &ComponentTypes,
    ty: &InterfaceType,
    memory64: bool,
) -> Result<Option<Seq<FlatType>>, OutOfMemory>
    requires { IsLive types.now ty.now }
    ensures { IfOk result (λ o. (s : Shape) → HasShape types.now ty.now s → o ≡ flat_there (width memory64) s) }
{
    match node_of_type(alloc, types, ty)? {
        None => Ok(Some(flat_plain(alloc, ty, memory64)?)),
        Some(node) => flat_of_node(alloc, types, ty, &node, memory64),
    }
}

/// The flat types of several live types, one behind the other, or `None` where there are more than a limit, or more than 16 for one of
/// them.
pub fn flat_all(
    alloc: Global,
    types: &ComponentTypes,
    tys: &[InterfaceType],
    memory64: bool,
    limit: usize,
) -> Result<Option<Seq<FlatType>>, OutOfMemory>
    requires { AreAllLive types.now tys.now }
    ensures { IfOk result (λ o. (ss : List Shape) → HaveShapes types.now tys.now ss → o ≡ all_flat (width memory64) limit ss) }
{
    let mut all = Vec::new(alloc);
    for ty in tys {
        let Some(flat) = flat_types(alloc, types, ty, memory64)? else {
            return Ok(None);
        };
        all.extend_from_slice(flat.as_slice())?;
    }
    if all.len() > limit {
        return Ok(None);
    }
    Ok(Some(Seq::from_vec(all)))
}

/// The flat type of addresses.
pub fn pointer_type(memory64: bool) -> FlatType
    ensures { result ≡ pointer (width memory64) }
{
    if memory64 {
        FlatType::I64
    } else {
        FlatType::I32
    }
}

/// A flat type so many times.
fn repeated(alloc: Global, flat: FlatType, count: usize) -> Result<Seq<FlatType>, OutOfMemory>
    ensures { IfOk result (λ fs. fs ≡ replicate count flat) }
{
    let mut flats = Seq::new(alloc);
    for _ in 0..count {
        flats.push(flat)?;
    }
    Ok(flats)
}

fn flat_plain(
    alloc: Global,
    ty: &InterfaceType,
    memory64: bool,
) -> Result<Seq<FlatType>, OutOfMemory>
    ensures { IfOk result (λ fs. fs ≡ plain_flat (width memory64) ty.now) }
{
    match *ty {
        InterfaceType::S64 | InterfaceType::U64 => repeated(alloc, FlatType::I64, 1),
        InterfaceType::Float32 => repeated(alloc, FlatType::F32, 1),
        InterfaceType::Float64 => repeated(alloc, FlatType::F64, 1),
        InterfaceType::String => repeated(alloc, pointer_type(memory64), 2),
        _ => repeated(alloc, FlatType::I32, 1),
    }
}

/// The flat types of a type with members.
#[cycle(flattening)]
fn flat_of_node(
    alloc: Global,
    types: &ComponentTypes,
    ty: &InterfaceType,
    node: &Node,
    memory64: bool,
) -> Result<Option<Seq<FlatType>>, OutOfMemory>
    requires live { IsLive types.now ty.now }
    requires told { HasNode types.now ty.now node.now }
    ensures { IfOk result (λ o. (s : Shape) → HasShape types.now ty.now s → o ≡ flat_there (width memory64) s) }
{
    let _whole = types.canonical_abi(ty);
    let members = node.types.as_slice();
    match node.kind {
        NodeKind::Record => flat_members(alloc, types, ty, members, memory64),
        NodeKind::Tuple => flat_members(alloc, types, ty, members, memory64),
        NodeKind::Variant => flat_cases(alloc, types, ty, members, memory64),
        NodeKind::Option => flat_cases(alloc, types, ty, members, memory64),
        NodeKind::Result => flat_cases(alloc, types, ty, members, memory64),
        NodeKind::Enum => Ok(Some(repeated(alloc, FlatType::I32, 1)?)),
        NodeKind::List(_) => Ok(Some(repeated(alloc, pointer_type(memory64), 2)?)),
        NodeKind::Map(_, _) => Ok(Some(repeated(alloc, pointer_type(memory64), 2)?)),
        NodeKind::FixedList(count, element) => {
            flat_elements(alloc, types, ty, &element, count, memory64)
        }
        NodeKind::Flags => flat_flags(alloc, node.names.len()),
        NodeKind::Future(_, _) => Ok(Some(repeated(alloc, FlatType::I32, 1)?)),
        NodeKind::Stream(_, _) => Ok(Some(repeated(alloc, FlatType::I32, 1)?)),
    }
}

/// The words of so many flags, where they are at most 16.
fn flat_flags(alloc: Global, count: usize) -> Result<Option<Seq<FlatType>>, OutOfMemory>
    ensures { IfOk result (λ o. o ≡ upto 16 (replicate (flags_flat (flags_size count)) FlatType.I32)) }
{
    let words = flag_words(count);
    if words > MAX_FLAT_TYPES {
        return Ok(None);
    }
    Ok(Some(repeated(alloc, FlatType::I32, words)?))
}

/// The words of 32 bits that stand for so many flags.
fn flag_words(count: usize) -> usize
    ensures { result ≡ flags_flat (flags_size count) }
{
    if count == 0 { 0 } else { count.div_ceil(32) }
}

/// The flat types of members, one behind the other.
#[cycle(flattening)]
fn flat_members(
    alloc: Global,
    types: &ComponentTypes,
    owner: &InterfaceType,
    members: &[Option<InterfaceType>],
    memory64: bool,
) -> Result<Option<Seq<FlatType>>, OutOfMemory>
    requires { AreLower types.now owner.now members.now }
    ensures { IfOk result (λ o. (ms : Members) → AreOf types.now members.now ms → o ≡ upto 16 (members_flat (width memory64) ms)) }
{
    let mut all = Vec::new(alloc);
    for member in members {
        let Some(flat) = flat_member(alloc, types, owner, member, memory64)? else {
            return Ok(None);
        };
        all.extend_from_slice(flat.as_slice())?;
        if all.len() > MAX_FLAT_TYPES {
            return Ok(None);
        }
    }
    Ok(Some(Seq::from_vec(all)))
}

/// The flat types of a member, none where it has no type.
#[cycle(flattening)]
fn flat_member(
    alloc: Global,
    types: &ComponentTypes,
    owner: &InterfaceType,
    member: &Option<InterfaceType>,
    memory64: bool,
) -> Result<Option<Seq<FlatType>>, OutOfMemory>
    requires { (y : InterfaceType) → member.now ≡ Some y → IsMemberOf types.now y owner.now }
    ensures none { member.now ≡ None → IfOk result (λ o. o ≡ Some []) }
    ensures some { (y : InterfaceType) → member.now ≡ Some y → IfOk result (λ o. (s : Shape) → HasShape types.now y s → o ≡ flat_there (width memory64) s) }
{
    match member {
        None => Ok(Some(Seq::new(alloc))),
        Some(ty) => flat_types(alloc, types, ty, memory64),
    }
}

/// The flat types of so many elements, one behind the other.
#[cycle(flattening)]
fn flat_elements(
    alloc: Global,
    types: &ComponentTypes,
    owner: &InterfaceType,
    element: &InterfaceType,
    count: u32,
    memory64: bool,
) -> Result<Option<Seq<FlatType>>, OutOfMemory>
    requires { IsMemberOf types.now element.now owner.now }
    ensures { IfOk result (λ o. (s : Shape) → HasShape types.now element.now s → o ≡ upto 16 (times count (flat (width memory64) s))) }
{
    if count == 0 {
        return Ok(Some(Seq::new(alloc)));
    }
    let Some(flat) = flat_types(alloc, types, element, memory64)? else {
        return Ok(None);
    };
    flat_times(alloc, flat.as_slice(), count)
}

/// Flat types so many times, where they are at most 16 then.
fn flat_times(
    alloc: Global,
    flat: &[FlatType],
    count: u32,
) -> Result<Option<Seq<FlatType>>, OutOfMemory>
    ensures { IfOk result (λ o. o ≡ upto 16 (times count flat.now)) }
{
    let mut all = Vec::new(alloc);
    if flat.len() == 0 {
        return Ok(Some(Seq::from_vec(all)));
    }
    for _ in 0..count {
        all.extend_from_slice(flat)?;
        if all.len() > MAX_FLAT_TYPES {
            return Ok(None);
        }
    }
    Ok(Some(Seq::from_vec(all)))
}

/// The discriminant, and the flat types of the payloads joined (`flatten_variant`).
#[cycle(flattening)]
fn flat_cases(
    alloc: Global,
    types: &ComponentTypes,
    owner: &InterfaceType,
    cases: &[Option<InterfaceType>],
    memory64: bool,
) -> Result<Option<Seq<FlatType>>, OutOfMemory>
    requires { AreLower types.now owner.now cases.now }
    ensures { IfOk result (λ o. (ms : Members) → AreOf types.now cases.now ms → o ≡ upto 16 (FlatType.I32 ∷ flat_any (width memory64) ms)) }
{
    let mut any = Seq::new(alloc);
    for case in cases {
        let Some(flat) = flat_member(alloc, types, owner, case, memory64)? else {
            return Ok(None);
        };
        any = joined(alloc, any.as_slice(), flat.as_slice())?;
    }
    behind_discriminant(alloc, any.as_slice())
}

/// A discriminant and flat types, where they are at most 16.
fn behind_discriminant(
    alloc: Global,
    payload: &[FlatType],
) -> Result<Option<Seq<FlatType>>, OutOfMemory>
    ensures { IfOk result (λ o. o ≡ upto 16 (FlatType.I32 ∷ payload.now)) }
{
    if payload.len() >= MAX_FLAT_TYPES {
        return Ok(None);
    }
    let mut all = Vec::new(alloc);
    all.push(FlatType::I32)?;
    all.extend_from_slice(payload)?;
    Ok(Some(Seq::from_vec(all)))
}

/// Two lists of flat types joined place by place; the rest of the longer one stays.
fn joined(
    alloc: Global,
    first: &[FlatType],
    second: &[FlatType],
) -> Result<Seq<FlatType>, OutOfMemory>
    ensures { IfOk result (λ fs. fs ≡ joined_lists first.now second.now) }
{
    let mut all = Seq::new(alloc);
    for place in 0..first.len().max(second.len()) {
        if let Some(flat) = joined_type(first, second, place) {
            all.push(flat)?;
        }
    }
    Ok(all)
}

/// The flat type at a place of two joined lists, if there is one.
fn joined_type(first: &[FlatType], second: &[FlatType], place: usize) -> Option<FlatType>
    ensures { result ≡ slice_get (joined_lists first.now second.now) place }
{
    let Some(own) = type_at(first, place) else {
        return type_at(second, place);
    };
    match type_at(second, place) {
        Some(other) => {
            let mut ty = own;
            ty.join(other);
            Some(ty)
        }
        None => Some(own),
    }
}

/// The flat type at a place, if there is one.
fn type_at(types: &[FlatType], place: usize) -> Option<FlatType>
    ensures { result ≡ slice_get types.now place }
{
    types.get(place).copied()
}
