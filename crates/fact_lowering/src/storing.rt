//! Values stored in memory (canonical ABI, "Storing"). What a text, a list or a map has behind its pointer is put at the cursor of the
//! memory.

ghost use Rattle.std.specs.Prelude.{◌≡◌, [], ◌∷◌, ◌+◌, ◌*◌, ◌<◌, ◌≤◌, ◌^◌, ℕ, drop, length, map, slice_get, sum_by, IfOk, OnOk, Some};
ghost use Rattle.std.specs.Char.{IsScalar};
ghost use Rattle.std.specs.List.{AllByRecursion};
ghost use Rattle.fact_types.specs.declared.interface.InterfaceType.TheVariants as a_type;
ghost use Rattle.fact_types.specs.Agrees.{chosen, names_of};
ghost use Rattle.fact_types.specs.Layout.{flags_extent, flags_size};
ghost use Rattle.fact_types.specs.Shapes.{k_fixed, k_flags, k_list, k_map, k_record, k_tuple, Shape, s_plain, s_node, Members, ends_of};
ghost use Rattle.fact_types.specs.Tables.{IsLive, HasShape};
ghost use Rattle.fact_abi.specs.Nodes.{AreOf, HasNode, kind_of};
ghost use Rattle.fact_types.specs.Signatures.{pointer_bytes};
ghost use Rattle.fact_values.specs.declared.value.HandleKind.{HandleKind};
ghost use Rattle.fact_values.specs.declared.value.Value.{out-Value};
ghost use Rattle.fact_values.specs.declared.value.Value.TheVariants as a_value;
ghost use Rattle.fact_values.specs.IsA.{IsA, IsRecord, IsTuple, IsListOf, IsFixedList, IsMap, IsCase, IsFlags, IsHandle, IsPlainValue, AreMembers, HasCase, IsElement};
ghost use Rattle.fact_values.specs.Numbers.{plain_of, number_in};
ghost use Rattle.fact_values.specs.Places.{extent_on, flags_bytes, pair_at, width_of};
ghost use Rattle.fact_lowering.specs.Lowered.{CanStore, IsPut, IsStored, IsWritten, LacksRoom, ReadsEach, ReadsEntries, ReadsMembers, own_room, own_rooms};
ghost use Rattle.fact_lowering.specs.Lowerings.{AreFlagBytes, own_entries};
ghost use Rattle.fact_lowering.specs.Storings.{AreBits, AreElements, AreEntries, AreEntryMembers, AreLiveMembers, AreStorable, HasSpace, IsBehindPair, IsCaseStorable, IsCaseStored, IsNodeStorable, IsStorable, PutOr, own_case_of, pair_of, set_at, tagged_count, text_align};

use crate::numbers::number_of_value;
use crate::places::{Lowering, Pair, case_number};
use crate::spelling::{spelled, stored_encoding, unit_bytes};
use crate::store::Store;
use fact_abi::{Node, NodeKind, Value, case_bytes, member_type, node_of_type, plain_size};
use fact_types::{FixedEncoding, InterfaceType, StringEncoding};
use fact_wasm::{OutOfMemory, Text};
use std::alloc::{AllocError, Global};

// ---- values without members

/// Stores a text at the cursor, or answers `None` where there is less room.
pub(crate) fn store_text(
    to: &Lowering<'_>,
    store: &mut Store,
    text: &[char],
) -> Result<Option<Pair>, OutOfMemory>
    requires can { CanStore store.old.cursor store.old.bytes.items }
    requires scalars { AllByRecursion IsScalar text.now }
    ensures { IfOk result (λ o. PutOr o (λ p. IsPut to.now.side (s_plain a_type.String) (a_value.Str text.now) p store.old.cursor store.new.cursor store.old.bytes.items store.new.bytes.items) (LacksRoom store.old.cursor (8 + 16 * length text.now) store.old.bytes.items)) }
{
    let encoding = stored_encoding(to.side.encoding, text);
    let bytes = spelled(to.alloc, encoding, text)?;
    let size = bytes.len() as u64;
    let Some(pointer) = store.take(align_of_text(to.side.encoding), size) else {
        return Ok(None);
    };
    store.put(pointer, bytes.as_slice());
    let units = size / unit_bytes(encoding);
    let count = tagged(to.side.encoding, encoding, units);
    Ok(Some(Pair { pointer, count }))
}

/// The alignment of texts in bytes.
fn align_of_text(side: StringEncoding) -> u64
    ensures { result ≡ text_align side }
{
    match side {
        StringEncoding::Utf8 => 1,
        StringEncoding::Utf16 | StringEncoding::CompactUtf16 => 2,
    }
}

/// The length of a text of so many units, with the tag of UTF-16 on a compact side.
fn tagged(side: StringEncoding, encoding: FixedEncoding, units: u64) -> u64
    requires { units < 2 ^ 32 }
    ensures { result ≡ tagged_count side encoding units }
{
    match (side, encoding) {
        (StringEncoding::CompactUtf16, FixedEncoding::Utf16) => units + 0x8000_0000,
        _ => units,
    }
}

/// Puts a pointer and a length at an address.
fn put_pair(
    to: &Lowering<'_>,
    store: &mut Store,
    address: u64,
    pair: Pair,
) -> Result<(), OutOfMemory>
    requires room { HasSpace (pointer_bytes (width_of to.now.side) + pointer_bytes (width_of to.now.side)) address store.old.cursor store.old.bytes.items }
    requires pointer { pair.pointer < 2 ^ 32 }
    requires count { pair.count < 2 ^ 32 }
    ensures written { OnOk result (IsWritten (λ b. pair_at to.now.side b address ≡ Some (pair_of pair)) address (pointer_bytes (width_of to.now.side) + pointer_bytes (width_of to.now.side)) store.old.cursor store.old.cursor 0 store.old.bytes.items store.new.bytes.items) }
    ensures cursor { store.new.cursor ≡ store.old.cursor }
{
    let size = to.pointer_size();
    store.put_number(to.alloc, address, size, pair.pointer)?;
    store.put_number(to.alloc, address + size as u64, size, pair.count)
}

/// Stores a value of a type without members at an address, or answers `false` where there is less room.
fn store_plain(
    to: &Lowering<'_>,
    ty: &InterfaceType,
    store: &mut Store,
    value: &Value,
    address: u64,
) -> Result<bool, OutOfMemory>
    requires value { IsPlainValue (plain_of ty.now) (out-Value value.now) }
    requires room { HasSpace (extent_on to.now.side (s_plain ty.now)).size address store.old.cursor store.old.bytes.items }
    ensures { IfOk result (λ done. chosen done (IsStored to.now.side (s_plain ty.now) value.now address store.old.cursor store.new.cursor store.old.bytes.items store.new.bytes.items) (LacksRoom store.old.cursor (own_room to.now.side (s_plain ty.now) value.now) store.old.bytes.items)) }
{
    if let Value::Str(text) = value {
        let Some(pair) = store_text(to, store, text.as_slice())? else {
            return Ok(false);
        };
        put_pair(to, store, address, pair)?;
        return Ok(true);
    }
    let Some(number) = number_of_value(ty, value) else {
        return Ok(false);
    };
    store.put_number(to.alloc, address, plain_size(ty), number)?;
    Ok(true)
}

// ---- values with members

/// Stores a value of a live type at an address, where it has its room, and answers whether what stands behind its pointers fits.
#[cycle(storing)]
pub fn store_value(
    to: &Lowering<'_>,
    ty: &InterfaceType,
    store: &mut Store,
    value: &Value,
    address: u64,
) -> Result<bool, OutOfMemory>
    requires live { IsLive to.now.types.now ty.now }
    requires storable { IsStorable to.now.types.now to.now.side ty.now value.now address store.old.cursor store.old.bytes.items }
    ensures { IfOk result (λ done. (s : Shape) → HasShape to.now.types.now ty.now s → chosen done (IsStored to.now.side s value.now address store.old.cursor store.new.cursor store.old.bytes.items store.new.bytes.items) (LacksRoom store.old.cursor (own_room to.now.side s value.now) store.old.bytes.items)) }
{
    match node_of_type(to.alloc, to.types, ty)? {
        None => store_plain(to, ty, store, value, address),
        Some(node) => store_node(to, ty, &node, store, value, address),
    }
}

/// Stores a value of a type with members at an address.
#[cycle(storing)]
fn store_node(
    to: &Lowering<'_>,
    ty: &InterfaceType,
    node: &Node,
    store: &mut Store,
    value: &Value,
    address: u64,
) -> Result<bool, OutOfMemory>
    requires live { IsLive to.now.types.now ty.now }
    requires told { HasNode to.now.types.now ty.now node.now }
    requires storable { IsStorable to.now.types.now to.now.side ty.now value.now address store.old.cursor store.old.bytes.items }
    ensures { IfOk result (λ done. (s : Shape) → HasShape to.now.types.now ty.now s → chosen done (IsStored to.now.side s value.now address store.old.cursor store.new.cursor store.old.bytes.items store.new.bytes.items) (LacksRoom store.old.cursor (own_room to.now.side s value.now) store.old.bytes.items)) }
{
    to.types.reveal();
    let _whole = to.types.canonical_abi(ty);
    let members = node.types.as_slice();
    match node.kind {
        NodeKind::Record => store_record(to, members, store, value, address),
        NodeKind::Tuple => store_tuple(to, members, store, value, address),
        NodeKind::FixedList(count, element) => {
            store_fixed(to, &element, count, store, value, address)
        },
        NodeKind::Variant => store_case(to, node, store, value, address),
        NodeKind::Enum => store_case(to, node, store, value, address),
        NodeKind::Option => store_case(to, node, store, value, address),
        NodeKind::Result => store_case(to, node, store, value, address),
        NodeKind::Flags => store_flags(to, store, value, address),
        NodeKind::Future(_, _) => store_handle(to, store, value, address),
        NodeKind::Stream(_, _) => store_handle(to, store, value, address),
        NodeKind::List(_) => store_pair(to, ty, node, store, value, address),
        NodeKind::Map(_, _) => store_pair(to, ty, node, store, value, address),
    }
}

/// Stores a record at an address.
#[cycle(storing)]
fn store_record(
    to: &Lowering<'_>,
    members: &[Option<InterfaceType>],
    store: &mut Store,
    value: &Value,
    address: u64,
) -> Result<bool, OutOfMemory>
    requires live { AreLiveMembers to.now.types.now members.now }
    requires storable { IsNodeStorable to.now.types.now to.now.side k_record members.now value.now address store.old.cursor store.old.bytes.items }
    ensures { IfOk result (λ done. (ms : Members) → AreOf to.now.types.now members.now ms → IsRecord ms (λ vs. AreMembers ms vs) (out-Value value.now) → chosen done (IsStored to.now.side (s_node k_record ms) value.now address store.old.cursor store.new.cursor store.old.bytes.items store.new.bytes.items) (LacksRoom store.old.cursor (own_room to.now.side (s_node k_record ms) value.now) store.old.bytes.items)) }
{
    let Value::Record(fields) = value else {
        return Ok(false);
    };
    store_fields(to, members, store, fields.as_slice(), address)
}

/// Stores the values of fields, each at its place behind an address.
#[cycle(storing)]
fn store_fields(
    to: &Lowering<'_>,
    members: &[Option<InterfaceType>],
    store: &mut Store,
    fields: &[(Text, Value)],
    address: u64,
) -> Result<bool, OutOfMemory>
    requires live { AreLiveMembers to.now.types.now members.now }
    requires storable { AreStorable to.now.types.now to.now.side members.now (map (λ f. f.1) fields.now) address store.old.cursor store.old.bytes.items }
    ensures { IfOk result (λ done. (ms : Members) → AreOf to.now.types.now members.now ms → AreMembers ms (map (λ f. f.1) fields.now) → chosen done (IsWritten (ReadsMembers to.now.side ms (map (λ f. f.1) fields.now) address 0) address (ends_of (width_of to.now.side) ms 0) store.old.cursor store.new.cursor (own_rooms to.now.side ms (map (λ f. f.1) fields.now)) store.old.bytes.items store.new.bytes.items) (LacksRoom store.old.cursor (own_rooms to.now.side ms (map (λ f. f.1) fields.now)) store.old.bytes.items)) }
{
    let mut offset = 0;
    let mut taken = 0;
    for member in members {
        if let Some(ty) = member {
            let Some(field) = fields.get(taken) else {
                return Ok(false);
            };
            let place = to.next_place(ty, &mut offset);
            let at = address + place;
            if !store_value(to, ty, store, &field.1, at)? {
                return Ok(false);
            }
            taken += 1;
        }
    }
    Ok(true)
}

/// Stores a tuple at an address.
#[cycle(storing)]
fn store_tuple(
    to: &Lowering<'_>,
    members: &[Option<InterfaceType>],
    store: &mut Store,
    value: &Value,
    address: u64,
) -> Result<bool, OutOfMemory>
    requires live { AreLiveMembers to.now.types.now members.now }
    requires storable { IsNodeStorable to.now.types.now to.now.side k_tuple members.now value.now address store.old.cursor store.old.bytes.items }
    ensures { IfOk result (λ done. (ms : Members) → AreOf to.now.types.now members.now ms → IsTuple (λ vs. AreMembers ms vs) (out-Value value.now) → chosen done (IsStored to.now.side (s_node k_tuple ms) value.now address store.old.cursor store.new.cursor store.old.bytes.items store.new.bytes.items) (LacksRoom store.old.cursor (own_room to.now.side (s_node k_tuple ms) value.now) store.old.bytes.items)) }
{
    let Value::Tuple(values) = value else {
        return Ok(false);
    };
    store_members(to, members, store, values.as_slice(), address)
}

/// Stores values of members, each at its place behind an address.
#[cycle(storing)]
pub(crate) fn store_members(
    to: &Lowering<'_>,
    members: &[Option<InterfaceType>],
    store: &mut Store,
    values: &[Value],
    address: u64,
) -> Result<bool, OutOfMemory>
    requires live { AreLiveMembers to.now.types.now members.now }
    requires storable { AreStorable to.now.types.now to.now.side members.now values.now address store.old.cursor store.old.bytes.items }
    ensures { IfOk result (λ done. (ms : Members) → AreOf to.now.types.now members.now ms → AreMembers ms values.now → chosen done (IsWritten (ReadsMembers to.now.side ms values.now address 0) address (ends_of (width_of to.now.side) ms 0) store.old.cursor store.new.cursor (own_rooms to.now.side ms values.now) store.old.bytes.items store.new.bytes.items) (LacksRoom store.old.cursor (own_rooms to.now.side ms values.now) store.old.bytes.items)) }
{
    let mut offset = 0;
    let mut taken = 0;
    for member in members {
        if let Some(ty) = member {
            let Some(value) = values.get(taken) else {
                return Ok(false);
            };
            let place = to.next_place(ty, &mut offset);
            let at = address + place;
            if !store_value(to, ty, store, value, at)? {
                return Ok(false);
            }
            taken += 1;
        }
    }
    Ok(true)
}

/// Stores the elements of a list of fixed length from an address on.
#[cycle(storing)]
fn store_fixed(
    to: &Lowering<'_>,
    element: &InterfaceType,
    count: u32,
    store: &mut Store,
    value: &Value,
    address: u64,
) -> Result<bool, OutOfMemory>
    requires live { IsLive to.now.types.now element.now }
    requires storable { IsNodeStorable to.now.types.now to.now.side (k_fixed count) (Some element.now ∷ []) value.now address store.old.cursor store.old.bytes.items }
    ensures { IfOk result (λ done. (ms : Members) → AreOf to.now.types.now (Some element.now ∷ []) ms → IsFixedList count (λ v. IsElement ms v) (out-Value value.now) → chosen done (IsStored to.now.side (s_node (k_fixed count) ms) value.now address store.old.cursor store.new.cursor store.old.bytes.items store.new.bytes.items) (LacksRoom store.old.cursor (own_room to.now.side (s_node (k_fixed count) ms) value.now) store.old.bytes.items)) }
{
    let Value::List(values) = value else {
        return Ok(false);
    };
    let (size, _align) = to.extent(element);
    store_elements(to, element, store, values.as_slice(), address, size)
}

/// Stores values of one type from an address on, each of so many bytes.
#[cycle(storing)]
fn store_elements(
    to: &Lowering<'_>,
    element: &InterfaceType,
    store: &mut Store,
    values: &[Value],
    address: u64,
    size: u32,
) -> Result<bool, OutOfMemory>
    requires live { IsLive to.now.types.now element.now }
    requires storable { AreElements to.now.types.now to.now.side element.now values.now size address store.old.cursor store.old.bytes.items }
    ensures { IfOk result (λ done. (s : Shape) → HasShape to.now.types.now element.now s → chosen done (IsWritten (ReadsEach to.now.side s size values.now address) address (length values.now * size) store.old.cursor store.new.cursor (sum_by (own_room to.now.side s) values.now) store.old.bytes.items store.new.bytes.items) (LacksRoom store.old.cursor (sum_by (own_room to.now.side s) values.now) store.old.bytes.items)) }
{
    let mut at = address;
    for value in values {
        if !store_value(to, element, store, value, at)? {
            return Ok(false);
        }
        at += u64::from(size);
    }
    Ok(true)
}

/// Stores the discriminant of a case at an address, and its payload behind it.
#[cycle(storing)]
fn store_case(
    to: &Lowering<'_>,
    node: &Node,
    store: &mut Store,
    value: &Value,
    address: u64,
) -> Result<bool, OutOfMemory>
    requires live { AreLiveMembers to.now.types.now node.now.types }
    requires storable { IsCaseStorable to.now.types.now to.now.side node.now.names node.now.types value.now address store.old.cursor store.old.bytes.items }
    ensures { IfOk result (λ done. (ms : Members) → node.now.names ≡ names_of ms → AreOf to.now.types.now node.now.types ms → IsCase (λ x vs. HasCase ms x vs) (out-Value value.now) → chosen done (IsCaseStored to.now.side ms value.now address store.old.cursor store.new.cursor store.old.bytes.items store.new.bytes.items) (LacksRoom store.old.cursor (own_case_of to.now.side ms value.now) store.old.bytes.items)) }
{
    let Value::Case { name, payload } = value else {
        return Ok(false);
    };
    let Some(number) = case_number(&node.names, name)? else {
        return Ok(false);
    };
    let size = case_bytes(node.types.len());
    store.put_number(to.alloc, address, size, u64::from(number))?;
    let Some(ty) = member_type(node, number as usize) else {
        return Ok(true);
    };
    let Some(value) = payload.get(0) else {
        return Ok(false);
    };
    let place = to.payload_place(node.types.as_slice(), size);
    let at = address + place;
    store_value(to, &ty, store, value, at)
}

/// Stores flags at an address.
fn store_flags(
    to: &Lowering<'_>,
    store: &mut Store,
    value: &Value,
    address: u64,
) -> Result<bool, OutOfMemory>
    requires { (ms : Members) × IsFlags ms (out-Value value.now) × HasSpace (flags_bytes ms) address store.old.cursor store.old.bytes.items }
    ensures { IfOk result (λ done. (ms : Members) → IsFlags ms (out-Value value.now) → chosen done (IsStored to.now.side (s_node k_flags ms) value.now address store.old.cursor store.new.cursor store.old.bytes.items store.new.bytes.items) (LacksRoom store.old.cursor (own_room to.now.side (s_node k_flags ms) value.now) store.old.bytes.items)) }
{
    let Value::Flags(flags) = value else {
        return Ok(false);
    };
    let bytes = flag_bytes(to.alloc, flags.as_slice())?;
    store.put(address, bytes.as_slice());
    Ok(true)
}

/// The bytes of flags, the first by the lowest bit: none, one, two, or four for each 32 flags or part of them.
fn flag_bytes(alloc: Global, flags: &[(Text, bool)]) -> Result<Vec<u8>, OutOfMemory>
    ensures { IfOk result (λ bytes. AreFlagBytes flags.now bytes.items) }
{
    let size = flags_size_of(count_of(flags.len())?);
    let mut bytes = Vec::new(alloc);
    for index in 0..size {
        bytes.push(flag_byte(flags, index * 8))?;
    }
    Ok(bytes)
}

/// The bytes of so many flags.
fn flags_size_of(count: u64) -> usize
    ensures value { result ≡ (flags_extent (flags_size count)).size }
    ensures all { count ≤ 8 * result }
    ensures few { result ≤ count + 4 }
{
    if count == 0 {
        0
    } else if count <= 8 {
        1
    } else if count <= 16 {
        2
    } else {
        count.div_ceil(32) as usize * 4
    }
}

/// The byte of at most eight flags from a place on, the first by the lowest bit.
fn flag_byte(flags: &[(Text, bool)], from: usize) -> u8
    requires { from ≤ 2 ^ 60 }
    ensures { AreBits (drop from flags.now) 8 result }
{
    let mut byte = 0;
    for bit in 0..8 {
        if is_set(flags, from + bit) {
            byte += 1 << bit;
        }
    }
    byte
}

/// Whether the flag of a place is there and set.
fn is_set(flags: &[(Text, bool)], place: usize) -> bool
    ensures { result ≡ set_at (slice_get flags.now place) }
{
    match flags.get(place) {
        Some(flag) => flag.1,
        None => false,
    }
}

/// Stores the number of a handle at an address.
fn store_handle(
    to: &Lowering<'_>,
    store: &mut Store,
    value: &Value,
    address: u64,
) -> Result<bool, OutOfMemory>
    requires handle { (kind : HandleKind) × (table : ℕ) × IsHandle kind table (out-Value value.now) }
    requires room { HasSpace 4 address store.old.cursor store.old.bytes.items }
    ensures { IfOk result (λ done. (kind : HandleKind) (table : ℕ) → IsHandle kind table (out-Value value.now) → chosen done ((n : ℕ) × (value.now ≡ a_value.Handle kind table n) × IsWritten (λ b. number_in b 4 address ≡ Some n) address 4 store.old.cursor store.new.cursor 0 store.old.bytes.items store.new.bytes.items) ⊥) }
{
    let Value::Handle { number, .. } = value else {
        return Ok(false);
    };
    store.put_number(to.alloc, address, 4, u64::from(*number))?;
    Ok(true)
}

// ---- what stands behind pointers

/// Stores a list or a map behind a pointer, and the pointer and the length at an address.
#[cycle(storing)]
fn store_pair(
    to: &Lowering<'_>,
    ty: &InterfaceType,
    node: &Node,
    store: &mut Store,
    value: &Value,
    address: u64,
) -> Result<bool, OutOfMemory>
    requires live { IsLive to.now.types.now ty.now }
    requires told { HasNode to.now.types.now ty.now node.now }
    requires kind { IsBehindPair (kind_of node.now.kind) }
    requires storable { IsStorable to.now.types.now to.now.side ty.now value.now address store.old.cursor store.old.bytes.items }
    ensures { IfOk result (λ done. (s : Shape) → HasShape to.now.types.now ty.now s → chosen done (IsStored to.now.side s value.now address store.old.cursor store.new.cursor store.old.bytes.items store.new.bytes.items) (LacksRoom store.old.cursor (own_room to.now.side s value.now) store.old.bytes.items)) }
{
    let Some(pair) = store_behind(to, ty, node, store, value)? else {
        return Ok(false);
    };
    put_pair(to, store, address, pair)?;
    Ok(true)
}

/// Stores at the cursor what stands behind the pointer of a list or a map, or answers `None` where there is less room.
#[cycle(storing)]
pub(crate) fn store_behind(
    to: &Lowering<'_>,
    ty: &InterfaceType,
    node: &Node,
    store: &mut Store,
    value: &Value,
) -> Result<Option<Pair>, OutOfMemory>
    requires live { IsLive to.now.types.now ty.now }
    requires told { HasNode to.now.types.now ty.now node.now }
    requires kind { IsBehindPair (kind_of node.now.kind) }
    requires value { (s : Shape) × HasShape to.now.types.now ty.now s × IsA s value.now }
    requires can { CanStore store.old.cursor store.old.bytes.items }
    ensures { IfOk result (λ o. (s : Shape) → HasShape to.now.types.now ty.now s → PutOr o (λ p. IsPut to.now.side s value.now p store.old.cursor store.new.cursor store.old.bytes.items store.new.bytes.items) (LacksRoom store.old.cursor (own_room to.now.side s value.now) store.old.bytes.items)) }
{
    match node.kind {
        NodeKind::List(element) => store_list(to, &element, store, value),
        NodeKind::Map(key, item) => store_map(to, ty, &key, &item, store, value),
        _ => Ok(None),
    }
}

/// How many elements there are. More than 4,294,967,295 take more memory than there is.
fn count_of(length: usize) -> Result<u64, OutOfMemory>
    ensures { IfOk result (λ n. (n ≡ length) × (n < 2 ^ 32)) }
{
    if length > 0xFFFF_FFFF {
        return Err(AllocError);
    }
    Ok(length as u64)
}

/// Stores the elements of a list at the cursor.
#[cycle(storing)]
fn store_list(
    to: &Lowering<'_>,
    element: &InterfaceType,
    store: &mut Store,
    value: &Value,
) -> Result<Option<Pair>, OutOfMemory>
    requires live { IsLive to.now.types.now element.now }
    requires value { (ms : Members) × AreOf to.now.types.now (Some element.now ∷ []) ms × IsA (s_node k_list ms) value.now }
    requires can { CanStore store.old.cursor store.old.bytes.items }
    ensures { IfOk result (λ o. (ms : Members) → AreOf to.now.types.now (Some element.now ∷ []) ms → IsListOf (λ v. IsElement ms v) (out-Value value.now) → PutOr o (λ p. IsPut to.now.side (s_node k_list ms) value.now p store.old.cursor store.new.cursor store.old.bytes.items store.new.bytes.items) (LacksRoom store.old.cursor (own_room to.now.side (s_node k_list ms) value.now) store.old.bytes.items)) }
{
    let Value::List(values) = value else {
        return Ok(None);
    };
    let (size, align) = to.extent(element);
    let count = count_of(values.len())?;
    let Some(pointer) = store.take(u64::from(align), count * u64::from(size)) else {
        return Ok(None);
    };
    if !store_elements(to, element, store, values.as_slice(), pointer, size)? {
        return Ok(None);
    }
    Ok(Some(Pair { pointer, count }))
}

/// Stores the entries of a map at the cursor.
#[cycle(storing)]
fn store_map(
    to: &Lowering<'_>,
    ty: &InterfaceType,
    key: &InterfaceType,
    item: &InterfaceType,
    store: &mut Store,
    value: &Value,
) -> Result<Option<Pair>, OutOfMemory>
    requires live { IsLive to.now.types.now ty.now }
    requires key { IsLive to.now.types.now key.now }
    requires item { IsLive to.now.types.now item.now }
    requires value { (ms : Members) × HasShape to.now.types.now ty.now (s_node k_map ms) × AreEntryMembers to.now.types.now key.now item.now ms × IsA (s_node k_map ms) value.now }
    requires can { CanStore store.old.cursor store.old.bytes.items }
    ensures { IfOk result (λ o. (ms : Members) → HasShape to.now.types.now ty.now (s_node k_map ms) → AreEntryMembers to.now.types.now key.now item.now ms → IsMap (λ vs. AreMembers ms vs) (out-Value value.now) → PutOr o (λ p. IsPut to.now.side (s_node k_map ms) value.now p store.old.cursor store.new.cursor store.old.bytes.items store.new.bytes.items) (LacksRoom store.old.cursor (own_room to.now.side (s_node k_map ms) value.now) store.old.bytes.items)) }
{
    let Value::Map(entries) = value else {
        return Ok(None);
    };
    let (size, align) = to.entry_extent(ty);
    let count = count_of(entries.len())?;
    let Some(pointer) = store.take(u64::from(align), count * u64::from(size)) else {
        return Ok(None);
    };
    if !store_entries(to, key, item, store, entries.as_slice(), pointer, size)? {
        return Ok(None);
    }
    Ok(Some(Pair { pointer, count }))
}

/// Stores entries of a map from an address on, each of so many bytes.
#[cycle(storing)]
fn store_entries(
    to: &Lowering<'_>,
    key: &InterfaceType,
    item: &InterfaceType,
    store: &mut Store,
    entries: &[(Value, Value)],
    address: u64,
    size: u32,
) -> Result<bool, OutOfMemory>
    requires key { IsLive to.now.types.now key.now }
    requires item { IsLive to.now.types.now item.now }
    requires storable { AreEntries to.now.types.now to.now.side key.now item.now entries.now size address store.old.cursor store.old.bytes.items }
    ensures { IfOk result (λ done. (ms : Members) → AreEntryMembers to.now.types.now key.now item.now ms → chosen done (IsWritten (ReadsEntries to.now.side ms size entries.now address) address (length entries.now * size) store.old.cursor store.new.cursor (own_entries to.now.side ms entries.now) store.old.bytes.items store.new.bytes.items) (LacksRoom store.old.cursor (own_entries to.now.side ms entries.now) store.old.bytes.items)) }
{
    let mut at = address;
    for entry in entries {
        if !store_entry(to, key, item, store, entry, at)? {
            return Ok(false);
        }
        at += u64::from(size);
    }
    Ok(true)
}

/// Stores an entry at an address, as the tuple of its key and its value.
#[cycle(storing)]
fn store_entry(
    to: &Lowering<'_>,
    key: &InterfaceType,
    item: &InterfaceType,
    store: &mut Store,
    entry: &(Value, Value),
    address: u64,
) -> Result<bool, OutOfMemory>
    requires key { IsLive to.now.types.now key.now }
    requires item { IsLive to.now.types.now item.now }
    requires storable { AreStorable to.now.types.now to.now.side (Some key.now ∷ Some item.now ∷ []) (entry.now.0 ∷ entry.now.1 ∷ []) address store.old.cursor store.old.bytes.items }
    ensures { IfOk result (λ done. (ms : Members) → AreEntryMembers to.now.types.now key.now item.now ms → AreMembers ms (entry.now.0 ∷ entry.now.1 ∷ []) → chosen done (IsWritten (ReadsMembers to.now.side ms (entry.now.0 ∷ entry.now.1 ∷ []) address 0) address (ends_of (width_of to.now.side) ms 0) store.old.cursor store.new.cursor (own_rooms to.now.side ms (entry.now.0 ∷ entry.now.1 ∷ [])) store.old.bytes.items store.new.bytes.items) (LacksRoom store.old.cursor (own_rooms to.now.side ms (entry.now.0 ∷ entry.now.1 ∷ [])) store.old.bytes.items)) }
{
    let mut offset = 0;
    let first = to.next_place(key, &mut offset);
    let at = address + first;
    if !store_value(to, key, store, &entry.0, at)? {
        return Ok(false);
    }
    let second = to.next_place(item, &mut offset);
    let behind = address + second;
    store_value(to, item, store, &entry.1, behind)
}
