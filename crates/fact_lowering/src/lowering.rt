//! Values as core values (canonical ABI, "Flat Lowering").

ghost use Rattle.std.specs.Prelude.{◌≡◌, ◌++◌, ◌≤◌, ℕ, Bool, List, None, length, IfOk, OnOk};
ghost use Rattle.fact_types.specs.FlatShapes.{pointer};
ghost use Rattle.fact_types.specs.Heights.{IsMemberOf};
ghost use Rattle.fact_types.specs.Shapes.{Shape, s_plain};
ghost use Rattle.fact_types.specs.Tables.{IsLive, HasShape};
ghost use Rattle.fact_abi.specs.Finding.{member_type_at};
ghost use Rattle.fact_abi.specs.Nodes.{AreLower, HasNode, IsVariantKind, kind_of};
ghost use Rattle.fact_abi.specs.declared.nodes.NodeKind.TheVariants as kinds;
ghost use Rattle.fact_values.specs.declared.value.Value.{Value as AnyValue, out-Value};
ghost use Rattle.fact_values.specs.declared.value.Value.TheVariants as a_value;
ghost use Rattle.fact_values.specs.Opened.{case_in, elements_in, fields_in, flags_in, members_in, number_of_handle};
ghost use Rattle.fact_values.specs.declared.value.HandleKind.{HandleKind};
ghost use Rattle.fact_lowering.specs.Room.{text_in};
ghost use Rattle.fact_values.specs.Places.{width_of};
ghost use Rattle.fact_lowering.specs.CoreSteps.{IsHandleKind, IsLowerable, IsMemberLowerable, IsNodeOfKind, IsPayloadLowerable, LoweredOr, MemberLoweredOr, PayloadLoweredOr, zeros_of};
ghost use Rattle.fact_lowering.specs.Lowerings.{cores_of};
ghost use Rattle.fact_lowering.specs.Storings.{IsBehindPair};

use crate::flags::flag_words;
use crate::flats::{flat_types, pointer_type};
use crate::numbers::{core_value, number_of_value};
use crate::places::{Lowering, case_number};
use crate::store::Store;
use crate::storing::{store_behind, store_text};
use fact_abi::{Node, NodeKind, Value, member_type, node_of_type};
use fact_machine::CoreValue;
use fact_types::{FlatType, InterfaceType};
use fact_wasm::{OutOfMemory, Seq};

/// The flat type of addresses of a side.
pub fn pointer_of(to: &Lowering<'_>) -> FlatType
    ensures { result ≡ pointer (width_of to.now.side) }
{
    pointer_type(to.side.memory64)
}

/// Puts the core values of numbers behind others, each of the type of its slot.
fn push_numbers(
    numbers: &[u64],
    slots: &[FlatType],
    out: &mut Seq<CoreValue>,
) -> Result<(), OutOfMemory>
    requires { length numbers.now ≤ length slots.now }
    ensures { OnOk result (out.new ≡ out.old ++ cores_of slots.now numbers.now) }
{
    for (place, number) in numbers.iter().enumerate() {
        out.push(core_value(slots[place], *number))?;
    }
    Ok(())
}

/// Puts zeros behind others, one of the type of each slot.
fn push_zeros(slots: &[FlatType], out: &mut Seq<CoreValue>) -> Result<(), OutOfMemory>
    ensures { OnOk result (out.new ≡ out.old ++ zeros_of slots.now) }
{
    for slot in slots {
        out.push(core_value(*slot, 0))?;
    }
    Ok(())
}

/// Does nothing: it says that a value of another form holds nothing of a form.
fn tell_forms(value: &Value)
    ensures fields { ((fs : List (List ℕ × AnyValue)) → value.now ≡ a_value.Record fs → ⊥) → fields_in (out-Value value.now) ≡ None }
    ensures members { ((vs : List AnyValue) → value.now ≡ a_value.Tuple vs → ⊥) → members_in (out-Value value.now) ≡ None }
    ensures elements { ((vs : List AnyValue) → value.now ≡ a_value.List vs → ⊥) → elements_in (out-Value value.now) ≡ None }
    ensures flags { ((fs : List (List ℕ × Bool)) → value.now ≡ a_value.Flags fs → ⊥) → flags_in (out-Value value.now) ≡ None }
    ensures handle { ((k : HandleKind) (t n : ℕ) → value.now ≡ a_value.Handle k t n → ⊥) → number_of_handle (out-Value value.now) ≡ None }
    ensures text { ((cs : List ℕ) → value.now ≡ a_value.Str cs → ⊥) → text_in (out-Value value.now) ≡ None }
    ensures case { ((x : List ℕ) (vs : List AnyValue) → value.now ≡ a_value.Case x vs → ⊥) → case_in (out-Value value.now) ≡ None }
{
    match value {
        Value::Record(_) => {}
        Value::Tuple(_) => {}
        Value::List(_) => {}
        Value::Flags(_) => {}
        Value::Str(_) => {}
        Value::Handle { .. } => {}
        Value::Case { .. } => {}
        _ => {}
    }
}

/// Puts the core values of a value of a live type behind others, one for each of the flat types that are its slots, and answers
/// whether what stands behind its pointers fits. A slot may be wider than the type's own. The one error is a want of memory.
#[cycle(lowering)]
pub fn lower_value(
    to: &Lowering<'_>,
    ty: &InterfaceType,
    store: &mut Store,
    value: &Value,
    slots: &[FlatType],
    out: &mut Seq<CoreValue>,
) -> Result<bool, OutOfMemory>
    requires live { IsLive to.now.types.now ty.now }
    requires lowerable { IsLowerable to.now.types.now to.now.side ty.now value.now slots.now store.old.cursor store.old.bytes.items }
    ensures { IfOk result (λ done. LoweredOr to.now.types.now to.now.side ty.now value.now slots.now done store.old.cursor store.new.cursor store.old.bytes.items store.new.bytes.items out.old out.new) }
{
    match node_of_type(to.alloc, to.types, ty)? {
        None => lower_plain(to, ty, store, value, slots, out),
        Some(node) => lower_node(to, ty, &node, store, value, slots, out),
    }
}

/// Lowers a value of a type without members.
fn lower_plain(
    to: &Lowering<'_>,
    ty: &InterfaceType,
    store: &mut Store,
    value: &Value,
    slots: &[FlatType],
    out: &mut Seq<CoreValue>,
) -> Result<bool, OutOfMemory>
    requires plain { (s : Shape) → HasShape to.now.types.now ty.now s → s ≡ s_plain ty.now }
    requires lowerable { IsLowerable to.now.types.now to.now.side ty.now value.now slots.now store.old.cursor store.old.bytes.items }
    ensures { IfOk result (λ done. LoweredOr to.now.types.now to.now.side ty.now value.now slots.now done store.old.cursor store.new.cursor store.old.bytes.items store.new.bytes.items out.old out.new) }
{
    tell_forms(value);
    if let Value::Str(text) = value {
        return lower_text(to, ty, store, text, slots, out);
    }
    let Some(number) = number_of_value(ty, value) else {
        return Ok(false);
    };
    push_numbers(&[number], slots, out)?;
    Ok(true)
}

/// Lowers a text: it is stored at the cursor.
fn lower_text(
    to: &Lowering<'_>,
    ty: &InterfaceType,
    store: &mut Store,
    text: &Seq<char>,
    slots: &[FlatType],
    out: &mut Seq<CoreValue>,
) -> Result<bool, OutOfMemory>
    requires plain { (s : Shape) → HasShape to.now.types.now ty.now s → s ≡ s_plain ty.now }
    requires lowerable { IsLowerable to.now.types.now to.now.side ty.now (a_value.Str text.now) slots.now store.old.cursor store.old.bytes.items }
    ensures { IfOk result (λ done. LoweredOr to.now.types.now to.now.side ty.now (a_value.Str text.now) slots.now done store.old.cursor store.new.cursor store.old.bytes.items store.new.bytes.items out.old out.new) }
{
    let Some(pair) = store_text(to, store, text.as_slice())? else {
        return Ok(false);
    };
    push_numbers(&[pair.pointer, pair.count], slots, out)?;
    Ok(true)
}

/// Lowers a value of a type with members.
#[cycle(lowering)]
fn lower_node(
    to: &Lowering<'_>,
    ty: &InterfaceType,
    node: &Node,
    store: &mut Store,
    value: &Value,
    slots: &[FlatType],
    out: &mut Seq<CoreValue>,
) -> Result<bool, OutOfMemory>
    requires live { IsLive to.now.types.now ty.now }
    requires told { HasNode to.now.types.now ty.now node.now }
    requires lowerable { IsLowerable to.now.types.now to.now.side ty.now value.now slots.now store.old.cursor store.old.bytes.items }
    ensures { IfOk result (λ done. LoweredOr to.now.types.now to.now.side ty.now value.now slots.now done store.old.cursor store.new.cursor store.old.bytes.items store.new.bytes.items out.old out.new) }
{
    match node.kind {
        NodeKind::Record => lower_fields(to, ty, node, store, value, slots, out),
        NodeKind::Tuple => lower_members(to, ty, node, store, value, slots, out),
        NodeKind::Variant => lower_case(to, ty, node, store, value, slots, out),
        NodeKind::Enum => lower_case(to, ty, node, store, value, slots, out),
        NodeKind::Option => lower_case(to, ty, node, store, value, slots, out),
        NodeKind::Result => lower_case(to, ty, node, store, value, slots, out),
        NodeKind::List(_) => lower_behind(to, ty, node, store, value, slots, out),
        NodeKind::Map(_, _) => lower_behind(to, ty, node, store, value, slots, out),
        NodeKind::FixedList(_, element) => {
            lower_elements(to, ty, node, &element, store, value, slots, out)
        }
        NodeKind::Flags => lower_flags(to, ty, node, store, value, slots, out),
        NodeKind::Future(_, _) => lower_handle(to, ty, node, store, value, slots, out),
        NodeKind::Stream(_, _) => lower_handle(to, ty, node, store, value, slots, out),
    }
}

/// Lowers a record: its fields, one behind the other.
#[cycle(lowering)]
fn lower_fields(
    to: &Lowering<'_>,
    ty: &InterfaceType,
    node: &Node,
    store: &mut Store,
    value: &Value,
    slots: &[FlatType],
    out: &mut Seq<CoreValue>,
) -> Result<bool, OutOfMemory>
    requires node { IsNodeOfKind to.now.types.now ty.now node.now kinds.Record }
    requires lowerable { IsLowerable to.now.types.now to.now.side ty.now value.now slots.now store.old.cursor store.old.bytes.items }
    ensures { IfOk result (λ done. LoweredOr to.now.types.now to.now.side ty.now value.now slots.now done store.old.cursor store.new.cursor store.old.bytes.items store.new.bytes.items out.old out.new) }
{
    tell_forms(value);
    let Value::Record(fields) = value else {
        return Ok(false);
    };
    let members = node.types.as_slice();
    let mut taken = 0;
    let mut at = 0;
    for member in members {
        if let Some(own) = member {
            let Some(field) = fields.get(taken) else {
                return Ok(false);
            };
            let Some(count) = lower_member(to, own, store, &field.1, &slots[at..], out)? else {
                return Ok(false);
            };
            taken += 1;
            at += count;
        }
    }
    Ok(true)
}

/// Lowers a tuple: its members, one behind the other.
#[cycle(lowering)]
fn lower_members(
    to: &Lowering<'_>,
    ty: &InterfaceType,
    node: &Node,
    store: &mut Store,
    value: &Value,
    slots: &[FlatType],
    out: &mut Seq<CoreValue>,
) -> Result<bool, OutOfMemory>
    requires node { IsNodeOfKind to.now.types.now ty.now node.now kinds.Tuple }
    requires lowerable { IsLowerable to.now.types.now to.now.side ty.now value.now slots.now store.old.cursor store.old.bytes.items }
    ensures { IfOk result (λ done. LoweredOr to.now.types.now to.now.side ty.now value.now slots.now done store.old.cursor store.new.cursor store.old.bytes.items store.new.bytes.items out.old out.new) }
{
    tell_forms(value);
    let Value::Tuple(values) = value else {
        return Ok(false);
    };
    let members = node.types.as_slice();
    let mut taken = 0;
    let mut at = 0;
    for member in members {
        if let Some(own) = member {
            let Some(first) = values.get(taken) else {
                return Ok(false);
            };
            let Some(count) = lower_member(to, own, store, first, &slots[at..], out)? else {
                return Ok(false);
            };
            taken += 1;
            at += count;
        }
    }
    Ok(true)
}

/// Puts the core values of a value at the first of some slots, and answers how many slots it has, or `None` where it does not fit.
#[cycle(lowering)]
fn lower_member(
    to: &Lowering<'_>,
    ty: &InterfaceType,
    store: &mut Store,
    value: &Value,
    slots: &[FlatType],
    out: &mut Seq<CoreValue>,
) -> Result<Option<usize>, OutOfMemory>
    requires live { IsLive to.now.types.now ty.now }
    requires lowerable { IsMemberLowerable to.now.types.now to.now.side ty.now value.now slots.now store.old.cursor store.old.bytes.items }
    ensures { IfOk result (λ count. MemberLoweredOr to.now.types.now to.now.side ty.now value.now slots.now count store.old.cursor store.new.cursor store.old.bytes.items store.new.bytes.items out.old out.new) }
{
    let Some(flat) = flat_types(to.alloc, to.types, ty, to.side.memory64)? else {
        return Ok(None);
    };
    let count = flat.len();
    if count > slots.len() {
        return Ok(None);
    }
    if !lower_value(to, ty, store, value, &slots[..count], out)? {
        return Ok(None);
    }
    Ok(Some(count))
}

/// Lowers a list of a fixed length: its elements, one behind the other.
#[cycle(lowering)]
fn lower_elements(
    to: &Lowering<'_>,
    ty: &InterfaceType,
    node: &Node,
    element: &InterfaceType,
    store: &mut Store,
    value: &Value,
    slots: &[FlatType],
    out: &mut Seq<CoreValue>,
) -> Result<bool, OutOfMemory>
    requires node { (count : ℕ) × IsNodeOfKind to.now.types.now ty.now node.now (kinds.FixedList count element.now) }
    requires within { IsMemberOf to.now.types.now element.now ty.now }
    requires lowerable { IsLowerable to.now.types.now to.now.side ty.now value.now slots.now store.old.cursor store.old.bytes.items }
    ensures { IfOk result (λ done. LoweredOr to.now.types.now to.now.side ty.now value.now slots.now done store.old.cursor store.new.cursor store.old.bytes.items store.new.bytes.items out.old out.new) }
{
    tell_forms(value);
    let Value::List(values) = value else {
        return Ok(false);
    };
    let items = values.as_slice();
    let mut at = 0;
    for first in items {
        let Some(count) = lower_member(to, element, store, first, &slots[at..], out)? else {
            return Ok(false);
        };
        at += count;
    }
    Ok(true)
}

/// Lowers a case: the discriminant, the payload at the first of the slots of all payloads joined, and zeros behind it.
#[cycle(lowering)]
fn lower_case(
    to: &Lowering<'_>,
    ty: &InterfaceType,
    node: &Node,
    store: &mut Store,
    value: &Value,
    slots: &[FlatType],
    out: &mut Seq<CoreValue>,
) -> Result<bool, OutOfMemory>
    requires live { IsLive to.now.types.now ty.now }
    requires told { HasNode to.now.types.now ty.now node.now }
    requires kind { IsVariantKind node.now.kind }
    requires lowerable { IsLowerable to.now.types.now to.now.side ty.now value.now slots.now store.old.cursor store.old.bytes.items }
    ensures { IfOk result (λ done. LoweredOr to.now.types.now to.now.side ty.now value.now slots.now done store.old.cursor store.new.cursor store.old.bytes.items store.new.bytes.items out.old out.new) }
{
    tell_forms(value);
    let Value::Case { name, payload } = value else {
        return Ok(false);
    };
    let Some(number) = case_number(&node.names, name)? else {
        return Ok(false);
    };
    push_numbers(&[number as u64], slots, out)?;
    let rest = &slots[1..];
    let Some(count) = lower_payload(to, ty, node, number as usize, store, payload, rest, out)?
    else {
        return Ok(false);
    };
    push_zeros(&rest[count..], out)?;
    Ok(true)
}

/// Lowers the payload of the case of a number, where it has one, and answers how many slots it has, or `None` where it does not fit.
#[cycle(lowering)]
fn lower_payload(
    to: &Lowering<'_>,
    owner: &InterfaceType,
    node: &Node,
    number: usize,
    store: &mut Store,
    payload: &Seq<Value>,
    slots: &[FlatType],
    out: &mut Seq<CoreValue>,
) -> Result<Option<usize>, OutOfMemory>
    requires within { AreLower to.now.types.now owner.now node.now.types }
    requires lowerable { IsPayloadLowerable to.now.types.now to.now.side (member_type_at node.now.types number) payload.now slots.now store.old.cursor store.old.bytes.items }
    ensures { IfOk result (λ count. PayloadLoweredOr to.now.types.now to.now.side (member_type_at node.now.types number) payload.now slots.now count store.old.cursor store.new.cursor store.old.bytes.items store.new.bytes.items out.old out.new) }
{
    let Some(ty) = member_type(node, number) else {
        return Ok(Some(0));
    };
    let Some(value) = payload.get(0) else {
        return Ok(None);
    };
    lower_member(to, &ty, store, value, slots, out)
}

/// Lowers a list or a map: what it holds is stored at the cursor.
fn lower_behind(
    to: &Lowering<'_>,
    ty: &InterfaceType,
    node: &Node,
    store: &mut Store,
    value: &Value,
    slots: &[FlatType],
    out: &mut Seq<CoreValue>,
) -> Result<bool, OutOfMemory>
    requires live { IsLive to.now.types.now ty.now }
    requires told { HasNode to.now.types.now ty.now node.now }
    requires kind { IsBehindPair (kind_of node.now.kind) }
    requires lowerable { IsLowerable to.now.types.now to.now.side ty.now value.now slots.now store.old.cursor store.old.bytes.items }
    ensures { IfOk result (λ done. LoweredOr to.now.types.now to.now.side ty.now value.now slots.now done store.old.cursor store.new.cursor store.old.bytes.items store.new.bytes.items out.old out.new) }
{
    let Some(pair) = store_behind(to, ty, node, store, value)? else {
        return Ok(false);
    };
    push_numbers(&[pair.pointer, pair.count], slots, out)?;
    Ok(true)
}

/// Lowers flags, 32 in each core value.
fn lower_flags(
    to: &Lowering<'_>,
    ty: &InterfaceType,
    node: &Node,
    store: &Store,
    value: &Value,
    slots: &[FlatType],
    out: &mut Seq<CoreValue>,
) -> Result<bool, OutOfMemory>
    requires node { IsNodeOfKind to.now.types.now ty.now node.now kinds.Flags }
    requires lowerable { IsLowerable to.now.types.now to.now.side ty.now value.now slots.now store.now.cursor store.now.bytes.items }
    ensures { IfOk result (λ done. LoweredOr to.now.types.now to.now.side ty.now value.now slots.now done store.now.cursor store.now.cursor store.now.bytes.items store.now.bytes.items out.old out.new) }
{
    tell_forms(value);
    let Value::Flags(flags) = value else {
        return Ok(false);
    };
    let words = flag_words(to.alloc, flags.as_slice())?;
    push_numbers(words.as_slice(), slots, out)?;
    Ok(true)
}

/// Lowers the number of a handle of a future or a stream.
fn lower_handle(
    to: &Lowering<'_>,
    ty: &InterfaceType,
    node: &Node,
    store: &Store,
    value: &Value,
    slots: &[FlatType],
    out: &mut Seq<CoreValue>,
) -> Result<bool, OutOfMemory>
    requires live { IsLive to.now.types.now ty.now }
    requires told { HasNode to.now.types.now ty.now node.now }
    requires kind { IsHandleKind node.now.kind }
    requires lowerable { IsLowerable to.now.types.now to.now.side ty.now value.now slots.now store.now.cursor store.now.bytes.items }
    ensures { IfOk result (λ done. LoweredOr to.now.types.now to.now.side ty.now value.now slots.now done store.now.cursor store.now.cursor store.now.bytes.items store.now.bytes.items out.old out.new) }
{
    tell_forms(value);
    let Value::Handle { number, .. } = value else {
        return Ok(false);
    };
    push_numbers(&[*number as u64], slots, out)?;
    Ok(true)
}
