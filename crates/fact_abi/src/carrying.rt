//! Values that cross from a type to another one that agrees with it.

ghost use Rattle.std.specs.Prelude.{◌≡◌, ◌<◌, ◌≤◌, ◌↔◌, [], ◌∷◌, List, ℕ, length, slice_get, IfOk, IfSome, IsTrue, MatchBool, MatchOption, None, Some, option_map};
ghost use Rattle.std.specs.Option.{option_copied};
ghost use Rattle.std.specs.Str.{bytes_eq};
ghost use Rattle.fact_types.specs.Agrees.{Agrees, AgreesFields, AgreesPlaces, named as shape_named, names_of};
ghost use Rattle.fact_types.specs.Heights.{IsMemberOf};
ghost use Rattle.fact_types.specs.Shapes.{Shape, Members, typed};
ghost use Rattle.fact_types.specs.Tables.{Tables, IsLive, HasShape};
ghost use Rattle.fact_values.specs.declared.value.Value.{out-Value};
ghost use Rattle.fact_values.specs.declared.value.Value.TheVariants as a_value;
ghost use Rattle.fact_values.specs.Carry.{take_number, IsCarried};
ghost use Rattle.fact_abi.specs.CrossingWalks.{StepGives, CrossingGives, PayloadGives, Naming, NamingGives, Placing, PlacingGives, Meets, record_crossed, tuple_crossed, list_crossed, map_crossed, entry_crossed, case_crossed};
ghost use Rattle.fact_abi.specs.Finding.{IsFirstNamed, IsTypeOf, member_type_at, type_where_named};
ghost use Rattle.fact_values.specs.Handles.{given, each_step, cross, cross_plain as plain_crosses, cross_handle as handle_crosses, cross_fields as fields_cross, cross_case as case_cross, cross_places as places_cross, cross_flags as flags_cross, value_named, flag_named, flags_named};
ghost use Rattle.fact_abi.specs.Nodes.{AreOf, HasNode, AreLower};
ghost use Rattle.fact_values.specs.Numbers.{plain_of};
ghost use Rattle.fact_values.specs.Opened.{number_of_handle};
ghost use Rattle.fact_values.specs.Places.{typed_names};

use crate::OutOfMemory;
use crate::belonging::{index_of_name, is_name_at, is_value_of, member_type, only_value};
use crate::loading::named;
use crate::nodes::{Node, NodeKind, node_of_type};
use fact_agreement::Agreement;
use fact_entity::EntityRef;
use fact_types::{ComponentTypes, InterfaceType};
use fact_values::{HandleKind, Value};
use fact_wasm::{Seq, Text};
use std::alloc::Global;
use std::marker::Model;

/// The value that a value of a live type becomes in another live type (canonical ABI, "Lifting" and "Lowering"): fields, cases
/// and flags by name, in the order of the destination, and handles by these numbers, in that order too. Numbers that are
/// left count for nothing. `None` where the value is not of the source type, the types do not agree, or numbers are missing.
pub fn carry(
    alloc: Global,
    types: &ComponentTypes,
    from: &InterfaceType,
    to: &InterfaceType,
    value: &Value,
    numbers: &[u32],
) -> Result<Option<Value>, OutOfMemory>
    requires from_live { IsLive types.now from.now }
    requires to_live { IsLive types.now to.now }
    ensures { IfOk result (λ o. (s d : Shape) → HasShape types.now from.now s → HasShape types.now to.now d → IsCarried s d value.now numbers.now o) }
{
    if !is_value_of(alloc, types, from, value)? {
        return Ok(None);
    }
    if !types_agree(alloc, types, from, to)? {
        return Ok(None);
    }
    let mut left = Numbers::new(numbers);
    cross_value(alloc, types, from, to, value, &mut left)
}

/// Whether a live source type agrees with a live destination type.
fn types_agree(
    alloc: Global,
    types: &ComponentTypes,
    from: &InterfaceType,
    to: &InterfaceType,
) -> Result<bool, OutOfMemory>
    requires from_live { IsLive types.now from.now }
    requires to_live { IsLive types.now to.now }
    ensures { IfOk result (λ b. (s d : Shape) → HasShape types.now from.now s → HasShape types.now to.now d → (IsTrue b ↔ Agrees s d)) }
{
    let mut agreement = Agreement::new(alloc, types);
    let agree = agreement.agrees(from, to);
    drop(agreement);
    agree
}

/// Numbers that handles take one after another. Contracts see it as those that are left.
#[derive(Drop)]
struct Numbers<'a> {
    all: &'a [u32],
    taken: usize,
}

impl<'a> Model for Numbers<'a> {
    ghost use Rattle.std.specs.Prelude.{List, ℕ, drop};

    ghost Value = { List ℕ };

    ghost view = { λ n. drop n.taken n.all.now };
}

impl<'a> Numbers<'a> {
    fn new(all: &'a [u32]) -> Numbers<'a>
        ensures { result ≡ all.now }
    {
        Numbers { all, taken: 0 }
    }

    /// The next number, or `None` where none is left.
    fn take(&mut self) -> Option<u32>
        ensures { MatchOption result (self.old ≡ []) (λ n. self.old ≡ n ∷ self.new) }
    {
        if self.taken >= self.all.len() {
            return None;
        }
        let number = self.all[self.taken];
        self.taken += 1;
        Some(number)
    }
}

/// Whether a value is a handle.
fn is_any_handle(value: &Value) -> bool
    ensures { MatchBool result ((n : ℕ) × (number_of_handle (out-Value value.now) ≡ Some n)) (number_of_handle (out-Value value.now) ≡ None) }
{
    match value {
        Value::Handle {
            kind: _,
            table: _,
            number: _number,
        } => true,
        _ => false,
    }
}

/// The handle of a kind in a table by a number, where there is one.
fn handle_by(kind: HandleKind, table: u32, number: Option<u32>) -> Option<Value>
    ensures { result ≡ option_map (λ n. a_value.Handle kind table n) number }
{
    match number {
        Some(number) => Some(Value::Handle {
            kind,
            table,
            number,
        }),
        None => None,
    }
}

/// The handle of a kind in a table that a handle becomes, by the next number.
fn cross_handle(
    kind: HandleKind,
    table: u32,
    value: &Value,
    numbers: &mut Numbers<'_>,
) -> Option<Value>
    ensures { (from : ℕ) → StepGives result numbers.new (handle_crosses take_number kind from table value.now numbers.old) }
{
    if !is_any_handle(value) {
        return None;
    }
    let number = numbers.take();
    handle_by(kind, table, number)
}

/// What a value becomes in a type without members.
fn cross_plain(
    to: &InterfaceType,
    value: &Value,
    numbers: &mut Numbers<'_>,
) -> Result<Option<Value>, OutOfMemory>
    ensures { IfOk result (λ o. (from : ℕ) → StepGives o numbers.new (plain_crosses take_number from (plain_of to.now) value.now numbers.old)) }
{
    match *to {
        InterfaceType::Own(i) => Ok(cross_handle(HandleKind::Own, i.as_u32(), value, numbers)),
        InterfaceType::Borrow(i) => {
            Ok(cross_handle(HandleKind::Borrow, i.as_u32(), value, numbers))
        }
        InterfaceType::ErrorContext(i) => Ok(cross_handle(
            HandleKind::ErrorContext,
            i.as_u32(),
            value,
            numbers,
        )),
        _ => Ok(Some(value.try_clone()?)),
    }
}

/// The type of the member of a place, where the member is of a name and has one.
fn type_at_name(node: &Node, place: usize, name: &Text) -> Option<InterfaceType>
    ensures { result ≡ type_where_named name.now (slice_get node.now.names place) (member_type_at node.now.types place) }
{
    if is_name_at(&node.names, place, name) {
        member_type(node, place)
    } else {
        None
    }
}

/// The type of the first member of a name that has one.
fn type_of_name(node: &Node, name: &Text) -> Option<InterfaceType>
    ensures shaped { (t : Tables) (ms : Members) → node.now.names ≡ names_of ms → AreOf t node.now.types ms → IsTypeOf t result (shape_named name.now ms) }
    ensures there { IfSome result (λ y. (i : ℕ) × (slice_get node.now.types i ≡ Some (Some y))) }
{
    for place in 0..node.names.len() {
        if let Some(ty) = type_at_name(node, place, name) {
            return Some(ty);
        }
    }
    None
}

/// Whether a name is another one.
fn is_name(own: &Text, name: &Text) -> bool
    ensures { result ≡ bytes_eq own.now name.now }
{
    *own == *name
}

/// The value of the first field of a name.
fn value_of_name<'a>(fields: &'a [(Text, Value)], name: &Text) -> Option<&'a Value>
    ensures { option_copied result ≡ value_named name.now fields.now }
{
    for field in fields {
        if is_name(&field.0, name) {
            return Some(&field.1);
        }
    }
    None
}

/// Whether the first flag of a name is set.
fn flag_of_name(flags: &[(Text, bool)], name: &Text) -> Option<bool>
    ensures { result ≡ flag_named name.now flags.now }
{
    for flag in flags {
        if is_name(&flag.0, name) {
            return Some(flag.1);
        }
    }
    None
}

/// The flags of these names, in their order, or `None` where one of them is missing.
fn flags_in_order(
    alloc: Global,
    names: &[Text],
    flags: &[(Text, bool)],
) -> Result<Option<Seq<(Text, bool)>>, OutOfMemory>
    ensures { IfOk result (λ o. o ≡ flags_named names.now flags.now) }
{
    let mut ordered = Seq::new(alloc);
    for name in names {
        let Some(is_set) = flag_of_name(flags, name) else {
            return Ok(None);
        };
        ordered.push((name.try_clone()?, is_set))?;
    }
    Ok(Some(ordered))
}

/// What flags become in a type of these names.
fn cross_flags(
    alloc: Global,
    names: &Seq<Text>,
    value: &Value,
) -> Result<Option<Value>, OutOfMemory>
    ensures { IfOk result (λ o. (ns : Members) (left : List ℕ) → names.now ≡ names_of ns → StepGives o left (flags_cross ns value.now left)) }
{
    let Value::Flags(flags) = value else {
        return Ok(None);
    };
    let names = names.as_slice();
    let flags = flags.as_slice();
    match flags_in_order(alloc, names, flags)? {
        Some(ordered) => Ok(Some(Value::Flags(ordered))),
        None => Ok(None),
    }
}

/// What a value of a live type becomes in another one that agrees with it.
#[cycle(crossing)]
fn cross_value(
    alloc: Global,
    types: &ComponentTypes,
    from: &InterfaceType,
    to: &InterfaceType,
    value: &Value,
    numbers: &mut Numbers<'_>,
) -> Result<Option<Value>, OutOfMemory>
    requires from_live { IsLive types.now from.now }
    requires to_live { IsLive types.now to.now }
    ensures { IfOk result (CrossingGives types.now from.now to.now value.now numbers.old numbers.new) }
{
    let Some(target) = node_of_type(alloc, types, to)? else {
        return cross_plain(to, value, numbers);
    };
    let Some(source) = node_of_type(alloc, types, from)? else {
        return Ok(None);
    };
    cross_node(alloc, types, from, to, &source, &target, value, numbers)
}

/// What a value of a type with members becomes.
#[cycle(crossing)]
fn cross_node(
    alloc: Global,
    types: &ComponentTypes,
    from: &InterfaceType,
    to: &InterfaceType,
    source: &Node,
    target: &Node,
    value: &Value,
    numbers: &mut Numbers<'_>,
) -> Result<Option<Value>, OutOfMemory>
    requires source { HasNode types.now from.now source.now }
    requires target { HasNode types.now to.now target.now }
    ensures { IfOk result (CrossingGives types.now from.now to.now value.now numbers.old numbers.new) }
{
    match target.kind {
        NodeKind::Record => cross_record(alloc, types, from, to, source, target, value, numbers),
        NodeKind::Tuple => cross_tuple(alloc, types, from, to, source, target, value, numbers),
        NodeKind::Variant => cross_case(alloc, types, from, to, source, target, value, numbers),
        NodeKind::Enum => cross_case(alloc, types, from, to, source, target, value, numbers),
        NodeKind::Option => cross_case(alloc, types, from, to, source, target, value, numbers),
        NodeKind::Result => cross_case(alloc, types, from, to, source, target, value, numbers),
        NodeKind::List(_) => cross_list(alloc, types, from, to, source, target, value, numbers),
        NodeKind::FixedList(_, _) => {
            cross_list(alloc, types, from, to, source, target, value, numbers)
        }
        NodeKind::Map(_, _) => cross_map(alloc, types, from, to, source, target, value, numbers),
        NodeKind::Flags => cross_flags(alloc, &target.names, value),
        NodeKind::Future(table, _) => Ok(cross_handle(HandleKind::Future, table, value, numbers)),
        NodeKind::Stream(table, _) => Ok(cross_handle(HandleKind::Stream, table, value, numbers)),
    }
}

/// The record that a record becomes, its fields in the order of the target.
#[cycle(crossing)]
fn cross_record(
    alloc: Global,
    types: &ComponentTypes,
    from: &InterfaceType,
    to: &InterfaceType,
    source: &Node,
    target: &Node,
    value: &Value,
    numbers: &mut Numbers<'_>,
) -> Result<Option<Value>, OutOfMemory>
    requires source { AreLower types.now from.now source.now.types }
    requires target { AreLower types.now to.now target.now.types }
    ensures { IfOk result (λ o. (ms ns : Members) → source.now.names ≡ names_of ms → AreOf types.now source.now.types ms → target.now.names ≡ names_of ns → AreOf types.now target.now.types ns → names_of ns ≡ typed_names ns → AgreesFields ms ns → StepGives o numbers.new (record_crossed ms ns value.now numbers.old)) }
{
    let Value::Record(fields) = value else {
        return Ok(None);
    };
    let fields = fields.as_slice();
    match cross_fields(alloc, types, from, to, source, target, fields, numbers)? {
        Some(values) => Ok(Some(Value::Record(named(alloc, &target.names, values)?))),
        None => Ok(None),
    }
}

/// The values of the fields of the target, each from the field of its name.
#[cycle(crossing)]
fn cross_fields(
    alloc: Global,
    types: &ComponentTypes,
    from: &InterfaceType,
    to: &InterfaceType,
    source: &Node,
    target: &Node,
    fields: &[(Text, Value)],
    numbers: &mut Numbers<'_>,
) -> Result<Option<Seq<Value>>, OutOfMemory>
    requires source { AreLower types.now from.now source.now.types }
    requires target { AreLower types.now to.now target.now.types }
    ensures { IfOk result (λ o. (ms ns : Members) → source.now.names ≡ names_of ms → AreOf types.now source.now.types ms → target.now.names ≡ names_of ns → AreOf types.now target.now.types ns → AgreesFields ms ns → StepGives o numbers.new (fields_cross take_number ms fields.now ns numbers.old)) }
{
    let mut values = Seq::new(alloc);
    for place in 0..target.names.len() {
        if !cross_field(
            alloc,
            types,
            from,
            to,
            source,
            target,
            place,
            fields,
            numbers,
            &mut values,
        )? {
            return Ok(None);
        }
    }
    Ok(Some(values))
}

/// Puts what the field of a place becomes behind the values of the fields before it, and says whether there is such a value.
#[cycle(crossing)]
fn cross_field(
    alloc: Global,
    types: &ComponentTypes,
    from: &InterfaceType,
    to: &InterfaceType,
    source: &Node,
    target: &Node,
    place: usize,
    fields: &[(Text, Value)],
    numbers: &mut Numbers<'_>,
    values: &mut Seq<Value>,
) -> Result<bool, OutOfMemory>
    requires source { AreLower types.now from.now source.now.types }
    requires target { AreLower types.now to.now target.now.types }
    requires there { place < length target.now.names }
    ensures { IfOk result (λ b. (ms ns : Members) (start : List ℕ) → source.now.names ≡ names_of ms → AreOf types.now source.now.types ms → Naming types.now ms ns fields.now target.now.names target.now.types place values.old start numbers.old → NamingGives types.now ms ns fields.now target.now.names target.now.types place values.new start numbers.new b) }
{
    let Some(name) = target.names.get(place) else {
        return Ok(false);
    };
    let Some(ty) = member_type(target, place) else {
        return Ok(true);
    };
    let Some(field) = value_of_name(fields, name) else {
        return Ok(false);
    };
    match cross_named(alloc, types, from, source, &ty, name, field, numbers)? {
        Some(value) => {
            values.push(value)?;
            Ok(true)
        }
        None => Ok(false),
    }
}

/// What a value of the member of a name becomes in a type.
#[cycle(crossing)]
fn cross_named(
    alloc: Global,
    types: &ComponentTypes,
    from: &InterfaceType,
    source: &Node,
    to: &InterfaceType,
    name: &Text,
    value: &Value,
    numbers: &mut Numbers<'_>,
) -> Result<Option<Value>, OutOfMemory>
    requires source { AreLower types.now from.now source.now.types }
    requires live { IsLive types.now to.now }
    ensures { IfOk result (λ o. (ms : Members) (d : Shape) → source.now.names ≡ names_of ms → AreOf types.now source.now.types ms → HasShape types.now to.now d → ((s : Shape) → shape_named name.now ms ≡ Some s → Agrees s d) → StepGives o numbers.new (given (shape_named name.now ms) (λ s. cross take_number s d value.now) numbers.old)) }
{
    match type_of_name(source, name) {
        Some(own) => cross_value(alloc, types, &own, to, value, numbers),
        None => Ok(None),
    }
}

/// The tuple that a tuple becomes, member by member.
#[cycle(crossing)]
fn cross_tuple(
    alloc: Global,
    types: &ComponentTypes,
    from: &InterfaceType,
    to: &InterfaceType,
    source: &Node,
    target: &Node,
    value: &Value,
    numbers: &mut Numbers<'_>,
) -> Result<Option<Value>, OutOfMemory>
    requires source { AreLower types.now from.now source.now.types }
    requires target { AreLower types.now to.now target.now.types }
    ensures { IfOk result (λ o. (ms ns : Members) → AreOf types.now source.now.types ms → AreOf types.now target.now.types ns → AgreesPlaces ms ns → StepGives o numbers.new (tuple_crossed ms ns value.now numbers.old)) }
{
    let Value::Tuple(values) = value else {
        return Ok(None);
    };
    match cross_members(alloc, types, from, to, source, target, values, numbers)? {
        Some(crossed) => Ok(Some(Value::Tuple(crossed))),
        None => Ok(None),
    }
}

/// What the members of a tuple become, one by one.
#[cycle(crossing)]
fn cross_members(
    alloc: Global,
    types: &ComponentTypes,
    from: &InterfaceType,
    to: &InterfaceType,
    source: &Node,
    target: &Node,
    values: &Seq<Value>,
    numbers: &mut Numbers<'_>,
) -> Result<Option<Seq<Value>>, OutOfMemory>
    requires source { AreLower types.now from.now source.now.types }
    requires target { AreLower types.now to.now target.now.types }
    ensures { IfOk result (λ o. (ms ns : Members) → AreOf types.now source.now.types ms → AreOf types.now target.now.types ns → AgreesPlaces ms ns → StepGives o numbers.new (places_cross take_number ms values.now ns numbers.old)) }
{
    let mut crossed = Seq::new(alloc);
    let mut at = 0;
    for place in 0..target.types.len() {
        let first = values.get(at);
        match cross_member(
            alloc,
            types,
            from,
            to,
            source,
            target,
            place,
            first,
            numbers,
            &mut crossed,
        )? {
            Some(taken) => at += taken,
            None => return Ok(None),
        }
    }
    Ok(Some(crossed))
}

/// Puts what the member of a place becomes behind the values of the members before it, and says how many of the values that
/// are left it takes: the first of them where it has a type, and none where it has none. `None` where there is no such value.
#[cycle(crossing)]
fn cross_member(
    alloc: Global,
    types: &ComponentTypes,
    from: &InterfaceType,
    to: &InterfaceType,
    source: &Node,
    target: &Node,
    place: usize,
    first: Option<&Value>,
    numbers: &mut Numbers<'_>,
    crossed: &mut Seq<Value>,
) -> Result<Option<usize>, OutOfMemory>
    requires source { AreLower types.now from.now source.now.types }
    requires target { AreLower types.now to.now target.now.types }
    requires there { place < length target.now.types }
    ensures few { IfOk result (λ o. IfSome o (λ n. n ≤ 1)) }
    ensures placed { IfOk result (λ o. (ms ns : Members) (at : ℕ) (values : List Value) (start : List ℕ) → option_copied first.entry ≡ slice_get values at → Placing types.now ms ns source.now.types target.now.types place at values crossed.old start numbers.old → PlacingGives types.now ms ns source.now.types target.now.types place at values crossed.new start numbers.new o) }
{
    let Some(ty) = member_type(target, place) else {
        return Ok(Some(0));
    };
    let Some(own) = member_type(source, place) else {
        return Ok(None);
    };
    let Some(value) = first else {
        return Ok(None);
    };
    match cross_value(alloc, types, &own, &ty, value, numbers)? {
        Some(value) => {
            crossed.push(value)?;
            Ok(Some(1))
        }
        None => Ok(None),
    }
}

/// The case that a case becomes, by its name.
#[cycle(crossing)]
fn cross_case(
    alloc: Global,
    types: &ComponentTypes,
    from: &InterfaceType,
    to: &InterfaceType,
    source: &Node,
    target: &Node,
    value: &Value,
    numbers: &mut Numbers<'_>,
) -> Result<Option<Value>, OutOfMemory>
    requires source { AreLower types.now from.now source.now.types }
    requires target { AreLower types.now to.now target.now.types }
    ensures { IfOk result (λ o. (ms ns : Members) → source.now.names ≡ names_of ms → AreOf types.now source.now.types ms → target.now.names ≡ names_of ns → AreOf types.now target.now.types ns → ((x : List ℕ) → Meets x (shape_named x ms) ns) → StepGives o numbers.new (case_crossed ms ns value.now numbers.old)) }
{
    let Value::Case { name, payload } = value else {
        return Ok(None);
    };
    let Some(place) = index_of_name(&target.names, name) else {
        return Ok(None);
    };
    match cross_payload(
        alloc, types, from, to, source, target, place, name, payload, numbers,
    )? {
        Some(payload) => Ok(Some(Value::Case {
            name: name.try_clone()?,
            payload,
        })),
        None => Ok(None),
    }
}

/// The payload of the case of a place, whose name is that of the source's case.
#[cycle(crossing)]
fn cross_payload(
    alloc: Global,
    types: &ComponentTypes,
    from: &InterfaceType,
    to: &InterfaceType,
    source: &Node,
    target: &Node,
    place: usize,
    name: &Text,
    payload: &Seq<Value>,
    numbers: &mut Numbers<'_>,
) -> Result<Option<Seq<Value>>, OutOfMemory>
    requires source { AreLower types.now from.now source.now.types }
    requires target { AreLower types.now to.now target.now.types }
    ensures { IfOk result (λ o. (ms ns : Members) → source.now.names ≡ names_of ms → AreOf types.now source.now.types ms → AreOf types.now target.now.types ns → IsFirstNamed name.now (names_of ns) place → Meets name.now (shape_named name.now ms) ns → PayloadGives name.now o numbers.new (case_cross take_number (shape_named name.now ms) name.now payload.now ns numbers.old)) }
{
    let mut values = Seq::new(alloc);
    let Some(ty) = member_type(target, place) else {
        return Ok(Some(values));
    };
    let Some(value) = only_value(payload) else {
        return Ok(None);
    };
    match cross_named(alloc, types, from, source, &ty, name, value, numbers)? {
        Some(value) => {
            values.push(value)?;
            Ok(Some(values))
        }
        None => Ok(None),
    }
}

/// The list that a list becomes, whose length may be fixed.
#[cycle(crossing)]
fn cross_list(
    alloc: Global,
    types: &ComponentTypes,
    from: &InterfaceType,
    to: &InterfaceType,
    source: &Node,
    target: &Node,
    value: &Value,
    numbers: &mut Numbers<'_>,
) -> Result<Option<Value>, OutOfMemory>
    requires source { AreLower types.now from.now source.now.types }
    requires target { AreLower types.now to.now target.now.types }
    ensures { IfOk result (λ o. (m n : List ℕ) (s d : Shape) (ms ns : Members) → AreOf types.now source.now.types (typed m s ms) → AreOf types.now target.now.types (typed n d ns) → Agrees s d → StepGives o numbers.new (list_crossed s d value.now numbers.old)) }
{
    let Some(own) = member_type(source, 0) else {
        return Ok(None);
    };
    let Some(element) = member_type(target, 0) else {
        return Ok(None);
    };
    let Value::List(values) = value else {
        return Ok(None);
    };
    match cross_elements(alloc, types, &own, to, &element, values.as_slice(), numbers)? {
        Some(crossed) => Ok(Some(Value::List(crossed))),
        None => Ok(None),
    }
}

/// What elements become, one after another.
#[cycle(crossing)]
fn cross_elements(
    alloc: Global,
    types: &ComponentTypes,
    from: &InterfaceType,
    owner: &InterfaceType,
    to: &InterfaceType,
    values: &[Value],
    numbers: &mut Numbers<'_>,
) -> Result<Option<Seq<Value>>, OutOfMemory>
    requires from_live { IsLive types.now from.now }
    requires within { IsMemberOf types.now to.now owner.now }
    ensures { IfOk result (λ o. (s d : Shape) → HasShape types.now from.now s → HasShape types.now to.now d → Agrees s d → StepGives o numbers.new (each_step (λ v. cross take_number s d v) values.now numbers.old)) }
{
    let mut crossed = Seq::new(alloc);
    for value in values {
        match cross_value(alloc, types, from, to, value, numbers)? {
            Some(value) => crossed.push(value)?,
            None => return Ok(None),
        }
    }
    Ok(Some(crossed))
}

/// The map that a map becomes, entry by entry.
#[cycle(crossing)]
fn cross_map(
    alloc: Global,
    types: &ComponentTypes,
    from: &InterfaceType,
    to: &InterfaceType,
    source: &Node,
    target: &Node,
    value: &Value,
    numbers: &mut Numbers<'_>,
) -> Result<Option<Value>, OutOfMemory>
    requires source { AreLower types.now from.now source.now.types }
    requires target { AreLower types.now to.now target.now.types }
    ensures { IfOk result (λ o. (m n k l : List ℕ) (s d u e : Shape) (ms ns : Members) → AreOf types.now source.now.types (typed m s (typed k u ms)) → AreOf types.now target.now.types (typed n d (typed l e ns)) → Agrees s d → Agrees u e → StepGives o numbers.new (map_crossed s d u e value.now numbers.old)) }
{
    let Value::Map(entries) = value else {
        return Ok(None);
    };
    let entries = entries.as_slice();
    match cross_entries(alloc, types, from, to, source, target, entries, numbers)? {
        Some(crossed) => Ok(Some(Value::Map(crossed))),
        None => Ok(None),
    }
}

/// What the entries of a map become, one after another.
#[cycle(crossing)]
fn cross_entries(
    alloc: Global,
    types: &ComponentTypes,
    from: &InterfaceType,
    to: &InterfaceType,
    source: &Node,
    target: &Node,
    entries: &[(Value, Value)],
    numbers: &mut Numbers<'_>,
) -> Result<Option<Seq<(Value, Value)>>, OutOfMemory>
    requires source { AreLower types.now from.now source.now.types }
    requires target { AreLower types.now to.now target.now.types }
    ensures { IfOk result (λ o. (m n k l : List ℕ) (s d u e : Shape) (ms ns : Members) → AreOf types.now source.now.types (typed m s (typed k u ms)) → AreOf types.now target.now.types (typed n d (typed l e ns)) → Agrees s d → Agrees u e → StepGives o numbers.new (each_step (entry_crossed s d u e) entries.now numbers.old)) }
{
    let mut crossed = Seq::new(alloc);
    for entry in entries {
        let Some(own_key) = cross_part(
            alloc, types, from, to, source, target, 0, &entry.0, numbers,
        )?
        else {
            return Ok(None);
        };
        let Some(own_item) = cross_part(
            alloc, types, from, to, source, target, 1, &entry.1, numbers,
        )?
        else {
            return Ok(None);
        };
        crossed.push((own_key, own_item))?;
    }
    Ok(Some(crossed))
}

/// What a value of the member of a place becomes in the member of that place.
#[cycle(crossing)]
fn cross_part(
    alloc: Global,
    types: &ComponentTypes,
    from: &InterfaceType,
    to: &InterfaceType,
    source: &Node,
    target: &Node,
    place: usize,
    value: &Value,
    numbers: &mut Numbers<'_>,
) -> Result<Option<Value>, OutOfMemory>
    requires source { AreLower types.now from.now source.now.types }
    requires target { AreLower types.now to.now target.now.types }
    ensures { IfOk result (λ o. (s d : Shape) → IsTypeOf types.now (member_type_at source.now.types place) (Some s) → IsTypeOf types.now (member_type_at target.now.types place) (Some d) → Agrees s d → StepGives o numbers.new (cross take_number s d value.now numbers.old)) }
{
    let Some(own) = member_type(source, place) else {
        return Ok(None);
    };
    let Some(ty) = member_type(target, place) else {
        return Ok(None);
    };
    cross_value(alloc, types, &own, &ty, value, numbers)
}
