//! How much values ask of a host's memories.

ghost use Rattle.std.specs.Prelude.{◌≡◌, ◌+◌, ◌*◌, ◌^◌, ◌<◌, ◌≤◌, ◌&&◌, nat_le, true, [], ◌∷◌, ℕ, List, Option, Some, get_or, map, max, sum_by, slice_get, IfOk, IfSome, MatchOption};
ghost use Rattle.std.specs.Option.{option_copied};
ghost use Rattle.fact_types.specs.Agrees.{names_of};
ghost use Rattle.fact_types.specs.Functions.{HaveShapes};
ghost use Rattle.fact_types.specs.Heights.{IsMemberOf};
ghost use Rattle.fact_types.specs.Layout.{aligned as next_aligned, extent};
ghost use Rattle.fact_types.specs.Shapes.{k_fixed, k_list, k_map, k_record, k_tuple, k_variant, layout_of, Shape, s_node, Members};
ghost use Rattle.fact_types.specs.Signatures.{width};
ghost use Rattle.fact_types.specs.Tables.{Tables, IsLive, IsLiveMember, HasShape};
ghost use Rattle.fact_types.specs.Tuples.{tuple_members, tuple_of};
ghost use Rattle.fact_values.specs.Numbers.{plain_of, text as a_text};
ghost use Rattle.fact_values.specs.Handles.{only as only_one};
ghost use Rattle.fact_values.specs.Places.{element_layout, typed_names};
ghost use Rattle.fact_values.specs.Weight.{weight, weight_element, weight_members};
ghost use Rattle.fact_abi.specs.Finding.{IsTypeOf};
ghost use Rattle.fact_abi.specs.Nodes.{kind_of, AreLower, AreOf, HasNode};
ghost use Rattle.fact_lowering.specs.Counted.{AsksBy, CountsFor, measured_at, shape_of_name, stopped, weight_at, weights_of as weights_there};
ghost use Rattle.fact_lowering.specs.Lowered.{AreAllLive};
ghost use Rattle.fact_lowering.specs.Room.{fits as values_fit, greatest_bytes as more_bytes, measured, measured_element, measured_fields, measured_places, measured_plain, same_kind, shape_named};

use fact_abi::{Node, NodeKind, Value, index_of_name, member_type, node_of_type, only_value};
use fact_types::{CanonicalAbiInfo, ComponentTypes, InterfaceType};
use fact_wasm::{OutOfMemory, Seq, Text};
use std::alloc::Global;

/// The most bytes that values take on either side.
const MOST_ROOM: u128 = 16_384;

/// The most texts, lists, maps and handles among values.
const MOST_PIECES: u64 = 64;

/// The greatest weight of values.
const MOST_WEIGHT: u64 = 1_000_000;

/// What values ask for: bytes behind pointers, texts, lists, maps and handles, and their weight in the source types. Each stops at 2,000,000.
#[derive(Clone, Copy)]
struct Asked {
    room: u64,
    pieces: u64,
    weight: u64,
}

/// The sum of two numbers, at most 2,000,000.
fn capped(a: u64, b: u64) -> u64
    ensures { result ≡ stopped (a + b) }
{
    a.saturating_add(b).min(2_000_000)
}

impl Asked {
    fn and(self, other: Asked) -> Asked
        ensures { (m n p q v w : ℕ) → CountsFor m p v self → CountsFor n q w other → CountsFor (m + n) (p + q) (v + w) result }
    {
        Asked {
            room: capped(self.room, other.room),
            pieces: capped(self.pieces, other.pieces),
            weight: capped(self.weight, other.weight),
        }
    }
}

/// What has no room of its own.
fn weighs(weight: usize) -> Asked
    ensures { CountsFor 0 0 weight result }
{
    Asked {
        room: 0,
        pieces: 0,
        weight: capped(0, weight as u64),
    }
}

/// A handle.
fn handle() -> Asked
    ensures { CountsFor 0 1 1 result }
{
    Asked {
        room: 0,
        pieces: 1,
        weight: 1,
    }
}

/// A text, a list or a map, with so many parts of so many bytes.
fn piece(count: u64, each: u64) -> Asked
    ensures { CountsFor (8 + count * each) 1 1 result }
{
    Asked {
        room: capped(8, count.saturating_mul(each)),
        pieces: 1,
        weight: 1,
    }
}

fn greatest_bytes(from: &CanonicalAbiInfo, to: &CanonicalAbiInfo) -> u64
    ensures { result ≡ more_bytes from.now to.now }
{
    let own = from.size32.max(from.size64);
    let other = to.size32.max(to.size64);
    u64::from(own.max(other))
}

/// Whether values of types fit a host that carries them to others, all live.
pub fn fits(
    alloc: Global,
    types: &ComponentTypes,
    from: &[InterfaceType],
    to: &[InterfaceType],
    values: &[Value],
) -> Result<bool, OutOfMemory>
    requires from { AreAllLive types.now from.now }
    requires to { AreAllLive types.now to.now }
    ensures { IfOk result (λ b. (ts us : List Shape) → HaveShapes types.now from.now ts → HaveShapes types.now to.now us → b ≡ values_fit ts us values.now) }
{
    let asked = asked_by_values(alloc, types, from, to, values)?;
    let tuples = tuple_bytes(types, from).max(tuple_bytes(types, to));
    Ok(is_little(asked, tuples))
}

/// Whether no more is asked for than a host gives, with tuples of so many bytes.
fn is_little(asked: Asked, tuples: u128) -> bool
    requires { tuples ≤ 2 ^ 120 }
    ensures { result ≡ (nat_le (8 + tuples + asked.room) 16384 && (nat_le asked.pieces 64 && nat_le asked.weight 1000000)) }
{
    let room = 8 + tuples + u128::from(asked.room);
    room <= MOST_ROOM && (asked.pieces <= MOST_PIECES && asked.weight <= MOST_WEIGHT)
}

/// The greater size of a tuple in either width.
fn tuple_bytes(types: &ComponentTypes, tys: &[InterfaceType]) -> u128
    requires { AreAllLive types.now tys.now }
    ensures value { (ss : List Shape) → HaveShapes types.now tys.now ss → result ≡ max (layout_of (tuple_of ss)).size32 (layout_of (tuple_of ss)).size64 }
    ensures few { result ≤ 2 ^ 120 }
{
    tuple_size(types, tys, false).max(tuple_size(types, tys, true))
}

/// The bytes of a tuple in a width.
fn tuple_size(types: &ComponentTypes, tys: &[InterfaceType], memory64: bool) -> u128
    requires { AreAllLive types.now tys.now }
    ensures value { (ss : List Shape) → HaveShapes types.now tys.now ss → result ≡ (extent (width memory64) (layout_of (tuple_of ss))).size }
    ensures few { result ≤ 2 ^ 120 }
{
    let mut end = 0;
    let mut greatest = 1;
    for place in 0..tys.len() {
        let (size, align) = extent_of(types, &tys[place], memory64);
        end = multiple_from(end, align) + u128::from(size);
        greatest = align.max(greatest);
    }
    multiple_from(end, greatest)
}

/// The size and the alignment of a type in a width.
fn extent_of(types: &ComponentTypes, ty: &InterfaceType, memory64: bool) -> (u32, u32)
    requires { IsLive types.now ty.now }
    ensures size { (s : Shape) → HasShape types.now ty.now s → result.0 ≡ (extent (width memory64) (layout_of s)).size }
    ensures align { (s : Shape) → HasShape types.now ty.now s → result.1 ≡ (extent (width memory64) (layout_of s)).align }
    ensures some { 1 ≤ result.1 }
    ensures few { result.0 < 2 ^ 32 }
{
    let abi = types.canonical_abi(ty);
    if memory64 {
        (abi.size64, abi.align64)
    } else {
        (abi.size32, abi.align32)
    }
}

/// The least multiple of an alignment that is no less than a number.
fn multiple_from(number: u128, align: u32) -> u128
    requires some { 1 ≤ align }
    requires few { number ≤ 2 ^ 100 }
    ensures value { result ≡ next_aligned number align }
    ensures near { result < number + 2 ^ 32 }
{
    let align = u128::from(align);
    number + (align - number % align) % align
}

/// What values of types ask for, one by one.
fn asked_by_values(
    alloc: Global,
    types: &ComponentTypes,
    from: &[InterfaceType],
    to: &[InterfaceType],
    values: &[Value],
) -> Result<Asked, OutOfMemory>
    requires from { AreAllLive types.now from.now }
    requires to { AreAllLive types.now to.now }
    ensures { IfOk result (λ a. (ts us : List Shape) → HaveShapes types.now from.now ts → HaveShapes types.now to.now us → AsksBy (λ m. measured_places m (tuple_members ts) values.now (tuple_members us)) (weight_members (tuple_members ts) values.now) a) }
{
    let mut all = weighs(0);
    for place in 0..from.len() {
        let source = from[place];
        let target = type_or(to, place, source);
        let value = value_at(values, place);
        let here = asked_by_any(alloc, types, &source, &target, value)?;
        all = all.and(here);
    }
    Ok(all)
}

/// The type of a place, or another one where there is none.
fn type_or(types: &[InterfaceType], place: usize, other: InterfaceType) -> InterfaceType
    ensures { result ≡ get_or types.now place other }
{
    match types.get(place) {
        Some(ty) => *ty,
        None => other,
    }
}

/// What a value of a type asks for, where it is there.
fn asked_by_any(
    alloc: Global,
    types: &ComponentTypes,
    from: &InterfaceType,
    to: &InterfaceType,
    value: Option<&Value>,
) -> Result<Asked, OutOfMemory>
    requires from { IsLive types.now from.now }
    requires to { IsLive types.now to.now }
    ensures { IfOk result (λ a. (s d : Shape) → HasShape types.now from.now s → HasShape types.now to.now d → AsksBy (λ m. measured_at m (Some s) (Some d) (option_copied value.entry)) (weight_at (Some s) (option_copied value.entry)) a) }
{
    match value {
        Some(value) => asked_by(alloc, types, from, to, value),
        None => Ok(weighs(0)),
    }
}

/// What a value of a live type asks for that is carried to another one.
#[cycle(measuring)]
fn asked_by(
    alloc: Global,
    types: &ComponentTypes,
    from: &InterfaceType,
    to: &InterfaceType,
    value: &Value,
) -> Result<Asked, OutOfMemory>
    requires from { IsLive types.now from.now }
    requires to { IsLive types.now to.now }
    ensures { IfOk result (λ a. (s d : Shape) → HasShape types.now from.now s → HasShape types.now to.now d → AsksBy (λ m. measured m s d value.now) (weight s value.now) a) }
{
    match node_of_type(alloc, types, from)? {
        None => Ok(asked_by_plain(from, value)),
        Some(source) => asked_by_kind(alloc, types, from, &source, to, value),
    }
}

fn asked_by_plain(ty: &InterfaceType, value: &Value) -> Asked
    ensures { AsksBy (λ m. measured_plain m (plain_of ty.now) value.now) 1 result }
{
    match *ty {
        InterfaceType::String => asked_by_text(value),
        InterfaceType::Own(_) => handle(),
        InterfaceType::Borrow(_) => handle(),
        InterfaceType::ErrorContext(_) => handle(),
        _ => weighs(1),
    }
}

fn asked_by_text(value: &Value) -> Asked
    ensures { AsksBy (λ m. measured_plain m a_text value.now) 1 result }
{
    match value {
        Value::Str(text) => piece(16, text.len() as u64),
        _ => weighs(1),
    }
}

/// What a value of a type with members asks for.
#[cycle(measuring)]
fn asked_by_kind(
    alloc: Global,
    types: &ComponentTypes,
    from: &InterfaceType,
    source: &Node,
    to: &InterfaceType,
    value: &Value,
) -> Result<Asked, OutOfMemory>
    requires from { IsLive types.now from.now }
    requires source { HasNode types.now from.now source.now }
    requires to { IsLive types.now to.now }
    ensures { IfOk result (λ a. (s d : Shape) → HasShape types.now from.now s → HasShape types.now to.now d → AsksBy (λ m. measured m s d value.now) (weight s value.now) a) }
{
    match source.kind {
        NodeKind::Flags => Ok(weighs(1)),
        NodeKind::Enum => Ok(weighs(1)),
        NodeKind::Future(_, _) => Ok(handle()),
        NodeKind::Stream(_, _) => Ok(handle()),
        _ => asked_of_kind(alloc, types, from, source, to, value),
    }
}

/// What a value of a type whose values hold others asks for. A type of another kind is as if there were none.
#[cycle(measuring)]
fn asked_of_kind(
    alloc: Global,
    types: &ComponentTypes,
    from: &InterfaceType,
    source: &Node,
    to: &InterfaceType,
    value: &Value,
) -> Result<Asked, OutOfMemory>
    requires from { IsLive types.now from.now }
    requires source { HasNode types.now from.now source.now }
    requires to { IsLive types.now to.now }
    requires holds { same_kind (kind_of source.now.kind) (kind_of source.now.kind) ≡ true }
    ensures { IfOk result (λ a. (s d : Shape) → HasShape types.now from.now s → HasShape types.now to.now d → AsksBy (λ m. measured m s d value.now) (weight s value.now) a) }
{
    let Some(target) = node_of_type(alloc, types, to)? else {
        return asked_by_node(alloc, types, from, source, from, source, value);
    };
    if is_same_kind(source.kind, target.kind) {
        asked_by_node(alloc, types, from, source, to, &target, value)
    } else {
        asked_by_node(alloc, types, from, source, from, source, value)
    }
}

/// Whether two kinds are of types whose values hold others in the same way.
fn is_same_kind(source: NodeKind, target: NodeKind) -> bool
    ensures { result ≡ same_kind (kind_of source) (kind_of target) }
{
    match source {
        NodeKind::Record => matches!(target, NodeKind::Record),
        NodeKind::Variant => matches!(target, NodeKind::Variant),
        NodeKind::List(_) => matches!(target, NodeKind::List(_)),
        NodeKind::Tuple => matches!(target, NodeKind::Tuple),
        NodeKind::Map(_, _) => matches!(target, NodeKind::Map(_, _)),
        NodeKind::Option => matches!(target, NodeKind::Option),
        NodeKind::Result => matches!(target, NodeKind::Result),
        NodeKind::FixedList(_, _) => matches!(target, NodeKind::FixedList(_, _)),
        _ => false,
    }
}

/// What a value of a type asks for that is carried to one of the same kind.
#[cycle(measuring)]
fn asked_by_node(
    alloc: Global,
    types: &ComponentTypes,
    from: &InterfaceType,
    source: &Node,
    to: &InterfaceType,
    target: &Node,
    value: &Value,
) -> Result<Asked, OutOfMemory>
    requires from { IsLive types.now from.now }
    requires source { HasNode types.now from.now source.now }
    requires to { IsLive types.now to.now }
    requires target { HasNode types.now to.now target.now }
    requires alike { same_kind (kind_of source.now.kind) (kind_of target.now.kind) ≡ true }
    ensures { IfOk result (λ a. (s d : Shape) → HasShape types.now from.now s → HasShape types.now to.now d → AsksBy (λ m. measured m s d value.now) (weight s value.now) a) }
{
    match source.kind {
        NodeKind::Record => asked_by_record(alloc, types, from, source, to, target, value),
        NodeKind::Tuple => asked_by_tuple(alloc, types, from, source, to, target, value),
        NodeKind::List(_) => asked_by_list(alloc, types, from, source, to, target, value),
        NodeKind::Map(_, _) => asked_by_map(alloc, types, from, source, to, target, value),
        NodeKind::FixedList(_, _) => {
            asked_by_fixed_list(alloc, types, from, source, to, target, value)
        }
        NodeKind::Variant => asked_by_case(alloc, types, from, source, to, target, value),
        NodeKind::Option => asked_by_case(alloc, types, from, source, to, target, value),
        NodeKind::Result => asked_by_case(alloc, types, from, source, to, target, value),
        _ => Ok(weighs(1)),
    }
}

/// How many values a member has.
fn count_of(member: Option<InterfaceType>) -> usize
    ensures { MatchOption member (result ≡ 0) (λ y. result ≡ 1) }
{
    match member {
        Some(_) => 1,
        None => 0,
    }
}

/// What a value of a member asks for, where it is there. A type that is missing is that of the member.
#[cycle(measuring)]
fn asked_at(
    alloc: Global,
    types: &ComponentTypes,
    owner: &InterfaceType,
    from: Option<InterfaceType>,
    to: Option<InterfaceType>,
    value: Option<&Value>,
) -> Result<Asked, OutOfMemory>
    requires within { (y : InterfaceType) → from ≡ Some y → IsMemberOf types.now y owner.now }
    requires live { IsLiveMember types.now to }
    ensures { IfOk result (λ a. (x p : Option Shape) → IsTypeOf types.now from x → IsTypeOf types.now to p → AsksBy (λ m. measured_at m x p (option_copied value.entry)) (weight_at x (option_copied value.entry)) a) }
{
    let Some(from) = from else {
        return Ok(weighs(0));
    };
    let Some(value) = value else {
        return Ok(weighs(0));
    };
    match to {
        Some(to) => asked_by(alloc, types, &from, &to, value),
        None => asked_by(alloc, types, &from, &from, value),
    }
}

/// What a tuple asks for.
#[cycle(measuring)]
fn asked_by_tuple(
    alloc: Global,
    types: &ComponentTypes,
    from: &InterfaceType,
    source: &Node,
    to: &InterfaceType,
    target: &Node,
    value: &Value,
) -> Result<Asked, OutOfMemory>
    requires source { AreLower types.now from.now source.now.types }
    requires target { AreLower types.now to.now target.now.types }
    ensures { IfOk result (λ a. (ms ns : Members) → AreOf types.now source.now.types ms → AreOf types.now target.now.types ns → AsksBy (λ m. measured m (s_node k_tuple ms) (s_node k_tuple ns) value.now) (weight (s_node k_tuple ms) value.now) a) }
{
    let Value::Tuple(values) = value else {
        return Ok(weighs(1));
    };
    let members = asked_by_members(alloc, types, from, source, to, target, values.as_slice())?;
    Ok(weighs(1).and(members))
}

/// What values of members ask for, one by one.
#[cycle(measuring)]
fn asked_by_members(
    alloc: Global,
    types: &ComponentTypes,
    from: &InterfaceType,
    source: &Node,
    to: &InterfaceType,
    target: &Node,
    values: &[Value],
) -> Result<Asked, OutOfMemory>
    requires source { AreLower types.now from.now source.now.types }
    requires target { AreLower types.now to.now target.now.types }
    ensures { IfOk result (λ a. (ms ns : Members) → AreOf types.now source.now.types ms → AreOf types.now target.now.types ns → AsksBy (λ m. measured_places m ms values.now ns) (weight_members ms values.now) a) }
{
    let mut all = weighs(0);
    let mut at = 0;
    for place in 0..source.types.len() {
        let own = member_type(source, place);
        let other = member_type(target, place);
        let first = value_at(values, at);
        let here = asked_at(alloc, types, from, own, other, first)?;
        all = all.and(here);
        at += count_of(own);
    }
    Ok(all)
}

/// What a record asks for.
#[cycle(measuring)]
fn asked_by_record(
    alloc: Global,
    types: &ComponentTypes,
    from: &InterfaceType,
    source: &Node,
    to: &InterfaceType,
    target: &Node,
    value: &Value,
) -> Result<Asked, OutOfMemory>
    requires source { AreLower types.now from.now source.now.types }
    requires target { AreLower types.now to.now target.now.types }
    ensures { IfOk result (λ a. (ms ns : Members) → source.now.names ≡ typed_names ms → AreOf types.now source.now.types ms → target.now.names ≡ names_of ns → AreOf types.now target.now.types ns → AsksBy (λ m. measured m (s_node k_record ms) (s_node k_record ns) value.now) (weight (s_node k_record ms) value.now) a) }
{
    let Value::Record(fields) = value else {
        return Ok(weighs(1));
    };
    let members = asked_by_fields(alloc, types, from, source, to, target, fields.as_slice())?;
    Ok(weighs(1).and(members))
}

/// What fields ask for, each carried to the field of its name.
#[cycle(measuring)]
fn asked_by_fields(
    alloc: Global,
    types: &ComponentTypes,
    from: &InterfaceType,
    source: &Node,
    to: &InterfaceType,
    target: &Node,
    fields: &[(Text, Value)],
) -> Result<Asked, OutOfMemory>
    requires source { AreLower types.now from.now source.now.types }
    requires target { AreLower types.now to.now target.now.types }
    ensures { IfOk result (λ a. (ms ns : Members) → source.now.names ≡ typed_names ms → AreOf types.now source.now.types ms → target.now.names ≡ names_of ns → AreOf types.now target.now.types ns → AsksBy (λ m. measured_fields m ms fields.now ns) (weight_members ms (map (λ f. f.1) fields.now)) a) }
{
    let mut all = weighs(0);
    let mut at = 0;
    for place in 0..source.types.len() {
        let own = member_type(source, place);
        let other = type_of_field(source, at, target);
        let first = value_of_field(fields, at);
        let here = asked_at(alloc, types, from, own, other, first)?;
        all = all.and(here);
        at += count_of(own);
    }
    Ok(all)
}

/// The value of a place.
fn value_at(values: &[Value], place: usize) -> Option<&Value>
    ensures { option_copied result ≡ slice_get values.now place }
{
    values.get(place)
}

/// The value of the field of a place.
fn value_of_field(fields: &[(Text, Value)], place: usize) -> Option<&Value>
    ensures { option_copied result ≡ slice_get (map (λ f. f.1) fields.now) place }
{
    match fields.get(place) {
        Some(field) => Some(&field.1),
        None => None,
    }
}

/// The type of the first member of a name, where it has one.
fn type_named(node: &Node, name: &Text) -> Option<InterfaceType>
    ensures shaped { (t : Tables) (ms : Members) → node.now.names ≡ names_of ms → AreOf t node.now.types ms → IsTypeOf t result (shape_named name.now ms) }
    ensures there { IfSome result (λ y. (i : ℕ) × (slice_get node.now.types i ≡ Some (Some y))) }
{
    match index_of_name(&node.names, name) {
        Some(place) => member_type(node, place),
        None => None,
    }
}

/// The type of the member whose name is that of a place among a source's names.
fn type_of_field(source: &Node, place: usize, target: &Node) -> Option<InterfaceType>
    ensures shaped { (t : Tables) (ns : Members) → target.now.names ≡ names_of ns → AreOf t target.now.types ns → IsTypeOf t result (shape_of_name (slice_get source.now.names place) ns) }
    ensures there { IfSome result (λ y. (i : ℕ) × (slice_get target.now.types i ≡ Some (Some y))) }
{
    match source.names.get(place) {
        Some(name) => type_named(target, name),
        None => None,
    }
}

/// What a list of fixed length asks for.
#[cycle(measuring)]
fn asked_by_fixed_list(
    alloc: Global,
    types: &ComponentTypes,
    from: &InterfaceType,
    source: &Node,
    to: &InterfaceType,
    target: &Node,
    value: &Value,
) -> Result<Asked, OutOfMemory>
    requires source { AreLower types.now from.now source.now.types }
    requires target { AreLower types.now to.now target.now.types }
    ensures { IfOk result (λ a. (m n : ℕ) (ms ns : Members) → AreOf types.now source.now.types ms → AreOf types.now target.now.types ns → AsksBy (λ x. measured x (s_node (k_fixed m) ms) (s_node (k_fixed n) ns) value.now) (weight (s_node (k_fixed m) ms) value.now) a) }
{
    let Value::List(values) = value else {
        return Ok(weighs(1));
    };
    let elements = asked_by_elements(alloc, types, from, source, to, target, values.as_slice())?;
    Ok(weighs(1).and(elements))
}

/// What elements ask for.
#[cycle(measuring)]
fn asked_by_elements(
    alloc: Global,
    types: &ComponentTypes,
    from: &InterfaceType,
    source: &Node,
    to: &InterfaceType,
    target: &Node,
    values: &[Value],
) -> Result<Asked, OutOfMemory>
    requires source { AreLower types.now from.now source.now.types }
    requires target { AreLower types.now to.now target.now.types }
    ensures { IfOk result (λ a. (ms ns : Members) → AreOf types.now source.now.types ms → AreOf types.now target.now.types ns → AsksBy (λ m. sum_by (λ w. measured_element m ms w ns) values.now) (sum_by (λ w. weight_element ms w) values.now) a) }
{
    let own = member_type(source, 0);
    let other = member_type(target, 0);
    let mut all = weighs(0);
    for place in 0..values.len() {
        let value = value_at(values, place);
        let here = asked_at(alloc, types, from, own, other, value)?;
        all = all.and(here);
    }
    Ok(all)
}

/// What a list asks for.
#[cycle(measuring)]
fn asked_by_list(
    alloc: Global,
    types: &ComponentTypes,
    from: &InterfaceType,
    source: &Node,
    to: &InterfaceType,
    target: &Node,
    value: &Value,
) -> Result<Asked, OutOfMemory>
    requires source { AreLower types.now from.now source.now.types }
    requires target { AreLower types.now to.now target.now.types }
    ensures { IfOk result (λ a. (e f : InterfaceType) (ms ns : Members) → source.now.types ≡ Some e ∷ [] → AreOf types.now source.now.types ms → target.now.types ≡ Some f ∷ [] → AreOf types.now target.now.types ns → AsksBy (λ m. measured m (s_node k_list ms) (s_node k_list ns) value.now) (weight (s_node k_list ms) value.now) a) }
{
    let Value::List(values) = value else {
        return Ok(weighs(1));
    };
    let each = greatest_bytes(
        &element_abi(types, from, source),
        &element_abi(types, to, target),
    );
    let own = piece(values.len() as u64, each);
    let elements = asked_by_elements(alloc, types, from, source, to, target, values.as_slice())?;
    Ok(own.and(elements))
}

/// The layout of the elements of a list.
fn element_abi(types: &ComponentTypes, owner: &InterfaceType, node: &Node) -> CanonicalAbiInfo
    requires { AreLower types.now owner.now node.now.types }
    ensures { (e : InterfaceType) (ms : Members) → node.now.types ≡ Some e ∷ [] → AreOf types.now node.now.types ms → result ≡ element_layout k_list ms }
{
    match member_type(node, 0) {
        Some(ty) => *types.canonical_abi(&ty),
        None => CanonicalAbiInfo::ZERO,
    }
}

/// What a map asks for.
#[cycle(measuring)]
fn asked_by_map(
    alloc: Global,
    types: &ComponentTypes,
    from: &InterfaceType,
    source: &Node,
    to: &InterfaceType,
    target: &Node,
    value: &Value,
) -> Result<Asked, OutOfMemory>
    requires from { IsLive types.now from.now }
    requires to { IsLive types.now to.now }
    requires source { AreLower types.now from.now source.now.types }
    requires target { AreLower types.now to.now target.now.types }
    ensures { IfOk result (λ a. (x y : InterfaceType) (ms ns : Members) → HasShape types.now from.now (s_node k_map ms) → HasShape types.now to.now (s_node k_map ns) → source.now.types ≡ Some x ∷ Some y ∷ [] → AreOf types.now source.now.types ms → AreOf types.now target.now.types ns → AsksBy (λ m. measured m (s_node k_map ms) (s_node k_map ns) value.now) (weight (s_node k_map ms) value.now) a) }
{
    let Value::Map(entries) = value else {
        return Ok(weighs(1));
    };
    let each = greatest_bytes(&entry_abi(types, from), &entry_abi(types, to));
    let own = piece(entries.len() as u64, each);
    let inner = asked_by_entries(alloc, types, from, source, to, target, entries.as_slice())?;
    Ok(own.and(inner))
}

/// The layout of an entry of a map.
fn entry_abi(types: &ComponentTypes, ty: &InterfaceType) -> CanonicalAbiInfo
    requires { IsLive types.now ty.now }
    ensures { (ms : Members) → HasShape types.now ty.now (s_node k_map ms) → result ≡ element_layout k_map ms }
{
    types.reveal();
    match *ty {
        InterfaceType::Map(i) => types[i].entry_abi,
        _ => CanonicalAbiInfo::ZERO,
    }
}

/// What entries ask for.
#[cycle(measuring)]
fn asked_by_entries(
    alloc: Global,
    types: &ComponentTypes,
    from: &InterfaceType,
    source: &Node,
    to: &InterfaceType,
    target: &Node,
    entries: &[(Value, Value)],
) -> Result<Asked, OutOfMemory>
    requires source { AreLower types.now from.now source.now.types }
    requires target { AreLower types.now to.now target.now.types }
    ensures { IfOk result (λ a. (x y : InterfaceType) (ms ns : Members) → source.now.types ≡ Some x ∷ Some y ∷ [] → AreOf types.now source.now.types ms → AreOf types.now target.now.types ns → AsksBy (λ m. sum_by (λ e. measured_places m ms (e.0 ∷ e.1 ∷ []) ns) entries.now) (sum_by (λ e. weight_members ms (e.0 ∷ e.1 ∷ [])) entries.now) a) }
{
    let mut all = weighs(0);
    for entry in entries {
        let here = asked_by_entry(alloc, types, from, source, to, target, &entry.0, &entry.1)?;
        all = all.and(here);
    }
    Ok(all)
}

/// What a key and a value ask for.
#[cycle(measuring)]
fn asked_by_entry(
    alloc: Global,
    types: &ComponentTypes,
    from: &InterfaceType,
    source: &Node,
    to: &InterfaceType,
    target: &Node,
    key: &Value,
    item: &Value,
) -> Result<Asked, OutOfMemory>
    requires source { AreLower types.now from.now source.now.types }
    requires target { AreLower types.now to.now target.now.types }
    ensures { IfOk result (λ a. (x y : InterfaceType) (ms ns : Members) → source.now.types ≡ Some x ∷ Some y ∷ [] → AreOf types.now source.now.types ms → AreOf types.now target.now.types ns → AsksBy (λ m. measured_places m ms (key.now ∷ item.now ∷ []) ns) (weight_members ms (key.now ∷ item.now ∷ [])) a) }
{
    let own_key = member_type(source, 0);
    let other_key = member_type(target, 0);
    let first = asked_at(alloc, types, from, own_key, other_key, Some(key))?;
    let own_item = member_type(source, 1);
    let other_item = member_type(target, 1);
    let second = asked_at(alloc, types, from, own_item, other_item, Some(item))?;
    Ok(first.and(second))
}

/// What a case asks for.
#[cycle(measuring)]
fn asked_by_case(
    alloc: Global,
    types: &ComponentTypes,
    from: &InterfaceType,
    source: &Node,
    to: &InterfaceType,
    target: &Node,
    value: &Value,
) -> Result<Asked, OutOfMemory>
    requires source { AreLower types.now from.now source.now.types }
    requires target { AreLower types.now to.now target.now.types }
    ensures { IfOk result (λ a. (ms ns : Members) → source.now.names ≡ names_of ms → AreOf types.now source.now.types ms → target.now.names ≡ names_of ns → AreOf types.now target.now.types ns → AsksBy (λ m. measured m (s_node k_variant ms) (s_node k_variant ns) value.now) (weight (s_node k_variant ms) value.now) a) }
{
    let own = weighs(1).and(weighs(source.types.len()));
    let Value::Case { name, payload } = value else {
        return Ok(own);
    };
    let here = type_named(source, name);
    let there = type_named(target, name);
    let inner = asked_by_payload(alloc, types, from, here, there, payload)?;
    Ok(own.and(inner))
}

/// What a payload asks for. That of a case has one value at most.
#[cycle(measuring)]
fn asked_by_payload(
    alloc: Global,
    types: &ComponentTypes,
    owner: &InterfaceType,
    from: Option<InterfaceType>,
    to: Option<InterfaceType>,
    payload: &Seq<Value>,
) -> Result<Asked, OutOfMemory>
    requires within { (y : InterfaceType) → from ≡ Some y → IsMemberOf types.now y owner.now }
    requires live { IsLiveMember types.now to }
    ensures { IfOk result (λ a. (x p : Option Shape) → IsTypeOf types.now from x → IsTypeOf types.now to p → AsksBy (λ m. measured_at m x p (only_one payload.now)) (weights_there x payload.now) a) }
{
    match only_value(payload) {
        Some(value) => asked_at(alloc, types, owner, from, to, Some(value)),
        None => weights_of(alloc, types, owner, from, to, payload.as_slice()),
    }
}

/// The weights of values alone.
#[cycle(measuring)]
fn weights_of(
    alloc: Global,
    types: &ComponentTypes,
    owner: &InterfaceType,
    from: Option<InterfaceType>,
    to: Option<InterfaceType>,
    values: &[Value],
) -> Result<Asked, OutOfMemory>
    requires within { (y : InterfaceType) → from ≡ Some y → IsMemberOf types.now y owner.now }
    requires live { IsLiveMember types.now to }
    ensures { IfOk result (λ a. (x p : Option Shape) → IsTypeOf types.now from x → IsTypeOf types.now to p → CountsFor 0 0 (weights_there x values.now) a) }
{
    let mut all = weighs(0);
    for place in 0..values.len() {
        let value = value_at(values, place);
        let here = asked_at(alloc, types, owner, from, to, value)?;
        all = all.and(without_room(here));
    }
    Ok(all)
}

fn without_room(asked: Asked) -> Asked
    ensures { (m p w : ℕ) → CountsFor m p w asked → CountsFor 0 0 w result }
{
    Asked {
        room: 0,
        pieces: 0,
        weight: asked.weight,
    }
}
