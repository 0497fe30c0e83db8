//! Types with members, as the walks over values see them.

ghost use Rattle.std.specs.Prelude.{◌≡◌, [], ◌∷◌, length, map, slice_get, IfOk, Option, Some, None};
ghost use Rattle.fact_types.specs.declared.interface.InterfaceType.TheVariants as a_type;
ghost use Rattle.fact_types.specs.Tables.{IsLive};
ghost use Rattle.fact_abi.specs.Nodes.{IsNodeOf, field_types, field_names_of};

use fact_entity::{
    EntityRef, TypeEnumIndex, TypeFixedLengthListIndex, TypeFlagsIndex, TypeFutureTableIndex,
    TypeListIndex, TypeMapIndex, TypeOptionIndex, TypeRecordIndex, TypeResultIndex,
    TypeStreamTableIndex, TypeTupleIndex, TypeVariantIndex,
};
use fact_types::{ComponentTypes, InterfaceType, RecordField};
use fact_wasm::{OutOfMemory, Seq, Text};
use indexmap::{IndexMap, IndexSet};
use std::alloc::Global;

/// The kinds of types that have members. A list has the type of its elements, a list of fixed length its length too, and a
/// map the types of its keys and values; a future or a stream has the number of its table and that of the table's instance.
#[derive(Clone, Copy)]
pub enum NodeKind {
    Record,
    Variant,
    List(InterfaceType),
    Tuple,
    Map(InterfaceType, InterfaceType),
    Flags,
    Enum,
    Option,
    Result,
    FixedList(u32, InterfaceType),
    Future(u32, u32),
    Stream(u32, u32),
}

/// A type with members: its kind, the names by which members pair up, and the types of those that have one.
#[derive(Drop)]
pub struct Node {
    pub kind: NodeKind,
    pub names: Seq<Text>,
    pub types: Seq<Option<InterfaceType>>,
}

/// The members of a live type, or `None` where it has none.
pub fn node_of_type(
    alloc: Global,
    types: &ComponentTypes,
    ty: &InterfaceType,
) -> Result<Option<Node>, OutOfMemory>
    requires { IsLive types.now ty.now }
    ensures { IfOk result (λ o. IsNodeOf types.now ty.now o) }
{
    match *ty {
        InterfaceType::Record(i) => node_of_record(alloc, types, i),
        InterfaceType::Variant(i) => node_of_variant(alloc, types, i),
        InterfaceType::List(i) => node_of_list(alloc, types, i),
        InterfaceType::Tuple(i) => node_of_tuple(alloc, types, i),
        InterfaceType::Map(i) => node_of_map(alloc, types, i),
        InterfaceType::Flags(i) => node_of_flags(alloc, types, i),
        InterfaceType::Enum(i) => node_of_enum(alloc, types, i),
        InterfaceType::Option(i) => node_of_option(alloc, types, i),
        InterfaceType::Result(i) => node_of_result(alloc, types, i),
        InterfaceType::FixedLengthList(i) => node_of_fixed_length_list(alloc, types, i),
        InterfaceType::Future(i) => node_of_future(alloc, types, i),
        InterfaceType::Stream(i) => node_of_stream(alloc, types, i),
        _ => Ok(None),
    }
}

fn node_of_record(
    alloc: Global,
    types: &ComponentTypes,
    i: TypeRecordIndex,
) -> Result<Option<Node>, OutOfMemory>
    requires { IsLive types.now (a_type.Record i) }
    ensures { IfOk result (λ o. IsNodeOf types.now (a_type.Record i) o) }
{
    types.reveal();
    let fields = types[i].fields.as_slice();
    Ok(Some(Node {
        kind: NodeKind::Record,
        names: names_of_fields(alloc, fields)?,
        types: types_of_fields(alloc, fields)?,
    }))
}

fn node_of_variant(
    alloc: Global,
    types: &ComponentTypes,
    i: TypeVariantIndex,
) -> Result<Option<Node>, OutOfMemory>
    requires { IsLive types.now (a_type.Variant i) }
    ensures { IfOk result (λ o. IsNodeOf types.now (a_type.Variant i) o) }
{
    types.reveal();
    let cases = &types[i].cases;
    Ok(Some(Node {
        kind: NodeKind::Variant,
        names: names_of_cases(alloc, cases)?,
        types: types_of_cases(alloc, cases)?,
    }))
}

fn node_of_list(
    alloc: Global,
    types: &ComponentTypes,
    i: TypeListIndex,
) -> Result<Option<Node>, OutOfMemory>
    requires { IsLive types.now (a_type.List i) }
    ensures { IfOk result (λ o. IsNodeOf types.now (a_type.List i) o) }
{
    types.reveal();
    let list = &types[i];
    let node = unnamed(alloc, NodeKind::List(list.element), &[Some(list.element)])?;
    Ok(Some(node))
}

fn node_of_tuple(
    alloc: Global,
    types: &ComponentTypes,
    i: TypeTupleIndex,
) -> Result<Option<Node>, OutOfMemory>
    requires { IsLive types.now (a_type.Tuple i) }
    ensures { IfOk result (λ o. IsNodeOf types.now (a_type.Tuple i) o) }
{
    types.reveal();
    Ok(Some(Node {
        kind: NodeKind::Tuple,
        names: Seq::new(alloc),
        types: all_typed(alloc, types[i].types.as_slice())?,
    }))
}

fn node_of_map(
    alloc: Global,
    types: &ComponentTypes,
    i: TypeMapIndex,
) -> Result<Option<Node>, OutOfMemory>
    requires { IsLive types.now (a_type.Map i) }
    ensures { IfOk result (λ o. IsNodeOf types.now (a_type.Map i) o) }
{
    types.reveal();
    let map = &types[i];
    let kind = NodeKind::Map(map.key, map.value);
    let node = unnamed(alloc, kind, &[Some(map.key), Some(map.value)])?;
    Ok(Some(node))
}

fn node_of_flags(
    alloc: Global,
    types: &ComponentTypes,
    i: TypeFlagsIndex,
) -> Result<Option<Node>, OutOfMemory>
    requires { IsLive types.now (a_type.Flags i) }
    ensures { IfOk result (λ o. IsNodeOf types.now (a_type.Flags i) o) }
{
    types.reveal();
    Ok(Some(Node {
        kind: NodeKind::Flags,
        names: copied_names(alloc, &types[i].names)?,
        types: Seq::new(alloc),
    }))
}

fn node_of_enum(
    alloc: Global,
    types: &ComponentTypes,
    i: TypeEnumIndex,
) -> Result<Option<Node>, OutOfMemory>
    requires { IsLive types.now (a_type.Enum i) }
    ensures { IfOk result (λ o. IsNodeOf types.now (a_type.Enum i) o) }
{
    types.reveal();
    let names = copied_names(alloc, &types[i].names)?;
    Ok(Some(Node {
        kind: NodeKind::Enum,
        types: none_typed(alloc, names.as_slice())?,
        names,
    }))
}

fn node_of_option(
    alloc: Global,
    types: &ComponentTypes,
    i: TypeOptionIndex,
) -> Result<Option<Node>, OutOfMemory>
    requires { IsLive types.now (a_type.Option i) }
    ensures { IfOk result (λ o. IsNodeOf types.now (a_type.Option i) o) }
{
    types.reveal();
    let payloads = [None, Some(types[i].ty)];
    let node = two_cases(alloc, NodeKind::Option, "none", "some", &payloads)?;
    Ok(Some(node))
}

fn node_of_result(
    alloc: Global,
    types: &ComponentTypes,
    i: TypeResultIndex,
) -> Result<Option<Node>, OutOfMemory>
    requires { IsLive types.now (a_type.Result i) }
    ensures { IfOk result (λ o. IsNodeOf types.now (a_type.Result i) o) }
{
    types.reveal();
    let cases = &types[i];
    let payloads = [cases.ok, cases.err];
    let node = two_cases(alloc, NodeKind::Result, "ok", "error", &payloads)?;
    Ok(Some(node))
}

fn node_of_fixed_length_list(
    alloc: Global,
    types: &ComponentTypes,
    i: TypeFixedLengthListIndex,
) -> Result<Option<Node>, OutOfMemory>
    requires { IsLive types.now (a_type.FixedLengthList i) }
    ensures { IfOk result (λ o. IsNodeOf types.now (a_type.FixedLengthList i) o) }
{
    types.reveal();
    let list = &types[i];
    let kind = NodeKind::FixedList(list.size, list.element);
    let node = unnamed(alloc, kind, &[Some(list.element)])?;
    Ok(Some(node))
}

fn node_of_future(
    alloc: Global,
    types: &ComponentTypes,
    i: TypeFutureTableIndex,
) -> Result<Option<Node>, OutOfMemory>
    requires { IsLive types.now (a_type.Future i) }
    ensures { IfOk result (λ o. IsNodeOf types.now (a_type.Future i) o) }
{
    types.reveal();
    let kind = NodeKind::Future(i.as_u32(), types[i].instance.as_u32());
    let node = unnamed(alloc, kind, &[])?;
    Ok(Some(node))
}

fn node_of_stream(
    alloc: Global,
    types: &ComponentTypes,
    i: TypeStreamTableIndex,
) -> Result<Option<Node>, OutOfMemory>
    requires { IsLive types.now (a_type.Stream i) }
    ensures { IfOk result (λ o. IsNodeOf types.now (a_type.Stream i) o) }
{
    types.reveal();
    let kind = NodeKind::Stream(i.as_u32(), types[i].instance.as_u32());
    let node = unnamed(alloc, kind, &[])?;
    Ok(Some(node))
}

// A type whose members pair up by place.
fn unnamed(
    alloc: Global,
    kind: NodeKind,
    types: &[Option<InterfaceType>],
) -> Result<Node, OutOfMemory>
    ensures { IfOk result (λ x. x ≡ record { kind = kind; names = []; types = types.now }) }
{
    let mut copies = Vec::new(alloc);
    copies.extend_from_slice(types)?;
    Ok(Node {
        kind,
        names: Seq::new(alloc),
        types: Seq::from_vec(copies),
    })
}

// A type of two cases.
fn two_cases(
    alloc: Global,
    kind: NodeKind,
    first: &str,
    second: &str,
    payloads: &[Option<InterfaceType>],
) -> Result<Node, OutOfMemory>
    ensures { IfOk result (λ x. x ≡ record { kind = kind; names = first.now ∷ second.now ∷ []; types = payloads.now }) }
{
    let mut names = Seq::new(alloc);
    names.push(Text::from_str(alloc, first)?)?;
    names.push(Text::from_str(alloc, second)?)?;
    let mut types = Vec::new(alloc);
    types.extend_from_slice(payloads)?;
    Ok(Node {
        kind,
        names,
        types: Seq::from_vec(types),
    })
}

fn names_of_fields(alloc: Global, fields: &[RecordField]) -> Result<Seq<Text>, OutOfMemory>
    ensures { IfOk result (λ names. names ≡ field_names_of fields.now) }
{
    let mut names = Seq::new(alloc);
    for field in fields {
        names.push(field.name.try_clone()?)?;
    }
    Ok(names)
}

fn types_of_fields(
    alloc: Global,
    fields: &[RecordField],
) -> Result<Seq<Option<InterfaceType>>, OutOfMemory>
    ensures { IfOk result (λ types. types ≡ field_types fields.now) }
{
    let mut types = Seq::new(alloc);
    for field in fields {
        types.push(Some(field.ty))?;
    }
    Ok(types)
}

fn names_of_cases(
    alloc: Global,
    cases: &IndexMap<Text, Option<InterfaceType>>,
) -> Result<Seq<Text>, OutOfMemory>
    ensures { IfOk result (λ names. names ≡ map (λ c. c.0) cases.now.entries) }
{
    let mut names = Seq::new(alloc);
    for (name, _payload) in cases.iter() {
        names.push(name.try_clone()?)?;
    }
    Ok(names)
}

fn types_of_cases(
    alloc: Global,
    cases: &IndexMap<Text, Option<InterfaceType>>,
) -> Result<Seq<Option<InterfaceType>>, OutOfMemory>
    ensures { IfOk result (λ types. types ≡ map (λ c. c.1) cases.now.entries) }
{
    let mut types = Seq::new(alloc);
    for (_name, payload) in cases.iter() {
        types.push(*payload)?;
    }
    Ok(types)
}

fn all_typed(
    alloc: Global,
    types: &[InterfaceType],
) -> Result<Seq<Option<InterfaceType>>, OutOfMemory>
    ensures { IfOk result (λ all. all ≡ map (λ ty. Some ty) types.now) }
{
    let mut all = Seq::new(alloc);
    for ty in types {
        all.push(Some(*ty))?;
    }
    Ok(all)
}

fn none_typed(alloc: Global, names: &[Text]) -> Result<Seq<Option<InterfaceType>>, OutOfMemory>
    ensures { IfOk result (λ all. all ≡ map (λ n. None) names.now) }
{
    let mut all = Seq::new(alloc);
    for _name in names {
        all.push(None)?;
    }
    Ok(all)
}

fn copied_names(alloc: Global, names: &IndexSet<Text>) -> Result<Seq<Text>, OutOfMemory>
    ensures { IfOk result (λ copies. copies ≡ names.now.keys) }
{
    let mut copies = Seq::new(alloc);
    for name in names.iter() {
        copies.push(name.try_clone()?)?;
    }
    Ok(copies)
}
