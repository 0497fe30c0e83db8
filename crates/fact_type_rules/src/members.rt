//! The types of the members of a type.

ghost use Rattle.std.specs.Prelude.{◌≡◌, ◌∷◌, [], IfOk, map};
ghost use Rattle.fact_types.specs.Layout.{payloads};
ghost use Rattle.fact_types.specs.Tables.{IsLive, node_of};
ghost use Rattle.indexmap.specs.IndexMap.{values};
ghost use Rattle.fact_type_rules.specs.Walk.{types_of_node};

use fact_types::{ComponentTypes, InterfaceType, RecordField};
use fact_wasm::{OutOfMemory, Text};
use indexmap::IndexMap;
use std::alloc::Global;

/// The types of the members of a live type, and its payload, in order.
pub(crate) fn members_of(
    alloc: Global,
    types: &ComponentTypes,
    ty: &InterfaceType,
) -> Result<Vec<InterfaceType>, OutOfMemory>
    requires { IsLive types.now ty.now }
    ensures { IfOk result (λ members. members.items ≡ types_of_node (node_of types.now ty.now)) }
{
    types.reveal();
    match *ty {
        InterfaceType::Record(i) => types_of_fields(alloc, types[i].fields.as_slice()),
        InterfaceType::Variant(i) => payloads_of(alloc, &types[i].cases),
        InterfaceType::Tuple(i) => Vec::from_slice(alloc, types[i].types.as_slice()),
        InterfaceType::List(i) => those_of(alloc, Some(types[i].element), None),
        InterfaceType::Map(i) => those_of(alloc, Some(types[i].key), Some(types[i].value)),
        InterfaceType::Option(i) => those_of(alloc, None, Some(types[i].ty)),
        InterfaceType::Result(i) => those_of(alloc, types[i].ok, types[i].err),
        InterfaceType::FixedLengthList(i) => those_of(alloc, Some(types[i].element), None),
        InterfaceType::Future(i) => those_of(alloc, types[types[i].ty].payload, None),
        InterfaceType::Stream(i) => those_of(alloc, types[types[i].ty].payload, None),
        _ => Ok(Vec::new(alloc)),
    }
}

/// The types of fields, in order.
fn types_of_fields(alloc: Global, fields: &[RecordField]) -> Result<Vec<InterfaceType>, OutOfMemory>
    ensures { IfOk result (λ types. types.items ≡ map (λ f. f.ty) fields.now) }
{
    let mut types = Vec::new(alloc);
    for field in fields {
        types.push(field.ty)?;
    }
    Ok(types)
}

/// The payloads of cases, in order.
fn payloads_of(
    alloc: Global,
    cases: &IndexMap<Text, Option<InterfaceType>>,
) -> Result<Vec<InterfaceType>, OutOfMemory>
    ensures { IfOk result (λ types. types.items ≡ payloads (values cases.now)) }
{
    let mut types = Vec::new(alloc);
    for payload in cases.values().as_slice() {
        if let Some(ty) = payload {
            types.push(*ty)?;
        }
    }
    Ok(types)
}

/// Those of two types that are there.
fn those_of(
    alloc: Global,
    first: Option<InterfaceType>,
    second: Option<InterfaceType>,
) -> Result<Vec<InterfaceType>, OutOfMemory>
    ensures { IfOk result (λ types. types.items ≡ payloads (first ∷ second ∷ [])) }
{
    match (first, second) {
        (None, None) => Ok(Vec::new(alloc)),
        (Some(one), None) => Ok(vec![in alloc; one]?),
        (None, Some(one)) => Ok(vec![in alloc; one]?),
        (Some(one), Some(other)) => Ok(vec![in alloc; one, other]?),
    }
}
