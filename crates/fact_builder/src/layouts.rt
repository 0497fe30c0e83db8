//! The layouts of members, as they stand in a builder.

ghost use Rattle.std.specs.Prelude.{◌≡◌, map, All, IfOk};
ghost use Rattle.std.specs.Option.{option_map};
ghost use Rattle.fact_types.specs.Tables.{abi_at, IsLive, IsLiveMember};

use crate::ComponentTypesBuilder;
use fact_types::{CanonicalAbiInfo, InterfaceType, OutOfMemory, RecordField};
use std::alloc::Global;

/// The layout of a payload, where there is one.
pub(crate) fn layout_of_payload(
    builder: &ComponentTypesBuilder,
    payload: Option<InterfaceType>,
) -> Option<CanonicalAbiInfo>
    requires { IsLiveMember builder.now.tables payload }
    ensures { result ≡ option_map (abi_at builder.now.tables) payload }
{
    match payload {
        Some(ty) => Some(*builder.canonical_abi(&ty)),
        None => None,
    }
}

/// The layouts of the members of a tuple.
pub(crate) fn layouts_of_types(
    alloc: Global,
    builder: &ComponentTypesBuilder,
    types: &[InterfaceType],
) -> Result<Vec<CanonicalAbiInfo>, OutOfMemory>
    requires { All (IsLive builder.now.tables) types.now }
    ensures { IfOk result (λ layouts. layouts.items ≡ map (abi_at builder.now.tables) types.now) }
{
    let mut layouts = Vec::new(alloc);
    for ty in types {
        layouts.push(*builder.canonical_abi(ty))?;
    }
    Ok(layouts)
}

/// The layouts of fields.
pub(crate) fn layouts_of_fields(
    alloc: Global,
    builder: &ComponentTypesBuilder,
    fields: &[RecordField],
) -> Result<Vec<CanonicalAbiInfo>, OutOfMemory>
    requires { All (λ f. IsLive builder.now.tables f.ty) fields.now }
    ensures { IfOk result (λ layouts. layouts.items ≡ map (λ f. abi_at builder.now.tables f.ty) fields.now) }
{
    let mut layouts = Vec::new(alloc);
    for field in fields {
        layouts.push(*builder.canonical_abi(&field.ty))?;
    }
    Ok(layouts)
}

/// The layouts of the payloads of cases.
pub(crate) fn layouts_of_payloads(
    alloc: Global,
    builder: &ComponentTypesBuilder,
    payloads: &[Option<InterfaceType>],
) -> Result<Vec<Option<CanonicalAbiInfo>>, OutOfMemory>
    requires { All (IsLiveMember builder.now.tables) payloads.now }
    ensures { IfOk result (λ layouts. layouts.items ≡ map (option_map (abi_at builder.now.tables)) payloads.now) }
{
    let mut layouts = Vec::new(alloc);
    for payload in payloads {
        layouts.push(layout_of_payload(builder, *payload))?;
    }
    Ok(layouts)
}
