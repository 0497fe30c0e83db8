//! Tuples and records.

ghost use Rattle.std.specs.Prelude.{◌≡◌, map, All, Some};
ghost use Rattle.fact_types.specs.Shapes.{k_record, k_tuple};
ghost use Rattle.fact_types.specs.Tables.{IsLive, placed};
ghost use Rattle.fact_builder.specs.Makes.{Makes};

use crate::ComponentTypesBuilder;
use crate::layouts::{layouts_of_fields, layouts_of_types};
use fact_entity::PushError;
use fact_types::{CanonicalAbiInfo, InterfaceType, RecordField, TypeRecord, TypeTuple};
use fact_wasm::Seq;
use std::alloc::Global;

/// The tuple of live types.
pub fn make_tuple(
    alloc: Global,
    builder: &mut ComponentTypesBuilder,
    types: Seq<InterfaceType>,
) -> Result<InterfaceType, PushError>
    requires { All (IsLive builder.old.tables) types }
    ensures { Makes builder.old builder.new k_tuple (placed 0 types) result }
{
    builder.reveal();
    let layouts = layouts_of_types(alloc, builder, types.as_slice())?;
    if !CanonicalAbiInfo::record_fits(layouts.as_slice()) {
        return Err(PushError::TooLarge);
    }
    let abi = CanonicalAbiInfo::record(layouts.as_slice());
    let index = builder.add_tuple_type(TypeTuple { types, abi })?;
    Ok(InterfaceType::Tuple(index))
}

/// The record of fields of live types.
pub fn make_record(
    alloc: Global,
    builder: &mut ComponentTypesBuilder,
    fields: Seq<RecordField>,
) -> Result<InterfaceType, PushError>
    requires { All (λ f. IsLive builder.old.tables f.ty) fields }
    ensures { Makes builder.old builder.new k_record (map (λ f. (f.name, Some f.ty)) fields) result }
{
    builder.reveal();
    let layouts = layouts_of_fields(alloc, builder, fields.as_slice())?;
    if !CanonicalAbiInfo::record_fits(layouts.as_slice()) {
        return Err(PushError::TooLarge);
    }
    let abi = CanonicalAbiInfo::record(layouts.as_slice());
    let index = builder.add_record_type(TypeRecord { fields, abi })?;
    Ok(InterfaceType::Record(index))
}
