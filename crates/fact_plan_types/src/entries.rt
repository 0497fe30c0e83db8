//! The types of entries of a plan, added to a builder.

ghost use Rattle.fact_plan.specs.declared.plan.PlanType.TheVariants as entry;
ghost use Rattle.fact_plan_types.specs.Adding.{AddsEntry, IsReady};

use crate::handles::{add_error_context, add_future, add_stream};
use crate::members::{cases_of, fields_of, payload_of, set_of_names, type_of, types_of};
use fact_builder::{
    ComponentTypesBuilder, make_enum, make_fixed_length_list, make_flags, make_list, make_map,
    make_option, make_record, make_result, make_tuple, make_variant,
};
use fact_entity::{EntityRef, PushError};
use fact_plan::{PlanRef, PlanType};
use fact_types::{InterfaceType, TypeResourceTableIndex};
use fact_wasm::{Seq, Text};
use std::alloc::Global;

/// Adds the type of an entry that breaks no rule for what it says itself. The types of the entries before are given.
pub(crate) fn add_entry(
    alloc: Global,
    builder: &mut ComponentTypesBuilder,
    types: &[InterfaceType],
    entry: &PlanType,
) -> Result<InterfaceType, PushError>
    requires { IsReady builder.old.tables types.now entry.now }
    ensures { AddsEntry builder.old builder.new types.now entry.now result }
{
    match entry {
        PlanType::Record(fields) => add_record(alloc, builder, types, fields.as_slice()),
        PlanType::Variant(cases) => add_variant(alloc, builder, types, cases.as_slice()),
        PlanType::Tuple(members) => add_tuple(alloc, builder, types, members.as_slice()),
        PlanType::List(ty) => add_list(builder, types, *ty),
        PlanType::Option(ty) => add_option(builder, types, *ty),
        PlanType::Map(key, value) => add_map(builder, types, *key, *value),
        PlanType::Result(ok, err) => add_result(builder, types, *ok, *err),
        PlanType::Flags(names) => add_flags(alloc, builder, types, names.as_slice()),
        PlanType::Enum(names) => add_enum(alloc, builder, types, names.as_slice()),
        PlanType::FixedList(ty, count) => add_fixed_list(builder, types, *ty, *count),
        PlanType::Own(table) => Ok(InterfaceType::Own(TypeResourceTableIndex::from_u32(*table))),
        PlanType::Borrow(table) => Ok(InterfaceType::Borrow(TypeResourceTableIndex::from_u32(
            *table,
        ))),
        PlanType::Future(payload, instance) => add_future(builder, types, *payload, *instance),
        PlanType::Stream(payload, instance) => add_stream(builder, types, *payload, *instance),
        PlanType::ErrorContext(instance) => add_error_context(builder, types, *instance),
    }
}

fn add_record(
    alloc: Global,
    builder: &mut ComponentTypesBuilder,
    types: &[InterfaceType],
    fields: &[(Text, PlanRef)],
) -> Result<InterfaceType, PushError>
    requires { IsReady builder.old.tables types.now (entry.Record fields.now) }
    ensures { AddsEntry builder.old builder.new types.now (entry.Record fields.now) result }
{
    let fields = fields_of(alloc, types, fields)?;
    make_record(alloc, builder, fields)
}

fn add_variant(
    alloc: Global,
    builder: &mut ComponentTypesBuilder,
    types: &[InterfaceType],
    cases: &[(Text, Option<PlanRef>)],
) -> Result<InterfaceType, PushError>
    requires { IsReady builder.old.tables types.now (entry.Variant cases.now) }
    ensures { AddsEntry builder.old builder.new types.now (entry.Variant cases.now) result }
{
    let cases = cases_of(alloc, types, cases)?;
    make_variant(alloc, builder, cases)
}

fn add_tuple(
    alloc: Global,
    builder: &mut ComponentTypesBuilder,
    types: &[InterfaceType],
    members: &[PlanRef],
) -> Result<InterfaceType, PushError>
    requires { IsReady builder.old.tables types.now (entry.Tuple members.now) }
    ensures { AddsEntry builder.old builder.new types.now (entry.Tuple members.now) result }
{
    let members = types_of(alloc, types, members)?;
    let tuple = make_tuple(alloc, builder, Seq::from_vec(members))?;
    builder.reveal();
    Ok(tuple)
}

fn add_list(
    builder: &mut ComponentTypesBuilder,
    types: &[InterfaceType],
    element: PlanRef,
) -> Result<InterfaceType, PushError>
    requires { IsReady builder.old.tables types.now (entry.List element) }
    ensures { AddsEntry builder.old builder.new types.now (entry.List element) result }
{
    make_list(builder, type_of(types, element))
}

fn add_option(
    builder: &mut ComponentTypesBuilder,
    types: &[InterfaceType],
    ty: PlanRef,
) -> Result<InterfaceType, PushError>
    requires { IsReady builder.old.tables types.now (entry.Option ty) }
    ensures { AddsEntry builder.old builder.new types.now (entry.Option ty) result }
{
    make_option(builder, type_of(types, ty))
}

fn add_map(
    builder: &mut ComponentTypesBuilder,
    types: &[InterfaceType],
    key: PlanRef,
    value: PlanRef,
) -> Result<InterfaceType, PushError>
    requires { IsReady builder.old.tables types.now (entry.Map key value) }
    ensures { AddsEntry builder.old builder.new types.now (entry.Map key value) result }
{
    make_map(builder, type_of(types, key), type_of(types, value))
}

fn add_result(
    builder: &mut ComponentTypesBuilder,
    types: &[InterfaceType],
    ok: Option<PlanRef>,
    err: Option<PlanRef>,
) -> Result<InterfaceType, PushError>
    requires { IsReady builder.old.tables types.now (entry.Result ok err) }
    ensures { AddsEntry builder.old builder.new types.now (entry.Result ok err) result }
{
    make_result(builder, payload_of(types, ok), payload_of(types, err))
}

fn add_flags(
    alloc: Global,
    builder: &mut ComponentTypesBuilder,
    types: &[InterfaceType],
    names: &[Text],
) -> Result<InterfaceType, PushError>
    requires { IsReady builder.old.tables types.now (entry.Flags names.now) }
    ensures { AddsEntry builder.old builder.new types.now (entry.Flags names.now) result }
{
    let names = set_of_names(alloc, names)?;
    make_flags(builder, names)
}

fn add_enum(
    alloc: Global,
    builder: &mut ComponentTypesBuilder,
    types: &[InterfaceType],
    names: &[Text],
) -> Result<InterfaceType, PushError>
    requires { IsReady builder.old.tables types.now (entry.Enum names.now) }
    ensures { AddsEntry builder.old builder.new types.now (entry.Enum names.now) result }
{
    let names = set_of_names(alloc, names)?;
    make_enum(builder, names)
}

fn add_fixed_list(
    builder: &mut ComponentTypesBuilder,
    types: &[InterfaceType],
    element: PlanRef,
    count: u32,
) -> Result<InterfaceType, PushError>
    requires { IsReady builder.old.tables types.now (entry.FixedList element count) }
    ensures { AddsEntry builder.old builder.new types.now (entry.FixedList element count) result }
{
    make_fixed_length_list(builder, type_of(types, element), count)
}
