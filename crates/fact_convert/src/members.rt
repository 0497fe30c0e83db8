//! The members of defined types, and the types that are made of what they became.

ghost use Rattle.std.specs.Prelude.{◌≡◌, ◌<◌, ◌++◌, ◌-◌, slice_get, Some, List, Option, length, map, flat_map, option_to_list, All, IfOk, OnOk};
ghost use Rattle.std.specs.List.{AllZip};
ghost use Rattle.std.specs.Option.{option_and};
ghost use Rattle.fact_source.specs.declared.defined.ComponentDefinedType.TheVariants as defined;
ghost use Rattle.fact_source.specs.declared.defined.ComponentValType.{ComponentValType};
ghost use Rattle.fact_source.specs.SourceTables.{SourceTables};
ghost use Rattle.fact_types.specs.Tables.{IsLive, IsLiveMember};
ghost use Rattle.fact_convert.specs.Converted.{IsTypeFrom};
ghost use Rattle.fact_convert.specs.BuilderTables.{tables_of};
ghost use Rattle.fact_convert.specs.Merging.{merged};
ghost use Rattle.fact_convert.specs.Performing.{IsMemberFrom};
ghost use Rattle.fact_convert.specs.Progress.{Comes, IsMadeFrom, answer_of, fields_with, cases_with, taken_payload, left_behind};
ghost use Rattle.fact_convert.specs.Tasks.{own_tasks, member_types as member_types_of};

use crate::handles::{type_of_borrow, type_of_futures, type_of_own, type_of_streams};
use crate::names::{put, type_of_enum, type_of_flags};
use crate::values::type_of_primitive;
use fact_builder::{
    BuildError, ComponentTypesBuilder, make_fixed_length_list, make_list, make_map, make_option,
    make_record, make_result, make_tuple, make_variant,
};
use fact_entity::{OutOfMemory, PushError};
use fact_source::{ComponentDefinedType, ComponentValType};
use fact_types::{InterfaceType, RecordField};
use fact_wasm::{Seq, Text};
use indexmap::IndexMap;
use std::alloc::Global;

// Makes the type of an entry whose members became these, in order.
pub(crate) fn type_of_entry(
    builder: &mut ComponentTypesBuilder,
    entry: &ComponentDefinedType,
    members: &[InterfaceType],
) -> Result<InterfaceType, BuildError>
    requires live { All (IsLive (tables_of builder.old)) members.now }
    requires many { length members.now ≡ length (member_types_of entry.now) }
    ensures { (s : SourceTables) → AllZip (IsTypeFrom s builder.old) (member_types_of entry.now) members.now → Comes s builder.old (own_tasks entry.now) (λ c t. IsMadeFrom s c entry.now t) builder.new result }
{
    match entry {
        ComponentDefinedType::Primitive(ty) => type_of_primitive(builder, *ty),
        ComponentDefinedType::Record(fields) => type_of_record(builder, fields, members),
        ComponentDefinedType::Variant(cases) => type_of_variant(builder, cases, members),
        ComponentDefinedType::List(_) => type_of_list(builder, member_at(members, 0)),
        ComponentDefinedType::Map(..) => {
            let key = member_at(members, 0);
            let value = member_at(members, 1);
            type_of_map(builder, key, value)
        }
        ComponentDefinedType::Tuple(_) => type_of_tuple(builder, members),
        ComponentDefinedType::Flags(names) => type_of_flags(builder, names),
        ComponentDefinedType::Enum(names) => type_of_enum(builder, names),
        ComponentDefinedType::Option(_) => type_of_option(builder, member_at(members, 0)),
        ComponentDefinedType::Result { ok, err } => {
            let (ok, err) = both_payloads(*ok, *err, members);
            type_of_result(builder, ok, err)
        }
        ComponentDefinedType::Own(id) => type_of_own(builder, *id),
        ComponentDefinedType::Borrow(id) => type_of_borrow(builder, *id),
        ComponentDefinedType::Future(_) => type_of_futures(builder, first_payload(members)),
        ComponentDefinedType::Stream(_) => type_of_streams(builder, first_payload(members)),
        ComponentDefinedType::FixedLengthList(_, size) => {
            type_of_fixed_length_list(builder, member_at(members, 0), *size)
        }
    }
}

fn type_of_record(
    builder: &mut ComponentTypesBuilder,
    fields: &Seq<(Text, ComponentValType)>,
    members: &[InterfaceType],
) -> Result<InterfaceType, BuildError>
    requires live { All (IsLive (tables_of builder.old)) members.now }
    requires many { length members.now ≡ length (member_types_of (defined.Record fields.now)) }
    ensures { (s : SourceTables) → AllZip (IsTypeFrom s builder.old) (member_types_of (defined.Record fields.now)) members.now → Comes s builder.old (own_tasks (defined.Record fields.now)) (λ c t. IsMadeFrom s c (defined.Record fields.now) t) builder.new result }
{
    let record_fields = fields_of(builder.allocator(), fields.as_slice(), members)?;
    answer(make_record(builder.allocator(), builder, record_fields))
}

fn type_of_variant(
    builder: &mut ComponentTypesBuilder,
    cases: &Seq<(Text, Option<ComponentValType>)>,
    members: &[InterfaceType],
) -> Result<InterfaceType, BuildError>
    requires live { All (IsLive (tables_of builder.old)) members.now }
    requires many { length members.now ≡ length (member_types_of (defined.Variant cases.now)) }
    ensures { (s : SourceTables) → AllZip (IsTypeFrom s builder.old) (member_types_of (defined.Variant cases.now)) members.now → Comes s builder.old (own_tasks (defined.Variant cases.now)) (λ c t. IsMadeFrom s c (defined.Variant cases.now) t) builder.new result }
{
    let variant_cases = cases_of(builder.allocator(), cases.as_slice(), members)?;
    answer(make_variant(builder.allocator(), builder, variant_cases))
}

// The list of a type that was converted before, and so on.
fn type_of_list(
    builder: &mut ComponentTypesBuilder,
    element: InterfaceType,
) -> Result<InterfaceType, BuildError>
    requires { IsLive (tables_of builder.old) element }
    ensures { (s : SourceTables) (v : ComponentValType) → IsTypeFrom s builder.old v element → Comes s builder.old (own_tasks (defined.List v)) (λ c t. IsMadeFrom s c (defined.List v) t) builder.new result }
{
    answer(make_list(builder, element))
}

fn type_of_option(
    builder: &mut ComponentTypesBuilder,
    payload: InterfaceType,
) -> Result<InterfaceType, BuildError>
    requires { IsLive (tables_of builder.old) payload }
    ensures { (s : SourceTables) (v : ComponentValType) → IsTypeFrom s builder.old v payload → Comes s builder.old (own_tasks (defined.Option v)) (λ c t. IsMadeFrom s c (defined.Option v) t) builder.new result }
{
    answer(make_option(builder, payload))
}

fn type_of_fixed_length_list(
    builder: &mut ComponentTypesBuilder,
    element: InterfaceType,
    size: u32,
) -> Result<InterfaceType, BuildError>
    requires { IsLive (tables_of builder.old) element }
    ensures { (s : SourceTables) (v : ComponentValType) → IsTypeFrom s builder.old v element → Comes s builder.old (own_tasks (defined.FixedLengthList v size)) (λ c t. IsMadeFrom s c (defined.FixedLengthList v size) t) builder.new result }
{
    answer(make_fixed_length_list(builder, element, size))
}

fn type_of_map(
    builder: &mut ComponentTypesBuilder,
    key: InterfaceType,
    value: InterfaceType,
) -> Result<InterfaceType, BuildError>
    requires key { IsLive (tables_of builder.old) key }
    requires value { IsLive (tables_of builder.old) value }
    ensures { (s : SourceTables) (k v : ComponentValType) → IsTypeFrom s builder.old k key → IsTypeFrom s builder.old v value → Comes s builder.old (own_tasks (defined.Map k v)) (λ c t. IsMadeFrom s c (defined.Map k v) t) builder.new result }
{
    answer(make_map(builder, key, value))
}

fn type_of_result(
    builder: &mut ComponentTypesBuilder,
    ok: Option<InterfaceType>,
    err: Option<InterfaceType>,
) -> Result<InterfaceType, BuildError>
    requires ok { IsLiveMember (tables_of builder.old) ok }
    requires err { IsLiveMember (tables_of builder.old) err }
    ensures { (s : SourceTables) (p q : Option ComponentValType) → IsMemberFrom s builder.old p ok → IsMemberFrom s builder.old q err → Comes s builder.old (own_tasks (defined.Result p q)) (λ c t. IsMadeFrom s c (defined.Result p q) t) builder.new result }
{
    answer(make_result(builder, ok, err))
}

// The tuple of types that were converted before.
pub(crate) fn type_of_tuple(
    builder: &mut ComponentTypesBuilder,
    members: &[InterfaceType],
) -> Result<InterfaceType, BuildError>
    requires { All (IsLive (tables_of builder.old)) members.now }
    ensures { (s : SourceTables) (vs : List ComponentValType) → AllZip (IsTypeFrom s builder.old) vs members.now → Comes s builder.old (own_tasks (defined.Tuple vs)) (λ c t. IsMadeFrom s c (defined.Tuple vs) t) builder.new result }
{
    let types = members.to_vec(builder.allocator())?;
    answer(make_tuple(builder.allocator(), builder, Seq::from_vec(types)))
}

// The type at a place.
fn member_at(members: &[InterfaceType], place: usize) -> InterfaceType
    requires { place < length members.now }
    ensures { slice_get members.now place ≡ Some result }
{
    members[place]
}

// The first type, where there is one.
fn first_payload(members: &[InterfaceType]) -> Option<InterfaceType>
    ensures { result ≡ slice_get members.now 0 }
{
    members.first().copied()
}

// Of the types of two payloads the first one and the last one, each where its payload is there.
fn both_payloads(
    ok: Option<ComponentValType>,
    err: Option<ComponentValType>,
    members: &[InterfaceType],
) -> (Option<InterfaceType>, Option<InterfaceType>)
    ensures ok { result.0 ≡ option_and ok (slice_get members.now 0) }
    ensures err { result.1 ≡ option_and err (slice_get members.now (length members.now - 1)) }
{
    let ok = ok.and(members.first().copied());
    let err = err.and(members.last().copied());
    (ok, err)
}

// What the builder answered, with the reason for a refusal.
pub(crate) fn answer(made: Result<InterfaceType, PushError>) -> Result<InterfaceType, BuildError>
    ensures { result ≡ answer_of made }
{
    Ok(made?)
}

/// The types of the members of an entry, in order, those under repeated names among them.
pub(crate) fn member_types(
    alloc: Global,
    entry: &ComponentDefinedType,
) -> Result<Seq<ComponentValType>, OutOfMemory>
    ensures { IfOk result (λ tys. tys ≡ member_types_of entry.now) }
{
    match entry {
        ComponentDefinedType::Record(fields) => named_types(alloc, fields.as_slice()),
        ComponentDefinedType::Variant(cases) => payloads_of(alloc, cases.as_slice()),
        ComponentDefinedType::Tuple(members) => copied(alloc, members.as_slice()),
        ComponentDefinedType::Map(key, value) => listed(alloc, Some(*key), Some(*value)),
        ComponentDefinedType::List(ty) => listed(alloc, Some(*ty), None),
        ComponentDefinedType::Option(ty) => listed(alloc, Some(*ty), None),
        ComponentDefinedType::FixedLengthList(ty, _) => listed(alloc, Some(*ty), None),
        ComponentDefinedType::Result { ok, err } => listed(alloc, *ok, *err),
        ComponentDefinedType::Future(payload) => listed(alloc, *payload, None),
        ComponentDefinedType::Stream(payload) => listed(alloc, *payload, None),
        _ => Ok(Seq::new(alloc)),
    }
}

// The same types.
fn copied(alloc: Global, types: &[ComponentValType]) -> Result<Seq<ComponentValType>, OutOfMemory>
    ensures { IfOk result (λ tys. tys ≡ types.now) }
{
    let copies = types.to_vec(alloc)?;
    Ok(Seq::from_vec(copies))
}

// One type and then another one, where they are there.
fn listed(
    alloc: Global,
    first: Option<ComponentValType>,
    second: Option<ComponentValType>,
) -> Result<Seq<ComponentValType>, OutOfMemory>
    ensures { IfOk result (λ tys. tys ≡ option_to_list first ++ option_to_list second) }
{
    let mut types = Seq::new(alloc);
    push_payload(&mut types, first)?;
    push_payload(&mut types, second)?;
    Ok(types)
}

// Puts a type behind the others, where it is there.
fn push_payload(
    types: &mut Seq<ComponentValType>,
    payload: Option<ComponentValType>,
) -> Result<(), OutOfMemory>
    ensures { OnOk result (types.new ≡ types.old ++ option_to_list payload) }
{
    match payload {
        Some(ty) => types.push(ty),
        None => Ok(()),
    }
}

/// The types of fields or parameters.
pub(crate) fn named_types(
    alloc: Global,
    fields: &[(Text, ComponentValType)],
) -> Result<Seq<ComponentValType>, OutOfMemory>
    ensures { IfOk result (λ tys. tys ≡ map (λ f. f.1) fields.now) }
{
    let mut types = Seq::new(alloc);
    for (_, ty) in fields {
        types.push(*ty)?;
    }
    Ok(types)
}

// The payloads of cases that have one.
fn payloads_of(
    alloc: Global,
    cases: &[(Text, Option<ComponentValType>)],
) -> Result<Seq<ComponentValType>, OutOfMemory>
    ensures { IfOk result (λ tys. tys ≡ flat_map (λ x. option_to_list x.1) cases.now) }
{
    let mut types = Seq::new(alloc);
    for (_, payload) in cases {
        push_payload(&mut types, *payload)?;
    }
    Ok(types)
}

// The fields of these names, of these types.
fn fields_of(
    alloc: Global,
    fields: &[(Text, ComponentValType)],
    types: &[InterfaceType],
) -> Result<Seq<RecordField>, OutOfMemory>
    requires { length types.now ≡ length fields.now }
    ensures { IfOk result (λ made. made ≡ fields_with fields.now types.now) }
{
    let mut record_fields = Seq::new(alloc);
    for i in 0..fields.len() {
        let ty = member_at(types, i);
        let field = field_of(&fields[i], ty)?;
        record_fields.push(field)?;
    }
    Ok(record_fields)
}

// The field of a name, of this type.
fn field_of(field: &(Text, ComponentValType), ty: InterfaceType) -> Result<RecordField, OutOfMemory>
    ensures { IfOk result (λ made. made ≡ record { name = field.now.0; ty = ty }) }
{
    let name = field.0.try_clone()?;
    Ok(RecordField { name, ty })
}

// The cases of these names, with these payloads; a repeated name keeps its first place and takes the last payload.
fn cases_of(
    alloc: Global,
    cases: &[(Text, Option<ComponentValType>)],
    types: &[InterfaceType],
) -> Result<IndexMap<Text, Option<InterfaceType>>, OutOfMemory>
    ensures { IfOk result (λ made. made.entries ≡ merged (cases_with cases.now types.now)) }
{
    let mut variant_cases = IndexMap::new(alloc);
    let mut rest = types;
    for (name, payload) in cases {
        let taken = take_payload(payload, rest);
        rest = taken.1;
        put(&mut variant_cases, name, taken.0)?;
    }
    Ok(variant_cases)
}

// The first type where there is a payload, and the types that are left.
fn take_payload<'a>(
    payload: &Option<ComponentValType>,
    types: &'a [InterfaceType],
) -> (Option<InterfaceType>, &'a [InterfaceType])
    ensures taken { result.0 ≡ taken_payload payload.now types.now }
    ensures left { result.1.now ≡ left_behind payload.now types.now }
{
    match (payload, types) {
        (Some(_), [first, others @ ..]) => (Some(*first), others),
        _ => (None, types),
    }
}
