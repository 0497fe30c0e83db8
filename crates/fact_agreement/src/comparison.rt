//! What is left to compare of two types, by their kinds.

ghost use Rattle.fact_types.specs.declared.interface.InterfaceType.TheVariants as ty;
ghost use Rattle.fact_types.specs.Tables.{IsLive};
ghost use Rattle.fact_agreement.specs.Left.{LeavesToTell};

use fact_entity::{
    TypeEnumIndex, TypeFixedLengthListIndex, TypeFlagsIndex, TypeListIndex, TypeMapIndex,
    TypeOptionIndex, TypeRecordIndex, TypeResultIndex, TypeTupleIndex, TypeVariantIndex,
};
use fact_types::{ComponentTypes, InterfaceType, RecordField};
use fact_wasm::Text;
use indexmap::IndexMap;

/// What is left to compare of a source type and a destination type, each time the source's first.
#[derive(Clone, Copy)]
pub(crate) enum Comparison<'a> {
    /// Nothing: they agree, or they do not.
    Decided(bool),
    /// Their fields, by name.
    Records(&'a [RecordField], &'a [RecordField]),
    /// Their cases, by name.
    Variants(&'a IndexMap<Text, Option<InterfaceType>>, &'a IndexMap<Text, Option<InterfaceType>>),
    /// Their members, by place.
    Tuples(&'a [InterfaceType], &'a [InterfaceType]),
    /// Two payloads of each, that need not be there.
    Payloads(
        (Option<InterfaceType>, Option<InterfaceType>),
        (Option<InterfaceType>, Option<InterfaceType>),
    ),
}

/// What is left to compare of two live types.
pub(crate) fn left_to_compare<'a>(
    types: &'a ComponentTypes,
    from: &InterfaceType,
    to: &InterfaceType,
) -> Comparison<'a>
    requires from_live { IsLive types.now from.now }
    requires to_live { IsLive types.now to.now }
    ensures { LeavesToTell types.now from.now to.now result }
{
    match *from {
        InterfaceType::Record(i) => of_record(types, i, to),
        InterfaceType::Variant(i) => of_variant(types, i, to),
        InterfaceType::Tuple(i) => of_tuple(types, i, to),
        InterfaceType::Flags(i) => of_flags(types, i, to),
        InterfaceType::Enum(i) => of_enum(types, i, to),
        InterfaceType::List(i) => of_list(types, i, to),
        InterfaceType::Map(i) => of_map(types, i, to),
        InterfaceType::Option(i) => of_option(types, i, to),
        InterfaceType::Result(i) => of_result(types, i, to),
        InterfaceType::FixedLengthList(i) => of_fixed_length_list(types, i, to),
        InterfaceType::Own(_) => Comparison::Decided(matches!(*to, InterfaceType::Own(_))),
        InterfaceType::Borrow(_) => Comparison::Decided(matches!(*to, InterfaceType::Borrow(_))),
        InterfaceType::Future(_) => Comparison::Decided(matches!(*to, InterfaceType::Future(_))),
        InterfaceType::Stream(_) => Comparison::Decided(matches!(*to, InterfaceType::Stream(_))),
        InterfaceType::ErrorContext(_) => {
            Comparison::Decided(matches!(*to, InterfaceType::ErrorContext(_)))
        }
        _ => Comparison::Decided(*from == *to),
    }
}

// A record and another type.
fn of_record<'a>(
    types: &'a ComponentTypes,
    i: TypeRecordIndex,
    to: &InterfaceType,
) -> Comparison<'a>
    requires from_live { IsLive types.now (ty.Record i) }
    requires to_live { IsLive types.now to.now }
    ensures { LeavesToTell types.now (ty.Record i) to.now result }
{
    types.reveal();
    match *to {
        InterfaceType::Record(j) => {
            Comparison::Records(types[i].fields.as_slice(), types[j].fields.as_slice())
        }
        _ => Comparison::Decided(false),
    }
}

// A variant and another type.
fn of_variant<'a>(
    types: &'a ComponentTypes,
    i: TypeVariantIndex,
    to: &InterfaceType,
) -> Comparison<'a>
    requires from_live { IsLive types.now (ty.Variant i) }
    requires to_live { IsLive types.now to.now }
    ensures { LeavesToTell types.now (ty.Variant i) to.now result }
{
    types.reveal();
    match *to {
        InterfaceType::Variant(j) => Comparison::Variants(&types[i].cases, &types[j].cases),
        _ => Comparison::Decided(false),
    }
}

// A tuple and another type.
fn of_tuple<'a>(types: &'a ComponentTypes, i: TypeTupleIndex, to: &InterfaceType) -> Comparison<'a>
    requires from_live { IsLive types.now (ty.Tuple i) }
    requires to_live { IsLive types.now to.now }
    ensures { LeavesToTell types.now (ty.Tuple i) to.now result }
{
    types.reveal();
    match *to {
        InterfaceType::Tuple(j) => {
            Comparison::Tuples(types[i].types.as_slice(), types[j].types.as_slice())
        }
        _ => Comparison::Decided(false),
    }
}

// Flags and another type: the order of their names is no matter.
fn of_flags<'a>(types: &'a ComponentTypes, i: TypeFlagsIndex, to: &InterfaceType) -> Comparison<'a>
    requires from_live { IsLive types.now (ty.Flags i) }
    requires to_live { IsLive types.now to.now }
    ensures { LeavesToTell types.now (ty.Flags i) to.now result }
{
    match *to {
        InterfaceType::Flags(j) => Comparison::Decided(types[i].names == types[j].names),
        _ => Comparison::Decided(false),
    }
}

// An enum and another type.
fn of_enum<'a>(types: &'a ComponentTypes, i: TypeEnumIndex, to: &InterfaceType) -> Comparison<'a>
    requires from_live { IsLive types.now (ty.Enum i) }
    requires to_live { IsLive types.now to.now }
    ensures { LeavesToTell types.now (ty.Enum i) to.now result }
{
    match *to {
        InterfaceType::Enum(j) => {
            Comparison::Decided(types[i].names.as_slice() == types[j].names.as_slice())
        }
        _ => Comparison::Decided(false),
    }
}

// A list and another type.
fn of_list<'a>(types: &'a ComponentTypes, i: TypeListIndex, to: &InterfaceType) -> Comparison<'a>
    requires from_live { IsLive types.now (ty.List i) }
    requires to_live { IsLive types.now to.now }
    ensures { LeavesToTell types.now (ty.List i) to.now result }
{
    types.reveal();
    match *to {
        InterfaceType::List(j) => Comparison::Payloads(
            (Some(types[i].element), Some(types[j].element)),
            (None, None),
        ),
        _ => Comparison::Decided(false),
    }
}

// A map and another type.
fn of_map<'a>(types: &'a ComponentTypes, i: TypeMapIndex, to: &InterfaceType) -> Comparison<'a>
    requires from_live { IsLive types.now (ty.Map i) }
    requires to_live { IsLive types.now to.now }
    ensures { LeavesToTell types.now (ty.Map i) to.now result }
{
    types.reveal();
    match *to {
        InterfaceType::Map(j) => {
            let source = &types[i];
            let destination = &types[j];
            Comparison::Payloads(
                (Some(source.key), Some(destination.key)),
                (Some(source.value), Some(destination.value)),
            )
        }
        _ => Comparison::Decided(false),
    }
}

// An option and another type.
fn of_option<'a>(
    types: &'a ComponentTypes,
    i: TypeOptionIndex,
    to: &InterfaceType,
) -> Comparison<'a>
    requires from_live { IsLive types.now (ty.Option i) }
    requires to_live { IsLive types.now to.now }
    ensures { LeavesToTell types.now (ty.Option i) to.now result }
{
    types.reveal();
    match *to {
        InterfaceType::Option(j) => {
            Comparison::Payloads((None, None), (Some(types[i].ty), Some(types[j].ty)))
        }
        _ => Comparison::Decided(false),
    }
}

// A result and another type.
fn of_result<'a>(
    types: &'a ComponentTypes,
    i: TypeResultIndex,
    to: &InterfaceType,
) -> Comparison<'a>
    requires from_live { IsLive types.now (ty.Result i) }
    requires to_live { IsLive types.now to.now }
    ensures { LeavesToTell types.now (ty.Result i) to.now result }
{
    types.reveal();
    match *to {
        InterfaceType::Result(j) => {
            let source = &types[i];
            let destination = &types[j];
            Comparison::Payloads((source.ok, destination.ok), (source.err, destination.err))
        }
        _ => Comparison::Decided(false),
    }
}

// A list of fixed length and another type.
fn of_fixed_length_list<'a>(
    types: &'a ComponentTypes,
    i: TypeFixedLengthListIndex,
    to: &InterfaceType,
) -> Comparison<'a>
    requires from_live { IsLive types.now (ty.FixedLengthList i) }
    requires to_live { IsLive types.now to.now }
    ensures { LeavesToTell types.now (ty.FixedLengthList i) to.now result }
{
    types.reveal();
    match *to {
        InterfaceType::FixedLengthList(j) => {
            let source = &types[i];
            let destination = &types[j];
            if source.size != destination.size {
                return Comparison::Decided(false);
            }
            Comparison::Payloads(
                (Some(source.element), Some(destination.element)),
                (None, None),
            )
        }
        _ => Comparison::Decided(false),
    }
}
