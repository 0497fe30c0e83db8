//! The rules for an entry of a plan's types, by what it says itself.

ghost use Rattle.std.specs.Prelude.{◌≡◌, ◌↔◌, ◌≤◌, ◌<◌, ◌⊎◌, ◌++◌, Any, IsTrue, IsSomeAnd, IfOk, OnOk, length, map, slice_get};
ghost use Rattle.std.specs.List.{flat_map};
ghost use Rattle.fact_plan_types.specs.PlanTypes.{told};
ghost use Rattle.fact_plan_types.specs.BrokenRules.{Breaks, FuncBreaks, fault_of};
ghost use Rattle.fact_plan_types.specs.TypeRules.{IsBadFunc, IsBadType, IsLongEntry, IsLongFunc, NamesNoType, NamesUnknown, HasManyCases, HasManyFlags, IsEmpty, IsErrorContext, IsFrom, IsRepeated, LacksTable, instance_in, list_length, most_entries, names_in, optional, param_types, table_in, types_in};

use crate::error::{FuseError, Place};
use crate::names::{has_repeated_names, has_repeated_params};
use fact_plan::{FusePlan, PlanFunc, PlanRef, PlanType, PrimitiveValType};
use fact_wasm::{OutOfMemory, Text};
use indexmap::IndexSet;
use std::alloc::Global;

/// The most entries of a list of a plan, of a type or of a function, and the most resource tables.
pub const MOST_ENTRIES: usize = 268_435_456;

/// The most flags of a type.
pub const MOST_FLAGS: usize = 32;

/// The most cases of a variant.
pub const MOST_CASES: usize = 4096;

/// The types of the members of an entry, and its payload.
pub(crate) fn types_in(alloc: Global, entry: &PlanType) -> Result<Vec<PlanRef>, OutOfMemory>
    ensures { IfOk result (λ types. types.items ≡ types_in entry.now) }
{
    match entry {
        PlanType::Record(fields) => types_of_fields(alloc, fields.as_slice()),
        PlanType::Variant(cases) => types_of_cases(alloc, cases.as_slice()),
        PlanType::Tuple(types) => Vec::from_slice(alloc, types.as_slice()),
        PlanType::List(ty) | PlanType::Option(ty) | PlanType::FixedList(ty, _) => {
            both_of(alloc, Some(*ty), None)
        }
        PlanType::Map(key, value) => both_of(alloc, Some(*key), Some(*value)),
        PlanType::Result(ok, err) => both_of(alloc, *ok, *err),
        PlanType::Future(payload, _) | PlanType::Stream(payload, _) => {
            both_of(alloc, *payload, None)
        }
        PlanType::Flags(_)
        | PlanType::Enum(_)
        | PlanType::Own(_)
        | PlanType::Borrow(_)
        | PlanType::ErrorContext(_) => Ok(Vec::new(alloc)),
    }
}

/// The types of fields, in order.
pub(crate) fn types_of_fields(
    alloc: Global,
    fields: &[(Text, PlanRef)],
) -> Result<Vec<PlanRef>, OutOfMemory>
    ensures { IfOk result (λ types. types.items ≡ map (λ f. f.1) fields.now) }
{
    let mut types = Vec::new(alloc);
    for (_, ty) in fields {
        types.push(*ty)?;
    }
    Ok(types)
}

/// The payloads of cases, in order.
fn types_of_cases(
    alloc: Global,
    cases: &[(Text, Option<PlanRef>)],
) -> Result<Vec<PlanRef>, OutOfMemory>
    ensures { IfOk result (λ types. types.items ≡ flat_map (λ c. optional c.1) cases.now) }
{
    let mut types = Vec::new(alloc);
    for (_, payload) in cases {
        push_any(&mut types, *payload)?;
    }
    Ok(types)
}

/// Appends a type that may be there.
fn push_any(types: &mut Vec<PlanRef>, ty: Option<PlanRef>) -> Result<(), OutOfMemory>
    ensures { OnOk result (types.new.items ≡ types.old.items ++ optional ty) }
{
    if let Some(ty) = ty {
        types.push(ty)?;
    }
    Ok(())
}

/// Those that are there.
fn both_of(
    alloc: Global,
    first: Option<PlanRef>,
    second: Option<PlanRef>,
) -> Result<Vec<PlanRef>, OutOfMemory>
    ensures { IfOk result (λ types. types.items ≡ optional first ++ optional second) }
{
    match (first, second) {
        (None, None) => Ok(Vec::new(alloc)),
        (Some(one), None) => Ok(vec![in alloc; one]?),
        (None, Some(one)) => Ok(vec![in alloc; one]?),
        (Some(one), Some(other)) => Ok(vec![in alloc; one, other]?),
    }
}

/// Whether one of the types is an entry of a place or a later one.
pub(crate) fn is_any_from(k: usize, types: &[PlanRef]) -> bool
    ensures { IsTrue result ↔ Any (IsFrom k) types.now }
{
    types.iter().any(|ty| is_from(k, *ty))
}

fn is_from(k: usize, ty: PlanRef) -> bool
    ensures { IsTrue result ↔ IsFrom k ty }
{
    match ty {
        PlanRef::Word(_) => false,
        PlanRef::Entry(j) => k <= j as usize,
    }
}

/// Whether one of the types is the word of an error context.
pub(crate) fn is_any_error_context(types: &[PlanRef]) -> bool
    ensures { IsTrue result ↔ Any IsErrorContext types.now }
{
    types.iter().any(|ty| is_error_context(*ty))
}

fn is_error_context(ty: PlanRef) -> bool
    ensures { IsTrue result ↔ IsErrorContext ty }
{
    matches!(ty, PlanRef::Word(PrimitiveValType::ErrorContext))
}

/// Whether a plan lacks the resource table that an entry names, or its instance.
pub(crate) fn lacks_table(plan: &FusePlan, entry: &PlanType) -> bool
    ensures { IsTrue result ↔ IsSomeAnd (table_in entry.now) (LacksTable plan.now) }
{
    match entry {
        PlanType::Own(n) | PlanType::Borrow(n) => match plan.tables.get(*n as usize) {
            Some((_, instance)) => plan.instances <= *instance,
            None => true,
        },
        _ => false,
    }
}

/// Whether a plan lacks the instance that an entry names.
pub(crate) fn lacks_instance(plan: &FusePlan, entry: &PlanType) -> bool
    ensures { IsTrue result ↔ IsSomeAnd (instance_in entry.now) (λ i. plan.now.instances ≤ i) }
{
    match entry {
        PlanType::Future(_, i) | PlanType::Stream(_, i) => plan.instances <= *i,
        PlanType::ErrorContext(i) => plan.instances <= *i,
        _ => false,
    }
}

/// Whether an entry has none of the members that its kind has to have.
pub(crate) fn is_empty(entry: &PlanType) -> bool
    ensures { IsTrue result ↔ IsEmpty entry.now }
{
    match entry {
        PlanType::Record(fields) => fields.as_slice().is_empty(),
        PlanType::Variant(cases) => cases.as_slice().is_empty(),
        PlanType::Tuple(types) => types.as_slice().is_empty(),
        PlanType::Flags(names) | PlanType::Enum(names) => names.as_slice().is_empty(),
        PlanType::FixedList(_, count) => *count == 0,
        _ => false,
    }
}

/// Whether there are more flags than a type may have.
pub(crate) fn has_many_flags(entry: &PlanType) -> bool
    ensures { IsTrue result ↔ HasManyFlags entry.now }
{
    match entry {
        PlanType::Flags(names) => names.len() > MOST_FLAGS,
        _ => false,
    }
}

/// Whether there are more cases than a variant may have.
pub(crate) fn has_many_cases(entry: &PlanType) -> bool
    ensures { IsTrue result ↔ HasManyCases entry.now }
{
    match entry {
        PlanType::Variant(cases) => cases.len() > MOST_CASES,
        _ => false,
    }
}

/// The length of the list of an entry.
pub(crate) fn list_length(entry: &PlanType) -> usize
    ensures { result ≡ list_length entry.now }
{
    match entry {
        PlanType::Record(fields) => fields.len(),
        PlanType::Variant(cases) => cases.len(),
        PlanType::Tuple(types) => types.len(),
        PlanType::Flags(names) | PlanType::Enum(names) => names.len(),
        _ => 0,
    }
}

/// A rule that an entry of a plan breaks.
#[derive(Clone, Copy, Drop)]
pub(crate) enum Rule {
    UnknownIndex,
    BadType,
    TooLarge,
}

impl Rule {
    /// The refusal of a plan for breaking this rule at a place.
    pub(crate) fn broken_at(self, place: Place) -> FuseError
        ensures { told result ≡ Some (fault_of self, place) }
    {
        match self {
            Rule::UnknownIndex => FuseError::UnknownIndex(place),
            Rule::BadType => FuseError::BadType(place),
            Rule::TooLarge => FuseError::TooLarge(place),
        }
    }
}

/// Whether an entry at a place names what is not there.
fn names_unknown(plan: &FusePlan, k: usize, entry: &PlanType, types: &[PlanRef]) -> bool
    requires { types.now ≡ types_in entry.now }
    ensures { IsTrue result ↔ NamesUnknown plan.now k entry.now }
{
    is_any_from(k, types) || lacks_table(plan, entry) || lacks_instance(plan, entry)
}

/// Whether an entry is no type.
fn is_bad(alloc: Global, entry: &PlanType, types: &[PlanRef]) -> Result<bool, OutOfMemory>
    requires { types.now ≡ types_in entry.now }
    ensures { IfOk result (λ bad. IsTrue bad ↔ IsBadType entry.now) }
{
    let has_repeated = has_repeated_names(alloc, entry)?;
    Ok(is_empty(entry) || has_repeated || has_many_flags(entry) || is_any_error_context(types))
}

/// Whether an entry at a place is too large by its place, its table, its list or its cases.
fn is_long(k: usize, entry: &PlanType) -> bool
    ensures { IsTrue result ↔ IsLongEntry k entry.now }
{
    k >= MOST_ENTRIES
        || names_far_table(entry)
        || list_length(entry) > MOST_ENTRIES
        || has_many_cases(entry)
}

fn names_far_table(entry: &PlanType) -> bool
    ensures { IsTrue result ↔ IsSomeAnd (table_in entry.now) (λ n. most_entries ≤ n) }
{
    match entry {
        PlanType::Own(n) | PlanType::Borrow(n) => *n as usize >= MOST_ENTRIES,
        _ => false,
    }
}

/// The first rule that an entry at a place breaks.
pub(crate) fn broken_rule(
    alloc: Global,
    plan: &FusePlan,
    k: usize,
    entry: &PlanType,
) -> Result<Option<Rule>, OutOfMemory>
    ensures { IfOk result (λ rule. Breaks plan.now k entry.now rule) }
{
    let types = types_in(alloc, entry)?;
    if names_unknown(plan, k, entry, types.as_slice()) {
        return Ok(Some(Rule::UnknownIndex));
    }
    if is_bad(alloc, entry, types.as_slice())? {
        return Ok(Some(Rule::BadType));
    }
    if is_long(k, entry) {
        return Ok(Some(Rule::TooLarge));
    }
    Ok(None)
}

/// Whether a function names an entry of types that is not among so many.
fn names_no_type(count: usize, func: &PlanFunc, params: &[PlanRef]) -> bool
    requires { params.now ≡ param_types func.now }
    ensures { IsTrue result ↔ NamesNoType count func.now }
{
    is_any_from(count, params) || is_any_from(count, func.results.as_slice())
}

/// Whether a function is none, but for the borrows in its results.
fn is_bad_func(alloc: Global, func: &PlanFunc, params: &[PlanRef]) -> Result<bool, OutOfMemory>
    requires { params.now ≡ param_types func.now }
    ensures { IfOk result (λ bad. IsTrue bad ↔ IsBadFunc func.now) }
{
    let has_repeated = has_repeated_params(alloc, func.params.as_slice())?;
    Ok(
        has_repeated
            || is_any_error_context(params)
            || is_any_error_context(func.results.as_slice()),
    )
}

/// Whether a function has too large a place, or too long a list.
fn is_long_func(k: usize, func: &PlanFunc) -> bool
    ensures { IsTrue result ↔ IsLongFunc k func.now }
{
    k >= MOST_ENTRIES || func.params.len() > MOST_ENTRIES || func.results.len() > MOST_ENTRIES
}

/// The first rule that a function at a place breaks, but for those on the layouts and the borrows of its types.
pub(crate) fn broken_func_rule(
    alloc: Global,
    plan: &FusePlan,
    k: usize,
    func: &PlanFunc,
) -> Result<Option<Rule>, OutOfMemory>
    ensures { IfOk result (λ rule. FuncBreaks plan.now k func.now rule) }
{
    let params = types_of_fields(alloc, func.params.as_slice())?;
    if names_no_type(plan.types.len(), func, params.as_slice()) {
        return Ok(Some(Rule::UnknownIndex));
    }
    if is_bad_func(alloc, func, params.as_slice())? {
        return Ok(Some(Rule::BadType));
    }
    if is_long_func(k, func) {
        return Ok(Some(Rule::TooLarge));
    }
    Ok(None)
}
