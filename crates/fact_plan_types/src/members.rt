//! The types in a builder that stand for the types that entries of a plan name.

ghost use Rattle.std.specs.Prelude.{◌≡◌, List, All, AllPairs, IfOk, IfSome, length, map, Some};
ghost use Rattle.fact_types.specs.Functions.{HaveShapes};
ghost use Rattle.fact_types.specs.Shapes.{Shape};
ghost use Rattle.fact_types.specs.Tables.{Tables, IsLive, IsLiveMember, HasShape, HasMembers};
ghost use Rattle.fact_plan_types.specs.PlanShapes.{shape_of, shapes_of, payload_of, fields_of, cases_of, word_type as word_type_of};
ghost use Rattle.fact_plan_types.specs.Standing.{PayloadStands};
ghost use Rattle.fact_plan_types.specs.TypeRules.{IsFrom, IsRepeated};

use fact_plan::{PlanRef, PrimitiveValType};
use fact_types::{InterfaceType, RecordField};
use fact_wasm::{OutOfMemory, Seq, Text};
use indexmap::{IndexMap, IndexSet};
use std::alloc::Global;

/// The type of a word.
fn word_type(word: PrimitiveValType) -> InterfaceType
    ensures { result ≡ word_type_of word }
{
    match word {
        PrimitiveValType::Bool | PrimitiveValType::ErrorContext => InterfaceType::Bool,
        PrimitiveValType::S8 => InterfaceType::S8,
        PrimitiveValType::U8 => InterfaceType::U8,
        PrimitiveValType::S16 => InterfaceType::S16,
        PrimitiveValType::U16 => InterfaceType::U16,
        PrimitiveValType::S32 => InterfaceType::S32,
        PrimitiveValType::U32 => InterfaceType::U32,
        PrimitiveValType::S64 => InterfaceType::S64,
        PrimitiveValType::U64 => InterfaceType::U64,
        PrimitiveValType::Float32 => InterfaceType::Float32,
        PrimitiveValType::Float64 => InterfaceType::Float64,
        PrimitiveValType::Char => InterfaceType::Char,
        PrimitiveValType::String => InterfaceType::String,
    }
}

/// The type that stands for a word, or for one of the entries so far.
pub(crate) fn type_of(types: &[InterfaceType], ty: PlanRef) -> InterfaceType
    requires { IsFrom (length types.now) ty → ⊥ }
    ensures shaped { (t : Tables) (ss : List Shape) → HaveShapes t types.now ss → HasShape t result (shape_of ss ty) }
    ensures live { (t : Tables) → All (IsLive t) types.now → IsLive t result }
{
    match ty {
        PlanRef::Word(word) => word_type(word),
        PlanRef::Entry(k) => types[k as usize],
    }
}

/// The types that stand for several, in order.
pub(crate) fn types_of(
    alloc: Global,
    types: &[InterfaceType],
    refs: &[PlanRef],
) -> Result<Vec<InterfaceType>, OutOfMemory>
    requires { All (λ r. IsFrom (length types.now) r → ⊥) refs.now }
    ensures shaped { IfOk result (λ found. (t : Tables) (ss : List Shape) → HaveShapes t types.now ss → HaveShapes t found.items (shapes_of ss refs.now)) }
    ensures live { IfOk result (λ found. (t : Tables) → All (IsLive t) types.now → All (IsLive t) found.items) }
{
    let mut member_types = Vec::new(alloc);
    for ty in refs {
        member_types.push(type_of(types, *ty))?;
    }
    Ok(member_types)
}

/// The type that stands for a payload, where there is one.
pub(crate) fn payload_of(types: &[InterfaceType], payload: Option<PlanRef>) -> Option<InterfaceType>
    requires { IfSome payload (λ r. IsFrom (length types.now) r → ⊥) }
    ensures shaped { (t : Tables) (ss : List Shape) → HaveShapes t types.now ss → PayloadStands t result (payload_of ss payload) }
    ensures live { (t : Tables) → All (IsLive t) types.now → IsLiveMember t result }
{
    match payload {
        Some(ty) => Some(type_of(types, ty)),
        None => None,
    }
}

/// The fields of a record, in order.
pub(crate) fn fields_of(
    alloc: Global,
    types: &[InterfaceType],
    fields: &[(Text, PlanRef)],
) -> Result<Seq<RecordField>, OutOfMemory>
    requires { All (λ f. IsFrom (length types.now) f.1 → ⊥) fields.now }
    ensures shaped { IfOk result (λ found. (t : Tables) (ss : List Shape) → HaveShapes t types.now ss → HasMembers t (map (λ f. (f.name, Some f.ty)) found) (fields_of ss fields.now)) }
    ensures live { IfOk result (λ found. (t : Tables) → All (IsLive t) types.now → All (λ f. IsLive t f.ty) found) }
{
    let mut record_fields = Seq::new(alloc);
    for (name, ty) in fields {
        record_fields.push(RecordField {
            name: name.try_clone()?,
            ty: type_of(types, *ty),
        })?;
    }
    Ok(record_fields)
}

/// The cases of a variant, in order.
pub(crate) fn cases_of(
    alloc: Global,
    types: &[InterfaceType],
    cases: &[(Text, Option<PlanRef>)],
) -> Result<IndexMap<Text, Option<InterfaceType>>, OutOfMemory>
    requires known { All (λ c. IfSome c.1 (λ r. IsFrom (length types.now) r → ⊥)) cases.now }
    requires distinct { IsRepeated (map (λ c. c.0) cases.now) → ⊥ }
    ensures shaped { IfOk result (λ found. (t : Tables) (ss : List Shape) → HaveShapes t types.now ss → HasMembers t found.entries (cases_of ss cases.now)) }
    ensures live { IfOk result (λ found. (t : Tables) → All (IsLive t) types.now → All (λ c. IsLiveMember t c.1) found.entries) }
{
    let mut variant_cases = IndexMap::new(alloc);
    for (name, payload) in cases {
        variant_cases.insert(name.try_clone()?, payload_of(types, *payload))?;
    }
    Ok(variant_cases)
}

/// Names that are distinct, in order.
pub(crate) fn set_of_names(alloc: Global, names: &[Text]) -> Result<IndexSet<Text>, OutOfMemory>
    requires { IsRepeated names.now → ⊥ }
    ensures { IfOk result (λ found. found.keys ≡ names.now) }
{
    let mut distinct = IndexSet::new(alloc);
    for name in names {
        distinct.insert(name.try_clone()?)?;
    }
    Ok(distinct)
}

/// The names of parameters, in order.
pub(crate) fn names_of_params(
    alloc: Global,
    params: &[(Text, PlanRef)],
) -> Result<Seq<Text>, OutOfMemory>
    ensures { IfOk result (λ names. names ≡ map (λ x. x.0) params.now) }
{
    let mut names = Seq::new(alloc);
    for (name, _) in params {
        names.push(name.try_clone()?)?;
    }
    Ok(names)
}
