//! Names that stand at two places.

ghost use Rattle.std.specs.Prelude.{◌≡◌, ◌↔◌, IfOk, IsTrue, map};
ghost use Rattle.fact_plan_types.specs.TypeRules.{IsRepeated, names_in};

use fact_plan::{PlanRef, PlanType};
use fact_wasm::{OutOfMemory, Text};
use indexmap::IndexSet;
use std::alloc::Global;

/// Whether a name stands at two places.
pub fn is_repeated(alloc: Global, names: &[&str]) -> Result<bool, OutOfMemory>
    ensures { IfOk result (λ found. IsTrue found ↔ IsRepeated (map (λ n. n.now) names.now)) }
{
    let mut seen = IndexSet::new(alloc);
    for name in names {
        let (_, is_new) = seen.insert_full(*name)?;
        if !is_new {
            return Ok(true);
        }
    }
    Ok(false)
}

/// The names of fields or of cases, in order.
fn names_of<'a, T>(alloc: Global, members: &'a [(Text, T)]) -> Result<Vec<&'a str>, OutOfMemory>
    ensures { IfOk result (λ names. map (λ n. n.now) names.items ≡ map (λ m. m.0) members.now) }
{
    let mut names = Vec::new(alloc);
    for (name, _) in members {
        names.push(name.as_str())?;
    }
    Ok(names)
}

/// Texts, in order.
fn names_of_texts<'a>(alloc: Global, texts: &'a [Text]) -> Result<Vec<&'a str>, OutOfMemory>
    ensures { IfOk result (λ names. map (λ n. n.now) names.items ≡ texts.now) }
{
    let mut names = Vec::new(alloc);
    for text in texts {
        names.push(text.as_str())?;
    }
    Ok(names)
}

/// Whether one of some texts stands at two places.
pub fn are_repeated(alloc: Global, texts: &[Text]) -> Result<bool, OutOfMemory>
    ensures { IfOk result (λ found. IsTrue found ↔ IsRepeated texts.now) }
{
    let names = names_of_texts(alloc, texts)?;
    is_repeated(alloc, names.as_slice())
}

/// The names of the fields, cases, flags or enum cases of an entry.
pub(crate) fn names_in<'a>(alloc: Global, entry: &'a PlanType) -> Result<Vec<&'a str>, OutOfMemory>
    ensures { IfOk result (λ names. map (λ n. n.now) names.items ≡ names_in entry.now) }
{
    match entry {
        PlanType::Record(fields) => names_of(alloc, fields.as_slice()),
        PlanType::Variant(cases) => names_of(alloc, cases.as_slice()),
        PlanType::Flags(names) => names_of_texts(alloc, names.as_slice()),
        PlanType::Enum(names) => names_of_texts(alloc, names.as_slice()),
        _ => Ok(Vec::new(alloc)),
    }
}

/// Whether a name of an entry stands at two places.
pub(crate) fn has_repeated_names(alloc: Global, entry: &PlanType) -> Result<bool, OutOfMemory>
    ensures { IfOk result (λ found. IsTrue found ↔ IsRepeated (names_in entry.now)) }
{
    let names = names_in(alloc, entry)?;
    is_repeated(alloc, names.as_slice())
}

/// Whether a name of a parameter stands at two places.
pub(crate) fn has_repeated_params(
    alloc: Global,
    params: &[(Text, PlanRef)],
) -> Result<bool, OutOfMemory>
    ensures { IfOk result (λ found. IsTrue found ↔ IsRepeated (map (λ x. x.0) params.now)) }
{
    let names = names_of(alloc, params)?;
    is_repeated(alloc, names.as_slice())
}
