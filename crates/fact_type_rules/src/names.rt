//! Names of fields that stand at two places.

ghost use Rattle.std.specs.Prelude.{◌≡◌, ◌↔◌, IfOk, IsTrue, map};
ghost use Rattle.fact_plan_types.specs.TypeRules.{IsRepeated};

use fact_plan_types::is_repeated;
use fact_types::RecordField;
use fact_wasm::OutOfMemory;
use std::alloc::Global;

/// The names of fields, in order.
fn names_of_fields(alloc: Global, fields: &[RecordField]) -> Result<Vec<&str>, OutOfMemory>
    ensures { IfOk result (λ names. map (λ n. n.now) names.items ≡ map (λ f. f.name) fields.now) }
{
    let mut names = Vec::new(alloc);
    for field in fields {
        names.push(field.name.as_str())?;
    }
    Ok(names)
}

/// Whether two of some fields have one name.
pub(crate) fn have_repeated_names(
    alloc: Global,
    fields: &[RecordField],
) -> Result<bool, OutOfMemory>
    ensures { IfOk result (λ found. IsTrue found ↔ IsRepeated (map (λ f. f.name) fields.now)) }
{
    let names = names_of_fields(alloc, fields)?;
    is_repeated(alloc, names.as_slice())
}
