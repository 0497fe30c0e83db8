//! Why a plan is refused at a type or at a function.

use crate::members::{Member, members_of, of_fields, of_types};
use crate::names::{entry_text, func_text, names_of_types};
use crate::texts::{push_reason, shortened};
use fact_plan::{FusePlan, PlanRef};
use fact_plan_types::FuseError;
use fact_wasm::OutOfMemory;
use std::alloc::Global;

/// The first place among members that is none of the first entries, so many.
fn unknown_in(members: &[Member<'_>], count: usize) -> Option<u32> {
    for member in members {
        if let Some(PlanRef::Entry(k)) = member.ty {
            if count <= k as usize {
                return Some(k);
            }
        }
    }
    None
}

/// What a type has to be like that has a fault, or a function that has one.
fn wanted(is_type: bool, error: &FuseError) -> &'static str {
    match (is_type, error) {
        (true, FuseError::UnknownIndex(_)) => "a table, or an instance, that is there",
        (true, FuseError::BadType(_)) => {
            "at least one member, names that differ, at most 32 flags, and a length above 0"
        }
        (true, _) => "at most 4096 cases, 100 types within one another, and 4294967295 bytes",
        (false, FuseError::BadType(_)) => {
            "names of parameters that differ, and no borrow in a result"
        }
        (false, _) => "at most 4294967295 bytes for all parameters, and for all results",
    }
}

/// Appends why an entry is refused: a type that names one that is not before it, or a function that names one that is not there; or another rule.
fn push_entry(
    alloc: Global,
    text: &mut String,
    path: &str,
    is_type: bool,
    unknown: Option<u32>,
    whole: &str,
    error: &FuseError,
) -> Result<(), OutOfMemory> {
    if let (FuseError::UnknownIndex(_), Some(k)) = (error, unknown) {
        let found = format!(in alloc; "{k}")?;
        let wanted = if is_type {
            "the place of an entry of types before it"
        } else {
            "the place of an entry of types"
        };
        return push_reason(alloc, text, path, wanted, found.as_str());
    }
    let found = shortened(alloc, whole)?;
    push_reason(alloc, text, path, wanted(is_type, error), found.as_str())
}

/// Appends why the entry of types at a place is refused.
pub(crate) fn push_type_reasons(
    alloc: Global,
    text: &mut String,
    plan: &FusePlan,
    k: u32,
    error: &FuseError,
) -> Result<(), OutOfMemory> {
    let Some(entry) = plan.types.get(k as usize) else {
        return Ok(());
    };
    let names = names_of_types(alloc, plan)?;
    let members = members_of(alloc, entry)?;
    let unknown = unknown_in(members.as_slice(), k as usize);
    let whole = entry_text(alloc, names.as_slice(), entry)?;
    let path = format!(in alloc; "plan.types.{k}")?;
    push_entry(
        alloc,
        text,
        path.as_str(),
        true,
        unknown,
        whole.as_str(),
        error,
    )
}

/// Appends why the function at a place is refused.
pub(crate) fn push_func_reasons(
    alloc: Global,
    text: &mut String,
    plan: &FusePlan,
    k: u32,
    error: &FuseError,
) -> Result<(), OutOfMemory> {
    let Some(func) = plan.funcs.get(k as usize) else {
        return Ok(());
    };
    let names = names_of_types(alloc, plan)?;
    let params = of_fields(alloc, func.params.as_slice())?;
    let results = of_types(alloc, func.results.as_slice())?;
    let count = plan.types.len();
    let unknown = unknown_in(params.as_slice(), count).or(unknown_in(results.as_slice(), count));
    let whole = func_text(alloc, names.as_slice(), func)?;
    let path = format!(in alloc; "plan.funcs.{k}")?;
    push_entry(
        alloc,
        text,
        path.as_str(),
        false,
        unknown,
        whole.as_str(),
        error,
    )
}
