//! What is asked of the types that the head of a block makes.

use crate::agreed::{add_agree, add_agree_all};
use crate::funcs::{add_core_type, add_flattened, add_one_func, add_signature, add_tables};
use crate::json_values::{add_json, add_read};
use crate::layouts::{add_laid, add_next};
use crate::live::are_live;
use crate::types::{add_inside, add_known, add_layout, add_place, types_of};
use crate::values::{add_carried, add_lifted, add_loaded};
use crate::words::{first_of, word_of, yes_or_no};
use fact_plan_types::PlanTypes;
use std::alloc::{AllocError, Global};

/// Adds what comes of a line that names types.
fn add_of_named(
    page: &mut String,
    alloc: Global,
    made: &PlanTypes,
    kind: &str,
    line: &str,
) -> Result<(), AllocError> {
    let (words, rest) = first_of(line);
    let types = types_of(alloc, made.types.as_slice(), words)?;
    let builder = &made.builder;
    if !are_live(builder, types.as_slice()) {
        return page.push_str("no such type");
    }
    match (kind, types.as_slice()) {
        ("layout", [ty]) => add_layout(page, alloc, builder, ty),
        ("known", [ty]) => add_known(page, builder, ty),
        ("inside", [ty]) => add_inside(page, builder, ty),
        ("place", [ty]) => add_place(page, alloc, builder, ty, rest),
        ("same", [first, second]) => page.push_str(yes_or_no(first == second)),
        ("agree", [from, to]) => add_agree(page, alloc, builder, from, to),
        ("load", [ty]) => add_loaded(page, alloc, builder, ty, rest),
        ("lift", [ty]) => add_lifted(page, alloc, builder, ty, rest),
        ("carry", [ty, from, to]) => add_carried(page, alloc, builder, ty, from, to, rest),
        ("flatten", types) => add_flattened(page, builder, types, rest),
        ("read", types) => add_read(page, alloc, builder, types, rest),
        ("json", types) => add_json(page, alloc, builder, types, rest),
        _ => page.push_str("no such question"),
    }
}

/// Adds what comes of a line.
pub fn add_of_types(
    page: &mut String,
    alloc: Global,
    made: &PlanTypes,
    line: &str,
) -> Result<(), AllocError> {
    let (kind, rest) = word_of(line);
    match kind {
        "laid" => add_laid(page, alloc, rest),
        "next" => add_next(page, rest),
        "tables" => add_tables(page, &made.builder),
        "core" => add_core_type(page, made, rest),
        "one" => add_one_func(page, made.funcs.as_slice(), rest),
        "signature" => add_signature(page, made, rest),
        "agree-all" => add_agree_all(page, alloc, made, rest),
        _ => add_of_named(page, alloc, made, kind, rest),
    }
}
