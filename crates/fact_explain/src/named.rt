//! What adapters name in the lists of their plan, and what they use core items as.

use crate::core_types::core_text;
use crate::sides::is_wide;
use crate::texts::push_line;
use fact_plan::{FusePlan, PlanAdapter, PlanSide};
use fact_wasm::OutOfMemory;
use std::alloc::Global;

/// A place in a list of the plan that an adapter names by a key, with the path of the key, and of core items what they are used as.
#[derive(Drop)]
struct Named {
    adapter: usize,
    instance: u32,
    key: &'static str,
    path: String,
    number: u32,
    used_as: String,
}

/// The list in which a key names a place, and how many entries it has.
fn list_of(plan: &FusePlan, key: &str) -> (&'static str, usize) {
    match key {
        "ty" => ("funcs", plan.funcs.len()),
        "core_type" => ("core_types", plan.core_types.len()),
        "instance" => ("instances", plan.instances as usize),
        _ => ("core_defs", plan.core_defs.len()),
    }
}

/// What the memory of a side is used as.
fn memory_use(alloc: Global, side: &PlanSide) -> Result<String, OutOfMemory> {
    let bits = if is_wide(side) { "64" } else { "32" };
    let page = match side.memory {
        Some(memory) => memory.page_size_log2,
        None => 0,
    };
    format!(in alloc; "a memory of {bits} bits and pages of 2^{page} bytes")
}

/// The core type of a side, by its place; that of a post-return, which takes what it gives.
pub(crate) fn core_use(
    alloc: Global,
    plan: &FusePlan,
    core_type: u32,
    is_post_return: bool,
) -> Result<String, OutOfMemory> {
    match plan.core_types.get(core_type as usize) {
        Some(ty) if is_post_return => core_text(alloc, ty.results.as_slice(), &[]),
        Some(ty) => core_text(alloc, ty.params.as_slice(), ty.results.as_slice()),
        None => Ok(String::new(alloc)),
    }
}

/// What a core item is used as that a side names by a key.
fn use_text(
    alloc: Global,
    plan: &FusePlan,
    key: &str,
    side: &PlanSide,
) -> Result<String, OutOfMemory> {
    match key {
        "memory.def" => memory_use(alloc, side),
        "realloc" if is_wide(side) => String::from_str(alloc, "(i64 i64 i64 i64) -> (i64)"),
        "realloc" => String::from_str(alloc, "(i32 i32 i32 i32) -> (i32)"),
        "callback" => String::from_str(alloc, "(i32 i32 i32) -> (i32)"),
        _ => core_use(alloc, plan, side.core_type, key == "post_return"),
    }
}

/// Appends what an adapter, or a side of it, names by some keys.
fn push_named(
    alloc: Global,
    named: &mut Vec<Named>,
    plan: &FusePlan,
    adapter: usize,
    place: &str,
    side: &PlanSide,
    numbers: &[(&'static str, Option<u32>)],
) -> Result<(), OutOfMemory> {
    for (key, number) in numbers {
        if let Some(number) = *number {
            let path = format!(in alloc; "plan.adapters.{adapter}{place}.{key}")?;
            let used_as = use_text(alloc, plan, *key, side)?;
            named.push(Named {
                adapter,
                instance: side.instance,
                key: *key,
                path,
                number,
                used_as,
            })?;
        }
    }
    Ok(())
}

/// Appends what a side of an adapter names.
fn push_side(
    alloc: Global,
    named: &mut Vec<Named>,
    plan: &FusePlan,
    adapter: usize,
    place: &str,
    side: &PlanSide,
) -> Result<(), OutOfMemory> {
    let memory = match side.memory {
        Some(memory) => Some(memory.def),
        None => None,
    };
    push_named(
        alloc,
        named,
        plan,
        adapter,
        place,
        side,
        &[
            ("ty", Some(side.ty)),
            ("core_type", Some(side.core_type)),
            ("instance", Some(side.instance)),
            ("memory.def", memory),
            ("realloc", side.realloc),
            ("callback", side.callback),
            ("post_return", side.post_return),
        ],
    )
}

/// What the adapter at a place names.
fn named_of(
    alloc: Global,
    plan: &FusePlan,
    k: usize,
    adapter: &PlanAdapter,
) -> Result<Vec<Named>, OutOfMemory> {
    let mut named = Vec::new(alloc);
    let callee = [("func", Some(adapter.func))];
    push_named(alloc, &mut named, plan, k, "", &adapter.lift, &callee)?;
    push_side(alloc, &mut named, plan, k, ".lift", &adapter.lift)?;
    push_side(alloc, &mut named, plan, k, ".lower", &adapter.lower)?;
    Ok(named)
}

/// Appends that a key names what is not there, where it is so.
fn push_absent(
    alloc: Global,
    text: &mut String,
    plan: &FusePlan,
    each: &Named,
) -> Result<(), OutOfMemory> {
    let (list, count) = list_of(plan, each.key);
    let number = each.number;
    if (number as usize) < count {
        return Ok(());
    }
    let path = each.path.as_str();
    let line = format!(in alloc;
        "{path}: wanted a number below {count}, of {list}, found {number}"
    )?;
    push_line(alloc, text, &line)
}

/// Appends what the adapter at a place names that is not there.
pub(crate) fn push_unknown(
    alloc: Global,
    text: &mut String,
    plan: &FusePlan,
    k: usize,
    adapter: &PlanAdapter,
) -> Result<(), OutOfMemory> {
    let named = named_of(alloc, plan, k, adapter)?;
    for each in named.as_slice() {
        push_absent(alloc, text, plan, each)?;
    }
    Ok(())
}

/// Whether two keys name one core item, by its content.
fn is_one_item(plan: &FusePlan, first: &Named, second: &Named) -> bool {
    if list_of(plan, first.key).0 != "core_defs" || list_of(plan, second.key).0 != "core_defs" {
        return false;
    }
    match (
        plan.core_defs.get(first.number as usize),
        plan.core_defs.get(second.number as usize),
    ) {
        (Some(first), Some(second)) => *first == *second,
        _ => false,
    }
}

/// Whether a key names a callee, and another one a realloc or a post-return of the same adapter.
fn is_callee_twice(first: &Named, second: &Named) -> bool {
    first.adapter == second.adapter
        && first.key == "func"
        && (second.key == "realloc" || second.key == "post_return")
}

/// Whether two keys may not name one core item: memories, or reallocs, of two instances; or else what is used as two things.
fn is_conflict(by_instance: bool, first: &Named, second: &Named) -> bool {
    if by_instance {
        return first.key == second.key
            && (first.key == "memory.def" || first.key == "realloc")
            && first.instance != second.instance;
    }
    first.used_as.as_str() != second.used_as.as_str()
        || is_callee_twice(first, second)
        || is_callee_twice(second, first)
}

/// The first of some keys that is in conflict with another one.
fn conflict_among<'a>(
    plan: &FusePlan,
    by_instance: bool,
    named: &'a [Named],
    item: &Named,
) -> Option<&'a Named> {
    for other in named {
        if is_one_item(plan, other, item) && is_conflict(by_instance, other, item) {
            return Some(other);
        }
    }
    None
}

/// Appends that a key is in conflict with another one.
fn push_conflict(
    alloc: Global,
    text: &mut String,
    item: &Named,
    other: &Named,
) -> Result<(), OutOfMemory> {
    let (at, path) = (item.path.as_str(), other.path.as_str());
    let (its_use, used_as) = (item.used_as.as_str(), other.used_as.as_str());
    let (its_instance, instance) = (item.instance, other.instance);
    let number = item.number;
    let line = format!(in alloc;
        "{at}: wanted another core item than {path}, {used_as} of instance {instance}, found core_defs.{number}, {its_use} of instance {its_instance}"
    )?;
    push_line(alloc, text, &line)
}

/// Appends the first conflict of some keys with others. Answers whether there is one.
fn push_first(
    alloc: Global,
    text: &mut String,
    plan: &FusePlan,
    by_instance: bool,
    named: &[Named],
    others: &[Named],
) -> Result<bool, OutOfMemory> {
    for item in named {
        if let Some(other) = conflict_among(plan, by_instance, others, item) {
            push_conflict(alloc, text, item, other)?;
            return Ok(true);
        }
    }
    Ok(false)
}

/// Appends the first conflict of the core items of the adapter at a place with one another and with those of the adapters before it.
pub(crate) fn push_conflicts(
    alloc: Global,
    text: &mut String,
    plan: &FusePlan,
    k: usize,
    adapter: &PlanAdapter,
    by_instance: bool,
) -> Result<(), OutOfMemory> {
    let named = named_of(alloc, plan, k, adapter)?;
    for (j, other) in plan.adapters.as_slice().iter().enumerate() {
        if j > k {
            return Ok(());
        }
        let others = named_of(alloc, plan, j, other)?;
        let (named, others) = (named.as_slice(), others.as_slice());
        if push_first(alloc, text, plan, by_instance, named, others)? {
            return Ok(());
        }
    }
    Ok(())
}
