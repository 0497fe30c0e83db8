//! Plans as values, apart from what the command makes of them. A line `fuse` tells what is made of a plan that is not checked before:
//! `module`, or its first fault; `generates N` whether a plan is the one of N adapters that is generated; and `entries N` how many types,
//! functions, core types, core definitions and adapters that one has.

use fact_generate::{MOST_GENERATED, generate};
use fact_module::{FuseError, FusePlan, Fused, fuse};
use line_tests::{end_module, end_plan, is_same_plan, plan_in, small_number_of};
use std::alloc::{AllocError, Global};

/// Adds whether bytes begin as those of a module.
fn add_made(page: &mut String, fused: Fused) -> Result<(), AllocError> {
    let Fused {
        module,
        bytes,
        imports,
    } = fused;
    end_module(Some(module));
    drop(imports);
    let begins = bytes.as_slice().starts_with(b"\0asm");
    drop(bytes);
    page.push_str(if begins { "module" } else { "other bytes" })
}

/// Adds what is made of a plan.
fn add_end_of(page: &mut String, alloc: Global, plan: &FusePlan) -> Result<(), AllocError> {
    if plan.tunables.fuel == 0 {
        return page.push_str("no fuel");
    }
    match fuse(alloc, plan) {
        Ok(fused) => add_made(page, fused),
        Err(FuseError::OutOfMemory) => Err(AllocError),
        Err(fault) => write!(page, "{fault}"),
    }
}

/// Adds what is made of the plan in a text.
pub fn add_fused(page: &mut String, alloc: Global, text: &str) -> Result<(), AllocError> {
    let plan = plan_in(alloc, text)?;
    let added = match &plan {
        Some(plan) => add_end_of(page, alloc, plan),
        None => page.push_str("no plan"),
    };
    end_plan(plan);
    added
}

/// The plan of as many adapters as a word says, if there may be so many.
fn generated(alloc: Global, word: &str) -> Result<Option<FusePlan>, AllocError> {
    let number = small_number_of(word);
    if number > MOST_GENERATED {
        return Ok(None);
    }
    Ok(Some(generate(alloc, number)?))
}

/// Adds whether a text has the plan of so many adapters.
pub fn add_generates(
    page: &mut String,
    alloc: Global,
    text: &str,
    word: &str,
) -> Result<(), AllocError> {
    let plan = plan_in(alloc, text)?;
    let Ok(made) = generated(alloc, word) else {
        end_plan(plan);
        return Err(AllocError);
    };
    let is_same = match (&plan, &made) {
        (Some(plan), Some(made)) => is_same_plan(plan, made),
        _ => false,
    };
    end_plan(plan);
    end_plan(made);
    page.push_str(if is_same { "this plan" } else { "another plan" })
}

/// Adds the numbers of entries of a plan.
fn add_counts(page: &mut String, plan: &FusePlan) -> Result<(), AllocError> {
    let (types, funcs) = (plan.types.len(), plan.funcs.len());
    let (core_types, core_defs) = (plan.core_types.len(), plan.core_defs.len());
    let adapters = plan.adapters.len();
    write!(page, "{types} {funcs} {core_types} {core_defs} {adapters}")
}

/// Adds how many entries the plan of so many adapters has.
pub fn add_entries(page: &mut String, alloc: Global, word: &str) -> Result<(), AllocError> {
    let generated_plan = generated(alloc, word)?;
    let added = match &generated_plan {
        Some(plan) => add_counts(page, plan),
        None => page.push_str("too many"),
    };
    end_plan(generated_plan);
    added
}
