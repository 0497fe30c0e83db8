//! The mode that makes a plan (`--generate`): the counts of it and of its module.

ghost use Rattle.std.specs.Prelude.{◌≡◌, ◌≤◌, IfOk, string_bytes};
ghost use Rattle.fact_generate.specs.Generated.{generated, most_generated};
ghost use Rattle.fact_run.specs.Run.{Counts, configured};

use crate::counts::counts_text;
use crate::plan_mode::configure;
use fact_command::CommandOptions;
use fact_generate::generate;
use fact_module::{FusePlan, fuse};
use fact_wasm::OutOfMemory;
use std::alloc::{AllocError, Global};

/// The counts of a plan that was generated and is configured, and of its module.
fn fused_counts(
    alloc: Global,
    plan: &FusePlan,
    options: &CommandOptions,
    n: u32,
) -> Result<String, OutOfMemory>
    requires fuel { 1 ≤ options.now.fuel }
    requires plan { plan.now ≡ configured options.now (generated n) }
    ensures { IfOk result (λ text. Counts options.now n (string_bytes text)) }
{
    match fuse(alloc, plan) {
        Ok(fused) => {
            let text = counts_text(alloc, plan, &fused);
            drop(fused);
            text
        }
        Err(_) => Err(AllocError),
    }
}

/// The counts of the plan of so many adapters, and of its module.
pub fn generated_counts(
    alloc: Global,
    n: u32,
    options: &CommandOptions,
) -> Result<String, OutOfMemory>
    requires number { n ≤ most_generated }
    requires fuel { 1 ≤ options.now.fuel }
    ensures { IfOk result (λ text. Counts options.now n (string_bytes text)) }
{
    let configured = configure(generate(alloc, n)?, options);
    let text = fused_counts(alloc, &configured, options, n);
    drop(configured);
    text
}
