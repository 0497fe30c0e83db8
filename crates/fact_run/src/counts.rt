//! The counts of a plan and of its module, which `--generate` prints.

ghost use Rattle.std.specs.Prelude.{◌≡◌, IfOk, string_bytes};
ghost use Rattle.fact_run.specs.Run.{count_line, counts};

use fact_module::{FusePlan, Fused};
use fact_wasm::OutOfMemory;
use std::alloc::Global;

/// A name and a number in decimal on one line.
fn count_line(alloc: Global, name: &str, count: usize) -> Result<String, OutOfMemory>
    ensures { IfOk result (λ text. string_bytes text ≡ count_line name.now count) }
{
    format!(in alloc; "{name} {count}\n")
}

/// How many adapters a plan has, and of its module how many functions it defines, how many imports it has and how many bytes
/// spell it, each on one line.
pub fn counts_text(alloc: Global, plan: &FusePlan, fused: &Fused) -> Result<String, OutOfMemory>
    ensures { IfOk result (λ text. string_bytes text ≡ counts plan.now fused.now) }
{
    let mut text = count_line(alloc, "adapters", plan.adapters.len())?;
    let functions = count_line(alloc, "functions", fused.module.funcs.len())?;
    text.push_str(&functions)?;
    let imports = count_line(alloc, "imports", fused.module.imports.len())?;
    text.push_str(&imports)?;
    let bytes = count_line(alloc, "bytes", fused.bytes.len())?;
    text.push_str(&bytes)?;
    Ok(text)
}
