//! The text that tells a chain.

ghost use Rattle.std.specs.Prelude.{◌≡◌, All, IfOk, List, Some, length, string_bytes};
ghost use Rattle.fact_types.specs.Functions.{HaveShapes};
ghost use Rattle.fact_types.specs.Shapes.{Shape};
ghost use Rattle.fact_types.specs.Tables.{IsLive};
ghost use Rattle.fact_values.specs.declared.value.Value.{Value as a_value};
ghost use Rattle.fact_host.specs.Contract.{AreTypesLive, AreOfTypes};
ghost use Rattle.fact_chain_mode.specs.ChainReplies.{TellsOutcomes};
ghost use Rattle.fact_chain_mode.specs.ChainTexts.{calls_line, chain_text};

use fact_abi::Value;
use fact_call_mode::{there, values_line};
use fact_host::{HostCall, HostOutcome};
use fact_types::ComponentTypes;
use fact_wasm::OutOfMemory;
use std::alloc::Global;

/// Two counts on one line.
fn calls_line(alloc: Global, outer: usize, inner: usize) -> Result<String, OutOfMemory>
    ensures { IfOk result (λ line. string_bytes line ≡ calls_line outer inner) }
{
    format!(in alloc; "calls {outer} {inner}\n")
}

/// The text that tells values that the last callee was given, values that the first caller got, and how many calls of the outside there were in
/// either run.
fn text_of(
    alloc: Global,
    types: &ComponentTypes,
    first: &HostCall,
    second: &HostCall,
    seen: &[Value],
    got: &[Value],
    counts: (usize, usize),
) -> Result<String, OutOfMemory>
    requires seen { All (λ ty. IsLive types.now ty) second.now.lift.params }
    requires got { All (λ ty. IsLive types.now ty) first.now.lower.results }
    ensures { IfOk result (λ text. (ps rs : List Shape) → HaveShapes types.now second.now.lift.params ps → HaveShapes types.now first.now.lower.results rs
        → AreOfTypes ps seen.now → AreOfTypes rs got.now → string_bytes text ≡ chain_text ps seen.now rs got.now counts.0 counts.1) }
{
    let mut text = values_line(alloc, types, "seen", second.lift.params.as_slice(), seen)?;
    let results = values_line(alloc, types, "results", first.lower.results.as_slice(), got)?;
    text.push_str(&results)?;
    let calls = calls_line(alloc, counts.0, counts.1)?;
    text.push_str(&calls)?;
    Ok(text)
}

/// The text that tells the outcomes of two calls that returned, of which the callee of the first made the second.
pub(crate) fn outcomes_text(
    alloc: Global,
    types: &ComponentTypes,
    first: &HostCall,
    second: &HostCall,
    outer: &HostOutcome,
    inner: &HostOutcome,
) -> Result<String, OutOfMemory>
    requires first_live { AreTypesLive types.now first.now }
    requires second_live { AreTypesLive types.now second.now }
    requires params { (vs : List a_value) × (inner.now.params ≡ Some vs) }
    requires results { (vs : List a_value) × (outer.now.results ≡ Some vs) }
    ensures { IfOk result (λ text. TellsOutcomes types.now first.now second.now outer.now inner.now (string_bytes text)) }
{
    let seen = there(&inner.params);
    let got = there(&outer.results);
    let counts = (outer.outcome.log.len(), inner.outcome.log.len());
    text_of(alloc, types, first, second, seen, got, counts)
}
