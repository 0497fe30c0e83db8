//! The text that tells a call.

ghost use Rattle.std.specs.Prelude.{◌≡◌, All, IfOk, List, Some, codes, length, string_bytes};
ghost use Rattle.std.specs.Fmt.{decimal};
ghost use Rattle.fact_types.specs.Functions.{HaveShapes};
ghost use Rattle.fact_types.specs.Shapes.{Shape};
ghost use Rattle.fact_types.specs.Tables.{IsLive};
ghost use Rattle.fact_values.specs.declared.value.Value.{Value as a_value};
ghost use Rattle.fact_value_json.specs.Printing.{values_text};
ghost use Rattle.fact_host.specs.Contract.{AreTypesLive, AreOfTypes};
ghost use Rattle.fact_call_mode.specs.Calls.{call_text, word_line};

use fact_abi::Value;
use fact_host::{HostCall, HostOutcome};
use fact_types::{ComponentTypes, InterfaceType};
use fact_value_json::values_text;
use fact_wasm::{OutOfMemory, Seq};
use std::alloc::Global;

/// A word and the JSON text of values of live types on one line.
pub fn values_line(
    alloc: Global,
    types: &ComponentTypes,
    word: &str,
    tys: &[InterfaceType],
    values: &[Value],
) -> Result<String, OutOfMemory>
    requires { All (λ ty. IsLive types.now ty) tys.now }
    ensures { IfOk result (λ line. (ss : List Shape) → HaveShapes types.now tys.now ss → AreOfTypes ss values.now → string_bytes line ≡ word_line word.now (values_text ss values.now)) }
{
    let text = values_text(alloc, types, tys, values)?;
    format!(in alloc; "{word} {text}\n")
}

/// A count on one line.
fn calls_line(alloc: Global, count: usize) -> Result<String, OutOfMemory>
    ensures { IfOk result (λ line. string_bytes line ≡ word_line (codes "calls") (decimal count)) }
{
    format!(in alloc; "calls {count}\n")
}

/// The text that tells values that the callee was given, values that the caller got, and how many calls of the outside there were.
fn text_of(
    alloc: Global,
    types: &ComponentTypes,
    call: &HostCall,
    given: &[Value],
    got: &[Value],
    count: usize,
) -> Result<String, OutOfMemory>
    requires { AreTypesLive types.now call.now }
    ensures { IfOk result (λ text. (ps rs : List Shape) → HaveShapes types.now call.now.lift.params ps → HaveShapes types.now call.now.lower.results rs
        → AreOfTypes ps given.now → AreOfTypes rs got.now → string_bytes text ≡ call_text ps given.now rs got.now count) }
{
    let mut text = values_line(alloc, types, "params", call.lift.params.as_slice(), given)?;
    let results = values_line(alloc, types, "results", call.lower.results.as_slice(), got)?;
    text.push_str(&results)?;
    let calls = calls_line(alloc, count)?;
    text.push_str(&calls)?;
    Ok(text)
}

/// The values that are there.
pub fn there(values: &Option<Seq<Value>>) -> &[Value]
    requires { (vs : List a_value) × (values.now ≡ Some vs) }
    ensures { values.now ≡ Some result.now }
{
    match values {
        Some(values) => values.as_slice(),
        None => unreachable!(),
    }
}

/// The text that tells the outcome of a call that returned.
pub(crate) fn outcome_text(
    alloc: Global,
    types: &ComponentTypes,
    call: &HostCall,
    outcome: &HostOutcome,
) -> Result<String, OutOfMemory>
    requires live { AreTypesLive types.now call.now }
    requires params { (vs : List a_value) × (outcome.now.params ≡ Some vs) }
    requires results { (vs : List a_value) × (outcome.now.results ≡ Some vs) }
    ensures { IfOk result (λ text. (ps rs : List Shape) (given got : List a_value) → HaveShapes types.now call.now.lift.params ps → HaveShapes types.now call.now.lower.results rs
        → outcome.now.params ≡ Some given → outcome.now.results ≡ Some got → AreOfTypes ps given → AreOfTypes rs got → string_bytes text ≡ call_text ps given rs got (length outcome.now.outcome.log)) }
{
    let given = there(&outcome.params);
    let got = there(&outcome.results);
    text_of(alloc, types, call, given, got, outcome.outcome.log.len())
}
