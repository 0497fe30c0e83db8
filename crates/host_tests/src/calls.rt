//! Calls of the module, and what came of them.

ghost use Rattle.std.specs.Prelude.{◌≤◌};
ghost use Rattle.fact_host.specs.Contract.{IsFresh};

use crate::refusing::Refusing;
use crate::samples::{calling_module, plain_call};
use fact_abi::Value;
use fact_chain::{Chained, chain};
use fact_host::{Callee, HostError, HostOutcome, Scripted, call};
use fact_machine::End;
use fact_types::ComponentTypes;
use fact_wasm::{OutOfMemory, Seq};
use std::alloc::Global;

/// A list of one value.
fn one(alloc: Global, value: Value) -> Result<Seq<Value>, OutOfMemory> {
    let mut values = Seq::new(alloc);
    values.push(value)?;
    Ok(values)
}

/// What comes of a call with these arguments and this callee.
fn outcome_by<C: Callee>(
    alloc: Global,
    args: &[Value],
    callee: &mut C,
) -> Result<HostOutcome, HostError>
    requires fresh { IsFresh (C.last callee.old) (C.answered callee.old) (C.given callee.old) }
    requires ready { C.ready callee.old }
{
    let adapter_module = calling_module(alloc)?;
    let sample = plain_call(alloc, 0);
    let types = ComponentTypes::new(alloc);
    let outcome = call(alloc, &types, &adapter_module, &sample, args, callee);
    drop(types);
    drop(sample);
    drop(adapter_module);
    outcome
}

/// What comes of a call with these arguments, whose callee answers these values.
fn outcome_of(
    alloc: Global,
    args: &[Value],
    results: Seq<Value>,
) -> Result<HostOutcome, HostError> {
    let mut callee = Scripted::new(results);
    let outcome = outcome_by(alloc, args, &mut callee);
    drop(callee);
    outcome
}

/// Whether values are there, and are none.
fn are_none(values: &Option<Seq<Value>>) -> bool {
    match values {
        Some(values) => values.len() == 0,
        None => false,
    }
}

/// Whether the run of a call returned behind one call of the callee, which was given nothing, and the caller got nothing.
fn arrived(outcome: &HostOutcome) -> bool {
    let returned = match &outcome.outcome.end {
        End::Returned(results) => results.len() == 0,
        _ => false,
    };
    returned
        & (outcome.outcome.log.len() == 1)
        & are_none(&outcome.params)
        & are_none(&outcome.results)
}

/// Whether a call arrives and returns.
fn calls_arrive(alloc: Global) -> bool {
    match outcome_of(alloc, &[], Seq::new(alloc)) {
        Ok(outcome) => arrived(&outcome),
        Err(_) => false,
    }
}

/// Whether a callee that answers a value of another type ends the call with that error.
fn unsuited_results_are_told(alloc: Global) -> bool {
    match one(alloc, Value::Bool(true)) {
        Ok(results) => matches!(outcome_of(alloc, &[], results), Err(HostError::Unsuited)),
        Err(_) => false,
    }
}

/// Whether an argument of another type ends the call with that error.
fn unsuited_arguments_are_told(alloc: Global) -> bool {
    match one(alloc, Value::Bool(true)) {
        Ok(args) => matches!(
            outcome_of(alloc, args.as_slice(), Seq::new(alloc)),
            Err(HostError::Unsuited)
        ),
        Err(_) => false,
    }
}

/// Whether a call whose callee answers this error ends with it.
fn is_handed_on(alloc: Global, error: HostError) -> bool {
    let mut callee = Refusing::new(error);
    match outcome_by(alloc, &[], &mut callee) {
        Ok(_) => false,
        Err(told) => told == error,
    }
}

/// Whether each error that a callee answers is that of the call.
fn errors_of_callees_are_told(alloc: Global) -> bool {
    is_handed_on(alloc, HostError::OutOfMemory)
        & is_handed_on(alloc, HostError::Unsuited)
        & is_handed_on(alloc, HostError::OverLimit)
        & is_handed_on(alloc, HostError::NoResults)
}

/// What comes of the call of a function whose callee calls the first one.
fn chained_behind(alloc: Global, func: u32) -> Result<Chained, HostError>
    requires { func ≤ 1 }
{
    let adapter_module = calling_module(alloc)?;
    let outer = plain_call(alloc, func);
    let inner = plain_call(alloc, 0);
    let types = ComponentTypes::new(alloc);
    let chained = chain(alloc, &types, &adapter_module, &outer, &inner, &[], &[]);
    drop(types);
    drop(inner);
    drop(outer);
    drop(adapter_module);
    chained
}

/// Whether a chain of two calls arrives in both.
fn chains_arrive(alloc: Global) -> bool {
    match chained_behind(alloc, 0) {
        Ok(chained) => {
            let both = match &chained.inner {
                Some(inner) => arrived(&chained.outer) & arrived(inner),
                None => false,
            };
            drop(chained);
            both
        }
        Err(_) => false,
    }
}

/// Whether a chain whose first function never calls its callee has no second call, and returns.
fn callee_between_is_not_reached(alloc: Global) -> bool {
    match chained_behind(alloc, 1) {
        Ok(chained) => {
            let alone = chained.inner.is_none()
                & chained.outer.params.is_none()
                & are_none(&chained.outer.results)
                & (chained.outer.outcome.log.len() == 0);
            drop(chained);
            alone
        }
        Err(_) => false,
    }
}

/// Whether the test of a name finds all as it should be. There is none of another name.
pub fn holds(alloc: Global, name: &str) -> bool {
    match name {
        "calls on a host" => calls_arrive(alloc),
        "unsuited results" => unsuited_results_are_told(alloc),
        "unsuited arguments" => unsuited_arguments_are_told(alloc),
        "errors of callees" => errors_of_callees_are_told(alloc),
        "chains of calls" => chains_arrive(alloc),
        "callee between not reached" => callee_between_is_not_reached(alloc),
        _ => false,
    }
}
