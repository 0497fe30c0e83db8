//! A callee that passes its calls on.

ghost use Rattle.std.specs.Prelude.{◌≡◌, List, IfErr, IfOk};
ghost use Rattle.fact_types.specs.Tables.{Tables as the_tables};
ghost use Rattle.fact_values.specs.declared.value.Value.{Value as a_value};
ghost use Rattle.fact_wasm.specs.declared.module.WasmModule.{WasmModule as a_module};
ghost use Rattle.fact_host.specs.declared.calling.HostCall.{HostCall as a_call};
ghost use Rattle.fact_host.specs.Contract.{IsFresh};
ghost use Rattle.fact_chain.specs.Between.{CanBeRun, IsSecondError, IsSecondOutcome};
ghost use Rattle.fact_chain.specs.Passing.{IsPassed, IsPassing, IsPassingTo, IsReady, StaysPassing, answer_by, last_answer, last_error, last_given, number_of_answer};

use fact_abi::Value;
use fact_host::{Callee, HostCall, HostError, HostOutcome, Scripted, call};
use fact_types::ComponentTypes;
use fact_wasm::{OutOfMemory, Seq, WasmModule};
use std::alloc::Global;

/// Equal values.
pub(crate) fn copied(alloc: Global, values: &[Value]) -> Result<Seq<Value>, OutOfMemory>
    ensures { IfOk result (λ copies. copies ≡ values.now) }
{
    let mut copies = Seq::new(alloc);
    for value in values {
        copies.push(value.try_clone()?)?;
    }
    Ok(copies)
}

/// Calls an adapter with these parameters, and a callee that answers these results.
fn call_scripted(
    alloc: Global,
    types: &ComponentTypes,
    module: &WasmModule,
    second: &HostCall,
    params: &[Value],
    results: Seq<Value>,
) -> Result<HostOutcome, HostError>
    requires { CanBeRun «module».now types.now second.now }
    ensures outcome { IfOk result (IsSecondOutcome «module».now types.now second.now params.now results) }
    ensures error { IfErr result (IsSecondError types.now second.now params.now results) }
{
    let mut callee = Scripted::new(results);
    let answer = call(alloc, types, module, second, params, &mut callee);
    drop(callee);
    answer
}

/// Calls an adapter with these parameters, and a callee that answers copies of these results.
fn pass_on(
    alloc: Global,
    types: &ComponentTypes,
    module: &WasmModule,
    second: &HostCall,
    params: &[Value],
    results: &[Value],
) -> Result<HostOutcome, HostError>
    requires { CanBeRun «module».now types.now second.now }
    ensures outcome { IfOk result (IsSecondOutcome «module».now types.now second.now params.now results.now) }
    ensures error { IfErr result (IsSecondError types.now second.now params.now results.now) }
{
    match copied(alloc, results) {
        Ok(copies) => call_scripted(alloc, types, module, second, params, copies),
        Err(_) => Err(HostError::OutOfMemory),
    }
}

/// What a callee between is given, what came of the second call, and what is answered.
#[derive(Drop)]
pub struct Passed {
    pub given: Option<Seq<Value>>,
    pub outcome: Option<HostOutcome>,
    pub answer: Result<Seq<Value>, HostError>,
}

/// What the caller of a call got, where it got something.
fn copied_results(alloc: Global, outcome: &HostOutcome) -> Result<Option<Seq<Value>>, OutOfMemory>
    ensures { IfOk result (λ values. values ≡ outcome.now.results) }
{
    match &outcome.results {
        Some(values) => Ok(Some(copied(alloc, values.as_slice())?)),
        None => Ok(None),
    }
}

/// The answer of a callee between, by what the caller of the second call got.
fn answer_of(values: Option<Seq<Value>>) -> Result<Seq<Value>, HostError>
    ensures { result ≡ answer_by values }
{
    match values {
        Some(values) => Ok(values),
        None => Err(HostError::NoResults),
    }
}

/// What a second call comes to that has an outcome.
fn kept_of(alloc: Global, given: Seq<Value>, outcome: HostOutcome) -> Passed
    ensures { (m : a_module) (t : the_tables) (second : a_call) (results : List a_value) → IsSecondOutcome m t second given results outcome → IsPassed m t second given results result }
{
    match copied_results(alloc, &outcome) {
        Ok(values) => Passed {
            given: Some(given),
            outcome: Some(outcome),
            answer: answer_of(values),
        },
        Err(_) => {
            drop(outcome);
            Passed {
                given: Some(given),
                outcome: None,
                answer: Err(HostError::OutOfMemory),
            }
        }
    }
}

/// What a second call comes to, with what the callee between was given.
fn second_call_with(
    alloc: Global,
    types: &ComponentTypes,
    module: &WasmModule,
    second: &HostCall,
    given: Seq<Value>,
    results: &[Value],
) -> Passed
    requires { CanBeRun «module».now types.now second.now }
    ensures { IsPassed «module».now types.now second.now given results.now result }
{
    let passed = pass_on(alloc, types, module, second, given.as_slice(), results);
    match passed {
        Ok(outcome) => kept_of(alloc, given, outcome),
        Err(error) => Passed {
            given: Some(given),
            outcome: None,
            answer: Err(error),
        },
    }
}

/// What a second call comes to, with a copy of these parameters.
fn second_call(
    alloc: Global,
    types: &ComponentTypes,
    module: &WasmModule,
    second: &HostCall,
    params: &[Value],
    results: &[Value],
) -> Passed
    requires { CanBeRun «module».now types.now second.now }
    ensures { IsPassed «module».now types.now second.now params.now results.now result }
{
    match copied(alloc, params) {
        Ok(given) => second_call_with(alloc, types, module, second, given, results),
        Err(_) => Passed {
            given: None,
            outcome: None,
            answer: Err(HostError::OutOfMemory),
        },
    }
}

/// The number of the error that is answered, 0 where there is none.
fn number_told(answer: &Result<Seq<Value>, HostError>) -> u32
    ensures { result ≡ number_of_answer answer.now }
{
    match answer {
        Ok(_) => 0,
        Err(error) => error.number(),
    }
}

/// A callee that calls a second adapter with the parameters that it is given, and answers what that call's caller gets. It keeps these
/// parameters, and that call's outcome or the number of the error that it answered.
#[derive(Drop)]
pub struct Passing<'a> {
    alloc: Global,
    types: &'a ComponentTypes,
    module: &'a WasmModule,
    second: &'a HostCall,
    results: Seq<Value>,
    given: Option<Seq<Value>>,
    outcome: Option<HostOutcome>,
    last: u32,
}

impl<'a> Passing<'a> {
    /// A callee that makes the second call, whose own callee answers these results. It was not called yet, and takes no memory.
    pub fn new(
        alloc: Global,
        types: &'a ComponentTypes,
        module: &'a WasmModule,
        second: &'a HostCall,
        results: Seq<Value>,
    ) -> Passing<'a>
        requires { CanBeRun «module».now types.now second.now }
        ensures fresh { IsFresh (last_error result) (last_answer result) (last_given result) }
        ensures passes { IsPassingTo «module».now types.now second.now results result }
        ensures holds { IsPassing result }
        ensures ready { IsReady result }
    {
        Passing {
            alloc,
            types,
            module,
            second,
            results,
            given: None,
            outcome: None,
            last: 0,
        }
    }

    /// The outcome of the second call, where it was made and has one.
    pub(crate) fn into_outcome(self) -> Option<HostOutcome>
        ensures { result ≡ self.entry.outcome }
    {
        let Passing { outcome, .. } = self;
        outcome
    }
}

impl Callee for Passing<'_> {
    ghost last = { λ p. last_error p };

    ghost answered = { λ p. last_answer p };

    ghost given = { λ p. last_given p };

    ghost ready = { λ p. IsReady p };

    ghost stays = { λ first last. StaysPassing first last };

    fn called(&mut self, params: &[Value]) -> Result<Seq<Value>, HostError> {
        let passed = second_call(
            self.alloc,
            self.types,
            self.module,
            self.second,
            params,
            self.results.as_slice(),
        );
        let Passed {
            given,
            outcome,
            answer,
        } = passed;
        self.given = given;
        self.outcome = outcome;
        self.last = number_told(&answer);
        answer
    }
}
