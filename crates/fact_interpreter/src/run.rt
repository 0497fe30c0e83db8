//! Runs.

ghost use Rattle.std.specs.Prelude.{◌≡◌, ◌≢◌, [], ◌∷◌, ◌++◌, IfOk, reverse};
ghost use Rattle.fact_machine.specs.declared.types.Answer.{Answer};
ghost use Rattle.fact_machine.specs.Causes.{steps_of, answers_of};
ghost use Rattle.fact_machine.specs.World.{calls, log_of};
ghost use Rattle.fact_interpreter.specs.Asked.{DoesAsked, RunsAsked, with_answers, at_with, step_with, exec_with};
ghost use Rattle.fact_machine.specs.Machine.{At, Bottom, run_of, outcome as outcome_at, begin as begin_of, next, exec, after, at_rest, check, takes as takes_of};
ghost use Rattle.fact_interpreter.specs.Running.{world_of, config_of, did_of, at, defined};

use crate::asking::{Outside, begin_asked};
use crate::begin::begin;
use crate::calls::{call_defined, takes};
use crate::running::{Running, Step};
use crate::settle::{Settled, settle};
use crate::stack::Stack;
use fact_machine::{Answer, CoreValue, End, Event, MachineState, OutOfMemory, Outcome, TraceEntry};
use fact_wasm::{Seq, WasmModule};
use std::alloc::Global;
use std::mem;

/// The machine that the definition of runs describes.
pub struct Machine;

impl Machine {
    /// Runs the nth function that a module defines, with these arguments, from a state, over the answers of the outside,
    /// for at most so many steps. Beginning an instruction is one step. The answers beyond those that the run asks for
    /// stay unused.
    ///
    /// The end is [`End::Stuck`], with the state as it was given and an empty log, where the module defines no such function
    /// or the arguments are not of its type; later on it is [`End::Stuck`] where no rule applies to what comes next. The one
    /// error is [`OutOfMemory`].
    pub fn run(
        alloc: Global,
        module: &WasmModule,
        func: u32,
        args: &[CoreValue],
        state: &MachineState,
        answers: &[Answer],
        steps: u64,
    ) -> Result<Outcome, OutOfMemory>
        ensures outcome { IfOk result (λ outcome. outcome ≡ run_of «module».now func args.now state.now answers.now steps) }

        // A run that is still going took all its steps.
        ensures going { IfOk result (λ outcome. outcome.end ≡ End.Going → steps_of «module».now func args.now state.now answers.now steps ≡ steps) }

        // A run that lacks an answer took all that it was given, and would take one more.
        ensures lacks { IfOk result (λ outcome. outcome.end ≡ End.Lacks → answers_of outcome.log ≡ answers.now) }
        ensures asks { IfOk result (λ outcome. outcome.end ≡ End.Lacks → (more : Answer) → answers_of (run_of «module».now func args.now state.now (answers.now ++ more ∷ []) steps).log ≡ answers.now ++ more ∷ []) }
    {
        let mut run = loaded(alloc, args, state, answers)?;
        match call_and_go_on(&mut run, alloc, module, func, args, steps) {
            Ok(end) => {
                let outcome = outcome_of(alloc, run, end)?;
                Ok(outcome)
            }
            Err(error) => {
                drop(run);
                Err(error)
            }
        }
    }

    /// Runs the nth function that a module defines, with these arguments, from a state, for at most so many steps, where the
    /// outside is asked for the answer of each of its calls as they come.
    ///
    /// The ends are those of [`Machine::run`], but no answer is lacking. The one error is [`OutOfMemory`], which the outside may
    /// answer too.
    pub fn run_with<O: Outside>(
        alloc: Global,
        module: &WasmModule,
        func: u32,
        args: &[CoreValue],
        state: &MachineState,
        outside: &mut O,
        steps: u64,
    ) -> Result<Outcome, OutOfMemory>
        requires { O.lawful outside.old }
        ensures lawful { O.lawful outside.new }
        // What stays of the outside at each call stays of it in the run.
        ensures stays { (first : O) → O.stays first outside.old → O.stays first outside.new }
        // It is the run that was given the answers of its log.
        ensures outcome { IfOk result (λ outcome. outcome ≡ run_of «module».now func args.now state.now (answers_of outcome.log) steps) }
        // The outside answered just the calls of the log.
        ensures events { IfOk result (λ outcome. O.events outside.new ≡ O.events outside.old ++ outcome.log) }
        ensures lacks_none { IfOk result (λ outcome. outcome.end ≢ End.Lacks) }
    {
        let mut run = loaded(alloc, args, state, &[])?;
        match call_and_ask(&mut run, alloc, module, func, args, outside, steps) {
            Ok(end) => {
                let outcome = outcome_of(alloc, run, end)?;
                Ok(outcome)
            }
            Err(error) => {
                drop(run);
                Err(error)
            }
        }
    }
}

/// A machine with these arguments on its stack and nothing to run.
fn loaded<'m>(
    alloc: Global,
    args: &[CoreValue],
    state: &MachineState,
    answers: &'m [Answer],
) -> Result<Running<'m>, OutOfMemory>
    ensures { IfOk result (λ run. config_of run ≡ At (record { state = state.now; answers = answers.now; trace = [] }) (reverse args.now) [] [] Bottom) }
{
    let state = state.try_clone()?;
    match Stack::from_slice(alloc, args) {
        Ok(stack) => Ok(Running {
            state,
            answers,
            trace: Seq::new(alloc),
            stack,
            locals: Seq::new(alloc),
            code: &[],
            around: Seq::new(alloc),
        }),
        Err(error) => {
            drop(state);
            Err(error)
        }
    }
}

/// What is left of a machine that ended so.
fn outcome_of(alloc: Global, run: Running, end: End) -> Result<Outcome, OutOfMemory>
    ensures { IfOk result (λ outcome. outcome ≡ outcome_at end (world_of run.entry)) }
{
    let Running { state, trace, .. } = run;
    match calls_of(alloc, trace) {
        Ok(log) => Ok(Outcome { end, state, log }),
        Err(error) => {
            drop(state);
            drop(end);
            Err(error)
        }
    }
}

/// The outside calls of a trace.
fn calls_of(alloc: Global, trace: Seq<TraceEntry>) -> Result<Seq<Event>, OutOfMemory>
    ensures { IfOk result (λ log. log ≡ calls trace) }
{
    let mut log = Seq::new(alloc);
    for entry in trace.into_vec() {
        if let TraceEntry::Called(event) = entry {
            log.push(event)?;
        }
    }
    Ok(log)
}

/// Calls the nth function that the module defines, where it takes the arguments, and goes on for at most so many steps.
fn call_and_go_on<'m>(
    run: &mut Running<'m>,
    alloc: Global,
    module: &'m WasmModule,
    n: u32,
    args: &[CoreValue],
    steps: u64,
) -> Result<End, OutOfMemory>
    ensures { IfOk result (λ end. outcome_at end (world_of run.new) ≡ after (exec «module».now steps) (check (world_of run.old) (takes_of «module».now n args.now) (at run.old (defined «module».now n)))) }
{
    if !takes(module, n, args) {
        return Ok(End::Stuck);
    }
    match call_defined(run, alloc, module, n)? {
        Some(end) => Ok(end),
        None => go_on(run, alloc, module, steps),
    }
}

/// Goes on for at most so many steps, and answers how that ended.
fn go_on<'m>(
    run: &mut Running<'m>,
    alloc: Global,
    module: &'m WasmModule,
    steps: u64,
) -> Result<End, OutOfMemory>
    ensures { IfOk result (λ end. outcome_at end (world_of run.new) ≡ exec «module».now steps (config_of run.old)) }
{
    for _ in 0..steps {
        if let Some(end) = advance(run, alloc, module)? {
            return Ok(end);
        }
    }
    rest(run, alloc)
}

/// One step.
fn advance<'m>(run: &mut Running<'m>, alloc: Global, module: &'m WasmModule) -> Step
    ensures { IfOk result (λ end. did_of end run.new ≡ begin_of «module».now (next (config_of run.old))) }
{
    let how = settle(run)?;
    match how {
        Settled::Begins => begin(run, alloc, module),
        Settled::Finished => Ok(Some(End::Returned(results(run, alloc)))),
        Settled::Breaks => Ok(Some(End::Stuck)),
    }
}

/// Calls the nth function that the module defines, where it takes the arguments, and goes on for at most so many steps, with the
/// outside asked.
fn call_and_ask<'m, O: Outside>(
    run: &mut Running<'m>,
    alloc: Global,
    module: &'m WasmModule,
    n: u32,
    args: &[CoreValue],
    outside: &mut O,
    steps: u64,
) -> Result<End, OutOfMemory>
    requires none { run.old.answers.now ≡ [] }
    requires lawful { O.lawful outside.old }
    ensures lawful { O.lawful outside.new }
    ensures stays { (first : O) → O.stays first outside.old → O.stays first outside.new }
    ensures runs { IfOk result (λ end. RunsAsked (λ answers. after (exec «module».now steps) (check (with_answers answers (world_of run.old)) (takes_of «module».now n args.now) (at_with run.old (defined «module».now n) answers))) (O.events outside.old) (O.events outside.new) (log_of (world_of run.old)) end run.new) }
{
    if !takes(module, n, args) {
        return Ok(End::Stuck);
    }
    match call_defined(run, alloc, module, n)? {
        Some(end) => Ok(end),
        None => go_on_asking(run, alloc, module, outside, steps),
    }
}

/// Goes on for at most so many steps, with the outside asked, and answers how that ended.
fn go_on_asking<'m, O: Outside>(
    run: &mut Running<'m>,
    alloc: Global,
    module: &'m WasmModule,
    outside: &mut O,
    steps: u64,
) -> Result<End, OutOfMemory>
    requires none { run.old.answers.now ≡ [] }
    requires lawful { O.lawful outside.old }
    ensures lawful { O.lawful outside.new }
    ensures stays { (first : O) → O.stays first outside.old → O.stays first outside.new }
    ensures runs { IfOk result (λ end. RunsAsked (exec_with «module».now steps run.old) (O.events outside.old) (O.events outside.new) (log_of (world_of run.old)) end run.new) }
{
    for _ in 0..steps {
        if let Some(end) = advance_asking(run, alloc, module, outside)? {
            return Ok(end);
        }
    }
    rest(run, alloc)
}

/// One step, with the outside asked.
fn advance_asking<'m, O: Outside>(
    run: &mut Running<'m>,
    alloc: Global,
    module: &'m WasmModule,
    outside: &mut O,
) -> Step
    requires none { run.old.answers.now ≡ [] }
    requires lawful { O.lawful outside.old }
    ensures lawful { O.lawful outside.new }
    ensures stays { (first : O) → O.stays first outside.old → O.stays first outside.new }
    ensures does { IfOk result (λ end. DoesAsked (step_with «module».now run.old) (O.events outside.old) (O.events outside.new) (log_of (world_of run.old)) end run.new) }
{
    let how = settle(run)?;
    match how {
        Settled::Begins => begin_asked(run, alloc, module, outside),
        Settled::Finished => Ok(Some(End::Returned(results(run, alloc)))),
        Settled::Breaks => Ok(Some(End::Stuck)),
    }
}

/// How the run stands with no step left.
fn rest(run: &mut Running, alloc: Global) -> Result<End, OutOfMemory>
    ensures { IfOk result (λ end. outcome_at end (world_of run.new) ≡ at_rest (next (config_of run.old))) }
{
    match settle(run)? {
        Settled::Begins => Ok(End::Going),
        Settled::Finished => Ok(End::Returned(results(run, alloc))),
        Settled::Breaks => Ok(End::Stuck),
    }
}

/// Takes the results off the stack.
fn results(run: &mut Running, alloc: Global) -> Seq<CoreValue>
    ensures results { result ≡ reverse run.old.stack }
    ensures world { world_of run.new ≡ world_of run.old }
{
    mem::replace(&mut run.stack, Stack::new(alloc)).into_values()
}
