//! Runs of modules on the machine. A state is its globals and its memories: `SIZE` is a memory of so many bytes, each 170, in which
//! `ADDRESS=HEX` stands behind further commas. An answer leaves the state as it was at the start, but for the globals behind ` leaves `.
//! Answers are parted by `;`; `lacks` is none. Where `through` stands behind the steps, an answer leaves the state as it was before its
//! call, so that what was written stays; where `logged` stands there, the answers in the log are told behind what came; and where `asking`
//! stands there, the run asks an outside that gives the one answer to each call, and what it was asked is told too: `asking`.

use crate::asking::add_asking;
use crate::told_runs::{add_answers, add_outcome};
use crate::words::{core_value_of, core_values_of, first_of, number_of, small_number_of, word_of};
use fact_interpreter::Machine;
use fact_machine::{Answer, CoreValue, MachineState, Outcome};
use fact_wasm::{Seq, WasmModule};
use std::alloc::{AllocError, Global};

/// Puts bytes at an address: `ADDRESS=HEX`.
fn patch_bytes(alloc: Global, bytes: &mut Vec<u8>, patch: &str) -> Result<(), AllocError> {
    let (address, digits) = patch.split_once("=").unwrap_or(("", ""));
    let start = number_of(address) as usize;
    let Ok(patch) = hex::decode(alloc, digits) else {
        return Ok(());
    };
    for (at, byte) in patch.iter().enumerate() {
        if let Some(place) = bytes.get_mut(start.saturating_add(at)) {
            *place = *byte;
        }
    }
    Ok(())
}

/// A memory, as a line has it.
fn memory_of(alloc: Global, word: &str) -> Result<Seq<u8>, AllocError> {
    let (size, patches) = word.split_once(",").unwrap_or((word, ""));
    let mut bytes = Vec::new(alloc);
    bytes.resize(number_of(size) as usize, 170)?;
    for patch in patches.split(',') {
        patch_bytes(alloc, &mut bytes, patch)?;
    }
    Ok(Seq::from_vec(bytes))
}

/// The state of a line.
fn state_of(alloc: Global, words: &str) -> Result<MachineState, AllocError> {
    let globals = core_values_of(alloc, words)?;
    let mut memories = Seq::new(alloc);
    for word in words.split_whitespace() {
        if core_value_of(word).is_none() {
            memories.push(memory_of(alloc, word)?)?;
        }
    }
    Ok(MachineState { memories, globals })
}

/// The answer of an outside call, which leaves this state, but for the globals that it names.
pub fn answer_of(
    alloc: Global,
    words: &str,
    mut state: MachineState,
) -> Result<Answer, AllocError> {
    let (words, globals) = words.split_once(" leaves ").unwrap_or((words, ""));
    match words.trim() {
        "traps" => return Ok(Answer::Traps),
        "throws" => return Ok(Answer::Throws),
        _ => (),
    }
    let results = core_values_of(alloc, words)?;
    if !globals.is_empty() {
        state.globals = core_values_of(alloc, globals)?;
    }
    Ok(Answer::Returns { results, state })
}

/// What a run begins with, and whether its state goes through outside calls.
#[derive(Clone, Copy)]
pub struct Begin<'a> {
    pub module: &'a WasmModule,
    pub func: u32,
    pub steps: u64,
    pub args: &'a [CoreValue],
    pub state: &'a MachineState,
    through: bool,
}

/// The run of a function. What the machine says of it is not asked for here.
fn run(alloc: Global, begin: &Begin<'_>, answers: &[Answer]) -> Result<Outcome, AllocError> {
    let (module, func, args) = (begin.module, begin.func, begin.args);
    Machine::run(alloc, module, func, args, begin.state, answers, begin.steps)
}

/// The state that the answer behind these ones leaves: that of the start, or the one in which a run with them lacks a further one.
fn state_behind(
    alloc: Global,
    begin: &Begin<'_>,
    answers: &[Answer],
) -> Result<MachineState, AllocError> {
    if !begin.through {
        return begin.state.try_clone();
    }
    let outcome = run(alloc, begin, answers)?;
    outcome.state.try_clone()
}

/// The answers of a line.
fn answers_of(alloc: Global, begin: &Begin<'_>, words: &str) -> Result<Vec<Answer>, AllocError> {
    let mut answers = Vec::new(alloc);
    for answer in words.split(';') {
        if answer != "lacks" {
            let state = state_behind(alloc, begin, answers.as_slice())?;
            answers.push(answer_of(alloc, answer, state)?)?;
        }
    }
    Ok(answers)
}

/// Adds what came of a run, and the answers in its log where they are asked for.
fn add_came(
    page: &mut String,
    begin: &Begin<'_>,
    outcome: &Outcome,
    mode: &str,
) -> Result<(), AllocError> {
    let imports = begin.module.imports.as_slice();
    let memories = begin.state.memories.as_slice();
    add_outcome(page, imports, memories, outcome, begin.through)?;
    if mode == "logged" {
        add_answers(page, outcome.log.as_slice())?;
    }
    Ok(())
}

/// Adds what comes of a run with these answers.
fn add_answered(
    page: &mut String,
    alloc: Global,
    begin: &Begin<'_>,
    answers: &str,
    mode: &str,
) -> Result<(), AllocError> {
    let answers = answers_of(alloc, begin, answers)?;
    let outcome = run(alloc, begin, answers.as_slice());
    drop(answers);
    let outcome = outcome?;
    let added = add_came(page, begin, &outcome, mode);
    drop(outcome);
    added
}

/// Adds what comes of a `run` of a module.
pub fn add_run(
    page: &mut String,
    alloc: Global,
    module: &WasmModule,
    line: &str,
) -> Result<(), AllocError> {
    let (state, line) = first_of(line);
    let (call, line) = first_of(line);
    let (args, answers) = first_of(line);
    let (func, steps) = word_of(call);
    let (steps, mode) = word_of(steps);
    let args = core_values_of(alloc, args)?;
    let state = state_of(alloc, state)?;
    let begin = Begin {
        module,
        func: small_number_of(func),
        steps: number_of(steps),
        args: args.as_slice(),
        state: &state,
        through: mode == "through",
    };
    let added = if mode == "asking" {
        add_asking(page, alloc, &begin, answers)
    } else {
        add_answered(page, alloc, &begin, answers, mode)
    };
    drop(state);
    drop(args);
    added
}
