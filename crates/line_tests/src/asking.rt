//! Runs whose outside is asked. Behind what came of such a run stand the answers in its log, and behind `asked` the calls that the outside
//! answered, each as in the log, and its answers to them.

use crate::runs::{Begin, answer_of};
use crate::told_runs::{add_answers, add_events, add_outcome};
use fact_interpreter::{Machine, Outside};
use fact_machine::{Answer, CoreValue, Event, MachineState, Outcome};
use fact_wasm::{OutOfMemory, Seq};
use std::alloc::{AllocError, Global};

/// An outside that gives one answer to each call, and keeps the calls that it answered.
#[derive(Drop)]
struct Steady {
    alloc: Global,
    answer: Answer,
    asked: Seq<Event>,
}

impl Outside for Steady {
    ghost events = { λ s. s.asked };

    ghost lawful = { λ s. Unit {0} };

    ghost stays = { λ a b. Unit {0} };

    fn answer(
        &mut self,
        func: u32,
        args: &[CoreValue],
        state: &MachineState,
    ) -> Result<Answer, OutOfMemory> {
        let args = Vec::from_slice(self.alloc, args)?;
        let event = Event {
            func,
            args: Seq::from_vec(args),
            before: state.try_clone()?,
            answer: self.answer.try_clone()?,
        };
        let answer = self.answer.try_clone()?;
        self.asked.push(event)?;
        Ok(answer)
    }
}

/// Adds what came of a run, and what its outside was asked.
fn add_came(
    page: &mut String,
    begin: &Begin<'_>,
    outcome: &Outcome,
    asked: &[Event],
) -> Result<(), AllocError> {
    let imports = begin.module.imports.as_slice();
    let memories = begin.state.memories.as_slice();
    add_outcome(page, imports, memories, outcome, false)?;
    add_answers(page, outcome.log.as_slice())?;
    page.push_str(" asked")?;
    add_events(page, imports, asked, false)?;
    add_answers(page, asked)
}

/// Adds what comes of a run over an outside that gives this answer.
pub fn add_asking(
    page: &mut String,
    alloc: Global,
    begin: &Begin<'_>,
    answer: &str,
) -> Result<(), AllocError> {
    let state = begin.state.try_clone()?;
    let mut outside = Steady {
        alloc,
        answer: answer_of(alloc, answer, state)?,
        asked: Seq::new(alloc),
    };
    let (module, func, args) = (begin.module, begin.func, begin.args);
    let came = Machine::run_with(
        alloc,
        module,
        func,
        args,
        begin.state,
        &mut outside,
        begin.steps,
    );
    let added = match &came {
        Ok(outcome) => add_came(page, begin, outcome, outside.asked.as_slice()),
        Err(_) => Err(AllocError),
    };
    drop(came);
    drop(outside);
    added
}
