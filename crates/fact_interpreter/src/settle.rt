//! The ends of bodies, which take no step (core specification, "Execution", "Instructions", "Exiting" and "Returning").

ghost use Rattle.std.specs.Prelude.{◌≡◌, IfOk};
ghost use Rattle.fact_interpreter.specs.Running.{IsSettled};

use crate::running::{Entry, Running};
use crate::values::have_types;
use fact_machine::OutOfMemory;

/// What comes next, once the bodies whose end is reached are left.
#[derive(Clone, Copy)]
pub enum Settled {
    /// An instruction.
    Begins,
    /// Nothing: the run has its results.
    Finished,
    /// Nothing: the body of a call ended in values that are not its results.
    Breaks,
}

/// Leaves the bodies whose end is reached, and answers what comes next.
pub fn settle(run: &mut Running) -> Result<Settled, OutOfMemory>
    ensures { IfOk result (λ how. IsSettled how run.old run.new) }
{
    while run.code.is_empty() {
        match run.around.pop() {
            None => return Ok(Settled::Finished),
            Some(Entry::Label { below, rest, .. }) => {
                run.stack.lay_on(below)?;
                run.code = rest;
            }
            Some(
                Entry::Frame {
                    results,
                    locals,
                    below,
                    rest,
                },
            ) => {
                if !have_types(run.stack.as_slice(), results) {
                    return Ok(Settled::Breaks);
                }
                run.stack.lay_on(below)?;
                run.locals = locals;
                run.code = rest;
            }
        }
    }
    Ok(Settled::Begins)
}
