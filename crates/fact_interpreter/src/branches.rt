//! Branches and throws (core specification, "Execution", "Instructions", "Control Instructions").

ghost use Rattle.std.specs.Prelude.{◌≡◌, IfOk};
ghost use Rattle.fact_wasm.specs.declared.instr.Instr.TheOpen as instr;
ghost use Rattle.fact_interpreter.specs.Running.{did_of, at, plain_row, branching, throwing};

use crate::running::{Entry, Running, Step};
use crate::stack::Stack;
use fact_machine::{CoreValue, End};
use std::alloc::Global;

/// A branch to a label, which counts labels from the innermost one, 0.
pub fn branch(run: &mut Running, label: u32) -> Step
    ensures { IfOk result (λ end. did_of end run.new ≡ at run.old (branching label)) }
{
    for _ in 0..label {
        match run.around.pop() {
            None => return Ok(Some(End::Stuck)),
            Some(Entry::Frame { .. }) => return Ok(Some(End::Stuck)),
            Some(Entry::Label { .. }) => {}
        }
    }
    branch_here(run)
}

/// A branch to the innermost label.
fn branch_here(run: &mut Running) -> Step
    ensures { IfOk result (λ end. did_of end run.new ≡ at run.old (branching 0)) }
{
    match run.around.pop() {
        None => Ok(Some(End::Stuck)),
        Some(Entry::Frame { .. }) => Ok(Some(End::Stuck)),
        Some(
            Entry::Label {
                arity,
                below,
                to,
                ..
            },
        ) => {
            let Some(mut top) = run.stack.grab(arity)? else {
                return Ok(Some(End::Stuck));
            };
            top.lay_on(below)?;
            run.stack = top;
            run.code = to;
            Ok(None)
        }
    }
}

/// `br_if`.
pub fn br_if(run: &mut Running, label: u32) -> Step
    ensures { IfOk result (λ end. did_of end run.new ≡ at run.old (plain_row (instr.BrIf label))) }
{
    match run.stack.pop() {
        Some(CoreValue::I32(0)) => Ok(None),
        Some(CoreValue::I32(_)) => branch(run, label),
        _ => Ok(Some(End::Stuck)),
    }
}

/// `br_table`.
pub fn br_table(run: &mut Running, labels: &[u32], last: u32) -> Step
    ensures { IfOk result (λ end. did_of end run.new ≡ at run.old (plain_row (instr.BrTable labels.now last))) }
{
    let Some(CoreValue::I32(i)) = run.stack.pop() else {
        return Ok(Some(End::Stuck));
    };
    match labels.get(i as usize) {
        Some(label) => branch(run, *label),
        None => branch(run, last),
    }
}

/// A throw, to the innermost label that catches.
#[tactic(auto, using(crate::proofs::Entries::around_push))]
pub fn throw(run: &mut Running, alloc: Global) -> Step
    ensures { IfOk result (λ end. did_of end run.new ≡ at run.old throwing) }
{
    while let Some(entry) = run.around.pop() {
        match entry {
            Entry::Frame { locals, .. } => run.locals = locals,
            Entry::Label { catches, .. } => {
                if let [label, ..] = catches {
                    run.stack = Stack::new(alloc);
                    return branch(run, *label);
                }
            }
        }
    }
    Ok(Some(End::Thrown))
}
