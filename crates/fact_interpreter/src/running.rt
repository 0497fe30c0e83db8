//! A machine that runs.

use crate::stack::Stack;
use fact_machine::{Answer, CoreValue, End, MachineState, OutOfMemory, TraceEntry};
use fact_wasm::{Instr, Seq, ValType};

/// The end that a step leads to, or `None` where the run goes on.
pub type Step = Result<Option<End>, OutOfMemory>;

/// What stands around the code that runs, with the operand stack below it.
#[derive(Drop)]
pub enum Entry<'m> {
    /// A label: how many values a branch to it takes, where a branch and where its end goes on, and the labels, counted
    /// from outside it, that its catch_all clauses branch to.
    Label {
        arity: usize,
        below: Stack,
        to: &'m [Instr],
        rest: &'m [Instr],
        catches: &'m [u32],
    },
    /// A call: the types of its results, and the locals and the rest of the caller.
    Frame {
        results: &'m [ValType],
        locals: Seq<Option<CoreValue>>,
        below: Stack,
        rest: &'m [Instr],
    },
}

/// What a run works on: the state, the answers that are left, what the outside saw so far, and the code that is left in
/// its frame. The innermost entry of `around` is its last.
#[derive(Drop)]
pub struct Running<'m> {
    pub state: MachineState,
    pub answers: &'m [Answer],
    pub trace: Seq<TraceEntry>,
    pub stack: Stack,
    pub locals: Seq<Option<CoreValue>>,
    pub code: &'m [Instr],
    pub around: Seq<Entry<'m>>,
}
