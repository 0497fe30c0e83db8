//! Equal copies of states of the machine and of answers of the outside, which fail where there is no memory for them.

ghost use Rattle.std.specs.Prelude.{◌≡◌, IfOk};

use crate::OutOfMemory;
use crate::types::{Answer, MachineState};
use fact_wasm::{Seq, copy_items};

fn copy_memories(memories: &Seq<Seq<u8>>) -> Result<Seq<Seq<u8>>, OutOfMemory>
    ensures { IfOk result (λ copy. copy ≡ memories.now) }
{
    let mut copies = memories.empty_like();
    for memory in memories.as_slice() {
        copies.push(copy_items(memory)?)?;
    }
    Ok(copies)
}

impl MachineState {
    /// An equal state.
    pub fn try_clone(&self) -> Result<MachineState, OutOfMemory>
        ensures { IfOk result (λ copy. copy ≡ self.now) }
    {
        let memories = copy_memories(&self.memories)?;
        let globals = copy_items(&self.globals)?;
        Ok(MachineState { memories, globals })
    }
}

/// An equal answer.
pub fn copy_answer(answer: &Answer) -> Result<Answer, OutOfMemory>
    ensures { IfOk result (λ copy. copy ≡ answer.now) }
{
    match answer {
        Answer::Returns { results, state } => Ok(Answer::Returns {
            results: copy_items(results)?,
            state: state.try_clone()?,
        }),
        Answer::Traps => Ok(Answer::Traps),
        Answer::Throws => Ok(Answer::Throws),
    }
}

impl Answer {
    /// An equal answer.
    pub fn try_clone(&self) -> Result<Answer, OutOfMemory>
        ensures { IfOk result (λ copy. copy ≡ self.now) }
    {
        copy_answer(self)
    }
}
