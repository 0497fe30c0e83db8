//! Barriers: a body that was written into a buffer of its own is put into a block in which what is thrown becomes a trap.

ghost use Rattle.std.specs.Prelude.{IfOk, OnOk, [], ◌∷◌, ◌≡◌};
ghost use Rattle.fact_wasm.specs.declared.instr.BlockType.TheVariants.{Empty};
ghost use Rattle.fact_wasm.specs.declared.instr.Instr.TheVariants as I;
ghost use Rattle.fact_code_laws.specs.Code.{barrier_code};
ghost use Rattle.fact_emit.specs.Barriers.{WroteBarrier};

use crate::writer::Writer;
use fact_types::Trap;
use fact_wasm::{BlockType, FuncName, Instr, OutOfMemory, Seq};
use std::alloc::Global;

/// A body that catches everything, and a branch behind it past the handler.
fn tried(alloc: Global, body: Seq<Instr>) -> Result<Seq<Instr>, OutOfMemory>
    ensures { IfOk result (λ code. code ≡ I.TryTable Empty (0 ∷ []) body ∷ I.Br 1 ∷ []) }
{
    let catches = vec![in alloc; 0]?;
    let code = vec![in alloc;
        Instr::TryTable(BlockType::Empty, Seq::from_vec(catches), body),
        Instr::Br(1),
    ]?;
    Ok(Seq::from_vec(code))
}

/// A body, with a handler behind it that calls the trap of this place.
fn barrier(alloc: Global, body: Seq<Instr>, place: u32) -> Result<Instr, OutOfMemory>
    ensures { IfOk result (λ i. i ∷ [] ≡ barrier_code body place) }
{
    let inner = tried(alloc, body)?;
    let code = vec![in alloc;
        Instr::Block(BlockType::Empty, inner),
        Instr::Call(FuncName::Import(place)),
        Instr::Unreachable,
    ]?;
    Ok(Instr::Block(BlockType::Empty, Seq::from_vec(code)))
}

/// Puts a body, which was written into a buffer of its own, into a barrier (core specification, "Control Instructions", `try_table`).
pub fn put_barrier(w: &mut Writer, body: Seq<Instr>) -> Result<(), OutOfMemory>
    ensures { OnOk result (WroteBarrier w.old w.new body) }
{
    let place = w.trap(Trap::UncaughtException)?;
    let barrier = barrier(w.alloc, body, place)?;
    w.put(barrier)?;
    Ok(())
}
