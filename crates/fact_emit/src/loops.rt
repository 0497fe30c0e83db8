//! Loops around a body: until a test in front of it holds, and so many times.

ghost use Rattle.std.specs.Prelude.{IfOk, OnOk, ◌≡◌, ◌++◌};
ghost use Rattle.fact_code_laws.specs.Code.{turn_code, counted_code};
ghost use Rattle.fact_code_laws.specs.FixedLists.{again_code, countdown_code};
ghost use Rattle.fact_emit.specs.Writers.{Wrote};

use crate::writer::Writer;
use fact_wasm::{BlockType, Instr, OutOfMemory, Seq};

/// A turn of a loop: a test, and a body where it gives 0.
fn turn(test: Vec<Instr>, body: Seq<Instr>) -> Result<Seq<Instr>, OutOfMemory>
    ensures { IfOk result (λ code. code ≡ turn_code test.items body) }
{
    let mut code = test;
    code.push(Instr::BrIf(1))?;
    let mut body = body.into_vec();
    code.append(&mut body)?;
    code.push(Instr::Br(0))?;
    Ok(Seq::from_vec(code))
}

/// Runs a body again and again, until a test in front of it gives no 0.
pub fn put_counted(w: &mut Writer, test: Vec<Instr>, body: Seq<Instr>) -> Result<(), OutOfMemory>
    ensures { OnOk result (Wrote w.old w.new (counted_code test.items body)) }
{
    let mut code = Vec::new(w.alloc);
    let turn = turn(test, body)?;
    code.push(Instr::Loop(BlockType::Empty, turn))?;
    w.put(Instr::Block(BlockType::Empty, Seq::from_vec(code)))?;
    Ok(())
}

/// A body, and behind it a branch to its begin where a local of type i32 holds more than 1, which counts down.
fn counted_body(body: Seq<Instr>, left: u32) -> Result<Seq<Instr>, OutOfMemory>
    ensures { IfOk result (λ code. code ≡ body ++ again_code left) }
{
    let mut code = body.into_vec();
    code.push(Instr::LocalGet(left))?;
    code.push(Instr::I32Const(u32::MAX))?;
    code.push(Instr::I32Add)?;
    code.push(Instr::LocalTee(left))?;
    code.push(Instr::BrIf(0))?;
    Ok(Seq::from_vec(code))
}

/// Runs a body as many times as a local of type i32 says, which is at least once.
pub fn put_countdown(w: &mut Writer, left: u32, body: Seq<Instr>) -> Result<(), OutOfMemory>
    ensures { OnOk result (Wrote w.old w.new (countdown_code left body)) }
{
    let code = counted_body(body, left)?;
    w.put(Instr::Loop(BlockType::Empty, code))?;
    Ok(())
}
