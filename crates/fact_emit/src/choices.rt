//! The choice of one of several bodies by a number.

ghost use Rattle.std.specs.Prelude.{IfOk, OnOk, List, [], ◌∷◌, ◌≡◌, ◌++◌, ◌+◌, ◌<◌, ◌^◌, length};
ghost use Rattle.fact_machine.specs.Exits.{nest};
ghost use Rattle.fact_wasm.specs.declared.instr.BlockType.TheVariants.{Empty};
ghost use Rattle.fact_wasm.specs.declared.instr.Instr.{Instr};
ghost use Rattle.fact_wasm.specs.declared.instr.Instr.TheVariants as I;
ghost use Rattle.fact_code_laws.specs.Choices.{chunk_number, place_in_chunk, IsChoice};
ghost use Rattle.fact_code_laws.specs.Code.{arms, cases_code, labels_from, sum_code, trap_code};
ghost use Rattle.fact_code_laws.specs.StringCode.{either_code};
ghost use Rattle.fact_emit.specs.Choices.{AreChunkCodes, HasChunks, WroteChoice};
ghost use Rattle.fact_emit.specs.Writers.{Wrote};

use crate::writer::Writer;
use fact_types::Trap;
use fact_wasm::{BlockType, FuncName, Instr, OutOfMemory, Seq};
use std::alloc::{AllocError, Global};
use std::mem;

/// So many labels, from the innermost on.
fn labels(alloc: Global, count: u32) -> Result<Seq<u32>, OutOfMemory>
    ensures { IfOk result (λ labels. labels ≡ labels_from 0 count) }
{
    let mut labels = Seq::new(alloc);
    for label in 0..count {
        labels.push(label)?;
    }
    Ok(labels)
}

/// A jump behind the block whose number is pushed, or else behind that of this number.
fn jump(alloc: Global, number: Vec<Instr>, count: u32) -> Result<Vec<Instr>, OutOfMemory>
    ensures { IfOk result (λ code. code.items ≡ number.items ++ I.BrTable (labels_from 0 count) count ∷ []) }
{
    let labels = labels(alloc, count)?;
    let mut code = number;
    code.push(Instr::BrTable(labels, count))?;
    Ok(code)
}

/// The code of a trap of this place.
fn trap_body(alloc: Global, place: u32) -> Result<Seq<Instr>, OutOfMemory>
    ensures { IfOk result (λ code. code ≡ trap_code place) }
{
    let code = vec![in alloc; Instr::Call(FuncName::Import(place)), Instr::Unreachable]?;
    Ok(Seq::from_vec(code))
}

/// A body behind the block of those before it, with so many behind it.
fn around(
    alloc: Global,
    inner: Vec<Instr>,
    body: Seq<Instr>,
    behind: u32,
) -> Result<Vec<Instr>, OutOfMemory>
    ensures { IfOk result (λ code. code.items ≡ I.Block Empty inner.items ∷ (body ++ I.Br behind ∷ [])) }
{
    let mut code = Vec::new(alloc);
    code.push(Instr::Block(BlockType::Empty, Seq::from_vec(inner)))?;
    let mut body = body.into_vec();
    code.append(&mut body)?;
    code.push(Instr::Br(behind))?;
    Ok(code)
}

/// Bodies, each behind the block of those before it, around an inner one.
fn nested(
    alloc: Global,
    inner: Vec<Instr>,
    bodies: Vec<Seq<Instr>>,
) -> Result<Vec<Instr>, OutOfMemory>
    requires { length bodies.items < 2 ^ 32 }
    ensures { IfOk result (λ code. code.items ≡ nest (arms bodies.items) inner.items) }
{
    let mut code = inner;
    let mut behind = bodies.len() as u32;
    for body in bodies {
        behind -= 1;
        code = around(alloc, code, body, behind)?;
    }
    Ok(code)
}

/// Runs the body whose number is pushed, of so many and the one behind them.
fn table(
    alloc: Global,
    number: Vec<Instr>,
    count: u32,
    bodies: Vec<Seq<Instr>>,
) -> Result<Instr, OutOfMemory>
    requires { length bodies.items < 2 ^ 32 }
    ensures { IfOk result (λ code. code ∷ [] ≡ cases_code number.items (labels_from 0 count) count bodies.items) }
{
    let inner = jump(alloc, number, count)?;
    let code = nested(alloc, inner, bodies)?;
    Ok(Instr::Block(BlockType::Empty, Seq::from_vec(code)))
}

/// Runs the body whose number is pushed, with a trap past the last one.
fn table_with_trap(
    alloc: Global,
    number: Vec<Instr>,
    place: u32,
    bodies: Vec<Seq<Instr>>,
) -> Result<Instr, OutOfMemory>
    requires { length bodies.items + 1 < 2 ^ 32 }
    ensures { IfOk result (λ code. code ∷ [] ≡ sum_code number.items place bodies.items) }
{
    let count = bodies.len() as u32;
    let last = trap_body(alloc, place)?;
    let mut all = bodies;
    all.push(last)?;
    let code = table(alloc, number, count, all)?;
    Ok(code)
}

/// Pushes the number in a local.
fn whole_number(alloc: Global, local: u32) -> Result<Vec<Instr>, OutOfMemory>
    ensures { IfOk result (λ code. code.items ≡ I.LocalGet local ∷ []) }
{
    let code = vec![in alloc; Instr::LocalGet(local)]?;
    Ok(code)
}

/// Pushes the number of the chunk of 64 that the number in a local is in.
fn number_of_chunk(alloc: Global, local: u32) -> Result<Vec<Instr>, OutOfMemory>
    ensures { IfOk result (λ code. code.items ≡ chunk_number (I.LocalGet local ∷ [])) }
{
    let code = vec![in alloc; Instr::LocalGet(local), Instr::I32Const(6), Instr::I32ShrU]?;
    Ok(code)
}

/// Pushes the place of the number in a local in its chunk of 64.
fn number_in_chunk(alloc: Global, local: u32) -> Result<Vec<Instr>, OutOfMemory>
    ensures { IfOk result (λ code. code.items ≡ place_in_chunk (I.LocalGet local ∷ [])) }
{
    let code = vec![in alloc; Instr::LocalGet(local), Instr::I32Const(63), Instr::I32And]?;
    Ok(code)
}

/// One instruction as a body.
fn body_of(alloc: Global, instr: Instr) -> Result<Seq<Instr>, OutOfMemory>
    ensures { IfOk result (λ body. body ≡ instr ∷ []) }
{
    let code = vec![in alloc; instr]?;
    Ok(Seq::from_vec(code))
}

/// Puts a body into the last chunk, behind the code of that chunk where it has 64 bodies.
fn put_in_chunk(
    alloc: Global,
    local: u32,
    codes: &mut Vec<Seq<Instr>>,
    chunk: &mut Vec<Seq<Instr>>,
    body: Seq<Instr>,
) -> Result<(), OutOfMemory>
    ensures { OnOk result ((done : List (List Instr)) → HasChunks (I.LocalGet local ∷ []) done codes.old.items chunk.old.items → HasChunks (I.LocalGet local ∷ []) (done ++ body ∷ []) codes.new.items chunk.new.items) }
{
    if chunk.len() == 64 {
        let full = mem::replace(chunk, Vec::new(alloc));
        let number = number_in_chunk(alloc, local)?;
        let code = table(alloc, number, 63, full)?;
        codes.push(body_of(alloc, code)?)?;
    }
    chunk.push(body)?;
    Ok(())
}

/// The code of each chunk of 64 bodies, and of those behind them, with a trap past the last one.
fn chunk_bodies(
    alloc: Global,
    local: u32,
    place: u32,
    bodies: Vec<Seq<Instr>>,
) -> Result<Vec<Seq<Instr>>, OutOfMemory>
    ensures { IfOk result (λ codes. AreChunkCodes (I.LocalGet local ∷ []) place bodies.items codes.items) }
{
    let mut codes = Vec::new(alloc);
    let mut chunk = Vec::new(alloc);
    for body in bodies {
        put_in_chunk(alloc, local, &mut codes, &mut chunk, body)?;
    }
    let number = number_in_chunk(alloc, local)?;
    let last = table_with_trap(alloc, number, place, chunk)?;
    codes.push(body_of(alloc, last)?)?;
    Ok(codes)
}

/// The choice of the body whose number a local holds, with a trap past the last one: in one table of at most 64, or in two levels.
fn choice(
    alloc: Global,
    local: u32,
    place: u32,
    bodies: Vec<Seq<Instr>>,
) -> Result<Instr, OutOfMemory>
    requires { length bodies.items + 1 < 2 ^ 32 }
    ensures { IfOk result (λ code. IsChoice (I.LocalGet local ∷ []) place bodies.items (code ∷ [])) }
{
    if bodies.len() <= 64 {
        let number = whole_number(alloc, local)?;
        let code = table_with_trap(alloc, number, place, bodies)?;
        return Ok(code);
    }
    let codes = chunk_bodies(alloc, local, place, bodies)?;
    let number = number_of_chunk(alloc, local)?;
    let code = table_with_trap(alloc, number, place, codes)?;
    Ok(code)
}

/// Runs the body whose number a local of type i32 holds, with a trap past the last one. At most 64 bodies stand in blocks within
/// one another, and at most as many chunks of 64 of them as there are.
pub fn put_cases(w: &mut Writer, local: u32, bodies: Vec<Seq<Instr>>) -> Result<(), OutOfMemory>
    ensures { OnOk result (WroteChoice w.old w.new local bodies.items) }
{
    if bodies.len() >= u32::MAX as usize {
        return Err(AllocError);
    }
    let place = w.trap(Trap::InvalidDiscriminant)?;
    let code = choice(w.alloc, local, place, bodies)?;
    w.put(code)?;
    Ok(())
}

/// Runs one body where a test gives no 0, and another where it gives 0.
pub fn put_either(
    w: &mut Writer,
    test: Vec<Instr>,
    if_true: Seq<Instr>,
    if_false: Seq<Instr>,
) -> Result<(), OutOfMemory>
    ensures { OnOk result (Wrote w.old w.new (either_code test.items if_true if_false)) }
{
    let bodies = vec![in w.alloc; if_false, if_true]?;
    let code = table(w.alloc, test, 1, bodies)?;
    w.put(code)?;
    Ok(())
}
