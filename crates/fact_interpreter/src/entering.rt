//! Blocks, loops and conditions (core specification, "Execution", "Instructions", "Control Instructions").

ghost use Rattle.std.specs.Prelude.{◌≡◌, IfOk};
ghost use Rattle.fact_wasm.specs.declared.instr.Instr.TheOpen as instr;
ghost use Rattle.fact_machine.specs.Machine.{act, block_arity, try_table};
ghost use Rattle.fact_interpreter.specs.Running.{did_of, at, looping};

use crate::running::{Entry, Running, Step};
use fact_machine::{CoreValue, End};
use fact_wasm::{BlockType, FuncType, Instr, Seq, WasmModule};
use std::mem;

/// The numbers of parameters and results of a block.
fn arity(types: &[FuncType], ty: BlockType) -> Option<(usize, usize)>
    ensures { result ≡ block_arity types.now ty }
{
    match ty {
        BlockType::Empty => Some((0, 0)),
        BlockType::Result(_) => Some((0, 1)),
        BlockType::FunctionType(n) => match types.get(n as usize) {
            Some(ty) => Some((ty.params.len(), ty.results.len())),
            None => None,
        },
    }
}

/// `block` and `try_table`, whose branches end them. The labels are those of the `catch_all` clauses.
pub fn block<'m>(
    run: &mut Running<'m>,
    module: &WasmModule,
    ty: BlockType,
    catches: &'m [u32],
    body: &'m [Instr],
) -> Step
    ensures { IfOk result (λ end. did_of end run.new ≡ at run.old (try_table «module».now ty catches.now body.now)) }
{
    let Some((takes, gives)) = arity(module.types.as_slice(), ty) else {
        return Ok(Some(End::Stuck));
    };
    let Some(top) = run.stack.grab(takes)? else {
        return Ok(Some(End::Stuck));
    };
    let below = mem::replace(&mut run.stack, top);
    let rest = run.code;
    run.around.push(Entry::Label {
        arity: gives,
        below,
        to: rest,
        rest,
        catches,
    })?;
    run.code = body;
    Ok(None)
}

/// `loop`, whose branches go on at the code that begins with it.
pub fn again<'m>(
    run: &mut Running<'m>,
    module: &WasmModule,
    ty: BlockType,
    body: &'m [Instr],
    to: &'m [Instr],
) -> Step
    ensures { IfOk result (λ end. did_of end run.new ≡ at run.old (looping «module».now ty body.now to.now)) }
{
    let Some((takes, _)) = arity(module.types.as_slice(), ty) else {
        return Ok(Some(End::Stuck));
    };
    let Some(top) = run.stack.grab(takes)? else {
        return Ok(Some(End::Stuck));
    };
    let below = mem::replace(&mut run.stack, top);
    let rest = run.code;
    run.around.push(Entry::Label {
        arity: takes,
        below,
        to,
        rest,
        catches: &[],
    })?;
    run.code = body;
    Ok(None)
}

/// `if`, with its two bodies.
pub fn if_else<'m>(
    run: &mut Running<'m>,
    module: &WasmModule,
    ty: BlockType,
    body: &'m [Instr],
    other: &'m Option<Seq<Instr>>,
) -> Step
    ensures { IfOk result (λ end. did_of end run.new ≡ at run.old (act «module».now (instr.If ty body.now other.now))) }
{
    let Some(CoreValue::I32(condition)) = run.stack.pop() else {
        return Ok(Some(End::Stuck));
    };
    if condition != 0 {
        return block(run, module, ty, &[], body);
    }
    match other {
        Some(other) => block(run, module, ty, &[], other.as_slice()),
        None => block(run, module, ty, &[], &[]),
    }
}
