//! Calls of functions that the module defines (core specification, "Execution", "Instructions", "Invocation").

ghost use Rattle.std.specs.Prelude.{◌≡◌, IfOk};
ghost use Rattle.fact_machine.specs.Machine.{takes as takes_of};
ghost use Rattle.fact_interpreter.specs.Running.{did_of, at, defined, typed, framed, bodied};

use crate::locals::first_locals;
use crate::running::{Entry, Running, Step};
use crate::stack::Stack;
use crate::values::have_types;
use fact_machine::{CoreValue, End};
use fact_wasm::{FuncType, Instr, ValType, WasmFunc, WasmModule};
use std::alloc::Global;
use std::mem;

/// Begins a function's body, with its operands off the stack.
#[tactic(auto, using(crate::proofs::Entries::around_push))]
fn push_frame<'m>(
    run: &mut Running<'m>,
    alloc: Global,
    func: &'m WasmFunc,
    args: &[CoreValue],
    results: &'m [ValType],
) -> Step
    ensures { IfOk result (λ end. did_of end run.new ≡ at run.old (framed func.now args.now results.now)) }
{
    let locals = mem::replace(&mut run.locals, first_locals(alloc, func, args)?);
    let below = mem::replace(&mut run.stack, Stack::new(alloc));
    let rest = run.code;
    run.around.push(Entry::Frame {
        results,
        locals,
        below,
        rest,
    })?;
    push_body(run, alloc, func.body.as_slice(), results.len())
}

/// Begins a body that a branch to its outermost label ends.
#[tactic(auto, using(crate::proofs::Entries::around_push))]
fn push_body<'m>(run: &mut Running<'m>, alloc: Global, body: &'m [Instr], results: usize) -> Step
    ensures { IfOk result (λ end. did_of end run.new ≡ at run.old (bodied body.now results)) }
{
    run.around.push(Entry::Label {
        arity: results,
        below: Stack::new(alloc),
        to: &[],
        rest: &[],
        catches: &[],
    })?;
    run.code = body;
    Ok(None)
}

fn call_typed<'m>(
    run: &mut Running<'m>,
    alloc: Global,
    func: &'m WasmFunc,
    ty: &'m FuncType,
) -> Step
    ensures { IfOk result (λ end. did_of end run.new ≡ at run.old (typed func.now ty.now)) }
{
    let Some(top) = run.stack.grab(ty.params.len())? else {
        return Ok(Some(End::Stuck));
    };
    let args = top.into_values();
    if have_types(args.as_slice(), ty.params.as_slice()) {
        push_frame(run, alloc, func, args.as_slice(), ty.results.as_slice())
    } else {
        Ok(Some(End::Stuck))
    }
}

/// `call` of the nth function that the module defines.
pub fn call_defined<'m>(
    run: &mut Running<'m>,
    alloc: Global,
    module: &'m WasmModule,
    n: u32,
) -> Step
    ensures { IfOk result (λ end. did_of end run.new ≡ at run.old (defined «module».now n)) }
{
    let Some(func) = module.funcs.get(n as usize) else {
        return Ok(Some(End::Stuck));
    };
    let Some(ty) = module.types.get(func.ty as usize) else {
        return Ok(Some(End::Stuck));
    };
    call_typed(run, alloc, func, ty)
}

/// Whether the nth function that the module defines is there, and takes these arguments.
pub fn takes(module: &WasmModule, n: u32, args: &[CoreValue]) -> bool
    ensures { result ≡ takes_of «module».now n args.now }
{
    let Some(func) = module.funcs.get(n as usize) else {
        return false;
    };
    let Some(ty) = module.types.get(func.ty as usize) else {
        return false;
    };
    have_types(args, ty.params.as_slice())
}
