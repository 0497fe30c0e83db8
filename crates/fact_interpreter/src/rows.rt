//! Rows of the instruction table: constants, `drop`, `select`, locals and globals (core specification, "Execution", "Instructions").

ghost use Rattle.std.specs.Prelude.{◌≡◌, IfOk};
ghost use Rattle.fact_wasm.specs.declared.instr.Instr.TheOpen as instr;
ghost use Rattle.fact_interpreter.specs.Running.{did_of, at, plain_row, pushing, assign as assigned};
ghost use Rattle.fact_machine.specs.Operands.{alike as alike_of};

use crate::running::{Running, Step};
use crate::values::{has_type, may_follow, type_of};
use fact_machine::{CoreValue, End, TraceEntry};

/// A constant.
pub fn constant(run: &mut Running, value: CoreValue) -> Step
    ensures { IfOk result (λ end. did_of end run.new ≡ at run.old (pushing value)) }
{
    run.stack.push(value)?;
    Ok(None)
}

/// `drop`.
pub fn drop_one(run: &mut Running) -> Option<End>
    ensures { did_of result run.new ≡ at run.old (plain_row instr.Drop) }
{
    match run.stack.pop() {
        Some(_) => None,
        None => Some(End::Stuck),
    }
}

/// Whether two values are numbers of one type.
fn alike(u: CoreValue, v: CoreValue) -> bool
    ensures { result ≡ alike_of u v }
{
    match (u, v) {
        (CoreValue::I32(_), CoreValue::I32(_)) => true,
        (CoreValue::I64(_), CoreValue::I64(_)) => true,
        (CoreValue::F32(_), CoreValue::F32(_)) => true,
        (CoreValue::F64(_), CoreValue::F64(_)) => true,
        _ => false,
    }
}

/// `select`.
pub fn select(run: &mut Running) -> Step
    ensures { IfOk result (λ end. did_of end run.new ≡ at run.old (plain_row instr.Select)) }
{
    let Some(CoreValue::I32(condition)) = run.stack.pop() else {
        return Ok(Some(End::Stuck));
    };
    let Some(v) = run.stack.pop() else {
        return Ok(Some(End::Stuck));
    };
    let Some(u) = run.stack.pop() else {
        return Ok(Some(End::Stuck));
    };
    if !alike(u, v) {
        return Ok(Some(End::Stuck));
    }
    run.stack.push(if condition != 0 { u } else { v })?;
    Ok(None)
}

/// `local.get`.
pub fn local_get(run: &mut Running, n: u32) -> Step
    ensures { IfOk result (λ end. did_of end run.new ≡ at run.old (plain_row (instr.LocalGet n))) }
{
    let Some(&Some(value)) = run.locals.get(n as usize) else {
        return Ok(Some(End::Stuck));
    };
    run.stack.push(value)?;
    Ok(None)
}

/// Sets a local that is there to a value of its type.
fn assign(run: &mut Running, n: u32, value: CoreValue) -> Option<End>
    ensures { did_of result run.new ≡ at run.old (assigned n value) }
{
    let Some(&old) = run.locals.get(n as usize) else {
        return Some(End::Stuck);
    };
    if !may_follow(old, value) {
        return Some(End::Stuck);
    }
    let _old = run.locals.set(n as usize, Some(value));
    None
}

/// `local.set`.
pub fn local_set(run: &mut Running, n: u32) -> Option<End>
    ensures { did_of result run.new ≡ at run.old (plain_row (instr.LocalSet n)) }
{
    let Some(value) = run.stack.pop() else {
        return Some(End::Stuck);
    };
    assign(run, n, value)
}

/// `local.tee`.
pub fn local_tee(run: &mut Running, n: u32) -> Step
    ensures { IfOk result (λ end. did_of end run.new ≡ at run.old (plain_row (instr.LocalTee n))) }
{
    let Some(value) = run.stack.pop() else {
        return Ok(Some(End::Stuck));
    };
    run.stack.push(value)?;
    Ok(assign(run, n, value))
}

/// `global.get`.
pub fn global_get(run: &mut Running, n: u32) -> Step
    ensures { IfOk result (λ end. did_of end run.new ≡ at run.old (plain_row (instr.GlobalGet n))) }
{
    let Some(&value) = run.state.globals.get(n as usize) else {
        return Ok(Some(End::Stuck));
    };
    run.stack.push(value)?;
    Ok(None)
}

/// `global.set`.
pub fn global_set(run: &mut Running, n: u32) -> Step
    ensures { IfOk result (λ end. did_of end run.new ≡ at run.old (plain_row (instr.GlobalSet n))) }
{
    let Some(value) = run.stack.pop() else {
        return Ok(Some(End::Stuck));
    };
    let Some(&old) = run.state.globals.get(n as usize) else {
        return Ok(Some(End::Stuck));
    };
    if !has_type(value, type_of(old)) {
        return Ok(Some(End::Stuck));
    }
    run.trace.push(TraceEntry::GlobalSet { index: n, value })?;
    let _old = run.state.globals.set(n as usize, value);
    Ok(None)
}
