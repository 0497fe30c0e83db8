//! Calls of functions that the module imports, which the outside answers.

ghost use Rattle.std.specs.Prelude.{◌≡◌, IfOk};
ghost use Rattle.fact_wasm.specs.declared.instr.Instr.TheOpen as instr;
ghost use Rattle.fact_machine.specs.Machine.{act, func_import, ref_func as ref_func_of};
ghost use Rattle.fact_interpreter.specs.Running.{did_of, at, answering, asking, imported_typed, imported};

use crate::branches::throw;
use crate::calls::call_defined;
use crate::running::{Running, Step};
use crate::values::have_types;
use fact_machine::{Answer, CoreValue, End, Event, MachineState, OutOfMemory, TraceEntry};
use fact_wasm::{FuncName, FuncType, ImportType, Seq, WasmImport, WasmModule};
use std::alloc::Global;

/// The type index of the nth imported function.
pub fn imported_type_index(imports: &[WasmImport], n: u32) -> Option<u32>
    ensures { result ≡ func_import imports.now n }
{
    let mut before = n;
    let mut imports = imports;
    while let [first, rest @ ..] = imports {
        imports = rest;
        match first.ty {
            ImportType::Func(ty) if before == 0 => return Some(ty),
            ImportType::Func(_) => before -= 1,
            _ => {}
        }
    }
    None
}

/// Goes on by an answer that is in the trace already.
pub fn follow(run: &mut Running, alloc: Global, answer: &Answer) -> Step
    ensures { IfOk result (λ end. did_of end run.new ≡ at run.old (answering answer.now)) }
{
    match answer {
        Answer::Returns { results, state } => {
            run.state = state.try_clone()?;
            run.stack.push_all(results.as_slice())?;
            Ok(None)
        }
        Answer::Traps => Ok(Some(End::Trapped)),
        Answer::Throws => throw(run, alloc),
    }
}

/// A call with these arguments in a state, and its answer.
pub fn event_of(
    func: u32,
    args: Seq<CoreValue>,
    state: &MachineState,
    answer: &Answer,
) -> Result<Event, OutOfMemory>
    ensures { IfOk result (λ event. event ≡ record { func = func; args = args; before = state.now; answer = answer.now }) }
{
    let before = match state.try_clone() {
        Ok(before) => before,
        Err(error) => {
            drop(args);
            return Err(error);
        }
    };
    match answer.try_clone() {
        Ok(answer) => Ok(Event {
            func,
            args,
            before,
            answer,
        }),
        Err(error) => {
            drop(before);
            drop(args);
            Err(error)
        }
    }
}

/// Takes the next answer, with the call and the state before it in the trace.
fn ask(run: &mut Running, alloc: Global, func: u32, args: Seq<CoreValue>) -> Step
    ensures { IfOk result (λ end. did_of end run.new ≡ at run.old (asking func args)) }
{
    let [answer, rest @ ..] = run.answers else {
        return Ok(Some(End::Lacks));
    };
    run.answers = rest;
    let event = event_of(func, args, &run.state, answer)?;
    run.trace.push(TraceEntry::Called(event))?;
    follow(run, alloc, answer)
}

fn call_typed(run: &mut Running, alloc: Global, n: u32, ty: &FuncType) -> Step
    ensures { IfOk result (λ end. did_of end run.new ≡ at run.old (imported_typed n ty.now)) }
{
    let Some(top) = run.stack.grab(ty.params.len())? else {
        return Ok(Some(End::Stuck));
    };
    let args = top.into_values();
    if have_types(args.as_slice(), ty.params.as_slice()) {
        ask(run, alloc, n, args)
    } else {
        Ok(Some(End::Stuck))
    }
}

/// `call` of the nth imported function.
fn call_import(run: &mut Running, alloc: Global, module: &WasmModule, n: u32) -> Step
    ensures { IfOk result (λ end. did_of end run.new ≡ at run.old (imported «module».now n)) }
{
    let Some(ty) = imported_type_index(module.imports.as_slice(), n) else {
        return Ok(Some(End::Stuck));
    };
    let Some(ty) = module.types.get(ty as usize) else {
        return Ok(Some(End::Stuck));
    };
    call_typed(run, alloc, n, ty)
}

/// `call`.
pub fn call<'m>(
    run: &mut Running<'m>,
    alloc: Global,
    module: &'m WasmModule,
    func: FuncName,
) -> Step
    ensures { IfOk result (λ end. did_of end run.new ≡ at run.old (act «module».now (instr.Call func))) }
{
    match func {
        FuncName::Import(n) => call_import(run, alloc, module, n),
        FuncName::Defined(n) => call_defined(run, alloc, module, n),
    }
}

/// `ref.func`.
pub fn ref_func(run: &mut Running, module: &WasmModule, func: FuncName) -> Step
    ensures { IfOk result (λ end. did_of end run.new ≡ at run.old (ref_func_of «module».now func)) }
{
    let is_there = match func {
        FuncName::Import(n) => imported_type_index(module.imports.as_slice(), n).is_some(),
        FuncName::Defined(n) => module.funcs.get(n as usize).is_some(),
    };
    if !is_there {
        return Ok(Some(End::Stuck));
    }
    run.stack.push(CoreValue::Func(func))?;
    Ok(None)
}
