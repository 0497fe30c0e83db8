//! Runs whose outside is asked, call by call.

ghost use Rattle.std.specs.Prelude.{List, ◌≡◌, ◌≢◌, [], ◌∷◌, ◌++◌, IfOk};
ghost use Rattle.fact_machine.specs.declared.types.Event.{Event as an_event};
ghost use Rattle.fact_interpreter.specs.Asked.{DoesAsked, at_with, step_with, begins_with_import};
ghost use Rattle.fact_machine.specs.Machine.{func_import};
ghost use Rattle.fact_interpreter.specs.Running.{asking, imported, imported_typed, world_of};
ghost use Rattle.fact_machine.specs.World.{log_of};

use crate::begin::begin;
use crate::outside::{event_of, follow, imported_type_index};
use crate::running::{Running, Step};
use crate::values::have_types;
use fact_machine::{Answer, CoreValue, End, MachineState, OutOfMemory, TraceEntry};
use fact_wasm::{FuncName, FuncType, Instr, Seq, WasmModule};
use std::alloc::Global;

/// What answers the outside calls of a run.
pub trait Outside {
    /// The calls that it answered, in order.
    ghost events: { Self → List an_event };

    /// What has to hold of it before each call, and holds behind it.
    ghost lawful: { Self → Type 0 };

    /// What stays of it from one time to a later one, whatever it answered meanwhile.
    ghost stays: { Self → Self → Type 0 };

    /// The answer of a call of the nth imported function with these arguments in a state.
    fn answer(
        &mut self,
        func: u32,
        args: &[CoreValue],
        state: &MachineState,
    ) -> Result<Answer, OutOfMemory>
        requires { lawful self.old }
        ensures lawful { lawful self.new }
        ensures stays { (first : Self) → stays first self.old → stays first self.new }
        ensures answered { IfOk result (λ answer. events self.new ≡ events self.old ++ record { func = func; args = args.now; before = state.now; answer = answer } ∷ []) };
}

/// Takes the answer of the outside, with the call and the state before it in the trace.
fn ask_outside<O: Outside>(
    run: &mut Running,
    alloc: Global,
    func: u32,
    args: Seq<CoreValue>,
    outside: &mut O,
) -> Step
    requires none { run.old.answers.now ≡ [] }
    requires lawful { O.lawful outside.old }
    ensures lawful { O.lawful outside.new }
    ensures stays { (first : O) → O.stays first outside.old → O.stays first outside.new }
    ensures does { IfOk result (λ end. DoesAsked (at_with run.old (asking func args)) (O.events outside.old) (O.events outside.new) (log_of (world_of run.old)) end run.new) }
{
    let answer = match outside.answer(func, args.as_slice(), &run.state) {
        Ok(answer) => answer,
        Err(error) => {
            drop(args);
            return Err(error);
        }
    };
    let step = take_answer(run, alloc, func, args, &answer);
    drop(answer);
    step
}

/// Goes on by an answer, with the call and the state before it in the trace.
fn take_answer(
    run: &mut Running,
    alloc: Global,
    func: u32,
    args: Seq<CoreValue>,
    answer: &Answer,
) -> Step
    requires none { run.old.answers.now ≡ [] }
    ensures { IfOk result (λ end. DoesAsked (at_with run.old (asking func args)) [] (record { func = func; args = args; before = run.old.state; answer = answer.now } ∷ []) (log_of (world_of run.old)) end run.new) }
{
    let event = event_of(func, args, &run.state, answer)?;
    run.trace.push(TraceEntry::Called(event))?;
    follow(run, alloc, answer)
}

/// A call of an imported function of a type.
fn call_typed<O: Outside>(
    run: &mut Running,
    alloc: Global,
    n: u32,
    ty: &FuncType,
    outside: &mut O,
) -> Step
    requires none { run.old.answers.now ≡ [] }
    requires lawful { O.lawful outside.old }
    ensures lawful { O.lawful outside.new }
    ensures stays { (first : O) → O.stays first outside.old → O.stays first outside.new }
    ensures does { IfOk result (λ end. DoesAsked (at_with run.old (imported_typed n ty.now)) (O.events outside.old) (O.events outside.new) (log_of (world_of run.old)) end run.new) }
{
    let Some(top) = run.stack.grab(ty.params.len())? else {
        return Ok(Some(End::Stuck));
    };
    let args = top.into_values();
    if have_types(args.as_slice(), ty.params.as_slice()) {
        ask_outside(run, alloc, n, args, outside)
    } else {
        Ok(Some(End::Stuck))
    }
}

/// `call` of the nth imported function.
fn call_import<O: Outside>(
    run: &mut Running,
    alloc: Global,
    module: &WasmModule,
    n: u32,
    outside: &mut O,
) -> Step
    requires none { run.old.answers.now ≡ [] }
    requires lawful { O.lawful outside.old }
    ensures lawful { O.lawful outside.new }
    ensures stays { (first : O) → O.stays first outside.old → O.stays first outside.new }
    ensures does { IfOk result (λ end. DoesAsked (at_with run.old (imported «module».now n)) (O.events outside.old) (O.events outside.new) (log_of (world_of run.old)) end run.new) }
{
    let Some(ty) = imported_type_index(module.imports.as_slice(), n) else {
        return Ok(Some(End::Stuck));
    };
    let Some(ty) = module.types.get(ty as usize) else {
        return Ok(Some(End::Stuck));
    };
    call_typed(run, alloc, n, ty, outside)
}

/// The number of the imported function that code begins with a call of.
fn import_called(code: &[Instr]) -> Option<u32>
    ensures { result ≡ begins_with_import code.now }
{
    match code {
        [Instr::Call(FuncName::Import(n)), ..] => Some(*n),
        _ => None,
    }
}

/// Begins the next instruction, which is there.
pub fn begin_asked<'m, O: Outside>(
    run: &mut Running<'m>,
    alloc: Global,
    module: &'m WasmModule,
    outside: &mut O,
) -> Step
    requires there { run.old.code.now ≢ [] }
    requires none { run.old.answers.now ≡ [] }
    requires lawful { O.lawful outside.old }
    ensures lawful { O.lawful outside.new }
    ensures stays { (first : O) → O.stays first outside.old → O.stays first outside.new }
    ensures does { IfOk result (λ end. DoesAsked (step_with «module».now run.old) (O.events outside.old) (O.events outside.new) (log_of (world_of run.old)) end run.new) }
{
    match import_called(run.code) {
        Some(n) => {
            run.code = &run.code[1..];
            call_import(run, alloc, module, n, outside)
        }
        None => begin(run, alloc, module),
    }
}
