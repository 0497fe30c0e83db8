//! The steps of adapters around the moves of values.

ghost use Rattle.std.specs.Prelude.{◌<◌, IfSome, OnOk, length};
ghost use Rattle.fact_entity.specs.declared.id.Id as id;
ghost use Rattle.fact_emit.specs.Emits.{Emits};
ghost use Rattle.fact_emit.specs.Places.{slots_of_locals};
ghost use Rattle.fact_emit.specs.States.{functions_of};
ghost use Rattle.fact_emit.specs.Writers.{Wrote};
ghost use Rattle.fact_steps.specs.Code.{back_code, call_code, popped_code, pushed_code, started_code, zero_flags_code};
ghost use Rattle.fact_steps.specs.Steps.{ChecksMayLeave, EntersCall, ExitsCall, FinishesCall, RestoresAndFinishes, ReturnsPost};

use fact_emit::{
    ContextLocals, RuntimeFunction, TypedLocal, Writer, call_runtime, put_guard, read_context,
    restore_context,
};
use fact_entity::FuncIndex;
use fact_types::Trap;
use fact_wasm::{FuncName, Instr, OutOfMemory};

/// Pushes what locals hold, the first one first.
pub fn push_locals(w: &mut Writer, locals: &[TypedLocal]) -> Result<(), OutOfMemory>
    ensures { OnOk result (Wrote w.old w.new (pushed_code (slots_of_locals locals.now))) }
{
    for (at, local) in locals.iter().enumerate() {
        w.put(Instr::LocalGet(local.local))?;
    }
    Ok(())
}

/// Sets locals to values that were pushed so.
fn pop_locals(w: &mut Writer, locals: &[TypedLocal]) -> Result<(), OutOfMemory>
    ensures { OnOk result (Wrote w.old w.new (popped_code (slots_of_locals locals.now))) }
{
    let mut left = locals.len();
    while left > 0 {
        left -= 1;
        w.put(Instr::LocalSet(locals[left].local))?;
    }
    Ok(())
}

/// Keeps the flags of an instance in a local, and traps where they are 0: the instance may not be left.
pub fn check_may_leave(w: &mut Writer, flags: u32, saved: u32) -> Result<(), OutOfMemory>
    ensures { OnOk result (Emits w.old w.new (ChecksMayLeave flags saved)) }
{
    let test = vec![in w.alloc; Instr::GlobalGet(flags), Instr::LocalTee(saved)]?;
    put_guard(w, test, Trap::CannotLeaveComponent)?;
    Ok(())
}

/// Sets the flags of an instance to 0.
pub fn clear_flags(w: &mut Writer, flags: u32) -> Result<(), OutOfMemory>
    ensures { OnOk result (Wrote w.old w.new (zero_flags_code flags)) }
{
    w.put(Instr::I32Const(0))?;
    w.put(Instr::GlobalSet(flags))?;
    Ok(())
}

/// Keeps the flags of an instance in a local, and sets them to 0: values are moved to the instance, which may not be left meanwhile.
pub fn hold_flags(w: &mut Writer, flags: u32, saved: u32) -> Result<(), OutOfMemory>
    ensures { OnOk result (Wrote w.old w.new (started_code flags saved)) }
{
    w.put(Instr::GlobalGet(flags))?;
    w.put(Instr::LocalSet(saved))?;
    clear_flags(w, flags)?;
    Ok(())
}

/// Sets the flags of an instance to what a local holds.
pub fn restore_flags(w: &mut Writer, flags: u32, saved: u32) -> Result<(), OutOfMemory>
    ensures { OnOk result (Wrote w.old w.new (back_code flags saved)) }
{
    w.put(Instr::LocalGet(saved))?;
    w.put(Instr::GlobalSet(flags))?;
    Ok(())
}

/// Calls an imported function with what locals hold, once the flags of its instance are set to what a local holds, and sets other
/// locals to its results.
pub fn call_callee(
    w: &mut Writer,
    args: &[TypedLocal],
    flags: u32,
    saved: u32,
    function: u32,
    results: &[TypedLocal],
) -> Result<(), OutOfMemory>
    ensures { OnOk result (Wrote w.old w.new (call_code (slots_of_locals args.now) flags saved function (slots_of_locals results.now))) }
{
    push_locals(w, args)?;
    restore_flags(w, flags, saved)?;
    w.put(Instr::Call(FuncName::Import(function)))?;
    pop_locals(w, results)?;
    Ok(())
}

/// Where the runtime is told of a call, tells it that an instance is entered by a function whose type is not marked as async.
pub fn enter_call(w: &mut Writer, told: bool, instance: u32) -> Result<(), OutOfMemory>
    ensures { OnOk result (Emits w.old w.new (EntersCall told instance)) }
{
    if told {
        w.put(Instr::I32Const(0))?;
        w.put(Instr::I32Const(instance))?;
        call_runtime(w, RuntimeFunction::EnterSyncCall)?;
    }
    Ok(())
}

/// Where the runtime is told of a call, tells it that the instance is left again.
pub fn exit_call(w: &mut Writer, told: bool) -> Result<(), OutOfMemory>
    ensures { OnOk result (Emits w.old w.new (ExitsCall told)) }
{
    if told {
        call_runtime(w, RuntimeFunction::ExitSyncCall)?;
    }
    Ok(())
}

/// Calls a post-return with what the callee gave. Where the slots of the context are looked at, the callee's are set before the
/// call, and the adapter's own are set back behind it.
fn call_post_return(
    w: &mut Writer,
    function: u32,
    context: bool,
    callee: ContextLocals,
    own: ContextLocals,
    given: &[TypedLocal],
) -> Result<(), OutOfMemory>
    requires { function < length (functions_of w.old.sections) }
    ensures { OnOk result (Emits w.old w.new (ReturnsPost function context callee own (slots_of_locals given.now))) }
{
    read_context(w, context, own)?;
    restore_context(w, context, callee)?;
    push_locals(w, given)?;
    w.put(Instr::Call(FuncName::Import(function)))?;
    restore_context(w, context, own)?;
    Ok(())
}

/// Calls the post-return, where there is one.
fn finish_call(
    w: &mut Writer,
    post_return: Option<FuncIndex>,
    context: bool,
    callee: ContextLocals,
    own: ContextLocals,
    given: &[TypedLocal],
) -> Result<(), OutOfMemory>
    requires { IfSome post_return (λ (f : id.Id _). f.number < length (functions_of w.old.sections)) }
    ensures { OnOk result (Emits w.old w.new (FinishesCall post_return context callee own (slots_of_locals given.now))) }
{
    match post_return {
        Some(function) => {
            call_post_return(w, function.number, context, callee, own, given)?;
        }
        None => (),
    }
    Ok(())
}

/// Sets the flags of the lower side's instance to what a local holds, and then calls the post-return, where there is one.
pub fn restore_and_finish(
    w: &mut Writer,
    lower_flags: u32,
    lower_saved: u32,
    post_return: Option<FuncIndex>,
    context: bool,
    callee: ContextLocals,
    own: ContextLocals,
    given: &[TypedLocal],
) -> Result<(), OutOfMemory>
    requires { IfSome post_return (λ (f : id.Id _). f.number < length (functions_of w.old.sections)) }
    ensures { OnOk result (Emits w.old w.new (RestoresAndFinishes lower_flags lower_saved post_return context callee own (slots_of_locals given.now))) }
{
    restore_flags(w, lower_flags, lower_saved)?;
    finish_call(w, post_return, context, callee, own, given)?;
    Ok(())
}
