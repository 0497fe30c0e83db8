//! The code of sync adapters between two instances: their steps in order, over given locals.

ghost use Rattle.std.specs.Prelude.{OnOk, ◌≡◌};
ghost use Rattle.fact_compound.specs.Described.{CanBeCompiled};
ghost use Rattle.fact_compound.specs.Syncs.{EmitsSync};
ghost use Rattle.fact_compound.specs.Written.{WrittenBarred, WrittenCall, WrittenReturn, WrittenSteps, sync_places};

use crate::adapters::AdapterData;
use crate::tuples::{move_results, pass_params};
use fact_builder::ComponentTypesBuilder;
use fact_emit::{ContextLocals, TypedLocal, Writer, put_barrier, read_context};
use fact_kinds::Fuel;
use fact_steps::{
    call_callee, check_may_leave, clear_flags, enter_call, exit_call, hold_flags, push_locals,
    restore_and_finish,
};
use fact_types::ComponentTypes;
use fact_wasm::OutOfMemory;

/// What a sync adapter asks of the runtime: whether the slots of the context are saved around calls of realloc (`concurrency`), the
/// runtime is told of the call, the slots are looked at around the post-return (`context`), and what is thrown becomes a trap (`barrier`).
#[derive(Clone, Copy)]
pub struct CallOptions {
    pub concurrency: bool,
    pub told: bool,
    pub context: bool,
    pub barrier: bool,
}

/// The locals of a sync adapter: those of all arguments, of which the parameters are the first; those of the saved flags of the
/// lower and of the lift side; and those of the callee's parameters (`core`), of its results (`given`), and of the adapter's results.
/// Where the parameters are handed on as they are, `passed`, the callee's are the adapter's own. Where the slots of the context are
/// looked at, there are locals for what the callee left in them, and for the adapter's own.
#[derive(Clone, Copy)]
pub struct SyncLocals<'a> {
    pub passed: bool,
    pub args: &'a [TypedLocal],
    pub params: &'a [TypedLocal],
    pub saved: u32,
    pub lift_saved: u32,
    pub core: &'a [TypedLocal],
    pub given: &'a [TypedLocal],
    pub results: &'a [TypedLocal],
    pub callee_context: ContextLocals,
    pub own_context: ContextLocals,
}

/// Writes the steps of a sync adapter up to the call of its callee, which is imported.
fn put_call(
    types: &ComponentTypes,
    builder: &ComponentTypesBuilder,
    w: &mut Writer,
    fuel: &mut Fuel,
    adapter: &AdapterData,
    debug: bool,
    options: CallOptions,
    locals: SyncLocals<'_>,
) -> Result<(), OutOfMemory>
    requires can { CanBeCompiled types.now adapter.now w.old.sections }
    requires tables { builder.now.tables ≡ types.now }
    ensures { OnOk result (WrittenCall types.now adapter.now debug options (sync_places locals.entry) fuel.old fuel.new w.old w.new) }
{
    check_may_leave(w, adapter.lower.flags.number, locals.saved)?;
    enter_call(w, options.told, adapter.lift.instance.number)?;
    hold_flags(w, adapter.lift.flags.number, locals.lift_saved)?;
    pass_params(
        types,
        builder,
        w,
        fuel,
        adapter,
        debug,
        options.concurrency,
        locals.passed,
        locals.params,
        locals.core,
    )?;
    call_callee(
        w,
        locals.core,
        adapter.lift.flags.number,
        locals.lift_saved,
        adapter.callee.number,
        locals.given,
    )?;
    Ok(())
}

/// Writes the steps behind the call of the callee. The results stay in their locals.
fn put_return(
    types: &ComponentTypes,
    builder: &ComponentTypesBuilder,
    w: &mut Writer,
    fuel: &mut Fuel,
    adapter: &AdapterData,
    debug: bool,
    options: CallOptions,
    locals: SyncLocals<'_>,
) -> Result<(), OutOfMemory>
    requires can { CanBeCompiled types.now adapter.now w.old.sections }
    requires tables { builder.now.tables ≡ types.now }
    ensures { OnOk result (WrittenReturn types.now adapter.now debug options (sync_places locals.entry) fuel.old fuel.new w.old w.new) }
{
    let post_return = adapter.lift.post_return;
    let callee = locals.callee_context;
    let own = locals.own_context;
    read_context(w, options.context, callee)?;
    exit_call(w, options.told)?;
    clear_flags(w, adapter.lower.flags.number)?;
    move_results(
        types,
        builder,
        w,
        fuel,
        adapter,
        debug,
        options.concurrency,
        locals.given,
        locals.results,
        locals.args,
    )?;
    restore_and_finish(
        w,
        adapter.lower.flags.number,
        locals.saved,
        post_return,
        options.context,
        callee,
        own,
        locals.given,
    )?;
    Ok(())
}

/// Writes all steps of a sync adapter, whose callee and post-return are imported.
fn put_steps(
    types: &ComponentTypes,
    builder: &ComponentTypesBuilder,
    w: &mut Writer,
    fuel: &mut Fuel,
    adapter: &AdapterData,
    debug: bool,
    options: CallOptions,
    locals: SyncLocals<'_>,
) -> Result<(), OutOfMemory>
    requires can { CanBeCompiled types.now adapter.now w.old.sections }
    requires tables { builder.now.tables ≡ types.now }
    ensures { OnOk result (WrittenSteps types.now adapter.now debug options (sync_places locals.entry) fuel.old fuel.new w.old w.new) }
{
    put_call(types, builder, w, fuel, adapter, debug, options, locals)?;
    put_return(types, builder, w, fuel, adapter, debug, options, locals)?;
    Ok(())
}

/// Writes all steps of a sync adapter, in a barrier.
fn put_barred(
    types: &ComponentTypes,
    builder: &ComponentTypesBuilder,
    w: &mut Writer,
    fuel: &mut Fuel,
    adapter: &AdapterData,
    debug: bool,
    options: CallOptions,
    locals: SyncLocals<'_>,
) -> Result<(), OutOfMemory>
    requires can { CanBeCompiled types.now adapter.now w.old.sections }
    requires tables { builder.now.tables ≡ types.now }
    ensures { OnOk result (WrittenBarred types.now adapter.now debug options (sync_places locals.entry) fuel.old fuel.new w.old w.new) }
{
    let before = w.begin();
    let steps_written = put_steps(types, builder, w, fuel, adapter, debug, options, locals);
    let body = w.end(before);
    match steps_written {
        Ok(()) => put_barrier(w, body)?,
        Err(error) => {
            drop(body);
            return Err(error);
        }
    }
    Ok(())
}

/// Writes what a sync adapter does, whose callee and post-return are imported, and leaves its results on the operand stack.
pub fn put_sync(
    types: &ComponentTypes,
    builder: &ComponentTypesBuilder,
    w: &mut Writer,
    fuel: &mut Fuel,
    adapter: &AdapterData,
    debug: bool,
    options: CallOptions,
    locals: SyncLocals<'_>,
) -> Result<(), OutOfMemory>
    requires can { CanBeCompiled types.now adapter.now w.old.sections }
    requires tables { builder.now.tables ≡ types.now }
    ensures { OnOk result (EmitsSync types.now adapter.now debug options (sync_places locals.entry) fuel.old fuel.new w.old w.new) }
{
    if options.barrier {
        put_barred(types, builder, w, fuel, adapter, debug, options, locals)?;
    } else {
        put_steps(types, builder, w, fuel, adapter, debug, options, locals)?;
    }
    push_locals(w, locals.results)?;
    Ok(())
}
