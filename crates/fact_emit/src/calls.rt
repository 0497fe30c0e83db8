//! Calls of functions of the runtime.

ghost use Rattle.std.specs.Prelude.{OnOk};
ghost use Rattle.fact_emit.specs.Emits.{Emits};
ghost use Rattle.fact_emit.specs.RuntimeCalls.{CallsRuntime};

use crate::imported::RuntimeFunction;
use crate::writer::Writer;
use fact_wasm::{FuncName, Instr, OutOfMemory};

/// Calls a function of the runtime with what stands on the operand stack.
pub fn call_runtime(w: &mut Writer, function: RuntimeFunction) -> Result<(), OutOfMemory>
    ensures { OnOk result (Emits w.old w.new (CallsRuntime function)) }
{
    let place = w.runtime(function)?;
    w.put(Instr::Call(FuncName::Import(place)))?;
    Ok(())
}
