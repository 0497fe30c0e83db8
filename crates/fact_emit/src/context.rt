//! The slots of the running task's context, saved in locals and set back (canonical ABI, `context.get`, `context.set`).

ghost use Rattle.std.specs.Prelude.{OnOk, [], ◌∷◌};
ghost use Rattle.fact_wasm.specs.Ranges.{AreRanged};
ghost use Rattle.fact_wasm.specs.declared.instr.Instr.TheVariants as I;
ghost use Rattle.fact_emit.specs.declared.imported.RuntimeFunction.TheVariants as function_is;
ghost use Rattle.fact_emit.specs.Emits.{Emits};
ghost use Rattle.fact_emit.specs.RuntimeCalls.{CallsAmid, ReadsSlots, SavesSlots, WritesSlots, ZeroesSlots};

use crate::calls::call_runtime;
use crate::imported::RuntimeFunction;
use crate::writer::Writer;
use fact_types::UnsafeIntrinsic;
use fact_wasm::{Instr, OutOfMemory};

/// Two locals of type i32 that hold what is in the two slots.
#[derive(Clone, Copy)]
pub struct ContextLocals {
    pub first: u32,
    pub second: u32,
}

/// Reads a slot, by a function that gives an i32, into a local.
fn read_slot(w: &mut Writer, get: UnsafeIntrinsic, local: u32) -> Result<(), OutOfMemory>
    ensures { OnOk result (Emits w.old w.new (CallsAmid (function_is.UnsafeIntrinsic get) [] (I.LocalSet local ∷ []))) }
{
    call_runtime(w, RuntimeFunction::UnsafeIntrinsic(get))?;
    w.put(Instr::LocalSet(local))?;
    Ok(())
}

/// Writes a slot, by a function that takes an i32: what an instruction pushes.
fn write_slot(w: &mut Writer, set: UnsafeIntrinsic, value: Instr) -> Result<(), OutOfMemory>
    requires { AreRanged 0 0 (value ∷ []) }
    ensures { OnOk result (Emits w.old w.new (CallsAmid (function_is.UnsafeIntrinsic set) (value ∷ []) [])) }
{
    w.put(value)?;
    call_runtime(w, RuntimeFunction::UnsafeIntrinsic(set))?;
    Ok(())
}

/// Where the slots are looked at, reads them into locals.
pub fn read_context(w: &mut Writer, is_on: bool, locals: ContextLocals) -> Result<(), OutOfMemory>
    ensures { OnOk result (Emits w.old w.new (ReadsSlots is_on locals)) }
{
    if is_on {
        read_slot(w, UnsafeIntrinsic::ContextGetI32_0, locals.first)?;
        read_slot(w, UnsafeIntrinsic::ContextGetI32_1, locals.second)?;
    }
    Ok(())
}

/// Where the slots are looked at, sets them to 0.
fn zero_context(w: &mut Writer, is_on: bool) -> Result<(), OutOfMemory>
    ensures { OnOk result (Emits w.old w.new (ZeroesSlots is_on)) }
{
    if is_on {
        write_slot(w, UnsafeIntrinsic::ContextSetI32_0, Instr::I32Const(0))?;
        write_slot(w, UnsafeIntrinsic::ContextSetI32_1, Instr::I32Const(0))?;
    }
    Ok(())
}

/// Where the slots are looked at, saves them in locals, and sets them to 0.
pub fn save_context(w: &mut Writer, is_on: bool, locals: ContextLocals) -> Result<(), OutOfMemory>
    ensures { OnOk result (Emits w.old w.new (SavesSlots is_on locals)) }
{
    read_context(w, is_on, locals)?;
    zero_context(w, is_on)?;
    Ok(())
}

/// Where the slots are looked at, sets them to what locals hold.
pub fn restore_context(
    w: &mut Writer,
    is_on: bool,
    locals: ContextLocals,
) -> Result<(), OutOfMemory>
    ensures { OnOk result (Emits w.old w.new (WritesSlots is_on locals)) }
{
    if is_on {
        let first = Instr::LocalGet(locals.first);
        write_slot(w, UnsafeIntrinsic::ContextSetI32_0, first)?;
        let second = Instr::LocalGet(locals.second);
        write_slot(w, UnsafeIntrinsic::ContextSetI32_1, second)?;
    }
    Ok(())
}
