//! The locals of a function (core specification, "Execution", "Instructions", "Invocation").

ghost use Rattle.std.specs.Prelude.{◌≡◌, [], ◌++◌, IfOk, OnOk, map};
ghost use Rattle.fact_machine.specs.Machine.{locals_of, some_of, several};

use crate::values::first_value;
use fact_machine::{CoreValue, OutOfMemory};
use fact_wasm::{Seq, ValType, WasmFunc};
use std::alloc::Global;

fn push_several(
    locals: &mut Seq<Option<CoreValue>>,
    count: u32,
    value: Option<CoreValue>,
) -> Result<(), OutOfMemory>
    ensures { OnOk result (locals.new ≡ locals.old ++ several count value []) }
{
    for _ in 0..count {
        locals.push(value)?;
    }
    Ok(())
}

fn push_declared(
    locals: &mut Seq<Option<CoreValue>>,
    runs: &[(u32, ValType)],
) -> Result<(), OutOfMemory>
    ensures { OnOk result (locals.new ≡ locals.old ++ locals_of runs.now) }
{
    for (count, ty) in runs {
        push_several(locals, *count, first_value(*ty))?;
    }
    Ok(())
}

fn push_args(locals: &mut Seq<Option<CoreValue>>, args: &[CoreValue]) -> Result<(), OutOfMemory>
    ensures { OnOk result (locals.new ≡ locals.old ++ map some_of args.now) }
{
    for arg in args {
        locals.push(Some(*arg))?;
    }
    Ok(())
}

/// The locals of a function as its body begins: the arguments, and then the declared ones.
pub fn first_locals(
    alloc: Global,
    func: &WasmFunc,
    args: &[CoreValue],
) -> Result<Seq<Option<CoreValue>>, OutOfMemory>
    ensures { IfOk result (λ locals. locals ≡ map some_of args.now ++ locals_of func.now.locals) }
{
    let mut locals = Seq::new(alloc);
    push_args(&mut locals, args)?;
    push_declared(&mut locals, func.locals.as_slice())?;
    Ok(locals)
}
