//! Handles, which functions of the runtime take from the tables of one component instance to those of another.

ghost use Rattle.std.specs.Prelude.{◌≡◌, OnOk, Some};
ghost use Rattle.fact_code_laws.specs.Places.{N32};
ghost use Rattle.fact_emit.specs.Emits.{Emits};
ghost use Rattle.fact_emit.specs.Handles.{MovesHandle, handle_moves, handle_transfer as transfer_of, transfer_by};
ghost use Rattle.fact_emit.specs.MovesValue.{MovesValue};
ghost use Rattle.fact_emit.specs.Numbers.{FitsUnchecked};
ghost use Rattle.fact_emit.specs.Places.{from_of, to_of};
ghost use Rattle.fact_emit.specs.Writers.{taken_in};

use crate::calls::call_runtime;
use crate::imported::RuntimeFunction;
use crate::numbers::{NumberSize, open, read_number, write_number};
use crate::places::{Sides, SourcePlace, TargetPlace};
use crate::writer::Writer;
use fact_types::InterfaceType;
use fact_wasm::{Instr, OutOfMemory};

/// How a handle is taken over: by which function, out of which table and into which.
#[derive(Clone, Copy)]
pub struct HandleTransfer {
    pub function: RuntimeFunction,
    pub from_table: u32,
    pub to_table: u32,
}

/// A transfer by this function, between these tables.
fn transfer(function: RuntimeFunction, from_table: u32, to_table: u32) -> Option<HandleTransfer>
    ensures { result ≡ Some (transfer_by function from_table to_table) }
{
    Some(HandleTransfer {
        function,
        from_table,
        to_table,
    })
}

/// How handles of a type are taken over to another type, where both are handles of one kind (canonical ABI, `lift_own`,
/// `lift_borrow`, `lower_own`, `lower_borrow`).
pub fn handle_transfer(from: InterfaceType, to: InterfaceType) -> Option<HandleTransfer>
    ensures { result ≡ transfer_of from to }
{
    match from {
        InterfaceType::Own(i) => match to {
            InterfaceType::Own(j) => {
                transfer(RuntimeFunction::ResourceTransferOwn, i.number, j.number)
            }
            _ => None,
        },
        InterfaceType::Borrow(i) => match to {
            InterfaceType::Borrow(j) => {
                transfer(RuntimeFunction::ResourceTransferBorrow, i.number, j.number)
            }
            _ => None,
        },
        InterfaceType::Future(i) => match to {
            InterfaceType::Future(j) => {
                transfer(RuntimeFunction::FutureTransfer, i.number, j.number)
            }
            _ => None,
        },
        InterfaceType::Stream(i) => match to {
            InterfaceType::Stream(j) => {
                transfer(RuntimeFunction::StreamTransfer, i.number, j.number)
            }
            _ => None,
        },
        InterfaceType::ErrorContext(i) => match to {
            InterfaceType::ErrorContext(j) => {
                transfer(RuntimeFunction::ErrorContextTransfer, i.number, j.number)
            }
            _ => None,
        },
        _ => None,
    }
}

/// Moves a handle: its number is read, the function of the runtime answers the number that it has in the other table, and that is
/// written.
pub fn move_handle(
    w: &mut Writer,
    sides: Sides,
    transfer: HandleTransfer,
    source: SourcePlace<'_>,
    target: TargetPlace<'_>,
) -> Result<(), OutOfMemory>
    requires { MovesHandle transfer }
    ensures { OnOk result (Emits w.old w.new (MovesValue sides (from_of sides.from source.entry) (to_of sides.to target.entry) (taken_in w.old) 516 (FitsUnchecked N32 (from_of sides.from source.entry) (to_of sides.to target.entry)) (handle_moves transfer))) }
{
    open(w, sides.to, target)?;
    read_number(w, sides.debug, sides.from, NumberSize::Bits32, source)?;
    w.put(Instr::I32Const(transfer.from_table))?;
    w.put(Instr::I32Const(transfer.to_table))?;
    call_runtime(w, transfer.function)?;
    write_number(w, sides.to, NumberSize::Bits32, target)?;
    Ok(())
}
