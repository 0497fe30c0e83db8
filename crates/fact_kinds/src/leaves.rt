//! Values without members: flags, enums, strings and scalars, each by its own move.

ghost use Rattle.std.specs.Prelude.{None, OnOk, ◌≡◌};
ghost use Rattle.fact_types.specs.Tables.{IsLive};
ghost use Rattle.fact_emit.specs.Handles.{handle_transfer as transfer_of};
ghost use Rattle.fact_emit.specs.Places.{from_of, to_of};
ghost use Rattle.fact_emit.specs.StringPieces.{AreSidesImported};
ghost use Rattle.fact_kinds.specs.Kinds.{AreLeaves};
ghost use Rattle.fact_kinds.specs.Moved.{MovedBetween};

use crate::flags::{move_enum, move_flags};
use crate::strings::move_string;
use fact_emit::{Sides, SourcePlace, TargetPlace, Writer, move_scalar};
use fact_types::{ComponentTypes, InterfaceType};
use fact_wasm::{Instr, OutOfMemory};

/// Moves a value without members that is no handle, behind the checks of its places. Between types of two kinds the code is a trap.
pub fn move_leaf(
    types: &ComponentTypes,
    w: &mut Writer,
    sides: Sides,
    from: InterfaceType,
    to: InterfaceType,
    source: SourcePlace<'_>,
    target: TargetPlace<'_>,
) -> Result<(), OutOfMemory>
    requires from_live { IsLive types.now from }
    requires to_live { IsLive types.now to }
    requires leaf { AreLeaves types.now from }
    requires no_handle { transfer_of from to ≡ None }
    requires sides { AreSidesImported sides w.old.sections }
    ensures { OnOk result (MovedBetween types.now from to sides (from_of sides.from source.entry) (to_of sides.to target.entry) w.old w.new) }
{
    match from {
        InterfaceType::Flags(i) => match to {
            InterfaceType::Flags(j) => move_flags(types, w, sides, i, j, source, target)?,
            _ => w.put(Instr::Unreachable)?,
        },
        InterfaceType::Enum(i) => move_enum(types, w, sides, i, source, target)?,
        InterfaceType::String => match to {
            InterfaceType::String => move_string(w, sides, source, target)?,
            _ => w.put(Instr::Unreachable)?,
        },
        _ => move_scalar(w, sides, from, source, target)?,
    }
    Ok(())
}
