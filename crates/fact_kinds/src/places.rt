//! The checks of the places that values are moved from and to.

ghost use Rattle.std.specs.Prelude.{OnOk};
ghost use Rattle.fact_types.specs.Tables.{IsLive};
ghost use Rattle.fact_emit.specs.Places.{from_of, to_of};
ghost use Rattle.fact_kinds.specs.Moved.{CheckedPlaces};

use crate::layouts::alignment;
use fact_emit::{Sides, SourcePlace, TargetPlace, Writer, check_source, check_target};
use fact_types::{ComponentTypes, InterfaceType};
use fact_wasm::OutOfMemory;

/// With debug checks on, traps where a place in memory is not aligned for its type.
pub fn check_places(
    types: &ComponentTypes,
    w: &mut Writer,
    sides: Sides,
    from: InterfaceType,
    to: InterfaceType,
    source: SourcePlace<'_>,
    target: TargetPlace<'_>,
) -> Result<(), OutOfMemory>
    requires from_live { IsLive types.now from }
    requires to_live { IsLive types.now to }
    ensures { OnOk result (CheckedPlaces types.now from to sides (from_of sides.from source.entry) (to_of sides.to target.entry) w.old w.new) }
{
    let align = alignment(types, &from, sides.from.memory64);
    check_source(w, sides.debug, sides.from, align, source)?;
    let align = alignment(types, &to, sides.to.memory64);
    check_target(w, sides.debug, sides.to, align, target)?;
    Ok(())
}
