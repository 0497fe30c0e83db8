//! Strings, by `move_string_by` of `fact_emit`, in locals that are taken around the code that moves one.

ghost use Rattle.std.specs.Prelude.{OnOk};
ghost use Rattle.fact_types.specs.Shapes.{s_plain};
ghost use Rattle.fact_types.specs.declared.interface.InterfaceType.TheVariants as ty;
ghost use Rattle.fact_emit.specs.Emits.{Emits};
ghost use Rattle.fact_emit.specs.Fitting.{MovesNode};
ghost use Rattle.fact_emit.specs.Places.{from_of, to_of};
ghost use Rattle.fact_emit.specs.StringPieces.{AreSidesImported};
ghost use Rattle.fact_emit.specs.Writers.{taken_in};

use fact_emit::{
    Sides, SourcePlace, TargetPlace, Writer, free_string_locals, move_string_by, take_string_locals,
};
use fact_wasm::OutOfMemory;

/// Moves a string to a new region, from the encoding of its side to that of the other.
pub fn move_string(
    w: &mut Writer,
    sides: Sides,
    source: SourcePlace<'_>,
    target: TargetPlace<'_>,
) -> Result<(), OutOfMemory>
    requires sides { AreSidesImported sides w.old.sections }
    ensures { OnOk result (Emits w.old w.new (MovesNode sides (from_of sides.from source.entry) (to_of sides.to target.entry) (taken_in w.old) (s_plain ty.String) (s_plain ty.String))) }
{
    let locals = take_string_locals(w)?;
    move_string_by(w, sides, locals, source, target)?;
    free_string_locals(w, locals)?;
    Ok(())
}
