//! Several locals that are in use no more.

ghost use Rattle.std.specs.Prelude.{OnOk, ◌≡◌, true};
ghost use Rattle.std.specs.List.{AllByRecursion};
ghost use Rattle.fact_emit.specs.Writers.{AreDistinctNumbers, FreedAll, taken_in};

use crate::writer::Writer;
use fact_wasm::OutOfMemory;

/// Locals are in use no more.
pub fn free_locals(w: &mut Writer, locals: &[u32]) -> Result<(), OutOfMemory>
    requires taken { AllByRecursion (λ i. taken_in w.old i ≡ true) locals.now }
    requires distinct { AreDistinctNumbers locals.now }
    ensures { OnOk result (FreedAll w.old w.new locals.now) }
{
    for local in locals {
        w.free_local(*local)?;
    }
    Ok(())
}
