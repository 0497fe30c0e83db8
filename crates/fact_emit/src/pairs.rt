//! A pointer and a length beside it, each as wide as addresses: read to locals of type i64, and written out of them.

ghost use Rattle.std.specs.Prelude.{OnOk, ◌≡◌};
ghost use Rattle.fact_code_laws.specs.Lists.{put_code};
ghost use Rattle.fact_code_laws.specs.Places.{size_of};
ghost use Rattle.fact_code_laws.specs.Tests.{pointer_of_width};
ghost use Rattle.fact_emit.specs.Emits.{Emits};
ghost use Rattle.fact_emit.specs.Pairs.{ReadsPair, put_pair_code};
ghost use Rattle.fact_emit.specs.Places.{from_of, to_of};
ghost use Rattle.fact_emit.specs.Writers.{Wrote};

use crate::numbers::{open, write_number};
use crate::places::{LinearMemory, SourcePlace, TargetPlace};
use crate::pointers::{pointer_number, read_pointer};
use crate::requests::put_address;
use crate::writer::Writer;
use fact_wasm::OutOfMemory;

/// The bytes of an address.
pub fn address_bytes(memory64: bool) -> u32
    ensures { result ≡ size_of (pointer_of_width memory64) }
{
    if memory64 { 8 } else { 4 }
}

/// Reads a pointer and a length at a place to locals of type i64.
pub fn read_pair(
    w: &mut Writer,
    debug: bool,
    linear: LinearMemory,
    source: SourcePlace<'_>,
    pointer: u32,
    length: u32,
) -> Result<(), OutOfMemory>
    ensures { OnOk result (Emits w.old w.new (ReadsPair debug linear.memory64 pointer length (from_of linear source.entry))) }
{
    read_pointer(w, debug, linear, source, pointer)?;
    let second = source.part(1, 1, address_bytes(linear.memory64));
    read_pointer(w, debug, linear, second, length)?;
    Ok(())
}

/// Writes what a local of type i64 holds to a place, as wide as addresses.
pub fn write_pointer(
    w: &mut Writer,
    linear: LinearMemory,
    local: u32,
    target: TargetPlace<'_>,
) -> Result<(), OutOfMemory>
    ensures { OnOk result (Wrote w.old w.new (put_code linear.memory64 local (to_of linear target.entry))) }
{
    open(w, linear, target)?;
    put_address(w, linear.memory64, local)?;
    write_number(w, linear, pointer_number(linear.memory64), target)?;
    Ok(())
}

/// Writes a pointer and a length to a place.
pub fn write_pair(
    w: &mut Writer,
    linear: LinearMemory,
    pointer: u32,
    length: u32,
    target: TargetPlace<'_>,
) -> Result<(), OutOfMemory>
    ensures { OnOk result (Wrote w.old w.new (put_pair_code linear.memory64 pointer length (to_of linear target.entry))) }
{
    write_pointer(w, linear, pointer, target)?;
    let second = target.part(1, 1, address_bytes(linear.memory64));
    write_pointer(w, linear, length, second)?;
    Ok(())
}
