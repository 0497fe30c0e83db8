//! Entries of maps: their bytes, and the places of their values.

ghost use Rattle.std.specs.Prelude.{◌≡◌, ◌<◌, ◌≤◌};
ghost use Rattle.fact_types.specs.Layout.{extent};
ghost use Rattle.fact_types.specs.Signatures.{width};
ghost use Rattle.fact_emit.specs.Parts.{bytes_by};
ghost use Rattle.fact_kinds.specs.Lists.{IsEntryOf};

use crate::lists::Elements;
use fact_emit::Sides;
use fact_types::{CanonicalAbiInfo, TypeMap};

/// The bytes of an entry in a width of memory, or 1 where there are none: entries of a valid type take as many.
fn entry_bytes(abi: &CanonicalAbiInfo, memory64: bool) -> u32
    ensures some { 0 < result }
    ensures is { 0 < (extent (width memory64) abi.now).size → result ≡ (extent (width memory64) abi.now).size }
    ensures small { (extent (width memory64) abi.now).size ≤ 4294967295 }
{
    let size = if memory64 { abi.size64 } else { abi.size32 };
    size.max(1)
}

/// The alignment of an entry in a width of memory, which is one byte at least.
fn entry_alignment(abi: &CanonicalAbiInfo, memory64: bool) -> u32
    ensures some { 0 < result }
    ensures is { 0 < (extent (width memory64) abi.now).align → result ≡ (extent (width memory64) abi.now).align }
{
    let align = if memory64 { abi.align64 } else { abi.align32 };
    align.max(1)
}

/// The entries of two maps as elements of lists.
pub fn entries(sides: Sides, from: &TypeMap, to: &TypeMap) -> Elements
    ensures from_some { 0 < result.from_size }
    ensures to_some { 0 < result.to_size }
    ensures from_align_some { 0 < result.from_align }
    ensures to_align_some { 0 < result.to_align }
    ensures from { IsEntryOf sides.from.memory64 from.now.entry_abi result.from_size result.from_align }
    ensures to { IsEntryOf sides.to.memory64 to.now.entry_abi result.to_size result.to_align }
{
    Elements {
        from_size: entry_bytes(&from.entry_abi, sides.from.memory64),
        from_align: entry_alignment(&from.entry_abi, sides.from.memory64),
        to_size: entry_bytes(&to.entry_abi, sides.to.memory64),
        to_align: entry_alignment(&to.entry_abi, sides.to.memory64),
    }
}

/// The place of the value in an entry, behind its key.
pub fn value_place(map: &TypeMap, memory64: bool) -> u32
    ensures { result ≡ bytes_by (width memory64) map.now.value_offset32 map.now.value_offset64 }
{
    if memory64 {
        map.value_offset64
    } else {
        map.value_offset32
    }
}
