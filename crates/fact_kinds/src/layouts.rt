//! What the layouts of types say: how many flat types a type has, the places of members, and bytes and alignments.

ghost use Rattle.std.specs.Prelude.{◌≡◌, ◌<◌, ◌≤◌, ◌+◌, unwrap_or};
ghost use Rattle.fact_types.specs.Fits.{FieldFits};
ghost use Rattle.fact_types.specs.Layout.{extent, aligned};
ghost use Rattle.fact_types.specs.Shapes.{Shape, layout_of};
ghost use Rattle.fact_types.specs.Signatures.{width};
ghost use Rattle.fact_types.specs.Tables.{IsLive, HasShape};
ghost use Rattle.fact_emit.specs.Parts.{bytes_by};

use fact_types::{CanonicalAbiInfo, ComponentTypes, FieldPlace, InterfaceType};

/// The number of flat types of a live type that has at most 16.
pub fn flat_length(types: &ComponentTypes, ty: &InterfaceType) -> usize
    requires { IsLive types.now ty.now }
    ensures { (s : Shape) → HasShape types.now ty.now s → result ≡ unwrap_or (layout_of s).flat_count 0 }
{
    usize::from(types.canonical_abi(ty).flat_count.unwrap_or(0))
}

/// Takes the place of a field behind others in a width of memory.
pub fn next_place(abi: &CanonicalAbiInfo, memory64: bool, end: &mut u32) -> u32
    requires { FieldFits (extent (width memory64) abi.now) end.old }
    ensures place { result ≡ aligned end.old (extent (width memory64) abi.now).align }
    ensures moved { end.new ≡ aligned end.old (extent (width memory64) abi.now).align + (extent (width memory64) abi.now).size }
{
    if memory64 {
        abi.next_field64(end)
    } else {
        abi.next_field32(end)
    }
}

/// The place of a field in a width of memory.
pub fn byte_place(found: FieldPlace, memory64: bool) -> u32
    ensures { result ≡ bytes_by (width memory64) found.place32 found.place64 }
{
    if memory64 {
        found.place64
    } else {
        found.place32
    }
}

/// The alignment of a live type in a width of memory.
pub fn alignment(types: &ComponentTypes, ty: &InterfaceType, memory64: bool) -> u32
    requires { IsLive types.now ty.now }
    ensures some { 0 < result }
    ensures is { (s : Shape) → HasShape types.now ty.now s → result ≡ (extent (width memory64) (layout_of s)).align }
    ensures small { (s : Shape) → HasShape types.now ty.now s → (extent (width memory64) (layout_of s)).size ≤ 4294967295 }
{
    let abi = types.canonical_abi(ty);
    if memory64 { abi.align64 } else { abi.align32 }
}

/// The bytes of a live type's values in a width of memory, or 1 where there are none: values of a valid type take as many.
pub fn byte_count(types: &ComponentTypes, ty: &InterfaceType, memory64: bool) -> u32
    requires { IsLive types.now ty.now }
    ensures some { 0 < result }
    ensures is { (s : Shape) → HasShape types.now ty.now s → 0 < (extent (width memory64) (layout_of s)).size → result ≡ (extent (width memory64) (layout_of s)).size }
    ensures small { (s : Shape) → HasShape types.now ty.now s → (extent (width memory64) (layout_of s)).size ≤ 4294967295 }
{
    let abi = types.canonical_abi(ty);
    let size = if memory64 { abi.size64 } else { abi.size32 };
    size.max(1)
}
