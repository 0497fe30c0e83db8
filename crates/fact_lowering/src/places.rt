//! Where types stand in the memory of a side (canonical ABI, "Alignment" and "Element Size").

ghost use Rattle.std.specs.Prelude.{◌≡◌, ◌≤◌, IfOk};
ghost use Rattle.fact_types.specs.Layout.{extent, extents, payloads, payload_offset as offset_of_payload};
ghost use Rattle.fact_types.specs.Shapes.{k_map, Shape, s_node, Members, layouts_of, place_of, next_of};
ghost use Rattle.fact_types.specs.Tables.{IsLive, HasShape, abi_at};
ghost use Rattle.fact_abi.specs.Finding.{IsIndexOf};
ghost use Rattle.fact_abi.specs.Nodes.{AreOf};
ghost use Rattle.fact_types.specs.Signatures.{pointer_bytes};
ghost use Rattle.fact_values.specs.Places.{element_extent, extent_on, width_of};
ghost use Rattle.fact_lowering.specs.Storings.{AreLiveMembers};

use fact_abi::{Node, SideAbi, index_of_name};
use fact_types::{ComponentTypes, InterfaceType};
use fact_wasm::{OutOfMemory, Seq, Text};
use std::alloc::{AllocError, Global};

/// A pointer and a length.
#[derive(Clone, Copy)]
pub struct Pair {
    pub pointer: u64,
    pub count: u64,
}

/// What a type is stored on.
#[derive(Clone, Copy)]
pub struct Lowering<'a> {
    pub alloc: Global,
    pub types: &'a ComponentTypes,
    pub side: SideAbi,
}

impl Lowering<'_> {
    /// The bytes of an address.
    pub(crate) fn pointer_size(&self) -> usize
        ensures { result ≡ pointer_bytes (width_of self.now.side) }
    {
        if self.side.memory64 { 8 } else { 4 }
    }

    /// The size and the alignment of a live type in bytes.
    pub fn extent(&self, ty: &InterfaceType) -> (u32, u32)
        requires { IsLive self.now.types.now ty.now }
        ensures size { (s : Shape) → HasShape self.now.types.now ty.now s → result.0 ≡ (extent_on self.now.side s).size }
        ensures align { (s : Shape) → HasShape self.now.types.now ty.now s → result.1 ≡ (extent_on self.now.side s).align }
        ensures aligned { 1 ≤ result.1 }
    {
        let abi = self.types.canonical_abi(ty);
        if self.side.memory64 {
            (abi.size64, abi.align64)
        } else {
            (abi.size32, abi.align32)
        }
    }

    /// The place of a member behind a number of bytes of a record, which moves to its end.
    pub fn next_place(&self, ty: &InterfaceType, offset: &mut u32) -> u64
        requires live { IsLive self.now.types.now ty.now }
        requires fits { (s : Shape) × HasShape self.now.types.now ty.now s × (next_of (width_of self.now.side) s offset.old ≤ 4294967295) }
        ensures place { (s : Shape) → HasShape self.now.types.now ty.now s → result ≡ place_of (width_of self.now.side) s offset.old }
        ensures moved { (s : Shape) → HasShape self.now.types.now ty.now s → offset.new ≡ next_of (width_of self.now.side) s offset.old }
    {
        let abi = self.types.canonical_abi(ty);
        let place = if self.side.memory64 {
            abi.next_field64(offset)
        } else {
            abi.next_field32(offset)
        };
        u64::from(place)
    }

    /// The size and the alignment of an entry of a map type, in bytes.
    pub(crate) fn entry_extent(&self, ty: &InterfaceType) -> (u32, u32)
        requires { IsLive self.now.types.now ty.now }
        ensures size { (ms : Members) → HasShape self.now.types.now ty.now (s_node k_map ms) → result.0 ≡ (element_extent self.now.side k_map ms).size }
        ensures align { (ms : Members) → HasShape self.now.types.now ty.now (s_node k_map ms) → result.1 ≡ (element_extent self.now.side k_map ms).align }
        ensures aligned { 1 ≤ result.1 }
    {
        self.types.reveal();
        let InterfaceType::Map(i) = *ty else {
            return (0, 1);
        };
        let abi = &self.types[i].entry_abi;
        if self.side.memory64 {
            (abi.size64, abi.align64.max(1))
        } else {
            (abi.size32, abi.align32.max(1))
        }
    }

    /// The place of the payload of cases behind a discriminant of so many bytes.
    pub(crate) fn payload_place(&self, cases: &[Option<InterfaceType>], size: usize) -> u64
        requires live { AreLiveMembers self.now.types.now cases.now }
        requires few { size ≤ 4 }
        ensures { (ms : Members) → AreOf self.now.types.now cases.now ms → result ≡ offset_of_payload size (extents (width_of self.now.side) (payloads (layouts_of ms))) }
    {
        let mut greatest = 1;
        for case in cases {
            if let Some(ty) = case {
                let (_size, align) = self.extent(ty);
                greatest = align.max(greatest);
            }
        }
        (size as u64).next_multiple_of(u64::from(greatest))
    }
}

/// The number of the first of some cases that has a name, or `None` where none has. A type of more than 4,294,967,296 cases takes more
/// memory than there is.
pub(crate) fn case_number(names: &Seq<Text>, name: &Text) -> Result<Option<u32>, OutOfMemory>
    ensures { IfOk result (λ o. IsIndexOf name.now names.now o) }
{
    let Some(place) = index_of_name(names, name) else {
        return Ok(None);
    };
    match u32::try_from(place) {
        Ok(number) => Ok(Some(number)),
        Err(_) => Err(AllocError),
    }
}
