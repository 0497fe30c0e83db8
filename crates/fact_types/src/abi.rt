//! The layout of a type.

ghost use Rattle.std.specs.Prelude.{◌≡◌, ◌+◌, ◌<◌, ◌≤◌, ◌↔◌, IsTrue, IfSome};

use crate::extents::{Extent, MemoryWidth};
use crate::flats::times_flat_count;
use crate::sizes::FlagsSize;

/// How values of a type are stored, in 32-bit and in 64-bit memories, and in how many flat types they are passed
/// (canonical ABI, "Alignment", "Element Size", "Flattening").
#[derive(Clone, Copy, PartialEq, Eq, Hash)]
pub struct CanonicalAbiInfo {
    /// Bytes in a 32-bit memory.
    pub size32: u32,
    /// The number of bytes that each place in a 32-bit memory is a multiple of.
    pub align32: u32,
    /// Bytes in a 64-bit memory.
    pub size64: u32,
    /// The number of bytes that each place in a 64-bit memory is a multiple of.
    pub align64: u32,
    /// The number of flat types, `None` above 16; flags of more than 512 names alone have their number of words here.
    pub flat_count: Option<u8>,
}

impl CanonicalAbiInfo {
    /// A type whose values take no byte, as a record without fields.
    pub const ZERO: CanonicalAbiInfo = CanonicalAbiInfo {
        size32: 0,
        align32: 1,
        size64: 0,
        align64: 1,
        flat_count: Some(0),
    };

    /// A scalar of one byte.
    pub const SCALAR1: CanonicalAbiInfo = CanonicalAbiInfo {
        size32: 1,
        align32: 1,
        size64: 1,
        align64: 1,
        flat_count: Some(1),
    };

    /// A scalar of two bytes.
    pub const SCALAR2: CanonicalAbiInfo = CanonicalAbiInfo {
        size32: 2,
        align32: 2,
        size64: 2,
        align64: 2,
        flat_count: Some(1),
    };

    /// A scalar of four bytes, or a handle.
    pub const SCALAR4: CanonicalAbiInfo = CanonicalAbiInfo {
        size32: 4,
        align32: 4,
        size64: 4,
        align64: 4,
        flat_count: Some(1),
    };

    /// A scalar of eight bytes.
    pub const SCALAR8: CanonicalAbiInfo = CanonicalAbiInfo {
        size32: 8,
        align32: 8,
        size64: 8,
        align64: 8,
        flat_count: Some(1),
    };

    /// A pointer and a length, as of strings, lists and maps.
    pub const POINTER_PAIR: CanonicalAbiInfo = CanonicalAbiInfo {
        size32: 8,
        align32: 4,
        size64: 16,
        align64: 8,
        flat_count: Some(2),
    };
}

impl Default for CanonicalAbiInfo {
    ghost use Rattle.fact_types.specs.Layout.{zero_layout};

    ghost is_default = { λ abi. abi ≡ zero_layout };

    fn default() -> CanonicalAbiInfo {
        CanonicalAbiInfo::ZERO
    }
}

impl CanonicalAbiInfo {
    ghost use Rattle.fact_types.specs.declared.extents.MemoryWidth.TheVariants.{Memory32, Memory64};
    ghost use Rattle.fact_types.specs.Layout.{aligned, extent, layout, fixed_list_layout, flags_layout, enum_layout};
    ghost use Rattle.fact_types.specs.Fits.{FieldFits, FixedListFits};

    /// Places a field of this type behind an offset in a 32-bit memory: answers its place, and moves the offset to its
    /// end. Both are in bytes.
    pub fn next_field32(&self, offset: &mut u32) -> u32
        requires { FieldFits (extent Memory32 self.now) offset.old }
        ensures place { result ≡ aligned offset.old self.now.align32 }
        ensures moved { offset.new ≡ aligned offset.old self.now.align32 + self.now.size32 }
    {
        self.extent(MemoryWidth::Memory32).next_field(offset)
    }

    /// Whether a field of this type can be placed behind an offset in a 32-bit memory: the alignment is a power of two,
    /// and the end is at most 4,294,967,295.
    pub fn next_field32_fits(&self, offset: u32) -> bool
        ensures { IsTrue result ↔ FieldFits (extent Memory32 self.now) offset }
    {
        self.extent(MemoryWidth::Memory32).next_field_fits(offset)
    }

    /// As `next_field32`, in a 64-bit memory.
    pub fn next_field64(&self, offset: &mut u32) -> u32
        requires { FieldFits (extent Memory64 self.now) offset.old }
        ensures place { result ≡ aligned offset.old self.now.align64 }
        ensures moved { offset.new ≡ aligned offset.old self.now.align64 + self.now.size64 }
    {
        self.extent(MemoryWidth::Memory64).next_field(offset)
    }

    /// As `next_field32_fits`, in a 64-bit memory.
    pub fn next_field64_fits(&self, offset: u32) -> bool
        ensures { IsTrue result ↔ FieldFits (extent Memory64 self.now) offset }
    {
        self.extent(MemoryWidth::Memory64).next_field_fits(offset)
    }

    /// As `next_field32`, over a `usize` that is at most 4,294,967,295.
    pub fn next_field32_size(&self, offset: &mut usize) -> usize
        requires small { offset.old ≤ 4294967295 }
        requires fits { FieldFits (extent Memory32 self.now) offset.old }
        ensures place { result ≡ aligned offset.old self.now.align32 }
        ensures moved { offset.new ≡ aligned offset.old self.now.align32 + self.now.size32 }
    {
        let mut end = *offset as u32;
        let place = self.next_field32(&mut end);
        *offset = end as usize;
        place as usize
    }

    /// As `next_field32_size`, in a 64-bit memory.
    pub fn next_field64_size(&self, offset: &mut usize) -> usize
        requires small { offset.old ≤ 4294967295 }
        requires fits { FieldFits (extent Memory64 self.now) offset.old }
        ensures place { result ≡ aligned offset.old self.now.align64 }
        ensures moved { offset.new ≡ aligned offset.old self.now.align64 + self.now.size64 }
    {
        let mut end = *offset as u32;
        let place = self.next_field64(&mut end);
        *offset = end as usize;
        place as usize
    }

    /// The number of flat types where it is at most `max`, and `None` where it is more or none.
    pub fn flat_count(&self, max: usize) -> Option<usize>
        ensures count { IfSome result (λ n. self.now.flat_count ≡ Some n) }
        ensures none { (result ≡ None) ↔ IfSome self.now.flat_count (λ n. max < n) }
    {
        let count = usize::from(self.flat_count?);
        if count > max { None } else { Some(count) }
    }

    /// A list of so many elements, one after another (canonical ABI, `elem_size_list`).
    pub fn fixed_length_list_static(element: &CanonicalAbiInfo, count: usize) -> CanonicalAbiInfo
        requires { FixedListFits element.now count }
        ensures { result ≡ fixed_list_layout element.now count }
    {
        let times = count as u32;
        CanonicalAbiInfo {
            size32: element.size32 * times,
            align32: element.align32,
            size64: element.size64 * times,
            align64: element.align64,
            flat_count: times_flat_count(element.flat_count, count),
        }
    }

    /// Whether a list of so many elements has at most 4,294,967,295 of them, takes at most as many bytes in both
    /// memories, and is aligned to powers of two.
    pub fn fixed_length_list_fits(element: &CanonicalAbiInfo, count: usize) -> bool
        ensures { IsTrue result ↔ FixedListFits element.now count }
    {
        count <= u32::MAX as usize
            && element
                .extent(MemoryWidth::Memory32)
                .times_fits(count as u32)
            && element
                .extent(MemoryWidth::Memory64)
                .times_fits(count as u32)
    }

    /// Flags with so many names (canonical ABI, `elem_size_flags`). Their flat types are counted also above 16.
    pub fn flags(count: usize) -> CanonicalAbiInfo
        requires { count ≤ 8160 }
        ensures { result ≡ flags_layout count }
    {
        let (size, align, words) = match FlagsSize::from_count(count) {
            FlagsSize::Size0 => (0, 1, 0),
            FlagsSize::Size1 => (1, 1, 1),
            FlagsSize::Size2 => (2, 2, 1),
            FlagsSize::Size4Plus(words) => (u32::from(words) * 4, 4, words),
        };
        CanonicalAbiInfo {
            size32: size,
            align32: align,
            size64: size,
            align64: align,
            flat_count: Some(words),
        }
    }

    /// Whether there are at most 8,160 names: 255 words of 32 flags.
    pub fn flags_fits(count: usize) -> bool
        ensures { IsTrue result ↔ (count ≤ 8160) }
    {
        count <= 8160
    }

    /// The bytes and the alignment in a width of memory.
    pub(crate) fn extent(&self, width: MemoryWidth) -> Extent
        ensures { result ≡ extent width self.now }
    {
        match width {
            MemoryWidth::Memory32 => Extent {
                size: self.size32,
                align: self.align32,
            },
            MemoryWidth::Memory64 => Extent {
                size: self.size64,
                align: self.align64,
            },
        }
    }
}
