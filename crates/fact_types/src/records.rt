//! The layout of records and tuples.

ghost use Rattle.std.specs.Prelude.{◌≡◌, ◌↔◌, IsTrue};
ghost use Rattle.fact_types.specs.Layout.{extents, record_extent, record_layout};
ghost use Rattle.fact_types.specs.Fits.{FieldsFit, RecordFits};

use crate::abi::CanonicalAbiInfo;
use crate::extents::{Extent, MemoryWidth, align_fits, align_to};
use crate::flats::sum_of_flat_counts;

impl CanonicalAbiInfo {
    /// A record or tuple of these fields, each at the next multiple of its alignment (canonical ABI,
    /// `elem_size_record`).
    pub fn record(fields: &[CanonicalAbiInfo]) -> CanonicalAbiInfo
        requires { RecordFits fields.now }
        ensures { result ≡ record_layout fields.now }
    {
        let memory32 = extent_of_fields(fields, MemoryWidth::Memory32);
        let memory64 = extent_of_fields(fields, MemoryWidth::Memory64);
        CanonicalAbiInfo {
            size32: memory32.size,
            align32: memory32.align,
            size64: memory64.size,
            align64: memory64.align,
            flat_count: sum_of_flat_counts(fields),
        }
    }

    /// The same as `record`.
    pub fn record_static(fields: &[CanonicalAbiInfo]) -> CanonicalAbiInfo
        requires { RecordFits fields.now }
        ensures { result ≡ record_layout fields.now }
    {
        CanonicalAbiInfo::record(fields)
    }

    /// Whether a record of these fields takes at most 4,294,967,295 bytes in both memories, and each field is aligned
    /// to powers of two.
    pub fn record_fits(fields: &[CanonicalAbiInfo]) -> bool
        ensures { IsTrue result ↔ RecordFits fields.now }
    {
        fields_fit(fields, MemoryWidth::Memory32) && fields_fit(fields, MemoryWidth::Memory64)
    }
}

/// A record of these fields in a width of memory.
fn extent_of_fields(fields: &[CanonicalAbiInfo], width: MemoryWidth) -> Extent
    requires { FieldsFit width fields.now }
    ensures { result ≡ record_extent (extents width fields.now) }
{
    let mut placed = Extent { size: 0, align: 1 };
    for field in fields {
        placed = placed.followed_by(field.extent(width));
    }
    Extent {
        size: align_to(placed.size, placed.align),
        align: placed.align,
    }
}

/// Whether the fields make a record within bounds in a width of memory.
fn fields_fit(fields: &[CanonicalAbiInfo], width: MemoryWidth) -> bool
    ensures { IsTrue result ↔ FieldsFit width fields.now }
{
    let mut placed = Extent { size: 0, align: 1 };
    for field in fields {
        let next = field.extent(width);
        if !next.next_field_fits(placed.size) {
            return false;
        }
        placed = placed.followed_by(next);
    }
    align_fits(placed.size, placed.align)
}
