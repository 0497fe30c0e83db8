//! The layout of variants, and of enums, options and results, which are variants.

ghost use Rattle.std.specs.Prelude.{◌≡◌, ◌+◌, ◌<◌, ◌≤◌, ◌↔◌, IsTrue, IfSome, length, max};
ghost use Rattle.std.specs.Int.{IsPowerOfTwo};
ghost use Rattle.fact_types.specs.Layout.{aligned, extent, extents, greatest_align, greatest_size, payloads, payload_offset, discriminant_size, discriminant_bytes, variant_extent};
ghost use Rattle.fact_types.specs.Fits.{CasesFit};

use crate::abi::CanonicalAbiInfo;
use crate::extents::{Extent, MemoryWidth, align_fits, align_to, is_power};
use crate::flats::{add_flat_counts, greatest_flat_count};
use crate::sizes::DiscriminantSize;

/// Where the parts of a variant stand.
#[derive(Clone, Copy, PartialEq, Eq, Hash)]
pub struct VariantInfo {
    /// The size of the discriminant, which stands at the beginning.
    pub size: DiscriminantSize,
    /// The place of the payload from the beginning of the variant, in bytes, in 32-bit memories.
    pub payload_offset32: u32,
    /// The place of the payload from the beginning of the variant, in bytes, in 64-bit memories.
    pub payload_offset64: u32,
}

impl VariantInfo {
    ghost use Rattle.fact_types.specs.Layout.{variant_info, variant_layout};
    ghost use Rattle.fact_types.specs.Fits.{VariantFits};

    /// Where the parts of a variant with these cases stand, and its layout.
    pub fn new(cases: &[Option<CanonicalAbiInfo>]) -> (VariantInfo, CanonicalAbiInfo)
        requires { VariantFits cases.now }
        ensures info { result.0 ≡ variant_info cases.now }
        ensures abi { result.1 ≡ variant_layout cases.now }
    {
        (
            VariantInfo::new_static(cases),
            CanonicalAbiInfo::variant_static(cases),
        )
    }

    /// Where the parts of a variant with these cases stand.
    pub fn new_static(cases: &[Option<CanonicalAbiInfo>]) -> VariantInfo
        requires { VariantFits cases.now }
        ensures { result ≡ variant_info cases.now }
    {
        VariantInfo {
            size: discriminant_of(cases.len()),
            payload_offset32: place_of_payload(cases, MemoryWidth::Memory32),
            payload_offset64: place_of_payload(cases, MemoryWidth::Memory64),
        }
    }
}

impl CanonicalAbiInfo {
    ghost use Rattle.fact_types.specs.Layout.{variant_layout, enum_layout};
    ghost use Rattle.fact_types.specs.Fits.{VariantFits};

    /// A variant with these cases, each with the layout of its payload where it has one (canonical ABI,
    /// `elem_size_variant`).
    pub fn variant_static(cases: &[Option<CanonicalAbiInfo>]) -> CanonicalAbiInfo
        requires { VariantFits cases.now }
        ensures { result ≡ variant_layout cases.now }
    {
        let memory32 = extent_of_cases(cases, MemoryWidth::Memory32);
        let memory64 = extent_of_cases(cases, MemoryWidth::Memory64);
        CanonicalAbiInfo {
            size32: memory32.size,
            align32: memory32.align,
            size64: memory64.size,
            align64: memory64.align,
            flat_count: add_flat_counts(Some(1), greatest_flat_count(cases)),
        }
    }

    /// Whether there are at most 4,294,967,295 cases, a variant of them takes at most as many bytes in both memories,
    /// and each payload is aligned to powers of two.
    pub fn variant_fits(cases: &[Option<CanonicalAbiInfo>]) -> bool
        ensures { IsTrue result ↔ VariantFits cases.now }
    {
        cases.len() <= u32::MAX as usize
            && cases_fit(cases, MemoryWidth::Memory32)
            && cases_fit(cases, MemoryWidth::Memory64)
    }

    /// An enum of so many cases: a variant without payloads.
    pub fn enum_(cases: usize) -> CanonicalAbiInfo
        requires { cases ≤ 4294967295 }
        ensures { result ≡ enum_layout cases }
    {
        let bytes = discriminant_of(cases).byte_size();
        CanonicalAbiInfo {
            size32: bytes,
            align32: bytes,
            size64: bytes,
            align64: bytes,
            flat_count: Some(1),
        }
    }

    /// Whether there are at most 4,294,967,295 cases.
    pub fn enum_fits(cases: usize) -> bool
        ensures { IsTrue result ↔ (cases ≤ 4294967295) }
    {
        cases <= u32::MAX as usize
    }
}

/// The discriminant of so many cases.
fn discriminant_of(count: usize) -> DiscriminantSize
    requires { count ≤ 4294967295 }
    ensures { result ≡ discriminant_size count }
{
    DiscriminantSize::from_count(count).unwrap()
}

/// The greatest size and the greatest alignment of a payload in a width of memory.
fn greatest_payload(cases: &[Option<CanonicalAbiInfo>], width: MemoryWidth) -> Extent
    ensures size { result.size ≡ greatest_size (extents width (payloads cases.now)) }
    ensures align { result.align ≡ greatest_align (extents width (payloads cases.now)) }
    ensures positive { 0 < result.align }
{
    let mut size = 0;
    let mut align = 1;
    for case in cases {
        if let Some(payload) = case {
            let payload_extent = payload.extent(width);
            size = size.max(payload_extent.size);
            align = align.max(payload_extent.align);
        }
    }
    Extent { size, align }
}

/// A discriminant of so many bytes, and room for the greatest payload behind it.
fn tagged(bytes: u32, payload: Extent) -> Extent
    requires positive { 0 < payload.align }
    requires fits { aligned (aligned bytes payload.align + payload.size) (max bytes payload.align) ≤ 4294967295 }
    ensures size { result.size ≡ aligned (aligned bytes payload.align + payload.size) (max bytes payload.align) }
    ensures align { result.align ≡ max bytes payload.align }
{
    let end = align_to(bytes, payload.align) + payload.size;
    let align = bytes.max(payload.align);
    Extent {
        size: align_to(end, align),
        align,
    }
}

/// Whether that room ends within bounds.
fn tagged_fits(bytes: u32, payload: Extent) -> bool
    requires { 0 < payload.align }
    ensures { IsTrue result ↔ (aligned (aligned bytes payload.align + payload.size) (max bytes payload.align) ≤ 4294967295) }
{
    if !align_fits(bytes, payload.align) {
        return false;
    }
    match align_to(bytes, payload.align).checked_add(payload.size) {
        Some(end) => align_fits(end, bytes.max(payload.align)),
        None => false,
    }
}

/// A variant with these cases in a width of memory.
fn extent_of_cases(cases: &[Option<CanonicalAbiInfo>], width: MemoryWidth) -> Extent
    requires count { length cases.now ≤ 4294967295 }
    requires fits { CasesFit width cases.now }
    ensures { result ≡ variant_extent (discriminant_bytes (discriminant_size (length cases.now))) (extents width (payloads cases.now)) }
{
    tagged(
        discriminant_of(cases.len()).byte_size(),
        greatest_payload(cases, width),
    )
}

/// The place of the payload of a variant with these cases in a width of memory.
fn place_of_payload(cases: &[Option<CanonicalAbiInfo>], width: MemoryWidth) -> u32
    requires count { length cases.now ≤ 4294967295 }
    requires fits { CasesFit width cases.now }
    ensures { result ≡ payload_offset (discriminant_bytes (discriminant_size (length cases.now))) (extents width (payloads cases.now)) }
{
    align_to(
        discriminant_of(cases.len()).byte_size(),
        greatest_payload(cases, width).align,
    )
}

/// Whether the payload of a case, if there is one, is aligned to a power of two in a width of memory.
fn has_power_align(case: &Option<CanonicalAbiInfo>, width: MemoryWidth) -> bool
    ensures { IsTrue result ↔ IfSome case.now (λ p. IsPowerOfTwo (extent width p).align) }
{
    match case {
        Some(payload) => is_power(payload.extent(width).align),
        None => true,
    }
}

/// Whether the cases make a variant within bounds in a width of memory.
fn cases_fit(cases: &[Option<CanonicalAbiInfo>], width: MemoryWidth) -> bool
    requires { length cases.now ≤ 4294967295 }
    ensures { IsTrue result ↔ CasesFit width cases.now }
{
    cases.iter().all(|case| has_power_align(case, width))
        && tagged_fits(
            discriminant_of(cases.len()).byte_size(),
            greatest_payload(cases, width),
        )
}
