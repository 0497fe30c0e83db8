//! Layouts made of layouts: a record of fields, a variant of payloads, a list of an element and so many, flags or an enum of so many
//! names. A member is a scalar of so many bytes, a pointer pair, what takes no byte, or so many bytes at an alignment, as `3@3`. The parts
//! of a variant are told behind `inside`. Each layout that can be made in two ways is made in both, and `differs` where they differ.

use crate::types::{add_abi, add_info};
use crate::words::{number_of, small_number_of, word_of};
use fact_types::{CanonicalAbiInfo, DiscriminantSize, FlagsSize, VariantInfo};
use std::alloc::{AllocError, Global};

/// So many bytes at an alignment, by a word.
fn block_of(word: &str) -> Option<CanonicalAbiInfo> {
    let (size, align) = word.split_once("@")?;
    let (size, align) = (size.parse::<u32>().ok()?, align.parse::<u32>().ok()?);
    Some(CanonicalAbiInfo {
        size32: size,
        align32: align,
        size64: size,
        align64: align,
        flat_count: None,
    })
}

/// The layout of a member, or `None` where a case has no payload.
fn member(word: &str) -> Option<CanonicalAbiInfo> {
    match word {
        "1" => Some(CanonicalAbiInfo::SCALAR1),
        "2" => Some(CanonicalAbiInfo::SCALAR2),
        "4" => Some(CanonicalAbiInfo::SCALAR4),
        "8" => Some(CanonicalAbiInfo::SCALAR8),
        "pair" => Some(CanonicalAbiInfo::POINTER_PAIR),
        "empty" => Some(CanonicalAbiInfo::ZERO),
        _ => block_of(word),
    }
}

/// Adds a layout, where it fits and is the same in both ways.
fn add_same(
    page: &mut String,
    abi: &CanonicalAbiInfo,
    other: &CanonicalAbiInfo,
) -> Result<(), AllocError> {
    if abi != other {
        return page.push_str("differs");
    }
    add_abi(page, abi)
}

fn add_record(page: &mut String, alloc: Global, words: &str) -> Result<(), AllocError> {
    let mut fields = Vec::new(alloc);
    for word in words.split_whitespace() {
        if let Some(field) = member(word) {
            fields.push(field)?;
        }
    }
    let fields = fields.as_slice();
    if !CanonicalAbiInfo::record_fits(fields) {
        return page.push_str("no");
    }
    let abi = CanonicalAbiInfo::record(fields);
    add_same(page, &abi, &CanonicalAbiInfo::record_static(fields))
}

/// Adds the layout of a variant, and where its parts stand, where it fits.
fn add_variant_of(page: &mut String, cases: &[Option<CanonicalAbiInfo>]) -> Result<(), AllocError> {
    if !CanonicalAbiInfo::variant_fits(cases) {
        return page.push_str("no");
    }
    let (info, abi) = VariantInfo::new(cases);
    if info != VariantInfo::new_static(cases) {
        return page.push_str("differs");
    }
    add_same(page, &abi, &CanonicalAbiInfo::variant_static(cases))?;
    page.push_str(" inside ")?;
    add_info(page, &info)
}

fn add_variant(page: &mut String, alloc: Global, words: &str) -> Result<(), AllocError> {
    let mut cases = Vec::new(alloc);
    for word in words.split_whitespace() {
        cases.push(member(word))?;
    }
    add_variant_of(page, cases.as_slice())
}

fn add_list(page: &mut String, words: &str) -> Result<(), AllocError> {
    let (word, count) = word_of(words);
    let count = number_of(count) as usize;
    let Some(element) = member(word) else {
        return page.push_str("no member");
    };
    if !CanonicalAbiInfo::fixed_length_list_fits(&element, count) {
        return page.push_str("no");
    }
    let abi = CanonicalAbiInfo::fixed_length_list_static(&element, count);
    add_abi(page, &abi)
}

/// Whether the discriminant of so many cases has so many bytes.
fn is_discriminant(count: usize, bytes: u32) -> bool {
    match DiscriminantSize::from_count(count) {
        Some(size) => {
            size.byte_size() == bytes
                && u32::from(size) == bytes
                && DiscriminantSize::from_bytes(bytes) == Some(size)
        }
        None => false,
    }
}

fn add_enum(page: &mut String, count: usize) -> Result<(), AllocError> {
    if !CanonicalAbiInfo::enum_fits(count) {
        return page.push_str("no");
    }
    let abi = CanonicalAbiInfo::enum_(count);
    if !is_discriminant(count, abi.size32) {
        return page.push_str("differs");
    }
    add_abi(page, &abi)
}

/// The bytes of flags.
fn flag_bytes(size: FlagsSize) -> u32 {
    match size {
        FlagsSize::Size0 => 0,
        FlagsSize::Size1 => 1,
        FlagsSize::Size2 => 2,
        FlagsSize::Size4Plus(words) => 4 * u32::from(words),
    }
}

fn add_flags(page: &mut String, count: usize) -> Result<(), AllocError> {
    if !CanonicalAbiInfo::flags_fits(count) {
        return page.push_str("no");
    }
    let abi = CanonicalAbiInfo::flags(count);
    if flag_bytes(FlagsSize::from_count(count)) != abi.size32 {
        return page.push_str("differs");
    }
    add_abi(page, &abi)
}

/// Adds the layout of a kind and its members.
pub fn add_laid(page: &mut String, alloc: Global, line: &str) -> Result<(), AllocError> {
    let (kind, words) = word_of(line);
    match kind {
        "record" => add_record(page, alloc, words),
        "variant" => add_variant(page, alloc, words),
        "list" => add_list(page, words),
        "enum" => add_enum(page, number_of(words) as usize),
        _ => add_flags(page, number_of(words) as usize),
    }
}

/// The place of a field behind an offset in a memory of 32 bits, and its end, where they fit.
fn placed32(abi: &CanonicalAbiInfo, offset: u32) -> Option<(u32, u32)> {
    if !abi.next_field32_fits(offset) {
        return None;
    }
    let (mut end, mut end_size) = (offset, offset as usize);
    let place = abi.next_field32(&mut end);
    let place_size = abi.next_field32_size(&mut end_size);
    (place as usize == place_size && end as usize == end_size).then_some((place, end))
}

/// The same in a memory of 64 bits.
fn placed64(abi: &CanonicalAbiInfo, offset: u32) -> Option<(u32, u32)> {
    if !abi.next_field64_fits(offset) {
        return None;
    }
    let (mut end, mut end_size) = (offset, offset as usize);
    let place = abi.next_field64(&mut end);
    let place_size = abi.next_field64_size(&mut end_size);
    (place as usize == place_size && end as usize == end_size).then_some((place, end))
}

/// Adds the place and the end of a field behind an offset, in memories of 32 bits and of 64 bits.
pub fn add_next(page: &mut String, line: &str) -> Result<(), AllocError> {
    let (word, offset) = word_of(line);
    let offset = small_number_of(offset);
    let Some(abi) = member(word) else {
        return page.push_str("no member");
    };
    write!(
        page,
        "{:?} {:?}",
        placed32(&abi, offset),
        placed64(&abi, offset)
    )
}
