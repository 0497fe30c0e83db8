//! Texts in memory.

ghost use Rattle.std.specs.Prelude.{◌≡◌, ◌≤◌, ◌<◌, ◌+◌, ◌*◌, ◌^◌, ◌↔◌, ◌∷◌, length, IfOk, IsTrue, IsSomeAnd, IfSome, Some};
ghost use Rattle.std.specs.Char.{IsScalar};
ghost use Rattle.std.specs.Str.{chars as chars_in};
ghost use Rattle.std.specs.Char.Utf16.{utf16_chars as utf16_chars_of};
ghost use Rattle.fact_types.specs.declared.outside.FixedEncoding.TheVariants as fixed;
ghost use Rattle.fact_types.specs.declared.outside.StringEncoding.TheVariants as side;
ghost use Rattle.fact_abi.specs.Decoding.{Begins};
ghost use Rattle.fact_values.specs.Texts.{unit_bytes as bytes_of_unit, two_byte_units, all_there, decoded as decoded_text, lies_aligned as lies_in, form_of as form_at, text_at as text_there};

use fact_types::{FixedEncoding, StringEncoding};
use fact_wasm::{OutOfMemory, Seq};
use std::alloc::Global;

/// A text as it stands in memory: its encoding, the alignment of its first byte, and its code units.
#[derive(Clone, Copy)]
struct Form {
    encoding: FixedEncoding,
    align: u64,
    units: u64,
}

/// The form of a text of a length.
fn form_of(encoding: StringEncoding, count: u64) -> Form
    ensures encoding { result.encoding ≡ (form_at encoding count).encoding }
    ensures align { result.align ≡ (form_at encoding count).align }
    ensures units { result.units ≡ (form_at encoding count).units }
    ensures aligned { 1 ≤ result.align }
{
    match encoding {
        StringEncoding::Utf8 => Form {
            encoding: FixedEncoding::Utf8,
            align: 1,
            units: count,
        },
        StringEncoding::Utf16 => Form {
            encoding: FixedEncoding::Utf16,
            align: 2,
            units: count,
        },
        StringEncoding::CompactUtf16 => compact_form(count),
    }
}

fn compact_form(count: u64) -> Form
    ensures encoding { result.encoding ≡ (form_at side.CompactUtf16 count).encoding }
    ensures align { result.align ≡ (form_at side.CompactUtf16 count).align }
    ensures units { result.units ≡ (form_at side.CompactUtf16 count).units }
    ensures aligned { 1 ≤ result.align }
{
    if count / 0x8000_0000 % 2 == 1 {
        Form {
            encoding: FixedEncoding::Utf16,
            align: 2,
            units: count - 0x8000_0000,
        }
    } else {
        Form {
            encoding: FixedEncoding::Latin1,
            align: 2,
            units: count,
        }
    }
}

/// Whether a range of so many bytes begins at a multiple of an alignment and lies in a memory.
pub(crate) fn is_in_range(bytes: &[u8], align: u64, pointer: u64, count: u128) -> bool
    requires aligned { 1 ≤ align }
    requires few { count ≤ 2 ^ 100 }
    ensures { result ≡ lies_in bytes.now align pointer count }
{
    pointer % align == 0 && u128::from(pointer) + count <= bytes.len() as u128
}

/// The text of a pointer and a length, or `None` where they stand for none.
pub(crate) fn text_at(
    alloc: Global,
    encoding: StringEncoding,
    bytes: &[u8],
    pointer: u64,
    count: u64,
) -> Result<Option<Seq<char>>, OutOfMemory>
    ensures { IfOk result (λ o. o ≡ text_there encoding bytes.now pointer count) }
{
    let form = form_of(encoding, count);
    let length = u128::from(form.units) * unit_bytes(form.encoding);
    if !is_in_range(bytes, form.align, pointer, length) {
        return Ok(None);
    }
    let start = pointer as usize;
    decoded(alloc, form.encoding, &bytes[start..start + length as usize])
}

/// The bytes of a code unit.
fn unit_bytes(encoding: FixedEncoding) -> u128
    ensures value { result ≡ bytes_of_unit encoding }
    ensures few { result ≤ 2 }
{
    match encoding {
        FixedEncoding::Utf8 | FixedEncoding::Latin1 => 1,
        FixedEncoding::Utf16 => 2,
    }
}

/// The text that bytes spell, or `None` where they spell none.
pub fn decoded(
    alloc: Global,
    encoding: FixedEncoding,
    bytes: &[u8],
) -> Result<Option<Seq<char>>, OutOfMemory>
    ensures { IfOk result (λ o. o ≡ decoded_text encoding bytes.now) }
{
    match encoding {
        FixedEncoding::Utf8 => utf8_text(alloc, bytes),
        FixedEncoding::Utf16 => utf16_text(alloc, bytes),
        FixedEncoding::Latin1 => {
            let chars = bytes.iter().map(|byte| char::from(*byte)).collect(alloc)?;
            Ok(Some(Seq::from_vec(chars)))
        }
    }
}

fn utf8_text(alloc: Global, bytes: &[u8]) -> Result<Option<Seq<char>>, OutOfMemory>
    ensures { IfOk result (λ o. o ≡ decoded_text fixed.Utf8 bytes.now) }
{
    let Ok(text) = str::from_utf8(bytes) else {
        return Ok(None);
    };
    Ok(Some(chars_of(alloc, text)?))
}

fn chars_of(alloc: Global, text: &str) -> Result<Seq<char>, OutOfMemory>
    ensures { IfOk result (λ cs. cs ≡ chars_in text.now) }
{
    let chars = text.chars().collect(alloc)?;
    Ok(Seq::from_vec(chars))
}

fn utf16_text(alloc: Global, bytes: &[u8]) -> Result<Option<Seq<char>>, OutOfMemory>
    ensures { IfOk result (λ o. o ≡ decoded_text fixed.Utf16 bytes.now) }
{
    match units_of(alloc, bytes)? {
        Some(units) => utf16_chars(alloc, units.as_slice()),
        None => Ok(None),
    }
}

/// The units of two bytes that bytes make, or `None` where the last lacks its second byte.
fn units_of(alloc: Global, bytes: &[u8]) -> Result<Option<Seq<u16>>, OutOfMemory>
    ensures { IfOk result (λ o. o ≡ two_byte_units bytes.now) }
{
    let mut units = Seq::new(alloc);
    let mut bytes = bytes;
    while let [low, high, rest @ ..] = bytes {
        units.push(u16::from(*low) + 0x100 * u16::from(*high))?;
        bytes = rest;
    }
    if bytes.is_empty() {
        Ok(Some(units))
    } else {
        Ok(None)
    }
}

/// The text of units of UTF-16, or `None` where a surrogate has no partner.
fn utf16_chars(alloc: Global, units: &[u16]) -> Result<Option<Seq<char>>, OutOfMemory>
    ensures { IfOk result (λ o. o ≡ all_there (utf16_chars_of units.now)) }
{
    let mut chars = Seq::new(alloc);
    let mut units = units;
    while let [unit, rest @ ..] = units {
        let Some((c, rest)) = next_char(*unit, rest) else {
            return Ok(None);
        };
        chars.push(c)?;
        units = rest;
    }
    Ok(Some(chars))
}

/// The scalar value that a unit of UTF-16 begins, and the units behind it, or `None` at a surrogate without partner.
fn next_char(unit: u16, rest: &[u16]) -> Option<(char, &[u16])>
    ensures reads { Begins result (unit ∷ rest.now) }
    ensures shorter { IfSome result (λ r. length r.1.now ≤ length rest.now) }
{
    let high = u32::from(unit);
    if high < 0xD800 || 0xE000 <= high {
        return alone(high, rest);
    }
    let [low, after @ ..] = rest else {
        return None;
    };
    let low = u32::from(*low);
    if 0xDC00 <= high || low < 0xDC00 || 0xE000 <= low {
        return None;
    }
    alone(0x1_0000 + (high - 0xD800) * 0x400 + (low - 0xDC00), after)
}

// A scalar value in front of units.
fn alone(code: u32, rest: &[u16]) -> Option<(char, &[u16])>
    requires { IsScalar code }
    ensures { IsSomeAnd result (λ r. (r.0 ≡ code) × (r.1.now ≡ rest.now)) }
{
    match char::from_u32(code) {
        Some(c) => Some((c, rest)),
        None => None,
    }
}
