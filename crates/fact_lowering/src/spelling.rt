//! Texts as bytes (canonical ABI, "Storing", `store_string`).

ghost use Rattle.std.specs.Prelude.{◌≡◌, ◌≤◌, ◌%◌, ◌/◌, ◌++◌, ◌∷◌, [], IfOk, OnOk};
ghost use Rattle.std.specs.Char.Escape.{encode_utf16};
ghost use Rattle.fact_types.specs.declared.outside.FixedEncoding.TheVariants as fixed;
ghost use Rattle.fact_values.specs.Texts.{AreSpelled, low_first, spelled_text, unit_bytes as bytes_of_unit, units as units_there};
ghost use Rattle.fact_actions.specs.Transcoders.{all_latin1};
ghost use Rattle.fact_lowering.specs.TextForms.{stored_in};

use fact_types::{FixedEncoding, StringEncoding};
use fact_wasm::OutOfMemory;
use std::alloc::Global;

/// The bytes of a text in an encoding, which can spell it: Latin-1 where all its scalar values are below 256, and the others always.
pub fn spelled(
    alloc: Global,
    encoding: FixedEncoding,
    text: &[char],
) -> Result<Vec<u8>, OutOfMemory>
    requires { encoding ≡ fixed.Latin1 → AreSpelled fixed.Latin1 text.now }
    ensures { IfOk result (λ bytes. bytes.items ≡ spelled_text encoding text.now) }
{
    match encoding {
        FixedEncoding::Utf8 => spelled_utf8(alloc, text),
        FixedEncoding::Utf16 => spelled_utf16(alloc, text),
        FixedEncoding::Latin1 => spelled_latin1(alloc, text),
    }
}

fn spelled_utf8(alloc: Global, text: &[char]) -> Result<Vec<u8>, OutOfMemory>
    ensures { IfOk result (λ bytes. bytes.items ≡ spelled_text fixed.Utf8 text.now) }
{
    let mut spelling = String::new(alloc);
    for c in text {
        spelling.push(*c)?;
    }
    Ok(spelling.into_bytes())
}

fn spelled_utf16(alloc: Global, text: &[char]) -> Result<Vec<u8>, OutOfMemory>
    ensures { IfOk result (λ bytes. bytes.items ≡ spelled_text fixed.Utf16 text.now) }
{
    let mut bytes = Vec::new(alloc);
    for c in text {
        push_utf16(&mut bytes, *c)?;
    }
    Ok(bytes)
}

fn spelled_latin1(alloc: Global, text: &[char]) -> Result<Vec<u8>, OutOfMemory>
    requires { AreSpelled fixed.Latin1 text.now }
    ensures { IfOk result (λ bytes. bytes.items ≡ spelled_text fixed.Latin1 text.now) }
{
    let mut bytes = Vec::new(alloc);
    for c in text {
        bytes.push(u32::from(*c) as u8)?;
    }
    Ok(bytes)
}

/// Puts the units of a scalar value in UTF-16 behind bytes.
pub fn push_utf16(bytes: &mut Vec<u8>, c: char) -> Result<(), OutOfMemory>
    ensures { OnOk result (bytes.new.items ≡ bytes.old.items ++ low_first (encode_utf16 c)) }
{
    let code = u32::from(c);
    if code < 0x1_0000 {
        push_unit(bytes, code as u16)?;
    } else {
        push_unit(bytes, (0xD800 + (code - 0x1_0000) / 0x400) as u16)?;
        push_unit(bytes, (0xDC00 + (code - 0x1_0000) % 0x400) as u16)?;
    }
    Ok(())
}

/// Puts a unit of two bytes behind others, the low byte first.
fn push_unit(bytes: &mut Vec<u8>, unit: u16) -> Result<(), OutOfMemory>
    ensures { OnOk result (bytes.new.items ≡ bytes.old.items ++ unit % 256 ∷ unit / 256 ∷ []) }
{
    bytes.push((unit % 0x100) as u8)?;
    bytes.push((unit / 0x100) as u8)?;
    Ok(())
}

/// The code units of a scalar value in an encoding.
pub fn units_of_char(encoding: FixedEncoding, c: char) -> u64
    ensures value { result ≡ units_there encoding c }
    ensures few { result ≤ 4 }
{
    let code = u32::from(c);
    match encoding {
        FixedEncoding::Latin1 => 1,
        FixedEncoding::Utf16 => { if code < 0x1_0000 { 1 } else { 2 } }
        FixedEncoding::Utf8 => {
            if code < 0x80 {
                1
            } else if code < 0x800 {
                2
            } else if code < 0x1_0000 {
                3
            } else {
                4
            }
        }
    }
}

/// The bytes of a code unit.
pub fn unit_bytes(encoding: FixedEncoding) -> u64
    ensures value { result ≡ bytes_of_unit encoding }
    ensures some { 1 ≤ result }
    ensures few { result ≤ 2 }
{
    match encoding {
        FixedEncoding::Utf8 | FixedEncoding::Latin1 => 1,
        FixedEncoding::Utf16 => 2,
    }
}

/// Whether all scalar values of a text are below 256.
fn is_narrow(text: &[char]) -> bool
    ensures { result ≡ all_latin1 text.now }
{
    for c in text {
        if u32::from(*c) >= 0x100 {
            return false;
        }
    }
    true
}

/// The encoding in which a side's text is stored: a compact one is Latin-1 where all scalar values are below 256.
pub fn stored_encoding(encoding: StringEncoding, text: &[char]) -> FixedEncoding
    ensures { result ≡ stored_in encoding text.now }
{
    match encoding {
        StringEncoding::Utf8 => FixedEncoding::Utf8,
        StringEncoding::Utf16 => FixedEncoding::Utf16,
        StringEncoding::CompactUtf16 => {
            if is_narrow(text) {
                FixedEncoding::Latin1
            } else {
                FixedEncoding::Utf16
            }
        }
    }
}
