//! Transcoders (canonical ABI, "Storing", `store_string_into_range`): text of one memory is written into another.

ghost use Rattle.std.specs.Prelude.{◌≡◌, ◌≢◌, ◌⊎◌, ℕ, List, [], ◌∷◌, ◌+◌, ◌*◌, ◌^◌, ◌<◌, ◌≤◌, All, length, drop, get_or, take as first, IfOk, IfSome, IsNone, Some, bit_or, if◌then◌else◌};
ghost use Rattle.fact_types.specs.declared.outside.FixedEncoding.TheVariants as fixed;
ghost use Rattle.fact_values.specs.Texts.{AreSpelled, char_spelling, decoded as decoded_text, spelled_text, unit_bytes as bytes_of_unit, units_of_text};
ghost use Rattle.fact_actions.specs.Transcoders.{AllUnits, Counted, Fitting, Narrow, Tagged, Widening, from_encoding, to_encoding, transcode_kind, widened};
ghost use Rattle.fact_host.specs.declared.transcoders.Told.{Told as what_is_told};
ghost use Rattle.fact_host.specs.Hosts.{IsTranscodedByHost, IsMadeOf, FitsDestination, both_listed};
ghost use Rattle.fact_host.specs.Rules.{MustStop, units_read};

use fact_abi::decoded;
use fact_lowering::{spelled, unit_bytes, units_of_char};
use fact_types::{FixedEncoding, Transcode};
use fact_wasm::{OutOfMemory, Seq};
use std::alloc::Global;

/// The encoding that an operation reads.
fn from_encoding(op: Transcode) -> FixedEncoding
    ensures { result ≡ from_encoding op }
{
    match op {
        Transcode::Copy(encoding) => encoding,
        Transcode::Latin1ToUtf16 | Transcode::Latin1ToUtf8 => FixedEncoding::Latin1,
        Transcode::Utf16ToCompactProbablyUtf16
        | Transcode::Utf16ToCompactUtf16
        | Transcode::Utf16ToLatin1
        | Transcode::Utf16ToUtf8 => FixedEncoding::Utf16,
        Transcode::Utf8ToCompactUtf16 | Transcode::Utf8ToLatin1 | Transcode::Utf8ToUtf16 => {
            FixedEncoding::Utf8
        }
    }
}

/// The encoding that an operation writes.
fn to_encoding(op: Transcode) -> FixedEncoding
    ensures { result ≡ to_encoding op }
{
    match op {
        Transcode::Copy(encoding) => encoding,
        Transcode::Utf16ToLatin1 | Transcode::Utf8ToLatin1 => FixedEncoding::Latin1,
        Transcode::Latin1ToUtf8 | Transcode::Utf16ToUtf8 => FixedEncoding::Utf8,
        Transcode::Latin1ToUtf16
        | Transcode::Utf16ToCompactProbablyUtf16
        | Transcode::Utf16ToCompactUtf16
        | Transcode::Utf8ToCompactUtf16
        | Transcode::Utf8ToUtf16 => FixedEncoding::Utf16,
    }
}

/// What a transcoder writes and answers: the bytes, and the numbers, none where it answers nothing.
#[derive(Drop)]
pub struct Transcoded {
    pub bytes: Vec<u8>,
    pub first: Option<u64>,
    pub second: Option<u64>,
}

/// What a transcoder is told: where it reads how many code units, where it writes, the room there, and how many Latin-1 bytes are
/// there.
#[derive(Clone, Copy)]
pub struct Told {
    pub from: u64,
    pub units: u64,
    pub to: u64,
    pub room: u64,
    pub latin1: u64,
}

/// Reads each of some bytes: all of them are below 256.
fn read_bytes(bytes: &[u8])
    ensures { All (λ b. b < 256) bytes.now }
{
    for byte in bytes {
        let _byte = *byte;
    }
}

/// So many bytes at an address, where all of them are there.
fn bytes_at(bytes: &[u8], at: u64, count: u128) -> Option<&[u8]>
    ensures none { IsNone result → length bytes.now < at + count }
    ensures some { IfSome result (λ part. (at + count ≤ length bytes.now) × (part.now ≡ first count (drop at bytes.now))) }
{
    let length = bytes.len() as u128;
    if length < u128::from(at) || length - u128::from(at) < count {
        return None;
    }
    let behind = &bytes[at as usize..];
    Some(&behind[..count as usize])
}

/// The text that a transcoder reads, or `None` where its units are not all there or spell none.
fn text_read(
    alloc: Global,
    op: Transcode,
    source: &[u8],
    told: &Told,
) -> Result<Option<Seq<char>>, OutOfMemory>
    ensures none { IfOk result (λ o. IsNone o → (destination : List ℕ) → MustStop op source.now destination told.now) }
    ensures there { IfOk result (λ o. IfSome o (λ text. told.now.from + bytes_of_unit (from_encoding op) * told.now.units ≤ length source.now)) }
    ensures text { IfOk result (λ o. IfSome o (λ text. decoded_text (from_encoding op) (units_read op source.now told.now) ≡ Some text)) }
    ensures spelled { IfOk result (λ o. IfSome o (λ text. (units_read op source.now told.now ≡ spelled_text (from_encoding op) text) × AreSpelled (from_encoding op) text)) }
{
    let encoding = from_encoding(op);
    let count = u128::from(unit_bytes(encoding)) * u128::from(told.units);
    let Some(bytes) = bytes_at(source, told.from, count) else {
        return Ok(None);
    };
    read_bytes(bytes);
    let text = decoded(alloc, encoding, bytes)?;
    Ok(text)
}

/// Transcodes by an operation, from one memory to another, or answers `None` where the source is malformed or not there, or the
/// destination has no room.
pub fn transcode(
    alloc: Global,
    op: Transcode,
    source: &[u8],
    destination: &[u8],
    told: &Told,
) -> Result<Option<Transcoded>, OutOfMemory>
    ensures stops { IfOk result (λ o. IsNone o → MustStop op source.now destination.now told.now) }
    ensures makes { IfOk result (λ o. IfSome o (λ made. IsTranscodedByHost op source.now destination.now told.now made.bytes.items (both_listed made.first made.second))) }
{
    let Some(text) = text_read(alloc, op, source, told)? else {
        return Ok(None);
    };
    let Some(made) = made_of(alloc, op, text.as_slice(), destination, told)? else {
        return Ok(None);
    };
    let end = u128::from(told.to) + made.bytes.len() as u128;
    if end > destination.len() as u128 {
        return Ok(None);
    }
    read_bytes(made.bytes.as_slice());
    Ok(Some(made))
}

/// What an operation makes of a text, or `None` where Latin-1 bytes that are to be there are not, or there is no room for them and the
/// text.
fn made_of(
    alloc: Global,
    op: Transcode,
    text: &[char],
    destination: &[u8],
    told: &Told,
) -> Result<Option<Transcoded>, OutOfMemory>
    requires { AreSpelled (from_encoding op) text.now }
    ensures none { IfOk result (λ o. IsNone o → (transcode_kind op ≡ Widening) × ((length destination.now < told.now.to + told.now.latin1) ⊎ (told.now.room < told.now.latin1 + units_of_text fixed.Utf16 text.now))) }
    ensures made { IfOk result (λ o. IfSome o (λ made. IsMadeOf op text.now destination.now told.now made.bytes.items (both_listed made.first made.second))) }
    ensures within { IfOk result (λ o. IfSome o (λ made. FitsDestination op destination.now told.now)) }
{
    let transcoded = match op {
        Transcode::Copy(_) | Transcode::Latin1ToUtf16 => all_units(alloc, op, text)?,
        Transcode::Utf8ToUtf16 => counted(alloc, op, text)?,
        Transcode::Latin1ToUtf8 | Transcode::Utf16ToUtf8 => fitting(alloc, op, text, told.room)?,
        Transcode::Utf8ToLatin1 | Transcode::Utf16ToLatin1 => narrow(alloc, op, text)?,
        Transcode::Utf16ToCompactProbablyUtf16 => tagged(alloc, op, text)?,
        Transcode::Utf8ToCompactUtf16 | Transcode::Utf16ToCompactUtf16 => {
            return widening(alloc, op, text, destination, told);
        }
    };
    Ok(Some(transcoded))
}

/// All of a text, unit by unit; nothing is answered.
fn all_units(alloc: Global, op: Transcode, text: &[char]) -> Result<Transcoded, OutOfMemory>
    requires kind { transcode_kind op ≡ AllUnits }
    requires spelled { AreSpelled (from_encoding op) text.now }
    ensures { IfOk result (λ made. (destination : List ℕ) (told : what_is_told) → IsMadeOf op text.now destination told made.bytes.items (both_listed made.first made.second)) }
{
    Ok(Transcoded {
        bytes: spelled(alloc, to_encoding(op), text)?,
        first: None,
        second: None,
    })
}

/// The code units of a text in an encoding that can spell it.
fn units_in(alloc: Global, encoding: FixedEncoding, text: &[char]) -> Result<u64, OutOfMemory>
    requires { AreSpelled encoding text.now }
    ensures { IfOk result (λ count. count ≡ units_of_text encoding text.now) }
{
    let bytes = spelled(alloc, encoding, text)?;
    Ok(bytes.len() as u64 / unit_bytes(encoding))
}

/// All of a text, and how many units that are.
fn counted(alloc: Global, op: Transcode, text: &[char]) -> Result<Transcoded, OutOfMemory>
    requires kind { transcode_kind op ≡ Counted }
    requires spelled { AreSpelled (from_encoding op) text.now }
    ensures { IfOk result (λ made. (destination : List ℕ) (told : what_is_told) → IsMadeOf op text.now destination told made.bytes.items (both_listed made.first made.second)) }
{
    let to = to_encoding(op);
    let bytes = spelled(alloc, to, text)?;
    let units = bytes.len() as u64 / unit_bytes(to);
    Ok(Transcoded {
        bytes,
        first: Some(units),
        second: None,
    })
}

/// A front of a text in an encoding that can spell it; the units read, in the encoding of the whole text, and the bytes written.
fn front_written(
    alloc: Global,
    from: FixedEncoding,
    to: FixedEncoding,
    front: &[char],
) -> Result<Transcoded, OutOfMemory>
    requires read { AreSpelled from front.now }
    requires written { to ≡ fixed.Latin1 → AreSpelled fixed.Latin1 front.now }
    ensures bytes { IfOk result (λ made. made.bytes.items ≡ spelled_text to front.now) }
    ensures numbers { IfOk result (λ made. both_listed made.first made.second ≡ units_of_text from front.now ∷ length made.bytes.items ∷ []) }
{
    let bytes = spelled(alloc, to, front)?;
    let read = units_in(alloc, from, front)?;
    let written = bytes.len() as u64;
    Ok(Transcoded {
        bytes,
        first: Some(read),
        second: Some(written),
    })
}

/// How many scalar values of a text have room, in bytes of UTF-8.
fn count_that_fits(text: &[char], room: u64) -> usize
    ensures within { result ≤ length text.now }
    ensures fits { length (spelled_text fixed.Utf8 (first result text.now)) ≤ room }
    ensures full { result < length text.now → room < length (spelled_text fixed.Utf8 (first result text.now)) + length (char_spelling fixed.Utf8 (get_or text.now result 0)) }
{
    let mut used = 0;
    for (place, c) in text.iter().enumerate() {
        let more = units_of_char(FixedEncoding::Utf8, *c);
        if more > room - used {
            return place;
        }
        used += more;
    }
    text.len()
}

/// The longest prefix of whole scalar values whose UTF-8 fits in the room; the units read and the bytes written.
fn fitting(
    alloc: Global,
    op: Transcode,
    text: &[char],
    room: u64,
) -> Result<Transcoded, OutOfMemory>
    requires kind { transcode_kind op ≡ Fitting }
    requires spelled { AreSpelled (from_encoding op) text.now }
    ensures { IfOk result (λ made. (destination : List ℕ) (told : what_is_told) → told.room ≡ room → IsMadeOf op text.now destination told made.bytes.items (both_listed made.first made.second)) }
{
    let front = &text[..count_that_fits(text, room)];
    let made = front_written(alloc, from_encoding(op), FixedEncoding::Utf8, front)?;
    Ok(made)
}

/// How many scalar values of a text come before the first that is not below 256.
fn count_of_low(text: &[char]) -> usize
    ensures within { result ≤ length text.now }
    ensures low { AreSpelled fixed.Latin1 (first result text.now) }
    ensures next { result < length text.now → 256 ≤ get_or text.now result 0 }
{
    for (place, c) in text.iter().enumerate() {
        if u32::from(*c) >= 0x100 {
            return place;
        }
    }
    text.len()
}

/// The longest prefix of scalar values below 256, as Latin-1; the units read and the bytes written.
fn narrow(alloc: Global, op: Transcode, text: &[char]) -> Result<Transcoded, OutOfMemory>
    requires kind { transcode_kind op ≡ Narrow }
    requires spelled { AreSpelled (from_encoding op) text.now }
    ensures { IfOk result (λ made. (destination : List ℕ) (told : what_is_told) → IsMadeOf op text.now destination told made.bytes.items (both_listed made.first made.second)) }
{
    let front = &text[..count_of_low(text)];
    let made = front_written(alloc, from_encoding(op), FixedEncoding::Latin1, front)?;
    Ok(made)
}

/// Latin-1 where all scalar values are below 256, else UTF-16, whose units are told with bit 31 set.
fn tagged(alloc: Global, op: Transcode, text: &[char]) -> Result<Transcoded, OutOfMemory>
    requires kind { transcode_kind op ≡ Tagged }
    requires spelled { AreSpelled (from_encoding op) text.now }
    ensures { IfOk result (λ made. (destination : List ℕ) (told : what_is_told) → IsMadeOf op text.now destination told made.bytes.items (both_listed made.first made.second)) }
{
    let units = units_in(alloc, FixedEncoding::Utf16, text)?;
    if count_of_low(text) == text.len() {
        let bytes = spelled(alloc, FixedEncoding::Latin1, text)?;
        return Ok(Transcoded {
            bytes,
            first: Some(units),
            second: None,
        });
    }
    let bytes = spelled(alloc, FixedEncoding::Utf16, text)?;
    Ok(Transcoded {
        bytes,
        first: Some(units | 0x8000_0000),
        second: None,
    })
}

/// Latin-1 bytes as UTF-16.
fn widened(alloc: Global, bytes: &[u8]) -> Result<Vec<u8>, OutOfMemory>
    ensures { IfOk result (λ all. all.items ≡ widened bytes.now) }
{
    let mut all = Vec::new(alloc);
    for byte in bytes {
        all.push(*byte)?;
        all.push(0)?;
    }
    Ok(all)
}

/// The Latin-1 bytes that are at the destination become UTF-16 in place, and the text follows, where all of them have room.
fn widening(
    alloc: Global,
    op: Transcode,
    text: &[char],
    destination: &[u8],
    told: &Told,
) -> Result<Option<Transcoded>, OutOfMemory>
    requires kind { transcode_kind op ≡ Widening }
    requires spelled { AreSpelled (from_encoding op) text.now }
    ensures none { IfOk result (λ o. IsNone o → (length destination.now < told.now.to + told.now.latin1) ⊎ (told.now.room < told.now.latin1 + units_of_text fixed.Utf16 text.now)) }
    ensures made { IfOk result (λ o. IfSome o (λ made. IsMadeOf op text.now destination.now told.now made.bytes.items (both_listed made.first made.second))) }
    ensures within { IfOk result (λ o. IfSome o (λ made. told.now.to + told.now.latin1 ≤ length destination.now)) }
{
    let Some(there) = bytes_at(destination, told.to, u128::from(told.latin1)) else {
        return Ok(None);
    };
    let mut bytes = widened(alloc, there)?;
    let more = spelled(alloc, FixedEncoding::Utf16, text)?;
    bytes.extend_from_slice(more.as_slice())?;
    let units = bytes.len() as u64 / 2;
    if units > told.room {
        return Ok(None);
    }
    Ok(Some(Transcoded {
        bytes,
        first: Some(units),
        second: None,
    }))
}
