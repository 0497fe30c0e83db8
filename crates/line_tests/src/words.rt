//! Parts of lines, numbers, bytes, sides, core values, and plans with edits; and how answers begin.

use fact_machine::CoreValue;
use fact_types::StringEncoding;
use fact_values::SideAbi;
use fact_wasm::{FuncName, Seq};
use std::alloc::{AllocError, Global};

/// What stands before the first ` | `, and what stands behind it.
pub fn first_of(line: &str) -> (&str, &str) {
    line.split_once(" | ").unwrap_or((line, ""))
}

/// What stands before the first space, and what stands behind it.
pub fn word_of(line: &str) -> (&str, &str) {
    line.split_once(" ").unwrap_or((line, ""))
}

/// A number in decimal. What is none gives the largest one.
pub fn number_of(word: &str) -> u64 {
    word.parse::<u64>().unwrap_or(u64::MAX)
}

/// A number of 32 bits in decimal. What is none gives the largest one.
pub fn small_number_of(word: &str) -> u32 {
    word.parse::<u32>().unwrap_or(u32::MAX)
}

/// Numbers with commas between them.
pub fn numbers_of(alloc: Global, word: &str) -> Result<Vec<u32>, AllocError> {
    let mut numbers = Vec::new(alloc);
    for digits in word.split(',') {
        if let Ok(number) = digits.parse::<u32>() {
            numbers.push(number)?;
        }
    }
    Ok(numbers)
}

/// A word for whether something is so.
pub fn yes_or_no(is_so: bool) -> &'static str {
    if is_so { "yes" } else { "no" }
}

/// A side by its encoding and the width of its addresses.
pub fn side_of(word: &str) -> SideAbi {
    let (encoding, width) = word.split_once(":").unwrap_or((word, ""));
    let encoding = match encoding {
        "utf8" => StringEncoding::Utf8,
        "utf16" => StringEncoding::Utf16,
        _ => StringEncoding::CompactUtf16,
    };
    SideAbi {
        memory64: width == "64",
        encoding,
    }
}

/// Bytes by their digits, two for each. What is no such text is no byte.
pub fn bytes_of(alloc: Global, word: &str) -> Vec<u8> {
    hex::decode(alloc, word).unwrap_or(Vec::new(alloc))
}

/// A core value of 32 bits: a number, a float, or a function by its number.
fn small_value_of(ty: &str, bits: u32) -> Option<CoreValue> {
    match ty {
        "i32" => Some(CoreValue::I32(bits)),
        "f32" => Some(CoreValue::F32(bits)),
        "func" => Some(CoreValue::Func(FuncName::Defined(bits))),
        "import" => Some(CoreValue::Func(FuncName::Import(bits))),
        _ => None,
    }
}

/// A core value by its type and its bits: a number of 32 bits or of 64, a float, or a function by its number.
pub fn core_value_of(word: &str) -> Option<CoreValue> {
    let (ty, digits) = word.split_once(":")?;
    let bits = digits.parse::<u64>().ok()?;
    match ty {
        "i64" => Some(CoreValue::I64(bits)),
        "f64" => Some(CoreValue::F64(bits)),
        _ => small_value_of(ty, u32::try_from(bits).ok()?),
    }
}

/// Core values by their words; a word that is none, as `nothing`, is passed over.
pub fn core_values_of(alloc: Global, words: &str) -> Result<Seq<CoreValue>, AllocError> {
    let mut values = Seq::new(alloc);
    for word in words.split_whitespace() {
        if let Some(value) = core_value_of(word) {
            values.push(value)?;
        }
    }
    Ok(values)
}

/// The text with a new part in the first place of an old one. Where the old one is not there, the text is lost.
fn replaced(alloc: Global, text: &str, old: &str, new: &str) -> Result<String, AllocError> {
    match text.split_once(old) {
        Some((before, after)) => format!(in alloc; "{before}{new}{after}"),
        None => String::from_str(alloc, "no such part"),
    }
}

/// A plan with some edits, parted by ` | `: each is a part, `=>` and what stands in its place.
pub fn edited(alloc: Global, plan: &str, edits: &str) -> Result<String, AllocError> {
    let mut text = String::from_str(alloc, plan)?;
    for edit in edits.split(" | ") {
        if let Some((old, new)) = edit.split_once("=>") {
            text = replaced(alloc, text.as_str(), old.trim(), new.trim())?;
        }
    }
    Ok(text)
}

/// Adds a text in one line, in which `$` stands for a newline.
pub fn add_text(page: &mut String, text: &str) -> Result<(), AllocError> {
    for (place, line) in text.split('\n').enumerate() {
        page.push_str(if place == 0 { "" } else { "$" })?;
        page.push_str(line)?;
    }
    Ok(())
}

/// Begins the answer to a line by the name of its block and its number. A comment is copied, and has no answer.
pub fn begins_answer(
    page: &mut String,
    name: &str,
    number: usize,
    line: &str,
) -> Result<bool, AllocError> {
    if line.starts_with('#') {
        page.push_str(line)?;
        return Ok(false);
    }
    write!(page, "{name} {number}: ")?;
    Ok(true)
}
