//! Lines that are put together.

use crate::shown::shown_text;
use fact_wasm::OutOfMemory;
use std::alloc::Global;

/// How many characters of a long text are shown.
const MOST_SHOWN: usize = 80;

/// Appends texts, one behind the other.
pub(crate) fn push_all(text: &mut String, parts: &[&str]) -> Result<(), OutOfMemory> {
    for part in parts {
        text.push_str(*part)?;
    }
    Ok(())
}

/// Appends a line, as it is shown.
pub(crate) fn push_line(alloc: Global, text: &mut String, line: &str) -> Result<(), OutOfMemory> {
    let line = shown_text(alloc, line)?;
    push_all(text, &["  ", &line, "\n"])
}

/// Appends a line that says what is wanted at a place, and what is there.
pub(crate) fn push_reason(
    alloc: Global,
    text: &mut String,
    place: &str,
    wanted: &str,
    found: &str,
) -> Result<(), OutOfMemory> {
    let line = format!(in alloc; "{place}: wanted {wanted}, found {found}")?;
    push_line(alloc, text, &line)
}

/// The first characters of a text, and two dots where it has more.
pub(crate) fn shortened(alloc: Global, text: &str) -> Result<String, OutOfMemory> {
    let mut short: String = text.chars().take(MOST_SHOWN).collect(alloc)?;
    if short.len() < text.len() {
        short.push_str("..")?;
    }
    Ok(short)
}

/// What stands behind the key of a line, in lines of a key, a tab and a text.
pub(crate) fn behind_key<'a>(lines: &'a str, key: &str) -> Option<&'a str> {
    for line in lines.lines() {
        if let Some((name, text)) = line.split_once('\t') {
            if name == key {
                return Some(text);
            }
        }
    }
    None
}
