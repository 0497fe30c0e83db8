//! Text as it is shown within a line: control characters, which names may have, are escaped.
ghost use Rattle.std.specs.Prelude.{◌≡◌, ◌++◌, IfOk, string_bytes};
ghost use Rattle.fact_explain.specs.Shown.{shown, shown_char};

use fact_wasm::OutOfMemory;
use std::alloc::Global;

/// Appends a character as it is shown.
fn push_shown(alloc: Global, text: &mut String, c: char) -> Result<(), OutOfMemory>
    ensures { IfOk result (λ done. string_bytes text.new ≡ string_bytes text.old ++ shown_char c) }
{
    if c.is_control() {
        let number = c as u32;
        let escape = format!(in alloc; "\\u{{{number:x}}}")?;
        text.push_str(&escape)
    } else {
        text.push(c)
    }
}

/// A text as it is shown.
pub(crate) fn shown_text(alloc: Global, text: &str) -> Result<String, OutOfMemory>
    ensures { IfOk result (λ t. string_bytes t ≡ shown text.now) }
{
    let chars: Vec<char> = text.chars().collect(alloc)?;
    let mut shown = String::new(alloc);
    for c in chars.as_slice() {
        push_shown(alloc, &mut shown, *c)?;
    }
    Ok(shown)
}
