//! Texts one behind the other, and where each stands.

ghost use Rattle.std.specs.Prelude.{◌≡◌, ◌++◌, IfOk, OnOk, string_bytes};
ghost use Rattle.fact_records.specs.Texts.{HasTextAt};

use fact_wasm::OutOfMemory;

/// Where a text stands among others: at which byte it begins, counted from 0, and how many bytes it has.
#[repr(C)]
#[derive(Clone, Copy)]
pub struct TextSpan {
    pub at: usize,
    pub size: usize,
}

/// Puts a text behind the others, and tells where it stands.
pub(crate) fn add_text(text: &mut String, more: &str) -> Result<TextSpan, OutOfMemory>
    ensures grown { OnOk result (string_bytes text.new ≡ string_bytes text.old ++ more.now) }
    ensures stands { IfOk result (λ at. HasTextAt (string_bytes text.new) at more.now) }
{
    let at = text.as_str().len();
    text.push_str(more)?;
    Ok(TextSpan {
        at,
        size: more.len(),
    })
}
