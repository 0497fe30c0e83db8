//! The text that prints a module: its bytes in hex, and the lines of its imports.

ghost use Rattle.std.specs.Prelude.{◌≡◌, string_bytes, IfOk};
ghost use Rattle.fact_run.specs.Run.{page};

use fact_command::with_import_lines;
use fact_module::Import;
use fact_wasm::OutOfMemory;
use std::alloc::Global;

/// The bytes in lower-case hex on one line, and where it is asked for one line an import behind it.
pub fn page_text(
    alloc: Global,
    bytes: &[u8],
    imports: &[Import],
    asked: bool,
) -> Result<String, OutOfMemory>
    ensures { IfOk result (λ text. string_bytes text ≡ page bytes.now imports.now asked) }
{
    let mut text = hex::encode(alloc, bytes)?;
    text.push('\n')?;
    if asked {
        with_import_lines(alloc, text, imports)
    } else {
        Ok(text)
    }
}
