//! The imports of a module, as a table.

ghost use Rattle.std.specs.Prelude.{◌≡◌, ◌++◌, IfOk, codes, slice_get, string_bytes, zip};
ghost use Rattle.fact_command.specs.ImportLines.{width_text};
ghost use Rattle.fact_explain.specs.CoreTypes.{val_text};
ghost use Rattle.fact_explain.specs.Imports.{IsImportRow, function_text, import_type_text, mutable_text, pages_text};
ghost use Rattle.fact_explain.specs.Pages.{IsImportPart};
ghost use Rattle.fact_explain.specs.Concatenations.{IsConcatenation};

use crate::core_types::{core_text, val_text};
use crate::layouts::width_text;
use crate::shown::shown_text;
use crate::texts::behind_key;
use fact_command::import_text;
use fact_module::{Fused, Import};
use fact_wasm::{FuncType, ImportType, OutOfMemory, ValType, WasmImport};
use std::alloc::Global;

/// What imports are for, by their module, and traps by their name.
const PURPOSES: &str = "\
flags\twhether the component instance may leave
memory\ta memory of a side
realloc\tallocates in a memory of a side
callback\tthe callback of an async callee, which no adapter calls
callee\tthe function that is called
post_return\tis called behind the moving of results
transcode\twrites text of one memory into another
resource\tgives a handle of a resource to the other side
future\tgives a handle of a future to the other side
stream\tgives a handle of a stream to the other side
error-context\tgives a handle of an error context to the other side
async\ttells the runtime of a call
sync\tbegins an async call
context\ta slot of the context of the running task
trap0\tthe caller may not leave its component
trap1\tboth sides are of one instance
trap2\tparameters or results do not lie within their memory
trap3\ta string does not lie within its memory, or is too long
trap4\ta list or a map does not lie within its memory, or is too long
trap5\ta pointer is not aligned
trap6\ta char is no Unicode scalar value
trap7\ta discriminant names no case
trap8\tsomething was thrown
trap9\tdebug check: a value is not aligned
trap10\tdebug check: an upper half is not 0
trap11\tdebug check: a transcoder did not finish
trap12\tdebug check: a transcoder changed the number of code units
";

/// What an import is for.
fn purpose(import: &WasmImport) -> &'static str {
    let from = import.module.as_str();
    let key = if from == "runtime" {
        import.name.as_str()
    } else {
        from
    };
    behind_key(PURPOSES, key).unwrap_or("")
}

/// The function type at a place among types.
fn function_text(alloc: Global, types: &[FuncType], place: usize) -> Result<String, OutOfMemory>
    ensures { IfOk result (λ t. string_bytes t ≡ function_text (slice_get types.now place)) }
{
    match types.get(place) {
        Some(ty) => core_text(alloc, ty.params.as_slice(), ty.results.as_slice()),
        None => String::from_str(alloc, "function"),
    }
}

/// A global, by its type and whether it is mutable.
fn global_text(alloc: Global, ty: ValType, mutable: bool) -> Result<String, OutOfMemory>
    ensures { IfOk result (λ t. string_bytes t ≡ codes "global, " ++ (mutable_text mutable ++ val_text ty)) }
{
    let mutable = if mutable { "mutable " } else { "" };
    let ty = val_text(ty);
    format!(in alloc; "global, {mutable}{ty}")
}

/// A memory, by whether its addresses have 64 bits, and by its page size where it has one of its own.
fn memory_text(
    alloc: Global,
    wide: bool,
    page_size_log2: Option<u32>,
) -> Result<String, OutOfMemory>
    ensures { IfOk result (λ t. string_bytes t ≡ codes "memory, " ++ (width_text wide ++ (codes " bits" ++ pages_text page_size_log2))) }
{
    let width = width_text(wide);
    match page_size_log2 {
        Some(log2) => format!(in alloc; "memory, {width} bits, pages of 2^{log2} bytes"),
        None => format!(in alloc; "memory, {width} bits"),
    }
}

/// The type of an import, over the types of the module.
fn type_text(alloc: Global, types: &[FuncType], ty: &ImportType) -> Result<String, OutOfMemory>
    ensures { IfOk result (λ t. string_bytes t ≡ import_type_text types.now ty.now) }
{
    match ty {
        ImportType::Func(index) => function_text(alloc, types, *index as usize),
        ImportType::Memory {
            memory64,
            page_size_log2,
            ..
        } => memory_text(alloc, *memory64, *page_size_log2),
        ImportType::Global { ty, mutable } => global_text(alloc, *ty, *mutable),
    }
}

/// The row of an import: its module, its name, its type, what it is for, and its line as `--imports` prints it.
fn import_row(
    alloc: Global,
    types: &[FuncType],
    import: &WasmImport,
    known: &Import,
) -> Result<String, OutOfMemory>
    ensures { IfOk result (λ t. IsImportRow types.now 0 (import.now, known.now) (string_bytes t)) }
{
    let ty = type_text(alloc, types, &import.ty)?;
    let line = import_text(alloc, known)?;
    let from = shown_text(alloc, import.module.as_str())?;
    let name = shown_text(alloc, import.name.as_str())?;
    let purpose = shown_text(alloc, purpose(import))?;
    format!(in alloc; "  {from} {name}: {ty}; {purpose}; {line}\n")
}

/// The rows of imports, in order; each has one beside it that says what it stands for.
fn import_rows(
    alloc: Global,
    types: &[FuncType],
    imports: &[WasmImport],
    known: &[Import],
) -> Result<String, OutOfMemory>
    ensures { IfOk result (λ t. IsConcatenation (IsImportRow types.now) 0 (zip imports.now known.now) (string_bytes t)) }
{
    let mut text = String::new(alloc);
    for (k, import) in imports.iter().enumerate() {
        if let Some(known) = known.get(k) {
            let row = import_row(alloc, types, import, known)?;
            text.push_str(&row)?;
        }
    }
    Ok(text)
}

/// What a module imports, as a table.
pub(crate) fn imports_text(alloc: Global, fused: &Fused) -> Result<String, OutOfMemory>
    ensures { IfOk result (λ t. IsImportPart fused.now (string_bytes t)) }
{
    let rows = import_rows(
        alloc,
        fused.module.types.as_slice(),
        fused.module.imports.as_slice(),
        fused.imports.as_slice(),
    )?;
    format!(in alloc; "imports\n{rows}")
}
