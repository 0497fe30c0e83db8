//! What the module of a plan is like, where a table does not have all its bytes. A line `shows` asks for:
//!
//!     exports             the names of its exports, in their order
//!     type MODULE NAME    the parameters and the results of its import of these names
//!     sizes               its bytes, and its imports
//!     sorted              the lines of its imports, the least one first
//!     parts PARTS         whether its page has these parts, parted by `$`, in this order, and ends with the last of them
//!     same WORDS          whether the same is printed with these words
//!     generated N         its functions, and whether `--generate N` counts what it has

ghost use Rattle.std.specs.Prelude.{◌≤◌, length};

use crate::command::{asked, plain, run_on};
use fact_wasm::{ImportType, WasmImport, WasmModule};
use line_tests::{add_types, word_of};
use std::alloc::{AllocError, Global};

/// Adds the names that a module exports.
fn add_exports(page: &mut String, module: &WasmModule) -> Result<(), AllocError> {
    for (place, export) in module.exports.as_slice().iter().enumerate() {
        page.push_str(if place == 0 { "" } else { " " })?;
        page.push_str(export.name.as_str())?;
    }
    Ok(())
}

/// The index of the type of the imported function of these names.
fn type_of(imports: &[WasmImport], from: &str, name: &str) -> Option<u32> {
    for import in imports {
        if import.module.as_str() == from && import.name.as_str() == name {
            return match import.ty {
                ImportType::Func(index) => Some(index),
                _ => None,
            };
        }
    }
    None
}

/// Adds the type of an imported function.
fn add_type(page: &mut String, module: &WasmModule, names: &str) -> Result<(), AllocError> {
    let (from, name) = word_of(names);
    let Some(index) = type_of(module.imports.as_slice(), from, name) else {
        return page.push_str("no such function");
    };
    let Some(ty) = module.types.get(index as usize) else {
        return page.push_str("no such type");
    };
    add_types(page, ty.params.as_slice())?;
    page.push(' ')?;
    add_types(page, ty.results.as_slice())
}

/// The bytes of the module that is printed for a plan, and the lines behind it.
fn sizes_of(alloc: Global, plan: &str) -> Result<(usize, usize), AllocError> {
    let seen = run_on(alloc, &asked("", "|--imports", plan))?;
    let (hex, lines) = seen.printed().split_once("\n").unwrap_or(("", ""));
    Ok((hex.len() / 2, lines.lines().count()))
}

fn add_sizes(page: &mut String, alloc: Global, plan: &str) -> Result<(), AllocError> {
    let (bytes, imports) = sizes_of(alloc, plan)?;
    write!(page, "{bytes} {imports}")
}

/// The place of a line before the first one that is greater.
fn place_of(lines: &[&str], line: &str) -> usize
    ensures { result ≤ length lines.now }
{
    for (place, other) in lines.iter().enumerate() {
        if line < *other {
            return place;
        }
    }
    lines.len()
}

/// Adds the lines of the imports, the least one first.
fn add_sorted(page: &mut String, alloc: Global, plan: &str) -> Result<(), AllocError> {
    let seen = run_on(alloc, &asked("", "|--imports", plan))?;
    let (_, text) = seen.printed().split_once("\n").unwrap_or(("", ""));
    let mut lines = Vec::new(alloc);
    for line in text.lines() {
        let place = place_of(lines.as_slice(), line);
        lines.insert(place, line)?;
    }
    for line in lines.iter() {
        write!(page, "{line}$")?;
    }
    Ok(())
}

/// What stands in a text behind parts that stand in it in this order.
fn behind<'a>(text: &'a str, parts: &str) -> Option<&'a str> {
    let mut rest = text;
    for part in parts.split('$') {
        rest = rest.split_once(part)?.1;
    }
    Some(rest)
}

fn add_parts(page: &mut String, alloc: Global, plan: &str, parts: &str) -> Result<(), AllocError> {
    let seen = run_on(alloc, &plain(plan))?;
    let has = matches!(behind(seen.printed(), parts), Some("\n"));
    page.push_str(if has { "its parts" } else { "other parts" })
}

/// Adds whether a plan prints the same with these words as without.
fn add_same(page: &mut String, alloc: Global, plan: &str, words: &str) -> Result<(), AllocError> {
    let wanted = run_on(alloc, &plain(plan))?;
    let seen = run_on(alloc, &asked("", words, plan))?;
    let same = seen.printed() == wanted.printed() && seen.told().is_empty();
    page.push_str(if same { "the same" } else { "not the same" })
}

/// Whether a run that generates its plan, and reads nothing, writes this.
fn is_counted(alloc: Global, number: &str, counts: &str) -> Result<bool, AllocError> {
    let words = format!(in alloc; "|--generate|{number}")?;
    let seen = run_on(alloc, &asked("4096 1", words.as_str(), ""))?;
    Ok(seen.status.number() == 0 && seen.printed() == counts && seen.told().is_empty())
}

/// Adds the functions of a module, and whether a plan of so many adapters is counted as this one.
fn add_generated(
    page: &mut String,
    alloc: Global,
    plan: &str,
    functions: usize,
    number: &str,
) -> Result<(), AllocError> {
    let (bytes, imports) = sizes_of(alloc, plan)?;
    let counts = format!(in alloc;
        "adapters {number}\nfunctions {functions}\nimports {imports}\nbytes {bytes}\n"
    )?;
    let is = is_counted(alloc, number, counts.as_str())?;
    let counts = if is { "its counts" } else { "other counts" };
    write!(page, "{functions} functions, {counts}")
}

/// Adds what a line asks of a module.
fn add_of(
    page: &mut String,
    alloc: Global,
    plan: &str,
    module: &WasmModule,
    line: &str,
) -> Result<(), AllocError> {
    let (kind, rest) = word_of(line);
    match kind {
        "exports" => add_exports(page, module),
        "type" => add_type(page, module, rest),
        "sizes" => add_sizes(page, alloc, plan),
        "sorted" => add_sorted(page, alloc, plan),
        "parts" => add_parts(page, alloc, plan, rest),
        "same" => add_same(page, alloc, plan, rest),
        "generated" => add_generated(page, alloc, plan, module.funcs.len(), rest),
        _ => page.push_str("no such line"),
    }
}

/// Adds what comes of a `shows` of a plan, if it has a module.
pub fn add_shown(
    page: &mut String,
    alloc: Global,
    plan: &str,
    module: &Option<WasmModule>,
    line: &str,
) -> Result<(), AllocError> {
    match module {
        Some(module) => add_of(page, alloc, plan, module, line),
        None => page.push_str("no module"),
    }
}
