//! Modules that the command prints with some fuel. A line `fuel N` asks of the one that it prints with `--fuel N`:
//!
//!     functions   the functions that it defines, in order: the name that each is exported by, or `helper`, and the numbers of those
//!                 that its code calls, front to back
//!     run ..      a run of it: `runs`

use crate::command::{asked, run_on};
use crate::printed::module_in;
use fact_wasm::{FuncName, WasmModule};
use line_tests::{add_run, add_text, add_tree, end_module, word_of};
use std::alloc::{AllocError, Global};

/// The module that the command prints for a plan with this fuel, if it prints one.
fn module_with(alloc: Global, plan: &str, fuel: &str) -> Result<Option<WasmModule>, AllocError> {
    let words = format!(in alloc; "|--fuel|{fuel}")?;
    let seen = run_on(alloc, &asked("", words.as_str(), plan))?;
    let module = module_in(alloc, seen.printed());
    drop(seen);
    module
}

/// The name that a function of a module is exported by, or `helper` where it is not.
fn name_of(module: &WasmModule, place: usize) -> &str {
    for export in module.exports.as_slice() {
        match export.func {
            FuncName::Defined(number) if number as usize == place => return export.name.as_str(),
            _ => (),
        }
    }
    "helper"
}

/// Adds the numbers of the functions of a module that the code of one calls.
fn add_calls(
    page: &mut String,
    alloc: Global,
    module: &WasmModule,
    place: usize,
) -> Result<(), AllocError> {
    let mut code = String::new(alloc);
    let part = format!(in alloc; "body {place}")?;
    add_tree(&mut code, module, part.as_str())?;
    for call in code.as_str().split(" call func:").skip(1) {
        let (number, _) = word_of(call);
        write!(page, " {number}")?;
    }
    Ok(())
}

/// Adds the functions that a module defines.
fn add_functions(page: &mut String, alloc: Global, module: &WasmModule) -> Result<(), AllocError> {
    for place in 0..module.funcs.len() {
        page.push_str(if place == 0 { "" } else { " ; " })?;
        add_text(page, name_of(module, place))?;
        add_calls(page, alloc, module, place)?;
    }
    Ok(())
}

/// Adds what a line asks of a module.
fn add_of(
    page: &mut String,
    alloc: Global,
    module: &WasmModule,
    line: &str,
) -> Result<(), AllocError> {
    match word_of(line) {
        ("functions", _) => add_functions(page, alloc, module),
        ("run", rest) => add_run(page, alloc, module, rest),
        _ => page.push_str("no such line"),
    }
}

/// Adds what comes of a `fuel` of a plan.
pub fn add_fueled(
    page: &mut String,
    alloc: Global,
    plan: &str,
    line: &str,
) -> Result<(), AllocError> {
    let (fuel, line) = word_of(line);
    match module_with(alloc, plan, fuel)? {
        Some(module) => {
            let added = add_of(page, alloc, &module, line);
            end_module(Some(module));
            added
        }
        None => page.push_str("no module"),
    }
}
