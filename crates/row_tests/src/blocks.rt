//! Blocks of a table: of plans, of the bytes of modules, of types, of sources, and of tests of the libraries.

use crate::adapted::add_adapted;
use crate::command::{
    add_asked, add_bytes, add_checked, add_end, add_imports, add_page, add_prefixes,
};
use crate::fueled::add_fueled;
use crate::plans::{add_entries, add_fused, add_generates};
use crate::printed::module_of_block;
use crate::shown::add_shown;
use fact_plan_types::{FuseError, PlanTypes};
use fact_wasm::WasmModule;
use line_tests::{
    add_lines_of_source, add_of_module, add_of_types, add_run, begins_answer, edited, end_module,
    made_of, word_of,
};
use std::alloc::{AllocError, Global};
use type_tests::holds;

/// What the lines of a block speak of.
trait Head {
    /// Adds what comes of a line.
    fn add_came(&self, page: &mut String, alloc: Global, line: &str) -> Result<(), AllocError>;
}

/// A plan, or the bytes of a module, with the module that it has.
#[derive(Clone, Copy)]
struct OfModule<'a> {
    plan: &'a str,
    module: &'a Option<WasmModule>,
}

/// Tests of the libraries, by their names.
#[derive(Clone, Copy)]
struct OfTests;

/// Adds what comes of the plan of a block with edits.
fn add_edited(
    page: &mut String,
    alloc: Global,
    plan: &str,
    kind: &str,
    edits: &str,
) -> Result<(), AllocError> {
    let plan = edited(alloc, plan, edits)?;
    match kind {
        "end" => add_end(page, alloc, plan.as_str()),
        "imports" => add_imports(page, alloc, plan.as_str()),
        "prefixes" => add_prefixes(page, alloc, plan.as_str()),
        "fuse" => add_fused(page, alloc, plan.as_str()),
        _ => add_page(page, alloc, plan.as_str()),
    }
}

impl Head for OfModule<'_> {
    fn add_came(&self, page: &mut String, alloc: Global, line: &str) -> Result<(), AllocError> {
        let (plan, module) = (self.plan, self.module);
        let (kind, rest) = word_of(line);
        match (kind, module) {
            ("run", Some(module)) => add_run(page, alloc, module, rest),
            ("run", None) => page.push_str("no module"),
            ("ask", _) => add_asked(page, alloc, plan, rest),
            ("bytes", _) => add_bytes(page, alloc, rest),
            ("check", _) => add_checked(page, alloc, rest),
            ("generates", _) => add_generates(page, alloc, plan, rest),
            ("entries", _) => add_entries(page, alloc, rest),
            ("fuel", _) => add_fueled(page, alloc, plan, rest),
            ("shows", _) => add_shown(page, alloc, plan, module, rest),
            ("spells" | "call" | "tree", module) => add_of_module(page, alloc, module, kind, rest),
            _ => add_edited(page, alloc, plan, kind, rest),
        }
    }
}

/// Types, or why there are none.
impl Head for Result<PlanTypes, FuseError> {
    fn add_came(&self, page: &mut String, alloc: Global, line: &str) -> Result<(), AllocError> {
        match (self, line.split_once("adapt ")) {
            (Ok(made), Some(("", steps))) => add_adapted(page, alloc, made, steps),
            (Ok(made), _) => add_of_types(page, alloc, made, line),
            (Err(refusal), _) => write!(page, "{refusal}"),
        }
    }
}

impl Head for OfTests {
    fn add_came(&self, page: &mut String, alloc: Global, line: &str) -> Result<(), AllocError> {
        page.push_str(if holds(alloc, line) || host_tests::holds(alloc, line) {
            "as it should be"
        } else {
            "not as it should be"
        })
    }
}

/// Adds the answers to the lines of a block.
fn add_lines_of<H: Head>(
    page: &mut String,
    alloc: Global,
    name: &str,
    head: &H,
    lines: &str,
) -> Result<(), AllocError> {
    for (number, line) in lines.lines().enumerate() {
        if begins_answer(page, name, number, line)? {
            head.add_came(page, alloc, line)?;
        }
        page.push('\n')?;
    }
    Ok(())
}

/// Adds the answers to the lines of a block of a plan, or of the bytes of a module.
fn add_lines_of_plan(
    page: &mut String,
    alloc: Global,
    name: &str,
    plan: &str,
    lines: &str,
) -> Result<(), AllocError> {
    let module = module_of_block(alloc, plan)?;
    let head = OfModule {
        plan,
        module: &module,
    };
    let added = add_lines_of(page, alloc, name, &head, lines);
    end_module(module);
    added
}

/// Adds the answers to the lines of a block of types.
fn add_lines_of_types(
    page: &mut String,
    alloc: Global,
    name: &str,
    words: &str,
    lines: &str,
) -> Result<(), AllocError> {
    let types_made = made_of(alloc, words);
    let added = add_lines_of(page, alloc, name, &types_made, lines);
    // A call that drops the types has a short proof, the end of their scope a long one.
    drop(types_made);
    added
}

fn add_block(page: &mut String, alloc: Global, text: &str) -> Result<(), AllocError> {
    let (head, lines) = text.split_once("\n").unwrap_or((text, ""));
    let (name, head) = word_of(head);
    match word_of(head) {
        ("types", words) => add_lines_of_types(page, alloc, name, words, lines),
        ("source", words) => add_lines_of_source(page, alloc, name, words, lines),
        ("tests", _) => add_lines_of(page, alloc, name, &OfTests, lines),
        _ => add_lines_of_plan(page, alloc, name, head, lines),
    }
}

/// Adds the answers to a table.
pub fn add_blocks(page: &mut String, alloc: Global, text: &str) -> Result<(), AllocError> {
    for block in text.split("\nblock ").skip(1) {
        add_block(page, alloc, block)?;
    }
    Ok(())
}
