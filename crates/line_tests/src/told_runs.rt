//! How runs are told: the end, the outside calls, the globals, and where memories changed. An outside call is the number of its function,
//! with `:` and the name of its import where this is of the runtime; or, in a run `through`, the module and the name of its import;
//! the arguments; and behind `at` the globals before it.

use fact_machine::{Answer, CoreValue, End, Event, Outcome};
use fact_wasm::{FuncName, ImportType, Seq, WasmImport};
use std::alloc::AllocError;

fn add_value(page: &mut String, value: &CoreValue) -> Result<(), AllocError> {
    match value {
        CoreValue::I32(number) => write!(page, "i32:{number}"),
        CoreValue::I64(number) => write!(page, "i64:{number}"),
        CoreValue::F32(bits) => write!(page, "f32:{bits}"),
        CoreValue::F64(bits) => write!(page, "f64:{bits}"),
        CoreValue::Func(FuncName::Import(number)) => write!(page, "import:{number}"),
        CoreValue::Func(FuncName::Defined(number)) => write!(page, "func:{number}"),
    }
}

fn add_values(page: &mut String, values: &[CoreValue]) -> Result<(), AllocError> {
    page.push('[')?;
    for (place, value) in values.iter().enumerate() {
        page.push_str(if place == 0 { "" } else { " " })?;
        add_value(page, value)?;
    }
    page.push(']')
}

/// The import of an imported function.
fn import_of(imports: &[WasmImport], func: u32) -> Option<&WasmImport> {
    let mut left = func;
    for import in imports {
        if matches!(import.ty, ImportType::Func(_)) {
            if left == 0 {
                return Some(import);
            }
            left -= 1;
        }
    }
    None
}

/// Adds what an outside call calls.
fn add_called(
    page: &mut String,
    imports: &[WasmImport],
    func: u32,
    by_names: bool,
) -> Result<(), AllocError> {
    match import_of(imports, func) {
        Some(import) if by_names => {
            write!(page, " {} {}", import.module.as_str(), import.name.as_str())
        }
        Some(import) if import.module.as_str() == "runtime" => {
            write!(page, " {func}:{}", import.name.as_str())
        }
        _ => write!(page, " {func}"),
    }
}

fn add_event(
    page: &mut String,
    imports: &[WasmImport],
    event: &Event,
    by_names: bool,
) -> Result<(), AllocError> {
    add_called(page, imports, event.func, by_names)?;
    add_values(page, event.args.as_slice())?;
    page.push_str(" at ")?;
    add_values(page, event.before.globals.as_slice())
}

/// Adds outside calls.
pub fn add_events(
    page: &mut String,
    imports: &[WasmImport],
    events: &[Event],
    by_names: bool,
) -> Result<(), AllocError> {
    for event in events {
        add_event(page, imports, event, by_names)?;
    }
    Ok(())
}

fn add_answer(page: &mut String, answer: &Answer) -> Result<(), AllocError> {
    match answer {
        Answer::Returns { results, state } => {
            page.push_str(" answered ")?;
            add_values(page, results.as_slice())?;
            page.push_str(" leaving ")?;
            add_values(page, state.globals.as_slice())
        }
        Answer::Traps => page.push_str(" trapping"),
        Answer::Throws => page.push_str(" throwing"),
    }
}

/// Adds the answers of outside calls: the results, and behind `leaving` the globals that they leave.
pub fn add_answers(page: &mut String, events: &[Event]) -> Result<(), AllocError> {
    for event in events {
        add_answer(page, &event.answer)?;
    }
    Ok(())
}

fn add_end(page: &mut String, end: &End) -> Result<(), AllocError> {
    match end {
        End::Returned(values) => {
            page.push_str("returned ")?;
            add_values(page, values.as_slice())
        }
        End::Trapped => page.push_str("Trapped"),
        End::Thrown => page.push_str("Thrown"),
        End::Lacks => page.push_str("Lacks"),
        End::Going => page.push_str("Going"),
        End::Stuck => page.push_str("Stuck"),
    }
}

/// Adds the bytes of a memory of a number that are others than before, each run of them behind its address.
fn add_changes(page: &mut String, number: usize, old: &[u8], new: &[u8]) -> Result<(), AllocError> {
    let mut goes_on = false;
    for (address, (was, is)) in old.iter().zip(new).enumerate() {
        if was != is {
            if !goes_on {
                write!(page, " {number}@{address}=")?;
            }
            write!(page, "{is:02x}")?;
        }
        goes_on = was != is;
    }
    Ok(())
}

/// Adds how a run ended that began with these memories.
pub fn add_outcome(
    page: &mut String,
    imports: &[WasmImport],
    memories: &[Seq<u8>],
    outcome: &Outcome,
    by_names: bool,
) -> Result<(), AllocError> {
    add_end(page, &outcome.end)?;
    add_events(page, imports, outcome.log.as_slice(), by_names)?;
    page.push(' ')?;
    add_values(page, outcome.state.globals.as_slice())?;
    let after = outcome.state.memories.as_slice();
    for (number, (old, new)) in memories.iter().zip(after).enumerate() {
        add_changes(page, number, old.as_slice(), new.as_slice())?;
    }
    Ok(())
}
