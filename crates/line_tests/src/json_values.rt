//! Values in JSON: those that are read in a list by types, and what is printed of them, or the first fault of the list.

ghost use Rattle.std.specs.Prelude.{All};
ghost use Rattle.fact_types.specs.Tables.{IsLive};

use crate::told_values::add_value;
use crate::words::add_text;
use fact_abi::Value;
use fact_builder::ComponentTypesBuilder;
use fact_plan::{PlanFault, fault_line, read_value};
use fact_types::InterfaceType;
use fact_value_json::{read_values, values_text};
use fact_wasm::Seq;
use std::alloc::{AllocError, Global};

/// What is read in a JSON text by types, or its first fault; `None` where it is no JSON value.
fn read_in(
    alloc: Global,
    builder: &ComponentTypesBuilder,
    types: &[InterfaceType],
    text: &str,
) -> Result<Option<Result<Seq<Value>, PlanFault>>, AllocError>
    requires { All (IsLive builder.now.tables) types.now }
{
    let Some(json) = read_value(alloc, text.as_bytes())? else {
        return Ok(None);
    };
    let tables = builder.component_types();
    let read = read_values(alloc, tables, types, &json, "call.args");
    drop(json);
    Ok(Some(read))
}

/// Adds the line that tells a fault; `$` stands for its newline.
fn add_fault(page: &mut String, alloc: Global, fault: &PlanFault) -> Result<(), AllocError> {
    if matches!(fault, PlanFault::OutOfMemory) {
        return page.push_str("out of memory");
    }
    let line = fault_line(alloc, "value", fault)?;
    add_text(page, line.as_str())
}

/// Adds the values of a list as `told_values` tells them, with spaces between them.
fn add_told(page: &mut String, values: &Seq<Value>) -> Result<(), AllocError> {
    for (place, value) in values.as_slice().iter().enumerate() {
        page.push_str(if place == 0 { "" } else { " " })?;
        add_value(page, value)?;
    }
    Ok(())
}

/// Adds the values that are read in a JSON text by types, or its first fault.
pub fn add_read(
    page: &mut String,
    alloc: Global,
    builder: &ComponentTypesBuilder,
    types: &[InterfaceType],
    text: &str,
) -> Result<(), AllocError>
    requires { All (IsLive builder.now.tables) types.now }
{
    match read_in(alloc, builder, types, text)? {
        None => page.push_str("no JSON value"),
        Some(Err(fault)) => add_fault(page, alloc, &fault),
        Some(Ok(values)) => {
            let added = add_told(page, &values);
            drop(values);
            added
        }
    }
}

/// What is printed of values.
fn printed(
    alloc: Global,
    builder: &ComponentTypesBuilder,
    types: &[InterfaceType],
    values: &Seq<Value>,
) -> Result<String, AllocError>
    requires { All (IsLive builder.now.tables) types.now }
{
    let tables = builder.component_types();
    values_text(alloc, tables, types, values.as_slice())
}

/// Adds what is printed of the values that are read in a JSON text by types, or its first fault.
pub fn add_json(
    page: &mut String,
    alloc: Global,
    builder: &ComponentTypesBuilder,
    types: &[InterfaceType],
    text: &str,
) -> Result<(), AllocError>
    requires { All (IsLive builder.now.tables) types.now }
{
    match read_in(alloc, builder, types, text)? {
        None => page.push_str("no JSON value"),
        Some(Err(fault)) => add_fault(page, alloc, &fault),
        Some(Ok(values)) => {
            let text = printed(alloc, builder, types, &values);
            drop(values);
            page.push_str(text?.as_str())
        }
    }
}
