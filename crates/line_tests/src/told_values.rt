//! How values are told: numbers as they are, floats by their bits, texts in quotes, `[..]` a list, `<key:value ..>` a map,
//! `{name=value ..}` a record, `(..)` a tuple, `{+name -name}` flags, `name(..)` a case, and a handle by its kind, the number of its
//! table and its own.

use fact_values::{HandleKind, Value};
use fact_wasm::{Seq, Text};
use std::alloc::AllocError;

fn add_text(page: &mut String, chars: &Seq<char>) -> Result<(), AllocError> {
    page.push('"')?;
    for char in chars.as_slice() {
        page.push(*char)?;
    }
    page.push('"')
}

/// Adds a space before each element but the first.
fn add_space(page: &mut String, is_first: bool) -> Result<(), AllocError> {
    page.push_str(if is_first { "" } else { " " })
}

fn add_flags(page: &mut String, flags: &Seq<(Text, bool)>) -> Result<(), AllocError> {
    page.push('{')?;
    let mut is_first = true;
    for (name, is_set) in flags.as_slice() {
        add_space(page, is_first)?;
        page.push(if *is_set { '+' } else { '-' })?;
        page.push_str(name.as_str())?;
        is_first = false;
    }
    page.push('}')
}

fn add_handle(
    page: &mut String,
    kind: HandleKind,
    table: u32,
    number: u32,
) -> Result<(), AllocError> {
    let kind = match kind {
        HandleKind::Own => "own",
        HandleKind::Borrow => "borrow",
        HandleKind::Future => "future",
        HandleKind::Stream => "stream",
        HandleKind::ErrorContext => "error-context",
    };
    write!(page, "{kind}:{table}:{number}")
}

/// Adds values between these two, with spaces between them.
#[cycle(values)]
fn add_values(
    page: &mut String,
    before: &str,
    values: &[Value],
    after: &str,
) -> Result<(), AllocError> {
    page.push_str(before)?;
    for (place, value) in values.iter().enumerate() {
        add_space(page, place == 0)?;
        add_value(page, value)?;
    }
    page.push_str(after)
}

#[cycle(values)]
fn add_entries(page: &mut String, entries: &[(Value, Value)]) -> Result<(), AllocError> {
    page.push('<')?;
    for (place, (key, value)) in entries.iter().enumerate() {
        add_space(page, place == 0)?;
        add_value(page, key)?;
        page.push(':')?;
        add_value(page, value)?;
    }
    page.push('>')
}

#[cycle(values)]
fn add_fields(page: &mut String, fields: &[(Text, Value)]) -> Result<(), AllocError> {
    page.push('{')?;
    for (place, (name, value)) in fields.iter().enumerate() {
        add_space(page, place == 0)?;
        page.push_str(name.as_str())?;
        page.push('=')?;
        add_value(page, value)?;
    }
    page.push('}')
}

/// Adds a value without parts.
fn add_plain(page: &mut String, value: &Value) -> Result<(), AllocError> {
    match value {
        Value::Bool(is_true) => write!(page, "{is_true}"),
        Value::Int(number) => write!(page, "{number}"),
        Value::Float32(bits) => write!(page, "f32:{bits}"),
        Value::Float64(bits) => write!(page, "f64:{bits}"),
        Value::Char(char) => write!(page, "'{char}'"),
        Value::Str(chars) => add_text(page, chars),
        Value::Flags(flags) => add_flags(page, flags),
        Value::Handle {
            kind,
            table,
            number,
        } => add_handle(page, *kind, *table, *number),
        _ => Ok(()),
    }
}

/// Adds a value.
#[cycle(values)]
pub fn add_value(page: &mut String, value: &Value) -> Result<(), AllocError> {
    match value {
        Value::List(values) => add_values(page, "[", values.as_slice(), "]"),
        Value::Tuple(values) => add_values(page, "(", values.as_slice(), ")"),
        Value::Map(entries) => add_entries(page, entries.as_slice()),
        Value::Record(fields) => add_fields(page, fields.as_slice()),
        Value::Case { name, payload } => {
            page.push_str(name.as_str())?;
            add_values(page, "(", payload.as_slice(), ")")
        }
        _ => add_plain(page, value),
    }
}
