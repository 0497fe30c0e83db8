//! Values of types without members, as they are printed as JSON.
ghost use Rattle.std.specs.Prelude.{◌≡◌, IfOk, encode_utf8, encode_utf8_all, map};
ghost use Rattle.serde_json.specs.Data.{number, string};
ghost use Rattle.serde_json.specs.Find.{of_integer};
ghost use Rattle.serde_json.specs.View.{view};
ghost use Rattle.fact_values.specs.declared.value.Value.{out-Value};
ghost use Rattle.fact_value_json.specs.Printing.{enum_data, flags_data, plain_data, set_names};
ghost use Rattle.fact_value_json.specs.Walks.{HasFewBits, IsOf64Bits};

use fact_abi::Value;
use fact_wasm::{OutOfMemory, Text};
use serde_json::{Number, Value as Json};
use std::alloc::Global;

/// A value of a type without members.
pub(crate) fn print_plain(alloc: Global, value: &Value) -> Result<Json, OutOfMemory>
    ensures { IfOk result (λ json. HasFewBits (out-Value value.now) → view json ≡ plain_data (out-Value value.now)) }
{
    match value {
        Value::Bool(b) => Ok(Json::Bool(*b)),
        Value::Int(number) => Ok(print_integer(*number)),
        Value::Float32(bits) => Ok(Json::from(*bits)),
        Value::Float64(bits) => Ok(Json::from(*bits)),
        Value::Char(c) => print_char(alloc, *c),
        Value::Str(chars) => print_string(alloc, chars.as_slice()),
        Value::Handle {
            kind: _,
            table: _,
            number,
        } => Ok(Json::from(*number)),
        _ => Ok(Json::Null),
    }
}

/// An integer of at most 64 bits.
fn print_integer(integer: i128) -> Json
    ensures { IsOf64Bits integer → view result ≡ number (of_integer integer) }
{
    match Number::from_i128(integer) {
        Some(number) => Json::Number(number),
        None => Json::Null,
    }
}

fn print_char(alloc: Global, c: char) -> Result<Json, OutOfMemory>
    ensures { IfOk result (λ json. view json ≡ string (encode_utf8 c)) }
{
    let mut text = String::new(alloc);
    text.push(c)?;
    Ok(Json::String(text))
}

fn print_string(alloc: Global, chars: &[char]) -> Result<Json, OutOfMemory>
    ensures { IfOk result (λ json. view json ≡ string (encode_utf8_all chars.now)) }
{
    let mut text = String::new(alloc);
    for c in chars {
        text.push(*c)?;
    }
    Ok(Json::String(text))
}

/// The name of a case without payload.
pub(crate) fn print_enum(alloc: Global, value: &Value) -> Result<Json, OutOfMemory>
    ensures { IfOk result (λ json. view json ≡ enum_data value.now) }
{
    match value {
        Value::Case { name, payload: _ } => Json::try_from_str(alloc, name.as_str()),
        _ => Ok(Json::Null),
    }
}

/// The names of the flags that are set, in the order of the type.
pub(crate) fn print_flags(alloc: Global, value: &Value) -> Result<Json, OutOfMemory>
    ensures { IfOk result (λ json. view json ≡ flags_data value.now) }
{
    match value {
        Value::Flags(flags) => Ok(Json::Array(names_of_set(alloc, flags.as_slice())?)),
        _ => Ok(Json::Null),
    }
}

fn names_of_set(alloc: Global, flags: &[(Text, bool)]) -> Result<Vec<Json>, OutOfMemory>
    ensures { IfOk result (λ list. map view list.items ≡ map (λ n. string n) (set_names flags.now)) }
{
    let mut list = Vec::new(alloc);
    for (name, is_set) in flags {
        if *is_set {
            list.push(Json::try_from_str(alloc, name.as_str())?)?;
        }
    }
    Ok(list)
}
