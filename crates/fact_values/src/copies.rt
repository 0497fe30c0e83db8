//! Equal copies of values.

ghost use Rattle.std.specs.Prelude.{◌≡◌, IfOk};

use crate::value::Value;
use fact_wasm::{OutOfMemory, Seq, Text};

fn copy_chars(chars: &Seq<char>) -> Result<Seq<char>, OutOfMemory>
    ensures { IfOk result (λ copy. copy ≡ chars.now) }
{
    let mut copy = chars.empty_like().into_vec();
    copy.extend_from_slice(chars.as_slice())?;
    Ok(Seq::from_vec(copy))
}

fn copy_flags(flags: &Seq<(Text, bool)>) -> Result<Seq<(Text, bool)>, OutOfMemory>
    ensures { IfOk result (λ copy. copy ≡ flags.now) }
{
    let mut copies = flags.empty_like();
    for (name, is_set) in flags.as_slice() {
        copies.push((name.try_clone()?, *is_set))?;
    }
    Ok(copies)
}

#[cycle(copied)]
fn copy_values(values: &Seq<Value>) -> Result<Seq<Value>, OutOfMemory>
    ensures { IfOk result (λ copy. copy ≡ values.now) }
{
    let mut copies = values.empty_like();
    for value in values.as_slice() {
        copies.push(value.try_clone()?)?;
    }
    Ok(copies)
}

#[cycle(copied)]
fn copy_entries(entries: &Seq<(Value, Value)>) -> Result<Seq<(Value, Value)>, OutOfMemory>
    ensures { IfOk result (λ copy. copy ≡ entries.now) }
{
    let mut copies = entries.empty_like();
    for (key, value) in entries.as_slice() {
        copies.push((key.try_clone()?, value.try_clone()?))?;
    }
    Ok(copies)
}

#[cycle(copied)]
fn copy_fields(fields: &Seq<(Text, Value)>) -> Result<Seq<(Text, Value)>, OutOfMemory>
    ensures { IfOk result (λ copy. copy ≡ fields.now) }
{
    let mut copies = fields.empty_like();
    for (name, value) in fields.as_slice() {
        copies.push((name.try_clone()?, value.try_clone()?))?;
    }
    Ok(copies)
}

impl Value {
    /// An equal value. The depth of its recursion is that of the value. The one error is a want of memory.
    #[cycle(copied)]
    pub fn try_clone(&self) -> Result<Value, OutOfMemory>
        ensures { IfOk result (λ copy. copy ≡ self.now) }
    {
        Ok(match self {
            Value::Bool(is_true) => Value::Bool(*is_true),
            Value::Int(number) => Value::Int(*number),
            Value::Float32(bits) => Value::Float32(*bits),
            Value::Float64(bits) => Value::Float64(*bits),
            Value::Char(c) => Value::Char(*c),
            Value::Str(chars) => Value::Str(copy_chars(chars)?),
            Value::List(values) => Value::List(copy_values(values)?),
            Value::Map(entries) => Value::Map(copy_entries(entries)?),
            Value::Record(fields) => Value::Record(copy_fields(fields)?),
            Value::Tuple(values) => Value::Tuple(copy_values(values)?),
            Value::Flags(flags) => Value::Flags(copy_flags(flags)?),
            Value::Case { name, payload } => Value::Case {
                name: name.try_clone()?,
                payload: copy_values(payload)?,
            },
            Value::Handle {
                kind,
                table,
                number,
            } => Value::Handle {
                kind: *kind,
                table: *table,
                number: *number,
            },
        })
    }
}
