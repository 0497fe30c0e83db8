//! Values of types without members, as they are read from JSON.
ghost use Rattle.std.specs.Prelude.{◌≡◌, ◌+◌, ◌-◌, ◌^◌, ℕ, IfOk};
ghost use Rattle.std.specs.Str.{chars as chars_in};
ghost use Rattle.serde_json.specs.View.{view};
ghost use Rattle.fact_values.specs.declared.value.Value.TheVariants as value;
ghost use Rattle.fact_values.specs.Numbers.{boolean, character, float32, float64, plain_of, signed, text, unsigned};
ghost use Rattle.fact_plan.specs.Fault.{Gives};
ghost use Rattle.fact_value_json.specs.Reading.{handle_in, integer_in, read_plain as plain_in};

use fact_abi::{HandleKind, Value};
use fact_entity::EntityRef;
use fact_plan::PlanFault;
use fact_types::InterfaceType;
use fact_wasm::{OutOfMemory, Seq};
use serde_json::Value as Json;
use std::alloc::Global;

/// An integer, which `serde_json` reads as one of 64 bits.
#[tactic(auto, unfolding(crate::specs::Reading::integer_in))]
fn integer_of(alloc: Global, json: &Json) -> Result<i128, PlanFault>
    ensures { Gives (integer_in (view json.now)) result }
{
    let Some(number) = json.as_number() else {
        return Err(PlanFault::wrong_kind(alloc));
    };
    number.as_i128().ok_or_else(|| PlanFault::wrong_kind(alloc))
}

/// An integer from 0 to a number.
fn read_unsigned(alloc: Global, json: &Json, most: u64) -> Result<Value, PlanFault>
    ensures { (bits : ℕ) → most + 1 ≡ 2 ^ bits → Gives (plain_in (unsigned bits) (view json.now)) result }
{
    let number = integer_of(alloc, json)?;
    if number < 0 || i128::from(most) < number {
        return Err(PlanFault::out_of_range(alloc));
    }
    Ok(Value::Int(number))
}

/// An integer of two's complement, of which the greatest is a number.
fn read_signed(alloc: Global, json: &Json, most: u64) -> Result<Value, PlanFault>
    ensures { (bits : ℕ) → most + 1 ≡ 2 ^ (bits - 1) → Gives (plain_in (signed bits) (view json.now)) result }
{
    let number = integer_of(alloc, json)?;
    if number < -1 - i128::from(most) || i128::from(most) < number {
        return Err(PlanFault::out_of_range(alloc));
    }
    Ok(Value::Int(number))
}

/// The bits of a float of 32 bits.
fn read_float32(alloc: Global, json: &Json) -> Result<Value, PlanFault>
    ensures { Gives (plain_in float32 (view json.now)) result }
{
    let number = integer_of(alloc, json)?;
    match u32::try_from(number) {
        Ok(bits) => Ok(Value::Float32(bits)),
        Err(_) => Err(PlanFault::out_of_range(alloc)),
    }
}

/// The bits of a float of 64 bits.
fn read_float64(alloc: Global, json: &Json) -> Result<Value, PlanFault>
    ensures { Gives (plain_in float64 (view json.now)) result }
{
    let number = integer_of(alloc, json)?;
    match u64::try_from(number) {
        Ok(bits) => Ok(Value::Float64(bits)),
        Err(_) => Err(PlanFault::out_of_range(alloc)),
    }
}

/// The scalar values of a text.
fn chars_of(alloc: Global, text: &str) -> Result<Seq<char>, OutOfMemory>
    ensures { IfOk result (λ chars. chars ≡ chars_in text.now) }
{
    let chars = text.chars().collect(alloc)?;
    Ok(Seq::from_vec(chars))
}

/// A text of one scalar value.
#[tactic(auto, unfolding(fact_plan::specs::Parts::text_in))]
fn read_char(alloc: Global, json: &Json) -> Result<Value, PlanFault>
    ensures { Gives (plain_in character (view json.now)) result }
{
    let Some(text) = json.as_str() else {
        return Err(PlanFault::wrong_kind(alloc));
    };
    let chars = chars_of(alloc, text)?;
    match chars.as_slice() {
        [c] => Ok(Value::Char(*c)),
        _ => Err(PlanFault::out_of_range(alloc)),
    }
}

#[tactic(auto, unfolding(fact_plan::specs::Parts::text_in))]
fn read_string(alloc: Global, json: &Json) -> Result<Value, PlanFault>
    ensures { Gives (plain_in text (view json.now)) result }
{
    let Some(text) = json.as_str() else {
        return Err(PlanFault::wrong_kind(alloc));
    };
    Ok(Value::Str(chars_of(alloc, text)?))
}

#[tactic(auto, unfolding(fact_plan::specs::Parts::bool_in))]
fn read_bool(alloc: Global, json: &Json) -> Result<Value, PlanFault>
    ensures { Gives (plain_in boolean (view json.now)) result }
{
    match json.as_bool() {
        Some(b) => Ok(Value::Bool(b)),
        None => Err(PlanFault::wrong_kind(alloc)),
    }
}

/// A handle of a kind in a table, by its number.
#[tactic(auto, unfolding(fact_plan::specs::Parts::u32_in))]
pub(crate) fn read_handle(
    alloc: Global,
    kind: HandleKind,
    table: u32,
    json: &Json,
) -> Result<Value, PlanFault>
    ensures { Gives (handle_in kind table (view json.now)) result }
{
    let Some(number) = json.as_u64() else {
        return Err(PlanFault::wrong_kind(alloc));
    };
    match u32::try_from(number) {
        Ok(number) => Ok(Value::Handle {
            kind,
            table,
            number,
        }),
        Err(_) => Err(PlanFault::out_of_range(alloc)),
    }
}

/// A value of a type without members.
pub(crate) fn read_plain(alloc: Global, ty: &InterfaceType, json: &Json) -> Result<Value, PlanFault>
    ensures { Gives (plain_in (plain_of ty.now) (view json.now)) result }
{
    match *ty {
        InterfaceType::Bool => read_bool(alloc, json),
        InterfaceType::S8 => read_signed(alloc, json, 0x7F),
        InterfaceType::U8 => read_unsigned(alloc, json, 0xFF),
        InterfaceType::S16 => read_signed(alloc, json, 0x7FFF),
        InterfaceType::U16 => read_unsigned(alloc, json, 0xFFFF),
        InterfaceType::S32 => read_signed(alloc, json, 0x7FFF_FFFF),
        InterfaceType::U32 => read_unsigned(alloc, json, 0xFFFF_FFFF),
        InterfaceType::S64 => read_signed(alloc, json, 0x7FFF_FFFF_FFFF_FFFF),
        InterfaceType::U64 => read_unsigned(alloc, json, 0xFFFF_FFFF_FFFF_FFFF),
        InterfaceType::Float32 => read_float32(alloc, json),
        InterfaceType::Float64 => read_float64(alloc, json),
        InterfaceType::Char => read_char(alloc, json),
        InterfaceType::String => read_string(alloc, json),
        InterfaceType::Own(i) => read_handle(alloc, HandleKind::Own, i.as_u32(), json),
        InterfaceType::Borrow(i) => read_handle(alloc, HandleKind::Borrow, i.as_u32(), json),
        InterfaceType::ErrorContext(i) => {
            read_handle(alloc, HandleKind::ErrorContext, i.as_u32(), json)
        }
        _ => Err(PlanFault::wrong_kind(alloc)),
    }
}
