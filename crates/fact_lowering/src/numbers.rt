//! The numbers that stand for values without members (canonical ABI, "Storing", `store`, and "Flat Lowering").

ghost use Rattle.std.specs.Prelude.{◌≡◌, ◌^◌, ◌<◌, ◌≤◌, pos};
ghost use Rattle.std.specs.Int.{int_rem_euclid};
ghost use Rattle.fact_machine.specs.Typed.{IsValue};
ghost use Rattle.fact_machine.specs.Typing.{address_bits, address_operand, address_type};
ghost use Rattle.fact_types.specs.Flat.{value_type};
ghost use Rattle.fact_values.specs.declared.value.Value.{out-Value};
ghost use Rattle.fact_values.specs.IsA.{IsPlainValue};
ghost use Rattle.fact_values.specs.Lift.{bits_of as bits_of_core};
ghost use Rattle.fact_values.specs.Numbers.{plain_of};
ghost use Rattle.fact_lowering.specs.Lowerings.{IsNumberFor, core_of, numbers_of_core};

use fact_abi::Value;
use fact_machine::CoreValue;
use fact_types::{FlatType, InterfaceType};

/// What is left of a number modulo another one: its lowest bits in two's complement.
fn low_bits(number: i128, modulus: u128) -> u64
    requires some { 1 ≤ modulus }
    requires most { modulus ≤ 2 ^ 64 }
    ensures { pos result ≡ int_rem_euclid number (pos modulus) }
{
    if number >= 0 {
        return (number as u128 % modulus) as u64;
    }
    let below = (number.unsigned_abs() - 1) % modulus;
    (modulus - 1 - below) as u64
}

/// How many numbers the core value of an integer type has.
fn core_numbers(ty: &InterfaceType) -> u128
    ensures { result ≡ numbers_of_core ty.now }
{
    match *ty {
        InterfaceType::S64 | InterfaceType::U64 => 0x1_0000_0000_0000_0000,
        _ => 0x1_0000_0000,
    }
}

/// The number that stands for a value of a type without members and no text.
pub fn number_of_value(ty: &InterfaceType, value: &Value) -> Option<u64>
    ensures { IsPlainValue (plain_of ty.now) (out-Value value.now) → IsNumberFor ty.now value.now result }
{
    match value {
        Value::Bool(truth) => Some(u64::from(*truth)),
        Value::Int(number) => Some(low_bits(*number, core_numbers(ty))),
        Value::Float32(bits) => Some(u64::from(*bits)),
        Value::Float64(bits) => Some(*bits),
        Value::Char(c) => Some(u64::from(u32::from(*c))),
        Value::Handle { number, .. } => Some(u64::from(*number)),
        _ => None,
    }
}

/// The core value of a flat type with a number as its bits.
pub fn core_value(flat: FlatType, number: u64) -> CoreValue
    ensures value { result ≡ core_of flat number }
    ensures typed { IsValue result (value_type flat) }
{
    match flat {
        FlatType::I32 => CoreValue::I32((number % 0x1_0000_0000) as u32),
        FlatType::I64 => CoreValue::I64(number),
        FlatType::F32 => CoreValue::F32((number % 0x1_0000_0000) as u32),
        FlatType::F64 => CoreValue::F64(number),
    }
}

/// The number of a core value by its bits.
pub fn number_of_core(value: &CoreValue) -> u64
    ensures { result ≡ bits_of_core value.now }
{
    match *value {
        CoreValue::I32(bits) | CoreValue::F32(bits) => u64::from(bits),
        CoreValue::I64(bits) | CoreValue::F64(bits) => bits,
        CoreValue::Func(_) => 0,
    }
}

/// The address of a memory of 64-bit addresses, or of 32-bit ones, by the lowest bits of a number.
pub fn address_value(memory64: bool, number: u64) -> CoreValue
    ensures value { number < 2 ^ address_bits memory64 → result ≡ address_operand memory64 number }
    ensures typed { IsValue result (address_type memory64) }
{
    let flat = if memory64 {
        FlatType::I64
    } else {
        FlatType::I32
    };
    core_value(flat, number)
}
