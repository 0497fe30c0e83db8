//! Values and their types (core specification, "Execution", "Runtime Structure", "Values").

ghost use Rattle.std.specs.Prelude.{◌≡◌};
ghost use Rattle.fact_machine.specs.Machine.{has_type as has_type_of, have_types as have_types_of, type_of as type_of_value, zero_of, may_follow as may_follow_of};

use fact_machine::CoreValue;
use fact_wasm::ValType;

/// Whether a value has a type.
pub fn has_type(value: CoreValue, ty: ValType) -> bool
    ensures { result ≡ has_type_of value ty }
{
    match (value, ty) {
        (CoreValue::I32(_), ValType::I32) => true,
        (CoreValue::I64(_), ValType::I64) => true,
        (CoreValue::F32(_), ValType::F32) => true,
        (CoreValue::F64(_), ValType::F64) => true,
        (CoreValue::Func(_), ValType::FuncRef) => true,
        _ => false,
    }
}

/// Whether values have types, one by one.
pub fn have_types(values: &[CoreValue], types: &[ValType]) -> bool
    ensures { result ≡ have_types_of values.now types.now }
{
    let mut types = types;
    for value in values {
        let [ty, rest @ ..] = types else {
            return false;
        };
        if !has_type(*value, *ty) {
            return false;
        }
        types = rest;
    }
    types.is_empty()
}

/// The type of a value.
pub fn type_of(value: CoreValue) -> ValType
    ensures { result ≡ type_of_value value }
{
    match value {
        CoreValue::I32(_) => ValType::I32,
        CoreValue::I64(_) => ValType::I64,
        CoreValue::F32(_) => ValType::F32,
        CoreValue::F64(_) => ValType::F64,
        CoreValue::Func(_) => ValType::FuncRef,
    }
}

/// What a declared local holds at first.
pub fn first_value(ty: ValType) -> Option<CoreValue>
    ensures { result ≡ zero_of ty }
{
    match ty {
        ValType::I32 => Some(CoreValue::I32(0)),
        ValType::I64 => Some(CoreValue::I64(0)),
        ValType::F32 => Some(CoreValue::F32(0)),
        ValType::F64 => Some(CoreValue::F64(0)),
        ValType::FuncRef => None,
    }
}

/// Whether a value may follow what a local held.
pub fn may_follow(old: Option<CoreValue>, value: CoreValue) -> bool
    ensures { result ≡ may_follow_of old value }
{
    match old {
        None => has_type(value, ValType::FuncRef),
        Some(old) => has_type(value, type_of(old)),
    }
}
