//! JSON from bytes.
ghost use Rattle.std.specs.Prelude.{◌≡◌, IfOk, option_map};
ghost use Rattle.serde_json.specs.View.{view};
ghost use Rattle.fact_plan.specs.Reading.{value_in};

use fact_wasm::OutOfMemory;
use serde_json::Value;
use std::alloc::{AllocError, Global};

/// The JSON value that fills the bytes (RFC 8259), or `None` where there is none: bytes that are not UTF-8, a byte order
/// mark, arrays and objects that nest 128 deep, and a number beyond every float are no value here. Of a key that an
/// object repeats the last value stays.
pub fn read_value(alloc: Global, bytes: &[u8]) -> Result<Option<Value>, OutOfMemory>
    ensures { IfOk result (λ found. option_map view found ≡ value_in bytes.now) }
{
    match Value::from_slice(alloc, bytes) {
        Ok(value) => Ok(Some(value)),
        Err(error) => {
            if error.is_memory() {
                Err(AllocError)
            } else {
                Ok(None)
            }
        }
    }
}
