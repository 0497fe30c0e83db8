//! Flat types: the core types that stand for a value that is passed outside memory.

ghost use Rattle.std.specs.Prelude.{◌≡◌, ◌≤◌, length, map};
ghost use Rattle.fact_types.specs.Flat.{add_flat, greater_flat, times_flat, flat_sum, flat_greatest};
ghost use Rattle.fact_types.specs.Layout.{payloads};

use crate::abi::CanonicalAbiInfo;
use fact_wasm::ValType;

/// The most flat types that parameters are passed in; more go through memory.
pub const MAX_FLAT_PARAMS: usize = 16;

/// The most flat types that results are passed in; more go through memory.
pub const MAX_FLAT_RESULTS: usize = 1;

/// The most flat types that the parameters of an async lowered function are passed in.
pub const MAX_FLAT_ASYNC_PARAMS: usize = 4;

/// The most flat types that a type is said to have.
pub const MAX_FLAT_TYPES: usize = 16;

/// A core type that stands for a value or a part of one.
#[derive(Clone, Copy, PartialEq, Eq, Hash)]
pub enum FlatType {
    I32,
    I64,
    F32,
    F64,
}

impl FlatType {
    ghost use Rattle.fact_types.specs.Flat.{join};

    /// Becomes the type that can hold values of both types (canonical ABI, `join`).
    pub fn join(&mut self, other: FlatType)
        ensures { self.new ≡ join self.old other }
    {
        *self = match (*self, other) {
            (a, b) if a == b => a,
            (FlatType::I32, FlatType::F32) | (FlatType::F32, FlatType::I32) => FlatType::I32,
            _ => FlatType::I64,
        };
    }
}

impl From<FlatType> for ValType {
    ghost use Rattle.fact_types.specs.Flat.{value_type};

    ghost from_gives = { λ flat value. value ≡ value_type flat };

    fn from(flat: FlatType) -> ValType {
        match flat {
            FlatType::I32 => ValType::I32,
            FlatType::I64 => ValType::I64,
            FlatType::F32 => ValType::F32,
            FlatType::F64 => ValType::F64,
        }
    }
}

/// The flat types of one type, in 32-bit and in 64-bit memories: as many in both.
#[derive(Clone, Copy)]
pub struct FlatTypes<'a> {
    pub memory32: &'a [FlatType],
    pub memory64: &'a [FlatType],
    pub ghost equal: { length memory32.now ≡ length memory64.now },
}

impl FlatTypes<'_> {
    /// The number of flat types in either memory.
    pub fn len(&self) -> usize
        ensures memory32 { result ≡ length self.now.memory32.now }
        ensures memory64 { result ≡ length self.now.memory64.now }
    {
        self.memory32.len()
    }
}

/// The flat types of two values, one behind the other, or `None` above 16.
pub fn add_flat_counts(first: Option<u8>, second: Option<u8>) -> Option<u8>
    ensures { result ≡ add_flat first second }
{
    match (first, second) {
        (Some(a), Some(b)) if a <= 16 && b <= 16 - a => Some(a + b),
        _ => None,
    }
}

/// The more flat types of two payloads.
pub fn greater_flat_count(first: Option<u8>, second: Option<u8>) -> Option<u8>
    ensures { result ≡ greater_flat first second }
{
    match (first, second) {
        (Some(a), Some(b)) => Some(a.max(b)),
        _ => None,
    }
}

/// The flat types of so many values of one type, or `None` above 16.
pub fn times_flat_count(each: Option<u8>, count: usize) -> Option<u8>
    requires { count ≤ 4294967295 }
    ensures { result ≡ times_flat each count }
{
    let total = usize::from(each?) * count;
    if total <= MAX_FLAT_TYPES {
        Some(total as u8)
    } else {
        None
    }
}

/// The flat types of fields, one behind the other.
pub fn sum_of_flat_counts(fields: &[CanonicalAbiInfo]) -> Option<u8>
    ensures { result ≡ flat_sum (map (λ f. f.flat_count) fields.now) }
{
    let mut sum = Some(0);
    for field in fields {
        sum = add_flat_counts(sum, field.flat_count);
    }
    sum
}

/// The most flat types that a payload has.
pub fn greatest_flat_count(cases: &[Option<CanonicalAbiInfo>]) -> Option<u8>
    ensures { result ≡ flat_greatest (map (λ p. p.flat_count) (payloads cases.now)) }
{
    let mut greatest = Some(0);
    for case in cases {
        if let Some(payload) = case {
            greatest = greater_flat_count(greatest, payload.flat_count);
        }
    }
    greatest
}
