//! Sizes, and flat types, beside those that a type has.

use fact_types::{CanonicalAbiInfo, DiscriminantSize, FlatType, FlatTypes};
use fact_wasm::ValType;

/// Whether sizes are told, and none where there is none.
fn are_sizes_told() -> bool {
    let pair = CanonicalAbiInfo::POINTER_PAIR;
    DiscriminantSize::from_bytes(3).is_none()
        && DiscriminantSize::from_count(4_294_967_296).is_none()
        && pair.flat_count(2) == Some(2)
        && pair.flat_count(1).is_none()
        && CanonicalAbiInfo::default() == CanonicalAbiInfo::ZERO
}

/// Whether a flat type becomes one that can hold both.
fn is_joined(first: FlatType, second: FlatType, both: FlatType, core: ValType) -> bool {
    let mut flat = first;
    flat.join(second);
    flat == both && ValType::from(flat) == core
}

/// Whether sizes and flat types are told.
pub fn parts_are_told() -> bool {
    let types = FlatTypes {
        memory32: &[FlatType::I32, FlatType::I32],
        memory64: &[FlatType::I64, FlatType::I64],
    };
    are_sizes_told()
        && is_joined(FlatType::F32, FlatType::I32, FlatType::I32, ValType::I32)
        && is_joined(FlatType::I32, FlatType::F64, FlatType::I64, ValType::I64)
        && types.len() == 2
}
