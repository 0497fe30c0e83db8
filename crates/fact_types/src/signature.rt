//! Core signatures of the sides of an adapter.

use fact_entity::TypeFuncIndex;
use fact_wasm::{Seq, ValType};

/// The core parameters and results of a lowered or lifted function.
#[derive(Drop)]
pub struct Signature {
    pub params: Seq<ValType>,
    pub results: Seq<ValType>,
}

/// What a side's core signature hangs on: its function type, whether the side is async, whether it has a callback, and
/// whether its memory has 64-bit addresses.
#[derive(Clone, Copy)]
pub struct SideSig {
    pub ty: TypeFuncIndex,
    pub async_: bool,
    pub callback: bool,
    pub memory64: bool,
}
