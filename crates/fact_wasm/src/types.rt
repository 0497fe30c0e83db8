//! The types of values and of functions (core specification, "Structure", "Types").

ghost use Rattle.std.specs.Prelude.{◌≡◌, IfOk};

use crate::OutOfMemory;
use crate::seq::Seq;
use std::alloc::Global;

/// A value type: a number, or a reference to a function.
#[derive(Clone, Copy, Debug, Drop, PartialEq, Eq, Hash)]
pub enum ValType {
    I32,
    I64,
    F32,
    F64,
    FuncRef,
}

/// The parameters and the results of a function.
#[derive(Debug, Drop, PartialEq, Eq, Hash)]
pub struct FuncType {
    pub params: Seq<ValType>,
    pub results: Seq<ValType>,
}

impl FuncType {
    /// The type of these parameters and results.
    pub fn from_slices(
        alloc: Global,
        params: &[ValType],
        results: &[ValType],
    ) -> Result<FuncType, OutOfMemory>
        ensures { IfOk result (λ ty. ty ≡ record { params = params.now; results = results.now }) }
    {
        let params = Vec::from_slice(alloc, params)?;
        let results = Vec::from_slice(alloc, results)?;
        Ok(FuncType {
            params: Seq::from_vec(params),
            results: Seq::from_vec(results),
        })
    }
}
