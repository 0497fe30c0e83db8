//! How many core values the sides of an adapter pass (canonical ABI, `flatten_functype`).

ghost use Rattle.std.specs.Prelude.{◌≡◌};
ghost use Rattle.fact_types.specs.Signatures.{lift_results_limit as lift_results_limit_of, lower_limit as lower_limit_of};

use crate::flats::{MAX_FLAT_ASYNC_PARAMS, MAX_FLAT_PARAMS, MAX_FLAT_RESULTS};

/// How many flat types the parameters of a side that lowers are passed in; more go through memory.
pub fn lower_limit(async_: bool) -> usize
    ensures { result ≡ lower_limit_of async_ }
{
    if async_ {
        MAX_FLAT_ASYNC_PARAMS
    } else {
        MAX_FLAT_PARAMS
    }
}

/// How many flat types the results of a side that lifts are passed in: an async one hands them to the runtime as the parameters
/// of `[async-return]`.
pub fn lift_results_limit(async_: bool) -> usize
    ensures { result ≡ lift_results_limit_of async_ }
{
    if async_ {
        MAX_FLAT_PARAMS
    } else {
        MAX_FLAT_RESULTS
    }
}
