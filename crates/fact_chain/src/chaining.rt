//! A call through two adapters.

ghost use Rattle.std.specs.Prelude.{IfErr, IfOk};
ghost use Rattle.fact_chain.specs.Between.{AreJoined, CanBeRun};
ghost use Rattle.fact_chain.specs.Chained.{IsChainCause, IsChained};

use crate::passing::{Passing, copied};
use fact_abi::Value;
use fact_host::{HostCall, HostError, HostOutcome, call};
use fact_types::ComponentTypes;
use fact_wasm::{Seq, WasmModule};
use std::alloc::Global;

/// What came of a chain: the outcome of the first call, and that of the second one where the callee of the first was called.
#[derive(Drop)]
pub struct Chained {
    pub outer: HostOutcome,
    pub inner: Option<HostOutcome>,
}

/// Calls the first adapter with values, whose callee calls the second one; the callee of that one answers these results.
fn chain_to(
    alloc: Global,
    types: &ComponentTypes,
    module: &WasmModule,
    first: &HostCall,
    second: &HostCall,
    args: &[Value],
    results: Seq<Value>,
) -> Result<Chained, HostError>
    requires first { CanBeRun «module».now types.now first.now }
    requires second { CanBeRun «module».now types.now second.now }
    ensures chained { IfOk result (IsChained «module».now types.now first.now second.now args.now results) }
    ensures cause { IfErr result (IsChainCause «module».now types.now first.now second.now args.now results) }
{
    let mut passing = Passing::new(alloc, types, module, second, results);
    let outcome = call(alloc, types, module, first, args, &mut passing);
    let inner = passing.into_outcome();
    match outcome {
        Ok(outer) => Ok(Chained { outer, inner }),
        Err(error) => {
            drop(inner);
            Err(error)
        }
    }
}

/// Calls the first adapter with values, whose callee calls the second one with what it is given; the callee of that one answers these
/// results. What the caller of the second call gets is what the callee of the first one answers. An error is one of the two calls, by
/// its causes; `NoResults` comes where the second call has an outcome, and its caller got nothing.
pub fn chain(
    alloc: Global,
    types: &ComponentTypes,
    module: &WasmModule,
    first: &HostCall,
    second: &HostCall,
    args: &[Value],
    results: &[Value],
) -> Result<Chained, HostError>
    requires first { CanBeRun «module».now types.now first.now }
    requires second { CanBeRun «module».now types.now second.now }
    requires joined { AreJoined first.now second.now }
    ensures chained { IfOk result (IsChained «module».now types.now first.now second.now args.now results.now) }
    ensures cause { IfErr result (IsChainCause «module».now types.now first.now second.now args.now results.now) }
{
    match copied(alloc, results) {
        Ok(copies) => chain_to(alloc, types, module, first, second, args, copies),
        Err(_) => Err(HostError::OutOfMemory),
    }
}
