//! The data of calls: what is called, and what came of it.

use fact_abi::{SideAbi, Value};
use fact_machine::Outcome;
use fact_types::InterfaceType;
use fact_wasm::Seq;

/// A side of a call (canonical ABI, "Canonical ABI options"): the numbers of its memory and its flags among the imports of their kind, and
/// of its realloc among the imported functions; and the types of its function.
#[derive(Drop)]
pub struct HostSide {
    pub abi: SideAbi,
    pub memory: Option<u32>,
    pub realloc: Option<u32>,
    pub flags: u32,
    pub params: Seq<InterfaceType>,
    pub results: Seq<InterfaceType>,
}

/// The call of an adapter: its sides, the numbers of its callee and its post-return among the imported functions, and of its own
/// function among those that the module defines.
#[derive(Drop)]
pub struct HostCall {
    pub lower: HostSide,
    pub lift: HostSide,
    pub callee: u32,
    pub post_return: Option<u32>,
    pub func: u32,
}

/// What came of a call: the run, and what the callee was given and the caller got, each where it was reached and is there.
#[derive(Drop)]
pub struct HostOutcome {
    pub outcome: Outcome,
    pub params: Option<Seq<Value>>,
    pub results: Option<Seq<Value>>,
}
