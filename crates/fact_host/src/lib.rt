//! A host for adapters: memories, an allocator, transcoders and tables of its own, so that an adapter can be called with values.
//!
//! [`call`] stores the arguments of a call in a first state, runs the function of an adapter's module on the machine, and answers
//! each of its outside calls. What the callee answers is left to a [`Callee`].
//!
//! - A call: its data (`calling`), how its run begins (`beginning`), and the whole of it (`calls`).
//! - The host that answers outside calls: `host`, by what each import is to it (`roles`) and what it knows (`known`); its answers (`answers`) for realloc
//!   (`allocator`) and transcoders (`transcoders`); the callee's (`callee`) are judged and stored (`results`).
//! - Laws: `laws`, and `fitting` of the room that values take.
#![tactic(auto)]

mod allocator;
mod answers;
mod beginning;
mod callee;
mod calling;
mod calls;
mod fitting;
mod host;
mod known;
mod laws;
mod results;
mod roles;
mod transcoders;

pub use callee::{Callee, HostError, Scripted};
pub use calling::{HostCall, HostOutcome, HostSide};
pub use calls::call;
pub use fact_wasm::OutOfMemory;
pub use fitting::laws_of_room;
pub use laws::{laws_of_hosts, laws_of_typed_answers};
