//! A machine for the subset of WebAssembly that adapters use: its definition (`specs/Machine.antt`, over what a run changes outside its frames,
//! `specs/World.antt`), the values of its runs ([`MachineState`], [`Answer`], [`Outcome`]), and its laws, each the contract of a call that does nothing.
//! Nothing runs here: `fact_interpreter` runs modules, as this definition says.
#![tactic(auto)]

mod copies;
mod exit_laws;
mod memory_laws;
mod numbers;
mod replay_laws;
mod run_laws;
mod typed_laws;
mod types;
mod typing_laws;

pub use exit_laws::laws_of_exits;
pub use memory_laws::laws_of_memory;
pub use numbers::number_of_bytes;
pub use replay_laws::laws_of_replay;
pub use run_laws::laws_of_runs;
pub use typed_laws::laws_of_typed;
pub use types::{Answer, CoreValue, End, Event, MachineState, Outcome, TraceEntry};
pub use typing_laws::laws_of_typing;

/// Want of memory, the one free answer of each call that allocates.
pub type OutOfMemory = std::alloc::AllocError;
