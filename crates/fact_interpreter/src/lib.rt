//! The machine of `fact_machine` as a program: modules are run over given answers, or over an outside that is asked call by call.
//!
//! - Runs: `run`, and where the outside is asked `asking`; a run's state is `running`, with its operand `stack` and `locals`.
//! - The instruction table is `begin`, by `numeric`, `memory`, `branches`, `entering` (blocks, loops, conditions), `calls` (of defined functions), `outside`
//!   (of imported ones) and `rows` (all others); a body ends by `settle`. `values` has the types of values.
#![tactic(auto)]

mod asking;
mod begin;
mod branches;
mod calls;
mod entering;
mod locals;
mod memory;
mod numeric;
mod outside;
mod rows;
mod run;
mod running;
mod settle;
mod stack;
mod values;

pub use asking::Outside;
pub use run::Machine;
