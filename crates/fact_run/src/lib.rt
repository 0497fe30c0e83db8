//! The program's top call: a plan in JSON from a source, the adapter module in hex to a sink, with its imports where the words
//! ask for them; or the counts of the module of a plan that is generated, the check of a module, or the call of an adapter or of two.
//!
//! - The run: `top`, its `ending`, and which `mode` it has; what a mode has to tell is a `reply`.
//! - The modes: `plan_mode` (with `page`), `generate_mode` (with `counts`), `check_mode`, `call_mode` and `chain_mode`.
#![tactic(auto)]

mod call_mode;
mod chain_mode;
mod check_mode;
mod counts;
mod ending;
mod generate_mode;
mod mode;
mod page;
mod plan_mode;
mod reply;
mod top;

pub use fact_command::Status;
pub use fact_generate::generate;
pub use fact_io::{
    BytesSink, BytesSource, ReadFailed, Sink, Source, StderrSink, StdinSource, StdoutSink,
    WriteFailed,
};
pub use fact_plan::{PlanFault, plan_of};
pub use top::run;
