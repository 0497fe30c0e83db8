//! Calls of adapters with values in JSON.
//!
//! An input is a JSON object of a plan, of the arguments of one of its adapters, and of what the callee answers. The plan is fused without debug
//! checks, and the adapter is called on a host; the text that comes of it tells what the callee was given, what the caller got, and how many calls of
//! the outside the adapter's run made. What the mode of chains does as this one does, it takes from here.
#![tactic(auto)]

mod adapters;
mod calling;
mod hosting;
mod input;
mod places;
mod reply;
mod telling;
mod values;

pub use adapters::{adapter_at, callable_place};
pub use calling::{reply_to_call, without_debug};
pub use fact_wasm::OutOfMemory;
pub use hosting::call_of;
pub use input::member;
pub use reply::{CallReply, bad_plan, out_of_memory, refused};
pub use telling::{there, values_line};
pub use values::{Values, check_fits, read_list};
