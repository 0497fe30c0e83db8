//! The steps of adapters around the moves of values: the flags of instances are tested, kept, set to 0 and set back, callees and post-returns are
//! called, and the runtime is told of calls; and whether parameters are handed on as they are. What each function ensures is the code that it
//! has written.
#![tactic(auto)]

mod passing;
mod steps;

pub use passing::are_passed_on;
pub use steps::{
    call_callee, check_may_leave, clear_flags, enter_call, exit_call, hold_flags, push_locals,
    restore_and_finish, restore_flags,
};
