//! Tests of the host, each a call that answers whether all is as it should be; the program `row_tests` makes them. Of a module of two functions the one calls
//! what it imports, and the other returns at once: it is called with values and the callee answers others, and two calls are chained.
#![tactic(auto)]

mod calls;
mod refusing;
mod samples;

pub use calls::holds;
