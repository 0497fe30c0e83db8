//! The mode that calls an adapter (`--call`): what an input comes to.

ghost use Rattle.std.specs.Prelude.{◌≡◌, ◌≢◌, ◌≤◌, ◌+◌, length};
ghost use Rattle.fact_plan.specs.Inputs.{limit};
ghost use Rattle.fact_io.specs.Faults.{Rose};
ghost use Rattle.fact_io.specs.Transfers.{TakesUpTo};
ghost use Rattle.fact_run.specs.Replies.{IsCallReply, IsReplyToCalled, IsReplyToBadValue, IsToldReply};

use crate::reply::{Reply, reply_to_fault, reply_to_refusal};
use fact_call_mode::{CallReply, reply_to_call};
use fact_io::{InputError, Source, read_all};
use fact_plan::{PlanFault, fault_line};
use std::alloc::Global;

/// What a fault of values comes to.
fn reply_to_value(alloc: Global, fault: &PlanFault) -> Reply
    ensures { IsReplyToBadValue fault.now result }
{
    if matches!(fault, PlanFault::OutOfMemory) {
        return Reply::OutOfMemory;
    }
    match fault_line(alloc, "value", fault) {
        Ok(line) => Reply::BadValue(line),
        Err(_) => Reply::OutOfMemory,
    }
}

/// What the reply to a call comes to, with the line that tells it.
pub fn told_reply(alloc: Global, reply: CallReply) -> Reply
    ensures { IsToldReply reply result }
{
    match reply {
        CallReply::NotJson => Reply::NotJson,
        CallReply::BadPlan(fault) => reply_to_fault(alloc, &fault),
        CallReply::Refused(error) => reply_to_refusal(alloc, &error),
        CallReply::NotCallable => Reply::NotCallable,
        CallReply::BadValue(fault) => reply_to_value(alloc, &fault),
        CallReply::OverLimit => Reply::OverLimit,
        CallReply::Page(text) => Reply::Page(text),
        CallReply::OutOfMemory => Reply::OutOfMemory,
    }
}

/// What some bytes come to.
fn reply_to(alloc: Global, bytes: &[u8], name: &str, fuel: u32) -> Reply
    requires within { length bytes.now ≤ limit }
    requires fuel { 1 ≤ fuel }
    ensures { IsReplyToCalled fuel name.now bytes.now result }
{
    told_reply(alloc, reply_to_call(alloc, bytes, name, fuel))
}

/// What all that the source has comes to, where the adapter of a name is called.
pub fn call_reply<S: Source>(alloc: Global, source: &mut S, name: &str, fuel: u32) -> Reply
    requires { 1 ≤ fuel }
    ensures reply { IsCallReply fuel name.now (S.left source.old) (S.left source.new) (Rose (S.faults source.old) (S.faults source.new)) result }
    ensures most { TakesUpTo (S.left source.old) (S.left source.new) (limit + 1) }
    ensures no_fault { result ≢ Reply.ReadFault → S.faults source.new ≡ S.faults source.old }
{
    match read_all(alloc, source) {
        Ok(bytes) => reply_to(alloc, &bytes, name, fuel),
        Err(InputError::Fault) => Reply::ReadFault,
        Err(InputError::TooLong) => Reply::TooLong,
        Err(InputError::OutOfMemory) => Reply::OutOfMemory,
    }
}
