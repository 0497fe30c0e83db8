//! The mode that chains two adapters (`--chain`): what an input comes to.

ghost use Rattle.std.specs.Prelude.{◌≡◌, ◌≢◌, ◌≤◌, ◌+◌, length};
ghost use Rattle.fact_plan.specs.Inputs.{limit};
ghost use Rattle.fact_io.specs.Faults.{Rose};
ghost use Rattle.fact_io.specs.Transfers.{TakesUpTo};
ghost use Rattle.fact_run.specs.Replies.{IsChainReply, IsReplyToChained, IsToldChainReply};

use crate::call_mode::told_reply;
use crate::reply::Reply;
use fact_call_mode::CallReply;
use fact_chain_mode::reply_to_chain;
use fact_io::{InputError, Source, read_all};
use std::alloc::Global;

/// What the reply to a chain comes to, with the line that tells it.
fn told_chain_reply(alloc: Global, reply: CallReply) -> Reply
    ensures { IsToldChainReply reply result }
{
    match reply {
        CallReply::NotCallable => Reply::NotChained,
        other => told_reply(alloc, other),
    }
}

/// What some bytes come to.
fn reply_to(alloc: Global, bytes: &[u8], fuel: u32) -> Reply
    requires within { length bytes.now ≤ limit }
    requires fuel { 1 ≤ fuel }
    ensures { IsReplyToChained fuel bytes.now result }
{
    told_chain_reply(alloc, reply_to_chain(alloc, bytes, fuel))
}

/// What all that the source has comes to, where two adapters are chained.
pub fn chain_reply<S: Source>(alloc: Global, source: &mut S, fuel: u32) -> Reply
    requires { 1 ≤ fuel }
    ensures reply { IsChainReply fuel (S.left source.old) (S.left source.new) (Rose (S.faults source.old) (S.faults source.new)) result }
    ensures most { TakesUpTo (S.left source.old) (S.left source.new) (limit + 1) }
    ensures no_fault { result ≢ Reply.ReadFault → S.faults source.new ≡ S.faults source.old }
{
    match read_all(alloc, source) {
        Ok(bytes) => reply_to(alloc, &bytes, fuel),
        Err(InputError::Fault) => Reply::ReadFault,
        Err(InputError::TooLong) => Reply::TooLong,
        Err(InputError::OutOfMemory) => Reply::OutOfMemory,
    }
}
