//! What a run has to tell ([`Reply`]), and what a fault and a refusal of a plan come to, in each mode that reads one.

ghost use Rattle.std.specs.Prelude.{◌≡◌};
ghost use Rattle.fact_plan_types.specs.PlanTypes.{told};
ghost use Rattle.fact_run.specs.declared.reply.Reply.TheVariants as reply;
ghost use Rattle.fact_run.specs.Replies.{IsReplyToBadPlan, IsReplyToRefusal};

use fact_command::refusal_line;
use fact_module::FuseError;
use fact_plan::{PlanFault, fault_line};
use std::alloc::{AllocError, Global};

/// What a run has to tell.
#[derive(Drop)]
pub enum Reply {
    /// The text that is written: what prints the module, the counts of one that was generated, the line of one that is accepted, or what tells a
    /// call or a chain.
    Page(String),
    ReadFault,
    TooLong,
    NotJson,
    /// The line that tells what is no part of a plan.
    BadPlan(String),
    /// The line that tells the fault of a plan.
    Refused(String),
    NotHex,
    /// The line that tells why bytes are rejected.
    Rejected(String),
    NotCallable,
    NotChained,
    /// The line that tells what is no value of a type.
    BadValue(String),
    OverLimit,
    OutOfMemory,
}

impl From<AllocError> for Reply {
    ghost from_gives = { λ _ r. r ≡ reply.OutOfMemory };

    fn from(_: AllocError) -> Reply {
        Reply::OutOfMemory
    }
}

/// What a fault of a plan comes to.
pub fn reply_to_fault(alloc: Global, fault: &PlanFault) -> Reply
    ensures { IsReplyToBadPlan fault.now result }
{
    if matches!(fault, PlanFault::OutOfMemory) {
        return Reply::OutOfMemory;
    }
    match fault_line(alloc, "plan", fault) {
        Ok(line) => Reply::BadPlan(line),
        Err(_) => Reply::OutOfMemory,
    }
}

/// What a refusal of a plan comes to.
pub fn reply_to_refusal(alloc: Global, error: &FuseError) -> Reply
    ensures { IsReplyToRefusal (told error.now) result }
{
    if matches!(error, FuseError::OutOfMemory) {
        return Reply::OutOfMemory;
    }
    match refusal_line(alloc, error) {
        Ok(line) => Reply::Refused(line),
        Err(_) => Reply::OutOfMemory,
    }
}
