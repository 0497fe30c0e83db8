//! What an input of a call or of a chain comes to.

ghost use Rattle.std.specs.Prelude.{◌≡◌};
ghost use Rattle.fact_call_mode.specs.declared.reply.CallReply.TheVariants as reply;
ghost use Rattle.fact_call_mode.specs.Replies.{IsBadPlan, IsBadValue, IsRefused};

use fact_plan::PlanFault;
use fact_plan_types::FuseError;
use std::alloc::AllocError;

/// What a call with values comes to, or a chain of calls, in the order in which it is looked for.
#[derive(Drop)]
pub enum CallReply {
    /// The bytes are no JSON text.
    NotJson,
    /// The JSON value lacks a key, has one too many, or its plan or a name is none. It is never [`PlanFault::OutOfMemory`].
    BadPlan(PlanFault),
    /// The plan has a fault. It is never [`FuseError::OutOfMemory`].
    Refused(FuseError),
    /// A name is that of no sync adapter between two instances, or the first of two adapters does not lead to the second one.
    NotCallable,
    /// The arguments or the results are not of their types. It is never [`PlanFault::OutOfMemory`].
    BadValue(PlanFault),
    /// They take more room than a host has, or are too many or too heavy, on one of their ways.
    OverLimit,
    /// The text that tells the call or the chain.
    Page(String),
    OutOfMemory,
}

impl From<AllocError> for CallReply {
    ghost from_gives = { λ _ r. r ≡ reply.OutOfMemory };

    fn from(_: AllocError) -> CallReply {
        CallReply::OutOfMemory
    }
}

/// What a fault of an input comes to.
pub fn bad_plan(fault: PlanFault) -> CallReply
    ensures { IsBadPlan fault result }
{
    match fault {
        PlanFault::OutOfMemory => CallReply::OutOfMemory,
        told => CallReply::BadPlan(told),
    }
}

/// What a fault of values comes to.
pub(crate) fn bad_value(fault: PlanFault) -> CallReply
    ensures { IsBadValue fault result }
{
    match fault {
        PlanFault::OutOfMemory => CallReply::OutOfMemory,
        told => CallReply::BadValue(told),
    }
}

/// What a refusal comes to that is a want of memory.
pub fn out_of_memory(error: FuseError) -> CallReply
    requires { error ≡ FuseError.OutOfMemory }
    ensures { result ≡ reply.OutOfMemory }
{
    match error {
        FuseError::OutOfMemory => CallReply::OutOfMemory,
        _ => unreachable!(),
    }
}

/// What a refusal of a plan comes to.
pub fn refused(error: FuseError) -> CallReply
    ensures { IsRefused error result }
{
    match error {
        FuseError::OutOfMemory => CallReply::OutOfMemory,
        told => CallReply::Refused(told),
    }
}
