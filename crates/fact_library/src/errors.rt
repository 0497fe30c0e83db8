//! Why the bytes of a plan come to no module.

ghost use Rattle.std.specs.Prelude.{◌≡◌};
ghost use Rattle.fact_library.specs.declared.errors.CompileError.TheVariants as error;
ghost use Rattle.fact_library.specs.Compiling.{line_of_error, status_of_error};
ghost use Rattle.fact_library.specs.Errors.{EndsAsFault, EndsAsRefusal};
ghost use Rattle.fact_plan_types.specs.PlanTypes.{told};

use fact_command::{Status, refusal_line};
use fact_module::FuseError;
use fact_plan::{PlanFault, fault_line};
use std::alloc::{AllocError, Global};

/// Why some bytes come to no module. The lines are those that `factc` tells, with their newlines.
#[derive(Drop)]
pub enum CompileError {
    /// There are more than 67,108,864 bytes.
    TooLong,
    /// They are no JSON text.
    NotJson,
    /// The JSON value is no plan: the line names what is wrong with which value.
    BadPlan(String),
    /// The plan has a fault: the line names it and its place.
    Refused(String),
    /// Memory ran out.
    OutOfMemory,
}

impl From<AllocError> for CompileError {
    ghost from_gives = { λ _ e. e ≡ error.OutOfMemory };

    fn from(_: AllocError) -> CompileError {
        CompileError::OutOfMemory
    }
}

impl CompileError {
    /// The status with which `factc` ends for the same reason.
    pub fn status(&self) -> Status
        ensures { result ≡ status_of_error self.now }
    {
        match self {
            CompileError::TooLong => Status::TooLong,
            CompileError::NotJson => Status::NotJson,
            CompileError::BadPlan(_) => Status::BadPlan,
            CompileError::Refused(_) => Status::Refused,
            CompileError::OutOfMemory => Status::OutOfMemory,
        }
    }

    /// The line that tells it, with its newline.
    pub fn line(&self) -> &str
        ensures { result.now ≡ line_of_error self.now }
    {
        match self {
            CompileError::TooLong => Status::TooLong.line(),
            CompileError::NotJson => Status::NotJson.line(),
            CompileError::BadPlan(line) => line.as_str(),
            CompileError::Refused(line) => line.as_str(),
            CompileError::OutOfMemory => Status::OutOfMemory.line(),
        }
    }
}

/// A value that is no plan.
pub(crate) fn bad_plan(alloc: Global, fault: &PlanFault) -> CompileError
    ensures { EndsAsFault fault.now result }
{
    if matches!(fault, PlanFault::OutOfMemory) {
        return CompileError::OutOfMemory;
    }
    match fault_line(alloc, "plan", fault) {
        Ok(line) => CompileError::BadPlan(line),
        Err(_) => CompileError::OutOfMemory,
    }
}

/// A plan that has a fault.
pub(crate) fn refused(alloc: Global, error: &FuseError) -> CompileError
    ensures { EndsAsRefusal (told error.now) result }
{
    if matches!(error, FuseError::OutOfMemory) {
        return CompileError::OutOfMemory;
    }
    match refusal_line(alloc, error) {
        Ok(line) => CompileError::Refused(line),
        Err(_) => CompileError::OutOfMemory,
    }
}
