//! The line that tells why a plan is refused.

ghost use Rattle.std.specs.Prelude.{◌≡◌, string_bytes, IfOk, IfSome, IsSome};
ghost use Rattle.fact_plan_types.specs.PlanTypes.{told};
ghost use Rattle.fact_command.specs.Refusal.{place_line, refusal_line};

use fact_plan_types::{FuseError, Place};
use fact_wasm::OutOfMemory;
use std::alloc::Global;

/// The line that tells a refusal, with its newline.
pub fn refusal_line(alloc: Global, error: &FuseError) -> Result<String, OutOfMemory>
    requires { IsSome (told error.now) }
    ensures { IfOk result (λ line. IfSome (told error.now) (λ x. string_bytes line ≡ refusal_line x.0 x.1)) }
{
    match error {
        FuseError::OutOfMemory => unreachable!(),
        FuseError::UnknownIndex(place) => told_line(alloc, "UnknownIndex", place),
        FuseError::BadType(place) => told_line(alloc, "BadType", place),
        FuseError::TooLarge(place) => told_line(alloc, "TooLarge", place),
        FuseError::BadOptions(place) => told_line(alloc, "BadOptions", place),
        FuseError::TypeMismatch(place) => told_line(alloc, "TypeMismatch", place),
        FuseError::BadMemory(place) => told_line(alloc, "BadMemory", place),
        FuseError::BadSignature(place) => told_line(alloc, "BadSignature", place),
        FuseError::ImportConflict(place) => told_line(alloc, "ImportConflict", place),
        FuseError::DuplicateName(place) => told_line(alloc, "DuplicateName", place),
    }
}

fn told_line(alloc: Global, kind: &str, place: &Place) -> Result<String, OutOfMemory>
    ensures { IfOk result (λ line. string_bytes line ≡ place_line kind.now place.now) }
{
    match place {
        Place::TypeEntry(n) => format!(in alloc; "refused: {kind} at type {n}\n"),
        Place::Func(n) => format!(in alloc; "refused: {kind} at function {n}\n"),
        Place::Adapter(n) => format!(in alloc; "refused: {kind} at adapter {n}\n"),
    }
}
