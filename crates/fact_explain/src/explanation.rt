//! Why an input is no plan without faults, in words.

ghost use Rattle.std.specs.Prelude.{◌≡◌, ◌≢◌, ◌≤◌, ◌+◌, IfErr, IfOk, IsSomeAnd, MatchResult, codes, length};
ghost use Rattle.serde_json.specs.View.{view};
ghost use Rattle.fact_io.specs.Faults.{Rose};
ghost use Rattle.fact_io.specs.Transfers.{TakesUpTo};
ghost use Rattle.fact_plan.specs.Fault.{IsNotMemory, fault_line};
ghost use Rattle.fact_plan.specs.Plan.{plan_of};
ghost use Rattle.fact_plan_types.specs.PlanTypes.{told};
ghost use Rattle.fact_adapter_rules.specs.FirstFault.{IsFaultlessPlan};
ghost use Rattle.fact_command.specs.Refusal.{refusal_line};
ghost use Rattle.fact_command.specs.Status.{line_of};
ghost use Rattle.fact_plan.specs.Inputs.{limit};
ghost use Rattle.fact_run.specs.Run.{Read};
ghost use Rattle.fact_explain.specs.Explained.{HoldsFaultlessPlan, IsEndOf, IsEndWithout};
ghost use Rattle.fact_explain.specs.Endings.{IsEndOfValue, IsTold, ending_text};

use crate::adapters::push_adapter_reasons;
use crate::ending::Ending;
use crate::reading::{fault_reasons, json_reasons};
use crate::refusals::{push_func_reasons, push_type_reasons};
use fact_adapter_rules::check_plan;
use fact_command::{Status, refusal_line};
use fact_io::{InputError, Source, read_all};
use fact_plan::{FusePlan, PlanFault, fault_line, plan_of, read_value};
use fact_plan_types::{FuseError, Place};
use fact_wasm::OutOfMemory;
use serde_json::Value;
use std::alloc::{AllocError, Global};

/// How a run ends with a fault of a JSON value: its line, and what is wanted in its place.
fn of_fault(alloc: Global, value: &Value, fault: &PlanFault) -> Result<Ending, OutOfMemory>
    ensures { IfOk result (λ e. IsNotMemory fault.now × IsTold Status.BadPlan (fault_line (codes "plan") fault.now) e) }
{
    if matches!(fault, PlanFault::OutOfMemory) {
        return Err(AllocError);
    }
    let line = fault_line(alloc, "plan", fault)?;
    let reasons = fault_reasons(alloc, value, fault)?;
    let ending = Ending::telling(Status::BadPlan, line, reasons.as_str())?;
    Ok(ending)
}

/// The place of a refusal.
fn place_of(error: &FuseError) -> Option<Place> {
    match error {
        FuseError::OutOfMemory => None,
        FuseError::UnknownIndex(place)
        | FuseError::BadType(place)
        | FuseError::TooLarge(place)
        | FuseError::BadOptions(place)
        | FuseError::TypeMismatch(place)
        | FuseError::BadMemory(place)
        | FuseError::BadSignature(place)
        | FuseError::ImportConflict(place)
        | FuseError::DuplicateName(place) => Some(*place),
    }
}

/// Why a plan is refused.
fn refusal_reasons(
    alloc: Global,
    plan: &FusePlan,
    error: &FuseError,
) -> Result<String, OutOfMemory> {
    let mut text = String::new(alloc);
    match place_of(error) {
        Some(Place::TypeEntry(k)) => push_type_reasons(alloc, &mut text, plan, k, error)?,
        Some(Place::Func(k)) => push_func_reasons(alloc, &mut text, plan, k, error)?,
        Some(Place::Adapter(k)) => push_adapter_reasons(alloc, &mut text, plan, k, error)?,
        None => {}
    }
    Ok(text)
}

/// How a run ends with a refusal of a plan: its line, and why it comes.
fn of_refusal(alloc: Global, plan: &FusePlan, error: &FuseError) -> Result<Ending, OutOfMemory>
    ensures { IfOk result (λ e. IsSomeAnd (told error.now) (λ x. IsTold Status.Refused (refusal_line x.0 x.1) e)) }
{
    if matches!(error, FuseError::OutOfMemory) {
        return Err(AllocError);
    }
    let line = refusal_line(alloc, error)?;
    let reasons = refusal_reasons(alloc, plan, error)?;
    let ending = Ending::telling(Status::Refused, line, reasons.as_str())?;
    Ok(ending)
}

/// The plan of a JSON value, where it has no fault; else how the run ends.
fn faultless_plan(alloc: Global, value: &Value) -> Result<FusePlan, Ending>
    ensures { MatchResult result (λ p. (plan_of (view value.now) ≡ Ok p) × IsFaultlessPlan p) (λ e. IsEndOfValue (view value.now) e.status (ending_text e)) }
{
    let plan = match plan_of(alloc, value) {
        Ok(plan) => plan,
        Err(fault) => return Err(of_fault(alloc, value, &fault)?),
    };
    if let Err(error) = check_plan(alloc, &plan) {
        let ending = of_refusal(alloc, &plan, &error);
        drop(plan);
        return Err(ending?);
    }
    Ok(plan)
}

/// How a run ends with bytes that are no JSON text: its line, and where they cease to be one.
fn of_no_json(alloc: Global, bytes: &[u8]) -> Result<Ending, OutOfMemory>
    ensures { IfOk result (λ e. IsTold Status.NotJson (line_of Status.NotJson) e) }
{
    let line = String::from_str(alloc, Status::NotJson.line())?;
    let reasons = json_reasons(alloc, bytes)?;
    let ending = Ending::telling(Status::NotJson, line, reasons.as_str())?;
    Ok(ending)
}

/// The plan that some bytes hold in JSON, where it has no fault; else how the run ends.
fn plan_in(alloc: Global, bytes: &[u8]) -> Result<FusePlan, Ending>
    requires { length bytes.now ≤ limit }
    ensures { MatchResult result (λ p. HoldsFaultlessPlan bytes.now p) (λ e. IsEndOf bytes.now e.status (ending_text e)) }
{
    let Some(value) = read_value(alloc, bytes)? else {
        return Err(of_no_json(alloc, bytes)?);
    };
    let plan = faultless_plan(alloc, &value);
    drop(value);
    plan
}

/// The plan that all that the source has holds in JSON, where it has no fault; else how the run ends.
pub(crate) fn plan_from<S: Source>(alloc: Global, source: &mut S) -> Result<FusePlan, Ending>
    ensures plan { IfOk result (λ p. Read (S.left source.old) (S.left source.new) (λ bytes. HoldsFaultlessPlan bytes p)) }
    ensures end { IfErr result (λ e. IsEndWithout (S.left source.old) (S.left source.new) (Rose (S.faults source.old) (S.faults source.new)) e.status (ending_text e)) }
    ensures most { TakesUpTo (S.left source.old) (S.left source.new) (limit + 1) }
    ensures no_fault { MatchResult result (λ p. S.faults source.new ≡ S.faults source.old) (λ e. e.status ≢ Status.ReadFault → S.faults source.new ≡ S.faults source.old) }
{
    match read_all(alloc, source) {
        Ok(bytes) => plan_in(alloc, &bytes),
        Err(InputError::Fault) => Err(Ending::of(Status::ReadFault)),
        Err(InputError::TooLong) => Err(Ending::of(Status::TooLong)),
        Err(InputError::OutOfMemory) => Err(Ending::of(Status::OutOfMemory)),
    }
}
