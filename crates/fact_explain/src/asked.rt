//! What the words ask for, and the plan that they ask of.

ghost use Rattle.std.specs.Prelude.{◌≡◌, ◌≢◌, ◌≤◌, ◌+◌, ◌↔◌, IfErr, IfOk, IsTrue, MatchResult, Some, map, string_bytes};
ghost use Rattle.fact_io.specs.Faults.{Rose};
ghost use Rattle.fact_io.specs.Transfers.{TakesUpTo};
ghost use Rattle.fact_plan.specs.declared.plan.FusePlan.{FusePlan};
ghost use Rattle.fact_command.specs.Command.{reading};
ghost use Rattle.fact_plan.specs.Inputs.{limit};
ghost use Rattle.fact_run.specs.Run.{IsPlanMode, Read, configured};
ghost use Rattle.fact_explain.specs.Explained.{HoldsFaultlessPlan, IsEndWithout, IsEndUnmade, IsPlanUnder};
ghost use Rattle.fact_explain.specs.Endings.{IsUnasked, ending_text};

use crate::ending::Ending;
use crate::explanation::plan_from;
use fact_command::{CommandOptions, Status, command_of};
use fact_io::Source;
use fact_plan::{FusePlan, PlanTunables};
use std::alloc::Global;

/// Whether a plan is read, and not bytes, nor the input of a call or a chain, nor nothing.
fn is_plan_mode(options: &CommandOptions) -> bool
    ensures { IsTrue result ↔ IsPlanMode options.now }
{
    options.generate.is_none() && !options.check && options.call.is_none() && !options.chain
}

/// The options, where the words ask for a plan to be read; else how the run ends.
fn plan_options(alloc: Global, words: &[String]) -> Result<CommandOptions, Status>
    ensures reading { IfOk result (λ o. reading (map string_bytes words.now) ≡ Some o) }
    ensures mode { IfOk result IsPlanMode }
    ensures fuel { IfOk result (λ o. 1 ≤ o.fuel) }
    ensures unasked { IfErr result (λ s. IsUnasked (map string_bytes words.now) s) }
{
    match command_of(alloc, words) {
        Ok(Some(options)) => {
            if is_plan_mode(&options) {
                return Ok(options);
            }
            drop(options);
            Err(Status::Usage)
        }
        Ok(None) => Err(Status::Usage),
        Err(_) => Err(Status::OutOfMemory),
    }
}

/// The plan with the tunables that the words ask for.
fn configure(plan: FusePlan, options: &CommandOptions) -> FusePlan
    ensures { result ≡ configured options.now plan }
{
    let tunables = PlanTunables {
        debug: plan.tunables.debug || options.debug,
        fuel: options.fuel,
        ..plan.tunables
    };
    FusePlan { tunables, ..plan }
}

/// The plan that the source has, with the tunables that the words ask for, where it has no fault; else how the run ends.
fn plan_with<S: Source>(
    alloc: Global,
    options: &CommandOptions,
    source: &mut S,
) -> Result<FusePlan, Ending>
    ensures plan { IfOk result (λ p. (q : FusePlan) × Read (S.left source.old) (S.left source.new) (λ bytes. HoldsFaultlessPlan bytes q) × (p ≡ configured options.now q)) }
    ensures end { IfErr result (λ e. IsEndWithout (S.left source.old) (S.left source.new) (Rose (S.faults source.old) (S.faults source.new)) e.status (ending_text e)) }
    ensures most { TakesUpTo (S.left source.old) (S.left source.new) (limit + 1) }
    ensures no_fault { MatchResult result (λ p. S.faults source.new ≡ S.faults source.old) (λ e. e.status ≢ Status.ReadFault → S.faults source.new ≡ S.faults source.old) }
{
    match plan_from(alloc, source) {
        Ok(plan) => Ok(configure(plan, options)),
        Err(ending) => Err(ending),
    }
}

/// The plan that the words ask to be read and that the source has, with the tunables that they ask for, where it has no fault; else how the run ends.
pub(crate) fn plan_under<S: Source>(
    alloc: Global,
    words: &[String],
    source: &mut S,
) -> Result<FusePlan, Ending>
    ensures plan { IfOk result (λ p. IsPlanUnder (map string_bytes words.now) (S.left source.old) (S.left source.new) p) }
    ensures fuel { IfOk result (λ p. 1 ≤ p.tunables.fuel) }
    ensures end { IfErr result (λ e. IsEndUnmade (map string_bytes words.now) (S.left source.old) (S.left source.new) (Rose (S.faults source.old) (S.faults source.new)) e.status (ending_text e)) }
    ensures most { TakesUpTo (S.left source.old) (S.left source.new) (limit + 1) }
    ensures untouched { IfErr result (λ e. e.status ≡ Status.Usage → source.new ≡ source.old) }
    ensures no_fault { MatchResult result (λ p. S.faults source.new ≡ S.faults source.old) (λ e. e.status ≢ Status.ReadFault → S.faults source.new ≡ S.faults source.old) }
{
    match plan_options(alloc, words) {
        Ok(options) => {
            let found = plan_with(alloc, &options, source);
            drop(options);
            found
        }
        Err(status) => Err(Ending::of(status)),
    }
}
