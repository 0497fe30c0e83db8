//! Laws of runs.

ghost use Rattle.fact_machine.specs.RunLaws.{ExecIsReached, RunIsReached, LogIsOfTrace, UntypedIsStuck, EndStays, ReachedStays, OneEnd, NoStep, OneStep, StepsAdd, TraceGrows, LogGrows, TraceKeeps, LogTakesAnswers, NoMoreCalls, MoreAnswers, RunsOnItsAnswers};
ghost use Rattle.fact_machine.specs.LastTrap.{TrapsAreLast};
ghost use Rattle.fact_machine.specs.Lengths.{LengthsStay};

/// What holds of runs, whatever their instructions: how outcomes, steps, ends, traces and answers go together. The call does
/// nothing: its contract is the laws.
pub fn laws_of_runs()
    ensures exec_is_reached { ExecIsReached }
    ensures run_is_reached { RunIsReached }
    ensures log_is_of_trace { LogIsOfTrace }
    ensures untyped_is_stuck { UntypedIsStuck }
    ensures end_stays { EndStays }
    ensures reached_stays { ReachedStays }
    ensures one_end { OneEnd }
    ensures no_step { NoStep }
    ensures one_step { OneStep }
    ensures steps_add { StepsAdd }
    ensures trace_grows { TraceGrows }
    ensures log_grows { LogGrows }
    ensures trace_keeps { TraceKeeps }
    ensures log_takes_answers { LogTakesAnswers }
    ensures no_more_calls { NoMoreCalls }
    ensures more_answers { MoreAnswers }
    ensures runs_on_its_answers { RunsOnItsAnswers }
    ensures lengths_stay { LengthsStay }
    ensures traps_are_last { TrapsAreLast }
{}
