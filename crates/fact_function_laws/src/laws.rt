//! Laws of the runs of adapters.

ghost use Rattle.fact_function_laws.specs.Laws.{FunctionsBehave, EventsAreNamed, EntryFunctionsHandOver, NoSecondCall, PartFunctionsTransfer, RunsStayShort, LackingRunsEndSoon, TrapFunctionsTrap, TypedAtOne, AnsweredAtOne, PartAnsweredAtOne};

/// What holds of the runs of adapters' functions. The call does nothing: its contract is the laws.
pub fn laws_of_functions()
    ensures functions_behave { FunctionsBehave }
    ensures trap_functions_trap { TrapFunctionsTrap }
    ensures part_functions_transfer { PartFunctionsTransfer }
    ensures entry_functions_hand_over { EntryFunctionsHandOver }
    ensures events_are_named { EventsAreNamed }
    ensures no_second_call { NoSecondCall }
    ensures runs_stay_short { RunsStayShort }
    ensures lacking_runs_end_soon { LackingRunsEndSoon }
    ensures typed_at_one { TypedAtOne }
    ensures answered_at_one { AnsweredAtOne }
    ensures part_answered_at_one { PartAnsweredAtOne }
{}
