//! Laws of transfers of values.

ghost use Rattle.fact_action_laws.specs.FaithfulLaws.{OwnMemoriesServe, RunsAreFaithful, RunsComeToEnd, RunsWeigh, ShapesAreWellFormed, TuplesAgree};
ghost use Rattle.fact_action_laws.specs.MoveLaws.{MovesAreLawful, MovesRefuse};

/// What holds of moves by honest calls, and of honest runs of sync adapters, where it holds of strings. The call does nothing: its
/// contract is the laws.
pub fn laws_of_transfers()
    ensures moves_are_lawful { MovesAreLawful }
    ensures moves_refuse { MovesRefuse }
    ensures runs_are_faithful { RunsAreFaithful }
    ensures runs_weigh { RunsWeigh }
    ensures runs_come_to_end { RunsComeToEnd }
    ensures own_memories_serve { OwnMemoriesServe }
    ensures shapes_are_well_formed { ShapesAreWellFormed }
    ensures tuples_agree { TuplesAgree }
{}
