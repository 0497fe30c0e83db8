//! Laws of what runs change.

ghost use Rattle.fact_machine.specs.Replay.{WorldIsReplayed, LaterIsReplayed, RunIsReplayed, CallsSeeReplay, ReplaysAdd};

/// What a run has changed is what its trace says: writes of memories, new values of globals, and the states that answers
/// left, in their order. The call does nothing: its contract is the laws.
pub fn laws_of_replay()
    ensures world_is_replayed { WorldIsReplayed }
    ensures later_is_replayed { LaterIsReplayed }
    ensures run_is_replayed { RunIsReplayed }
    ensures calls_see_replay { CallsSeeReplay }
    ensures replays_add { ReplaysAdd }
{}
