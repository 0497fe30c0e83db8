//! Laws of stretches of code.

ghost use Rattle.fact_machine.specs.ExitLaws.{NothingLeaves, InstructionLeaves, SequenceLeaves, EarlyLeaves, BlockLeaves, ThenLeaves, ElseLeaves, TryLeaves, LoopLeaves, LoopBeginsAgain, NestLeaves, CallLeaves, OutsideCallLeaves, RunEnds, RunGoesOn, StretchIsReplayed};

/// How stretches of code are left, whatever stands behind and around them: code in a row, blocks, calls and whole runs, each
/// by how its parts are left. The call does nothing: its contract is the laws.
pub fn laws_of_exits()
    ensures nothing_leaves { NothingLeaves }
    ensures instruction_leaves { InstructionLeaves }
    ensures sequence_leaves { SequenceLeaves }
    ensures early_leaves { EarlyLeaves }
    ensures block_leaves { BlockLeaves }
    ensures then_leaves { ThenLeaves }
    ensures else_leaves { ElseLeaves }
    ensures try_leaves { TryLeaves }
    ensures loop_leaves { LoopLeaves }
    ensures loop_begins_again { LoopBeginsAgain }
    ensures nest_leaves { NestLeaves }
    ensures call_leaves { CallLeaves }
    ensures outside_call_leaves { OutsideCallLeaves }
    ensures run_ends { RunEnds }
    ensures run_goes_on { RunGoesOn }
    ensures stretch_is_replayed { StretchIsReplayed }
{}
