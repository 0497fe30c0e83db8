//! Laws of well typed code.

ghost use Rattle.fact_machine.specs.TypingLaws.{NothingIsTyped, SequenceIsTyped, FrameIsKept, OperandsBelow, LabelsOutside};

/// How well typed stretches of code stand behind one another, above other operands and in other labels (core specification,
/// "Validation", "Instruction Sequences"). The call does nothing: its contract is the laws.
pub fn laws_of_typing()
    ensures nothing_is_typed { NothingIsTyped }
    ensures sequence_is_typed { SequenceIsTyped }
    ensures frame_is_kept { FrameIsKept }
    ensures operands_below { OperandsBelow }
    ensures labels_outside { LabelsOutside }
{}
