//! Laws of pieces of code.

ghost use Rattle.fact_code_laws.specs.Helpers.{HelperBodiesMove, HelperCallsMove};
ghost use Rattle.fact_code_laws.specs.PieceLaws.{BodiesRun, BodiesArePlain, KnownIsKept, TypedStatesAgree, TypedAnswersAgree};

/// What holds of pieces of code and of the functions that they make. The call does nothing: its contract is the laws.
pub fn laws_of_pieces()
    ensures bodies_run { BodiesRun }
    ensures bodies_are_plain { BodiesArePlain }
    ensures known_is_kept { KnownIsKept }
    ensures typed_states_agree { TypedStatesAgree }
    ensures typed_answers_agree { TypedAnswersAgree }
{}

/// What helpers are, functions that move values for others, and what calls of them do: the rules by which the code of a move may be left
/// to a function of its own. No code is written by them yet. The call does nothing: its contract is the laws.
pub fn laws_of_helpers()
    ensures helper_calls_move { HelperCallsMove }
    ensures helper_bodies_move { HelperBodiesMove }
{}
