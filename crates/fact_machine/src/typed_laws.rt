//! Laws of typed values, states and answers.

ghost use Rattle.fact_machine.specs.TypedLaws.{TestsValue, TestsState, TestsAnswer};

/// What it takes to be typed can be computed: each test of a value, a state and an answer passes exactly those that are. The
/// call does nothing: its contract is the laws.
pub fn laws_of_typed()
    ensures tests_value { TestsValue }
    ensures tests_state { TestsState }
    ensures tests_answer { TestsAnswer }
{}
