//! Laws of hosts.

ghost use Rattle.fact_host.specs.HonestLaws.{AnswersAreHonest, AnswersAreTyped};

/// What holds of the answers that a host's rules give. The call does nothing: its contract is the law.
pub fn laws_of_hosts()
    ensures { AnswersAreHonest }
{}

/// The answers that a host's rules give are of the types of the imports. The call does nothing: its contract is the law.
pub fn laws_of_typed_answers()
    ensures { AnswersAreTyped }
{}
