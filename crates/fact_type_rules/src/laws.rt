//! How the rules for types hang together.

ghost use Rattle.fact_type_rules.specs.RuleLaws.{BadByShape, LargeByShape, ValidBreaksNone};

/// Does nothing: it says that a type is valid exactly where neither it nor a type in it breaks a rule, and that an entry of a plan
/// has a fault exactly where its shape breaks a rule, but for its place in the plan and for words of error contexts.
pub fn rules_are_one()
    ensures valid { ValidBreaksNone }
    ensures bad { BadByShape }
    ensures large { LargeByShape }
{}
