//! What is so of the plans that are generated.

ghost use Rattle.fact_generate.specs.Laws.{GeneratedAreFaultless, GeneratedAreLinked};

/// No generated plan has a fault, and its adapters are those of its forms. The call does nothing: its contract is the laws.
pub fn laws_of_generated()
    ensures faultless { GeneratedAreFaultless }
    ensures linked { GeneratedAreLinked }
{}
