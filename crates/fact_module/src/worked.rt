//! The plans of worked modules.

ghost use Rattle.fact_module.specs.WorkedPlans.{OneNumberIsPromised, OneTextIsPromised};

/// What a plan promises whose module is a worked one: the runs that are worked there are runs of its promise. The call does
/// nothing: its contract is what holds.
pub fn laws_of_worked_plans()
    ensures one_number_is_promised { OneNumberIsPromised }
    ensures one_text_is_promised { OneTextIsPromised }
{}
