//! Worked modules.

ghost use Rattle.fact_function_laws.specs.Worked.{OneNumberArrives, OneNumberIsSpelled};
ghost use Rattle.fact_function_laws.specs.WorkedTexts.{OneTextArrives, OneTextIsSpelled};

/// What holds of worked modules and of a run of each: all that the promise on runs asks of a run. The call does nothing: its
/// contract is what holds.
pub fn laws_of_worked_modules()
    ensures one_number_is_spelled { OneNumberIsSpelled }
    ensures one_number_arrives { OneNumberArrives }
    ensures one_text_is_spelled { OneTextIsSpelled }
    ensures one_text_arrives { OneTextArrives }
{}
