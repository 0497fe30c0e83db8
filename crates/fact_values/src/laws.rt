//! Laws of values.

ghost use Rattle.fact_values.specs.ValueLaws.{LoadedIsA, LoadedAlone, LiftedIsA, TuplesAre, ResultsAre, ShapesAreFormed, EnoughNumbers, TooFewNumbers, CarriedToOne};

/// What holds of values that are read and carried. The call does nothing: its contract is the laws. A value that is read is
/// a value of its type; one that is of a type is carried to one value of each type that agrees, where there are enough
/// numbers for its handles.
pub fn laws_of_values()
    ensures loaded { LoadedIsA }
    ensures alone { LoadedAlone }
    ensures lifted { LiftedIsA }
    ensures tuples { TuplesAre }
    ensures results { ResultsAre }
    ensures formed { ShapesAreFormed }
    ensures carried { EnoughNumbers }
    ensures not_carried { TooFewNumbers }
    ensures one { CarriedToOne }
{}
