//! Laws of composition.

ghost use Rattle.fact_value_laws.specs.Composition.{AgreesThrough, PlacesAgreeThrough, Composed, CrossedThrough, PlacesCrossedThrough, SameHandleCount};

/// What holds of values that are carried through a type between two others. The call does nothing: its contract is the
/// laws. Types agree through the one between, and a value becomes on the way through it what it becomes directly.
pub fn laws_of_composition()
    ensures agree { AgreesThrough }
    ensures places_agree { PlacesAgreeThrough }
    ensures composed { Composed }
    ensures crossed { CrossedThrough }
    ensures places_crossed { PlacesCrossedThrough }
    ensures same_count { SameHandleCount }
{}
