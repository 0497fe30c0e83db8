//! Laws of the room that values take.

ghost use Rattle.fact_host.specs.Fitting.{ItemsFit, ParamRequestsFit, ResultRequestsFit};

/// What holds of the room of values: what they call for fits in it, and so do the requests of the transfers of a sync adapter, by which no region
/// that is cut to what was written grows. The call does nothing: its contract is the laws.
pub fn laws_of_room()
    ensures items_fit { ItemsFit }
    ensures param_requests_fit { ParamRequestsFit }
    ensures result_requests_fit { ResultRequestsFit }
{}
