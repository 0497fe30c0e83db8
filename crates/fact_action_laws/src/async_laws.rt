//! Laws of the functions of async adapters that move parameters and results.

ghost use Rattle.fact_action_laws.specs.TransferLaws.{StartsAreFaithful, StartsWeigh, StartsComeToEnd, ReturnsAreFaithful, ReturnsWeigh, ReturnsComeToEnd};

/// What holds of honest runs of these functions, where it holds of strings: they carry what they are given, they weigh what it
/// weighs, and within limits they come to their end. The call does nothing: its contract is the laws.
pub fn laws_of_async_transfers()
    ensures starts_are_faithful { StartsAreFaithful }
    ensures starts_weigh { StartsWeigh }
    ensures starts_come_to_end { StartsComeToEnd }
    ensures returns_are_faithful { ReturnsAreFaithful }
    ensures returns_weigh { ReturnsWeigh }
    ensures returns_come_to_end { ReturnsComeToEnd }
{}
