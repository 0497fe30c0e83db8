//! Laws of adapters of any types, texts among them.

ghost use Rattle.fact_action_laws.specs.AdapterValueLaws.{TranscodersAreRanged, StartTranscodersAreRanged, ReturnTranscodersAreRanged, TranscodersCanBeAnswered, StartTranscodersCanBeAnswered, ReturnTranscodersCanBeAnswered, TranscodersNeedMeans, TranscodersReadTexts, TextsAreMoved, TextsMoveInAdapters, AdaptersAreFaithful, AdaptersWeigh, AdaptersComeToEnd, CheckedStartsComeToEnd, CheckedReturnsComeToEnd, ChecksPass, StartChecksPass, ReturnChecksPass, RequestsAreCalledFor, StartRequestsAreCalledFor, ReturnRequestsAreCalledFor, FirstRequestIsCalledFor, AnswersAreSoFar, CalleesAreGiven, PartsTakeNoMore, ParamsTakeNoMore, ResultsTakeNoMore, RequestsTakeNoMore, LimitsAreThoseOfPaths, LongWalksTrap, TextsPastLimitsTrap, SomeTextsOutgrow};

/// What holds of adapters of any types, texts among them: of the ranges of their transcoders, and that each can be answered honestly, but for malformed
/// text, whatever all others answer, and that each reads a whole text where values are there; in honest runs of what is moved, and that no debug check fails where upper halves are 0; of
/// texts past the limits, which end in a trap; of what is asked of realloc, and what the callee is given, in runs that are honest
/// but for a last call that may trap; and of how many bytes that takes. The call does nothing: its contract is the laws.
pub fn laws_of_adapter_values()
    ensures transcoders_are_ranged { TranscodersAreRanged }
    ensures start_transcoders_are_ranged { StartTranscodersAreRanged }
    ensures return_transcoders_are_ranged { ReturnTranscodersAreRanged }
    ensures transcoders_can_be_answered { TranscodersCanBeAnswered }
    ensures start_transcoders_can_be_answered { StartTranscodersCanBeAnswered }
    ensures return_transcoders_can_be_answered { ReturnTranscodersCanBeAnswered }
    ensures transcoders_need_means { TranscodersNeedMeans }
    ensures transcoders_read_texts { TranscodersReadTexts }
    ensures texts_are_moved { TextsAreMoved }
    ensures texts_move { TextsMoveInAdapters }
    ensures adapters_are_faithful { AdaptersAreFaithful }
    ensures adapters_weigh { AdaptersWeigh }
    ensures adapters_come_to_end { AdaptersComeToEnd }
    ensures starts_come_to_end { CheckedStartsComeToEnd }
    ensures returns_come_to_end { CheckedReturnsComeToEnd }
    ensures checks_pass { ChecksPass }
    ensures start_checks_pass { StartChecksPass }
    ensures return_checks_pass { ReturnChecksPass }
    ensures limits_are_those_of_paths { LimitsAreThoseOfPaths }
    ensures long_walks_trap { LongWalksTrap }
    ensures texts_past_limits_trap { TextsPastLimitsTrap }
    ensures some_texts_outgrow { SomeTextsOutgrow }
    ensures requests_are_called_for { RequestsAreCalledFor }
    ensures start_requests_are_called_for { StartRequestsAreCalledFor }
    ensures return_requests_are_called_for { ReturnRequestsAreCalledFor }
    ensures first_request_is_called_for { FirstRequestIsCalledFor }
    ensures answers_are_so_far { AnswersAreSoFar }
    ensures callees_are_given { CalleesAreGiven }
    ensures parts_take_no_more { PartsTakeNoMore }
    ensures params_take_no_more { ParamsTakeNoMore }
    ensures results_take_no_more { ResultsTakeNoMore }
    ensures requests_take_no_more { RequestsTakeNoMore }
{}
