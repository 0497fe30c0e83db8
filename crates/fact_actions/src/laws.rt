//! Laws of actions and of adapters.

ghost use Rattle.fact_actions.specs.AdapterLaws.{CallsAreFew, StartCallsAreFew, ReturnCallsAreFew, SyncRunsFollow, CallsAreOrdered, CalleeIsCalledOnce, SourcesAreLeft, TypedRunsStay, TypedStartsStay, TypedReturnsStay, WritesAreConfined, StartWritesAreConfined, ReturnWritesAreConfined, RequestsGiveUpLive, StartRequestsGiveUpLive, ReturnRequestsGiveUpLive, OutcomesAreNamed, StartIsTransfer, ReturnIsTransfer, StartLeavesSource, ReturnLeavesSource, RequestsGrow, ChecksOnlyStop, ValidTypesServe, PlacesAreAligned, StartPlacesAreAligned, ReturnPlacesAreAligned, SameInstanceTraps, TypedSameInstanceStays, AsyncCallsTwice, AsyncCallsWriteNothing, TypedAsyncCallsStay};
ghost use Rattle.fact_actions.specs.Alike.{MovesAreAlike, MovesFillSlots};
ghost use Rattle.fact_actions.specs.Flags.{BitsGoByName, OtherBitsAreZero};
ghost use Rattle.fact_actions.specs.OutlinedRows.{ThreeChars, HelpersAreShared, NestOfLists, FixedLists, FuelOfFunctions, FreeTypes, OrdersOfMembers};
ghost use Rattle.fact_actions.specs.Laws.{BindsAssociate, BindsRun, RunsFollow, RunsAreNamed};

/// What holds of actions and their runs, whatever they do. The call does nothing: its contract is the laws.
pub fn laws_of_actions<A, B, C>()
    ensures binds_associate { BindsAssociate A B C }
    ensures binds_run { BindsRun A B }
    ensures runs_follow { RunsFollow A }
    ensures runs_are_named { RunsAreNamed A }
{}

/// What holds of runs of sync adapters, and of what they ask of types. The call does nothing: its contract is the laws.
pub fn laws_of_adapters()
    ensures calls_are_few { CallsAreFew }
    ensures sync_runs_follow { SyncRunsFollow }
    ensures calls_are_ordered { CallsAreOrdered }
    ensures callee_is_called_once { CalleeIsCalledOnce }
    ensures sources_are_left { SourcesAreLeft }
    ensures typed_runs_stay { TypedRunsStay }
    ensures writes_are_confined { WritesAreConfined }
    ensures requests_give_up_live { RequestsGiveUpLive }
    ensures outcomes_are_named { OutcomesAreNamed }
    ensures same_instance_traps { SameInstanceTraps }
    ensures typed_same_instance_stays { TypedSameInstanceStays }
    ensures requests_grow { RequestsGrow }
    ensures checks_only_stop { ChecksOnlyStop }
    ensures places_are_aligned { PlacesAreAligned }
    ensures valid_types_serve { ValidTypesServe }
{}

/// What holds of runs of the functions of async adapters. The call does nothing: its contract is the laws.
pub fn laws_of_async_adapters()
    ensures start_is_transfer { StartIsTransfer }
    ensures return_is_transfer { ReturnIsTransfer }
    ensures start_leaves_source { StartLeavesSource }
    ensures return_leaves_source { ReturnLeavesSource }
    ensures start_calls_are_few { StartCallsAreFew }
    ensures return_calls_are_few { ReturnCallsAreFew }
    ensures typed_starts_stay { TypedStartsStay }
    ensures typed_returns_stay { TypedReturnsStay }
    ensures start_writes_are_confined { StartWritesAreConfined }
    ensures return_writes_are_confined { ReturnWritesAreConfined }
    ensures start_requests_give_up_live { StartRequestsGiveUpLive }
    ensures return_requests_give_up_live { ReturnRequestsGiveUpLive }
    ensures start_places_are_aligned { StartPlacesAreAligned }
    ensures return_places_are_aligned { ReturnPlacesAreAligned }
    ensures async_calls_twice { AsyncCallsTwice }
    ensures async_calls_write_nothing { AsyncCallsWriteNothing }
    ensures typed_async_calls_stay { TypedAsyncCallsStay }
{}

/// What holds of moves: of flags, whose bits go by name; and of moves out of and into core values of other types, for functions that move
/// values for others: one takes each number as an i64, and gives values of flat types, whatever the slots of the move are. The call does
/// nothing: its contract is the laws.
pub fn laws_of_moves()
    ensures bits_go_by_name { BitsGoByName }
    ensures other_bits_are_zero { OtherBitsAreZero }
    ensures moves_are_alike { MovesAreAlike }
    ensures moves_fill_slots { MovesFillSlots }
{}

/// Rows of the definition by which functions leave translations to helpers, each worked out by hand. The code goes by that definition: by
/// `TranslatesAs` (fact_kinds) in each function, and by `IsOutlined` (fact_assembly) in a module.
/// The call does nothing: its contract is the rows.
pub fn rows_of_outlining()
    ensures three_chars { ThreeChars }
    ensures helpers_are_shared { HelpersAreShared }
    ensures nest_of_lists { NestOfLists }
    ensures fixed_lists { FixedLists }
    ensures fuel_of_functions { FuelOfFunctions }
    ensures free_types { FreeTypes }
    ensures orders_of_members { OrdersOfMembers }
{}
