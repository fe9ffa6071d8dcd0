// Laws of calls and runs. What each says stands in `specs/Changes.antt`, `specs/Refusals.antt`,
// `specs/FaultNumbers.antt`, `specs/Holding.antt`, `specs/Passes.antt`, `specs/Room.antt`,
// `specs/Sizes.antt` and `specs/Examples.antt`.
ghost use Rattle.dbm_model.specs.Changes.{OnlyAcknowledgedChanges, OnlyUpgradesRaise, StoresPutAll, OnlyChangesBreak, BrokenStays};
ghost use Rattle.dbm_model.specs.Refusals.{RefusesOnlyWhereDue, BrokenRefuses, ReadingRefuses, ReadingKeeps, SettingsStay, TooLongIsRefused, InsertKeeps, FullIsRefused, AbsentIsTold, ErrorIsTold, ErrorIsCleared, FirstFaultIsKept};
ghost use Rattle.dbm_model.specs.FaultCount.{FaultCountExamples};
ghost use Rattle.dbm_model.specs.FaultNumbers.{FaultsAreNumbered, NumbersDiffer, NoFaultIsZero};
ghost use Rattle.dbm_model.specs.KeyOrder.{KeyOrderExamples};
ghost use Rattle.dbm_model.specs.Passes.{PassesAreComplete, EmptyPassesEndAtOnce, LastingKeysAreGiven, PassesAscend, NoKeyIsGivenTwice, GivenKeysAreThere, RefusalsKeepPass, PassesStay};
ghost use Rattle.dbm_model.specs.Holding.{StaysWithin};
ghost use Rattle.dbm_model.specs.Room.{RoomStays, RoomIsKnown, PagesAreBounded, RoomExamples};
ghost use Rattle.dbm_model.specs.Sizes.{SizeExamples};
ghost use Rattle.dbm_model.specs.Examples.{StoresAndDeletes, StopsAtLimit, PassesOverNothing, PassesOn, PassesOverChanges, WrongReplies};

/// Only an acknowledged change changes the map or the bounds of a handle that stays usable.
pub fn only_acknowledged_changes()
    ensures map { OnlyAcknowledgedChanges }
    ensures bounds { OnlyUpgradesRaise }
{}

/// Stores that were acknowledged, one after another, have put all of their pairs in the map.
pub fn stores_put_all()
    ensures { StoresPutAll }
{}

/// A handle breaks only by a fault of the device in a change.
pub fn only_changes_break()
    ensures { OnlyChangesBreak }
{}

/// A broken handle stays broken, and its map stays.
pub fn broken_stays()
    ensures { BrokenStays }
{}

/// Each refusal has its reason, and what has to be refused is, in the order broken, for reading,
/// too long, kept, full.
pub fn refusals_are_due()
    ensures only { RefusesOnlyWhereDue }
    ensures broken { BrokenRefuses }
    ensures reading { ReadingRefuses }
    ensures too_long { TooLongIsRefused }
    ensures kept { InsertKeeps }
    ensures full { FullIsRefused }
    ensures absent { AbsentIsTold }
{}

/// No call leaves more pairs than the limit, or one that the version doesn't allow.
pub fn bounds_are_kept()
    ensures { StaysWithin }
{}

/// A handle for reading keeps its map, and each handle its limit and its access.
pub fn settings_stay()
    ensures map { ReadingKeeps }
    ensures settings { SettingsStay }
{}

/// The capacity stays, and the pages but at a store that was acknowledged; NoRoom is told only
/// where there may be too little.
pub fn room_stays()
    ensures stays { RoomStays }
    ensures examples { RoomExamples }
{}

/// Room is known beforehand: with twice as many pages as a database of the bounds needs, no list of
/// calls lacks any, and the file never has more of them than it needs.
pub fn room_is_known()
    ensures known { RoomIsKnown }
    ensures bounded { PagesAreBounded }
    ensures sizes { SizeExamples }
{}

/// The first fault is kept until it is cleared.
pub fn first_fault_is_kept()
    ensures told { ErrorIsTold }
    ensures cleared { ErrorIsCleared }
    ensures kept { FirstFaultIsKept }
{}

/// The count of the device's faults rises, up to its greatest value.
pub fn fault_counts_rise()
    ensures { FaultCountExamples }
{}

/// Each fault has a number of its own, from 1 to 15, and 0 is told where there is none.
pub fn faults_have_numbers()
    ensures in_order { FaultsAreNumbered }
    ensures differ { NumbersDiffer }
    ensures not_zero { NoFaultIsZero }
{}

/// Keys of one hash have an order, too.
pub fn keys_of_one_hash_are_ordered()
    ensures { KeyOrderExamples }
{}

/// A completed pass without a change gives each key exactly once; one that ends where it begins has
/// none to give.
pub fn passes_are_complete()
    ensures complete { PassesAreComplete }
    ensures at_once { EmptyPassesEndAtOnce }
{}

/// A pass goes on over changes, in ascending order: a key that is there throughout is given exactly
/// once, none twice, and one only while it is there.
pub fn passes_survive_changes()
    ensures lasting { LastingKeysAreGiven }
    ensures ascending { PassesAscend }
    ensures once { NoKeyIsGivenTwice }
    ensures there { GivenKeysAreThere }
    ensures refused { RefusalsKeepPass }
    ensures stay { PassesStay }
{}

/// Runs of a new database that are worked out by hand, and replies that none has.
pub fn run_examples()
    ensures stores_and_deletes { StoresAndDeletes }
    ensures stops_at_limit { StopsAtLimit }
    ensures passes_over_nothing { PassesOverNothing }
    ensures passes_on { PassesOn }
    ensures over_changes { PassesOverChanges }
    ensures never { WrongReplies }
{}
