// Laws of sharing. What each says stands in `specs/Changes.antt`, `specs/Views.antt`,
// `specs/WholeViews.antt`, `specs/PassViews.antt`, `specs/Replies.antt`, `specs/Writers.antt`,
// `specs/Going.antt`, `specs/Anew.antt` and `specs/Examples.antt`.
ghost use Rattle.dbm_sharing.specs.Anew.{HandlesResume, ErrorsAreKeptBeside, BreaksLeaveEither};
ghost use Rattle.dbm_sharing.specs.Changes.{ChangesAreShared};
ghost use Rattle.dbm_sharing.specs.Going.{ChainsJoin, ChainsSplit, HandlesGoOn, SharedRoomIsKnown};
ghost use Rattle.dbm_sharing.specs.Views.{ViewsAreRuns};
ghost use Rattle.dbm_sharing.specs.WholeViews.{WholeViewsAreRuns};
ghost use Rattle.dbm_sharing.specs.PassViews.{SharedPassesGiveLastingKeys, SharedPassesAscend, SharedPassesGiveOnce, SharedPassesGiveWhatIsThere, SharedPassesAreComplete};
ghost use Rattle.dbm_sharing.specs.Replies.{PeriodsTellTheMap, RepliesAreOfTheMap, FetchesTellTheMap, OthersLeaveOwn};
ghost use Rattle.dbm_sharing.specs.Writers.{WritersAreSessions, MarksAreOfSessions, SharedChangesStay, PowerCutsLeave};
ghost use Rattle.dbm_sharing.specs.Examples.{StoreIsSeen, PassOverDelete, DeathInStore, StoreIsBroken, PassOverReplacement, OpenedAnew, WrongChains};

/// A change that one handle made and that was acknowledged is the same step of each other handle
/// that is open for changes, whose error and pass stay.
pub fn changes_are_shared()
    ensures { ChangesAreShared }
{}

/// What one handle sees of a chain is a run of the model: its own calls that were answered, and
/// between them the changes of the others. Of a handle that is open for changes the calls that were
/// refused are among them, where it lacked neither memory nor room. Its error, its pass and its
/// access are its own.
pub fn views_are_runs()
    ensures run { ViewsAreRuns }
    ensures whole { WholeViewsAreRuns }
    ensures own { OthersLeaveOwn }
{}

/// Each reply is that of the model at the map that the periods before it left.
pub fn replies_are_of_the_map()
    ensures left { PeriodsTellTheMap }
    ensures replies { RepliesAreOfTheMap }
    ensures fetches { FetchesTellTheMap }
{}

/// A pass of one handle goes on over the changes of all, and in a table that takes the place: a key
/// that is there throughout is given to it once, none twice, and one only while it is there.
pub fn shared_passes_go_on()
    ensures lasting { SharedPassesGiveLastingKeys }
    ensures ascending { SharedPassesAscend }
    ensures once { SharedPassesGiveOnce }
    ensures there { SharedPassesGiveWhatIsThere }
    ensures complete { SharedPassesAreComplete }
{}

/// The writers' periods are a list of sessions, and what a chain leaves at any moment is left by
/// their changes in order, with every acknowledged one among them.
pub fn shared_changes_stay()
    ensures sessions { WritersAreSessions }
    ensures changes { MarksAreOfSessions }
    ensures stay { SharedChangesStay }
    ensures power_cuts { PowerCutsLeave }
{}

/// Where there is room for the bounds, no handle lacks any.
pub fn shared_room_is_known()
    ensures { SharedRoomIsKnown }
{}

/// A chain goes on by a chain.
pub fn chains_go_on()
    ensures join { ChainsJoin }
    ensures split { ChainsSplit }
{}

/// A handle that nothing broke may go on.
pub fn handles_go_on()
    ensures { HandlesGoOn }
{}

/// One that opens the file anew takes over the error and the pass of the one before it. Its error
/// may be kept beside it. A call that broke it may have left either, whatever the file has then.
pub fn handles_open_anew()
    ensures resumes { HandlesResume }
    ensures errors { ErrorsAreKeptBeside }
    ensures either { BreaksLeaveEither }
{}

/// Chains that are worked out by hand, and some that never happen.
pub fn sharing_examples()
    ensures seen { StoreIsSeen }
    ensures pass { PassOverDelete }
    ensures death { DeathInStore }
    ensures broken { StoreIsBroken }
    ensures replaced { PassOverReplacement }
    ensures opened { OpenedAnew }
    ensures never { WrongChains }
{}
