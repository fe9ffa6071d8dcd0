// Laws of sessions. What each says stands in `specs/Changes.antt`, `specs/Room.antt` and
// `specs/Examples.antt`.
ghost use Rattle.dbm_model.specs.SessionChanges.{AcknowledgedChangesStay, OneInDoubt, PrefixIsLeft, OpeningEndsDoubt, RefusalTakesNothing, BreakLeavesBoth, GroupCutShortLeavesBoth, DeviceIsTheCause};
ghost use Rattle.dbm_model.specs.SessionRoom.{SessionsKeepRoom, SessionsAreNeverShort};
ghost use Rattle.dbm_model.specs.SessionExamples.{StoreAcknowledged, StoreInDoubt, CreationInDoubt, EmptyingInDoubt, WrongSessions, GroupAcknowledged, GroupInDoubt, GroupOfOneKey, WrongGroups};

/// After any list of sessions, each stopped anywhere, what the file may stand for is left by their
/// changes, every acknowledged one among them. What may be missing is in doubt, one at most of each
/// session.
pub fn acknowledged_changes_stay()
    ensures stay { AcknowledgedChangesStay }
    ensures one { OneInDoubt }
    ensures prefix { PrefixIsLeft }
{}

/// A session that was opened ends all earlier doubt, and leaves no more in doubt than its last
/// change; one that wasn't opened takes nothing away. A group that was cut short is in doubt whole.
pub fn doubt_is_settled()
    ensures ends { OpeningEndsDoubt }
    ensures stays { RefusalTakesNothing }
    ensures both { BreakLeavesBoth }
    ensures group { GroupCutShortLeavesBoth }
{}

/// Room is known beforehand: where there is enough for each limit, that is there or is asked for,
/// there is enough for whatever sessions leave, and nothing is refused for want of it.
pub fn sessions_keep_room()
    ensures keep { SessionsKeepRoom }
    ensures short { SessionsAreNeverShort }
{}

/// A device that didn't fail in a session refused nothing in it, and left nothing in doubt.
pub fn device_is_the_cause()
    ensures { DeviceIsTheCause }
{}

/// Sessions that are worked out by hand, and some that never end so.
pub fn session_examples()
    ensures acknowledged { StoreAcknowledged }
    ensures store { StoreInDoubt }
    ensures creation { CreationInDoubt }
    ensures emptying { EmptyingInDoubt }
    ensures never { WrongSessions }
    ensures group { GroupAcknowledged }
    ensures group_in_doubt { GroupInDoubt }
    ensures one_key { GroupOfOneKey }
    ensures never_group { WrongGroups }
{}
