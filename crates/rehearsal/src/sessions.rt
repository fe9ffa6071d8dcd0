// A session on a device, from its opening to its end.
ghost use Rattle.std.specs.Prelude.{◌≡◌, ◌≢◌, ◌⊎◌, ◌↔◌, ◌≤◌, ◌/◌, ℕ, None, true, length, map, Err, IfOk, IfErr, OnOk};
ghost use Rattle.sect_dev.specs.Device.{LeavesOnly, MoreFaults};
ghost use Rattle.sect_dev.specs.Moments.{IsOutcome};
ghost use Rattle.redo_area.specs.File.{settled};
ghost use Rattle.dbm_model.specs.Room.{HasRoom};
ghost use Rattle.dbm_model.specs.States.{Handle};
ghost use Rattle.dbm_model.specs.Members.{Members};
ghost use Rattle.dbm_model.specs.SessionRoom.{IsNeverShort};
ghost use Rattle.dbm_file.specs.Pairs.{pair_of};
ghost use Rattle.file_opening.specs.Opening.{early_fault, AllStand, AllAllow};
ghost use Rattle.dbm_file.specs.Calls.{call_of};
ghost use Rattle.dbm_file.specs.Database.{page_state, IsAt};
ghost use Rattle.dbm_file.specs.Opened.{device_below, AllHaveRoom};
ghost use Rattle.rehearsal.specs.Members.{AllStandFor};
ghost use Rattle.rehearsal.specs.Positions.{GoesInSteps, IfMade, MadeInSteps};
ghost use Rattle.rehearsal.specs.Sessions.{opening_of, plan_of, for_writing, ending_of, disk_of, IsOneEach, IfNotOpened, IfRested, IfUnsettled, IfGrouped, IsSettled, WhyNotOpened, Leaves, IsLeftByStop, CallsLeave, IsLeftByCalls};

use dbm_file::{Access, Call, CommitKind, Db, Fault, OpenHow, Pair, Reply, Version, run};
use page_cache::CachedPages;
use page_io::PageStore;
use redo_area::Pager;
use sect_dev::SectorDev;
use std::alloc::Global;

/// How a session opens its database, always for writing (POSIX: O_RDWR, with O_CREAT, O_TRUNC or
/// both).
#[derive(Clone, Copy, Debug, PartialEq, Eq)]
pub struct Opening {
    /// Make the database where the device is blank.
    pub create: bool,
    /// Make a database that is there empty.
    pub truncate: bool,
    /// How many pairs a database that is made or emptied may have.
    pub limit: u32,
    /// The version of a database that is made or emptied.
    pub version: Version,
    /// How the commits of a database that is made are made.
    pub commits: CommitKind,
}

impl Opening {
    // The same as the database is asked it.
    fn for_writing(self) -> OpenHow
        ensures { result ≡ for_writing self }
    {
        OpenHow {
            access: Access::ReadWrite,
            create: self.create,
            exclusive: false,
            truncate: self.truncate,
            limit: self.limit,
            version: self.version,
            commits: self.commits,
            kept_pages: None,
        }
    }
}

/// How a session ended.
#[derive(Debug, Drop)]
pub enum Ending {
    /// The opening was refused, and no call was made.
    NotOpened(Fault),
    /// There was no memory for the replies. No call was made, and the database was closed.
    NoMemory,
    /// Each call was given its reply, so many pairs of the group, from the first one on, were
    /// stored in one commit, and the database was closed. None are where the group was refused by
    /// a fault.
    Rested(Vec<Reply>, Result<usize, Fault>),
    /// The same, but the closing failed by a fault of the device. What was done stands.
    Unsettled(Vec<Reply>, Result<usize, Fault>),
    /// Each call was given its reply, and a fault of the device broke the database in one of them.
    Broke(Vec<Reply>),
    /// Each call was given its reply, and a fault of the device broke the database in the commit of
    /// the group.
    BrokeGroup(Vec<Reply>),
}

/// Opens the device for writing, makes the calls in order, stores the pairs of the group in one
/// commit, as far as they go into one, and closes it again.
pub fn session<D: SectorDev>(
    alloc: Global,
    dev: D,
    how: Opening,
    calls: &[Call],
    group: &[Pair],
) -> (D, Ending)
    // Whatever each image at the start stands for, it is a session of the definitions, and each
    // image that may be left at its end stands for a member of what that leaves. Where the commit
    // of the group broke the database, `count` is how many pairs it had.
    ensures leaves { D.honest dev → (before : Members)
        → AllStandFor before (D.sectors dev / 4) (D.candidate dev)
        → (count : ℕ) × Leaves (disk_of D.SectorDev dev result.0) before
        (plan_of how calls.now group.now) (ending_of result.1 count)
        (D.sectors result.0 / 4) (D.candidate result.0) }

    // Each image of each moment stands for a member of what a session leaves that is stopped there.
    ensures any_moment { D.honest dev → (before : Members)
        → AllStandFor before (D.sectors dev / 4) (D.candidate dev)
        → (count : ℕ)
        × LeavesOnly D.moment (IsOutcome D.left_since (settled (D.sectors dev / 4))) dev result.0
        (IsLeftByStop (disk_of D.SectorDev dev result.0) before
        (plan_of how calls.now group.now) (ending_of result.1 count)) }

    // From the moment on at which a call had answered, a stop leaves nothing of earlier ones.
    ensures steps { D.honest dev → (before : Members)
        → AllStandFor before (D.sectors dev / 4) (D.candidate dev)
        → IfMade result.1 (GoesInSteps D.SectorDev ⟦<Pager<D> as PageStore>⟧
        ⟦<CachedPages<Pager<D>> as PageStore>⟧ (disk_of D.SectorDev dev result.0) before
        (opening_of how) dev result.0 (map call_of calls.now) (map pair_of group.now)) }
    ensures one_each { IsOneEach calls.now result.1 }

    // No more pairs of the group are stored than it has, and only a fault of the device refuses it.
    ensures within { IfGrouped result.1 (λ stored. IfOk stored (λ n. n ≤ length group.now)) }
    ensures group_refused { IfGrouped result.1 (λ stored. IfErr stored (λ fault.
        (fault ≡ Fault.Device) × MoreFaults (D.faults dev) (D.faults result.0))) }

    // The opening is refused where what is asked, or what the device holds, is a reason, and by a
    // fault of the device.
    ensures refused { D.honest dev → IfNotOpened result.1
        (WhyNotOpened D.SectorDev (for_writing how) dev result.0) }

    // Where each image at the start is blank or stands for a map, and allows what is asked, nothing
    // but the device and want of memory refuses it.
    ensures opens { D.honest dev → early_fault (for_writing how) (D.sectors dev) ≡ None
        → AllStand (D.sectors dev / 4) (D.candidate dev)
        → AllAllow (for_writing how) (D.sectors dev) (D.candidate dev)
        → IfNotOpened result.1 (λ fault. (fault ≡ Fault.Device)
        ⊎ ((fault ≡ Fault.Memory) × (how.truncate ≡ true))) }

    // Where the device has twice the pages that each map's bounds need, neither the opening nor a
    // call is refused for want of room.
    ensures room { D.honest dev → AllHaveRoom (D.sectors dev / 4) (D.candidate dev)
        → (count : ℕ) → IsNeverShort (ending_of result.1 count) }

    // Where it is told that the database was closed, nothing is on its way to the disk; where the
    // closing is told as failed, a call of the device was.
    ensures closed { D.honest dev → IfRested result.1 (IsSettled D.SectorDev result.0) }
    ensures failed { IfUnsettled result.1 (MoreFaults (D.faults dev) (D.faults result.0)) }
    ensures honesty { D.honest result.0 ↔ D.honest dev }
    ensures size { D.sectors result.0 / 4 ≡ D.sectors dev / 4 }
{
    match Db::open(alloc, dev, how.for_writing()) {
        Ok(db) => make_calls(alloc, db, calls, group),
        Err((dev, fault)) => (dev, Ending::NotOpened(fault)),
    }
}

// The rest of a session, from an open database on.
fn make_calls<D: SectorDev>(alloc: Global, db: Db<D>, calls: &[Call], group: &[Pair]) -> (D, Ending)
    ensures leaves { D.honest (device_below db) → (h : Handle) → IsAt db h
        → h.state.usable ≡ true
        → (count : ℕ) × CallsLeave (D.faults result.0) h (map call_of calls.now)
        (map pair_of group.now) (ending_of result.1 count) (D.sectors result.0 / 4)
        (D.candidate result.0) }
    ensures any_moment { D.honest (device_below db) → (h : Handle) → IsAt db h
        → h.state.usable ≡ true
        → (count : ℕ) × LeavesOnly D.moment
        (IsOutcome D.left_since (settled (D.sectors (device_below db) / 4)))
        (device_below db) result.0
        (IsLeftByCalls (D.faults result.0) h (map call_of calls.now) (map pair_of group.now)
        (ending_of result.1 count)) }
    ensures steps { D.honest (device_below db) → (h : Handle) → IsAt db h
        → h.state.usable ≡ true
        → IfMade result.1 (MadeInSteps D.SectorDev ⟦<Pager<D> as PageStore>⟧
        ⟦<CachedPages<Pager<D>> as PageStore>⟧ db result.0 h (map call_of calls.now)
        (map pair_of group.now)) }
    ensures room { D.honest (device_below db) → (h : Handle) → IsAt db h → HasRoom h
        → (count : ℕ) → IsNeverShort (ending_of result.1 count) }
    ensures closed { D.honest (device_below db) → (page_state db).writable ≡ true
        → IfRested result.1 (IsSettled D.SectorDev result.0) }
    ensures failed { IfUnsettled result.1
        (MoreFaults (D.faults (device_below db)) (D.faults result.0)) }
    ensures opened { IfNotOpened result.1 (λ fault. ⊥) }
    ensures one_each { IsOneEach calls.now result.1 }
    ensures within { IfGrouped result.1 (λ stored. IfOk stored (λ n. n ≤ length group.now)) }
    ensures group_refused { (page_state db).writable ≡ true
        → IfGrouped result.1 (λ stored. IfErr stored (λ fault. (fault ≡ Fault.Device)
        × MoreFaults (D.faults (device_below db)) (D.faults result.0))) }
    ensures later { D.faults (device_below db) ≤ D.faults result.0 }
    ensures honesty { D.honest result.0 ↔ D.honest (device_below db) }
    ensures size { D.sectors result.0 / 4 ≡ D.sectors (device_below db) / 4 }
{
    let mut db = db;
    let Ok(replies) = run(alloc, &mut db, calls) else {
        return (db.close().0, Ending::NoMemory);
    };
    let stored = db.store_many(group);
    let (dev, closed) = db.close();
    (dev, session_ending(stored, closed, replies))
}

// How a session ended whose calls got these replies, and whose group was stored so.
fn session_ending(
    stored: Result<usize, Fault>,
    closed: Result<(), Fault>,
    replies: Vec<Reply>,
) -> Ending
    ensures rested { stored ≢ Err Fault.Broken
        → OnOk closed (result ≡ Ending.Rested replies stored) }
    ensures failed { stored ≢ Err Fault.Broken → IfErr closed (λ fault. fault ≢ Fault.Broken
        → result ≡ Ending.Unsettled replies stored) }
    ensures broke_group { stored ≢ Err Fault.Broken → closed ≡ Err Fault.Broken
        → result ≡ Ending.BrokeGroup replies }
    ensures broke { stored ≡ Err Fault.Broken → result ≡ Ending.Broke replies }
{
    match (stored, closed) {
        (Err(Fault::Broken), _) => Ending::Broke(replies),
        (_, Err(Fault::Broken)) => Ending::BrokeGroup(replies),
        (stored, Ok(())) => Ending::Rested(replies, stored),
        (stored, Err(_)) => Ending::Unsettled(replies, stored),
    }
}
