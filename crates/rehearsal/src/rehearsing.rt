// Sessions on a device in memory, each of them stopped.
ghost use Rattle.std.specs.Prelude.{◌≡◌, ◌≤◌, ◌+◌, ◌/◌, ◌∷◌, [], ℕ, All, IfOk, map};
ghost use Rattle.sect_dev.specs.Device.{IsStable};
ghost use Rattle.sect_dev.specs.Sector.{zeros};
ghost use Rattle.dbm_model.specs.Members.{NoDatabase, Members, AllHaveRoom};
ghost use Rattle.dbm_model.specs.SessionRoom.{AsksForRoom, IsNeverShort};
ghost use Rattle.rehearsal.specs.Members.{AllStandFor};
ghost use Rattle.rehearsal.specs.Rehearsals.{planned, endings_in, SessionLeaves, SessionsLeave, AreAllLeft, AreNeverShort, AreOpenedBut, IsOpenedBut, AsksForALimit, FindOrMake, IsSpared, IsCutAfter, AreCutAsAsked, most_changes};
ghost use Rattle.rehearsal.specs.Sessions.{ending_of};

use crate::{Opening, Stopped, stopped_session};
use dbm_file::{Call, Pair};
use sect_dev::{MemDev, SectorDev};
use std::alloc::{AllocError, Global};

/// A session on what a stop left, and where it is stopped itself.
#[derive(Debug, Drop)]
pub struct Stage {
    /// Which of the writes have happened that were not synced at the stop before, the oldest first;
    /// a missing mark counts as false.
    pub keep: Vec<bool>,
    pub how: Opening,
    pub calls: Vec<Call>,
    /// Pairs that are then stored in one commit, as far as they go into one.
    pub group: Vec<Pair>,
    /// How many calls of the device there are before the stop.
    pub device_calls: u64,
}

/// A device of which a stop leaves nothing but zeros holds no database, so a rehearsal can begin
/// with a new one.
pub fn blank_devices_hold_none(dev: &MemDev)
    ensures { IsStable (⟦<MemDev as SectorDev>⟧.candidate dev.now) (λ _. zeros)
        → AllStandFor (NoDatabase ∷ []) (⟦<MemDev as SectorDev>⟧.sectors dev.now / 4)
        (⟦<MemDev as SectorDev>⟧.candidate dev.now) }
{}

/// Makes the sessions one after another on a device in memory, each of them stopped after so many
/// calls of the device, and gives the device as the last stop found it, with nothing settled of its
/// unsynced writes, and each ending. `AllocError` comes where a growth is refused, also one of the
/// device.
pub fn rehearse(
    alloc: Global,
    dev: MemDev,
    stages: &[Stage],
) -> Result<(MemDev, Vec<Stopped>), AllocError>
    // They are sessions of the definitions, whichever unsynced writes will have happened at the last
    // stop.
    ensures leaves { (before : Members)
        → AllStandFor before (⟦<MemDev as SectorDev>⟧.sectors dev / 4)
        (⟦<MemDev as SectorDev>⟧.candidate dev)
        → IfOk result (λ r. SessionsLeave before (map planned stages.now) (endings_in r.1.items)
        (⟦<MemDev as SectorDev>⟧.sectors r.0 / 4) (⟦<MemDev as SectorDev>⟧.candidate r.0)) }

    // Each image then stands for what is left by their changes in order, with every acknowledged
    // one among them; only one in doubt may be missing.
    ensures stays { (before : Members)
        → AllStandFor before (⟦<MemDev as SectorDev>⟧.sectors dev / 4)
        (⟦<MemDev as SectorDev>⟧.candidate dev)
        → IfOk result (λ r. AreAllLeft before (map planned stages.now) (endings_in r.1.items)
        (⟦<MemDev as SectorDev>⟧.sectors r.0 / 4) (⟦<MemDev as SectorDev>⟧.candidate r.0)) }

    // Where the device has twice the pages that the bounds need which are there or are asked for,
    // nothing is refused for want of room.
    ensures room { (before : Members)
        → AllStandFor before (⟦<MemDev as SectorDev>⟧.sectors dev / 4)
        (⟦<MemDev as SectorDev>⟧.candidate dev)
        → AllHaveRoom (⟦<MemDev as SectorDev>⟧.sectors dev / 4) before
        → All (AsksForRoom (⟦<MemDev as SectorDev>⟧.sectors dev / 4)) (map planned stages.now)
        → IfOk result (λ r. AreNeverShort (endings_in r.1.items)) }

    // Where besides each session finds a database or makes one, of a limit that is one, nothing but
    // its stop refuses its opening, and want of memory where the database is to be emptied.
    ensures reopens { (before : Members)
        → AllStandFor before (⟦<MemDev as SectorDev>⟧.sectors dev / 4)
        (⟦<MemDev as SectorDev>⟧.candidate dev)
        → AllHaveRoom (⟦<MemDev as SectorDev>⟧.sectors dev / 4) before
        → All (AsksForRoom (⟦<MemDev as SectorDev>⟧.sectors dev / 4)) (map planned stages.now)
        → All AsksForALimit (map planned stages.now)
        → FindOrMake before (map planned stages.now)
        → IfOk result (λ r. AreOpenedBut (map planned stages.now) (endings_in r.1.items)) }

    // Each session that was cut short was so after as many calls of the device as its stage asks
    // for; in one that wasn't nothing was refused by the device.
    ensures cut { IfOk result (λ r. AreCutAsAsked stages.now r.1.items) }
    ensures spared { (before : Members)
        → AllStandFor before (⟦<MemDev as SectorDev>⟧.sectors dev / 4)
        (⟦<MemDev as SectorDev>⟧.candidate dev)
        → IfOk result (λ r. All IsSpared r.1.items) }

    // Each session is stopped by then at the latest: the device, whose moments are its writes and
    // syncs, goes no further than the calls of it that there were to be, and the stops.
    ensures stops { (before : Members)
        → AllStandFor before (⟦<MemDev as SectorDev>⟧.sectors dev / 4)
        (⟦<MemDev as SectorDev>⟧.candidate dev)
        → IfOk result (λ r. (⟦<MemDev as SectorDev>⟧.moment r.0).at
        ≤ (⟦<MemDev as SectorDev>⟧.moment dev).at + most_changes stages.now) }
{
    let mut dev = dev;
    let mut endings = Vec::new(alloc);
    for stage in stages {
        let (left, stopped) = run_stage(alloc, dev, stage)?;
        dev = left;
        endings.push(stopped)?;
    }
    Ok((dev, endings))
}

// One of them.
fn run_stage(alloc: Global, dev: MemDev, stage: &Stage) -> Result<(MemDev, Stopped), AllocError>
    ensures leaves { (before : Members)
        → AllStandFor before (⟦<MemDev as SectorDev>⟧.sectors dev / 4)
        (⟦<MemDev as SectorDev>⟧.candidate dev)
        → IfOk result (λ r. SessionLeaves before (planned stage.now) r.1.ending
        (⟦<MemDev as SectorDev>⟧.sectors r.0 / 4) (⟦<MemDev as SectorDev>⟧.candidate r.0)) }
    ensures room { (before : Members)
        → AllStandFor before (⟦<MemDev as SectorDev>⟧.sectors dev / 4)
        (⟦<MemDev as SectorDev>⟧.candidate dev)
        → AllHaveRoom (⟦<MemDev as SectorDev>⟧.sectors dev / 4) before
        → IfOk result (λ r. (count : ℕ) → IsNeverShort (ending_of r.1.ending count)) }
    ensures reopens { (before : Members)
        → AllStandFor before (⟦<MemDev as SectorDev>⟧.sectors dev / 4)
        (⟦<MemDev as SectorDev>⟧.candidate dev)
        → AllHaveRoom (⟦<MemDev as SectorDev>⟧.sectors dev / 4) before
        → AsksForRoom (⟦<MemDev as SectorDev>⟧.sectors dev / 4) (planned stage.now)
        → AsksForALimit (planned stage.now) → FindOrMake before (planned stage.now ∷ [])
        → IfOk result (λ r. IsOpenedBut (planned stage.now) r.1.ending) }
    ensures cut { IfOk result (λ r. IsCutAfter stage.now.device_calls r.1) }
    ensures spared { (before : Members)
        → AllStandFor before (⟦<MemDev as SectorDev>⟧.sectors dev / 4)
        (⟦<MemDev as SectorDev>⟧.candidate dev)
        → IfOk result (λ r. IsSpared r.1) }
    ensures stops { (before : Members)
        → AllStandFor before (⟦<MemDev as SectorDev>⟧.sectors dev / 4)
        (⟦<MemDev as SectorDev>⟧.candidate dev)
        → IfOk result (λ r. (⟦<MemDev as SectorDev>⟧.moment r.0).at
        ≤ (⟦<MemDev as SectorDev>⟧.moment dev).at + (stage.now.device_calls + 1)) }
    ensures size { IfOk result (λ r. ⟦<MemDev as SectorDev>⟧.sectors r.0 / 4
        ≡ ⟦<MemDev as SectorDev>⟧.sectors dev / 4) }
{
    let start = dev.crashed(alloc, stage.keep.as_slice())?;
    let (calls, group) = (stage.calls.as_slice(), stage.group.as_slice());
    stopped_session(alloc, start, stage.how, calls, group, stage.device_calls)
}
