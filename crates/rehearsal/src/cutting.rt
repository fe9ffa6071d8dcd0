// A session on a device in memory that is stopped after so many of its calls.
ghost use Rattle.std.specs.Prelude.{◌≡◌, ◌+◌, ◌≤◌, ◌/◌, ℕ, None, IfOk, true};
ghost use Rattle.file_opening.specs.Opening.{early_fault, AllStand, AllAllow};
ghost use Rattle.dbm_model.specs.Members.{Members, AllHaveRoom};
ghost use Rattle.dbm_model.specs.SessionRoom.{IsNeverShort};
ghost use Rattle.rehearsal.specs.Members.{AllStandFor};
ghost use Rattle.rehearsal.specs.Rehearsals.{SessionLeaves, IsSpared, IsCutAfter, IsOpenedBut};
ghost use Rattle.rehearsal.specs.Sessions.{plan_of, for_writing, ending_of};

use crate::{Counting, Ending, Opening, session};
use dbm_file::{Call, Pair};
use sect_dev::{Fuse, MemDev, SectorDev};
use std::alloc::{AllocError, Global};

/// How a session ended that was to be stopped.
#[derive(Debug, Drop)]
pub struct Stopped {
    pub ending: Ending,
    /// How many calls the device answered.
    pub device_calls: u64,
    /// Whether the session made more calls of the device. Each of them failed.
    pub is_cut: bool,
}

/// Makes a session on a device in memory that fails every call after so many. A growth of the
/// device that is refused is an error of its own, so that no other fault of the device is met.
pub fn stopped_session(
    alloc: Global,
    dev: MemDev,
    how: Opening,
    calls: &[Call],
    group: &[Pair],
    device_calls: u64,
) -> Result<(MemDev, Stopped), AllocError>
    requires unfailed { ⟦<MemDev as SectorDev>⟧.faults dev ≡ 0 }

    // It is a session of the definitions.
    ensures leaves { (before : Members)
        → AllStandFor before (⟦<MemDev as SectorDev>⟧.sectors dev / 4)
        (⟦<MemDev as SectorDev>⟧.candidate dev)
        → IfOk result (λ r. SessionLeaves before (plan_of how calls.now group.now) r.1.ending
        (⟦<MemDev as SectorDev>⟧.sectors r.0 / 4) (⟦<MemDev as SectorDev>⟧.candidate r.0)) }
    ensures room { (before : Members)
        → AllStandFor before (⟦<MemDev as SectorDev>⟧.sectors dev / 4)
        (⟦<MemDev as SectorDev>⟧.candidate dev)
        → AllHaveRoom (⟦<MemDev as SectorDev>⟧.sectors dev / 4) before
        → IfOk result (λ r. (count : ℕ) → IsNeverShort (ending_of r.1.ending count)) }

    // Where each image at the start is blank or stands for a map, and allows what is asked, nothing
    // but the stop and want of memory refuses the opening.
    ensures opens { early_fault (for_writing how) (⟦<MemDev as SectorDev>⟧.sectors dev) ≡ None
        → AllStand (⟦<MemDev as SectorDev>⟧.sectors dev / 4)
        (⟦<MemDev as SectorDev>⟧.candidate dev)
        → AllAllow (for_writing how) (⟦<MemDev as SectorDev>⟧.sectors dev)
        (⟦<MemDev as SectorDev>⟧.candidate dev)
        → IfOk result (λ r. IsOpenedBut (plan_of how calls.now group.now) r.1.ending) }

    // Where it wasn't cut short, nothing was refused by the device; where it was, it was so after
    // as many calls as asked for.
    ensures spared { (before : Members)
        → AllStandFor before (⟦<MemDev as SectorDev>⟧.sectors dev / 4)
        (⟦<MemDev as SectorDev>⟧.candidate dev)
        → IfOk result (λ r. IsSpared r.1) }
    ensures cut { IfOk result (λ r. IsCutAfter device_calls r.1) }
    ensures stops { (before : Members)
        → AllStandFor before (⟦<MemDev as SectorDev>⟧.sectors dev / 4)
        (⟦<MemDev as SectorDev>⟧.candidate dev)
        → IfOk result (λ r. (⟦<MemDev as SectorDev>⟧.moment r.0).at
        ≤ (⟦<MemDev as SectorDev>⟧.moment dev).at + device_calls) }
    ensures size { IfOk result (λ r. ⟦<MemDev as SectorDev>⟧.sectors r.0 / 4
        ≡ ⟦<MemDev as SectorDev>⟧.sectors dev / 4) }
{
    let counting = Counting::new(dev);
    let fuse = Fuse::new(counting, device_calls);
    let (fuse, ending) = session(alloc, fuse, how, calls, group);
    let is_cut = fuse.failed_on_purpose() > 0;
    let counted = fuse.into_inner();
    let answered = counted.calls();
    if counted.has_failed() || (is_cut && answered != device_calls) {
        return Err(AllocError);
    }
    let stopped = Stopped {
        ending,
        device_calls: answered,
        is_cut,
    };
    Ok((counted.into_inner(), stopped))
}
