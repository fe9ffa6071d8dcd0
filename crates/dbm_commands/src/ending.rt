// The end of a command: its last output, and the closing of its database.
ghost use Rattle.std.specs.Prelude.{◌≡◌, ◌⊎◌, ◌/◌, true, false, Ok, Err, IfOk, IfErr, OnOk};
ghost use Rattle.std.specs.Io.KnownBytes.{Keeps};
ghost use Rattle.sect_dev.specs.Device.{LeavesOnly, MoreFaults};
ghost use Rattle.sect_dev.specs.Moments.{IsOutcome};
ghost use Rattle.redo_area.specs.File.{settled};
ghost use Rattle.redo_area.specs.Opening.{IsClosed};
ghost use Rattle.dbm_file.specs.Database.{store_of, page_state};
ghost use Rattle.dbm_file.specs.Opened.{device_below};

use crate::outcomes::unwritten;
use crate::{Failure, Outcome};
use dbm_fault::EngineFault;
use dbm_file::{Db, Fault};
use page_cache::CachedPages;
use page_io::PageStore;
use redo_area::Pager;
use sect_dev::SectorDev;
use std::io::Write;

/// Ends a command that wrote: the output is flushed, also after a failure. Of two failures the
/// earlier one is told.
pub fn flush_after<W: Write>(
    done: Result<(), EngineFault>,
    output: &mut W,
) -> Result<Outcome, Failure>
    ensures failed { IfErr done (λ fault. result ≡ Err (Failure.Fault fault)) }
    ensures done { OnOk done ((result ≡ Ok Outcome.Done)
        ⊎ (result ≡ Err (Failure.Fault EngineFault.Write))) }
    ensures bytes { Keeps (W.contents output.old) (W.contents output.new) }
{
    let flushed = output.flush();
    done?;
    flushed.map_err(unwritten)?;
    Ok(Outcome::Done)
}

/// Closes a database after what was done with it, and gives its device back. Of two failures the
/// earlier one is told.
pub fn close_after<D: SectorDev>(
    db: Db<D>,
    done: Result<Outcome, Failure>,
) -> (D, Result<Outcome, Failure>)
    ensures failed { IfErr done (λ failure. result.1 ≡ Err failure) }
    ensures done { IfOk done (λ outcome. (page_state db).usable ≡ true
        → (result.1 ≡ Ok outcome) ⊎ (result.1 ≡ Err (Failure.Fault (EngineFault.Db Fault.Device)))) }
    ensures broken { OnOk done ((page_state db).usable ≡ false
        → result.1 ≡ Err (Failure.Fault (EngineFault.Db Fault.Broken))) }

    // The closing fails only by a fault of the device.
    ensures cause { OnOk done (result.1 ≡ Err (Failure.Fault (EngineFault.Db Fault.Device))
        → MoreFaults (D.faults (device_below db)) (D.faults result.0)) }

    // Where all went well, all of a database opened for writing is on the disk, and no commit on its
    // way, but for one in a log.
    ensures closed { D.honest result.0 → (page_state db).writable ≡ true
        → OnOk result.1 (IsClosed (D.sectors result.0 / 4) (page_state db).end
        (D.candidate result.0) (D.seen result.0)) }

    // Every image of every moment settles to something that the store of the database might have
    // been left with.
    ensures any_moment { D.honest (device_below db)
        → LeavesOnly D.moment
        (IsOutcome D.left_since (settled (D.sectors (device_below db) / 4)))
        (device_below db) result.0
        (⟦<CachedPages<Pager<D>> as PageStore>⟧.settles_to (store_of db)) }
{
    let (dev, answer) = db.close();
    (dev, earlier(done, answer))
}

/// The earlier one of two failures, or what was done.
fn earlier(done: Result<Outcome, Failure>, closed: Result<(), Fault>) -> Result<Outcome, Failure>
    ensures failed { IfErr done (λ failure. result ≡ Err failure) }
    ensures refused { IfErr closed (λ fault. OnOk done
        (result ≡ Err (Failure.Fault (EngineFault.Db fault)))) }
    ensures done { OnOk closed (result ≡ done) }
{
    let outcome = done?;
    closed?;
    Ok(outcome)
}
