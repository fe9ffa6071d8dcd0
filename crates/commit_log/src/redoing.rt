// The end of a log, after a stop.
ghost use Rattle.std.specs.Prelude.{◌≡◌, ◌≤◌, ◌<◌, ◌+◌, ◌*◌, ℕ, true, length, OnOk};
ghost use Rattle.sect_dev.specs.Device.{LeavesOnly, IsStable};
ghost use Rattle.page_io.specs.Calls.{IsDeviceCall};
ghost use Rattle.page_io.specs.Page.{page_at};
ghost use Rattle.page_io.specs.Store.{file_of, file_pages, are_in_order, bytes_of};
ghost use Rattle.commit_log.specs.Log.{settled_at};
ghost use Rattle.commit_log.specs.Redoing.{AreLogs};

use crate::homes::write_homes;
use page_io::Page;
use sect_dev::{DevFault, SectorDev};

/// The pages of both logs are on the disk at their own numbers, those of the newer one last. The
/// log stays; a commit sector that is clear may follow.
pub fn redo<D: SectorDev>(
    dev: &mut D,
    start: u32,
    end: u32,
    older_end: u32,
    older: &[Page],
    newer: &[Page],
) -> Result<(), DevFault>
    requires stable { D.honest dev.old → IsStable (D.candidate dev.old) (D.seen dev.old) }
    requires logs { D.honest dev.old
        → AreLogs start end (bytes_of older.now) (bytes_of newer.now) (D.seen dev.old) }
    requires rising { are_in_order 1 end (bytes_of newer.now) ≡ true }
    requires above { end ≤ start }
    requires older_rising { are_in_order 1 older_end (bytes_of older.now) ≡ true }
    requires older_above { older_end ≤ start }
    requires room { 4 * start ≤ D.sectors dev.old }

    // Every image of every moment since the start settles as the device did, and the commit sector
    // is as it was.
    ensures any_moment { D.honest dev.old → LeavesOnly D.moment D.left_since dev.old dev.new
        (λ image. (settled_at image start ≡ settled_at (D.seen dev.old) start)
        × (image 0 ≡ D.seen dev.old 0)) }
    ensures stable { D.honest dev.old
        → OnOk result (IsStable (D.candidate dev.new) (D.seen dev.new)) }

    ensures same { D.honest dev.old
        → OnOk result ((settled_at (D.seen dev.new) start ≡ settled_at (D.seen dev.old) start)
        × (D.seen dev.new 0 ≡ D.seen dev.old 0)) }

    // The pages at home are those that the device settled to.
    ensures home { D.honest dev.old
        → OnOk result (settled_at (D.seen dev.old) start
        ≡ file_of (file_pages (page_at (D.seen dev.new)) end)) }
    ensures device { IsDeviceCall D.SectorDev dev.old dev.new result }
{
    write_homes(dev, older)?;
    write_homes(dev, newer)?;
    dev.sync()
}
