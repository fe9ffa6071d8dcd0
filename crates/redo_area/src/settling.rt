// The second half of a commit, which may come later.
ghost use Rattle.std.specs.Prelude.{◌≡◌, ◌/◌, OnOk};
ghost use Rattle.sect_dev.specs.Device.{LeavesOnly};
ghost use Rattle.page_io.specs.Calls.{IsDeviceCall};
ghost use Rattle.page_io.specs.Page.{page_at};
ghost use Rattle.page_io.specs.Store.{bytes_of, file_of, file_pages, overlaid};
ghost use Rattle.redo_area.specs.Header.{kind_of};
ghost use Rattle.redo_area.specs.File.{settled, IsAtRest};
ghost use Rattle.redo_area.specs.Arming.{IsWaiting};

use crate::area::RedoArea;
use crate::steps::disarm;
use page_io::Page;
use sect_dev::{DevFault, SectorDev};

/// Puts the pages that wait in their places, and clears the commit sector. Where none waits, no
/// device call is made.
pub fn bring_home<D: SectorDev>(
    dev: &mut D,
    area: RedoArea,
    end: u32,
    waiting: &[Page],
) -> Result<(), DevFault>
    requires waiting { IsWaiting D.SectorDev dev.old end area (bytes_of waiting.now) }

    // Every image of every moment since the start settles to the same pages.
    ensures any_moment { D.honest dev.old → LeavesOnly D.moment D.left_since dev.old dev.new
        (λ image. settled (D.sectors dev.old / 4) image
        ≡ file_of (file_pages (overlaid (bytes_of waiting.now) (page_at (D.seen dev.old)))
        end)) }
    ensures rest { D.honest dev.old
        → OnOk result (IsAtRest (D.sectors dev.old / 4) end (D.candidate dev.new)
        (D.seen dev.new)) }
    ensures pages { D.honest dev.old
        → OnOk result (file_pages (page_at (D.seen dev.new)) end
        ≡ file_pages (overlaid (bytes_of waiting.now) (page_at (D.seen dev.old))) end) }
    ensures kind { D.honest dev.old
        → OnOk result (kind_of (D.seen dev.new 0) ≡ area.kind) }
    ensures device { IsDeviceCall D.SectorDev dev.old dev.new result }
{
    if area.held == 0 {
        return Ok(());
    }
    disarm(dev, area, end, waiting)
}
