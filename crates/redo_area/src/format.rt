// A new file.
ghost use Rattle.std.specs.Prelude.{◌≡◌, ◌≤◌, ◌<◌, ◌+◌, ◌/◌, ℕ, List, length, OnOk};
ghost use Rattle.sect_dev.specs.Device.{LeavesOnly};
ghost use Rattle.page_io.specs.Calls.{IsDeviceCall};
ghost use Rattle.sect_dev.specs.Sector.{zeros};
ghost use Rattle.page_io.specs.Page.{page_at};
ghost use Rattle.page_io.specs.Store.{file_pages, bytes_of};
ghost use Rattle.redo_area.specs.Header.{kind_of};
ghost use Rattle.redo_area.specs.File.{settled, IsAtRest, IsBlankOr};

use crate::header::{CommitKind, clear_sector};
use crate::steps::{put_header, put_images};
use page_io::Page;
use sect_dev::{DevFault, SectorDev};

/// Makes a new file of these pages, from page 1 on, on a blank device.
pub fn format_pages<D: SectorDev>(
    dev: &mut D,
    kind: CommitKind,
    pages: &[Page],
) -> Result<(), DevFault>
    requires least { 3 ≤ length pages.now }
    requires room { 1 + length pages.now ≤ D.sectors dev.old / 4 }

    // Where the first sector was blank at the start, every image of every moment since is blank or
    // the whole file.
    ensures any_moment { D.honest dev.old → ((c : List ℕ) → D.candidate dev.old 0 c → c ≡ zeros)
        → LeavesOnly D.moment D.left_since dev.old dev.new
        (λ image. IsBlankOr (bytes_of pages.now) (settled (D.sectors dev.old / 4) image)) }
    ensures rest { D.honest dev.old
        → OnOk result (IsAtRest (D.sectors dev.old / 4) (1 + length pages.now) (D.candidate dev.new)
        (D.seen dev.new)) }
    ensures pages { D.honest dev.old
        → OnOk result (file_pages (page_at (D.seen dev.new)) (1 + length pages.now)
        ≡ bytes_of pages.now) }
    ensures kind { D.honest dev.old
        → OnOk result (kind_of (D.seen dev.new 0) ≡ kind) }
    ensures device { IsDeviceCall D.SectorDev dev.old dev.new result }
{
    let end = 1 + pages.len() as u32;
    put_images(dev, 1, pages)?;
    put_header(dev, &clear_sector(kind, end))?;
    Ok(())
}
