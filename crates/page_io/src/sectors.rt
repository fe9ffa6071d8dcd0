// Pages over a device.
ghost use Rattle.std.specs.Prelude.{◌≡◌, ◌≤◌, ◌+◌, ◌*◌, ℕ, List, OnOk};
ghost use Rattle.sect_dev.specs.Device.{IsImageOf, NoNewCandidate, LeavesOnly};
ghost use Rattle.page_io.specs.Calls.{IsDeviceCall};
ghost use Rattle.page_io.specs.Page.{page_at, IsOutsidePage, IsPartlyWritten, KeepsWhere};

use crate::{Page, SECTORS_PER_PAGE};
use sect_dev::{DevFault, SectorDev};

/// Writes page n, as a run of four sectors. At `Err` each of them may have its old content or the
/// new.
pub fn write_page<D: SectorDev>(dev: &mut D, n: u32, page: &Page) -> Result<(), DevFault>
    requires { 4 * n + 4 ≤ D.sectors dev.old }
    ensures written { D.honest dev.old → OnOk result (page_at (D.seen dev.new) n ≡ page.now.bytes) }
    ensures others { D.honest dev.old → (m : ℕ) → IsOutsidePage n m
        → D.seen dev.new m ≡ D.seen dev.old m }

    // Whenever a stop falls, it leaves each sector outside the page a content that it could have
    // before.
    ensures any_moment { D.honest dev.old
        → LeavesOnly D.moment D.left_since dev.old dev.new
        (KeepsWhere (D.candidate dev.old) (IsOutsidePage n)) }

    // And each of the page's own a content that it could have before, or its part of the new page.
    ensures mid_write { D.honest dev.old
        → LeavesOnly D.moment D.left_since dev.old dev.new
        (IsPartlyWritten (D.candidate dev.old) n page.now.bytes) }
    ensures candidates { D.honest dev.old → (m : ℕ) (c : List ℕ) → IsOutsidePage n m
        → D.candidate dev.new m c → D.candidate dev.old m c }
    ensures device { IsDeviceCall D.SectorDev dev.old dev.new result }
{
    dev.write_run(SECTORS_PER_PAGE * n, &page.bytes)
}

/// Reads page n, as a run of four sectors. It changes nothing on the device. At `Err` the bytes of
/// `page` are unspecified.
pub fn read_page<D: SectorDev>(dev: &mut D, n: u32, page: &mut Page) -> Result<(), DevFault>
    requires { 4 * n + 4 ≤ D.sectors dev.old }
    ensures read { D.honest dev.old → OnOk result (page.new.bytes ≡ page_at (D.seen dev.old) n) }
    ensures seen { D.honest dev.old → D.seen dev.new ≡ D.seen dev.old }
    ensures candidates { D.honest dev.old
        → NoNewCandidate (D.candidate dev.old) (D.candidate dev.new) }
    ensures keeps { D.honest dev.old → NoNewCandidate (D.candidate dev.new) (D.candidate dev.old) }
    ensures any_moment { D.honest dev.old
        → LeavesOnly D.moment D.left_since dev.old dev.new (IsImageOf (D.candidate dev.old)) }
    ensures still { (D.moment dev.new).at ≡ (D.moment dev.old).at }
    ensures device { IsDeviceCall D.SectorDev dev.old dev.new result }
{
    dev.read_run(SECTORS_PER_PAGE * n, &mut page.bytes)
}
