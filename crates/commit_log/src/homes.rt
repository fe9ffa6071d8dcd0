// Pages that come to their own numbers.
ghost use Rattle.std.specs.Prelude.{◌≡◌, ◌≤◌, ◌<◌, ◌+◌, ◌*◌, ◌^◌, ℕ, List, length, true, false, OnOk, slice_index_or, []};
ghost use Rattle.sect_dev.specs.Device.{LeavesOnly};
ghost use Rattle.page_io.specs.Calls.{IsDeviceCall};
ghost use Rattle.page_io.specs.Page.{page_at, own_number, KeepsWhere};
ghost use Rattle.page_io.specs.Store.{overlaid, are_in_order, has_page, bytes_of};
ghost use Rattle.commit_log.specs.Homes.{IsOutsideAll};

use page_io::{Page, is_among, write_page};
use sect_dev::{DevFault, SectorDev};

/// Writes each page at its own number, but for those that newer pages have too.
pub fn write_homes_but<D: SectorDev>(
    dev: &mut D,
    pages: &[Page],
    newer: &[Page],
) -> Result<(), DevFault>
    requires room { (k : ℕ) → k < length pages.now
        → 4 * own_number (slice_index_or (bytes_of pages.now) k []) + 4 ≤ D.sectors dev.old }
    requires order { are_in_order 1 (2 ^ 32) (bytes_of newer.now) ≡ true }
    ensures any_moment { D.honest dev.old
        → LeavesOnly D.moment D.left_since dev.old dev.new
        (KeepsWhere (D.candidate dev.old) (IsOutsideAll (bytes_of pages.now))) }
    ensures candidates { D.honest dev.old → (m : ℕ) (c : List ℕ)
        → IsOutsideAll (bytes_of pages.now) m → D.candidate dev.new m c → D.candidate dev.old m c }
    ensures others { D.honest dev.old
        → OnOk result ((m : ℕ) → IsOutsideAll (bytes_of pages.now) m
        → D.seen dev.new m ≡ D.seen dev.old m) }
    ensures written { D.honest dev.old
        → OnOk result ((n : ℕ) → has_page (bytes_of newer.now) n ≡ false
        → page_at (D.seen dev.new) n
        ≡ overlaid (bytes_of pages.now) (page_at (D.seen dev.old)) n) }
    ensures device { IsDeviceCall D.SectorDev dev.old dev.new result }
{
    for page in pages {
        let own = page.own();
        if !is_among(newer, own) {
            write_page(dev, own, page)?;
        }
    }
    Ok(())
}

/// Writes each page at its own number.
pub fn write_homes<D: SectorDev>(dev: &mut D, pages: &[Page]) -> Result<(), DevFault>
    requires { (k : ℕ) → k < length pages.now
        → 4 * own_number (slice_index_or (bytes_of pages.now) k []) + 4 ≤ D.sectors dev.old }
    ensures any_moment { D.honest dev.old
        → LeavesOnly D.moment D.left_since dev.old dev.new
        (KeepsWhere (D.candidate dev.old) (IsOutsideAll (bytes_of pages.now))) }
    ensures candidates { D.honest dev.old → (m : ℕ) (c : List ℕ)
        → IsOutsideAll (bytes_of pages.now) m → D.candidate dev.new m c → D.candidate dev.old m c }
    ensures others { D.honest dev.old
        → OnOk result ((m : ℕ) → IsOutsideAll (bytes_of pages.now) m
        → D.seen dev.new m ≡ D.seen dev.old m) }
    ensures written { D.honest dev.old
        → OnOk result ((n : ℕ) → page_at (D.seen dev.new) n
        ≡ overlaid (bytes_of pages.now) (page_at (D.seen dev.old)) n) }
    ensures device { IsDeviceCall D.SectorDev dev.old dev.new result }
{
    write_homes_but(dev, pages, &[])
}
