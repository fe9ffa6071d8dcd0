// A log that is written once more as it is.
ghost use Rattle.std.specs.Prelude.{◌≡◌, ◌≤◌, ◌<◌, ◌+◌, ◌*◌, ◌^◌, ℕ, true, length, take, slice_index_or, [], IfOk};
ghost use Rattle.sect_dev.specs.Device.{IsImageOf, LeavesOnly, NoNewCandidate};
ghost use Rattle.page_io.specs.Calls.{IsDeviceCall};
ghost use Rattle.page_io.specs.Page.{own_number};
ghost use Rattle.page_io.specs.Store.{are_in_order, bytes_of};

use crate::finding::{FoundLog, find_log};
use page_io::{Page, is_among};
use sect_dev::{DevFault, SectorDev};

// Has the next sync write sectors of a slot once more, as many as its commit has, with the bytes that
// a read gives. It answers that commit.
fn write_slot_back<D: SectorDev>(dev: &mut D, start: u32, at: u32) -> Result<FoundLog, DevFault>
    requires { at + 61 ≤ D.sectors dev.old }
    ensures any_moment { D.honest dev.old
        → LeavesOnly D.moment D.left_since dev.old dev.new (IsImageOf (D.candidate dev.old)) }
    ensures candidates { D.honest dev.old
        → NoNewCandidate (D.candidate dev.old) (D.candidate dev.new) }
    ensures few { IfOk result (λ found. found.count ≤ 15) }
    ensures rising { IfOk result (λ found.
        are_in_order 1 found.end (bytes_of (take found.count found.pages)) ≡ true) }
    ensures above { IfOk result (λ found. found.end ≤ start) }
    ensures device { IsDeviceCall D.SectorDev dev.old dev.new result }
{
    let mut bytes = [0; 31232];
    dev.read_run(at, &mut bytes)?;
    let found = find_log(start, &bytes);
    dev.write_run(at, &bytes[..512 * (1 + 4 * found.count)])?;
    Ok(found)
}

// Has the next sync write a page once more, with the bytes that a read gives.
fn write_page_back<D: SectorDev>(dev: &mut D, n: u32) -> Result<(), DevFault>
    requires { 4 * n + 4 ≤ D.sectors dev.old }
    ensures any_moment { D.honest dev.old
        → LeavesOnly D.moment D.left_since dev.old dev.new (IsImageOf (D.candidate dev.old)) }
    ensures candidates { D.honest dev.old
        → NoNewCandidate (D.candidate dev.old) (D.candidate dev.new) }
    ensures device { IsDeviceCall D.SectorDev dev.old dev.new result }
{
    let mut bytes = [0; 2048];
    dev.read_run(4 * n, &mut bytes)?;
    dev.write_run(4 * n, &bytes)
}

// The same of the pages at home that these name and no newer one does.
fn write_homes_back<D: SectorDev>(
    dev: &mut D,
    pages: &[Page],
    newer: &[Page],
) -> Result<(), DevFault>
    requires room { (k : ℕ) → k < length pages.now
        → 4 * own_number (slice_index_or (bytes_of pages.now) k []) + 4 ≤ D.sectors dev.old }
    requires order { are_in_order 1 (2 ^ 32) (bytes_of newer.now) ≡ true }
    ensures any_moment { D.honest dev.old
        → LeavesOnly D.moment D.left_since dev.old dev.new (IsImageOf (D.candidate dev.old)) }
    ensures candidates { D.honest dev.old
        → NoNewCandidate (D.candidate dev.old) (D.candidate dev.new) }
    ensures device { IsDeviceCall D.SectorDev dev.old dev.new result }
{
    for page in pages {
        let own = page.own();
        if !is_among(newer, own) {
            write_page_back(dev, own)?;
        }
    }
    Ok(())
}

/// Has the next sync write both slots of a log once more, as far as their commits go, and the pages
/// at home of the older commit that the newer one has not, each with the bytes that a read gives.
pub fn write_log_back<D: SectorDev>(dev: &mut D, start: u32) -> Result<(), DevFault>
    requires { 4 * start + 128 ≤ D.sectors dev.old }
    ensures any_moment { D.honest dev.old
        → LeavesOnly D.moment D.left_since dev.old dev.new (IsImageOf (D.candidate dev.old)) }
    ensures candidates { D.honest dev.old
        → NoNewCandidate (D.candidate dev.old) (D.candidate dev.new) }
    ensures device { IsDeviceCall D.SectorDev dev.old dev.new result }
{
    let first = write_slot_back(dev, start, 4 * start)?;
    let second = write_slot_back(dev, start, 4 * start + 64)?;
    let first_pages = &first.pages[..first.count];
    let second_pages = &second.pages[..second.count];
    if second.number < first.number {
        return write_homes_back(dev, second_pages, first_pages);
    }
    write_homes_back(dev, first_pages, second_pages)
}
