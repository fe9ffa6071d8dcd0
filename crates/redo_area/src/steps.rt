// The steps of a commit.
ghost use Rattle.std.specs.Prelude.{◌≡◌, ◌≤◌, ◌<◌, ◌+◌, ◌*◌, ◌/◌, ◌^◌, ℕ, List, length, max, true, false, OnOk, slice_index_or, []};
ghost use Rattle.sect_dev.specs.Device.{IsImageOf, IsStable, with_sector, with_candidate, LeavesOnly};
ghost use Rattle.page_io.specs.Calls.{IsDeviceCall};
ghost use Rattle.page_io.specs.Page.{page_at, own_number, IsOutside, KeepsWhere};
ghost use Rattle.page_io.specs.Store.{file_of, pages_from, file_pages, overlaid, are_in_order, has_page, bytes_of, IsEither};
ghost use Rattle.redo_area.specs.Header.{kind_of};
ghost use Rattle.redo_area.specs.File.{settled, IsOutsideAll, IsAtRest, IsArmed, HoldsWaiting};
ghost use Rattle.redo_area.specs.Arming.{IsCommit, HasRoomAt};

use crate::area::RedoArea;
use crate::header::{CommitKind, armed_sector, clear_sector};
use commit_log::{write_homes, write_homes_but};
use page_io::{Page, write_page};
use sect_dev::{DevFault, SectorDev};

/// Writes pages in a row.
fn write_images<D: SectorDev>(dev: &mut D, start: u32, pages: &[Page]) -> Result<(), DevFault>
    requires { 4 * (start + length pages.now) ≤ D.sectors dev.old }
    ensures any_moment { D.honest dev.old
        → LeavesOnly D.moment D.left_since dev.old dev.new
        (KeepsWhere (D.candidate dev.old)
        (IsOutside (4 * start) (4 * (start + length pages.now)))) }
    ensures candidates { D.honest dev.old → (m : ℕ) (c : List ℕ)
        → IsOutside (4 * start) (4 * (start + length pages.now)) m
        → D.candidate dev.new m c → D.candidate dev.old m c }
    ensures others { D.honest dev.old
        → OnOk result ((m : ℕ) → IsOutside (4 * start) (4 * (start + length pages.now)) m
        → D.seen dev.new m ≡ D.seen dev.old m) }
    ensures written { D.honest dev.old
        → OnOk result (pages_from (page_at (D.seen dev.new)) start (length pages.now)
        ≡ bytes_of pages.now) }
    ensures device { IsDeviceCall D.SectorDev dev.old dev.new result }
{
    let mut n = start;
    for page in pages {
        write_page(dev, n, page)?;
        n += 1;
    }
    Ok(())
}

/// Writes the commit sector, and syncs.
pub fn put_header<D: SectorDev>(dev: &mut D, content: &[u8; 512]) -> Result<(), DevFault>
    requires { 0 < D.sectors dev.old }
    ensures any_moment { D.honest dev.old → LeavesOnly D.moment D.left_since dev.old dev.new
        (IsImageOf (with_candidate (D.candidate dev.old) 0 content.now)) }
    ensures seen { D.honest dev.old
        → OnOk result (D.seen dev.new ≡ with_sector (D.seen dev.old) 0 content.now) }
    ensures stable { D.honest dev.old
        → OnOk result (IsStable (D.candidate dev.new) (D.seen dev.new)) }
    ensures device { IsDeviceCall D.SectorDev dev.old dev.new result }
{
    dev.write(0, content)?;
    dev.sync()
}

/// Step 1: the pages are on the disk in a row.
pub fn put_images<D: SectorDev>(dev: &mut D, start: u32, pages: &[Page]) -> Result<(), DevFault>
    requires { 4 * (start + length pages.now) ≤ D.sectors dev.old }
    ensures any_moment { D.honest dev.old
        → LeavesOnly D.moment D.left_since dev.old dev.new
        (KeepsWhere (D.candidate dev.old) (λ m. m < 4 * start)) }
    ensures others { D.honest dev.old
        → OnOk result ((m : ℕ) → m < 4 * start → D.seen dev.new m ≡ D.seen dev.old m) }
    ensures written { D.honest dev.old
        → OnOk result (pages_from (page_at (D.seen dev.new)) start (length pages.now)
        ≡ bytes_of pages.now) }
    ensures stable { D.honest dev.old
        → OnOk result (IsStable (D.candidate dev.new) (D.seen dev.new)) }
    ensures device { IsDeviceCall D.SectorDev dev.old dev.new result }
{
    write_images(dev, start, pages)?;
    dev.sync()
}

/// Step 3: the pages are on the disk at their own numbers.
fn put_homes<D: SectorDev>(dev: &mut D, pages: &[Page]) -> Result<(), DevFault>
    requires { (k : ℕ) → k < length pages.now
        → 4 * own_number (slice_index_or (bytes_of pages.now) k []) + 4 ≤ D.sectors dev.old }
    ensures any_moment { D.honest dev.old
        → LeavesOnly D.moment D.left_since dev.old dev.new
        (KeepsWhere (D.candidate dev.old) (IsOutsideAll (bytes_of pages.now))) }
    ensures others { D.honest dev.old
        → OnOk result ((m : ℕ) → IsOutsideAll (bytes_of pages.now) m
        → D.seen dev.new m ≡ D.seen dev.old m) }
    ensures written { D.honest dev.old
        → OnOk result ((n : ℕ) → page_at (D.seen dev.new) n
        ≡ overlaid (bytes_of pages.now) (page_at (D.seen dev.old)) n) }
    ensures stable { D.honest dev.old
        → OnOk result (IsStable (D.candidate dev.new) (D.seen dev.new)) }
    ensures device { IsDeviceCall D.SectorDev dev.old dev.new result }
{
    write_homes(dev, pages)?;
    dev.sync()
}

/// The same of pages of which newer ones wait: those that these have too stay as they are, since the
/// redo images of the newer ones stand over them, and those of the older ones until then.
fn put_homes_but<D: SectorDev>(dev: &mut D, pages: &[Page], newer: &[Page]) -> Result<(), DevFault>
    requires room { (k : ℕ) → k < length pages.now
        → 4 * own_number (slice_index_or (bytes_of pages.now) k []) + 4 ≤ D.sectors dev.old }
    requires order { are_in_order 1 (2 ^ 32) (bytes_of newer.now) ≡ true }
    ensures any_moment { D.honest dev.old
        → LeavesOnly D.moment D.left_since dev.old dev.new
        (KeepsWhere (D.candidate dev.old) (IsOutsideAll (bytes_of pages.now))) }
    ensures others { D.honest dev.old
        → OnOk result ((m : ℕ) → IsOutsideAll (bytes_of pages.now) m
        → D.seen dev.new m ≡ D.seen dev.old m) }
    ensures written { D.honest dev.old
        → OnOk result ((n : ℕ) → has_page (bytes_of newer.now) n ≡ false
        → page_at (D.seen dev.new) n
        ≡ overlaid (bytes_of pages.now) (page_at (D.seen dev.old)) n) }
    ensures stable { D.honest dev.old
        → OnOk result (IsStable (D.candidate dev.new) (D.seen dev.new)) }
    ensures device { IsDeviceCall D.SectorDev dev.old dev.new result }
{
    write_homes_but(dev, pages, newer)?;
    dev.sync()
}

/// Steps 1 and 2: the pages are on the disk as redo images, and the commit sector is armed over
/// them. From here on a stop leaves the new pages.
pub fn arm<D: SectorDev>(
    dev: &mut D,
    kind: CommitKind,
    start: u32,
    old_end: u32,
    new_end: u32,
    pages: &[Page],
) -> Result<(), DevFault>
    requires rest { D.honest dev.old
        → IsAtRest (D.sectors dev.old / 4) old_end (D.candidate dev.old) (D.seen dev.old) }
    requires pages { IsCommit new_end pages.now }
    requires old { old_end ≤ start }
    requires new { new_end ≤ start }
    requires room { start + length pages.now ≤ D.sectors dev.old / 4 }

    // Every image of every moment since the start settles to the old pages or to the new.
    ensures any_moment { D.honest dev.old → LeavesOnly D.moment D.left_since dev.old dev.new
        (λ image. IsEither (file_pages (page_at (D.seen dev.old)) old_end)
        (file_pages (overlaid (bytes_of pages.now) (page_at (D.seen dev.old))) new_end)
        (settled (D.sectors dev.old / 4) image)) }
    ensures armed { D.honest dev.old
        → OnOk result (IsArmed (D.sectors dev.old / 4) new_end start (bytes_of pages.now)
        (D.candidate dev.new) (D.seen dev.new)) }
    ensures pages { D.honest dev.old
        → OnOk result ((m : ℕ) → 0 < m → m < 4 * start → D.seen dev.new m ≡ D.seen dev.old m) }
    ensures kind { D.honest dev.old
        → OnOk result (kind_of (D.seen dev.new 0) ≡ kind) }
    ensures device { IsDeviceCall D.SectorDev dev.old dev.new result }
{
    let count = pages.len() as u32;
    put_images(dev, start, pages)?;
    put_header(dev, &armed_sector(kind, new_end, start, count))?;
    Ok(())
}

/// Steps 3 and 4: the pages are on the disk at their own numbers, and the commit sector is clear.
pub fn disarm<D: SectorDev>(
    dev: &mut D,
    area: RedoArea,
    end: u32,
    pages: &[Page],
) -> Result<(), DevFault>
    requires held { D.honest dev.old
        → HoldsWaiting (D.sectors dev.old / 4) end area.start area.held (bytes_of pages.now)
        (D.candidate dev.old) (D.seen dev.old) }
    requires least { 4 ≤ end }
    requires room { end ≤ D.sectors dev.old / 4 }
    requires in_order { are_in_order 1 end (bytes_of pages.now) ≡ true }

    // Every image of every moment since the start settles to the same pages.
    ensures any_moment { D.honest dev.old → LeavesOnly D.moment D.left_since dev.old dev.new
        (λ image. settled (D.sectors dev.old / 4) image
        ≡ file_of (file_pages (overlaid (bytes_of pages.now) (page_at (D.seen dev.old)))
        end)) }
    ensures rest { D.honest dev.old
        → OnOk result (IsAtRest (D.sectors dev.old / 4) end (D.candidate dev.new)
        (D.seen dev.new)) }
    ensures pages { D.honest dev.old
        → OnOk result (file_pages (page_at (D.seen dev.new)) end
        ≡ file_pages (overlaid (bytes_of pages.now) (page_at (D.seen dev.old))) end) }
    ensures kind { D.honest dev.old
        → OnOk result (kind_of (D.seen dev.new 0) ≡ area.kind) }
    ensures device { IsDeviceCall D.SectorDev dev.old dev.new result }
{
    put_homes(dev, pages)?;
    put_header(dev, &clear_sector(area.kind, end))?;
    Ok(())
}

/// Steps 3 and 1 with one sync, then step 2: the pages that wait since the last commit are on the
/// disk at their own numbers, but for those that the next one has too; the pages of the next one are
/// there as redo images beside theirs, and the commit sector is armed over the new images.
pub fn arm_next<D: SectorDev>(
    dev: &mut D,
    area: RedoArea,
    old_end: u32,
    waiting: &[Page],
    place: u32,
    new_end: u32,
    pages: &[Page],
) -> Result<(), DevFault>
    requires held { D.honest dev.old
        → HoldsWaiting (D.sectors dev.old / 4) old_end area.start area.held (bytes_of waiting.now)
        (D.candidate dev.old) (D.seen dev.old) }
    requires rising { are_in_order 1 old_end (bytes_of waiting.now) ≡ true }
    requires pages { IsCommit new_end pages.now }
    requires place { HasRoomAt (max old_end new_end) (length pages.now) area.start area.held
        (D.sectors dev.old / 4) place }

    // Every image of every moment since the start settles to the old pages, those that waited among
    // them, or to the new.
    ensures any_moment { D.honest dev.old → LeavesOnly D.moment D.left_since dev.old dev.new
        (λ image. IsEither
        (file_pages (overlaid (bytes_of waiting.now) (page_at (D.seen dev.old))) old_end)
        (file_pages (overlaid (bytes_of pages.now)
        (overlaid (bytes_of waiting.now) (page_at (D.seen dev.old)))) new_end)
        (settled (D.sectors dev.old / 4) image)) }
    ensures armed { D.honest dev.old
        → OnOk result (IsArmed (D.sectors dev.old / 4) new_end place (bytes_of pages.now)
        (D.candidate dev.new) (D.seen dev.new)) }
    ensures pages { D.honest dev.old
        → OnOk result ((n : ℕ) → 0 < n → n < place → has_page (bytes_of pages.now) n ≡ false
        → page_at (D.seen dev.new) n
        ≡ overlaid (bytes_of waiting.now) (page_at (D.seen dev.old)) n) }
    ensures kind { D.honest dev.old
        → OnOk result (kind_of (D.seen dev.new 0) ≡ area.kind) }
    ensures device { IsDeviceCall D.SectorDev dev.old dev.new result }
{
    let count = pages.len() as u32;
    write_images(dev, place, pages)?;
    put_homes_but(dev, waiting, pages)?;
    put_header(dev, &armed_sector(area.kind, new_end, place, count))?;
    Ok(())
}

/// Steps 1 and 2 of a commit with new pages, which are those from the old end on. They are on the
/// disk at their own numbers, where nothing stood, so they need no redo image; the others are there
/// as redo images from the new end on, and the commit sector is armed over these.
pub fn arm_grown<D: SectorDev>(
    dev: &mut D,
    kind: CommitKind,
    old_end: u32,
    new_end: u32,
    changed: &[Page],
    new: &[Page],
) -> Result<(), DevFault>
    requires rest { D.honest dev.old
        → IsAtRest (D.sectors dev.old / 4) old_end (D.candidate dev.old) (D.seen dev.old) }
    requires changed { IsCommit old_end changed.now }
    requires grown { old_end ≤ new_end }
    requires room { new_end + length changed.now ≤ D.sectors dev.old / 4 }
    requires new { are_in_order old_end new_end (bytes_of new.now) ≡ true }

    // Every image of every moment since the start settles to the old pages or to the new.
    ensures any_moment { D.honest dev.old → LeavesOnly D.moment D.left_since dev.old dev.new
        (λ image. IsEither (file_pages (page_at (D.seen dev.old)) old_end)
        (file_pages (overlaid (bytes_of changed.now)
        (overlaid (bytes_of new.now) (page_at (D.seen dev.old)))) new_end)
        (settled (D.sectors dev.old / 4) image)) }
    ensures armed { D.honest dev.old
        → OnOk result (IsArmed (D.sectors dev.old / 4) new_end new_end (bytes_of changed.now)
        (D.candidate dev.new) (D.seen dev.new)) }
    ensures pages { D.honest dev.old
        → OnOk result ((n : ℕ) → 0 < n → n < new_end → page_at (D.seen dev.new) n
        ≡ overlaid (bytes_of new.now) (page_at (D.seen dev.old)) n) }
    ensures kind { D.honest dev.old
        → OnOk result (kind_of (D.seen dev.new 0) ≡ kind) }
    ensures device { IsDeviceCall D.SectorDev dev.old dev.new result }
{
    let count = changed.len() as u32;
    write_homes(dev, new)?;
    put_images(dev, new_end, changed)?;
    put_header(dev, &armed_sector(kind, new_end, new_end, count))?;
    Ok(())
}
