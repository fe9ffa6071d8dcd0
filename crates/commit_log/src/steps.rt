// A commit over a logged one.
ghost use Rattle.std.specs.Prelude.{◌≡◌, ◌≤◌, ◌<◌, ◌+◌, ◌*◌, ◌^◌, ℕ, length, true, false, OnOk, slice_index_or, []};
ghost use Rattle.sect_dev.specs.Device.{LeavesOnly, IsStable, part_of};
ghost use Rattle.page_model.specs.Bytes.{u32_at};
ghost use Rattle.page_io.specs.Calls.{IsDeviceCall};
ghost use Rattle.page_io.specs.Page.{page_at, own_number, KeepsWhere};
ghost use Rattle.page_io.specs.Store.{file_of, file_pages, overlaid, are_in_order, has_page, bytes_of, IsEither};
ghost use Rattle.commit_log.specs.Log.{settled_at, IsLogged, Spells, IsBesideLog};

use crate::homes::write_homes_but;
use crate::spelling::spell;
use page_io::Page;
use sect_dev::{DevFault, SectorDev};

// A commit over a logged one, with one sync: its log, spelled by these bytes, is written over the
// older one of the two, and the pages of the logged commit that wait are written home, but for those that this one has too.
fn log_over<D: SectorDev>(
    dev: &mut D,
    start: u32,
    number: u32,
    at: u32,
    beside: u32,
    old_end: u32,
    waiting: &[Page],
    new_end: u32,
    pages: &[Page],
    bytes: &[u8],
) -> Result<(), DevFault>
    requires logged { D.honest dev.old
        → IsLogged old_end start number at beside (bytes_of waiting.now) (D.candidate dev.old)
        (D.seen dev.old) }
    requires rising { are_in_order 1 old_end (bytes_of waiting.now) ≡ true }
    requires above { old_end ≤ start }
    requires room { 4 * start + 128 ≤ D.sectors dev.old }
    requires place { beside ≤ 4 * start + 64 }
    requires some { 1 ≤ length pages.now }
    requires in_order { are_in_order 1 new_end (bytes_of pages.now) ≡ true }
    requires least { 4 ≤ new_end }
    requires new { new_end ≤ start }
    requires spelled { Spells start (number + 1) new_end (bytes_of pages.now) bytes.now }
    requires long { length bytes.now ≡ 512 * (1 + 4 * length pages.now) }

    // Every image of every moment since the start settles to the old pages, those that waited among
    // them, or to the new; and the commit sector is as it was.
    ensures any_moment { D.honest dev.old → LeavesOnly D.moment D.left_since dev.old dev.new
        (λ image. IsEither
        (file_pages (overlaid (bytes_of waiting.now) (page_at (D.seen dev.old))) old_end)
        (file_pages (overlaid (bytes_of pages.now)
        (overlaid (bytes_of waiting.now) (page_at (D.seen dev.old)))) new_end)
        (settled_at image start) × (image 0 ≡ D.seen dev.old 0)) }
    ensures logged { D.honest dev.old
        → OnOk result (IsLogged new_end start (number + 1) beside at (bytes_of pages.now)
        (D.candidate dev.new) (D.seen dev.new)) }
    ensures sector { D.honest dev.old → OnOk result (D.seen dev.new 0 ≡ D.seen dev.old 0) }
    ensures pages { D.honest dev.old
        → OnOk result ((n : ℕ) → n < start → has_page (bytes_of pages.now) n ≡ false
        → page_at (D.seen dev.new) n
        ≡ overlaid (bytes_of waiting.now) (page_at (D.seen dev.old)) n) }
    ensures device { IsDeviceCall D.SectorDev dev.old dev.new result }
{
    dev.write_run(beside, bytes)?;
    write_homes_but(dev, waiting, pages)?;
    dev.sync()
}

// A log begins with this commit, which these bytes spell in the first slot, with nothing behind it;
// the second slot is made empty, and pages that wait since another commit are written home, but for
// those that this one has too. The commit sector is to name the log then.
fn begin_log<D: SectorDev>(
    dev: &mut D,
    start: u32,
    waiting: &[Page],
    new_end: u32,
    pages: &[Page],
    bytes: &[u8; 31232],
) -> Result<(), DevFault>
    requires homes { (k : ℕ) → k < length waiting.now
        → own_number (slice_index_or (bytes_of waiting.now) k []) < start }
    requires room { 4 * start + 128 ≤ D.sectors dev.old }
    requires in_order { are_in_order 1 new_end (bytes_of pages.now) ≡ true }
    requires least { 4 ≤ new_end }
    requires new { new_end ≤ start }
    requires spelled { Spells start 1 new_end (bytes_of pages.now) bytes.now }
    requires alone { (k : ℕ) → k < 61 → u32_at (part_of bytes.now k) 0 ≤ 1 }

    // A stop leaves each sector a content that it could have before, outside the log and the pages
    // that wait.
    ensures any_moment { D.honest dev.old
        → LeavesOnly D.moment D.left_since dev.old dev.new
        (KeepsWhere (D.candidate dev.old) (IsBesideLog start (bytes_of waiting.now))) }
    ensures others { D.honest dev.old
        → OnOk result ((m : ℕ) → IsBesideLog start (bytes_of waiting.now) m
        → D.seen dev.new m ≡ D.seen dev.old m) }
    ensures logged { D.honest dev.old
        → OnOk result (IsLogged new_end start 1 (4 * start) (4 * start + 64) (bytes_of pages.now)
        (D.candidate dev.new) (D.seen dev.new)) }
    ensures pages { D.honest dev.old
        → OnOk result ((n : ℕ) → n < start → has_page (bytes_of pages.now) n ≡ false
        → page_at (D.seen dev.new) n
        ≡ overlaid (bytes_of waiting.now) (page_at (D.seen dev.old)) n) }
    ensures device { IsDeviceCall D.SectorDev dev.old dev.new result }
{
    dev.write_run(4 * start, bytes)?;
    dev.write_run(4 * start + 64, &[0; 31232])?;
    write_homes_but(dev, waiting, pages)?;
    dev.sync()
}

/// A commit over a logged one, with one sync: its log is written over the older one of the two, and
/// the pages of the logged commit that wait are written home, but for those that this one has too.
pub fn log_next<D: SectorDev>(
    dev: &mut D,
    start: u32,
    number: u32,
    at: u32,
    beside: u32,
    old_end: u32,
    waiting: &[Page],
    new_end: u32,
    pages: &[Page],
) -> Result<(), DevFault>
    requires logged { D.honest dev.old
        → IsLogged old_end start number at beside (bytes_of waiting.now) (D.candidate dev.old)
        (D.seen dev.old) }
    requires rising { are_in_order 1 old_end (bytes_of waiting.now) ≡ true }
    requires above { old_end ≤ start }
    requires room { 4 * start + 128 ≤ D.sectors dev.old }
    requires place { beside ≤ 4 * start + 64 }
    requires more { number + 1 < 2 ^ 32 }
    requires some { 1 ≤ length pages.now }
    requires few { length pages.now ≤ 15 }
    requires in_order { are_in_order 1 new_end (bytes_of pages.now) ≡ true }
    requires least { 4 ≤ new_end }
    requires new { new_end ≤ start }

    // Every image of every moment since the start settles to the old pages, those that waited among
    // them, or to the new; and the commit sector is as it was.
    ensures any_moment { D.honest dev.old → LeavesOnly D.moment D.left_since dev.old dev.new
        (λ image. IsEither
        (file_pages (overlaid (bytes_of waiting.now) (page_at (D.seen dev.old))) old_end)
        (file_pages (overlaid (bytes_of pages.now)
        (overlaid (bytes_of waiting.now) (page_at (D.seen dev.old)))) new_end)
        (settled_at image start) × (image 0 ≡ D.seen dev.old 0)) }
    ensures logged { D.honest dev.old
        → OnOk result (IsLogged new_end start (number + 1) beside at (bytes_of pages.now)
        (D.candidate dev.new) (D.seen dev.new)) }
    ensures sector { D.honest dev.old → OnOk result (D.seen dev.new 0 ≡ D.seen dev.old 0) }
    ensures pages { D.honest dev.old
        → OnOk result ((n : ℕ) → n < start → has_page (bytes_of pages.now) n ≡ false
        → page_at (D.seen dev.new) n
        ≡ overlaid (bytes_of waiting.now) (page_at (D.seen dev.old)) n) }
    ensures device { IsDeviceCall D.SectorDev dev.old dev.new result }
{
    let mut bytes = [0; 31232];
    spell(&mut bytes, start, number + 1, new_end, pages);
    let long = 512 * (1 + 4 * pages.len());
    log_over(
        dev,
        start,
        number,
        at,
        beside,
        old_end,
        waiting,
        new_end,
        pages,
        &bytes[..long],
    )
}

/// A log begins with this commit, in the first slot of two; pages that wait since another commit
/// are written home, but for those that this one has too. The commit sector is to name the log then.
pub fn log_first<D: SectorDev>(
    dev: &mut D,
    start: u32,
    waiting: &[Page],
    new_end: u32,
    pages: &[Page],
) -> Result<(), DevFault>
    requires homes { (k : ℕ) → k < length waiting.now
        → own_number (slice_index_or (bytes_of waiting.now) k []) < start }
    requires room { 4 * start + 128 ≤ D.sectors dev.old }
    requires some { 1 ≤ length pages.now }
    requires few { length pages.now ≤ 15 }
    requires in_order { are_in_order 1 new_end (bytes_of pages.now) ≡ true }
    requires least { 4 ≤ new_end }
    requires new { new_end ≤ start }

    // A stop leaves each sector a content that it could have before, outside the log and the pages
    // that wait.
    ensures any_moment { D.honest dev.old
        → LeavesOnly D.moment D.left_since dev.old dev.new
        (KeepsWhere (D.candidate dev.old) (IsBesideLog start (bytes_of waiting.now))) }
    ensures others { D.honest dev.old
        → OnOk result ((m : ℕ) → IsBesideLog start (bytes_of waiting.now) m
        → D.seen dev.new m ≡ D.seen dev.old m) }
    ensures logged { D.honest dev.old
        → OnOk result (IsLogged new_end start 1 (4 * start) (4 * start + 64) (bytes_of pages.now)
        (D.candidate dev.new) (D.seen dev.new)) }
    ensures pages { D.honest dev.old
        → OnOk result ((n : ℕ) → n < start → has_page (bytes_of pages.now) n ≡ false
        → page_at (D.seen dev.new) n
        ≡ overlaid (bytes_of waiting.now) (page_at (D.seen dev.old)) n) }
    ensures device { IsDeviceCall D.SectorDev dev.old dev.new result }
{
    let mut bytes = [0; 31232];
    spell(&mut bytes, start, 1, new_end, pages);
    begin_log(dev, start, waiting, new_end, pages, &bytes)
}
