// Commits by a log, which the commit sector names.
ghost use Rattle.std.specs.Prelude.{◌≡◌, ◌≤◌, ◌<◌, ◌+◌, ◌*◌, ◌/◌, ◌^◌, ℕ, length, max, true, false, OnOk};
ghost use Rattle.sect_dev.specs.Device.{LeavesOnly};
ghost use Rattle.page_io.specs.Calls.{IsDeviceCall};
ghost use Rattle.page_io.specs.Page.{page_at};
ghost use Rattle.page_io.specs.Store.{file_pages, overlaid, are_in_order, has_page, bytes_of, IsEither};
ghost use Rattle.commit_log.specs.Log.{IsLogged};
ghost use Rattle.redo_area.specs.Header.{header_of, kind_of};
ghost use Rattle.redo_area.specs.declared.header.CommitKind.TheVariants.{Log};
ghost use Rattle.redo_area.specs.declared.header.Header.TheVariants.{Logging};
ghost use Rattle.redo_area.specs.File.{settled, HoldsWaiting};
ghost use Rattle.redo_area.specs.Arming.{IsCommit, HasRoomAt};

use crate::area::{LogPlace, RedoArea};
use crate::header::logging_sector;
use crate::steps::put_header;
use commit_log::{log_first, log_next};
use page_io::Page;
use sect_dev::{DevFault, SectorDev};

/// A log begins over pages that wait since the last commit, which redo images hold or another log:
/// with one sync they are on the disk at their own numbers, but for those that the new ones replace,
/// and the new ones in the log; then the commit sector names it.
pub fn arm_log<D: SectorDev>(
    dev: &mut D,
    area: RedoArea,
    old_end: u32,
    waiting: &[Page],
    place: u32,
    new_end: u32,
    pages: &[Page],
) -> Result<(), DevFault>
    requires held { D.honest dev.old
        → HoldsWaiting (D.sectors dev.old / 4) old_end area.start area.held (bytes_of waiting.now)
        (D.candidate dev.old) (D.seen dev.old) }
    requires rising { are_in_order 1 old_end (bytes_of waiting.now) ≡ true }
    requires pages { IsCommit new_end pages.now }
    requires few { length pages.now ≤ 15 }
    requires place { HasRoomAt (max old_end new_end) 32 area.start area.held
        (D.sectors dev.old / 4) place }

    // Every image of every moment since the start settles to the old pages, those that waited among
    // them, or to the new.
    ensures any_moment { D.honest dev.old → LeavesOnly D.moment D.left_since dev.old dev.new
        (λ image. IsEither
        (file_pages (overlaid (bytes_of waiting.now) (page_at (D.seen dev.old))) old_end)
        (file_pages (overlaid (bytes_of pages.now)
        (overlaid (bytes_of waiting.now) (page_at (D.seen dev.old)))) new_end)
        (settled (D.sectors dev.old / 4) image)) }
    ensures header { D.honest dev.old
        → OnOk result (header_of (D.sectors dev.old / 4) (D.seen dev.new 0) ≡ Logging place) }
    ensures logged { D.honest dev.old
        → OnOk result (IsLogged new_end place 1 (4 * place) (4 * place + 64) (bytes_of pages.now)
        (D.candidate dev.new) (D.seen dev.new)) }
    ensures pages { D.honest dev.old
        → OnOk result ((n : ℕ) → 0 < n → n < place → has_page (bytes_of pages.now) n ≡ false
        → page_at (D.seen dev.new) n
        ≡ overlaid (bytes_of waiting.now) (page_at (D.seen dev.old)) n) }
    ensures kind { D.honest dev.old
        → OnOk result (kind_of (D.seen dev.new 0) ≡ Log) }
    ensures device { IsDeviceCall D.SectorDev dev.old dev.new result }
{
    log_first(dev, place, waiting, new_end, pages)?;
    put_header(dev, &logging_sector(new_end, place))?;
    Ok(())
}

/// A commit over a logged one, with one sync.
pub fn log_on<D: SectorDev>(
    dev: &mut D,
    start: u32,
    log: LogPlace,
    old_end: u32,
    waiting: &[Page],
    new_end: u32,
    pages: &[Page],
) -> Result<(), DevFault>
    requires header { D.honest dev.old
        → header_of (D.sectors dev.old / 4) (D.seen dev.old 0) ≡ Logging start }
    requires logged { D.honest dev.old
        → IsLogged old_end start log.number log.at log.beside (bytes_of waiting.now)
        (D.candidate dev.old) (D.seen dev.old) }
    requires rising { are_in_order 1 old_end (bytes_of waiting.now) ≡ true }
    requires above { old_end ≤ start }
    requires room { start + 32 ≤ D.sectors dev.old / 4 }
    requires place { log.beside ≤ 4 * start + 64 }
    requires more { log.number + 1 < 2 ^ 32 }
    requires pages { IsCommit new_end pages.now }
    requires few { length pages.now ≤ 15 }
    requires new { new_end ≤ start }

    // Every image of every moment since the start settles to the old pages, those that waited among
    // them, or to the new.
    ensures any_moment { D.honest dev.old → LeavesOnly D.moment D.left_since dev.old dev.new
        (λ image. IsEither
        (file_pages (overlaid (bytes_of waiting.now) (page_at (D.seen dev.old))) old_end)
        (file_pages (overlaid (bytes_of pages.now)
        (overlaid (bytes_of waiting.now) (page_at (D.seen dev.old)))) new_end)
        (settled (D.sectors dev.old / 4) image)) }
    ensures header { D.honest dev.old
        → OnOk result (header_of (D.sectors dev.old / 4) (D.seen dev.new 0) ≡ Logging start) }
    ensures sector { D.honest dev.old → OnOk result (D.seen dev.new 0 ≡ D.seen dev.old 0) }
    ensures logged { D.honest dev.old
        → OnOk result (IsLogged new_end start (log.number + 1) log.beside log.at
        (bytes_of pages.now) (D.candidate dev.new) (D.seen dev.new)) }
    ensures pages { D.honest dev.old
        → OnOk result ((n : ℕ) → n < start → has_page (bytes_of pages.now) n ≡ false
        → page_at (D.seen dev.new) n
        ≡ overlaid (bytes_of waiting.now) (page_at (D.seen dev.old)) n) }
    ensures device { IsDeviceCall D.SectorDev dev.old dev.new result }
{
    log_next(
        dev, start, log.number, log.at, log.beside, old_end, waiting, new_end, pages,
    )
}
