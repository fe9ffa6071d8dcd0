// A commit, by a log or by redo images.
ghost use Rattle.std.specs.Prelude.{◌≡◌, ◌≤◌, ◌<◌, ◌+◌, ◌/◌, ℕ, true, length, take, max, IfOk, IfSome};
ghost use Rattle.sect_dev.specs.Device.{LeavesOnly};
ghost use Rattle.page_io.specs.Calls.{IsDeviceCall};
ghost use Rattle.page_io.specs.Page.{page_at};
ghost use Rattle.page_io.specs.Store.{bytes_of, file_pages, overlaid, has_page, committed_with, IsEither};
ghost use Rattle.redo_area.specs.File.{settled};
ghost use Rattle.redo_area.specs.Settling.{SettlesToPages};
ghost use Rattle.redo_area.specs.Arming.{IsCommit, IsWaiting, HasRoomAt, IsPlaced};
ghost use Rattle.redo_area.specs.Ways.{IsWay};

use crate::area::{LOG_PAGES, LogPlace, RedoArea};
use crate::arming::{arm_over, room_beside};
use crate::header::CommitKind;
use crate::logging::{arm_log, log_on};
use page_io::Page;
use sect_dev::{DevFault, SectorDev};

// The most pages that a commit in a log has.
const MOST_LOGGED: usize = 15;

// So many pages at least are left between the end and a log, into which the file grows.
const LEAST_SLACK: u32 = 64;

/// How a commit is made.
#[derive(Clone, Copy)]
pub enum Way {
    /// Over this one in the log that the commit sector names, with one sync.
    Next(LogPlace),
    /// As the first one of a log from this page on, with two.
    First(u32),
    /// By redo images, with two syncs, or with four.
    Images,
}

// The page where a log may begin that the end of the file doesn't reach soon, or at all.
fn place_of_log(least: u32, area: RedoArea, capacity: u32) -> Option<u32>
    requires within { area.start ≤ capacity }
    ensures room { IfSome result (HasRoomAt least 32 area.start area.held capacity) }
{
    let slack = LEAST_SLACK.max(least / 8);
    match room_beside(least.saturating_add(slack), LOG_PAGES, area, capacity) {
        Some(place) => Some(place),
        None => room_beside(least, LOG_PAGES, area, capacity),
    }
}

// How a commit of so many pages is made.
fn way_of(area: RedoArea, old_end: u32, new_end: u32, count: usize, capacity: u32) -> Way
    requires within { area.start ≤ capacity }
    ensures way { IsWay area (max old_end new_end) new_end count capacity result }
{
    if area.kind == CommitKind::Images || count > MOST_LOGGED {
        return Way::Images;
    }
    if let Some(log) = area.log {
        if new_end <= area.start && log.number < u32::MAX {
            return Way::Next(log);
        }
    }
    match place_of_log(old_end.max(new_end), area, capacity) {
        Some(place) => Way::First(place),
        None => Way::Images,
    }
}

/// A commit that was made.
#[derive(Clone, Copy)]
pub struct Committed {
    /// The redo area that holds it.
    pub area: RedoArea,
    /// How many of its pages wait: all, or those of them that are not new.
    pub waiting: usize,
}

/// Makes a commit. Pages of the last one that still wait are brought home. A file whose commits may
/// be in a log has those of 15 pages or fewer there.
pub fn commit_over<D: SectorDev>(
    dev: &mut D,
    area: RedoArea,
    old_end: u32,
    waiting: &[Page],
    new_end: u32,
    pages: &[Page],
) -> Result<Committed, DevFault>
    requires waiting { IsWaiting D.SectorDev dev.old old_end area (bytes_of waiting.now) }
    requires pages { IsCommit new_end pages.now }
    requires room { max old_end new_end + length pages.now ≤ D.sectors dev.old / 4 }
    requires grown { (n : ℕ) → old_end ≤ n → n < new_end → has_page (bytes_of pages.now) n ≡ true }

    // Every image of every moment since the start settles to the old pages, those that waited among
    // them, or to the new.
    ensures any_moment { D.honest dev.old
        → let before = file_pages (overlaid (bytes_of waiting.now) (page_at (D.seen dev.old)))
        old_end in
        LeavesOnly D.moment D.left_since dev.old dev.new
        (λ image. IsEither before (committed_with before (bytes_of pages.now) new_end)
        (settled (D.sectors dev.old / 4) image)) }
    ensures settles { D.honest dev.old → IfOk result (λ done.
        SettlesToPages true (D.sectors dev.old / 4) new_end done.area
        (bytes_of (take done.waiting pages.now)) (D.candidate dev.new) (D.seen dev.new)) }

    // The pages that wait over what the device shows are the new pages.
    ensures pages { D.honest dev.old → IfOk result (λ done.
        file_pages (overlaid (bytes_of (take done.waiting pages.now)) (page_at (D.seen dev.new)))
        new_end ≡ committed_with
        (file_pages (overlaid (bytes_of waiting.now) (page_at (D.seen dev.old))) old_end)
        (bytes_of pages.now) new_end) }
    ensures placed { IfOk result (λ done. IsPlaced (D.sectors dev.old / 4) new_end done.area) }
    ensures waiting { IfOk result (λ done. done.waiting ≤ length pages.now) }
    ensures kind { IfOk result (λ done. done.area.kind ≡ area.kind) }
    ensures device { IsDeviceCall D.SectorDev dev.old dev.new result }
{
    let capacity = dev.capacity() / 4;
    match way_of(area, old_end, new_end, pages.len(), capacity) {
        Way::Next(log) => {
            log_on(dev, area.start, log, old_end, waiting, new_end, pages)?;
            Ok(Committed {
                area: area.with_log(log.next()),
                waiting: pages.len(),
            })
        }
        Way::First(place) => {
            arm_log(dev, area, old_end, waiting, place, new_end, pages)?;
            Ok(Committed {
                area: RedoArea::of_log(place),
                waiting: pages.len(),
            })
        }
        Way::Images => {
            let armed = arm_over(dev, area, old_end, waiting, new_end, pages)?;
            Ok(Committed {
                area: RedoArea::of_images(area.kind, armed.place, armed.images),
                waiting: armed.images,
            })
        }
    }
}
