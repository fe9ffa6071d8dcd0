// The first half of a commit, where pages of the last one may still wait.
ghost use Rattle.std.specs.Prelude.{◌≡◌, ◌≤◌, ◌<◌, ◌+◌, ◌-◌, ◌/◌, ℕ, true, length, take, max, OnOk, IfOk, IfSome, IfNone, IsTrue, IsFalse, slice_index_or, []};
ghost use Rattle.sect_dev.specs.Device.{LeavesOnly};
ghost use Rattle.page_io.specs.Calls.{IsDeviceCall};
ghost use Rattle.page_io.specs.Page.{page_at, own_number};
ghost use Rattle.page_io.specs.Store.{bytes_of, file_pages, overlaid, has_page, committed_with, IsEither};
ghost use Rattle.redo_area.specs.Header.{kind_of};
ghost use Rattle.redo_area.specs.File.{settled, IsArmed};
ghost use Rattle.redo_area.specs.Arming.{IsCommit, IsWaiting, HasRoomAt, IsBeside};

use crate::area::RedoArea;
use crate::settling::bring_home;
use crate::steps::{arm, arm_grown, arm_next};
use page_io::Page;
use sect_dev::{DevFault, SectorDev};

/// The first page from `least` on where `count` pages fit that meet none of those that hold what
/// waits.
pub fn room_beside(least: u32, count: usize, area: RedoArea, capacity: u32) -> Option<u32>
    requires some { 0 < count }
    requires within { area.start ≤ capacity }
    ensures some { IfSome result (HasRoomAt least count area.start area.held capacity) }
    ensures first { IfSome result (λ place. (other : ℕ)
        → HasRoomAt least count area.start area.held capacity other → place ≤ other) }
    ensures none { IfNone result ((other : ℕ)
        → HasRoomAt least count area.start area.held capacity other → ⊥) }
{
    if count <= area.start.saturating_sub(least) as usize {
        return Some(least);
    }
    if area.held > (capacity - area.start) as usize {
        return None;
    }
    let place = least.max(area.start + area.held as u32);
    if count > capacity.saturating_sub(place) as usize {
        return None;
    }
    Some(place)
}

/// The same where some page waits. There is none where no page waits.
pub fn place_beside(least: u32, count: usize, area: RedoArea, capacity: u32) -> Option<u32>
    requires some { 0 < count }
    requires within { area.start ≤ capacity }
    ensures some { IfSome result (IsBeside least count area.start area.held capacity) }
    ensures first { IfSome result (λ place. (other : ℕ)
        → IsBeside least count area.start area.held capacity other → place ≤ other) }
    ensures none { IfNone result ((other : ℕ)
        → IsBeside least count area.start area.held capacity other → ⊥) }
{
    if area.held == 0 {
        return None;
    }
    room_beside(least, count, area, capacity)
}

// So many new pages of a commit are written at their own numbers alone where no page waits.
const MANY: usize = 16;

// So many where pages wait, which are brought home before then, with two syncs more: 1 MB.
const MANY_WAITING: usize = 512;

// How many new pages a commit has at least that are written at their own numbers alone.
fn least_new(waiting: &[Page]) -> usize
    ensures { 0 < result }
{
    if waiting.is_empty() {
        MANY
    } else {
        MANY_WAITING
    }
}

// Whether the last of the first `count` pages is from the old end on.
fn is_new(pages: &[Page], count: usize, old_end: u32) -> bool
    requires { count ≤ length pages.now }
    ensures yes { IsTrue result → (0 < count)
        × (old_end ≤ own_number (slice_index_or (bytes_of pages.now) (count - 1) [])) }
    ensures no { IsFalse result → 0 < count
        → own_number (slice_index_or (bytes_of pages.now) (count - 1) []) < old_end }
{
    count > 0 && pages[count - 1].own() >= old_end
}

// How many pages stand in front of the new ones, which are those from the old end on.
fn changed_in(pages: &[Page], old_end: u32) -> usize
    ensures within { result ≤ length pages.now }
    ensures below { 0 < result
        → own_number (slice_index_or (bytes_of pages.now) (result - 1) []) < old_end }
    ensures from { (k : ℕ) → result ≤ k → k < length pages.now
        → old_end ≤ own_number (slice_index_or (bytes_of pages.now) k []) }
{
    let mut count = pages.len();
    while is_new(pages, count, old_end) {
        count -= 1;
    }
    count
}

/// Redo images that a commit sector is armed over.
#[derive(Clone, Copy)]
pub struct Armed {
    /// The page of the first one.
    pub place: u32,
    /// How many there are: the pages of the commit, or those of them that are not new.
    pub images: usize,
}

/// Arms the commit sector over redo images of these pages. Pages of the last commit that still wait
/// are brought home: while the images are written, where there is room for them beside those of the
/// last commit; else before. Where there are 16 new pages or more, and others, the new ones come to
/// their own numbers at once, and have no redo image. Where pages wait, this takes 512 new ones,
/// since those are brought home before.
pub fn arm_over<D: SectorDev>(
    dev: &mut D,
    area: RedoArea,
    old_end: u32,
    waiting: &[Page],
    new_end: u32,
    pages: &[Page],
) -> Result<Armed, DevFault>
    requires waiting { IsWaiting D.SectorDev dev.old old_end area (bytes_of waiting.now) }
    requires pages { IsCommit new_end pages.now }
    requires room { max old_end new_end + length pages.now ≤ D.sectors dev.old / 4 }
    requires grown { (n : ℕ) → old_end ≤ n → n < new_end → has_page (bytes_of pages.now) n ≡ true }

    // Every image of every moment since the start settles to the old pages, those that waited among
    // them, or to the new.
    ensures any_moment { D.honest dev.old
        → let before = file_pages (overlaid (bytes_of waiting.now) (page_at (D.seen dev.old)))
        old_end in
        LeavesOnly D.moment D.left_since dev.old dev.new
        (λ image. IsEither before (committed_with before (bytes_of pages.now) new_end)
        (settled (D.sectors dev.old / 4) image)) }
    ensures armed { D.honest dev.old → IfOk result (λ armed.
        IsArmed (D.sectors dev.old / 4) new_end armed.place
        (bytes_of (take armed.images pages.now)) (D.candidate dev.new) (D.seen dev.new)) }

    // The images over what the device shows are the new pages.
    ensures pages { D.honest dev.old → IfOk result (λ armed.
        file_pages (overlaid (bytes_of (take armed.images pages.now)) (page_at (D.seen dev.new)))
        new_end ≡ committed_with
        (file_pages (overlaid (bytes_of waiting.now) (page_at (D.seen dev.old))) old_end)
        (bytes_of pages.now) new_end) }
    ensures place { IfOk result (λ armed.
        (new_end ≤ armed.place) × (armed.place ≤ D.sectors dev.old / 4)) }
    ensures images { IfOk result (λ armed.
        (0 < armed.images) × (armed.images ≤ length pages.now)) }
    ensures kind { D.honest dev.old
        → OnOk result (kind_of (D.seen dev.new 0) ≡ area.kind) }
    ensures device { IsDeviceCall D.SectorDev dev.old dev.new result }
{
    let changed = changed_in(pages, old_end);
    if changed > 0 && pages.len() - changed >= least_new(waiting) {
        let (changed_pages, new) = pages.split_at(changed);
        bring_home(dev, area, old_end, waiting)?;
        arm_grown(dev, area.kind, old_end, new_end, changed_pages, new)?;
        return Ok(Armed {
            place: new_end,
            images: changed,
        });
    }
    let place = arm_all(dev, area, old_end, waiting, new_end, pages)?;
    Ok(Armed {
        place,
        images: pages.len(),
    })
}

// The same with a redo image of each page. It answers where the first one stands.
fn arm_all<D: SectorDev>(
    dev: &mut D,
    area: RedoArea,
    old_end: u32,
    waiting: &[Page],
    new_end: u32,
    pages: &[Page],
) -> Result<u32, DevFault>
    requires waiting { IsWaiting D.SectorDev dev.old old_end area (bytes_of waiting.now) }
    requires pages { IsCommit new_end pages.now }
    requires room { max old_end new_end + length pages.now ≤ D.sectors dev.old / 4 }
    requires grown { (n : ℕ) → old_end ≤ n → n < new_end → has_page (bytes_of pages.now) n ≡ true }
    ensures any_moment { D.honest dev.old
        → let before = file_pages (overlaid (bytes_of waiting.now) (page_at (D.seen dev.old)))
        old_end in
        LeavesOnly D.moment D.left_since dev.old dev.new
        (λ image. IsEither before (committed_with before (bytes_of pages.now) new_end)
        (settled (D.sectors dev.old / 4) image)) }
    ensures armed { D.honest dev.old → IfOk result (λ place.
        IsArmed (D.sectors dev.old / 4) new_end place (bytes_of pages.now)
        (D.candidate dev.new) (D.seen dev.new)) }
    ensures pages { D.honest dev.old
        → OnOk result (file_pages (overlaid (bytes_of pages.now) (page_at (D.seen dev.new))) new_end
        ≡ committed_with
        (file_pages (overlaid (bytes_of waiting.now) (page_at (D.seen dev.old))) old_end)
        (bytes_of pages.now) new_end) }
    ensures place { IfOk result (λ place. (new_end ≤ place) × (place ≤ D.sectors dev.old / 4)) }
    ensures kind { D.honest dev.old
        → OnOk result (kind_of (D.seen dev.new 0) ≡ area.kind) }
    ensures device { IsDeviceCall D.SectorDev dev.old dev.new result }
{
    let least = old_end.max(new_end);
    let capacity = dev.capacity() / 4;
    if let Some(place) = place_beside(least, pages.len(), area, capacity) {
        arm_next(dev, area, old_end, waiting, place, new_end, pages)?;
        return Ok(place);
    }
    bring_home(dev, area, old_end, waiting)?;
    arm(dev, area.kind, least, old_end, new_end, pages)?;
    Ok(least)
}
