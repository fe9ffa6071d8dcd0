// A log that goes on where an earlier opening has left it.
ghost use Rattle.std.specs.Prelude.{◌≡◌, ◌≤◌, ◌<◌, ◌+◌, ◌*◌, ◌^◌, ℕ, true, false, length, take, slice_index_or, [], IfOk, IfSome};
ghost use Rattle.sect_dev.specs.Device.{IsStable};
ghost use Rattle.sect_dev.specs.Reads.{OnlyReads};
ghost use Rattle.page_io.specs.Calls.{IsDeviceCall};
ghost use Rattle.page_io.specs.Page.{page_at, own_number};
ghost use Rattle.page_io.specs.Store.{are_in_order, bytes_of, has_page, overlaid};
ghost use Rattle.commit_log.specs.Log.{slot_of, log_by, is_disordered, ArePlaces, IsLogged};
ghost use Rattle.commit_log.specs.Found.{log_found, AreAtMost};

use crate::finding::FoundLog;
use crate::recovering::read_slot;
use page_io::{Page, is_among, read_page};
use sect_dev::{DevFault, SectorDev};

/// A log that a commit may follow: its newest commit is on the disk, and the older one is at home.
#[derive(Drop)]
pub struct RestingLog {
    /// The newest commit.
    pub newest: FoundLog,
    /// The first sector of the slot that has it.
    pub at: u32,
    /// The first sector of the other slot.
    pub beside: u32,
}

// Whether each page that no newer one replaces stands at its own number.
fn are_home<D: SectorDev>(dev: &mut D, pages: &[Page], newer: &[Page]) -> Result<bool, DevFault>
    requires room { (k : ℕ) → k < length pages.now
        → 4 * own_number (slice_index_or (bytes_of pages.now) k []) + 4 ≤ D.sectors dev.old }
    requires order { are_in_order 1 (2 ^ 32) (bytes_of newer.now) ≡ true }
    ensures home { D.honest dev.old → IfOk result (λ good. good ≡ true → (n : ℕ)
        → has_page (bytes_of newer.now) n ≡ false
        → overlaid (bytes_of pages.now) (page_at (D.seen dev.old)) n ≡ page_at (D.seen dev.old) n) }
    ensures only_reads { D.honest dev.old → OnlyReads D.SectorDev dev.old dev.new }
    ensures device { IsDeviceCall D.SectorDev dev.old dev.new result }
{
    let mut home = Page::blank();
    for page in pages {
        let own = page.own();
        if !is_among(newer, own) {
            read_page(dev, own, &mut home)?;
            if home.bytes != page.bytes {
                return Ok(false);
            }
        }
    }
    Ok(true)
}

// A log whose slots were read goes on: not where the device has to be brought to rest first.
fn resume_at<D: SectorDev>(
    dev: &mut D,
    start: u32,
    older: &FoundLog,
    newest: FoundLog,
    at: u32,
    beside: u32,
) -> Result<Option<RestingLog>, DevFault>
    requires stable { D.honest dev.old → IsStable (D.candidate dev.old) (D.seen dev.old) }
    requires places { ArePlaces start at beside }
    requires found { D.honest dev.old
        → log_found newest ≡ log_by start (slot_of (D.seen dev.old) at) }
    requires found_older { D.honest dev.old
        → log_found older.now ≡ log_by start (slot_of (D.seen dev.old) beside) }
    requires ordered { D.honest dev.old
        → is_disordered start (slot_of (D.seen dev.old) beside) ≡ false }
    requires highest { D.honest dev.old
        → AreAtMost newest.highest (slot_of (D.seen dev.old) at) }
    requires highest_older { D.honest dev.old
        → AreAtMost older.now.highest (slot_of (D.seen dev.old) beside) }
    requires rising { are_in_order 1 newest.end
        (bytes_of (take newest.count newest.pages)) ≡ true }
    requires older_rising { are_in_order 1 older.now.end
        (bytes_of (take older.now.count older.now.pages)) ≡ true }
    requires few { (newest.count ≤ 15) × (older.now.count ≤ 15) }
    requires above { (newest.end ≤ start) × (older.now.end ≤ start) }
    requires least { 1 ≤ newest.number → 4 ≤ newest.end }
    requires room { 4 * start ≤ D.sectors dev.old }
    ensures logged { D.honest dev.old → IfOk result (λ answer. IfSome answer (λ log.
        IsLogged log.newest.end start log.newest.number log.at log.beside
        (bytes_of (take log.newest.count log.newest.pages)) (D.candidate dev.new) (D.seen dev.new))) }
    ensures newest { IfOk result (λ answer. IfSome answer (λ log. log.newest ≡ newest)) }
    ensures places { IfOk result (λ answer. IfSome answer (λ log.
        (log.at ≡ at) × (log.beside ≡ beside))) }
    ensures least { IfOk result (λ answer. IfSome answer (λ log. 4 ≤ log.newest.end)) }
    ensures only_reads { D.honest dev.old → OnlyReads D.SectorDev dev.old dev.new }
    ensures device { IsDeviceCall D.SectorDev dev.old dev.new result }
{
    let number = newest.number;
    if number == 0 || newest.highest != number || number <= older.highest {
        return Ok(None);
    }
    let pages = &older.pages[..older.count];
    let newer = &newest.pages[..newest.count];
    if !are_home(dev, pages, newer)? {
        return Ok(None);
    }
    Ok(Some(RestingLog { newest, at, beside }))
}

/// Reads a log that all is on the disk of, and answers where a commit may follow. None is the
/// answer where neither slot says a commit, where the page numbers of a whole slot are out of
/// order, where pages of the older commit are not at home, and where the numbers of the sectors
/// are not those of two commits in a row. It takes three reads where each page of the older
/// commit is one of the newer, and one more for each that isn't.
pub fn resume_log<D: SectorDev>(dev: &mut D, start: u32) -> Result<Option<RestingLog>, DevFault>
    requires stable { D.honest dev.old → IsStable (D.candidate dev.old) (D.seen dev.old) }
    requires room { 4 * start + 128 ≤ D.sectors dev.old }
    ensures logged { D.honest dev.old → IfOk result (λ answer. IfSome answer (λ log.
        IsLogged log.newest.end start log.newest.number log.at log.beside
        (bytes_of (take log.newest.count log.newest.pages)) (D.candidate dev.new) (D.seen dev.new))) }
    ensures rising { IfOk result (λ answer. IfSome answer (λ log. are_in_order 1 log.newest.end
        (bytes_of (take log.newest.count log.newest.pages)) ≡ true)) }
    ensures few { IfOk result (λ answer. IfSome answer (λ log. log.newest.count ≤ 15)) }
    ensures end { IfOk result (λ answer. IfSome answer (λ log.
        (4 ≤ log.newest.end) × (log.newest.end ≤ start))) }
    ensures places { IfOk result (λ answer. IfSome answer (λ log.
        (log.at ≤ 4 * start + 64) × (log.beside ≤ 4 * start + 64))) }
    ensures only_reads { D.honest dev.old → OnlyReads D.SectorDev dev.old dev.new }
    ensures device { IsDeviceCall D.SectorDev dev.old dev.new result }
{
    let first = read_slot(dev, start, 4 * start)?;
    let second = read_slot(dev, start, 4 * start + 64)?;
    if first.is_disordered || second.is_disordered {
        return Ok(None);
    }
    if second.number < first.number {
        return resume_at(dev, start, &second, first, 4 * start, 4 * start + 64);
    }
    resume_at(dev, start, &first, second, 4 * start + 64, 4 * start)
}
