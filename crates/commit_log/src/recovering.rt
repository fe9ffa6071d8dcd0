// A log that a stop has left.
ghost use Rattle.std.specs.Prelude.{◌≡◌, ◌⊎◌, ◌≤◌, ◌<◌, ◌+◌, ◌*◌, true, take, IfOk, OnOk, Some, None, IfSome, IfNone};
ghost use Rattle.sect_dev.specs.Device.{LeavesOnly, IsStable};
ghost use Rattle.sect_dev.specs.Reads.{OnlyReads};
ghost use Rattle.page_io.specs.Calls.{IsDeviceCall};
ghost use Rattle.page_io.specs.Page.{page_at};
ghost use Rattle.page_io.specs.Store.{file_of, nothing, file_pages, are_in_order, bytes_of};
ghost use Rattle.commit_log.specs.Log.{slot_of, log_by, is_disordered, settled_at};
ghost use Rattle.commit_log.specs.Found.{log_found, AreAtMost, AreFound};

use crate::finding::{FoundLog, find_log};
use crate::redoing::redo;
use sect_dev::{DevFault, SectorDev};

/// Reads what a slot says, with one read of the device.
pub fn read_slot<D: SectorDev>(dev: &mut D, start: u32, at: u32) -> Result<FoundLog, DevFault>
    requires { at + 61 ≤ D.sectors dev.old }
    ensures found { D.honest dev.old → IfOk result (λ found.
        log_found found ≡ log_by start (slot_of (D.seen dev.old) at)) }
    ensures few { IfOk result (λ found. found.count ≤ 15) }
    ensures highest { D.honest dev.old → IfOk result (λ found.
        AreAtMost found.highest (slot_of (D.seen dev.old) at)) }
    ensures disordered { D.honest dev.old → IfOk result (λ found.
        found.is_disordered ≡ is_disordered start (slot_of (D.seen dev.old) at)) }
    ensures rising { IfOk result (λ found.
        are_in_order 1 found.end (bytes_of (take found.count found.pages)) ≡ true) }
    ensures above { IfOk result (λ found. found.end ≤ start) }
    ensures least { IfOk result (λ found. 1 ≤ found.number → 4 ≤ found.end) }
    ensures seen { D.honest dev.old → D.seen dev.new ≡ D.seen dev.old }
    ensures only_reads { D.honest dev.old → OnlyReads D.SectorDev dev.old dev.new }
    ensures device { IsDeviceCall D.SectorDev dev.old dev.new result }
{
    let mut bytes = [0; 31232];
    dev.read_run(at, &mut bytes)?;
    Ok(find_log(start, &bytes))
}

/// Ends a log of two slots that were read, by the order of their numbers: their pages come home. It
/// answers the end of the file, or none where neither slot says a commit.
fn end_log<D: SectorDev>(
    dev: &mut D,
    start: u32,
    older: &FoundLog,
    newer: &FoundLog,
) -> Result<Option<u32>, DevFault>
    requires stable { D.honest dev.old → IsStable (D.candidate dev.old) (D.seen dev.old) }
    requires found { D.honest dev.old → AreFound start older.now newer.now (D.seen dev.old) }
    requires few { newer.now.count ≤ 15 }
    requires rising { are_in_order 1 newer.now.end
        (bytes_of (take newer.now.count newer.now.pages)) ≡ true }
    requires above { newer.now.end ≤ start }
    requires least { 1 ≤ newer.now.number → 4 ≤ newer.now.end }
    requires older_few { older.now.count ≤ 15 }
    requires older_rising { are_in_order 1 older.now.end
        (bytes_of (take older.now.count older.now.pages)) ≡ true }
    requires older_above { older.now.end ≤ start }
    requires room { 4 * start ≤ D.sectors dev.old }

    // Every image of every moment since the start settles as the device did, and the commit sector
    // is as it was.
    ensures any_moment { D.honest dev.old → LeavesOnly D.moment D.left_since dev.old dev.new
        (λ image. (settled_at image start ≡ settled_at (D.seen dev.old) start)
        × (image 0 ≡ D.seen dev.old 0)) }
    ensures stable { D.honest dev.old
        → OnOk result (IsStable (D.candidate dev.new) (D.seen dev.new)) }
    ensures same { D.honest dev.old
        → OnOk result ((settled_at (D.seen dev.new) start ≡ settled_at (D.seen dev.old) start)
        × (D.seen dev.new 0 ≡ D.seen dev.old 0)) }

    // The pages at home are those that the device settled to; where there are none nothing was
    // done.
    ensures home { D.honest dev.old → IfOk result (λ answer. IfSome answer (λ end.
        settled_at (D.seen dev.old) start ≡ file_of (file_pages (page_at (D.seen dev.new)) end))) }
    ensures none { D.honest dev.old → IfOk result (λ answer. IfNone answer
        ((settled_at (D.seen dev.old) start ≡ nothing) × (D.seen dev.new ≡ D.seen dev.old))) }
    ensures end { IfOk result (λ answer. IfSome answer (λ end. (4 ≤ end) × (end ≤ start))) }
    ensures device { IsDeviceCall D.SectorDev dev.old dev.new result }
{
    if newer.number == 0 {
        return Ok(None);
    }
    let old_pages = &older.pages[..older.count];
    let new_pages = &newer.pages[..newer.count];
    redo(dev, start, newer.end, older.end, old_pages, new_pages)?;
    Ok(Some(newer.end))
}

/// Ends a log that a stop has left: the pages of both slots come home, those of the newer commit
/// last. It answers the end of the file, or none where neither slot says a commit, and where the
/// page numbers of a whole slot are out of order.
pub fn recover_log<D: SectorDev>(dev: &mut D, start: u32) -> Result<Option<u32>, DevFault>
    requires stable { D.honest dev.old → IsStable (D.candidate dev.old) (D.seen dev.old) }
    requires room { 4 * start + 128 ≤ D.sectors dev.old }

    // Every image of every moment since the start settles as the device did, and the commit sector
    // is as it was.
    ensures any_moment { D.honest dev.old → LeavesOnly D.moment D.left_since dev.old dev.new
        (λ image. (settled_at image start ≡ settled_at (D.seen dev.old) start)
        × (image 0 ≡ D.seen dev.old 0)) }
    ensures stable { D.honest dev.old
        → OnOk result (IsStable (D.candidate dev.new) (D.seen dev.new)) }
    ensures same { D.honest dev.old
        → OnOk result ((settled_at (D.seen dev.new) start ≡ settled_at (D.seen dev.old) start)
        × (D.seen dev.new 0 ≡ D.seen dev.old 0)) }

    // The pages at home are those that the device settled to; where there are none nothing was
    // done.
    ensures home { D.honest dev.old → IfOk result (λ answer. IfSome answer (λ end.
        settled_at (D.seen dev.old) start ≡ file_of (file_pages (page_at (D.seen dev.new)) end))) }
    ensures none { D.honest dev.old → IfOk result (λ answer. IfNone answer
        ((settled_at (D.seen dev.old) start ≡ nothing) × (D.seen dev.new ≡ D.seen dev.old))) }
    ensures end { IfOk result (λ answer. IfSome answer (λ end. (4 ≤ end) × (end ≤ start))) }
    ensures device { IsDeviceCall D.SectorDev dev.old dev.new result }
{
    let first = read_slot(dev, start, 4 * start)?;
    let second = read_slot(dev, start, 4 * start + 64)?;
    if first.is_disordered || second.is_disordered {
        return Ok(None);
    }
    if second.number < first.number {
        return end_log(dev, start, &second, &first);
    }
    end_log(dev, start, &first, &second)
}
