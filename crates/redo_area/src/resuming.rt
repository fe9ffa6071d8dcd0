// An opening for writing, which goes on with a log that an earlier one has left.
ghost use Rattle.std.specs.Prelude.{◌≡◌, ◌≢◌, ◌≤◌, ◌+◌, ◌/◌, ◌↔◌, true, IfOk, IfErr, IfSome, IsErrOf};
ghost use Rattle.sect_dev.specs.Device.{IsStable, LeavesOnly, MoreFaults};
ghost use Rattle.sect_dev.specs.Reads.{OnlyReads};
ghost use Rattle.page_io.specs.Calls.{IsDeviceCall};
ghost use Rattle.page_io.specs.Store.{bytes_of};
ghost use Rattle.redo_area.specs.Header.{header_of, kind_of};
ghost use Rattle.redo_area.specs.declared.header.CommitKind.TheVariants.{Log};
ghost use Rattle.redo_area.specs.declared.header.Header.TheVariants.{Logging};
ghost use Rattle.redo_area.specs.File.{SettlesAsBefore};
ghost use Rattle.redo_area.specs.Opening.{IsRefused};
ghost use Rattle.redo_area.specs.Resuming.{IsReady};
ghost use Rattle.redo_area.specs.Settling.{SettlesToPages};

use crate::OpenFault;
use crate::area::{LogPlace, RedoArea};
use crate::header::{Header, read_header};
use crate::recovery::{settle_found, sync_and_read};
use commit_log::resume_log;
use page_io::StagedPages;
use sect_dev::{DevFault, SectorDev};
use std::alloc::Global;

/// A file that the next commit may follow: its end, the redo area, and the pages that wait there.
#[derive(Drop)]
pub struct ReadyFile {
    pub end: u32,
    pub area: RedoArea,
    pub waiting: StagedPages,
}

// Takes over a log that rests on a synced device. None is the answer where it doesn't, or where
// memory lacks for its pages, of which the first five take none: the file is to be settled then.
fn resume_in_log<D: SectorDev>(
    alloc: Global,
    dev: &mut D,
    start: u32,
) -> Result<Option<ReadyFile>, DevFault>
    requires stable { D.honest dev.old → IsStable (D.candidate dev.old) (D.seen dev.old) }
    requires header { D.honest dev.old
        → header_of (D.sectors dev.old / 4) (D.seen dev.old 0) ≡ Logging start }
    requires kind { D.honest dev.old → kind_of (D.seen dev.old 0) ≡ Log }
    requires room { start + 32 ≤ D.sectors dev.old / 4 }
    ensures settles { D.honest dev.old → IfOk result (λ answer. IfSome answer (λ file.
        SettlesToPages true (D.sectors dev.old / 4) file.end file.area
        (bytes_of file.waiting.items) (D.candidate dev.new) (D.seen dev.new))) }
    ensures ready { IfOk result (λ answer. IfSome answer (IsReady (D.sectors dev.old / 4))) }
    ensures only_reads { D.honest dev.old → OnlyReads D.SectorDev dev.old dev.new }
    ensures device { IsDeviceCall D.SectorDev dev.old dev.new result }
{
    let Some(log) = resume_log(dev, start)? else {
        return Ok(None);
    };
    let mut waiting = StagedPages::new(alloc);
    let pages = &log.newest.pages[..log.newest.count];
    if waiting.extend_from_slice(pages).is_err() {
        return Ok(None);
    }
    let place = LogPlace {
        number: log.newest.number,
        at: log.at,
        beside: log.beside,
    };
    Ok(Some(ReadyFile {
        end: log.newest.end,
        area: RedoArea::in_log(start, place),
        waiting,
    }))
}

// The same of a device whose commit sector was read.
fn resume_found<D: SectorDev>(
    alloc: Global,
    dev: &mut D,
    content: &[u8; 512],
) -> Result<Option<ReadyFile>, DevFault>
    requires sectors { 16 ≤ D.sectors dev.old }
    requires stable { D.honest dev.old → IsStable (D.candidate dev.old) (D.seen dev.old) }
    requires read { D.honest dev.old → content.now ≡ D.seen dev.old 0 }
    ensures settles { D.honest dev.old → IfOk result (λ answer. IfSome answer (λ file.
        SettlesToPages true (D.sectors dev.old / 4) file.end file.area
        (bytes_of file.waiting.items) (D.candidate dev.new) (D.seen dev.new))) }
    ensures ready { IfOk result (λ answer. IfSome answer (IsReady (D.sectors dev.old / 4))) }
    ensures only_reads { D.honest dev.old → OnlyReads D.SectorDev dev.old dev.new }
    ensures device { IsDeviceCall D.SectorDev dev.old dev.new result }
{
    let capacity = dev.capacity() / 4;
    match read_header(capacity, content) {
        Header::Logging { start } => resume_in_log(alloc, dev, start),
        _ => Ok(None),
    }
}

/// Brings a device that a stop or a closing may have left to where a commit may follow. A log that
/// rests is taken over, by one sync and reads alone; all else is settled.
pub fn resume<D: SectorDev>(alloc: Global, dev: &mut D) -> Result<ReadyFile, OpenFault>
    requires { 16 ≤ D.sectors dev.old }

    // Every image of every moment settles as one does that the device had at the start.
    ensures any_moment { D.honest dev.old
        → LeavesOnly D.moment D.left_since dev.old dev.new
        (SettlesAsBefore (D.sectors dev.old / 4) (D.candidate dev.old)) }
    ensures settles { D.honest dev.old → IfOk result (λ file.
        SettlesToPages true (D.sectors dev.old / 4) file.end file.area
        (bytes_of file.waiting.items) (D.candidate dev.new) (D.seen dev.new)) }
    ensures ready { IfOk result (IsReady (D.sectors dev.old / 4)) }
    ensures refused { D.honest dev.old
        → IfErr result (λ e. e ≢ OpenFault.Device
        → IsRefused (D.sectors dev.old / 4) (D.candidate dev.old) (D.candidate dev.new)
        (D.seen dev.new) e) }
    ensures later { D.faults dev.old ≤ D.faults dev.new }
    ensures cause { IsErrOf result OpenFault.Device
        → MoreFaults (D.faults dev.old) (D.faults dev.new) }
    ensures no_memory { IfErr result (λ e. e ≢ OpenFault.Memory) }
    ensures honesty { D.honest dev.new ↔ D.honest dev.old }
    ensures size { D.sectors dev.new ≡ D.sectors dev.old }
{
    let content = match sync_and_read(dev) {
        Ok(content) => content,
        Err(_) => return Err(OpenFault::Device),
    };
    match resume_found(alloc, dev, &content) {
        Ok(Some(file)) => Ok(file),
        Ok(None) => {
            let rest = settle_found(dev, &content)?;
            Ok(ReadyFile {
                end: rest.end,
                area: RedoArea::empty(rest.kind, rest.end),
                waiting: StagedPages::new(alloc),
            })
        }
        Err(_) => Err(OpenFault::Device),
    }
}
