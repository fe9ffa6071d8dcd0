// A file as a read gives it.
ghost use Rattle.std.specs.Prelude.{◌≡◌, ◌≢◌, ◌⊎◌, ◌≤◌, ◌<◌, ◌+◌, ◌*◌, ◌/◌, ◌↔◌, ℕ, List, [], true, false, Some, take, length, slice_index_or, IfOk, IfErr, IsErrOf, OnOk};
ghost use Rattle.sect_dev.specs.Device.{MoreFaults};
ghost use Rattle.page_io.specs.Page.{page_at, own_number};
ghost use Rattle.page_io.specs.Store.{bytes_of, file_of, nothing, file_pages, overlaid, are_in_order};
ghost use Rattle.commit_log.specs.Log.{settled_newer, settled_at};
ghost use Rattle.commit_log.specs.Found.{log_found};
ghost use Rattle.redo_area.specs.File.{settled, redo_images};
ghost use Rattle.redo_area.specs.Header.{kind_of};
ghost use Rattle.redo_area.specs.declared.header.CommitKind.TheVariants.{Log};
ghost use Rattle.redo_area.specs.Opening.{refusal_of, SaysUnsettled};
ghost use Rattle.sect_dev.specs.Reads.{OnlyReads};

use crate::OpenFault;
use crate::header::{CommitKind, Header, kind_of, read_header};
use commit_log::{FoundLog, read_slot};
use page_io::{Page, StagedPages, put_staged, read_page};
use sect_dev::SectorDev;
use std::alloc::{AllocError, Global};

/// A file whose pages are 1 to `end` - 1 of the device, with the redo images in the place of those
/// that they name, and how its commits are made.
#[derive(Drop)]
pub struct SeenFile {
    pub end: u32,
    pub kind: CommitKind,
    pub redo: StagedPages,
}

/// Reads the redo images into memory, of which the first five take none. Damaged is the answer
/// where their numbers do not rise from 1 on and below the end.
fn read_images<D: SectorDev>(
    alloc: Global,
    dev: &mut D,
    start: u32,
    count: u32,
    end: u32,
) -> Result<StagedPages, OpenFault>
    requires { 4 * (start + count) ≤ D.sectors dev.old }
    ensures images { D.honest dev.old
        → IfOk result (λ images. bytes_of images.items ≡ redo_images (D.seen dev.old) start count) }
    ensures in_order { D.honest dev.old
        → IfOk result (λ images. are_in_order 1 end
        (redo_images (D.seen dev.old) start count) ≡ true) }
    ensures rising { IfOk result (λ images. are_in_order 1 end (bytes_of images.items) ≡ true) }
    ensures damaged { D.honest dev.old → IsErrOf result OpenFault.Damaged
        → are_in_order 1 end (redo_images (D.seen dev.old) start count) ≡ false }
    ensures only { IfErr result (λ e.
        (e ≡ OpenFault.Device) ⊎ ((e ≡ OpenFault.Memory) ⊎ (e ≡ OpenFault.Damaged))) }
    ensures only_reads { D.honest dev.old → OnlyReads D.SectorDev dev.old dev.new }
    ensures later { D.faults dev.old ≤ D.faults dev.new }
    ensures cause { IsErrOf result OpenFault.Device
        → MoreFaults (D.faults dev.old) (D.faults dev.new) }
    ensures honesty { D.honest dev.new ↔ D.honest dev.old }
    ensures size { D.sectors dev.new ≡ D.sectors dev.old }
{
    let mut images = StagedPages::new(alloc);
    let mut page = Page::blank();
    let mut least: u64 = 1;
    for i in 0..count {
        if read_page(dev, start + i, &mut page).is_err() {
            return Err(OpenFault::Device);
        }
        let own = u64::from(page.own());
        if own < least || u64::from(end) <= own {
            return Err(OpenFault::Damaged);
        }
        least = own + 1;
        if images.push(page).is_err() {
            return Err(OpenFault::Memory);
        }
    }
    Ok(images)
}

// Puts the pages of a log that are in front of an end among others, each in the place of one of its
// number.
fn put_pages(redo: &mut StagedPages, pages: &[Page], end: u32) -> Result<(), AllocError>
    requires order { are_in_order 1 end (bytes_of redo.old.items) ≡ true }
    requires numbers { (k : ℕ) → k < length pages.now
        → 1 ≤ own_number (slice_index_or (bytes_of pages.now) k []) }
    ensures order { OnOk result (are_in_order 1 end (bytes_of redo.new.items) ≡ true) }
    ensures put { OnOk result ((home : ℕ → List ℕ) (n : ℕ) → n < end
        → overlaid (bytes_of redo.new.items) home n
        ≡ overlaid (bytes_of pages.now) (overlaid (bytes_of redo.old.items) home) n) }
{
    for page in pages {
        if page.own() < end {
            put_staged(redo, page)?;
        }
    }
    Ok(())
}

// The file of two logs over pages at home, whatever these are: the pages of the older log, and
// those of the newer over them. Damaged is the answer where the newer one is none.
fn over_logs(alloc: Global, older: &FoundLog, newer: &FoundLog) -> Result<SeenFile, OpenFault>
    requires few { newer.now.count ≤ 15 }
    requires rising { are_in_order 1 newer.now.end
        (bytes_of (take newer.now.count newer.now.pages)) ≡ true }
    requires least { 1 ≤ newer.now.number → 4 ≤ newer.now.end }
    requires older_few { older.now.count ≤ 15 }
    requires older_rising { are_in_order 1 older.now.end
        (bytes_of (take older.now.count older.now.pages)) ≡ true }
    ensures found { IfOk result (λ file. (home : ℕ → List ℕ)
        → settled_newer (log_found older.now) (log_found newer.now) home
        ≡ file_of (file_pages (overlaid (bytes_of file.redo.items) home) file.end)) }
    ensures end { IfOk result (λ file. (4 ≤ file.end) × (file.end ≡ newer.now.end)) }
    ensures kind { IfOk result (λ file. file.kind ≡ Log) }
    ensures rising { IfOk result (λ file.
        are_in_order 1 file.end (bytes_of file.redo.items) ≡ true) }
    ensures damaged { IsErrOf result OpenFault.Damaged → (home : ℕ → List ℕ)
        → settled_newer (log_found older.now) (log_found newer.now) home ≡ nothing }
    ensures only { IfErr result (λ e. (e ≡ OpenFault.Memory) ⊎ (e ≡ OpenFault.Damaged)) }
{
    if newer.number == 0 {
        return Err(OpenFault::Damaged);
    }
    let end = newer.end;
    let mut redo = StagedPages::new(alloc);
    if put_pages(&mut redo, &older.pages[..older.count], end).is_err() {
        return Err(OpenFault::Memory);
    }
    if put_pages(&mut redo, &newer.pages[..newer.count], end).is_err() {
        return Err(OpenFault::Memory);
    }
    Ok(SeenFile {
        end,
        kind: CommitKind::Log,
        redo,
    })
}

/// Reads both slots of a log into memory. Damaged is the answer where neither says a commit, or where
/// the page numbers of a whole one are out of order, and Memory where it lacks for their pages, of
/// which the first five take none.
pub fn read_log<D: SectorDev>(alloc: Global, dev: &mut D, start: u32) -> Result<SeenFile, OpenFault>
    requires { 4 * start + 128 ≤ D.sectors dev.old }
    ensures found { D.honest dev.old
        → IfOk result (λ file. settled_at (D.seen dev.old) start
        ≡ file_of (file_pages (overlaid (bytes_of file.redo.items) (page_at (D.seen dev.old)))
        file.end)) }
    ensures end { IfOk result (λ file. (4 ≤ file.end) × (file.end ≤ start)) }
    ensures kind { IfOk result (λ file. file.kind ≡ Log) }
    ensures rising { IfOk result (λ file.
        are_in_order 1 file.end (bytes_of file.redo.items) ≡ true) }
    ensures damaged { D.honest dev.old → IsErrOf result OpenFault.Damaged
        → settled_at (D.seen dev.old) start ≡ nothing }
    ensures only { IfErr result (λ e.
        (e ≡ OpenFault.Device) ⊎ ((e ≡ OpenFault.Memory) ⊎ (e ≡ OpenFault.Damaged))) }
    ensures only_reads { D.honest dev.old → OnlyReads D.SectorDev dev.old dev.new }
    ensures later { D.faults dev.old ≤ D.faults dev.new }
    ensures cause { IsErrOf result OpenFault.Device
        → MoreFaults (D.faults dev.old) (D.faults dev.new) }
    ensures honesty { D.honest dev.new ↔ D.honest dev.old }
    ensures size { D.sectors dev.new ≡ D.sectors dev.old }
{
    let first = match read_slot(dev, start, 4 * start) {
        Ok(first) => first,
        Err(_) => return Err(OpenFault::Device),
    };
    let second = match read_slot(dev, start, 4 * start + 64) {
        Ok(second) => second,
        Err(_) => return Err(OpenFault::Device),
    };
    if first.is_disordered || second.is_disordered {
        return Err(OpenFault::Damaged);
    }
    if second.number < first.number {
        over_logs(alloc, &second, &first)
    } else {
        over_logs(alloc, &first, &second)
    }
}

/// Reads the commit sector, and the redo images where it is armed, or the log that it names.
pub fn read_file<D: SectorDev>(alloc: Global, dev: &mut D) -> Result<SeenFile, OpenFault>
    requires { 16 ≤ D.sectors dev.old }

    // The file is the one that the device settles to, as a read gives it.
    ensures found { D.honest dev.old
        → IfOk result (λ file. settled (D.sectors dev.old / 4) (D.seen dev.old)
        ≡ file_of (file_pages (overlaid (bytes_of file.redo.items) (page_at (D.seen dev.old)))
        file.end)) }
    ensures end { IfOk result (λ file. (4 ≤ file.end) × (file.end ≤ D.sectors dev.old / 4)) }
    ensures kind { D.honest dev.old
        → IfOk result (λ file. file.kind ≡ kind_of (D.seen dev.old 0)) }
    ensures rising { IfOk result (λ file.
        are_in_order 1 file.end (bytes_of file.redo.items) ≡ true) }
    ensures refused { D.honest dev.old
        → IfErr result (λ e. e ≢ OpenFault.Device → e ≢ OpenFault.Memory
        → refusal_of (D.sectors dev.old / 4) (D.seen dev.old) ≡ Some e) }
    ensures memory { D.honest dev.old → IsErrOf result OpenFault.Memory
        → SaysUnsettled (D.sectors dev.old / 4) (D.seen dev.old) }
    ensures only_reads { D.honest dev.old → OnlyReads D.SectorDev dev.old dev.new }
    ensures later { D.faults dev.old ≤ D.faults dev.new }
    ensures cause { IsErrOf result OpenFault.Device
        → MoreFaults (D.faults dev.old) (D.faults dev.new) }
    ensures honesty { D.honest dev.new ↔ D.honest dev.old }
    ensures size { D.sectors dev.new ≡ D.sectors dev.old }
{
    let capacity = dev.capacity() / 4;
    let mut content = [0; 512];
    if dev.read(0, &mut content).is_err() {
        return Err(OpenFault::Device);
    }
    let kind = kind_of(&content);
    match read_header(capacity, &content) {
        Header::Blank => Err(OpenFault::Blank),
        Header::Clear { end } => Ok(SeenFile {
            end,
            kind,
            redo: StagedPages::new(alloc),
        }),
        Header::Armed { end, start, count } => {
            let redo = read_images(alloc, dev, start, count, end)?;
            Ok(SeenFile { end, kind, redo })
        }
        Header::Logging { start } => read_log(alloc, dev, start),
        Header::NotOurs => Err(OpenFault::NotOurs),
        Header::Damaged => Err(OpenFault::Damaged),
    }
}
