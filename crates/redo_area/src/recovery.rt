// The end of a commit that a stop cut short.
ghost use Rattle.std.specs.Prelude.{◌≡◌, ◌≢◌, ◌≤◌, ◌<◌, ◌+◌, ◌*◌, ◌/◌, ◌↔◌, ℕ, List, true, false, IfOk, IfErr, OnOk, IsErrOf, Some, IfSome, IfNone};
ghost use Rattle.sect_dev.specs.Device.{IsImageOf, IsStable, NoNewCandidate, MoreFaults, LeavesOnly};
ghost use Rattle.page_io.specs.Calls.{IsDeviceCall};
ghost use Rattle.page_io.specs.Page.{page_at, KeepsWhere};
ghost use Rattle.page_io.specs.Store.{file_of, nothing, file_pages, overlaid, are_in_order};
ghost use Rattle.redo_area.specs.Header.{header_of, kind_of};
ghost use Rattle.redo_area.specs.declared.header.Header.TheVariants.{Armed, Logging};
ghost use Rattle.redo_area.specs.File.{settled, redo_images, SettlesAsBefore, IsOutsideAll, IsAtRest, IsArmed};
ghost use Rattle.redo_area.specs.Opening.{refusal_of, IsRefused};

use crate::OpenFault;
use crate::header::{CommitKind, Header, clear_sector, kind_of, read_header};
use crate::steps::put_header;
use commit_log::recover_log;
use page_io::{Page, read_page, write_page};
use sect_dev::{DevFault, SectorDev};

/// Copies the redo images home. It answers false where a number is out of range, which an honest
/// device doesn't give for images that were checked.
fn copy_images<D: SectorDev>(
    dev: &mut D,
    start: u32,
    count: u32,
    end: u32,
) -> Result<bool, DevFault>
    requires room { 4 * (start + count) ≤ D.sectors dev.old }
    requires above { end ≤ start }
    requires in_order { D.honest dev.old
        → are_in_order 1 end (redo_images (D.seen dev.old) start count) ≡ true }
    ensures any_moment { D.honest dev.old
        → LeavesOnly D.moment D.left_since dev.old dev.new
        (KeepsWhere (D.candidate dev.old)
        (IsOutsideAll (redo_images (D.seen dev.old) start count))) }
    ensures candidates { D.honest dev.old → (m : ℕ) (c : List ℕ)
        → IsOutsideAll (redo_images (D.seen dev.old) start count) m → D.candidate dev.new m c
        → D.candidate dev.old m c }
    ensures good { D.honest dev.old → IfOk result (λ good. good ≡ true) }
    ensures others { D.honest dev.old
        → IfOk result (λ good. (m : ℕ) → IsOutsideAll (redo_images (D.seen dev.old) start count) m
        → D.seen dev.new m ≡ D.seen dev.old m) }
    ensures written { D.honest dev.old
        → IfOk result (λ good. (n : ℕ)
        → page_at (D.seen dev.new) n ≡ overlaid (redo_images (D.seen dev.old) start count)
        (page_at (D.seen dev.old)) n) }
    ensures device { IsDeviceCall D.SectorDev dev.old dev.new result }
{
    let mut page = Page::blank();
    for i in 0..count {
        read_page(dev, start + i, &mut page)?;
        let own = page.own();
        if own < 1 || end <= own {
            return Ok(false);
        }
        write_page(dev, own, &page)?;
    }
    Ok(true)
}

/// Copies the redo images home, and clears the commit sector. It answers false as `copy_images`
/// does.
fn replay<D: SectorDev>(
    dev: &mut D,
    kind: CommitKind,
    start: u32,
    count: u32,
    end: u32,
) -> Result<bool, DevFault>
    requires armed { D.honest dev.old
        → IsArmed (D.sectors dev.old / 4) end start (redo_images (D.seen dev.old) start count)
        (D.candidate dev.old) (D.seen dev.old) }
    requires least { 4 ≤ end }
    requires above { end ≤ start }
    requires room { start + count ≤ D.sectors dev.old / 4 }

    // Every image of every moment since the start settles to the pages with the images in place.
    ensures any_moment { D.honest dev.old → LeavesOnly D.moment D.left_since dev.old dev.new
        (λ image. settled (D.sectors dev.old / 4) image
        ≡ file_of (file_pages (overlaid (redo_images (D.seen dev.old) start count)
        (page_at (D.seen dev.old))) end)) }
    ensures good { D.honest dev.old → IfOk result (λ good. good ≡ true) }
    ensures rest { D.honest dev.old
        → IfOk result (λ good. IsAtRest (D.sectors dev.old / 4) end (D.candidate dev.new)
        (D.seen dev.new)) }
    ensures pages { D.honest dev.old
        → IfOk result (λ good. file_pages (page_at (D.seen dev.new)) end
        ≡ file_pages (overlaid (redo_images (D.seen dev.old) start count)
        (page_at (D.seen dev.old))) end) }
    ensures kind { D.honest dev.old
        → IfOk result (λ good. kind_of (D.seen dev.new 0) ≡ kind) }
    ensures device { IsDeviceCall D.SectorDev dev.old dev.new result }
{
    let good = copy_images(dev, start, count, end)?;
    if !good {
        return Ok(false);
    }
    dev.sync()?;
    put_header(dev, &clear_sector(kind, end))?;
    Ok(true)
}

/// Whether the redo images have numbers from 1 on that rise and are below the end.
fn check_images<D: SectorDev>(
    dev: &mut D,
    start: u32,
    count: u32,
    end: u32,
) -> Result<bool, DevFault>
    requires { 4 * (start + count) ≤ D.sectors dev.old }
    ensures checked { D.honest dev.old
        → IfOk result (λ good. good ≡ are_in_order 1 end
        (redo_images (D.seen dev.old) start count)) }
    ensures seen { D.honest dev.old → D.seen dev.new ≡ D.seen dev.old }
    ensures candidates { D.honest dev.old
        → NoNewCandidate (D.candidate dev.old) (D.candidate dev.new) }
    ensures any_moment { D.honest dev.old
        → LeavesOnly D.moment D.left_since dev.old dev.new (IsImageOf (D.candidate dev.old)) }
    ensures device { IsDeviceCall D.SectorDev dev.old dev.new result }
{
    let mut page = Page::blank();
    let mut least: u64 = 1;
    for i in 0..count {
        read_page(dev, start + i, &mut page)?;
        let own = u64::from(page.own());
        if own < least || u64::from(end) <= own {
            return Ok(false);
        }
        least = own + 1;
    }
    Ok(true)
}

/// Syncs, and reads the commit sector.
pub fn sync_and_read<D: SectorDev>(dev: &mut D) -> Result<[u8; 512], DevFault>
    requires { 0 < D.sectors dev.old }
    ensures any_moment { D.honest dev.old
        → LeavesOnly D.moment D.left_since dev.old dev.new (IsImageOf (D.candidate dev.old)) }
    ensures start { D.honest dev.old → IsImageOf (D.candidate dev.old) (D.seen dev.new) }
    ensures stable { D.honest dev.old
        → OnOk result (IsStable (D.candidate dev.new) (D.seen dev.new)) }
    ensures read { D.honest dev.old → IfOk result (λ content. content ≡ D.seen dev.new 0) }
    ensures device { IsDeviceCall D.SectorDev dev.old dev.new result }
{
    let mut content = [0; 512];
    dev.sync()?;
    dev.read(0, &mut content)?;
    Ok(content)
}

/// Ends a commit whose commit sector is armed. It answers false where the redo images are damaged.
fn end_armed<D: SectorDev>(
    dev: &mut D,
    kind: CommitKind,
    end: u32,
    start: u32,
    count: u32,
) -> Result<bool, DevFault>
    requires stable { D.honest dev.old → IsStable (D.candidate dev.old) (D.seen dev.old) }
    requires header { D.honest dev.old
        → header_of (D.sectors dev.old / 4) (D.seen dev.old 0) ≡ Armed end start count }
    requires least { 4 ≤ end }
    requires above { end ≤ start }
    requires room { start + count ≤ D.sectors dev.old / 4 }

    // Every image of every moment settles as the device does at the start.
    ensures any_moment { D.honest dev.old → LeavesOnly D.moment D.left_since dev.old dev.new
        (λ image. settled (D.sectors dev.old / 4) image
        ≡ settled (D.sectors dev.old / 4) (D.seen dev.old)) }
    ensures rest { D.honest dev.old
        → IfOk result (λ good. good ≡ true
        → IsAtRest (D.sectors dev.old / 4) end (D.candidate dev.new) (D.seen dev.new)) }

    // At false nothing was changed, and the images are damaged.
    ensures refused { D.honest dev.old
        → IfOk result (λ good. good ≡ false → IsStable (D.candidate dev.new) (D.seen dev.new)
        × (D.seen dev.new ≡ D.seen dev.old)
        × (settled (D.sectors dev.old / 4) (D.seen dev.old) ≡ nothing)) }
    ensures kind { D.honest dev.old
        → IfOk result (λ good. good ≡ true → kind_of (D.seen dev.new 0) ≡ kind) }
    ensures device { IsDeviceCall D.SectorDev dev.old dev.new result }
{
    let sound = check_images(dev, start, count, end)?;
    if !sound {
        return Ok(false);
    }
    let good = replay(dev, kind, start, count, end)?;
    Ok(good)
}

/// Ends the commits of a log that the commit sector names. It answers none where neither slot says
/// a commit.
fn end_logging<D: SectorDev>(
    dev: &mut D,
    kind: CommitKind,
    start: u32,
) -> Result<Option<u32>, DevFault>
    requires stable { D.honest dev.old → IsStable (D.candidate dev.old) (D.seen dev.old) }
    requires header { D.honest dev.old
        → header_of (D.sectors dev.old / 4) (D.seen dev.old 0) ≡ Logging start }
    requires room { start + 32 ≤ D.sectors dev.old / 4 }

    // Every image of every moment settles as the device does at the start.
    ensures any_moment { D.honest dev.old → LeavesOnly D.moment D.left_since dev.old dev.new
        (λ image. settled (D.sectors dev.old / 4) image
        ≡ settled (D.sectors dev.old / 4) (D.seen dev.old)) }
    ensures rest { D.honest dev.old
        → IfOk result (λ answer. IfSome answer (λ end.
        IsAtRest (D.sectors dev.old / 4) end (D.candidate dev.new) (D.seen dev.new))) }
    ensures end { IfOk result (λ answer. IfSome answer (λ end.
        (4 ≤ end) × (end ≤ D.sectors dev.old / 4))) }

    // Where it answers none nothing was changed, and the device settles to nothing.
    ensures refused { D.honest dev.old
        → IfOk result (λ answer. IfNone answer (IsStable (D.candidate dev.new) (D.seen dev.new)
        × (D.seen dev.new ≡ D.seen dev.old)
        × (settled (D.sectors dev.old / 4) (D.seen dev.old) ≡ nothing))) }
    ensures kind { D.honest dev.old
        → IfOk result (λ answer. IfSome answer (λ end. kind_of (D.seen dev.new 0) ≡ kind)) }
    ensures device { IsDeviceCall D.SectorDev dev.old dev.new result }
{
    match recover_log(dev, start)? {
        Some(end) => {
            put_header(dev, &clear_sector(kind, end))?;
            Ok(Some(end))
        }
        None => Ok(None),
    }
}

/// A file at rest: its end, and how its commits are made.
#[derive(Clone, Copy)]
pub struct AtRest {
    pub end: u32,
    pub kind: CommitKind,
}

/// Settles what a stop may have left of a device that was synced, by its commit sector.
pub fn settle_found<D: SectorDev>(dev: &mut D, content: &[u8; 512]) -> Result<AtRest, OpenFault>
    requires sectors { 16 ≤ D.sectors dev.old }
    requires stable { D.honest dev.old → IsStable (D.candidate dev.old) (D.seen dev.old) }
    requires read { D.honest dev.old → content.now ≡ D.seen dev.old 0 }

    // Every image of every moment settles as the device does at the start.
    ensures any_moment { D.honest dev.old → LeavesOnly D.moment D.left_since dev.old dev.new
        (λ image. settled (D.sectors dev.old / 4) image
        ≡ settled (D.sectors dev.old / 4) (D.seen dev.old)) }
    ensures rest { D.honest dev.old
        → IfOk result (λ rest. IsAtRest (D.sectors dev.old / 4) rest.end (D.candidate dev.new)
        (D.seen dev.new)) }
    ensures kind { D.honest dev.old
        → IfOk result (λ rest. kind_of (D.seen dev.new 0) ≡ rest.kind) }
    ensures end { IfOk result (λ rest. (4 ≤ rest.end) × (rest.end ≤ D.sectors dev.old / 4)) }

    // Where it is refused nothing was changed, but for a fault of the device.
    ensures refused { D.honest dev.old
        → IfErr result (λ e. e ≢ OpenFault.Device
        → IsStable (D.candidate dev.new) (D.seen dev.new) × (D.seen dev.new ≡ D.seen dev.old)
        × (refusal_of (D.sectors dev.old / 4) (D.seen dev.old) ≡ Some e)) }
    ensures cause { (D.faults dev.old ≤ D.faults dev.new)
        × (IsErrOf result OpenFault.Device → MoreFaults (D.faults dev.old) (D.faults dev.new)) }
    ensures no_memory { IfErr result (λ e. e ≢ OpenFault.Memory) }
    ensures honesty { D.honest dev.new ↔ D.honest dev.old }
    ensures size { D.sectors dev.new ≡ D.sectors dev.old }
{
    let capacity = dev.capacity() / 4;
    let kind = kind_of(content);
    match read_header(capacity, content) {
        Header::Blank => Err(OpenFault::Blank),
        Header::Clear { end } => Ok(AtRest { end, kind }),
        Header::Armed { end, start, count } => match end_armed(dev, kind, end, start, count) {
            Ok(true) => Ok(AtRest { end, kind }),
            Ok(false) => Err(OpenFault::Damaged),
            Err(_) => Err(OpenFault::Device),
        },
        Header::Logging { start } => match end_logging(dev, kind, start) {
            Ok(Some(end)) => Ok(AtRest { end, kind }),
            Ok(None) => Err(OpenFault::Damaged),
            Err(_) => Err(OpenFault::Device),
        },
        Header::NotOurs => Err(OpenFault::NotOurs),
        Header::Damaged => Err(OpenFault::Damaged),
    }
}

/// Settles what a stop may have left.
pub fn recover<D: SectorDev>(dev: &mut D) -> Result<AtRest, OpenFault>
    requires { 16 ≤ D.sectors dev.old }

    // Every image of every moment settles as one does that the device had at the start.
    ensures any_moment { D.honest dev.old
        → LeavesOnly D.moment D.left_since dev.old dev.new
        (SettlesAsBefore (D.sectors dev.old / 4) (D.candidate dev.old)) }
    ensures rest { D.honest dev.old
        → IfOk result (λ rest. IsAtRest (D.sectors dev.old / 4) rest.end (D.candidate dev.new)
        (D.seen dev.new)) }
    ensures kind { D.honest dev.old
        → IfOk result (λ rest. kind_of (D.seen dev.new 0) ≡ rest.kind) }
    ensures end { IfOk result (λ rest. (4 ≤ rest.end) × (rest.end ≤ D.sectors dev.old / 4)) }
    ensures refused { D.honest dev.old
        → IfErr result (λ e. e ≢ OpenFault.Device
        → IsRefused (D.sectors dev.old / 4) (D.candidate dev.old) (D.candidate dev.new)
        (D.seen dev.new) e) }
    ensures later { D.faults dev.old ≤ D.faults dev.new }
    ensures cause { IsErrOf result OpenFault.Device
        → MoreFaults (D.faults dev.old) (D.faults dev.new) }
    ensures no_memory { IfErr result (λ e. e ≢ OpenFault.Memory) }
    ensures honesty { D.honest dev.new ↔ D.honest dev.old }
    ensures size { D.sectors dev.new ≡ D.sectors dev.old }
{
    match sync_and_read(dev) {
        Ok(content) => settle_found(dev, &content),
        Err(_) => Err(OpenFault::Device),
    }
}
