//! Opening a device.

ghost use Rattle.std.specs.Prelude.{◌≡◌, ◌≢◌, ◌⊎◌, ◌<◌, ◌+◌, ◌/◌, length, IfOk, IfErr, IfSome, Some, None, Err, true, false, if◌then◌else◌, map};
ghost use Rattle.std.specs.FinMap.{empty};
ghost use Rattle.dbm_model.specs.Bounds.{Bounds};
ghost use Rattle.sect_dev.specs.Device.{Image, IsImageOf, IsStable, LeavesOnly};
ghost use Rattle.sect_dev.specs.Moments.{IsOutcome};
ghost use Rattle.dbm_model.specs.Pairs.{Contents};
ghost use Rattle.page_model.specs.Pages.{MetaPage};
ghost use Rattle.page_model.specs.Reading.{body_of};
ghost use Rattle.page_model.specs.Valid.{IsMeta};
ghost use Rattle.page_io.specs.Meaning.{FileStandsFor, ImageStandsFor};
ghost use Rattle.page_io.specs.Store.{Settled, blank, file_of, page_of};
ghost use Rattle.redo_area.specs.File.{settled};
ghost use Rattle.redo_area.specs.Opening.{IsFresh as IsFreshStore};
ghost use Rattle.redo_area.specs.Pagers.{device_of};
ghost use Rattle.sect_dev.specs.Reads.{OnlyReads};
ghost use Rattle.redo_area.specs.Settling.{SettlesTo};
ghost use Rattle.file_opening.specs.Opening.{writes, is_exclusive, early_fault, emptying_fault, RefusesMeta, RefusesOpened, IsRefusedOpening, AllAllow, EmptiesFile, MayRemain, AllStand, KeepsMetaOf, KeepsMeta, IsOpened, bounds_of};
ghost use Rattle.file_opening.specs.OpenFiles.{device_left, IsOpeningCall, IsJustOpened, StandsAs, OpensAs};
ghost use Rattle.seg_table.specs.MetaPages.{model_meta};

use crate::emptying::empty_database;
use crate::making::make_database;
use crate::{Fault, OpenFile, OpenHow};
use page_io::{Page, PageStore};
use redo_area::{OpenFault, Pager};
use sect_dev::SectorDev;
use seg_table::{MetaFault, read_meta};
use std::alloc::Global;

/// The least number of sectors: a file of three pages behind page 0.
const MIN_SECTORS: u32 = 16;

/// Opens a device that a stop may have left, or hands it back with the fault. In this order:
///
/// 1. `ReadOnly` where a database is to be emptied that is opened for reading, and `TooSmall` below
///    16 sectors, with no device call.
/// 2. `Device`. Opened for writing, a commit that a stop cut short is ended first. Opened for
///    reading, nothing is written and nothing synced: the pages of such a commit are read into
///    memory, where `Memory` may come.
/// 3. Where the device is blank: `NotADatabase` without `create`, `ReadOnly` where it is opened for
///    reading, `BadLimit` outside 1 to 1,000,000, `TooSmall` below `needed_sectors_of` the version
///    and the limit, and `Device` while the empty database is made.
/// 4. Where it isn't: `Exists` with `create` and `exclusive`, whatever it holds; `NotADatabase`
///    where the first sector has another magic, `Damaged` where it or a redo image breaks a rule.
/// 5. The meta page's faults, `Version` where it tells neither version 1 nor 2, and `Damaged`.
/// 6. With `truncate`: `BadLimit` and `TooSmall` as above, then `Memory`, `NoRoom` or `Device`
///    while the database is emptied in one commit.
///
/// A database that is there and isn't emptied keeps its limit and its version, whatever `how` has.
/// A stop within it leaves the database that was there, or the empty one that was asked for.
pub fn open_file<D: SectorDev>(
    alloc: Global,
    dev: D,
    how: OpenHow,
) -> Result<OpenFile<Pager<D>>, (D, Fault)>
    ensures early { IfSome (early_fault how (D.sectors dev)) (λ fault. result ≡ Err (dev, fault)) }
    ensures fresh { IfOk result (IsJustOpened (writes how.access) (D.sectors dev / 4)) }

    // Every image of every moment settles as one did at the start, or stands for the empty database
    // that was asked for.
    ensures any_moment { D.honest dev
        → LeavesOnly D.moment (IsOutcome D.left_since (settled (D.sectors dev / 4))) dev
        (device_left result) (MayRemain how (D.sectors dev) (D.candidate dev)) }

    // What it keeps of the meta page is what a file at the start says, whatever else is in it, or
    // that of an empty database.
    ensures opened { D.honest dev
        → IfOk result (λ file. KeepsMeta how (D.sectors dev) (D.candidate dev)
        (model_meta file.meta)) }

    // Where each image at the start is blank or stands for a map, what is opened holds one of these
    // maps, or is new and empty.
    ensures stands { D.honest dev
        → (writes how.access ≡ false → IsStable (D.candidate dev) (D.seen dev))
        → AllStand (D.sectors dev / 4) (D.candidate dev)
        → IfOk result (λ file. (map : Contents) × (bounds : Bounds) × StandsAs file map bounds
        × IsOpened how (D.sectors dev) (D.candidate dev) map bounds) }

    // For reading, nothing is written and nothing synced.
    ensures only_reads { writes how.access ≡ false → D.honest dev
        → OnlyReads D.SectorDev dev (device_left result) }

    // Where each image stands for a map and allows what is asked, nothing but the device and want
    // of memory refuses it.
    ensures opens { D.honest dev → early_fault how (D.sectors dev) ≡ None
        → AllStand (D.sectors dev / 4) (D.candidate dev)
        → AllAllow how (D.sectors dev) (D.candidate dev) →
        IfErr result (λ e. (e.1 ≡ Fault.Device)
        ⊎ ((e.1 ≡ Fault.Memory) × ((how.truncate ≡ true) ⊎ (writes how.access ≡ false)))) }
    ensures refused { D.honest dev → early_fault how (D.sectors dev) ≡ None
        → IfErr result (λ e. e.1 ≢ Fault.Device
        → IsRefusedOpening how (D.sectors dev) (D.candidate dev) (D.candidate e.0) e.1) }
    ensures device { IsOpeningCall D.SectorDev dev result }
    ensures only { IfErr result (λ e.
        (e.1 ≢ Fault.Broken) × (e.1 ≢ Fault.TooLong) × (e.1 ≢ Fault.Full) × (e.1 ≢ Fault.NoPass)
        × (e.1 ≢ Fault.Missing)) }
    ensures size { (D.sectors (device_left result) / 4 ≡ D.sectors dev / 4)
        × (how.truncate ≡ false → D.sectors (device_left result) ≡ D.sectors dev) }
{
    let sectors = dev.capacity();
    if let Some(fault) = early_refusal(how, sectors) {
        return Err((dev, fault));
    }
    match Pager::open(alloc, dev, how.access.is_writable()) {
        Ok(store) => open_there(store, how, sectors),
        Err((dev, OpenFault::Blank)) => make_database(alloc, dev, how),
        Err((dev, OpenFault::Memory)) => Err((dev, Fault::Memory)),
        Err((dev, OpenFault::Device)) => Err((dev, Fault::Device)),
        Err((dev, OpenFault::NotOurs)) => Err((dev, or_exists(how, Fault::NotADatabase))),
        Err((dev, OpenFault::Damaged)) => Err((dev, or_exists(how, Fault::Damaged))),
    }
}

/// What refuses an opening before the device is called.
fn early_refusal(how: OpenHow, sectors: u32) -> Option<Fault>
    ensures { result ≡ early_fault how sectors }
{
    if how.truncate && !how.access.is_writable() {
        return Some(Fault::ReadOnly);
    }
    if sectors < MIN_SECTORS {
        return Some(Fault::TooSmall);
    }
    None
}

/// The fault of a device that is no good file, where a database may be there.
fn or_exists(how: OpenHow, fault: Fault) -> Fault
    ensures { result ≡ (if is_exclusive how then Fault.Exists else fault) }
{
    if how.is_exclusive() {
        Fault::Exists
    } else {
        fault
    }
}

/// The file, where one may be there, emptied where that is asked.
fn open_there<D: SectorDev>(
    store: Pager<D>,
    how: OpenHow,
    sectors: u32,
) -> Result<OpenFile<Pager<D>>, (D, Fault)>
    requires sectors { sectors ≡ D.sectors (device_of store) }
    requires fresh { IsFreshStore (D.sectors (device_of store) / 4) (writes how.access)
        (⟦<Pager<D> as PageStore>⟧.state store) }
    requires written { how.truncate ≡ true → writes how.access ≡ true }
    ensures fresh { IfOk result (IsJustOpened (writes how.access)
        (D.sectors (device_of store) / 4)) }
    ensures any_moment { D.honest (device_of store)
        → LeavesOnly D.moment (IsOutcome D.left_since (settled (D.sectors (device_of store) / 4)))
        (device_of store) (device_left result)
        (λ now. SettlesTo (D.sectors (device_of store) / 4) (D.candidate (device_of store)) now
        ⊎ (EmptiesFile how (D.sectors (device_of store))
        (⟦<Pager<D> as PageStore>⟧.committed store)
        × ImageStandsFor now empty (bounds_of how))) }
    ensures stands { D.honest (device_of store)
        → ((now : Settled) → ⟦<Pager<D> as PageStore>⟧.settles_to store now
        → now ≡ file_of (⟦<Pager<D> as PageStore>⟧.committed store)) →
        (map : Contents) → (bounds : Bounds)
        → FileStandsFor (⟦<Pager<D> as PageStore>⟧.committed store) map bounds
        → IfOk result (λ file. (is_exclusive how ≡ false) × OpensAs how map bounds file) }
    ensures opened { D.honest (device_of store)
        → IfOk result (λ file. KeepsMetaOf how (D.sectors (device_of store))
        (⟦<Pager<D> as PageStore>⟧.committed store) (model_meta file.meta)) }
    ensures emptied { D.honest (device_of store)
        → IfOk result (λ file. how.truncate ≡ true
        → emptying_fault (bounds_of how) (D.sectors (device_of store))
        (length (⟦<Pager<D> as PageStore>⟧.committed store) + 1) ≡ None) }
    ensures only_reads { writes how.access ≡ false → D.honest (device_of store)
        → OnlyReads D.SectorDev (device_of store) (device_left result) }
    ensures refused { D.honest (device_of store)
        → IfErr result (λ e. e.1 ≢ Fault.Device
        → RefusesOpened how (D.sectors (device_of store))
        (⟦<Pager<D> as PageStore>⟧.committed store) e.1 ×
        (writes how.access ≡ true → (after : Image) → IsImageOf (D.candidate e.0) after
        → settled (D.sectors (device_of store) / 4) after
        ≡ file_of (⟦<Pager<D> as PageStore>⟧.committed store))) }
    ensures device { IsOpeningCall D.SectorDev (device_of store) result }
    ensures only { IfErr result (λ e.
        (e.1 ≢ Fault.Broken) × (e.1 ≢ Fault.TooLong) × (e.1 ≢ Fault.Full) × (e.1 ≢ Fault.NoPass)
        × (e.1 ≢ Fault.Missing)) }
    ensures size { (D.sectors (device_left result) / 4 ≡ D.sectors (device_of store) / 4)
        × (how.truncate ≡ false → D.sectors (device_left result) ≡ D.sectors (device_of store)) }
{
    if how.is_exclusive() {
        return Err((store.into_dev(), Fault::Exists));
    }
    find_or_empty(store, how, sectors)
}

/// The file as it is, or emptied where that is asked.
fn find_or_empty<D: SectorDev>(
    store: Pager<D>,
    how: OpenHow,
    sectors: u32,
) -> Result<OpenFile<Pager<D>>, (D, Fault)>
    requires allowed { is_exclusive how ≡ false }
    requires sectors { sectors ≡ D.sectors (device_of store) }
    requires fresh { IsFreshStore (D.sectors (device_of store) / 4) (writes how.access)
        (⟦<Pager<D> as PageStore>⟧.state store) }
    requires written { how.truncate ≡ true → writes how.access ≡ true }
    ensures fresh { IfOk result (IsJustOpened (writes how.access)
        (D.sectors (device_of store) / 4)) }
    ensures any_moment { D.honest (device_of store)
        → LeavesOnly D.moment (IsOutcome D.left_since (settled (D.sectors (device_of store) / 4)))
        (device_of store) (device_left result)
        (λ now. SettlesTo (D.sectors (device_of store) / 4) (D.candidate (device_of store)) now
        ⊎ (EmptiesFile how (D.sectors (device_of store))
        (⟦<Pager<D> as PageStore>⟧.committed store)
        × ImageStandsFor now empty (bounds_of how))) }
    ensures stands { D.honest (device_of store)
        → ((now : Settled) → ⟦<Pager<D> as PageStore>⟧.settles_to store now
        → now ≡ file_of (⟦<Pager<D> as PageStore>⟧.committed store)) →
        (map : Contents) → (bounds : Bounds)
        → FileStandsFor (⟦<Pager<D> as PageStore>⟧.committed store) map bounds
        → IfOk result (λ file. (is_exclusive how ≡ false) × OpensAs how map bounds file) }
    ensures opened { D.honest (device_of store)
        → IfOk result (λ file. KeepsMetaOf how (D.sectors (device_of store))
        (⟦<Pager<D> as PageStore>⟧.committed store) (model_meta file.meta)) }
    ensures emptied { D.honest (device_of store)
        → IfOk result (λ file. how.truncate ≡ true
        → emptying_fault (bounds_of how) (D.sectors (device_of store))
        (length (⟦<Pager<D> as PageStore>⟧.committed store) + 1) ≡ None) }
    ensures only_reads { writes how.access ≡ false → D.honest (device_of store)
        → OnlyReads D.SectorDev (device_of store) (device_left result) }
    ensures refused { D.honest (device_of store)
        → IfErr result (λ e. e.1 ≢ Fault.Device
        → RefusesOpened how (D.sectors (device_of store))
        (⟦<Pager<D> as PageStore>⟧.committed store) e.1 ×
        (writes how.access ≡ true → (after : Image) → IsImageOf (D.candidate e.0) after
        → settled (D.sectors (device_of store) / 4) after
        ≡ file_of (⟦<Pager<D> as PageStore>⟧.committed store))) }
    ensures device { IsOpeningCall D.SectorDev (device_of store) result }
    ensures only { IfErr result (λ e.
        (e.1 ≢ Fault.Broken) × (e.1 ≢ Fault.TooLong) × (e.1 ≢ Fault.Full) × (e.1 ≢ Fault.NoPass)
        × (e.1 ≢ Fault.Missing)) }
    ensures size { (D.sectors (device_left result) / 4 ≡ D.sectors (device_of store) / 4)
        × (how.truncate ≡ false → D.sectors (device_left result) ≡ D.sectors (device_of store)) }
{
    let found = find_database(store, how.access.is_writable());
    if !how.truncate {
        return found;
    }
    match found {
        Ok(file) => empty_database(file.store, how, sectors),
        Err(refused) => Err(refused),
    }
}

/// The file as it is.
fn find_database<D: SectorDev>(
    store: Pager<D>,
    writable: bool,
) -> Result<OpenFile<Pager<D>>, (D, Fault)>
    requires fresh { IsFreshStore (D.sectors (device_of store) / 4) writable
        (⟦<Pager<D> as PageStore>⟧.state store) }
    ensures fresh { IfOk result (IsJustOpened writable (D.sectors (device_of store) / 4)) }
    ensures only_reads { D.honest (device_of store)
        → OnlyReads D.SectorDev (device_of store) (device_left result) }
    ensures kept { D.honest (device_of store)
        → IfOk result (λ file. ⟦<Pager<D> as PageStore>⟧.committed file.store
        ≡ ⟦<Pager<D> as PageStore>⟧.committed store) }
    ensures says { D.honest (device_of store)
        → IfOk result (λ file. IsMeta (model_meta file.meta)
        × (body_of 1 (page_of (⟦<Pager<D> as PageStore>⟧.committed store) 1)
        ≡ MetaPage (model_meta file.meta))) }
    ensures stands { D.honest (device_of store)
        → ((now : Settled) → ⟦<Pager<D> as PageStore>⟧.settles_to store now
        → now ≡ file_of (⟦<Pager<D> as PageStore>⟧.committed store)) →
        (map : Contents) → (bounds : Bounds)
        → FileStandsFor (⟦<Pager<D> as PageStore>⟧.committed store) map bounds
        → IfOk result (λ file. StandsAs file map bounds) }
    ensures refused { D.honest (device_of store)
        → IfErr result (λ e. e.1 ≢ Fault.Device
        → RefusesMeta (page_of (⟦<Pager<D> as PageStore>⟧.committed store) 1) e.1) }
    ensures device { IsOpeningCall D.SectorDev (device_of store) result }
    ensures only { IfErr result (λ e.
        (e.1 ≡ Fault.Device) ⊎ ((e.1 ≡ Fault.Version) ⊎ (e.1 ≡ Fault.Damaged))) }
    ensures size { D.sectors (device_left result) ≡ D.sectors (device_of store) }
{
    let mut store = store;
    let mut page = Page::blank();
    if let Err(fault) = store.read(1, &mut page) {
        return Err((store.into_dev(), Fault::from(fault)));
    }
    match read_meta(&page) {
        Ok(meta) => Ok(OpenFile {
            store,
            meta,
            writable,
        }),
        Err(MetaFault::Version) => Err((store.into_dev(), Fault::Version)),
        Err(MetaFault::Damaged) => Err((store.into_dev(), Fault::Damaged)),
    }
}
