//! Opening a device, and closing it.

ghost use Rattle.std.specs.Prelude.{◌≡◌, ◌≢◌, ◌⊎◌, ◌↔◌, ◌≤◌, ◌<◌, ◌/◌, IfOk, IfErr, IfSome, OnOk, IsErrOf, None, Err, true, false, [], ◌∷◌};
ghost use Rattle.std.specs.FinMap.{empty};
ghost use Rattle.dbm_model.specs.Bounds.{Bounds};
ghost use Rattle.sect_dev.specs.Device.{Image, IsImageOf, IsStable, LeavesOnly, MoreFaults};
ghost use Rattle.sect_dev.specs.Moments.{IsOutcome};
ghost use Rattle.dbm_model.specs.Pairs.{Contents};
ghost use Rattle.page_io.specs.Answers.{HasDeviceCause, IsSettleAnswer};
ghost use Rattle.page_io.specs.Meaning.{ImageStandsFor};
ghost use Rattle.redo_area.specs.File.{settled};
ghost use Rattle.redo_area.specs.Opening.{IsClosed};
ghost use Rattle.redo_area.specs.Pagers.{device_of};
ghost use Rattle.dbm_fault.specs.Among.{IsErrAmong};
ghost use Rattle.sect_dev.specs.Reads.{OnlyReads};
ghost use Rattle.dbm_model.specs.States.{Handle};
ghost use Rattle.dbm_file.specs.Database.{store_of, meta_kept, page_state, IsAt};
ghost use Rattle.file_opening.specs.Opening.{writes, early_fault, IsRefusedOpening, AllAllow, MayRemain, AllStand, KeepsMeta, IsOpened};
ghost use Rattle.page_cache.specs.Stores.{store_below, most_kept};
ghost use Rattle.dbm_file.specs.Opened.{pages_kept, device_below, kind_below, device_opened, AllHaveRoom, HasRoom, IsNewlyOpened, IsOpenedAt};

use crate::database::{Database, Db};
use crate::pass::Pass;
use crate::{Fault, OpenHow};
use bucket_chain::{NearContent, RankedPage};
use file_opening::open_file;
use page_cache::CachedPages;
use page_io::{Page, PageFault, PageStore};
use redo_area::{CommitKind, Pager};
use sect_dev::SectorDev;
use std::alloc::Global;
use std::num::NonZeroUsize;

/// How many pages that were read may be kept in memory.
const MOST_KEPT: u32 = 65_536;

/// A store over this one that keeps so many of the pages that were read, or 256.
fn keeping<S: PageStore>(alloc: Global, store: S, pages: Option<u32>) -> CachedPages<S>
    ensures store { store_below result ≡ store }
    ensures most { most_kept result ≡ pages_kept pages }
{
    let mut cached = CachedPages::new(alloc, store);
    if let Some(pages) = pages {
        let most = NonZeroUsize::new(pages.clamp(1, MOST_KEPT) as usize);
        if let Some(most) = most {
            cached.keep_up_to(most);
        }
    }
    cached
}

impl<D: SectorDev> Database<CachedPages<Pager<D>>> {
    /// Opens a device that a stop may have left, or hands it back with the fault. In this order:
    ///
    /// 1. `ReadOnly` where a database is to be emptied that is opened for reading, and `TooSmall`
    ///    below 16 sectors, with no device call.
    /// 2. `Device`. Opened for writing, a commit that a stop cut short is ended first. Opened for
    ///    reading, nothing is written and nothing synced: the pages of such a commit are read into
    ///    memory, where `Memory` may come.
    /// 3. Where the device is blank: `NotADatabase` without `create`, `ReadOnly` where it is opened
    ///    for reading, `BadLimit` outside 1 to 1,000,000, `TooSmall` below `needed_sectors_of` the
    ///    version asked for, and `Device` while the empty database is made.
    /// 4. Where it isn't: `Exists` with `create` and `exclusive`, whatever it holds; `NotADatabase`
    ///    where the first sector has another magic, `Damaged` where it or a redo image breaks a
    ///    rule.
    /// 5. The meta page's faults, `Version` and `Damaged`.
    /// 6. With `truncate`: `BadLimit` and `TooSmall` as above, then `Memory`, `NoRoom` or `Device`
    ///    while the database is emptied in one commit.
    ///
    /// A stop within it leaves the database that was there, or the empty one that was asked for.
    pub fn open(alloc: Global, dev: D, how: OpenHow) -> Result<Db<D>, (D, Fault)>
        ensures early { IfSome (early_fault how (D.sectors dev))
            (λ fault. result ≡ Err (dev, fault)) }
        ensures fresh { IfOk result (IsNewlyOpened (writes how.access) (D.sectors dev / 4)) }
        ensures kept_pages { IfOk result (λ db.
            most_kept (store_of db) ≡ pages_kept how.kept_pages) }

        // Every image of every moment settles as one did at the start, or stands for the empty
        // database that was asked for.
        ensures any_moment { D.honest dev
            → LeavesOnly D.moment (IsOutcome D.left_since (settled (D.sectors dev / 4))) dev
            (device_opened result) (MayRemain how (D.sectors dev) (D.candidate dev)) }

        // What it keeps of the meta page is what a file at the start says, whatever else is in it,
        // or that of an empty database.
        ensures opened { D.honest dev
            → IfOk result (λ db. KeepsMeta how (D.sectors dev) (D.candidate dev) (meta_kept db)) }

        // Where each image at the start is blank or stands for a map, what is opened holds one of
        // these maps, or is new and empty.
        ensures stands { D.honest dev
            → (writes how.access ≡ false → IsStable (D.candidate dev) (D.seen dev))
            → AllStand (D.sectors dev / 4) (D.candidate dev)
            → IfOk result (λ db. (map : Contents) × (bounds : Bounds)
            × IsOpenedAt (writes how.access) db map bounds
            × IsOpened how (D.sectors dev) (D.candidate dev) map bounds) }

        // For reading, nothing is written and nothing synced.
        ensures only_reads { writes how.access ≡ false → D.honest dev
            → OnlyReads D.SectorDev dev (device_opened result) }

        // Where each image stands for a map and allows what is asked, nothing but the device and
        // want of memory refuses it.
        ensures opens { D.honest dev → early_fault how (D.sectors dev) ≡ None
            → AllStand (D.sectors dev / 4) (D.candidate dev)
            → AllAllow how (D.sectors dev) (D.candidate dev) →
            IfErr result (λ e. (e.1 ≡ Fault.Device)
            ⊎ ((e.1 ≡ Fault.Memory) × ((how.truncate ≡ true)
            ⊎ (writes how.access ≡ false)))) }

        // Where the device has twice the pages that the limit of each map needs, there is room: it
        // is not refused for want of it, and what is opened has it.
        ensures room { D.honest dev → AllHaveRoom (D.sectors dev / 4) (D.candidate dev)
            → IfErr result (λ e. e.1 ≢ Fault.NoRoom) × IfOk result HasRoom }
        ensures refused { D.honest dev → early_fault how (D.sectors dev) ≡ None
            → IfErr result (λ e. e.1 ≢ Fault.Device
            → IsRefusedOpening how (D.sectors dev) (D.candidate dev) (D.candidate e.0) e.1) }
        ensures device { IfErr result
            (λ e. e.1 ≡ Fault.Device → MoreFaults (D.faults dev) (D.faults e.0)) }
        ensures only { IfErr result (λ e.
            (e.1 ≢ Fault.Broken) × (e.1 ≢ Fault.TooLong) × (e.1 ≢ Fault.Full)
            × (e.1 ≢ Fault.NoPass) × (e.1 ≢ Fault.Missing)) }
        ensures honesty { D.honest (device_opened result) ↔ D.honest dev }
        ensures later { D.faults dev ≤ D.faults (device_opened result) }
        ensures size { (D.sectors (device_opened result) / 4 ≡ D.sectors dev / 4)
            × (how.truncate ≡ false → D.sectors (device_opened result) ≡ D.sectors dev) }
    {
        match open_file(alloc, dev, how) {
            Ok(file) => Ok(Database {
                store: keeping(alloc, file.store, how.kept_pages),
                meta: file.meta,
                page: Page::blank(),
                near: NearContent::new(),
                far: Vec::new(alloc),
                error: None,
                pass: Pass::NotBegun,
                ranked: RankedPage::new(),
                writable: file.writable,
                alloc,
            }),
            Err(refused) => Err(refused),
        }
    }

    /// How the file's commits are made.
    pub fn commit_kind(&self) -> CommitKind
        ensures { result ≡ kind_below self.now }
    {
        self.store.inner().commit_kind()
    }

    /// The device below.
    pub fn dev(&self) -> &D
        ensures { result.now ≡ device_below self.now }
    {
        self.store.inner().dev()
    }

    /// Closes a database, and gives the device back (POSIX: `dbm_close`). Pages of the last commit
    /// that still wait are put in their places first, but for those in a log, which the next opening
    /// takes over: `Device` where that fails, which loses nothing, for the next opening ends it.
    /// `Broken` where a change was left in doubt. No device call is made then, nor for a database
    /// opened for reading, nor for one whose last commit is in a log.
    pub fn close(self) -> (D, Result<(), Fault>)
        ensures broken { (result.1 ≡ Err Fault.Broken) ↔ ((page_state self).usable ≡ false) }
        ensures device { result.1 ≡ Err Fault.Device
            → MoreFaults (D.faults (device_below self)) (D.faults result.0) }
        ensures only { IsErrAmong result.1 (Fault.Broken ∷ Fault.Device ∷ []) }
        ensures untouched { ((page_state self).usable ≡ false) ⊎ ((page_state self).writable ≡ false)
            → result.0 ≡ device_below self }

        // Every image of every moment settles to something that the store of the database might
        // have been left with, whatever is answered.
        ensures any_moment { D.honest (device_below self)
            → LeavesOnly D.moment
            (IsOutcome D.left_since (settled (D.sectors (device_below self) / 4)))
            (device_below self) result.0
            (⟦<CachedPages<Pager<D>> as PageStore>⟧.settles_to (store_of self)) }

        // So does each image that is now left, of a broken database too.
        ensures settles { D.honest (device_below self) → (image : Image)
            → IsImageOf (D.candidate result.0) image
            → ⟦<CachedPages<Pager<D>> as PageStore>⟧.settles_to (store_of self)
            (settled (D.sectors result.0 / 4) image) }

        // Every image that is now left stands for the map of the database that was closed.
        ensures stands { D.honest result.0 → (h : Handle) → IsAt self h → h.state.usable ≡ true
            → (image : Image) → IsImageOf (D.candidate result.0) image
            → ImageStandsFor (settled (D.sectors result.0 / 4) image) h.state.map h.state.bounds }

        // Of a database opened for writing all is then on the disk. No commit is on its way, but for
        // one in a log.
        ensures closed { D.honest result.0 → (page_state self).writable ≡ true
            → OnOk result.1 (IsClosed (D.sectors result.0 / 4) (page_state self).end
            (D.candidate result.0) (D.seen result.0)) }
        ensures honesty { D.honest result.0 ↔ D.honest (device_below self) }
        ensures later { D.faults (device_below self) ≤ D.faults result.0 }
        ensures size { D.sectors result.0 / 4 ≡ D.sectors (device_below self) / 4 }
    {
        let mut store = self.store;
        let rested = rest(&mut store);
        let dev = store.into_inner().into_dev();
        (dev, rested.map_err(Fault::from))
    }
}

// Leaves a store as a closing does: pages of the last commit that wait come to their places, but for
// those in a log.
fn rest<D: SectorDev>(store: &mut CachedPages<Pager<D>>) -> Result<(), PageFault>
    ensures any_moment { ⟦<CachedPages<Pager<D>> as PageStore>⟧.honest store.old
        → LeavesOnly ⟦<CachedPages<Pager<D>> as PageStore>⟧.moment
        ⟦<CachedPages<Pager<D>> as PageStore>⟧.settled_since store.old store.new
        (⟦<CachedPages<Pager<D>> as PageStore>⟧.settles_to store.old) }
    ensures closed { D.honest (device_of (store_below store.new))
        → (⟦<CachedPages<Pager<D>> as PageStore>⟧.state store.old).writable ≡ true
        → OnOk result (IsClosed (D.sectors (device_of (store_below store.new)) / 4)
        (⟦<CachedPages<Pager<D>> as PageStore>⟧.state store.old).end
        (D.candidate (device_of (store_below store.new)))
        (D.seen (device_of (store_below store.new)))) }
    ensures ok { OnOk result (⟦<CachedPages<Pager<D>> as PageStore>⟧.state store.new
        ≡ ⟦<CachedPages<Pager<D>> as PageStore>⟧.state store.old) }
    ensures breaks { IsErrOf result PageFault.Device
        → ⟦<CachedPages<Pager<D>> as PageStore>⟧.state store.new
        ≡ record (⟦<CachedPages<Pager<D>> as PageStore>⟧.state store.old) { usable = false } }
    ensures untouched { ((⟦<CachedPages<Pager<D>> as PageStore>⟧.state store.old).usable ≡ false)
        ⊎ ((⟦<CachedPages<Pager<D>> as PageStore>⟧.state store.old).writable ≡ false)
        → store.new ≡ store.old }
    ensures answer { IsSettleAnswer (⟦<CachedPages<Pager<D>> as PageStore>⟧.state store.old) result }
    ensures honesty { ⟦<CachedPages<Pager<D>> as PageStore>⟧.honest store.new
        ↔ ⟦<CachedPages<Pager<D>> as PageStore>⟧.honest store.old }
    ensures cause { HasDeviceCause (⟦<CachedPages<Pager<D>> as PageStore>⟧.faults store.old)
        (⟦<CachedPages<Pager<D>> as PageStore>⟧.faults store.new) result }
{
    if !store.is_broken() && store.inner().is_in_log() {
        return Ok(());
    }
    store.settle()
}
