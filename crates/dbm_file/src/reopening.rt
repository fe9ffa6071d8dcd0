//! Opening a device over a file whose last sync may have failed.

ghost use Rattle.std.specs.Prelude.{◌≡◌, ◌≢◌, ◌⊎◌, ◌↔◌, ◌≤◌, ◌/◌, IfOk, IfErr, IfSome, None, Err, true, false};
ghost use Rattle.dbm_model.specs.Bounds.{Bounds};
ghost use Rattle.dbm_model.specs.Pairs.{Contents};
ghost use Rattle.sect_dev.specs.Device.{IsStable, LeavesOnly, MoreFaults};
ghost use Rattle.sect_dev.specs.Moments.{IsOutcome};
ghost use Rattle.sect_dev.specs.Reads.{OnlyReads};
ghost use Rattle.page_cache.specs.Stores.{most_kept};
ghost use Rattle.redo_area.specs.File.{settled};
ghost use Rattle.file_opening.specs.Opening.{writes, early_fault, IsRefusedOpening, AllAllow, MayRemain, AllStand, KeepsMeta, IsOpened};
ghost use Rattle.dbm_file.specs.Database.{store_of, meta_kept};
ghost use Rattle.dbm_file.specs.Opened.{pages_kept, device_opened, AllHaveRoom, HasRoom, IsNewlyOpened, IsOpenedAt};

use crate::database::{Database, Db};
use crate::{Fault, OpenHow};
use page_cache::CachedPages;
use redo_area::{Pager, change_turn, write_back};
use sect_dev::SectorDev;
use std::alloc::Global;

/// The sectors of the smallest file.
const MIN_SECTORS: u32 = 16;

impl<D: SectorDev> Database<CachedPages<Pager<D>>> {
    /// As `open`, of a device over a file. For writing, the turn number is another one first, so that
    /// programs that share the file look at it anew. Then the commit sector is written back, and a
    /// log that it names, with the bytes that they have, so that the first sync of the opening has
    /// them on the disk.
    ///
    /// A system may drop what it could not write, show it to reads all the same, and answer the next
    /// sync with `Ok`; Linux does. So behind a sync that failed, a commit sector or a log may be read
    /// that the disk doesn't have, and what is built on it would not outlast a power cut. The redo
    /// images need no such care, since a commit sector is armed only once they are synced. On an
    /// honest device the same bytes add nothing that a stop could leave.
    pub fn open_again(alloc: Global, dev: D, how: OpenHow) -> Result<Db<D>, (D, Fault)>
        ensures early { IfSome (early_fault how (D.sectors dev))
            (λ fault. result ≡ Err (dev, fault)) }
        ensures fresh { IfOk result (IsNewlyOpened (writes how.access) (D.sectors dev / 4)) }
        ensures kept_pages { IfOk result (λ db.
            most_kept (store_of db) ≡ pages_kept how.kept_pages) }

        // Every image of every moment settles as one did at the start, or stands for the empty
        // database that was asked for.
        ensures any_moment { D.honest dev
            → LeavesOnly D.moment (IsOutcome D.left_since (settled (D.sectors dev / 4))) dev
            (device_opened result) (MayRemain how (D.sectors dev) (D.candidate dev)) }

        // What it keeps of the meta page is what a file at the start says, whatever else is in it,
        // or that of an empty database.
        ensures opened { D.honest dev
            → IfOk result (λ db. KeepsMeta how (D.sectors dev) (D.candidate dev) (meta_kept db)) }

        // Where each image at the start is blank or stands for a map, what is opened holds one of
        // these maps, or is new and empty.
        ensures stands { D.honest dev
            → (writes how.access ≡ false → IsStable (D.candidate dev) (D.seen dev))
            → AllStand (D.sectors dev / 4) (D.candidate dev)
            → IfOk result (λ db. (map : Contents) × (bounds : Bounds)
            × IsOpenedAt (writes how.access) db map bounds
            × IsOpened how (D.sectors dev) (D.candidate dev) map bounds) }

        // For reading, nothing is written and nothing synced.
        ensures only_reads { writes how.access ≡ false → D.honest dev
            → OnlyReads D.SectorDev dev (device_opened result) }

        // Where each image stands for a map and allows what is asked, nothing but the device and
        // want of memory refuses it.
        ensures opens { D.honest dev → early_fault how (D.sectors dev) ≡ None
            → AllStand (D.sectors dev / 4) (D.candidate dev)
            → AllAllow how (D.sectors dev) (D.candidate dev) →
            IfErr result (λ e. (e.1 ≡ Fault.Device)
            ⊎ ((e.1 ≡ Fault.Memory) × ((how.truncate ≡ true)
            ⊎ (writes how.access ≡ false)))) }

        // Where the device has twice the pages that the limit of each map needs, there is room: it
        // is not refused for want of it, and what is opened has it.
        ensures room { D.honest dev → AllHaveRoom (D.sectors dev / 4) (D.candidate dev)
            → IfErr result (λ e. e.1 ≢ Fault.NoRoom) × IfOk result HasRoom }
        ensures refused { D.honest dev → early_fault how (D.sectors dev) ≡ None
            → IfErr result (λ e. e.1 ≢ Fault.Device
            → IsRefusedOpening how (D.sectors dev) (D.candidate dev) (D.candidate e.0) e.1) }
        ensures device { IfErr result
            (λ e. e.1 ≡ Fault.Device → MoreFaults (D.faults dev) (D.faults e.0)) }
        ensures only { IfErr result (λ e.
            (e.1 ≢ Fault.Broken) × (e.1 ≢ Fault.TooLong) × (e.1 ≢ Fault.Full)
            × (e.1 ≢ Fault.NoPass) × (e.1 ≢ Fault.Missing)) }
        ensures honesty { D.honest (device_opened result) ↔ D.honest dev }
        ensures later { D.faults dev ≤ D.faults (device_opened result) }
        ensures size { (D.sectors (device_opened result) / 4 ≡ D.sectors dev / 4)
            × (how.truncate ≡ false → D.sectors (device_opened result) ≡ D.sectors dev) }
    {
        let mut dev = dev;
        if !how.access.is_writable() || dev.capacity() < MIN_SECTORS {
            return Db::open(alloc, dev, how);
        }
        if change_turn(&mut dev).is_err() || write_back(&mut dev).is_err() {
            return Err((dev, Fault::Device));
        }
        Db::open(alloc, dev, how)
    }
}
