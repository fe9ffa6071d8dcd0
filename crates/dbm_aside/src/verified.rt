// A table beside the one of its name that is whole, and how it gets its name.
ghost use Rattle.std.specs.Prelude.{◌≡◌, IfOk, IfErr};
ghost use Rattle.dbm_aside.specs.Stops.{IsOfDatabase};
ghost use Rattle.dbm_file.specs.Database.{store_of};
ghost use Rattle.dbm_file.specs.Verifying.{IsFileOf};

use crate::aside::{Aside, device_of, taken};
use crate::looking::look_through;
use crate::naming::{is_under, sync_folder};
use crate::stop::Stop;
use dbm_fault::EngineFault;
use dbm_file::{Access, CommitKind, Database, Db, OpenHow, Version};
use dbm_progress::Progress;
use page_cache::CachedPages;
use page_io::PageStore;
use redo_area::Pager;
use sect_dev::{FileDev, SectorDev};
use std::alloc::Global;
use std::fs::{File, Permissions};
use std::io;
use std::os::unix::fs::PermissionsExt;
use std::rt::Files;

/// A file beside a table's that was synced, opened for reading and looked through. Its lock is
/// shared: whoever opens it under the table's name for reading isn't refused, and nobody writes it.
pub struct Verified {
    db: Db<FileDev>,
    pairs: u32,
    // The pages that were read are a good file of so many pairs.
    ghost whole: { ⟦<CachedPages<Pager<FileDev>> as PageStore>⟧.honest (store_of db)
        → ∥ IsFileOf (⟦<CachedPages<Pager<FileDev>> as PageStore>⟧.committed (store_of db))
        pairs ∥₁ },
}

impl Drop for Verified {
    fn drop(self) {
        let Verified { db, pairs } = self;
    }
}

impl Verified {
    /// Gives the file that was built under a path the mode that is wanted, syncs it, opens it for
    /// reading, as a program will that reads the table, and looks it through. Refused where another
    /// process took the file away between the end of its writing and this opening.
    pub fn of<T: Files<File = File>, P: Progress>(
        rt: &T,
        alloc: Global,
        path: &str,
        made: &File,
        mode: u32,
        progress: &mut P,
    ) -> Result<Verified, Stop>
        ensures { IfErr result (λ stop. IsOfDatabase stop.fault) }
    {
        let dev = synced(rt, path, made, mode)?;
        let mut db = open_table(alloc, dev)?;
        match look_through(alloc, &mut db, progress) {
            Ok(pairs) => Ok(Verified { db, pairs }),
            Err(fault) => Err(Stop {
                fault,
                system: db.dev().last_error(),
            }),
        }
    }

    /// How many pairs it has.
    pub fn pairs(&self) -> u32
        ensures { result ≡ self.now.pairs }
    {
        self.pairs
    }

    /// Gives the file the name of a table, in the place of the file that has that name, in one step,
    /// and syncs the folder. Where the renaming fails that file stays.
    pub fn replace<T: Files<File = File>>(&self, rt: &T, path: &str, name: &str) -> io::Result<u32>
        ensures { IfOk result (λ pairs. pairs ≡ self.now.pairs) }
    {
        rt.rename(path, name)?;
        sync_folder(rt, name)?;
        Ok(self.pairs)
    }

    /// Gives the file the name of a table where nothing has that name, in one step, and syncs the
    /// folder. A link is made, which is refused where the name is there, and the first name is then
    /// removed: a renaming would take the place of a file that was made meanwhile.
    pub fn put<T: Files<File = File>>(&self, rt: &T, path: &str, name: &str) -> io::Result<u32>
        ensures { IfOk result (λ pairs. pairs ≡ self.now.pairs) }
    {
        rt.hard_link(path, name)?;
        rt.remove_file(path)?;
        sync_folder(rt, name)?;
        Ok(self.pairs)
    }
}

/// Gives a file its mode, syncs it, and opens it again under its path.
fn synced<T: Files<File = File>>(
    rt: &T,
    path: &str,
    made: &File,
    mode: u32,
) -> io::Result<FileDev> {
    made.set_permissions(Permissions::from_mode(mode & 0o777))?;
    made.sync_all()?;
    let dev = device_of(rt, path, false)?;
    if is_under(rt, made, path)? {
        Ok(dev)
    } else {
        Err(taken())
    }
}

/// Opens a table for reading, on a device.
fn open_table(alloc: Global, dev: FileDev) -> Result<Db<FileDev>, Stop>
    ensures { IfErr result (λ stop. IsOfDatabase stop.fault) }
{
    let how = OpenHow {
        access: Access::ReadOnly,
        create: false,
        exclusive: false,
        truncate: false,
        limit: 0,
        version: Version::V1,
        commits: CommitKind::Images,
        kept_pages: None,
    };
    opened(alloc, dev, how)
}

/// Opens a table on a device.
pub fn opened(alloc: Global, dev: FileDev, how: OpenHow) -> Result<Db<FileDev>, Stop>
    ensures { IfErr result (λ stop. IsOfDatabase stop.fault) }
{
    match Db::open(alloc, dev, how) {
        Ok(db) => Ok(db),
        Err((dev, fault)) => Err(Stop {
            fault: EngineFault::Db(fault),
            system: dev.last_error(),
        }),
    }
}
