// A table that is built beside another one, which is open for reading meanwhile.

ghost use Rattle.std.specs.Prelude.{IfErr};
ghost use Rattle.dbm_aside.specs.Stops.{IsOfDatabase, Ends};

use crate::aside::{Aside, give_up, own_as};
use crate::naming::{Names, found_at, names_of};
use crate::stop::Stop;
use crate::verified::{Verified, opened};
use dbm_fault::EngineFault;
use dbm_file::{Access, CommitKind, Db, Fault, OpenHow, Refusal, Version, open_named};
use dbm_progress::Progress;
use sect_dev::FileDev;
use std::alloc::Global;
use std::fs::{File, Metadata};
use std::io;
use std::os::unix::fs::MetadataExt;
use std::rt::Files;

/// The table of a name, open for reading, and a new one beside it, open for writing.
#[derive(Drop)]
pub struct Building {
    pub old: Db<FileDev>,
    pub new: Db<FileDev>,
    names: Names,
    made: File,
    mode: u32,
}

/// Makes an empty table in `NAME.db.new` beside the one of this name, which is opened for reading:
/// of its version, its kind, its owner and its mode, and of this limit, or of its own where none is
/// given. `Missing` where the table isn't there, before anything is made; `Device` with an error of
/// the kind `WouldBlock` where a writer has it open, or another process builds beside it; then what
/// an opening for reading is refused by, and `BadLimit` of a limit outside 1 to 1,000,000.
pub fn begin_building<T: Files<File = File>>(
    rt: &T,
    alloc: Global,
    file: &str,
    limit: Option<u32>,
) -> Result<Building, Refusal> {
    match build(rt, alloc, file, limit) {
        Ok(building) => Ok(building),
        Err(stop) => Err(stop.refusal()),
    }
}

/// As `begin_building`. What was made is taken away where it is refused.
fn build<T: Files<File = File>>(
    rt: &T,
    alloc: Global,
    file: &str,
    limit: Option<u32>,
) -> Result<Building, Stop>
    ensures { IfErr result (λ stop. IsOfDatabase stop.fault) }
{
    let names = names_of(alloc, file)?;
    is_replaceable(rt, &names.file)?;
    let aside = Aside::make(rt, &names.aside)?;
    match start(rt, alloc, file, &names, aside, limit) {
        Ok((old, new, made, mode)) => Ok(Building {
            old,
            new,
            names,
            made,
            mode,
        }),
        Err(stop) => {
            give_up(rt, &names.aside);
            Err(stop)
        }
    }
}

/// Whether a file may be replaced: it is there, and its name is its own. A symbolic link would give
/// way to the new file, and what it leads to would stay as it was.
fn is_replaceable<T: Files<File = File>>(rt: &T, path: &str) -> Result<(), Stop>
    ensures { IfErr result (λ stop. IsOfDatabase stop.fault) }
{
    let Some(found) = found_at(rt, path)? else {
        return Err(Stop::from(Fault::Missing));
    };
    if found.is_symlink() {
        return Err(Stop::from(io::Error::other(
            "the file is a symbolic link: give the name of the file that it leads to",
        )));
    }
    Ok(())
}

/// The two tables, the file of the new one, and the mode of the old one's. The old one is opened
/// once this process has the file beside it: from then on no other takes its place.
fn start<T: Files<File = File>>(
    rt: &T,
    alloc: Global,
    file: &str,
    names: &Names,
    aside: Aside,
    limit: Option<u32>,
) -> Result<(Db<FileDev>, Db<FileDev>, File, u32), Stop>
    ensures { IfErr result (λ stop. IsOfDatabase stop.fault) }
{
    let old = open_named(
        rt,
        alloc,
        file,
        how(Access::ReadOnly, 0, Version::V1, CommitKind::Images),
    )?;
    let mode = own_as_old(rt, names, &aside)?;
    let limit = limit.unwrap_or(old.stat().limit);
    let new = opened(
        alloc,
        aside.dev,
        how(Access::ReadWrite, limit, old.version(), old.commit_kind()),
    )?;
    Ok((old, new, aside.made, mode))
}

/// Gives the new file the owner of the old one, whose mode is the answer.
fn own_as_old<T: Files<File = File>>(rt: &T, names: &Names, aside: &Aside) -> io::Result<u32> {
    let like = rt.metadata(&names.file)?;
    own_as(&aside.made, &like)?;
    Ok(like.mode())
}

/// For writing a new database is made.
fn how(access: Access, limit: u32, version: Version, commits: CommitKind) -> OpenHow {
    let create = access.is_writable();
    OpenHow {
        access,
        create,
        exclusive: create,
        truncate: false,
        limit,
        version,
        commits,
        kept_pages: None,
    }
}

impl Building {
    /// Ends the building after the new table was filled. Where that went well, the table is closed,
    /// synced and looked through, and then takes the place of the old one, which is open until then;
    /// the answer is how many pairs it has. Where anything fails, the old one stays, and the new one
    /// is removed.
    pub fn end<T: Files<File = File>, P: Progress>(
        self,
        rt: &T,
        alloc: Global,
        filled: Result<(), EngineFault>,
        progress: &mut P,
    ) -> Result<u32, Stop>
        ensures { Ends filled result }
    {
        let names = self.names;
        let done = match close_after(self.new, filled) {
            Ok(()) => put(rt, alloc, &names, &self.made, self.mode, progress),
            Err(stop) => Err(stop),
        };
        if done.is_err() {
            give_up(rt, &names.aside);
        }
        done
    }
}

/// Closes the new table after what was done with it, and with it its lock ends. Of two failures the
/// earlier one is told.
fn close_after(new: Db<FileDev>, filled: Result<(), EngineFault>) -> Result<(), Stop>
    ensures { Ends filled result }
{
    let (dev, closing) = new.close();
    let system = dev.last_error();
    match (filled, closing) {
        (Ok(()), Ok(())) => Ok(()),
        (Err(fault), _) => Err(Stop { fault, system }),
        (Ok(()), Err(fault)) => Err(Stop {
            fault: EngineFault::Db(fault),
            system,
        }),
    }
}

/// Looks the new table through, and renames its file over the old one's. Nothing is left to do then
/// but to sync the folder.
fn put<T: Files<File = File>, P: Progress>(
    rt: &T,
    alloc: Global,
    names: &Names,
    made: &File,
    mode: u32,
    progress: &mut P,
) -> Result<u32, Stop>
    ensures { IfErr result (λ stop. IsOfDatabase stop.fault) }
{
    let whole = Verified::of(rt, alloc, &names.aside, made, mode, progress)?;
    Ok(whole.replace(rt, &names.aside, &names.file)?)
}
