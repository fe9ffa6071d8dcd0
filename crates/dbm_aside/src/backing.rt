// Copies of a table's file.
ghost use Rattle.std.specs.Prelude.{IfErr};
ghost use Rattle.dbm_aside.specs.Stops.{IsOfDatabase};

use crate::aside::{Aside, give_up, own_as};
use crate::naming::{Names, above_standard, found_at, names_of};
use crate::stop::Stop;
use crate::verified::Verified;
use dbm_file::{Fault, Refusal, refuse_pipe};
use dbm_progress::Progress;
use std::alloc::Global;
use std::fs::{File, Metadata, TryLockError};
use std::io::{self, ErrorKind};
use std::os::unix::fs::{FileExt, MetadataExt};
use std::rt::Files;

/// The file of a table that is to be copied, with a lock that other readers share.
#[derive(Drop)]
pub struct Source {
    file: File,
}

/// Opens the table of this name, the file `FILE.db`, to be copied. `Missing` where it isn't there,
/// and `Device` with an error of the kind `WouldBlock` where a writer has it open.
pub fn open_source<T: Files<File = File>>(
    rt: &T,
    alloc: Global,
    file: &str,
) -> Result<Source, Refusal> {
    match locked_source(rt, alloc, file) {
        Ok(file) => Ok(Source { file }),
        Err(stop) => Err(stop.refusal()),
    }
}

/// Copies a table to another name, at which there is none, and answers how many pairs it has. The
/// bytes of the source are copied into `TO.db.new`, with its owner and its mode; the copy is synced,
/// opened for reading and looked through, gets the name `TO.db`, and the folder is synced.
///
/// `Exists` where the copy's name is there, which then stays as it is: a copy that is damaged or
/// older is never lost before there is another, since no name is given twice. `Device` where another
/// process makes that copy. Then what an opening for reading and `verify` are refused by.
pub fn backup<T: Files<File = File>, P: Progress>(
    rt: &T,
    alloc: Global,
    source: &Source,
    to: &str,
    progress: &mut P,
) -> Result<u32, Stop>
    ensures { IfErr result (λ stop. IsOfDatabase stop.fault) }
{
    let to = names_of(alloc, to)?;
    refuse_existing(rt, &to.file)?;
    let aside = Aside::make(rt, &to.aside)?;
    let done = copy_aside(rt, alloc, &source.file, aside, &to, progress);
    if done.is_err() {
        give_up(rt, &to.aside);
    }
    done
}

/// Refuses a name that something has.
fn refuse_existing<T: Files<File = File>>(rt: &T, path: &str) -> Result<(), Stop>
    ensures { IfErr result (λ stop. IsOfDatabase stop.fault) }
{
    if found_at(rt, path)?.is_some() {
        return Err(Stop::from(Fault::Exists));
    }
    Ok(())
}

/// Opens the file of a table, with a lock that other readers share.
fn locked_source<T: Files<File = File>>(rt: &T, alloc: Global, file: &str) -> Result<File, Stop>
    ensures { IfErr result (λ stop. IsOfDatabase stop.fault) }
{
    let names = names_of(alloc, file)?;
    refuse_pipe(rt, &names.file)?;
    let source = match File::open(rt, &names.file) {
        Err(error) if error.kind() == ErrorKind::NotFound => {
            return Err(Stop::from(Fault::Missing));
        }
        opened => above_standard(opened?)?,
    };
    match source.try_lock_shared() {
        Ok(()) => Ok(source),
        Err(TryLockError::WouldBlock) => Err(Stop::from(io::Error::new(
            ErrorKind::WouldBlock,
            "another program has the file open",
        ))),
        Err(TryLockError::Error(error)) => Err(Stop::from(error)),
    }
}

/// Copies the source into the file beside the copy's name, and gives it that name.
fn copy_aside<T: Files<File = File>, P: Progress>(
    rt: &T,
    alloc: Global,
    source: &File,
    aside: Aside,
    to: &Names,
    progress: &mut P,
) -> Result<u32, Stop>
    ensures { IfErr result (λ stop. IsOfDatabase stop.fault) }
{
    let like = source.metadata()?;
    let made = written(source, &like, aside)?;
    let whole = Verified::of(rt, alloc, &to.aside, &made, like.mode(), progress)?;
    match whole.put(rt, &to.aside, &to.file) {
        Ok(pairs) => Ok(pairs),
        Err(error) if error.kind() == ErrorKind::AlreadyExists => Err(Stop::from(Fault::Exists)),
        Err(error) => Err(Stop::from(error)),
    }
}

/// Writes the bytes of the source into the file that was made, and gives up its lock.
fn written(source: &File, like: &Metadata, aside: Aside) -> io::Result<File> {
    own_as(&aside.made, like)?;
    copy_bytes(source, &aside.made)?;
    Ok(aside.made)
}

/// Copies the bytes of a file to its end.
fn copy_bytes(source: &File, made: &File) -> io::Result<()> {
    let mut bytes = [0; 16384];
    let mut at = 0u64;
    for _ in 0..u64::MAX {
        match source.read_at(&mut bytes, at) {
            Ok(0) => return Ok(()),
            Ok(more) => {
                made.write_all_at(&bytes[..more], at)?;
                at = at.saturating_add(more as u64);
            }
            Err(error) if error.kind() == ErrorKind::Interrupted => {}
            Err(error) => return Err(error),
        }
    }
    Err(ErrorKind::Interrupted.into())
}
