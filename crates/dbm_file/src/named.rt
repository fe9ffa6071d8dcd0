//! A database by the name of its file.

ghost use Rattle.std.specs.Prelude.{◌≡◌, ◌≢◌, ◌<◌, ◌&&◌, ◌++◌, codes, false, IsSome, IfOk, IfErr};
ghost use Rattle.std.specs.String.{string_bytes};
ghost use Rattle.file_opening.specs.Opening.{writes};
ghost use Rattle.dbm_file.specs.Opened.{HasRoom, IsNewlyOpened};
ghost use Rattle.dbm_file.specs.Named.{OpensFile, RefusesFile};

use crate::database::Db;
use crate::{Fault, OpenHow};
use sect_dev::{FileDev, FileFault, SectorDev};
use std::alloc::{AllocError, Global};
use std::fs::File;
use std::io;
use std::os::unix::fs::FileTypeExt;
use std::rt::Files;
use thiserror::Error;

/// How many sectors a file has room for: what a database of version 2 of 1,000,000 pairs needs,
/// 140 GB. A file grows as it is written.
pub const FILE_SECTORS: u32 = 273_001_992;

/// Why the database of a name was not opened.
#[derive(Clone, Copy, Debug, Error)]
#[error("{fault}")]
pub struct Refusal {
    pub fault: Fault,
    /// The error of the system at the last of its calls that failed, if one has.
    pub system: Option<io::Error>,
}

/// Opens the database of that name, which is the file `name` with `.db` appended (POSIX:
/// `dbm_open`; the two files that the standard speaks of are one here). With `create` a file that
/// isn't there is made, unless it is opened for reading alone; with `exclusive` a file that is
/// there is refused, unless it is blank.
///
/// `Missing` where the file isn't there and isn't to be made, before anything else is looked at;
/// `Memory` where there is no memory for the name, or the system has none; `Device` where the
/// system refuses the file for another cause, or another opening has it locked (`FileDev::open`);
/// then as `Db::open`. Where the file was made and the opening is then refused, the file stays.
pub fn dbm_open<R: Files<File = File>>(
    rt: &R,
    alloc: Global,
    name: &str,
    how: OpenHow,
) -> Result<Db<FileDev>, Fault>
    ensures fresh { IfOk result (IsNewlyOpened (writes how.access) 68250498) }

    // A file has room for twice as many pages as a database of any limit needs.
    ensures room { IfOk result HasRoom }
    ensures missing { IfErr result
        (λ fault. fault ≡ Fault.Missing → (writes how.access && how.create) ≡ false) }
    ensures only { IfErr result (λ fault.
        (fault ≢ Fault.Broken) × (fault ≢ Fault.TooLong) × (fault ≢ Fault.Full)
        × (fault ≢ Fault.NoPass)) }

    // It is what `Db::open` gives of the device that the file was at first, the fault too, but
    // where the system refuses it.
    ensures opens { IfOk result (OpensFile how) }
    ensures refused { IfErr result
        (λ fault. fault ≢ Fault.Memory → fault ≢ Fault.Missing → fault ≢ Fault.Device
        → RefusesFile ⟦<FileDev as SectorDev>⟧ how fault) }
{
    match open_named(rt, alloc, name, how) {
        Ok(db) => Ok(db),
        Err(refusal) => Err(refusal.fault),
    }
}

/// As `dbm_open`, and a refusal has the system's error beside the fault.
pub fn open_named<R: Files<File = File>>(
    rt: &R,
    alloc: Global,
    name: &str,
    how: OpenHow,
) -> Result<Db<FileDev>, Refusal>
    ensures fresh { IfOk result (IsNewlyOpened (writes how.access) 68250498) }
    ensures room { IfOk result HasRoom }
    ensures missing { IfErr result
        (λ e. e.fault ≡ Fault.Missing → (writes how.access && how.create) ≡ false) }
    ensures only { IfErr result (λ e.
        (e.fault ≢ Fault.Broken) × (e.fault ≢ Fault.TooLong) × (e.fault ≢ Fault.Full)
        × (e.fault ≢ Fault.NoPass)) }
    ensures opens { IfOk result (OpensFile how) }
    ensures refused { IfErr result
        (λ e. e.fault ≢ Fault.Memory → e.fault ≢ Fault.Missing → e.fault ≢ Fault.Device
        → RefusesFile ⟦<FileDev as SectorDev>⟧ how e.fault) }

    // A fault of the device is never told without its cause.
    ensures told { IfErr result (λ e. e.fault ≡ Fault.Device → IsSome e.system) }
{
    let Ok(path) = path_of(alloc, name) else {
        return Err(without_cause(Fault::Memory));
    };
    let writable = how.access.is_writable();
    match open_path(rt, path.as_str(), writable, how.create) {
        Ok(dev) => match Db::open_again(alloc, dev, how) {
            Ok(db) => Ok(db),
            Err((dev, fault)) => Err(refused_by(&dev, fault)),
        },
        Err(FileFault::Memory) => Err(without_cause(Fault::Memory)),
        Err(FileFault::Missing) => Err(without_cause(Fault::Missing)),
        Err(FileFault::Device(error)) => Err(Refusal {
            fault: Fault::Device,
            system: Some(error),
        }),
    }
}

/// Opens the file of that path as a device with room for a database of any limit, as
/// `FileDev::open` does. A pipe is refused as `Device`, and not opened.
pub fn open_path<R: Files<File = File>>(
    rt: &R,
    path: &str,
    write: bool,
    create: bool,
) -> Result<FileDev, FileFault>
    ensures size { IfOk result (λ dev. ⟦<FileDev as SectorDev>⟧.sectors dev ≡ 273001992) }
    ensures faults { IfOk result (λ dev. ⟦<FileDev as SectorDev>⟧.faults dev ≡ 0) }
    ensures begins { IfOk result (λ dev. (⟦<FileDev as SectorDev>⟧.moment dev).at ≡ 0) }
    ensures missing { IfErr result
        (λ fault. fault ≡ FileFault.Missing → (write && create) ≡ false) }
{
    match refuse_pipe(rt, path) {
        Ok(()) => FileDev::open(rt, path, write, create, FILE_SECTORS),
        Err(error) => Err(FileFault::Device(error)),
    }
}

/// Refuses a pipe, whose opening would wait until somebody else opens its other end. What isn't
/// there, or can't be looked at, is left to the opening.
pub fn refuse_pipe<R: Files<File = File>>(rt: &R, path: &str) -> io::Result<()> {
    match rt.metadata(path) {
        Ok(found) if found.file_type().is_fifo() => Err(io::Error::new(
            io::ErrorKind::InvalidInput,
            "it is a pipe and no file",
        )),
        _ => Ok(()),
    }
}

/// The refusal of an opening that gave its device back.
fn refused_by(dev: &FileDev, fault: Fault) -> Refusal
    ensures fault { result.fault ≡ fault }
    ensures system { 0 < ⟦<FileDev as SectorDev>⟧.faults dev.now → IsSome result.system }
{
    Refusal {
        fault,
        system: dev.last_error(),
    }
}

/// A refusal of which the system tells nothing.
fn without_cause(fault: Fault) -> Refusal
    ensures { result.fault ≡ fault }
{
    Refusal {
        fault,
        system: None,
    }
}

/// The path of the file.
fn path_of(alloc: Global, name: &str) -> Result<String, AllocError>
    ensures { IfOk result (λ path. string_bytes path ≡ name.now ++ codes ".db") }
{
    let mut path = String::from_str(alloc, name)?;
    path.push_str(".db")?;
    Ok(path)
}
