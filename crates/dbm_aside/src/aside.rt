// A file beside a table's, which one process has for itself.

use crate::naming::{above_standard, found_at, is_under};
use dbm_file::FILE_SECTORS;
use sect_dev::{FileDev, FileFault};
use std::fs::{File, Metadata, OpenOptions, TryLockError};
use std::io::{self, ErrorKind};
use std::os::unix::fs::{MetadataExt, OpenOptionsExt, fchown};
use std::rt::Files;

/// A file beside a table's that nobody else has: it was made by this process under its name, and is
/// locked alone by the device while it has that name.
#[derive(Drop)]
pub struct Aside {
    pub made: File,
    pub dev: FileDev,
}

impl Aside {
    /// Makes the file under a path where a stopped operation has left one, or none is. It has no
    /// bytes, and nobody but its owner may read it. Refused where another process has the file that
    /// is there, before anything of it is changed.
    pub fn make<T: Files<File = File>>(rt: &T, path: &str) -> io::Result<Aside> {
        take_away(rt, path)?;
        let made = OpenOptions::new()
            .read(true)
            .write(true)
            .create_new(true)
            .mode(0o600)
            .open(rt, path)?;
        let made = above_standard(made)?;
        match hold(rt, &made, path) {
            Ok(dev) => Ok(Aside { made, dev }),
            Err(error) => {
                give_up(rt, path);
                Err(error)
            }
        }
    }
}

/// Locks the file that was made under a path alone, by its device. Refused where another process
/// had it first: that one has taken it for the rest of a stopped operation, and may have made
/// another in its place.
fn hold<T: Files<File = File>>(rt: &T, made: &File, path: &str) -> io::Result<FileDev> {
    let dev = device_of(rt, path, true)?;
    if !is_under(rt, made, path)? {
        return Err(taken());
    }
    Ok(dev)
}

/// The device over the file under a path, which is locked alone for writing, and shared for reading.
pub fn device_of<T: Files<File = File>>(rt: &T, path: &str, write: bool) -> io::Result<FileDev> {
    match FileDev::open(rt, path, write, false, FILE_SECTORS) {
        Ok(dev) => Ok(dev),
        Err(FileFault::Memory) => Err(ErrorKind::OutOfMemory.into()),
        Err(FileFault::Missing) => Err(taken()),
        Err(FileFault::Device(error)) => Err(error),
    }
}

/// Takes away the file under a path that a stopped operation has left. It is refused where another
/// process has that file locked. The file is opened as it is: nothing is made and nothing is cut.
/// Its name goes only while this process has it locked alone and it still stands under that name,
/// which it then keeps, since only the process that has it locked gives its name away. So a file
/// that was renamed to a table's meanwhile stays, and so does one that another process has made.
pub fn take_away<T: Files<File = File>>(rt: &T, path: &str) -> io::Result<()> {
    match left_at(rt, path)? {
        Some(left) => take_locked(rt, path, &left),
        None => Ok(()),
    }
}

/// The file that was left under a path, opened as it is, if there is one.
fn left_at<T: Files<File = File>>(rt: &T, path: &str) -> io::Result<Option<File>> {
    if found_at(rt, path)?.is_none() {
        return Ok(None);
    }
    match OpenOptions::new().read(true).write(true).open(rt, path) {
        Ok(left) => Ok(Some(left)),
        Err(error) if error.kind() == ErrorKind::NotFound => Ok(None),
        Err(error) => Err(error),
    }
}

/// Takes a file's name away, where this process locks it alone and it still has that name.
fn take_locked<T: Files<File = File>>(rt: &T, path: &str, left: &File) -> io::Result<()> {
    lock_alone(left)?;
    if is_under(rt, left, path)? {
        rt.remove_file(path)?;
    }
    Ok(())
}

/// Takes away the file of an operation that has failed, whose own failure is told: where this fails
/// too, the next operation takes it away.
pub fn give_up<T: Files<File = File>>(rt: &T, path: &str) {
    let _left = take_away(rt, path);
}

fn lock_alone(file: &File) -> io::Result<()> {
    match file.try_lock() {
        Ok(()) => Ok(()),
        Err(TryLockError::WouldBlock) => Err(taken()),
        Err(TryLockError::Error(error)) => Err(error),
    }
}

/// The error where another process is at the same table.
pub fn taken() -> io::Error {
    io::Error::new(
        ErrorKind::WouldBlock,
        "another program is replacing the file",
    )
}

/// Gives a file the owner and the group that another one has. A system that lets this process give
/// neither away refuses it, and then the file of another owner isn't replaced.
pub fn own_as(file: &File, like: &Metadata) -> io::Result<()> {
    let own = file.metadata()?;
    let user = other_than(own.uid(), like.uid());
    let group = other_than(own.gid(), like.gid());
    if user.is_none() && group.is_none() {
        return Ok(());
    }
    fchown(file, user, group)
}

/// The number that is wanted, where there is another one.
fn other_than(there: u32, wanted: u32) -> Option<u32> {
    if there == wanted { None } else { Some(wanted) }
}
