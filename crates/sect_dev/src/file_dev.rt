//! A device over a file.
ghost use Rattle.std.specs.Prelude.{◌≡◌, ◌↔◌, ◌+◌, ◌-◌, ◌*◌, ◌%◌, ◌^◌, ◌<◌, ◌≤◌, ◌&&◌, false, is_ok, is_some, IsSome, IsErr, IfOk, IfErr, OnOk, length, take};
ghost use Rattle.sect_dev.specs.Device.{HasCause, HasRun, sector_count, IsCounted, endless};
ghost use Rattle.sect_dev.specs.FileHistory.{HasBytes, IsHonest, LeftFrom};
ghost use Rattle.sect_dev.specs.FileHistory.Change.{Writes, Syncs};

use crate::{DevFault, SectorDev};
use std::fs::{File, OpenOptions, TryLockError};
use std::io;
use std::os::fd::AsRawFd;
use std::os::unix::fs::{FileExt, MetadataExt};
use std::path::Path;
use std::rt::Files;
use thiserror::Error;

/// Why a file was not opened.
#[derive(Clone, Copy, Debug, Error)]
pub enum FileFault {
    /// The system had no memory for it.
    #[error("no memory to open the file")]
    Memory,
    /// There is no such file, and none was to be made.
    #[error("there is no such file")]
    Missing,
    /// The system refused the file, or its folder, for another cause, which is its error; or
    /// another opening has the file locked.
    #[error("the file was refused: {0}")]
    Device(io::Error),
}

/// A device over a file. Sector n is the 512 bytes from byte 512 n on, and what lies past the
/// file's end reads as zeros. Each read and each write, of a sector or of a run, is one positioned
/// call of the system (more where that was cut short), a sync is one, and nothing is buffered.
///
/// That it is honest is claimed nowhere. The crate's README says what that premise is.
#[derive(Drop)]
pub struct FileDev {
    file: File,
    capacity: u32,
    // How many writes and syncs the system answered.
    changes: u64,
    faults: u64,
    // The system's error at the last call that failed.
    last: Option<io::Error>,
    ghost fits: { capacity < 2 ^ 32 },
    ghost told: { IsSome last ↔ 0 < faults },
}

// Where a sector begins.
fn offset_of(n: u32) -> u64
    ensures { result ≡ n * 512 }
{
    u64::from(n) * 512
}

fn fault_of(error: io::Error) -> FileFault
    ensures { result ≡ FileFault.Missing → ⊥ }
{
    match error.kind() {
        io::ErrorKind::OutOfMemory => FileFault::Memory,
        _ => FileFault::Device(error),
    }
}

// The error of a change beyond the most that are counted, which the system isn't asked for.
fn uncounted() -> io::Error {
    io::Error::other("too many writes and syncs since the file was opened")
}

// What is meant for a standard stream that was closed must not land in the file.
fn above_standard(file: File) -> io::Result<File> {
    if file.as_raw_fd() > 2 {
        return Ok(file);
    }
    file.try_clone()
}

// Makes a file.
fn make<R: Files<File = File>>(rt: &R, path: &str) -> io::Result<File> {
    OpenOptions::new()
        .read(true)
        .write(true)
        .create(true)
        .open(rt, path)
}

// Syncs the folder of a file, so that a stop leaves the file's name.
fn sync_folder<R: Files<File = File>>(rt: &R, path: &str) -> io::Result<()> {
    let folder = match Path::new(path).parent() {
        Some(parent) if !parent.as_str().is_empty() => parent.as_str(),
        _ => ".",
    };
    File::open(rt, folder)?.sync_all()
}

// Opens a file, or makes it where it is to be made. None where it isn't there.
fn find<R: Files<File = File>>(
    rt: &R,
    path: &str,
    write: bool,
    create: bool,
) -> io::Result<Option<File>>
    ensures { IfOk result (λ file. is_some file ≡ false → (write && create) ≡ false) }
{
    let opened = OpenOptions::new().read(true).write(write).open(rt, path);
    let file = match opened {
        Err(error) if error.kind() == io::ErrorKind::NotFound => {
            if !(write && create) {
                return Ok(None);
            }
            make(rt, path)?
        }
        opened => opened?,
    };
    // One of no bytes may have been made by an opening that ended before its folder was synced.
    if write && create && file.metadata()?.len() == 0 {
        sync_folder(rt, path)?;
    }
    let file = above_standard(file)?;
    lock(&file, write)?;
    if write && !is_under(rt, &file, path)? {
        return Err(io::Error::new(
            io::ErrorKind::WouldBlock,
            "another program has replaced the file",
        ));
    }
    Ok(Some(file))
}

// Whether an open file still stands under its path. One that another file has taken the place of,
// between its opening and its lock, would be written where nobody finds it again.
fn is_under<R: Files<File = File>>(rt: &R, file: &File, path: &str) -> io::Result<bool> {
    let open = file.metadata()?;
    match rt.metadata(path) {
        Ok(found) => Ok(found.dev() == open.dev() && found.ino() == open.ino()),
        Err(error) if error.kind() == io::ErrorKind::NotFound => Ok(false),
        Err(error) => Err(error),
    }
}

// Takes the system's advisory lock on a file, alone for writing and shared for reading, and waits
// for none. It ends with the last handle of the file.
fn lock(file: &File, write: bool) -> io::Result<()> {
    let locked = if write {
        file.try_lock()
    } else {
        file.try_lock_shared()
    };
    match locked {
        Ok(()) => Ok(()),
        Err(TryLockError::WouldBlock) => Err(io::Error::new(
            io::ErrorKind::WouldBlock,
            "another program has the file open",
        )),
        Err(TryLockError::Error(error)) => Err(error),
    }
}

impl FileDev {
    ghost use Rattle.sect_dev.specs.File.{file_history, IsChanged, Gave, IsSame};

    /// Opens a file as a device of so many sectors, whatever its length: for reading and writing
    /// with `write`, else for reading alone, and then each write fails. With `write` and `create` a
    /// file that isn't there is made, and the folder of one that has no bytes is synced. The file is
    /// locked (flock) till the device is dropped: no other opening has it beside one with `write`.
    ///
    /// `Missing` where the file isn't there and `write` and `create` aren't both set, `Memory`
    /// where the system has no memory for it, and `Device` where the system refuses it, the sync of
    /// its folder, or the lock, for another cause; also where another opening holds the lock,
    /// before a byte is read or written.
    pub fn open<R: Files<File = File>>(
        rt: &R,
        path: &str,
        write: bool,
        create: bool,
        capacity: u32,
    ) -> Result<FileDev, FileFault>
        ensures size { IfOk result (λ dev. ⟦<FileDev as SectorDev>⟧.sectors dev ≡ capacity) }
        ensures faults { IfOk result (λ dev. ⟦<FileDev as SectorDev>⟧.faults dev ≡ 0) }
        ensures begins { IfOk result (λ dev. (⟦<FileDev as SectorDev>⟧.moment dev).at ≡ 0) }
        ensures missing { IfErr result
            (λ fault. fault ≡ FileFault.Missing → (write && create) ≡ false) }
    {
        match find(rt, path, write, create) {
            Ok(Some(file)) => Ok(FileDev {
                file,
                capacity,
                changes: 0,
                faults: 0,
                last: None,
            }),
            Ok(None) => Err(FileFault::Missing),
            Err(error) => Err(fault_of(error)),
        }
    }

    // Asks the system for bytes of the file.
    fn pread(&self, at: u64, out: &mut [u8]) -> io::Result<usize>
        requires { 0 < length out.old }
        ensures bound { IfOk result (λ k. k ≤ length out.new) }
        ensures gave { IfOk result (λ k. Gave self.now at (take k out.new)) }
    {
        self.file.read_at(out, at)
    }

    // Asks it to write bytes. A change is counted where it is asked for, so none more can be.
    fn pwrite(&mut self, at: u64, from: &[u8]) -> io::Result<()>
        requires { self.old.changes < 2 ^ 64 - 1 }
        ensures { IsChanged self.old self.new (Writes at from.now (is_ok result)) }
    {
        self.changes += 1;
        self.file.write_all_at(from, at)
    }

    // Asks it to sync the file: its content, and of the rest what is needed to read that back.
    fn fdatasync(&mut self) -> io::Result<()>
        requires { self.old.changes < 2 ^ 64 - 1 }
        ensures { IsChanged self.old self.new (Syncs (is_ok result)) }
    {
        self.changes += 1;
        self.file.sync_data()
    }

    // Reads the bytes from byte `at` on, with zeros past the file's end.
    fn fill(&self, at: u64, out: &mut [u8]) -> io::Result<()>
        requires { at + length out.old < 2 ^ 64 }
        ensures { IsHonest self.now.file
            → OnOk result (HasBytes ((file_history self.now).seen self.now.changes) at out.new) }
    {
        let mut filled = 0;
        for _ in 0..u64::MAX {
            if filled >= out.len() {
                return Ok(());
            }
            match self.pread(at + filled as u64, &mut out[filled..]) {
                Ok(0) => {
                    out[filled..].fill(0);
                    return Ok(());
                }
                Ok(more) => filled += more,
                Err(error) if error.kind() == io::ErrorKind::Interrupted => {}
                Err(error) => return Err(error),
            }
        }
        Err(io::ErrorKind::Interrupted.into())
    }

    /// The system's error at the last call of the device that failed, if one has.
    pub fn last_error(&self) -> Option<io::Error>
        ensures { IsSome result ↔ 0 < ⟦<FileDev as SectorDev>⟧.faults self.now }
    {
        self.last
    }

    // Counts a fault, and keeps the system's error.
    fn fail(&mut self, error: io::Error) -> Result<(), DevFault>
        ensures fails { IsErr result }
        ensures same { IsSame self.old self.new }
        ensures cause { HasCause self.old.faults self.new.faults result }
        ensures count { IsCounted self.old.faults self.new.faults result }
    {
        self.faults = self.faults.saturating_add(1);
        self.last = Some(error);
        Err(DevFault)
    }

    // Counts a fault where the system refused a change.
    fn note(&mut self, answer: io::Result<()>) -> Result<(), DevFault>
        ensures answer { is_ok result ≡ is_ok answer }
        ensures same { IsSame self.old self.new }
        ensures cause { HasCause self.old.faults self.new.faults result }
        ensures count { IsCounted self.old.faults self.new.faults result }
    {
        match answer {
            Ok(()) => Ok(()),
            Err(error) => self.fail(error),
        }
    }
}

impl SectorDev for FileDev {
    ghost use Rattle.sect_dev.specs.File.{AsksSystem, IsSame};
    ghost use Rattle.sect_dev.specs.FileHistory.{history_of, now_is_left, only_left_now};

    ghost sectors = { λ d. d.capacity };

    ghost honest = { λ d. IsHonest d.file };

    ghost seen = { λ d. (history_of d.file).seen d.changes };

    ghost candidate = { λ d. (history_of d.file).candidate d.changes };

    ghost moment = { λ d. endless d.changes };

    ghost left_since = { λ d. LeftFrom (history_of d.file).candidate d.changes };

    ghost faults = { λ d. d.faults };

    ghost fits = { λ d. d.fits };

    ghost seen_may_stay = { λ d h. h.kept.may_stay d.changes };

    ghost counts_now = { λ d t image h le now.
        now_is_left (history_of d.file).candidate d.changes t image le now };

    ghost only_now = { λ d image h left.
        only_left_now (history_of d.file).candidate d.changes image left };

    fn capacity(&self) -> u32 {
        self.capacity
    }

    fn read(&mut self, n: u32, out: &mut [u8; 512]) -> Result<(), DevFault>
        requires { n < ⟦<FileDev as SectorDev>⟧.sectors self.old }
        ensures content { IsHonest self.old.file
            → OnOk result (out.new ≡ ⟦<FileDev as SectorDev>⟧.seen self.old n) }
        ensures same { IsSame self.old self.new }
        ensures cause { HasCause (⟦<FileDev as SectorDev>⟧.faults self.old)
            (⟦<FileDev as SectorDev>⟧.faults self.new) result }
        ensures count { IsCounted (⟦<FileDev as SectorDev>⟧.faults self.old)
            (⟦<FileDev as SectorDev>⟧.faults self.new) result }
    {
        self.read_run(n, out)
    }

    fn write(&mut self, n: u32, from: &[u8; 512]) -> Result<(), DevFault>
        requires { n < ⟦<FileDev as SectorDev>⟧.sectors self.old }
        ensures goes { AsksSystem self.old self.new (Writes (n * 512) from.now (is_ok result))
            (is_ok result) }
        ensures whole { length from.now ≡ 512 }
        ensures cause { HasCause (⟦<FileDev as SectorDev>⟧.faults self.old)
            (⟦<FileDev as SectorDev>⟧.faults self.new) result }
        ensures count { IsCounted (⟦<FileDev as SectorDev>⟧.faults self.old)
            (⟦<FileDev as SectorDev>⟧.faults self.new) result }
        ensures size { ⟦<FileDev as SectorDev>⟧.sectors self.new
            ≡ ⟦<FileDev as SectorDev>⟧.sectors self.old }
    {
        self.write_run(n, from)
    }

    fn read_run(&mut self, n: u32, out: &mut [u8]) -> Result<(), DevFault>
        requires whole { length out.old % 512 ≡ 0 }
        requires fits { n + sector_count out.old ≤ ⟦<FileDev as SectorDev>⟧.sectors self.old }
        ensures content { IsHonest self.old.file
            → OnOk result (HasRun (⟦<FileDev as SectorDev>⟧.seen self.old) n out.new) }
        ensures same { IsSame self.old self.new }
        ensures cause { HasCause (⟦<FileDev as SectorDev>⟧.faults self.old)
            (⟦<FileDev as SectorDev>⟧.faults self.new) result }
        ensures count { IsCounted (⟦<FileDev as SectorDev>⟧.faults self.old)
            (⟦<FileDev as SectorDev>⟧.faults self.new) result }
    {
        match self.fill(offset_of(n), out) {
            Ok(()) => Ok(()),
            Err(error) => self.fail(error),
        }
    }

    fn write_run(&mut self, n: u32, from: &[u8]) -> Result<(), DevFault>
        requires whole { length from.now % 512 ≡ 0 }
        requires fits { n + sector_count from.now ≤ ⟦<FileDev as SectorDev>⟧.sectors self.old }
        ensures goes { AsksSystem self.old self.new (Writes (n * 512) from.now (is_ok result))
            (is_ok result) }
        ensures whole { length from.now % 512 ≡ 0 }
        ensures cause { HasCause (⟦<FileDev as SectorDev>⟧.faults self.old)
            (⟦<FileDev as SectorDev>⟧.faults self.new) result }
        ensures count { IsCounted (⟦<FileDev as SectorDev>⟧.faults self.old)
            (⟦<FileDev as SectorDev>⟧.faults self.new) result }
        ensures size { ⟦<FileDev as SectorDev>⟧.sectors self.new
            ≡ ⟦<FileDev as SectorDev>⟧.sectors self.old }
    {
        if self.changes == u64::MAX {
            return self.fail(uncounted());
        }
        let answer = self.pwrite(offset_of(n), from);
        self.note(answer)
    }

    fn sync(&mut self) -> Result<(), DevFault>
        ensures goes { AsksSystem self.old self.new (Syncs (is_ok result)) (is_ok result) }
        ensures cause { HasCause (⟦<FileDev as SectorDev>⟧.faults self.old)
            (⟦<FileDev as SectorDev>⟧.faults self.new) result }
        ensures count { IsCounted (⟦<FileDev as SectorDev>⟧.faults self.old)
            (⟦<FileDev as SectorDev>⟧.faults self.new) result }
        ensures size { ⟦<FileDev as SectorDev>⟧.sectors self.new
            ≡ ⟦<FileDev as SectorDev>⟧.sectors self.old }
    {
        if self.changes == u64::MAX {
            return self.fail(uncounted());
        }
        let answer = self.fdatasync();
        self.note(answer)
    }
}
