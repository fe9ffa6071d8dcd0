// Rehearsals of a script, on a new database or on a copy of a file.
ghost use Rattle.std.specs.Prelude.{◌≡◌, IfSome, MatchOption, None, Ok, Err};
ghost use Rattle.dbm_tool.specs.Endings.{EndsAs, MayEndRehearsal};
ghost use Rattle.dbm_tool.specs.Plans.{EndsRehearsal};

use crate::commands::unwritten;
use crate::host::Host;
use crate::versions::file_version;
use crate::waiting::open_waiting;
use dbm_command_line::{Plan, Source, Version};
use dbm_commands::{Failure, Outcome};
use dbm_file::{FILE_SECTORS, Fault, Refusal, needed_sectors_of, refuse_pipe};
use dbm_progress::Progress;
use dbm_rehearse::{Bounds, Rehearsed, device_with, rehearse_script};
use sect_dev::MemDev;
use std::alloc::Global;
use std::fs::{File, TryLockError};
use std::io::{self, BufRead, ErrorKind, Read, Write};
use std::rt::Files;
use std::time::Clock;

/// Rehearses the script on a copy in memory of a database's file, which is locked (flock) while it
/// is read, and shared with others that read it.
pub fn rehearse_file<T: Files<File = File> + Clock, R: BufRead, O: Write, P: Progress>(
    host: &mut Host<'_, T>,
    file: &str,
    stops: Option<u32>,
    input: &mut R,
    output: &mut O,
    progress: &mut P,
) -> Result<Outcome, Failure>
    ensures told { IfSome (R.remaining input.old) (λ text. EndsRehearsal stops result text
        (O.contents output.old) (O.contents output.new)) }
    ensures ends { EndsAs (Plan.Rehearse (Source.File file.entry) stops) result }
{
    let dev = copy_of(host, file)?;
    rehearse(host.alloc, &dev, None, stops, input, output, progress)
}

/// Rehearses the script on a new database in memory.
pub fn rehearse_new<R: BufRead, O: Write, P: Progress>(
    alloc: Global,
    limit: u32,
    version: Version,
    stops: Option<u32>,
    input: &mut R,
    output: &mut O,
    progress: &mut P,
) -> Result<Outcome, Failure>
    ensures told { IfSome (R.remaining input.old) (λ text. EndsRehearsal stops result text
        (O.contents output.old) (O.contents output.new)) }
    ensures ends { EndsAs (Plan.Rehearse (Source.Memory limit version) stops) result }
{
    let version = file_version(version);
    let Some(sectors) = needed_sectors_of(version, limit) else {
        return Err(Failure::from(Fault::BadLimit));
    };
    rehearse(
        alloc,
        &MemDev::new(alloc, sectors),
        Some(Bounds { limit, version }),
        stops,
        input,
        output,
        progress,
    )
}

// Rehearses the script on what is on a device.
fn rehearse<R: BufRead, O: Write, P: Progress>(
    alloc: Global,
    dev: &MemDev,
    made: Option<Bounds>,
    stops: Option<u32>,
    input: &mut R,
    output: &mut O,
    progress: &mut P,
) -> Result<Outcome, Failure>
    ensures told { IfSome (R.remaining input.old) (λ text. EndsRehearsal stops result text
        (O.contents output.old) (O.contents output.new)) }
    ensures ends { MayEndRehearsal result }
{
    let done = rehearse_script(alloc, dev, made, stops, input, output, progress);
    let flushed = output.flush();
    let counts = done?;
    flushed.map_err(unwritten)?;
    verdict(&counts)
}

// Whether each stop kept the database.
fn verdict(counts: &Rehearsed) -> Result<Outcome, Failure>
    ensures { MatchOption counts.now.first_lost (result ≡ Ok Outcome.Done)
        (λ stop. result ≡ Err (Failure.NotKept stop)) }
{
    match counts.first_lost {
        Some(stop) => Err(Failure::NotKept(stop)),
        None => Ok(Outcome::Done),
    }
}

// A copy of a database's file.
fn copy_of<T: Files<File = File> + Clock>(
    host: &mut Host<'_, T>,
    name: &str,
) -> Result<MemDev, Fault> {
    let rt = host.rt;
    let alloc = host.alloc;
    match open_waiting(
        rt,
        host.wait,
        || content_of(rt, alloc, name).map_err(refusal),
    ) {
        Ok(bytes) => device_with(alloc, FILE_SECTORS, bytes.as_slice()).map_err(|_| Fault::Memory),
        Err(refusal) => Err(host.keep_cause(refusal)),
    }
}

// The bytes of a database's file.
fn content_of<T: Files<File = File> + Clock>(
    rt: &T,
    alloc: Global,
    name: &str,
) -> io::Result<Vec<u8>> {
    let path = format!(in alloc; "{name}.db")?;
    refuse_pipe(rt, path.as_str())?;
    let mut file = File::open(rt, path.as_str())?;
    lock(&file)?;
    let mut bytes = Vec::new(alloc);
    file.read_to_end(&mut bytes)?;
    Ok(bytes)
}

// Locks a file beside others that read it.
fn lock(file: &File) -> io::Result<()> {
    match file.try_lock_shared() {
        Ok(()) => Ok(()),
        Err(TryLockError::WouldBlock) => Err(io::Error::new(
            ErrorKind::WouldBlock,
            "another program has the file open",
        )),
        Err(TryLockError::Error(error)) => Err(error),
    }
}

// The refusal of a file that can't be read.
fn refusal(error: io::Error) -> Refusal {
    let fault = match error.kind() {
        ErrorKind::NotFound => Fault::Missing,
        ErrorKind::OutOfMemory => Fault::Memory,
        _ => Fault::Device,
    };
    Refusal {
        fault,
        system: Some(error),
    }
}
