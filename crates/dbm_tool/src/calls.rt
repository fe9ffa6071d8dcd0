// The commands that make one call.
ghost use Rattle.std.specs.Prelude.{◌≡◌, ◌≢◌, ◌⊎◌, IfErr, Ok, Err, None};
ghost use Rattle.dbm_tool.specs.Endings.{EndsAs};
ghost use Rattle.dbm_tool.specs.Plans.{CarriesOut};

use crate::EngineFault;
use crate::host::{FileStore, Host};
use crate::versions::{commit_kind, file_version};
use dbm_command_line::{Commits, Plan, Spelling, Upgrade, Version};
use dbm_commands::{Failure, Outcome, bytes_of, close_after};
use dbm_file::{Access, Fault, OpenHow, StoreMode};
use dbm_progress::Progress;
use page_io::PageStore;
use redo_area::{OpenFault, change_kind};
use sect_dev::{FileDev, SectorDev};
use std::fs::File;
use std::io::Write;
use std::rt::Files;
use std::time::Clock;

/// How many sectors a file has at least.
const LEAST_SECTORS: u32 = 16;

/// Makes a database.
pub fn create<T: Files<File = File> + Clock>(
    host: &mut Host<'_, T>,
    file: &str,
    limit: u32,
    version: Version,
    commits: Commits,
) -> Result<Outcome, Failure>
    ensures carried { CarriesOut ⟦<FileStore as PageStore>⟧
        (Plan.Create file.entry limit version commits) result None None None }
    ensures ends { EndsAs (Plan.Create file.entry limit version commits) result }
{
    let how = OpenHow {
        access: Access::ReadWrite,
        create: true,
        exclusive: true,
        truncate: false,
        limit,
        version: file_version(version),
        commits: commit_kind(commits),
        kept_pages: None,
    };
    let db = host.open(file, how)?;
    host.close(db, Ok(Outcome::Done))
}

/// Stores a pair, in the place of one with its key.
pub fn store<T: Files<File = File> + Clock>(
    host: &mut Host<'_, T>,
    file: &str,
    key: &str,
    content: &str,
    spelling: Spelling,
) -> Result<Outcome, Failure>
    ensures carried { CarriesOut ⟦<FileStore as PageStore>⟧
        (Plan.Store file.entry key.entry content.entry spelling) result None None None }
    ensures ends { EndsAs (Plan.Store file.entry key.entry content.entry spelling) result }
{
    let key = bytes_of(host.alloc, key, spelling)?;
    let content = bytes_of(host.alloc, content, spelling)?;
    let mut db = host.open_there(file, Access::ReadWrite)?;
    let done = dbm_commands::store(&mut db, &key, &content, StoreMode::Replace);
    host.close(db, done)
}

/// Stores a pair where its key is new.
pub fn insert<T: Files<File = File> + Clock>(
    host: &mut Host<'_, T>,
    file: &str,
    key: &str,
    content: &str,
    spelling: Spelling,
) -> Result<Outcome, Failure>
    ensures carried { CarriesOut ⟦<FileStore as PageStore>⟧
        (Plan.Insert file.entry key.entry content.entry spelling) result None None None }
    ensures ends { EndsAs (Plan.Insert file.entry key.entry content.entry spelling) result }
{
    let key = bytes_of(host.alloc, key, spelling)?;
    let content = bytes_of(host.alloc, content, spelling)?;
    let mut db = host.open_there(file, Access::ReadWrite)?;
    let done = dbm_commands::store(&mut db, &key, &content, StoreMode::Insert);
    host.close(db, done)
}

/// Deletes a pair.
pub fn delete<T: Files<File = File> + Clock>(
    host: &mut Host<'_, T>,
    file: &str,
    key: &str,
    spelling: Spelling,
) -> Result<Outcome, Failure>
    ensures carried { CarriesOut ⟦<FileStore as PageStore>⟧
        (Plan.Delete file.entry key.entry spelling) result None None None }
    ensures ends { EndsAs (Plan.Delete file.entry key.entry spelling) result }
{
    let key = bytes_of(host.alloc, key, spelling)?;
    let mut db = host.open_there(file, Access::ReadWrite)?;
    let done = dbm_commands::delete(&mut db, &key);
    host.close(db, done)
}

/// Prints the content of a key.
pub fn fetch<T: Files<File = File> + Clock, O: Write>(
    host: &mut Host<'_, T>,
    file: &str,
    key: &str,
    spelling: Spelling,
    output: &mut O,
) -> Result<Outcome, Failure>
    ensures carried { CarriesOut ⟦<FileStore as PageStore>⟧
        (Plan.Fetch file.entry key.entry spelling) result None (O.contents output.old)
        (O.contents output.new) }
    ensures ends { EndsAs (Plan.Fetch file.entry key.entry spelling) result }
    ensures quiet { (result ≡ Ok Outcome.Nothing) ⊎ (result ≡ Err Failure.NotHex)
        → output.new ≡ output.old }
{
    let key = bytes_of(host.alloc, key, spelling)?;
    let mut db = host.open_there(file, Access::ReadOnly)?;
    let done = dbm_commands::fetch(&mut db, &key, spelling, output);
    host.close(db, done)
}

/// Prints the numbers of a database.
pub fn stat<T: Files<File = File> + Clock, O: Write>(
    host: &mut Host<'_, T>,
    file: &str,
    output: &mut O,
) -> Result<Outcome, Failure>
    ensures carried { CarriesOut ⟦<FileStore as PageStore>⟧
        (Plan.Stat file.entry) result None (O.contents output.old) (O.contents output.new) }
    ensures ends { EndsAs (Plan.Stat file.entry) result }
{
    let db = host.open_there(file, Access::ReadOnly)?;
    let done = dbm_commands::stat(&db, output);
    host.close(db, done)
}

/// Prints the version of a database's format, and how many syncs a change in a row takes.
pub fn print_format<T: Files<File = File> + Clock, O: Write>(
    host: &mut Host<'_, T>,
    file: &str,
    output: &mut O,
) -> Result<Outcome, Failure>
    ensures carried { CarriesOut ⟦<FileStore as PageStore>⟧
        (Plan.Format file.entry) result None (O.contents output.old) (O.contents output.new) }
    ensures ends { EndsAs (Plan.Format file.entry) result }
{
    let opened = host.open_there(file, Access::ReadOnly)?;
    let done = dbm_commands::print_format(&opened, output);
    host.close(opened, done)
}

/// Makes the database another one, with the same pairs.
pub fn upgrade<T: Files<File = File> + Clock>(
    host: &mut Host<'_, T>,
    file: &str,
    to: Upgrade,
) -> Result<Outcome, Failure>
    ensures carried { CarriesOut ⟦<FileStore as PageStore>⟧
        (Plan.Upgrade file.entry to) result None None None }
    ensures ends { EndsAs (Plan.Upgrade file.entry to) result }
{
    match to {
        Upgrade::Version2 => upgrade_version(host, file),
        Upgrade::Commits(commits) => change_commits(host, file, commits),
    }
}

/// Has the commits of the database made so from now on.
fn change_commits<T: Files<File = File> + Clock>(
    host: &mut Host<'_, T>,
    file: &str,
    commits: Commits,
) -> Result<Outcome, Failure>
    ensures ends { EndsAs (Plan.Upgrade file.entry (Upgrade.Commits commits)) result }
{
    let db = host.open_there(file, Access::ReadWrite)?;
    let (dev, ended) = close_after(db, Ok(Outcome::Done));
    let mut dev = dev;
    let ended = match ended {
        Ok(outcome) => match change(&mut dev, commits) {
            Ok(()) => Ok(outcome),
            Err(fault) => Err(Failure::from(fault)),
        },
        Err(failure) => Err(failure),
    };
    host.cause = dev.last_error();
    ended
}

/// Has the commits of a file that was just closed made so.
fn change(dev: &mut FileDev, commits: Commits) -> Result<(), Fault>
    ensures { IfErr result (λ e. (e ≢ Fault.Broken) × (e ≢ Fault.TooLong)) }
{
    if dev.capacity() < LEAST_SECTORS {
        return Err(Fault::TooSmall);
    }
    match change_kind(dev, commit_kind(commits)) {
        Ok(()) => Ok(()),
        Err(fault) => Err(fault_of(fault)),
    }
}

/// Why a file that was just closed doesn't open again.
fn fault_of(fault: OpenFault) -> Fault
    ensures { (result ≢ Fault.Broken) × (result ≢ Fault.TooLong) }
{
    match fault {
        OpenFault::Memory => Fault::Memory,
        OpenFault::Device => Fault::Device,
        OpenFault::Blank | OpenFault::NotOurs => Fault::NotADatabase,
        OpenFault::Damaged => Fault::Damaged,
    }
}

/// Makes the database one of version 2.
fn upgrade_version<T: Files<File = File> + Clock>(
    host: &mut Host<'_, T>,
    file: &str,
) -> Result<Outcome, Failure>
    ensures carried { CarriesOut ⟦<FileStore as PageStore>⟧
        (Plan.Upgrade file.entry Upgrade.Version2) result None None None }
    ensures ends { EndsAs (Plan.Upgrade file.entry Upgrade.Version2) result }
{
    let mut db = host.open_there(file, Access::ReadWrite)?;
    let done = dbm_commands::upgrade(&mut db);
    host.close(db, done)
}

/// Looks at every page, and prints how many pairs there are.
pub fn verify<T: Files<File = File> + Clock, O: Write, P: Progress>(
    host: &mut Host<'_, T>,
    file: &str,
    output: &mut O,
    progress: &mut P,
) -> Result<Outcome, Failure>
    ensures carried { CarriesOut ⟦<FileStore as PageStore>⟧
        (Plan.Verify file.entry) result None (O.contents output.old) (O.contents output.new) }
    ensures ends { EndsAs (Plan.Verify file.entry) result }
{
    let mut db = host.open_there(file, Access::ReadOnly)?;
    let mut flaw = None;
    let done = dbm_commands::verify(host.alloc, &mut db, output, &mut flaw, progress);
    host.flaw = flaw;
    host.close(db, done)
}
