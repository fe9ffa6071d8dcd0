// What each plan does.
ghost use Rattle.std.specs.Prelude.{◌≡◌, ◌⊎◌, false, Ok, Err, OnOk, IfSome};
ghost use Rattle.std.specs.Io.KnownBytes.{Appends};
ghost use Rattle.dbm_engines.specs.Scripts.{AnswersInMemory};
ghost use Rattle.dbm_tool.specs.Commands.{form_of};
ghost use Rattle.dbm_tool.specs.Endings.{EndsAs, prints, reads};
ghost use Rattle.dbm_tool.specs.Plans.{CarriesOut, asked_bounds};

use crate::EngineFault;
use crate::calls::{create, delete, fetch, insert, print_format, stat, store, upgrade, verify};
use crate::host::{FileStore, Host};
use crate::rehearsals::{rehearse_file, rehearse_new};
use crate::replacements::{copy_table, replace_table, resize_table};
use crate::salvages::salvage;
use crate::texts::{dump, form_of, list, load, script};
use crate::versions::file_version;
use dbm_command_line::{FAULT_TABLE, Plan, Source, Spelling, Version};
use dbm_commands::{Failure, Outcome};
use dbm_engines::script_in_memory;
use dbm_file::Access;
use dbm_progress::Progress;
use dbm_salvage::Troubles;
use page_io::PageStore;
use std::alloc::Global;
use std::fs::File;
use std::io::{self, BufRead, Write};
use std::rt::Files;
use std::time::Clock;

/// Carries out a plan.
pub fn carry_out<T: Files<File = File> + Clock, R: BufRead, O: Write, S: Troubles, P: Progress>(
    host: &mut Host<'_, T>,
    plan: Plan,
    input: &mut R,
    output: &mut O,
    troubles: &mut S,
    progress: &mut P,
) -> Result<Outcome, Failure>
    ensures carried { CarriesOut ⟦<FileStore as PageStore>⟧ plan.entry result
        (R.remaining input.old) (O.contents output.old) (O.contents output.new) }
    ensures ends { EndsAs plan.entry result }

    // What the plan has no use for stays, and so does the output where there is nothing to print.
    ensures input { reads plan.entry ≡ false → input.new ≡ input.old }
    ensures output { prints plan.entry ≡ false → output.new ≡ output.old }
    ensures quiet { (result ≡ Ok Outcome.Nothing) ⊎ (result ≡ Err Failure.NotHex)
        → output.new ≡ output.old }
{
    match plan {
        Plan::Create {
            file,
            limit,
            version,
            commits,
        } => create(host, file, limit, version, commits),
        Plan::Store {
            file,
            key,
            content,
            spelling,
        } => store(host, file, key, content, spelling),
        Plan::Insert {
            file,
            key,
            content,
            spelling,
        } => insert(host, file, key, content, spelling),
        Plan::Fetch {
            file,
            key,
            spelling,
        } => fetch(host, file, key, spelling, output),
        Plan::Delete {
            file,
            key,
            spelling,
        } => delete(host, file, key, spelling),
        Plan::List { file, spelling } => list(host, file, spelling, output, progress),
        Plan::Dump { file, spelling } => dump(host, file, spelling, output, progress),
        Plan::Load {
            file,
            spelling,
            group,
        } => load(host, file, spelling, group, input, progress),
        Plan::Replace {
            file,
            spelling,
            limit,
        } => replace_table(host, file, spelling, limit, input, progress),
        Plan::Resize { file, limit } => resize_table(host, file, limit, progress),
        Plan::Backup { file, to } => copy_table(host, file, to, progress),
        Plan::Salvage { file } => salvage(host, file, output, troubles, progress),
        Plan::Stat { file } => stat(host, file, output),
        Plan::Verify { file } => verify(host, file, output, progress),
        Plan::Format { file } => print_format(host, file, output),
        Plan::Upgrade { file, to } => upgrade(host, file, to),
        Plan::Script {
            source: Source::File(file),
            spelling,
        } => script(host, file, Access::ReadWrite, spelling, input, output),
        Plan::ReadScript { file, spelling } => {
            script(host, file, Access::ReadOnly, spelling, input, output)
        }
        Plan::Script {
            source: Source::Memory { limit, version },
            spelling,
        } => new_script(host.alloc, limit, version, spelling, input, output),
        Plan::Rehearse {
            source: Source::File(file),
            stops,
        } => rehearse_file(host, file, stops, input, output, progress),
        Plan::Rehearse {
            source: Source::Memory { limit, version },
            stops,
        } => rehearse_new(host.alloc, limit, version, stops, input, output, progress),
        Plan::Faults => print_faults(output),
    }
}

/// Prints the exit statuses and the faults.
fn print_faults<O: Write>(output: &mut O) -> Result<Outcome, Failure>
    ensures printed { OnOk result (Appends (O.contents output.old) (O.contents output.new)
        FAULT_TABLE.now) }
    ensures ends { EndsAs Plan.Faults result }
{
    output.write_all(FAULT_TABLE.as_bytes()).map_err(unwritten)?;
    output.flush().map_err(unwritten)?;
    Ok(Outcome::Done)
}

/// The failure of a command whose output failed.
pub fn unwritten(_: io::Error) -> Failure
    ensures { result ≡ Failure.Fault EngineFault.Write }
{
    Failure::Fault(EngineFault::Write)
}

/// Answers a script, whose lines are spelled so, by a new database in memory.
fn new_script<R: BufRead, O: Write>(
    alloc: Global,
    limit: u32,
    version: Version,
    spelling: Spelling,
    input: &mut R,
    output: &mut O,
) -> Result<Outcome, Failure>
    ensures answered { OnOk result (IfSome (R.remaining input.old) (λ text.
        AnswersInMemory (form_of spelling) (asked_bounds limit version) text
        (O.contents output.old) (O.contents output.new))) }
    ensures ends { EndsAs (Plan.Script (Source.Memory limit version) spelling) result }
{
    let version = file_version(version);
    script_in_memory(alloc, limit, version, form_of(spelling), input, output)?;
    Ok(Outcome::Done)
}
