// The commands that read or print a text.
ghost use Rattle.std.specs.Prelude.{◌≡◌, ◌⊎◌, true, None, OnOk, IfErr};
ghost use Rattle.std.specs.Io.KnownBytes.{Appends};
ghost use Rattle.dbm_engines.specs.Dumping.{IsPairChance, Reads};
ghost use Rattle.dbm_file.specs.Database.{AtEachHandle};
ghost use Rattle.dbm_lines.specs.Forms.{dump_in, listing_in};
ghost use Rattle.dbm_engines.specs.Loading.{Loads};
ghost use Rattle.dbm_engines.specs.LoadRefusals.{StopsByFault};
ghost use Rattle.dbm_tool.specs.Commands.{IsOfPrinting, RunsScript, form_of, told};
ghost use Rattle.dbm_tool.specs.Endings.{EndsAs};
ghost use Rattle.dbm_tool.specs.Files.{Opens, there};
ghost use Rattle.dbm_tool.specs.Plans.{CarriesOut};

use crate::host::{FileStore, Host};
use crate::lines::{bad_line, refused_line};
use crate::{
    EngineFault, dump_engine, dump_text_engine, list_engine, list_text_engine, load_engine,
    load_text_engine, script_engine,
};
use dbm_command_line::{Plan, Source, Spelling};
use dbm_commands::{Failure, Outcome, flush_after};
use dbm_engines::LoadStop;
use dbm_file::{Access, Database};
use dbm_lines::TextForm;
use dbm_progress::Progress;
use page_io::PageStore;
use std::alloc::Global;
use std::fs::File;
use std::io::{BufRead, Write};
use std::rt::Files;
use std::time::Clock;

/// Prints the keys.
pub fn list<T: Files<File = File> + Clock, O: Write, P: Progress>(
    host: &mut Host<'_, T>,
    file: &str,
    spelling: Spelling,
    output: &mut O,
    progress: &mut P,
) -> Result<Outcome, Failure>
    ensures carried { CarriesOut ⟦<FileStore as PageStore>⟧
        (Plan.List file.entry spelling) result None (O.contents output.old)
        (O.contents output.new) }
    ensures ends { EndsAs (Plan.List file.entry spelling) result }
{
    let mut db = host.open_there(file, Access::ReadOnly)?;
    let done = print_keys(host.alloc, &mut db, spelling, output, progress);
    host.close(db, flush_after(done, output))
}

/// Prints the pairs.
pub fn dump<T: Files<File = File> + Clock, O: Write, P: Progress>(
    host: &mut Host<'_, T>,
    file: &str,
    spelling: Spelling,
    output: &mut O,
    progress: &mut P,
) -> Result<Outcome, Failure>
    ensures carried { CarriesOut ⟦<FileStore as PageStore>⟧
        (Plan.Dump file.entry spelling) result None (O.contents output.old)
        (O.contents output.new) }
    ensures ends { EndsAs (Plan.Dump file.entry spelling) result }
{
    let mut db = host.open_there(file, Access::ReadOnly)?;
    let done = print_pairs(host.alloc, &mut db, spelling, output, progress);
    host.close(db, flush_after(done, output))
}

/// Stores the pairs of a text.
pub fn load<T: Files<File = File> + Clock, R: BufRead, P: Progress>(
    host: &mut Host<'_, T>,
    file: &str,
    spelling: Spelling,
    group: u32,
    input: &mut R,
    progress: &mut P,
) -> Result<Outcome, Failure>
    ensures carried { CarriesOut ⟦<FileStore as PageStore>⟧
        (Plan.Load file.entry spelling group) result (R.remaining input.old) None None }
    ensures ends { EndsAs (Plan.Load file.entry spelling group) result }
{
    let mut db = host.open_there(file, Access::ReadWrite)?;
    let loaded = load_pairs(host.alloc, &mut db, spelling, group, input, progress);
    host.line = refused_line(loaded.err());
    host.bad_line = bad_line(loaded.err(), spelling);
    host.close(db, load_outcome(loaded))
}

/// Runs a script, whose lines are spelled so.
pub fn script<T: Files<File = File> + Clock, R: BufRead, O: Write>(
    host: &mut Host<'_, T>,
    file: &str,
    access: Access,
    spelling: Spelling,
    input: &mut R,
    output: &mut O,
) -> Result<Outcome, Failure>
    ensures carried { Opens ⟦<FileStore as PageStore>⟧ (there access)
        (λ db after. RunsScript (form_of spelling) (R.remaining input.old) db after
        (O.contents output.old) (O.contents output.new)) result }
    ensures changes { EndsAs (Plan.Script (Source.File file.entry) spelling) result }
    ensures reads { EndsAs (Plan.ReadScript file.entry spelling) result }
{
    let mut db = host.open_there(file, access)?;
    let done = script_engine(host.alloc, &mut db, form_of(spelling), input, output);
    host.close(db, flush_after(done, output))
}

/// Prints the keys in the form of this spelling.
fn print_keys<S: PageStore, O: Write, P: Progress>(
    alloc: Global,
    db: &mut Database<S>,
    spelling: Spelling,
    output: &mut O,
    progress: &mut P,
) -> Result<(), EngineFault>
    ensures printed { AtEachHandle db.old (λ h. h.state.usable ≡ true → OnOk result
        (Appends (O.contents output.old) (O.contents output.new)
        (listing_in (form_of spelling) h.state.map))) }
    ensures whole { AtEachHandle db.old (λ h. h.state.usable ≡ true
        → IfErr result (λ e. (e ≡ EngineFault.Write) ⊎ IsPairChance h.state.map e)) }
    ensures reads { Reads db.old db.new result }
    ensures only { IfErr result IsOfPrinting }
{
    match spelling {
        Spelling::Hexadecimal => list_engine(alloc, db, output, progress),
        Spelling::Text => list_text_engine(alloc, db, output, progress),
    }
}

/// Prints the pairs in the form of this spelling.
fn print_pairs<S: PageStore, O: Write, P: Progress>(
    alloc: Global,
    db: &mut Database<S>,
    spelling: Spelling,
    output: &mut O,
    progress: &mut P,
) -> Result<(), EngineFault>
    ensures printed { AtEachHandle db.old (λ h. h.state.usable ≡ true → OnOk result
        (Appends (O.contents output.old) (O.contents output.new)
        (dump_in (form_of spelling) h.state.map))) }
    ensures whole { AtEachHandle db.old (λ h. h.state.usable ≡ true
        → IfErr result (λ e. (e ≡ EngineFault.Write) ⊎ IsPairChance h.state.map e)) }
    ensures reads { Reads db.old db.new result }
    ensures only { IfErr result IsOfPrinting }
{
    match spelling {
        Spelling::Hexadecimal => dump_engine(alloc, db, output, progress),
        Spelling::Text => dump_text_engine(alloc, db, output, progress),
    }
}

/// Stores the pairs of a text in the form of this spelling.
fn load_pairs<S: PageStore, R: BufRead, P: Progress>(
    alloc: Global,
    db: &mut Database<S>,
    spelling: Spelling,
    group: u32,
    input: &mut R,
    progress: &mut P,
) -> Result<(), LoadStop>
    ensures loads { Loads (form_of spelling) result (R.remaining input.old) db.old db.new }
    ensures faults { StopsByFault result }
{
    match spelling {
        Spelling::Hexadecimal => load_engine(alloc, db, input, group, progress),
        Spelling::Text => load_text_engine(alloc, db, input, group, progress),
    }
}

/// The form of a text that is spelled so.
pub fn form_of(spelling: Spelling) -> TextForm
    ensures { result ≡ form_of spelling }
{
    match spelling {
        Spelling::Hexadecimal => TextForm::Hexadecimal,
        Spelling::Text => TextForm::Escaped,
    }
}

/// How a load ended, as a command.
fn load_outcome(ended: Result<(), LoadStop>) -> Result<Outcome, Failure>
    ensures { result ≡ told ended }
{
    match ended {
        Ok(()) => Ok(Outcome::Done),
        Err(stop) => Err(Failure::Fault(stop.fault())),
    }
}
