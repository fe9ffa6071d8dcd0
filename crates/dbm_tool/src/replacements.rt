// Tables that are put in the place of others, and copies.
ghost use Rattle.std.specs.Prelude.{◌≡◌};
ghost use Rattle.dbm_tool.specs.Endings.{EndsAs};

use crate::host::Host;
use crate::lines::{bad_line, refused_line};
use crate::texts::form_of;
use dbm_aside::{Stop, backup, begin_building, open_source, replace, resize};
use dbm_command_line::{Plan, Spelling};
use dbm_commands::{Failure, Outcome};
use dbm_progress::Progress;
use std::fs::File;
use std::io::BufRead;
use std::rt::Files;
use std::time::Clock;

/// Puts a table with the pairs of a text in the place of the one that is there.
pub fn replace_table<T: Files<File = File> + Clock, R: BufRead, P: Progress>(
    host: &mut Host<'_, T>,
    file: &str,
    spelling: Spelling,
    limit: Option<u32>,
    input: &mut R,
    progress: &mut P,
) -> Result<Outcome, Failure>
    ensures { EndsAs (Plan.Replace file.entry spelling limit) result }
{
    let (rt, alloc, form) = (host.rt, host.alloc, form_of(spelling));
    let building = host.begin(|| begin_building(rt, alloc, file, limit))?;
    let mut load_stop = None;
    let replaced = replace(rt, alloc, building, form, input, &mut load_stop, progress);
    host.line = refused_line(load_stop);
    host.bad_line = bad_line(load_stop, spelling);
    match replaced {
        Ok(_pairs) => Ok(Outcome::Done),
        Err(stop) => Err(failure_by(host, stop)),
    }
}

/// Puts a table with the same pairs in the place of the one that is there.
pub fn resize_table<T: Files<File = File> + Clock, P: Progress>(
    host: &mut Host<'_, T>,
    file: &str,
    limit: Option<u32>,
    progress: &mut P,
) -> Result<Outcome, Failure>
    ensures { EndsAs (Plan.Resize file.entry limit) result }
{
    let (rt, alloc) = (host.rt, host.alloc);
    let building = host.begin(|| begin_building(rt, alloc, file, limit))?;
    match resize(rt, alloc, building, progress) {
        Ok(_pairs) => Ok(Outcome::Done),
        Err(stop) => Err(failure_by(host, stop)),
    }
}

/// Makes a whole copy of a table under a name that is free.
pub fn copy_table<T: Files<File = File> + Clock, P: Progress>(
    host: &mut Host<'_, T>,
    file: &str,
    to: &str,
    progress: &mut P,
) -> Result<Outcome, Failure>
    ensures { EndsAs (Plan.Backup file.entry to.entry) result }
{
    let (rt, alloc) = (host.rt, host.alloc);
    let source = host.begin(|| open_source(rt, alloc, file))?;
    match backup(rt, alloc, &source, to, progress) {
        Ok(_pairs) => Ok(Outcome::Done),
        Err(stop) => Err(failure_by(host, stop)),
    }
}

/// The failure by what stopped it, whose cause is kept.
fn failure_by<T>(host: &mut Host<'_, T>, stop: Stop) -> Failure
    ensures { result ≡ Failure.Fault stop.fault }
{
    host.cause = stop.system;
    Failure::Fault(stop.fault)
}
