// What is known of the end of a plan, beside how it ended.
ghost use Rattle.std.specs.Prelude.{◌≡◌, ◌⊎◌, None, true};
ghost use Rattle.std.specs.Option.{option_map};
ghost use Rattle.dbm_tool.specs.Causes.{file_of};
ghost use Rattle.dbm_tool.specs.Endings.{has_lines};

use crate::EngineFault;
use crate::causes::Known;
use crate::host::Host;
use crate::streams::Failing;
use dbm_command_line::{Plan, Source};
use dbm_commands::{Failure, Outcome};
use dbm_file::Fault;
use std::fs::File;
use std::io;
use std::rt::Files;

/// The system's error at what ended a plan so, if it told one.
pub fn cause_of<R: Failing, O: Failing>(
    done: Result<Outcome, Failure>,
    of_file: Option<io::Error>,
    input: &R,
    output: &O,
) -> Option<io::Error> {
    match done {
        Err(Failure::Fault(EngineFault::Read)) => input.first_error(),
        Err(Failure::Fault(EngineFault::Write)) => output.first_error(),
        _ => of_file,
    }
}

/// What is known of the end of a plan.
pub fn known_of<'a, T: Files<File = File>>(
    plan: Plan<'a>,
    done: Result<Outcome, Failure>,
    host: &Host<'_, T>,
    system: Option<&'a str>,
) -> Known<'a>
    ensures file { option_map (λ name. name.now) result.file ≡ file_of plan.entry }
    ensures line { (result.line ≡ None) ⊎ (has_lines plan.entry ≡ true) }
    ensures flaw { result.flaw ≡ host.now.flaw }
{
    Known {
        file: file_of(plan),
        line: line_of(plan, host.line),
        bad_line: host.bad_line,
        flaw: host.flaw,
        system,
        is_suffixed: is_missing(done) && has_suffix(host.rt, file_of(plan)),
    }
}

/// Whether a plan ended since its file isn't there.
fn is_missing(done: Result<Outcome, Failure>) -> bool {
    matches!(done, Err(Failure::Fault(EngineFault::Db(Fault::Missing))))
}

/// Whether the name of a database has `.db` already, and there is a file of that name.
fn has_suffix<T: Files<File = File>>(rt: &T, file: Option<&str>) -> bool {
    match file {
        Some(name) => name.ends_with(".db") && rt.metadata(name).is_ok(),
        None => false,
    }
}

/// The name of the file that a plan opens, without `.db`.
fn file_of<'a>(plan: Plan<'a>) -> Option<&'a str>
    ensures { option_map (λ name. name.now) result ≡ file_of plan.entry }
{
    match plan {
        Plan::Create { file, .. } => Some(file),
        Plan::Store { file, .. } => Some(file),
        Plan::Insert { file, .. } => Some(file),
        Plan::Fetch { file, .. } => Some(file),
        Plan::Delete { file, .. } => Some(file),
        Plan::List { file, .. } => Some(file),
        Plan::Dump { file, .. } => Some(file),
        Plan::Load { file, .. } => Some(file),
        Plan::Replace { file, .. } => Some(file),
        Plan::Resize { file, .. } => Some(file),
        Plan::Backup { file, .. } => Some(file),
        Plan::Salvage { file } => Some(file),
        Plan::Stat { file } => Some(file),
        Plan::Verify { file } => Some(file),
        Plan::Format { file } => Some(file),
        Plan::Upgrade { file, .. } => Some(file),
        Plan::ReadScript { file, .. } => Some(file),
        Plan::Script { source, .. } | Plan::Rehearse { source, .. } => match source {
            Source::File(file) => Some(file),
            Source::Memory { .. } => None,
        },
        Plan::Faults => None,
    }
}

/// The line of a plan that has lines.
fn line_of(plan: Plan<'_>, line: Option<u64>) -> Option<u64>
    ensures { (result ≡ None) ⊎ (has_lines plan.entry ≡ true) }
{
    match plan {
        Plan::Load { .. } | Plan::Replace { .. } => line,
        _ => None,
    }
}
