// The program over its words.
ghost use Rattle.std.specs.Prelude.{◌≡◌, ◌⊎◌, ◌||◌, OnOk, IfErr, IsTrue, Ok, Err, None, map, false, true};
ghost use Rattle.std.specs.Option.{option_map};
ghost use Rattle.std.specs.Io.KnownBytes.{Appends};
ghost use Rattle.dbm_command_line.specs.Asking.{AreTaken};
ghost use Rattle.dbm_tool.specs.Causes.{is_fault};
ghost use Rattle.dbm_tool.specs.Endings.{looks_for_a_key, prints, reads};
ghost use Rattle.dbm_tool.specs.Faults.{failure_line};
ghost use Rattle.dbm_tool.specs.Plans.{CarriesOut};
ghost use Rattle.dbm_tool.specs.Statuses.{AreRefused, AskFor, IsClosedPipe, Tells, TellsFault, TellsMisuse, TellsMore, bad_wait_line, no_command_line, status_of};

use crate::EngineFault;
use crate::causes::{Known, text_of, told_by, write_cause};
use crate::commands::carry_out;
use crate::host::{FileStore, Host};
use crate::known::{cause_of, known_of};
use crate::streams::Failing;
use dbm_command_line::{WordsError, read_words};
use dbm_commands::{Failure, Outcome};
use dbm_progress::Progress;
use dbm_salvage::Troubles;
use page_io::PageStore;
use std::alloc::Global;
use std::fs::File;
use std::io::{self, BufRead, ErrorKind, Write};
use std::rt::Files;
use std::time::Clock;

/// The status where all was done, also where calls of a script were refused.
const DONE: u8 = 0;

/// The status where a fetched or deleted key isn't there, or an inserted one is.
const NOTHING: u8 = 1;

/// The status of a fault.
const FAULT: u8 = 2;

/// The status of words that are no plan.
const USAGE: u8 = 3;

/// The status where nobody reads any more what a plan prints: the one that a shell tells of a program
/// which the signal SIGPIPE has ended.
const UNREAD: u8 = 141;

/// How the program ended.
#[derive(Clone, Copy, Debug, PartialEq, Eq)]
pub struct Exit {
    /// The exit status.
    pub status: u8,
    /// Whether what there was to tell could be written.
    pub told: bool,
}

/// What the environment asks for.
#[derive(Clone, Copy, Debug, PartialEq, Eq)]
pub struct Environment {
    /// Whether the line of a fault is to be followed by one that says in words what happened, also
    /// where the words don't ask for that.
    pub verbose: bool,
    /// How many seconds to wait for a file that another program has open, where the words don't
    /// say.
    pub wait: u32,
}

/// The program over the words after its name. The exit status is 0 where all was done, or help or
/// the version was asked for, which goes to `output`; 1 where a fetched or deleted key isn't there
/// or an inserted one is, with nothing printed; 2 for a fault, the first one, which alone is told
/// in one line on `faults`, or for a rehearsal that lost a change, told so too; and 3 for words
/// that are no plan or no hexadecimal, of which one text goes to `faults`. Where a plan prints to a
/// pipe that nobody reads any more it ends silently, with 141. Faults are looked for in
/// the words, in the words' hexadecimal digits, in the opening, in the call or the engine with the
/// last of its output, and in the closing, in this order. Where the words or the environment ask
/// for it, the line of status 2 is followed by one that says in words what happened. A fault that
/// is met in the words themselves is told so where the environment asks for it. An opening is tried
/// again while another program has the file open, as long as the words say, or else the
/// environment. Pages that a salvage finds in trouble are told to `troubles`, which is no part of
/// `faults`.
pub fn tool<
    T: Files<File = File> + Clock,
    R: BufRead + Failing,
    O: Write + Failing,
    F: Write,
    S: Troubles,
    P: Progress,
>(
    rt: &T,
    alloc: Global,
    environment: Environment,
    words: &[&str],
    input: &mut R,
    output: &mut O,
    faults: &mut F,
    troubles: &mut S,
    progress: &mut P,
) -> Exit
    ensures status { (result.status ≡ 0) ⊎ ((result.status ≡ 1) ⊎ ((result.status ≡ 2)
        ⊎ ((result.status ≡ 3) ⊎ (result.status ≡ 141)))) }
    ensures quiet { (result.status ≡ 0) ⊎ (result.status ≡ 1) → faults.new ≡ faults.old }

    // The words are a plan that was carried out; where they name no command, nothing was read.
    ensures done { result.status ≡ 0 → ((input.new ≡ input.old)
        × (AreTaken (map (λ word. word.now) words.now) → ⊥))
        ⊎ AskFor (map (λ word. word.now) words.now) (λ plan. CarriesOut
        ⟦<FileStore as PageStore>⟧ plan (Ok Outcome.Done) (R.remaining input.old)
        (O.contents output.old) (O.contents output.new)) }
    ensures nothing { result.status ≡ 1 → AskFor (map (λ word. word.now) words.now)
        (λ plan. (looks_for_a_key plan ≡ true) × CarriesOut
        ⟦<FileStore as PageStore>⟧ plan (Ok Outcome.Nothing) (R.remaining input.old)
        (O.contents output.old) (O.contents output.new)) }
    ensures fault { result.status ≡ 2 → TellsFault (map (λ word. word.now) words.now)
        environment.verbose result.told (F.contents faults.old) (F.contents faults.new)
        (λ plan ended. CarriesOut ⟦<FileStore as PageStore>⟧ plan ended (R.remaining input.old)
        (O.contents output.old) (O.contents output.new)) }
    ensures unread { result.status ≡ 141 → (faults.new ≡ faults.old)
        × AskFor (map (λ word. word.now) words.now) (λ plan. CarriesOut
        ⟦<FileStore as PageStore>⟧ plan (Err (Failure.Fault EngineFault.Write))
        (R.remaining input.old) (O.contents output.old) (O.contents output.new)) }
    ensures usage { result.status ≡ 3 → TellsMisuse (map (λ word. word.now) words.now) result.told
        (F.contents faults.old) (F.contents faults.new) }

    // The streams stay but for a plan that has a use for them, and for help.
    ensures input { (input.new ≡ input.old)
        ⊎ AskFor (map (λ word. word.now) words.now) (λ plan. reads plan ≡ true) }
    ensures output { (output.new ≡ output.old)
        ⊎ (AskFor (map (λ word. word.now) words.now) (λ plan. prints plan ≡ true)
        ⊎ AreRefused (map (λ word. word.now) words.now)) }
    ensures unprinted { (result.status ≡ 1) ⊎ (result.status ≡ 3) → output.new ≡ output.old }
{
    match read_words(alloc, words) {
        Ok(request) => {
            let wait = request.wait.unwrap_or(environment.wait);
            let mut host = Host::new(rt, alloc, wait, request.cache);
            let done = carry_out(&mut host, request.plan, input, output, troubles, progress);
            progress.clear();
            if is_unread(done, output.first_error()) {
                return unread();
            }
            let told = told_by(alloc, cause_of(done, host.cause, input, output));
            let known = known_of(request.plan, done, &host, text_of(&told));
            ended_by(
                done,
                wants_more(request.verbose, environment),
                known,
                faults,
            )
        }
        Err(WordsError::Memory) => out_of_memory(environment, faults),
        Err(WordsError::Help(text)) => match show(output, WordsError::Help(text)) {
            Ok(()) => tell_end(Ok(Outcome::Done), faults),
            Err(_) => unwritten_help(alloc, environment, output.first_error(), faults),
        },
        Err(error) => tell_misuse(error, faults),
    }
}

/// Whether a plan ended since nobody reads its output any more.
fn is_unread(done: Result<Outcome, Failure>, error: Option<io::Error>) -> bool
    ensures write { IsTrue result → done ≡ Err (Failure.Fault EngineFault.Write) }
    ensures pipe { IsTrue result → IsClosedPipe error }
{
    match (done, error) {
        (Err(Failure::Fault(EngineFault::Write)), Some(error)) => {
            error.kind() == ErrorKind::BrokenPipe
        }
        _ => false,
    }
}

/// The end of a plan whose output nobody reads any more. There is nobody to tell it to.
fn unread() -> Exit
    ensures { result.status ≡ 141 }
{
    Exit {
        status: UNREAD,
        told: true,
    }
}

/// Whether more than the line of a fault is asked for.
fn wants_more(verbose: bool, environment: Environment) -> bool
    ensures { result ≡ (verbose || environment.verbose) }
{
    verbose || environment.verbose
}

/// The end where help could not be written.
fn unwritten_help<F: Write>(
    alloc: Global,
    environment: Environment,
    error: Option<io::Error>,
    faults: &mut F,
) -> Exit
    ensures status { result.status ≡ 2 }
    ensures line { TellsMore environment.verbose None None result.told (F.contents faults.old)
        (F.contents faults.new) (Failure.Fault EngineFault.Write) }
{
    let told = told_by(alloc, error);
    let known = Known::of_no_file(text_of(&told));
    tell_failure(
        Failure::Fault(EngineFault::Write),
        environment.verbose,
        known,
        faults,
    )
}

/// The end of a plan. Where more is asked for, the line of status 2 is followed by one in words.
fn ended_by<F: Write>(
    done: Result<Outcome, Failure>,
    more: bool,
    known: Known<'_>,
    faults: &mut F,
) -> Exit
    ensures status { result.status ≡ status_of done }
    ensures quiet { OnOk done (faults.new ≡ faults.old) }
    ensures line { IfErr done (TellsMore more (option_map (λ name. name.now) known.entry.file)
        known.entry.line result.told (F.contents faults.old) (F.contents faults.new)) }
{
    match done {
        Ok(outcome) => tell_end(Ok(outcome), faults),
        Err(failure) => tell_failure(failure, more, known, faults),
    }
}

/// The end of a plan that failed.
fn tell_failure<F: Write>(failure: Failure, more: bool, known: Known<'_>, faults: &mut F) -> Exit
    ensures status { result.status ≡ status_of (Err failure) }
    ensures line { TellsMore more (option_map (λ name. name.now) known.entry.file)
        known.entry.line result.told (F.contents faults.old) (F.contents faults.new) failure }
{
    let exit = tell_end(Err(failure), faults);
    if !exit.told || !more || !is_fault(failure) {
        return exit;
    }
    Exit {
        status: exit.status,
        told: write_cause(faults, failure, known).is_ok(),
    }
}

/// Whether a failure ends with the status of a fault.
fn is_fault(failure: Failure) -> bool
    ensures { result ≡ is_fault failure }
{
    match failure {
        Failure::Fault(_) | Failure::NotKept(_) => true,
        Failure::NotHex | Failure::NotText => false,
    }
}

/// Tells on `faults` that there is no memory, which is fault 1.
pub fn out_of_memory<F: Write>(environment: Environment, faults: &mut F) -> Exit
    ensures status { result.status ≡ 2 }
    ensures line { TellsMore environment.verbose None None result.told (F.contents faults.old)
        (F.contents faults.new) (Failure.Fault EngineFault.Memory) }
{
    tell_failure(
        Failure::Fault(EngineFault::Memory),
        environment.verbose,
        Known::of_no_file(None),
        faults,
    )
}

/// Tells on `faults` that one of the words is not UTF-8, which `tool` can't be given.
pub fn not_text<F: Write>(faults: &mut F) -> Exit
    ensures status { result.status ≡ 3 }
    ensures line { Tells result.told (F.contents faults.old) (F.contents faults.new)
        (failure_line Failure.NotText) }
{
    tell_end(Err(Failure::NotText), faults)
}

/// Tells on `faults` that `DBMTOOL_WAIT` is no number of seconds, for which `tool` has no words.
pub fn bad_wait<F: Write>(faults: &mut F) -> Exit
    ensures status { result.status ≡ 3 }
    ensures line { Tells result.told (F.contents faults.old) (F.contents faults.new)
        bad_wait_line }
{
    let written = writeln!(
        faults,
        "dbmtool: DBMTOOL_WAIT is no number of seconds from 0 to 86400"
    );
    let (status, told) = (USAGE, written.is_ok());
    Exit { status, told }
}

/// The end of a plan: a failure is told in one line.
fn tell_end<F: Write>(done: Result<Outcome, Failure>, faults: &mut F) -> Exit
    ensures status { result.status ≡ status_of done }
    ensures quiet { OnOk done (faults.new ≡ faults.old) }
    ensures line { IfErr done (λ failure. Tells result.told (F.contents faults.old)
        (F.contents faults.new) (failure_line failure)) }
{
    let (status, told) = match done {
        Ok(Outcome::Done) => (DONE, true),
        Ok(Outcome::Nothing) => (NOTHING, true),
        Err(failure) => (
            failure_status(failure),
            write_failure(faults, failure).is_ok(),
        ),
    };
    Exit { status, told }
}

/// The status of a failure.
fn failure_status(failure: Failure) -> u8
    ensures { result ≡ status_of (Err failure) }
{
    match failure {
        Failure::NotHex | Failure::NotText => USAGE,
        Failure::Fault(_) | Failure::NotKept(_) => FAULT,
    }
}

/// The end where the words gave no plan, and `error` says why. The line of `NoPlan` is written
/// here, since no contract says what an error displays.
fn tell_misuse<F: Write>(error: WordsError, faults: &mut F) -> Exit
    ensures status { result.status ≡ 3 }
    ensures line { error ≡ WordsError.NoPlan → Tells result.told (F.contents faults.old)
        (F.contents faults.new) no_command_line }
{
    let written = match error {
        WordsError::NoPlan => writeln!(faults, "error: no such command"),
        other => write!(faults, "{other}"),
    };
    Exit {
        status: USAGE,
        told: written.is_ok(),
    }
}

/// Writes the line of a failure.
fn write_failure<F: Write>(faults: &mut F, failure: Failure) -> io::Result<()>
    ensures { OnOk result (Appends (F.contents faults.old) (F.contents faults.new)
        (failure_line failure)) }
{
    match failure {
        Failure::NotHex => writeln!(faults, "dbmtool: not hex"),
        Failure::NotText => writeln!(
            faults,
            "dbmtool: not UTF-8: such a KEY or CONTENT is given in hexadecimal, with -x; a FILE needs another name"
        ),
        Failure::NotKept(stop) => writeln!(faults, "dbmtool: stop {stop}"),
        Failure::Fault(EngineFault::Memory) => writeln!(faults, "dbmtool: fault 1"),
        Failure::Fault(EngineFault::Read) => writeln!(faults, "dbmtool: read"),
        Failure::Fault(EngineFault::Write) => writeln!(faults, "dbmtool: write"),
        Failure::Fault(EngineFault::Line(line)) => writeln!(faults, "dbmtool: line {line}"),
        Failure::Fault(EngineFault::Db(fault)) => {
            writeln!(faults, "dbmtool: fault {}", fault.number())
        }
    }
}

/// Writes the help that was asked for.
fn show<O: Write>(output: &mut O, help: WordsError) -> io::Result<()> {
    write!(output, "{help}")?;
    output.flush()
}
