// What happened, in words: the second line of a failure.
ghost use Rattle.std.specs.Prelude.{◌≡◌, None, true, OnOk};
ghost use Rattle.std.specs.Option.{option_map};
ghost use Rattle.std.specs.Io.KnownBytes.{Appends};
ghost use Rattle.dbm_tool.specs.Causes.{AreBadLineWords, AreRefusalWords, AreStreamWords, AreWords, GrowsBy, IsCauseLine, bad_line_words, fault_words, file_text, is_fault, line_text};

use crate::EngineFault;
use crate::flaws::write_damage;
use dbm_command_line::Spelling;
use dbm_command_line::help_text::{
    BAD_LIMIT_WORDS, BROKEN_WORDS, DAMAGED_WORDS, DEVICE_WORDS, EXISTS_WORDS, FULL_WORDS,
    LOST_WORDS, MEMORY_WORDS, MISSING_WORDS, NO_PASS_WORDS, NO_ROOM_WORDS, NOT_A_DATABASE_WORDS,
    READ_ONLY_WORDS, READ_WORDS, STOPPED_WORDS, TOO_LONG_WORDS, TOO_SMALL_WORDS, VERSION_WORDS,
    WRITE_WORDS,
};
use dbm_commands::Failure;
use dbm_engines::BadLine;
use dbm_file::{Fault, Flaw};
use std::alloc::Global;
use std::io::{self, Write};

const SUFFIXED_WORDS: &str =
    "there is no such file, but there is one without the second `.db`: leave `.db` off the name";

/// What is known of a failure beside its kind.
#[derive(Clone, Copy)]
pub struct Known<'a> {
    /// The name of the database without `.db`, where it has a file.
    pub file: Option<&'a str>,
    /// The first line of a load that was not stored, where the database refused to.
    pub line: Option<u64>,
    /// Why the line of a load is bad, where one is, and how its words are spelled.
    pub bad_line: Option<(BadLine, Spelling)>,
    /// The page of a damaged file that breaks a rule, and the rule, where they are known.
    pub flaw: Option<Flaw>,
    /// What the system told, in its own words.
    pub system: Option<&'a str>,
    /// Whether the name of the database has `.db` already, and there is a file of that name.
    pub is_suffixed: bool,
}

impl<'a> Known<'a> {
    /// Of what has no file, and no lines.
    pub fn of_no_file(system: Option<&'a str>) -> Known<'a>
        ensures file { result.file ≡ None }
        ensures line { result.line ≡ None }
        ensures flaw { result.flaw ≡ None }
    {
        Known {
            file: None,
            line: None,
            bad_line: None,
            flaw: None,
            system,
            is_suffixed: false,
        }
    }
}

/// The system's error in words, where it told one, and there is memory for them.
pub fn told_by(alloc: Global, error: Option<io::Error>) -> Option<String> {
    match error {
        Some(error) => format!(in alloc; "{error}").ok(),
        None => None,
    }
}

/// The words.
pub fn text_of(told: &Option<String>) -> Option<&str> {
    match told {
        Some(words) => Some(words.as_str()),
        None => None,
    }
}

/// Writes the line: the file and the line of a load, where there are some, and what happened.
pub fn write_cause<F: Write>(faults: &mut F, failure: Failure, known: Known<'_>) -> io::Result<()>
    requires { is_fault failure ≡ true }
    ensures { OnOk result (GrowsBy (F.contents faults.old) (F.contents faults.new)
        (IsCauseLine (option_map (λ name. name.now) known.entry.file) known.entry.line failure)) }
{
    faults.write_all(b"dbmtool: ")?;
    write_file(faults, known.file)?;
    write_line(faults, known.line)?;
    write_words(faults, failure, known)?;
    faults.write_all(b"\n")
}

/// Writes the name of the file, if there is one.
fn write_file<F: Write>(faults: &mut F, file: Option<&str>) -> io::Result<()>
    ensures { OnOk result (Appends (F.contents faults.old) (F.contents faults.new)
        (file_text (option_map (λ name. name.now) file.entry))) }
{
    match file {
        Some(name) => write!(faults, "{name}.db: "),
        None => Ok(()),
    }
}

/// Writes the line of a load, if one is known.
fn write_line<F: Write>(faults: &mut F, line: Option<u64>) -> io::Result<()>
    ensures { OnOk result (Appends (F.contents faults.old) (F.contents faults.new)
        (line_text line)) }
{
    match line {
        Some(number) => write!(faults, "line {number}: "),
        None => Ok(()),
    }
}

/// Writes what happened.
fn write_words<F: Write>(faults: &mut F, failure: Failure, known: Known<'_>) -> io::Result<()>
    requires { is_fault failure ≡ true }
    ensures { OnOk result (GrowsBy (F.contents faults.old) (F.contents faults.new)
        (AreWords failure)) }
{
    match failure {
        Failure::Fault(EngineFault::Memory) => faults.write_all(MEMORY_WORDS.as_bytes()),
        Failure::Fault(EngineFault::Read) => write_stream(faults, READ_WORDS, known.system),
        Failure::Fault(EngineFault::Write) => write_stream(faults, WRITE_WORDS, known.system),
        Failure::Fault(EngineFault::Line(_)) => write_bad_line(faults, known.bad_line),
        Failure::Fault(EngineFault::Db(Fault::Damaged)) => write_damage(faults, known.flaw),
        Failure::Fault(EngineFault::Db(fault)) => {
            faults.write_all(refusal_words(fault, known).as_bytes())
        }
        Failure::NotKept(stop) => write!(faults, "{}{stop}{}", STOPPED_WORDS, LOST_WORDS),
        Failure::NotHex | Failure::NotText => Ok(()),
    }
}

/// Writes which stream failed, and what the system told of it.
fn write_stream<F: Write>(faults: &mut F, words: &str, system: Option<&str>) -> io::Result<()>
    ensures { OnOk result (GrowsBy (F.contents faults.old) (F.contents faults.new)
        (AreStreamWords words.now)) }
{
    faults.write_all(words.as_bytes())?;
    match system {
        Some(told) => write!(faults, ": {told}"),
        None => Ok(()),
    }
}

/// Writes why the line of a load is bad.
fn write_bad_line<F: Write>(faults: &mut F, bad_line: Option<(BadLine, Spelling)>) -> io::Result<()>
    ensures { OnOk result (GrowsBy (F.contents faults.old) (F.contents faults.new) AreBadLineWords) }
{
    match bad_line {
        Some((why, spelling)) => faults.write_all(bad_line_words(why, spelling).as_bytes()),
        None => faults.write_all(b"the line says no pair"),
    }
}

/// The words of a fault: the system's for one of the device, where it told some, what is wrong with
/// the name of a file that isn't there, where that is known, and else those of the table.
fn refusal_words<'a>(fault: Fault, known: Known<'a>) -> &'a str
    ensures { AreRefusalWords fault result.now }
{
    match (fault, known.system) {
        (Fault::Device, Some(words)) => words,
        (Fault::Missing, _) if known.is_suffixed => SUFFIXED_WORDS,
        (fault, _) => fault_words(fault),
    }
}

/// The words that the table has of a fault.
fn fault_words<'a>(fault: Fault) -> &'a str
    ensures { result.now ≡ fault_words fault }
{
    match fault {
        Fault::Memory => MEMORY_WORDS,
        Fault::Device => DEVICE_WORDS,
        Fault::Broken => BROKEN_WORDS,
        Fault::ReadOnly => READ_ONLY_WORDS,
        Fault::TooLong => TOO_LONG_WORDS,
        Fault::Full => FULL_WORDS,
        Fault::NoPass => NO_PASS_WORDS,
        Fault::NoRoom => NO_ROOM_WORDS,
        Fault::Damaged => DAMAGED_WORDS,
        Fault::NotADatabase => NOT_A_DATABASE_WORDS,
        Fault::Version => VERSION_WORDS,
        Fault::TooSmall => TOO_SMALL_WORDS,
        Fault::BadLimit => BAD_LIMIT_WORDS,
        Fault::Missing => MISSING_WORDS,
        Fault::Exists => EXISTS_WORDS,
    }
}

/// Why a line of a load is bad.
fn bad_line_words<'a>(why: BadLine, spelling: Spelling) -> &'a str
    ensures { result.now ≡ bad_line_words why spelling }
{
    match (why, spelling) {
        (BadLine::TooLong, _) => "the line is too long",
        (BadLine::OnePart, Spelling::Hexadecimal) => {
            "the line has no blank between key and content"
        }
        (BadLine::OnePart, Spelling::Text) => "the line has no tab between key and content",
        (BadLine::ManyParts, Spelling::Hexadecimal) => "the line has more than one blank",
        (BadLine::ManyParts, Spelling::Text) => "the line has more than one tab",
        (BadLine::NoDigits, _) => "a word of the line is empty, and `.` stands for no bytes",
        (BadLine::OddDigits, _) => "a word of the line has an odd number of digits",
        (BadLine::NotADigit, _) => "a word of the line has a byte that is no digit",
        (BadLine::BadEscape, _) => "a field of the line has a backslash with no escape",
    }
}
