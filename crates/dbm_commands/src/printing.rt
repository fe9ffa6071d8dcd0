// What commands print.
ghost use Rattle.std.specs.Prelude.{◌≡◌, ◌⊎◌, true, Ok, Err, OnOk};
ghost use Rattle.std.specs.FinMap.{len};
ghost use Rattle.std.specs.Io.KnownBytes.{Appends};
ghost use Rattle.dbm_model.specs.Bounds.{version_number};
ghost use Rattle.dbm_model.specs.States.{Handle};
ghost use Rattle.page_io.specs.Versions.{model_version};
ghost use Rattle.dbm_file.specs.Database.{IsAt};
ghost use Rattle.dbm_file.specs.Opened.{kind_below};
ghost use Rattle.dbm_commands.specs.Printing.{content_line, format_text, number_line, stat_of, stat_text, syncs_of, version_of};

use crate::outcomes::unwritten;
use crate::{Failure, Outcome};
use dbm_command_line::Spelling;
use dbm_fault::EngineFault;
use dbm_file::{CommitKind, Database, Db, Stat, Version};
use dbm_lines::write_bytes;
use page_io::PageStore;
use sect_dev::SectorDev;
use std::io::{self, Write};

/// Prints the numbers of a database in seven lines, and flushes the output. No device call is made.
/// After `Write` some of the lines may be out.
pub fn stat<S: PageStore, W: Write>(db: &Database<S>, output: &mut W) -> Result<Outcome, Failure>
    ensures printed { OnOk result
        (Appends (W.contents output.old) (W.contents output.new) (stat_text (stat_of db.now))) }
    ensures counts { (h : Handle) → IsAt db.now h → h.state.usable ≡ true
        → ((stat_of db.now).pairs ≡ len h.state.map) × ((stat_of db.now).limit ≡ h.state.bounds.limit) }
    ensures only { (result ≡ Ok Outcome.Done) ⊎ (result ≡ Err (Failure.Fault EngineFault.Write)) }
{
    match print_stat(&db.stat(), output) {
        Ok(()) => Ok(Outcome::Done),
        Err(error) => Err(unwritten(error)),
    }
}

/// Prints the numbers of a database, one in a line.
fn print_stat<W: Write>(stat: &Stat, output: &mut W) -> io::Result<()>
    ensures { OnOk result (Appends (W.contents output.old) (W.contents output.new)
        (stat_text stat.now)) }
{
    print_number(output, "pairs", stat.pairs)?;
    print_number(output, "limit", stat.limit)?;
    print_number(output, "buckets", stat.buckets)?;
    print_number(output, "level", stat.level)?;
    print_number(output, "split", stat.split)?;
    print_number(output, "pages", stat.pages)?;
    print_number(output, "free", stat.free)?;
    output.flush()
}

/// Prints the version of a database's format, and how many syncs a change in a row takes, in two
/// lines, and flushes the output. No device call is made. After `Write` some of the lines may be out.
pub fn print_format<D: SectorDev, W: Write>(db: &Db<D>, output: &mut W) -> Result<Outcome, Failure>
    ensures printed { OnOk result (Appends (W.contents output.old) (W.contents output.new)
        (format_text (version_of db.now) (kind_below db.now))) }
    ensures version { (h : Handle) → IsAt db.now h → version_of db.now ≡ h.state.bounds.version }
    ensures only { (result ≡ Ok Outcome.Done) ⊎ (result ≡ Err (Failure.Fault EngineFault.Write)) }
{
    match print_version(db.version(), db.commit_kind(), output) {
        Ok(()) => Ok(Outcome::Done),
        Err(error) => Err(unwritten(error)),
    }
}

/// Prints the number of a version, and the syncs of a kind, one in a line.
fn print_version<W: Write>(version: Version, kind: CommitKind, output: &mut W) -> io::Result<()>
    ensures { OnOk result (Appends (W.contents output.old) (W.contents output.new)
        (format_text (model_version version) kind)) }
{
    print_number(output, "version", number_of(version))?;
    print_number(output, "syncs", syncs_of(kind))?;
    output.flush()
}

/// The number of a version.
fn number_of(version: Version) -> u32
    ensures { result ≡ version_number (model_version version) }
{
    match version {
        Version::V1 => 1,
        Version::V2 => 2,
    }
}

/// How many syncs a change in a row takes.
fn syncs_of(kind: CommitKind) -> u32
    ensures { result ≡ syncs_of kind }
{
    match kind {
        CommitKind::Log => 1,
        CommitKind::Images => 2,
    }
}

/// Prints a number behind its name.
fn print_number<W: Write>(output: &mut W, name: &str, number: u32) -> io::Result<()>
    ensures { OnOk result (Appends (W.contents output.old) (W.contents output.new)
        (number_line name.now number)) }
{
    writeln!(output, "{name} {number}")
}

/// Prints a content as it is, or as a word, and a line feed.
pub fn print_content<W: Write>(content: &[u8], spelling: Spelling, output: &mut W) -> io::Result<()>
    ensures { OnOk result (Appends (W.contents output.old) (W.contents output.new)
        (content_line spelling content.now)) }
{
    match spelling {
        Spelling::Text => {
            output.write_all(content)?;
            output.write_all(b"\n")?;
        }
        Spelling::Hexadecimal => write_bytes(output, content)?,
    }
    output.flush()
}
