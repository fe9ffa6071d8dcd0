// The words after the program's name.
ghost use Rattle.std.specs.Prelude.{◌≡◌, ◌≢◌, ◌⊎◌, IfErr, IfOk, map, codes};
ghost use Rattle.clap.specs.Words.{kind_of};
ghost use Rattle.dbm_command_line.specs.Asking.{AreAsked, AreTaken, IsPlan, IsWithoutFile, IsWithoutMemory, IsWithoutReplace, IsWithoutSource};
ghost use Rattle.dbm_command_line.specs.Sorting.{IsOfChoice, IsSorted};

use crate::commands::command;
use crate::options::read_request;
use crate::plan::Request;
use clap::Error as Refusal;
use clap::error::ErrorKind;
use std::alloc::Global;
use thiserror::Error;

/// Why the words gave no plan. It displays what there is to say of it, in whole lines.
#[derive(Debug, Drop, Error)]
pub enum WordsError {
    /// A growth was refused.
    #[error("out of memory\n")]
    Memory,
    /// Help or the version was asked for, and this is its text.
    #[error("{0}")]
    Help(Refusal),
    /// The words make no sense, and this says why.
    #[error("{0}")]
    Usage(Refusal),
    /// The parser took the words, but the script has no database, or two.
    #[error("dbmtool: script needs FILE or --memory\n")]
    ScriptSource,
    /// The parser took the words, but the rehearsal has no database, or two.
    #[error("dbmtool: rehearse needs FILE or --memory\n")]
    RehearsalSource,
    /// The parser took the words, but a script or a rehearsal of FILE has `--v2`.
    #[error("dbmtool: --v2 needs --memory\n")]
    VersionSource,
    /// The parser took the words, but a script in memory has `--read`.
    #[error("dbmtool: --read needs FILE\n")]
    ReadSource,
    /// The parser took the words, but a load has `--limit` and not `--replace`.
    #[error("dbmtool: --limit needs --replace\n")]
    LoadLimit,
    /// The words passed the parser and name no plan.
    #[error("error: no such command\n")]
    NoPlan,
}

/// Reads the words after the program's name. `Help` where they ask for help or the version, and
/// `Usage` where they are no plan: no command, an unknown one, an option too many or too few, a
/// number that is no `u32`, a group outside 1 to 100000, a wait of more than 86400 seconds, or a
/// cache outside 1 to 65536 pages.
/// `ScriptSource` where the parser takes the words, and a script has both of FILE and `--memory` or
/// neither; `RehearsalSource` where a rehearsal does; `VersionSource` where either has FILE, no
/// `--memory`, and `--v2`; `ReadSource` where a script has `--memory`, no FILE, and `--read`;
/// `LoadLimit` where a load has `--limit`, and not `--replace`.
pub fn read_words<'a>(alloc: Global, words: &'a [&'a str]) -> Result<Request<'a>, WordsError>
    ensures plan { IfOk result (λ r. IsPlan (map (λ word. word.now) words.now) r.plan) }
    ensures options { IfOk result (AreAsked (map (λ word. word.now) words.now)) }
    ensures sorted { IfErr result IsSorted }
    ensures source { IfErr result (λ e. e ≡ WordsError.ScriptSource
        → IsWithoutSource (codes "script") (map (λ word. word.now) words.now)) }
    ensures device { IfErr result (λ e. e ≡ WordsError.RehearsalSource
        → IsWithoutSource (codes "rehearse") (map (λ word. word.now) words.now)) }
    ensures version { IfErr result (λ e. e ≡ WordsError.VersionSource
        → IsWithoutMemory (map (λ word. word.now) words.now)) }
    ensures read { IfErr result (λ e. e ≡ WordsError.ReadSource
        → IsWithoutFile (map (λ word. word.now) words.now)) }
    ensures limit { IfErr result (λ e. e ≡ WordsError.LoadLimit
        → IsWithoutReplace (map (λ word. word.now) words.now)) }
    ensures passes { AreTaken (map (λ word. word.now) words.now)
        → IfErr result (λ e. (e ≡ WordsError.Memory) ⊎ IsOfChoice e) }
{
    let Ok(command) = command(alloc) else {
        return Err(WordsError::Memory);
    };
    match command.try_get_matches_from(words) {
        Ok(matches) => read_request(&matches),
        Err(refusal) => Err(words_error(refusal)),
    }
}

/// Tells help and want of memory from a mistake.
fn words_error(refusal: Refusal) -> WordsError
    ensures sorted { IsSorted result }
    ensures source { (result ≢ WordsError.ScriptSource) × (result ≢ WordsError.RehearsalSource)
        × (result ≢ WordsError.VersionSource) × (result ≢ WordsError.ReadSource)
        × (result ≢ WordsError.LoadLimit) }
    ensures memory { kind_of refusal ≡ ErrorKind.OutOfMemory → result ≡ WordsError.Memory }
{
    if refusal.kind() == ErrorKind::OutOfMemory {
        return WordsError::Memory;
    }
    if refusal.use_stderr() {
        WordsError::Usage(refusal)
    } else {
        WordsError::Help(refusal)
    }
}
