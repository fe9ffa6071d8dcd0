// The plan that a parse entered.
ghost use Rattle.std.specs.Prelude.{◌≡◌, ◌⊎◌, IfErr, IfOk, IfSome, MatchOption, None, Some, codes};
ghost use Rattle.clap.specs.Words.{first_of, found_of, one_of, rows_of, subcommand_rows_of};
ghost use Rattle.dbm_command_line.specs.Asking.{AreNewCommits, AreOptions, Asks, IsForm, IsGroup, IsNumberText, IsOptional, IsSource, IsText, IsUpgrade, IsVersion, IsWithin, LacksFile, LacksMemory, LacksReplace, LacksSource, Names, NamesNoFile, NamesNoMemory, NamesNoReplace, NamesNoSource, flag_text, syncs_of};
ghost use Rattle.dbm_command_line.specs.Sorting.{IsOfChoice};

use crate::WordsError;
use crate::flags::{for_reading, replacing, verbose};
use crate::names::{
    BACKUP, CACHE, CONTENT, CREATE, DELETE, DUMP, FAULTS, FETCH, FILE, GROUP, HEXADECIMAL, INSERT,
    KEY, LIMIT, LIST, LOAD, LONGEST_WAIT, MEMORY, MOST_KEPT, MOST_LINES, REHEARSE, RESIZE, SALVAGE,
    SCRIPT, STAT, STOPS, STORE, SYNCS, TEXT, TO, UPGRADE, V2, VERIFY, VERSION, WAIT,
};
use crate::plan::{Commits, Plan, Request, Source, Spelling, Upgrade, Version};
use clap::ArgMatches;

/// What the words ask for.
pub fn read_request<'a>(matches: &ArgMatches<'a>) -> Result<Request<'a>, WordsError>
    ensures plan { IfOk result (λ r. Names (subcommand_rows_of matches.now) r.plan) }
    ensures options { IfOk result (AreOptions (rows_of (found_of matches.now))) }
    ensures source { IfErr result (λ e. e ≡ WordsError.ScriptSource
        → NamesNoSource (codes "script") (subcommand_rows_of matches.now)) }
    ensures device { IfErr result (λ e. e ≡ WordsError.RehearsalSource
        → NamesNoSource (codes "rehearse") (subcommand_rows_of matches.now)) }
    ensures version { IfErr result (λ e. e ≡ WordsError.VersionSource
        → NamesNoMemory (subcommand_rows_of matches.now)) }
    ensures read { IfErr result (λ e. e ≡ WordsError.ReadSource
        → NamesNoFile (subcommand_rows_of matches.now)) }
    ensures limit { IfErr result (λ e. e ≡ WordsError.LoadLimit
        → NamesNoReplace (subcommand_rows_of matches.now)) }
    ensures others { IfErr result IsOfChoice }
{
    let plan = chosen(matches)?;
    let verbose = verbose(matches).ok_or(WordsError::NoPlan)?;
    let wait = within(matches, WAIT, 0, LONGEST_WAIT).ok_or(WordsError::NoPlan)?;
    let cache = within(matches, CACHE, 1, MOST_KEPT).ok_or(WordsError::NoPlan)?;
    Ok(Request {
        plan,
        verbose,
        wait,
        cache,
    })
}

/// The number that was given under `id`, if one was. None where it is none from `least` to `most`,
/// as the parser has refused before.
fn within(options: &ArgMatches<'_>, id: &str, least: u32, most: u32) -> Option<Option<u32>>
    ensures { IfSome result (IsWithin (rows_of (found_of options.now)) id.now least most) }
{
    if text(options, id).is_none() {
        return Some(None);
    }
    let number = number(options, id)?;
    if number < least || most < number {
        return None;
    }
    Some(Some(number))
}

/// The plan that the words name.
fn chosen<'a>(matches: &ArgMatches<'a>) -> Result<Plan<'a>, WordsError>
    ensures plan { IfOk result (Names (subcommand_rows_of matches.now)) }
    ensures source { IfErr result (λ e. e ≡ WordsError.ScriptSource
        → NamesNoSource (codes "script") (subcommand_rows_of matches.now)) }
    ensures device { IfErr result (λ e. e ≡ WordsError.RehearsalSource
        → NamesNoSource (codes "rehearse") (subcommand_rows_of matches.now)) }
    ensures version { IfErr result (λ e. e ≡ WordsError.VersionSource
        → NamesNoMemory (subcommand_rows_of matches.now)) }
    ensures read { IfErr result (λ e. e ≡ WordsError.ReadSource
        → NamesNoFile (subcommand_rows_of matches.now)) }
    ensures limit { IfErr result (λ e. e ≡ WordsError.LoadLimit
        → NamesNoReplace (subcommand_rows_of matches.now)) }
    ensures others { IfErr result IsOfChoice }
{
    let Some((name, options)) = matches.subcommand() else {
        return Err(WordsError::NoPlan);
    };
    if name == SCRIPT {
        return script(options);
    }
    if name == FAULTS {
        return Ok(Plan::Faults);
    }
    if name == REHEARSE {
        return rehearsal(options);
    }
    if name == LOAD {
        return load(options);
    }
    of_file(name, options).ok_or(WordsError::NoPlan)
}

/// The load, or the replacement by what is loaded.
fn load<'a>(options: &ArgMatches<'a>) -> Result<Plan<'a>, WordsError>
    ensures plan { IfOk result (Asks (codes "load") (rows_of (found_of options.now))) }
    ensures lacks { IfErr result (λ e.
        e ≡ WordsError.LoadLimit → LacksReplace (rows_of (found_of options.now))) }
    ensures others { IfErr result (λ e. (e ≡ WordsError.NoPlan) ⊎ (e ≡ WordsError.LoadLimit)) }
{
    let file = text(options, FILE).ok_or(WordsError::NoPlan)?;
    let spelling = form(options).ok_or(WordsError::NoPlan)?;
    let replacing = replacing(options).ok_or(WordsError::NoPlan)?;
    match (replacing, text(options, LIMIT)) {
        (true, _) => {
            let limit = optional(options, LIMIT).ok_or(WordsError::NoPlan)?;
            Ok(Plan::Replace {
                file,
                spelling,
                limit,
            })
        }
        (false, None) => {
            let group = group(options).ok_or(WordsError::NoPlan)?;
            Ok(Plan::Load {
                file,
                spelling,
                group,
            })
        }
        (false, Some(_)) => Err(WordsError::LoadLimit),
    }
}

/// The script that is to be run.
fn script<'a>(options: &ArgMatches<'a>) -> Result<Plan<'a>, WordsError>
    ensures plan { IfOk result (Asks (codes "script") (rows_of (found_of options.now))) }
    ensures lacks { IfErr result (λ e.
        e ≡ WordsError.ScriptSource → LacksSource (rows_of (found_of options.now))) }
    ensures version { IfErr result (λ e.
        e ≡ WordsError.VersionSource → LacksMemory (rows_of (found_of options.now))) }
    ensures read { IfErr result (λ e.
        e ≡ WordsError.ReadSource → LacksFile (rows_of (found_of options.now))) }
    ensures others { IfErr result (λ e. (e ≡ WordsError.NoPlan) ⊎ ((e ≡ WordsError.ScriptSource)
        ⊎ ((e ≡ WordsError.VersionSource) ⊎ (e ≡ WordsError.ReadSource)))) }
{
    match source(options) {
        Ok(source) => {
            let reading = for_reading(options).ok_or(WordsError::NoPlan)?;
            let spelling = form(options).ok_or(WordsError::NoPlan)?;
            match (source, reading) {
                (source, false) => Ok(Plan::Script { source, spelling }),
                (Source::File(file), true) => Ok(Plan::ReadScript { file, spelling }),
                (Source::Memory { .. }, true) => Err(WordsError::ReadSource),
            }
        }
        Err(WordsError::ScriptSource) => Err(WordsError::ScriptSource),
        Err(WordsError::VersionSource) => Err(WordsError::VersionSource),
        Err(_) => Err(WordsError::NoPlan),
    }
}

/// What is to be rehearsed.
fn rehearsal<'a>(options: &ArgMatches<'a>) -> Result<Plan<'a>, WordsError>
    ensures plan { IfOk result (Asks (codes "rehearse") (rows_of (found_of options.now))) }
    ensures lacks { IfErr result (λ e.
        e ≡ WordsError.RehearsalSource → LacksSource (rows_of (found_of options.now))) }
    ensures version { IfErr result (λ e.
        e ≡ WordsError.VersionSource → LacksMemory (rows_of (found_of options.now))) }
    ensures others { IfErr result (λ e. (e ≡ WordsError.NoPlan)
        ⊎ ((e ≡ WordsError.RehearsalSource) ⊎ (e ≡ WordsError.VersionSource))) }
{
    match source(options) {
        Ok(source) => {
            let stops = optional(options, STOPS).ok_or(WordsError::NoPlan)?;
            Ok(Plan::Rehearse { source, stops })
        }
        Err(WordsError::ScriptSource) => Err(WordsError::RehearsalSource),
        Err(WordsError::VersionSource) => Err(WordsError::VersionSource),
        Err(_) => Err(WordsError::NoPlan),
    }
}

/// The number that was given under `id`, if one was. None where it is no number.
fn optional(options: &ArgMatches<'_>, id: &str) -> Option<Option<u32>>
    ensures { IfSome result (IsOptional (rows_of (found_of options.now)) id.now) }
{
    if text(options, id).is_none() {
        return Some(None);
    }
    Some(Some(number(options, id)?))
}

/// The database that a script is to run on.
fn source<'a>(options: &ArgMatches<'a>) -> Result<Source<'a>, WordsError>
    ensures source { IfOk result (IsSource (rows_of (found_of options.now))) }
    ensures lacks { IfErr result (λ e.
        e ≡ WordsError.ScriptSource → LacksSource (rows_of (found_of options.now))) }
    ensures version { IfErr result (λ e.
        e ≡ WordsError.VersionSource → LacksMemory (rows_of (found_of options.now))) }
    ensures others { IfErr result (λ e. (e ≡ WordsError.NoPlan)
        ⊎ ((e ≡ WordsError.ScriptSource) ⊎ (e ≡ WordsError.VersionSource))) }
{
    let version = version(options).ok_or(WordsError::NoPlan)?;
    match (text(options, FILE), text(options, MEMORY)) {
        (Some(file), None) => match version {
            Version::V1 => Ok(Source::File(file)),
            Version::V2 => Err(WordsError::VersionSource),
        },
        (None, Some(_)) => match number(options, MEMORY) {
            Some(limit) => Ok(Source::Memory { limit, version }),
            None => Err(WordsError::NoPlan),
        },
        (Some(_), Some(_)) | (None, None) => Err(WordsError::ScriptSource),
    }
}

/// The version of the format that a new database is to have.
fn version(options: &ArgMatches<'_>) -> Option<Version>
    ensures { IfSome result (IsVersion (rows_of (found_of options.now))) }
{
    if options.get_one::<bool>(V2)? {
        Some(Version::V2)
    } else {
        Some(Version::V1)
    }
}

/// How commits are made that have so many syncs in a row.
fn commits_of(syncs: u32) -> Option<Commits>
    ensures { IfSome result (λ commits. syncs ≡ syncs_of commits) }
{
    match syncs {
        1 => Some(Commits::Log),
        2 => Some(Commits::Images),
        _ => None,
    }
}

/// How the commits of a new database are to be made.
fn new_commits(options: &ArgMatches<'_>) -> Option<Commits>
    ensures { IfSome result (AreNewCommits (rows_of (found_of options.now))) }
{
    match optional(options, SYNCS)? {
        None => Some(Commits::Images),
        Some(syncs) => commits_of(syncs),
    }
}

/// What a database that is there is to be made.
fn upgrade(options: &ArgMatches<'_>) -> Option<Upgrade>
    ensures { IfSome result (IsUpgrade (rows_of (found_of options.now))) }
{
    match optional(options, SYNCS)? {
        None => Some(Upgrade::Version2),
        Some(syncs) => Some(Upgrade::Commits(commits_of(syncs)?)),
    }
}

/// The plan of a command on a file.
fn of_file<'a>(name: &str, options: &ArgMatches<'a>) -> Option<Plan<'a>>
    ensures { IfSome result (Asks name.now (rows_of (found_of options.now))) }
{
    let file = text(options, FILE)?;
    match name {
        CREATE => Some(Plan::Create {
            file,
            limit: number(options, LIMIT)?,
            version: version(options)?,
            commits: new_commits(options)?,
        }),
        LIST => Some(Plan::List {
            file,
            spelling: form(options)?,
        }),
        DUMP => Some(Plan::Dump {
            file,
            spelling: form(options)?,
        }),
        STAT => Some(Plan::Stat { file }),
        VERIFY => Some(Plan::Verify { file }),
        VERSION => Some(Plan::Format { file }),
        UPGRADE => Some(Plan::Upgrade {
            file,
            to: upgrade(options)?,
        }),
        RESIZE => Some(Plan::Resize {
            file,
            limit: optional(options, LIMIT)?,
        }),
        BACKUP => Some(Plan::Backup {
            file,
            to: text(options, TO)?,
        }),
        SALVAGE => Some(Plan::Salvage { file }),
        _ => of_key(name, options),
    }
}

/// How many lines of a load may share a commit. None where it is no number from 1 to `MOST_LINES`,
/// as the parser has refused before.
fn group(options: &ArgMatches<'_>) -> Option<u32>
    ensures { IfSome result (IsGroup (rows_of (found_of options.now))) }
{
    let lines = number(options, GROUP)?;
    if lines == 0 || MOST_LINES < lines {
        return None;
    }
    Some(lines)
}

/// The plan of a command on a key in a file.
fn of_key<'a>(name: &str, options: &ArgMatches<'a>) -> Option<Plan<'a>>
    ensures { IfSome result (Asks name.now (rows_of (found_of options.now))) }
{
    let file = text(options, FILE)?;
    let key = text(options, KEY)?;
    let spelling = spelling(options)?;
    match name {
        STORE => Some(Plan::Store {
            file,
            key,
            content: text(options, CONTENT)?,
            spelling,
        }),
        INSERT => Some(Plan::Insert {
            file,
            key,
            content: text(options, CONTENT)?,
            spelling,
        }),
        FETCH => Some(Plan::Fetch {
            file,
            key,
            spelling,
        }),
        DELETE => Some(Plan::Delete {
            file,
            key,
            spelling,
        }),
        _ => None,
    }
}

/// The word that was given under `id`.
fn text<'a>(options: &ArgMatches<'a>, id: &str) -> Option<&'a str>
    ensures { MatchOption result (first_of id.now (rows_of (found_of options.now)) ≡ None)
        (λ word. IsText (rows_of (found_of options.now)) id.now word.now) }
{
    options.get_str(id)
}

/// The number that was given under `id`, or that stands for it.
fn number(options: &ArgMatches<'_>, id: &str) -> Option<u32>
    ensures { IfSome result (IsNumberText (rows_of (found_of options.now)) id.now) }
{
    options.get_one(id)
}

/// How the key and the content are spelled.
fn spelling(options: &ArgMatches<'_>) -> Option<Spelling>
    ensures { IfSome result (λ spelled. one_of (codes "hexadecimal") (rows_of (found_of options.now)) ≡ Some (flag_text spelled)) }
{
    if options.get_one::<bool>(HEXADECIMAL)? {
        Some(Spelling::Hexadecimal)
    } else {
        Some(Spelling::Text)
    }
}

/// How the lines of all pairs, of all keys, or of a script are spelled.
fn form(options: &ArgMatches<'_>) -> Option<Spelling>
    ensures { IfSome result (IsForm (rows_of (found_of options.now))) }
{
    if options.get_one::<bool>(TEXT)? {
        Some(Spelling::Text)
    } else {
        Some(Spelling::Hexadecimal)
    }
}
