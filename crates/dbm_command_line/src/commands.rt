// The commands.
ghost use Rattle.std.specs.Prelude.{IfOk, codes};
ghost use Rattle.dbm_command_line.specs.Building.{Adds, IsApp, alone};
ghost use Rattle.dbm_command_line.specs.CommandLine.{backup_line, command_line, create_line, faults_line, file_line, key_line, load_line, pair_line, pairs_line, program_line, rehearse_line, resize_line, script_line, upgrade_line};

use crate::arguments::{
    cache, for_reading, group, hexadecimal, number, replace, stops, syncs, text_form, verbose,
    version, wait, word,
};
use crate::help_text::fault_table;
use crate::names::{
    BACKUP, CONTENT, CREATE, DELETE, DUMP, FAULTS, FETCH, FILE, INSERT, KEY, LIMIT, LIST, LOAD,
    MEMORY, REHEARSE, RESIZE, SALVAGE, SCRIPT, STAT, STORE, TO, UPGRADE, VERIFY, VERSION,
};
use crate::texts::{
    CREATE_SYNCS_HELP, CREATE_V2_HELP, DUMP_USAGE, FILE_HELP, KEYS_TEXT_HELP, LIST_USAGE,
    MEMORY_V2_HELP, PAIRS_TEXT_HELP, SCRIPT_TEXT_HELP, UPGRADE_SYNCS_HELP, about_text,
    load_examples, rehearse_steps, script_lines,
};
use clap::Command;
use std::alloc::{AllocError, Global};

const NAME: &str = "dbmtool";

/// The program's version, and the versions of the format that it knows.
const KNOWN_VERSIONS: &str = "0.1.0, file formats 1 and 2";

/// The whole command line, of the words after the program's name.
pub fn command<'a>(alloc: Global) -> Result<Command<'a>, AllocError>
    ensures { IfOk result (λ c. IsApp c command_line) }
{
    let command = with_subcommand(program(alloc), create_command(alloc));
    let command = with_subcommand(command, store_command(alloc));
    let command = with_subcommand(command, insert_command(alloc));
    let command = with_subcommand(command, fetch_command(alloc));
    let command = with_subcommand(command, delete_command(alloc));
    let command = with_subcommand(command, list_command(alloc));
    let command = with_subcommand(command, dump_command(alloc));
    let command = with_subcommand(command, load_command(alloc));
    let command = with_subcommand(command, stat_command(alloc));
    let command = with_subcommand(command, verify_command(alloc));
    let command = with_subcommand(command, version_command(alloc));
    let command = with_subcommand(command, upgrade_command(alloc));
    let command = with_subcommand(command, resize_command(alloc));
    let command = with_subcommand(command, backup_command(alloc));
    let command = with_subcommand(command, salvage_command(alloc));
    let command = with_subcommand(command, script_command(alloc));
    let command = with_subcommand(command, rehearse_command(alloc));
    with_subcommand(command, Ok(faults_command(alloc)))
}

/// The command with one more subcommand, if both could be made. An early return that drops a
/// command is long to prove, and these are the only ones.
fn with_subcommand<'a>(
    command: Result<Command<'a>, AllocError>,
    line: Result<Command<'a>, AllocError>,
) -> Result<Command<'a>, AllocError>
    ensures { Adds command.entry line.entry result }
{
    command?.subcommand(line?)
}

/// The program, with no command yet. Usage shows its name, although the words don't have it.
fn program<'a>(alloc: Global) -> Result<Command<'a>, AllocError>
    ensures { IfOk result (λ c. IsApp c (alone program_line)) }
{
    Command::new(alloc, NAME)
        .about(about_text())
        .version(KNOWN_VERSIONS)
        .no_binary_name(true)
        .subcommand_required(true)
        .after_help(fault_table())
        .bin_name(NAME)?
        .arg(verbose(alloc))?
        .arg(wait(alloc))?
        .arg(cache(alloc))
}

fn create_command<'a>(alloc: Global) -> Result<Command<'a>, AllocError>
    ensures { IfOk result (λ c. IsApp c (alone create_line)) }
{
    let limit = number(
        alloc,
        LIMIT,
        "How many pairs it may have, from 1 to 1000000",
    );
    file_command(
        alloc,
        CREATE,
        "Makes a new database",
        "Example:\n  dbmtool create colors --limit 1000",
    )?
    .arg(limit.default_value("1000000"))?
    .arg(version(alloc, CREATE_V2_HELP))?
    .arg(syncs(alloc, CREATE_SYNCS_HELP))
}

fn store_command<'a>(alloc: Global) -> Result<Command<'a>, AllocError>
    ensures { IfOk result (λ c. IsApp c (alone (pair_line (codes "store")))) }
{
    pair_command(
        alloc,
        STORE,
        "Stores a pair, in the place of one with its key",
        "Example:\n  dbmtool store colors sky blue\n  dbmtool store colors 736b79 626c7565 -x",
    )
}

fn insert_command<'a>(alloc: Global) -> Result<Command<'a>, AllocError>
    ensures { IfOk result (λ c. IsApp c (alone (pair_line (codes "insert")))) }
{
    pair_command(
        alloc,
        INSERT,
        "Stores a pair where its key is new; else changes nothing and exits with 1",
        "Example:\n  dbmtool insert colors sky blue",
    )
}

fn fetch_command<'a>(alloc: Global) -> Result<Command<'a>, AllocError>
    ensures { IfOk result (λ c. IsApp c (alone (key_line (codes "fetch")))) }
{
    key_command(
        alloc,
        FETCH,
        "Prints the content of a key; exits with 1 where there is none",
        "Example:\n  dbmtool fetch colors sky",
    )
}

fn delete_command<'a>(alloc: Global) -> Result<Command<'a>, AllocError>
    ensures { IfOk result (λ c. IsApp c (alone (key_line (codes "delete")))) }
{
    key_command(
        alloc,
        DELETE,
        "Deletes a pair by its key; exits with 1 where there is none",
        "Example:\n  dbmtool delete colors sky",
    )
}

fn list_command<'a>(alloc: Global) -> Result<Command<'a>, AllocError>
    ensures { IfOk result (λ c. IsApp c (alone (pairs_line (codes "list")))) }
{
    let command = text_command(
        alloc,
        LIST,
        "Prints the keys, one a line, in hexadecimal or as text",
        KEYS_TEXT_HELP,
        "Example:\n  dbmtool list colors\n  dbmtool list --text colors",
    )?;
    Ok(command.override_usage(LIST_USAGE))
}

fn dump_command<'a>(alloc: Global) -> Result<Command<'a>, AllocError>
    ensures { IfOk result (λ c. IsApp c (alone (pairs_line (codes "dump")))) }
{
    let command = pairs_command(
        alloc,
        DUMP,
        "Prints the pairs, one a line, as `load` reads them",
        "Example:\n  dbmtool dump colors > colors.txt\n  dbmtool dump --text colors",
    )?;
    Ok(command.override_usage(DUMP_USAGE))
}

fn load_command<'a>(alloc: Global) -> Result<Command<'a>, AllocError>
    ensures { IfOk result (λ c. IsApp c (alone load_line)) }
{
    let limit = number(
        alloc,
        LIMIT,
        "With --replace: how many pairs the new table may have; else as many as the old one",
    );
    pairs_command(
        alloc,
        LOAD,
        "Stores the pairs on standard input, as `dump` prints them",
        load_examples(),
    )?
    .arg(group(alloc))?
    .arg(replace(alloc))?
    .arg(limit)
}

fn stat_command<'a>(alloc: Global) -> Result<Command<'a>, AllocError>
    ensures { IfOk result (λ c. IsApp c (alone (file_line (codes "stat")))) }
{
    file_command(
        alloc,
        STAT,
        "Prints how many pairs, buckets and pages there are, in seven lines",
        "Example:\n  dbmtool stat colors",
    )
}

fn verify_command<'a>(alloc: Global) -> Result<Command<'a>, AllocError>
    ensures { IfOk result (λ c. IsApp c (alone (file_line (codes "verify")))) }
{
    file_command(
        alloc,
        VERIFY,
        "Looks at every page, and prints how many pairs there are, or tells fault 9",
        "Example:\n  dbmtool verify colors",
    )
}

fn version_command<'a>(alloc: Global) -> Result<Command<'a>, AllocError>
    ensures { IfOk result (λ c. IsApp c (alone (file_line (codes "version")))) }
{
    file_command(
        alloc,
        VERSION,
        "Prints the version of a database's format and how many syncs a change in a row takes, in two lines; --version tells the program's own",
        "Example:\n  dbmtool version colors",
    )
}

fn upgrade_command<'a>(alloc: Global) -> Result<Command<'a>, AllocError>
    ensures { IfOk result (λ c. IsApp c (alone upgrade_line)) }
{
    file_command(
        alloc,
        UPGRADE,
        "Makes a database one of version 2, which has contents of up to 65535 bytes",
        "Examples:\n  dbmtool upgrade colors\n  dbmtool upgrade colors --syncs 1",
    )?
    .arg(syncs(alloc, UPGRADE_SYNCS_HELP))
}

fn resize_command<'a>(alloc: Global) -> Result<Command<'a>, AllocError>
    ensures { IfOk result (λ c. IsApp c (alone resize_line)) }
{
    let limit = number(
        alloc,
        LIMIT,
        "How many pairs it may have then, from 1 to 1000000; else as many as before",
    );
    file_command(
        alloc,
        RESIZE,
        "Puts a table with the same pairs and another limit in the place of the old one, or makes its file small",
        "Example:\n  dbmtool resize colors --limit 2000",
    )?
    .arg(limit)
}

fn backup_command<'a>(alloc: Global) -> Result<Command<'a>, AllocError>
    ensures { IfOk result (λ c. IsApp c (alone backup_line)) }
{
    file_command(
        alloc,
        BACKUP,
        "Makes a whole copy of a database, which was looked through, under a name that is free",
        "Example:\n  dbmtool backup colors colors-monday",
    )?
    .arg(word(alloc, TO, "TO", "The name of the copy, without `.db`"))
}

fn salvage_command<'a>(alloc: Global) -> Result<Command<'a>, AllocError>
    ensures { IfOk result (λ c. IsApp c (alone (file_line (codes "salvage")))) }
{
    file_command(
        alloc,
        SALVAGE,
        "Prints the pairs of each page that can be read, also of a damaged file, and tells the other pages",
        "Example:\n  dbmtool salvage colors > saved.txt",
    )
}

fn script_command<'a>(alloc: Global) -> Result<Command<'a>, AllocError>
    ensures { IfOk result (λ c. IsApp c (alone script_line)) }
{
    let memory = number(
        alloc,
        MEMORY,
        "In place of FILE: a new database in memory, of at most N pairs (1 to 1000000)",
    );
    Command::new(alloc, SCRIPT)
        .about("Runs the calls on standard input, and answers each on a line of its own")
        .after_help(script_lines())
        .arg(word(alloc, FILE, "FILE", FILE_HELP).required(false))?
        .arg(memory)?
        .arg(version(alloc, MEMORY_V2_HELP))?
        .arg(for_reading(alloc))?
        .arg(text_form(alloc, SCRIPT_TEXT_HELP))
}

fn rehearse_command<'a>(alloc: Global) -> Result<Command<'a>, AllocError>
    ensures { IfOk result (λ c. IsApp c (alone rehearse_line)) }
{
    let memory = number(
        alloc,
        MEMORY,
        "In place of FILE: a new database of at most N pairs (1 to 1000000)",
    );
    Command::new(alloc, REHEARSE)
        .about("Makes a script's calls in memory, stopped anywhere, and looks at what is left")
        .after_help(rehearse_steps())
        .arg(word(alloc, FILE, "FILE", FILE_HELP).required(false))?
        .arg(memory)?
        .arg(version(alloc, MEMORY_V2_HELP))?
        .arg(stops(alloc))
}

/// The command that prints the statuses and the faults.
fn faults_command<'a>(alloc: Global) -> Command<'a>
    ensures { IsApp result (alone faults_line) }
{
    Command::new(alloc, FAULTS)
        .about("Prints the exit statuses and the faults, and what to do")
        .after_help("Example:\n  dbmtool faults")
}

/// A command of all pairs, which may be a text of fields.
fn pairs_command<'a>(
    alloc: Global,
    name: &'a str,
    about: &'a str,
    after: &'a str,
) -> Result<Command<'a>, AllocError>
    ensures { IfOk result (λ c. IsApp c (alone (pairs_line name.now))) }
{
    text_command(alloc, name, about, PAIRS_TEXT_HELP, after)
}

/// A command whose lines may be text, of which `help` says how they are.
fn text_command<'a>(
    alloc: Global,
    name: &'a str,
    about: &'a str,
    help: &'a str,
    after: &'a str,
) -> Result<Command<'a>, AllocError>
    ensures { IfOk result (λ c. IsApp c (alone (pairs_line name.now))) }
{
    file_command(alloc, name, about, after)?.arg(text_form(alloc, help))
}

/// A command of a pair, as `key_command` has a key.
fn pair_command<'a>(
    alloc: Global,
    name: &'a str,
    about: &'a str,
    after: &'a str,
) -> Result<Command<'a>, AllocError>
    ensures { IfOk result (λ c. IsApp c (alone (pair_line name.now))) }
{
    key_command(alloc, name, about, after)?.arg(word(
        alloc,
        CONTENT,
        "CONTENT",
        "The pair's content, at most 2026 bytes with its key; in version 2 up to 65535",
    ))
}

/// A command of a key, which may be given in hexadecimal.
fn key_command<'a>(
    alloc: Global,
    name: &'a str,
    about: &'a str,
    after: &'a str,
) -> Result<Command<'a>, AllocError>
    ensures { IfOk result (λ c. IsApp c (alone (key_line name.now))) }
{
    file_command(alloc, name, about, after)?
        .arg(word(alloc, KEY, "KEY", "The pair's key"))?
        .arg(hexadecimal(alloc))
}

/// A command of a file. Its help begins with `about` and ends with `after`.
fn file_command<'a>(
    alloc: Global,
    name: &'a str,
    about: &'a str,
    after: &'a str,
) -> Result<Command<'a>, AllocError>
    ensures { IfOk result (λ c. IsApp c (alone (file_line name.now))) }
{
    Command::new(alloc, name)
        .about(about)
        .after_help(after)
        .arg(word(alloc, FILE, "FILE", FILE_HELP))
}
