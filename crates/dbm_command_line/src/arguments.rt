// The words and options that commands take.
ghost use Rattle.dbm_command_line.specs.Building.{IsRule};
ghost use Rattle.dbm_command_line.specs.CommandLine.{cache_rule, group_rule, hexadecimal_rule, number_rule, read_rule, replace_rule, stops_rule, syncs_rule, text_rule, verbose_rule, version_rule, wait_rule, word_rule};

use crate::names::{
    CACHE, GROUP, HEXADECIMAL, LONGEST_WAIT, MOST_KEPT, MOST_LINES, READ, REPLACE, STOPS, SYNCS,
    TEXT, V2, VERBOSE, WAIT,
};
use clap::{Arg, ArgAction, value_parser};
use std::alloc::Global;

/// A word that has to be given, in its place.
pub fn word<'a>(alloc: Global, id: &'a str, shown: &'a str, help: &'a str) -> Arg<'a>
    ensures { IsRule result (word_rule id.now) }
{
    Arg::new(alloc, id)
        .value_name(shown)
        .required(true)
        .help(help)
}

/// An option whose value is a `u32`.
pub fn number<'a>(alloc: Global, name: &'a str, help: &'a str) -> Arg<'a>
    ensures { IsRule result (number_rule name.now) }
{
    Arg::new(alloc, name)
        .long(name)
        .value_name("N")
        .value_parser(value_parser!(u32))
        .help(help)
}

/// The option `--group`, whose value is from 1 to `MOST_LINES`, and 10000 where it isn't given.
pub fn group<'a>(alloc: Global) -> Arg<'a>
    ensures { IsRule result group_rule }
{
    Arg::new(alloc, GROUP)
        .long(GROUP)
        .value_name("N")
        .value_parser(value_parser!(u32).range(1..=i64::from(MOST_LINES)))
        .default_value("10000")
        .help(
            "Store up to N lines (1 to 100000) in one commit, of which a stop leaves all or none; with 1 each line is on the disk before the next is read",
        )
}

/// The option `--stops`, whose value is from 1 on.
pub fn stops<'a>(alloc: Global) -> Arg<'a>
    ensures { IsRule result stops_rule }
{
    Arg::new(alloc, STOPS)
        .long(STOPS)
        .value_name("N")
        .value_parser(value_parser!(u32).range(1..=i64::from(u32::MAX)))
        .help("Stop N times at most, spread evenly, and not before each read, write and sync")
}

/// The option `--syncs`, whose value is 1 or 2, of a command that makes a database or changes one.
pub fn syncs<'a>(alloc: Global, help: &'a str) -> Arg<'a>
    ensures { IsRule result syncs_rule }
{
    Arg::new(alloc, SYNCS)
        .long(SYNCS)
        .value_name("N")
        .value_parser(value_parser!(u32).range(1..=2))
        .help(help)
}

/// The flag `-x`.
pub fn hexadecimal<'a>(alloc: Global) -> Arg<'a>
    ensures { IsRule result hexadecimal_rule }
{
    Arg::new(alloc, HEXADECIMAL)
        .short('x')
        .action(ArgAction::SetTrue)
        .help(
            "The bytes are in hexadecimal, two digits each and `.` for none; so is what is printed",
        )
}

/// The flag `--text` of a command of all pairs, of all keys, or of a script.
pub fn text_form<'a>(alloc: Global, help: &'a str) -> Arg<'a>
    ensures { IsRule result text_rule }
{
    Arg::new(alloc, TEXT)
        .long(TEXT)
        .action(ArgAction::SetTrue)
        .help(help)
}

/// The flag `--v2` of a command that makes a database.
pub fn version<'a>(alloc: Global, help: &'a str) -> Arg<'a>
    ensures { IsRule result version_rule }
{
    Arg::new(alloc, V2)
        .long(V2)
        .action(ArgAction::SetTrue)
        .help(help)
}

/// The flag `--read` of a script.
pub fn for_reading<'a>(alloc: Global) -> Arg<'a>
    ensures { IsRule result read_rule }
{
    Arg::new(alloc, READ)
        .long(READ)
        .action(ArgAction::SetTrue)
        .help(
            "Open FILE for reading, beside others that read it; a change is answered by `-1 fault 4`",
        )
}

/// The flag `--replace` of a load.
pub fn replace<'a>(alloc: Global) -> Arg<'a>
    ensures { IsRule result replace_rule }
{
    Arg::new(alloc, REPLACE)
        .long(REPLACE)
        .action(ArgAction::SetTrue)
        .help(
            "Put a new table with these pairs in the place of the old one: those who read it meanwhile go on, and a stop leaves the old or the new one whole",
        )
}

/// The flag `--verbose`, in front of the command.
pub fn verbose<'a>(alloc: Global) -> Arg<'a>
    ensures { IsRule result verbose_rule }
{
    Arg::new(alloc, VERBOSE)
        .long(VERBOSE)
        .action(ArgAction::SetTrue)
        .help("At status 2, a second line says in words what happened, and in which file")
}

/// The option `--wait`, in front of the command, whose value is from 0 to `LONGEST_WAIT`.
pub fn wait<'a>(alloc: Global) -> Arg<'a>
    ensures { IsRule result wait_rule }
{
    Arg::new(alloc, WAIT)
        .long(WAIT)
        .value_name("SECONDS")
        .value_parser(value_parser!(u32).range(0..=i64::from(LONGEST_WAIT)))
        .help(
            "Where another program has the file open, try again for so many seconds (0 to 86400, else 1)",
        )
}

/// The option `--cache`, in front of the command, whose value is from 1 to `MOST_KEPT`.
pub fn cache<'a>(alloc: Global) -> Arg<'a>
    ensures { IsRule result cache_rule }
{
    Arg::new(alloc, CACHE)
        .long(CACHE)
        .value_name("PAGES")
        .value_parser(value_parser!(u32).range(1..=i64::from(MOST_KEPT)))
        .help("Keep up to so many pages of the file in memory, of 2 KB each (1 to 65536, else 256)")
}
