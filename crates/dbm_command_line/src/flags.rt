// The flags that were given, or not.
ghost use Rattle.std.specs.Prelude.{IfSome};
ghost use Rattle.clap.specs.Words.{found_of, rows_of};
ghost use Rattle.dbm_command_line.specs.Asking.{IsForReading, IsReplacing, IsVerbose};

use crate::names::{READ, REPLACE, VERBOSE};
use clap::ArgMatches;

/// Whether a fault is to be told in words.
pub fn verbose(options: &ArgMatches<'_>) -> Option<bool>
    ensures { IfSome result (IsVerbose (rows_of (found_of options.now))) }
{
    if options.get_one::<bool>(VERBOSE)? {
        Some(true)
    } else {
        Some(false)
    }
}

/// Whether a load is to replace the pairs that are there.
pub fn replacing(options: &ArgMatches<'_>) -> Option<bool>
    ensures { IfSome result (IsReplacing (rows_of (found_of options.now))) }
{
    if options.get_one::<bool>(REPLACE)? {
        Some(true)
    } else {
        Some(false)
    }
}

/// Whether the database of a script is to be opened for reading.
pub fn for_reading(options: &ArgMatches<'_>) -> Option<bool>
    ensures { IfSome result (IsForReading (rows_of (found_of options.now))) }
{
    if options.get_one::<bool>(READ)? {
        Some(true)
    } else {
        Some(false)
    }
}
