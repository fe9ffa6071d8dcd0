//! What is told of the exit statuses and the faults: the table, and the words of each failure in
//! one line. Both are made of the same texts.
ghost use Rattle.std.specs.Prelude.{◌≡◌};

/// What stands in front of a failure's words in the table, and its words in the lines of the table,
/// passed to a form behind what is in front.
macro_rules! failure {
    (stopped $form:ident $($front:tt)*) => {
        $form! { $($front)* { "        dbmtool: stop N      " "a rehearsal stopped after " } }
    };
    (lost $form:ident $($front:tt)*) => {
        $form! { $($front)* { "N" " device calls lost a" "change: tell whoever wrote the program" } }
    };
    (read $form:ident $($front:tt)*) => {
        $form! { $($front)* { "        dbmtool: read        " "standard input can't be read" } }
    };
    (write $form:ident $($front:tt)*) => {
        $form! { $($front)* { "        dbmtool: write       " "standard output can't be written" } }
    };
    (memory $form:ident $($front:tt)*) => {
        $form! { $($front)* {
            "  1   " "no memory: give it more; the call that was refused changed nothing"
        } }
    };
    (device $form:ident $($front:tt)*) => {
        $form! { $($front)* {
            "  2   " "the system failed to read, write, sync or open the file, or another"
            "program has it open: look at the disk, at the file's rights and at who"
            "uses it; a change cut short is there whole or not at all"
        } }
    };
    (broken $form:ident $($front:tt)*) => {
        $form! { $($front)* {
            "  3   " "an earlier fault left a change in doubt: open the file again, which"
            "settles it"
        } }
    };
    (read_only $form:ident $($front:tt)*) => {
        $form! { $($front)* {
            "  4   " "a change or an upgrade of a database that was opened for reading: open it"
            "for writing"
        } }
    };
    (too_long $form:ident $($front:tt)*) => {
        $form! { $($front)* {
            "  5   " "the pair is longer than the file's version allows: key and content"
            "together have more than 2026 bytes, and in version 2 the key more than"
            "1023 or the content more than 65535: shorten them, or `dbmtool upgrade`"
        } }
    };
    (full $form:ident $($front:tt)*) => {
        $form! { $($front)* {
            "  6   " "the limit is reached, and the key is new: take a higher one, by"
            "`dbmtool resize`"
        } }
    };
    (no_pass $form:ident $($front:tt)*) => {
        $form! { $($front)* { "  7   " "a next key with no pass begun: begin a pass" } }
    };
    (no_room $form:ident $($front:tt)*) => {
        $form! { $($front)* { "  8   " "no room in the file for the change: take a larger device" } }
    };
    (damaged $form:ident $($front:tt)*) => {
        $form! { $($front)* {
            "  9   " "the file is damaged: restore a backup or load a dump, or take what"
            "`dbmtool salvage` prints"
        } }
    };
    (not_a_database $form:ident $($front:tt)*) => {
        $form! { $($front)* {
            "  10  " "the file is no database: look at the name, which is given without `.db`"
        } }
    };
    (version $form:ident $($front:tt)*) => {
        $form! { $($front)* {
            "  11  " "the file is of a version of the format that this program doesn't know:"
            "use a newer dbmtool"
        } }
    };
    (too_small $form:ident $($front:tt)*) => {
        $form! { $($front)* {
            "  12  " "the device is too small for a database of this limit, or for one of"
            "version 2: take a lower limit, or a larger device"
        } }
    };
    (bad_limit $form:ident $($front:tt)*) => {
        $form! { $($front)* { "  13  " "a limit outside 1 to 1000000: take one within" } }
    };
    (missing $form:ident $($front:tt)*) => {
        $form! { $($front)* {
            "  14  " "there is no such file: look at the name, or use `dbmtool create`"
        } }
    };
    (exists $form:ident $($front:tt)*) => {
        $form! { $($front)* { "  15  " "there is such a file already: take another name" } }
    };
}

/// A failure's words in one line.
macro_rules! in_one_line {
    ({ $front:literal $first:literal $($line:literal)* }) => { concat!($first $(, " ", $line)*) };
}

/// The table of the failures of these names. It gathers them one after another.
macro_rules! table {
    ([$next:ident $($later:ident)*] $($gathered:tt)*) => {
        failure! { $next table [$($later)*] $($gathered)* }
    };
    (
        []
        { $stop:literal $stopped:literal }
        { $calls:literal $lost:literal $tell:literal }
        { $input:literal $read:literal }
        { $output:literal $write:literal }
        $({ $number:literal $first:literal $($line:literal)* })*
    ) => {
        concat!(
            "Exit status:
  0   all was done; in a script calls may have been refused, as its replies say
  1   a fetched or deleted key isn't there, or an inserted one is
  2   a fault, told in one line on standard error:
        dbmtool: fault N     one of those below
        dbmtool: line N      line N of a load is bad; those before are stored
",
            $stop, $stopped, $calls, $lost, "\n                             ", $tell, "\n",
            $input, $read, "\n", $output, $write,
            "
      and in words in a second line, with --verbose or DBMTOOL_VERBOSE=1
  3   words that make no sense: usage, or one line on standard error:
        dbmtool: not hex     with -x give digits in pairs, or `.` for no bytes
        dbmtool: not UTF-8   give such a KEY or CONTENT in hexadecimal, with -x
  141 nobody reads standard output any more, as of `dump | head`

Faults:
",
            $($number, $first, $("\n      ", $line,)* "\n"),*
        )
    };
}

/// The exit statuses of the program and its faults, with what to do, in lines of under 80 columns.
/// The program's help ends with it, and `dbmtool faults` prints it.
pub const FAULT_TABLE: &str = table!([
    stopped lost read write memory device broken read_only too_long full no_pass no_room damaged
    not_a_database version too_small bad_limit missing exists
]);

/// What stands in front of the number of device calls after which a rehearsal lost a change.
pub const STOPPED_WORDS: &str = failure!(stopped in_one_line);

/// What stands behind that number.
pub const LOST_WORDS: &str = failure!(lost in_one_line);

pub const READ_WORDS: &str = failure!(read in_one_line);

pub const WRITE_WORDS: &str = failure!(write in_one_line);

pub const MEMORY_WORDS: &str = failure!(memory in_one_line);

pub const DEVICE_WORDS: &str = failure!(device in_one_line);

pub const BROKEN_WORDS: &str = failure!(broken in_one_line);

pub const READ_ONLY_WORDS: &str = failure!(read_only in_one_line);

pub const TOO_LONG_WORDS: &str = failure!(too_long in_one_line);

pub const FULL_WORDS: &str = failure!(full in_one_line);

pub const NO_PASS_WORDS: &str = failure!(no_pass in_one_line);

pub const NO_ROOM_WORDS: &str = failure!(no_room in_one_line);

pub const DAMAGED_WORDS: &str = failure!(damaged in_one_line);

pub const NOT_A_DATABASE_WORDS: &str = failure!(not_a_database in_one_line);

pub const VERSION_WORDS: &str = failure!(version in_one_line);

pub const TOO_SMALL_WORDS: &str = failure!(too_small in_one_line);

pub const BAD_LIMIT_WORDS: &str = failure!(bad_limit in_one_line);

pub const MISSING_WORDS: &str = failure!(missing in_one_line);

pub const EXISTS_WORDS: &str = failure!(exists in_one_line);

/// The table, where a proof is to read a call in place of the whole text.
pub fn fault_table<'a>() -> &'a str
    ensures { result.now ≡ FAULT_TABLE.now }
{
    FAULT_TABLE
}
