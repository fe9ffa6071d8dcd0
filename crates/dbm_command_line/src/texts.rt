// The texts of the help. Each of the longer ones stands in a function of its own, since each step of
// a function's proof repeats the texts in it.

const ABOUT: &str = "Keeps pairs of a key and a content in a file, as the dbm interface does.

A KEY or CONTENT that begins with a hyphen, or is not UTF-8, is given in
hexadecimal, with -x.

Example:
  dbmtool create colors
  dbmtool store colors sky blue
  dbmtool fetch colors sky";

const LOAD_EXAMPLES: &str = "With --text an empty line and one that begins with `#` are passed over.

Example:
  dbmtool load colors < colors.txt
  dbmtool load colors --group 1 < colors.txt
  dbmtool load colors --replace --limit 2000 < colors.txt
  printf 'sky\\tblue\\n' | dbmtool load --text colors";

const SCRIPT_LINES: &str =
    "Each line is a call, its words one space apart and bytes in hexadecimal, `.` for none:
  S KEY CONTENT   stores a pair; answers `0`
  I KEY CONTENT   stores a pair where KEY is new; answers `0`, or `1` where it is not
  F KEY           fetches; answers the content, or `none`
  D KEY           deletes; answers `0`, or `-1 absent`
  1               begins a pass; answers the first key, or `end`
  N               goes on with the pass; answers the next key, or `end`
  E               answers the error number
  C               clears the error number; answers `0`
A refused call is answered by `-1 fault N`, and a line that is no call by `-1 line`.

With --text tabs stand in place of the spaces, and KEY and CONTENT are text, empty for
no bytes. So are the answers. A content or a key that would read as another answer, as
`none`, `end` or what begins with `-1 `, has its first byte as `\\xHH` there.

Example:
  echo 'S 6b 76' | dbmtool script --memory 100
  printf 'S\\tsky\\tblue\\n' | dbmtool script --text colors";

const REHEARSE_STEPS: &str =
    "The calls are those of a script. They are made in memory, on a copy of FILE or on a
new database, and FILE stays as it is. The calls are cut short before each of
their reads, writes and syncs in turn. What is left, with none, all, every
second or a draw of the unsynced writes, is opened again, which is cut short
too, and once more; then all acknowledged changes are looked for, and no more
than the one that was under way besides. Five counts are printed; it exits with
0 where each stop kept the database.

Example:
  echo 'S 6b 76' | dbmtool rehearse --memory 100";

// The shorter ones, of words and options.

pub const FILE_HELP: &str = "The name of the database, without `.db`";

pub const CREATE_V2_HELP: &str =
    "Version 2 of the format: contents of up to 65535 bytes, under keys of up to 1023";

pub const CREATE_SYNCS_HELP: &str =
    "How many syncs each of many stores takes: 2, or 1 by a log, which programs from before can't open";

pub const UPGRADE_SYNCS_HELP: &str =
    "Leave the version, and have each of many stores take 1 sync by a log, or 2 again without one";

pub const MEMORY_V2_HELP: &str = "With --memory: a database of version 2 of the format";

pub const KEYS_TEXT_HELP: &str =
    "Keys as text, with `\\t`, `\\n`, `\\\\`, `\\xHH` for bytes; else in hexadecimal";

pub const PAIRS_TEXT_HELP: &str =
    "Lines are key and content with a tab between them, and `\\t`, `\\n`, `\\\\`, `\\xHH` for bytes; else two words in hexadecimal";

pub const SCRIPT_TEXT_HELP: &str =
    "A call and its bytes have tabs between them, and `\\t`, `\\n`, `\\\\`, `\\xHH` for bytes; else words in hexadecimal";

// Whoever gives -x to these is told by their usage that it isn't needed.
pub const LIST_USAGE: &str = "dbmtool list [--text] <FILE>

Keys are printed in hexadecimal but for --text, so there is no -x.";

pub const DUMP_USAGE: &str = "dbmtool dump [--text] <FILE>

Pairs are printed in hexadecimal but for --text, so there is no -x.";

/// The program's, before its commands.
pub fn about_text<'a>() -> &'a str {
    ABOUT
}

/// The examples of a load.
pub fn load_examples<'a>() -> &'a str {
    LOAD_EXAMPLES
}

/// The lines of a script.
pub fn script_lines<'a>() -> &'a str {
    SCRIPT_LINES
}

/// What a rehearsal does.
pub fn rehearse_steps<'a>() -> &'a str {
    REHEARSE_STEPS
}
