//! The names of the commands, the names under which the parser keeps what was given for a word or
//! an option, the most lines of a load that may share a commit, the usual wait and the longest one.

// The commands by their names.

pub const CREATE: &str = "create";

pub const STORE: &str = "store";

pub const INSERT: &str = "insert";

pub const FETCH: &str = "fetch";

pub const DELETE: &str = "delete";

pub const LIST: &str = "list";

pub const DUMP: &str = "dump";

pub const LOAD: &str = "load";

pub const STAT: &str = "stat";

pub const VERIFY: &str = "verify";

pub const VERSION: &str = "version";

pub const UPGRADE: &str = "upgrade";

pub const RESIZE: &str = "resize";

pub const BACKUP: &str = "backup";

pub const SALVAGE: &str = "salvage";

pub const SCRIPT: &str = "script";

pub const REHEARSE: &str = "rehearse";

pub const FAULTS: &str = "faults";

// Their words and options, as the parser keeps what was given for each.

pub const FILE: &str = "file";

pub const KEY: &str = "key";

pub const CONTENT: &str = "content";

pub const HEXADECIMAL: &str = "hexadecimal";

pub const TEXT: &str = "text";

pub const LIMIT: &str = "limit";

pub const REPLACE: &str = "replace";

pub const TO: &str = "to";

pub const MEMORY: &str = "memory";

pub const V2: &str = "v2";

pub const STOPS: &str = "stops";

pub const SYNCS: &str = "syncs";

pub const GROUP: &str = "group";

pub const READ: &str = "read";

pub const VERBOSE: &str = "verbose";

pub const WAIT: &str = "wait";

pub const CACHE: &str = "cache";

/// The most lines of a load that may share a commit.
pub const MOST_LINES: u32 = 100_000;

/// How many seconds to wait for a file where nobody says it, as a call of a program that shares the
/// file may be under way.
pub const USUAL_WAIT: u32 = 1;

/// The most seconds to wait for a file: a day.
pub const LONGEST_WAIT: u32 = 86_400;

/// The most pages of a file that may be kept in memory: 128 MB.
pub const MOST_KEPT: u32 = 65_536;
