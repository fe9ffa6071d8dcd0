// What the program may be asked to do.

/// What the words ask for.
#[derive(Clone, Copy, Debug, PartialEq, Eq)]
pub struct Request<'a> {
    pub plan: Plan<'a>,
    /// Whether the line of a fault is to be followed by one that says in words what happened.
    pub verbose: bool,
    /// How many seconds to wait for a file that another program has locked, where that was asked
    /// for.
    pub wait: Option<u32>,
    /// How many pages of a file are kept in memory at most, from 1 to 65536, where that was asked
    /// for.
    pub cache: Option<u32>,
}

/// What the words ask for. Each `file` is a name without `.db`, and each `key` and `content` is the
/// word as it was given: what it spells is left to the caller.
#[derive(Clone, Copy, Debug, PartialEq, Eq)]
pub enum Plan<'a> {
    /// Make a new database.
    Create {
        file: &'a str,
        /// How many pairs it may have.
        limit: u32,
        version: Version,
        commits: Commits,
    },
    /// Store a pair, in the place of one with its key.
    Store {
        file: &'a str,
        key: &'a str,
        content: &'a str,
        spelling: Spelling,
    },
    /// Store a pair where its key is new.
    Insert {
        file: &'a str,
        key: &'a str,
        content: &'a str,
        spelling: Spelling,
    },
    /// Print the content of a key, spelled as the key is.
    Fetch {
        file: &'a str,
        key: &'a str,
        spelling: Spelling,
    },
    /// Delete a pair.
    Delete {
        file: &'a str,
        key: &'a str,
        spelling: Spelling,
    },
    /// Print the keys: as words, or as text, which has a field with escapes in each line.
    List {
        file: &'a str,
        spelling: Spelling,
    },
    /// Print the pairs: as two words a line, or as text, which has two fields with escapes.
    Dump {
        file: &'a str,
        spelling: Spelling,
    },
    /// Store the pairs on standard input, which are spelled as a dump prints them.
    Load {
        file: &'a str,
        spelling: Spelling,
        /// How many lines may share a commit, from 1 to 100000.
        group: u32,
    },
    /// Put a new database with the pairs on standard input in the place of one that is there, which
    /// others may read meanwhile. It has the limit of the old one, or this one.
    Replace {
        file: &'a str,
        spelling: Spelling,
        limit: Option<u32>,
    },
    /// Put a new database with the same pairs in the place of one that is there, of its limit, or of
    /// this one.
    Resize {
        file: &'a str,
        limit: Option<u32>,
    },
    /// Make a whole copy of a database under another name.
    Backup {
        file: &'a str,
        /// The name of the copy, without `.db`.
        to: &'a str,
    },
    /// Print the pairs of each page that reads as such, also of a file that is damaged.
    Salvage {
        file: &'a str,
    },
    /// Print the numbers of a database.
    Stat {
        file: &'a str,
    },
    /// Look at every page, and print how many pairs there are.
    Verify {
        file: &'a str,
    },
    /// Print which version of the format a database has, and how many syncs each of its commits in a
    /// row takes.
    Format {
        file: &'a str,
    },
    /// Make a database that is there another one, with the same pairs.
    Upgrade {
        file: &'a str,
        to: Upgrade,
    },
    /// Run the script on standard input, of words, or as text, which has fields with escapes.
    Script {
        source: Source<'a>,
        spelling: Spelling,
    },
    /// Run the script on standard input on a database that is opened for reading.
    ReadScript {
        file: &'a str,
        spelling: Spelling,
    },
    /// Run the script on standard input in memory, stopped before each of its device calls, or
    /// before so many of them, and look at what is left.
    Rehearse {
        source: Source<'a>,
        stops: Option<u32>,
    },
    /// Print the exit statuses and the faults.
    Faults,
}

/// How a key and a content are spelled.
#[derive(Clone, Copy, Debug, PartialEq, Eq)]
pub enum Spelling {
    /// The word's own bytes.
    Text,
    /// Hexadecimal digits in pairs, and `.` for no bytes.
    Hexadecimal,
}

/// The database that a script runs on, or is rehearsed on.
#[derive(Clone, Copy, Debug, PartialEq, Eq)]
pub enum Source<'a> {
    /// The one of this name.
    File(&'a str),
    /// A new one in memory.
    Memory {
        /// How many pairs it may have.
        limit: u32,
        version: Version,
    },
}

/// What a database that is there is made.
#[derive(Clone, Copy, Debug, PartialEq, Eq)]
pub enum Upgrade {
    /// One of version 2 of the format.
    Version2,
    /// One whose commits are made so.
    Commits(Commits),
}

/// How the commits of a file are made.
#[derive(Clone, Copy, Debug, PartialEq, Eq)]
pub enum Commits {
    /// By redo images, with two syncs each.
    Images,
    /// In a row by a log, with one sync each.
    Log,
}

/// A version of the file format.
#[derive(Clone, Copy, Debug, PartialEq, Eq)]
pub enum Version {
    /// Contents of up to 2,026 bytes, together with their keys.
    V1,
    /// Also longer contents, of up to 65,535 bytes, under keys of up to 1,023.
    V2,
}
