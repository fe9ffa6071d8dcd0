// How a database is opened.
ghost use Rattle.std.specs.Prelude.{◌≡◌};
ghost use Rattle.file_opening.specs.Opening.{writes, is_exclusive};

use page_io::Version;
use redo_area::CommitKind;

/// What an opened database may be asked to do (POSIX: the access mode of the open flags).
#[derive(Clone, Copy, Debug, PartialEq, Eq)]
pub enum Access {
    /// Reading alone: a store or a delete is refused as `ReadOnly`, and the device is never
    /// written.
    ReadOnly,
    /// The same as `ReadWrite` (POSIX: a database opened for writing only is opened for reading and
    /// writing).
    WriteOnly,
    ReadWrite,
}

impl Access {
    /// Whether it allows stores and deletes.
    pub fn is_writable(self) -> bool
        ensures { result ≡ writes self }
    {
        match self {
            Access::ReadOnly => false,
            Access::WriteOnly | Access::ReadWrite => true,
        }
    }
}

/// How to open a database (POSIX: the open flags of `dbm_open`).
#[derive(Clone, Copy, Debug, PartialEq, Eq)]
pub struct OpenHow {
    pub access: Access,
    /// Make the database where the device is blank (POSIX: O_CREAT).
    pub create: bool,
    /// With `create`: refuse a device that isn't blank (POSIX: O_EXCL).
    pub exclusive: bool,
    /// Make a database that is there empty, with a new limit and version (POSIX: O_TRUNC).
    pub truncate: bool,
    /// How many pairs a database that is made or emptied may have: 1 to 1,000,000. It is looked at
    /// in no other case.
    pub limit: u32,
    /// The version of a database that is made or emptied. It is looked at in no other case.
    pub version: Version,
    /// How the commits of a database that is made are made. It is looked at in no other case: one that
    /// is emptied goes on as it was.
    pub commits: CommitKind,
    /// How many pages that were read are kept in memory at most, of 2,048 bytes each: 1 to 65,536,
    /// and 256 where none is said. Memory is taken as they are read.
    pub kept_pages: Option<u32>,
}

impl OpenHow {
    /// Whether a database that is there is refused.
    pub fn is_exclusive(self) -> bool
        ensures { result ≡ is_exclusive self }
    {
        self.create && self.exclusive
    }
}
