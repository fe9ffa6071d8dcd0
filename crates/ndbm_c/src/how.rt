// What C asks for when it opens a database.
ghost use Rattle.std.specs.Prelude.{◌≡◌};
ghost use Rattle.ndbm_c.specs.Opening.{how_of};

use dbm_file::{Access, CommitKind, OpenHow, Version};
use sect_dev::Past;

// How many pages are kept in memory at most where nobody asks for another number, 32 MB of them.
const KEPT_PAGES: u32 = 16_384;

/// A file that C serves.
#[repr(C)]
pub struct ServedFile {
    /// How many sectors its device has.
    pub sectors: u32,
    /// What was done to it before, for clauses alone.
    pub past: Past,
}

/// How C asks for a database to be opened, as `OpenHow` of `dbm_file` has it.
#[repr(C)]
#[derive(Clone, Copy)]
pub struct How {
    pub writable: bool,
    pub create: bool,
    pub exclusive: bool,
    pub truncate: bool,
    /// Whether a database that is made or emptied is one of version 1, and a new one has its commits
    /// made by redo images; else it is one of version 2, and a new one has them in a log.
    pub first_version: bool,
    pub limit: u32,
    /// How many pages are kept in memory at most, 1 to 65,536, or 0 for 16,384.
    pub kept_pages: u32,
}

impl How {
    pub(crate) fn open_how(self) -> OpenHow
        ensures { result ≡ how_of self }
    {
        OpenHow {
            access: if self.writable {
                Access::ReadWrite
            } else {
                Access::ReadOnly
            },
            create: self.create,
            exclusive: self.exclusive,
            truncate: self.truncate,
            limit: self.limit,
            version: if self.first_version {
                Version::V1
            } else {
                Version::V2
            },
            commits: if self.first_version {
                CommitKind::Images
            } else {
                CommitKind::Log
            },
            kept_pages: Some(if self.kept_pages == 0 {
                KEPT_PAGES
            } else {
                self.kept_pages
            }),
        }
    }
}
