//! Calls and replies as values.

use crate::{Fault, Octets};

/// What a store does where the key is there (POSIX: the store mode of `dbm_store`).
#[derive(Clone, Copy, Debug, PartialEq, Eq)]
pub enum StoreMode {
    /// The old content stays, and the store answers `Kept`.
    Insert,
    /// The new content takes the place of the old one.
    Replace,
}

/// How a store ended.
#[derive(Clone, Copy, Debug, PartialEq, Eq)]
pub enum StoreReply {
    /// The pair is there; `dbm_store` gives 0.
    Stored,
    /// The key was there, and its content stays; `dbm_store` gives 1.
    Kept,
}

/// How a delete ended.
#[derive(Clone, Copy, Debug, PartialEq, Eq)]
pub enum DeleteReply {
    /// The key is gone; `dbm_delete` gives 0.
    Deleted,
    /// The key wasn't there; `dbm_delete` gives a negative value.
    Absent,
}

/// The numbers of an open database.
#[derive(Clone, Copy, Debug, PartialEq, Eq)]
pub struct Stat {
    pub pairs: u32,
    /// How many pairs there may be.
    pub limit: u32,
    pub buckets: u32,
    /// The buckets are 2^level + split (Litwin 1980).
    pub level: u32,
    /// The bucket that is split next.
    pub split: u32,
    /// The pages of the file, page 0 among them.
    pub pages: u32,
    /// How many of them are free.
    pub free: u32,
}

/// A call on an open database.
#[derive(Debug, Drop)]
pub enum Call {
    Store {
        key: Octets,
        content: Octets,
        mode: StoreMode,
    },
    Fetch(Octets),
    Delete(Octets),
    First,
    Next,
    Error,
    Clear,
    /// To version 2 of the file format.
    Upgrade,
}

/// The reply to a call.
#[derive(Debug, Drop)]
pub enum Reply {
    Stored,
    /// The key was there, and its content stays.
    Kept,
    Deleted,
    /// The key was not there to be deleted.
    Absent,
    /// The content, or the key.
    Bytes(Octets),
    /// The key is not there.
    NoRecord,
    /// The pass has given every key.
    End,
    /// The number of the first fault since the opening or the last clearing, or 0.
    Number(i32),
    /// The file is of version 2.
    Upgraded,
    Refused(Fault),
}
