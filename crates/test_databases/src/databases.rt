//! Databases to test with: how they are opened, filled and looked through.

use crate::calls::open;
use dbm_file::{
    Access, CommitKind, Database, Db, Fault, OpenHow, Stat, StoreMode, StoreReply, Version,
    needed_sectors,
};
use page_io::PageStore;
use sect_dev::{MemDev, SectorDev};
use std::alloc::Global;

/// How a database is opened, and made in version 1 where the device is blank and `create` says so.
pub fn opening(create: bool, limit: u32) -> OpenHow {
    OpenHow {
        access: Access::ReadWrite,
        create,
        exclusive: false,
        truncate: false,
        limit,
        version: Version::V1,
        commits: CommitKind::Images,
        kept_pages: None,
    }
}

/// Opens a device, which is lost where it is refused.
pub fn opened<D: SectorDev + Drop>(
    alloc: Global,
    dev: D,
    create: bool,
    limit: u32,
) -> Result<Db<D>, Fault> {
    open(alloc, dev, opening(create, limit))
}

/// A new database of a limit, on a device that just suffices.
pub fn new_database(alloc: Global, limit: u32) -> Result<Db<MemDev>, Fault> {
    let sectors = needed_sectors(limit).ok_or(Fault::BadLimit)?;
    opened(alloc, MemDev::new(alloc, sectors), true, limit)
}

/// The device of a database that isn't broken.
pub fn closed(db: Db<MemDev>) -> Result<MemDev, Fault> {
    let (dev, answer) = db.close();
    answer?;
    Ok(dev)
}

/// Stores a pair, in the place of its key's.
pub fn put<S: PageStore>(
    db: &mut Database<S>,
    key: &[u8],
    content: &[u8],
) -> Result<StoreReply, Fault> {
    db.store(key, content, StoreMode::Replace)
}

/// Nine pairs: bucket 1 of two gets those whose key is even, since the hash of one byte is odd
/// where the byte is even.
pub const PAIRS: [(u8, u8); 9] = [
    (0x61, 1),
    (0x62, 2),
    (0x63, 3),
    (0x64, 4),
    (0x65, 5),
    (0x66, 6),
    (0x67, 7),
    (0x68, 8),
    (0x69, 9),
];

/// A database of limit 100 with the first so many of the nine pairs.
pub fn with_first(alloc: Global, count: usize) -> Result<Db<MemDev>, Fault> {
    let mut db = new_database(alloc, 100)?;
    for (key, content) in PAIRS.iter().take(count) {
        put(&mut db, &[*key], &[*content])?;
    }
    Ok(db)
}

/// The numbers of a database of limit 100 with the nine pairs.
const NINE: Stat = Stat {
    pairs: 9,
    limit: 100,
    buckets: 2,
    level: 1,
    split: 0,
    pages: 5,
    free: 0,
};

/// Whether a database has the first so many of the nine pairs, and no other.
pub fn has_first<S: PageStore>(db: &mut Database<S>, count: usize) -> Result<bool, Fault> {
    for (i, (key, content)) in PAIRS.iter().enumerate() {
        let right = match db.fetch(&[*key])? {
            Some(found) => i < count && found == [*content].as_slice(),
            None => i >= count,
        };
        if !right {
            return Ok(false);
        }
    }
    Ok(db.stat().pairs as usize == count)
}

/// Whether a database has the nine pairs and no other, and the numbers that they give.
pub fn is_nine<S: PageStore>(db: &mut Database<S>) -> Result<bool, Fault> {
    Ok(db.stat() == NINE && has_first(db, 9)?)
}
