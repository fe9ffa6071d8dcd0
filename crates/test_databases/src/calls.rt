//! The calls of a database without their contracts, which no test needs and which would stand in
//! each of its goals.

use dbm_file::{Database, Db, DeleteReply, Fault, OpenHow, Pair, Unwatched};
use page_io::PageStore;
use sect_dev::SectorDev;
use std::alloc::Global;
use std::test::Fail;

/// Opens a device, which is lost where it is refused.
pub fn open<D: SectorDev + Drop>(alloc: Global, dev: D, how: OpenHow) -> Result<Db<D>, Fault> {
    Db::open(alloc, dev, how).map_err(|(_, fault)| fault)
}

/// Deletes the pair of a key, or answers that there is none.
pub fn delete<S: PageStore>(db: &mut Database<S>, key: &[u8]) -> Result<DeleteReply, Fault> {
    db.delete(key)
}

/// Stores pairs in one commit, and answers how many of them.
pub fn store_many<S: PageStore>(db: &mut Database<S>, pairs: &[Pair]) -> Result<usize, Fault> {
    db.store_many(pairs)
}

/// How many pairs a good database has. A fault, or more pages than marks, fails the test.
pub fn verify<S: PageStore>(db: &mut Database<S>, marks: &mut [bool]) -> Result<u32, Fail> {
    if db.stat().pages as usize > marks.len() {
        return Err("no more pages than marks".into());
    }
    Ok(db.verify(marks, &mut Unwatched)?)
}
