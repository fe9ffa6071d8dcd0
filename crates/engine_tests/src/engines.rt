//! The engines without their contracts, which no test needs and which would stand in each of its
//! goals.

use dbm_engines::{as_engine, dump_engine, list_engine, load_engine};
use dbm_fault::EngineFault;
use dbm_file::{Db, Fault};
use dbm_progress::Progress;
use sect_dev::MemDev;
use std::alloc::Global;
use std::io::{BufRead, Write};
use test_databases::databases::opened;

/// A new database in memory.
pub fn new_db(alloc: Global, limit: u32) -> Result<Db<MemDev>, Fault> {
    opened(alloc, MemDev::new(alloc, 8000), true, limit)
}

/// Loads the pairs of a text, of which so many lines may share a commit.
pub fn load<R: BufRead, P: Progress>(
    alloc: Global,
    db: &mut Db<MemDev>,
    reader: &mut R,
    group: u32,
    progress: &mut P,
) -> Result<(), EngineFault> {
    as_engine(load_engine(alloc, db, reader, group, progress))
}

/// Writes the pairs of a database.
pub fn dump<W: Write, P: Progress>(
    alloc: Global,
    db: &mut Db<MemDev>,
    writer: &mut W,
    progress: &mut P,
) -> Result<(), EngineFault> {
    dump_engine(alloc, db, writer, progress)
}

/// Writes the keys of a database.
pub fn list<W: Write, P: Progress>(
    alloc: Global,
    db: &mut Db<MemDev>,
    writer: &mut W,
    progress: &mut P,
) -> Result<(), EngineFault> {
    list_engine(alloc, db, writer, progress)
}
