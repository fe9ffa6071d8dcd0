//! Databases over devices that stop: functions without clauses around calls with long contracts,
//! which no test needs and which would stand in each of its goals.

use crate::devices::has_pages;
use dbm_file::{Database, Db, Fault, OpenHow, Stat};
use page_io::{Page, PageStore};
use sect_dev::{Failing, Fuse, MemDev, Schedule};
use std::alloc::Global;
use std::test::Fail;
use test_databases::databases::closed;
use test_databases::lists::replies_to;

/// The numbers of a database.
pub fn stat<S: PageStore>(db: &Database<S>) -> Stat {
    db.stat()
}

/// Whether the file of a database that is closed begins with these pages.
pub fn closes_as(db: Db<MemDev>, pages: &[Page]) -> Result<bool, Fail> {
    Ok(has_pages(&mut closed(db)?, pages)?)
}

/// A device that stops after so many calls.
pub fn stopping_after(dev: MemDev, calls: u64) -> Fuse<MemDev> {
    Fuse::new(dev, calls)
}

/// Opens a device that stops, or hands it back with the fault.
fn open_stopping(
    alloc: Global,
    dev: Fuse<MemDev>,
    how: OpenHow,
) -> Result<Db<Fuse<MemDev>>, (Fuse<MemDev>, Fault)> {
    Db::open(alloc, dev, how)
}

/// The device in memory below one whose calls fail.
fn below<P: Schedule + Drop>(dev: Failing<MemDev, P>) -> MemDev {
    dev.into_inner()
}

/// The device in memory below a database that is closed, with what the closing answers.
fn closed_below<P: Schedule + Drop>(db: Db<Failing<MemDev, P>>) -> (MemDev, Result<(), Fault>) {
    let (dev, answer) = db.close();
    (below(dev), answer)
}

/// What is left after so many calls of a device.
#[derive(Drop)]
pub struct Stopped {
    pub dev: MemDev,
    /// What was replied to the calls, nothing where it wasn't opened.
    pub replies: String,
    /// What the closing answered, or the opening where that was refused.
    pub closed: Result<(), Fault>,
}

/// Makes the calls of some lines, and closes the database.
fn ended(alloc: Global, mut db: Db<Fuse<MemDev>>, lines: &str) -> Result<Stopped, Fail> {
    let replies = replies_to(alloc, &mut db, lines);
    let (dev, closed) = closed_below(db);
    Ok(Stopped {
        dev,
        replies: replies?,
        closed,
    })
}

/// Opens a device, makes the calls of some lines, and closes the database, with so many device
/// calls.
pub fn run_stopped(
    alloc: Global,
    dev: MemDev,
    calls: u64,
    how: OpenHow,
    lines: &str,
) -> Result<Stopped, Fail> {
    match open_stopping(alloc, stopping_after(dev, calls), how) {
        Ok(db) => ended(alloc, db, lines),
        Err((fuse, fault)) => Ok(Stopped {
            dev: below(fuse),
            replies: String::new(alloc),
            closed: Err(fault),
        }),
    }
}
