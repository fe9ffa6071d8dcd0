//! Stops while a database is made.

use crate::devices::{blank_device, crashed};
use crate::marks::MARKS;
use crate::stopping::{closes_as, run_stopped};
use dbm_file::Fault;
use sect_dev::MemDev;
use std::alloc::Global;
use std::test::Fail;
use test_databases::databases::{has_first, opened, opening};
use test_databases::pages::new_file;

/// The calls that make a database: a sync and a read, the twelve writes of three pages and a sync,
/// and the first sector and its sync.
const MAKING: u64 = 2 + 13 + 2;

/// Whether a device opens as a new database where it may be made, as every device here.
fn opens_as_new(alloc: Global, dev: MemDev) -> Result<bool, Fail> {
    let mut db = opened(alloc, dev, true, 100)?;
    let empty = has_first(&mut db, 0);
    let new = closes_as(db, &new_file())?;
    Ok(empty? && new)
}

/// The fault of opening a copy of a device, where it may not be made.
fn fault_of(alloc: Global, dev: &MemDev) -> Result<Option<Fault>, Fail> {
    Ok(opened(alloc, crashed(alloc, dev, &[])?, false, 100).err())
}

/// Whether a making of so many device calls leaves a blank device or a new database, as it has to,
/// with each kind of marks.
fn leaves_blank_or_new(alloc: Global, left: &MemDev, calls: u64) -> Result<bool, Fail> {
    for marks in MARKS.iter() {
        let dev = crashed(alloc, left, marks)?;
        let blank = calls < MAKING - 1 || calls == MAKING - 1 && !marks[0];
        let wanted = if blank {
            Some(Fault::NotADatabase)
        } else {
            None
        };
        if fault_of(alloc, &dev)? != wanted || !opens_as_new(alloc, dev)? {
            return Ok(false);
        }
    }
    Ok(true)
}

/// Whether a making that is stopped after so many calls ends as it has to.
fn is_made_so(alloc: Global, calls: u64) -> Result<bool, Fail> {
    let stopped = run_stopped(
        alloc,
        blank_device(alloc, 928),
        calls,
        opening(true, 100),
        "",
    )?;
    let made = stopped.replies.as_str() == "[]";
    Ok(made == (calls == MAKING) && leaves_blank_or_new(alloc, &stopped.dev, calls)?)
}

#[test]
fn a_stopped_making_leaves_nothing_or_a_new_database(rt: HostRuntime) -> Result<(), Fail> {
    let alloc = rt.alloc();
    for calls in 0..MAKING + 1 {
        assert!(rt; is_made_so(alloc, calls)?, "after {calls} calls");
    }
    Ok(())
}
