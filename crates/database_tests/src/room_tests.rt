//! Databases on devices that just suffice for their limits.

use dbm_file::{Access, CommitKind, Database, Db, Fault, OpenHow, Version};
use page_io::PageStore;
use sect_dev::MemDev;
use std::alloc::Global;
use std::test::Fail;
use test_databases::calls::{delete, open, verify};
use test_databases::databases::{closed, new_database, put};

/// With a key of one byte, the longest content.
const LONG: [u8; 2025] = [0; 2025];

/// Stores a long pair under each of the first so many keys.
fn fill<S: PageStore>(db: &mut Database<S>, count: u8) -> Result<(), Fault> {
    for key in 0..count {
        put(db, &[key], &LONG)?;
    }
    Ok(())
}

/// Deletes them again.
fn clear<S: PageStore>(db: &mut Database<S>, count: u8) -> Result<(), Fault> {
    for key in 0..count {
        delete(db, &[key])?;
    }
    Ok(())
}

/// Opens a database, and makes it empty.
fn emptied(alloc: Global, dev: MemDev, limit: u8) -> Result<Db<MemDev>, Fault> {
    let how = OpenHow {
        access: Access::ReadWrite,
        create: false,
        exclusive: false,
        truncate: true,
        limit: u32::from(limit),
        version: Version::V1,
        commits: CommitKind::Images,
        kept_pages: None,
    };
    open(alloc, dev, how)
}

/// Fills, clears and fills again a database of a limit, makes it empty and fills it once more, on a
/// device that just suffices. How many pairs there are then.
fn filled_again(alloc: Global, limit: u8) -> Result<u32, Fault> {
    let mut db = new_database(alloc, u32::from(limit))?;
    fill(&mut db, limit)?;
    clear(&mut db, limit)?;
    fill(&mut db, limit)?;
    let mut db = emptied(alloc, closed(db)?, limit)?;
    fill(&mut db, limit)?;
    Ok(db.stat().pairs)
}

#[test]
fn each_limit_has_room_to_be_filled_cleared_and_emptied(rt: HostRuntime) -> Result<(), Fail> {
    for limit in 1..=40 {
        let pairs = filled_again(rt.alloc(), limit)?;
        assert_eq!(rt; pairs, u32::from(limit), "limit {limit}");
    }
    Ok(())
}

/// Stores or deletes the pair of a turn: of one hundred keys, and of contents of 0 to 2,025 bytes.
fn take_turn<S: PageStore>(db: &mut Database<S>, turn: u32) -> Result<(), Fault> {
    let key = [(turn.wrapping_mul(37) % 100) as u8];
    if turn % 5 == 4 {
        delete(db, &key)?;
        return Ok(());
    }
    let length = turn.wrapping_mul(263) % 2026;
    put(db, &key, LONG.split_at(length as usize).0)?;
    Ok(())
}

/// How many pairs a good database has, of no more pages than a hundred pairs need.
fn verified<S: PageStore>(db: &mut Database<S>) -> Result<u32, Fail> {
    verify(db, &mut [false; 116])
}

#[test]
fn five_thousand_changes_lack_no_room(rt: HostRuntime) -> Result<(), Fail> {
    let mut db = new_database(rt.alloc(), 100)?;
    for turn in 0..5_000 {
        take_turn(&mut db, turn)?;
        if turn % 100 == 99 {
            let pairs = verified(&mut db)?;
            assert_eq!(rt; pairs, db.stat().pairs, "turn {turn}");
        }
    }
    Ok(())
}
