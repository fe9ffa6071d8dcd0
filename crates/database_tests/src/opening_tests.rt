//! Openings with each flag: what they refuse, what they leave alone, and what they make empty.

use crate::devices::{
    Held, blank_device, crashed, damaged, has_pages, nearly_full, nine_pairs, pending,
};
use crate::hows::{PLAIN, how_of, is_fault, row_of};
use crate::marks::MARKS;
use crate::stopping::{Stopped, closes_as, run_stopped, stat, stopping_after};
use dbm_file::{Database, Db, Fault, OpenHow, Stat};
use page_io::{Page, PageStore};
use sect_dev::{DevFault, MemDev, SectorDev};
use std::alloc::Global;
use std::test::Fail;
use test_databases::calls::open;
use test_databases::databases::{closed, has_first, is_nine, opened, with_first};
use test_databases::lists::replies_to;
use test_databases::pages::{nine_file, page_at};

/// The numbers of an empty database of limit 5.
const EMPTY: Stat = Stat {
    pairs: 0,
    limit: 5,
    buckets: 1,
    level: 0,
    split: 0,
    pages: 4,
    free: 0,
};

/// The device of an opening that is refused, with the fault.
fn refused(alloc: Global, dev: MemDev, how: OpenHow) -> Option<(MemDev, Fault)> {
    Db::open(alloc, dev, how).err()
}

/// The fault of an opening, where the device that it hands back is still this file of nine pairs.
fn refused_with_nine(alloc: Global, how: OpenHow) -> Result<Option<Fault>, DevFault> {
    let Some((mut dev, fault)) = refused(alloc, nine_pairs(alloc)?, how) else {
        return Ok(None);
    };
    let stays = has_pages(&mut dev, &nine_file())?;
    Ok(if stays { Some(fault) } else { None })
}

/// The fault of opening a device.
fn fault_with<D: SectorDev + Drop>(alloc: Global, dev: D, how: OpenHow) -> Option<Fault> {
    open(alloc, dev, how).err()
}

/// The fault of an opening of such a device.
fn fault_of(alloc: Global, held: Held, how: OpenHow) -> Result<Option<Fault>, DevFault> {
    match held {
        Held::Nine => refused_with_nine(alloc, how),
        Held::Nothing => Ok(fault_with(alloc, blank_device(alloc, 928), how)),
        Held::OtherSector => Ok(fault_with(alloc, damaged(alloc, 0)?, how)),
        Held::OtherMeta => Ok(fault_with(alloc, damaged(alloc, 1)?, how)),
    }
}

/// The first line of a table whose opening isn't refused by the fault that it has behind its arrow.
fn first_not_refused<'a>(
    alloc: Global,
    held: Held,
    table: &'a str,
) -> Result<Option<&'a str>, Fail> {
    for line in table.lines() {
        if let Some((how, wanted)) = row_of(line) {
            let fault = fault_of(alloc, held, how_of(how)?)?;
            if !is_fault(alloc, fault, wanted)? {
                return Ok(Some(line));
            }
        }
    }
    Ok(None)
}

#[test]
fn a_refused_opening_leaves_the_pairs(rt: HostRuntime) -> Result<(), Fail> {
    let table = "
        reading truncate -> ReadOnly
        create exclusive 100 -> Exists
        create exclusive truncate 100 -> Exists
        truncate 0 -> BadLimit
        truncate 1000001 -> BadLimit
        truncate 101 -> TooSmall
    ";
    assert_eq!(rt; first_not_refused(rt.alloc(), Held::Nine, table)?, None);
    Ok(())
}

/// The fault of opening a device of so many sectors of which each call fails.
fn fault_with_no_call(alloc: Global, sectors: u32, how: &str) -> Result<Option<Fault>, Fail> {
    let how = how_of(how)?;
    let dev = stopping_after(blank_device(alloc, sectors), 0);
    Ok(fault_with(alloc, dev, how))
}

#[test]
fn an_emptying_is_refused_with_no_device_call(rt: HostRuntime) -> Result<(), Fail> {
    for (sectors, how, wanted) in [
        (8, "reading truncate", Fault::ReadOnly),
        (15, "truncate 5", Fault::TooSmall),
    ] {
        let fault = fault_with_no_call(rt.alloc(), sectors, how)?;
        assert_eq!(rt; fault, Some(wanted), "{how}");
    }
    Ok(())
}

#[test]
fn an_opening_is_refused_in_order(rt: HostRuntime) -> Result<(), Fail> {
    for (sectors, how, wanted) in [
        (15, "create 0", Fault::TooSmall),
        (16, "plain", Fault::NotADatabase),
        (16, "create 0", Fault::BadLimit),
        (16, "create 1000001", Fault::BadLimit),
        (39, "create 1", Fault::TooSmall),
        (927, "create 100", Fault::TooSmall),
    ] {
        let how = how_of(how)?;
        let fault = fault_with(rt.alloc(), blank_device(rt.alloc(), sectors), how);
        assert_eq!(rt; fault, Some(wanted), "{sectors} sectors");
    }
    Ok(())
}

/// A database of the nine pairs, opened as these words say.
fn nine_opened(alloc: Global, how: &str) -> Result<Db<MemDev>, Fail> {
    let how = how_of(how)?;
    Ok(open(alloc, nine_pairs(alloc)?, how)?)
}

/// What the nine pairs, opened as these words say, reply to the calls of some lines.
fn replies_opened(alloc: Global, how: &str, calls: &str) -> Result<String, Fail> {
    replies_to(alloc, &mut nine_opened(alloc, how)?, calls)
}

/// What is replied to these calls once the nine pairs are emptied and the database is opened again.
fn replies_reopened(alloc: Global, emptied: &str, reopened: &str) -> Result<String, Fail> {
    let mut db = nine_opened(alloc, "truncate 5")?;
    let first = replies_to(alloc, &mut db, emptied)?;
    let second = replies_to(alloc, &mut opened(alloc, closed(db)?, false, 0)?, reopened)?;
    Ok(format!(in alloc; "{first} {second}")?)
}

#[test]
fn an_emptied_database_is_a_new_one(rt: HostRuntime) -> Result<(), Fail> {
    let emptied = "
        first
        put a #01
    ";
    let reopened = "
        first
        next
        fetch a
    ";
    assert_eq!(rt;
        replies_reopened(rt.alloc(), emptied, reopened)?.as_str(),
        "[End, Stored] [Bytes(Octets { bytes: [97] }), End, Bytes(Octets { bytes: [1] })]"
    );
    Ok(())
}

/// The device calls of an emptying and of the closing behind it: a sync, a read of sector 0 and
/// four of page 1; twelve writes of images and a sync; the armed sector and a sync; then twelve
/// writes and a sync; the clear sector and a sync.
const EMPTYING: u64 = 6 + 13 + 2 + 13 + 2;

/// The sync behind the armed sector of an emptying, from which on it is done.
const EMPTIED: u64 = 6 + 13 + 1;

/// Whether there are all of the nine pairs, or none where they were emptied.
fn has_left<S: PageStore>(db: &mut Database<S>, emptied: bool) -> Result<bool, Fault> {
    if emptied {
        Ok(stat(db) == EMPTY && has_first(db, 0)?)
    } else {
        is_nine(db)
    }
}

/// Whether a device opens with all of the nine pairs, or with none where they were emptied.
fn opens_with_left(alloc: Global, dev: MemDev, emptied: bool) -> Result<bool, Fault> {
    has_left(&mut opened(alloc, dev, false, 0)?, emptied)
}

/// Whether an emptying of so many device calls leaves all pairs or none, as it has to, with each
/// kind of marks.
fn leaves_all_or_none(alloc: Global, dev: &MemDev, calls: u64) -> Result<bool, Fail> {
    for marks in MARKS.iter() {
        let emptied = calls > EMPTIED || calls == EMPTIED && marks[0];
        if !opens_with_left(alloc, crashed(alloc, dev, marks)?, emptied)? {
            return Ok(false);
        }
    }
    Ok(true)
}

/// Empties a copy of a device and closes the database, with so many device calls.
fn emptied_in(alloc: Global, dev: &MemDev, calls: u64) -> Result<Stopped, Fail> {
    let how = how_of("truncate 5")?;
    run_stopped(alloc, crashed(alloc, dev, &[])?, calls, how, "")
}

/// Whether an emptying of the nine pairs that is stopped after so many calls ends as it has to.
fn is_emptied_so(alloc: Global, nine: &MemDev, calls: u64) -> Result<bool, Fail> {
    let left = emptied_in(alloc, nine, calls)?;
    let emptied = left.replies.as_str() == "[]";
    let answers = emptied == (calls > EMPTIED) && left.closed.is_ok() == (calls == EMPTYING);
    Ok(answers && leaves_all_or_none(alloc, &left.dev, calls)?)
}

#[test]
fn a_stopped_emptying_leaves_all_pairs_or_none(rt: HostRuntime) -> Result<(), Fail> {
    let nine = nine_pairs(rt.alloc())?;
    for calls in 0..EMPTYING + 1 {
        let right = is_emptied_so(rt.alloc(), &nine, calls)?;
        assert!(rt; right, "after {calls} calls");
    }
    Ok(())
}

/// The calls of a ninth store up to the sync behind its armed sector, which has returned: an
/// opening, the reads of the store, 16 writes of images and a sync, and the armed sector and its
/// sync.
const ARMED: u64 = 6 + 8 + 17 + 2;

/// The device after an opening and a ninth store that had so many device calls.
fn armed(alloc: Global, calls: u64) -> Result<MemDev, Fail> {
    let eight = closed(with_first(alloc, 8)?)?;
    let left = run_stopped(alloc, eight, calls, PLAIN, "put i #09")?;
    Ok(crashed(alloc, &left.dev, &[true; 16])?)
}

/// Whether no write of a device is pending, and its page 0 is so.
fn is_unwritten(dev: &mut MemDev, first: &Page) -> Result<bool, DevFault> {
    Ok(pending(dev) == 0 && page_at(dev, 0)? == *first)
}

/// Whether an opening for reading has the nine pairs, and writes nothing: page 0 stays, and no
/// write is pending.
fn is_read_as_nine(alloc: Global, mut dev: MemDev) -> Result<bool, Fail> {
    let how = how_of("reading")?;
    let first = page_at(&mut dev, 0)?;
    let mut db = open(alloc, dev, how)?;
    let nine = is_nine(&mut db);
    let unwritten = is_unwritten(&mut closed(db)?, &first)?;
    Ok(nine? && unwritten)
}

#[test]
fn an_armed_file_is_read_with_its_images(rt: HostRuntime) -> Result<(), Fail> {
    for calls in [ARMED, ARMED + 5, ARMED + 16] {
        let dev = armed(rt.alloc(), calls)?;
        assert!(rt; is_read_as_nine(rt.alloc(), dev)?, "{calls}");
    }
    Ok(())
}

/// What a database for reading replies to the calls of some lines, where the nine pairs stay.
fn replies_for_reading(alloc: Global, calls: &str) -> Result<String, Fail> {
    let mut db = nine_opened(alloc, "reading")?;
    let replies = replies_to(alloc, &mut db, calls)?;
    let kept = has_first(&mut db, 9)?;
    if closes_as(db, &nine_file())? && kept {
        Ok(replies)
    } else {
        Err("the nine pairs stay".into())
    }
}

#[test]
fn a_database_for_reading_refuses_changes(rt: HostRuntime) -> Result<(), Fail> {
    let calls = "
        put a #07
        insert a #07
        put z #00*2027
        delete z
        delete a
        fetch z
        fetch a
        error
    ";
    assert_eq!(rt;
        replies_for_reading(rt.alloc(), calls)?.as_str(),
        "[Refused(ReadOnly), Refused(ReadOnly), Refused(ReadOnly), Refused(ReadOnly), \
            Refused(ReadOnly), NoRecord, Bytes(Octets { bytes: [1] }), Number(4)]"
    );
    Ok(())
}

#[test]
fn one_for_writing_only_reads_too(rt: HostRuntime) -> Result<(), Fail> {
    let calls = "
        put a #07
        fetch a
        delete a
    ";
    assert_eq!(rt;
        replies_opened(rt.alloc(), "writing", calls)?.as_str(),
        "[Stored, Bytes(Octets { bytes: [7] }), Deleted]"
    );
    Ok(())
}

#[test]
fn a_blank_device_is_no_database_yet(rt: HostRuntime) -> Result<(), Fail> {
    let table = "
        plain -> NotADatabase
        reading -> NotADatabase
        truncate 5 -> NotADatabase
        reading create -> ReadOnly
        create exclusive 0 -> BadLimit
        create exclusive 101 -> TooSmall
    ";
    assert_eq!(rt; first_not_refused(rt.alloc(), Held::Nothing, table)?, None);
    Ok(())
}

#[test]
fn a_file_of_something_else_is_not_emptied(rt: HostRuntime) -> Result<(), Fail> {
    let table = "
        plain -> NotADatabase
        reading -> NotADatabase
        truncate 5 -> NotADatabase
        truncate 0 -> NotADatabase
        create exclusive 100 -> Exists
    ";
    assert_eq!(rt;
        first_not_refused(rt.alloc(), Held::OtherSector, table)?,
        None
    );
    Ok(())
}

#[test]
fn a_damaged_file_is_not_emptied(rt: HostRuntime) -> Result<(), Fail> {
    let table = "
        plain -> Damaged
        reading -> Damaged
        truncate 5 -> Damaged
        truncate 0 -> Damaged
        create exclusive 100 -> Exists
    ";
    assert_eq!(rt;
        first_not_refused(rt.alloc(), Held::OtherMeta, table)?,
        None
    );
    Ok(())
}

/// The pages of a file that nearly fills its device, as it is opened, and the fault of emptying it.
fn emptied_when_nearly_full(alloc: Global) -> Result<(u32, Option<Fault>), Fail> {
    let pages = opened(alloc, nearly_full(alloc)?, false, 0)?.stat().pages;
    let how = how_of("truncate 1")?;
    let fault = fault_with(alloc, nearly_full(alloc)?, how);
    Ok((pages, fault))
}

#[test]
fn an_emptying_lacks_room_where_the_file_fills_its_device(rt: HostRuntime) -> Result<(), Fail> {
    let (pages, fault) = emptied_when_nearly_full(rt.alloc())?;
    assert!(rt;
        pages == 8 && fault == Some(Fault::NoRoom),
        "{pages} pages, {fault:?}"
    );
    Ok(())
}
