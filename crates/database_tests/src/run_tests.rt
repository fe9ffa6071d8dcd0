//! Lists of calls, and a group of pairs that is refused.

use crate::hows::how_of;
use dbm_file::{Db, Fault, Pair};
use sect_dev::MemDev;
use std::alloc::{AllocError, Global};
use std::test::Fail;
use test_databases::calls::{open, store_many};
use test_databases::databases::{closed, new_database, with_first};
use test_databases::lists::replies_to;

/// The replies to a run of these calls on a new database of a limit, as text.
fn replies(alloc: Global, limit: u32, calls: &str) -> Result<String, Fail> {
    replies_to(alloc, &mut new_database(alloc, limit)?, calls)
}

#[test]
fn each_call_of_a_run_has_its_reply(rt: HostRuntime) -> Result<(), Fail> {
    let calls = "
        fetch a
        delete a
        insert a #01
        put b #01
        insert a #02
        fetch a
        put a #03
        fetch a
        delete a
        fetch a
    ";
    assert_eq!(rt;
        replies(rt.alloc(), 1, calls)?.as_str(),
        "[NoRecord, Absent, Stored, Refused(Full), Kept, Bytes(Octets { bytes: [1] }), Stored, \
            Bytes(Octets { bytes: [3] }), Deleted, NoRecord]"
    );
    Ok(())
}

#[test]
fn a_pass_and_the_error_number_are_asked_in_a_run(rt: HostRuntime) -> Result<(), Fail> {
    let calls = "
        error
        next
        error
        put a #01
        first
        next
        next
        insert a #02
        next
        put a #02
        next
        first
        clear
        next
        error
    ";
    assert_eq!(rt;
        replies(rt.alloc(), 100, calls)?.as_str(),
        "[Number(0), Refused(NoPass), Number(7), Stored, Bytes(Octets { bytes: [97] }), End, End, \
            Kept, End, Stored, End, Bytes(Octets { bytes: [97] }), Number(0), End, Number(0)]"
    );
    Ok(())
}

/// A group of one pair.
fn group(alloc: Global) -> Result<Vec<Pair>, AllocError> {
    let mut pairs = Vec::new(alloc);
    pairs.push(Pair {
        key: Vec::from_slice(alloc, b"k")?,
        content: Vec::from_slice(alloc, b"v")?,
    })?;
    Ok(pairs)
}

/// The nine pairs, opened for reading.
fn opened_for_reading(alloc: Global) -> Result<Db<MemDev>, Fail> {
    let how = how_of("reading")?;
    Ok(open(alloc, closed(with_first(alloc, 9)?)?, how)?)
}

/// The fault of a group, and the number of the error that is kept of it.
fn refusal(db: &mut Db<MemDev>, pairs: &[Pair]) -> (Option<Fault>, i32) {
    let fault = store_many(db, pairs).err();
    (fault, db.error())
}

#[test]
fn a_database_opened_for_reading_refuses_a_group(rt: HostRuntime) -> Result<(), Fail> {
    let pairs = group(rt.alloc())?;
    let refused = refusal(&mut opened_for_reading(rt.alloc())?, &pairs);
    assert_eq!(rt; refused, (Some(Fault::ReadOnly), 4));
    Ok(())
}
