//! Two sessions on a device, the first of which is stopped.

use dbm_file::{CommitKind, Pair, Reply, Version};
use rehearsal::{Ending, Opening, Stage, Stopped, rehearse};
use sect_dev::MemDev;
use std::alloc::Global;
use std::test::Fail;
use test_databases::databases::PAIRS;
use test_databases::lists::calls_of;

/// Stores the nine pairs.
const STORES: &str = "
    put a #01
    put b #02
    put c #03
    put d #04
    put e #05
    put f #06
    put g #07
    put h #08
    put i #09
";

/// Fetches their contents, in the same order.
const FETCHES: &str = "
    fetch a
    fetch b
    fetch c
    fetch d
    fetch e
    fetch f
    fetch g
    fetch h
    fetch i
";

/// Which of the unsynced writes happened: none, all, and each second one.
const MARKS: [[bool; 16]; 3] = [
    [false; 16],
    [true; 16],
    [
        true, false, true, false, true, false, true, false, true, false, true, false, true, false,
        true, false,
    ],
];

/// A session that makes a database of this limit where the device is blank. Of the writes that the
/// session before has not synced those happened that are marked.
fn stage_of(
    alloc: Global,
    marks: &[bool],
    limit: u32,
    text: &str,
    device_calls: u64,
) -> Result<Stage, Fail> {
    Ok(Stage {
        keep: Vec::from_slice(alloc, marks)?,
        how: Opening {
            create: true,
            truncate: false,
            limit,
            version: Version::V1,
            commits: CommitKind::Images,
        },
        calls: calls_of(alloc, text)?,
        group: Vec::new(alloc),
        device_calls,
    })
}

/// How two sessions end on a blank device.
fn endings_of(alloc: Global, first: Stage, second: Stage) -> Result<Vec<Stopped>, Fail> {
    let (_, endings) = rehearse(alloc, MemDev::new(alloc, 928), &[first, second])?;
    Ok(endings)
}

fn replies_of(ending: &Ending) -> &[Reply] {
    match ending {
        Ending::Rested(replies, _)
        | Ending::Unsettled(replies, _)
        | Ending::Broke(replies)
        | Ending::BrokeGroup(replies) => replies.as_slice(),
        Ending::NotOpened(_) | Ending::NoMemory => &[],
    }
}

/// Whether the first so many stores were acknowledged, and each other one was refused.
fn are_stored(replies: &[Reply], count: usize) -> bool {
    for (i, reply) in replies.iter().enumerate() {
        let right = match reply {
            Reply::Stored => i < count,
            Reply::Refused(_) => i >= count,
            _ => false,
        };
        if !right {
            return false;
        }
    }
    count <= replies.len()
}

/// Whether the first so many of the nine pairs are found, or one more, and no other.
fn are_found(replies: &[Reply], count: usize) -> bool {
    for (i, (reply, (_, content))) in replies.iter().zip(PAIRS.iter()).enumerate() {
        let right = match reply {
            Reply::Bytes(bytes) => i <= count && bytes.as_slice() == [*content].as_slice(),
            Reply::NoRecord => i >= count,
            _ => false,
        };
        if !right {
            return false;
        }
    }
    replies.len() == PAIRS.len()
}

/// How the stores ended: how many were acknowledged, and whether the database was closed.
#[derive(Clone, Copy, PartialEq, Eq)]
struct Kept {
    stored: usize,
    closed: bool,
}

/// The same of the first session, where the second finds what it has to.
fn outcome(first: &Ending, second: &Ending) -> Option<Kept> {
    let Ending::Rested(fetched, _) = second else {
        return None;
    };
    for stored in 0..10 {
        if are_stored(replies_of(first), stored) && are_found(fetched.as_slice(), stored) {
            let closed = matches!(first, Ending::Rested(..));
            return Some(Kept { stored, closed });
        }
    }
    None
}

/// The same of stores that are stopped after so many calls of the device.
fn stores_stopped(alloc: Global, calls: u64, marks: &[bool]) -> Result<Option<Kept>, Fail> {
    let first = stage_of(alloc, &[], 100, STORES, calls)?;
    let second = stage_of(alloc, marks, 100, FETCHES, u64::MAX)?;
    let endings = endings_of(alloc, first, second)?;
    Ok(match endings.as_slice() {
        [first, second] => outcome(&first.ending, &second.ending),
        _ => None,
    })
}

/// The same with each kind of marks, which the replies before the stop don't depend on.
fn stores_kept(alloc: Global, calls: u64) -> Result<Option<Kept>, Fail> {
    let mut kept = None;
    for marks in MARKS.iter() {
        kept = stores_stopped(alloc, calls, marks)?;
        if kept.is_none() {
            return Ok(None);
        }
    }
    Ok(kept)
}

/// The calls of the device in the closing, which brings the four pages of the ninth store home:
/// four sectors of each page, a sync, the clear sector, a sync.
const IN_CLOSING: u64 = 4 * 4 + 3;

/// Stops the stores after more and more calls of the device, until all are done and the database is
/// closed, and gives how many stops came in the closing. They take under a thousand.
fn stops_in_closing(alloc: Global) -> Result<u64, Fail> {
    let mut unclosed = 0u64;
    for calls in 0..1000 {
        match stores_kept(alloc, calls)? {
            Some(
                Kept {
                    stored: 9,
                    closed: true,
                },
            ) => return Ok(unclosed),
            Some(Kept { stored: 9, .. }) => unclosed = unclosed.saturating_add(1),
            Some(_) => {}
            None => return Err("each acknowledged store, and one more at most".into()),
        }
    }
    Err("a stop behind the closing".into())
}

#[test]
fn a_stop_keeps_each_acknowledged_store(rt: HostRuntime) -> Result<(), Fail> {
    assert_eq!(rt; stops_in_closing(rt.alloc())?, IN_CLOSING);
    Ok(())
}

/// Whether a database of limit 5 is made where the making of one of limit 9 was stopped, with no
/// unsynced write done.
fn is_made_after_stop(alloc: Global, calls: u64) -> Result<bool, Fail> {
    let first = stage_of(alloc, &[], 9, "", calls)?;
    let second = stage_of(alloc, &[], 5, STORES, u64::MAX)?;
    let endings = endings_of(alloc, first, second)?;
    let [first, second] = endings.as_slice() else {
        return Ok(false);
    };
    Ok(match (&first.ending, &second.ending) {
        (Ending::NotOpened(_), Ending::Rested(replies, _)) => are_stored(replies.as_slice(), 5),
        _ => false,
    })
}

#[test]
fn a_stopped_making_may_be_made_with_another_limit(rt: HostRuntime) -> Result<(), Fail> {
    for calls in 0..12 {
        let right = is_made_after_stop(rt.alloc(), calls)?;
        assert!(rt; right, "after {calls} calls");
    }
    Ok(())
}

/// The nine pairs.
fn nine_pairs(alloc: Global) -> Result<Vec<Pair>, Fail> {
    let mut pairs = Vec::new(alloc);
    for (key, content) in PAIRS.iter() {
        pairs.push(Pair {
            key: Vec::from_slice(alloc, &[*key])?,
            content: Vec::from_slice(alloc, &[*content])?,
        })?;
    }
    Ok(pairs)
}

/// How many of the nine pairs are found, where that is none or all, each with its content.
fn none_or_all(fetched: &[Reply]) -> Option<usize> {
    let mut found = 0usize;
    for (reply, (_, content)) in fetched.iter().zip(PAIRS.iter()) {
        match reply {
            Reply::Bytes(bytes) if bytes.as_slice() == [*content].as_slice() => {
                found = found.saturating_add(1);
            }
            Reply::NoRecord => {}
            _ => return None,
        }
    }
    (fetched.len() == PAIRS.len() && (found == 0 || found == PAIRS.len())).then_some(found)
}

/// What became of the nine pairs as a group: how many were acknowledged, and how many were there.
#[derive(Clone, Copy, PartialEq, Eq)]
struct Grouped {
    acknowledged: usize,
    found: usize,
    closed: bool,
}

/// The same of a session that stores them in one commit, and is stopped after so many calls of the
/// device. A second one looks for them.
fn group_stopped(alloc: Global, calls: u64, marks: &[bool]) -> Result<Option<Grouped>, Fail> {
    let mut first = stage_of(alloc, &[], 100, "", calls)?;
    first.group = nine_pairs(alloc)?;
    let second = stage_of(alloc, marks, 100, FETCHES, u64::MAX)?;
    let endings = endings_of(alloc, first, second)?;
    let [first, second] = endings.as_slice() else {
        return Ok(None);
    };
    let Ending::Rested(fetched, Ok(0)) = &second.ending else {
        return Ok(None);
    };
    let acknowledged = match &first.ending {
        Ending::Rested(_, Ok(stored)) | Ending::Unsettled(_, Ok(stored)) => *stored,
        _ => 0,
    };
    let closed = matches!(first.ending, Ending::Rested(..));
    Ok(none_or_all(fetched.as_slice()).map(|found| Grouped {
        acknowledged,
        found,
        closed,
    }))
}

/// Stops the group after more and more calls of the device, with each kind of marks, until it is
/// acknowledged and the database closed, and gives how many stops left pairs that weren't
/// acknowledged. They take under a hundred.
fn unacknowledged_groups(alloc: Global) -> Result<u64, Fail> {
    let mut doubted = 0u64;
    for calls in 0..100 {
        let mut closed = true;
        for marks in MARKS.iter() {
            let kept = group_stopped(alloc, calls, marks)?.ok_or("none of the pairs, or all")?;
            if kept.found < kept.acknowledged {
                return Err("an acknowledged group".into());
            }
            doubted = doubted.saturating_add(u64::from(kept.found > kept.acknowledged));
            closed = closed && kept.closed && kept.acknowledged == PAIRS.len();
        }
        if closed {
            return Ok(doubted);
        }
    }
    Err("a stop behind the closing".into())
}

#[test]
fn a_stop_keeps_a_group_or_none_of_it(rt: HostRuntime) -> Result<(), Fail> {
    assert!(rt; unacknowledged_groups(rt.alloc())? > 0);
    Ok(())
}
