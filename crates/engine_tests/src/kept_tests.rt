//! Which pairs may be found after a stop.

use dbm_rehearse::{Change, Pairs, is_kept};
use std::alloc::{AllocError, Global};
use std::collections::BTreeMap;
use std::test::Fail;

/// To the pairs a1 and b2, c3 is added, b4 takes the place of b2, and a is deleted.
const BEFORE: &str = "a1 b2";

const CHANGES: [Change; 3] = [
    Change::Stored {
        key: b"c",
        content: b"3",
    },
    Change::Stored {
        key: b"b",
        content: b"4",
    },
    Change::Deleted { key: b"a" },
];

/// How many changes were acknowledged, and pairs that may then be found.
const KEPT: &str = "0 a1 b2
0 a1 b2 c3
1 a1 b2 c3
1 a1 b4 c3
2 a1 b4 c3
2 b4 c3
3 b4 c3";

/// The same, and pairs that may not: an acknowledged change is missing, or half there, or one is
/// there that was not asked for yet, or never.
const LOST: &str = "1 a1 b2
2 a1 b2 c3
3 a1 b4 c3
1 a1 c3
1 a1 b2 c4
0 a1 b4 c3
0 a1 b4
1 b4 c3
3 b4 c3 d5
0 a1 b2 d5
0
4 b4 c3";

/// The pairs of some words, each of them a key and a content of one byte.
fn pairs_of(alloc: Global, text: &str) -> Result<Pairs, AllocError> {
    let mut pairs = BTreeMap::new(alloc);
    for word in text.split_whitespace() {
        if let [key, content] = word.as_bytes() {
            let content = Vec::from_slice(alloc, &[*content])?;
            pairs.insert(Vec::from_slice(alloc, &[*key])?, content)?;
        }
    }
    Ok(pairs)
}

/// Whether the pairs of a line are kept.
fn line_is_kept(alloc: Global, line: &str) -> Result<bool, Fail> {
    let (acknowledged, found) = line.split_once(' ').unwrap_or((line, ""));
    let before = pairs_of(alloc, BEFORE)?;
    let found = pairs_of(alloc, found)?;
    Ok(is_kept(alloc, &before, &CHANGES, acknowledged.parse()?, &found)?)
}

/// The first line for which it is not so.
fn first_wrong(
    alloc: Global,
    text: &'static str,
    kept: bool,
) -> Result<Option<&'static str>, Fail> {
    for line in text.lines() {
        if line_is_kept(alloc, line)? != kept {
            return Ok(Some(line));
        }
    }
    Ok(None)
}

#[test]
fn acknowledged_changes_are_there_and_one_may_be_in_doubt(rt: HostRuntime) -> Result<(), Fail> {
    assert_eq!(rt; first_wrong(rt.alloc(), KEPT, true)?, None);
    assert_eq!(rt; first_wrong(rt.alloc(), LOST, false)?, None);
    Ok(())
}
