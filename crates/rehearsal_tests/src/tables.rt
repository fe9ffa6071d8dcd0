//! A database as a map of the tests' own: what a session makes of it, and what is left.

use dbm_file::{Call, Database, Fault, Pair, Reply, StoreMode, Version};
use page_io::PageStore;
use rehearsal::{Ending, Opening, Stage};
use sect_dev::MemDev;
use std::alloc::Global;
use std::collections::BTreeMap;
use std::test::Fail;
use test_databases::databases::opened;

/// The most bytes that a key and a content may have together in version 1.
const MAX_PAIR: usize = 2026;

/// A database as a map.
#[derive(Clone, Debug, Drop, PartialEq)]
pub struct Table {
    pub limit: u32,
    pub version: Version,
    pub pairs: BTreeMap<Vec<u8>, Vec<u8>>,
}

/// Whether an opening that isn't stopped makes an empty database.
fn is_made_empty(before: &Option<Table>, how: Opening) -> bool {
    match before {
        Some(_) => how.truncate,
        None => how.create,
    }
}

fn with_pair(alloc: Global, table: &Table, key: &[u8], content: &[u8]) -> Result<Table, Fail> {
    let mut changed = table.clone()?;
    let key = Vec::from_slice(alloc, key)?;
    changed.pairs.insert(key, Vec::from_slice(alloc, content)?)?;
    Ok(changed)
}

fn without_key(table: &Table, key: &[u8]) -> Result<Table, Fail> {
    let mut changed = table.clone()?;
    let _ = changed.pairs.remove(key);
    Ok(changed)
}

/// How many sectors a device has to have for a database of version 2 of this limit.
fn sectors_for(limit: u32) -> u64 {
    let limit = u64::from(limit);
    let buckets = limit.div_ceil(8);
    8 * (2 + buckets.div_ceil(508) + buckets + 34 * limit)
}

/// Whether a device of so many sectors is large enough for one.
fn has_room(sectors: u32, limit: u32) -> bool {
    u64::from(sectors) >= sectors_for(limit)
}

/// Whether a store of a key is taken. The tests' keys are short.
fn is_taken(table: &Table, key: &[u8], content: &[u8], mode: StoreMode) -> bool {
    if table.version == Version::V1 && key.len() + content.len() > MAX_PAIR {
        false
    } else if table.pairs.contains_key(key) {
        mode == StoreMode::Replace
    } else {
        table.pairs.len() < table.limit as usize
    }
}

fn in_version_2(table: &Table) -> Result<Table, Fail> {
    let mut changed = table.clone()?;
    changed.version = Version::V2;
    Ok(changed)
}

/// What a call makes of a table that it changes, on a device of so many sectors.
fn after_call(
    alloc: Global,
    table: &Table,
    call: &Call,
    sectors: u32,
) -> Result<Option<Table>, Fail> {
    match call {
        Call::Store { key, content, mode }
            if is_taken(table, key.as_slice(), content.as_slice(), *mode) => {
            let (key, content) = (key.as_slice(), content.as_slice());
            Ok(Some(with_pair(alloc, table, key, content)?))
        }
        Call::Upgrade if table.version == Version::V1 && has_room(sectors, table.limit) => {
            Ok(Some(in_version_2(table)?))
        }
        Call::Delete(key) if table.pairs.contains_key(key.as_slice()) => {
            Ok(Some(without_key(table, key.as_slice())?))
        }
        _ => Ok(None),
    }
}

/// What a device holds before the first change of a session, before the second one, and so on.
pub fn states_of(
    alloc: Global,
    before: &Option<Table>,
    stage: &Stage,
    sectors: u32,
) -> Result<Vec<Option<Table>>, Fail> {
    let mut states = Vec::new(alloc);
    states.push(before.clone()?)?;
    if is_made_empty(before, stage.how) {
        states.push(Some(Table {
            limit: stage.how.limit,
            version: stage.how.version,
            pairs: BTreeMap::new(alloc),
        }))?;
    }
    for call in &stage.calls {
        if let Some(Some(table)) = states.last() {
            if let Some(changed) = after_call(alloc, table, call, sectors)? {
                states.push(Some(changed))?;
            }
        }
    }
    Ok(states)
}

/// The version of the database that a session has at its beginning.
fn first_version(before: &Option<Table>, how: Opening) -> Version {
    match before {
        Some(table) if !how.truncate => table.version,
        _ => how.version,
    }
}

/// How many of these replies acknowledge a change, from a database of this version on. An upgrade of
/// one of version 2 changes nothing, and is told on a device that fails, too.
fn changes_in(replies: &[Reply], version: Version) -> usize {
    let pairs = replies
        .iter()
        .filter(|reply| matches!(reply, Reply::Stored | Reply::Deleted))
        .count();
    let upgrades = replies.iter().any(|reply| matches!(reply, Reply::Upgraded));
    pairs.saturating_add(usize::from(upgrades && version == Version::V1))
}

/// How many changes of a session were acknowledged.
pub fn acknowledged(before: &Option<Table>, how: Opening, ending: &Ending) -> usize {
    match ending {
        Ending::Rested(replies, _)
        | Ending::Unsettled(replies, _)
        | Ending::Broke(replies)
        | Ending::BrokeGroup(replies) => changes_in(
            replies,
            first_version(before, how),
        ).saturating_add(usize::from(is_made_empty(before, how))),
        Ending::NotOpened(_) | Ending::NoMemory => 0,
    }
}

fn copied(alloc: Global, lent: Option<&[u8]>) -> Result<Option<Vec<u8>>, Fail> {
    Ok(match lent {
        Some(bytes) => Some(Vec::from_slice(alloc, bytes)?),
        None => None,
    })
}

/// A database, by a pass and a fetch of each key.
fn table_of<S: PageStore>(alloc: Global, db: &mut Database<S>) -> Result<Table, Fail> {
    let stat = db.stat();
    let (limit, version) = (stat.limit, db.version());
    let mut pairs = BTreeMap::new(alloc);
    let mut key = copied(alloc, db.firstkey()?)?;
    for _ in 0..stat.pairs {
        let found = key.ok_or("as many keys as are counted")?;
        let content = copied(alloc, db.fetch(found.as_slice())?)?.ok_or("the content of a key")?;
        if pairs.insert(found, content)?.is_some() {
            return Err("each key once".into());
        }
        key = copied(alloc, db.nextkey()?)?;
    }
    if key.is_some() {
        return Err("no more keys than are counted".into());
    }
    Ok(Table {
        limit,
        version,
        pairs,
    })
}

/// What a device holds: none is a blank one.
pub fn held_by(alloc: Global, dev: MemDev) -> Result<Option<Table>, Fail> {
    match opened(alloc, dev, false, 0) {
        Ok(mut db) => Ok(Some(table_of(alloc, &mut db)?)),
        Err(Fault::NotADatabase) => Ok(None),
        Err(fault) => Err(fault.into()),
    }
}

/// Whether this is left by the acknowledged changes, or by these and the one in doubt.
fn is_left(states: &[Option<Table>], acknowledged: usize, found: &Option<Table>) -> bool {
    states
        .iter()
        .skip(acknowledged)
        .take(2)
        .any(|state| state == found)
}

/// A table with the first so many of these pairs.
fn with_first(alloc: Global, table: &Table, group: &[Pair], count: usize) -> Result<Table, Fail> {
    let mut changed = table.clone()?;
    for pair in group.iter().take(count) {
        changed = with_pair(
            alloc,
            &changed,
            pair.key.as_slice(),
            pair.content.as_slice(),
        )?;
    }
    Ok(changed)
}

/// Whether a table is left by the acknowledged changes and so many pairs of a group.
fn is_left_with(
    alloc: Global,
    before: Option<&Option<Table>>,
    group: &[Pair],
    count: usize,
    found: &Option<Table>,
) -> Result<bool, Fail> {
    let (Some(Some(table)), Some(found)) = (before, found) else {
        return Ok(false);
    };
    Ok(with_first(alloc, table, group, count)? == *found)
}

/// Whether a session that ended so may leave this behind its acknowledged changes.
pub fn may_be_left(
    alloc: Global,
    states: &[Option<Table>],
    acknowledged: usize,
    group: &[Pair],
    ending: &Ending,
    found: &Option<Table>,
) -> Result<bool, Fail> {
    let before = states.get(acknowledged);
    match ending {
        Ending::Rested(_, Ok(count)) | Ending::Unsettled(_, Ok(count)) if *count > 0 => {
            is_left_with(alloc, before, group, *count, found)
        }
        Ending::BrokeGroup(_) => {
            for count in 0..=group.len() {
                if is_left_with(alloc, before, group, count, found)? {
                    return Ok(true);
                }
            }
            Ok(false)
        }
        _ => Ok(is_left(states, acknowledged, found)),
    }
}
