// What calls change in a map, by rules of their own: no code of the database is used.
use dbm_file::{Call, Reply, StoreMode};
use std::alloc::{AllocError, Global};
use std::collections::BTreeMap;

/// Keys with their contents, as a map that is no database.
pub type Pairs = BTreeMap<Vec<u8>, Vec<u8>>;

/// What a call changed.
#[derive(Clone, Copy, Debug)]
pub enum Change<'a> {
    Stored { key: &'a [u8], content: &'a [u8] },
    Deleted { key: &'a [u8] },
}

/// Whether the pairs found are what the acknowledged changes make of those before, which are the
/// first so many, or what these and the next one make of them, which was in doubt. They aren't
/// where more changes were acknowledged than there are.
pub fn is_kept(
    alloc: Global,
    before: &Pairs,
    changes: &[Change],
    acknowledged: usize,
    found: &Pairs,
) -> Result<bool, AllocError> {
    if acknowledged > changes.len() {
        return Ok(false);
    }
    let (acknowledged, later) = changes.split_at(acknowledged);
    let mut pairs = before.clone()?;
    for change in acknowledged {
        make(alloc, &mut pairs, *change)?;
    }
    if pairs == *found {
        return Ok(true);
    }
    let Some(doubtful) = later.first() else {
        return Ok(false);
    };
    make(alloc, &mut pairs, *doubtful)?;
    Ok(pairs == *found)
}

// Makes a change.
fn make(alloc: Global, pairs: &mut Pairs, change: Change) -> Result<(), AllocError> {
    match change {
        Change::Stored { key, content } => {
            let key = Vec::from_slice(alloc, key)?;
            pairs.insert(key, Vec::from_slice(alloc, content)?)?;
        }
        Change::Deleted { key } => {
            let _ = pairs.remove(key);
        }
    }
    Ok(())
}

/// The changes that the calls make in these pairs. Of the replies it is looked at alone whether a
/// call was refused.
pub fn changes_of<'a>(
    alloc: Global,
    before: &Pairs,
    calls: &'a [Call],
    replies: &[Reply],
) -> Result<Vec<Change<'a>>, AllocError> {
    let mut pairs = before.clone()?;
    let mut changes = Vec::new(alloc);
    for (call, reply) in calls.iter().zip(replies) {
        if let Some(change) = change_of(call, reply, &pairs) {
            make(alloc, &mut pairs, change)?;
            changes.push(change)?;
        }
    }
    Ok(changes)
}

// What a call changes in these pairs.
fn change_of<'a>(call: &'a Call, reply: &Reply, pairs: &Pairs) -> Option<Change<'a>> {
    if matches!(reply, Reply::Refused(_)) {
        return None;
    }
    match call {
        Call::Store { key, content, mode } => {
            let key = key.as_slice();
            if *mode == StoreMode::Insert && pairs.contains_key(key) {
                return None;
            }
            let content = content.as_slice();
            Some(Change::Stored { key, content })
        }
        Call::Delete(key) if pairs.contains_key(key.as_slice()) => Some(Change::Deleted {
            key: key.as_slice(),
        }),
        _ => None,
    }
}

/// How many of the replies acknowledge a change.
pub fn acknowledged(replies: &[Reply]) -> usize {
    replies
        .iter()
        .filter(|reply| matches!(reply, Reply::Stored | Reply::Deleted))
        .count()
}
