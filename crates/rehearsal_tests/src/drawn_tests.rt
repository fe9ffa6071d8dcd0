//! Drawn sessions one after another on a device, each stopped at a drawn place, beside a map of the
//! tests' own.

use crate::tables::{Table, acknowledged, held_by, may_be_left, states_of};
use dbm_file::{Call, CommitKind, Octets, Pair, StoreMode, Version};
use rand_xoshiro::SplitMix64;
use rand_xoshiro::rand_core::{Rng, SeedableRng};
use rehearsal::{Opening, Stage, rehearse};
use sect_dev::{MemDev, SectorDev};
use std::alloc::Global;
use std::test::Fail;

/// How many sessions a test makes.
const SESSIONS: u32 = 200;

/// What just suffices for the limits that are drawn, in version 1 and in version 2.
const SECTORS: [u32; 2] = [208, 5488];

/// More marks than there are unsynced writes at a stop of these sessions.
const MARKS: u32 = 512;

/// The most calls of a session, and the most device calls before its stop.
#[derive(Clone, Copy)]
struct Most {
    calls: u16,
    device_calls: u16,
}

/// A number from 0 to the most.
fn draw(generator: &mut SplitMix64, most: u16) -> u64 {
    generator.next_u64() % (u64::from(most) + 1)
}

fn drawn_key(alloc: Global, generator: &mut SplitMix64) -> Result<Vec<u8>, Fail> {
    let number = (generator.next_u64() % 24) as u8;
    Ok(Vec::from_slice(alloc, &[number])?)
}

/// One content in eight may have pages of its own.
fn drawn_content(alloc: Global, generator: &mut SplitMix64) -> Result<Vec<u8>, Fail> {
    let byte = (generator.next_u64() % 256) as u8;
    let most = if draw(generator, 7) == 0 { 5000 } else { 400 };
    let length = (generator.next_u64() % most) as usize;
    Ok(vec![in alloc; byte; length]?)
}

fn drawn_store(alloc: Global, generator: &mut SplitMix64, mode: StoreMode) -> Result<Call, Fail> {
    let key = Octets::from(drawn_key(alloc, generator)?);
    let content = Octets::from(drawn_content(alloc, generator)?);
    Ok(Call::Store { key, content, mode })
}

fn drawn_call(alloc: Global, generator: &mut SplitMix64) -> Result<Call, Fail> {
    match generator.next_u64() % 12 {
        0..=5 => drawn_store(alloc, generator, StoreMode::Replace),
        6 => drawn_store(alloc, generator, StoreMode::Insert),
        7 => Ok(Call::Upgrade),
        8 | 9 => Ok(Call::Delete(Octets::from(drawn_key(alloc, generator)?))),
        _ => Ok(Call::Fetch(Octets::from(drawn_key(alloc, generator)?))),
    }
}

fn drawn_calls(alloc: Global, generator: &mut SplitMix64, most: u16) -> Result<Vec<Call>, Fail> {
    let mut calls = Vec::new(alloc);
    for _ in 0..draw(generator, most) {
        calls.push(drawn_call(alloc, generator)?)?;
    }
    Ok(calls)
}

/// Every second session ends by a group.
fn drawn_group(alloc: Global, generator: &mut SplitMix64, most: u16) -> Result<Vec<Pair>, Fail> {
    let mut pairs = Vec::new(alloc);
    if draw(generator, 1) == 0 {
        return Ok(pairs);
    }
    for _ in 0..draw(generator, most) {
        pairs.push(Pair {
            key: drawn_key(alloc, generator)?,
            content: drawn_content(alloc, generator)?,
        })?;
    }
    Ok(pairs)
}

fn drawn_marks(alloc: Global, generator: &mut SplitMix64) -> Result<Vec<bool>, Fail> {
    let mut marks = Vec::new(alloc);
    for _ in 0..MARKS {
        marks.push(generator.next_u64() % 2 == 0)?;
    }
    Ok(marks)
}

/// One opening in three makes a database of version 2.
fn drawn_version(generator: &mut SplitMix64) -> Version {
    if draw(generator, 2) == 0 {
        Version::V2
    } else {
        Version::V1
    }
}

/// A blank device. On one in three there is no room for version 2.
fn drawn_device(alloc: Global, generator: &mut SplitMix64) -> MemDev {
    let [first, second] = SECTORS;
    MemDev::new(
        alloc,
        if draw(generator, 2) == 0 {
            first
        } else {
            second
        },
    )
}

/// One opening in eight empties, and one in four doesn't create. The lowest limit is often reached.
fn drawn_opening(generator: &mut SplitMix64) -> Opening {
    Opening {
        create: draw(generator, 3) > 0,
        truncate: draw(generator, 7) == 0,
        limit: if draw(generator, 2) == 0 { 3 } else { 20 },
        version: drawn_version(generator),
        commits: drawn_kind(generator),
    }
}

fn drawn_kind(generator: &mut SplitMix64) -> CommitKind {
    if draw(generator, 2) == 0 {
        CommitKind::Images
    } else {
        CommitKind::Log
    }
}

fn drawn_stage(alloc: Global, generator: &mut SplitMix64, most: Most) -> Result<Stage, Fail> {
    Ok(Stage {
        keep: Vec::new(alloc),
        how: drawn_opening(generator),
        calls: drawn_calls(alloc, generator, most.calls)?,
        group: drawn_group(alloc, generator, most.calls)?,
        device_calls: draw(generator, most.device_calls),
    })
}

/// Makes a drawn session on a device, draws which of its unsynced writes happened at the stop, and
/// gives what that leaves where it is right.
fn after_session(
    alloc: Global,
    generator: &mut SplitMix64,
    most: Most,
    dev: MemDev,
    before: &Option<Table>,
) -> Result<Option<(MemDev, Option<Table>)>, Fail> {
    let stages = [drawn_stage(alloc, generator, most)?];
    let [stage] = &stages;
    let states = states_of(alloc, before, stage, dev.capacity())?;
    let (left, endings) = rehearse(alloc, dev, &stages)?;
    let left = left.crashed(alloc, drawn_marks(alloc, generator)?.as_slice())?;
    let ending = &endings.as_slice().first().ok_or("an ending")?.ending;
    let found = held_by(alloc, left.crashed(alloc, &[])?)?;
    let acknowledged = acknowledged(before, stage.how, ending);
    let group = stage.group.as_slice();
    if may_be_left(
        alloc,
        states.as_slice(),
        acknowledged,
        group,
        ending,
        &found,
    )? {
        Ok(Some((left, found)))
    } else {
        Ok(None)
    }
}

/// The first session that leaves something else. One device in twenty is followed by a blank one.
fn first_wrong_session(alloc: Global, seed: u64, most: Most) -> Result<Option<u32>, Fail> {
    let mut generator = SplitMix64::seed_from_u64(seed);
    let mut dev = drawn_device(alloc, &mut generator);
    let mut held = None;
    for number in 0..SESSIONS {
        if draw(&mut generator, 19) == 0 {
            dev = drawn_device(alloc, &mut generator);
            held = None;
        }
        match after_session(alloc, &mut generator, most, dev, &held)? {
            Some((left, found)) => {
                dev = left;
                held = found;
            }
            None => return Ok(Some(number)),
        }
    }
    Ok(None)
}

#[test]
fn sessions_stopped_among_their_calls_keep_what_they_acknowledged(
    rt: HostRuntime,
) -> Result<(), Fail> {
    let most = Most {
        calls: 12,
        device_calls: 200,
    };
    assert_eq!(rt; first_wrong_session(rt.alloc(), 1, most)?, None);
    Ok(())
}

#[test]
fn sessions_stopped_in_their_openings_keep_what_they_acknowledged(
    rt: HostRuntime,
) -> Result<(), Fail> {
    let most = Most {
        calls: 3,
        device_calls: 40,
    };
    assert_eq!(rt; first_wrong_session(rt.alloc(), 2, most)?, None);
    Ok(())
}
