//! A session in which a file of version 1 becomes one of version 2, stopped before each of its device
//! calls.

use crate::tables::{acknowledged, held_by, may_be_left, states_of};
use dbm_file::{CommitKind, Version};
use rehearsal::{Ending, Opening, Stage, rehearse};
use sect_dev::MemDev;
use std::alloc::Global;
use std::test::Fail;
use test_databases::lists::calls_of;

/// A content that version 1 doesn't take is stored behind the upgrade alone.
const CALLS: &str = "
    put a #01
    put b #02*3000
    upgrade
    put b #03*3000
    put a #04*2026
    delete b
";

/// What suffices for two pairs in version 2.
const SECTORS: u32 = 576;

/// More device calls than the session makes.
const MOST_STOPS: u64 = 200;

/// More marks than there are unsynced writes at a stop of the session.
const MARKS: u32 = 64;

/// Of each two unsynced writes at a stop these happened.
fn marks_of(alloc: Global, kept: (bool, bool)) -> Result<Vec<bool>, Fail> {
    let mut marks = Vec::new(alloc);
    for _ in 0..MARKS / 2 {
        marks.push(kept.0)?;
        marks.push(kept.1)?;
    }
    Ok(marks)
}

/// The session, on a blank device.
fn stage_of(alloc: Global, device_calls: u64) -> Result<Stage, Fail> {
    Ok(Stage {
        keep: Vec::new(alloc),
        how: Opening {
            create: true,
            truncate: false,
            limit: 2,
            version: Version::V1,
            commits: CommitKind::Images,
        },
        calls: calls_of(alloc, CALLS)?,
        group: Vec::new(alloc),
        device_calls,
    })
}

/// How a stop of the session came out.
#[derive(Clone, Copy)]
struct Outcome {
    /// What it leaves is left by the acknowledged changes, or by these and the one in doubt.
    is_right: bool,
    /// The session had ended by then.
    has_ended: bool,
}

fn outcome_of(alloc: Global, stage: Stage, kept: (bool, bool)) -> Result<Outcome, Fail> {
    let stages = [stage];
    let [stage] = &stages;
    let states = states_of(alloc, &None, stage, SECTORS)?;
    let (left, endings) = rehearse(alloc, MemDev::new(alloc, SECTORS), &stages)?;
    let ending = &endings.as_slice().first().ok_or("an ending")?.ending;
    let found = held_by(
        alloc,
        left.crashed(alloc, marks_of(alloc, kept)?.as_slice())?,
    )?;
    let done = acknowledged(&None, stage.how, ending);
    Ok(Outcome {
        is_right: may_be_left(alloc, states.as_slice(), done, &[], ending, &found)?,
        has_ended: matches!(ending, Ending::Rested(_, _)),
    })
}

/// The first stop that leaves something else, where each is tried until the session ends.
fn first_wrong_stop(alloc: Global, kept: (bool, bool)) -> Result<Option<u64>, Fail> {
    for stop in 0..MOST_STOPS {
        let outcome = outcome_of(alloc, stage_of(alloc, stop)?, kept)?;
        if !outcome.is_right {
            return Ok(Some(stop));
        }
        if outcome.has_ended {
            return Ok(None);
        }
    }
    Err("the end of the session".into())
}

#[test]
fn an_upgrade_that_lost_its_unsynced_writes_leaves_one_version(
    rt: HostRuntime,
) -> Result<(), Fail> {
    assert_eq!(rt; first_wrong_stop(rt.alloc(), (false, false))?, None);
    Ok(())
}

#[test]
fn an_upgrade_that_kept_its_unsynced_writes_leaves_one_version(
    rt: HostRuntime,
) -> Result<(), Fail> {
    assert_eq!(rt; first_wrong_stop(rt.alloc(), (true, true))?, None);
    Ok(())
}

#[test]
fn an_upgrade_that_kept_each_second_write_leaves_one_version(rt: HostRuntime) -> Result<(), Fail> {
    assert_eq!(rt; first_wrong_stop(rt.alloc(), (true, false))?, None);
    Ok(())
}
