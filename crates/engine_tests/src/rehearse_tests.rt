//! Scripts rehearsed on a device in memory.

use dbm_fault::EngineFault;
use dbm_file::Version;
use dbm_progress::{Progress, Work};
use dbm_rehearse::{Bounds, Rehearsed, rehearse_script};
use sect_dev::MemDev;
use std::alloc::Global;
use std::test::Fail;

/// Nine stores, of which the last one splits a bucket, with a bad line, an insert that finds its
/// key and a fetch among them, and deletes, one of an absent key.
const SCRIPT: &[u8] = b"S 61 01
S 62 02
S 63 03
S 64 04
Q
I 61 aa
S 65 05
S 66 06
F 61
S 67 07
S 68 08
S 69 09
D 61
D 61
D 62
S 63 33
";

/// Counts the stops that it is told of, up to the time when nothing is to be shown any more.
#[derive(Clone, Copy, Debug)]
struct Counter {
    stops: u64,
    is_cleared: bool,
}

impl Counter {
    const NEW: Counter = Counter {
        stops: 0,
        is_cleared: false,
    };
}

impl Progress for Counter {
    fn step(&mut self, work: Work) {
        if work == Work::StopsMade && !self.is_cleared {
            self.stops = self.stops.saturating_add(1);
        }
    }

    fn clear(&mut self) {
        self.is_cleared = true;
    }
}

/// A rehearsal on a blank device of a database of limit 100, with no clause, so that those of the
/// engine stand in no test.
fn rehearsed(
    alloc: Global,
    script: &[u8],
    stops: Option<u32>,
    writer: &mut Vec<u8>,
    progress: &mut Counter,
) -> Result<Rehearsed, EngineFault> {
    let mut reader = script;
    rehearse_script(
        alloc,
        &MemDev::new(alloc, 928),
        Some(Bounds {
            limit: 100,
            version: Version::V1,
        }),
        stops,
        &mut reader,
        writer,
        progress,
    )
}

/// Whether each stop was kept.
fn is_all_kept(counts: Rehearsed) -> bool {
    counts.kept == counts.stops && counts.reopened == counts.stops && counts.first_lost.is_none()
}

#[test]
fn each_stop_of_a_script_is_kept(rt: HostRuntime) -> Result<(), Fail> {
    let mut written = Vec::new(rt.alloc());
    let mut counter = Counter::NEW;
    let counts = rehearsed(rt.alloc(), SCRIPT, None, &mut written, &mut counter)?;
    assert!(rt; is_all_kept(counts), "{counts:?}");
    assert!(rt; counts.calls == 15 && counts.stops == counts.device_calls && counts.stops > 190);
    assert!(rt; counter.stops == counts.stops && counter.is_cleared);
    Ok(())
}

/// Whether the counts of a script of a bad line and a call are told so, at three stops.
fn is_told(written: &[u8]) -> bool {
    written.starts_with(b"-1 line\ncalls 1\ndevice calls ")
        && written.ends_with(b"\nstops 3\nreopened 3\nkept 3\n")
}

#[test]
fn the_counts_are_told(rt: HostRuntime) -> Result<(), Fail> {
    let mut written = Vec::new(rt.alloc());
    let _ = rehearsed(
        rt.alloc(),
        b"Q\nE\n",
        Some(3),
        &mut written,
        &mut Counter::NEW,
    )?;
    assert!(rt; is_told(written.as_slice()));
    Ok(())
}
