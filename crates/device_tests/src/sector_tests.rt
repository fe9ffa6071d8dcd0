//! Sectors in memory, and devices that fail.

use crate::sectors::{ends, first_bytes, four_from, sector_of, set_four, set_sector};
use sect_dev::{DevFault, FailLate, FailOnce, Failing, Fuse, MemDev, Schedule, SectorDev};
use std::alloc::Global;
use std::test::Fail;

#[test]
fn fresh_sectors_are_zeros(rt: HostRuntime) -> Result<(), Fail> {
    let mut dev = MemDev::new(rt.alloc(), 3);
    assert!(rt; dev.capacity() == 3 && sector_of(&mut dev, 2)? == [0; 512]);
    Ok(())
}

/// Writes a byte all over a sector, and gives how many writes are pending then.
fn pending_with(dev: &mut MemDev, n: u32, byte: u8) -> Result<usize, DevFault> {
    set_sector(dev, n, &[byte; 512])?;
    Ok(dev.pending())
}

/// Whether two writes of sector 1 are pending up to a sync, and the last is read before and behind
/// it.
fn is_pending_until_a_sync(dev: &mut MemDev) -> Result<bool, DevFault> {
    let pending = [pending_with(dev, 1, 7)?, pending_with(dev, 1, 9)?];
    let read = sector_of(dev, 1)? == [9; 512] && ends(dev, 0)?[0] == 0;
    dev.sync()?;
    Ok(pending == [1, 2] && read && dev.pending() == 0 && ends(dev, 1)?[0] == 9)
}

#[test]
fn a_write_is_read_back_and_pending_until_a_sync(rt: HostRuntime) -> Result<(), Fail> {
    assert!(rt; is_pending_until_a_sync(&mut MemDev::new(rt.alloc(), 3))?);
    Ok(())
}

/// Whether four sectors are written as one run, sector by sector, and read as one, with zeros behind
/// them.
fn moves_a_run(dev: &mut MemDev) -> Result<bool, DevFault> {
    let mut run = [5; 2048];
    run[512] = 6;
    run[2047] = 7;
    set_four(dev, 1, &run)?;
    let apart = [ends(dev, 0)?, ends(dev, 1)?, ends(dev, 2)?, ends(dev, 4)?];
    let after = four_from(dev, 3)?;
    let zeros = after[1023] == 7 && after[1024..].iter().all(|byte| *byte == 0);
    Ok(apart == [[0, 0], [5, 5], [6, 5], [5, 7]] && zeros && four_from(dev, 1)? == run)
}

#[test]
fn a_run_is_as_its_sectors(rt: HostRuntime) -> Result<(), Fail> {
    assert!(rt; moves_a_run(&mut MemDev::new(rt.alloc(), 8))?);
    Ok(())
}

/// A device with a synced write of sector 0, and pending ones of sectors 0, 1 and 0.
fn with_three_pending(alloc: Global) -> Result<MemDev, DevFault> {
    let mut dev = MemDev::new(alloc, 3);
    set_sector(&mut dev, 0, &[1; 512])?;
    dev.sync()?;
    set_sector(&mut dev, 0, &[2; 512])?;
    set_sector(&mut dev, 1, &[3; 512])?;
    set_sector(&mut dev, 0, &[4; 512])?;
    Ok(dev)
}

/// Whether a stop with these marks leaves these first bytes, in as many sectors and with nothing
/// pending.
fn leaves(alloc: Global, dev: &MemDev, marks: &[bool], wanted: [u8; 2]) -> Result<bool, Fail> {
    let mut after = dev.crashed(alloc, marks)?;
    Ok(after.capacity() == 3 && after.pending() == 0 && first_bytes(&mut after)? == wanted)
}

#[test]
fn a_crash_keeps_the_marked_writes(rt: HostRuntime) -> Result<(), Fail> {
    let dev = with_three_pending(rt.alloc())?;
    let cases: [(&[bool], [u8; 2]); 6] = [
        (&[], [1, 0]),
        (&[true, true, true], [4, 3]),
        (&[true, false, true], [4, 0]),
        (&[false, true, false], [1, 3]),
        (&[true], [2, 0]),
        (&[true, true, false, true], [2, 3]),
    ];
    for (marks, wanted) in cases {
        assert!(rt;
            leaves(rt.alloc(), &dev, marks, wanted)?,
            "with marks {marks:?}"
        );
    }
    assert!(rt; dev.pending() == 3);
    Ok(())
}

/// 1 where a call was Ok.
fn passed(answer: Result<(), DevFault>) -> usize {
    if answer.is_ok() { 1 } else { 0 }
}

/// Writes sector 0, syncs, writes sector 1 and reads sector 0: which of the four calls passed.
fn calls_passed(dev: &mut impl SectorDev) -> [usize; 4] {
    [
        passed(set_sector(dev, 0, &[5; 512])),
        passed(dev.sync()),
        passed(set_sector(dev, 1, &[6; 512])),
        passed(sector_of(dev, 0).map(drop)),
    ]
}

/// Whether those calls pass as the first four numbers say, and leave the device below as the others
/// say: the first bytes of its two sectors, and how many writes are pending.
fn ends_as<P: Schedule>(mut dev: Failing<MemDev, P>, wanted: [usize; 7]) -> Result<bool, DevFault> {
    let [write, sync, second, read] = calls_passed(&mut dev);
    let mut inner = dev.into_inner();
    let [zero, one] = first_bytes(&mut inner)?;
    let left = [usize::from(zero), usize::from(one), inner.pending()];
    Ok([write, sync, second, read, left[0], left[1], left[2]] == wanted)
}

#[test]
fn a_fuse_fails_every_call_from_k_on(rt: HostRuntime) -> Result<(), Fail> {
    let outcomes = [
        [0, 0, 0, 0, 0, 0, 0],
        [1, 0, 0, 0, 5, 0, 1],
        [1, 1, 0, 0, 5, 0, 0],
        [1, 1, 1, 0, 5, 6, 1],
        [1, 1, 1, 1, 5, 6, 1],
    ];
    for (k, wanted) in outcomes.iter().enumerate() {
        let dev = Fuse::new(MemDev::new(rt.alloc(), 2), k as u64);
        assert!(rt; ends_as(dev, *wanted)?, "at {k}");
    }
    Ok(())
}

#[test]
fn fail_once_drops_call_k_alone(rt: HostRuntime) -> Result<(), Fail> {
    let outcomes = [
        [0, 1, 1, 1, 0, 6, 1],
        [1, 0, 1, 1, 5, 6, 2],
        [1, 1, 0, 1, 5, 0, 0],
        [1, 1, 1, 0, 5, 6, 1],
        [1, 1, 1, 1, 5, 6, 1],
    ];
    for (k, wanted) in outcomes.iter().enumerate() {
        let dev = FailOnce::new(MemDev::new(rt.alloc(), 2), k as u64);
        assert!(rt; ends_as(dev, *wanted)?, "at {k}");
    }
    Ok(())
}

#[test]
fn fail_late_passes_writes_on_and_no_sync(rt: HostRuntime) -> Result<(), Fail> {
    let outcomes = [
        [0, 1, 1, 1, 5, 6, 1],
        [1, 0, 1, 1, 5, 6, 2],
        [1, 1, 0, 1, 5, 6, 1],
        [1, 1, 1, 0, 5, 6, 1],
        [1, 1, 1, 1, 5, 6, 1],
    ];
    for (k, wanted) in outcomes.iter().enumerate() {
        let dev = FailLate::new(MemDev::new(rt.alloc(), 2), k as u64);
        assert!(rt; ends_as(dev, *wanted)?, "at {k}");
    }
    Ok(())
}
