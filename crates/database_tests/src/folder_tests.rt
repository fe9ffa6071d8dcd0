//! Openings of files, in the folder that the tests run in.

use crate::hows::{how_of, is_fault, row_of};
use dbm_file::{Fault, dbm_open};
use sect_dev::FileDev;
use std::alloc::Global;
use std::fs::{self, File};
use std::rt::Files;
use std::test::Fail;
use test_databases::calls::open;

/// The fault of opening a file, as some words say.
fn fault_of<R: Files<File = File>>(
    rt: &R,
    alloc: Global,
    name: &str,
    how: &str,
) -> Result<Option<Fault>, Fail> {
    Ok(dbm_open(rt, alloc, name, how_of(how)?).err())
}

/// The first line of a table whose opening of a file isn't refused by the fault that it has behind
/// its arrow.
fn first_not_refused<'a, R: Files<File = File>>(
    rt: &R,
    alloc: Global,
    name: &str,
    table: &'a str,
) -> Result<Option<&'a str>, Fail> {
    for line in table.lines() {
        if let Some((how, wanted)) = row_of(line) {
            if !is_fault(alloc, fault_of(rt, alloc, name, how)?, wanted)? {
                return Ok(Some(line));
            }
        }
    }
    Ok(None)
}

#[test]
fn a_missing_file_stays_missing(rt: HostRuntime) -> Result<(), Fail> {
    let _ = fs::remove_file(&rt, "missing.db");
    let table = "
        100 -> Missing
        reading 100 -> Missing
        reading create 100 -> Missing
        reading truncate 100 -> Missing
    ";
    let wrong = first_not_refused(&rt, rt.alloc(), "missing", table)?;
    assert_eq!(rt; wrong, None);
    assert!(rt; !fs::exists(&rt, "missing.db")?);
    Ok(())
}

#[test]
fn what_the_system_refuses_is_a_device_fault(rt: HostRuntime) -> Result<(), Fail> {
    let _ = fs::remove_file(&rt, "plain");
    fs::write(&rt, "plain", b"".as_slice())?;
    for name in ["plain/below", "none/below", "a\0b"] {
        let fault = fault_of(&rt, rt.alloc(), name, "create exclusive 100")?;
        assert_eq!(rt; fault, Some(Fault::Device), "{name}");
    }
    fs::remove_file(&rt, "plain")?;
    Ok(())
}

#[test]
fn a_full_device_is_a_device_fault(rt: HostRuntime) -> Result<(), Fail> {
    let how = how_of("create exclusive 100")?;
    let dev = FileDev::open(&rt, "/dev/full", true, false, 928)?;
    let fault = open(rt.alloc(), dev, how).err();
    assert_eq!(rt; fault, Some(Fault::Device));
    Ok(())
}
