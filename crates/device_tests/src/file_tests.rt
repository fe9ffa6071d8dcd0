//! A device over a real file that is opened for reading.

use crate::sectors::{ends, set_sector};
use sect_dev::FileDev;
use std::fs;
use std::test::Fail;

/// The number of the system's error after a write, if it failed.
fn error_of_write(dev: &mut FileDev) -> Option<i32> {
    set_sector(dev, 0, &[1; 512]).err()?;
    dev.last_error()?.raw_os_error()
}

#[test]
fn a_file_for_reading_takes_no_write(rt: HostRuntime) -> Result<(), Fail> {
    fs::write(&rt, "read.dev", [6; 700].as_slice())?;
    let mut dev = FileDev::open(&rt, "read.dev", false, false, 8)?;
    assert!(rt; dev.last_error().is_none());
    // EBADF, as the file isn't open for writing.
    assert!(rt; error_of_write(&mut dev) == Some(9));
    assert!(rt; ends(&mut dev, 0)? == [6, 6] && ends(&mut dev, 1)? == [6, 0]);
    fs::remove_file(&rt, "read.dev")?;
    Ok(())
}
