//! A commit that is written once more as it is.

ghost use Rattle.std.specs.Prelude.{◌≤◌, ◌<◌};
ghost use Rattle.sect_dev.specs.Device.{IsImageOf, LeavesOnly, NoNewCandidate};
ghost use Rattle.page_io.specs.Calls.{IsDeviceCall};

use crate::header::{Header, read_header};
use commit_log::write_log_back;
use sect_dev::{DevFault, SectorDev};

/// Has the next sync write the commit sector of a file once more, and the log that it names with the
/// pages at home that the older commit of it has, with the bytes that a read gives. What is no file
/// of ours is left as it is. Redo images are left too, since a commit sector is armed only once they
/// are synced.
pub fn write_back<D: SectorDev>(dev: &mut D) -> Result<(), DevFault>
    requires { 16 ≤ D.sectors dev.old }
    ensures any_moment { D.honest dev.old
        → LeavesOnly D.moment D.left_since dev.old dev.new (IsImageOf (D.candidate dev.old)) }
    ensures candidates { D.honest dev.old
        → NoNewCandidate (D.candidate dev.old) (D.candidate dev.new) }
    ensures device { IsDeviceCall D.SectorDev dev.old dev.new result }
{
    let capacity = dev.capacity() / 4;
    let mut content = [0; 512];
    dev.read(0, &mut content)?;
    match read_header(capacity, &content) {
        Header::Clear { .. } | Header::Armed { .. } => dev.write(0, &content),
        Header::Logging { start } => {
            dev.write(0, &content)?;
            write_log_back(dev, start)
        }
        Header::Blank | Header::NotOurs | Header::Damaged => Ok(()),
    }
}
