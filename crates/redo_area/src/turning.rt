//! The turn number, by which programs that share a file tell that it was changed.

ghost use Rattle.std.specs.Prelude.{◌≡◌, ◌≢◌, ◌≤◌, ◌<◌, ◌/◌, ◌%◌, OnOk};
ghost use Rattle.sect_dev.specs.Device.{Image, IsImageOf, LeavesOnly};
ghost use Rattle.page_io.specs.Calls.{IsDeviceCall};
ghost use Rattle.redo_area.specs.Header.{kind_of};
ghost use Rattle.redo_area.specs.declared.header.CommitKind.TheVariants.{Log};
ghost use Rattle.redo_area.specs.Turn.{IsAsBefore, IsTurned};

use crate::header::{CommitKind, kind_of};
use byteorder::{BigEndian, ByteOrder};
use sect_dev::{DevFault, SectorDev};

// An odd number that is another one.
fn odd_behind(number: u32) -> u32
    ensures odd { result % 2 ≡ 1 }
    ensures other { result ≢ number }
{
    if number % 2 == 0 {
        number + 1
    } else if number < u32::MAX {
        number + 2
    } else {
        1
    }
}

/// Has the turn number of a file whose commits may be in a log be another one, and odd, which tells
/// the programs that share it to look at the file anew. It is to be called before the first change
/// of an opening. Nothing that the file stands for depends on it. A file of the other kind is left
/// as it is.
pub fn change_turn<D: SectorDev>(dev: &mut D) -> Result<(), DevFault>
    requires { 16 ≤ D.sectors dev.old }

    // Every image of every moment settles as one does that the device had at the start, with its
    // commit sector, and so does each that is left.
    ensures any_moment { D.honest dev.old
        → LeavesOnly D.moment D.left_since dev.old dev.new
        (IsAsBefore (D.sectors dev.old / 4) (D.candidate dev.old)) }
    ensures images { D.honest dev.old → (image : Image) → IsImageOf (D.candidate dev.new) image
        → IsAsBefore (D.sectors dev.old / 4) (D.candidate dev.old) image }
    ensures turned { D.honest dev.old → OnOk result (kind_of (D.seen dev.old 0) ≡ Log
        → IsTurned (D.seen dev.old) (D.seen dev.new)) }
    ensures device { IsDeviceCall D.SectorDev dev.old dev.new result }
{
    let mut content = [0; 512];
    dev.read(0, &mut content)?;
    if kind_of(&content) == CommitKind::Images {
        return Ok(());
    }
    dev.read(1, &mut content)?;
    let low = odd_behind(BigEndian::read_u32(&content[4..]));
    BigEndian::write_u32(&mut content[4..8], low);
    dev.write(1, &content)
}
