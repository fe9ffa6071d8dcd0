//! A file whose commits are made otherwise from now on.

ghost use Rattle.std.specs.Prelude.{◌≡◌, ◌≢◌, ◌≤◌, ◌/◌, ◌↔◌, ℕ, OnOk, IfErr, IsErrOf};
ghost use Rattle.sect_dev.specs.Device.{LeavesOnly, MoreFaults};
ghost use Rattle.redo_area.specs.Header.{kind_of};
ghost use Rattle.redo_area.specs.File.{SettlesAsBefore, IsAtRest};
ghost use Rattle.redo_area.specs.Opening.{IsRefused};

use crate::OpenFault;
use crate::header::{CommitKind, clear_sector};
use crate::recovery::recover;
use crate::steps::put_header;
use sect_dev::SectorDev;

/// Settles what a stop may have left of a file, and has its commits made so from now on. The commit
/// sector alone is written for that, so a stop leaves a file of one kind or the other.
pub fn change_kind<D: SectorDev>(dev: &mut D, kind: CommitKind) -> Result<(), OpenFault>
    requires { 16 ≤ D.sectors dev.old }

    // Every image of every moment settles as one does that the device had at the start.
    ensures any_moment { D.honest dev.old
        → LeavesOnly D.moment D.left_since dev.old dev.new
        (SettlesAsBefore (D.sectors dev.old / 4) (D.candidate dev.old)) }
    ensures rest { D.honest dev.old
        → OnOk result ((end : ℕ)
        × IsAtRest (D.sectors dev.old / 4) end (D.candidate dev.new) (D.seen dev.new)) }
    ensures kind { D.honest dev.old → OnOk result (kind_of (D.seen dev.new 0) ≡ kind) }
    ensures refused { D.honest dev.old
        → IfErr result (λ e. e ≢ OpenFault.Device
        → IsRefused (D.sectors dev.old / 4) (D.candidate dev.old) (D.candidate dev.new)
        (D.seen dev.new) e) }
    ensures cause { IsErrOf result OpenFault.Device
        → MoreFaults (D.faults dev.old) (D.faults dev.new) }
    ensures only { IfErr result (λ e. e ≢ OpenFault.Memory) }
    ensures honesty { D.honest dev.new ↔ D.honest dev.old }
    ensures size { D.sectors dev.new ≡ D.sectors dev.old }
{
    let rest = recover(dev)?;
    match put_header(dev, &clear_sector(kind, rest.end)) {
        Ok(()) => Ok(()),
        Err(_) => Err(OpenFault::Device),
    }
}
