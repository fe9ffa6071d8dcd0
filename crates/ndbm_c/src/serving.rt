// Serving the device of a handle.
ghost use Rattle.std.specs.Prelude.{◌≡◌, option_copied};
ghost use Rattle.ndbm_c.specs.Held.{OnHandle};
ghost use Rattle.ndbm_c.specs.Serving.{IsTrueIn, TellsLack, IsNumberOf, TellsChange, IsServed};
ghost use Rattle.sect_dev.specs.declared.served.Told.TheVariants.{Sector, CarriedOut};

use crate::handle::Handle;
use dbm_file::Fault;
use ndbm_calls::refusal;
use sect_dev::{Event, Told};
use std::alloc::Global;

/// Whether the last read of the device that failed lacked a sector, which has not been told since, and
/// which one.
#[unsafe(no_mangle)]
pub extern "C" fn ndbm_c_lacks(alloc: Global, handle: &mut Handle, sector: &mut u32) -> bool
    ensures lacked { TellsLack handle.old.held result sector.new }
    ensures same { handle.new.held ≡ handle.old.held }
{
    let Some(held) = handle.take(alloc) else {
        return false;
    };
    let lacked = match held.dev() {
        Some(dev) => dev.lacked(),
        None => None,
    };
    handle.put(held);
    match lacked {
        Some(n) => {
            *sector = n;
            true
        }
        None => false,
    }
}

/// Tells the device what a sector of the file holds: 0, or the status of `Memory`. With what was
/// listed and carried out, the file holds just that there.
#[unsafe(no_mangle)]
pub extern "C" fn ndbm_c_give(
    alloc: Global,
    handle: &mut Handle,
    sector: u32,
    bytes: &[u8; 512],
) -> i32
    requires { IsTrueIn handle.old.held (Sector sector bytes.now) }
    ensures { OnHandle handle.old.held handle.new.held result (IsServed (Sector sector bytes.now)) }
{
    tell(alloc, handle, &Told::Sector(sector, *bytes))
}

/// Tells the device that all that it listed is carried out: 0. Nothing is listed then, and no sector
/// is known.
#[unsafe(no_mangle)]
pub extern "C" fn ndbm_c_carried_out(alloc: Global, handle: &mut Handle) -> i32
    ensures { OnHandle handle.old.held handle.new.held result (IsServed CarriedOut) }
{
    tell(alloc, handle, &Told::CarriedOut)
}

fn tell(alloc: Global, handle: &mut Handle, told: &Told) -> i32
    requires { IsTrueIn handle.old.held told.now }
    ensures { OnHandle handle.old.held handle.new.held result (IsServed told.now) }
{
    let Some(mut held) = handle.take(alloc) else {
        return refusal(Fault::Broken);
    };
    let answer = held.tell(told);
    handle.put(held);
    match answer {
        Ok(()) => 0,
        Err(_) => refusal(Fault::Memory),
    }
}

/// A change that is listed: 1 for a write of these bytes to the sector, 2 for a sync, 0 for none.
fn tell_change(change: Option<&Event>, sector: &mut u32, bytes: &mut [u8; 512]) -> i32
    ensures { IsNumberOf (option_copied change.entry) result sector.new bytes.new }
{
    match change {
        Some(Event::Wrote(n, content)) => {
            *sector = *n;
            *bytes = *content;
            1
        }
        Some(Event::Synced) => 2,
        None => 0,
    }
}

/// Change i of those that are listed, from 0 on and the oldest first: 0 where there are no more, 1 for
/// a write of these bytes to the sector, 2 for a sync.
#[unsafe(no_mangle)]
pub extern "C" fn ndbm_c_listed(
    alloc: Global,
    handle: &mut Handle,
    i: usize,
    sector: &mut u32,
    bytes: &mut [u8; 512],
) -> i32
    ensures told { TellsChange handle.old.held i result sector.new bytes.new }
    ensures same { handle.new.held ≡ handle.old.held }
{
    let Some(held) = handle.take(alloc) else {
        return 0;
    };
    let told = match held.dev() {
        Some(dev) => tell_change(dev.listed().get(i), sector, bytes),
        None => 0,
    };
    handle.put(held);
    told
}
