// Beginning, opening and closing.
ghost use Rattle.std.specs.Prelude.{◌≡◌, ◌≢◌, None, Some, pos};
ghost use Rattle.ndbm_c.specs.Held.{OnHandle};
ghost use Rattle.ndbm_c.specs.Opening.{Begins, OpensAs, ClosesAs, how_of};

use crate::handle::{Handle, Open};
use crate::how::{How, ServedFile};
use dbm_file::{FILE_SECTORS, Fault};
use listed_dev::ListedDev;
use ndbm_calls::refusal;
use std::alloc::Global;

/// How many sectors the device over any file has.
#[unsafe(no_mangle)]
pub extern "C" fn ndbm_c_file_sectors() -> u32
    ensures { result ≡ 273001992 }
{
    FILE_SECTORS
}

/// Has the handle hold a device over a file, of which no sector is known: 0, or the status of
/// `Memory`.
#[unsafe(no_mangle)]
pub extern "C" fn ndbm_c_begin(alloc: Global, handle: &mut Handle, file: ServedFile) -> i32
    ensures begins { result ≡ pos 0 → Begins file handle.new.held }
    ensures refused { result ≢ pos 0 → handle.new.held ≡ handle.old.held }
{
    let ServedFile { sectors, past } = file;
    match Box::new(alloc, Open::Device(ListedDev::new(alloc, past, sectors))) {
        Ok(made) => {
            handle.put(made);
            0
        }
        Err(_) => refusal(Fault::Memory),
    }
}

/// Opens the database on the device: 0, and then the handle holds it, or the status of the fault, and
/// then it holds the device as that was left.
#[unsafe(no_mangle)]
pub extern "C" fn ndbm_c_open(alloc: Global, handle: &mut Handle, how: &How) -> i32
    ensures { OnHandle handle.old.held handle.new.held result (OpensAs (how_of how.now)) }
{
    let Some(mut held) = handle.take(alloc) else {
        return refusal(Fault::Broken);
    };
    let status = held.open(alloc, how.open_how());
    handle.put(held);
    status
}

/// Closes the database, and the handle holds its device again, whatever is answered: 0, or the status
/// of `Broken` or `Device`.
#[unsafe(no_mangle)]
pub extern "C" fn ndbm_c_close(alloc: Global, handle: &mut Handle) -> i32
    ensures { OnHandle handle.old.held handle.new.held result ClosesAs }
{
    let Some(mut held) = handle.take(alloc) else {
        return refusal(Fault::Broken);
    };
    let status = held.close();
    handle.put(held);
    status
}

/// Has the handle hold none. Nothing more is listed.
#[unsafe(no_mangle)]
pub extern "C" fn ndbm_c_drop(alloc: Global, handle: &mut Handle)
    ensures { handle.new.held ≡ None }
{
    drop(handle.take(alloc));
}
