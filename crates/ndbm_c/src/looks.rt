// Calls that change nothing but the error.
ghost use Rattle.std.specs.Prelude.{◌≡◌, ◌≢◌, pos};
ghost use Rattle.ndbm_c.specs.Looks.{TellsError, Clears, TellsNumbers, TellsVersion, Verifies};
ghost use Rattle.ndbm_c.specs.Held.{OnDatabase};

use crate::handle::Handle;
use crate::numbers::Numbers;
use dbm_file::Fault;
use ndbm_calls::refusal;
use std::alloc::Global;

/// The number of the first fault since the opening or the last clearing, or 0.
#[unsafe(no_mangle)]
pub extern "C" fn ndbm_c_error(alloc: Global, handle: &mut Handle) -> i32
    ensures answered { OnDatabase handle.old.held handle.new.held result
        (TellsError result) }
{
    let Some(mut held) = handle.take(alloc) else {
        return refusal(Fault::Broken);
    };
    let status = held.error();
    handle.put(held);
    status
}

/// Forgets the first fault: 0.
#[unsafe(no_mangle)]
pub extern "C" fn ndbm_c_clearerr(alloc: Global, handle: &mut Handle) -> i32
    ensures answered { OnDatabase handle.old.held handle.new.held result
        (Clears result) }
{
    let Some(mut held) = handle.take(alloc) else {
        return refusal(Fault::Broken);
    };
    let status = held.clearerr();
    handle.put(held);
    status
}

/// The numbers of the database: 0.
#[unsafe(no_mangle)]
pub extern "C" fn ndbm_c_stat(alloc: Global, handle: &mut Handle, numbers: &mut Numbers) -> i32
    ensures answered { OnDatabase handle.old.held handle.new.held result
        (TellsNumbers result numbers.new) }
    ensures untold { result ≢ pos 0 → numbers.new ≡ numbers.old }
{
    let Some(mut held) = handle.take(alloc) else {
        return refusal(Fault::Broken);
    };
    let status = held.stat(numbers);
    handle.put(held);
    status
}

/// The number of the version of the database's format, 1 or 2.
#[unsafe(no_mangle)]
pub extern "C" fn ndbm_c_version(alloc: Global, handle: &mut Handle) -> i32
    ensures answered { OnDatabase handle.old.held handle.new.held result
        (TellsVersion result) }
{
    let Some(mut held) = handle.take(alloc) else {
        return refusal(Fault::Broken);
    };
    let status = held.version();
    handle.put(held);
    status
}

/// Whether the file is a good one: 0. The faults are those of `verify` of `ndbm_calls`.
#[unsafe(no_mangle)]
pub extern "C" fn ndbm_c_verify(alloc: Global, handle: &mut Handle) -> i32
    ensures answered { OnDatabase handle.old.held handle.new.held result
        (Verifies result) }
{
    let Some(mut held) = handle.take(alloc) else {
        return refusal(Fault::Broken);
    };
    let status = held.verify(alloc);
    handle.put(held);
    status
}
