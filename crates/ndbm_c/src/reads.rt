// Calls that give bytes.
ghost use Rattle.std.specs.Prelude.{◌≡◌, ◌≢◌, ◌≤◌, pos, take};
ghost use Rattle.dbm_model.specs.Calls.{Fetch, First, Next};
ghost use Rattle.ndbm_c.specs.Held.{OnDatabase, Calls, Resumes};

use crate::handle::Handle;
use dbm_file::Fault;
use ndbm_calls::{CONTENT_ROOM, KEY_ROOM, refusal};
use std::alloc::Global;

/// The content of a key: 0, or 1 where the key isn't there.
#[unsafe(no_mangle)]
pub extern "C" fn ndbm_c_fetch(
    alloc: Global,
    handle: &mut Handle,
    key: &[u8],
    out: &mut [u8; CONTENT_ROOM],
    length: &mut usize,
) -> i32
    ensures answered { OnDatabase handle.old.held handle.new.held result
        (Calls (Fetch key.now) result (take length.new out.new)) }
    ensures same { result ≢ pos 0 → (out.new ≡ out.old) × (length.new ≡ length.old) }
    ensures short { result ≡ pos 0 → length.new ≤ 65535 }
{
    let Some(mut held) = handle.take(alloc) else {
        return refusal(Fault::Broken);
    };
    let status = held.fetch(key, out, length);
    handle.put(held);
    status
}

/// The first key of a new pass: 0, or 1 where there is none.
#[unsafe(no_mangle)]
pub extern "C" fn ndbm_c_firstkey(
    alloc: Global,
    handle: &mut Handle,
    out: &mut [u8; KEY_ROOM],
    length: &mut usize,
) -> i32
    ensures answered { OnDatabase handle.old.held handle.new.held result
        (Calls First result (take length.new out.new)) }
    ensures same { result ≢ pos 0 → (out.new ≡ out.old) × (length.new ≡ length.old) }
    ensures short { result ≡ pos 0 → length.new ≤ 2026 }
{
    let Some(mut held) = handle.take(alloc) else {
        return refusal(Fault::Broken);
    };
    let status = held.firstkey(out, length);
    handle.put(held);
    status
}

/// The next key of the pass: 0, or 1 where there is none.
#[unsafe(no_mangle)]
pub extern "C" fn ndbm_c_nextkey(
    alloc: Global,
    handle: &mut Handle,
    out: &mut [u8; KEY_ROOM],
    length: &mut usize,
) -> i32
    ensures answered { OnDatabase handle.old.held handle.new.held result
        (Calls Next result (take length.new out.new)) }
    ensures same { result ≢ pos 0 → (out.new ≡ out.old) × (length.new ≡ length.old) }
    ensures short { result ≡ pos 0 → length.new ≤ 2026 }
{
    let Some(mut held) = handle.take(alloc) else {
        return refusal(Fault::Broken);
    };
    let status = held.nextkey(out, length);
    handle.put(held);
    status
}

/// Has the pass stand behind this key, as if it had been given last: 0.
#[unsafe(no_mangle)]
pub extern "C" fn ndbm_c_resume(alloc: Global, handle: &mut Handle, key: &[u8]) -> i32
    ensures answered { OnDatabase handle.old.held handle.new.held result
        (Resumes key.now result) }
{
    let Some(mut held) = handle.take(alloc) else {
        return refusal(Fault::Broken);
    };
    let status = held.resume(key);
    handle.put(held);
    status
}
