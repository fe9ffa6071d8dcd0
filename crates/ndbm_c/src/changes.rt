// Calls that change the database.
ghost use Rattle.std.specs.Prelude.{◌≡◌, ◌≢◌, [], pos, if◌then◌else◌};
ghost use Rattle.dbm_model.specs.Calls.{Store, Delete, Insert, Replace};
ghost use Rattle.ndbm_c.specs.Groups.{Adds, StoresAdded, Syncs};
ghost use Rattle.ndbm_c.specs.Held.{OnDatabase, Calls, StoresIn, DeletesIn, Upgrades};

use crate::handle::Handle;
use dbm_file::Fault;
use ndbm_calls::refusal;
use std::alloc::Global;

/// Stores a pair: 0, or 1 where the key is there and isn't to be replaced, and then it stays.
#[unsafe(no_mangle)]
pub extern "C" fn ndbm_c_store(
    alloc: Global,
    handle: &mut Handle,
    key: &[u8],
    content: &[u8],
    replace: bool,
) -> i32
    ensures answered { OnDatabase handle.old.held handle.new.held result
        (Calls (Store key.now content.now (if replace then Replace else Insert)) result []) }
    ensures stored { OnDatabase handle.old.held handle.new.held result
        (StoresIn (key.now, content.now) result) }
{
    let Some(mut held) = handle.take(alloc) else {
        return refusal(Fault::Broken);
    };
    let status = held.store(key, content, replace);
    handle.put(held);
    status
}

/// Deletes a key with its content: 0, or 1 where it isn't there.
#[unsafe(no_mangle)]
pub extern "C" fn ndbm_c_delete(alloc: Global, handle: &mut Handle, key: &[u8]) -> i32
    ensures answered { OnDatabase handle.old.held handle.new.held result
        (Calls (Delete key.now) result []) }
    ensures deleted { OnDatabase handle.old.held handle.new.held result
        (DeletesIn key.now result) }
{
    let Some(mut held) = handle.take(alloc) else {
        return refusal(Fault::Broken);
    };
    let status = held.delete(key);
    handle.put(held);
    status
}

/// Makes the database one of version 2: 0, also where it is one.
#[unsafe(no_mangle)]
pub extern "C" fn ndbm_c_upgrade(alloc: Global, handle: &mut Handle) -> i32
    ensures answered { OnDatabase handle.old.held handle.new.held result
        (Upgrades result) }
{
    let Some(mut held) = handle.take(alloc) else {
        return refusal(Fault::Broken);
    };
    let status = held.upgrade();
    handle.put(held);
    status
}

/// Keeps a copy of a pair that is to be stored with others: 0, or the status of `Memory`.
#[unsafe(no_mangle)]
pub extern "C" fn ndbm_c_add(alloc: Global, handle: &mut Handle, key: &[u8], content: &[u8]) -> i32
    ensures answered { OnDatabase handle.old.held handle.new.held result
        (Adds (key.now, content.now) result) }
{
    let Some(mut held) = handle.take(alloc) else {
        return refusal(Fault::Broken);
    };
    let status = held.add(key, content);
    handle.put(held);
    status
}

/// Stores the pairs that were kept in one commit, and forgets them: 0, and how many are stored,
/// from the first one on.
#[unsafe(no_mangle)]
pub extern "C" fn ndbm_c_store_added(alloc: Global, handle: &mut Handle, stored: &mut usize) -> i32
    ensures answered { OnDatabase handle.old.held handle.new.held result
        (StoresAdded result stored.new) }
    ensures untold { result ≢ pos 0 → stored.new ≡ stored.old }
{
    let Some(mut held) = handle.take(alloc) else {
        return refusal(Fault::Broken);
    };
    let status = held.store_added(stored);
    handle.put(held);
    status
}

/// Puts the pages of the last commit in their places: 0.
#[unsafe(no_mangle)]
pub extern "C" fn ndbm_c_sync(alloc: Global, handle: &mut Handle) -> i32
    ensures answered { OnDatabase handle.old.held handle.new.held result
        (Syncs result) }
{
    let Some(mut held) = handle.take(alloc) else {
        return refusal(Fault::Broken);
    };
    let status = held.sync();
    handle.put(held);
    status
}
