// On what a handle holds: calls that change the database.
ghost use Rattle.std.specs.Prelude.{◌≡◌, ◌≢◌, [], pos, if◌then◌else◌};
ghost use Rattle.dbm_model.specs.Calls.{Store, Delete, Insert, Replace};
ghost use Rattle.ndbm_c.specs.Groups.{Adds, StoresAdded, Syncs};
ghost use Rattle.dbm_file.specs.Calls.{mode_of};
ghost use Rattle.ndbm_c.specs.Held.{OnOpen, Calls, StoresIn, DeletesIn, Upgrades};

use crate::handle::Open;
use dbm_file::{Fault, StoreMode};
use ndbm_calls::refusal;

fn mode_if(replace: bool) -> StoreMode
    ensures { mode_of result ≡ (if replace then Replace else Insert) }
{
    if replace {
        StoreMode::Replace
    } else {
        StoreMode::Insert
    }
}

impl Open {
    /// Stores a pair: 0, or 1 where the key is there and isn't to be replaced, and then it stays.
    pub(crate) fn store(&mut self, key: &[u8], content: &[u8], replace: bool) -> i32
        ensures answered { OnOpen self.old self.new result
            (Calls (Store key.now content.now (if replace then Replace else Insert)) result []) }
        ensures stored { OnOpen self.old self.new result
            (StoresIn (key.now, content.now) result) }
    {
        match self {
            Open::Database(opened) => ndbm_calls::store(
                &mut opened.db,
                key,
                content,
                mode_if(replace),
            ),
            _ => refusal(Fault::Broken),
        }
    }

    /// Deletes a key with its content: 0, or 1 where it isn't there.
    pub(crate) fn delete(&mut self, key: &[u8]) -> i32
        ensures answered { OnOpen self.old self.new result
            (Calls (Delete key.now) result []) }
        ensures deleted { OnOpen self.old self.new result (DeletesIn key.now result) }
    {
        match self {
            Open::Database(opened) => ndbm_calls::delete(&mut opened.db, key),
            _ => refusal(Fault::Broken),
        }
    }

    /// Makes the database one of version 2: 0, also where it is one.
    pub(crate) fn upgrade(&mut self) -> i32
        ensures answered { OnOpen self.old self.new result
            (Upgrades result) }
    {
        match self {
            Open::Database(opened) => ndbm_calls::upgrade(&mut opened.db),
            _ => refusal(Fault::Broken),
        }
    }

    /// Keeps a copy of a pair that is to be stored with others: 0, or the status of `Memory`.
    pub(crate) fn add(&mut self, key: &[u8], content: &[u8]) -> i32
        ensures answered { OnOpen self.old self.new result
            (Adds (key.now, content.now) result) }
    {
        match self {
            Open::Database(opened) => opened.group.add(key, content),
            _ => refusal(Fault::Broken),
        }
    }

    /// Stores the pairs that were kept in one commit, and forgets them: 0, and how many are stored,
    /// from the first one on.
    pub(crate) fn store_added(&mut self, stored: &mut usize) -> i32
        ensures answered { OnOpen self.old self.new result
            (StoresAdded result stored.new) }
        ensures untold { result ≢ pos 0 → stored.new ≡ stored.old }
    {
        match self {
            Open::Database(opened) => opened.group.store(&mut opened.db, stored),
            _ => refusal(Fault::Broken),
        }
    }

    /// Puts the pages of the last commit in their places: 0.
    pub(crate) fn sync(&mut self) -> i32
        ensures answered { OnOpen self.old self.new result
            (Syncs result) }
    {
        match self {
            Open::Database(opened) => ndbm_calls::sync(&mut opened.db),
            _ => refusal(Fault::Broken),
        }
    }
}
