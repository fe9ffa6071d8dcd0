// Calls that change the database.
ghost use Rattle.std.specs.Prelude.{◌≡◌, true, pos, []};
ghost use Rattle.dbm_model.specs.Bounds.{V1};
ghost use Rattle.dbm_model.specs.Calls.{Store, Delete, Upgrade};
ghost use Rattle.dbm_file.specs.Calls.{mode_of};
ghost use Rattle.dbm_file.specs.Changing.{WasStored, WasDeleted, WasUpgraded};
ghost use Rattle.dbm_file.specs.Database.{store_of, meta_kept, page_state, AtEachHandle};
ghost use Rattle.dbm_file.specs.Passing.{pass_of};
ghost use Rattle.dbm_file.specs.Syncing.{StandsStill};
ghost use Rattle.ndbm_calls.specs.Statuses.{IsAnswered, IsDone, IsRaised, IsTold};

use crate::status::{of_delete, of_done, of_store};
use dbm_file::{Database, StoreMode};
use page_io::PageStore;

/// Stores a pair: 0, or 1 where an insert finds the key, whose content stays. The faults are those
/// of `Database::store`.
pub fn store<S: PageStore>(db: &mut Database<S>, key: &[u8], content: &[u8], mode: StoreMode) -> i32
    ensures answered { IsAnswered db.old db.new (Store key.now content.now (mode_of mode))
        result [] }
    ensures pass { pass_of db.new ≡ pass_of db.old }

    // On any file the pair was put into its bucket.
    ensures stored { result ≡ pos 0 → WasStored db.old db.new (key.now, content.now) }
{
    of_store(db.store(key, content, mode))
}

/// Deletes a key with its content: 0, or 1 where it isn't there. The faults are those of
/// `Database::delete`.
pub fn delete<S: PageStore>(db: &mut Database<S>, key: &[u8]) -> i32
    ensures answered { IsAnswered db.old db.new (Delete key.now) result [] }
    ensures pass { pass_of db.new ≡ pass_of db.old }

    // On any file it was taken out of its bucket.
    ensures deleted { result ≡ pos 0 → WasDeleted db.old db.new key.now }
{
    of_delete(db.delete(key))
}

/// Makes the database one of version 2: 0, also where it is one. The faults are those of
/// `Database::upgrade`.
pub fn upgrade<S: PageStore>(db: &mut Database<S>) -> i32
    ensures step { AtEachHandle db.old (λ h. IsTold db.old db.new h Upgrade result []) }
    ensures ends { IsRaised db.old db.new result }
    ensures pass { pass_of db.new ≡ pass_of db.old }

    // On any file of version 1 nothing but the version has changed.
    ensures upgraded { result ≡ pos 0 → (meta_kept db.old).bounds.version ≡ V1
        → WasUpgraded db.old db.new }
{
    of_done(db.upgrade())
}

/// Puts the pages of the last commit in their places: 0. The faults are those of `Database::sync`.
pub fn sync<S: PageStore>(db: &mut Database<S>) -> i32
    ensures home { S.honest (store_of db.old) → result ≡ pos 0
        → (page_state db.old).writable ≡ true → S.at_home (store_of db.new) }
    ensures stays { AtEachHandle db.old (StandsStill db.old db.new) }
    ensures pass { pass_of db.new ≡ pass_of db.old }
    ensures ends { IsDone db.old db.new result }
{
    of_done(db.sync())
}
