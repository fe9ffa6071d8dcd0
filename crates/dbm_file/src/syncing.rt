//! Bringing the pages of the last commit to their places.
ghost use Rattle.std.specs.Prelude.{◌≡◌, true, OnOk, [], ◌∷◌};
ghost use Rattle.dbm_fault.specs.Among.{IsErrAmong};

use crate::Fault;
use crate::database::{Database, refuse};
use page_io::PageStore;

impl<S: PageStore> Database<S> {
    ghost use Rattle.dbm_file.specs.Answers.{IsCallEnded};
    ghost use Rattle.dbm_file.specs.Database.{store_of, meta_kept, page_state, AtEachHandle};
    ghost use Rattle.dbm_file.specs.Passing.{pass_of};
    ghost use Rattle.dbm_file.specs.Syncing.{StandsStill};

    /// Puts the pages of the last commit in their places, as the next commit or `close` would. Each
    /// change that was acknowledged is safe before it; after it the file alone, with nothing that
    /// waits behind its end, is the database. A database opened for reading is left as it is. In
    /// this order: `Broken`; `Device`, and then the database is broken, and opening the device
    /// again finds the same pairs.
    pub fn sync(&mut self) -> Result<(), Fault>
        ensures home { S.honest (store_of self.old) → OnOk result
            ((page_state self.old).writable ≡ true → S.at_home (store_of self.new)) }
        ensures stays { AtEachHandle self.old (StandsStill self.old self.new) }
        ensures numbers { (meta_kept self.new ≡ meta_kept self.old)
            × ((page_state self.new).end ≡ (page_state self.old).end) }
        ensures pass { pass_of self.new ≡ pass_of self.old }
        ensures keeps { IsCallEnded self.old self.new result }
        ensures only { IsErrAmong result (Fault.Broken ∷ Fault.Device ∷ []) }
    {
        match self.store.settle() {
            Ok(()) => Ok(()),
            Err(fault) => refuse(&mut self.error, Fault::from(fault)),
        }
    }
}
