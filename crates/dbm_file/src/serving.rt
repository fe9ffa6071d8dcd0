//! Serving the device below a database.
ghost use Rattle.std.specs.Prelude.{◌≡◌};
ghost use Rattle.sect_dev.specs.Serving.{IsTrueOf, listed_after};

use crate::Database;
use page_io::ServedStore;
use sect_dev::Told;
use std::alloc::AllocError;

impl<S: ServedStore> Database<S> {
    ghost use Rattle.dbm_file.specs.Database.{store_of, AtEachHandle};
    ghost use Rattle.dbm_file.specs.Verifying.{IsReadThrough, StaysAt};

    /// Tells the device below something, which changes nothing that the database holds; or says that
    /// there is no memory for it, which is no fault of the database.
    pub fn tell(&mut self, told: &Told) -> Result<(), AllocError>
        requires { S.honest (store_of self.old) → IsTrueOf (S.shows (store_of self.old)) told.now }
        ensures listed { S.listed (store_of self.new)
            ≡ listed_after told.now (S.listed (store_of self.old)) }
        ensures shows { S.honest (store_of self.old)
            → S.shows (store_of self.new) ≡ S.shows (store_of self.old) }
        ensures stays { AtEachHandle self.old (StaysAt self.old self.new) }
        ensures read { IsReadThrough self.old self.new }
        ensures faults { S.faults (store_of self.new) ≡ S.faults (store_of self.old) }
    {
        self.store.tell(told)
    }
}
