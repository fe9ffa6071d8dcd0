// Pairs that are stored in one commit.
ghost use Rattle.std.specs.Prelude.{◌≡◌, ◌≢◌, ◌++◌, ◌∷◌, [], is_ok, if◌then◌else◌, pos};
ghost use Rattle.dbm_file.specs.Database.{AtEachHandle};
ghost use Rattle.dbm_file.specs.Passing.{pass_of};
ghost use Rattle.ndbm_calls.specs.Groups.{pairs_in, IsAdded, IsGroupTold};
ghost use Rattle.ndbm_calls.specs.Statuses.{IsDone};

use crate::status::refusal;
use dbm_file::{Database, Fault, Pair};
use page_io::PageStore;
use std::alloc::{AllocError, Global};

/// Pairs that are to be stored.
#[derive(Drop)]
pub struct Group {
    pub(crate) pairs: Vec<Pair>,
    alloc: Global,
}

impl Group {
    /// With no pair.
    pub fn new(alloc: Global) -> Group
        ensures { pairs_in result ≡ [] }
    {
        Group {
            pairs: Vec::new(alloc),
            alloc,
        }
    }

    /// Puts a copy of a pair behind the others: 0, or the status of `Memory` where there is none
    /// for it, and then the others stay.
    pub fn add(&mut self, key: &[u8], content: &[u8]) -> i32
        ensures { IsAdded (pairs_in self.old) (pairs_in self.new) (key.now, content.now) result }
    {
        match self.push(key, content) {
            Ok(()) => 0,
            Err(_) => refusal(Fault::Memory),
        }
    }

    // `add` with Rust's answer.
    fn push(&mut self, key: &[u8], content: &[u8]) -> Result<(), AllocError>
        ensures { pairs_in self.new ≡ (if is_ok result
            then pairs_in self.old ++ (key.now, content.now) ∷ [] else pairs_in self.old) }
    {
        let key = Vec::from_slice(self.alloc, key)?;
        let content = Vec::from_slice(self.alloc, content)?;
        self.pairs.push(Pair { key, content })?;
        Ok(())
    }

    /// Stores the pairs in one commit, and forgets them: 0, and `stored` tells how many are there,
    /// from the first one on. The faults are those of `Database::store_many`.
    pub fn store<S: PageStore>(&mut self, db: &mut Database<S>, stored: &mut usize) -> i32
        ensures step { AtEachHandle db.old (λ h.
            IsGroupTold db.old db.new h (pairs_in self.old) result stored.new) }
        ensures pass { pass_of db.new ≡ pass_of db.old }
        ensures ends { IsDone db.old db.new result }
        ensures untold { result ≢ pos 0 → stored.new ≡ stored.old }
        ensures forgotten { pairs_in self.new ≡ [] }
    {
        let answer = db.store_many(self.pairs.as_slice());
        self.pairs.clear();
        match answer {
            Ok(count) => {
                *stored = count;
                0
            }
            Err(fault) => refusal(fault),
        }
    }
}
