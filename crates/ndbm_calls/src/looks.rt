// Whether the file is a good one.
ghost use Rattle.std.specs.Prelude.{◌≡◌, ℕ, length, pos, IfOk};
ghost use Rattle.dbm_model.specs.Calls.{Damaged};
ghost use Rattle.dbm_file.specs.Database.{store_of, page_state, AtEachHandle};
ghost use Rattle.dbm_file.specs.Verifying.{IsFileOf, IsReadThrough, StaysAt};
ghost use Rattle.ndbm_calls.specs.Statuses.{refusal_of};
ghost use Rattle.ndbm_calls.specs.Verdicts.{IsVerdict};

use crate::status::refusal;
use dbm_file::{Database, Fault, Unwatched};
use page_io::PageStore;
use std::alloc::{AllocError, Global};

/// Reads every page of the file: 0 where it is good. The status of `Memory` where there is none for
/// a mark of each page, else the faults are those of `Database::verify`.
pub fn verify<S: PageStore>(alloc: Global, db: &mut Database<S>) -> i32
    ensures good { S.honest (store_of db.old) → result ≡ pos 0
        → (pairs : ℕ) × IsFileOf (S.committed (store_of db.old)) pairs }
    ensures damaged { S.honest (store_of db.old) → result ≡ refusal_of Damaged → (pairs : ℕ)
        → IsFileOf (S.committed (store_of db.old)) pairs → ⊥ }
    ensures stays { AtEachHandle db.old (StaysAt db.old db.new) }
    ensures read { IsReadThrough db.old db.new }
    ensures verdict { IsVerdict db.old db.new result }
{
    let Ok(mut marks) = marks_of(alloc, db) else {
        return refusal(Fault::Memory);
    };
    match db.verify(&mut marks, &mut Unwatched) {
        Ok(_) => 0,
        Err(fault) => refusal(fault),
    }
}

/// A mark for each page of the file.
fn marks_of<S: PageStore>(alloc: Global, db: &Database<S>) -> Result<Vec<bool>, AllocError>
    ensures { IfOk result (λ marks. length marks.items ≡ (page_state db.now).end) }
{
    let pages = db.stat().pages as usize;
    Ok(vec![in alloc; false; pages]?)
}
