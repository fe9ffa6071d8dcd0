// A table that is looked through.
ghost use Rattle.std.specs.Prelude.{◌≡◌, ℕ, ◌∷◌, [], Err, IfOk, length};
ghost use Rattle.dbm_fault.specs.Among.{IsErrAmong};
ghost use Rattle.dbm_file.specs.Database.{store_of, page_state};
ghost use Rattle.dbm_file.specs.Verifying.{IsFileOf};

use dbm_fault::{EngineFault, Fault};
use dbm_file::{Database, Flaw, Watch};
use dbm_progress::{Progress, Work};
use page_io::PageStore;
use std::alloc::{AllocError, Global};

/// Tells a progress each bucket that was looked at.
#[derive(Drop)]
struct Steps<'a, P> {
    progress: &'a mut P,
}

impl<P: Progress> Watch for Steps<'_, P> {
    ghost has_told = { λ steps told. Unit {0} };

    fn bucket(&mut self) {
        self.progress.step(Work::BucketsVerified);
    }

    fn flaw(&mut self, _flaw: Flaw) {}
}

/// Reads every page of a table, and answers how many pairs it has. Each bucket is a step of the
/// progress, which is cleared at the end. `Memory` comes where there is none for a mark of each
/// page, before anything is read, and then the faults of `Database::verify`.
pub fn look_through<S: PageStore, P: Progress>(
    alloc: Global,
    db: &mut Database<S>,
    progress: &mut P,
) -> Result<u32, EngineFault>
    // So many pairs are answered only where the committed pages are a good file that has them.
    ensures good { S.honest (store_of db.new)
        → IfOk result (IsFileOf (S.committed (store_of db.new))) }
    ensures damaged { S.honest (store_of db.old)
        → result ≡ Err (EngineFault.Db Fault.Damaged) → (pairs : ℕ)
        → IsFileOf (S.committed (store_of db.old)) pairs → ⊥ }
    ensures only { IsErrAmong result (EngineFault.Memory ∷ EngineFault.Db Fault.Broken
        ∷ EngineFault.Db Fault.Device ∷ EngineFault.Db Fault.Damaged ∷ []) }
{
    let Ok(mut marks) = marks_of(alloc, db) else {
        return Err(EngineFault::Memory);
    };
    let looked = db.verify(&mut marks, &mut Steps { progress });
    progress.clear();
    match looked {
        Ok(pairs) => Ok(pairs),
        Err(fault) => Err(EngineFault::Db(fault)),
    }
}

/// A mark for each page of the file.
fn marks_of<S: PageStore>(alloc: Global, db: &Database<S>) -> Result<Vec<bool>, AllocError>
    ensures { IfOk result (λ marks. length marks.items ≡ (page_state db.now).end) }
{
    let pages = db.stat().pages as usize;
    Ok(vec![in alloc; false; pages]?)
}
