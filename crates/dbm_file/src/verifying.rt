// Whether the file is a good one.
ghost use Rattle.std.specs.Prelude.{◌≡◌, ◌↔◌, ◌≤◌, ℕ, false, true, length, Err, IfOk};

use crate::{Database, Fault};
use file_check::{Watch, verify};
use page_io::PageStore;

impl<S: PageStore> Database<S> {
    ghost use Rattle.std.specs.FinMap.{len};
    ghost use Rattle.sect_dev.specs.Device.{MoreFaults};
    ghost use Rattle.file_check.specs.Flaws.{IsTold};
    ghost use Rattle.dbm_fault.specs.Among.{IsErrAmong};
    ghost use Rattle.dbm_file.specs.Database.{store_of, page_state, AtEachHandle};
    ghost use Rattle.dbm_file.specs.Replies.{read_faults};
    ghost use Rattle.dbm_file.specs.Verifying.{IsFileOf, StandsWith, IsReadThrough, StaysAt};

    /// Reads every page of the file, and answers how many pairs it has. It takes no memory: the
    /// caller lends a mark for each page, whatever they hold, and after it they are unspecified.
    /// Neither the first fault nor a pass that is on changes. In this order: `Broken`; then
    /// `Device`, or `Damaged` where it is no good file: where a page doesn't say what the format
    /// asks of it or stands in two places or in none, a pair is in another bucket than its key's, a
    /// key stands there twice, a count is wrong, or there are more pages than the limit asks for.
    /// Each bucket that was looked at is told to `watch`, and where the file is no good one, the
    /// first page that breaks a rule, with the rule (`Unwatched` does nothing with it).
    pub fn verify<W: Watch>(&mut self, marks: &mut [bool], watch: &mut W) -> Result<u32, Fault>
        requires { (page_state self.old).end ≤ length marks.old }

        // It says how many pairs there are exactly where the committed pages are a good file, and
        // that it is damaged only where they are none.
        ensures good { S.honest (store_of self.old)
            → IfOk result (IsFileOf (S.committed (store_of self.old))) }
        ensures damaged { S.honest (store_of self.old) → result ≡ Err Fault.Damaged → (pairs : ℕ)
            → IsFileOf (S.committed (store_of self.old)) pairs → ⊥ }

        // Where it was opened for writing, each image that a stop may leave then stands for the map
        // of these pairs: an opening may begin from it, wherever the file came from.
        ensures begins { S.honest (store_of self.old) → (page_state self.old).writable ≡ true
            → IfOk result (StandsWith self.new) }

        // So it never calls what these calls have made damaged, and counts their pairs.
        ensures counts { AtEachHandle self.old (λ h. h.state.usable ≡ true
            → IfOk result (λ pairs. pairs ≡ len h.state.map)
            × (result ≡ Err Fault.Damaged → ⊥)) }
        ensures stays { AtEachHandle self.old (StaysAt self.old self.new) }
        ensures read { IsReadThrough self.old self.new }
        ensures broken { (result ≡ Err Fault.Broken) ↔ ((page_state self.old).usable ≡ false) }
        ensures device { result ≡ Err Fault.Device
            → MoreFaults (S.faults (store_of self.old)) (S.faults (store_of self.new)) }
        ensures only { IsErrAmong result read_faults }

        // A flaw was told exactly where it says that the file is damaged.
        ensures told { IsTold (result ≡ Err Fault.Damaged) (W.has_told watch.old)
            (W.has_told watch.new) }
    {
        if self.store.is_broken() {
            return Err(Fault::Broken);
        }
        Ok(verify(&mut self.store, marks, watch)?)
    }
}
