//! A pass over all keys.

use crate::Fault;
use crate::database::{Database, refuse};
use crate::pass::{MAX_PAIR, Pass};
use linear_hash::next_pair;
use page_io::PageStore;
use slot_page::pair_at;

impl<S: PageStore> Database<S> {
    ghost use Rattle.std.specs.Prelude.{◌≡◌, ◌≢◌, ◌⊎◌, ◌↔◌, ◌≤◌, IfOk, IfSome, Err, length, true, ◌∷◌, []};
    ghost use Rattle.std.specs.Borrow.{sem};
    ghost use Rattle.dbm_model.specs.Calls.{Call, First, Next, End};
    ghost use Rattle.dbm_model.specs.States.{NotBegun, Begun, Behind};
    ghost use Rattle.dbm_model.specs.Steps.{Passes, IsAhead, case_of};
    ghost use Rattle.dbm_fault.specs.Among.{IsErrAmong};
    ghost use Rattle.linear_hash.specs.Passing.{IsPassed};
    ghost use Rattle.bucket_chain.specs.Leasts.{IsAheadAt};
    ghost use Rattle.page_io.specs.Views.{body_at};
    ghost use Rattle.dbm_file.specs.Answers.{IsStep, IsCallEnded};
    ghost use Rattle.dbm_file.specs.Calls.{lent_reply, seen};
    ghost use Rattle.dbm_file.specs.Database.{store_of, meta_kept, page_state, error_of, AtEachHandle};
    ghost use Rattle.dbm_file.specs.Ending.{EndsAs};
    ghost use Rattle.dbm_file.specs.Lending.{Lends};
    ghost use Rattle.dbm_file.specs.Passing.{pass_of, pass_from, pass_at};
    ghost use Rattle.dbm_file.specs.Replies.{read_faults, next_faults};
    ghost use Rattle.dbm_file.specs.Searches.{Passed, WentOn, LacksPass};
    ghost use Rattle.dbm_file.specs.Trying.{slot_reply};

    /// Begins a pass over all keys, and gives the first one, or `None` where there is none (POSIX:
    /// `dbm_firstkey`). Keys come in the order of their hashes' bits from the lowest up, then by
    /// bytes. The slice lies in the database, and ends with the next call. It is never refused for
    /// memory. In this order: `Broken`; then `Device` or `Damaged` while pages are read. Where it
    /// is refused, a pass that was on stays.
    pub fn firstkey(&mut self) -> Result<Option<&[u8]>, Fault>
        ensures* after { sem 𝓛 (EndsAs S.row S.PageStore self.entry
            (Lends First (lent_reply End) self.old result)) }
        ensures short { IfOk result (λ r. IfSome r (λ key. length key.now ≤ 2026)) }

        // On any file the buckets were read from the first one on.
        ensures passed { IfOk result (λ found. Passed self.old Begun (seen found)) }
        ensures only { IsErrAmong result read_faults }
    {
        if self.store.is_broken() {
            return refuse(&mut self.error, Fault::Broken);
        }
        match self.advance(true) {
            Ok(Some(slot)) => Ok(Some(pair_at(self.ranked.page(), slot).0)),
            Ok(None) => Ok(None),
            Err(fault) => Err(fault),
        }
    }

    /// The next key of the pass: of those that are there now, the first one behind the last that it
    /// gave, or `None` where there is none (POSIX: `dbm_nextkey`, which needs a new `dbm_firstkey`
    /// after a change; this one goes on). The slice lies in the database, and ends with the next
    /// call. It is never refused for memory. In this order: `Broken`; `NoPass` where no pass was
    /// begun since the opening; then `Device` or `Damaged` while pages are read. A refusal leaves
    /// the pass where it is.
    pub fn nextkey(&mut self) -> Result<Option<&[u8]>, Fault>
        ensures* after { sem 𝓛 (EndsAs S.row S.PageStore self.entry
            (Lends Next (lent_reply End) self.old result)) }
        ensures short { IfOk result (λ r. IfSome r (λ key. length key.now ≤ 2026)) }

        // On any file the buckets were read from where the pass stood.
        ensures passed { IfOk result (λ found. WentOn self.old (seen found)) }

        // On any bytes a key is behind the place where the pass stood.
        ensures ahead { IfOk result (λ found.
            IfSome found (λ key. IsAhead (pass_of self.old) key.now)) }
        ensures no_pass { (result ≡ Err Fault.NoPass) ↔ LacksPass self.old }
        ensures only { IsErrAmong result next_faults }
    {
        if self.store.is_broken() {
            return refuse(&mut self.error, Fault::Broken);
        }
        if !self.pass.is_begun() {
            return refuse(&mut self.error, Fault::NoPass);
        }
        match self.advance(false) {
            Ok(Some(slot)) => Ok(Some(pair_at(self.ranked.page(), slot).0)),
            Ok(None) => Ok(None),
            Err(fault) => Err(fault),
        }
    }

    /// Has the pass stand behind this key, as if it had been the last one given. A key that is longer
    /// than one may be leaves the pass. No device call is made.
    pub fn resume(&mut self, key: &[u8])
        ensures still { (store_of self.new ≡ store_of self.old)
            × (meta_kept self.new ≡ meta_kept self.old)
            × (error_of self.new ≡ error_of self.old) }
        ensures behind { length key.now ≤ 2026 → pass_of self.new ≡ Behind key.now }
    {
        if key.len() <= MAX_PAIR {
            self.pass.go_behind(key);
        }
    }

    // Moves the pass behind its next key, whose slot in the page is given; a pass is begun, or the
    // one that is on goes on. A refusal leaves the pass where it is, and the first fault is kept.
    fn advance(&mut self, begins: bool) -> Result<Option<usize>, Fault>
        requires usable { (page_state self.old).usable ≡ true }
        requires begun { (begins ≡ true) ⊎ (pass_of self.old ≢ NotBegun) }
        ensures step { AtEachHandle self.old (λ h.
            (call : Call) → case_of h call ≡ Passes (pass_from begins self.old)
            → IsStep self.old self.new h call (slot_reply self.new.ranked result)) }
        ensures ahead { IfOk result (λ found. IfSome found (λ slot.
            IsAheadAt (pass_from begins self.old) self.new.ranked slot)) }
        ensures stands { IfOk result (λ found.
            pass_of self.new ≡ pass_at (pass_from begins self.old) self.new.ranked found) }
        ensures passed { S.honest (store_of self.old)
            → IfOk result (IsPassed (body_at S.PageStore (store_of self.old)) (meta_kept self.old)
            (pass_from begins self.old) self.new.ranked) }
        ensures keeps { IsCallEnded self.old self.new result }
        ensures only { IsErrAmong result (Fault.Device ∷ Fault.Damaged ∷ []) }
    {
        let last = self.pass.last(begins);
        match next_pair(
            &mut self.store,
            &self.meta,
            last,
            &mut self.page,
            &mut self.ranked,
        ) {
            Ok(Some(slot)) => {
                self.pass.go_behind(pair_at(self.ranked.page(), slot).0);
                Ok(Some(slot))
            }
            Ok(None) if begins => {
                self.pass = Pass::Begun;
                Ok(None)
            }
            Ok(None) => Ok(None),
            Err(fault) => refuse(&mut self.error, Fault::from(fault)),
        }
    }
}
