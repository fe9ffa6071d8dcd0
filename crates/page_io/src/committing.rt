//! The end of a change: one commit, or nothing.

ghost use Rattle.std.specs.Prelude.{◌≡◌, ◌⊎◌, ◌↔◌, ◌≤◌, [], Err, true, IsOkAnd, IfOk, IfErr, OnOk, OnErr};
ghost use Rattle.sect_dev.specs.Device.{LeavesOnly};
ghost use Rattle.page_io.specs.Answers.{HasDeviceCause, IsCommitAnswer};
ghost use Rattle.page_io.specs.Store.{file_of, committed_with};
ghost use Rattle.page_io.specs.Committing.{MayCommit, IsForgotten, IsUntouched};

use crate::{PageFault, PageStore};

/// Commits what a change has staged, where the file then ends as it says. Where it was refused, or
/// the commit is, nothing stays staged.
pub fn finish<S: PageStore>(store: &mut S, staged: Result<u32, PageFault>) -> Result<(), PageFault>
    requires { IfOk staged (MayCommit (S.state store.old)) }
    ensures ok { IfOk staged (λ end.
        OnOk result (S.state store.new
        ≡ record (S.state store.old) { staged = []; end = end })) }
    ensures err { IfErr result (IsForgotten (S.state store.old) (S.state store.new)) }
    ensures refused { IfErr staged
        (λ e. (result ≡ Err e) × (S.state store.new ≡ record (S.state store.old) { staged = [] })) }
    ensures answer { IfOk staged (λ end. IsCommitAnswer (S.state store.old) end result) }
    ensures cause { IfOk staged (λ _.
        HasDeviceCause (S.faults store.old) (S.faults store.new) result) }
    ensures later { S.faults store.old ≤ S.faults store.new }
    ensures honesty { S.honest store.new ↔ S.honest store.old }
    ensures committed { S.honest store.old
        → IfOk staged (λ end. OnOk result
        (S.committed store.new ≡ committed_with (S.committed store.old)
        (S.state store.old).staged end)) }

    // A refusal that leaves the store usable has written nothing and synced nothing.
    ensures kept { S.honest store.old → OnErr result ((S.state store.new).usable ≡ true
        → IsUntouched S.PageStore store.old store.new) }
    ensures any_moment { S.honest store.old → (S.state store.old).usable ≡ true
        → (S.state store.old).writable ≡ true
        → LeavesOnly S.moment S.settled_since store.old store.new
        (λ settled. (settled ≡ file_of (S.committed store.old))
        ⊎ IsOkAnd staged (λ end. settled
        ≡ file_of (committed_with (S.committed store.old)
        (S.state store.old).staged end))) }
    ensures unchanged { S.honest store.old → (S.state store.old).usable ≡ true
        → (S.state store.old).writable ≡ true → OnErr result ((S.state store.new).usable ≡ true →
        LeavesOnly S.moment S.settled_since store.old store.new
        (λ settled. settled ≡ file_of (S.committed store.old))) }
{
    let done = match staged {
        Ok(end) => store.commit(end),
        Err(fault) => Err(fault),
    };
    if done.is_err() {
        store.unstage();
    }
    done
}
