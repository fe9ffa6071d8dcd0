// A store of pages in memory over the pages of another one.
ghost use Rattle.std.specs.Prelude.{◌≡◌, [], true, Some, ◌↔◌, IfSome};
ghost use Rattle.page_io.specs.Views.{ReadsOnly};
ghost use Rattle.page_io.specs.Store.{IsReady};
ghost use Rattle.page_group.specs.Ending.{IsCommit};
ghost use Rattle.page_group.specs.Group.{changed_count};

mod page_store;

use crate::Loan;
use crate::changed_pages::ChangedPages;
use crate::changes::Changes;
use page_io::{PageFault, PageStore, StagedPages};
use std::alloc::Global;
use std::marker::{Model, PhantomData};
use std::snapshot::Snapshot;

/// A store of pages in memory. It begins with the committed pages of a store, the base, which it
/// borrows and reads. Its commits leave the base alone.
#[derive(Drop)]
pub struct GroupPages<'a, S: PageStore, L: Loan<S>> {
    base: &'a mut S,
    // The base as it was when the group began.
    first: Snapshot<S>,
    held: Changes,
    loan: PhantomData<L>,
}

impl<'a, S: PageStore, L: Loan<S>> Model for GroupPages<'a, S, L> {
    ghost use Rattle.std.specs.Prelude.{◌≡◌, Some};
    ghost use Rattle.std.specs.Coded.{codes};
    ghost use Rattle.page_group.specs.contracts.changes.Changes as changes;
    ghost use Rattle.page_group.specs.Over.{Over, IsOver};

    ghost Value = { Over S };

    ghost coded = { Prim.hlevel (codes, changes.the_row.coded) };

    ghost view = { λ g. record { first = g.first.value; base = g.base.now; held = g.held } };

    ghost invariant = { λ g. (g.base.ghost_name ≡ L.name) × (L.began ≡ Some g.first.value)
        × IsOver S.PageStore g.first.value g.base.now g.held };
}

/// What a group leaves at its end.
#[derive(Drop)]
pub struct GroupEnd<'a, S: PageStore> {
    /// The store that was lent.
    pub base: &'a mut S,
    /// Whether all pages that were changed are committed there.
    pub done: Result<bool, PageFault>,
}

impl<'a, S: PageStore, L: Loan<S>> GroupPages<'a, S, L> {
    /// A group over this store's committed pages, none of which is changed yet. It takes no memory.
    pub fn over(alloc: Global, base: &'a mut S) -> GroupPages<'a, S, L>
        requires same { base.ghost_name ≡ L.name }
        requires lent { L.began ≡ Some base.old }
        requires ready { IsReady (S.state base.old) }
        ensures state { ⟦<GroupPages<'a, S, L> as PageStore>⟧.state result
            ≡ record {
              staged = [];
              end = (S.state base.old).end;
              capacity = (S.state base.old).capacity;
              usable = true;
              writable = true;
              base = S.committed base.old;
            } }
        ensures committed { ⟦<GroupPages<'a, S, L> as PageStore>⟧.committed result
            ≡ S.committed base.old }
        ensures honesty { ⟦<GroupPages<'a, S, L> as PageStore>⟧.honest result ↔ S.honest base.old }
        ensures faults { ⟦<GroupPages<'a, S, L> as PageStore>⟧.faults result ≡ S.faults base.old }
        ensures held { changed_count result ≡ 0 }
    {
        let held = Changes {
            changed: ChangedPages::new(alloc),
            staged: StagedPages::new(alloc),
            end: base.end(),
            capacity: base.capacity(),
            usable: true,
        };
        GroupPages {
            first: Snapshot::of(base),
            held,
            loan: PhantomData,
            base,
        }
    }

    /// How many pages are held, the changed ones.
    pub fn held(&self) -> usize
        ensures { result ≡ changed_count self.now }
    {
        self.held.changed.count()
    }

    /// Gives the base back, and forgets what was changed.
    pub fn into_base(self) -> &'a mut S
        ensures same { result.ghost_name ≡ L.name }
        ensures reads { IfSome L.began (λ first. ReadsOnly S.PageStore first result.now) }
        ensures faults { (⟦<GroupPages<'a, S, L> as PageStore>⟧.state self.entry).usable ≡ true
            → S.faults result.now ≡ ⟦<GroupPages<'a, S, L> as PageStore>⟧.faults self.entry }
    {
        let GroupPages { base, .. } = self;
        base
    }

    /// Commits all pages that were changed to the base, in one commit, and gives it back. Where
    /// they aren't committed, for want of memory or of room or because there is none, nothing has
    /// changed there.
    pub fn commit_all(self) -> GroupEnd<'a, S>
        requires usable { (⟦<GroupPages<'a, S, L> as PageStore>⟧.state self).usable ≡ true }
        ensures same { result.base.ghost_name ≡ L.name }
        ensures commits { IfSome L.began (λ first. IsCommit S.PageStore first result.base.now
            (⟦<GroupPages<'a, S, L> as PageStore>⟧.committed self.entry)
            (⟦<GroupPages<'a, S, L> as PageStore>⟧.state self.entry).end result.done) }
    {
        let GroupPages { base, held, .. } = self;
        let done = held.changed.commit_into(base, held.end);
        GroupEnd { base, done }
    }
}
