//! Stores of many pairs in one commit.
ghost use Rattle.std.specs.Prelude.{◌≡◌, ◌↔◌, ◌≤◌, true, false, Some, Ok, Err, IfOk, IfErr, length, map, take, [], ◌∷◌};
ghost use Rattle.dbm_fault.specs.Among.{IsErrAmong};
ghost use Rattle.page_io.specs.Store.{IsReady};
ghost use Rattle.page_model.specs.Valid.{IsMeta};
ghost use Rattle.seg_table.specs.MetaPages.{model_meta};
ghost use Rattle.dbm_file.specs.Answers.{IsSameDatabase};
ghost use Rattle.dbm_file.specs.Database.{page_state, AtEachHandle};
ghost use Rattle.dbm_file.specs.GroupsInMemory.{IsBegun, BeginsAt, IsDeviceEnd, StoresOne, StoresMany, IsLeft, EndsLent};
ghost use Rattle.dbm_file.specs.Pairs.{pair_of};

use crate::database::{Database, refuse};
use crate::pass::Pass;
use crate::{Fault, Pair, StoreMode};
use bucket_chain::{NearContent, RankedPage};
use page_group::{GroupEnd, GroupPages, Loan};
use page_io::{Page, PageFault, PageStore};
use seg_table::Meta;
use std::alloc::Global;
use std::marker::Brand;

/// How many pages a group may change in memory before it ends, 32 MB of them.
const GROUP_PAGES: usize = 16_384;

impl<S: PageStore> Database<S> {
    ghost use Rattle.dbm_file.specs.Answers.{IsCallEnded};
    ghost use Rattle.dbm_file.specs.Groups.{GroupEnds};
    ghost use Rattle.dbm_file.specs.Passing.{pass_of};
    ghost use Rattle.dbm_file.specs.Trying.{with_error_of};

    /// Stores pairs in one commit, each in the place of its key's where that is there, and answers
    /// how many: those from the first one on up to the first that a store alone might refuse, or
    /// that changes more than 32 MB of pages with the others, or takes more memory than there is.
    /// So it may be none, and the next one is then for `store`. In this order: `Broken`;
    /// `ReadOnly`; `Device` while pages are read or in the commit. Where the commit fails, the
    /// database is broken, and opening the device again settles whether all of them are there or
    /// none.
    pub fn store_many(&mut self, pairs: &[Pair]) -> Result<usize, Fault>
        ensures ends { AtEachHandle self.old (λ h.
            GroupEnds self.old self.new h (map pair_of pairs.now) result) }
        ensures within { IfOk result (λ stored. stored ≤ length pairs.now) }
        ensures read_only { (result ≡ Err Fault.ReadOnly)
            ↔ (((page_state self.old).usable ≡ true) × ((page_state self.old).writable ≡ false)) }
        ensures pass { pass_of self.new ≡ pass_of self.old }
        ensures keeps { IsCallEnded self.old self.new result }
        ensures only { IsErrAmong result (Fault.Broken ∷ Fault.ReadOnly ∷ Fault.Device ∷ []) }
    {
        if self.store.is_broken() {
            return refuse(&mut self.error, Fault::Broken);
        }
        if !self.writable {
            return refuse(&mut self.error, Fault::ReadOnly);
        }
        match self.store_group(pairs) {
            Ok(stored) => Ok(stored),
            Err(fault) => refuse(&mut self.error, fault),
        }
    }

    // `store_many` on a database that may be changed, with no look at the error.
    fn store_group(&mut self, pairs: &[Pair]) -> Result<usize, Fault>
        requires usable { (page_state self.old).usable ≡ true }
        requires writable { (page_state self.old).writable ≡ true }
        ensures ends { AtEachHandle self.old (λ h.
            GroupEnds self.old (with_error_of self.new result) h (map pair_of pairs.now) result) }
        ensures within { IfOk result (λ stored. stored ≤ length pairs.now) }
        ensures pass { pass_of self.new ≡ pass_of self.old }
        ensures keeps { IsCallEnded self.old (with_error_of self.new result) result }
        ensures only { IfErr result (λ fault. fault ≡ Fault.Device) }
    {
        let Grouped { stored, .. } = store_lent::<S, Brand>(
            self.alloc,
            &mut self.store,
            &mut self.meta,
            pairs,
        );
        stored
    }
}

// What became of a group.
#[derive(Drop)]
struct Grouped<'a, S: PageStore> {
    // The store that was lent.
    base: &'a mut S,
    // How many pairs were committed.
    stored: Result<usize, Fault>,
}

// Stores pairs in a group over this store, and commits them. Where they are, the meta page is then
// the new one.
fn store_lent<'a, S: PageStore, L: Loan<S>>(
    alloc: Global,
    base: &'a mut S,
    meta: &mut Meta,
    pairs: &[Pair],
) -> Grouped<'a, S>
    requires same { base.ghost_name ≡ L.name }
    requires lent { L.began ≡ Some base.old }
    requires ready { IsReady (S.state base.old) }
    requires valid { IsMeta (model_meta meta.old) }
    ensures same { result.base.ghost_name ≡ base.entry.ghost_name }
    ensures ends { EndsLent S.PageStore base.old result.base.now meta.old meta.new
        (map pair_of pairs.now) result.stored }
    ensures left { IsLeft S.PageStore base.old result.base.now (model_meta meta.old)
        (model_meta meta.new) (length pairs.now) result.stored }
{
    let mut group: Database<GroupPages<'a, S, L>> = group_over(alloc, base, meta);
    let filled = fill(&mut group, pairs);
    let Database {
        store,
        meta: grouped,
        ..
    } = group;
    match filled {
        Ok(count) if !store.is_broken() => {
            let GroupEnd { base, done } = store.commit_all();
            match done {
                Ok(true) => {
                    *meta = grouped;
                    Grouped {
                        base,
                        stored: Ok(count),
                    }
                }
                Ok(false) => Grouped {
                    base,
                    stored: Ok(0),
                },
                Err(fault) => Grouped {
                    base,
                    stored: Err(Fault::from(fault)),
                },
            }
        }
        Ok(_) => Grouped {
            base: store.into_base(),
            stored: Ok(0),
        },
        Err(fault) => Grouped {
            base: store.into_base(),
            stored: Err(Fault::from(fault)),
        },
    }
}

// A database in memory over the pages of this store, to which this meta page belongs.
fn group_over<'a, S: PageStore, L: Loan<S>>(
    alloc: Global,
    base: &'a mut S,
    meta: &Meta,
) -> Database<GroupPages<'a, S, L>>
    requires same { base.ghost_name ≡ L.name }
    requires lent { L.began ≡ Some base.old }
    requires ready { IsReady (S.state base.old) }
    requires valid { IsMeta (model_meta meta.now) }
    ensures begins { IsBegun S.PageStore base.old (model_meta meta.now) result }
    ensures is_at { BeginsAt S.PageStore base.old (model_meta meta.now) result }
{
    Database {
        store: GroupPages::over(alloc, base),
        meta: meta.copied(),
        page: Page::blank(),
        near: NearContent::new(),
        far: Vec::new(alloc),
        error: None,
        pass: Pass::NotBegun,
        ranked: RankedPage::new(),
        writable: true,
        alloc,
    }
}

// Stores pairs in the group, from the first one on, and answers how many it has taken.
fn fill<S: PageStore, L: Loan<S>>(
    group: &mut Database<GroupPages<'_, S, L>>,
    pairs: &[Pair],
) -> Result<usize, PageFault>
    ensures goes { IsSameDatabase group.old group.new }
    ensures stored { IfOk result (λ stored.
        StoresMany group.old group.new (map pair_of (take stored pairs.now))) }
    ensures within { IfOk result (λ stored. stored ≤ length pairs.now) }
    ensures device { IfErr result (IsDeviceEnd group.old group.new) }
{
    for (count, pair) in pairs.iter().enumerate() {
        if group.store.held() >= GROUP_PAGES {
            return Ok(count);
        }
        if !store_in(group, pair)? {
            return Ok(count);
        }
    }
    Ok(pairs.len())
}

// Stores a pair in the group. Where the group can't take it, nothing has changed there.
fn store_in<S: PageStore, L: Loan<S>>(
    group: &mut Database<GroupPages<'_, S, L>>,
    pair: &Pair,
) -> Result<bool, PageFault>
    ensures goes { IsSameDatabase group.old group.new }
    ensures stored { IfOk result (StoresOne group.old group.new (pair_of pair.now)) }
    ensures device { IfErr result (IsDeviceEnd group.old group.new) }
{
    match group.store(&pair.key, &pair.content, StoreMode::Replace) {
        Ok(_) => Ok(true),
        Err(Fault::Device) if !group.store.is_broken() => Err(PageFault::Device),
        Err(_) => Ok(false),
    }
}
