//! The pages that a store or a delete changes.

ghost use Rattle.std.specs.Prelude.{◌≡◌, ◌+◌, ◌-◌, ◌*◌, ◌<◌, ◌≤◌, ℕ, [], true, false, is_some, IfOk, OnOk, IsErrOf, length, nat_lt, if◌then◌else◌};
ghost use Rattle.std.specs.FinMap.{get};
ghost use Rattle.dbm_model.specs.Pairs.{IsAllowed};
ghost use Rattle.dbm_model.specs.Sizes.{pages_for};
ghost use Rattle.dbm_model.specs.Steps.{holds_far};
ghost use Rattle.page_model.specs.PairLists.{times};
ghost use Rattle.page_model.specs.Chain.{content_pages, pairs_in};
ghost use Rattle.page_model.specs.Placement.{pairs_of, contents, chain_at, delete, replace, store as stored, MayStore};
ghost use Rattle.page_model.specs.Pages.{MetaPage};
ghost use Rattle.page_model.specs.Valid.{IsMeta, meta_buckets};
ghost use Rattle.page_io.specs.Calls.{IsStagingCall};
ghost use Rattle.page_io.specs.Answers.{IsStageAnswer};
ghost use Rattle.page_io.specs.Versions.{model_version};
ghost use Rattle.page_io.specs.Views.{body_at, MayEnd};
ghost use Rattle.page_io.specs.declared.store.PageFault.TheVariants.{Memory, NoRoom, Damaged};
ghost use Rattle.free_pages.specs.FreeList.{HasEnds, KeepsEnds};
ghost use Rattle.seg_table.specs.MetaPages.{model_meta};
ghost use Rattle.bucket_chain.specs.Answers.{IsRemoveAnswer};
ghost use Rattle.bucket_chain.specs.AnyFile.{IsTakenOut};
ghost use Rattle.bucket_chain.specs.Changes.{BecomesPlaced, LacksFar, ForEachPlaced, remove_from};
ghost use Rattle.linear_hash.specs.AnyFile.{IsSplitWhere};
ghost use Rattle.linear_hash.specs.Changing.{IsDeleted, IsStored, PutIn, TookOut};
ghost use Rattle.linear_hash.specs.Tables.{space_in, shape_in, shape_for, split_where_full, ForEachTable};
ghost use Rattle.page_io.specs.Committing.{MayCommit};
ghost use Rattle.linear_hash.specs.Staging.{IsMidway, IsChangeAnswer, IsReplaceAnswer, IsDeleteAnswer, IsKept, IsNewEnd, LacksOnlyRoom, IsStaged, ForEachMidway, MayTakeMemory, TakesMemory, removal_pages};

use crate::splitting::split_bucket;
use bucket_chain::{put, remove};
use free_pages::FreeState;
use lin_addr::hash;
use page_io::{Page, PageFault, PageStore, Version};
use seg_table::{Meta, head_of, write_meta};
use std::alloc::Global;

/// How many pairs there may be to a bucket before one more is added.
const PER_BUCKET: u32 = 8;

/// The free pages and the end of the file.
fn space_of(meta: &Meta, file_end: u32) -> FreeState
    ensures { result ≡ space_in (model_meta meta.now) file_end }
{
    FreeState {
        head: meta.free_head,
        count: meta.free_count,
        file_end,
    }
}

/// Takes a key out of the chain from page `head` on, which is Damaged where it lacks the key.
fn take_out<S: PageStore>(
    store: &mut S,
    space: &mut FreeState,
    head: u32,
    key: &[u8],
    page: &mut Page,
    version: Version,
) -> Result<(), PageFault>
    ensures stages { IsStagingCall S.PageStore store.old store.new result }
    ensures few { length (S.state store.new).staged
        ≤ length (S.state store.old).staged + 1 + pages_for (model_version version) }
    ensures answer { IsRemoveAnswer S.reserved (pages_for (model_version version))
        (S.state store.old) result }
    ensures end { space.new.file_end ≡ space.old.file_end }
    ensures keeps { KeepsEnds (S.state store.old) (S.state store.new) space.old space.new result }
    ensures taken_out { S.honest store.old
        → OnOk result (IsTakenOut (model_version version) (body_at S.PageStore store.old)
        (body_at S.PageStore store.new) space.old space.new head key.now) }
    ensures exact { ForEachPlaced (model_version version) S.PageStore store.old space.old head
        (λ chain s. times key.now (pairs_in chain) ≤ 1
        → OnOk result (BecomesPlaced (body_at S.PageStore store.old)
        (body_at S.PageStore store.new) space.new (remove_from (chain, s) key.now))) }
    ensures whole { ForEachPlaced (model_version version) S.PageStore store.old space.old head
        (λ chain s. times key.now (pairs_in chain) ≡ 1 → IsErrOf result Damaged → ⊥) }
    ensures sparing { ForEachPlaced (model_version version) S.PageStore store.old space.old head
        (λ chain s. LacksFar key.now chain → IsRemoveAnswer S.reserved 1 (S.state store.old) result
        × (length (S.state store.new).staged ≤ length (S.state store.old).staged + 2)) }
{
    if remove(store, space, head, key, page, version)? {
        Ok(())
    } else {
        Err(PageFault::Damaged)
    }
}

/// Puts a pair into the chain of its bucket, in the place of its key's where that is there.
fn replace_pair<S: PageStore>(
    store: &mut S,
    meta: &Meta,
    space: &mut FreeState,
    key: &[u8],
    content: &[u8],
    was_there: bool,
) -> Result<(), PageFault>
    requires allowed { IsAllowed (model_version meta.now.version) (key.now, content.now) }
    requires valid { IsMeta (model_meta meta.now) }
    ensures stages { IsStagingCall S.PageStore store.old store.new result }
    ensures few { length (S.state store.new).staged ≤ length (S.state store.old).staged + 2
        + content_pages (key.now, content.now)
        + removal_pages (model_version meta.now.version) was_there }
    ensures answer { IsReplaceAnswer S.reserved (S.state store.old) space.old
        (content_pages (key.now, content.now))
        (removal_pages (model_version meta.now.version) was_there) result }
    ensures sparing { ForEachMidway S.PageStore store.old (model_meta meta.now) space.old (λ p.
        was_there ≡ is_some (get (contents p) key.now)
        → holds_far key.now (get (contents p) key.now) ≡ false
        → (IsErrOf result Memory → S.reserved ≤ length (S.state store.old).staged + 3
        + content_pages (key.now, content.now))
        × (length (S.state store.new).staged ≤ length (S.state store.old).staged + 4
        + content_pages (key.now, content.now))) }
    ensures keeps { KeepsEnds (S.state store.old) (S.state store.new) space.old space.new result }

    // On any file the pair is put into the chain of its bucket.
    ensures put_in { S.honest store.old
        → OnOk result (PutIn was_there (MayEnd (S.state store.old) space.old.file_end)
        (body_at S.PageStore store.old) (model_meta meta.now) space.old (key.now, content.now)
        (body_at S.PageStore store.new) space.new) }
    ensures exact { ForEachMidway S.PageStore store.old (model_meta meta.now) space.old (λ p.
        was_there ≡ is_some (get (contents p) key.now)
        → OnOk result (IsMidway (body_at S.PageStore store.new) (model_meta meta.now) space.new
        (replace p (key.now, content.now)))) }
    ensures whole { ForEachMidway S.PageStore store.old (model_meta meta.now) space.old (λ p.
        was_there ≡ is_some (get (contents p) key.now) → IsErrOf result Damaged → ⊥) }
{
    // Every page has a number of four bytes.
    prove!(space.file_end <= u32::MAX);
    let mut page = Page::blank();
    let head = head_of(store, meta, meta.shape.bucket(hash(key)), &mut page)?;
    if was_there {
        take_out(store, space, head, key, &mut page, meta.version)?;
    }
    put(store, space, head, key, content, &mut page, meta.version)
}

/// Splits one bucket where there are too many pairs.
fn split_if_full<S: PageStore>(
    alloc: Global,
    store: &mut S,
    meta: &mut Meta,
    space: &mut FreeState,
) -> Result<(), PageFault>
    requires valid { IsMeta (record
        (model_meta meta.old) { pairs = 0; free_head = 0; free_count = 0 }) }
    requires few { (meta.old.pairs ≤ meta.old.limit)
        × (meta.old.pairs ≤ 8 * meta_buckets (model_meta meta.old) + 1) }
    ensures stages { IsStagingCall S.PageStore store.old store.new result }
    ensures answer { IsChangeAnswer (S.state store.old) result }
    ensures memory { IsErrOf result Memory
        → 8 * meta_buckets (model_meta meta.old) < meta.old.pairs }
    ensures kept { OnOk result (IsKept (model_meta meta.old)
        (record (model_meta meta.new) { free_head = 0; free_count = 0 }) meta.old.pairs
        (shape_for meta.new.pairs (shape_in (model_meta meta.old)))) }
    ensures still { meta.old.pairs ≤ 8 * meta_buckets (model_meta meta.old)
        → (store.new ≡ store.old) × (model_meta meta.new ≡ model_meta meta.old)
        × (space.new ≡ space.old) }
    ensures splits { S.honest store.old
        → OnOk result (IsSplitWhere
        (nat_lt (8 * meta_buckets (model_meta meta.old)) meta.old.pairs)
        (MayEnd (S.state store.old) space.old.file_end) (body_at S.PageStore store.old)
        (body_at S.PageStore store.new) (model_meta meta.old) (model_meta meta.new) space.old
        space.new) }
    ensures keeps { KeepsEnds (S.state store.old) (S.state store.new) space.old space.new result }

    // Where the chain of the bucket that may be split has no more pages than the last commit's
    // file, it leaves the model's placement, lacks room only on a device that is no larger than
    // that placement, and is never Damaged.
    ensures exact { ForEachMidway S.PageStore store.old (model_meta meta.old) space.old (λ p.
        length (chain_at p p.shape.split) ≤ (S.state store.old).end
        → meta.old.pairs ≡ length (pairs_of p)
        → OnOk result (IsMidway (body_at S.PageStore store.new) (model_meta meta.new) space.new
        (split_where_full p)) × (IsErrOf result NoRoom
        → (S.state store.old).capacity ≤ (split_where_full p).space.end)) }
    ensures whole { ForEachMidway S.PageStore store.old (model_meta meta.old) space.old (λ p.
        length (chain_at p p.shape.split) ≤ (S.state store.old).end → IsErrOf result Damaged → ⊥) }
{
    if meta.pairs > PER_BUCKET * meta.shape.buckets() {
        split_bucket(alloc, store, meta, space)?;
    }
    Ok(())
}

/// Stages the meta page, and answers where the file ends.
fn stage_meta<S: PageStore>(
    store: &mut S,
    meta: &mut Meta,
    space: FreeState,
) -> Result<u32, PageFault>
    requires valid { IsMeta (record (model_meta meta.old) { free_head = 0; free_count = 0 }) }
    requires ends { HasEnds space }
    ensures stages { IsStagingCall S.PageStore store.old store.new result }
    ensures few { length (S.state store.new).staged ≤ length (S.state store.old).staged + 1 }
    ensures answer { IsStageAnswer S.reserved (S.state store.old) 1 result }
    ensures valid { IsMeta (model_meta meta.new) }
    ensures meta { model_meta meta.new
        ≡ record (model_meta meta.old) { free_head = space.head; free_count = space.count } }
    ensures end { IfOk result (λ end. end ≡ space.file_end) }
    ensures may_commit { MayEnd (S.state store.old) space.file_end
        → IfOk result (IsNewEnd (S.state store.old) (S.state store.new)) }
    ensures page { S.honest store.old
        → OnOk result (body_at S.PageStore store.new 1 ≡ MetaPage (model_meta meta.new)) }
    ensures others { S.honest store.old → (n : ℕ) → (n ≡ 1 → ⊥)
        → body_at S.PageStore store.new n ≡ body_at S.PageStore store.old n }
{
    meta.free_head = space.head;
    meta.free_count = space.count;
    let mut page = Page::blank();
    write_meta(meta, &mut page);
    store.stage(1, &page)?;
    Ok(space.file_end)
}

/// How many pairs a store adds.
fn added(was_there: bool) -> u32
    ensures { result ≡ (if was_there then 0 else 1) }
{
    if was_there { 0 } else { 1 }
}

/// Stages what a store of a pair changes, and answers where the file then ends. One bucket is split
/// where there would be more than eight pairs to a bucket.
pub fn stage_store<S: PageStore>(
    alloc: Global,
    store: &mut S,
    meta: &mut Meta,
    key: &[u8],
    content: &[u8],
    was_there: bool,
) -> Result<u32, PageFault>
    requires allowed { IsAllowed (model_version meta.old.version) (key.now, content.now) }
    requires idle { (S.state store.old).staged ≡ [] }
    requires valid { IsMeta (model_meta meta.old) }
    requires room { was_there ≡ false → meta.old.pairs < meta.old.limit }
    ensures stages { IsStagingCall S.PageStore store.old store.new result }
    ensures answer { IsChangeAnswer (S.state store.old) result }
    ensures memory { IsErrOf result Memory
        → MayTakeMemory (model_meta meta.old) was_there (key.now, content.now) }
    ensures sparing { ForEachTable S.PageStore store.old (model_meta meta.old) (λ p.
        was_there ≡ is_some (get (contents p) key.now) → IsErrOf result Memory
        → TakesMemory (model_meta meta.old) p was_there (key.now, content.now)) }
    ensures kept { OnOk result (IsKept (model_meta meta.old) (model_meta meta.new)
        (if was_there then meta.old.pairs else meta.old.pairs + 1)
        (shape_for meta.new.pairs (shape_in (model_meta meta.old)))) }
    ensures may_commit { IfOk result (IsNewEnd (S.state store.old) (S.state store.new)) }

    // On any file the pair is put into its bucket, and one is split where that is due.
    ensures stored { S.honest store.old
        → IfOk result (λ end. IsStored was_there (body_at S.PageStore store.old)
        (body_at S.PageStore store.new) (model_meta meta.old) (model_meta meta.new)
        (S.state store.old).end end (key.now, content.now)) }

    // On the pages of a good placement it leaves the model's, is never Damaged, and lacks room only
    // on a device that is no larger than the model's and the pages of the content.
    ensures exact { ForEachTable S.PageStore store.old (model_meta meta.old) (λ p.
        MayStore p (key.now, content.now) → was_there ≡ is_some (get (contents p) key.now)
        → IfOk result (λ end. IsStaged (body_at S.PageStore store.new) (model_meta meta.new) end
        (stored p (key.now, content.now)))) }
    ensures refused { ForEachTable S.PageStore store.old (model_meta meta.old) (λ p.
        was_there ≡ is_some (get (contents p) key.now) → LacksOnlyRoom (S.state store.old).capacity
        ((stored p (key.now, content.now)).space.end + content_pages (key.now, content.now))
        result) }
{
    let mut space = space_of(meta, store.end());
    replace_pair(store, meta, &mut space, key, content, was_there)?;
    meta.pairs += added(was_there);
    split_if_full(alloc, store, meta, &mut space)?;
    stage_meta(store, meta, space)
}

/// Takes a key out of the chain of its bucket, which is Damaged where it lacks the key.
fn remove_key<S: PageStore>(
    store: &mut S,
    meta: &Meta,
    space: &mut FreeState,
    key: &[u8],
) -> Result<(), PageFault>
    requires { IsMeta (model_meta meta.now) }
    ensures stages { IsStagingCall S.PageStore store.old store.new result }
    ensures few { length (S.state store.new).staged ≤ length (S.state store.old).staged + 1
        + pages_for (model_version meta.now.version) }
    ensures answer { IsRemoveAnswer S.reserved (pages_for (model_version meta.now.version))
        (S.state store.old) result }
    ensures sparing { ForEachMidway S.PageStore store.old (model_meta meta.now) space.old (λ p.
        holds_far key.now (get (contents p) key.now) ≡ false
        → IsRemoveAnswer S.reserved 1 (S.state store.old) result
        × (length (S.state store.new).staged ≤ length (S.state store.old).staged + 2)) }
    ensures end { space.new.file_end ≡ space.old.file_end }
    ensures keeps { KeepsEnds (S.state store.old) (S.state store.new) space.old space.new result }
    ensures took_out { S.honest store.old
        → OnOk result (TookOut (body_at S.PageStore store.old) (model_meta meta.now) space.old
        key.now (body_at S.PageStore store.new) space.new) }
    ensures exact { ForEachMidway S.PageStore store.old (model_meta meta.now) space.old (λ p.
        OnOk result (IsMidway (body_at S.PageStore store.new) (model_meta meta.now) space.new
        (delete p key.now))) }
    ensures whole { ForEachMidway S.PageStore store.old (model_meta meta.now) space.old (λ p.
        is_some (get (contents p) key.now) ≡ true → IsErrOf result Damaged → ⊥) }
{
    // Every page has a number of four bytes.
    prove!(space.file_end <= u32::MAX);
    let mut page = Page::blank();
    let head = head_of(store, meta, meta.shape.bucket(hash(key)), &mut page)?;
    take_out(store, space, head, key, &mut page, meta.version)
}

/// Stages what the delete of a key that is there changes, and answers where the file then ends.
pub fn stage_delete<S: PageStore>(
    store: &mut S,
    meta: &mut Meta,
    key: &[u8],
) -> Result<u32, PageFault>
    requires idle { (S.state store.old).staged ≡ [] }
    requires valid { IsMeta (model_meta meta.old) }
    requires some { 0 < meta.old.pairs }
    ensures stages { IsStagingCall S.PageStore store.old store.new result }
    ensures few { length (S.state store.new).staged
        ≤ 2 + pages_for (model_version meta.old.version) }
    ensures answer { IsDeleteAnswer (S.state store.old) (model_version meta.old.version) result }
    ensures no_memory { ForEachTable S.PageStore store.old (model_meta meta.old) (λ p.
        holds_far key.now (get (contents p) key.now) ≡ false → IsErrOf result Memory → ⊥) }
    ensures end { IfOk result (λ end. end ≡ (S.state store.old).end) }
    ensures kept { OnOk result (IsKept (model_meta meta.old) (model_meta meta.new)
        (meta.old.pairs - 1) (shape_in (model_meta meta.old))) }
    ensures may_commit { IfOk result (IsNewEnd (S.state store.old) (S.state store.new)) }

    // On any file the key is taken out of its bucket.
    ensures deleted { S.honest store.old
        → IfOk result (λ end. IsDeleted (body_at S.PageStore store.old)
        (body_at S.PageStore store.new) (model_meta meta.old) (model_meta meta.new)
        (S.state store.old).end end key.now) }

    // On the pages of a good placement it leaves the model's, and is never Damaged.
    ensures exact { ForEachTable S.PageStore store.old (model_meta meta.old) (λ p.
        is_some (get (contents p) key.now) ≡ true
        → IfOk result (λ end. IsStaged (body_at S.PageStore store.new) (model_meta meta.new) end
        (delete p key.now)) × (IsErrOf result Damaged → ⊥)) }
{
    let mut space = space_of(meta, store.end());
    remove_key(store, meta, &mut space, key)?;
    meta.pairs -= 1;
    stage_meta(store, meta, space)
}

/// Stages the meta page of an upgrade, and answers where the file ends.
pub fn stage_upgrade<S: PageStore>(store: &mut S, meta: &mut Meta) -> Result<u32, PageFault>
    requires idle { (S.state store.old).staged ≡ [] }
    requires valid { IsMeta (model_meta meta.old) }
    ensures stages { IsStagingCall S.PageStore store.old store.new result }
    ensures few { length (S.state store.new).staged ≤ 1 }
    ensures answer { IsStageAnswer S.reserved (S.state store.old) 1 result }
    ensures meta { model_meta meta.new ≡ model_meta meta.old }
    ensures may_commit { IfOk result (MayCommit (S.state store.new)) }
    ensures end { IfOk result (λ end. end ≡ (S.state store.old).end) }
    ensures page { S.honest store.old
        → OnOk result (body_at S.PageStore store.new 1 ≡ MetaPage (model_meta meta.new)) }
    ensures others { S.honest store.old → (n : ℕ) → (n ≡ 1 → ⊥)
        → body_at S.PageStore store.new n ≡ body_at S.PageStore store.old n }
{
    let space = space_of(meta, store.end());
    stage_meta(store, meta, space)
}
