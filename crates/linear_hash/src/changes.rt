//! Changes of the file, each in one commit.

ghost use Rattle.std.specs.Prelude.{◌≡◌, ◌+◌, ◌<◌, ◌≤◌, ◌⊎◌, [], true, false, is_some, OnOk, IsErrOf, if◌then◌else◌};
ghost use Rattle.std.specs.FinMap.{get, insert, remove};
ghost use Rattle.dbm_model.specs.Bounds.{V2, upgraded};
ghost use Rattle.dbm_model.specs.Pairs.{Contents, IsAllowed};
ghost use Rattle.dbm_model.specs.Sizes.{pages_for, most_taken};
ghost use Rattle.dbm_model.specs.Steps.{holds_far};
ghost use Rattle.page_model.specs.Placement.{contents};
ghost use Rattle.page_model.specs.Valid.{IsMeta};
ghost use Rattle.page_io.specs.Views.{body_at};
ghost use Rattle.page_io.specs.declared.store.PageFault.TheVariants.{Memory, NoRoom, Damaged};
ghost use Rattle.seg_table.specs.MetaPages.{model_meta};
ghost use Rattle.linear_hash.specs.Tables.{shape_in, shape_for, ForEachTable};
ghost use Rattle.linear_hash.specs.Staging.{MayTakeMemory, TakesMemory};
ghost use Rattle.linear_hash.specs.Changing.{IsDeleted, IsStored, IsUpgraded};
ghost use Rattle.page_io.specs.Committing.{Holds};
ghost use Rattle.linear_hash.specs.Holding.{IsCommitted, IsEnded, ChangesMap};

use crate::staging::{stage_delete, stage_store, stage_upgrade};
use page_io::{PageFault, PageStore, Version, finish};
use seg_table::Meta;
use std::alloc::Global;

/// Commits a pair, in the place of its key's where that is there. At `Err` what is kept of the meta
/// page is unspecified.
fn commit_store<S: PageStore>(
    alloc: Global,
    store: &mut S,
    meta: &mut Meta,
    key: &[u8],
    content: &[u8],
    was_there: bool,
) -> Result<(), PageFault>
    requires allowed { IsAllowed (model_meta meta.old).bounds.version (key.now, content.now) }
    requires idle { (S.state store.old).staged ≡ [] }
    requires writable { (S.state store.old).writable ≡ true }
    requires valid { IsMeta (model_meta meta.old) }
    requires room { was_there ≡ false → meta.old.pairs < meta.old.limit }
    ensures ends { IsCommitted S.PageStore store.old store.new (model_meta meta.new) result }
    ensures bounds { OnOk result ((model_meta meta.new).bounds ≡ (model_meta meta.old).bounds) }
    ensures pairs { OnOk result (meta.new.pairs
        ≡ (if was_there then meta.old.pairs else meta.old.pairs + 1)) }
    ensures shape { OnOk result (shape_in (model_meta meta.new)
        ≡ shape_for meta.new.pairs (shape_in (model_meta meta.old))) }
    ensures memory { IsErrOf result Memory
        → MayTakeMemory (model_meta meta.old) was_there (key.now, content.now) }
    ensures sparing { ForEachTable S.PageStore store.old (model_meta meta.old) (λ p.
        was_there ≡ is_some (get (contents p) key.now) → IsErrOf result Memory
        → TakesMemory (model_meta meta.old) p was_there (key.now, content.now)) }
    ensures stored { S.honest store.old
        → OnOk result (IsStored was_there (body_at S.PageStore store.old)
        (body_at S.PageStore store.new) (model_meta meta.old) (model_meta meta.new)
        (S.state store.old).end (S.state store.new).end (key.now, content.now)) }
    ensures turns { S.honest store.old → (S.state store.old).usable ≡ true → (map : Contents)
        → Holds S.PageStore store.old (model_meta meta.old) map
        → was_there ≡ is_some (get map key.now) →
        ChangesMap S.PageStore store.old store.new (model_meta meta.old) (model_meta meta.new) map
        (insert map key.now content.now) (model_meta meta.old).bounds
        (meta.old.pairs + most_taken (model_meta meta.old).bounds.version) result }
{
    let staged = stage_store(alloc, store, meta, key, content, was_there);
    finish(store, staged)
}

/// Stores a pair in one commit, in the place of its key's where that is there, as `was_there` has
/// to say. It stages at most four pages of a chain, those of the contents that are given and taken,
/// and the meta page. Where there are then more than eight pairs to a bucket, one bucket is split,
/// and the pages of two chains are staged too.
///
/// Damaged is answered where a page that it reads is none such, and where the key was told to be
/// there and isn't; Memory only where a bucket is split, or the pair is far, or in version 2
/// another is replaced; NoRoom where the device has no room for the pages that are taken, or behind
/// the file for those that are staged; Broken only where the store isn't usable; Device where a
/// call of the device fails. At `Err` nothing stays staged, `meta` is as it was, and after Device
/// in the commit the store isn't usable any more.
pub fn store_pair<S: PageStore>(
    alloc: Global,
    store: &mut S,
    meta: &mut Meta,
    key: &[u8],
    content: &[u8],
    was_there: bool,
) -> Result<(), PageFault>
    requires allowed { IsAllowed (model_meta meta.old).bounds.version (key.now, content.now) }
    requires idle { (S.state store.old).staged ≡ [] }
    requires writable { (S.state store.old).writable ≡ true }
    requires valid { IsMeta (model_meta meta.old) }
    requires room { was_there ≡ false → meta.old.pairs < meta.old.limit }
    ensures ends { IsEnded S.PageStore store.old store.new (model_meta meta.old)
        (model_meta meta.new) result }
    ensures bounds { (model_meta meta.new).bounds ≡ (model_meta meta.old).bounds }
    ensures pairs { OnOk result (meta.new.pairs
        ≡ (if was_there then meta.old.pairs else meta.old.pairs + 1)) }
    // It takes memory only for a split or a far content, or where in version 2 it replaces a pair;
    // on pages that say a good placement only for a split or a far content.
    ensures memory { IsErrOf result Memory
        → MayTakeMemory (model_meta meta.old) was_there (key.now, content.now) }
    ensures sparing { ForEachTable S.PageStore store.old (model_meta meta.old) (λ p.
        was_there ≡ is_some (get (contents p) key.now) → IsErrOf result Memory
        → TakesMemory (model_meta meta.old) p was_there (key.now, content.now)) }
    ensures shape { OnOk result (shape_in (model_meta meta.new)
        ≡ shape_for meta.new.pairs (shape_in (model_meta meta.old))) }

    // On any file the pair is put into its bucket, and one is split where that is due.
    ensures stored { S.honest store.old
        → OnOk result (IsStored was_there (body_at S.PageStore store.old)
        (body_at S.PageStore store.new) (model_meta meta.old) (model_meta meta.new)
        (S.state store.old).end (S.state store.new).end (key.now, content.now)) }

    // Where the file stands for a map, it then stands for the changed one, and at every moment for
    // one of the two.
    ensures turns { S.honest store.old → (S.state store.old).usable ≡ true → (map : Contents)
        → Holds S.PageStore store.old (model_meta meta.old) map
        → was_there ≡ is_some (get map key.now) →
        ChangesMap S.PageStore store.old store.new (model_meta meta.old) (model_meta meta.new) map
        (insert map key.now content.now) (model_meta meta.old).bounds
        (meta.old.pairs + most_taken (model_meta meta.old).bounds.version) result }
{
    let mut changed = meta.copied();
    commit_store(alloc, store, &mut changed, key, content, was_there)?;
    *meta = changed;
    Ok(())
}

/// Commits the delete of a key that is there. At `Err` what is kept of the meta page is
/// unspecified.
fn commit_delete<S: PageStore>(store: &mut S, meta: &mut Meta, key: &[u8]) -> Result<(), PageFault>
    requires idle { (S.state store.old).staged ≡ [] }
    requires writable { (S.state store.old).writable ≡ true }
    requires valid { IsMeta (model_meta meta.old) }
    requires some { 0 < meta.old.pairs }
    ensures ends { IsCommitted S.PageStore store.old store.new (model_meta meta.new) result }
    ensures bounds { OnOk result ((model_meta meta.new).bounds ≡ (model_meta meta.old).bounds) }
    ensures pairs { OnOk result (meta.new.pairs + 1 ≡ meta.old.pairs) }
    ensures shape { OnOk result (shape_in (model_meta meta.new) ≡ shape_in (model_meta meta.old)) }
    ensures no_memory { ForEachTable S.PageStore store.old (model_meta meta.old) (λ p.
        holds_far key.now (get (contents p) key.now) ≡ false → IsErrOf result Memory → ⊥) }
    ensures memory { IsErrOf result Memory → (model_meta meta.old).bounds.version ≡ V2 }
    ensures room { IsErrOf result NoRoom → (S.state store.old).capacity
        < (S.state store.old).end + 2 + pages_for (model_meta meta.old).bounds.version }
    ensures deleted { S.honest store.old
        → OnOk result (IsDeleted (body_at S.PageStore store.old) (body_at S.PageStore store.new)
        (model_meta meta.old) (model_meta meta.new) (S.state store.old).end (S.state store.new).end
        key.now) }
    ensures turns { S.honest store.old → (S.state store.old).usable ≡ true → (map : Contents)
        → Holds S.PageStore store.old (model_meta meta.old) map → is_some (get map key.now) ≡ true →
        ChangesMap S.PageStore store.old store.new (model_meta meta.old) (model_meta meta.new) map
        (remove map key.now) (model_meta meta.old).bounds 0 result }
{
    let staged = stage_delete(store, meta, key);
    finish(store, staged)
}

/// Deletes the pair of a key that is there, in one commit, with the pages of its content. It stages
/// at most two pages of a chain, those of the content, and the meta page.
///
/// Damaged is answered where a page that it reads is none such, and where the key isn't there;
/// Memory only in version 2, where the content is far; NoRoom only where the device has no room
/// behind the file for three pages, in version 2 for 36; Broken and Device as by `store_pair`. At
/// `Err` all is as after one of `store_pair`.
pub fn delete_pair<S: PageStore>(
    store: &mut S,
    meta: &mut Meta,
    key: &[u8],
) -> Result<(), PageFault>
    requires idle { (S.state store.old).staged ≡ [] }
    requires writable { (S.state store.old).writable ≡ true }
    requires valid { IsMeta (model_meta meta.old) }
    requires some { 0 < meta.old.pairs }
    ensures ends { IsEnded S.PageStore store.old store.new (model_meta meta.old)
        (model_meta meta.new) result }
    ensures bounds { (model_meta meta.new).bounds ≡ (model_meta meta.old).bounds }
    ensures pairs { OnOk result (meta.new.pairs + 1 ≡ meta.old.pairs) }
    ensures no_memory { ForEachTable S.PageStore store.old (model_meta meta.old) (λ p.
        holds_far key.now (get (contents p) key.now) ≡ false → IsErrOf result Memory → ⊥) }
    ensures memory { IsErrOf result Memory → (model_meta meta.old).bounds.version ≡ V2 }
    ensures room { IsErrOf result NoRoom → (S.state store.old).capacity
        < (S.state store.old).end + 2 + pages_for (model_meta meta.old).bounds.version }
    ensures shape { OnOk result (shape_in (model_meta meta.new) ≡ shape_in (model_meta meta.old)) }

    // On any file the key is taken out of its bucket.
    ensures deleted { S.honest store.old
        → OnOk result (IsDeleted (body_at S.PageStore store.old) (body_at S.PageStore store.new)
        (model_meta meta.old) (model_meta meta.new) (S.state store.old).end (S.state store.new).end
        key.now) }

    // Where the file stands for a map, it then stands for the changed one, and at every moment for
    // one of the two.
    ensures turns { S.honest store.old → (S.state store.old).usable ≡ true → (map : Contents)
        → Holds S.PageStore store.old (model_meta meta.old) map → is_some (get map key.now) ≡ true →
        ChangesMap S.PageStore store.old store.new (model_meta meta.old) (model_meta meta.new) map
        (remove map key.now) (model_meta meta.old).bounds 0 result }
{
    let mut changed = meta.copied();
    commit_delete(store, &mut changed, key)?;
    *meta = changed;
    Ok(())
}

/// Commits the meta page in version 2, with all else as it is. At `Err` what is kept of the meta
/// page is unspecified.
fn commit_upgrade<S: PageStore>(store: &mut S, meta: &mut Meta) -> Result<(), PageFault>
    requires idle { (S.state store.old).staged ≡ [] }
    requires writable { (S.state store.old).writable ≡ true }
    requires valid { IsMeta (model_meta meta.old) }
    ensures ends { IsCommitted S.PageStore store.old store.new (model_meta meta.new) result }
    ensures state { OnOk result (S.state store.new ≡ S.state store.old) }
    ensures meta { OnOk result (model_meta meta.new
        ≡ record (model_meta meta.old) { bounds = upgraded (model_meta meta.old).bounds }) }
    ensures never { IsErrOf result Memory ⊎ IsErrOf result Damaged → ⊥ }
    ensures room { IsErrOf result NoRoom
        → (S.state store.old).capacity ≤ (S.state store.old).end }
    ensures upgraded { S.honest store.old
        → OnOk result (IsUpgraded (body_at S.PageStore store.old) (body_at S.PageStore store.new)
        (model_meta meta.old) (model_meta meta.new) (S.state store.old).end) }
    ensures turns { S.honest store.old → (S.state store.old).usable ≡ true → (map : Contents)
        → Holds S.PageStore store.old (model_meta meta.old) map
        → ChangesMap S.PageStore store.old store.new (model_meta meta.old) (model_meta meta.new) map
        map (upgraded (model_meta meta.old).bounds) 0 result }
{
    meta.version = Version::V2;
    let staged = stage_upgrade(store, meta);
    finish(store, staged)
}

/// Commits the file as one of version 2, also where it is one already. The meta page alone changes,
/// and in it the version. No page is read.
///
/// NoRoom is answered only where the device has no page behind the file; Broken and Device as by
/// `store_pair`. At `Err` all is as after one of `store_pair`.
pub fn upgrade<S: PageStore>(store: &mut S, meta: &mut Meta) -> Result<(), PageFault>
    requires idle { (S.state store.old).staged ≡ [] }
    requires writable { (S.state store.old).writable ≡ true }
    requires valid { IsMeta (model_meta meta.old) }
    ensures ends { IsEnded S.PageStore store.old store.new (model_meta meta.old)
        (model_meta meta.new) result }
    ensures meta { OnOk result (model_meta meta.new
        ≡ record (model_meta meta.old) { bounds = upgraded (model_meta meta.old).bounds }) }
    ensures never { IsErrOf result Memory ⊎ IsErrOf result Damaged → ⊥ }
    ensures room { IsErrOf result NoRoom
        → (S.state store.old).capacity ≤ (S.state store.old).end }

    // The file ends where it ended.
    ensures state { OnOk result (S.state store.new ≡ S.state store.old) }

    // On any file nothing changes but the version.
    ensures upgraded { S.honest store.old
        → OnOk result (IsUpgraded (body_at S.PageStore store.old) (body_at S.PageStore store.new)
        (model_meta meta.old) (model_meta meta.new) (S.state store.old).end) }

    // Where the file stands for a map, it then stands for the same in version 2, and at every
    // moment for that map, in the version that it had or in version 2.
    ensures turns { S.honest store.old → (S.state store.old).usable ≡ true → (map : Contents)
        → Holds S.PageStore store.old (model_meta meta.old) map
        → ChangesMap S.PageStore store.old store.new (model_meta meta.old) (model_meta meta.new) map
        map (upgraded (model_meta meta.old).bounds) 0 result }
{
    let mut changed = meta.copied();
    commit_upgrade(store, &mut changed)?;
    *meta = changed;
    Ok(())
}
