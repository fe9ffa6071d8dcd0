//! One bucket more.

ghost use Rattle.std.specs.Prelude.{◌≡◌, ◌*◌, ◌^◌, ◌<◌, ◌≤◌, All, OnOk, IfOk, IsErrOf, length, map};
ghost use Rattle.page_model.specs.Chain.{numbers};
ghost use Rattle.page_model.specs.Placement.{Placement, chain_at, extended, split};
ghost use Rattle.page_model.specs.PageBodies.{first_of};
ghost use Rattle.dbm_model.specs.Sizes.{segments_for};
ghost use Rattle.page_model.specs.Valid.{meta_buckets};
ghost use Rattle.page_io.specs.Calls.{IsStagingCall};
ghost use Rattle.page_io.specs.Versions.{model_version};
ghost use Rattle.page_io.specs.Views.{body_at, MayEnd};
ghost use Rattle.page_io.specs.declared.store.PageFault.TheVariants.{NoRoom, Damaged};
ghost use Rattle.free_pages.specs.FreeList.{KeepsEnds};
ghost use Rattle.seg_table.specs.MetaPages.{model_meta};
ghost use Rattle.seg_table.specs.Heads.{AddsSegment};
ghost use Rattle.linear_hash.specs.Staging.{IsMidway, IsChangeAnswer, IsGrown, ForEachMidway};
ghost use Rattle.lin_addr.specs.Shapes.{shape_of};
ghost use Rattle.bucket_chain.specs.Pairs.{record_as, IsSmall};
ghost use Rattle.bucket_chain.specs.AnyFile.{AreAdded};
ghost use Rattle.bucket_chain.specs.Placements.{IsBelow};
ghost use Rattle.linear_hash.specs.AnyFile.{IsExtended, IsSplit, head_for};
ghost use Rattle.linear_hash.specs.Splitting.{IsBucketAdded, IsRefilled};

use bucket_chain::{Pair, load_all, put_record, store_all};
use free_pages::{FreeState, take};
use lin_addr::{Shape, hash};
use page_io::{Page, PageFault, PageStore, Version};
use seg_table::{Meta, head_of, set_head};
use slot_page::empty;
use std::alloc::Global;

/// The kind of a bucket's head page.
const HEAD: u8 = 3;

/// The head pages of the bucket that is split and of the new one.
#[derive(Clone, Copy)]
struct Heads {
    old: u32,
    new: u32,
}

/// Splits bucket `split`: its records are put again, in it and in one bucket more. The pages of
/// contents stay.
pub fn split_bucket<S: PageStore>(
    alloc: Global,
    store: &mut S,
    meta: &mut Meta,
    space: &mut FreeState,
) -> Result<(), PageFault>
    requires segments { length (model_meta meta.old).segments
        ≡ segments_for (meta_buckets (model_meta meta.old)) }
    requires few { 8 * meta_buckets (model_meta meta.old) < 1000000 }
    ensures stages { IsStagingCall S.PageStore store.old store.new result }
    ensures answer { IsChangeAnswer (S.state store.old) result }
    ensures grown { OnOk result (IsGrown (model_meta meta.old) (model_meta meta.new)) }
    ensures keeps { KeepsEnds (S.state store.old) (S.state store.new) space.old space.new result }

    // On any file the bucket is read to its end, and its pairs are in two buckets thereafter.
    ensures splits { S.honest store.old
        → OnOk result (IsSplit (MayEnd (S.state store.old) space.old.file_end)
        (body_at S.PageStore store.old) (body_at S.PageStore store.new) (model_meta meta.old)
        (model_meta meta.new) space.old space.new) }

    // Where the chain has no more pages than the last commit's file, it leaves the model's
    // placement, is never Damaged, and lacks room only on a device that is no larger than that
    // placement.
    ensures exact { ForEachMidway S.PageStore store.old (model_meta meta.old) space.old (λ p.
        length (chain_at p p.shape.split) ≤ (S.state store.old).end
        → OnOk result (IsMidway (body_at S.PageStore store.new) (model_meta meta.new)
        space.new (split p))) }
    ensures whole { ForEachMidway S.PageStore store.old (model_meta meta.old) space.old (λ p.
        length (chain_at p p.shape.split) ≤ (S.state store.old).end
        → IsErrOf result Damaged → ⊥) }
    ensures room { ForEachMidway S.PageStore store.old (model_meta meta.old) space.old (λ p.
        length (chain_at p p.shape.split) ≤ (S.state store.old).end → IsErrOf result NoRoom
        → (S.state store.old).capacity ≤ (split p).space.end) }
{
    // Every page has a number of four bytes.
    prove!(space.file_end <= u32::MAX);
    let mut page = Page::blank();
    let head = head_of(store, meta, meta.shape.split, &mut page)?;
    let pairs = load_all(alloc, store, head, meta.version)?;
    let new_head = add_bucket(store, meta, space, head)?;
    let heads = Heads {
        old: head,
        new: new_head,
    };
    refill(
        store,
        space,
        meta.shape,
        heads,
        pairs.as_slice(),
        meta.version,
    )?;
    meta.shape = meta.shape.grown();
    Ok(())
}

/// Empties the bucket of page `head`, which is bucket `split`, and adds one bucket. It
/// answers the new one's head page.
fn add_bucket<S: PageStore>(
    store: &mut S,
    meta: &mut Meta,
    space: &mut FreeState,
    head: u32,
) -> Result<u32, PageFault>
    requires segments { length (model_meta meta.old).segments
        ≡ segments_for (meta_buckets (model_meta meta.old)) }
    requires few { 8 * meta_buckets (model_meta meta.old) < 1000000 }
    requires small { space.old.file_end < 2 ^ 32 }
    ensures stages { IsStagingCall S.PageStore store.old store.new result }
    ensures answer { IsChangeAnswer (S.state store.old) result }
    ensures added { OnOk result (AddsSegment (model_meta meta.old) (model_meta meta.new)
        (meta_buckets (model_meta meta.old))) }
    ensures keeps { KeepsEnds (S.state store.old) (S.state store.new) space.old space.new result }

    // On any file the chain is emptied, and a head page that is taken is the next bucket's.
    ensures extends { S.honest store.old
        → IfOk result (IsExtended (body_at S.PageStore store.old) (body_at S.PageStore store.new)
        (model_meta meta.old) (model_meta meta.new) space.old space.new head) }

    // It leaves the model's placement with no record in either bucket, is never Damaged, and lacks
    // room only on a device that is no larger than that placement.
    ensures exact { ForEachMidway S.PageStore store.old (model_meta meta.old) space.old (λ p.
        head ≡ first_of (numbers (chain_at p p.shape.split))
        → IfOk result (IsBucketAdded (body_at S.PageStore store.new) (model_meta meta.new)
        space.new p)) }
    ensures whole { ForEachMidway S.PageStore store.old (model_meta meta.old) space.old (λ p.
        head ≡ first_of (numbers (chain_at p p.shape.split)) → IsErrOf result Damaged → ⊥) }
    ensures room { ForEachMidway S.PageStore store.old (model_meta meta.old) space.old (λ p.
        head ≡ first_of (numbers (chain_at p p.shape.split)) → IsErrOf result NoRoom
        → (S.state store.old).capacity ≤ (extended p).space.end) }
{
    store_all(store, space, head, &[], meta.version)?;
    let new_head = take(store, space)?;
    store.stage(new_head, &empty(new_head, HEAD, 0))?;
    let bucket = meta.shape.buckets();
    set_head(store, meta, space, bucket, new_head)?;
    Ok(new_head)
}

/// Puts the records of bucket `split`, which is empty, into it and the new bucket, in order.
fn refill<S: PageStore>(
    store: &mut S,
    space: &mut FreeState,
    shape: Shape,
    heads: Heads,
    pairs: &[Pair],
    version: Version,
) -> Result<(), PageFault>
    requires { All (λ pair. IsSmall (model_version version) (record_as pair)) pairs.now }
    ensures stages { IsStagingCall S.PageStore store.old store.new result }
    ensures answer { IsChangeAnswer (S.state store.old) result }
    ensures keeps { KeepsEnds (S.state store.old) (S.state store.new) space.old space.new result }

    // On any file the records are added in order, each by one bit of its key's hash.
    ensures added { S.honest store.old
        → OnOk result (AreAdded (body_at S.PageStore store.old) (body_at S.PageStore store.new)
        (MayEnd (S.state store.old) space.old.file_end) space.old space.new
        (head_for shape.level heads.old heads.new) (map record_as pairs.now)) }

    // From the extended placement it leaves the split one, is never Damaged, and lacks room only on a
    // device that is no larger than that one.
    ensures exact { S.honest store.old → (p : Placement)
        → IsRefilled (model_version version) (body_at S.PageStore store.old) space.old
        (shape_of shape) heads.old heads.new (map record_as pairs.now) p → OnOk result
        (IsBelow (body_at S.PageStore store.new) space.new (split p)) }
    ensures whole { S.honest store.old → (p : Placement)
        → IsRefilled (model_version version) (body_at S.PageStore store.old) space.old
        (shape_of shape) heads.old heads.new (map record_as pairs.now) p
        → IsErrOf result Damaged → ⊥ }
    ensures room { S.honest store.old → (p : Placement)
        → IsRefilled (model_version version) (body_at S.PageStore store.old) space.old
        (shape_of shape) heads.old heads.new (map record_as pairs.now) p → IsErrOf result NoRoom
        → (S.state store.old).capacity ≤ (split p).space.end }
{
    let mut page = Page::blank();
    for pair in pairs {
        // Every page has a number of four bytes.
        prove!(space.file_end <= u32::MAX);
        let goes_up = shape.split_goes_up(hash(&pair.key));
        let to = if goes_up { heads.new } else { heads.old };
        put_record(store, space, to, pair, &mut page, version)?;
    }
    Ok(())
}
