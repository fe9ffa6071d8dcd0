//! The buckets, segment by segment.

ghost use Rattle.std.specs.Prelude.{◌≡◌, ◌≤◌, ◌<◌, ◌+◌, ◌*◌, ◌^◌, ◌++◌, ℕ, List, length, flat_map, IfOk, IsErrOf};
ghost use Rattle.page_model.specs.Chain.{Chain, pages_in};
ghost use Rattle.page_model.specs.Valid.{IsMeta};
ghost use Rattle.page_io.specs.Calls.{IsReadingCall};
ghost use Rattle.page_io.specs.Views.{body_at};
ghost use Rattle.page_io.specs.declared.store.PageFault.TheVariants.{Damaged};
ghost use Rattle.file_check.specs.Marks.{AreMarked, MayBeSeen};
ghost use Rattle.seg_table.specs.MetaPages.{model_meta};
ghost use Rattle.bucket_chain.specs.WalkAnswers.{IsWalkAnswer};
ghost use Rattle.file_check.specs.Flaws.{IsTold};
ghost use Rattle.file_check.specs.Segments.{AreHeadChains, AreHeadsChecked, AreInSegment, IsSegmentChecked, AreBuckets, AreChecked, AreCounted};

use crate::chains::check_chain;
use crate::flaws::{Flaw, Rule, Watch};
use crate::reading::read;
use crate::sizes::PER_SEGMENT;
use page_io::{Page, PageFault, PageStore};
use seg_table::{Meta, segment_ok};

/// Where the heads begin.
const HEADS_AT: usize = 16;

/// Reads the chains of the first `count` heads on a segment page, those of the buckets from `first`
/// on, and answers how many pairs they have.
fn check_heads<S: PageStore, W: Watch>(
    store: &mut S,
    meta: &Meta,
    page: &Page,
    first: u32,
    count: u32,
    marks: &mut [bool],
    watch: &mut W,
) -> Result<u32, PageFault>
    requires marks { (S.state store.old).end ≤ length marks.old }
    requires few { count ≤ 508 }
    requires small { first + count < 2 ^ 32 }
    ensures reads { IsReadingCall S.PageStore store.old store.new result }
    ensures length { length marks.new ≡ length marks.old }
    ensures answer { IsWalkAnswer (S.state store.old) result }
    ensures told { IsTold (IsErrOf result Damaged) (W.has_told watch.old) (W.has_told watch.new) }
    ensures sound { S.honest store.old → (seen : List ℕ)
        → AreMarked marks.old (S.state store.old).end seen
        → IfOk result (λ pairs. AreHeadsChecked (body_at S.PageStore store.old)
        (S.state store.old).end (model_meta meta.now) page.now.bytes first count pairs marks.new
        seen) }
    ensures exact { S.honest store.old → (seen : List ℕ) (chains : List Chain)
        → AreMarked marks.old (S.state store.old).end seen
        → AreHeadChains (body_at S.PageStore store.old) (model_meta meta.now) page.now.bytes first
        count chains → MayBeSeen (S.state store.old).end (seen ++ flat_map pages_in chains)
        → IfOk result (λ pairs. AreCounted chains (S.state store.old).end pairs marks.new seen) }
    ensures whole { S.honest store.old → (seen : List ℕ) (chains : List Chain)
        → AreMarked marks.old (S.state store.old).end seen
        → AreHeadChains (body_at S.PageStore store.old) (model_meta meta.now) page.now.bytes first
        count chains → MayBeSeen (S.state store.old).end (seen ++ flat_map pages_in chains)
        → IsErrOf result Damaged → ⊥ }
{
    let mut pairs: u32 = 0;
    for i in 0..count {
        let head = page.u32_at(HEADS_AT + 4 * i as usize);
        let more = check_chain(
            store,
            meta.shape,
            first + i,
            head,
            marks,
            meta.version,
            watch,
        )?;
        pairs = pairs.saturating_add(more);
        watch.bucket();
    }
    Ok(pairs)
}

/// Reads the buckets of segment `s`, and answers how many pairs they have.
fn check_segment<S: PageStore, W: Watch>(
    store: &mut S,
    meta: &Meta,
    s: u32,
    marks: &mut [bool],
    watch: &mut W,
) -> Result<u32, PageFault>
    requires marks { (S.state store.old).end ≤ length marks.old }
    requires meta { IsMeta (model_meta meta.now) }
    requires within { s < length meta.now.segments.items }
    ensures reads { IsReadingCall S.PageStore store.old store.new result }
    ensures length { length marks.new ≡ length marks.old }
    ensures answer { IsWalkAnswer (S.state store.old) result }
    ensures told { IsTold (IsErrOf result Damaged) (W.has_told watch.old) (W.has_told watch.new) }
    ensures sound { S.honest store.old → (seen : List ℕ)
        → AreMarked marks.old (S.state store.old).end seen
        → IfOk result (λ pairs. IsSegmentChecked (body_at S.PageStore store.old)
        (S.state store.old).end (model_meta meta.now) s pairs marks.new seen) }
    ensures exact { S.honest store.old → (seen : List ℕ) (chains : List Chain)
        → AreMarked marks.old (S.state store.old).end seen
        → AreInSegment (body_at S.PageStore store.old) (model_meta meta.now) s chains
        → MayBeSeen (S.state store.old).end (seen ++ flat_map pages_in chains)
        → IfOk result (λ pairs. AreCounted chains (S.state store.old).end pairs marks.new seen) }
    ensures whole { S.honest store.old → (seen : List ℕ) (chains : List Chain)
        → AreMarked marks.old (S.state store.old).end seen
        → AreInSegment (body_at S.PageStore store.old) (model_meta meta.now) s chains
        → MayBeSeen (S.state store.old).end (seen ++ flat_map pages_in chains)
        → IsErrOf result Damaged → ⊥ }
{
    let n = meta.segments[s as usize];
    let mut page = Page::blank();
    let outside = Flaw {
        page: n,
        rule: Rule::Outside,
    };
    read(store, n, &mut page, outside, watch)?;
    if !segment_ok(&page, meta, s as usize) {
        watch.flaw(Flaw {
            page: n,
            rule: Rule::Segment,
        });
        return Err(PageFault::Damaged);
    }
    let first = PER_SEGMENT * s;
    let count = (meta.shape.buckets() - first).min(PER_SEGMENT);
    check_heads(store, meta, &page, first, count, marks, watch)
}

/// Reads all buckets with their segment pages, marks the pages of the chains and of their contents,
/// and answers how many pairs there are, 4,294,967,295 where there are more.
pub fn check_buckets<S: PageStore, W: Watch>(
    store: &mut S,
    meta: &Meta,
    marks: &mut [bool],
    watch: &mut W,
) -> Result<u32, PageFault>
    requires marks { (S.state store.old).end ≤ length marks.old }
    requires meta { IsMeta (model_meta meta.now) }
    ensures reads { IsReadingCall S.PageStore store.old store.new result }
    ensures length { length marks.new ≡ length marks.old }
    ensures answer { IsWalkAnswer (S.state store.old) result }
    ensures told { IsTold (IsErrOf result Damaged) (W.has_told watch.old) (W.has_told watch.new) }
    ensures sound { S.honest store.old → (seen : List ℕ)
        → AreMarked marks.old (S.state store.old).end seen
        → IfOk result (λ pairs. AreChecked (body_at S.PageStore store.old) (S.state store.old).end
        (model_meta meta.now) pairs marks.new seen) }
    ensures exact { S.honest store.old → (seen : List ℕ) (chains : List Chain)
        → AreMarked marks.old (S.state store.old).end seen
        → AreBuckets (body_at S.PageStore store.old) (model_meta meta.now) chains
        → MayBeSeen (S.state store.old).end (seen ++ flat_map pages_in chains)
        → IfOk result (λ pairs. AreCounted chains (S.state store.old).end pairs marks.new seen) }
    ensures whole { S.honest store.old → (seen : List ℕ) (chains : List Chain)
        → AreMarked marks.old (S.state store.old).end seen
        → AreBuckets (body_at S.PageStore store.old) (model_meta meta.now) chains
        → MayBeSeen (S.state store.old).end (seen ++ flat_map pages_in chains)
        → IsErrOf result Damaged → ⊥ }
{
    let mut pairs: u32 = 0;
    for s in 0..meta.segments.len() as u32 {
        let more = check_segment(store, meta, s, marks, watch)?;
        pairs = pairs.saturating_add(more);
    }
    Ok(pairs)
}
