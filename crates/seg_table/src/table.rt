//! The table of segments: a map from bucket to head page.

ghost use Rattle.std.specs.Prelude.{◌≡◌, ◌<◌, ◌≤◌, ◌+◌, ◌*◌, ◌/◌, ◌%◌, ℕ, List, IfOk, IfSome, OnOk, OnErr, IsErrOf, length, slice_index};
ghost use Rattle.page_model.specs.Bytes.{u32_at};
ghost use Rattle.page_model.specs.Space.{Space};
ghost use Rattle.page_io.specs.Calls.{IsReadingCall, IsStagingCall};
ghost use Rattle.page_io.specs.Store.{IsKnown};
ghost use Rattle.page_io.specs.Views.{visible_page, body_at};
ghost use Rattle.page_io.specs.declared.store.PageFault.TheVariants.{Damaged};
ghost use Rattle.free_pages.specs.FreeList.{KeepsEnds};
ghost use Rattle.seg_table.specs.MetaPages.{model_meta};
ghost use Rattle.seg_table.specs.Segments.{IsSpelledSegment};
ghost use Rattle.seg_table.specs.Heads.{AreHeads, SaysSegment, HasEntry, CanSet, IsHeadSet, AddsSegment};
ghost use Rattle.seg_table.specs.Setting.{IsEntrySet};
ghost use Rattle.seg_table.specs.Answers.{IsHeadAnswer, IsSetAnswer};

use crate::Meta;
use crate::segment::{HEADS_AT, PER_SEGMENT, SEGMENT, segment_ok};
use free_pages::{FreeState, take};
use page_io::{Page, PageFault, PageStore};

/// The number in the place of a bucket in its segment's page.
fn head_in(page: &Page, bucket: u32) -> u32
    ensures { result ≡ u32_at page.now.bytes (16 + 4 * (bucket % 508)) }
{
    page.u32_at(HEADS_AT + 4 * (bucket as usize % PER_SEGMENT))
}

/// Reads the page of segment `s`, which is Damaged where it is no such page.
fn read_segment<S: PageStore>(
    store: &mut S,
    meta: &Meta,
    s: usize,
    page: &mut Page,
) -> Result<(), PageFault>
    requires { s < length meta.now.segments.items }
    ensures reads { IsReadingCall S.PageStore store.old store.new result }
    ensures answer { IsHeadAnswer (S.state store.old) result }
    ensures known { OnOk result (IsKnown (S.state store.old)
        (slice_index meta.now.segments.items s)) }
    ensures segment { OnOk result
        (IsSpelledSegment page.new.bytes (slice_index meta.now.segments.items s)) }
    ensures found { S.honest store.old
        → OnOk result (page.new.bytes
        ≡ visible_page S.PageStore store.old (slice_index meta.now.segments.items s)) }
    ensures readable { S.honest store.old
        → SaysSegment (body_at S.PageStore store.old) (model_meta meta.now) s
        → IsErrOf result Damaged → ⊥ }
{
    store.read(meta.segments[s], page)?;
    if segment_ok(page, meta, s) {
        Ok(())
    } else {
        Err(PageFault::Damaged)
    }
}

/// The head page of a bucket that the segment page says which the store lends. None where it lends
/// none, or one that is no such page.
fn lent_head<S: PageStore>(store: &S, meta: &Meta, bucket: u32) -> Option<u32>
    requires { bucket / 508 < length meta.now.segments.items }
    ensures entry { S.honest store.now
        → IfSome result (λ head. HasEntry
        (body_at S.PageStore store.now (slice_index meta.now.segments.items (bucket / 508)))
        (bucket % 508) head) }
    ensures exact { S.honest store.now → (heads : List ℕ)
        → AreHeads (body_at S.PageStore store.now) (model_meta meta.now) heads
        → bucket < length heads → IfSome result (λ head. head ≡ slice_index heads bucket) }
{
    let s = bucket as usize / PER_SEGMENT;
    let lent = store.lend(meta.segments[s])?;
    if segment_ok(lent.page, meta, s) {
        Some(head_in(lent.page, bucket))
    } else {
        None
    }
}

/// The head page of a bucket. Damaged is answered where the bucket's segment page is none. It is
/// read into `page` where the store doesn't lend it.
pub fn head_of<S: PageStore>(
    store: &mut S,
    meta: &Meta,
    bucket: u32,
    page: &mut Page,
) -> Result<u32, PageFault>
    requires { bucket / 508 < length meta.now.segments.items }
    ensures reads { IsReadingCall S.PageStore store.old store.new result }
    ensures answer { IsHeadAnswer (S.state store.old) result }
    ensures entry { S.honest store.old
        → IfOk result (λ head. HasEntry
        (body_at S.PageStore store.old (slice_index meta.now.segments.items (bucket / 508)))
        (bucket % 508) head) }

    // Where the segment pages say the heads, it is the bucket's, and never Damaged.
    ensures exact { S.honest store.old → (heads : List ℕ)
        → AreHeads (body_at S.PageStore store.old) (model_meta meta.now) heads
        → bucket < length heads → IfOk result (λ head. head ≡ slice_index heads bucket) }
    ensures whole { S.honest store.old → (heads : List ℕ)
        → AreHeads (body_at S.PageStore store.old) (model_meta meta.now) heads
        → IsErrOf result Damaged → ⊥ }

    // Nor is it where only other segments are damaged.
    ensures readable { S.honest store.old
        → SaysSegment (body_at S.PageStore store.old) (model_meta meta.now) (bucket / 508)
        → IsErrOf result Damaged → ⊥ }
{
    let s = bucket as usize / PER_SEGMENT;
    if let Some(head) = lent_head(store, meta, bucket) {
        store.promote(meta.segments[s]);
        return Ok(head);
    }
    read_segment(store, meta, s, page)?;
    Ok(head_in(page, bucket))
}

/// Sets the head page of a bucket that there is, or of the next one, which can be read once the
/// shape has grown. Where that is the first of a segment, a page is taken for the segment. One page
/// is staged.
///
/// NoRoom is answered where no page can be taken, Damaged where the bucket's segment page is none
/// or `take` says so. At `Err` a page may have been taken from `space` that no segment has.
pub fn set_head<S: PageStore>(
    store: &mut S,
    meta: &mut Meta,
    space: &mut FreeState,
    bucket: u32,
    head: u32,
) -> Result<(), PageFault>
    requires few { bucket < 125000 }
    requires next { bucket / 508 ≤ length meta.old.segments.items }
    ensures stages { IsStagingCall S.PageStore store.old store.new result }
    ensures few { length (S.state store.new).staged ≤ length (S.state store.old).staged + 1 }
    ensures answer { IsSetAnswer S.reserved (S.state store.old) space.old result }
    ensures err { OnErr result (model_meta meta.new ≡ model_meta meta.old) }
    ensures err_state { OnErr result (S.state store.new ≡ S.state store.old) }
    ensures ok { OnOk result (AddsSegment (model_meta meta.old) (model_meta meta.new) bucket) }
    ensures keeps { KeepsEnds (S.state store.old) (S.state store.new) space.old space.new result }

    // On any file the head is set in the bucket's segment alone, and that is read or taken.
    ensures set { S.honest store.old
        → OnOk result (IsEntrySet (body_at S.PageStore store.old) (body_at S.PageStore store.new)
        meta.old.segments.items meta.new.segments.items space.old space.new bucket head) }

    // Where the segment pages say the heads, they then say them with this one, and it is never
    // Damaged.
    ensures exact { S.honest store.old → (heads : List ℕ) (s : Space)
        → CanSet (body_at S.PageStore store.old) (model_meta meta.old) space.old heads
        bucket head s →
        OnOk result (IsHeadSet (body_at S.PageStore store.old) (body_at S.PageStore store.new)
        (model_meta meta.old) (model_meta meta.new) space.new heads bucket head s) }
    ensures whole { S.honest store.old → (heads : List ℕ) (s : Space)
        → CanSet (body_at S.PageStore store.old) (model_meta meta.old) space.old heads bucket head s
        → IsErrOf result Damaged → ⊥ }
{
    let s = bucket as usize / PER_SEGMENT;
    let at = HEADS_AT + 4 * (bucket as usize % PER_SEGMENT);
    if s == meta.segments.len() {
        let n = take(store, space)?;
        let mut page = Page::plain(n, SEGMENT, 0);
        page.set_u32_at(at, head);
        store.stage(n, &page)?;
        meta.segments.push(n);
        return Ok(());
    }
    let mut page = Page::blank();
    read_segment(store, meta, s, &mut page)?;
    page.set_u32_at(at, head);
    store.stage(meta.segments[s], &page)
}
