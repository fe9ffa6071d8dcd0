//! Segment pages: the heads of 508 buckets each.

ghost use Rattle.std.specs.Prelude.{◌≡◌, ◌<◌, ◌↔◌, ◌∷◌, [], IsTrue, length, slice_index};
ghost use Rattle.page_model.specs.Pages.{SegmentPage};
ghost use Rattle.page_model.specs.Reading.{body_of};
ghost use Rattle.page_io.specs.Page.{own_number};
ghost use Rattle.seg_table.specs.MetaPages.{model_meta};
ghost use Rattle.seg_table.specs.Segments.{heads_in, IsSegment};

use crate::Meta;
use page_io::{PAGE_LEN, Page};

/// The kind of a segment page.
pub const SEGMENT: u8 = 2;

/// How many buckets a segment has.
pub const PER_SEGMENT: usize = 508;

/// Where the heads begin.
pub const HEADS_AT: usize = 16;

/// Page `n` as a segment page with one head, that of its first bucket.
pub fn segment_of_one(n: u32, head: u32) -> Page
    requires { 0 < head }
    ensures says { body_of n result.bytes ≡ SegmentPage (head ∷ []) }
    ensures number { own_number result.bytes ≡ n }
{
    let mut page = Page::plain(n, SEGMENT, 0);
    page.set_u32_at(HEADS_AT, head);
    page
}

/// How many buckets of segment `s` exist.
fn heads_of(meta: &Meta, s: usize) -> usize
    ensures { result ≡ heads_in (model_meta meta.now) s }
{
    (meta.shape.buckets() as usize)
        .saturating_sub(PER_SEGMENT.saturating_mul(s))
        .min(PER_SEGMENT)
}

/// Whether a page is segment `s` of the meta page: spelled as a segment page of its number with the
/// heads of the buckets that exist, which may be any numbers.
pub fn segment_ok(page: &Page, meta: &Meta, s: usize) -> bool
    requires { s < length meta.now.segments.items }
    ensures { IsTrue result ↔ IsSegment page.now.bytes (slice_index meta.now.segments.items s)
        (heads_in (model_meta meta.now) s) }
{
    page.is_plain(meta.segments[s], SEGMENT)
        && page.next() == 0
        && page.is_clear(HEADS_AT + 4 * heads_of(meta, s), PAGE_LEN)
}
