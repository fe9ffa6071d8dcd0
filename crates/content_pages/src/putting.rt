//! Taking pages for a content, and writing it.

ghost use Rattle.std.specs.Prelude.{◌≡◌, ◌≢◌, ◌+◌, ◌*◌, ◌<◌, ◌≤◌, [], ℕ, List, length, take as first_part, AllPairs, OnOk, IfOk, IsErrOf};
ghost use Rattle.std.specs.List.{AllByRecursion};
ghost use Rattle.page_model.specs.Chain.{pages_long};
ghost use Rattle.page_model.specs.PageBodies.{first_of, filled, content_bodies};
ghost use Rattle.page_model.specs.Pages.{ContentPage};
ghost use Rattle.page_model.specs.Reading.{body_of};
ghost use Rattle.page_model.specs.Rewrites.{AreRewritten};
ghost use Rattle.page_model.specs.Space.{Space, next_pages, after_takes};
ghost use Rattle.page_io.specs.Calls.{IsReadingCall, IsStagingCall};
ghost use Rattle.page_io.specs.Page.{own_number};
ghost use Rattle.page_io.specs.Views.{body_at, StagesOnly, MayEnd};
ghost use Rattle.page_io.specs.declared.store.PageFault.TheVariants.{NoRoom, Damaged};
ghost use Rattle.free_pages.specs.FreeList.{state_of, HasEnds, IsFreeList, IsApart, KeepsEnds};
ghost use Rattle.free_pages.specs.Giving.{AreTaken};
ghost use Rattle.content_pages.specs.Answers.{IsTakesAnswer, IsStagesAnswer, IsPutsAnswer};
ghost use Rattle.content_pages.specs.Contents.{IsContentPut, IsPutAt};
ghost use Rattle.content_pages.specs.Staging.{MayEndWithAll};

use crate::layout::{CONTENT, CONTENT_AT, MOST_PAGES, PER_PAGE, pages_for};
use arrayvec::ArrayVec;
use free_pages::{FreeState, take};
use page_io::{Page, PageFault, PageStore};

/// The pages of a content, in order.
type Pages = ArrayVec<u32, MOST_PAGES>;

/// Takes so many pages, one after the other. Damaged is answered as by `take`, and where the free
/// list has a page twice.
fn take_pages<S: PageStore>(
    store: &mut S,
    space: &mut FreeState,
    count: usize,
) -> Result<Pages, PageFault>
    requires { count ≤ MOST_PAGES }
    ensures reads { IsReadingCall S.PageStore store.old store.new result }
    ensures answer { IsTakesAnswer count (S.state store.old) space.old result }
    ensures many { IfOk result (λ pages. (length pages.items ≡ count)
        × AllByRecursion (λ n. 1 ≤ n) pages.items × AllPairs (λ n m. n ≢ m) pages.items) }
    ensures taken { S.honest store.old
        → IfOk result (λ pages. AreTaken (body_at S.PageStore store.old) space.old pages.items
        space.new) }
    ensures grown { OnOk result (space.new.file_end ≤ space.old.file_end + count) }
    ensures ends { HasEnds space.old → HasEnds space.new }
    ensures may_end { MayEnd (S.state store.old) space.old.file_end
        → IfOk result (λ pages. MayEndWithAll (S.state store.old) pages.items space.new.file_end) }
    ensures exact { S.honest store.old → (s : Space)
        → IsFreeList (body_at S.PageStore store.old) space.old s → IsApart [] s
        → IfOk result (λ pages. (pages.items ≡ next_pages count s)
        × (space.new ≡ state_of (after_takes count s))) }
    ensures whole { S.honest store.old → (s : Space)
        → IsFreeList (body_at S.PageStore store.old) space.old s → IsApart [] s
        → IsErrOf result Damaged → ⊥ }
    ensures room { S.honest store.old → (s : Space)
        → IsFreeList (body_at S.PageStore store.old) space.old s → IsApart [] s
        → IsErrOf result NoRoom → (S.state store.old).capacity < (after_takes count s).end }
{
    let mut pages = Pages::new();
    for _page in 0..count {
        let n = take(store, space)?;
        if pages.contains(&n) {
            return Err(PageFault::Damaged);
        }
        pages.push(n);
    }
    Ok(pages)
}

/// A content page with the first bytes of these, zeros behind them.
fn content_page(own: u32, next: u32, bytes: &[u8]) -> Page
    ensures own { own_number result.bytes ≡ own }
    ensures says { body_of own result.bytes
        ≡ ContentPage next (filled (first_part PER_PAGE bytes.now)) }
{
    let mut page = Page::plain(own, CONTENT, next);
    page.put(CONTENT_AT, &bytes[..bytes.len().min(PER_PAGE)]);
    page
}

/// Stages the content in these pages, in order.
fn write_content<S: PageStore>(
    store: &mut S,
    pages: &[u32],
    content: &[u8],
) -> Result<(), PageFault>
    requires numbered { AllByRecursion (λ n. 1 ≤ n) pages.now }
    requires paged { length pages.now ≡ pages_long (length content.now) }
    ensures stages { StagesOnly S.PageStore store.old store.new }
    ensures few { length (S.state store.new).staged
        ≤ length (S.state store.old).staged + length pages.now }
    ensures faults { S.faults store.new ≡ S.faults store.old }
    ensures answer { IsStagesAnswer S.reserved (length pages.now) (S.state store.old) result }
    ensures may_end { (end : ℕ) → MayEndWithAll (S.state store.old) pages.now end
        → OnOk result (MayEnd (S.state store.new) end) }
    ensures written { S.honest store.old → AllPairs (λ n m. n ≢ m) pages.now
        → OnOk result (AreRewritten (body_at S.PageStore store.old) (body_at S.PageStore store.new)
        (content_bodies pages.now content.now)) }
{
    for i in 0..pages.len() {
        let next = pages.get(i + 1).copied().unwrap_or(0);
        let page = content_page(pages[i], next, &content[PER_PAGE * i..]);
        store.stage(pages[i], &page)?;
    }
    Ok(())
}

/// Takes pages for a content, stages it there, and answers the first of them, 0 for none. The
/// pages are taken before one is staged. NoRoom and Damaged are answered as by `take`; Damaged is
/// answered too where the free list has a page twice. After an `Err` the caller has to unstage and
/// to go back to its old `FreeState`.
pub fn put_content<S: PageStore>(
    store: &mut S,
    space: &mut FreeState,
    content: &[u8],
) -> Result<u32, PageFault>
    requires { length content.now < 65536 }
    ensures stages { IsStagingCall S.PageStore store.old store.new result }
    ensures few { length (S.state store.new).staged
        ≤ length (S.state store.old).staged + pages_long (length content.now) }
    ensures answer { IsPutsAnswer S.reserved (pages_long (length content.now)) (S.state store.old)
        space.old result }
    ensures number { IfOk result (λ first. 1 ≤ length content.now → 1 ≤ first) }
    ensures keeps { KeepsEnds (S.state store.old) (S.state store.new) space.old space.new result }
    ensures grown { OnOk result (space.new.file_end
        ≤ space.old.file_end + pages_long (length content.now)) }
    ensures put { S.honest store.old → IfOk result (λ first. (pages : List ℕ)
        × (first ≡ first_of pages)
        × IsContentPut (body_at S.PageStore store.old) (body_at S.PageStore store.new) space.old
        space.new pages content.now) }

    // On a free list that is read as one it takes the pages that the placement takes, and is never
    // Damaged.
    ensures exact { S.honest store.old → (s : Space)
        → IsFreeList (body_at S.PageStore store.old) space.old s → IsApart [] s
        → IfOk result (λ first. IsPutAt (body_at S.PageStore store.old)
        (body_at S.PageStore store.new) space.new first content.now s) }
    ensures whole { S.honest store.old → (s : Space)
        → IsFreeList (body_at S.PageStore store.old) space.old s → IsApart [] s
        → IsErrOf result Damaged → ⊥ }

    // It lacks room only on a device that is smaller than what it takes asks for.
    ensures room { S.honest store.old → (s : Space)
        → IsFreeList (body_at S.PageStore store.old) space.old s → IsApart [] s
        → IsErrOf result NoRoom → (S.state store.old).capacity
        < (after_takes (pages_long (length content.now)) s).end }
{
    let pages = take_pages(store, space, pages_for(content.len() as u16))?;
    write_content(store, &pages, content)?;
    Ok(pages.first().copied().unwrap_or(0))
}
