//! Reading a far content.

ghost use Rattle.std.specs.Prelude.{◌≡◌, ◌+◌, ◌++◌, ◌≤◌, ◌<◌, ℕ, List, length, vec_len, vec_capacity, take as first_part, drop, slice_index, OnOk, IfOk, IsErrOf};
ghost use Rattle.page_model.specs.PageBodies.{filled};
ghost use Rattle.page_model.specs.Pages.{ContentPage};
ghost use Rattle.page_io.specs.Calls.{IsReadingCall};
ghost use Rattle.page_io.specs.Store.{IsKnown};
ghost use Rattle.page_io.specs.Views.{body_at};
ghost use Rattle.page_io.specs.declared.store.PageFault.TheVariants.{Memory, Damaged};
ghost use Rattle.content_pages.specs.Answers.{IsWalkAnswer, IsLoadAnswer};
ghost use Rattle.content_pages.specs.Contents.{IsContentPage, IsContentAt};

use crate::layout::{CONTENT, CONTENT_AT, PER_PAGE, pages_for};
use page_io::{PAGE_LEN, Page, PageFault, PageStore};

/// Reads page `n` as a content page, and answers the next one, 0 for none. Damaged is answered
/// where it isn't page `n` or no content page.
pub fn read_page<S: PageStore>(store: &mut S, n: u32, page: &mut Page) -> Result<u32, PageFault>
    ensures reads { IsReadingCall S.PageStore store.old store.new result }
    ensures answer { IsWalkAnswer (S.state store.old) result }
    ensures known { OnOk result ((1 ≤ n) × IsKnown (S.state store.old) n) }
    ensures bytes { OnOk result ((k : ℕ) → slice_index page.new.bytes k < 256) }
    ensures says { S.honest store.old
        → IfOk result (λ next. body_at S.PageStore store.old n
        ≡ ContentPage next (drop CONTENT_AT page.new.bytes)) }
    ensures whole { S.honest store.old → (next : ℕ) → 1 ≤ n
        → IsContentPage (body_at S.PageStore store.old n) next → IsErrOf result Damaged → ⊥ }
{
    store.read(n, page)?;
    if page.is_plain(n, CONTENT) {
        Ok(page.next())
    } else {
        Err(PageFault::Damaged)
    }
}

/// Reads page `n` as the content page of a part of so many bytes, and answers the next page, 0 for
/// none. Damaged is answered as by `read_page`, and where the bytes behind the part aren't zero.
pub fn check_part<S: PageStore>(
    store: &mut S,
    n: u32,
    long: usize,
    page: &mut Page,
) -> Result<u32, PageFault>
    requires { long ≤ PER_PAGE }
    ensures reads { IsReadingCall S.PageStore store.old store.new result }
    ensures answer { IsWalkAnswer (S.state store.old) result }
    ensures known { OnOk result ((1 ≤ n) × IsKnown (S.state store.old) n) }
    ensures bytes { OnOk result ((k : ℕ) → slice_index page.new.bytes k < 256) }
    ensures says { S.honest store.old
        → IfOk result (λ next. body_at S.PageStore store.old n
        ≡ ContentPage next (filled (first_part long (drop CONTENT_AT page.new.bytes)))) }
    ensures whole { S.honest store.old → (next : ℕ) (part : List ℕ) → 1 ≤ n → length part ≡ long
        → body_at S.PageStore store.old n ≡ ContentPage next (filled part)
        → IsErrOf result Damaged → ⊥ }
{
    let next = read_page(store, n, page)?;
    if page.is_clear(CONTENT_AT + long, PAGE_LEN) {
        Ok(next)
    } else {
        Err(PageFault::Damaged)
    }
}

/// Appends the part of a content that stands in page `n`, for which there is room, and answers the
/// next page, 0 for none.
fn read_part<S: PageStore>(
    store: &mut S,
    n: u32,
    long: usize,
    content: &mut Vec<u8>,
    page: &mut Page,
) -> Result<u32, PageFault>
    requires part { long ≤ PER_PAGE }
    requires room { vec_len content.old + long ≤ vec_capacity content.old }
    ensures reads { IsReadingCall S.PageStore store.old store.new result }
    ensures answer { IsWalkAnswer (S.state store.old) result }
    ensures capacity { vec_capacity content.old ≤ vec_capacity content.new }
    ensures longer { OnOk result (length content.new.items ≡ length content.old.items + long) }
    ensures known { OnOk result (1 ≤ n) }
    ensures says { S.honest store.old → IfOk result (λ next. (part : List ℕ) × (length part ≡ long)
        × (content.new.items ≡ content.old.items ++ part)
        × (body_at S.PageStore store.old n ≡ ContentPage next (filled part))) }
    ensures whole { S.honest store.old → (next : ℕ) (part : List ℕ) → 1 ≤ n → length part ≡ long
        → body_at S.PageStore store.old n ≡ ContentPage next (filled part)
        → IsErrOf result Damaged → ⊥ }
{
    let next = check_part(store, n, long, page)?;
    content
        .extend_from_slice(&page.bytes[CONTENT_AT..CONTENT_AT + long])
        .unwrap();
    Ok(next)
}

/// Reads the content of so many bytes that begins in page `first` into `content`, in the place of
/// what that holds. The memory is taken before a page is read. Damaged is answered where a page has
/// another number or kind, bytes behind the content aren't zero, or its pages are too few or too
/// many.
pub fn read_content<S: PageStore>(
    store: &mut S,
    first: u32,
    long: u16,
    content: &mut Vec<u8>,
) -> Result<(), PageFault>
    ensures reads { IsReadingCall S.PageStore store.old store.new result }
    ensures answer { IsLoadAnswer (S.state store.old) result }

    // Where memory lacks, no page was read.
    ensures memory { IsErrOf result Memory → store.new ≡ store.old }
    ensures length { OnOk result (length content.new.items ≡ long) }
    ensures read { S.honest store.old
        → OnOk result (IsContentAt (body_at S.PageStore store.old) first content.new.items) }

    // Where the pages say a content of that length it is the one that is read, and Damaged is never
    // answered.
    ensures exact { S.honest store.old → (bytes : List ℕ) → length bytes ≡ long
        → IsContentAt (body_at S.PageStore store.old) first bytes
        → OnOk result (content.new.items ≡ bytes) }
    ensures whole { S.honest store.old → (bytes : List ℕ) → length bytes ≡ long
        → IsContentAt (body_at S.PageStore store.old) first bytes → IsErrOf result Damaged → ⊥ }
{
    content.clear();
    content
        .try_reserve(usize::from(long))
        .map_err(|_| PageFault::Memory)?;
    let mut page = Page::blank();
    let mut at = first;
    let mut left = usize::from(long);
    for _page in 0..pages_for(long) {
        let part = left.min(PER_PAGE);
        at = read_part(store, at, part, content, &mut page)?;
        left -= part;
    }
    if at == 0 {
        Ok(())
    } else {
        Err(PageFault::Damaged)
    }
}
