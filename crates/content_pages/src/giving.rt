//! Giving the pages of a content back.

ghost use Rattle.std.specs.Prelude.{◌≡◌, ◌+◌, ◌<◌, ◌≤◌, ℕ, List, length, OnOk, OnErr, IsErrOf};
ghost use Rattle.page_model.specs.Chain.{pages_long};
ghost use Rattle.page_model.specs.Space.{Space};
ghost use Rattle.page_io.specs.Calls.{IsStagingCall};
ghost use Rattle.page_io.specs.Views.{body_at, MayEnd};
ghost use Rattle.page_io.specs.declared.store.PageFault.TheVariants.{Damaged};
ghost use Rattle.free_pages.specs.FreeList.{HasEnds, IsFreeList, IsApart};
ghost use Rattle.free_pages.specs.Giving.{AreGiven};
ghost use Rattle.content_pages.specs.Answers.{IsGivesAnswer};
ghost use Rattle.content_pages.specs.Contents.{ArePagesOf, IsContentGiven};

use crate::layout::pages_for;
use crate::reading::read_page;
use free_pages::{FreeState, give};
use page_io::{Page, PageFault, PageStore};

/// Gives the pages of the content of so many bytes that begins in page `first` to the free list, in
/// order. What they say isn't looked at. Damaged is answered where a page has another number or
/// kind, where they are too few or too many, and where as many pages are free as the file has. The
/// pages are read into `page`.
pub fn give_content<S: PageStore>(
    store: &mut S,
    space: &mut FreeState,
    first: u32,
    long: u16,
    page: &mut Page,
) -> Result<(), PageFault>
    ensures stages { IsStagingCall S.PageStore store.old store.new result }
    ensures few { length (S.state store.new).staged
        ≤ length (S.state store.old).staged + pages_long long }
    ensures answer { IsGivesAnswer S.reserved (pages_long long) (S.state store.old) result }
    ensures err { OnErr result (space.new ≡ space.old) }
    ensures end { space.new.file_end ≡ space.old.file_end }
    ensures ends { HasEnds space.old → HasEnds space.new }
    ensures may_end { MayEnd (S.state store.old) space.old.file_end
        → MayEnd (S.state store.new) space.new.file_end }
    ensures given { S.honest store.old
        → OnOk result (IsContentGiven (body_at S.PageStore store.old)
        (body_at S.PageStore store.new) space.old space.new first long) }

    // Where they are its pages it gives them, and Damaged is never answered of a file with as many
    // pages more.
    ensures exact { S.honest store.old → (pages : List ℕ)
        → ArePagesOf (body_at S.PageStore store.old) first long pages
        → OnOk result (AreGiven (body_at S.PageStore store.old) (body_at S.PageStore store.new)
        space.old space.new pages) }
    ensures whole { S.honest store.old → (pages : List ℕ) (s : Space)
        → ArePagesOf (body_at S.PageStore store.old) first long pages
        → IsFreeList (body_at S.PageStore store.old) space.old s → IsApart pages s
        → length pages + length s.free < s.end → IsErrOf result Damaged → ⊥ }
{
    let mut given = *space;
    let mut at = first;
    for _page in 0..pages_for(long) {
        let next = read_page(store, at, page)?;
        give(store, &mut given, at)?;
        at = next;
    }
    if at != 0 {
        return Err(PageFault::Damaged);
    }
    *space = given;
    Ok(())
}
