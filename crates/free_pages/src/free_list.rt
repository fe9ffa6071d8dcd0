//! The list of free pages: each names the next one.

ghost use Rattle.std.specs.Prelude.{◌≡◌, ◌⊎◌, ◌↔◌, ◌<◌, ◌≤◌, ◌+◌, ◌∷◌, [], ℕ, Some, IfOk, OnOk, OnErr, IfErr, IsErrOf, false, length};
ghost use Rattle.page_model.specs.Numbers.{IsNumber};
ghost use Rattle.page_model.specs.Pages.{FreePage};
ghost use Rattle.page_model.specs.Reading.{body_of};
ghost use Rattle.page_model.specs.Space.{Space, next_page, after_take, give as given};
ghost use Rattle.page_model.specs.Spelling.{free_spelling};
ghost use Rattle.page_io.specs.Calls.{IsReadingCall};
ghost use Rattle.page_io.specs.Store.{IsKnown};
ghost use Rattle.page_io.specs.Views.{body_at, StagesOnly, MayEnd, MayEndWith};
ghost use Rattle.page_io.specs.declared.store.PageFault.TheVariants.{Broken, Damaged, Device};
ghost use Rattle.free_pages.specs.FreeList.{state_of, IsFreeList, IsApart, IsFirstTaken, IsTaken, HasEnds};
ghost use Rattle.free_pages.specs.declared.free_state.FreeState.{FreeState};
ghost use Rattle.free_pages.specs.Answers.{IsTakeAnswer, IsGiveAnswer};

use crate::FreeState;
use page_io::{PAGE_LEN, Page, PageFault, PageStore};

/// The kind of a free page.
const FREE: u8 = 5;

/// Where the header ends.
const HEADER_LEN: usize = 16;

/// The next free page after page `n`, 0 for none, if the page is spelled as free page `n`.
pub fn read_free(page: &Page, n: u32) -> Option<u32>
    ensures spelled { (next : ℕ) → IsNumber next
        → (result ≡ Some next) ↔ (page.now.bytes ≡ free_spelling n next) }
    ensures says { (next : ℕ) → (result ≡ Some next) ↔ (body_of n page.now.bytes ≡ FreePage next) }
{
    if !page.is_plain(n, FREE) || !page.is_clear(HEADER_LEN, PAGE_LEN) {
        return None;
    }
    Some(page.next())
}

/// The first free page and the list behind it.
fn take_first<S: PageStore>(store: &mut S, space: &FreeState) -> Result<FreeState, PageFault>
    requires { (0 < space.now.head) × (0 < space.now.count) }
    ensures reads { IsReadingCall S.PageStore store.old store.new result }
    ensures broken { IsErrOf result Broken → (S.state store.old).usable ≡ false }
    ensures only { IfErr result (λ e. (e ≡ Broken) ⊎ ((e ≡ Damaged) ⊎ (e ≡ Device))) }
    ensures known { OnOk result (IsKnown (S.state store.old) space.now.head) }
    ensures ends { IfOk result HasEnds }
    ensures end { IfOk result (λ rest. rest.file_end ≡ space.now.file_end) }
    ensures taken { S.honest store.old
        → IfOk result (IsFirstTaken (body_at S.PageStore store.old) space.now space.now.head) }
    ensures whole { S.honest store.old → (rest : FreeState)
        → IsFirstTaken (body_at S.PageStore store.old) space.now space.now.head rest
        → IsErrOf result Damaged → ⊥ }
{
    let mut page = Page::blank();
    store.read(space.head, &mut page)?;
    let next = read_free(&page, space.head).ok_or(PageFault::Damaged)?;
    if (next == 0) != (space.count == 1) {
        return Err(PageFault::Damaged);
    }
    Ok(FreeState {
        head: next,
        count: space.count - 1,
        file_end: space.file_end,
    })
}

/// Takes the first free page, else the page at the file's end, which then grows by one. Nothing is
/// staged: the caller stages the page. NoRoom is answered where the device has no room for a page
/// at the end, Damaged where what is kept or the first free page is no free list's; Broken and
/// Device are the store's, from the read of that page.
pub fn take<S: PageStore>(store: &mut S, space: &mut FreeState) -> Result<u32, PageFault>
    ensures reads { IsReadingCall S.PageStore store.old store.new result }
    ensures answer { IsTakeAnswer (S.state store.old) space.old result }
    ensures err { OnErr result (space.new ≡ space.old) }
    ensures number { IfOk result (λ n. 1 ≤ n) }
    ensures grown { OnOk result (space.new.file_end ≤ space.old.file_end + 1) }
    ensures taken { S.honest store.old
        → IfOk result (λ n. IsTaken (body_at S.PageStore store.old) space.old n space.new) }
    ensures ends { HasEnds space.old → HasEnds space.new }
    ensures may_end { MayEnd (S.state store.old) space.old.file_end
        → IfOk result (λ n. MayEndWith (S.state store.old) n space.new.file_end) }

    // The page is known and the end stays, or it is the page at the end.
    ensures place { IfOk result (λ n.
        (IsKnown (S.state store.old) n × (space.new.file_end ≡ space.old.file_end))
        ⊎ ((n ≡ space.old.file_end) × (space.new.file_end ≡ space.old.file_end + 1))) }

    // On a free list that is read as one it takes what the placement takes, and is never Damaged.
    ensures exact { S.honest store.old → (s : Space)
        → IsFreeList (body_at S.PageStore store.old) space.old s → IsApart [] s →
        IfOk result (λ n. (n ≡ next_page s) × (space.new ≡ state_of (after_take s))) }
    ensures whole { S.honest store.old → (s : Space)
        → IsFreeList (body_at S.PageStore store.old) space.old s → IsApart [] s
        → IsErrOf result Damaged → ⊥ }

    // It is never Damaged either where only pages behind the first free one are.
    ensures readable { S.honest store.old → (n : ℕ) (rest : FreeState) → 1 ≤ n
        → IsTaken (body_at S.PageStore store.old) space.old n rest
        → IsErrOf result Damaged → ⊥ }
{
    if (space.head == 0) != (space.count == 0) {
        return Err(PageFault::Damaged);
    }
    if space.head != 0 {
        let rest = take_first(store, space)?;
        let first = space.head;
        *space = rest;
        return Ok(first);
    }
    if space.file_end == 0 {
        return Err(PageFault::Damaged);
    }
    if space.file_end >= store.capacity() {
        return Err(PageFault::NoRoom);
    }
    let last = space.file_end;
    space.file_end += 1;
    Ok(last)
}

/// Stages page `n` as the first free one. Damaged is answered, before anything is staged, where as
/// many pages are free as the file has, page 0 among them; Broken and Memory are the store's.
pub fn give<S: PageStore>(store: &mut S, space: &mut FreeState, n: u32) -> Result<(), PageFault>
    requires { 1 ≤ n }
    ensures stages { StagesOnly S.PageStore store.old store.new }
    ensures few { length (S.state store.new).staged ≤ length (S.state store.old).staged + 1 }
    ensures faults { S.faults store.new ≡ S.faults store.old }
    ensures answer { IsGiveAnswer S.reserved (S.state store.old) space.old n result }
    ensures err { OnErr result (space.new ≡ space.old) }
    ensures err_state { OnErr result (S.state store.new ≡ S.state store.old) }
    ensures ok { OnOk result (space.new
        ≡ record { head = n; count = space.old.count + 1; file_end = space.old.file_end }) }
    ensures free { S.honest store.old
        → OnOk result (body_at S.PageStore store.new n ≡ FreePage space.old.head) }
    ensures others { S.honest store.old → (m : ℕ) → (m ≡ n → ⊥)
        → body_at S.PageStore store.new m ≡ body_at S.PageStore store.old m }
    ensures may_end { n < space.old.file_end → MayEnd (S.state store.old) space.old.file_end
        → MayEnd (S.state store.new) space.new.file_end }

    // A free list that is read as one is read with the page in front.
    ensures exact { S.honest store.old → (s : Space)
        → IsFreeList (body_at S.PageStore store.old) space.old s → IsApart (n ∷ []) s →
        OnOk result (IsFreeList (body_at S.PageStore store.new) space.new (given (n ∷ []) s)) }
{
    if space.count >= space.file_end {
        return Err(PageFault::Damaged);
    }
    let page = Page::plain(n, FREE, space.head);
    store.stage(n, &page)?;
    space.head = n;
    space.count += 1;
    Ok(())
}
