//! Stores of pages: what their tests share.

ghost use Rattle.std.specs.Prelude.{◌≡◌, ◌≤◌, ◌<◌, ℕ, true, OnOk, IsTrue, length};
ghost use Rattle.page_io.specs.Page.{own_number};
ghost use Rattle.page_io.specs.Store.{has_page, AllBelow};

use page_io::{Page, PageFault, PageStore};

/// A page with its own number, filled with a byte.
pub fn numbered(n: u32, fill: u8) -> Page
    ensures { own_number result.bytes ≡ n }
{
    let mut page = Page {
        bytes: [fill; 2048],
    };
    page.set_own(n);
    page
}

/// Whether a commit may end the file before page 5: it ends there, or page 4 is staged behind it.
pub fn may_end_at_5<S: PageStore>(store: &S) -> bool
    ensures { IsTrue result → (n : ℕ) → (S.state store.now).end ≤ n → n < 5
        → has_page (S.state store.now).staged n ≡ true }
{
    store.end() == 5 || store.end() == 4 && store.is_staged(4)
}

/// Stages a page under its own number, which has to be 1 to 4.
pub fn stage<S: PageStore>(store: &mut S, page: &Page) -> Result<(), PageFault>
    ensures below { AllBelow 5 (S.state store.old).staged → AllBelow 5 (S.state store.new).staged }
    ensures some { OnOk result (0 < length (S.state store.new).staged) }
{
    let n = page.own();
    if n < 1 || 4 < n {
        return Err(PageFault::Damaged);
    }
    store.stage(n, page)
}
