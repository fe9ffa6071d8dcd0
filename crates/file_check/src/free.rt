//! The list of free pages, from its first one to its end.

ghost use Rattle.std.specs.Prelude.{◌≡◌, ◌≤◌, ◌++◌, ℕ, List, length, OnOk, IsErrOf};
ghost use Rattle.page_io.specs.Calls.{IsReadingCall};
ghost use Rattle.page_io.specs.Views.{body_at};
ghost use Rattle.page_io.specs.declared.store.PageFault.TheVariants.{Damaged};
ghost use Rattle.file_check.specs.Marks.{AreMarked, MayBeSeen};
ghost use Rattle.bucket_chain.specs.WalkAnswers.{IsWalkAnswer};
ghost use Rattle.file_check.specs.Flaws.{IsTold};
ghost use Rattle.file_check.specs.FreeLists.{IsList, IsListMarked};

use crate::flaws::{Flaw, Rule, Watch};
use crate::marking::mark;
use crate::reading::{read, read_free};
use page_io::{Page, PageFault, PageStore};

/// The list is longer or shorter than the meta page counts.
const WRONG_COUNT: Flaw = Flaw {
    page: 1,
    rule: Rule::FreeCount,
};

/// What is wrong where the next page of the list is page `n`, and the file has no such page.
fn no_page(n: u32) -> Flaw {
    if n == 0 {
        WRONG_COUNT
    } else {
        Flaw {
            page: n,
            rule: Rule::Outside,
        }
    }
}

/// Reads the free list of `count` pages from page `head` on, 0 for none, and marks its pages.
pub fn check_free<S: PageStore, W: Watch>(
    store: &mut S,
    head: u32,
    count: u32,
    marks: &mut [bool],
    watch: &mut W,
) -> Result<(), PageFault>
    requires { (S.state store.old).end ≤ length marks.old }
    ensures reads { IsReadingCall S.PageStore store.old store.new result }
    ensures length { length marks.new ≡ length marks.old }
    ensures answer { IsWalkAnswer (S.state store.old) result }
    ensures told { IsTold (IsErrOf result Damaged) (W.has_told watch.old) (W.has_told watch.new) }
    ensures sound { S.honest store.old → (seen : List ℕ)
        → AreMarked marks.old (S.state store.old).end seen
        → OnOk result (IsListMarked (body_at S.PageStore store.old) (S.state store.old).end
        head count marks.new seen) }
    ensures exact { S.honest store.old → (seen free : List ℕ)
        → AreMarked marks.old (S.state store.old).end seen
        → IsList (body_at S.PageStore store.old) head count free
        → MayBeSeen (S.state store.old).end (seen ++ free)
        → OnOk result (AreMarked marks.new (S.state store.old).end (seen ++ free)) }
    ensures whole { S.honest store.old → (seen free : List ℕ)
        → AreMarked marks.old (S.state store.old).end seen
        → IsList (body_at S.PageStore store.old) head count free
        → MayBeSeen (S.state store.old).end (seen ++ free) → IsErrOf result Damaged → ⊥ }
{
    let end = store.end();
    let mut page = Page::blank();
    let mut at = head;
    for _ in 0..count {
        read(store, at, &mut page, no_page(at), watch)?;
        let next = read_free(&page, at, watch).ok_or(PageFault::Damaged)?;
        if !mark(marks, at, end, watch) {
            return Err(PageFault::Damaged);
        }
        at = next;
    }
    if at == 0 {
        Ok(())
    } else {
        watch.flaw(WRONG_COUNT);
        Err(PageFault::Damaged)
    }
}
