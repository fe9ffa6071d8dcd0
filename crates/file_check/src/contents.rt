//! The pages of far contents, looked at and marked.

ghost use Rattle.std.specs.Prelude.{◌≡◌, ◌≤◌, ◌<◌, ◌++◌, ℕ, List, length, OnOk, IsErrOf};
ghost use Rattle.page_model.specs.Chain.{Entry, pages_of};
ghost use Rattle.page_io.specs.Calls.{IsReadingCall};
ghost use Rattle.page_io.specs.Versions.{model_version};
ghost use Rattle.page_io.specs.Views.{body_at};
ghost use Rattle.page_io.specs.declared.store.PageFault.TheVariants.{Damaged};
ghost use Rattle.file_check.specs.Marks.{AreMarked, MayBeSeen};
ghost use Rattle.page_io.specs.BucketPages.{IsPageOf, page_records};
ghost use Rattle.bucket_chain.specs.WalkAnswers.{IsWalkAnswer};
ghost use Rattle.file_check.specs.BucketChains.{AreContentPages, IsContentChecked, AreEntriesOf, AreContentsChecked};
ghost use Rattle.file_check.specs.Flaws.{IsTold};

use crate::chain_reading::check_part;
use crate::flaws::{Flaw, Rule, Watch};
use crate::marking::mark;
use content_pages::{PER_PAGE, pages_for};
use page_io::{Page, PageFault, PageStore, Version, are_bytes};
use slot_page::far_at;

/// Reads the content of so many bytes that begins in page `first`, and marks its pages. Damaged is
/// answered as by `read_content`, and where one of its pages is marked already.
fn check_content<S: PageStore, W: Watch>(
    store: &mut S,
    first: u32,
    long: u16,
    marks: &mut [bool],
    page: &mut Page,
    watch: &mut W,
) -> Result<(), PageFault>
    requires { (S.state store.old).end ≤ length marks.old }
    ensures reads { IsReadingCall S.PageStore store.old store.new result }
    ensures length { length marks.new ≡ length marks.old }
    ensures answer { IsWalkAnswer (S.state store.old) result }
    ensures told { IsTold (IsErrOf result Damaged) (W.has_told watch.old) (W.has_told watch.new) }
    ensures sound { S.honest store.old → (seen : List ℕ)
        → AreMarked marks.old (S.state store.old).end seen
        → OnOk result (IsContentChecked (body_at S.PageStore store.old) (S.state store.old).end
        first long marks.new seen) }
    ensures whole { S.honest store.old → (seen pages content : List ℕ)
        → AreMarked marks.old (S.state store.old).end seen
        → AreContentPages (body_at S.PageStore store.old) first long pages content
        → MayBeSeen (S.state store.old).end (seen ++ pages) → IsErrOf result Damaged → ⊥ }
{
    let end = store.end();
    let mut at = first;
    let mut last = first;
    let mut left = usize::from(long);
    for _page in 0..pages_for(long) {
        let part = left.min(PER_PAGE);
        let next = check_part(store, at, last, part, page, watch)?;
        if !mark(marks, at, end, watch) {
            return Err(PageFault::Damaged);
        }
        last = at;
        at = next;
        left -= part;
    }
    if at == 0 {
        Ok(())
    } else {
        watch.flaw(Flaw {
            page: last,
            rule: Rule::ContentLong,
        });
        Err(PageFault::Damaged)
    }
}

/// Reads the contents of a page's far records, and marks their pages. Pages are read into `other`.
pub fn check_contents<S: PageStore, W: Watch>(
    store: &mut S,
    page: &Page,
    marks: &mut [bool],
    other: &mut Page,
    version: Version,
    watch: &mut W,
) -> Result<(), PageFault>
    requires page { IsPageOf (model_version version) page.now.bytes }
    requires marks { (S.state store.old).end ≤ length marks.old }
    ensures reads { IsReadingCall S.PageStore store.old store.new result }
    ensures length { length marks.new ≡ length marks.old }
    ensures answer { IsWalkAnswer (S.state store.old) result }
    ensures told { IsTold (IsErrOf result Damaged) (W.has_told watch.old) (W.has_told watch.new) }
    ensures sound { S.honest store.old → (seen : List ℕ)
        → AreMarked marks.old (S.state store.old).end seen
        → OnOk result (AreContentsChecked (model_version version) (body_at S.PageStore store.old)
        (S.state store.old).end (page_records page.now.bytes) marks.new seen) }
    ensures whole { S.honest store.old → (seen : List ℕ) (entries : List Entry)
        → AreMarked marks.old (S.state store.old).end seen
        → AreEntriesOf (model_version version) (body_at S.PageStore store.old)
        (page_records page.now.bytes) entries
        → MayBeSeen (S.state store.old).end (seen ++ pages_of entries)
        → IsErrOf result Damaged → ⊥ }
{
    are_bytes(&page.bytes);
    for slot in 0..page.slots() as usize {
        if let Some((first, long)) = far_at(page, slot) {
            check_content(store, first, long, marks, other, watch)?;
        }
    }
    Ok(())
}
