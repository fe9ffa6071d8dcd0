//! The chain of a bucket, from its head page to its end.

ghost use Rattle.std.specs.Prelude.{◌≡◌, ◌≤◌, ◌++◌, ℕ, List, length, IfOk, IsErrOf};
ghost use Rattle.lin_addr.specs.Shapes.{shape_of};
ghost use Rattle.page_model.specs.Chain.{Chain, pages_in};
ghost use Rattle.page_io.specs.Calls.{IsReadingCall};
ghost use Rattle.page_io.specs.Versions.{model_version};
ghost use Rattle.page_io.specs.Views.{body_at};
ghost use Rattle.page_io.specs.declared.store.PageFault.TheVariants.{Damaged};
ghost use Rattle.file_check.specs.Marks.{AreMarked, MayBeSeen};
ghost use Rattle.bucket_chain.specs.WalkAnswers.{IsWalkAnswer};
ghost use Rattle.file_check.specs.BucketChains.{IsBucketChain, IsChecked};
ghost use Rattle.file_check.specs.Flaws.{IsTold};

use crate::buckets::are_in_bucket;
use crate::chain_reading::read_link;
use crate::contents::check_contents;
use crate::flaws::{Flaw, Rule, Watch};
use crate::keys::check_keys;
use crate::marking::mark;
use bucket_chain::{HEAD, OVERFLOW};
use lin_addr::Shape;
use page_io::{Page, PageFault, PageStore, Version};

/// Reads the chain of a bucket from page `head` on and its contents, marks their pages, and answers
/// how many pairs it has, 4,294,967,295 where there are more. Damaged is answered where it isn't
/// such a chain, a key of another bucket or one twice stands in it, or one of the pages is marked
/// already; which of them, and of which page, is told to `watch`.
pub fn check_chain<S: PageStore, W: Watch>(
    store: &mut S,
    shape: Shape,
    bucket: u32,
    head: u32,
    marks: &mut [bool],
    version: Version,
    watch: &mut W,
) -> Result<u32, PageFault>
    requires { (S.state store.old).end ≤ length marks.old }
    ensures reads { IsReadingCall S.PageStore store.old store.new result }
    ensures length { length marks.new ≡ length marks.old }
    ensures answer { IsWalkAnswer (S.state store.old) result }
    ensures told { IsTold (IsErrOf result Damaged) (W.has_told watch.old) (W.has_told watch.new) }

    // It is a bucket's chain where the pages say one, whose pages are not marked yet, and nowhere
    // else.
    ensures sound { S.honest store.old → (seen : List ℕ)
        → AreMarked marks.old (S.state store.old).end seen
        → IfOk result (λ pairs. IsChecked (model_version version) (body_at S.PageStore store.old)
        (S.state store.old).end (shape_of shape) bucket head pairs marks.new seen) }
    ensures whole { S.honest store.old → (seen : List ℕ) (chain : Chain)
        → AreMarked marks.old (S.state store.old).end seen
        → IsBucketChain (model_version version) (body_at S.PageStore store.old) (shape_of shape)
        bucket head chain → MayBeSeen (S.state store.old).end (seen ++ pages_in chain)
        → IsErrOf result Damaged → ⊥ }
{
    let end = store.end();
    let mut page = Page::blank();
    let mut other = Page::blank();
    let mut at = head;
    let mut kind = HEAD;
    let mut pairs: u32 = 0;
    for _step in 0..end {
        let next = read_link(store, at, kind, &mut page, version, watch)?;
        if !mark(marks, at, end, watch) {
            return Err(PageFault::Damaged);
        }
        if !are_in_bucket(&page, shape, bucket) {
            watch.flaw(Flaw {
                page: at,
                rule: Rule::Bucket,
            });
            return Err(PageFault::Damaged);
        }
        check_keys(store, head, at, &page, version, watch)?;
        check_contents(store, &page, marks, &mut other, version, watch)?;
        pairs = pairs.saturating_add(page.slots() as u32);
        if next == 0 {
            return Ok(pairs);
        }
        at = next;
        kind = OVERFLOW;
    }
    watch.flaw(Flaw {
        page: at,
        rule: Rule::Twice,
    });
    Err(PageFault::Damaged)
}
