//! Whether a file is a good one.

ghost use Rattle.std.specs.Prelude.{◌≡◌, ◌≤◌, ◌↔◌, ◌∷◌, [], ℕ, false, length, IfOk, OnOk, IsErrOf, IsTrue};
ghost use Rattle.page_model.specs.Pages as model;
ghost use Rattle.page_model.specs.Pages.{MetaPage};
ghost use Rattle.page_model.specs.Valid.{IsMeta};
ghost use Rattle.page_io.specs.Calls.{IsReadingCall};
ghost use Rattle.page_io.specs.Views.{body_at};
ghost use Rattle.page_io.specs.declared.store.PageFault.TheVariants.{Damaged};
ghost use Rattle.file_check.specs.Marks.{AreMarked, MayBeSeen};
ghost use Rattle.seg_table.specs.MetaPages.{model_meta};
ghost use Rattle.bucket_chain.specs.WalkAnswers.{IsWalkAnswer};
ghost use Rattle.file_check.specs.Flaws.{IsTold};
ghost use Rattle.file_check.specs.Good.{IsFilled, IsGoodFile};

use crate::flaws::{Flaw, Rule, Watch};
use crate::free::check_free;
use crate::marking::{mark, mark_all};
use crate::marks::{are_all_marked, clear};
use crate::reading::read;
use crate::segments::check_buckets;
use crate::sizes::most_pages;
use crate::unmarked::first_unmarked;
use page_io::{Page, PageFault, PageStore};
use seg_table::{Meta, read_meta};

/// Page 1 is no meta page.
const NO_META: Flaw = Flaw {
    page: 1,
    rule: Rule::Meta,
};

/// What the meta page says.
fn check_meta<S: PageStore, W: Watch>(store: &mut S, watch: &mut W) -> Result<Meta, PageFault>
    ensures reads { IsReadingCall S.PageStore store.old store.new result }
    ensures answer { IsWalkAnswer (S.state store.old) result }
    ensures told { IsTold (IsErrOf result Damaged) (W.has_told watch.old) (W.has_told watch.new) }
    ensures valid { IfOk result (λ meta. IsMeta (model_meta meta)) }
    ensures says { S.honest store.old → IfOk result (λ meta.
        body_at S.PageStore store.old 1 ≡ MetaPage (model_meta meta)) }
    ensures whole { S.honest store.old → (m : model.Meta) → IsMeta m
        → body_at S.PageStore store.old 1 ≡ MetaPage m → IsErrOf result Damaged → ⊥ }
{
    let mut page = Page::blank();
    read(store, 1, &mut page, NO_META, watch)?;
    match read_meta(&page) {
        Ok(meta) => Ok(meta),
        Err(_) => {
            watch.flaw(NO_META);
            Err(PageFault::Damaged)
        }
    }
}

/// Marks the meta page and the segment pages where nothing is marked, and answers whether they are
/// pages of the file, each once.
fn mark_tables<W: Watch>(meta: &Meta, marks: &mut [bool], end: u32, watch: &mut W) -> bool
    requires room { end ≤ length marks.old }
    requires none { AreMarked marks.old end [] }
    ensures length { length marks.new ≡ length marks.old }
    ensures marked { IsTrue result → AreMarked marks.new end (1 ∷ meta.now.segments.items) }
    ensures may_be { IsTrue result ↔ MayBeSeen end (1 ∷ meta.now.segments.items) }
    ensures told { IsTold (result ≡ false) (W.has_told watch.old) (W.has_told watch.new) }
{
    mark(marks, 1, end, watch) && mark_all(marks, &meta.segments, end, watch)
}

/// Reads all pages but the meta page, and marks them where nothing is marked. Damaged is answered
/// where they aren't as the meta page asks for.
fn check_pages<S: PageStore, W: Watch>(
    store: &mut S,
    meta: &Meta,
    marks: &mut [bool],
    watch: &mut W,
) -> Result<(), PageFault>
    requires marks { (S.state store.old).end ≤ length marks.old }
    requires meta { IsMeta (model_meta meta.now) }
    requires none { AreMarked marks.old (S.state store.old).end [] }
    ensures reads { IsReadingCall S.PageStore store.old store.new result }
    ensures answer { IsWalkAnswer (S.state store.old) result }
    ensures told { IsTold (IsErrOf result Damaged) (W.has_told watch.old) (W.has_told watch.new) }
    ensures sound { S.honest store.old
        → OnOk result (IsFilled (body_at S.PageStore store.old) (S.state store.old).end
        (model_meta meta.now)) }
    ensures whole { S.honest store.old
        → IsFilled (body_at S.PageStore store.old) (S.state store.old).end (model_meta meta.now)
        → IsErrOf result Damaged → ⊥ }
{
    let end = store.end();
    let most = most_pages(meta.limit, meta.version);
    if end > most {
        watch.flaw(Flaw {
            page: most,
            rule: Rule::Limit,
        });
        return Err(PageFault::Damaged);
    }
    if !mark_tables(meta, marks, end, watch) {
        return Err(PageFault::Damaged);
    }
    let pairs = check_buckets(store, meta, marks, watch)?;
    if pairs != meta.pairs {
        watch.flaw(Flaw {
            page: 1,
            rule: Rule::PairCount,
        });
        return Err(PageFault::Damaged);
    }
    check_free(store, meta.free_head, meta.free_count, marks, watch)?;
    if are_all_marked(marks, end) {
        Ok(())
    } else {
        watch.flaw(Flaw {
            page: first_unmarked(marks, end),
            rule: Rule::Unused,
        });
        Err(PageFault::Damaged)
    }
}

/// Reads every page, and answers how many pairs the file has. Damaged is answered where it is no
/// good file: where a page doesn't say what the format asks of it, stands in two places or in none,
/// where a pair is in another bucket than its key's, a key stands there twice, a count is wrong, or
/// there are more pages than the limit and the version ask for. It takes no memory. What the marks
/// hold before doesn't matter, and after it they are unspecified. Each bucket that was looked at is
/// told to `watch`, and the first page that breaks a rule, with the rule.
pub fn verify<S: PageStore, W: Watch>(
    store: &mut S,
    marks: &mut [bool],
    watch: &mut W,
) -> Result<u32, PageFault>
    requires { (S.state store.old).end ≤ length marks.old }
    ensures reads { IsReadingCall S.PageStore store.old store.new result }
    ensures answer { IsWalkAnswer (S.state store.old) result }
    ensures told { IsTold (IsErrOf result Damaged) (W.has_told watch.old) (W.has_told watch.new) }

    // It answers how many pairs there are exactly where it is a good file, and Damaged only where
    // it is none.
    ensures good { S.honest store.old
        → IfOk result (λ pairs. IsGoodFile (body_at S.PageStore store.old)
        (S.state store.old).end pairs) }
    ensures damaged { S.honest store.old → IsErrOf result Damaged → (pairs : ℕ)
        → IsGoodFile (body_at S.PageStore store.old) (S.state store.old).end pairs → ⊥ }
{
    clear(marks);
    let meta = check_meta(store, watch)?;
    check_pages(store, &meta, marks, watch)?;
    Ok(meta.pairs)
}
