//! Staging a bucket page under its own number.

ghost use Rattle.std.specs.Prelude.{◌≡◌, ◌+◌, ◌<◌, ◌≤◌, ℕ, OnOk, IfSome, length};
ghost use Rattle.page_model.specs.Reading.{body_of};
ghost use Rattle.page_io.specs.Page.{own_number};
ghost use Rattle.page_io.specs.Answers.{IsStageAnswer};
ghost use Rattle.page_io.specs.BucketPages.{IsPageOf};
ghost use Rattle.page_io.specs.Store.{IsKnown};
ghost use Rattle.page_io.specs.Versions.{model_version};
ghost use Rattle.page_io.specs.Views.{visible_page, body_at, StagesOnly, ReadsOnly, MayEnd, MayEndWith};

use page_io::{Page, PageFault, PageStore, Version};

/// Stages a page in the place of its own number, which isn't 0.
fn stage_own<S: PageStore>(store: &mut S, page: &Page) -> Result<(), PageFault>
    requires { 1 ≤ own_number page.now.bytes }
    ensures stages { StagesOnly S.PageStore store.old store.new }
    ensures few { length (S.state store.new).staged ≤ length (S.state store.old).staged + 1 }
    ensures faults { S.faults store.new ≡ S.faults store.old }
    ensures answer { IsStageAnswer S.reserved (S.state store.old)
        (own_number page.now.bytes) result }
    ensures shown { S.honest store.old → OnOk result (page.now.bytes
        ≡ visible_page S.PageStore store.new (own_number page.now.bytes)) }
    ensures others { S.honest store.old → (n : ℕ) → (n ≡ own_number page.now.bytes → ⊥)
        → body_at S.PageStore store.new n ≡ body_at S.PageStore store.old n }
    ensures known { (n : ℕ) → IsKnown (S.state store.old) n → IsKnown (S.state store.new) n }
    ensures may_end { (end : ℕ) → own_number page.now.bytes < end → MayEnd (S.state store.old) end
        → MayEnd (S.state store.new) end }
    ensures may_end_with { (end : ℕ)
        → MayEndWith (S.state store.old) (own_number page.now.bytes) end
        → OnOk result (MayEnd (S.state store.new) end) }
{
    store.stage(page.own(), page)
}

/// Tells the store of which version a page of it is known to be a bucket page, if it is of one.
fn tell<S: PageStore>(store: &mut S, page: &Page, known: Option<Version>)
    requires known { IfSome known (λ version. IsPageOf (model_version version) page.now.bytes) }
    requires shown { S.honest store.old → page.now.bytes
        ≡ visible_page S.PageStore store.old (own_number page.now.bytes) }
    ensures reads { ReadsOnly S.PageStore store.old store.new }
    ensures faults { S.faults store.new ≡ S.faults store.old }
{
    if let Some(version) = known {
        store.note(page.own(), page, version);
    }
}

/// Stages a page in the place of its own number, which isn't 0. The store is told of which version
/// it is known to be a bucket page, so that it need not be looked at where it is read again.
pub fn stage_page<S: PageStore>(
    store: &mut S,
    page: &Page,
    known: Option<Version>,
) -> Result<(), PageFault>
    requires own { 1 ≤ own_number page.now.bytes }
    requires known { IfSome known (λ version. IsPageOf (model_version version) page.now.bytes) }
    ensures stages { StagesOnly S.PageStore store.old store.new }
    ensures few { length (S.state store.new).staged ≤ length (S.state store.old).staged + 1 }
    ensures faults { S.faults store.new ≡ S.faults store.old }
    ensures answer { IsStageAnswer S.reserved (S.state store.old)
        (own_number page.now.bytes) result }
    ensures says { S.honest store.old
        → OnOk result (body_at S.PageStore store.new (own_number page.now.bytes)
        ≡ body_of (own_number page.now.bytes) page.now.bytes) }
    ensures others { S.honest store.old → (n : ℕ) → (n ≡ own_number page.now.bytes → ⊥)
        → body_at S.PageStore store.new n ≡ body_at S.PageStore store.old n }
    ensures known { (n : ℕ) → IsKnown (S.state store.old) n → IsKnown (S.state store.new) n }
    ensures may_end { (end : ℕ) → own_number page.now.bytes < end → MayEnd (S.state store.old) end
        → MayEnd (S.state store.new) end }
    ensures may_end_with { (end : ℕ)
        → MayEndWith (S.state store.old) (own_number page.now.bytes) end
        → OnOk result (MayEnd (S.state store.new) end) }
{
    stage_own(store, page)?;
    tell(store, page, known);
    Ok(())
}
