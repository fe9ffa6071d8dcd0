//! A page of a chain, and which one follows it.

ghost use Rattle.std.specs.Prelude.{◌≡◌, ◌⊎◌, ◌<◌, ◌≤◌, ℕ, List, Some, IfOk, IfErr, IfSome, OnOk, IsErrOf};
ghost use Rattle.page_model.specs.Pages.{Record};
ghost use Rattle.page_io.specs.Calls.{IsReadingCall};
ghost use Rattle.page_io.specs.Store.{IsKnown};
ghost use Rattle.page_io.specs.Views.{visible_page, body_at, ReadsOnly};
ghost use Rattle.page_io.specs.Versions.{model_version};
ghost use Rattle.page_io.specs.declared.store.PageFault.TheVariants.{Damaged};
ghost use Rattle.page_io.specs.BucketPages.{IsPageOf, page_records};
ghost use Rattle.bucket_chain.specs.Links.{IsLink, SaysLink};
ghost use Rattle.bucket_chain.specs.WalkAnswers.{IsWalkAnswer};

use page_io::{Page, PageFault, PageStore, Version};
use slot_page::is_bucket_page;

/// The kind of a bucket's head page.
pub const HEAD: u8 = 3;

/// The kind of an overflow page.
pub const OVERFLOW: u8 = 4;

/// What follows a bucket page in its chain, 0 for none, if it is page `n` and has this kind. An empty
/// overflow page is no page of a chain.
fn next_of(page: &Page, n: u32, kind: u8, version: Version) -> Option<u32>
    requires { IsPageOf (model_version version) page.now.bytes }
    ensures sound { IfSome result
        (λ next. IsLink (model_version version) page.now.bytes n kind next
        (page_records page.now.bytes)) }
    ensures every { (next : ℕ) (records : List Record)
        → IsLink (model_version version) page.now.bytes n kind next records
        → result ≡ Some next }
{
    if page.own() != n || page.kind() != kind {
        return None;
    }
    let is_empty = page.slots() == 0;
    if kind == OVERFLOW && is_empty {
        return None;
    }
    Some(page.next())
}

/// Looks at a page that was read as page `n`, which is Damaged where it is no bucket page of the
/// version. The store is told of one.
fn look_at<S: PageStore>(
    store: &mut S,
    n: u32,
    page: &Page,
    version: Version,
) -> Result<(), PageFault>
    requires { S.honest store.old → page.now.bytes ≡ visible_page S.PageStore store.old n }
    ensures reads { ReadsOnly S.PageStore store.old store.new }
    ensures faults { S.faults store.new ≡ S.faults store.old }
    ensures bucket { OnOk result (IsPageOf (model_version version) page.now.bytes) }
    ensures damaged { IfErr result (λ e. (e ≡ Damaged)
        × (IsPageOf (model_version version) page.now.bytes → ⊥)) }
{
    if !is_bucket_page(page, version) {
        return Err(PageFault::Damaged);
    }
    store.note(n, page, version);
    Ok(())
}

/// Reads page `n`, which is Damaged where it is no bucket page of the version. The page isn't looked
/// at where the store knows it.
fn read_bucket_page<S: PageStore>(
    store: &mut S,
    n: u32,
    page: &mut Page,
    version: Version,
) -> Result<(), PageFault>
    ensures reads { IsReadingCall S.PageStore store.old store.new result }
    ensures answer { IsWalkAnswer (S.state store.old) result }
    ensures known { OnOk result (IsKnown (S.state store.old) n) }
    ensures bucket { OnOk result (IsPageOf (model_version version) page.new.bytes) }
    ensures found { S.honest store.old
        → OnOk result (page.new.bytes ≡ visible_page S.PageStore store.old n) }
    ensures damaged { S.honest store.old → IsErrOf result Damaged
        → (IsKnown (S.state store.old) n → ⊥)
        ⊎ ((page.new.bytes ≡ visible_page S.PageStore store.old n)
        × (IsPageOf (model_version version) page.new.bytes → ⊥)) }
{
    let known = store.read(n, page)?;
    match known {
        Some(known) if known == version => Ok(()),
        _ => look_at(store, n, page, version),
    }
}

/// Reads page `n` as a page of a chain in a file of the version, and answers the next one, 0 for
/// none.
pub fn read_link<S: PageStore>(
    store: &mut S,
    n: u32,
    kind: u8,
    page: &mut Page,
    version: Version,
) -> Result<u32, PageFault>
    requires { (kind ≡ 3) ⊎ (kind ≡ 4) }
    ensures reads { IsReadingCall S.PageStore store.old store.new result }
    ensures answer { IsWalkAnswer (S.state store.old) result }
    ensures known { OnOk result ((1 ≤ n) × IsKnown (S.state store.old) n) }
    ensures link { IfOk result (λ next.
        IsLink (model_version version) page.new.bytes n kind next (page_records page.new.bytes)) }
    ensures says { S.honest store.old
        → IfOk result (λ next. SaysLink (model_version version)
        (body_at S.PageStore store.old) n kind next (page_records page.new.bytes)) }
    ensures whole { S.honest store.old → (next : ℕ) (records : List Record) → 1 ≤ n
        → SaysLink (model_version version) (body_at S.PageStore store.old) n kind next records
        → IsErrOf result Damaged → ⊥ }
{
    read_bucket_page(store, n, page, version)?;
    next_of(page, n, kind, version).ok_or(PageFault::Damaged)
}

/// Page `n` of a chain and what follows it, 0 for none, where the store lends that page and knows it.
pub fn lent_link<S: PageStore>(
    store: &S,
    n: u32,
    kind: u8,
    version: Version,
) -> Option<(&Page, u32)>
    requires { (kind ≡ 3) ⊎ (kind ≡ 4) }
    ensures known { IfSome result (λ lent. (1 ≤ n) × IsKnown (S.state store.now) n) }
    ensures link { IfSome result (λ lent. IsLink (model_version version) lent.0.now.bytes n kind
        lent.1 (page_records lent.0.now.bytes)) }
    ensures says { S.honest store.now
        → IfSome result (λ lent. SaysLink (model_version version) (body_at S.PageStore store.now)
        n kind lent.1 (page_records lent.0.now.bytes)) }
{
    let lent = store.lend(n)?;
    if lent.known != Some(version) {
        return None;
    }
    let next = next_of(lent.page, n, kind, version)?;
    Some((lent.page, next))
}
