//! One key less in a chain.

ghost use Rattle.std.specs.Prelude.{◌≡◌, ◌+◌, ◌≤◌, ◌<◌, ◌++◌, ℕ, List, true, false, IfOk, IfSome, IsSome, OnOk, OnErr, IsErrOf, length};
ghost use Rattle.dbm_model.specs.Pairs.{Key};
ghost use Rattle.dbm_model.specs.Sizes.{pages_for};
ghost use Rattle.page_model.specs.PairLists.{times};
ghost use Rattle.page_model.specs.Pages.{Record};
ghost use Rattle.page_model.specs.Chain.{Chain, pairs_in};
ghost use Rattle.page_model.specs.Space.{Space};
ghost use Rattle.page_io.specs.Calls.{IsReadingCall, IsStagingCall};
ghost use Rattle.page_io.specs.Versions.{model_version};
ghost use Rattle.page_io.specs.Views.{body_at, MayEnd};
ghost use Rattle.page_io.specs.declared.store.PageFault.TheVariants.{Damaged};
ghost use Rattle.free_pages.specs.FreeList.{HasEnds, IsFreeList, IsApart, KeepsEnds};
ghost use Rattle.free_pages.specs.Giving.{AreGiven};
ghost use Rattle.bucket_chain.specs.WalkAnswers.{IsWalkAnswer};
ghost use Rattle.bucket_chain.specs.Chains.{IsChainAt};
ghost use Rattle.bucket_chain.specs.Links.{SaysLink};
ghost use Rattle.bucket_chain.specs.Walks.{IsKeyWalk};
ghost use Rattle.bucket_chain.specs.Answers.{IsRemoveAnswer};
ghost use Rattle.bucket_chain.specs.AnyFile.{AreToldPages, IsNoContent, emptied_page, AreGivenBack, IsUnlinked, IsTakenOut};
ghost use Rattle.bucket_chain.specs.Changes.{IsRemoved, LacksFar, ForEachPlaced};
ghost use Rattle.bucket_chain.specs.Hits.{IsLinkKind, IsHit, IsHitOrNone, IsHeldHit, IsRelinked, pages_told};

use crate::link::{HEAD, OVERFLOW, read_link};
use crate::staging::stage_page;
use content_pages::give_content;
use free_pages::{FreeState, give};
use page_io::{Page, PageFault, PageStore, Version};
use slot_page::{far_at, find, remove as remove_record, set_next};

/// Where a record is, the pages before and behind its page, 0 for none, and the first page and the
/// length of its content where that is far.
#[derive(Clone, Copy)]
struct Hit {
    page: u32,
    slot: usize,
    prior: u32,
    prior_kind: u8,
    next: u32,
    content: Option<(u32, u16)>,
}

/// Where the chain has the key; then `page` is its page. At most `most` pages are read.
fn find_hit<S: PageStore>(
    store: &mut S,
    head: u32,
    most: u32,
    key: &[u8],
    page: &mut Page,
    version: Version,
) -> Result<Option<Hit>, PageFault>
    ensures reads { IsReadingCall S.PageStore store.old store.new result }
    ensures answer { IsWalkAnswer (S.state store.old) result }
    ensures held { IfOk result (λ found. IfSome found
        (IsHeldHit (model_version version) (S.state store.old) key.now page.new.bytes)) }
    ensures walked { S.honest store.old
        → IfOk result (IsHitOrNone (model_version version) (body_at S.PageStore store.old) head
        key.now page.new.bytes) }
    ensures has { S.honest store.old
        → IfOk result (λ found. IsSome found
        → IsKeyWalk (body_at S.PageStore store.old) head key.now true) }
    ensures whole { S.honest store.old → (chain : Chain)
        → IsChainAt (model_version version) (body_at S.PageStore store.old) most head chain
        → IsErrOf result Damaged → ⊥ }
{
    let mut prior = 0;
    let mut prior_kind = HEAD;
    let mut at = head;
    let mut kind = HEAD;
    for _step in 0..most {
        let next = read_link(store, at, kind, page, version)?;
        if let Some(slot) = find(page, key) {
            return Ok(Some(Hit {
                page: at,
                slot,
                prior,
                prior_kind,
                next,
                content: far_at(page, slot),
            }));
        }
        if next == 0 {
            return Ok(None);
        }
        prior = at;
        prior_kind = kind;
        at = next;
        kind = OVERFLOW;
    }
    Err(PageFault::Damaged)
}

/// Lets page `n` of a chain name page `next`.
fn relink<S: PageStore>(
    store: &mut S,
    n: u32,
    kind: u8,
    next: u32,
    page: &mut Page,
    version: Version,
) -> Result<(), PageFault>
    requires { IsLinkKind kind }
    ensures stages { IsStagingCall S.PageStore store.old store.new result }
    ensures few { length (S.state store.new).staged ≤ length (S.state store.old).staged + 1 }
    ensures answer { IsRemoveAnswer S.reserved 0 (S.state store.old) result }
    ensures may_end { (end : ℕ) → MayEnd (S.state store.old) end
        → OnOk result (MayEnd (S.state store.new) end) }
    ensures says { S.honest store.old → (old_next : ℕ) (records : List Record)
        → SaysLink (model_version version) (body_at S.PageStore store.old) n kind old_next records
        → OnOk result (SaysLink (model_version version) (body_at S.PageStore store.new) n kind next
        records) }
    ensures relinked { S.honest store.old
        → OnOk result (IsRelinked (model_version version) (body_at S.PageStore store.old)
        (body_at S.PageStore store.new) n kind next) }
    ensures others { S.honest store.old → (m : ℕ) → (m ≡ n → ⊥)
        → body_at S.PageStore store.new m ≡ body_at S.PageStore store.old m }
    ensures whole { S.honest store.old → (old_next : ℕ) (records : List Record) → 1 ≤ n
        → SaysLink (model_version version) (body_at S.PageStore store.old) n kind old_next records
        → IsErrOf result Damaged → ⊥ }
{
    read_link(store, n, kind, page, version)?;
    set_next(page, next);
    stage_page(store, page, Some(version))
}

/// Takes a record that was found out of its page, which is read into `page`. Where it is alone in
/// an overflow page, that page leaves the chain, and `true` is answered.
fn unlink<S: PageStore>(
    store: &mut S,
    hit: Hit,
    page: &mut Page,
    version: Version,
) -> Result<bool, PageFault>
    requires { (key : Key)
        × IsHeldHit (model_version version) (S.state store.old) key page.old.bytes hit }
    ensures stages { IsStagingCall S.PageStore store.old store.new result }
    ensures few { length (S.state store.new).staged ≤ length (S.state store.old).staged + 1 }
    ensures answer { IsRemoveAnswer S.reserved 0 (S.state store.old) result }
    ensures may_end { (end : ℕ) → MayEnd (S.state store.old) end
        → OnOk result (MayEnd (S.state store.new) end) }
    ensures unlinked { S.honest store.old → (head : ℕ) (key : Key)
        (is : IsHit (model_version version) (body_at S.PageStore store.old) head key page.old.bytes
        hit)
        → IfOk result (λ emptied. IsUnlinked (model_version version) (body_at S.PageStore store.old)
        (body_at S.PageStore store.new) hit.slot emptied is.walked.walk.before is.walked.walk.leaf
        is.walked.walk.after) }
    ensures whole { S.honest store.old → (most head : ℕ) (key : Key) (chain : Chain)
        → IsChainAt (model_version version) (body_at S.PageStore store.old) most head chain
        → IsHit (model_version version) (body_at S.PageStore store.old) head key page.old.bytes hit
        → IsErrOf result Damaged → ⊥ }
{
    if hit.prior != 0 && page.slots() == 1 {
        relink(store, hit.prior, hit.prior_kind, hit.next, page, version)?;
        return Ok(true);
    }
    remove_record(page, hit.slot);
    stage_page(store, page, Some(version))?;
    Ok(false)
}

/// Gives the pages of the content of a record that was taken out, in order, and then its page where
/// that was emptied.
fn give_back<S: PageStore>(
    store: &mut S,
    space: &mut FreeState,
    hit: Hit,
    emptied: bool,
    page: &mut Page,
) -> Result<(), PageFault>
    requires { 1 ≤ hit.page }
    ensures stages { IsStagingCall S.PageStore store.old store.new result }
    ensures few { length (S.state store.new).staged
        ≤ length (S.state store.old).staged + pages_told hit.content + 1 }
    ensures answer { IsRemoveAnswer S.reserved (pages_told hit.content) (S.state store.old) result }
    ensures end { space.new.file_end ≡ space.old.file_end }
    ensures ends { HasEnds space.old → HasEnds space.new }
    ensures may_end { hit.page < space.old.file_end → MayEnd (S.state store.old) space.old.file_end
        → OnOk result (MayEnd (S.state store.new) space.new.file_end) }
    ensures given { S.honest store.old
        → (emptied ≡ true → IsNoContent (body_at S.PageStore store.old hit.page))
        → OnOk result (AreGivenBack (body_at S.PageStore store.old)
        (body_at S.PageStore store.new) space.old space.new hit.content emptied hit.page) }
    ensures exact { S.honest store.old → (pages : List ℕ)
        → (emptied ≡ true → IsNoContent (body_at S.PageStore store.old hit.page))
        → AreToldPages (body_at S.PageStore store.old) hit.content pages
        → OnOk result (AreGiven (body_at S.PageStore store.old) (body_at S.PageStore store.new)
        space.old space.new (pages ++ emptied_page emptied hit.page)) }
    ensures whole { S.honest store.old → (pages : List ℕ) (s : Space)
        → AreToldPages (body_at S.PageStore store.old) hit.content pages
        → IsFreeList (body_at S.PageStore store.old) space.old s
        → IsApart (pages ++ emptied_page emptied hit.page) s
        → length (pages ++ emptied_page emptied hit.page) + length s.free < s.end
        → IsErrOf result Damaged → ⊥ }
{
    if let Some((first, long)) = hit.content {
        give_content(store, space, first, long, page)?;
    }
    if emptied {
        give(store, space, hit.page)?;
    }
    Ok(())
}

/// Takes a key out of the chain from page `head` on, and answers whether it was there. The pages
/// of a far content are given to the free list, in order, and then an overflow page that becomes
/// empty, which leaves the chain. At most two pages of the chain are staged: the page, or where it
/// becomes empty the one before it and the page given. After an `Err` the caller has to unstage;
/// the `FreeState` is the old one. Damaged is answered as by `lookup` and `give_content`, and where
/// a page is to be given while as many are free as the file has. Pages are read into `page`.
pub fn remove<S: PageStore>(
    store: &mut S,
    space: &mut FreeState,
    head: u32,
    key: &[u8],
    page: &mut Page,
    version: Version,
) -> Result<bool, PageFault>
    ensures stages { IsStagingCall S.PageStore store.old store.new result }
    ensures few { length (S.state store.new).staged
        ≤ length (S.state store.old).staged + 1 + pages_for (model_version version) }
    ensures answer { IsRemoveAnswer S.reserved (pages_for (model_version version))
        (S.state store.old) result }
    ensures walked { S.honest store.old
        → IfOk result (λ was. IsKeyWalk (body_at S.PageStore store.old) head key.now was) }
    ensures absent { IfOk result (λ was.
        was ≡ false → (S.state store.new ≡ S.state store.old) × (space.new ≡ space.old)) }
    ensures err { OnErr result (space.new ≡ space.old) }
    ensures end { space.new.file_end ≡ space.old.file_end }
    ensures keeps { KeepsEnds (S.state store.old) (S.state store.new) space.old space.new result }

    // On any file the key's record is taken out of its page, or that page out of the chain.
    ensures taken_out { S.honest store.old
        → IfOk result (λ was. was ≡ true
        → IsTakenOut (model_version version) (body_at S.PageStore store.old)
        (body_at S.PageStore store.new) space.old space.new head key.now) }

    // On a chain and a free list that are read as such it leaves the model's, and is never Damaged.
    ensures exact { ForEachPlaced (model_version version) S.PageStore store.old space.old head
        (λ chain s. times key.now (pairs_in chain) ≤ 1
        → IfOk result (λ was. IsRemoved (body_at S.PageStore store.old)
        (body_at S.PageStore store.new) space.new (chain, s) key.now was)) }
    ensures whole { ForEachPlaced (model_version version) S.PageStore store.old space.old head
        (λ chain s. times key.now (pairs_in chain) ≤ 1 → IsErrOf result Damaged → ⊥) }

    // Where the key's content is near, two pages are staged at the most.
    ensures sparing { ForEachPlaced (model_version version) S.PageStore store.old space.old head
        (λ chain s. LacksFar key.now chain → IsRemoveAnswer S.reserved 1 (S.state store.old) result
        × (length (S.state store.new).staged ≤ length (S.state store.old).staged + 2)) }
{
    let Some(hit) = find_hit(store, head, space.file_end, key, page, version)? else {
        return Ok(false);
    };
    let emptied = unlink(store, hit, page, version)?;
    let mut given = *space;
    give_back(store, &mut given, hit, emptied, page)?;
    *space = given;
    Ok(true)
}
