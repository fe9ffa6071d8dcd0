//! The next key of a pass in a chain.

ghost use Rattle.std.specs.Prelude.{◌≡◌, ◌⊎◌, ◌↔◌, ◌++◌, ◌<◌, ◌≤◌, ℕ, List, map, option_copied, OnOk, IfOk, IfSome, IfNone, IsErrOf, IsTrue};
ghost use Rattle.dbm_model.specs.KeyOrder.{ComesBefore};
ghost use Rattle.dbm_model.specs.Pairs.{Key, Pair};
ghost use Rattle.dbm_model.specs.Steps.{IsAhead};
ghost use Rattle.page_model.specs.Pages.{Record};
ghost use Rattle.page_model.specs.Chain.{pairs_in};
ghost use Rattle.page_io.specs.Calls.{IsReadingCall};
ghost use Rattle.page_io.specs.Store.{IsKnown};
ghost use Rattle.page_io.specs.Views.{body_at};
ghost use Rattle.page_io.specs.Versions.{model_version};
ghost use Rattle.page_io.specs.declared.store.PageFault.TheVariants.{Damaged};
ghost use Rattle.page_io.specs.BucketPages.{page_records};
ghost use Rattle.slot_page.specs.Contents.{HasKeyAt};
ghost use Rattle.bucket_chain.specs.WalkAnswers.{IsWalkAnswer};
ghost use Rattle.bucket_chain.specs.Bests.{pass_from, slot_of, IsRankedAt, IsHeadRead};
ghost use Rattle.bucket_chain.specs.Chains.{record_pair, ForEachChain};
ghost use Rattle.bucket_chain.specs.Links.{SaysLink};
ghost use Rattle.bucket_chain.specs.Leasts.{pass_behind, IsLeast, IsLeastRead, IsAheadAt};

use crate::RankedPage;
use crate::link::{HEAD, OVERFLOW, lent_link, read_link};
use lin_addr::Ranked;
use page_io::{Page, PageFault, PageStore, Version};
use slot_page::pair_at;
use std::mem::swap;

/// A key by its slot in its page, as the best one so far, with its rank.
#[derive(Clone, Copy)]
struct Best {
    slot: usize,
    rank: u32,
}

fn slot_in(best: Option<Best>) -> Option<usize>
    ensures { result ≡ slot_of best }
{
    best.map(|best| best.slot)
}

/// The last key of a pass, with its rank.
fn ranked_last(last: Option<&[u8]>) -> Option<Ranked<'_>>
    ensures { pass_from result ≡ pass_behind (option_copied last.entry) }
{
    last.map(Ranked::of)
}

/// The key in a slot, with the rank that was taken of it.
fn ranked_at(page: &RankedPage, best: Best) -> Ranked<'_>
    requires { IsRankedAt page.now best }
    ensures { HasKeyAt result.key.now (page_records page.now) best.slot }
{
    Ranked {
        key: pair_at(page.page(), best.slot).0,
        rank: best.rank,
    }
}

/// Whether the pass that gave `last` has the key in a slot before it. The key is read only where
/// its rank is that of `last`.
fn is_behind(last: Option<Ranked<'_>>, page: &RankedPage, at: Best) -> bool
    requires { IsRankedAt page.now at }
    ensures { (key : Key) → HasKeyAt key (page_records page.now) at.slot
        → IsTrue result ↔ IsAhead (pass_from last.entry) key }
{
    match last {
        Some(last) => {
            if last.rank == at.rank {
                last.comes_before(&ranked_at(page, at))
            } else {
                last.rank < at.rank
            }
        }
        None => true,
    }
}

/// Whether the key in a slot of `look` comes before the best one so far, which is one of `page`.
/// They are read only where they have one rank.
fn is_better(look: &RankedPage, at: Best, page: &RankedPage, best: Option<Best>) -> bool
    requires at { IsRankedAt look.now at }
    requires best { IfSome best (IsRankedAt page.now) }
    ensures first { IfNone best (IsTrue result) }
    ensures before { IfSome best (λ held. (key other : Key)
        → HasKeyAt key (page_records look.now) at.slot
        → HasKeyAt other (page_records page.now) held.slot
        → IsTrue result ↔ ComesBefore key other) }
{
    match best {
        Some(best) => {
            if at.rank == best.rank {
                ranked_at(look, at).comes_before(&ranked_at(page, best))
            } else {
                at.rank < best.rank
            }
        }
        None => true,
    }
}

/// The least of the page's keys behind `last`.
fn least_in(page: &RankedPage, last: Option<Ranked<'_>>) -> Option<Best>
    ensures ranked { IfSome result (IsRankedAt page.now) }
    ensures least { IsLeast (map record_pair (page_records page.now))
        (pass_from last.entry) page.now (slot_of result) }
{
    let ranks = page.ranks();
    let mut best = None;
    for slot in 0..ranks.len() {
        let at = Best {
            slot,
            rank: ranks[slot],
        };
        if is_behind(last, page, at) && is_better(page, at, page, best) {
            best = Some(at);
        }
    }
    best
}

/// The lesser key: the best one so far, which is one of `ranked`, or the least of `look`; `ranked` is
/// then its page.
fn best_of(
    ranked: &mut RankedPage,
    best: Option<Best>,
    look: &mut RankedPage,
    last: Option<Ranked<'_>>,
) -> Option<Best>
    requires { IfSome best (IsRankedAt ranked.old) }
    ensures ranked { IfSome result (IsRankedAt ranked.new) }
    ensures least { (pairs : List Pair)
        → IsLeast pairs (pass_from last.entry) ranked.old (slot_of best)
        → IsLeast (pairs ++ map record_pair (page_records look.old))
        (pass_from last.entry) ranked.new (slot_of result) }
{
    let Some(least) = least_in(look, last) else {
        return best;
    };
    if !is_better(look, least, ranked, best) {
        return best;
    }
    swap(ranked, look);
    Some(least)
}

/// Which page follows page `n` of a chain, 0 for none; `ranked` is then page `n`. That is read into
/// `page` where the store doesn't lend it. Damaged is answered as by `read_link`.
fn ranked_link<S: PageStore>(
    store: &mut S,
    n: u32,
    kind: u8,
    page: &mut Page,
    ranked: &mut RankedPage,
    version: Version,
) -> Result<u32, PageFault>
    requires { (kind ≡ 3) ⊎ (kind ≡ 4) }
    ensures reads { IsReadingCall S.PageStore store.old store.new result }
    ensures answer { IsWalkAnswer (S.state store.old) result }
    ensures known { OnOk result ((1 ≤ n) × IsKnown (S.state store.old) n) }
    ensures says { S.honest store.old
        → IfOk result (λ next. SaysLink (model_version version)
        (body_at S.PageStore store.old) n kind next (page_records ranked.new)) }
    ensures whole { S.honest store.old → (next : ℕ) (records : List Record) → 1 ≤ n
        → SaysLink (model_version version) (body_at S.PageStore store.old) n kind next records
        → IsErrOf result Damaged → ⊥ }
{
    if let Some((lent, next)) = lent_link(store, n, kind, version) {
        ranked.set_page(lent);
        store.promote(n);
        return Ok(next);
    }
    let next = read_link(store, n, kind, page, version)?;
    ranked.set_page(page);
    Ok(next)
}

/// The slot of the least key of a chain, where `best` is that of its head page, which is `ranked`,
/// and the overflow pages begin at page `first`; `ranked` is then its page.
// Not inlined: its page and its ranks would be made ready for chains of one page too.
#[inline(never)]
fn least_with_overflow<S: PageStore>(
    store: &mut S,
    first: u32,
    last: Option<Ranked<'_>>,
    mut best: Option<Best>,
    page: &mut Page,
    ranked: &mut RankedPage,
    version: Version,
) -> Result<Option<usize>, PageFault>
    requires { IfSome best (IsRankedAt ranked.old) }
    ensures reads { IsReadingCall S.PageStore store.old store.new result }
    ensures answer { IsWalkAnswer (S.state store.old) result }
    ensures ahead { (records : List Record)
        → IsLeast (map record_pair records) (pass_from last.entry) ranked.old (slot_of best)
        → IfOk result (λ found. IfSome found (λ slot.
        IsAheadAt (pass_from last.entry) ranked.new slot)) }
    ensures walked { (head : ℕ) (records : List Record) → S.honest store.old
        → IsHeadRead (model_version version) (body_at S.PageStore store.old) head first records
        → IsLeast (map record_pair records) (pass_from last.entry) ranked.old (slot_of best)
        → IfOk result (λ found. IsLeastRead (body_at S.PageStore store.old) head
        (pass_from last.entry) ranked.new found) }
    ensures exact { (head : ℕ) (records : List Record)
        → IsHeadRead (model_version version) (body_at S.PageStore store.old) head first records
        → IsLeast (map record_pair records) (pass_from last.entry) ranked.old (slot_of best)
        → ForEachChain (model_version version) S.PageStore store.old head (λ chain.
        IfOk result (λ found. IsLeast (pairs_in chain) (pass_from last.entry) ranked.new
        found)) }
    ensures whole { (head : ℕ) (records : List Record)
        → IsHeadRead (model_version version) (body_at S.PageStore store.old) head first records
        → IsLeast (map record_pair records) (pass_from last.entry) ranked.old (slot_of best)
        → ForEachChain (model_version version) S.PageStore store.old head
        (λ chain. IsErrOf result Damaged → ⊥) }
{
    let mut look = RankedPage::new();
    let mut at = first;
    for _step in 1..store.end() {
        let next = ranked_link(store, at, OVERFLOW, page, &mut look, version)?;
        best = best_of(ranked, best, &mut look, last);
        if next == 0 {
            return Ok(slot_in(best));
        }
        at = next;
    }
    Err(PageFault::Damaged)
}

/// The slot of the least key behind `last` in the chain from page `head` on, in the order of a
/// pass, or of the least of all where that is `None`; `ranked` is then its page. It looks into each
/// page of the chain once, at most as many as the file has, and reads those into `page` that the
/// store doesn't lend. It takes no memory of its own. The keys of a page are ranked where `ranked` is
/// of other bytes. Damaged is answered as by `lookup`.
pub fn least_behind<S: PageStore>(
    store: &mut S,
    head: u32,
    last: Option<&[u8]>,
    page: &mut Page,
    ranked: &mut RankedPage,
    version: Version,
) -> Result<Option<usize>, PageFault>
    ensures reads { IsReadingCall S.PageStore store.old store.new result }
    ensures answer { IsWalkAnswer (S.state store.old) result }

    // On any bytes a key is answered that is behind `last`.
    ensures ahead { IfOk result (λ found. IfSome found (λ slot.
        IsAheadAt (pass_behind (option_copied last.entry)) ranked.new slot)) }

    // On any file all pages of the chain were read.
    ensures walked { S.honest store.old
        → IfOk result (λ found. IsLeastRead (body_at S.PageStore store.old) head
        (pass_behind (option_copied last.entry)) ranked.new found) }

    // On a chain that is read as one it is the least of its keys, and Damaged is never answered.
    ensures exact { ForEachChain (model_version version) S.PageStore store.old head (λ chain.
        IfOk result (λ found. IsLeast (pairs_in chain)
        (pass_behind (option_copied last.entry)) ranked.new found)) }
    ensures whole { ForEachChain (model_version version) S.PageStore store.old head
        (λ chain. IsErrOf result Damaged → ⊥) }
{
    let last = ranked_last(last);
    let next = ranked_link(store, head, HEAD, page, ranked, version)?;
    let best = least_in(ranked, last);
    if next == 0 {
        return Ok(slot_in(best));
    }
    least_with_overflow(store, next, last, best, page, ranked, version)
}
