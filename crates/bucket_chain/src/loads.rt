//! All records of a chain, read.

ghost use Rattle.std.specs.Prelude.{◌≡◌, ◌++◌, ◌<◌, All, length, map, IfOk, OnOk, IsErrOf};
ghost use Rattle.std.specs.List.{HoldsAt};
ghost use Rattle.page_model.specs.Chain.{entries_in, record_of};
ghost use Rattle.page_io.specs.Calls.{IsReadingCall};
ghost use Rattle.page_io.specs.Versions.{model_version};
ghost use Rattle.page_io.specs.Views.{body_at};
ghost use Rattle.page_io.specs.declared.store.PageFault.TheVariants.{Damaged};
ghost use Rattle.page_io.specs.BucketPages.{IsBucketPage, page_records};
ghost use Rattle.bucket_chain.specs.Chains.{ForEachChain};
ghost use Rattle.bucket_chain.specs.Pairs.{record_as, IsSmall};
ghost use Rattle.bucket_chain.specs.Walks.{SaysAll};
ghost use Rattle.bucket_chain.specs.WalkAnswers.{IsLoadAnswer};

use crate::Pair;
use crate::link::{HEAD, OVERFLOW, read_link};
use page_io::{Page, PageFault, PageStore, Version};
use slot_page::{far_at, pair_at};
use std::alloc::{AllocError, Global};

/// A copy of the record in a slot.
fn load_pair(alloc: Global, page: &Page, slot: usize) -> Result<Pair, AllocError>
    requires page { IsBucketPage page.now.bytes }
    requires within { slot < length (page_records page.now.bytes) }
    ensures { IfOk result (λ pair.
        HoldsAt (λ r. r ≡ record_as pair) (page_records page.now.bytes) slot) }
{
    let (key, content) = pair_at(page, slot);
    let key = Vec::from_slice(alloc, key)?;
    let content = Vec::from_slice(alloc, content)?;
    let far = far_at(page, slot).map(|(_, long)| long);
    Ok(Pair { key, content, far })
}

/// Appends the records of a page, slot by slot.
fn load_page(alloc: Global, page: &Page, pairs: &mut Vec<Pair>) -> Result<(), AllocError>
    requires { IsBucketPage page.now.bytes }
    ensures { OnOk result (map record_as pairs.new.items ≡ map record_as pairs.old.items
        ++ page_records page.now.bytes) }
{
    for slot in 0..page.slots() as usize {
        let pair = load_pair(alloc, page, slot)?;
        pairs.push(pair)?;
    }
    Ok(())
}

/// All records of the chain from page `head` on, page by page and slot by slot. Damaged is answered
/// as by `lookup`.
pub fn load_all<S: PageStore>(
    alloc: Global,
    store: &mut S,
    head: u32,
    version: Version,
) -> Result<Vec<Pair>, PageFault>
    ensures reads { IsReadingCall S.PageStore store.old store.new result }
    ensures answer { IsLoadAnswer (S.state store.old) result }
    ensures small { IfOk result (λ pairs.
        All (λ pair. IsSmall (model_version version) (record_as pair)) pairs.items) }
    ensures walked { S.honest store.old
        → IfOk result (λ pairs. SaysAll (body_at S.PageStore store.old) head
        (map record_as pairs.items)) }

    // Of a chain that is read as one it is the records of its entries, and never Damaged.
    ensures exact { ForEachChain (model_version version) S.PageStore store.old head (λ chain.
        IfOk result (λ pairs. map record_as pairs.items ≡ map record_of (entries_in chain))) }
    ensures whole { ForEachChain (model_version version) S.PageStore store.old head
        (λ chain. IsErrOf result Damaged → ⊥) }
{
    let mut pairs = Vec::new(alloc);
    let mut page = Page::blank();
    let mut at = head;
    let mut kind = HEAD;
    for _step in 0..store.end() {
        let next = read_link(store, at, kind, &mut page, version)?;
        load_page(alloc, &page, &mut pairs).map_err(|_| PageFault::Memory)?;
        if next == 0 {
            return Ok(pairs);
        }
        at = next;
        kind = OVERFLOW;
    }
    Err(PageFault::Damaged)
}
