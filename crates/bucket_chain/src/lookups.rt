//! Looking a key up.

ghost use Rattle.std.specs.Prelude.{IfOk, IfSome, IsErrOf};
ghost use Rattle.page_io.specs.Calls.{IsReadingCall};
ghost use Rattle.page_io.specs.Views.{body_at};
ghost use Rattle.page_io.specs.Versions.{model_version};
ghost use Rattle.page_io.specs.declared.store.PageFault.TheVariants.{Damaged};
ghost use Rattle.bucket_chain.specs.Chains.{ForEachChain};
ghost use Rattle.bucket_chain.specs.Walks.{IsLookup, IsLookedUp, CanLook};
ghost use Rattle.bucket_chain.specs.WalkAnswers.{IsWalkAnswer};
ghost use Rattle.page_io.specs.BucketPages.{IsPageOf, page_records};
ghost use Rattle.slot_page.specs.Contents.{HasKeyAt};

use crate::Place;
use crate::link::{HEAD, OVERFLOW, read_link};
use page_io::{Page, PageFault, PageStore, Version};
use slot_page::find;

/// Where the chain from page `head` on has the key; `page` is then its page. It takes no memory
/// of its own. Damaged is answered where a page has another number or kind than the chain says, is
/// no bucket page, or is an empty overflow page, and where there are more pages than the file has.
pub fn lookup<S: PageStore>(
    store: &mut S,
    head: u32,
    key: &[u8],
    page: &mut Page,
    version: Version,
) -> Result<Option<Place>, PageFault>
    ensures reads { IsReadingCall S.PageStore store.old store.new result }
    ensures answer { IsWalkAnswer (S.state store.old) result }
    ensures held { IfOk result (λ place.
        IfSome place (λ at. IsPageOf (model_version version) page.new.bytes
        × HasKeyAt key.now (page_records page.new.bytes) at.slot)) }
    ensures walked { S.honest store.old
        → IfOk result (λ place. IsLookup (body_at S.PageStore store.old) head key.now
        page.new.bytes place) }

    // On a chain that is read as one it answers the first of the key's entries, and never Damaged.
    ensures exact { ForEachChain (model_version version) S.PageStore store.old head (λ chain.
        IfOk result (λ place. IsLookedUp key.now chain page.new.bytes place)) }
    ensures whole { ForEachChain (model_version version) S.PageStore store.old head
        (λ chain. IsErrOf result Damaged → ⊥) }

    // It is never Damaged either where only other pages are than those that it reads.
    ensures readable { S.honest store.old
        → CanLook (model_version version) (body_at S.PageStore store.old)
        (S.state store.old).end head key.now
        → IsErrOf result Damaged → ⊥ }
{
    let mut at = head;
    let mut kind = HEAD;
    for _step in 0..store.end() {
        let next = read_link(store, at, kind, page, version)?;
        if let Some(slot) = find(page, key) {
            return Ok(Some(Place { page: at, slot }));
        }
        if next == 0 {
            return Ok(None);
        }
        at = next;
        kind = OVERFLOW;
    }
    Err(PageFault::Damaged)
}
