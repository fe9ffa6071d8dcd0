//! Looking a key's content up, in pages that the store lends where they lie in memory.

ghost use Rattle.std.specs.Prelude.{◌≡◌, ◌⊎◌, ◌<◌, ◌≤◌, ℕ, List, IfOk, IfSome, IsErrOf, length};
ghost use Rattle.std.specs.List.{HoldsAt};
ghost use Rattle.page_model.specs.Pages.{Record};
ghost use Rattle.page_io.specs.BucketPages.{IsBucketPage, page_records};
ghost use Rattle.page_io.specs.Calls.{IsReadingCall};
ghost use Rattle.page_io.specs.Store.{IsKnown};
ghost use Rattle.page_io.specs.Versions.{model_version};
ghost use Rattle.page_io.specs.Views.{body_at};
ghost use Rattle.page_io.specs.declared.store.PageFault.TheVariants.{Damaged};
ghost use Rattle.bucket_chain.specs.Chains.{ForEachChain};
ghost use Rattle.bucket_chain.specs.ContentLookups.{TellsContent, IsLookIn, IsContentLook, IsContentFound, IsOfVersion};
ghost use Rattle.bucket_chain.specs.Links.{IsLink, SaysLink};
ghost use Rattle.bucket_chain.specs.WalkAnswers.{IsWalkAnswer};
ghost use Rattle.bucket_chain.specs.Walks.{CanLook};

use crate::link::{HEAD, OVERFLOW, lent_link, read_link};
use arrayvec::ArrayVec;
use page_io::{Page, PageFault, PageStore, Version};
use slot_page::{MAX_NEAR, far_at, find, pair_at};

/// Room for a content that lies beside its key.
pub type NearContent = ArrayVec<u8, MAX_NEAR>;

/// Where a content is that was found.
#[derive(Clone, Copy, Debug, PartialEq, Eq)]
pub enum FoundContent {
    /// In the room that the look was handed.
    Near,
    /// In pages of its own: the first of them, and how many bytes it has.
    Far { first: u32, long: u16 },
}

/// What a page of a chain has: the page that follows it, 0 for none, and the key's content.
#[derive(Drop)]
struct PageLook {
    next: u32,
    found: Option<FoundContent>,
}

/// The content that the record in a slot tells, which is put into the room where it is near.
fn tell_content(page: &Page, slot: usize, room: &mut NearContent) -> FoundContent
    requires page { IsBucketPage page.now.bytes }
    requires within { slot < length (page_records page.now.bytes) }
    ensures { HoldsAt (λ r. TellsContent r room.new.items result) (page_records page.now.bytes)
        slot }
{
    if let Some((first, long)) = far_at(page, slot) {
        return FoundContent::Far { first, long };
    }
    let (_, content) = pair_at(page, slot);
    room.clear();
    let _ = room.try_extend_from_slice(content);
    FoundContent::Near
}

/// The content of the key, where the page has its record.
fn look_in(page: &Page, key: &[u8], room: &mut NearContent) -> Option<FoundContent>
    requires { IsBucketPage page.now.bytes }
    ensures { IsLookIn key.now (page_records page.now.bytes) room.new.items result }
{
    let slot = find(page, key)?;
    Some(tell_content(page, slot, room))
}

/// Looks for the key in page `n` of a chain. It is read into `page` where the store doesn't lend it.
/// Damaged is answered as by `read_link`.
fn look<S: PageStore>(
    store: &mut S,
    n: u32,
    kind: u8,
    key: &[u8],
    room: &mut NearContent,
    page: &mut Page,
    version: Version,
) -> Result<PageLook, PageFault>
    requires { (kind ≡ 3) ⊎ (kind ≡ 4) }
    ensures reads { IsReadingCall S.PageStore store.old store.new result }
    ensures answer { IsWalkAnswer (S.state store.old) result }
    ensures known { IfOk result (λ look. (1 ≤ n) × IsKnown (S.state store.old) n) }
    ensures looked { IfOk result (λ look. (bytes : List ℕ)
        × IsLink (model_version version) bytes n kind look.next (page_records bytes)
        × IsLookIn key.now (page_records bytes) room.new.items look.found
        × (S.honest store.old → SaysLink (model_version version) (body_at S.PageStore store.old) n
        kind look.next (page_records bytes))) }
    ensures whole { S.honest store.old → (next : ℕ) (records : List Record) → 1 ≤ n
        → SaysLink (model_version version) (body_at S.PageStore store.old) n kind next records
        → IsErrOf result Damaged → ⊥ }
{
    if let Some((lent, next)) = lent_link(store, n, kind, version) {
        let found = look_in(lent, key, room);
        store.promote(n);
        return Ok(PageLook { next, found });
    }
    let next = read_link(store, n, kind, page, version)?;
    let found = look_in(page, key, room);
    Ok(PageLook { next, found })
}

/// Where the content is that the chain from page `head` on has under the key. A content that lies
/// beside its key is put into `room`. The pages that the store doesn't lend are read into `page`.
/// It takes no memory of its own. Damaged is answered as by `lookup`.
pub fn lookup_content<S: PageStore>(
    store: &mut S,
    head: u32,
    key: &[u8],
    room: &mut NearContent,
    page: &mut Page,
    version: Version,
) -> Result<Option<FoundContent>, PageFault>
    ensures reads { IsReadingCall S.PageStore store.old store.new result }
    ensures answer { IsWalkAnswer (S.state store.old) result }

    // On any device a far content has a length that the version allows.
    ensures of_version { IfOk result (λ found. IfSome found
        (IsOfVersion (model_version version) key.now)) }
    ensures walked { S.honest store.old
        → IfOk result (IsContentLook (body_at S.PageStore store.old) head key.now
        room.new.items) }

    // On a chain that is read as one it is that of the first of the key's entries, and Damaged is
    // never answered.
    ensures exact { ForEachChain (model_version version) S.PageStore store.old head (λ chain.
        IfOk result (IsContentFound key.now chain room.new.items)) }
    ensures whole { ForEachChain (model_version version) S.PageStore store.old head
        (λ chain. IsErrOf result Damaged → ⊥) }

    // It is never Damaged either where only other pages are than those that it reads.
    ensures readable { S.honest store.old
        → CanLook (model_version version) (body_at S.PageStore store.old)
        (S.state store.old).end head key.now
        → IsErrOf result Damaged → ⊥ }
{
    let mut at = head;
    let mut kind = HEAD;
    for _step in 0..store.end() {
        let look = look(store, at, kind, key, room, page, version)?;
        if look.found.is_some() {
            return Ok(look.found);
        }
        if look.next == 0 {
            return Ok(None);
        }
        at = look.next;
        kind = OVERFLOW;
    }
    Err(PageFault::Damaged)
}
