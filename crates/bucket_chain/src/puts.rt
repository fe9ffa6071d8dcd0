//! One more pair in a chain.

ghost use Rattle.std.specs.Prelude.{◌≡◌, ◌+◌, ◌≤◌, ◌<◌, ◌∷◌, [], true, false, IfOk, IfSome, OnOk, IsErrOf, length};
ghost use Rattle.dbm_model.specs.Pairs.{IsAllowed, is_far};
ghost use Rattle.page_model.specs.PairLists.{times};
ghost use Rattle.page_model.specs.Chain.{Chain, Entry, content_pages, pairs_in, pages_in, has_room, record_of};
ghost use Rattle.page_io.specs.Calls.{IsReadingCall, IsStagingCall};
ghost use Rattle.page_io.specs.BucketPages.{IsBucketPage, page_records};
ghost use Rattle.page_io.specs.Store.{IsKnown};
ghost use Rattle.page_io.specs.Versions.{model_version};
ghost use Rattle.page_io.specs.Views.{body_at, MayEnd};
ghost use Rattle.page_io.specs.declared.store.PageFault.TheVariants.{NoRoom, Damaged};
ghost use Rattle.free_pages.specs.FreeList.{KeepsEnds};
ghost use Rattle.slot_page.specs.Contents.{IsAbsent};
ghost use Rattle.bucket_chain.specs.WalkAnswers.{IsWalkAnswer};
ghost use Rattle.bucket_chain.specs.Chains.{IsChainAt};
ghost use Rattle.bucket_chain.specs.Pairs.{record_as, IsSmall};
ghost use Rattle.bucket_chain.specs.Answers.{IsPutAnswer};
ghost use Rattle.bucket_chain.specs.AnyFile.{IsAdded, IsPut};
ghost use Rattle.bucket_chain.specs.Changes.{BecomesPlaced, AreHeld, put_in, put_pair, ForEachPlaced};
ghost use Rattle.bucket_chain.specs.Records.{as_record};
ghost use Rattle.bucket_chain.specs.Spots.{IsSpotPage, IsSpot};

use crate::Pair;
use crate::link::{HEAD, OVERFLOW, read_link};
use crate::staging::stage_page;
use content_pages::put_content;
use free_pages::{FreeState, take};
use page_io::{Page, PageFault, PageStore, Version};
use slot_page::{MAX_NEAR, add_record, empty, find, fits, set_next};

/// A record that is to be added: a key and the bytes behind it, and where the content is far its
/// length.
#[derive(Clone, Copy)]
struct Record<'a> {
    key: &'a [u8],
    bytes: &'a [u8],
    far: Option<u16>,
}

/// The page to which a record goes, or behind which a page is to be taken for it.
#[derive(Clone, Copy)]
pub struct Spot {
    page: u32,
    has_room: bool,
}

/// The first page of the chain with room for the record, else its last page, read into `page`. At
/// most `most` pages are read.
fn find_spot<S: PageStore>(
    store: &mut S,
    head: u32,
    most: u32,
    added: Record,
    page: &mut Page,
    version: Version,
) -> Result<Spot, PageFault>
    ensures reads { IsReadingCall S.PageStore store.old store.new result }
    ensures answer { IsWalkAnswer (S.state store.old) result }
    ensures known { IfOk result (λ spot. (1 ≤ spot.page) × IsKnown (S.state store.old) spot.page) }
    ensures page { IfOk result (λ spot.
        IsSpotPage (model_version version) (as_record added.entry) page.new.bytes spot) }
    ensures found { S.honest store.old
        → IfOk result (λ spot. IsSpot (model_version version) (body_at S.PageStore store.old) head
        (as_record added.entry) page.new.bytes spot) }
    ensures whole { S.honest store.old → (chain : Chain)
        → IsChainAt (model_version version) (body_at S.PageStore store.old) most head chain
        → IsErrOf result Damaged → ⊥ }
{
    let mut at = head;
    let mut kind = HEAD;
    for _step in 0..most {
        let next = read_link(store, at, kind, page, version)?;
        let has_room = fits(page, added.key, added.bytes);
        if has_room || next == 0 {
            return Ok(Spot { page: at, has_room });
        }
        at = next;
        kind = OVERFLOW;
    }
    Err(PageFault::Damaged)
}

/// The version of the page once a record of this key is added, which is none where a record of the
/// page has the key already.
fn version_beside(page: &Page, key: &[u8], version: Version) -> Option<Version>
    requires { IsBucketPage page.now.bytes }
    ensures { IfSome result (λ told.
        (told ≡ version) × IsAbsent key.now (page_records page.now.bytes)) }
{
    match find(page, key) {
        Some(_) => None,
        None => Some(version),
    }
}

/// Adds a record to the chain from page `head` on: to the first page that it fits, as the last
/// slot, else to a page that is taken and becomes the last. The key must not be in the chain
/// already. The pages of the chain are read into `page`.
fn add_to_chain<S: PageStore>(
    store: &mut S,
    space: &mut FreeState,
    head: u32,
    added: Record,
    page: &mut Page,
    version: Version,
) -> Result<(), PageFault>
    requires { IsSmall (model_version version) (as_record added) }
    ensures stages { IsStagingCall S.PageStore store.old store.new result }
    ensures few { length (S.state store.new).staged ≤ length (S.state store.old).staged + 2 }
    ensures answer { IsPutAnswer S.reserved 1 (S.state store.old) space.old result }
    ensures keeps { KeepsEnds (S.state store.old) (S.state store.new) space.old space.new result }
    ensures added { S.honest store.old
        → OnOk result (IsAdded (body_at S.PageStore store.old) (body_at S.PageStore store.new)
        (MayEnd (S.state store.old) space.old.file_end) space.old space.new head
        (as_record added.entry)) }
    ensures exact { ForEachPlaced (model_version version) S.PageStore store.old space.old head
        (λ chain s. (e : Entry) → record_of e ≡ as_record added.entry
        → AreHeld (model_version version) (body_at S.PageStore store.old) (pages_in chain) s
        (e ∷ []) → times e.pair.0 (pairs_in chain) ≡ 0
        → OnOk result (BecomesPlaced (body_at S.PageStore store.old)
        (body_at S.PageStore store.new) space.new (put_in (chain, s) e))) }
    ensures whole { ForEachPlaced (model_version version) S.PageStore store.old space.old head
        (λ chain s. IsErrOf result Damaged → ⊥) }
    ensures room { ForEachPlaced (model_version version) S.PageStore store.old space.old head
        (λ chain s. (e : Entry) → record_of e ≡ as_record added.entry → has_room e chain ≡ true
        → IsErrOf result NoRoom → ⊥) }
{
    let spot = find_spot(store, head, space.file_end, added, page, version)?;
    if spot.has_room {
        let known = version_beside(page, added.key, version);
        add_record(page, added.key, added.bytes, added.far);
        return stage_page(store, page, known);
    }
    let taken = take(store, space)?;
    let mut last = empty(taken, OVERFLOW, 0);
    add_record(&mut last, added.key, added.bytes, added.far);
    stage_page(store, &last, Some(version))?;
    set_next(page, taken);
    stage_page(store, page, Some(version))
}

/// Adds a record as it is to the chain from page `head` on, as `put` adds that of a pair: a split
/// moves records so. No page is taken for a content.
pub fn put_record<S: PageStore>(
    store: &mut S,
    space: &mut FreeState,
    head: u32,
    pair: &Pair,
    page: &mut Page,
    version: Version,
) -> Result<(), PageFault>
    requires { IsSmall (model_version version) (record_as pair.now) }
    ensures stages { IsStagingCall S.PageStore store.old store.new result }
    ensures answer { IsPutAnswer S.reserved 1 (S.state store.old) space.old result }
    ensures keeps { KeepsEnds (S.state store.old) (S.state store.new) space.old space.new result }

    // On any file the record is added to the first page that it fits, else to a page of its own
    // behind the last.
    ensures added { S.honest store.old
        → OnOk result (IsAdded (body_at S.PageStore store.old) (body_at S.PageStore store.new)
        (MayEnd (S.state store.old) space.old.file_end) space.old space.new head
        (record_as pair.now)) }

    // On a chain and a free list that are read as such, beside the pages of its content, it leaves
    // the model's, and is never Damaged.
    ensures exact { ForEachPlaced (model_version version) S.PageStore store.old space.old head
        (λ chain s. (e : Entry) → record_of e ≡ record_as pair.now
        → AreHeld (model_version version) (body_at S.PageStore store.old) (pages_in chain) s
        (e ∷ []) → times e.pair.0 (pairs_in chain) ≡ 0
        → OnOk result (BecomesPlaced (body_at S.PageStore store.old)
        (body_at S.PageStore store.new) space.new (put_in (chain, s) e))) }
    ensures whole { ForEachPlaced (model_version version) S.PageStore store.old space.old head
        (λ chain s. IsErrOf result Damaged → ⊥) }
    ensures room { ForEachPlaced (model_version version) S.PageStore store.old space.old head
        (λ chain s. (e : Entry) → record_of e ≡ record_as pair.now → has_room e chain ≡ true
        → IsErrOf result NoRoom → ⊥) }
{
    let added = Record {
        key: &pair.key,
        bytes: &pair.content,
        far: pair.far,
    };
    add_to_chain(store, space, head, added, page, version)
}

/// Adds a pair to the chain from page `head` on. Where it is far, pages are taken for its content
/// and staged first. Its record goes to the first page that it fits, as the last slot, else to a
/// page that is taken and becomes the last. The key must not be in the chain already. At most two
/// pages of the chain are staged: the one that gets the record, and where a page was taken the old
/// last one. After an `Err` the caller has to unstage and to go back to its old `FreeState`.
/// Damaged is answered as by `lookup`, `take` and `put_content`. The pages of the chain are read
/// into `page`.
pub fn put<S: PageStore>(
    store: &mut S,
    space: &mut FreeState,
    head: u32,
    key: &[u8],
    content: &[u8],
    page: &mut Page,
    version: Version,
) -> Result<(), PageFault>
    requires { IsAllowed (model_version version) (key.now, content.now) }
    ensures stages { IsStagingCall S.PageStore store.old store.new result }
    ensures few { length (S.state store.new).staged ≤ length (S.state store.old).staged + 2
        + content_pages (key.now, content.now) }
    ensures answer { IsPutAnswer S.reserved (1 + content_pages (key.now, content.now))
        (S.state store.old) space.old result }
    ensures keeps { KeepsEnds (S.state store.old) (S.state store.new) space.old space.new result }

    // On any file a far content is put into pages of its own, and the record is added to the first
    // page that it fits, else to one behind the last.
    ensures put { S.honest store.old
        → OnOk result (IsPut (body_at S.PageStore store.old) (body_at S.PageStore store.new)
        (MayEnd (S.state store.old) space.old.file_end) space.old space.new head
        (key.now, content.now)) }

    // On a chain and a free list that are read as such it leaves the model's, and is never Damaged.
    ensures exact { ForEachPlaced (model_version version) S.PageStore store.old space.old head
        (λ chain s. times key.now (pairs_in chain) ≡ 0
        → OnOk result (BecomesPlaced (body_at S.PageStore store.old)
        (body_at S.PageStore store.new) space.new (put_pair (chain, s) (key.now, content.now)))) }
    ensures whole { ForEachPlaced (model_version version) S.PageStore store.old space.old head
        (λ chain s. times key.now (pairs_in chain) ≡ 0 → IsErrOf result Damaged → ⊥) }

    // It lacks room only on a device that is smaller than what the model then has.
    ensures no_room { ForEachPlaced (model_version version) S.PageStore store.old space.old head
        (λ chain s. IsErrOf result NoRoom → (S.state store.old).capacity
        < (put_pair (chain, s) (key.now, content.now)).1.end) }

    // Where a near pair fits a page, no room is needed behind the file.
    ensures room { ForEachPlaced (model_version version) S.PageStore store.old space.old head
        (λ chain s. is_far (key.now, content.now) ≡ false
        → has_room (record { pair = (key.now, content.now); pages = [] }) chain ≡ true
        → IsErrOf result NoRoom → ⊥) }
{
    if key.len() + content.len() <= MAX_NEAR {
        let near = Record {
            key,
            bytes: content,
            far: None,
        };
        return add_to_chain(store, space, head, near, page, version);
    }
    let first = put_content(store, space, content)?;
    let far = Some(content.len() as u16);
    let added = Record {
        key,
        bytes: &first.to_be_bytes(),
        far,
    };
    add_to_chain(store, space, head, added, page, version)
}
