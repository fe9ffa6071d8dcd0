//! All records of a chain, stored anew.

ghost use Rattle.std.specs.Prelude.{◌≡◌, ◌+◌, ◌<◌, ◌∷◌, [], ℕ, List, All, length, map, OnOk, IsErrOf};
ghost use Rattle.page_model.specs.Chain.{Chain, Entry, Leaf, numbers, entries_in, pages_in, record_of};
ghost use Rattle.page_model.specs.PageBodies.{first_of};
ghost use Rattle.page_model.specs.Space.{Space};
ghost use Rattle.page_io.specs.Calls.{IsStagingCall};
ghost use Rattle.page_io.specs.Versions.{model_version};
ghost use Rattle.page_io.specs.Views.{body_at, MayEnd};
ghost use Rattle.page_io.specs.declared.store.PageFault.TheVariants.{NoRoom, Damaged};
ghost use Rattle.free_pages.specs.FreeList.{HasEnds, KeepsEnds};
ghost use Rattle.bucket_chain.specs.Pairs.{record_as, IsSmall};
ghost use Rattle.bucket_chain.specs.Walks.{IsReadToEnd};
ghost use Rattle.bucket_chain.specs.AnyFile.{IsEmptied, AreAdded, AreStored};
ghost use Rattle.bucket_chain.specs.Answers.{IsStoreAnswer};
ghost use Rattle.bucket_chain.specs.Changes.{IsPlaced, AreHeld, HaveKeysOnce, BecomesPlaced, IsCleared, IsPutAll, store_in, ForEachPlaced};
ghost use Rattle.bucket_chain.specs.Giving.{AreOverflowGiven};

use crate::Pair;
use crate::link::{HEAD, OVERFLOW, read_link};
use crate::puts::put_record;
use crate::staging::stage_page;
use free_pages::{FreeState, give};
use page_io::{Page, PageFault, PageStore, Version};
use slot_page::empty;

/// Gives the overflow pages of a chain, of which page `first` is the first, 0 for none.
fn give_overflow<S: PageStore>(
    store: &mut S,
    space: &mut FreeState,
    first: u32,
    version: Version,
) -> Result<(), PageFault>
    ensures stages { IsStagingCall S.PageStore store.old store.new result }
    ensures answer { IsStoreAnswer (S.state store.old) result }
    ensures room { IsErrOf result NoRoom → ⊥ }
    ensures ends { HasEnds space.old → HasEnds space.new }
    ensures end { space.new.file_end ≡ space.old.file_end }
    ensures may_end { MayEnd (S.state store.old) space.old.file_end
        → MayEnd (S.state store.new) space.new.file_end }
    ensures given { S.honest store.old
        → OnOk result (AreOverflowGiven (body_at S.PageStore store.old)
        (body_at S.PageStore store.new) space.old space.new first) }
    ensures whole { S.honest store.old → (head : ℕ) (leaf : Leaf) (rest : Chain) (s : Space)
        → IsPlaced (model_version version) (body_at S.PageStore store.old) space.old head
        (leaf ∷ rest) s → first ≡ first_of (numbers rest) → IsErrOf result Damaged → ⊥ }
{
    let mut page = Page::blank();
    let mut at = first;
    for _step in 0..space.file_end {
        if at == 0 {
            return Ok(());
        }
        let next = read_link(store, at, OVERFLOW, &mut page, version)?;
        give(store, space, at)?;
        at = next;
    }
    Err(PageFault::Damaged)
}

/// Gives the overflow pages of the chain from page `head` on, and empties its head page.
fn clear<S: PageStore>(
    store: &mut S,
    space: &mut FreeState,
    head: u32,
    version: Version,
) -> Result<(), PageFault>
    ensures stages { IsStagingCall S.PageStore store.old store.new result }
    ensures answer { IsStoreAnswer (S.state store.old) result }
    ensures room { IsErrOf result NoRoom → ⊥ }
    ensures walked { S.honest store.old
        → OnOk result (IsReadToEnd (body_at S.PageStore store.old) head) }
    ensures emptied { S.honest store.old
        → OnOk result (IsEmptied (body_at S.PageStore store.old) (body_at S.PageStore store.new)
        space.old space.new head) }
    ensures end { space.new.file_end ≡ space.old.file_end }
    ensures keeps { KeepsEnds (S.state store.old) (S.state store.new) space.old space.new result }
    ensures exact { ForEachPlaced (model_version version) S.PageStore store.old space.old head
        (λ chain s. OnOk result (IsCleared (model_version version) (body_at S.PageStore store.old)
        (body_at S.PageStore store.new) space.new head (store_in (chain, s) []))) }
    ensures whole { ForEachPlaced (model_version version) S.PageStore store.old space.old head
        (λ chain s. IsErrOf result Damaged → ⊥) }
{
    let mut page = Page::blank();
    let first = read_link(store, head, HEAD, &mut page, version)?;
    give_overflow(store, space, first, version)?;
    stage_page(store, &empty(head, HEAD, 0), Some(version))
}

/// Puts records into an empty chain, in order.
fn put_all<S: PageStore>(
    store: &mut S,
    space: &mut FreeState,
    head: u32,
    pairs: &[Pair],
    version: Version,
) -> Result<(), PageFault>
    requires { All (λ pair. IsSmall (model_version version) (record_as pair)) pairs.now }
    ensures stages { IsStagingCall S.PageStore store.old store.new result }
    ensures answer { IsStoreAnswer (S.state store.old) result }
    ensures room { pairs.now ≡ [] → IsErrOf result NoRoom → ⊥ }
    ensures no_room { S.honest store.old → IsErrOf result NoRoom
        → (S.state store.old).capacity < space.old.file_end + length pairs.now }
    ensures added { S.honest store.old
        → OnOk result (AreAdded (body_at S.PageStore store.old) (body_at S.PageStore store.new)
        (MayEnd (S.state store.old) space.old.file_end) space.old space.new (λ r. head)
        (map record_as pairs.now)) }
    ensures keeps { KeepsEnds (S.state store.old) (S.state store.new) space.old space.new result }
    ensures exact { ForEachPlaced (model_version version) S.PageStore store.old space.old head
        (λ chain s. (entries : List Entry) → map record_of entries ≡ map record_as pairs.now
        → AreHeld (model_version version) (body_at S.PageStore store.old) (pages_in chain) s entries
        → entries_in chain ≡ [] → HaveKeysOnce entries
        → OnOk result (IsPutAll (body_at S.PageStore store.old) (body_at S.PageStore store.new)
        space.old space.new (chain, s) entries)) }
    ensures whole { ForEachPlaced (model_version version) S.PageStore store.old space.old head
        (λ chain s. (entries : List Entry) → map record_of entries ≡ map record_as pairs.now
        → AreHeld (model_version version) (body_at S.PageStore store.old) (pages_in chain) s entries
        → entries_in chain ≡ [] → HaveKeysOnce entries → IsErrOf result Damaged → ⊥) }
{
    let mut page = Page::blank();
    for pair in pairs {
        put_record(store, space, head, pair, &mut page, version)?;
    }
    Ok(())
}

/// Makes these the records of the chain from page `head` on: its overflow pages are given to the
/// free list in chain order, its head page is emptied, and the records are added in order. Pages of
/// contents are neither given nor taken. After an `Err` the caller has to unstage and to go back to
/// its old `FreeState`. Damaged is answered as by `lookup`, and where as many pages are free as the
/// file has.
pub fn store_all<S: PageStore>(
    store: &mut S,
    space: &mut FreeState,
    head: u32,
    pairs: &[Pair],
    version: Version,
) -> Result<(), PageFault>
    requires { All (λ pair. IsSmall (model_version version) (record_as pair)) pairs.now }
    ensures stages { IsStagingCall S.PageStore store.old store.new result }
    ensures answer { IsStoreAnswer (S.state store.old) result }
    ensures room { pairs.now ≡ [] → IsErrOf result NoRoom → ⊥ }
    ensures no_room { S.honest store.old → IsErrOf result NoRoom
        → (S.state store.old).capacity < space.old.file_end + length pairs.now }
    ensures walked { S.honest store.old
        → OnOk result (IsReadToEnd (body_at S.PageStore store.old) head) }
    ensures keeps { KeepsEnds (S.state store.old) (S.state store.new) space.old space.new result }

    // On any file the chain is emptied, and the records are added in order.
    ensures stored { S.honest store.old
        → OnOk result (AreStored (body_at S.PageStore store.old) (body_at S.PageStore store.new)
        (MayEnd (S.state store.old) space.old.file_end) space.old space.new head
        (map record_as pairs.now)) }

    // On a chain and a free list that are read as such, beside the pages of these contents, it
    // leaves the model's, and is never Damaged.
    ensures exact { ForEachPlaced (model_version version) S.PageStore store.old space.old head
        (λ chain s. (entries : List Entry) → map record_of entries ≡ map record_as pairs.now
        → AreHeld (model_version version) (body_at S.PageStore store.old) (numbers chain) s entries
        → HaveKeysOnce entries
        → OnOk result (BecomesPlaced (body_at S.PageStore store.old)
        (body_at S.PageStore store.new) space.new (store_in (chain, s) entries))) }
    ensures whole { ForEachPlaced (model_version version) S.PageStore store.old space.old head
        (λ chain s. (entries : List Entry) → map record_of entries ≡ map record_as pairs.now
        → AreHeld (model_version version) (body_at S.PageStore store.old) (numbers chain) s entries
        → HaveKeysOnce entries → IsErrOf result Damaged → ⊥) }
{
    clear(store, space, head, version)?;
    put_all(store, space, head, pairs, version)
}
