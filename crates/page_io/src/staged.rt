// The staged pages of a store.
ghost use Rattle.std.specs.Prelude.{◌≡◌, ◌≢◌, ◌<◌, ◌≤◌, ◌^◌, ℕ, length, true, false, IsTrue, IsFalse, OnOk, OnErr, slice_index_or, []};
ghost use Rattle.page_io.specs.Page.{own_number};
ghost use Rattle.page_io.specs.Store.{bytes_of, overlaid, put_page, has_page, are_in_order, IsNextOf};

use crate::Page;
use smallvec::SmallVec;
use std::alloc::AllocError;
use std::mem::swap;
use std::slice::from_ref;

/// Staged pages. The first five take no memory of their own: a store that splits no bucket changes
/// at most two pages where an older pair leaves, two where the pair goes, and the meta page.
pub type StagedPages = SmallVec<Page, 5>;

// Lists change places by three moves, each of the five places that a list has in itself.
const MOST_COPIED: usize = 15;

// The place of the first page whose number isn't below n, found by halves.
fn place_of(staged: &[Page], n: u32) -> usize
    requires order { are_in_order 1 (2 ^ 32) (bytes_of staged.now) ≡ true }
    ensures within { result ≤ length staged.now }
    ensures before { (k : ℕ) → k < result
        → own_number (slice_index_or (bytes_of staged.now) k []) < n }
    ensures after { result < length staged.now
        → n ≤ own_number (slice_index_or (bytes_of staged.now) result []) }
{
    let mut low = 0;
    let mut high = staged.len();
    while low < high {
        let middle = low + (high - low) / 2;
        if staged[middle].own() < n {
            low = middle + 1;
        } else {
            high = middle;
        }
    }
    low
}

// Whether the page at this place has this number.
fn is_at(staged: &[Page], at: usize, n: u32) -> bool
    ensures yes { IsTrue result → (at < length staged.now)
        × (own_number (slice_index_or (bytes_of staged.now) at []) ≡ n) }
    ensures no { IsFalse result → at < length staged.now
        → own_number (slice_index_or (bytes_of staged.now) at []) ≢ n }
{
    at < staged.len() && staged[at].own() == n
}

/// Whether page n is among these, which are in order of their numbers.
pub fn is_among(staged: &[Page], n: u32) -> bool
    requires order { are_in_order 1 (2 ^ 32) (bytes_of staged.now) ≡ true }
    ensures { result ≡ has_page (bytes_of staged.now) n }
{
    is_at(staged, place_of(staged, n), n)
}

// The place of the first page whose number is above n.
fn place_behind(staged: &[Page], n: u32) -> usize
    requires order { are_in_order 1 (2 ^ 32) (bytes_of staged.now) ≡ true }
    ensures within { result ≤ length staged.now }
    ensures before { (k : ℕ) → k < result
        → own_number (slice_index_or (bytes_of staged.now) k []) ≤ n }
    ensures after { result < length staged.now
        → n < own_number (slice_index_or (bytes_of staged.now) result []) }
{
    let at = place_of(staged, n);
    if is_at(staged, at, n) { at + 1 } else { at }
}

/// The number of the first page behind page n among these, which are in order of their numbers.
pub fn next_staged(staged: &[Page], n: u32) -> Option<u32>
    requires order { are_in_order 1 (2 ^ 32) (bytes_of staged.now) ≡ true }
    ensures { IsNextOf (bytes_of staged.now) n result }
{
    let at = place_behind(staged, n);
    if at < staged.len() {
        Some(staged[at].own())
    } else {
        None
    }
}

/// Whether page n is among these, which are in order of their numbers. If it is, the buffer becomes
/// that page, else it is unchanged.
pub fn find_staged(staged: &[Page], n: u32, page: &mut Page) -> bool
    requires order { are_in_order 1 (2 ^ 32) (bytes_of staged.now) ≡ true }
    ensures found { result ≡ has_page (bytes_of staged.now) n }
    ensures page { page.new.bytes ≡ overlaid (bytes_of staged.now) (λ _. page.old.bytes) n }
{
    let at = place_of(staged, n);
    let found = is_at(staged, at, n);
    if found {
        *page = staged[at];
    }
    found
}

/// Stages a page among pages in order of their numbers, in the place of one of its number.
pub fn put_staged(staged: &mut StagedPages, page: &Page) -> Result<(), AllocError>
    requires order { are_in_order 1 (2 ^ 32) (bytes_of staged.old.items) ≡ true }
    requires number { (1 ≤ own_number page.now.bytes) × (own_number page.now.bytes < 2 ^ 32) }
    ensures ok { OnOk result (bytes_of staged.new.items
        ≡ put_page (bytes_of staged.old.items) page.now.bytes) }
    ensures err { OnErr result (staged.new.items ≡ staged.old.items) }
    ensures order { are_in_order 1 (2 ^ 32) (bytes_of staged.new.items) ≡ true }

    // A page in the place of another takes no memory, and neither do the first five.
    ensures grown { OnErr result (has_page (bytes_of staged.old.items)
        (own_number page.now.bytes) ≡ false) }
    ensures full { OnErr result (5 ≤ length staged.old.items) }
{
    // A proof learns here that five have room.
    let _ = staged.capacity();
    let pages = staged.as_slice();
    let own = page.own();
    let at = place_of(pages, own);
    if is_at(pages, at, own) {
        staged[at] = *page;
        return Ok(());
    }
    staged.insert_from_slice(at, from_ref(page))?;
    Ok(())
}

/// Hands all pages of `from` over to `to`, which has none. Few pages are copied, where `to` has room
/// for them; else the two lists change places.
pub fn hand_over(from: &mut StagedPages, to: &mut StagedPages)
    requires { to.old.items ≡ [] }
    ensures given { to.new.items ≡ from.old.items }
    ensures none { from.new.items ≡ [] }
{
    let are_few = from.len() <= MOST_COPIED && from.len() <= to.capacity();
    if are_few && to.extend_from_slice(from.as_slice()).is_ok() {
        from.clear();
    } else {
        swap(from, to);
    }
}
