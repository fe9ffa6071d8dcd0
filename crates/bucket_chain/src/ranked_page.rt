//! A page with the ranks of its keys.

ghost use Rattle.std.specs.Prelude.{◌≡◌, ◌↔◌, ◌+◌, ◌*◌, ◌≤◌, IsTrue, length};
ghost use Rattle.page_model.specs.Reading.{low};
ghost use Rattle.page_io.specs.BucketPages.{IsBucketPage, page_records};
ghost use Rattle.bucket_chain.specs.KeyRanks.{key_ranks};

use crate::link::HEAD;
use arrayvec::ArrayVec;
use lin_addr::Ranked;
use page_io::Page;
use slot_page::{empty, pair_at, room};
use std::marker::Model;

/// The rank of the key in each slot. A page has at most 338 slots.
type SlotRanks = ArrayVec<u32, 338>;

/// A page of records with the ranks of its keys, which are kept as long as its bytes stay the same. A
/// contract sees the bytes of the page.
#[derive(Drop)]
pub struct RankedPage {
    page: Page,
    ranks: SlotRanks,
}

impl Model for RankedPage {
    ghost use Rattle.std.specs.Prelude.{ℕ, List};
    ghost use Rattle.bucket_chain.specs.KeyRanks.{HasRanks};

    ghost Value = { List ℕ };

    ghost view = { λ of. of.page.bytes };

    ghost invariant = { λ of. HasRanks of.page.bytes of.ranks.items };
}

/// Takes the rank of each of the page's keys, in place of those that were there.
fn take_ranks(ranks: &mut SlotRanks, page: &Page)
    requires { IsBucketPage page.now.bytes }
    ensures { ranks.new.items ≡ key_ranks page.now.bytes }
{
    ranks.clear();
    for slot in 0..page.slots() as usize {
        ranks.push(Ranked::of(pair_at(page, slot).0).rank);
    }
}

/// Where the slots of a page end, and where its records begin.
fn gap_of(page: &Page) -> (usize, usize)
    requires { IsBucketPage page.now.bytes }
    ensures from { result.0 ≡ 16 + 6 * length (page_records page.now.bytes) }
    ensures to { result.1 ≡ low page.now.bytes }
    ensures rises { result.0 ≤ result.1 }
    ensures within { result.1 ≤ 2048 }
{
    let low = page.low() as usize;
    (low - room(page), low)
}

/// Whether two pages of records have the same bytes. Each has zeros between its slots and its
/// records, so these aren't looked at.
fn are_same(page: &Page, other: &Page) -> bool
    requires page { IsBucketPage page.now.bytes }
    requires other { IsBucketPage other.now.bytes }
    ensures { IsTrue result ↔ (page.now.bytes ≡ other.now.bytes) }
{
    let (from, to) = gap_of(page);
    page.bytes[..from] == other.bytes[..from] && page.bytes[to..] == other.bytes[to..]
}

impl RankedPage {
    /// A page of no records.
    pub fn new() -> RankedPage
        ensures { IsBucketPage result }
    {
        RankedPage {
            page: empty(0, HEAD, 0),
            ranks: ArrayVec::new(),
        }
    }

    /// Is this page from now on. The ranks of its keys are taken where its bytes aren't those of the
    /// page before.
    pub(crate) fn set_page(&mut self, page: &Page)
        requires { IsBucketPage page.now.bytes }
        ensures { self.new ≡ page.now.bytes }
    {
        if are_same(page, &self.page) {
            return;
        }
        take_ranks(&mut self.ranks, page);
        self.page = *page;
    }

    /// The page.
    pub fn page(&self) -> &Page
        ensures { result.now.bytes ≡ self.now }
    {
        &self.page
    }

    /// The rank of the key in each slot.
    pub(crate) fn ranks(&self) -> &[u32]
        ensures page { IsBucketPage self.now }
        ensures ranks { result.now ≡ key_ranks self.now }
    {
        self.ranks.as_slice()
    }
}
