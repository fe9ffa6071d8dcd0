// Pages in memory by their numbers, of which the least recently used one goes.
ghost use Rattle.std.specs.Prelude.{◌≡◌, ◌⊎◌, ℕ, [], None, Contains, IfSome, is_some, nat_eq};
ghost use Rattle.std.specs.Map.{lookup};
ghost use Rattle.std.specs.Global.{Box};
ghost use Rattle.std.specs.NonZero.{non_zero_usize_get};
ghost use Rattle.lru.specs.LruCache.{promoted};
ghost use Rattle.page_io.specs.BucketPages.{IsPageOf};
ghost use Rattle.page_io.specs.Versions.{model_version};
ghost use Rattle.page_cache.specs.Room.{HasRoomFor};
ghost use Rattle.page_cache.specs.declared.page_copy.PageCopy.{PageCopy as OneCopy};

use crate::page_copy::PageCopy;
use lru::LruCache;
use page_io::{Page, Version};
use std::alloc::Global;
use std::num::NonZeroUsize;

/// How many pages are kept where nobody asks for another number.
const MOST: usize = 256;

/// Copies of pages by their numbers, each boxed, so that no whole page moves where one goes to the
/// front. Where the room for them was refused there are none.
#[derive(Drop)]
pub struct PageCopies {
    pages: Option<LruCache<u32, Box<PageCopy>>>,
    most: usize,
    alloc: Global,
    ghost room: { HasRoomFor most pages },
}

// Takes the copy of page n out, if there is one.
fn take_out(pages: &mut LruCache<u32, Box<PageCopy>>, n: u32) -> Option<Box<PageCopy>>
    ensures left { (k : ℕ) (one : Box OneCopy) → Contains pages.new.entries (k, one)
        → Contains pages.old.entries (k, one) × (k ≡ n → ⊥) }
    ensures room { pages.new.cap ≡ pages.old.cap }
{
    if pages.len() == 0 {
        return None;
    }
    pages.pop(&n)
}

// Adds a copy of page n, which has none, where its room isn't refused.
fn add(
    alloc: Global,
    pages: &mut LruCache<u32, Box<PageCopy>>,
    n: u32,
    page: &Page,
    known: Option<Version>,
)
    requires known { IfSome known (λ version. IsPageOf (model_version version) page.now.bytes) }
    requires none { lookup (nat_eq n) pages.old.entries ≡ None }
    ensures added { (k : ℕ) (one : Box OneCopy) → Contains pages.new.entries (k, one)
        → (Contains pages.old.entries (k, one) × (k ≡ n → ⊥))
        ⊎ ((k ≡ n) × (one.value.page ≡ page.now)) }
    ensures room { pages.new.cap ≡ pages.old.cap }
{
    if let Ok(copy) = Box::new(alloc, PageCopy { page: *page, known }) {
        let _ = pages.put(n, copy);
    }
}

impl PageCopies {
    ghost use Rattle.page_cache.specs.Copies.{copies_of, most_of, has_copy};

    /// No copies yet, and room for `MOST` of them where it isn't refused.
    pub fn new(alloc: Global) -> PageCopies
        ensures none { copies_of result ≡ [] }
        ensures most { most_of result ≡ 256 }
    {
        let pages = match NonZeroUsize::new(MOST) {
            Some(most) => LruCache::new(alloc, most).ok(),
            None => None,
        };
        PageCopies {
            pages,
            most: MOST,
            alloc,
        }
    }

    /// Keeps up to so many copies from now on. Those beyond that which were not used for longest go.
    pub fn resize(&mut self, most: NonZeroUsize)
        ensures most { most_of self.new ≡ non_zero_usize_get most }
        ensures copies { (k : ℕ) (one : Box OneCopy) → Contains (copies_of self.new) (k, one)
            → Contains (copies_of self.old) (k, one) }
    {
        if let Some(pages) = &mut self.pages {
            pages.resize(most);
        }
        self.most = most.get();
    }

    /// Writes the copy of page n to `page`, and answers what is known of it, if there is one.
    pub fn find(&mut self, n: u32, page: &mut Page) -> Option<Option<Version>>
        ensures found { is_some result ≡ has_copy (copies_of self.old) n }
        ensures page { IfSome result (λ known. (copy : Box OneCopy)
            × Contains (copies_of self.old) (n, copy) × (copy.value.page ≡ page.new)
            × (copy.value.known ≡ known)) }
        ensures copies { copies_of self.new ≡ promoted (nat_eq n) (copies_of self.old) }
    {
        let Some(pages) = &mut self.pages else {
            return None;
        };
        match pages.get(&n) {
            Some(found) => {
                *page = found.page;
                Some(found.known)
            }
            None => None,
        }
    }

    /// The copy of page n, if there is one.
    pub fn lend(&self, n: u32) -> Option<&PageCopy>
        ensures found { is_some result ≡ has_copy (copies_of self.now) n }
        ensures copy { IfSome result (λ lent. (copy : Box OneCopy)
            × Contains (copies_of self.now) (n, copy) × (copy.value ≡ lent.now)) }
    {
        let Some(pages) = &self.pages else {
            return None;
        };
        match pages.peek(&n) {
            Some(copy) => Some(copy),
            None => None,
        }
    }

    /// Keeps the copy of page n longer than those that were not used since.
    pub fn promote(&mut self, n: u32)
        ensures { copies_of self.new ≡ promoted (nat_eq n) (copies_of self.old) }
    {
        if let Some(pages) = &mut self.pages {
            pages.promote(&n);
        }
    }

    /// Keeps a copy of page n where its room isn't refused, in the place of an older one.
    pub fn keep(&mut self, n: u32, page: &Page, known: Option<Version>)
        requires { IfSome known (λ version. IsPageOf (model_version version) page.now.bytes) }
        ensures { (k : ℕ) (one : Box OneCopy) → Contains (copies_of self.new) (k, one)
            → (Contains (copies_of self.old) (k, one) × (k ≡ n → ⊥))
            ⊎ ((k ≡ n) × (one.value.page ≡ page.now)) }
    {
        let Some(pages) = &mut self.pages else {
            return;
        };
        // A proof learns here that no page has two copies.
        let _ = pages.len();
        match pages.get_mut(&n) {
            Some(copy) => **copy = PageCopy { page: *page, known },
            None => add(self.alloc, pages, n, page, known),
        }
    }

    /// Takes the copy of page n out, if there is one.
    pub fn forget(&mut self, n: u32)
        ensures { (k : ℕ) (one : Box OneCopy) → Contains (copies_of self.new) (k, one)
            → Contains (copies_of self.old) (k, one) × (k ≡ n → ⊥) }
    {
        if let Some(pages) = &mut self.pages {
            take_out(pages, n);
        }
    }
}
