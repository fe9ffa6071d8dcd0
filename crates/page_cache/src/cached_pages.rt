// A store that keeps copies of its pages.
ghost use Rattle.std.specs.Prelude.{◌≡◌};
ghost use Rattle.page_cache.specs.Copies.{copies_of};
ghost use Rattle.page_cache.specs.Current.{AreCurrent};

use crate::page_copies::PageCopies;
use page_io::{LentPage, Page, PageFault, PageStore, ServedStore, Version};
use sect_dev::Told;
use std::alloc::{AllocError, Global};
use std::num::NonZeroUsize;

/// A store of pages over another one. It keeps copies of pages that were read or staged, of up to
/// 256 where nobody asks for another number, with what is known of them, and reads them there.
#[derive(Drop)]
pub struct CachedPages<S: PageStore> {
    store: S,
    copies: PageCopies,
    ghost are_current: { AreCurrent S.PageStore store (copies_of copies) },
}

impl<S: PageStore> CachedPages<S> {
    ghost use Rattle.std.specs.Prelude.{◌↔◌, IfSome, IsSome, IsTrue};
    ghost use Rattle.std.specs.NonZero.{non_zero_usize_get};
    ghost use Rattle.page_io.specs.BucketPages.{IsPageOf};
    ghost use Rattle.page_io.specs.Versions.{model_version};
    ghost use Rattle.page_io.specs.Views.{visible_page};
    ghost use Rattle.page_cache.specs.Current.{IsReadable, HasNoStaged};
    ghost use Rattle.page_cache.specs.Stores.{store_below, most_kept, HasCopy, kept_copies};

    /// A store over this one, with no copies. Where the room for copies is refused it keeps none.
    pub fn new(alloc: Global, store: S) -> CachedPages<S>
        ensures store { store_below result ≡ store }
        ensures most { most_kept result ≡ 256 }
    {
        CachedPages {
            store,
            copies: PageCopies::new(alloc),
        }
    }

    /// Keeps copies of up to so many pages from now on, 2,048 bytes each. Its memory is taken as they
    /// are read. Copies beyond that number which were not used for longest go.
    pub fn keep_up_to(&mut self, most: NonZeroUsize)
        ensures store { store_below self.new ≡ store_below self.old }
        ensures most { most_kept self.new ≡ non_zero_usize_get most }
    {
        self.copies.resize(most);
    }

    /// The store below.
    pub fn inner(&self) -> &S
        ensures { result.now ≡ store_below self.now }
    {
        &self.store
    }

    /// The store below as it is.
    pub fn into_inner(self) -> S
        ensures { result ≡ store_below self }
    {
        self.store
    }

    // Whether a read may answer a copy of page n.
    fn is_readable(&self, n: u32) -> bool
        ensures { IsTrue result ↔ IsReadable (S.state (store_below self.now)) n }
    {
        !self.store.is_broken() && n >= 1 && n < self.store.end()
    }

    // Gives the copy of page n and what is known of it, if it has one that a read may answer.
    fn find(&mut self, n: u32, page: &mut Page) -> Option<Option<Version>>
        ensures hit { IsSome result
            ↔ (IsReadable (S.state (store_below self.old)) n × HasCopy self.old n) }
        ensures found { S.honest (store_below self.old) → IsSome result
            → page.new.bytes ≡ visible_page S.PageStore (store_below self.old) n }
        ensures known { IfSome result (λ known. IfSome known
            (λ version. IsPageOf (model_version version) page.new.bytes)) }
        ensures store { store_below self.new ≡ store_below self.old }
    {
        if !self.is_readable(n) {
            return None;
        }
        self.copies.find(n, page)
    }

    // Takes the copies of all staged pages out.
    fn forget_staged(&mut self)
        ensures store { store_below self.new ≡ store_below self.old }
        ensures unstaged { HasNoStaged (S.state (store_below self.old)).staged
            (kept_copies self.new) }
    {
        let mut from = 0;
        while let Some(n) = self.store.next_staged(from) {
            self.copies.forget(n);
            from = n;
        }
    }
}

impl<S: PageStore> PageStore for CachedPages<S> {
    ghost use Rattle.std.specs.Prelude.{◌↔◌, true, OnOk, IfOk, IfSome, IsSome, IsOk};
    ghost use Rattle.page_io.specs.BucketPages.{IsPageOf};
    ghost use Rattle.page_io.specs.Answers.{HasDeviceCause, IsReadAnswer};
    ghost use Rattle.page_io.specs.Kept.{KeepsPages};
    ghost use Rattle.page_io.specs.Store.{page_of, overlaid, IsKnown};
    ghost use Rattle.page_io.specs.Versions.{model_version};
    ghost use Rattle.page_cache.specs.Current.{IsReadable};
    ghost use Rattle.page_cache.specs.Stores.{store_below, HasCopy};

    ghost state = { λ c. S.state c.store };

    ghost committed = { λ c. S.committed c.store };

    ghost honest = { λ c. S.honest c.store };

    ghost faults = { λ c. S.faults c.store };

    ghost settles_to = { λ c. S.settles_to c.store };

    ghost moment = { λ c. S.moment c.store };

    ghost settled_since = { λ c. S.settled_since c.store };

    ghost at_home = { λ c. S.at_home c.store };

    ghost reserved = { S.reserved };

    ghost reserves = { S.reserves };

    ghost committed_may_stay = { λ c. S.committed_may_stay c.store };

    ghost only_committed = { λ c. S.only_committed c.store };

    ghost only_now = { λ c. S.only_now c.store };

    ghost counts_now = { λ c. S.counts_now c.store };

    ghost ends = { λ c. S.ends c.store };

    ghost in_range = { λ c. S.in_range c.store };

    ghost in_order = { λ c. S.in_order c.store };

    /// As the trait says, and a page that has a copy is answered from it.
    fn read(&mut self, n: u32, page: &mut Page) -> Result<Option<Version>, PageFault>
        ensures found { ⟦<CachedPages<S> as PageStore>⟧.honest self.old
            → OnOk result (page.new.bytes
            ≡ overlaid (⟦<CachedPages<S> as PageStore>⟧.state self.old).staged
            (page_of (⟦<CachedPages<S> as PageStore>⟧.committed self.old)) n) }
        ensures known { IfOk result (λ known. IfSome known
            (λ version. IsPageOf (model_version version) page.new.bytes)) }
        ensures answer { IsReadAnswer (⟦<CachedPages<S> as PageStore>⟧.state self.old) n result }
        ensures state { ⟦<CachedPages<S> as PageStore>⟧.state self.new
            ≡ ⟦<CachedPages<S> as PageStore>⟧.state self.old }
        ensures kept { ⟦<CachedPages<S> as PageStore>⟧.honest self.old
            → KeepsPages ⟦<CachedPages<S> as PageStore>⟧.committed
            ⟦<CachedPages<S> as PageStore>⟧.moment
            ⟦<CachedPages<S> as PageStore>⟧.settled_since
            ⟦<CachedPages<S> as PageStore>⟧.settles_to self.old self.new }
        ensures honesty { ⟦<CachedPages<S> as PageStore>⟧.honest self.new
            ↔ ⟦<CachedPages<S> as PageStore>⟧.honest self.old }
        ensures cause { HasDeviceCause (⟦<CachedPages<S> as PageStore>⟧.faults self.old)
            (⟦<CachedPages<S> as PageStore>⟧.faults self.new) result }

        // No call goes below.
        ensures hit { IsReadable (⟦<CachedPages<S> as PageStore>⟧.state self.old) n
            → HasCopy self.old n → IsOk result × (store_below self.new ≡ store_below self.old) }
    {
        if let Some(known) = self.find(n, page) {
            return Ok(known);
        }
        let known = self.store.read(n, page)?;
        self.copies.keep(n, page, known);
        Ok(known)
    }

    /// As the trait says, and a page that has a copy is lent.
    fn lend(&self, n: u32) -> Option<LentPage<'_>>
        ensures found { IfSome result (λ lent. ⟦<CachedPages<S> as PageStore>⟧.honest self.now
            → lent.page.now.bytes
            ≡ overlaid (⟦<CachedPages<S> as PageStore>⟧.state self.now).staged
            (page_of (⟦<CachedPages<S> as PageStore>⟧.committed self.now)) n) }
        ensures known { IfSome result (λ lent. IfSome lent.known
            (λ version. IsPageOf (model_version version) lent.page.now.bytes)) }
        ensures readable { IfSome result
            (λ lent. ((⟦<CachedPages<S> as PageStore>⟧.state self.now).usable ≡ true)
            × IsKnown (⟦<CachedPages<S> as PageStore>⟧.state self.now) n) }
        ensures hit { IsReadable (⟦<CachedPages<S> as PageStore>⟧.state self.now) n
            → HasCopy self.now n → IsSome result }
    {
        if !self.is_readable(n) {
            return None;
        }
        let copy = self.copies.lend(n)?;
        Some(LentPage {
            page: &copy.page,
            known: copy.known,
        })
    }

    fn promote(&mut self, n: u32) {
        self.copies.promote(n);
    }

    fn note(&mut self, n: u32, page: &Page, version: Version) {
        self.copies.keep(n, page, Some(version));
    }

    fn stage(&mut self, n: u32, page: &Page) -> Result<(), PageFault> {
        self.store.stage(n, page)?;
        self.copies.keep(n, page, None);
        Ok(())
    }

    fn unstage(&mut self) {
        self.forget_staged();
        self.store.unstage();
    }

    // What a read gave of a staged page it gives of the committed one.
    fn commit(&mut self, new_end: u32) -> Result<(), PageFault> {
        self.store.commit(new_end)
    }

    // Copies of committed pages stay true.
    fn settle(&mut self) -> Result<(), PageFault> {
        self.store.settle()
    }

    fn end(&self) -> u32 {
        self.store.end()
    }

    fn capacity(&self) -> u32 {
        self.store.capacity()
    }

    fn is_staged(&self, n: u32) -> bool {
        self.store.is_staged(n)
    }

    fn next_staged(&self, n: u32) -> Option<u32> {
        self.store.next_staged(n)
    }

    fn is_broken(&self) -> bool {
        self.store.is_broken()
    }
}

impl<S: ServedStore> ServedStore for CachedPages<S> {
    ghost shows = { λ c. S.shows c.store };

    ghost listed = { λ c. S.listed c.store };

    // Copies of committed pages stay true.
    fn tell(&mut self, told: &Told) -> Result<(), AllocError> {
        self.store.tell(told)
    }
}
