// A store of pages in memory, with no device under it.
ghost use Rattle.std.specs.Prelude.{◌≡◌, ◌≤◌, ◌<◌, ◌+◌, ◌^◌, ℕ, true, length, slice_index_or, [], IfOk};
ghost use Rattle.page_io.specs.Page.{own_number};
ghost use Rattle.page_io.specs.Store.{bytes_of, file_pages, page_of, overlaid, are_in_order};

use crate::{
    Page, PageFault, PageStore, StagedPages, Version, find_staged, is_among, next_staged,
    put_staged,
};
use std::alloc::{AllocError, Global};

// Puts each page at its own number.
fn lay(pages: &mut Vec<Page>, staged: &[Page])
    requires { (k : ℕ) → k < length staged.now
        → (1 ≤ own_number (slice_index_or (bytes_of staged.now) k []))
        × (own_number (slice_index_or (bytes_of staged.now) k []) ≤ length pages.old.items) }
    ensures laid { (n : ℕ) → 1 ≤ n → n ≤ length pages.old.items
        → page_of (bytes_of pages.new.items) n
        ≡ overlaid (bytes_of staged.now) (page_of (bytes_of pages.old.items)) n }
    ensures size { length pages.new.items ≡ length pages.old.items }
{
    for one in staged {
        let at = one.own() as usize - 1;
        pages[at] = *one;
    }
}

/// A store for tests of the layers above: honest, writable, and never broken. It has no device, so
/// of what a stop may leave it shows the present alone.
#[derive(Drop)]
pub struct MemPages {
    pages: Vec<Page>,
    staged: StagedPages,
    end: u32,
    ghost least: { 4 ≤ end },
    ghost room: { end ≤ length pages.items + 1 },
    ghost fits: { length pages.items + 1 < 2 ^ 32 },
    ghost order: { are_in_order 1 (2 ^ 32) (bytes_of staged.items) ≡ true },
}

impl MemPages {
    /// A store of these pages with nothing staged, with room for `capacity` pages, page 0 among
    /// them.
    pub fn new(alloc: Global, pages: &[Page], capacity: u32) -> Result<MemPages, AllocError>
        requires least { 3 ≤ length pages.now }
        requires fits { length pages.now < capacity }
        ensures state { IfOk result (λ store. ⟦<MemPages as PageStore>⟧.state store
            ≡ record {
              staged = [];
              end = length pages.now + 1;
              capacity = capacity;
              usable = true;
              writable = true;
              base = [];
            }) }
        ensures committed { IfOk result
            (λ store. ⟦<MemPages as PageStore>⟧.committed store ≡ bytes_of pages.now) }
        ensures honest { IfOk result (λ store. ⟦<MemPages as PageStore>⟧.honest store) }
    {
        let mut all = Vec::from_slice(alloc, pages)?;
        let room = vec![in alloc; Page::blank(); capacity as usize - 1 - pages.len()]?;
        all.extend_from_slice(room.as_slice())?;
        Ok(MemPages {
            pages: all,
            staged: StagedPages::new(alloc),
            end: pages.len() as u32 + 1,
        })
    }
}

impl PageStore for MemPages {
    ghost use Rattle.std.proofs.Common.{refl};
    ghost use Rattle.std.proofs.Math.Nat.{le_refl};
    ghost use Rattle.sect_dev.specs.Device.{endless};
    ghost use Rattle.page_io.specs.Counts.{counts_end};
    ghost use Rattle.page_io.specs.MemPages.{OnlySettled};

    ghost state = { λ p. record {
      staged = bytes_of p.staged.items;
      end = p.end;
      capacity =
          length p.pages.items + 1;
      usable = true;
      writable = true;
      base = [];
    } };

    ghost committed = { λ p. file_pages (page_of (bytes_of p.pages.items)) p.end };

    ghost honest = { λ _. Unit {0} };

    ghost faults = { λ _. 0 };

    ghost settles_to = { λ p. OnlySettled (file_pages (page_of (bytes_of p.pages.items)) p.end) };

    ghost moment = { λ _. endless 0 };

    ghost settled_since = { λ p _.
        OnlySettled (file_pages (page_of (bytes_of p.pages.items)) p.end) };

    ghost at_home = { λ _. Unit {0} };

    ghost reserved = { 5 };

    ghost reserves = { le_refl 5 };

    ghost committed_may_stay = { λ p h u. refl };

    ghost only_committed = { λ p y h u w s. s };

    ghost only_now = { λ p y h s. s };

    ghost counts_now = { λ p t y h le s. s };

    ghost ends = { λ p. counts_end (page_of (bytes_of p.pages.items)) p.end p.least };

    ghost in_range = { λ p. (p.least, p.room, p.fits) };

    ghost in_order = { λ p. p.order };

    fn read(&mut self, n: u32, page: &mut Page) -> Result<Option<Version>, PageFault> {
        if find_staged(self.staged.as_slice(), n, page) {
            return Ok(None);
        }
        if n < 1 || self.end <= n {
            return Err(PageFault::Damaged);
        }
        *page = self.pages[n as usize - 1];
        Ok(None)
    }

    fn stage(&mut self, n: u32, page: &Page) -> Result<(), PageFault> {
        if put_staged(&mut self.staged, page).is_err() {
            return Err(PageFault::Memory);
        }
        Ok(())
    }

    fn unstage(&mut self) {
        self.staged.clear();
    }

    fn commit(&mut self, new_end: u32) -> Result<(), PageFault> {
        let room = self.capacity().saturating_sub(self.end.max(new_end));
        if self.staged.len() > room as usize {
            return Err(PageFault::NoRoom);
        }
        lay(&mut self.pages, self.staged.as_slice());
        self.staged.clear();
        self.end = new_end;
        Ok(())
    }

    // No page waits.
    fn settle(&mut self) -> Result<(), PageFault> {
        Ok(())
    }

    fn end(&self) -> u32 {
        self.end
    }

    fn capacity(&self) -> u32 {
        self.pages.len() as u32 + 1
    }

    fn is_staged(&self, n: u32) -> bool {
        is_among(self.staged.as_slice(), n)
    }

    fn next_staged(&self, n: u32) -> Option<u32> {
        next_staged(self.staged.as_slice(), n)
    }

    fn is_broken(&self) -> bool {
        false
    }
}
