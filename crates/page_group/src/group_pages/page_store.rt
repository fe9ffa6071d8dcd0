// A group as a store of pages.
use super::GroupPages;
use crate::Loan;
use page_io::{
    Page, PageFault, PageStore, Version, find_staged, is_among, next_staged, put_staged,
};

impl<'a, S: PageStore, L: Loan<S>> PageStore for GroupPages<'a, S, L> {
    ghost use Rattle.std.proofs.Common.{refl, true};
    ghost use Rattle.std.proofs.Math.Nat.{le_refl};
    ghost use Rattle.sect_dev.specs.Device.{endless};
    ghost use Rattle.page_io.specs.Counts.{counts_end};
    ghost use Rattle.page_io.specs.Store.{bytes_of, page_of, overlaid};
    ghost use Rattle.page_group.specs.Changed.{changed_pages};
    ghost use Rattle.page_group.specs.Group.{SettlesTo, pages_over, faults_over};

    ghost state = { λ g. record {
      staged = bytes_of g.held.staged.items;
      end = g.held.end;
      capacity = g.held.capacity;
      usable = g.held.usable;
      writable = true;
      base = S.committed g.first;
    } };

    ghost committed = { λ g. pages_over S.PageStore g };

    ghost honest = { λ g. S.honest g.first };

    ghost faults = { λ g. faults_over S.PageStore g };

    ghost settles_to = { λ g. SettlesTo S.PageStore g };

    ghost moment = { λ _. endless 0 };

    ghost settled_since = { λ g _. SettlesTo S.PageStore g };

    ghost at_home = { λ _. Unit {0} };

    ghost reserved = { 5 };

    ghost reserves = { le_refl 5 };

    ghost committed_may_stay = { λ g h u. (u, refl) };

    ghost only_committed = { λ g y h u w s. s.1 };

    ghost only_now = { λ g y h s. s };

    ghost counts_now = { λ g t y h le s. s };

    ghost ends = { λ g. counts_end
        (overlaid (changed_pages g.held.changed) (page_of (S.committed g.first))) g.held.end
        g.held.least };

    ghost in_range = { λ g. (g.held.least, g.held.room, g.held.fits) };

    ghost in_order = { λ g. g.held.order };

    fn read(&mut self, n: u32, page: &mut Page) -> Result<Option<Version>, PageFault> {
        if !self.held.usable {
            return Err(PageFault::Broken);
        }
        if find_staged(self.held.staged.as_slice(), n, page) {
            return Ok(None);
        }
        if n < 1 || self.held.end <= n {
            return Err(PageFault::Damaged);
        }
        if self.held.changed.find(n, page) {
            return Ok(None);
        }
        self.base.read(n, page)
    }

    fn stage(&mut self, n: u32, page: &Page) -> Result<(), PageFault> {
        if !self.held.usable {
            return Err(PageFault::Broken);
        }
        let held = &mut self.held;
        if put_staged(&mut held.staged, page).is_err() {
            return Err(PageFault::Memory);
        }
        Ok(())
    }

    fn unstage(&mut self) {
        let held = &mut self.held;
        held.staged.clear();
    }

    // A group can't follow a file that shrinks. Where it does, or memory is refused half way, the
    // changed pages are no file, and the group is broken.
    fn commit(&mut self, new_end: u32) -> Result<(), PageFault> {
        if !self.held.usable {
            return Err(PageFault::Broken);
        }
        let held = &mut self.held;
        let room = held.capacity.saturating_sub(held.end.max(new_end));
        if held.staged.len() > room as usize {
            return Err(PageFault::NoRoom);
        }
        held.usable = false;
        if new_end < held.end || held.changed.put_all(held.staged.as_slice()).is_err() {
            return Err(PageFault::Device);
        }
        held.staged.clear();
        held.end = new_end;
        held.usable = true;
        Ok(())
    }

    // No page waits.
    fn settle(&mut self) -> Result<(), PageFault> {
        if !self.held.usable {
            return Err(PageFault::Broken);
        }
        Ok(())
    }

    fn end(&self) -> u32 {
        self.held.end
    }

    fn capacity(&self) -> u32 {
        self.held.capacity
    }

    fn is_staged(&self, n: u32) -> bool {
        is_among(self.held.staged.as_slice(), n)
    }

    fn next_staged(&self, n: u32) -> Option<u32> {
        next_staged(self.held.staged.as_slice(), n)
    }

    fn is_broken(&self) -> bool {
        !self.held.usable
    }
}
