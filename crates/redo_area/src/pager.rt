// A store of pages over a device.
ghost use Rattle.std.specs.Prelude.{◌≡◌, ◌≤◌, ◌<◌, ◌/◌, ◌^◌, ◌↔◌, ℕ, true, false, length, [], IfErr};
ghost use Rattle.sect_dev.specs.Moments.{IsOutcome};
ghost use Rattle.page_io.specs.Page.{page_at};
ghost use Rattle.page_io.specs.Store.{bytes_of, file_pages, overlaid, are_in_order};
ghost use Rattle.redo_area.specs.File.{settled};
ghost use Rattle.redo_area.specs.Arming.{IsPlaced};
ghost use Rattle.redo_area.specs.Settling.{SettlesIfUsable, SettlesTo};

mod opening;
mod serving;

use crate::area::RedoArea;
use crate::committing::commit_over;
use crate::settling::bring_home;
use page_io::{
    Page, PageFault, PageStore, StagedPages, Version, find_staged, hand_over, is_among,
    next_staged, put_staged, read_page,
};
use sect_dev::SectorDev;

/// A store of pages over a device. A commit that a stop cuts short is whole or absent when the
/// device is opened again. It answers once its redo images are armed; its pages then wait in memory
/// until `settle` or the next commit brings them home. A store that was opened for reading alone
/// never writes and never syncs.
#[derive(Drop)]
pub struct Pager<D: SectorDev> {
    dev: D,
    staged: StagedPages,
    // Committed pages that stand over the device's: those of the last commit that aren't at home
    // yet, or the redo images of an armed file that was opened for reading alone.
    waiting: StagedPages,
    // Where those of a commit stand that wait.
    area: RedoArea,
    end: u32,
    usable: bool,
    writable: bool,
    ghost least: { 4 ≤ end },
    ghost fits: { end ≤ D.sectors dev / 4 },
    ghost order: { are_in_order 1 (2 ^ 32) (bytes_of staged.items) ≡ true },
    ghost placed: { IsPlaced (D.sectors dev / 4) end area },
    ghost rising: { are_in_order 1 end (bytes_of waiting.items) ≡ true },
    ghost settles: { SettlesIfUsable (D.honest dev) usable writable (D.sectors dev / 4) end area
        (bytes_of waiting.items) (D.candidate dev) (D.seen dev) },
}

impl<D: SectorDev> PageStore for Pager<D> {
    ghost use Rattle.std.specs.Prelude.{OnOk, IfOk, IfSome, IsErrOf};
    ghost use Rattle.std.proofs.Math.Nat.{le_refl};
    ghost use Rattle.sect_dev.specs.Device.{LeavesOnly};
    ghost use Rattle.page_io.specs.Answers.{HasDeviceCause, IsReadAnswer, IsCommitAnswer, IsRefusal};
    ghost use Rattle.page_io.specs.BucketPages.{IsPageOf};
    ghost use Rattle.page_io.specs.Counts.{counts_end};
    ghost use Rattle.page_io.specs.Kept.{KeepsPages};
    ghost use Rattle.page_io.specs.Store.{IsEither, page_of, has_page, committed_with, AllBelow};
    ghost use Rattle.page_io.specs.Versions.{model_version};
    ghost use Rattle.page_io.specs.declared.store.PageFault.TheVariants.{Device};
    ghost use Rattle.redo_area.specs.Pagers.{device_of, kind_at};
    ghost use Rattle.sect_dev.specs.Reads.{OnlyReads};
    ghost use Rattle.redo_area.specs.Settling.{only_seen, quarter_fits};
    ghost use Rattle.redo_area.specs.File.{IsAtRest};

    ghost state = { λ p. record {
      staged = bytes_of p.staged.items;
      end = p.end;
      capacity =
          D.sectors p.dev / 4;
      usable = p.usable;
      writable = p.writable;
      base = [];
    } };

    ghost committed = { λ p. file_pages
        (overlaid (bytes_of p.waiting.items) (page_at (D.seen p.dev))) p.end };

    ghost honest = { λ p. D.honest p.dev };

    ghost faults = { λ p. D.faults p.dev };

    ghost settles_to = { λ p. SettlesTo (D.sectors p.dev / 4) (D.candidate p.dev) };

    ghost moment = { λ p. D.moment p.dev };

    ghost settled_since = { λ p. IsOutcome D.left_since (settled (D.sectors p.dev / 4)) p.dev };

    ghost at_home = { λ p.
        IsAtRest (D.sectors p.dev / 4) p.end (D.candidate p.dev) (D.seen p.dev) };

    ghost reserved = { 5 };

    ghost reserves = { le_refl 5 };

    ghost committed_may_stay = { λ p h usable.
        record {
          image = D.seen p.dev;
          is_image = D.seen_may_stay p.dev h;
          reads =
              (p.settles h usable).settles;
        } };

    ghost only_committed = { λ p y h usable w s.
        only_seen (D.sectors p.dev / 4) (D.candidate p.dev) (D.seen p.dev) y _
        ((p.settles h usable).waits w).stable (p.settles h usable).settles s };

    ghost only_now = { λ p y h s.
        record {
          image = s.left;
          is_image = D.only_now p.dev s.left h s.is_left;
          reads = s.reads;
        } };

    ghost counts_now = { λ p t y h le s.
        record {
          left = s.image;
          is_left = D.counts_now p.dev t s.image h le s.is_image;
          reads = s.reads;
        } };

    ghost ends = { λ p. counts_end (overlaid (bytes_of p.waiting.items) (page_at (D.seen p.dev)))
        p.end p.least };

    ghost in_range = { λ p. (p.least, p.fits, quarter_fits (D.sectors p.dev) (D.fits p.dev)) };

    ghost in_order = { λ p. p.order };

    /// As the trait says, and the device below is only read.
    fn read(&mut self, n: u32, page: &mut Page) -> Result<Option<Version>, PageFault>
        ensures found { ⟦<Pager<D> as PageStore>⟧.honest self.old
            → OnOk result (page.new.bytes
            ≡ overlaid (⟦<Pager<D> as PageStore>⟧.state self.old).staged
            (page_of (⟦<Pager<D> as PageStore>⟧.committed self.old)) n) }
        ensures known { IfOk result (λ known. IfSome known
            (λ version. IsPageOf (model_version version) page.new.bytes)) }
        ensures answer { IsReadAnswer (⟦<Pager<D> as PageStore>⟧.state self.old) n result }
        ensures state { ⟦<Pager<D> as PageStore>⟧.state self.new
            ≡ ⟦<Pager<D> as PageStore>⟧.state self.old }
        ensures kept { ⟦<Pager<D> as PageStore>⟧.honest self.old
            → KeepsPages ⟦<Pager<D> as PageStore>⟧.committed ⟦<Pager<D> as PageStore>⟧.moment
            ⟦<Pager<D> as PageStore>⟧.settled_since ⟦<Pager<D> as PageStore>⟧.settles_to
            self.old self.new }
        ensures honesty { ⟦<Pager<D> as PageStore>⟧.honest self.new
            ↔ ⟦<Pager<D> as PageStore>⟧.honest self.old }
        ensures cause { HasDeviceCause (⟦<Pager<D> as PageStore>⟧.faults self.old)
            (⟦<Pager<D> as PageStore>⟧.faults self.new) result }

        // The device was neither written nor synced.
        ensures only_reads { D.honest (device_of self.old)
            → OnlyReads D.SectorDev (device_of self.old) (device_of self.new) }
        ensures size { D.sectors (device_of self.new) ≡ D.sectors (device_of self.old) }
    {
        if !self.usable {
            return Err(PageFault::Broken);
        }
        if find_staged(self.staged.as_slice(), n, page) {
            return Ok(None);
        }
        if n < 1 || self.end <= n {
            return Err(PageFault::Damaged);
        }
        if find_staged(self.waiting.as_slice(), n, page) {
            return Ok(None);
        }
        if read_page(&mut self.dev, n, page).is_err() {
            return Err(PageFault::Device);
        }
        Ok(None)
    }

    fn stage(&mut self, n: u32, page: &Page) -> Result<(), PageFault> {
        if !self.usable {
            return Err(PageFault::Broken);
        }
        if put_staged(&mut self.staged, page).is_err() {
            return Err(PageFault::Memory);
        }
        Ok(())
    }

    fn unstage(&mut self) {
        self.staged.clear();
    }

    /// As the trait says, and a refusal makes no device call. Pages of the last commit that still
    /// wait are brought home on the way.
    fn commit(&mut self, new_end: u32) -> Result<(), PageFault>
        requires some { 0 < length (⟦<Pager<D> as PageStore>⟧.state self.old).staged }
        requires least { 4 ≤ new_end }
        requires below { AllBelow new_end (⟦<Pager<D> as PageStore>⟧.state self.old).staged }
        requires grown { (n : ℕ) → (⟦<Pager<D> as PageStore>⟧.state self.old).end ≤ n → n < new_end
            → has_page (⟦<Pager<D> as PageStore>⟧.state self.old).staged n ≡ true }
        ensures any_moment { ⟦<Pager<D> as PageStore>⟧.honest self.old
            → (⟦<Pager<D> as PageStore>⟧.state self.old).usable ≡ true
            → (⟦<Pager<D> as PageStore>⟧.state self.old).writable ≡ true
            → LeavesOnly ⟦<Pager<D> as PageStore>⟧.moment ⟦<Pager<D> as PageStore>⟧.settled_since
            self.old self.new
            (IsEither (⟦<Pager<D> as PageStore>⟧.committed self.old)
            (committed_with (⟦<Pager<D> as PageStore>⟧.committed self.old)
            (⟦<Pager<D> as PageStore>⟧.state self.old).staged new_end)) }
        ensures committed { ⟦<Pager<D> as PageStore>⟧.honest self.old
            → OnOk result (⟦<Pager<D> as PageStore>⟧.committed self.new
            ≡ committed_with (⟦<Pager<D> as PageStore>⟧.committed self.old)
            (⟦<Pager<D> as PageStore>⟧.state self.old).staged new_end) }
        ensures ok { OnOk result (⟦<Pager<D> as PageStore>⟧.state self.new
            ≡ record (⟦<Pager<D> as PageStore>⟧.state self.old) {
              staged = [];
              end = new_end;
            }) }
        ensures refused { IfErr result
            (λ e. IsRefusal e → (⟦<Pager<D> as PageStore>⟧.state self.new
            ≡ ⟦<Pager<D> as PageStore>⟧.state self.old)
            × (⟦<Pager<D> as PageStore>⟧.honest self.old
            → KeepsPages ⟦<Pager<D> as PageStore>⟧.committed ⟦<Pager<D> as PageStore>⟧.moment
            ⟦<Pager<D> as PageStore>⟧.settled_since ⟦<Pager<D> as PageStore>⟧.settles_to
            self.old self.new)) }
        ensures breaks { IsErrOf result Device
            → ⟦<Pager<D> as PageStore>⟧.state self.new
            ≡ record (⟦<Pager<D> as PageStore>⟧.state self.old) { usable = false } }
        ensures answer { IsCommitAnswer (⟦<Pager<D> as PageStore>⟧.state self.old) new_end result }
        ensures honesty { ⟦<Pager<D> as PageStore>⟧.honest self.new
            ↔ ⟦<Pager<D> as PageStore>⟧.honest self.old }
        ensures cause { HasDeviceCause (⟦<Pager<D> as PageStore>⟧.faults self.old)
            (⟦<Pager<D> as PageStore>⟧.faults self.new) result }

        // The device is as it was.
        ensures untouched { IfErr result
            (λ e. IsRefusal e → device_of self.new ≡ device_of self.old) }
        ensures kind { kind_at self.new ≡ kind_at self.old }
    {
        if !self.usable {
            return Err(PageFault::Broken);
        }
        if !self.writable {
            return Err(PageFault::ReadOnly);
        }
        let room = self.capacity().saturating_sub(self.end.max(new_end));
        if self.staged.len() > room as usize {
            return Err(PageFault::NoRoom);
        }
        self.usable = false;
        let waiting = self.waiting.as_slice();
        let pages = self.staged.as_slice();
        let done = commit_over(&mut self.dev, self.area, self.end, waiting, new_end, pages);
        let Ok(done) = done else {
            return Err(PageFault::Device);
        };
        self.waiting.clear();
        self.staged.truncate(done.waiting);
        hand_over(&mut self.staged, &mut self.waiting);
        self.area = done.area;
        self.end = new_end;
        self.usable = true;
        Ok(())
    }

    fn settle(&mut self) -> Result<(), PageFault> {
        if !self.usable {
            return Err(PageFault::Broken);
        }
        if !self.writable {
            return Ok(());
        }
        self.usable = false;
        let pages = self.waiting.as_slice();
        if bring_home(&mut self.dev, self.area, self.end, pages).is_err() {
            return Err(PageFault::Device);
        }
        self.waiting.clear();
        self.area = RedoArea::empty(self.area.kind, self.end);
        self.usable = true;
        Ok(())
    }

    fn end(&self) -> u32 {
        self.end
    }

    fn capacity(&self) -> u32 {
        self.dev.capacity() / 4
    }

    fn is_staged(&self, n: u32) -> bool {
        is_among(self.staged.as_slice(), n)
    }

    fn next_staged(&self, n: u32) -> Option<u32> {
        next_staged(self.staged.as_slice(), n)
    }

    fn is_broken(&self) -> bool {
        !self.usable
    }
}
