// How a store comes over a device.
ghost use Rattle.std.specs.Prelude.{◌≡◌, ◌≢◌, ◌≤◌, ◌<◌, ◌+◌, ◌/◌, ◌↔◌, true, false, length, [], Some, IfOk, IfErr};
ghost use Rattle.sect_dev.specs.Device.{Image, IsImageOf, LeavesOnly};
ghost use Rattle.page_io.specs.Store.{bytes_of, blank, file_of};
ghost use Rattle.redo_area.specs.File.{settled, SettlesAsBefore, IsBlankOr};
ghost use Rattle.redo_area.specs.Settling.{SettlesTo};
ghost use Rattle.redo_area.specs.Opening.{refusal_of, SaysUnsettled, IsClosed, IsFresh, IsRefused, HasOpenCause};
ghost use Rattle.redo_area.specs.Header.{kind_of};
ghost use Rattle.redo_area.specs.Pagers.{device_of, device_after, kind_at};
ghost use Rattle.sect_dev.specs.Reads.{OnlyReads};

use crate::area::RedoArea;
use crate::format::format_pages;
use crate::reading::read_file;
use crate::resuming::resume;
use crate::{CommitKind, OpenFault, Pager};
use page_io::{Page, PageStore, StagedPages};
use sect_dev::SectorDev;
use std::alloc::Global;

impl<D: SectorDev> Pager<D> {
    /// Makes a file of these pages, from page 1 on, and opens it for writing. The only fault is
    /// Device; what a failed call leaves of a blank device is blank or the whole file.
    pub fn format(
        alloc: Global,
        dev: D,
        kind: CommitKind,
        pages: &[Page],
    ) -> Result<Pager<D>, (D, OpenFault)>
        requires least { 3 ≤ length pages.now }
        requires room { length pages.now < D.sectors dev / 4 }

        // Where every image was blank at the start, every image of every moment since is blank or
        // the whole file.
        ensures any_moment { D.honest dev
            → ((image : Image) → IsImageOf (D.candidate dev) image
            → settled (D.sectors dev / 4) image ≡ blank)
            → LeavesOnly D.moment D.left_since dev (device_after result)
            (λ image. IsBlankOr (bytes_of pages.now) (settled (D.sectors dev / 4) image)) }
        ensures state { IfOk result (λ pager. ⟦<Pager<D> as PageStore>⟧.state pager
            ≡ record {
              staged = [];
              end = length pages.now + 1;
              capacity = D.sectors dev / 4;
              usable = true;
              writable = true;
              base = [];
            }) }
        ensures committed { D.honest dev
            → IfOk result (λ pager. ⟦<Pager<D> as PageStore>⟧.committed pager
            ≡ bytes_of pages.now) }
        ensures kind { IfOk result (λ pager. kind_at pager ≡ kind) }
        ensures honesty { D.honest (device_after result) ↔ D.honest dev }
        ensures cause { HasOpenCause true (D.faults dev) (D.faults (device_after result)) result }
        ensures only { IfErr result (λ e. e.1 ≡ OpenFault.Device) }
        ensures size { D.sectors (device_after result) ≡ D.sectors dev }
    {
        let mut dev = dev;
        if format_pages(&mut dev, kind, pages).is_err() {
            return Err((dev, OpenFault::Device));
        }
        Ok(Pager {
            dev,
            staged: StagedPages::new(alloc),
            waiting: StagedPages::new(alloc),
            area: RedoArea::empty(kind, pages.len() as u32 + 1),
            end: pages.len() as u32 + 1,
            usable: true,
            writable: true,
        })
    }

    /// Opens a device that a stop or a closing may have left. For writing, it is synced, and a log
    /// whose newest commit alone waits is taken over; any other commit that waits is ended first, as
    /// that log is where memory lacks for its pages. For reading alone, nothing is written and
    /// nothing is synced: the pages that wait are read into memory, from redo images or a log, and
    /// stand in the place of those that they name.
    pub fn open(alloc: Global, dev: D, writable: bool) -> Result<Pager<D>, (D, OpenFault)>
        requires { 16 ≤ D.sectors dev }

        // Every image of every moment settles as one does that the device had at the start.
        ensures any_moment { D.honest dev
            → LeavesOnly D.moment D.left_since dev (device_after result)
            (SettlesAsBefore (D.sectors dev / 4) (D.candidate dev)) }

        // The committed pages are those that an image settled to at the start.
        ensures committed { D.honest dev
            → IfOk result (λ pager. SettlesTo (D.sectors dev / 4) (D.candidate dev)
            (file_of (⟦<Pager<D> as PageStore>⟧.committed pager))) }
        ensures state { IfOk result (λ pager.
            IsFresh (D.sectors dev / 4) writable (⟦<Pager<D> as PageStore>⟧.state pager)) }

        // For writing, every fault but Device is that of the one image that is left.
        ensures refused { writable ≡ true → D.honest dev
            → IfErr result (λ e. e.1 ≢ OpenFault.Device
            → IsRefused (D.sectors dev / 4) (D.candidate dev) (D.candidate e.0)
            (D.seen e.0) e.1) }

        // For reading alone, the device is left as it is, and the answer is that of what a read
        // gives.
        ensures only_reads { writable ≡ false → D.honest dev
            → OnlyReads D.SectorDev dev (device_after result) }
        ensures committed_as_seen { writable ≡ false → D.honest dev
            → IfOk result (λ pager. settled (D.sectors dev / 4) (D.seen dev)
            ≡ file_of (⟦<Pager<D> as PageStore>⟧.committed pager)) }
        ensures refused_as_seen { writable ≡ false → D.honest dev
            → IfErr result (λ e. e.1 ≢ OpenFault.Device → e.1 ≢ OpenFault.Memory
            → refusal_of (D.sectors dev / 4) (D.seen dev) ≡ Some e.1) }

        ensures kind { D.honest dev
            → IfOk result (λ pager. kind_of (D.seen (device_of pager) 0) ≡ kind_at pager) }

        // Memory is lacking for redo images and logs alone, and never for writing.
        ensures memory { D.honest dev
            → IfErr result (λ e. e.1 ≡ OpenFault.Memory
            → SaysUnsettled (D.sectors dev / 4) (D.seen dev)) }
        ensures honesty { D.honest (device_after result) ↔ D.honest dev }
        ensures cause { HasOpenCause writable (D.faults dev)
            (D.faults (device_after result)) result }
        ensures size { D.sectors (device_after result) ≡ D.sectors dev }
    {
        let mut dev = dev;
        if writable {
            return match resume(alloc, &mut dev) {
                Ok(file) => Ok(Pager {
                    dev,
                    staged: StagedPages::new(alloc),
                    waiting: file.waiting,
                    area: file.area,
                    end: file.end,
                    usable: true,
                    writable: true,
                }),
                Err(fault) => Err((dev, fault)),
            };
        }
        match read_file(alloc, &mut dev) {
            Ok(file) => Ok(Pager {
                dev,
                staged: StagedPages::new(alloc),
                waiting: file.redo,
                area: RedoArea::empty(file.kind, file.end),
                end: file.end,
                usable: true,
                writable: false,
            }),
            Err(fault) => Err((dev, fault)),
        }
    }

    /// Whether the pages of the last commit stand in a log, where the next opening for writing may
    /// go on.
    pub fn is_in_log(&self) -> bool
        ensures log { result ≡ true → D.honest (device_of self.now)
            → (⟦<Pager<D> as PageStore>⟧.state self.now).usable ≡ true
            → (⟦<Pager<D> as PageStore>⟧.state self.now).writable ≡ true
            → IsClosed (D.sectors (device_of self.now) / 4)
            (⟦<Pager<D> as PageStore>⟧.state self.now).end
            (D.candidate (device_of self.now)) (D.seen (device_of self.now)) }
    {
        self.area.log.is_some()
    }

    /// How the file's commits are made.
    pub fn commit_kind(&self) -> CommitKind
        ensures { result ≡ kind_at self.now }
    {
        self.area.kind
    }

    /// The device.
    pub fn dev(&self) -> &D
        ensures { result.now ≡ device_of self.now }
    {
        &self.dev
    }

    /// The device as it is. Staged pages are lost; those that wait are brought home by the next
    /// opening for writing, unless `settle` came before.
    pub fn into_dev(self) -> D
        ensures { result ≡ device_of self }
    {
        self.dev
    }
}
