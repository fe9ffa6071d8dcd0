//! Redo images and the pages of a log, laid over the pages of a file.

ghost use Rattle.std.specs.Prelude.{◌≡◌, ◌⊎◌, ◌+◌, ◌*◌, ◌^◌, ◌≤◌, ◌<◌, ℕ, [], true, IfOk, IfErr, IfSome, IfNone};
ghost use Rattle.sect_dev.specs.Device.{MoreFaults};
ghost use Rattle.page_io.specs.Store.{bytes_of, are_in_order};
ghost use Rattle.dbm_salvage.specs.Images.{place, AreOnDevice, IsImageFor, AreLaid};
ghost use Rattle.dbm_salvage.specs.Reads.{Looks};

use crate::looks::reads_as;
use page_io::{Page, StagedPages, read_page};
use sect_dev::SectorDev;
use std::alloc::{AllocError, Global};

/// What lies over the pages of a file: the redo images of a commit that a stop cut short, or the
/// pages of the commits in a log.
#[derive(Drop)]
pub struct Images {
    /// Where the image of page n stands, by n; 0 where there is none, and none behind the last.
    pub places: Vec<u32>,
    /// The pages of a log, in order of their numbers. Each lies over the page of its number,
    /// wherever that stands.
    pub logged: StagedPages,
    /// How many of the redo images read as no page of the file.
    pub lost: u32,
    pub ghost in_order: { are_in_order 1 (2 ^ 32) (bytes_of logged.items) ≡ true },
}

impl Images {
    ghost use Rattle.sect_dev.specs.Device.{Image};
    ghost use Rattle.page_io.specs.Page.{page_at};
    ghost use Rattle.page_io.specs.Store.{overlaid};
    ghost use Rattle.dbm_salvage.specs.Laid.{laid};

    /// No image: each page stands at its own number.
    pub fn none(alloc: Global) -> Images
        ensures own { (n : ℕ) → place result.places.items n ≡ n }
        ensures unlogged { result.logged.items ≡ [] }
        ensures none { result.lost ≡ 0 }
    {
        Images::of_log(alloc, StagedPages::new(alloc))
    }

    /// The pages of the commits in a log, in order of their numbers. Any other page stands at its
    /// own number.
    pub fn of_log(alloc: Global, logged: StagedPages) -> Images
        requires { are_in_order 1 (2 ^ 32) (bytes_of logged.items) ≡ true }
        ensures own { (n : ℕ) → place result.places.items n ≡ n }
        ensures logged { result.logged.items ≡ logged.items }
        ensures over { (image : Image) (n : ℕ) → laid result image n
            ≡ overlaid (bytes_of logged.items) (page_at image) n }
        ensures none { result.lost ≡ 0 }
    {
        Images {
            places: Vec::new(alloc),
            logged,
            lost: 0,
        }
    }

    /// Lays `count` redo images, which stand from page `start` on, over the pages of a file of so many
    /// pages. One that reads as no page of the file, or that the device fails to read, is counted as
    /// lost, and the page that it was to be stays as it is. The memory for the places, four bytes for
    /// each page of the file, is taken before a page is read.
    pub fn of<D: SectorDev>(
        alloc: Global,
        dev: &mut D,
        pages: u32,
        start: u32,
        count: u32,
    ) -> Result<Images, AllocError>
        requires behind { pages ≤ start }
        requires fits { 4 * (start + count) ≤ D.sectors dev.old }
        ensures looks { Looks D.SectorDev dev.old dev.new }
        ensures laid { D.honest dev.old → IfOk result (λ images. AreLaid (D.seen dev.old) pages start
            count (MoreFaults (D.faults dev.old) (D.faults dev.new)) images.places.items
            images.lost) }
        ensures within { IfOk result (λ images.
            AreOnDevice images.places.items pages (D.sectors dev.new)) }
        ensures unlogged { IfOk result (λ images. images.logged.items ≡ []) }
        ensures memory { IfErr result (λ _. dev.new ≡ dev.old) }
    {
        let mut places = vec![in alloc; 0; pages as usize]?;
        let mut lost = 0;
        for i in 0..count {
            match page_of_image(dev, pages, start + i) {
                Some(own) => places[own as usize] = start + i,
                None => lost += 1,
            }
        }
        Ok(Images {
            places,
            logged: StagedPages::new(alloc),
            lost,
        })
    }
}

/// The page of a file of so many that the redo image in page `at` reads as.
fn page_of_image<D: SectorDev>(dev: &mut D, pages: u32, at: u32) -> Option<u32>
    requires { 4 * at + 4 ≤ D.sectors dev.old }
    ensures looks { Looks D.SectorDev dev.old dev.new }
    ensures some { D.honest dev.old → IfSome result (IsImageFor (D.seen dev.old) pages at) }
    ensures within { IfSome result (λ n. (1 ≤ n) × (n < pages)) }
    ensures none { D.honest dev.old → IfNone result (MoreFaults (D.faults dev.old) (D.faults dev.new)
        ⊎ ((n : ℕ) → IsImageFor (D.seen dev.old) pages at n → ⊥)) }
{
    let mut page = Page::blank();
    if read_page(dev, at, &mut page).is_err() {
        return None;
    }
    let own = page.own();
    if own == 0 || own >= pages || !reads_as(&page, own) {
        return None;
    }
    Some(own)
}
