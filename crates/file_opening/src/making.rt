//! The making of an empty database.

ghost use Rattle.std.specs.Prelude.{◌≡◌, ◌≢◌, ◌⊎◌, ◌≤◌, ◌/◌, ◌∷◌, [], true, IfOk, IfErr, IfSome, Some, None, Err, map};
ghost use Rattle.std.specs.FinMap.{empty};
ghost use Rattle.sect_dev.specs.Device.{Image, IsImageOf, LeavesOnly};
ghost use Rattle.page_model.specs.Meaning.{said_by};
ghost use Rattle.page_model.specs.Pages.{MetaPage};
ghost use Rattle.page_model.specs.Placement.{fresh_placement};
ghost use Rattle.page_model.specs.PageBodies.{meta_of as placement_meta};
ghost use Rattle.dbm_model.specs.Sizes.{sectors_for};
ghost use Rattle.page_io.specs.Meaning.{FileStandsFor, ImageStandsFor};
ghost use Rattle.page_io.specs.Page.{own_number};
ghost use Rattle.page_io.specs.Store.{blank, bytes_of, page_of};
ghost use Rattle.redo_area.specs.File.{settled};
ghost use Rattle.redo_area.specs.Pagers.{kind_at};
ghost use Rattle.seg_table.specs.MetaPages.{model_meta};
ghost use Rattle.file_opening.specs.Opening.{room_fault, making_fault, bounds_of};
ghost use Rattle.file_opening.specs.OpenFiles.{device_left, IsOpeningCall, IsJustOpened, StandsAs};

use crate::{Fault, OpenFile, OpenHow, needed_sectors_of};
use page_io::{Page, PageStore};
use redo_area::Pager;
use sect_dev::SectorDev;
use seg_table::{Meta, segment_of_one, write_meta};
use slot_page::empty;
use std::alloc::Global;

/// The kind of a bucket's head page.
const HEAD: u8 = 3;

/// What refuses a database of the limit and the version that are asked for on a device of so many
/// sectors.
pub fn room_refusal(how: OpenHow, sectors: u32) -> Option<Fault>
    ensures { result ≡ room_fault (sectors_for (bounds_of how)) sectors }
{
    match needed_sectors_of(how.version, how.limit) {
        None => Some(Fault::BadLimit),
        Some(needed) if sectors < needed => Some(Fault::TooSmall),
        Some(_) => None,
    }
}

/// What refuses a new database.
fn making_refusal(how: OpenHow, sectors: u32) -> Option<Fault>
    ensures { result ≡ making_fault how sectors }
{
    if !how.create {
        return Some(Fault::NotADatabase);
    }
    if !how.access.is_writable() {
        return Some(Fault::ReadOnly);
    }
    room_refusal(how, sectors)
}

/// The pages of a new file: the meta page, one segment page with one head, and that head page,
/// which is empty.
pub fn pages_of_empty(meta: &Meta) -> [Page; 3]
    requires limited { (1 ≤ meta.now.limit) × (meta.now.limit ≤ 1000000) }
    requires fresh { model_meta meta.now ≡ placement_meta
        (fresh_placement (model_meta meta.now).bounds) }
    ensures stands { FileStandsFor (bytes_of result) empty (model_meta meta.now).bounds }
    ensures meta { said_by (page_of (bytes_of result)) 1 ≡ MetaPage (model_meta meta.now) }
    ensures numbers { map own_number (bytes_of result) ≡ 1 ∷ 2 ∷ 3 ∷ [] }
{
    let mut first = Page::blank();
    write_meta(meta, &mut first);
    [first, segment_of_one(2, 3), empty(3, HEAD, 0)]
}

/// A new database on a blank device.
pub fn make_database<D: SectorDev>(
    alloc: Global,
    dev: D,
    how: OpenHow,
) -> Result<OpenFile<Pager<D>>, (D, Fault)>
    ensures fresh { IfOk result (IsJustOpened true (D.sectors dev / 4)) }

    // Where every image was blank, every image of every moment since is blank or that of the new
    // database.
    ensures any_moment { D.honest dev
        → ((image : Image) → IsImageOf (D.candidate dev) image
        → settled (D.sectors dev / 4) image ≡ blank)
        → LeavesOnly D.moment D.left_since dev (device_left result)
        (λ image. (settled (D.sectors dev / 4) image ≡ blank)
        ⊎ ((making_fault how (D.sectors dev) ≡ None)
        × ImageStandsFor (settled (D.sectors dev / 4) image) empty (bounds_of how))) }
    ensures stands { D.honest dev → IfOk result (λ file. StandsAs file empty (bounds_of how)) }
    ensures meta { IfOk result (λ file.
        model_meta file.meta ≡ placement_meta (fresh_placement (bounds_of how))) }
    ensures commits { IfOk result (λ file. kind_at file.store ≡ how.commits) }
    ensures asked { IfOk result (λ file. making_fault how (D.sectors dev) ≡ None) }
    ensures refused { IfErr result
        (λ e. e.1 ≢ Fault.Device → (making_fault how (D.sectors dev) ≡ Some e.1) × (e.0 ≡ dev)) }
    ensures untouched { IfSome (making_fault how (D.sectors dev))
        (λ fault. result ≡ Err (dev, fault)) }
    ensures device { IsOpeningCall D.SectorDev dev result }
    ensures only { IfErr result (λ e.
        (e.1 ≡ Fault.Device) ⊎ ((e.1 ≡ Fault.NotADatabase)
        ⊎ ((e.1 ≡ Fault.ReadOnly) ⊎ ((e.1 ≡ Fault.BadLimit) ⊎ (e.1 ≡ Fault.TooSmall))))) }
    ensures size { D.sectors (device_left result) ≡ D.sectors dev }
{
    if let Some(fault) = making_refusal(how, dev.capacity()) {
        return Err((dev, fault));
    }
    let meta = Meta::of_empty(how.limit, how.version, 2);
    match Pager::format(alloc, dev, how.commits, &pages_of_empty(&meta)) {
        Ok(store) => Ok(OpenFile {
            store,
            meta,
            writable: true,
        }),
        Err((dev, _)) => Err((dev, Fault::Device)),
    }
}
