//! The emptying of a database that is there.

ghost use Rattle.std.specs.Prelude.{◌≡◌, ◌≢◌, ◌⊎◌, ◌↔◌, ◌≤◌, ◌<◌, ◌+◌, ◌/◌, ◌∷◌, [], true, IfOk, IfErr, OnOk, OnErr, IsErrOf, None, Some, map};
ghost use Rattle.dbm_fault.specs.Among.{IsErrAmong};
ghost use Rattle.std.specs.FinMap.{empty};
ghost use Rattle.sect_dev.specs.Device.{Image, IsImageOf, LeavesOnly};
ghost use Rattle.sect_dev.specs.Moments.{IsOutcome};
ghost use Rattle.page_model.specs.Placement.{fresh_placement};
ghost use Rattle.page_model.specs.PageBodies.{meta_of as placement_meta};
ghost use Rattle.page_io.specs.Answers.{HasDeviceCause};
ghost use Rattle.page_io.specs.Meaning.{ImageStandsFor};
ghost use Rattle.page_io.specs.Page.{own_number};
ghost use Rattle.page_io.specs.Store.{bytes_of, file_of, IsReady};
ghost use Rattle.page_io.specs.Views.{StagesOnly};
ghost use Rattle.page_io.specs.declared.store.PageFault.TheVariants.{Memory, Device, Broken, NoRoom};
ghost use Rattle.redo_area.specs.File.{settled};
ghost use Rattle.redo_area.specs.Opening.{IsFresh as IsFreshStore};
ghost use Rattle.redo_area.specs.Pagers.{device_of};
ghost use Rattle.seg_table.specs.MetaPages.{model_meta};
ghost use Rattle.page_io.specs.Committing.{Holds, IsForgotten};
ghost use Rattle.file_opening.specs.Opening.{emptying_fault, bounds_of};
ghost use Rattle.file_opening.specs.OpenFiles.{device_left, IsOpeningCall, IsJustOpened, StandsAs};

use crate::making::{pages_of_empty, room_refusal};
use crate::{Fault, OpenFile, OpenHow};
use page_io::{Page, PageFault, PageStore, finish};
use redo_area::Pager;
use sect_dev::SectorDev;
use seg_table::Meta;

/// Stages the three pages of an empty database, and answers where the file then ends.
fn stage_empty<S: PageStore>(store: &mut S, pages: &[Page; 3]) -> Result<u32, PageFault>
    requires idle { (S.state store.old).staged ≡ [] }
    requires numbers { map own_number (bytes_of pages.now) ≡ 1 ∷ 2 ∷ 3 ∷ [] }
    ensures stages { StagesOnly S.PageStore store.old store.new }
    ensures only { IsErrAmong result (Broken ∷ Memory ∷ []) }
    ensures broken { IsErrOf result Broken → (S.state store.old).usable ≡ true → ⊥ }
    ensures staged { IfOk result (λ end.
        (end ≡ 4) × ((S.state store.new).staged ≡ bytes_of pages.now)) }
{
    store.stage(1, &pages[0])?;
    store.stage(2, &pages[1])?;
    store.stage(3, &pages[2])?;
    Ok(4)
}

/// Makes a file that of an empty database, in one commit.
fn commit_empty<S: PageStore>(store: &mut S, meta: &Meta) -> Result<(), PageFault>
    requires ready { IsReady (S.state store.old) }
    requires limited { (1 ≤ meta.now.limit) × (meta.now.limit ≤ 1000000) }
    requires fresh { model_meta meta.now ≡ placement_meta
        (fresh_placement (model_meta meta.now).bounds) }
    ensures ok { OnOk result (S.state store.new ≡ record (S.state store.old) { end = 4 }) }
    ensures err { IfErr result (IsForgotten (S.state store.old) (S.state store.new)) }
    ensures cause { HasDeviceCause (S.faults store.old) (S.faults store.new) result }
    ensures honesty { S.honest store.new ↔ S.honest store.old }
    ensures only { IsErrAmong result (Memory ∷ NoRoom ∷ Device ∷ []) }
    ensures no_room { IsErrOf result NoRoom
        → (S.state store.old).capacity < (S.state store.old).end + 3 }
    ensures holds { S.honest store.old
        → OnOk result (Holds S.PageStore store.new (model_meta meta.now) empty) }
    ensures room { OnOk result ((S.state store.old).end + 3 ≤ (S.state store.old).capacity) }
    ensures any_moment { S.honest store.old
        → LeavesOnly S.moment S.settled_since store.old store.new
        (λ now. (now ≡ file_of (S.committed store.old)) ⊎
        (((S.state store.old).end + 3 ≤ (S.state store.old).capacity)
        × ImageStandsFor now empty (model_meta meta.now).bounds)) }
    ensures unchanged { S.honest store.old
        → OnErr result ((S.state store.new).usable ≡ true
        → LeavesOnly S.moment S.settled_since store.old store.new
        (λ now. now ≡ file_of (S.committed store.old))) }
{
    let staged = stage_empty(store, &pages_of_empty(meta));
    finish(store, staged)
}

/// The database of a file, emptied and of the limit and the version that are asked for, or the
/// device and why it was not.
pub fn empty_database<D: SectorDev>(
    store: Pager<D>,
    how: OpenHow,
    sectors: u32,
) -> Result<OpenFile<Pager<D>>, (D, Fault)>
    requires sectors { sectors ≡ D.sectors (device_of store) }
    requires fresh { IsFreshStore (D.sectors (device_of store) / 4) true
        (⟦<Pager<D> as PageStore>⟧.state store) }
    ensures fresh { IfOk result (IsJustOpened true (D.sectors (device_of store) / 4)) }
    ensures any_moment { D.honest (device_of store)
        → LeavesOnly D.moment (IsOutcome D.left_since (settled (D.sectors (device_of store) / 4)))
        (device_of store) (device_left result)
        (λ now. (now ≡ file_of (⟦<Pager<D> as PageStore>⟧.committed store)) ⊎
        ((emptying_fault (bounds_of how) (D.sectors (device_of store))
        (⟦<Pager<D> as PageStore>⟧.state store).end ≡ None)
        × ImageStandsFor now empty (bounds_of how))) }
    ensures room { IfOk result (λ file.
        emptying_fault (bounds_of how) (D.sectors (device_of store))
        (⟦<Pager<D> as PageStore>⟧.state store).end ≡ None) }
    ensures stands { D.honest (device_of store)
        → IfOk result (λ file. StandsAs file empty (bounds_of how)) }
    ensures meta { IfOk result (λ file.
        model_meta file.meta ≡ placement_meta (fresh_placement (bounds_of how))) }
    ensures refused { IfErr result
        (λ e. e.1 ≢ Fault.Device → (emptying_fault (bounds_of how) (D.sectors (device_of store))
        (⟦<Pager<D> as PageStore>⟧.state store).end ≡ Some e.1) ⊎ (e.1 ≡ Fault.Memory)) }
    ensures left { D.honest (device_of store)
        → IfErr result (λ e. e.1 ≢ Fault.Device → (after : Image)
        → IsImageOf (D.candidate e.0) after
        → settled (D.sectors (device_of store) / 4) after
        ≡ file_of (⟦<Pager<D> as PageStore>⟧.committed store)) }
    ensures device { IsOpeningCall D.SectorDev (device_of store) result }
    ensures only { IfErr result (λ e.
        (e.1 ≡ Fault.BadLimit) ⊎ ((e.1 ≡ Fault.TooSmall)
        ⊎ ((e.1 ≡ Fault.Memory) ⊎ ((e.1 ≡ Fault.NoRoom) ⊎ (e.1 ≡ Fault.Device))))) }
    ensures size { D.sectors (device_left result) / 4 ≡ D.sectors (device_of store) / 4 }
{
    if let Some(fault) = room_refusal(how, sectors) {
        return Err((store.into_dev(), fault));
    }
    let mut store = store;
    let meta = Meta::of_empty(how.limit, how.version, 2);
    match commit_empty(&mut store, &meta) {
        Ok(()) => Ok(OpenFile {
            store,
            meta,
            writable: true,
        }),
        Err(fault) => Err((store.into_dev(), Fault::from(fault))),
    }
}
