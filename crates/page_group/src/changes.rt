// What a group holds of the file that it makes.
ghost use Rattle.std.specs.Prelude.{◌≡◌, ◌≤◌, ◌<◌, ◌^◌, true};
ghost use Rattle.page_io.specs.Store.{bytes_of, are_in_order};

use crate::changed_pages::ChangedPages;
use page_io::StagedPages;

/// The pages of a group that its base hasn't, and where the group's file ends.
#[derive(Drop)]
pub struct Changes {
    pub(crate) changed: ChangedPages,
    pub(crate) staged: StagedPages,
    pub(crate) end: u32,
    pub(crate) capacity: u32,
    pub(crate) usable: bool,
    pub(crate) ghost least: { 4 ≤ end },
    pub(crate) ghost room: { end ≤ capacity },
    pub(crate) ghost fits: { capacity < 2 ^ 32 },
    pub(crate) ghost order: { are_in_order 1 (2 ^ 32) (bytes_of staged.items) ≡ true },
}
