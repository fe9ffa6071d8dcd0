// A file that was opened.
ghost use Rattle.std.specs.Prelude.{◌≡◌, []};
ghost use Rattle.page_model.specs.Valid.{IsMeta};
ghost use Rattle.seg_table.specs.MetaPages.{model_meta};

use page_io::PageStore;
use seg_table::Meta;

/// The store of pages of a database that was opened, and what is kept of its meta page.
#[derive(Drop)]
pub struct OpenFile<S: PageStore> {
    pub store: S,
    pub meta: Meta,
    /// Opened for changes.
    pub writable: bool,
    pub ghost idle: { (S.state store).staged ≡ [] },
    pub ghost told: { (S.state store).writable ≡ writable },
    pub ghost valid: { IsMeta (model_meta meta) },
}
