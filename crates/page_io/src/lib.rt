//! Pages of four sectors over a device, stores of pages that change whole or not at all, and the end
//! of a change: one commit, or nothing.
#![tactic(auto)]

mod committing;
mod laws;
mod mem_pages;
mod page;
mod plain;
mod sectors;
mod served;
mod staged;
mod store;
mod version;

pub use committing::finish;
pub use laws::{commits_stand, images_have_one_meaning};
pub use mem_pages::MemPages;
pub use page::{PAGE_LEN, Page, SECTORS_PER_PAGE};
pub use plain::are_bytes;
pub use sectors::{read_page, write_page};
pub use served::ServedStore;
pub use staged::{StagedPages, find_staged, hand_over, is_among, next_staged, put_staged};
pub use store::{LentPage, PageFault, PageStore};
pub use version::Version;
