//! Far contents over a device.

ghost use Rattle.std.specs.Prelude.{◌≡◌, ◌+◌, ◌*◌, ◌++◌, ◌≤◌, ◌<◌, ℕ, List, length, vec_len, vec_capacity, OnOk, IfOk, IsErrOf};
ghost use Rattle.sect_dev.specs.Device.{MoreFaults};
ghost use Rattle.page_model.specs.PageBodies.{filled};
ghost use Rattle.page_model.specs.Pages.{ContentPage};
ghost use Rattle.content_pages.specs.Contents.{IsContentAt};
ghost use Rattle.dbm_salvage.specs.Images.{AreOnDevice};
ghost use Rattle.dbm_salvage.specs.Laid.{laid};
ghost use Rattle.dbm_salvage.specs.Reads.{Looks};
ghost use Rattle.dbm_salvage.specs.Salvage.{said_in};
ghost use Rattle.dbm_salvage.specs.declared.contents.NoContent.TheVariants.{Failed, Broken};

use crate::images::Images;
use crate::reading::read_laid;
use content_pages::{PER_PAGE, pages_for};
use page_io::{PAGE_LEN, Page};
use sect_dev::SectorDev;

/// The kind of a content page, and where the bytes of the content begin in it.
const CONTENT: u8 = 6;

const CONTENT_AT: usize = 16;

/// Why a content wasn't read.
#[derive(Clone, Copy, Debug, PartialEq, Eq)]
pub(crate) enum NoContent {
    /// The device failed.
    Failed,
    /// The pages don't say one of this length.
    Broken,
}

/// Appends the part of a content that stands in page `n` of so many pages, for which there is room,
/// and answers the next page, 0 for none.
fn read_part<D: SectorDev>(
    dev: &mut D,
    images: &Images,
    pages: u32,
    n: u32,
    long: usize,
    content: &mut Vec<u8>,
    page: &mut Page,
) -> Result<u32, NoContent>
    requires fits { AreOnDevice images.now.places.items pages (D.sectors dev.old) }
    requires part { long ≤ 2032 }
    requires room { vec_len content.old + long ≤ vec_capacity content.old }
    ensures looks { Looks D.SectorDev dev.old dev.new }
    ensures cause { IsErrOf result Failed → MoreFaults (D.faults dev.old) (D.faults dev.new) }
    ensures capacity { vec_capacity content.old ≤ vec_capacity content.new }
    ensures longer { OnOk result (length content.new.items ≡ length content.old.items + long) }
    ensures known { OnOk result (1 ≤ n) }
    ensures says { D.honest dev.old → IfOk result (λ next. (part : List ℕ) × (length part ≡ long)
        × (content.new.items ≡ content.old.items ++ part)
        × (said_in (laid images.now (D.seen dev.old)) pages n ≡ ContentPage next (filled part))) }
    ensures whole { D.honest dev.old → (next : ℕ) (part : List ℕ) → 1 ≤ n → length part ≡ long
        → said_in (laid images.now (D.seen dev.old)) pages n ≡ ContentPage next (filled part)
        → IsErrOf result Broken → ⊥ }
{
    if n == 0 || n >= pages {
        return Err(NoContent::Broken);
    }
    if read_laid(dev, images, n, page).is_err() {
        return Err(NoContent::Failed);
    }
    if !page.is_plain(n, CONTENT) || !page.is_clear(CONTENT_AT + long, PAGE_LEN) {
        return Err(NoContent::Broken);
    }
    content
        .extend_from_slice(&page.bytes[CONTENT_AT..CONTENT_AT + long])
        .unwrap();
    Ok(page.next())
}

/// Reads the content of so many bytes that begins in page `first` of so many pages into `content`,
/// which has room for it, in the place of what that holds.
pub(crate) fn read_content<D: SectorDev>(
    dev: &mut D,
    images: &Images,
    pages: u32,
    first: u32,
    long: u16,
    content: &mut Vec<u8>,
) -> Result<(), NoContent>
    requires fits { AreOnDevice images.now.places.items pages (D.sectors dev.old) }
    requires room { 65535 ≤ vec_capacity content.old }
    ensures looks { Looks D.SectorDev dev.old dev.new }
    ensures cause { IsErrOf result Failed → MoreFaults (D.faults dev.old) (D.faults dev.new) }
    ensures capacity { vec_capacity content.old ≤ vec_capacity content.new }
    ensures length { OnOk result (length content.new.items ≡ long) }
    ensures read { D.honest dev.old
        → OnOk result (IsContentAt (said_in (laid images.now (D.seen dev.old)) pages) first
        content.new.items) }

    // Where the pages say a content of that length Broken is never answered.
    ensures whole { D.honest dev.old → (bytes : List ℕ) → length bytes ≡ long
        → IsContentAt (said_in (laid images.now (D.seen dev.old)) pages) first bytes
        → IsErrOf result Broken → ⊥ }
{
    content.clear();
    let mut page = Page::blank();
    let mut at = first;
    let mut left = usize::from(long);
    for _page in 0..pages_for(long) {
        let part = left.min(PER_PAGE);
        at = read_part(dev, images, pages, at, part, content, &mut page)?;
        left -= part;
    }
    if at == 0 {
        Ok(())
    } else {
        Err(NoContent::Broken)
    }
}
