//! How a content is divided among pages.

ghost use Rattle.std.specs.Prelude.{◌≡◌, ◌≤◌, ◌+◌, ◌*◌, ◌-◌};
ghost use Rattle.page_model.specs.Chain.{pages_long};

use page_io::PAGE_LEN;

/// The kind of a content page.
pub const CONTENT: u8 = 6;

/// Where the bytes of a content begin in a page.
pub const CONTENT_AT: usize = 16;

/// How many bytes of a content a page has.
pub const PER_PAGE: usize = PAGE_LEN - CONTENT_AT;

/// How many pages the longest content has.
pub const MOST_PAGES: usize = 33;

/// How many pages a content of so many bytes has.
pub fn pages_for(long: u16) -> usize
    ensures number { result ≡ pages_long long }
    ensures few { result ≤ MOST_PAGES }
{
    usize::from(long).div_ceil(PER_PAGE)
}
