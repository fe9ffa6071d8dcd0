//! What a page is by its own bytes.

ghost use Rattle.std.specs.Prelude.{◌≡◌, ◌↔◌, ◌<◌, ◌⊎◌, ◌≢◌, IsTrue, IsFalse, IfErr, OnOk, Ok, true, false, []};
ghost use Rattle.page_model.specs.Meaning.{records_on};
ghost use Rattle.page_model.specs.Reading.{kind_of, body_of};
ghost use Rattle.page_io.specs.BucketPages.{IsBucketPage, page_records};
ghost use Rattle.dbm_salvage.specs.Salvage.{ReadsAs, IsNoPage};

use crate::trouble::Trouble;
use free_pages::read_free;
use page_io::{PAGE_LEN, Page, Version, are_bytes};
use seg_table::read_meta;
use slot_page::is_bucket_page;

/// The kinds of a page.
const META: u8 = 1;

const SEGMENT: u8 = 2;

const HEAD: u8 = 3;

const OVERFLOW: u8 = 4;

const FREE: u8 = 5;

const CONTENT: u8 = 6;

// Whether a page of this kind reads as page n.
fn is_meta(page: &Page, n: u32) -> bool
    requires { kind_of page.now.bytes ≡ 1 }
    ensures { IsTrue result ↔ ReadsAs n page.now.bytes }
{
    n == 1 && read_meta(page).is_ok()
}

fn is_segment(page: &Page, n: u32) -> bool
    requires { kind_of page.now.bytes ≡ 2 }
    ensures { IsTrue result ↔ ReadsAs n page.now.bytes }
{
    page.is_plain(n, SEGMENT) && page.next() == 0
}

fn is_bucket(page: &Page, n: u32) -> bool
    requires { (kind_of page.now.bytes ≡ 3) ⊎ (kind_of page.now.bytes ≡ 4) }
    ensures { IsTrue result ↔ ReadsAs n page.now.bytes }
{
    page.own() == n && is_bucket_page(page, Version::V2)
}

fn is_free(page: &Page, n: u32) -> bool
    requires { kind_of page.now.bytes ≡ 5 }
    ensures { IsTrue result ↔ ReadsAs n page.now.bytes }
{
    are_bytes(&page.bytes);
    read_free(page, n).is_some()
}

fn is_content(page: &Page, n: u32) -> bool
    requires { kind_of page.now.bytes ≡ 6 }
    ensures { IsTrue result ↔ ReadsAs n page.now.bytes }
{
    page.is_plain(n, CONTENT)
}

/// Whether the bytes read as page n.
pub(crate) fn reads_as(page: &Page, n: u32) -> bool
    ensures { IsTrue result ↔ ReadsAs n page.now.bytes }
{
    match page.kind() {
        META => is_meta(page, n),
        SEGMENT => is_segment(page, n),
        HEAD | OVERFLOW => is_bucket(page, n),
        FREE => is_free(page, n),
        CONTENT => is_content(page, n),
        _ => false,
    }
}

/// Whether a page of this kind has records.
fn has_records(page: &Page) -> bool
    ensures yes { IsTrue result → (kind_of page.now.bytes ≡ 3) ⊎ (kind_of page.now.bytes ≡ 4) }
    ensures no { IsFalse result → (kind_of page.now.bytes ≢ 3) × (kind_of page.now.bytes ≢ 4) }
{
    page.kind() == HEAD || page.kind() == OVERFLOW
}

/// Why the bytes don't read as page n.
fn trouble_of(page: &Page, n: u32) -> Trouble
    requires { ReadsAs n page.now.bytes → ⊥ }
    ensures { IsNoPage n page.now.bytes result }
{
    if reads_as(page, page.own()) {
        Trouble::Elsewhere
    } else if page.is_clear(0, PAGE_LEN) {
        Trouble::Blank
    } else {
        Trouble::NoPage
    }
}

/// Whether the page, which reads as page n, is a bucket page; or why it doesn't read so.
pub(crate) fn look_at(page: &Page, n: u32) -> Result<bool, Trouble>
    ensures reads { OnOk result (ReadsAs n page.now.bytes) }
    ensures bucket { result ≡ Ok true → IsBucketPage page.now.bytes
        × (records_on (body_of n page.now.bytes) ≡ page_records page.now.bytes) }
    ensures other { result ≡ Ok false → records_on (body_of n page.now.bytes) ≡ [] }
    ensures trouble { IfErr result (IsNoPage n page.now.bytes) }
{
    if !reads_as(page, n) {
        return Err(trouble_of(page, n));
    }
    Ok(has_records(page))
}
