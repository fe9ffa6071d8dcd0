// What a slot says.
ghost use Rattle.std.specs.Prelude.{◌≡◌, ◌≤◌, ◌<◌, ◌+◌, ◌*◌, ◌&&◌, nat_le, ℕ, true, length, take, IsTrue};
ghost use Rattle.sect_dev.specs.Device.{part_of};
ghost use Rattle.page_model.specs.Bytes.{u32_at};
ghost use Rattle.page_io.specs.Page.{page_at};
ghost use Rattle.page_io.specs.Store.{bytes_of, pages_from, are_in_order};
ghost use Rattle.commit_log.specs.Log.{carry, unstamped, log_by, no_log, is_disordered};
ghost use Rattle.commit_log.specs.Found.{log_found, AreAtMost};

use crate::spelling::sector_of;
use byteorder::{BigEndian, ByteOrder};
use page_io::Page;

/// What a slot says: a commit, or none where its number is 0.
#[derive(Drop)]
pub struct FoundLog {
    pub number: u32,
    pub end: u32,
    pub count: usize,
    pub pages: [Page; 15],
    /// The greatest number that a sector of the slot begins with.
    pub highest: u32,
    /// Whether the slot is whole and the numbers of its pages are out of order.
    pub is_disordered: bool,
}

// The number in four bytes of a slot.
fn number_at(bytes: &[u8; 31232], at: usize) -> u32
    requires { at + 4 ≤ 31232 }
    ensures { result ≡ u32_at bytes.now at }
{
    BigEndian::read_u32(&bytes[at..])
}

// The greatest number that a sector of a slot begins with.
fn highest_in(bytes: &[u8; 31232]) -> u32
    ensures { AreAtMost result (part_of bytes.now) }
{
    let mut highest = 0;
    for k in 0..61 {
        highest = number_at(bytes, 512 * k).max(highest);
    }
    highest
}

// Whether so many sectors behind the first one carry a number.
fn carries(bytes: &[u8; 31232], number: u32, count: usize) -> bool
    requires { count ≤ 60 }
    ensures { result ≡ carry (part_of bytes.now) number count }
{
    for k in 0..count {
        let start = 512 * (1 + k);
        if number_at(bytes, start) != number {
            return false;
        }
    }
    true
}

// Sector k of the pages of a slot, with its first bytes again.
fn restored(bytes: &[u8; 31232], k: usize) -> [u8; 512]
    requires { k < 60 }
    ensures { result ≡ unstamped (part_of bytes.now) k }
{
    let mut content = sector_of(bytes, 1 + k);
    let at = 16 + 4 * k;
    content[0..4].copy_from_slice(&bytes[at..at + 4]);
    content
}

// Page i of a slot.
fn page_in(bytes: &[u8; 31232], i: usize) -> Page
    requires { i < 15 }
    ensures { result.bytes ≡ page_at (unstamped (part_of bytes.now)) i }
{
    let mut page = Page::blank();
    for j in 0..4 {
        page.put(512 * j, &restored(bytes, 4 * i + j));
    }
    page
}

// Reads the pages of a slot. It answers false where their numbers do not rise from 1 on and below
// the end.
fn read_pages(bytes: &[u8; 31232], end: u32, count: usize, pages: &mut [Page; 15]) -> bool
    requires { count ≤ 15 }
    ensures order { result
        ≡ are_in_order 1 end (pages_from (page_at (unstamped (part_of bytes.now))) 0 count) }
    ensures pages { IsTrue result → bytes_of (take count pages.new)
        ≡ pages_from (page_at (unstamped (part_of bytes.now))) 0 count }
{
    let mut least: u64 = 1;
    for i in 0..count {
        let page = page_in(bytes, i);
        let own = u64::from(page.own());
        if own < least || u64::from(end) <= own {
            return false;
        }
        least = own + 1;
        pages[i] = page;
    }
    true
}

// Whether the fields of a slot's first sector are in range.
fn are_in_range(start: u32, number: u32, count: u32, end: u32) -> bool
    ensures { result ≡ (nat_le 1 number && (nat_le 1 count && nat_le count 15))
        && (nat_le 4 end && nat_le end start) }
{
    (1 <= number && (1 <= count && count <= 15)) && (4 <= end && end <= start)
}

/// Looks a commit up in the bytes of a slot.
pub fn find_log(start: u32, bytes: &[u8; 31232]) -> FoundLog
    ensures found { log_found result ≡ log_by start (part_of bytes.now) }
    ensures few { result.count ≤ 15 }
    ensures highest { AreAtMost result.highest (part_of bytes.now) }
    ensures disordered { result.is_disordered ≡ is_disordered start (part_of bytes.now) }
{
    let highest = highest_in(bytes);
    let number = number_at(bytes, 0);
    let count = number_at(bytes, 4);
    let end = number_at(bytes, 8);
    let mut pages = [Page::blank(); 15];
    if !are_in_range(start, number, count, end) {
        return no_log(pages, highest, false);
    }
    let count = count as usize;
    if !carries(bytes, number, 4 * count) {
        return no_log(pages, highest, false);
    }
    if !read_pages(bytes, end, count, &mut pages) {
        return no_log(pages, highest, true);
    }
    FoundLog {
        number,
        end,
        count,
        pages,
        highest,
        is_disordered: false,
    }
}

fn no_log(pages: [Page; 15], highest: u32, disordered: bool) -> FoundLog
    ensures found { log_found result ≡ no_log }
    ensures few { result.count ≤ 15 }
    ensures highest { result.highest ≡ highest }
    ensures disordered { result.is_disordered ≡ disordered }
{
    FoundLog {
        number: 0,
        end: 0,
        count: 0,
        pages,
        highest,
        is_disordered: disordered,
    }
}
