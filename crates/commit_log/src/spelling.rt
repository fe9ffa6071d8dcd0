// The bytes of a slot.
ghost use Rattle.std.specs.Prelude.{◌≡◌, ◌≢◌, ◌≤◌, ◌<◌, ◌+◌, ◌*◌, ℕ, length, true, take, drop};
ghost use Rattle.sect_dev.specs.Device.{sector_count, part_of};
ghost use Rattle.page_model.specs.Bytes.{u32_at, u32_bytes, overwrite};
ghost use Rattle.page_io.specs.Store.{bytes_of, are_in_order};
ghost use Rattle.commit_log.specs.Log.{Spells};
ghost use Rattle.commit_log.specs.Pieces.{sector_at};

use byteorder::{BigEndian, ByteOrder};
use page_io::Page;

/// Sector k of bytes.
pub fn sector_of(bytes: &[u8], k: usize) -> [u8; 512]
    requires { k < sector_count bytes.now }
    ensures { result ≡ part_of bytes.now k }
{
    let mut content = [0; 512];
    let at = 512 * k;
    content.copy_from_slice(&bytes[at..at + 512]);
    content
}

// Puts a content in the place of sector k of a slot.
fn put_sector(bytes: &mut [u8; 31232], k: usize, content: &[u8; 512])
    requires { k < 61 }
    ensures put { part_of bytes.new k ≡ content.now }
    ensures others { (j : ℕ) → j < 61 → j ≢ k → part_of bytes.new j ≡ part_of bytes.old j }
{
    let at = 512 * k;
    bytes[at..at + 512].copy_from_slice(content);
}

// Sector k of pages in a row.
fn sector_in(pages: &[Page], k: usize) -> [u8; 512]
    requires { k < 4 * length pages.now }
    ensures { result ≡ sector_at (bytes_of pages.now) k }
{
    sector_of(&pages[k / 4].bytes, k % 4)
}

// A sector with a number in the place of its first four bytes.
fn stamped(sector: &[u8; 512], number: u32) -> [u8; 512]
    ensures { result ≡ overwrite sector.now 0 (u32_bytes number) }
{
    let mut content = *sector;
    BigEndian::write_u32(&mut content[0..4], number);
    content
}

// A page whose first sector is that of a slot: the fields, and the bytes that the number takes the
// place of.
fn first_of(number: u32, end: u32, pages: &[Page]) -> Page
    requires few { length pages.now ≤ 15 }
    ensures number { u32_at result.bytes 0 ≡ number }
    ensures count { u32_at result.bytes 4 ≡ length pages.now }
    ensures end { u32_at result.bytes 8 ≡ end }
    ensures words { (k : ℕ) → k < 4 * length pages.now
        → take 4 (drop (16 + 4 * k) result.bytes) ≡ take 4 (sector_at (bytes_of pages.now) k) }
{
    let mut first = Page::blank();
    first.set_u32_at(0, number);
    first.set_u32_at(4, pages.len() as u32);
    first.set_u32_at(8, end);
    for k in 0..4 * pages.len() {
        let sector = sector_in(pages, k);
        first.put(16 + 4 * k, &sector[..4]);
    }
    first
}

/// Spells a commit in the bytes of a slot. Those behind it stay.
pub fn spell(bytes: &mut [u8; 31232], start: u32, number: u32, end: u32, pages: &[Page])
    requires some { 1 ≤ length pages.now }
    requires few { length pages.now ≤ 15 }
    requires first { 1 ≤ number }
    requires least { 4 ≤ end }
    requires above { end ≤ start }
    requires in_order { are_in_order 1 end (bytes_of pages.now) ≡ true }
    ensures spelled { Spells start number end (bytes_of pages.now) bytes.new }
    ensures behind { (k : ℕ) → k < 61 → 1 + 4 * length pages.now ≤ k
        → part_of bytes.new k ≡ part_of bytes.old k }
{
    let first = first_of(number, end, pages);
    put_sector(bytes, 0, &sector_of(&first.bytes, 0));
    for k in 0..4 * pages.len() {
        put_sector(bytes, 1 + k, &stamped(&sector_in(pages, k), number));
    }
}
