//! A page and its big-endian fields.

ghost use Rattle.std.specs.Prelude.{◌≡◌, ◌+◌, ◌≤◌, ◌<◌, length, replicate, slice_index, slice_set};
ghost use Rattle.page_model.specs.Bytes.{u16_at, u32_at, u16_bytes, u32_bytes, overwrite};
ghost use Rattle.page_io.specs.Page.{own_number};

use byteorder::{BigEndian, ByteOrder};

/// The bytes of a page.
pub const PAGE_LEN: usize = 2048;

/// A page is four sectors: page n is sectors 4n to 4n + 3.
pub const SECTORS_PER_PAGE: u32 = 4;

/// The 2,048 bytes of a page. Its first 16 are a header of big-endian fields:
///
/// | Bytes | Field |
/// |---|---|
/// | 0 to 3 | the page's own number |
/// | 4 | its kind |
/// | 5 | zero |
/// | 6 to 7 | how many slots it has |
/// | 8 to 11 | the number of the next page |
/// | 12 to 13 | where the lowest record begins |
/// | 14 to 15 | zero |
#[derive(Clone, Copy, Debug, PartialEq, Eq)]
pub struct Page {
    pub bytes: [u8; 2048],
    ghost whole: { length bytes ≡ 2048 },
}

impl Page {
    /// A page of zeros.
    pub fn blank() -> Page
        ensures { result.bytes ≡ replicate PAGE_LEN 0 }
    {
        Page { bytes: [0; 2048] }
    }

    /// The big-endian number in the two bytes from `at` on.
    pub fn u16_at(&self, at: usize) -> u16
        requires { at + 2 ≤ PAGE_LEN }
        ensures { result ≡ u16_at self.now.bytes at }
    {
        BigEndian::read_u16(&self.bytes[at..])
    }

    /// The big-endian number in the four bytes from `at` on.
    pub fn u32_at(&self, at: usize) -> u32
        requires { at + 4 ≤ PAGE_LEN }
        ensures { result ≡ u32_at self.now.bytes at }
    {
        BigEndian::read_u32(&self.bytes[at..])
    }

    /// Writes a big-endian number over the two bytes from `at` on.
    pub fn set_u16_at(&mut self, at: usize, value: u16)
        requires { at + 2 ≤ PAGE_LEN }
        ensures { self.new.bytes ≡ overwrite self.old.bytes at (u16_bytes value) }
    {
        BigEndian::write_u16(&mut self.bytes[at..at + 2], value);
    }

    /// Writes a big-endian number over the four bytes from `at` on.
    pub fn set_u32_at(&mut self, at: usize, value: u32)
        requires { at + 4 ≤ PAGE_LEN }
        ensures { self.new.bytes ≡ overwrite self.old.bytes at (u32_bytes value) }
    {
        BigEndian::write_u32(&mut self.bytes[at..at + 4], value);
    }

    /// Writes `from` over the bytes from `at` on.
    pub fn put(&mut self, at: usize, from: &[u8])
        requires { at + length from.now ≤ PAGE_LEN }
        ensures { self.new.bytes ≡ overwrite self.old.bytes at from.now }
    {
        self.bytes[at..at + from.len()].copy_from_slice(from);
    }

    /// The number that the page has of itself.
    #[tactic(auto, unfolding(crate::specs::Page::own_number))]
    pub fn own(&self) -> u32
        ensures number { result ≡ own_number self.now.bytes }
        ensures field { result ≡ u32_at self.now.bytes 0 }
    {
        self.u32_at(0)
    }

    /// What the page is for, as a number of the file format.
    pub fn kind(&self) -> u8
        ensures { result ≡ slice_index self.now.bytes 4 }
    {
        self.bytes[4]
    }

    /// How many slots the page has.
    pub fn slots(&self) -> u16
        ensures { result ≡ u16_at self.now.bytes 6 }
    {
        self.u16_at(6)
    }

    /// The number of the next page of a chain; what stands for none is the file format's.
    pub fn next(&self) -> u32
        ensures { result ≡ u32_at self.now.bytes 8 }
    {
        self.u32_at(8)
    }

    /// Where the lowest record of the page begins.
    pub fn low(&self) -> u16
        ensures { result ≡ u16_at self.now.bytes 12 }
    {
        self.u16_at(12)
    }

    /// Writes the page's own number.
    #[tactic(auto, using(crate::proofs::Fields::own_of_new))]
    pub fn set_own(&mut self, own: u32)
        ensures bytes { self.new.bytes ≡ overwrite self.old.bytes 0 (u32_bytes own) }
        ensures number { own_number self.new.bytes ≡ own }
    {
        self.set_u32_at(0, own);
    }

    /// Writes what the page is for.
    #[tactic(auto, using(crate::proofs::Fields::own_of_set))]
    pub fn set_kind(&mut self, kind: u8)
        ensures bytes { self.new.bytes ≡ slice_set self.old.bytes 4 kind }
        ensures number { own_number self.new.bytes ≡ own_number self.old.bytes }
    {
        self.bytes[4] = kind;
    }

    /// Writes the number of the next page.
    pub fn set_next(&mut self, next: u32)
        ensures bytes { self.new.bytes ≡ overwrite self.old.bytes 8 (u32_bytes next) }
        ensures number { own_number self.new.bytes ≡ own_number self.old.bytes }
    {
        self.set_u32_at(8, next);
    }
}

impl Default for Page {
    ghost use Rattle.page_io.specs.declared.page.TheConstants.{PAGE_LEN};

    ghost is_default = { λ page. page.bytes ≡ replicate PAGE_LEN 0 };

    fn default() -> Page {
        Page::blank()
    }
}
