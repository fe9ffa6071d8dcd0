//! Pages without slots: a header, and numbers of four bytes behind it.

ghost use Rattle.std.specs.Prelude.{◌+◌, ◌*◌, ◌≡◌, ◌<◌, ◌≤◌, ◌↔◌, ◌++◌, ℕ, IsTrue, length, replicate, slice_index};
ghost use Rattle.page_model.specs.Bytes.{overwrite};
ghost use Rattle.page_model.specs.Numbers.{numbers_bytes};
ghost use Rattle.page_model.specs.Reading.{IsClear};
ghost use Rattle.page_model.specs.Spelling.{header};
ghost use Rattle.page_io.specs.Plain.{HasPlainHeader};
ghost use Rattle.page_io.specs.declared.page.TheConstants.{PAGE_LEN};

use crate::Page;

/// Does nothing. A proof learns here that bytes are below 256.
pub fn are_bytes(bytes: &[u8])
    ensures { (k : ℕ) → slice_index bytes.now k < 256 }
{}

impl Page {
    /// A page with a header and zeros behind it. Its slot count and its `low` are 0.
    pub fn plain(own: u32, kind: u8, next: u32) -> Page
        ensures { result.bytes ≡ header own kind 0 next 0 ++ replicate 2032 0 }
    {
        let mut page = Page::blank();
        page.set_own(own);
        page.set_kind(kind);
        page.set_next(next);
        page
    }

    /// Whether the header is one of a page without slots, with this own number and kind, and any
    /// next page.
    pub fn is_plain(&self, own: u32, kind: u8) -> bool
        ensures plain { IsTrue result ↔ HasPlainHeader self.now.bytes own kind }
        ensures bytes { (k : ℕ) → slice_index self.now.bytes k < 256 }
    {
        are_bytes(&self.bytes);
        self.own() == own && self.kind() == kind && self.is_clear(5, 8) && self.is_clear(12, 16)
    }

    /// Whether the bytes from `from` up to `to` are zero.
    pub fn is_clear(&self, from: usize, to: usize) -> bool
        requires { (from ≤ to) × (to ≤ PAGE_LEN) }
        ensures { IsTrue result ↔ IsClear self.now.bytes from to }
    {
        // With no early end the processor looks at many bytes at once.
        let mut any = 0;
        for k in from..to {
            any |= self.bytes[k];
        }
        any == 0
    }

    /// Writes big-endian numbers of four bytes, one after the other, from `at` on.
    pub fn set_numbers(&mut self, at: usize, numbers: &[u32])
        requires { at + 4 * length numbers.now ≤ PAGE_LEN }
        ensures { self.new.bytes ≡ overwrite self.old.bytes at (numbers_bytes numbers.now) }
    {
        for (i, number) in numbers.iter().enumerate() {
            self.set_u32_at(at + 4 * i, *number);
        }
    }
}
