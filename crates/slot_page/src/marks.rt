//! Marks of keys: two marks are two keys, which needs no comparison.

ghost use Rattle.std.specs.Prelude.{◌≡◌, ◌<◌, ◌≤◌, length, slice_index};
ghost use Rattle.page_model.specs.Bytes.{u32_at};
ghost use Rattle.slot_page.specs.Marks.{mark_of};

use byteorder::{BigEndian, ByteOrder};

/// How many marks there are.
pub const MARK_COUNT: usize = 256;

/// Byte `i` of a key, 0 past its end.
fn byte_at(key: &[u8], i: usize) -> u32
    ensures value { result ≡ slice_index key.now i }
    ensures byte { result < 256 }
{
    if i < key.len() { u32::from(key[i]) } else { 0 }
}

/// The big-endian number in the four bytes of a key from `at` on, with zeros past its end.
fn word_at(key: &[u8], at: usize) -> u32
    requires { at ≤ length key.now }
    ensures { result ≡ u32_at key.now at }
{
    if key.len() - at >= 4 {
        BigEndian::read_u32(&key[at..])
    } else {
        (byte_at(key, at) * 256 + byte_at(key, at + 1)) * 65_536
            + (byte_at(key, at + 2) * 256 + byte_at(key, at + 3))
    }
}

/// The mark of a key: bits 24 to 31 of a sum of products, on which each byte that it looks at
/// bears. Among random keys, decimal numbers and counters about one pair in 256 has one mark.
#[tactic(auto, unfolding(crate::specs::Marks::mark_of))]
pub fn mark_of(key: &[u8]) -> u8
    ensures { result ≡ mark_of key.now }
{
    let last = key.len().saturating_sub(4);
    let sum = u64::from(word_at(key, 0)) * 625_341_585
        + u64::from(word_at(key, last / 4)) * 461_845_907
        + u64::from(word_at(key, last)) * 1_013_904_223;
    (sum / 16_777_216 % 256) as u8
}
