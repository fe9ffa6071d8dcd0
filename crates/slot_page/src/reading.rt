//! Whether a page is spelled as a bucket page.

ghost use Rattle.std.specs.Prelude.{◌≡◌, ◌+◌, ◌*◌, ◌<◌, ◌≤◌, ◌↔◌, IsTrue};
ghost use Rattle.page_model.specs.Reading.{key_of, bytes_of, slot_count};
ghost use Rattle.page_model.specs.Slots.{key_size, bytes_size};
ghost use Rattle.page_io.specs.Versions.{model_version};
ghost use Rattle.slot_page.specs.Slots.{as_spelled, slot_at, first_slots};
ghost use Rattle.slot_page.specs.Layout.{HasGoodHeader, IsGoodFar, IsGoodSlot, AreInPlace, AreGoodSlots, AreSlotsOf, HasNewKey, HaveDistinctKeys, IsLaidOut, end_of};

use crate::layout::{COUNT_AT, HEAD, HEADER_LEN, KIND_AT, LOW_AT, OVERFLOW, SLOT_LEN};
use crate::marks::{MARK_COUNT, mark_of};
use crate::slot::{FAR_BIT, FAR_BYTES, MAX_FAR_KEY, MAX_NEAR, Slot, Slots};
use page_io::{PAGE_LEN, Page, Version};

/// Slot `i`, whatever stands there.
pub fn slot_at(page: &Page, i: usize) -> Slot
    requires { 16 + 6 * i + 6 ≤ 2048 }
    ensures { result ≡ slot_at page.now.bytes i }
{
    let at = HEADER_LEN + SLOT_LEN * i;
    Slot {
        offset: page.u16_at(at),
        key_len: page.u16_at(at + 2),
        content_len: page.u16_at(at + 4),
    }
}

/// Kind 3 or 4, and zeros where nothing is said.
fn has_good_header(page: &Page) -> bool
    ensures { IsTrue result ↔ HasGoodHeader page.now.bytes }
{
    (page.bytes[KIND_AT] == HEAD || page.bytes[KIND_AT] == OVERFLOW)
        && page.bytes[5] == 0
        && page.bytes[14] == 0
        && page.bytes[15] == 0
}

/// Whether the record of a far slot ends at `end`, the pair isn't near, its key is short, and the
/// number of its first page isn't 0.
fn is_good_far(page: &Page, slot: Slot, end: usize) -> bool
    requires far { FAR_BIT ≤ slot.key_len }
    requires inside { end ≤ 2048 }
    ensures { IsTrue result ↔ IsGoodFar page.now.bytes (as_spelled slot) end }
{
    slot.key_end() + FAR_BYTES == end
        && slot.key_size() <= MAX_FAR_KEY
        && slot.key_size() + slot.content_len as usize > MAX_NEAR
        && page.u32_at(slot.key_end()) != 0
}

/// Whether the record of a slot ends at `end`, and there may be such a record in this version.
fn is_good_slot(page: &Page, slot: Slot, end: usize, version: Version) -> bool
    requires { end ≤ 2048 }
    ensures { IsTrue result
        ↔ IsGoodSlot (model_version version) page.now.bytes (as_spelled slot) end }
{
    if slot.is_far() {
        version == Version::V2 && is_good_far(page, slot, end)
    } else {
        slot.offset as usize + slot.key_len as usize + slot.content_len as usize == end
    }
}

/// Whether each of the first `count` records ends where it should, and there may be such records in
/// this version.
fn are_good_slots(page: &Page, count: usize, version: Version) -> bool
    requires { 16 + 6 * count ≤ 2048 }
    ensures { IsTrue result ↔ AreGoodSlots (model_version version) page.now.bytes count }
{
    let mut end = PAGE_LEN;
    for i in 0..count {
        let slot = slot_at(page, i);
        if !is_good_slot(page, slot, end, version) {
            return false;
        }
        end = slot.offset as usize;
    }
    true
}

/// Where the record of slot `i` ends.
fn end_at(page: &Page, i: usize) -> usize
    requires { 16 + 6 * i ≤ 2048 }
    ensures { result ≡ end_of page.now.bytes i }
{
    if i == 0 {
        PAGE_LEN
    } else {
        page.u16_at(HEADER_LEN + SLOT_LEN * (i - 1)) as usize
    }
}

/// The key of a slot.
pub fn key_at(page: &Page, slot: Slot) -> &[u8]
    requires { slot.offset + key_size (as_spelled slot) ≤ 2048 }
    ensures { result.now ≡ key_of page.now.bytes (as_spelled slot) }
{
    &page.bytes[slot.offset as usize..slot.key_end()]
}

/// The bytes behind the key of a slot.
pub fn bytes_at(page: &Page, slot: Slot) -> &[u8]
    requires { slot.offset + key_size (as_spelled slot) + bytes_size (as_spelled slot) ≤ 2048 }
    ensures { result.now ≡ bytes_of page.now.bytes (as_spelled slot) }
{
    let from = slot.key_end();
    &page.bytes[from..from + slot.bytes_size()]
}

/// Whether slot `j` has another key than each slot before it.
fn is_new_key(page: &Page, j: usize) -> bool
    requires slots { 16 + 6 * j + 6 ≤ 2048 }
    requires in_place { AreInPlace page.now.bytes (j + 1) }
    ensures { IsTrue result ↔ HasNewKey page.now.bytes j }
{
    let key = key_at(page, slot_at(page, j));
    for i in 0..j {
        if key_at(page, slot_at(page, i)) == key {
            return false;
        }
    }
    true
}

/// Whether no two of the first `count` slots have one key. Keys are compared only where they share
/// a mark.
fn have_distinct_keys(page: &Page, count: usize) -> bool
    requires slots { 16 + 6 * count ≤ 2048 }
    requires in_place { AreInPlace page.now.bytes count }
    ensures { IsTrue result ↔ HaveDistinctKeys page.now.bytes count }
{
    let mut is_seen = [false; MARK_COUNT];
    for j in 0..count {
        let mark = usize::from(mark_of(key_at(page, slot_at(page, j))));
        if is_seen[mark] && !is_new_key(page, j) {
            return false;
        }
        is_seen[mark] = true;
    }
    true
}

/// Whether every byte of the page is as a bucket page of this version has it.
pub fn is_laid_out(page: &Page, version: Version) -> bool
    ensures { IsTrue result ↔ (IsLaidOut page.now.bytes
        × AreSlotsOf (model_version version) page.now.bytes (slot_count page.now.bytes)) }
{
    let count = page.u16_at(COUNT_AT) as usize;
    let low = page.u16_at(LOW_AT) as usize;
    if !has_good_header(page) {
        return false;
    }
    if low > PAGE_LEN {
        return false;
    }
    if HEADER_LEN + SLOT_LEN * count > low {
        return false;
    }
    if !are_good_slots(page, count, version) {
        return false;
    }
    if low != end_at(page, count) {
        return false;
    }
    if !page.is_clear(HEADER_LEN + SLOT_LEN * count, low) {
        return false;
    }
    have_distinct_keys(page, count)
}

/// The first `count` slots, whatever stands there.
pub fn read_slots(page: &Page, count: usize) -> Slots
    requires { 16 + 6 * count ≤ 2048 }
    ensures { result.items ≡ first_slots page.now.bytes count }
{
    let mut slots = Slots::new();
    for i in 0..count {
        slots.push(slot_at(page, i));
    }
    slots
}
