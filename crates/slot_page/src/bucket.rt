//! The records of a bucket page.

ghost use Rattle.std.specs.Prelude.{◌≡◌, ◌+◌, ◌*◌, ◌<◌, ◌≤◌, ◌↔◌, ◌++◌, ◌∷◌, [], ℕ, IsTrue, IsSome, IfSome, IfNone, ◌⊎◌, length, map, remove as without};
ghost use Rattle.std.specs.List.{HoldsAt, AllByRecursion};
ghost use Rattle.page_model.specs.Bytes.{overwrite};
ghost use Rattle.page_model.specs.Pages.{Bucket, bucket};
ghost use Rattle.page_model.specs.Slots.{slot_bytes, slots_ending, total_size, room_of};
ghost use Rattle.page_model.specs.Spelling.{bucket_spelling};
ghost use Rattle.page_model.specs.Reading.{own_number, bucket_of};
ghost use Rattle.page_model.specs.Valid.{IsFar, IsRecord, IsBucket, IsOf};
ghost use Rattle.page_io.specs.Versions.{model_version};
ghost use Rattle.slot_page.specs.Slots.{as_spelled};
ghost use Rattle.page_io.specs.BucketPages.{IsBucketPage, IsPageOf, page_records};
ghost use Rattle.slot_page.specs.Contents.{HasRecords, KeepsHeader, HasKeyAt, IsAbsent, with_records, with_next, record_of, near_record, far_record, told_content};

use crate::layout::{COUNT_AT, HEADER_LEN, KIND_AT, LOW_AT, NEXT_AT, OWN_AT, SLOT_LEN};
use crate::reading::{bytes_at, is_laid_out, key_at, read_slots, slot_at};
use crate::slot::{Slot, Slots};
use byteorder::{BigEndian, ByteOrder};
use page_io::{PAGE_LEN, Page, Version, are_bytes};

/// Whether a page is spelled as a head page or an overflow page of this version, under any own
/// number. It looks at every byte of the page, and takes no copy.
pub fn is_bucket_page(page: &Page, version: Version) -> bool
    ensures exact { IsTrue result ↔ IsPageOf (model_version version) page.now.bytes }
{
    are_bytes(&page.bytes);
    is_laid_out(page, version)
}

/// The slots of a page, if it is spelled as a head page or an overflow page of this version, under
/// any own number.
pub fn decode(page: &Page, version: Version) -> Option<Slots>
    ensures exact { IsSome result ↔ IsPageOf (model_version version) page.now.bytes }
    ensures every { (b : Bucket) → IsBucket b
        → AllByRecursion (IsOf (model_version version)) b.held
        → page.now.bytes ≡ bucket_spelling b
        → IsSome result × (bucket_of page.now.bytes ≡ b) }
    ensures count { IfSome result (λ s. length s.items ≡ length (page_records page.now.bytes)) }
    ensures slots { IfSome result
        (λ s. map as_spelled s.items ≡ slots_ending 2048 (page_records page.now.bytes)) }
{
    if !is_bucket_page(page, version) {
        return None;
    }
    let (count, _) = counts(page);
    Some(read_slots(page, count))
}

/// How many slots a page has, and where its records begin.
fn counts(page: &Page) -> (usize, usize)
    requires { IsBucketPage page.now.bytes }
    ensures count { result.0 ≡ length (page_records page.now.bytes) }
    ensures low { result.1 + total_size (page_records page.now.bytes) ≡ 2048 }
    ensures room { 16 + 6 * result.0 ≤ result.1 }
{
    (page.u16_at(COUNT_AT) as usize, page.u16_at(LOW_AT) as usize)
}

/// The free bytes between the slots and the records. A record takes six of them for its slot.
pub fn room(page: &Page) -> usize
    requires { IsBucketPage page.now.bytes }
    ensures { result ≡ room_of (page_records page.now.bytes) }
{
    let (count, low) = counts(page);
    low - HEADER_LEN - SLOT_LEN * count
}

/// Whether there is room for one more record, of this key and these bytes behind it. Of a far
/// record they are the four bytes of a page number.
pub fn fits(page: &Page, key: &[u8], bytes: &[u8]) -> bool
    requires { IsBucketPage page.now.bytes }
    ensures { IsTrue result ↔ (length key.now + length bytes.now + 6
        ≤ room_of (page_records page.now.bytes)) }
{
    let room = room(page);
    room >= SLOT_LEN && key.len() <= room - SLOT_LEN && bytes.len() <= room - SLOT_LEN - key.len()
}

/// The key of record `i`, the bytes behind it, and the length of its content where that is far.
fn record_at(page: &Page, i: usize) -> (&[u8], &[u8], Option<u16>)
    requires page { IsBucketPage page.now.bytes }
    requires within { i < length (page_records page.now.bytes) }
    ensures { HoldsAt (λ r. r ≡ record_of result.0.now result.1.now result.2)
        (page_records page.now.bytes) i }
{
    let slot = slot_at(page, i);
    (key_at(page, slot), bytes_at(page, slot), slot.far_len())
}

/// The key of record `i` and the bytes behind it. Records are counted from 0 in the order of the
/// slots. The bytes are the content, or where that is far the number of its first page.
pub fn pair_at(page: &Page, i: usize) -> (&[u8], &[u8])
    requires page { IsBucketPage page.now.bytes }
    requires within { i < length (page_records page.now.bytes) }
    ensures { HoldsAt (λ r. (r.key ≡ result.0.now) × (r.bytes ≡ result.1.now))
        (page_records page.now.bytes) i }
{
    let (key, bytes, _) = record_at(page, i);
    (key, bytes)
}

/// The first page and the length of the content of record `i`, where that is far.
pub fn far_at(page: &Page, i: usize) -> Option<(u32, u16)>
    requires page { IsBucketPage page.now.bytes }
    requires within { i < length (page_records page.now.bytes) }
    ensures { HoldsAt (λ r. told_content r ≡ result) (page_records page.now.bytes) i }
{
    let (_, bytes, far) = record_at(page, i);
    let long = far?;
    Some((BigEndian::read_u32(bytes), long))
}

/// Where the record with this key is.
pub fn find(page: &Page, key: &[u8]) -> Option<usize>
    requires { IsBucketPage page.now.bytes }
    ensures none { IfNone result (IsAbsent key.now (page_records page.now.bytes)) }
    ensures found { IfSome result (λ i. HasKeyAt key.now (page_records page.now.bytes) i) }
    ensures only { IfSome result (λ i.
        (k : ℕ) → HasKeyAt key.now (page_records page.now.bytes) k → k ≡ i) }
{
    let (count, _) = counts(page);
    for i in 0..count {
        let (found, _) = pair_at(page, i);
        if found == key {
            return Some(i);
        }
    }
    None
}

/// Writes a key and the bytes behind it.
fn put_record(page: &mut Page, at: usize, key: &[u8], bytes: &[u8])
    requires { at + length key.now + length bytes.now ≤ 2048 }
    ensures { page.new.bytes ≡ overwrite page.old.bytes at (key.now ++ bytes.now) }
{
    are_bytes(&page.bytes);
    page.put(at, key);
    page.put(at + key.len(), bytes);
}

/// Writes slot `i`.
fn set_slot_at(page: &mut Page, i: usize, slot: Slot)
    requires { 16 + 6 * i + 6 ≤ 2048 }
    ensures { page.new.bytes ≡ overwrite page.old.bytes (16 + 6 * i)
        (slot_bytes (as_spelled slot)) }
{
    are_bytes(&page.bytes);
    let at = HEADER_LEN + SLOT_LEN * i;
    page.set_u16_at(at, slot.offset);
    page.set_u16_at(at + 2, slot.key_len);
    page.set_u16_at(at + 4, slot.content_len);
}

/// Adds a record, which fits, behind the others. Where its content is far, `far` is the length of
/// that content. If a record has this key already, the page has it twice and is no longer a bucket
/// page.
pub fn add_record(page: &mut Page, key: &[u8], bytes: &[u8], far: Option<u16>)
    requires page { IsBucketPage page.old.bytes }
    requires fits { length key.now + length bytes.now + 6 ≤ room_of (page_records page.old.bytes) }
    requires may { IsRecord (record_of key.now bytes.now far) }
    ensures holds { IsAbsent key.now (page_records page.old.bytes)
        → HasRecords page.old.bytes page.new.bytes
        (page_records page.old.bytes ++ record_of key.now bytes.now far ∷ []) }
    ensures spelled { page.new.bytes
        ≡ bucket_spelling (with_records (bucket_of page.old.bytes)
        (page_records page.old.bytes ++ record_of key.now bytes.now far ∷ [])) }
    ensures header { KeepsHeader page.old.bytes page.new.bytes }
{
    let (count, low) = counts(page);
    let offset = low - key.len() - bytes.len();
    let slot = Slot::new(offset as u16, key.len() as u16, bytes.len() as u16, far);
    put_record(page, offset, key, bytes);
    set_slot_at(page, count, slot);
    page.set_u16_at(COUNT_AT, (count + 1) as u16);
    page.set_u16_at(LOW_AT, slot.offset);
}

/// Adds a near pair, which fits, behind the others. If a record has this key already, the page has
/// it twice and is no longer a bucket page.
pub fn add(page: &mut Page, key: &[u8], content: &[u8])
    requires page { IsBucketPage page.old.bytes }
    requires fits { length key.now + length content.now + 6
        ≤ room_of (page_records page.old.bytes) }
    ensures holds { IsAbsent key.now (page_records page.old.bytes)
        → HasRecords page.old.bytes page.new.bytes
        (page_records page.old.bytes ++ near_record key.now content.now ∷ []) }
    ensures spelled { page.new.bytes
        ≡ bucket_spelling (with_records (bucket_of page.old.bytes)
        (page_records page.old.bytes ++ near_record key.now content.now ∷ [])) }
    ensures header { KeepsHeader page.old.bytes page.new.bytes }
{
    add_record(page, key, content, None);
}

/// Adds a far pair, which fits, behind the others. Its content begins in page `first` and has
/// `long` bytes. If a record has this key already, the page has it twice and is no longer a bucket
/// page.
pub fn add_far(page: &mut Page, key: &[u8], first: u32, long: u16)
    requires page { IsBucketPage page.old.bytes }
    requires fits { length key.now + 10 ≤ room_of (page_records page.old.bytes) }
    requires far { IsFar (far_record key.now first long) long }
    ensures holds { IsAbsent key.now (page_records page.old.bytes)
        → HasRecords page.old.bytes page.new.bytes
        (page_records page.old.bytes ++ far_record key.now first long ∷ []) }
    ensures spelled { page.new.bytes
        ≡ bucket_spelling (with_records (bucket_of page.old.bytes)
        (page_records page.old.bytes ++ far_record key.now first long ∷ [])) }
    ensures header { KeepsHeader page.old.bytes page.new.bytes }
{
    add_record(page, key, &first.to_be_bytes(), Some(long));
}

/// A page with no record: of kind 3 a bucket's head page, of kind 4 an overflow page. `next` is the
/// chain's next page, 0 for none.
pub fn empty(own: u32, kind: u8, next: u32) -> Page
    requires { (kind ≡ 3) ⊎ (kind ≡ 4) }
    ensures page { IsBucketPage result.bytes }
    ensures says { bucket_of result.bytes ≡ bucket own kind next [] }
{
    let mut blank = Page { bytes: [0; 2048] };
    blank.set_u32_at(OWN_AT, own);
    blank.bytes[KIND_AT] = kind;
    blank.set_u32_at(NEXT_AT, next);
    blank.set_u16_at(LOW_AT, PAGE_LEN as u16);
    blank
}

/// Which place of a list is place `j` of the list without its place `i`.
fn skipping(i: usize, j: usize) -> usize
    requires { j < 338 }
    ensures below { j < i → result ≡ j }
    ensures above { i ≤ j → result ≡ j + 1 }
{
    if j < i { j } else { j + 1 }
}

/// Takes record `i` out. The later ones move up, and the gap takes what it leaves.
pub fn remove(page: &mut Page, i: usize)
    requires page { IsBucketPage page.old.bytes }
    requires within { i < length (page_records page.old.bytes) }
    ensures holds { HasRecords page.old.bytes page.new.bytes
        (without (page_records page.old.bytes) i) }
    ensures header { KeepsHeader page.old.bytes page.new.bytes }
{
    let (count, _) = counts(page);
    let mut rebuilt = empty(
        page.u32_at(OWN_AT),
        page.bytes[KIND_AT],
        page.u32_at(NEXT_AT),
    );
    for j in 0..count - 1 {
        let (key, bytes, far) = record_at(page, skipping(i, j));
        add_record(&mut rebuilt, key, bytes, far);
    }
    *page = rebuilt;
}

/// Sets the chain's next page, 0 for none.
pub fn set_next(page: &mut Page, next: u32)
    requires { IsBucketPage page.old.bytes }
    ensures page { IsBucketPage page.new.bytes }
    ensures says { bucket_of page.new.bytes ≡ with_next (bucket_of page.old.bytes) next }
    ensures own { own_number page.new.bytes ≡ own_number page.old.bytes }
{
    page.set_u32_at(NEXT_AT, next);
}
