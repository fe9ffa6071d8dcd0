//! The meta page: page 1.

ghost use Rattle.std.specs.Prelude.{◌≡◌, ◌↔◌, ◌<◌, ◌≤◌, ◌∷◌, [], All, IsTrue, IsSome, IfSome, IfOk, IsOkAnd, Err};
ghost use Rattle.dbm_model.specs.Bounds.{version_number};
ghost use Rattle.page_model.specs.Bytes.{u32_at};
ghost use Rattle.page_model.specs.Numbers.{IsNumber, numbers_at};
ghost use Rattle.page_model.specs.Pages as model;
ghost use Rattle.page_model.specs.Pages.{MetaPage};
ghost use Rattle.page_model.specs.Reading.{own_number, body_of, fields_of};
ghost use Rattle.page_model.specs.Spelling.{meta_spelling};
ghost use Rattle.page_model.specs.Valid.{IsMeta};
ghost use Rattle.page_io.specs.Versions.{model_version};
ghost use Rattle.seg_table.specs.MetaPages.{model_meta, HasMetaHeader, IsUnknown, IsMetaLayout};

use crate::segment::PER_SEGMENT;
use arrayvec::ArrayVec;
use lin_addr::Shape;
use page_io::{PAGE_LEN, Page, Version};
use thiserror::Error;

/// The kind of the meta page.
const META: u8 = 1;

/// The highest limit.
const MAX_LIMIT: u32 = 1_000_000;

/// How many pairs of the limit there is a bucket for.
const PER_BUCKET: u32 = 8;

/// Where the numbers of the segment pages begin.
const SEGMENTS_AT: usize = 64;

/// How many segment pages a meta page has room for.
const MAX_SEGMENTS: usize = 496;

/// What the meta page says.
#[derive(Drop)]
pub struct Meta {
    /// The most pairs that the database may have.
    pub limit: u32,
    /// The version of its format.
    pub version: Version,
    /// How many it has.
    pub pairs: u32,
    /// How far its buckets have grown.
    pub shape: Shape,
    /// The first free page, 0 for none.
    pub free_head: u32,
    /// How many pages are free.
    pub free_count: u32,
    /// The segment pages, in order.
    pub segments: ArrayVec<u32, 496>,
}

impl Meta {
    /// The meta page of a new database of this limit and version: one empty bucket, in the segment
    /// of page `segment`.
    pub fn of_empty(limit: u32, version: Version, segment: u32) -> Meta
        ensures { model_meta result ≡ record {
          bounds = record { limit = limit; version = model_version version };
          pairs = 0;
          level = 0;
          split = 0;
          free_head = 0;
          free_count = 0;
          segments = segment ∷ [];
        } }
    {
        let mut segments = ArrayVec::new();
        segments.push(segment);
        Meta {
            limit,
            version,
            pairs: 0,
            shape: Shape::one_bucket(),
            free_head: 0,
            free_count: 0,
            segments,
        }
    }

    /// The same, without memory.
    pub fn copied(&self) -> Meta
        ensures { model_meta result ≡ model_meta self.now }
    {
        Meta {
            limit: self.limit,
            version: self.version,
            pairs: self.pairs,
            shape: self.shape,
            free_head: self.free_head,
            free_count: self.free_count,
            segments: ArrayVec::try_from(self.segments.as_slice()).unwrap(),
        }
    }
}

/// Why a page was not read as a meta page.
#[derive(Clone, Copy, Debug, PartialEq, Eq, Error)]
pub enum MetaFault {
    /// The header is the meta page's, and the version neither 1 nor 2.
    #[error("another version")]
    Version,
    /// It is no meta page.
    #[error("damaged")]
    Damaged,
}

/// Whether each is a page's number.
fn are_used(segments: &[u32]) -> bool
    ensures { IsTrue result ↔ All (λ n. (0 < n) × IsNumber n) segments.now }
{
    segments.iter().all(|n| *n > 0)
}

/// Whether there is a first free page exactly where there are free pages.
fn has_ends(meta: &Meta) -> bool
    ensures both { IsTrue result ↔ ((meta.now.free_head ≡ 0) ↔ (meta.now.free_count ≡ 0)) }
    ensures numbers { IsNumber meta.now.free_head × IsNumber meta.now.free_count }
{
    (meta.free_head == 0) == (meta.free_count == 0)
}

/// Whether a meta page may say this.
fn is_sound(meta: &Meta) -> bool
    ensures { IsTrue result ↔ IsMeta (model_meta meta.now) }
{
    let buckets = meta.shape.buckets();
    (1..=MAX_LIMIT).contains(&meta.limit)
        && buckets <= meta.limit.div_ceil(PER_BUCKET)
        && meta.pairs <= meta.limit
        && meta.pairs <= PER_BUCKET * buckets
        && meta.segments.len() == (buckets as usize).div_ceil(PER_SEGMENT)
        && has_ends(meta)
        && are_used(&meta.segments)
}

/// The numbers of so many segment pages.
fn segments_of(page: &Page, count: usize) -> ArrayVec<u32, 496>
    requires { count ≤ 496 }
    ensures { result.items ≡ numbers_at page.now.bytes 64 count }
{
    let mut segments = ArrayVec::new();
    for i in 0..count {
        segments.push(page.u32_at(SEGMENTS_AT + 4 * i));
    }
    segments
}

/// The fields, if they are a shape and no more segments than there is room for, and all other bytes
/// behind the version are zero.
fn meta_of(page: &Page, version: Version) -> Option<Meta>
    requires { version_number (model_version version) ≡ u32_at page.now.bytes 16 }
    ensures found { IfSome result (λ m. model_meta m ≡ fields_of page.now.bytes) }
    ensures only { IsSome result ↔ IsMetaLayout page.now.bytes }
{
    let shape = Shape::new(page.u32_at(28), page.u32_at(32))?;
    let count = page.u32_at(44) as usize;
    if count > MAX_SEGMENTS
        || !page.is_clear(48, SEGMENTS_AT)
        || !page.is_clear(SEGMENTS_AT + 4 * count, PAGE_LEN)
    {
        return None;
    }
    Some(Meta {
        limit: page.u32_at(20),
        version,
        pairs: page.u32_at(24),
        shape,
        free_head: page.u32_at(36),
        free_count: page.u32_at(40),
        segments: segments_of(page, count),
    })
}

/// What page 1 says. The version is looked at once the header is good, and before all else.
pub fn read_meta(page: &Page) -> Result<Meta, MetaFault>
    ensures found { IfOk result (λ m.
        IsMeta (model_meta m) × (page.now.bytes ≡ meta_spelling 1 (model_meta m))) }
    ensures only { (m : model.Meta) → IsMeta m → page.now.bytes ≡ meta_spelling 1 m
        → IsOkAnd result (λ r. model_meta r ≡ m) }
    ensures body { (m : model.Meta) → IsMeta m
        → IsOkAnd result (λ r. model_meta r ≡ m) ↔ (body_of 1 page.now.bytes ≡ MetaPage m) }
    ensures version { (result ≡ Err MetaFault.Version)
        ↔ (HasMetaHeader page.now.bytes × IsUnknown (u32_at page.now.bytes 16)) }
{
    if !page.is_plain(1, META) || page.next() != 0 {
        return Err(MetaFault::Damaged);
    }
    let Some(version) = Version::of_number(page.u32_at(16)) else {
        return Err(MetaFault::Version);
    };
    match meta_of(page, version) {
        Some(meta) if is_sound(&meta) => Ok(meta),
        _ => Err(MetaFault::Damaged),
    }
}

/// Writes the one spelling of the meta page.
pub fn write_meta(meta: &Meta, page: &mut Page)
    requires { IsMeta (model_meta meta.now) }
    ensures spelled { page.new.bytes ≡ meta_spelling 1 (model_meta meta.now) }
    ensures body { body_of 1 page.new.bytes ≡ MetaPage (model_meta meta.now) }
    ensures number { own_number page.new.bytes ≡ 1 }
{
    *page = Page::plain(1, META, 0);
    let counts = [
        meta.version.number(),
        meta.limit,
        meta.pairs,
        meta.shape.level,
        meta.shape.split,
        meta.free_head,
        meta.free_count,
        meta.segments.len() as u32,
    ];
    page.set_numbers(16, &counts);
    page.set_numbers(SEGMENTS_AT, &meta.segments);
}
