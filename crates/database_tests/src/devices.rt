//! Devices in memory, by what they hold.

use dbm_file::{Database, Fault};
use page_io::{Page, PageStore};
use sect_dev::{DevFault, MemDev};
use std::alloc::{AllocError, Global};
use std::test::Fail;
use test_databases::databases::{PAIRS, closed, put, with_first};
use test_databases::pages::{first_other, nine_file, page_at, set_page};

/// A blank device of so many sectors.
pub fn blank_device(alloc: Global, sectors: u32) -> MemDev {
    MemDev::new(alloc, sectors)
}

/// What a stop leaves of a device where the unsynced writes happened that are marked.
pub fn crashed(alloc: Global, dev: &MemDev, marks: &[bool]) -> Result<MemDev, AllocError> {
    dev.crashed(alloc, marks)
}

/// How many writes of a device aren't synced.
pub fn pending(dev: &MemDev) -> usize {
    dev.pending()
}

/// Writes these pages, from page 0 on.
fn write_pages(dev: &mut MemDev, pages: &[Page]) -> Result<(), DevFault> {
    for (page, n) in pages.iter().zip(0..) {
        set_page(dev, n, page)?;
    }
    Ok(())
}

/// Copies so many pages, from page 0 on.
fn copy_pages(from: &mut MemDev, into: &mut MemDev, count: u32) -> Result<(), DevFault> {
    for n in 0..count {
        set_page(into, n, &page_at(from, n)?)?;
    }
    Ok(())
}

/// A device of so many sectors with so many pages of another one, and a shorter record.
fn copied(alloc: Global, from: &mut MemDev, sectors: u32, count: u32) -> Result<MemDev, DevFault> {
    let mut dev = blank_device(alloc, sectors);
    copy_pages(from, &mut dev, count)?;
    Ok(dev)
}

/// Whether the first pages of a device are these.
pub fn has_pages(dev: &mut MemDev, pages: &[Page]) -> Result<bool, DevFault> {
    Ok(first_other(dev, pages)?.is_none())
}

/// What a device holds.
#[derive(Clone, Copy)]
pub enum Held {
    /// The nine pairs, which an opening that is refused has to leave.
    Nine,
    Nothing,
    /// The nine pairs with another first sector.
    OtherSector,
    /// The nine pairs with another meta page.
    OtherMeta,
}

/// A device with the nine pairs, which keeps a short record: it is often copied.
pub fn nine_pairs(alloc: Global) -> Result<MemDev, DevFault> {
    let mut dev = blank_device(alloc, 928);
    write_pages(&mut dev, &nine_file())?;
    Ok(dev)
}

/// Writes something else at the beginning of page n.
fn damage(dev: &mut MemDev, n: u32) -> Result<(), DevFault> {
    let mut page = page_at(dev, n)?;
    page.put(0, b"hello");
    set_page(dev, n, &page)
}

/// A device with the nine pairs whose page n begins with something else.
pub fn damaged(alloc: Global, n: u32) -> Result<MemDev, DevFault> {
    let mut dev = nine_pairs(alloc)?;
    damage(&mut dev, n)?;
    Ok(dev)
}

/// Stores the first five keys with contents that each fill a page.
fn put_five<S: PageStore>(db: &mut Database<S>) -> Result<(), Fault> {
    for (key, _) in PAIRS.iter().take(5) {
        put(db, &[*key], &[0; 2_000])?;
    }
    Ok(())
}

/// The device of five pairs that each fill a page.
fn five_pages(alloc: Global) -> Result<MemDev, Fault> {
    let mut db = with_first(alloc, 0)?;
    put_five(&mut db)?;
    closed(db)
}

/// A device of ten pages with a file of eight: one pair of 2,001 bytes fills a page, so four of
/// five stand in pages of their own behind the first.
pub fn nearly_full(alloc: Global) -> Result<MemDev, Fail> {
    Ok(copied(alloc, &mut five_pages(alloc)?, 40, 8)?)
}
