//! Pages worked out by hand, and those of a device.

use page_io::{Page, read_page, write_page};
use sect_dev::{DevFault, MemDev, SectorDev};

/// Page n of a device, where it has one.
pub fn page_at(dev: &mut MemDev, n: u32) -> Result<Page, DevFault> {
    let mut page = Page::blank();
    if n >= dev.capacity() / 4 {
        return Err(DevFault);
    }
    read_page(dev, n, &mut page)?;
    Ok(page)
}

/// Writes page n of a device, where it has one.
pub fn set_page(dev: &mut MemDev, n: u32, page: &Page) -> Result<(), DevFault> {
    if n >= dev.capacity() / 4 {
        return Err(DevFault);
    }
    write_page(dev, n, page)?;
    dev.sync()
}

/// The first page of a device, from page 0 on, that isn't as these say.
pub fn first_other(dev: &mut MemDev, pages: &[Page]) -> Result<Option<u32>, DevFault> {
    for (page, n) in pages.iter().zip(0..) {
        if page_at(dev, n)? != *page {
            return Ok(Some(n));
        }
    }
    Ok(None)
}

/// A page of these first and last bytes, with zeros between.
fn page_of(first: &[u8], last: &[u8]) -> Page {
    let mut page = Page::blank();
    if first.len() <= 2048 && last.len() <= 2048 {
        page.put(0, first);
        page.put(2048 - last.len(), last);
    }
    page
}

/// Page 0 of a file of so many pages with no commit on its way.
fn clear_page(end: u8) -> Page {
    page_of(
        &[
            0x44, 0x42, 0x4d, 0x52, 0x45, 0x44, 0x4f, 0x31, 0, 0, 0, 0, 0, 0, 0, end,
        ],
        &[],
    )
}

/// The meta page of a database of one segment, which is page 2.
fn meta_page(counts: &[u32; 8]) -> Page {
    let mut page = page_of(&[0, 0, 0, 1, 1], &[]);
    page.set_numbers(16, counts);
    page.set_u32_at(64, 2);
    page
}

/// Page 2 as the segment of these heads.
fn segment_page(heads: &[u8; 8]) -> Page {
    let mut page = page_of(&[0, 0, 0, 2, 2], &[]);
    page.put(16, heads);
    page
}

/// A page of a bucket with pairs of one byte each, whose records begin at 07fe, 07fc, and so on.
fn bucket_page(header: &[u8; 16], pairs: usize, last: &[u8]) -> Page {
    let mut page = page_of(header, last);
    let lows = [0xfe, 0xfc, 0xfa, 0xf8, 0xf6, 0xf4, 0xf2, 0xf0];
    for (i, low) in lows.iter().take(pairs).enumerate() {
        page.put(16 + 6 * i, &[0x07, *low, 0, 1, 0, 1]);
    }
    page
}

/// A new file of limit 100: page 0, the meta page, the segment of one bucket, and its head page,
/// which is empty.
pub fn new_file() -> [Page; 4] {
    [
        clear_page(4),
        meta_page(&[1, 100, 0, 0, 0, 0, 0, 1]),
        segment_page(&[0, 0, 0, 3, 0, 0, 0, 0]),
        bucket_page(&[0, 0, 0, 3, 3, 0, 0, 0, 0, 0, 0, 0, 8, 0, 0, 0], 0, &[]),
    ]
}

/// The file of the nine pairs, after the one split.
pub fn nine_file() -> [Page; 5] {
    [
        clear_page(5),
        meta_page(&[1, 100, 9, 1, 0, 0, 0, 1]),
        segment_page(&[0, 0, 0, 3, 0, 0, 0, 4]),
        bucket_page(
            &[0, 0, 0, 3, 3, 0, 0, 5, 0, 0, 0, 0, 0x07, 0xf6, 0, 0],
            5,
            &[0x69, 9, 0x67, 7, 0x65, 5, 0x63, 3, 0x61, 1],
        ),
        bucket_page(
            &[0, 0, 0, 4, 3, 0, 0, 4, 0, 0, 0, 0, 0x07, 0xf8, 0, 0],
            4,
            &[0x68, 8, 0x66, 6, 0x64, 4, 0x62, 2],
        ),
    ]
}
