//! Pages, and stores of pages in memory.

ghost use Rattle.std.specs.Prelude.{◌≡◌, [], true, IfOk};

use crate::sectors::sector_of;
use crate::stores::{may_end_at_5, numbered, stage};
use page_io::{MemPages, Page, PageFault, PageStore, read_page, write_page};
use sect_dev::{DevFault, Fuse, MemDev, SectorDev};
use std::alloc::{AllocError, Global};
use std::test::Fail;

/// The fields of a page's header.
fn header_of(page: &Page) -> [u32; 5] {
    [
        page.own(),
        page.kind().into(),
        page.slots().into(),
        page.next(),
        page.low().into(),
    ]
}

#[test]
fn header_fields_are_big_endian(rt: HostRuntime) {
    let mut page = Page::blank();
    assert!(rt; page == Page::default());
    page.set_own(0x0102_0304);
    page.set_kind(3);
    page.set_u16_at(6, 0x0506);
    page.set_next(0x0708_090a);
    page.set_u16_at(12, 0x07f6);
    let bytes = [1, 2, 3, 4, 3, 0, 5, 6, 7, 8, 9, 10, 7, 0xf6, 0, 0];
    let fields = [0x0102_0304, 3, 0x0506, 0x0708_090a, 0x07f6];
    assert!(rt; page.bytes.starts_with(&bytes) && header_of(&page) == fields);
}

#[test]
fn fields_lie_where_they_are_put(rt: HostRuntime) {
    let mut page = Page::blank();
    page.set_u16_at(2046, 0xabcd);
    page.set_u32_at(2042, 0x0102_0304);
    page.put(2040, &[9, 8]);
    let numbers = page.u16_at(2046) == 0xabcd && page.u32_at(2042) == 0x0102_0304;
    let last = page.bytes.ends_with(&[9, 8, 1, 2, 3, 4, 0xab, 0xcd]);
    assert!(rt; numbers && last);
    page.put(512, &[7; 512]);
    let from = page.bytes[511..513] == [0, 7][..];
    assert!(rt; from && page.bytes[1023..1025] == [7, 0][..]);
}

#[test]
fn a_page_without_slots(rt: HostRuntime) {
    let mut page = Page::plain(2, 2, 0x0708_090a);
    page.set_numbers(16, &[3, 0x0102_0304]);
    let bytes = [
        0, 0, 0, 2, 2, 0, 0, 0, 7, 8, 9, 10, 0, 0, 0, 0, 0, 0, 0, 3, 1, 2, 3, 4, 0,
    ];
    assert!(rt; page.bytes.starts_with(&bytes));
    assert!(rt; page.is_plain(2, 2) && !page.is_plain(3, 2) && !page.is_plain(2, 5));
    assert!(rt; page.is_clear(24, 2048) && page.is_clear(23, 23) && !page.is_clear(23, 2048));
    page.set_u16_at(12, 1);
    assert!(rt; !page.is_plain(2, 2));
}

/// Page n of a device of four pages, which is 1 to 3.
fn page_at(dev: &mut MemDev, n: u32) -> Result<Page, DevFault> {
    let mut page = Page::blank();
    if n >= dev.capacity() / 4 {
        return Err(DevFault);
    }
    read_page(dev, n, &mut page)?;
    Ok(page)
}

#[test]
fn a_written_page_is_read_back(rt: HostRuntime) -> Result<(), Fail> {
    let mut dev = MemDev::new(rt.alloc(), 16);
    let mut page = numbered(2, 7);
    page.put(512, &[1; 512]);
    page.put(1024, &[2; 512]);
    write_page(&mut dev, 2, &page)?;
    assert!(rt; page_at(&mut dev, 2)? == page);
    let blank = Page::blank();
    assert!(rt; page_at(&mut dev, 1)? == blank && page_at(&mut dev, 3)? == blank);
    Ok(())
}

/// What the device has after a write of page 1 with so many calls, and whether the page was
/// written.
fn written_in(alloc: Global, calls: u64) -> (MemDev, bool) {
    let mut fuse = Fuse::new(MemDev::new(alloc, 16), calls);
    let is_written = write_page(&mut fuse, 1, &numbered(1, 7)).is_ok();
    (fuse.into_inner(), is_written)
}

/// Whether the first so many sectors of page 1 end with 7, and the others with 0.
fn has_sectors(dev: &mut MemDev, written: u32) -> Result<bool, DevFault> {
    for k in 0..4 {
        let wanted = if k < written { 7 } else { 0 };
        if sector_of(dev, 4 + k)?[511] != wanted {
            return Ok(false);
        }
    }
    Ok(true)
}

// After k calls the first k sectors of page 1 are written, and no later one.
#[test]
fn sectors_are_written_in_order(rt: HostRuntime) -> Result<(), Fail> {
    for calls in 0..5u32 {
        let (mut dev, is_written) = written_in(rt.alloc(), calls.into());
        assert!(rt; is_written == (calls == 4) && has_sectors(&mut dev, calls)?);
    }
    Ok(())
}

/// Pages 1 to 3, filled by their own numbers, with room for seven.
fn three_pages(alloc: Global) -> Result<MemPages, AllocError>
    ensures { IfOk result (λ store.
        ⟦<MemPages as PageStore>⟧.state store
        ≡ record { staged = []; end = 4; capacity = 7; usable = true; writable = true; base = [] }) }
{
    MemPages::new(alloc, &[numbered(1, 1), numbered(2, 2), numbered(3, 3)], 7)
}

/// The last byte of a page, or 0 where it is Damaged.
fn last_byte<S: PageStore>(store: &mut S, n: u32) -> Result<u8, PageFault>
    ensures { S.state store.new ≡ S.state store.old }
{
    let mut page = Page::blank();
    match store.read(n, &mut page) {
        Ok(_) => Ok(page.bytes[2047]),
        Err(PageFault::Damaged) => Ok(0),
        Err(fault) => Err(fault),
    }
}

/// Whether pages a, b and c of a store end with these bytes.
fn end_with<S: PageStore>(
    store: &mut S,
    pages: [u32; 3],
    wanted: [u8; 3],
) -> Result<bool, PageFault>
    ensures { S.state store.new ≡ S.state store.old }
{
    let [a, b, c] = pages;
    let found = [
        last_byte(store, a)?,
        last_byte(store, b)?,
        last_byte(store, c)?,
    ];
    Ok(found == wanted)
}

/// Stages pages 4 and 2, looks at them, and commits them to a file of three pages.
fn commit_two<S: PageStore>(store: &mut S) -> Result<bool, PageFault>
    requires { (S.state store.old).staged ≡ [] }
{
    stage(store, &numbered(4, 40))?;
    stage(store, &numbered(2, 20))?;
    let staged = store.is_staged(2) && !store.is_staged(3);
    let right = end_with(store, [1, 2, 4], [1, 20, 40])?;
    if !may_end_at_5(store) {
        return Ok(false);
    }
    store.commit(5)?;
    Ok(staged && right)
}

#[test]
fn a_commit_in_memory(rt: HostRuntime) -> Result<(), Fail> {
    let mut store = three_pages(rt.alloc())?;
    assert!(rt; !store.is_broken() && commit_two(&mut store)?);
    assert!(rt; store.end() == 5 && store.capacity() == 7);
    assert!(rt; end_with(&mut store, [2, 3, 4], [20, 3, 40])?);
    assert!(rt; end_with(&mut store, [0, 5, 5], [0, 0, 0])?);
    Ok(())
}

/// What a commit of pages 4 and 5 to a file of three pages answers.
fn commit_five(store: &mut MemPages) -> Result<Result<(), PageFault>, PageFault>
    requires { ⟦<MemPages as PageStore>⟧.state store.old
        ≡ record { staged = []; end = 4; capacity = 7; usable = true; writable = true; base = [] } }
{
    store.stage(4, &numbered(4, 40))?;
    store.stage(5, &numbered(5, 50))?;
    Ok(store.commit(6))
}

#[test]
fn a_commit_without_room(rt: HostRuntime) -> Result<(), Fail> {
    let mut store = three_pages(rt.alloc())?;
    let answer = commit_five(&mut store)?;
    assert!(rt; answer == Err(PageFault::NoRoom) && store.is_staged(4));
    store.unstage();
    assert!(rt; !store.is_staged(4) && end_with(&mut store, [1, 4, 4], [1, 0, 0])?);
    Ok(())
}
