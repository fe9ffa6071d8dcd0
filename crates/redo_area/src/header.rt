// The commit sector.
ghost use Rattle.std.specs.Prelude.{◌≡◌, ◌+◌, ◌≤◌, true};
ghost use Rattle.page_model.specs.Bytes.{u32_at, u32_bytes, overwrite};
ghost use Rattle.redo_area.specs.Header.{magic, is_magic, has_magic, kind_of, spelled, header_by, header_of, IsInRange, AgreesWithMagic, MayLog};

use byteorder::{BigEndian, ByteOrder};

fn put_u32(bytes: &mut [u8; 512], at: usize, value: u32)
    requires { at + 4 ≤ 512 }
    ensures { bytes.new ≡ overwrite bytes.old at (u32_bytes value) }
{
    BigEndian::write_u32(&mut bytes[at..at + 4], value);
}

/// How the commits of a file are made, as the magic of its commit sector says.
#[derive(Clone, Copy, Debug, PartialEq, Eq)]
pub enum CommitKind {
    /// By redo images, with two syncs (`DBMREDO1`).
    Images,
    /// In a row by a log, with one sync, and else by redo images (`DBMREDO2`).
    Log,
}

#[tactic(auto, unfolding(crate::specs::Header::magic, crate::specs::Header::digit))]
fn magic(kind: CommitKind) -> [u8; 8]
    ensures { result ≡ magic kind }
{
    match kind {
        CommitKind::Images => *b"DBMREDO1",
        CommitKind::Log => *b"DBMREDO2",
    }
}

fn is_magic(content: &[u8; 512], kind: CommitKind) -> bool
    ensures { result ≡ is_magic kind content.now }
{
    content.starts_with(&magic(kind))
}

fn has_magic(content: &[u8; 512]) -> bool
    ensures { result ≡ has_magic content.now }
{
    is_magic(content, CommitKind::Images) || is_magic(content, CommitKind::Log)
}

/// How the commits of a file are made whose commit sector this is.
pub fn kind_of(content: &[u8; 512]) -> CommitKind
    ensures { result ≡ kind_of content.now }
{
    if is_magic(content, CommitKind::Log) {
        CommitKind::Log
    } else {
        CommitKind::Images
    }
}

fn put_magic(bytes: &mut [u8; 512], kind: CommitKind)
    ensures { bytes.new ≡ overwrite bytes.old 0 (magic kind) }
{
    bytes[0..8].copy_from_slice(&magic(kind));
}

fn sector(kind: CommitKind, state: u32, end: u32, start: u32, count: u32) -> [u8; 512]
    ensures { result ≡ spelled kind state end start count }
{
    let mut bytes = [0; 512];
    put_magic(&mut bytes, kind);
    put_u32(&mut bytes, 8, state);
    put_u32(&mut bytes, 12, end);
    put_u32(&mut bytes, 16, start);
    put_u32(&mut bytes, 20, count);
    bytes
}

/// The commit sector of a file of pages 1 to `end` - 1, with no commit on its way.
pub fn clear_sector(kind: CommitKind, end: u32) -> [u8; 512]
    ensures { result ≡ spelled kind 0 end 0 0 }
{
    sector(kind, 0, end, 0, 0)
}

/// The commit sector of such a file with `count` redo images from page `start` on.
pub fn armed_sector(kind: CommitKind, end: u32, start: u32, count: u32) -> [u8; 512]
    ensures { result ≡ spelled kind 1 end start count }
{
    sector(kind, 1, end, start, count)
}

/// The commit sector of a file whose commits are in a log from page `start` on, where its end is
/// not behind that page.
pub fn logging_sector(end: u32, start: u32) -> [u8; 512]
    ensures { result ≡ spelled CommitKind.Log 2 end start 0 }
{
    sector(CommitKind::Log, 2, end, start, 0)
}

fn u32_at(bytes: &[u8; 512], at: usize) -> u32
    requires { at + 4 ≤ 512 }
    ensures { result ≡ u32_at bytes.now at }
{
    BigEndian::read_u32(&bytes[at..])
}

/// What a commit sector says.
#[derive(Clone, Copy)]
pub enum Header {
    Blank,
    Clear { end: u32 },
    Armed { end: u32, start: u32, count: u32 },
    Logging { start: u32 },
    NotOurs,
    Damaged,
}

fn header_by(capacity: u32, may_log: bool, state: u32, end: u32, start: u32, count: u32) -> Header
    ensures said { result ≡ header_by capacity may_log state end start count }
    ensures in_range { IsInRange capacity result }
    ensures ours { AgreesWithMagic true result }
    ensures log { MayLog may_log result }
{
    if end < 4 || capacity < end {
        return Header::Damaged;
    }
    if state == 0 && start == 0 && count == 0 {
        return Header::Clear { end };
    }
    if state == 1 && 0 < count && end <= start && start <= capacity && count <= capacity - start {
        return Header::Armed { end, start, count };
    }
    let is_log = state == 2 && may_log && count == 0;
    if is_log && end <= start && start <= capacity && 32 <= capacity - start {
        return Header::Logging { start };
    }
    Header::Damaged
}

/// What a commit sector says, on a device of so many pages.
pub fn read_header(capacity: u32, content: &[u8; 512]) -> Header
    ensures said { result ≡ header_of capacity content.now }
    ensures in_range { IsInRange capacity result }
    ensures ours { AgreesWithMagic (has_magic content.now) result }
    ensures log { MayLog (is_magic CommitKind.Log content.now) result }
{
    if *content == [0; 512] {
        return Header::Blank;
    }
    if !has_magic(content) {
        return Header::NotOurs;
    }
    if !content.ends_with(&[0; 488]) {
        return Header::Damaged;
    }
    let state = u32_at(content, 8);
    let end = u32_at(content, 12);
    let start = u32_at(content, 16);
    let count = u32_at(content, 20);
    let may_log = is_magic(content, CommitKind::Log);
    header_by(capacity, may_log, state, end, start, count)
}
