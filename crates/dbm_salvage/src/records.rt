//! The pairs of a bucket page.

ghost use Rattle.std.specs.Prelude.{◌≡◌, ◌⊎◌, ◌*◌, if◌then◌else◌, ◌≤◌, ◌<◌, ℕ, List, true, Some, None, IsTrue, IsFalse, OnOk, IfOk, IfErr, IsErrOf, length, vec_capacity};
ghost use Rattle.std.specs.List.{HoldsAt};
ghost use Rattle.std.specs.Option.{is_none};
ghost use Rattle.std.specs.Io.KnownBytes.{Appends};
ghost use Rattle.sect_dev.specs.Device.{MoreFaults};
ghost use Rattle.dbm_lines.specs.Dumps.{dump_line};
ghost use Rattle.page_model.specs.Meaning.{records_on};
ghost use Rattle.page_model.specs.Reading.{body_of};
ghost use Rattle.page_io.specs.BucketPages.{IsBucketPage, page_records};
ghost use Rattle.dbm_salvage.specs.Images.{AreOnDevice};
ghost use Rattle.dbm_salvage.specs.Laid.{laid};
ghost use Rattle.dbm_salvage.specs.Reads.{Looks};
ghost use Rattle.dbm_salvage.specs.Salvage.{said_in, ReadsAs, IsContentBy, is_failed, IsRecordSalvaged, IsPageSalvaged};
ghost use Rattle.dbm_salvage.specs.declared.trouble.Trouble.TheVariants.{Unread, Content};
ghost use Rattle.dbm_salvage.specs.declared.contents.NoContent.TheVariants.{Failed, Broken};
ghost use Rattle.dbm_fault.specs.declared.engine_fault.EngineFault.TheVariants as engine;

use crate::contents::{NoContent, read_content};
use crate::images::Images;
use crate::trouble::Trouble;
use dbm_fault::EngineFault;
use dbm_lines::{write_bytes, write_word};
use dbm_progress::{Progress, Work};
use page_io::{Page, are_bytes};
use sect_dev::SectorDev;
use slot_page::{far_at, pair_at};
use std::io::{self, Write};

/// What was found of a page.
#[derive(Clone, Copy)]
pub(crate) struct PageFound {
    /// How many of its pairs were written.
    pub(crate) printed: u16,
    /// What is wrong with it.
    pub(crate) trouble: Option<Trouble>,
}

/// Puts the content of record `i` into `content`, which has room for it, in the place of what that
/// holds.
fn content_of<D: SectorDev>(
    dev: &mut D,
    images: &Images,
    pages: u32,
    page: &Page,
    i: usize,
    content: &mut Vec<u8>,
) -> Result<(), NoContent>
    requires fits { AreOnDevice images.now.places.items pages (D.sectors dev.old) }
    requires page { IsBucketPage page.now.bytes }
    requires within { i < length (page_records page.now.bytes) }
    requires room { 65535 ≤ vec_capacity content.old }
    ensures looks { Looks D.SectorDev dev.old dev.new }
    ensures cause { IsErrOf result Failed → MoreFaults (D.faults dev.old) (D.faults dev.new) }
    ensures capacity { vec_capacity content.old ≤ vec_capacity content.new }
    ensures content { D.honest dev.old
        → OnOk result (HoldsAt (λ r. IsContentBy (said_in (laid images.now (D.seen dev.old)) pages)
        r.bytes r.far content.new.items) (page_records page.now.bytes) i) }
    ensures broken { D.honest dev.old → IsErrOf result Broken
        → HoldsAt (λ r. (bytes : List ℕ)
        → IsContentBy (said_in (laid images.now (D.seen dev.old)) pages) r.bytes r.far bytes → ⊥)
        (page_records page.now.bytes) i }
{
    if let Some((first, long)) = far_at(page, i) {
        return read_content(dev, images, pages, first, long, content);
    }
    let (_, bytes) = pair_at(page, i);
    content.clear();
    content.extend_from_slice(bytes).unwrap();
    Ok(())
}

/// Writes the line of a pair.
fn write_pair<W: Write>(writer: &mut W, key: &[u8], content: &[u8]) -> io::Result<()>
    ensures { OnOk result (Appends (W.contents writer.old) (W.contents writer.new)
        (dump_line (key.now, content.now))) }
{
    write_word(writer, key)?;
    writer.write_all(b" ")?;
    write_bytes(writer, content)
}

/// Writes the line of the pair of record `i`; or answers why there is none.
fn salvage_record<D: SectorDev, W: Write>(
    dev: &mut D,
    images: &Images,
    pages: u32,
    page: &Page,
    i: usize,
    content: &mut Vec<u8>,
    writer: &mut W,
) -> io::Result<Option<NoContent>>
    requires fits { AreOnDevice images.now.places.items pages (D.sectors dev.old) }
    requires page { IsBucketPage page.now.bytes }
    requires within { i < length (page_records page.now.bytes) }
    requires room { 65535 ≤ vec_capacity content.old }
    ensures looks { Looks D.SectorDev dev.old dev.new }
    ensures cause { IfOk result (λ lost. is_failed lost ≡ true
        → MoreFaults (D.faults dev.old) (D.faults dev.new)) }
    ensures capacity { vec_capacity content.old ≤ vec_capacity content.new }
    ensures pair { D.honest dev.old → IfOk result
        (IsRecordSalvaged (laid images.now (D.seen dev.old)) pages (page_records page.now.bytes) i
        (W.contents writer.old) (W.contents writer.new)) }
{
    match content_of(dev, images, pages, page, i, content) {
        Ok(()) => {
            let (key, _) = pair_at(page, i);
            write_pair(writer, key, content)?;
            Ok(None)
        }
        Err(lost) => Ok(Some(lost)),
    }
}

/// Writes the lines of the pairs of a page, which reads as page n and is a bucket page. Each is a
/// step of `progress`.
pub(crate) fn salvage_records<D: SectorDev, W: Write, P: Progress>(
    dev: &mut D,
    images: &Images,
    pages: u32,
    n: u32,
    page: &Page,
    content: &mut Vec<u8>,
    writer: &mut W,
    progress: &mut P,
) -> Result<PageFound, EngineFault>
    requires fits { AreOnDevice images.now.places.items pages (D.sectors dev.old) }
    requires page { IsBucketPage page.now.bytes }
    requires reads { ReadsAs n page.now.bytes }
    requires records { records_on (body_of n page.now.bytes) ≡ page_records page.now.bytes }
    requires room { 65535 ≤ vec_capacity content.old }
    ensures looks { Looks D.SectorDev dev.old dev.new }
    ensures capacity { vec_capacity content.old ≤ vec_capacity content.new }
    ensures page { D.honest dev.old → page.now.bytes ≡ laid images.now (D.seen dev.old) n
        → IfOk result (λ found. IsPageSalvaged (laid images.now (D.seen dev.old)) pages
        (MoreFaults (D.faults dev.old) (D.faults dev.new)) n
        (W.contents writer.old) (W.contents writer.new) found.printed found.trouble) }
    ensures only { IfErr result (λ e. e ≡ engine.Write) }
{
    are_bytes(&page.bytes);
    let count = page.slots();
    let mut printed: u16 = 0;
    let mut has_failed = false;
    for i in 0..usize::from(count) {
        let Ok(lost) = salvage_record(dev, images, pages, page, i, content, writer) else {
            return Err(EngineFault::Write);
        };
        printed += count_pair(lost, progress);
        has_failed = failed_after(has_failed, lost);
    }
    Ok(PageFound {
        printed,
        trouble: trouble_with(has_failed, printed, count),
    })
}

/// Counts the pair of a record, if there is one.
fn count_pair<P: Progress>(lost: Option<NoContent>, progress: &mut P) -> u16
    ensures { result ≡ (if is_none lost then 1 else 0) }
{
    if lost.is_some() {
        return 0;
    }
    progress.step(Work::PairsWritten);
    1
}

/// Whether the device failed before, or failed to read this content.
fn failed_after(has_failed: bool, lost: Option<NoContent>) -> bool
    ensures kept { IsTrue has_failed → IsTrue result }
    ensures now { is_failed lost ≡ true → IsTrue result }
    ensures only { IsTrue result → (has_failed ≡ true) ⊎ (is_failed lost ≡ true) }
{
    match lost {
        Some(NoContent::Failed) => true,
        _ => has_failed,
    }
}

/// What is wrong with a page of which so many of its pairs were written.
fn trouble_with(has_failed: bool, printed: u16, count: u16) -> Option<Trouble>
    ensures failed { IsTrue has_failed → result ≡ Some Unread }
    ensures lost { IsFalse has_failed → printed < count → result ≡ Some Content }
    ensures whole { IsFalse has_failed → count ≤ printed → result ≡ None }
{
    if has_failed {
        Some(Trouble::Unread)
    } else if printed < count {
        Some(Trouble::Content)
    } else {
        None
    }
}
