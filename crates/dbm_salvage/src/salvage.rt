//! The engine of a salvage.

ghost use Rattle.std.specs.Prelude.{◌≡◌, ◌⊎◌, ◌*◌, ◌≤◌, ◌<◌, length, Some, IfOk, IfErr, IsErrOf, vec_capacity};
ghost use Rattle.sect_dev.specs.Device.{MoreFaults};
ghost use Rattle.dbm_salvage.specs.Images.{AreOnDevice};
ghost use Rattle.dbm_salvage.specs.Laid.{laid};
ghost use Rattle.dbm_salvage.specs.Reads.{Looks};
ghost use Rattle.dbm_salvage.specs.Salvage.{IsPageSalvaged, AreSalvaged, told_by};
ghost use Rattle.dbm_salvage.specs.Telling.{Tells};
ghost use Rattle.dbm_fault.specs.declared.engine_fault.EngineFault.TheVariants.{Memory, Write as WriteFault};

use crate::images::Images;
use crate::looks::look_at;
use crate::reading::read_laid;
use crate::records::{PageFound, salvage_records};
use crate::trouble::{Trouble, Troubles};
use dbm_fault::EngineFault;
use dbm_progress::Progress;
use page_io::Page;
use sect_dev::SectorDev;
use std::alloc::Global;
use std::io::Write;

/// The bytes of the longest content.
const LONGEST: usize = 65535;

/// What a salvage found.
#[derive(Clone, Copy, Debug, PartialEq, Eq)]
pub struct Salvaged {
    /// How many pairs were written.
    pub pairs: u64,
    /// How many pages are in trouble.
    pub troubles: u32,
}

/// Writes the lines of the pairs of page n.
fn salvage_page<D: SectorDev, W: Write, P: Progress>(
    dev: &mut D,
    images: &Images,
    pages: u32,
    n: u32,
    content: &mut Vec<u8>,
    writer: &mut W,
    progress: &mut P,
) -> Result<PageFound, EngineFault>
    requires fits { AreOnDevice images.now.places.items pages (D.sectors dev.old) }
    requires within { n < pages }
    requires room { 65535 ≤ vec_capacity content.old }
    ensures looks { Looks D.SectorDev dev.old dev.new }
    ensures capacity { vec_capacity content.old ≤ vec_capacity content.new }
    ensures page { D.honest dev.old
        → IfOk result (λ found. IsPageSalvaged (laid images.now (D.seen dev.old)) pages
        (MoreFaults (D.faults dev.old) (D.faults dev.new)) n
        (W.contents writer.old) (W.contents writer.new) found.printed found.trouble) }
    ensures only { IfErr result (λ e. e ≡ WriteFault) }
{
    let mut page = Page::blank();
    if read_laid(dev, images, n, &mut page).is_err() {
        return Ok(in_trouble(Trouble::Unread));
    }
    match look_at(&page, n) {
        Ok(true) => salvage_records(dev, images, pages, n, &page, content, writer, progress),
        Ok(false) => Ok(PageFound {
            printed: 0,
            trouble: None,
        }),
        Err(trouble) => Ok(in_trouble(trouble)),
    }
}

/// Tells what is wrong with a page, if anything, and answers how much was told.
#[tactic(auto, using(crate::proofs::FoundPages::told_none))]
fn tell<T: Troubles, P: Progress>(
    troubles: &mut T,
    progress: &mut P,
    n: u32,
    trouble: Option<Trouble>,
) -> u32
    ensures told { Tells (T.told troubles.old) (T.told troubles.new) (told_by n trouble) }
    ensures count { result ≡ length (told_by n trouble) }
    ensures one { result ≤ 1 }
{
    let Some(trouble) = trouble else {
        return 0;
    };
    progress.clear();
    troubles.tell(n, trouble);
    1
}

/// A page of which nothing was written.
fn in_trouble(trouble: Trouble) -> PageFound
    ensures { (result.printed ≡ 0) × (result.trouble ≡ Some trouble) }
{
    PageFound {
        printed: 0,
        trouble: Some(trouble),
    }
}

/// Writes each pair of the pages 1 to `pages` - 1 as `key content` in a line, page by page and slot
/// by slot, where the page reads as a bucket page of its own number. A page over which a redo image
/// or a page of a log lies is that one. Of each page that reads as no page of its number, and of
/// each that has a far content that isn't whole, `troubles` is told. A page that the device fails to
/// read is one of them, and the salvage goes on. The memory for the longest content is taken before
/// a page is read. After `Write` some of the text may be out. Each pair is a step of `progress`,
/// which is cleared before `troubles` is told something.
pub fn salvage_engine<D: SectorDev, W: Write, T: Troubles, P: Progress>(
    alloc: Global,
    dev: &mut D,
    images: &Images,
    pages: u32,
    writer: &mut W,
    troubles: &mut T,
    progress: &mut P,
) -> Result<Salvaged, EngineFault>
    requires { AreOnDevice images.now.places.items pages (D.sectors dev.old) }

    // Whatever it answers, on any device.
    ensures looks { Looks D.SectorDev dev.old dev.new }
    ensures salvaged { D.honest dev.old → IfOk result (λ all. AreSalvaged
        (laid images.now (D.seen dev.old)) pages
        (MoreFaults (D.faults dev.old) (D.faults dev.new)) pages
        (W.contents writer.old) (W.contents writer.new)
        (T.told troubles.old) (T.told troubles.new) all.pairs all.troubles) }
    ensures memory { IsErrOf result Memory
        → (dev.new ≡ dev.old) × (writer.new ≡ writer.old) × (troubles.new ≡ troubles.old) }
    ensures only { IfErr result (λ e. (e ≡ Memory) ⊎ (e ≡ WriteFault)) }
{
    let mut content = Vec::with_capacity(alloc, LONGEST).map_err(|_| EngineFault::Memory)?;
    let mut all = Salvaged {
        pairs: 0,
        troubles: 0,
    };
    for n in 1..pages {
        let found = salvage_page(dev, images, pages, n, &mut content, writer, progress)?;
        all.pairs += u64::from(found.printed);
        all.troubles += tell(troubles, progress, n, found.trouble);
    }
    Ok(all)
}
