// Salvages of a file that may be damaged.
ghost use Rattle.std.specs.Prelude.{◌≡◌, ◌⊎◌, ◌+◌, ◌*◌, ◌≤◌, ℕ, false, IfOk, IfSome, Ok, Err, Some, None};
ghost use Rattle.dbm_salvage.specs.Images.{AreOnDevice};
ghost use Rattle.redo_area.specs.Header.{IsInRange};
ghost use Rattle.redo_area.specs.declared.header.Header.TheVariants.{Clear, Armed, Logging};
ghost use Rattle.dbm_tool.specs.Endings.{EndsAs};

use crate::EngineFault;
use crate::commands::unwritten;
use crate::host::Host;
use crate::waiting::open_waiting;
use dbm_command_line::Plan;
use dbm_commands::{Failure, Outcome};
use dbm_file::{Fault, Refusal, open_path};
use dbm_progress::Progress;
use dbm_salvage::{Images, Salvaged, Trouble, Troubles, salvage_engine};
use redo_area::{Header, OpenFault, read_header, read_log};
use sect_dev::{FileDev, FileFault, SectorDev};
use std::alloc::Global;
use std::fs::{self, File};
use std::io::Write;
use std::rt::Files;
use std::time::Clock;

/// How many bytes a page has.
const PAGE: u64 = 2048;

/// Tells each page in trouble in a line.
#[derive(Drop)]
pub struct Told<W> {
    faults: W,
}

impl<W: Write> Told<W> {
    /// The lines go to `faults`, which is standard error. One that can't be written is passed over.
    pub fn on(faults: W) -> Told<W> {
        Told { faults }
    }
}

impl<W: Write> Troubles for Told<W> {
    ghost told = { λ _. None };

    fn tell(&mut self, page: u32, trouble: Trouble) {
        let _ = writeln!(self.faults, "dbmtool: page {page}: {}", words_of(trouble));
    }

    fn tell_lost(&mut self, images: u32) {
        let _ = writeln!(
            self.faults,
            "dbmtool: redo images that read as no page: {images}; as many pages are printed as they were before the last commit"
        );
    }

    fn tell_lost_log(&mut self) {
        let _ = writeln!(
            self.faults,
            "dbmtool: the log of the last commits cannot be read; what stands in it alone is not printed"
        );
    }
}

/// What is wrong with a page, in words.
fn words_of<'a>(trouble: Trouble) -> &'a str {
    match trouble {
        Trouble::Unread => "the system failed to read it",
        Trouble::Blank => "it has zeros alone",
        Trouble::NoPage => "it is no page",
        Trouble::Elsewhere => "it is a page of another number",
        Trouble::Content => "a content in pages of its own is not whole",
    }
}

/// Prints the pairs of each page that reads as such. Where one doesn't, it ends as a damaged file.
pub fn salvage<T: Files<File = File> + Clock, O: Write, S: Troubles, P: Progress>(
    host: &mut Host<'_, T>,
    file: &str,
    output: &mut O,
    troubles: &mut S,
    progress: &mut P,
) -> Result<Outcome, Failure>
    ensures { EndsAs (Plan.Salvage file.entry) result }
{
    let (mut dev, length) = device_of(host, file)?;
    let layout = layout_of(&mut dev, length);
    let found = find_pages(host.alloc, &mut dev, layout)?;
    tell_losses(troubles, found.images.lost, found.is_log_lost);
    let done = salvage_engine(
        host.alloc,
        &mut dev,
        &found.images,
        found.pages,
        output,
        troubles,
        progress,
    );
    let flushed = output.flush();
    let salvaged = done?;
    flushed.map_err(unwritten)?;
    verdict(salvaged, found.images.lost, found.is_log_lost)
}

/// Tells how many redo images are lost, if any, and whether a log is.
fn tell_losses<S: Troubles>(troubles: &mut S, images: u32, is_log_lost: bool) {
    if images > 0 {
        troubles.tell_lost(images);
    }
    if is_log_lost {
        troubles.tell_lost_log();
    }
}

/// Whether each page was read, each redo image, and the log.
fn verdict(salvaged: Salvaged, lost: u32, is_log_lost: bool) -> Result<Outcome, Failure>
    ensures done { result ≡ Ok Outcome.Done
        → (salvaged.troubles ≡ 0) × (lost ≡ 0) × (is_log_lost ≡ false) }
    ensures only { (result ≡ Ok Outcome.Done)
        ⊎ (result ≡ Err (Failure.Fault (EngineFault.Db Fault.Damaged))) }
{
    if salvaged.troubles == 0 && lost == 0 && !is_log_lost {
        Ok(Outcome::Done)
    } else {
        Err(Failure::from(Fault::Damaged))
    }
}

/// Where the pages of a file stand.
#[derive(Clone, Copy)]
struct Layout {
    /// How many pages the file has, page 0 among them.
    pages: u32,
    /// The page of the first redo image.
    start: u32,
    /// How many redo images there are: those of a commit that a stop cut short.
    count: u32,
    /// The first page of the log that has the last commits, where the file was left with one. How
    /// many pages the file has is then for the log to say, and `pages` is for where that can't be
    /// read.
    log: Option<u32>,
}

/// The layout of a file: what its commit sector says, and else as many pages as go into its bytes.
fn layout_of(dev: &mut FileDev, length: u64) -> Layout
    ensures behind { result.pages ≤ result.start }
    ensures within { 4 * (result.start + result.count)
        ≤ ⟦<FileDev as SectorDev>⟧.sectors dev.new }
    ensures log { IfSome result.log (λ start. 4 * start + 128
        ≤ ⟦<FileDev as SectorDev>⟧.sectors dev.new) }
{
    let capacity = dev.capacity() / 4;
    let all = pages_of(length).min(capacity);
    let mut content = [0; 512];
    if capacity == 0 || dev.read(0, &mut content).is_err() {
        return at_home(all);
    }
    layout_by(capacity, read_header(capacity, &content), all)
}

/// The layout by a commit sector, or of so many pages where that says none.
fn layout_by(capacity: u32, header: Header, all: u32) -> Layout
    requires header { IsInRange capacity header }
    requires all { all ≤ capacity }
    ensures behind { result.pages ≤ result.start }
    ensures within { result.start + result.count ≤ capacity }
    ensures log { IfSome result.log (λ start. start + 32 ≤ capacity) }
    ensures armed { (end : ℕ) (start : ℕ) (count : ℕ) → header ≡ Armed end start count
        → (result.pages ≡ end) × (result.start ≡ start) × (result.count ≡ count)
        × (result.log ≡ None) }
    ensures clear { (end : ℕ) → header ≡ Clear end
        → (result.pages ≡ end) × (result.count ≡ 0) × (result.log ≡ None) }
    ensures logging { (start : ℕ) → header ≡ Logging start
        → (result.pages ≡ all) × (result.count ≡ 0) × (result.log ≡ Some start) }
{
    match header {
        Header::Clear { end } => at_home(end),
        Header::Armed { end, start, count } => Layout {
            pages: end,
            start,
            count,
            log: None,
        },
        Header::Logging { start } => Layout {
            log: Some(start),
            ..at_home(all)
        },
        Header::Blank | Header::NotOurs | Header::Damaged => at_home(all),
    }
}

/// The layout of a file of so many pages with no redo image and no log.
fn at_home(pages: u32) -> Layout
    ensures { (result.pages ≡ pages) × (result.start ≡ pages) × (result.count ≡ 0)
        × (result.log ≡ None) }
{
    Layout {
        pages,
        start: pages,
        count: 0,
        log: None,
    }
}

/// Into how many pages so many bytes go, up to the greatest number.
fn pages_of(length: u64) -> u32 {
    u32::try_from(length.div_ceil(PAGE)).unwrap_or(u32::MAX)
}

/// The pages of a file, as a salvage looks at them.
#[derive(Drop)]
struct Found {
    /// How many pages the file has, page 0 among them.
    pages: u32,
    /// What lies over them.
    images: Images,
    /// Whether the commits in its log couldn't be read.
    is_log_lost: bool,
}

/// The pages of a file of this layout. Where the log can't be read or says no commit, nothing lies
/// over them.
fn find_pages(alloc: Global, dev: &mut FileDev, layout: Layout) -> Result<Found, Fault>
    requires behind { layout.pages ≤ layout.start }
    requires within { 4 * (layout.start + layout.count)
        ≤ ⟦<FileDev as SectorDev>⟧.sectors dev.old }
    requires log { IfSome layout.log (λ start. 4 * start + 128
        ≤ ⟦<FileDev as SectorDev>⟧.sectors dev.old) }
    ensures within { IfOk result (λ found. AreOnDevice found.images.places.items found.pages
        (⟦<FileDev as SectorDev>⟧.sectors dev.new)) }
    ensures unlogged { layout.log ≡ None → IfOk result (λ found.
        (found.pages ≡ layout.pages) × (found.is_log_lost ≡ false)) }
    ensures logged { (start : ℕ) → layout.log ≡ Some start → IfOk result (λ found.
        found.is_log_lost ≡ false → found.pages ≤ start) }
{
    let Some(start) = layout.log else {
        return Ok(Found {
            pages: layout.pages,
            images: images_of(alloc, dev, layout)?,
            is_log_lost: false,
        });
    };
    match read_log(alloc, dev, start) {
        Ok(file) => Ok(Found {
            pages: file.end,
            images: Images::of_log(alloc, file.redo),
            is_log_lost: false,
        }),
        Err(OpenFault::Memory) => Err(Fault::Memory),
        Err(_) => Ok(Found {
            pages: layout.pages,
            images: Images::none(alloc),
            is_log_lost: true,
        }),
    }
}

/// The redo images of a file.
fn images_of(alloc: Global, dev: &mut FileDev, layout: Layout) -> Result<Images, Fault>
    requires behind { layout.pages ≤ layout.start }
    requires within { 4 * (layout.start + layout.count)
        ≤ ⟦<FileDev as SectorDev>⟧.sectors dev.old }
    ensures { IfOk result (λ images. AreOnDevice images.places.items layout.pages
        (⟦<FileDev as SectorDev>⟧.sectors dev.new)) }
{
    if layout.count == 0 {
        return Ok(Images::none(alloc));
    }
    Images::of(alloc, dev, layout.pages, layout.start, layout.count).map_err(|_| Fault::Memory)
}

/// The file, opened for reading, and how many bytes it has.
fn device_of<T: Files<File = File> + Clock>(
    host: &mut Host<'_, T>,
    name: &str,
) -> Result<(FileDev, u64), Fault> {
    let rt = host.rt;
    let alloc = host.alloc;
    match open_waiting(rt, host.wait, || device(rt, alloc, name)) {
        Ok(found) => Ok(found),
        Err(refusal) => Err(host.keep_cause(refusal)),
    }
}

/// Opens the file of a name.
fn device<T: Files<File = File>>(
    rt: &T,
    alloc: Global,
    name: &str,
) -> Result<(FileDev, u64), Refusal> {
    let Ok(path) = format!(in alloc; "{name}.db") else {
        return Err(without_cause(Fault::Memory));
    };
    let dev = open_path(rt, path.as_str(), false, false).map_err(refusal)?;
    match fs::metadata(rt, path.as_str()) {
        Ok(found) => Ok((dev, found.len())),
        Err(error) => Err(Refusal {
            fault: Fault::Device,
            system: Some(error),
        }),
    }
}

/// The refusal of a file that can't be opened.
fn refusal(fault: FileFault) -> Refusal {
    match fault {
        FileFault::Memory => without_cause(Fault::Memory),
        FileFault::Missing => without_cause(Fault::Missing),
        FileFault::Device(error) => Refusal {
            fault: Fault::Device,
            system: Some(error),
        },
    }
}

/// A refusal of which the system tells nothing.
fn without_cause(fault: Fault) -> Refusal {
    Refusal {
        fault,
        system: None,
    }
}
