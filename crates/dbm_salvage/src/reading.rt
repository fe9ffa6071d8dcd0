//! The pages of a file, with what lies over them.

ghost use Rattle.std.specs.Prelude.{◌≡◌, ◌+◌, ◌*◌, ◌≤◌, OnOk};
ghost use Rattle.sect_dev.specs.Device.{IsImageOf, NoNewCandidate, LeavesOnly};
ghost use Rattle.page_io.specs.Calls.{IsDeviceCall};
ghost use Rattle.dbm_salvage.specs.Images.{place};
ghost use Rattle.dbm_salvage.specs.Laid.{laid};

use crate::images::Images;
use page_io::{Page, find_staged, read_page};
use sect_dev::{DevFault, SectorDev};

/// Where page n stands.
fn place_of(places: &[u32], n: u32) -> u32
    ensures { result ≡ place places.now n }
{
    match places.get(n as usize) {
        Some(&at) if at != 0 => at,
        _ => n,
    }
}

/// Reads page n of the file: the one of a log, or the one that stands in its place.
pub(crate) fn read_laid<D: SectorDev>(
    dev: &mut D,
    images: &Images,
    n: u32,
    page: &mut Page,
) -> Result<(), DevFault>
    requires { 4 * place images.now.places.items n + 4 ≤ D.sectors dev.old }
    ensures read { D.honest dev.old
        → OnOk result (page.new.bytes ≡ laid images.now (D.seen dev.old) n) }
    ensures seen { D.honest dev.old → D.seen dev.new ≡ D.seen dev.old }
    ensures candidates { D.honest dev.old
        → NoNewCandidate (D.candidate dev.old) (D.candidate dev.new) }
    ensures keeps { D.honest dev.old → NoNewCandidate (D.candidate dev.new) (D.candidate dev.old) }
    ensures any_moment { D.honest dev.old
        → LeavesOnly D.moment D.left_since dev.old dev.new (IsImageOf (D.candidate dev.old)) }
    ensures still { (D.moment dev.new).at ≡ (D.moment dev.old).at }
    ensures device { IsDeviceCall D.SectorDev dev.old dev.new result }
{
    if find_staged(images.logged.as_slice(), n, page) {
        return Ok(());
    }
    read_page(dev, place_of(images.places.as_slice(), n), page)
}
