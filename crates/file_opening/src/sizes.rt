// How large a device has to be.
ghost use Rattle.std.specs.Prelude.{◌≡◌, Option};
ghost use Rattle.dbm_model.specs.Bounds.{in_v1};
ghost use Rattle.dbm_model.specs.Sizes.{pages_for, sectors_for};
ghost use Rattle.page_io.specs.Versions.{model_version};

use page_io::Version;

/// How many pages a pair takes at most.
fn pages_for(version: Version) -> u32
    ensures { result ≡ pages_for (model_version version) }
{
    match version {
        Version::V1 => 1,
        Version::V2 => 34,
    }
}

/// How many sectors of 512 bytes a database of this version and of so many pairs needs: room for
/// each bucket to have a page and each pair its own pages, and as much again for a change on its
/// way. `None` where the limit is outside 1 to 1,000,000.
pub fn needed_sectors_of(version: Version, limit: u32) -> Option<u32>
    ensures { result ≡ sectors_for (record { limit = limit; version = model_version version }) }
{
    if limit == 0 || limit > 1_000_000 {
        return None;
    }
    let buckets = limit.div_ceil(8);
    let segments = buckets.div_ceil(508);
    Some(8 * (2 + segments + buckets + pages_for(version) * limit))
}

/// The same of version 1.
pub fn needed_sectors(limit: u32) -> Option<u32>
    ensures { result ≡ sectors_for (in_v1 limit) }
{
    needed_sectors_of(Version::V1, limit)
}
