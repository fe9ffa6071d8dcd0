//! How many pages a database may have.

ghost use Rattle.std.specs.Prelude.{◌≡◌, ◌≤◌};
ghost use Rattle.dbm_model.specs.Sizes.{home, pages_for};
ghost use Rattle.page_io.specs.Versions.{model_version};

use page_io::Version;

/// How many buckets a segment page has room for.
pub const PER_SEGMENT: u32 = 508;

/// How many pages a pair takes at most.
fn pages_for(version: Version) -> u32
    ensures { result ≡ pages_for (model_version version) }
{
    match version {
        Version::V1 => 1,
        Version::V2 => 34,
    }
}

/// The number behind that of the last page that a database of this limit and version may need.
pub fn most_pages(limit: u32, version: Version) -> u32
    requires { limit ≤ 1000000 }
    ensures { result ≡ home (record { limit = limit; version = model_version version }) }
{
    let buckets = limit.div_ceil(8);
    2 + buckets.div_ceil(PER_SEGMENT) + buckets + pages_for(version) * limit
}
