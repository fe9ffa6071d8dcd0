// The bounds of a database that is made.
use dbm_file::Version;

/// What a database that is made may hold.
#[derive(Clone, Copy, Debug, PartialEq, Eq)]
pub struct Bounds {
    /// How many pairs it may have.
    pub limit: u32,
    pub version: Version,
}

impl Bounds {
    /// Those of an opening that makes no database, which looks at none.
    pub const NONE: Bounds = Bounds {
        limit: 0,
        version: Version::V1,
    };
}
