// The numbers of a database, as C gets them.
ghost use Rattle.std.specs.Prelude.{◌≡◌, pos};
ghost use Rattle.dbm_model.specs.Bounds.{version_number};
ghost use Rattle.dbm_file.specs.Database.{meta_kept};
ghost use Rattle.ndbm_c.specs.Looks.{HasNumbers};

use crate::handle::Opened;
use dbm_file::Version;

/// As `Stat` of `dbm_file` has them.
#[repr(C)]
#[derive(Clone, Copy)]
pub struct Numbers {
    pub pairs: u32,
    pub limit: u32,
    pub buckets: u32,
    pub level: u32,
    pub split: u32,
    pub pages: u32,
    pub free: u32,
}

impl Opened {
    /// The numbers.
    pub(crate) fn numbers(&self) -> Numbers
        ensures { HasNumbers self.now result }
    {
        let stat = self.db.stat();
        Numbers {
            pairs: stat.pairs,
            limit: stat.limit,
            buckets: stat.buckets,
            level: stat.level,
            split: stat.split,
            pages: stat.pages,
            free: stat.free,
        }
    }

    /// The number of the version of its format.
    pub(crate) fn version_number(&self) -> i32
        ensures { result ≡ pos (version_number (meta_kept self.now.db).bounds.version) }
    {
        match self.db.version() {
            Version::V1 => 1,
            Version::V2 => 2,
        }
    }
}
