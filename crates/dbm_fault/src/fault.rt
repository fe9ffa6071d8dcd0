// What a call may be refused by.
ghost use Rattle.std.specs.Prelude.{◌≡◌, pos};

use page_io::PageFault;
use thiserror::Error;

/// Why a call or an opening was refused. Each fault has a number, which `dbm_error` gives.
#[derive(Clone, Copy, Debug, PartialEq, Eq, Error)]
pub enum Fault {
    /// 1: a growth was refused.
    #[error("out of memory")]
    Memory,
    /// 2: a read, a write or a sync of the device failed.
    #[error("the device failed")]
    Device,
    /// 3: an earlier fault of the device left a change in doubt; the database has to be opened
    /// again.
    #[error("a change is in doubt")]
    Broken,
    /// 4: a change of a database that was opened for reading.
    #[error("opened for reading only")]
    ReadOnly,
    /// 5: the pair is longer than the version of the file allows.
    #[error("the pair is too long")]
    TooLong,
    /// 6: a new key where there are as many pairs as the limit allows.
    #[error("the database is full")]
    Full,
    /// 7: a nextkey with no pass begun.
    #[error("no pass was begun")]
    NoPass,
    /// 8: the file has no room for the change.
    #[error("no room in the file")]
    NoRoom,
    /// 9: the file is not as the format says.
    #[error("the file is damaged")]
    Damaged,
    /// 10: the file is no database.
    #[error("not a database")]
    NotADatabase,
    /// 11: the file is of a version that is not known.
    #[error("unknown version")]
    Version,
    /// 12: the device has too few sectors.
    #[error("the device is too small")]
    TooSmall,
    /// 13: a limit outside 1 to 1,000,000.
    #[error("the limit is out of range")]
    BadLimit,
    /// 14: there is no such file.
    #[error("no such database")]
    Missing,
    /// 15: the database is there already.
    #[error("the database exists")]
    Exists,
}

impl Fault {
    ghost use Rattle.dbm_model.specs.Calls.{number_of};
    ghost use Rattle.dbm_fault.specs.Faults.{fault_of};

    /// The number of the fault, 1 to 15.
    pub fn number(self) -> i32
        ensures { result ≡ pos (number_of (fault_of self)) }
    {
        match self {
            Fault::Memory => 1,
            Fault::Device => 2,
            Fault::Broken => 3,
            Fault::ReadOnly => 4,
            Fault::TooLong => 5,
            Fault::Full => 6,
            Fault::NoPass => 7,
            Fault::NoRoom => 8,
            Fault::Damaged => 9,
            Fault::NotADatabase => 10,
            Fault::Version => 11,
            Fault::TooSmall => 12,
            Fault::BadLimit => 13,
            Fault::Missing => 14,
            Fault::Exists => 15,
        }
    }
}

impl From<PageFault> for Fault {
    ghost use Rattle.dbm_fault.specs.Faults.{fault_from};

    ghost from_gives = { λ page fault. fault ≡ fault_from page };

    fn from(fault: PageFault) -> Fault {
        match fault {
            PageFault::Memory => Fault::Memory,
            PageFault::Device => Fault::Device,
            PageFault::Broken => Fault::Broken,
            PageFault::ReadOnly => Fault::ReadOnly,
            PageFault::NoRoom => Fault::NoRoom,
            PageFault::Damaged => Fault::Damaged,
        }
    }
}
