// Why a device does not open.
use thiserror::Error;

/// Why a device does not open as a store of pages.
#[derive(Clone, Copy, Debug, PartialEq, Eq, Error)]
pub enum OpenFault {
    /// A growth of memory was refused. Only opening for reading takes memory, for the pages of
    /// a commit that waits.
    #[error("out of memory")]
    Memory,
    /// A call of the device failed.
    #[error("the device failed")]
    Device,
    /// The first sector is all zeros.
    #[error("the device is blank")]
    Blank,
    /// The first sector has another magic.
    #[error("the device holds something else")]
    NotOurs,
    /// The commit sector or a redo image breaks a rule of the format, or the log has no commit.
    #[error("the file is damaged")]
    Damaged,
}
