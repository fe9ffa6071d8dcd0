//! How a device is opened: found, made, emptied or refused, with the fault of each case.
#![tactic(auto)]

mod emptying;
mod file;
mod making;
mod open_how;
mod opening;
mod sizes;

pub use dbm_fault::Fault;
pub use file::OpenFile;
pub use open_how::{Access, OpenHow};
pub use opening::open_file;
pub use sizes::{needed_sectors, needed_sectors_of};
