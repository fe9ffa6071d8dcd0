//! The commits of a store of pages over a device, whole or absent: the commit sector, redo images,
//! home writes and the making of a new file, and the store over them.
#![tactic(auto)]

mod area;
mod arming;
mod committing;
mod converting;
mod format;
mod header;
mod laws;
mod logging;
mod open_fault;
mod pager;
mod reading;
mod recovery;
mod resuming;
mod rewriting;
mod settling;
mod steps;
mod turning;

pub use converting::change_kind;
pub use header::{CommitKind, Header, kind_of, read_header};
pub use laws::sectors_are_read_exactly;
pub use open_fault::OpenFault;
pub use pager::Pager;
pub use reading::{SeenFile, read_log};
pub use rewriting::write_back;
pub use turning::change_turn;
