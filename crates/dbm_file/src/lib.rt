//! A database of pairs, as the dbm interface has it, in a linear hash file over a device of
//! sectors.
#![tactic(auto)]

mod calls;
mod changing;
mod database;
mod groups;
mod named;
mod octets;
mod opening;
mod pair;
mod pass;
mod passing;
mod reopening;
mod running;
mod serving;
mod syncing;
mod verifying;

pub use calls::{Call, DeleteReply, Reply, Stat, StoreMode, StoreReply};
pub use database::{Database, Db};
pub use file_check::{Flaw, Rule, Unwatched, Watch};
pub use file_opening::{Access, Fault, OpenHow, needed_sectors, needed_sectors_of};
pub use named::{FILE_SECTORS, Refusal, dbm_open, open_named, open_path, refuse_pipe};
pub use octets::Octets;
pub use page_io::Version;
pub use pair::Pair;
pub use redo_area::CommitKind;
pub use running::run;
