//! The calls of ndbm.h with the statuses that C gets: 0 and 1, or minus the number of a fault.
#![tactic(auto)]

mod changes;
mod closing;
mod group;
mod looks;
mod reads;
mod status;

pub use changes::{delete, store, sync, upgrade};
pub use closing::close;
pub use group::Group;
pub use looks::verify;
pub use reads::{CONTENT_ROOM, KEY_ROOM, fetch, firstkey, nextkey};
pub use status::refusal;
