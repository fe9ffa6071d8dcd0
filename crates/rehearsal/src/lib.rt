//! Sessions of a database on a device: each opens it, makes its calls and closes it.
#![tactic(auto)]

mod counting;
mod cutting;
mod rehearsing;
mod sessions;

pub use counting::Counting;
pub use cutting::{Stopped, stopped_session};
pub use rehearsing::{Stage, blank_devices_hold_none, rehearse};
pub use sessions::{Ending, Opening, session};
