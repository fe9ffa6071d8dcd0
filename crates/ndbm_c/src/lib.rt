//! What the functions of ndbm.h stand on: the calls of `ndbm_calls` on a database that C holds by a
//! handle, over a device that C serves. A call on a handle that holds no database has the status of
//! `Broken` and does nothing.
#![tactic(auto)]

mod changes;
mod handle;
mod held;
mod how;
mod looks;
mod numbers;
mod opening;
mod parts;
mod reads;
mod serving;
mod sharing;

pub use sharing::{periods_are_a_chain, rests_on_disk};
