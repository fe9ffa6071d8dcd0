//! A log of two slots, which commits in a row take by turns: each is whole or absent with one sync.
#![tactic(auto)]

mod finding;
mod homes;
mod recovering;
mod redoing;
mod resuming;
mod rewriting;
mod spelling;
mod steps;

pub use finding::FoundLog;
pub use homes::{write_homes, write_homes_but};
pub use recovering::{read_slot, recover_log};
pub use resuming::{RestingLog, resume_log};
pub use rewriting::write_log_back;
pub use steps::{log_first, log_next};
