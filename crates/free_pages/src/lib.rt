//! The free pages of a file, and its end.
#![tactic(auto)]

mod free_list;
mod free_state;

pub use free_list::{give, read_free, take};
pub use free_state::FreeState;
