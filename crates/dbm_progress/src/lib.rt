//! How far a long command is: told to whoever waits for it, where that is seen.
#![tactic(auto)]

mod progress;
mod terminal;

pub use progress::{Progress, Silent, Work};
pub use terminal::{Terminal, Terminals};
