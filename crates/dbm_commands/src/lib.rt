//! What the commands do with a database that is open, and how each ends.
#![tactic(auto)]

mod ending;
mod outcomes;
mod pairs;
mod printing;
mod verifying;
mod words;

pub use ending::{close_after, flush_after};
pub use outcomes::{Failure, Outcome};
pub use pairs::{delete, fetch, store, upgrade};
pub use printing::{print_format, stat};
pub use verifying::verify;
pub use words::bytes_of;
