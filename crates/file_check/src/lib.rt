//! Whether a file is a good one, page by page: the chain of each bucket looked at as a whole, the
//! free list, and which pages were seen, each once.
#![tactic(auto)]

mod buckets;
mod chain_reading;
mod chains;
mod contents;
mod file;
mod flaws;
mod free;
mod keys;
mod marking;
mod marks;
mod reading;
mod segments;
mod sizes;
mod unmarked;

pub use file::verify;
pub use flaws::{Flaw, Rule, Unwatched, Watch};
