//! Where a key belongs: its hash, the bucket of a hash while buckets are added one at a time
//! (linear hashing), and the order of the hashes in which each bucket is an interval.
#![tactic(auto)]

mod fnv;
mod growth;
mod laws;
mod order;

pub use fnv::hash;
pub use growth::Shape;
pub use laws::buckets_are_intervals;
pub use order::{Ranked, rank};
