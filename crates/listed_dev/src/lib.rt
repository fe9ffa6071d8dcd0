//! A device that lists its writes and syncs for somebody else to carry out.
#![tactic(auto)]

mod listed_dev;

pub use listed_dev::ListedDev;
