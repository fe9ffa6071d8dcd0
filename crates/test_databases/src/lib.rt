//! Databases to test with: how they are opened, filled and looked through, lists of calls as text,
//! and pages worked out by hand. The crates of tests share it, so that it is proved
//! once.
#![tactic(auto)]

pub mod calls;
pub mod databases;
pub mod lists;
pub mod pages;
