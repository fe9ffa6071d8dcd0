//! A linear hash table over a store of pages: looking a key up, passing over all keys, and changes,
//! each in one commit.
#![tactic(auto)]

mod changes;
mod looking;
mod passing;
mod splitting;
mod staging;

pub use changes::{delete_pair, store_pair, upgrade};
pub use looking::{find_content, find_pair};
pub use passing::next_pair;
