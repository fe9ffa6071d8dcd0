//! The chain of a bucket, its head page and its overflow pages: walks along it, which look a key up,
//! find the next key of a pass and load all records, and changes of it.
#![tactic(auto)]

mod content_lookups;
mod laws;
mod leasts;
mod link;
mod loads;
mod lookups;
mod pair;
mod place;
mod puts;
mod ranked_page;
mod removes;
mod staging;
mod stores;

pub use content_lookups::{FoundContent, NearContent, lookup_content};
pub use laws::{
    chains_are_placed, entries_are_placements, puts_are_placements, removals_are_placements,
};
pub use leasts::least_behind;
pub use link::{HEAD, OVERFLOW, read_link};
pub use loads::load_all;
pub use lookups::lookup;
pub use pair::Pair;
pub use place::Place;
pub use puts::{put, put_record};
pub use ranked_page::RankedPage;
pub use removes::remove;
pub use stores::store_all;
