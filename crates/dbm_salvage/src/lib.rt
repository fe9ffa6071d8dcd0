//! What can be read of a damaged file: the pairs of each page that reads as a bucket page.
#![tactic(auto)]

mod contents;
mod images;
mod looks;
mod reading;
mod records;
mod salvage;
mod trouble;

pub use images::Images;
pub use salvage::{Salvaged, salvage_engine};
pub use trouble::{Trouble, Troubles, Unshown};
