//! A store of pages in memory, for a group of changes that another store commits at once.
#![tactic(auto)]

mod changed_pages;
mod changes;
mod group_pages;
mod loan;

pub use group_pages::{GroupEnd, GroupPages};
pub use loan::Loan;
