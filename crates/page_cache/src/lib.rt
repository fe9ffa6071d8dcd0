//! A store of pages over another one, which keeps copies of its pages in memory.
#![tactic(auto)]

mod cached_pages;
mod page_copies;
mod page_copy;

pub use cached_pages::CachedPages;
