//! Tests of devices, of pages over them, and of stores of pages in memory.
#![tactic(auto)]

#[cfg(test)]
mod file_tests;
#[cfg(test)]
mod listed_tests;
#[cfg(test)]
mod page_tests;
#[cfg(test)]
mod sector_tests;
#[cfg(test)]
mod sectors;
#[cfg(test)]
mod stores;
