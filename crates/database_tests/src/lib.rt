//! Tests of a database, of what the built program doesn't show.
#![tactic(auto)]

#[cfg(test)]
mod address_tests;
#[cfg(test)]
mod devices;
#[cfg(test)]
mod folder_tests;
#[cfg(test)]
mod hows;
#[cfg(test)]
mod making_tests;
#[cfg(test)]
mod marks;
#[cfg(test)]
mod opening_tests;
#[cfg(test)]
mod room_tests;
#[cfg(test)]
mod run_tests;
#[cfg(test)]
mod stopping;
