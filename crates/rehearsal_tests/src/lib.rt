//! Tests of sessions on a device in memory, each of them stopped.
#![tactic(auto)]

#[cfg(test)]
mod drawn_tests;
#[cfg(test)]
mod stop_tests;
#[cfg(test)]
mod tables;
#[cfg(test)]
mod upgrade_tests;
