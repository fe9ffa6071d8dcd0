//! Tests of progress on a terminal.
#![tactic(auto)]

#[cfg(test)]
mod terminal_tests;
