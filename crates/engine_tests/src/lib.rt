//! Tests of rehearsals, and of the steps that loads, dumps and lists tell.
#![tactic(auto)]

#[cfg(test)]
mod engines;
#[cfg(test)]
mod kept_tests;
#[cfg(test)]
mod rehearse_tests;
#[cfg(test)]
mod step_tests;
