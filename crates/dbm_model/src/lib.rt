//! The map that a database is to its callers: pairs, calls, states and steps, and what is left by
//! sessions that were stopped anywhere, with their laws. There is no code here: a function of this
//! crate has an empty body, and its clause is the law.
#![tactic(auto)]

mod call_laws;
mod session_laws;
mod version_laws;

pub use call_laws::{
    bounds_are_kept, broken_stays, fault_counts_rise, faults_have_numbers, first_fault_is_kept,
    keys_of_one_hash_are_ordered, only_acknowledged_changes, only_changes_break,
    passes_are_complete, passes_survive_changes, refusals_are_due, room_is_known, room_stays,
    run_examples, settings_stay, stores_put_all,
};
pub use session_laws::{
    acknowledged_changes_stay, device_is_the_cause, doubt_is_settled, session_examples,
    sessions_keep_room,
};
pub use version_laws::{pairs_by_version, upgrades_are_due};
