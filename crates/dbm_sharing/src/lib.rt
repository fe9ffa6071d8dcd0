//! Several handles over one map: the map is shared, and each handle has its own error, pass and
//! access. There is no code here: a function of this crate has an empty body, and its clause is the
//! law.
#![tactic(auto)]

mod sharing_laws;

pub use sharing_laws::{
    chains_go_on, changes_are_shared, handles_go_on, handles_open_anew, replies_are_of_the_map,
    shared_changes_stay, shared_passes_go_on, shared_room_is_known, sharing_examples,
    views_are_runs,
};
