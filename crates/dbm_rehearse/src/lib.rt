//! The engine of a rehearsal: a script's calls on a device in memory that is stopped anywhere.
#![tactic(auto)]

mod bounds;
mod changes;
mod choices;
mod copying;
mod engine;
mod finding;
mod reading;
mod report;
mod stopping;

pub use bounds::Bounds;
pub use changes::{Change, Pairs, is_kept};
pub use copying::device_with;
pub use engine::rehearse_script;
pub use report::Rehearsed;
