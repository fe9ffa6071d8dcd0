//! A table that is built beside the one of its name, and takes its place whole. For that the pairs
//! of one database are stored in another one.
#![tactic(auto)]

mod aside;
mod backing;
mod building;
mod copying;
mod filling;
mod looking;
mod naming;
mod replacing;
mod stop;
mod verified;

pub use backing::{Source, backup, open_source};
pub use building::{Building, begin_building};
pub use copying::copy_engine;
pub use filling::fill;
pub use looking::look_through;
pub use replacing::{replace, resize};
pub use stop::Stop;
pub use verified::Verified;
