//! The meta page, and the table of segments: which page is the head of a bucket.
#![tactic(auto)]

mod laws;
mod meta;
mod segment;
mod table;

pub use laws::placements_have_heads;
pub use meta::{Meta, MetaFault, read_meta, write_meta};
pub use segment::{segment_of_one, segment_ok};
pub use table::{head_of, set_head};
