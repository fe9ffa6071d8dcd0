//! The records of pairs in one page: a bucket's head page or an overflow page.
#![tactic(auto)]

mod bucket;
mod laws;
mod layout;
mod marks;
mod reading;
mod slot;

pub use bucket::{
    add, add_far, add_record, decode, empty, far_at, find, fits, is_bucket_page, pair_at, remove,
    room, set_next,
};
pub use laws::{one_list, one_spelling, reads_as_bucket};
pub use slot::{MAX_NEAR, Slot, Slots};
