//! What each page of a file says, and which page is where: pages with their bytes, and placements
//! with no bytes, with their laws. There is no code here: a function of this crate has an empty
//! body, and its clause is the law.
#![tactic(auto)]

mod body_laws;
mod page_laws;
mod placement_laws;

pub use body_laws::{
    bodies_are_of_version, bodies_are_valid, delete_rewrites, deleted_stands, extend_rewrites,
    flat_is_contents, good_pages_stand, meta_rewrites, one_map, one_meaning, page_examples,
    pages_have_one_meaning, pages_read_exactly, put_entry_rewrites, put_rewrites, raised_rewrites,
    stored_stands,
};
pub use page_laws::{fills_a_page, is_spelled, reads_back, reads_exactly};
pub use placement_laws::{
    absent_delete_keeps, addresses_are_below, counts_keys, delete_removes, delete_stays_good,
    fresh_is_good, growing_moves_one_bucket, level_is_low, looks_in_one_chain, map_holds_bytes,
    map_is_allowed, once_is_permutation, pairs_are_allowed, placement_examples, raised_is_good,
    replace_inserts, split_keeps, store_stays_good, store_takes_few,
};
