//! The pairs of lines that share a commit.
ghost use Rattle.std.specs.Prelude.{◌≡◌, vec_len};

use dbm_file::Pair;
use std::alloc::Global;

/// The pairs of lines that were read and are to be stored.
#[derive(Drop)]
pub struct Batch {
    pub pairs: Vec<Pair>,
    /// The number of the line of each pair.
    pub lines: Vec<u64>,
    /// How many bytes of keys and contents they have.
    pub bytes: usize,
    /// How many lines may share a commit.
    pub group: u32,
    pub alloc: Global,
    pub ghost numbered: { vec_len lines ≡ vec_len pairs },
}
