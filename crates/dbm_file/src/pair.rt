//! A pair to be stored.

/// A key and its content, as `store_many` takes them (POSIX: a datum each).
#[derive(Debug, PartialEq, Eq, Drop)]
pub struct Pair {
    pub key: Vec<u8>,
    pub content: Vec<u8>,
}
