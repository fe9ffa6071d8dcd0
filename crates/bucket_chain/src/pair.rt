//! A record of its own, read from a chain or to be stored in one.

/// A key and a content. Where the content is far, it is the four bytes of its first page.
#[derive(Debug, PartialEq, Eq, Drop)]
pub struct Pair {
    pub key: Vec<u8>,
    pub content: Vec<u8>,
    /// The true length of a far content.
    pub far: Option<u16>,
}
