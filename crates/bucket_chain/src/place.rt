//! Where a pair stands.

/// A place of a chain: a page, and a slot of it, counted from 0.
#[derive(Clone, Copy, Debug, PartialEq, Eq)]
pub struct Place {
    pub page: u32,
    pub slot: usize,
}
