//! What is kept of the free pages and of the file's end.

/// The free list and the end of the file. A page is free from when it is given until it is taken.
#[derive(Clone, Copy, Debug, PartialEq, Eq)]
pub struct FreeState {
    /// The first free page, 0 for none.
    pub head: u32,
    /// How many pages are free.
    pub count: u32,
    /// The number behind that of the file's last page.
    pub file_end: u32,
}
