//! Where the fields of a bucket page stand.

/// Own number, four bytes.
pub const OWN_AT: usize = 0;

/// Kind, one byte.
pub const KIND_AT: usize = 4;

/// Slot count, two bytes.
pub const COUNT_AT: usize = 6;

/// Next page, four bytes.
pub const NEXT_AT: usize = 8;

/// Low, two bytes.
pub const LOW_AT: usize = 12;

/// Where the slots begin.
pub const HEADER_LEN: usize = 16;

/// The bytes of a slot.
pub const SLOT_LEN: usize = 6;

/// The kind of a bucket's head page.
pub const HEAD: u8 = 3;

/// The kind of an overflow page.
pub const OVERFLOW: u8 = 4;
