//! The slots of a bucket page.

ghost use Rattle.std.specs.Prelude.{◌≡◌, ◌+◌, ◌<◌};
ghost use Rattle.page_model.specs.Slots.{is_far_slot, key_size, bytes_size, told_far, key_number, content_number};
ghost use Rattle.slot_page.specs.Slots.{as_spelled};

use arrayvec::ArrayVec;

/// The top bit of a slot's second number. It is set where the content is far.
pub const FAR_BIT: u16 = 32_768;

/// The bytes behind the key of a far record. They are the number of a page.
pub const FAR_BYTES: usize = 4;

/// The longest key of a far record.
pub const MAX_FAR_KEY: usize = 1023;

/// The longest near pair, key and content together.
pub const MAX_NEAR: usize = 2026;

/// Where a record begins in its page, and two numbers. Of a near record they are the lengths of its
/// key and of its content. Of a far one they are the length of its key plus `FAR_BIT`, and the
/// length of its content.
#[derive(Clone, Copy, Default)]
pub struct Slot {
    pub offset: u16,
    pub key_len: u16,
    pub content_len: u16,
}

impl Slot {
    /// The slot of a record that begins at `offset`. The lengths are those of its key and of the
    /// bytes behind it. Where its content is far, `far` is the length of that content.
    pub fn new(offset: u16, key_len: u16, bytes_len: u16, far: Option<u16>) -> Slot
        requires { key_len < FAR_BIT }
        ensures offset { result.offset ≡ offset }
        ensures key { result.key_len ≡ key_number key_len far }
        ensures content { result.content_len ≡ content_number bytes_len far }
    {
        match far {
            None => Slot {
                offset,
                key_len,
                content_len: bytes_len,
            },
            Some(long) => Slot {
                offset,
                key_len: FAR_BIT + key_len,
                content_len: long,
            },
        }
    }

    /// Whether the content is far.
    pub fn is_far(self) -> bool
        ensures { result ≡ is_far_slot (as_spelled self) }
    {
        self.key_len >= FAR_BIT
    }

    /// The length of the key.
    pub fn key_size(self) -> usize
        ensures { result ≡ key_size (as_spelled self) }
    {
        (self.key_len % FAR_BIT) as usize
    }

    /// How many bytes of the record stand behind the key.
    pub fn bytes_size(self) -> usize
        ensures { result ≡ bytes_size (as_spelled self) }
    {
        if self.is_far() {
            FAR_BYTES
        } else {
            self.content_len as usize
        }
    }

    /// The length of the content, where it is far.
    pub fn far_len(self) -> Option<u16>
        ensures { result ≡ told_far (as_spelled self) }
    {
        if self.is_far() {
            Some(self.content_len)
        } else {
            None
        }
    }

    /// Where the key ends in the page.
    pub fn key_end(self) -> usize
        ensures { result ≡ self.offset + key_size (as_spelled self) }
    {
        self.offset as usize + self.key_size()
    }
}

/// The slots of a page: so many fit.
pub type Slots = ArrayVec<Slot, 338>;
