//! The order in which a pass gives the keys: by the bits of their hashes from the lowest up, then
//! by their bytes.

ghost use Rattle.std.specs.Prelude.{◌≡◌, ◌↔◌, ◌<◌, ◌^◌, IsTrue};
ghost use Rattle.dbm_model.specs.KeyOrder as order;
ghost use Rattle.dbm_model.specs.KeyOrder.{hash_of, ComesBefore};

use crate::hash;

/// The bits of a hash in reverse order. The ranks are the numbers below 2^32, each that of one
/// hash, and the hash of a rank is the rank of that number.
pub fn rank(hash: u32) -> u32
    ensures rank { result ≡ order.rank hash }
    ensures back { order.rank result ≡ hash }
{
    hash.reverse_bits()
}

/// A key with the rank of its hash, which is taken once.
#[derive(Clone, Copy)]
pub struct Ranked<'a> {
    pub key: &'a [u8],
    pub rank: u32,
    pub ghost is_rank: { rank ≡ order.rank (hash_of key.now) },
}

impl<'a> Ranked<'a> {
    /// The key with its rank.
    pub fn of(key: &'a [u8]) -> Ranked<'a>
        ensures { result.key.now ≡ key.now }
    {
        Ranked {
            key,
            rank: rank(hash(key)),
        }
    }

    /// Whether the key comes before another one in a pass.
    pub fn comes_before(&self, other: &Ranked<'_>) -> bool
        ensures { IsTrue result ↔ ComesBefore self.now.key.now other.now.key.now }
    {
        self.rank < other.rank || (self.rank == other.rank && self.key < other.key)
    }
}
