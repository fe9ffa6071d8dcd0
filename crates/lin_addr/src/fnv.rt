// FNV-1a, 32 bits.
ghost use Rattle.std.specs.Prelude.{◌≡◌};
ghost use Rattle.page_model.specs.Address.{hash_of};

/// The hash of a key: FNV-1a, 32 bits.
#[tactic(auto, unfolding(dbm_model::specs::KeyOrder::hash_of))]
pub fn hash(key: &[u8]) -> u32
    ensures { result ≡ hash_of key.now }
{
    let mut hash: u32 = 2_166_136_261;
    for byte in key {
        hash = (hash ^ u32::from(*byte)).wrapping_mul(16_777_619);
    }
    hash
}
