// Bytes as a value.
ghost use Rattle.std.specs.Prelude.{◌≡◌, List};

use std::marker::Model;

/// A string of any bytes. Made from a `Vec<u8>` and given back as one, each without memory.
#[derive(Debug, Drop)]
pub struct Octets {
    bytes: Vec<u8>,
}

impl Model for Octets {
    ghost use Rattle.std.specs.Prelude.{List, ℕ};

    ghost Value = { List ℕ };

    ghost view = { λ o. o.bytes.items };
}

impl Octets {
    /// The bytes.
    pub fn as_slice(&self) -> &[u8]
        ensures { result.now ≡ self.now }
    {
        self.bytes.as_slice()
    }
}

impl From<Vec<u8>> for Octets {
    ghost from_gives = { λ v o. o ≡ v.items };

    fn from(bytes: Vec<u8>) -> Octets {
        Octets { bytes }
    }
}

impl From<Octets> for Vec<u8> {
    ghost from_gives = { λ o v. v.items ≡ o };

    fn from(octets: Octets) -> Vec<u8> {
        let Octets { bytes } = octets;
        bytes
    }
}
