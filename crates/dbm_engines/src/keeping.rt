//! What is done with the pairs of lines that share a commit.
ghost use Rattle.std.specs.Prelude.{◌≡◌, ◌++◌, ◌∷◌, ◌+◌, ◌||◌, [], if◌then◌else◌, is_ok, length, min, nat_le, vec_len};
ghost use Rattle.dbm_engines.specs.Batches.{held_in, most_bytes};

use crate::batch::Batch;
use dbm_file::Pair;
use std::alloc::{AllocError, Global};

/// How many bytes of keys and contents fill a batch, 4 MB.
const BATCH_BYTES: usize = 4_194_304;

impl Batch {
    /// With no pair, for so many lines.
    pub fn new(alloc: Global, group: u32) -> Batch
        ensures held { held_in result ≡ [] }
        ensures bytes { result.bytes ≡ 0 }
        ensures group { result.group ≡ group }
    {
        Batch {
            pairs: Vec::new(alloc),
            lines: Vec::new(alloc),
            bytes: 0,
            group,
            alloc,
        }
    }

    /// Whether no further line is to be put into it.
    pub fn is_full(&self) -> bool
        ensures { result ≡ (nat_le self.now.group (vec_len self.now.pairs)
            || nat_le most_bytes self.now.bytes) }
    {
        self.pairs.len() >= self.group as usize || self.bytes >= BATCH_BYTES
    }

    /// Puts a copy of the pair of this line behind the others. Where there is no memory for it, none
    /// is put there.
    pub fn keep(&mut self, line: u64, key: &[u8], content: &[u8]) -> Result<(), AllocError>
        ensures held { held_in self.new ≡ (if is_ok result
            then held_in self.old ++ (line, (key.now, content.now)) ∷ [] else held_in self.old) }
        ensures bytes { self.new.bytes ≡ (if is_ok result
            then min 18446744073709551615 (self.old.bytes + (length key.now + length content.now))
            else self.old.bytes) }
        ensures group { self.new.group ≡ self.old.group }
    {
        let bytes = key.len() + content.len();
        let key = Vec::from_slice(self.alloc, key)?;
        let content = Vec::from_slice(self.alloc, content)?;
        self.lines.reserve(1)?;
        self.pairs.push(Pair { key, content })?;
        self.lines.push(line).unwrap();
        self.bytes = self.bytes.saturating_add(bytes);
        Ok(())
    }

    /// Takes all pairs out.
    pub fn clear(&mut self)
        ensures held { held_in self.new ≡ [] }
        ensures bytes { self.new.bytes ≡ 0 }
        ensures group { self.new.group ≡ self.old.group }
    {
        self.pairs.clear();
        self.lines.clear();
        self.bytes = 0;
    }
}
