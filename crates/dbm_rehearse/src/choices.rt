// Which of the unsynced writes have happened at a stop.
use rand_xoshiro::SplitMix64;
use rand_xoshiro::rand_core::{Rng, SeedableRng};
use std::alloc::{AllocError, Global};

/// A choice of the unsynced writes that have happened.
#[derive(Clone, Copy, Debug)]
pub enum Choice {
    Nothing,
    All,
    /// Each second one, the oldest among them.
    Alternate,
    /// Those that a generator marks.
    Drawn,
}

pub const CHOICES: [Choice; 4] = [
    Choice::Nothing,
    Choice::All,
    Choice::Alternate,
    Choice::Drawn,
];

/// The marks of so many writes. The seed is for the generator.
pub fn marks(
    alloc: Global,
    choice: Choice,
    writes: usize,
    seed: u64,
) -> Result<Vec<bool>, AllocError> {
    let mut generator = SplitMix64::seed_from_u64(seed);
    let mut marks = Vec::with_capacity(alloc, writes)?;
    for i in 0..writes {
        marks.push(match choice {
            Choice::Nothing => false,
            Choice::All => true,
            Choice::Alternate => i % 2 == 0,
            Choice::Drawn => generator.next_u64() % 2 == 0,
        })?;
    }
    Ok(marks)
}
