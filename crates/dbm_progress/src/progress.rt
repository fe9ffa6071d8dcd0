// What is told of a long command.

/// What a command does step by step.
#[derive(Clone, Copy, Debug, PartialEq, Eq)]
pub enum Work {
    /// A load stores the pairs of its lines.
    LinesLoaded,
    /// A list reads the keys.
    KeysRead,
    /// A dump reads the pairs.
    PairsRead,
    /// A list writes the keys.
    KeysWritten,
    /// A dump writes the pairs.
    PairsWritten,
    /// A rehearsal stops its session.
    StopsMade,
    /// A verify looks at the buckets.
    BucketsVerified,
}

impl Work {
    /// Its steps, as they are counted on a terminal.
    pub(crate) fn steps(self) -> &'static str {
        match self {
            Work::LinesLoaded => "lines loaded",
            Work::KeysRead => "keys read",
            Work::PairsRead => "pairs read",
            Work::KeysWritten => "keys written",
            Work::PairsWritten => "pairs written",
            Work::StopsMade => "stops made",
            Work::BucketsVerified => "buckets verified",
        }
    }
}

/// Is told how far a command is. Nothing is known of what it does with that, so a command does the
/// same whatever it is told to.
pub trait Progress {
    /// One more step of this work is done.
    fn step(&mut self, work: Work);

    /// Takes away what is shown, since something else may now be written where it stands.
    fn clear(&mut self);
}

/// Tells nobody.
#[derive(Clone, Copy, Debug, PartialEq, Eq)]
pub struct Silent;

impl Progress for Silent {
    fn step(&mut self, _work: Work) {}

    fn clear(&mut self) {}
}
