//! What the calls mean for a placement. What each law says stands in `specs/Placements.antt`.

ghost use Rattle.bucket_chain.specs.Placements.{ChainsArePlaced, EntriesArePlacements, PutsArePlacements, RemovalsArePlacements};

/// The chain of each bucket of a sound placement meets what the calls ask of a chain.
pub fn chains_are_placed()
    ensures { ChainsArePlaced }
{}

/// What `put_record` leaves of a bucket's chain is the placement's own put of an entry.
pub fn entries_are_placements()
    ensures { EntriesArePlacements }
{}

/// What `put` leaves of a bucket's chain is the placement's own put.
pub fn puts_are_placements()
    ensures { PutsArePlacements }
{}

/// What `remove` leaves of a bucket's chain is the placement's own delete.
pub fn removals_are_placements()
    ensures { RemovalsArePlacements }
{}
