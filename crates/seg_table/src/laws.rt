//! What the table means for a placement. What the law says stands in `specs/Placements.antt`.

ghost use Rattle.seg_table.specs.Placements.{PlacementsHaveHeads};

/// The segment pages of a sound placement say the head page of each bucket.
pub fn placements_have_heads()
    ensures { PlacementsHaveHeads }
{}
