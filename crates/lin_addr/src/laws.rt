//! The order of the buckets. What each law says stands in `specs/Intervals.antt`.

ghost use Rattle.lin_addr.specs.Intervals.{AreIntervals, BeginsWithZero};
ghost use Rattle.lin_addr.specs.Shapes.{shape_of};
ghost use Rattle.lin_addr.specs.declared.growth.Shape.{Shape};

/// In each shape the buckets are intervals of the ranks, of which bucket 0 has the lowest ones.
pub fn buckets_are_intervals()
    ensures intervals { (shape : Shape) → AreIntervals (shape_of shape) }
    ensures from_zero { (shape : Shape) → BeginsWithZero (shape_of shape) }
{}
