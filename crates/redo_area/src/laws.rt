// Commit sectors that are worked out by hand. There is no code here: a function has an empty body,
// and its clauses are the law.
ghost use Rattle.redo_area.specs.SectorExamples.{GoodSectors, WrongSectors};

/// What good commit sectors say, and that wrong ones are refused.
pub fn sectors_are_read_exactly()
    ensures good { GoodSectors }
    ensures wrong { WrongSectors }
{}
