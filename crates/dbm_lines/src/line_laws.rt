// A law of lines, which stands in `specs/LineLaws.antt`.
ghost use Rattle.dbm_lines.specs.LineLaws.{DumpsAreRead, DumpsReadBack};

/// The lines of pairs that a file of either version may have say these pairs, in either form: the
/// bounds of lines are wide enough. None of them is passed over.
pub fn dumps_read_back()
    ensures say { DumpsReadBack }
    ensures read { DumpsAreRead }
{}
