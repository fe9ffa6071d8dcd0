// The line that a load stopped at.
ghost use Rattle.std.specs.Prelude.{◌≡◌};
ghost use Rattle.dbm_tool.specs.Commands.{bad_line_at, refused_line_at};

use dbm_command_line::Spelling;
use dbm_engines::{BadLine, LoadStop};

/// The first line of a load that was not stored, where the database refused to store it.
pub fn refused_line(stop: Option<LoadStop>) -> Option<u64>
    ensures { result ≡ refused_line_at stop }
{
    match stop {
        Some(LoadStop::Refused { line, .. }) => Some(line),
        _ => None,
    }
}

/// Why the line of a load is bad, where one is, and how its words are spelled.
pub fn bad_line(stop: Option<LoadStop>, spelling: Spelling) -> Option<(BadLine, Spelling)>
    ensures { result ≡ bad_line_at stop spelling }
{
    match stop {
        Some(LoadStop::Bad { why, .. }) => Some((why, spelling)),
        _ => None,
    }
}
