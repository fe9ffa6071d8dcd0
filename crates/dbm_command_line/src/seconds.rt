// How long to wait, as a text says.
ghost use Rattle.dbm_command_line.specs.Seconds.{SaysSeconds};

use crate::names::{LONGEST_WAIT, USUAL_WAIT};

/// How many seconds a text says, where these are no more than `--wait` takes. Of an empty one they are
/// those where nobody says how long, since a variable that is set to nothing says nothing.
pub fn seconds_in(text: &str) -> Option<u32>
    ensures { SaysSeconds text.now result }
{
    if text.is_empty() {
        return Some(USUAL_WAIT);
    }
    match text.parse::<u32>() {
        Ok(seconds) if seconds <= LONGEST_WAIT => Some(seconds),
        _ => None,
    }
}
