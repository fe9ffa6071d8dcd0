//! The first page that has no mark.

ghost use Rattle.std.specs.Prelude.{◌≡◌, ◌<◌, ◌≤◌, false, true, length, slice_index_or};

/// The first page of the file that is not marked, its end where all are.
pub fn first_unmarked(marks: &[bool], end: u32) -> u32
    requires { end ≤ length marks.now }
    ensures { result < end → slice_index_or marks.now result true ≡ false }
{
    for n in 1..end {
        if !marks[n as usize] {
            return n;
        }
    }
    end
}
