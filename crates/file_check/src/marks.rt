//! Marks of pages, by their numbers.

ghost use Rattle.std.specs.Prelude.{◌≡◌, ◌↔◌, ◌≤◌, ◌++◌, ◌∷◌, [], List, ℕ, length, IsTrue};
ghost use Rattle.file_check.specs.Marks.{AreMarked, MayBeSeen, IsEachSeen};

/// Takes every mark away.
pub fn clear(marks: &mut [bool])
    ensures length { length marks.new ≡ length marks.old }
    ensures none { (end : ℕ) → AreMarked marks.new end [] }
{
    marks.fill(false);
}

/// Marks page `n` of a file that ends before page `end`. It answers whether that is one of its
/// pages and was not marked before; if not, nothing changes.
pub fn mark(marks: &mut [bool], n: u32, end: u32) -> bool
    requires { end ≤ length marks.old }
    ensures length { length marks.new ≡ length marks.old }
    ensures marked { (seen : List ℕ) → AreMarked marks.old end seen → IsTrue result
        → AreMarked marks.new end (seen ++ n ∷ []) }
    ensures may_be { (seen : List ℕ) → AreMarked marks.old end seen
        → IsTrue result ↔ MayBeSeen end (seen ++ n ∷ []) }
{
    if n == 0 || n >= end || marks[n as usize] {
        return false;
    }
    marks[n as usize] = true;
    true
}

/// Whether each page of the file is marked.
pub fn are_all_marked(marks: &[bool], end: u32) -> bool
    requires { end ≤ length marks.now }
    ensures { (seen : List ℕ) → AreMarked marks.now end seen
        → IsTrue result ↔ IsEachSeen end seen }
{
    for n in 1..end as usize {
        if !marks[n] {
            return false;
        }
    }
    true
}
