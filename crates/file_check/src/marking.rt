//! The marks of pages. A page that may not be marked is told.

ghost use Rattle.std.specs.Prelude.{◌≡◌, ◌↔◌, ◌≤◌, ◌++◌, ◌∷◌, [], List, ℕ, false, length, IsTrue};
ghost use Rattle.file_check.specs.Marks.{AreMarked, MayBeSeen};
ghost use Rattle.file_check.specs.Flaws.{IsTold};

use crate::chain_reading::is_in_file;
use crate::flaws::{Flaw, Rule, Watch};

/// Marks page `n` of a file that ends before page `end`. It answers whether that is one of its
/// pages and was not marked before; if not, nothing but `watch` changes.
pub fn mark<W: Watch>(marks: &mut [bool], n: u32, end: u32, watch: &mut W) -> bool
    requires { end ≤ length marks.old }
    ensures length { length marks.new ≡ length marks.old }
    ensures marked { (seen : List ℕ) → AreMarked marks.old end seen → IsTrue result
        → AreMarked marks.new end (seen ++ n ∷ []) }
    ensures may_be { (seen : List ℕ) → AreMarked marks.old end seen
        → IsTrue result ↔ MayBeSeen end (seen ++ n ∷ []) }
    ensures told { IsTold (result ≡ false) (W.has_told watch.old) (W.has_told watch.new) }
{
    if crate::marks::mark(marks, n, end) {
        return true;
    }
    let rule = if is_in_file(n, end) {
        Rule::Twice
    } else {
        Rule::Outside
    };
    watch.flaw(Flaw { page: n, rule });
    false
}

/// Marks these pages, up to the first that is refused.
pub fn mark_all<W: Watch>(marks: &mut [bool], pages: &[u32], end: u32, watch: &mut W) -> bool
    requires { end ≤ length marks.old }
    ensures length { length marks.new ≡ length marks.old }
    ensures marked { (seen : List ℕ) → AreMarked marks.old end seen → IsTrue result
        → AreMarked marks.new end (seen ++ pages.now) }
    ensures may_be { (seen : List ℕ) → AreMarked marks.old end seen
        → IsTrue result ↔ MayBeSeen end (seen ++ pages.now) }
    ensures told { IsTold (result ≡ false) (W.has_told watch.old) (W.has_told watch.new) }
{
    for n in pages {
        if !mark(marks, *n, end, watch) {
            return false;
        }
    }
    true
}
