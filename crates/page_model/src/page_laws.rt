// Laws of spelling and reading pages.
ghost use Rattle.std.specs.Prelude.{◌≡◌, ◌≢◌, ◌↔◌, ℕ, List, length};
ghost use Rattle.page_model.specs.Pages.{NumberedBody, Other};
ghost use Rattle.page_model.specs.Spelling.{spell};
ghost use Rattle.page_model.specs.Reading.{body_of};
ghost use Rattle.page_model.specs.Valid.{IsValidBody};

/// What is spelled is read back.
pub fn reads_back()
    ensures { (s : NumberedBody) → IsValidBody s → body_of s.number (spell s) ≡ s.body }
{}

/// What is read, unless it is `Other`, is spelled so.
pub fn is_spelled()
    ensures { (n : ℕ) (bytes : List ℕ) → body_of n bytes ≢ Other
        → bytes ≡ spell (record { number = n; body = body_of n bytes }) }
{}

/// Bytes are the spelling of a page exactly where they are read as it.
pub fn reads_exactly()
    ensures { (s : NumberedBody) (bytes : List ℕ) → IsValidBody s
        → (bytes ≡ spell s) ↔ (body_of s.number bytes ≡ s.body) }
{}

/// A spelled page is 2,048 bytes.
pub fn fills_a_page()
    ensures { (s : NumberedBody) → IsValidBody s → length (spell s) ≡ 2048 }
{}
