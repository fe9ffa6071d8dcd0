// Why a line says no pair.
ghost use Rattle.std.specs.Prelude.{◌≡◌, ◌⊎◌, ◌↔◌, ◌∷◌, [], IsTrue, None};
ghost use Rattle.dbm_lines.specs.Words.{word_bytes};
ghost use Rattle.dbm_lines.specs.BadLines.{HasPart, IsBadBy, IsBadPart, IsOddWord};
ghost use Rattle.dbm_lines.specs.Forms.{pair_in};

use crate::bounds::longest_in;
use crate::forms::TextForm;
use crate::splitting::split_part;

/// Why a line says no pair.
#[derive(Clone, Copy, Debug, PartialEq, Eq)]
pub enum BadLine {
    /// It has more bytes than a line of its form may have.
    TooLong,
    /// Nothing stands between a key and a content.
    OnePart,
    /// Something stands behind the content, and what separates them between.
    ManyParts,
    /// A word has no digits.
    NoDigits,
    /// A word has an odd number of digits.
    OddDigits,
    /// A word has a byte that is no hexadecimal digit.
    NotADigit,
    /// A field has a backslash with no escape behind it.
    BadEscape,
}

/// Why a line of this form, without its line feed, says no pair. Of several causes the first one of
/// `BadLine` is told.
pub fn why_bad(form: TextForm, line: &[u8]) -> BadLine
    ensures { pair_in form line.now ≡ None → IsBadBy form line.now result }
{
    if line.len() > longest_in(form) {
        return BadLine::TooLong;
    }
    let Some((key, content)) = split_part(form, line) else {
        return BadLine::OnePart;
    };
    if split_part(form, content).is_some() {
        return BadLine::ManyParts;
    }
    match form {
        TextForm::Hexadecimal => why_bad_words(key, content),
        TextForm::Escaped => BadLine::BadEscape,
    }
}

/// Why one of two words stands for no bytes.
fn why_bad_words(key: &[u8], content: &[u8]) -> BadLine
    ensures { (word_bytes key.now ≡ None) ⊎ (word_bytes content.now ≡ None)
        → HasPart (IsBadPart TextForm.Hexadecimal result) (key.now ∷ content.now ∷ []) }
{
    if key.is_empty() || content.is_empty() {
        return BadLine::NoDigits;
    }
    if is_odd(key) || is_odd(content) {
        return BadLine::OddDigits;
    }
    BadLine::NotADigit
}

/// Whether a word has an odd number of digits.
fn is_odd(word: &[u8]) -> bool
    ensures { IsTrue result ↔ IsOddWord word.now }
{
    word.len() % 2 == 1 && word != b".".as_slice()
}
