// How many bytes a line may have, without its line feed.
ghost use Rattle.std.specs.Prelude.{◌≡◌};
ghost use Rattle.dbm_lines.specs.Bounds.{longest_in, longest_part};

use crate::forms::TextForm;

/// The bytes that a line of words may have: those of a key of 1,023 bytes and a content of 65,535,
/// which are the most that a pair may have, are 133,117.
pub const LONGEST_LINE: usize = 139_264;

/// The bytes that a line of two fields may have: such a pair takes 266,233 of them where each byte
/// is an escape of four.
pub const LONGEST_TEXT_LINE: usize = 266_240;

/// The bytes that a line of this form may have.
pub fn longest_in(form: TextForm) -> usize
    ensures { result ≡ longest_in form }
{
    match form {
        TextForm::Hexadecimal => LONGEST_LINE,
        TextForm::Escaped => LONGEST_TEXT_LINE,
    }
}

/// The bytes that a key or a content of such a line may have: a byte takes two digits in a word,
/// and one byte at least in a field.
pub fn longest_part(form: TextForm) -> usize
    ensures { result ≡ longest_part form }
{
    match form {
        TextForm::Hexadecimal => LONGEST_LINE / 2,
        TextForm::Escaped => LONGEST_TEXT_LINE,
    }
}
