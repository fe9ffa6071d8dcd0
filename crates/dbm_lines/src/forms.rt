// The two forms of a text of pairs, and of a script.
ghost use Rattle.std.specs.Prelude.{◌≡◌, ◌≤◌, Some, None, vec_capacity, if◌then◌else◌};
ghost use Rattle.dbm_lines.specs.Bounds.{longest_part};
ghost use Rattle.dbm_lines.specs.Forms.{pair_in, is_passed_in};

use crate::fields::pair_in_text_line;
use crate::parsing::pair_in_line;

/// How a text says its keys and contents.
#[derive(Clone, Copy)]
pub enum TextForm {
    /// Words of hexadecimal digits, a space between them.
    Hexadecimal,
    /// Fields with escapes, a tab between them.
    Escaped,
}

/// Reads the pair of a line of this form without its line feed. Its bytes go to `key` and
/// `content`. Answers whether the line says one.
pub fn pair_in_form(form: TextForm, line: &[u8], key: &mut Vec<u8>, content: &mut Vec<u8>) -> bool
    requires key { longest_part form ≤ vec_capacity key.old }
    requires content { longest_part form ≤ vec_capacity content.old }
    ensures pair { (if result then Some (key.new.items, content.new.items) else None)
        ≡ pair_in form line.now }
    ensures key { vec_capacity key.old ≤ vec_capacity key.new }
    ensures content { vec_capacity content.old ≤ vec_capacity content.new }
{
    match form {
        TextForm::Hexadecimal => pair_in_line(line, key, content),
        TextForm::Escaped => pair_in_text_line(line, key, content),
    }
}

/// Whether a load passes over a line of this form, without its line feed: in the form of fields
/// over an empty one, and over a comment, which begins with `#`.
pub fn is_passed_in(form: TextForm, line: &[u8]) -> bool
    ensures { result ≡ is_passed_in form line.now }
{
    match form {
        TextForm::Hexadecimal => false,
        TextForm::Escaped => match line {
            [] => true,
            [first, ..] => *first == b'#',
        },
    }
}
