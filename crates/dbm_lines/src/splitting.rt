// Lines cut into parts.
ghost use Rattle.std.specs.Prelude.{◌≡◌, ◌==◌, ◌≤◌, ◌∷◌, [], IfSome, IfNone, length, position};
ghost use Rattle.std.specs.List.{slice_split};
ghost use Rattle.dbm_lines.specs.BadLines.{parts_in};

use crate::forms::TextForm;
use memchr::memchr;

/// The part of a line of this form before the first separator, and what is behind the separator, if
/// there is one.
pub fn split_part(form: TextForm, line: &[u8]) -> Option<(&[u8], &[u8])>
    ensures split { IfSome result
        (λ parts. parts_in form line.now ≡ parts.0.now ∷ parts_in form parts.1.now) }
    ensures shorter { IfSome result
        (λ parts. (length parts.0.now ≤ length line.now) × (length parts.1.now ≤ length line.now)) }
    ensures single { IfNone result (parts_in form line.now ≡ line.now ∷ []) }
{
    match form {
        TextForm::Hexadecimal => split_at(line, b' '),
        TextForm::Escaped => split_at(line, b'\t'),
    }
}

/// The part before the first separator, and what is behind the separator, if there is one.
pub fn split_at(line: &[u8], separator: u8) -> Option<(&[u8], &[u8])>
    ensures split { IfSome result (λ parts. slice_split (λ byte. byte == separator) line.now
        ≡ parts.0.now ∷ slice_split (λ byte. byte == separator) parts.1.now) }
    ensures shorter { IfSome result
        (λ parts. (length parts.0.now ≤ length line.now) × (length parts.1.now ≤ length line.now)) }
    ensures single { IfNone result
        (slice_split (λ byte. byte == separator) line.now ≡ line.now ∷ []) }
{
    let end = first_separator(line, separator)?;
    Some((&line[..end], &line[end + 1..]))
}

/// Where the first separator of a line stands, if there is one.
pub fn first_separator(line: &[u8], separator: u8) -> Option<usize>
    ensures { result ≡ position (λ byte. byte == separator) line.now }
{
    memchr(separator, line)
}
