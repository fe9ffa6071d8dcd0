// Fields with escapes: their bytes, and the pair of a line of two.
ghost use Rattle.std.specs.Prelude.{◌≡◌, ◌≤◌, ◌<◌, ◌∷◌, ◌++◌, [], Some, IfSome, IfNone, OnOk, IsTrue, codes, length, option_and_then, position, ◌==◌, None, vec_capacity, vec_len, ◌+◌, if◌then◌else◌};
ghost use Rattle.std.specs.Option.{option_map};
ghost use Rattle.std.specs.Io.KnownBytes.{Appends};
ghost use Rattle.hex.specs.Hex.{encode_lower};
ghost use Rattle.dbm_lines.specs.Words.{decoded};
ghost use Rattle.dbm_lines.specs.Escapes.{escape_of, escaped, key_field, marked, unescaped, behind_backslash, behind_x, joined, fields_in, pair_of_fields, longest_text_line, pair_of_text_line};

use crate::bounds::LONGEST_TEXT_LINE;
use crate::splitting::{first_separator, split_at};
use std::io::{self, Write};

/// Writes the bytes as a field. It takes no memory, and writes the bytes between two escapes at
/// once.
pub fn write_escaped<W: Write>(writer: &mut W, bytes: &[u8]) -> io::Result<()>
    ensures { OnOk result (Appends (W.contents writer.old) (W.contents writer.new)
        (escaped bytes.now)) }
{
    let mut start = 0;
    for (at, byte) in bytes.iter().enumerate() {
        if !is_plain(*byte) {
            writer.write_all(&bytes[start..at])?;
            write_escape(writer, *byte)?;
            start = at + 1;
        }
    }
    writer.write_all(&bytes[start..])
}

/// Writes the bytes as a field whose first byte, if there is one, is written as `\xhh`.
pub fn write_marked<W: Write>(writer: &mut W, bytes: &[u8]) -> io::Result<()>
    ensures { OnOk result (Appends (W.contents writer.old) (W.contents writer.new)
        (marked bytes.now)) }
{
    let [first, rest @ ..] = bytes else {
        return Ok(());
    };
    write_digits(writer, *first)?;
    write_escaped(writer, rest)
}

/// Writes a key as the field at the head of a line. It never begins with `#`.
pub fn write_key_field<W: Write>(writer: &mut W, key: &[u8]) -> io::Result<()>
    ensures { OnOk result (Appends (W.contents writer.old) (W.contents writer.new)
        (key_field key.now)) }
{
    match key {
        [b'#', ..] => write_marked(writer, key),
        _ => write_escaped(writer, key),
    }
}

/// Whether a field has the byte as it is.
fn is_plain(byte: u8) -> bool
    ensures { IsTrue result → escape_of byte ≡ byte ∷ [] }
{
    byte >= b' ' && byte <= b'~' && byte != b'\\'
}

/// Writes the byte as a field has it.
fn write_escape<W: Write>(writer: &mut W, byte: u8) -> io::Result<()>
    ensures { OnOk result (Appends (W.contents writer.old) (W.contents writer.new)
        (escape_of byte)) }
{
    match byte {
        b'\\' => writer.write_all(b"\\\\"),
        b'\t' => writer.write_all(b"\\t"),
        b'\n' => writer.write_all(b"\\n"),
        b' '..=b'~' => writer.write_all(&[byte]),
        _ => write_digits(writer, byte),
    }
}

/// Writes the byte as `\xhh`.
fn write_digits<W: Write>(writer: &mut W, byte: u8) -> io::Result<()>
    ensures { OnOk result (Appends (W.contents writer.old) (W.contents writer.new)
        (codes "\\x" ++ encode_lower (byte ∷ []))) }
{
    let mut digits = [0; 2];
    hex::encode_to_slice([byte].as_slice(), &mut digits).unwrap();
    writer.write_all(b"\\x")?;
    writer.write_all(&digits)
}

/// Puts the bytes that a field stands for into `bytes`, which has room for them. Answers whether it
/// is one; if not, any bytes may stand there.
pub fn unescape(field: &[u8], bytes: &mut Vec<u8>) -> bool
    requires { length field.now ≤ vec_capacity bytes.old }
    ensures bytes { (if result then Some bytes.new.items else None) ≡ unescaped field.now }
    ensures room { vec_capacity bytes.old ≤ vec_capacity bytes.new }
{
    bytes.clear();
    let mut rest = field;
    while let Some(plain) = first_backslash(rest) {
        append(bytes, &rest[..plain]);
        let Some((byte, behind)) = byte_of_letter(&rest[plain + 1..]) else {
            return false;
        };
        bytes.push(byte).unwrap();
        rest = behind;
    }
    append(bytes, rest);
    true
}

/// Appends the bytes, for which there is room.
fn append(bytes: &mut Vec<u8>, run: &[u8])
    requires { vec_len bytes.old + length run.now ≤ vec_capacity bytes.old }
    ensures items { bytes.new.items ≡ bytes.old.items ++ run.now }
    ensures len { vec_len bytes.new ≡ vec_len bytes.old + length run.now }
    ensures capacity { vec_capacity bytes.old ≤ vec_capacity bytes.new }
{
    if !run.is_empty() {
        bytes.extend_from_slice(run).unwrap();
    }
}

/// Where the first backslash of a field stands, if there is one. One that is near is found without a
/// search.
fn first_backslash(field: &[u8]) -> Option<usize>
    ensures { result ≡ position (λ byte. byte == 92) field.now }
{
    match field {
        [b'\\', ..] => Some(0),
        [_, b'\\', ..] => Some(1),
        [_, _, b'\\', ..] => Some(2),
        _ => first_separator(field, b'\\'),
    }
}

/// The byte that a letter behind a backslash stands for, and the field behind it.
fn byte_of_letter(field: &[u8]) -> Option<(u8, &[u8])>
    ensures bytes { behind_backslash field.now ≡ option_and_then
        (λ parts. joined (Some (parts.0 ∷ [])) (unescaped parts.1.now)) result }
    ensures shorter { IfSome result (λ parts. length parts.1.now < length field.now) }
{
    match field {
        [b'x', digits @ ..] => byte_behind_x(digits),
        [b'\\', behind @ ..] => Some((b'\\', behind)),
        [b't', behind @ ..] => Some((b'\t', behind)),
        [b'n', behind @ ..] => Some((b'\n', behind)),
        _ => None,
    }
}

/// The byte that two digits behind `\x` stand for, and the field behind them.
fn byte_behind_x(field: &[u8]) -> Option<(u8, &[u8])>
    ensures bytes { behind_x field.now ≡ option_and_then
        (λ parts. joined (Some (parts.0 ∷ [])) (unescaped parts.1.now)) result }
    ensures shorter { IfSome result (λ parts. length parts.1.now < length field.now) }
{
    match field {
        [high, low, behind @ ..] => match byte_of_digits(*high, *low) {
            Some(byte) => Some((byte, behind)),
            None => None,
        },
        _ => None,
    }
}

/// The byte of two digits, if they are some.
fn byte_of_digits(high: u8, low: u8) -> Option<u8>
    ensures { option_map (λ byte. byte ∷ []) result ≡ decoded (high ∷ low ∷ []) }
{
    let mut byte = [0; 1];
    match hex::decode_to_slice([high, low].as_slice(), &mut byte) {
        Ok(()) => Some(byte[0]),
        Err(_) => None,
    }
}

/// Reads the pair of a line `key content` of two fields without its line feed. The bytes of the
/// fields go to `key` and `content`. Answers whether the line says one.
pub fn pair_in_text_line(line: &[u8], key: &mut Vec<u8>, content: &mut Vec<u8>) -> bool
    requires key { longest_text_line ≤ vec_capacity key.old }
    requires content { longest_text_line ≤ vec_capacity content.old }
    ensures pair { (if result then Some (key.new.items, content.new.items) else None)
        ≡ pair_of_text_line line.now }
    ensures key { vec_capacity key.old ≤ vec_capacity key.new }
    ensures content { vec_capacity content.old ≤ vec_capacity content.new }
{
    line.len() <= LONGEST_TEXT_LINE && pair_in_fields(line, key, content)
}

/// Reads a key and a content that are two fields. Answers whether they are.
pub fn pair_in_fields(fields: &[u8], key: &mut Vec<u8>, content: &mut Vec<u8>) -> bool
    requires key { length fields.now ≤ vec_capacity key.old }
    requires content { length fields.now ≤ vec_capacity content.old }
    ensures pair { (if result then Some (key.new.items, content.new.items) else None)
        ≡ pair_of_fields (fields_in fields.now) }
    ensures key { vec_capacity key.old ≤ vec_capacity key.new }
    ensures content { vec_capacity content.old ≤ vec_capacity content.new }
{
    let Some((first, second)) = split_field(fields) else {
        return false;
    };
    if split_field(second).is_some() {
        return false;
    }
    unescape(first, key) && unescape(second, content)
}

/// The field before the first tab, and what is behind the tab, if there is one.
fn split_field(line: &[u8]) -> Option<(&[u8], &[u8])>
    ensures split { IfSome result
        (λ parts. fields_in line.now ≡ parts.0.now ∷ fields_in parts.1.now) }
    ensures shorter { IfSome result
        (λ parts. (length parts.0.now ≤ length line.now) × (length parts.1.now ≤ length line.now)) }
    ensures single { IfNone result (fields_in line.now ≡ line.now ∷ []) }
{
    split_at(line, b'\t')
}
