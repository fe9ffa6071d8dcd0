// Lines as requests and as pairs.
ghost use Rattle.std.specs.Prelude.{◌≡◌, ◌≤◌, ◌*◌, ◌∷◌, [], IfSome, IfNone, length, codes, Some, None, vec_capacity, if◌then◌else◌};
ghost use Rattle.dbm_lines.specs.Words.{word_bytes};
ghost use Rattle.dbm_lines.specs.Lines.{longest_line, words_in, call_of_parts, bare_call};
ghost use Rattle.dbm_model.specs.Calls.{Fetch, Delete};
ghost use Rattle.dbm_lines.specs.BadLines.{parts_in};
ghost use Rattle.dbm_lines.specs.Bounds.{longest_in, longest_part};
ghost use Rattle.dbm_lines.specs.Forms.{call_in};
ghost use Rattle.dbm_lines.specs.PairLines.{pair_of_line, pair_of_words};
ghost use Rattle.dbm_lines.specs.Requests.{asked, bytes_in, pair_of_parts, IsNamed};

use crate::bounds::{LONGEST_LINE, longest_in};
use crate::digits::decode;
use crate::fields::{pair_in_fields, unescape};
use crate::forms::TextForm;
use crate::splitting::{split_at, split_part};

/// What a line asks for, of a key and a content that its parts say.
#[derive(Clone, Copy)]
pub enum Request {
    Store,
    Insert,
    Fetch,
    Delete,
    First,
    Next,
    Error,
    Clear,
    /// No call.
    Bad,
}

/// Reads a line of this form without its line feed. The bytes of its parts go to `key` and
/// `content`.
pub fn request_of(form: TextForm, line: &[u8], key: &mut Vec<u8>, content: &mut Vec<u8>) -> Request
    requires key { longest_part form ≤ vec_capacity key.old }
    requires content { longest_part form ≤ vec_capacity content.old }
    ensures request { asked result key.new.items content.new.items ≡ call_in form line.now }
    ensures key { vec_capacity key.old ≤ vec_capacity key.new }
    ensures content { vec_capacity content.old ≤ vec_capacity content.new }
{
    if line.len() > longest_in(form) {
        return Request::Bad;
    }
    match line {
        b"1" => Request::First,
        b"N" => Request::Next,
        b"E" => Request::Error,
        b"C" => Request::Clear,
        _ => request_with_parts(form, line, key, content),
    }
}

/// A call that has parts after its name.
#[derive(Clone, Copy)]
enum Name {
    Store,
    Insert,
    Fetch,
    Delete,
}

/// The request of a line that has parts after a name.
fn request_with_parts(
    form: TextForm,
    line: &[u8],
    key: &mut Vec<u8>,
    content: &mut Vec<u8>,
) -> Request
    requires line { length line.now ≤ longest_in form }
    requires key { longest_part form ≤ vec_capacity key.old }
    requires content { longest_part form ≤ vec_capacity content.old }
    ensures request { bare_call line.now ≡ None → asked result key.new.items content.new.items
        ≡ call_of_parts (bytes_in form) (parts_in form line.now) }
    ensures key { vec_capacity key.old ≤ vec_capacity key.new }
    ensures content { vec_capacity content.old ≤ vec_capacity content.new }
{
    let Some((name, rest)) = split_part(form, line) else {
        return Request::Bad;
    };
    match name_of(name) {
        Some(Name::Store) if pair_in_parts(form, rest, key, content) => Request::Store,
        Some(Name::Insert) if pair_in_parts(form, rest, key, content) => Request::Insert,
        Some(Name::Fetch) if key_in_parts(form, rest, key) => Request::Fetch,
        Some(Name::Delete) if key_in_parts(form, rest, key) => Request::Delete,
        _ => Request::Bad,
    }
}

/// The call of a name, if it has parts after it.
fn name_of(name: &[u8]) -> Option<Name>
    ensures { IsNamed name.now result }
{
    match name {
        b"S" => Some(Name::Store),
        b"I" => Some(Name::Insert),
        b"F" => Some(Name::Fetch),
        b"D" => Some(Name::Delete),
        _ => None,
    }
}

/// Reads the key that a fetch or a delete names, of the parts after its name. Answers whether they
/// name one.
fn key_in_parts(form: TextForm, parts: &[u8], key: &mut Vec<u8>) -> bool
    requires parts { length parts.now ≤ longest_in form }
    requires key { longest_part form ≤ vec_capacity key.old }
    ensures fetch { (if result then Some (Fetch key.new.items) else None)
        ≡ call_of_parts (bytes_in form) (codes "F" ∷ parts_in form parts.now) }
    ensures delete { (if result then Some (Delete key.new.items) else None)
        ≡ call_of_parts (bytes_in form) (codes "D" ∷ parts_in form parts.now) }
    ensures room { vec_capacity key.old ≤ vec_capacity key.new }
{
    if split_part(form, parts).is_some() {
        return false;
    }
    decode_part(form, parts, key)
}

/// Puts the bytes that a part of a line of this form stands for into `bytes`. Answers whether it is
/// a good one; if not, any bytes may stand there.
fn decode_part(form: TextForm, part: &[u8], bytes: &mut Vec<u8>) -> bool
    requires part { length part.now ≤ longest_in form }
    requires bytes { longest_part form ≤ vec_capacity bytes.old }
    ensures bytes { (if result then Some bytes.new.items else None) ≡ bytes_in form part.now }
    ensures room { vec_capacity bytes.old ≤ vec_capacity bytes.new }
{
    match form {
        TextForm::Hexadecimal => decode_word(part, bytes),
        TextForm::Escaped => unescape(part, bytes),
    }
}

/// Reads a key and a content that are two parts of a line of this form. Answers whether they are.
fn pair_in_parts(form: TextForm, parts: &[u8], key: &mut Vec<u8>, content: &mut Vec<u8>) -> bool
    requires parts { length parts.now ≤ longest_in form }
    requires key { longest_part form ≤ vec_capacity key.old }
    requires content { longest_part form ≤ vec_capacity content.old }
    ensures pair { (if result then Some (key.new.items, content.new.items) else None)
        ≡ pair_of_parts form (parts_in form parts.now) }
    ensures key { vec_capacity key.old ≤ vec_capacity key.new }
    ensures content { vec_capacity content.old ≤ vec_capacity content.new }
{
    match form {
        TextForm::Hexadecimal => pair_in_words(parts, key, content),
        TextForm::Escaped => pair_in_fields(parts, key, content),
    }
}

/// Reads the pair of a line `key content` without its line feed. The bytes of the words go to `key`
/// and `content`. Answers whether the line says one.
pub fn pair_in_line(line: &[u8], key: &mut Vec<u8>, content: &mut Vec<u8>) -> bool
    requires key { longest_line ≤ 2 * vec_capacity key.old }
    requires content { longest_line ≤ 2 * vec_capacity content.old }
    ensures pair { (if result then Some (key.new.items, content.new.items) else None)
        ≡ pair_of_line line.now }
    ensures key { vec_capacity key.old ≤ vec_capacity key.new }
    ensures content { vec_capacity content.old ≤ vec_capacity content.new }
{
    line.len() <= LONGEST_LINE && pair_in_words(line, key, content)
}

/// Reads a key and a content that are two words. Answers whether they are.
fn pair_in_words(words: &[u8], key: &mut Vec<u8>, content: &mut Vec<u8>) -> bool
    requires key { length words.now ≤ 2 * vec_capacity key.old }
    requires content { length words.now ≤ 2 * vec_capacity content.old }
    ensures pair { (if result then Some (key.new.items, content.new.items) else None)
        ≡ pair_of_words (words_in words.now) }
    ensures key { vec_capacity key.old ≤ vec_capacity key.new }
    ensures content { vec_capacity content.old ≤ vec_capacity content.new }
{
    let Some((first, second)) = split_word(words) else {
        return false;
    };
    if split_word(second).is_some() {
        return false;
    }
    decode_word(first, key) && decode_word(second, content)
}

/// The word before the first space, and what is behind the space, if there is one.
fn split_word(line: &[u8]) -> Option<(&[u8], &[u8])>
    ensures split { IfSome result
        (λ parts. words_in line.now ≡ parts.0.now ∷ words_in parts.1.now) }
    ensures shorter { IfSome result
        (λ parts. (length parts.0.now ≤ length line.now) × (length parts.1.now ≤ length line.now)) }
    ensures single { IfNone result (words_in line.now ≡ line.now ∷ []) }
{
    split_at(line, b' ')
}

/// Puts the bytes that a word stands for into `bytes`, which has room for them. Answers whether it
/// is one; if not, any bytes may stand there.
pub fn decode_word(word: &[u8], bytes: &mut Vec<u8>) -> bool
    requires { length word.now ≤ 2 * vec_capacity bytes.old }
    ensures bytes { (if result then Some bytes.new.items else None) ≡ word_bytes word.now }
    ensures room { vec_capacity bytes.old ≤ vec_capacity bytes.new }
{
    bytes.clear();
    if word == b".".as_slice() {
        return true;
    }
    if word.is_empty() || word.len() % 2 == 1 {
        return false;
    }
    bytes.resize(word.len() / 2, 0).unwrap();
    decode(word, bytes)
}
