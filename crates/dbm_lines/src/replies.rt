// Replies as lines.
ghost use Rattle.std.specs.Prelude.{◌≡◌, ℕ, pos, OnOk};
ghost use Rattle.std.specs.Io.KnownBytes.{Appends};
ghost use Rattle.dbm_model.specs.Calls.{Fault, Stored, Kept, Deleted, Absent, Bytes, NoRecord, End, Number, Refused, number_of};
ghost use Rattle.dbm_lines.specs.Lines.{reply_line, bad_line};
ghost use Rattle.dbm_lines.specs.TextScripts.{is_like_reply, reply_field};
ghost use Rattle.dbm_lines.specs.Words.{word_of};
ghost use Rattle.dbm_lines.specs.Forms.{reply_line_in};

use crate::digits::encode;
use crate::fields::{write_escaped, write_marked};
use crate::forms::TextForm;
use std::io::{self, Write};

/// How many bytes of a word are written at once.
const RUN: usize = 128;

/// Writes the line of a call that stored its pair.
pub fn write_stored<W: Write>(writer: &mut W) -> io::Result<()>
    ensures { OnOk result (Appends (W.contents writer.old) (W.contents writer.new)
        (reply_line Stored)) }
{
    writer.write_all(b"0\n")
}

/// Writes the line of a store that left the old content.
pub fn write_kept<W: Write>(writer: &mut W) -> io::Result<()>
    ensures { OnOk result (Appends (W.contents writer.old) (W.contents writer.new)
        (reply_line Kept)) }
{
    writer.write_all(b"1\n")
}

/// Writes the line of a delete that took its key out.
pub fn write_deleted<W: Write>(writer: &mut W) -> io::Result<()>
    ensures { OnOk result (Appends (W.contents writer.old) (W.contents writer.new)
        (reply_line Deleted)) }
{
    writer.write_all(b"0\n")
}

/// Writes the line of a delete that found nothing.
pub fn write_absent<W: Write>(writer: &mut W) -> io::Result<()>
    ensures { OnOk result (Appends (W.contents writer.old) (W.contents writer.new)
        (reply_line Absent)) }
{
    writer.write_all(b"-1 absent\n")
}

/// Writes the line of a fetch that found nothing.
pub fn write_no_record<W: Write>(writer: &mut W) -> io::Result<()>
    ensures { OnOk result (Appends (W.contents writer.old) (W.contents writer.new)
        (reply_line NoRecord)) }
{
    writer.write_all(b"none\n")
}

/// Writes the line of a pass that has given every key.
pub fn write_end<W: Write>(writer: &mut W) -> io::Result<()>
    ensures { OnOk result (Appends (W.contents writer.old) (W.contents writer.new)
        (reply_line End)) }
{
    writer.write_all(b"end\n")
}

/// Writes the line of an error number.
pub fn write_number<W: Write>(writer: &mut W, number: i32) -> io::Result<()>
    ensures { (n : ℕ) → number ≡ pos n
        → OnOk result (Appends (W.contents writer.old) (W.contents writer.new)
        (reply_line (Number n))) }
{
    writeln!(writer, "{number}")
}

/// Writes the line of a line that asks for no call.
pub fn write_bad_line<W: Write>(writer: &mut W) -> io::Result<()>
    ensures { OnOk result (Appends (W.contents writer.old) (W.contents writer.new) bad_line) }
{
    writer.write_all(b"-1 line\n")
}

/// Writes the line of a call that was refused by the fault of this number.
pub fn write_refused<W: Write>(writer: &mut W, number: i32) -> io::Result<()>
    ensures { (fault : Fault) → number ≡ pos (number_of fault)
        → OnOk result (Appends (W.contents writer.old) (W.contents writer.new)
        (reply_line (Refused fault))) }
{
    writer.write_all(b"-1 fault ")?;
    writeln!(writer, "{number}")
}

/// Writes the line of a content or a key as a word.
pub fn write_bytes<W: Write>(writer: &mut W, bytes: &[u8]) -> io::Result<()>
    ensures { OnOk result (Appends (W.contents writer.old) (W.contents writer.new)
        (reply_line (Bytes bytes.now))) }
{
    write_word(writer, bytes)?;
    writer.write_all(b"\n")
}

/// Writes the line of a content or a key, in a script of this form.
pub fn write_bytes_in<W: Write>(writer: &mut W, form: TextForm, bytes: &[u8]) -> io::Result<()>
    ensures { OnOk result (Appends (W.contents writer.old) (W.contents writer.new)
        (reply_line_in form (Bytes bytes.now))) }
{
    match form {
        TextForm::Hexadecimal => write_word(writer, bytes)?,
        TextForm::Escaped => write_reply_field(writer, bytes)?,
    }
    writer.write_all(b"\n")
}

/// Writes a content or a key as a field that is read as no other reply.
fn write_reply_field<W: Write>(writer: &mut W, bytes: &[u8]) -> io::Result<()>
    ensures { OnOk result (Appends (W.contents writer.old) (W.contents writer.new)
        (reply_field bytes.now)) }
{
    if is_like_reply(bytes) {
        write_marked(writer, bytes)
    } else {
        write_escaped(writer, bytes)
    }
}

/// Whether the field of a content or a key would be read as another reply.
fn is_like_reply(bytes: &[u8]) -> bool
    ensures { result ≡ is_like_reply bytes.now }
{
    matches!(bytes, b"none" | b"end" | [b'-', b'1', b' ', ..])
}

/// Writes the word of a content or a key. It takes no memory, and writes the digits of up to 128
/// bytes at once.
pub fn write_word<W: Write>(writer: &mut W, bytes: &[u8]) -> io::Result<()>
    ensures { OnOk result (Appends (W.contents writer.old) (W.contents writer.new)
        (word_of bytes.now)) }
{
    if bytes.is_empty() {
        return writer.write_all(b".");
    }
    let mut digits = [0; 2 * RUN];
    let mut rest = bytes;
    while !rest.is_empty() {
        let (run, behind) = rest.split_at(rest.len().min(RUN));
        let text = &mut digits[..2 * run.len()];
        encode(run, text);
        writer.write_all(text)?;
        rest = behind;
    }
    Ok(())
}
