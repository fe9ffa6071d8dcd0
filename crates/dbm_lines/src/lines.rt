// Reading the lines of a text.
ghost use Rattle.std.specs.Prelude.{◌≡◌, ◌+◌, ◌≤◌, ◌++◌, IfOk, OnOk, IfSome, take, vec_len, vec_capacity};
ghost use Rattle.dbm_lines.specs.Bounds.{longest_in};
ghost use Rattle.dbm_lines.specs.Reading.{is_line, ReadsLine, IsCounted};
ghost use Rattle.dbm_lines.specs.Parts.{IsPart, TakesPart};

use crate::bounds::longest_in;
use crate::buffers::Buffers;
use memchr::memchr;
use std::io::{self, BufRead};

/// What `read_line` found.
#[derive(Clone, Copy)]
pub enum LineRead {
    /// The text has ended.
    End,
    /// A line with no whole one behind it in the reader's buffer: reading on may wait.
    Last,
    /// A line with another whole one behind it in the reader's buffer.
    Followed,
}

impl LineRead {
    /// Whether there was a line.
    pub fn is_line(self) -> bool
        ensures { result ≡ is_line self }
    {
        !matches!(self, LineRead::End)
    }

    /// What is told of a line, or of the end.
    fn of(line: bool, followed: bool) -> LineRead
        ensures { is_line result ≡ line }
    {
        match (line, followed) {
            (false, _) => LineRead::End,
            (true, false) => LineRead::Last,
            (true, true) => LineRead::Followed,
        }
    }
}

/// How far a part of a line goes.
#[derive(Clone, Copy)]
enum Part {
    /// Nothing is left of the text.
    End,
    /// To the line's end, and whether another whole one is in the reader's buffer.
    Whole { followed: bool },
    /// To the end of the reader's buffer, and the line goes on.
    Begun,
}

/// Reads a line without its line feed, and keeps one byte more of it than a line of the form may
/// have. Answers whether there was one, and whether another whole one is in the reader's buffer. An
/// error where reading fails, and where more than `left` bytes would be read, which goes down by
/// those that were.
pub fn read_line<R: BufRead>(
    reader: &mut R,
    buffers: &mut Buffers,
    left: &mut u32,
) -> io::Result<LineRead>
    ensures line { IfOk result (λ read.
        IfSome (R.remaining reader.old)
        (λ text. ReadsLine (longest_in buffers.old.form + 1) text (is_line read)
        buffers.new.line.items (R.remaining reader.new))) }
    ensures counted { OnOk result
        (IsCounted (R.remaining reader.old) left.old (R.remaining reader.new) left.new) }
    ensures form { buffers.new.form ≡ buffers.old.form }
{
    read_up_to(
        longest_in(buffers.form) + 1,
        reader,
        &mut buffers.line,
        left,
    )
}

/// Reads a line, and keeps so many bytes of it at most, for which there is room.
fn read_up_to<R: BufRead>(
    most: usize,
    reader: &mut R,
    line: &mut Vec<u8>,
    left: &mut u32,
) -> io::Result<LineRead>
    requires { most ≤ vec_capacity line.old }
    ensures line { IfOk result (λ read.
        IfSome (R.remaining reader.old)
        (λ text. ReadsLine most text (is_line read) line.new.items (R.remaining reader.new))) }
    ensures counted { OnOk result
        (IsCounted (R.remaining reader.old) left.old (R.remaining reader.new) left.new) }
    ensures room { most ≤ vec_capacity line.new }
{
    line.clear();
    let mut more = false;
    for _ in 0..u64::MAX {
        match read_part(most, reader, line, left)? {
            Part::End => return Ok(LineRead::of(more, false)),
            Part::Whole { followed } => return Ok(LineRead::of(true, followed)),
            Part::Begun => more = true,
        }
    }
    Err(io::ErrorKind::InvalidInput.into())
}

/// Reads what the reader's buffer has of a line, and appends to `line` what there is room for up to
/// so many bytes. An error where reading fails, and where more than `left` bytes would be read.
fn read_part<R: BufRead>(
    most: usize,
    reader: &mut R,
    line: &mut Vec<u8>,
    left: &mut u32,
) -> io::Result<Part>
    requires length { vec_len line.old ≤ most }
    requires room { most ≤ vec_capacity line.old }
    ensures part { IfOk result (λ part.
        IfSome (R.remaining reader.old)
        (λ text. TakesPart most text part line.old.items line.new.items (R.remaining reader.new))) }
    ensures counted { OnOk result
        (IsCounted (R.remaining reader.old) left.old (R.remaining reader.new) left.new) }
    ensures length { vec_len line.new ≤ most }
    ensures room { most ≤ vec_capacity line.new }
{
    let bytes = reader.fill_buf()?;
    let (part, taken) = keep_part(most, bytes, line);
    if taken > *left as usize {
        return Err(io::ErrorKind::InvalidInput.into());
    }
    *left -= taken as u32;
    reader.consume(taken);
    Ok(part)
}

/// Appends to `line` the bytes before the first line feed, or all of them, up to so many in all.
/// Answers how many bytes they are, with the line feed.
fn keep_part(most: usize, bytes: &[u8], line: &mut Vec<u8>) -> (Part, usize)
    requires length { vec_len line.old ≤ most }
    requires room { most ≤ vec_capacity line.old }
    ensures part { IsPart most bytes.now result.0 result.1 line.old.items line.new.items }
    ensures length { vec_len line.new ≤ most }
    ensures room { most ≤ vec_capacity line.new }
{
    let Some(end) = memchr(b'\n', bytes) else {
        keep(most, line, bytes);
        let part = if bytes.is_empty() {
            Part::End
        } else {
            Part::Begun
        };
        return (part, bytes.len());
    };
    keep(most, line, &bytes[..end]);
    let followed = memchr(b'\n', &bytes[end + 1..]).is_some();
    (Part::Whole { followed }, end + 1)
}

/// Appends the bytes, up to so many in all, for which there is room.
fn keep(most: usize, line: &mut Vec<u8>, bytes: &[u8])
    requires length { vec_len line.old ≤ most }
    requires room { most ≤ vec_capacity line.old }
    ensures line { line.new.items ≡ take most (line.old.items ++ bytes.now) }
    ensures length { vec_len line.new ≤ most }
    ensures room { most ≤ vec_capacity line.new }
{
    let taken = bytes.len().min(most - line.len());
    line.extend_from_slice(&bytes[..taken]).unwrap();
}
