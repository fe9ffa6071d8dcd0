// Streams that keep why they failed.
use std::io::{self, BufRead, BufReader, BufWriter, ErrorKind, Read, Write};

/// A stream that knows the system's error at the first of its calls that failed, if one has.
pub trait Failing {
    /// That error.
    fn first_error(&self) -> Option<io::Error>;
}

/// A stream that is read or written as the one within, whose first error it keeps. An interrupted
/// call is none, since it is made again.
#[derive(Drop)]
pub struct Noting<S> {
    stream: S,
    failed: Option<io::Error>,
}

impl<S> Noting<S> {
    /// Nothing has failed yet.
    pub fn new(stream: S) -> Noting<S> {
        Noting {
            stream,
            failed: None,
        }
    }
}

/// Keeps the first error.
fn note(failed: &mut Option<io::Error>, error: io::Error) {
    if failed.is_none() && error.kind() != ErrorKind::Interrupted {
        *failed = Some(error);
    }
}

impl<S: Read> Read for Noting<S> {
    ghost remaining = { λ noting. S.remaining noting.stream };

    fn read(&mut self, buf: &mut [u8]) -> io::Result<usize> {
        let read = self.stream.read(buf);
        if let Err(error) = read {
            note(&mut self.failed, error);
        }
        read
    }
}

impl<S: Write> Write for Noting<S> {
    ghost contents = { λ noting. S.contents noting.stream };

    fn write(&mut self, buf: &[u8]) -> io::Result<usize> {
        let written = self.stream.write(buf);
        if let Err(error) = written {
            note(&mut self.failed, error);
        }
        written
    }

    fn flush(&mut self) -> io::Result<()> {
        let flushed = self.stream.flush();
        if let Err(error) = flushed {
            note(&mut self.failed, error);
        }
        flushed
    }
}

impl<S: Read> Failing for BufReader<Noting<S>> {
    fn first_error(&self) -> Option<io::Error> {
        self.get_ref().failed
    }
}

impl<S: Write + Drop> Failing for BufWriter<Noting<S>> {
    fn first_error(&self) -> Option<io::Error> {
        self.get_ref().failed
    }
}

impl Failing for &[u8] {
    fn first_error(&self) -> Option<io::Error> {
        None
    }
}

impl Failing for Vec<u8> {
    fn first_error(&self) -> Option<io::Error> {
        None
    }
}
