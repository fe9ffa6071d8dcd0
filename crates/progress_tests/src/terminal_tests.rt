//! What is written on a terminal, by a clock that is set by hand.

use dbm_progress::{Progress, Terminal, Terminals, Work};
use std::alloc::Global;
use std::cell::Cell;
use std::io::{self, ErrorKind, Write};
use std::slice;
use std::time::{Clock, Duration};

/// Shows the milliseconds that it was set to, or none where it was set to a minute.
#[derive(Drop)]
struct SetClock {
    millis: Cell<u64>,
}

impl Clock for SetClock {
    fn monotonic(&self) -> io::Result<Duration> {
        match self.millis.get() {
            60_000 => Err(ErrorKind::Other.into()),
            millis => Ok(Duration::from_millis(millis)),
        }
    }

    fn since_1970(&self) -> io::Result<Duration> {
        self.monotonic()
    }
}

/// Takes nothing.
#[derive(Drop)]
struct Refusing;

impl Write for Refusing {
    fn write(&mut self, _buf: &[u8]) -> io::Result<usize> {
        Err(ErrorKind::Other.into())
    }

    fn flush(&mut self) -> io::Result<()> {
        Ok(())
    }
}

/// Standard error is a terminal, and no other stream.
const ERROR: Terminals = Terminals {
    input: false,
    output: false,
    error: true,
};

/// The work that a letter stands for.
fn work_of(letter: &str) -> Option<Work> {
    match letter {
        "l" => Some(Work::LinesLoaded),
        "k" => Some(Work::KeysRead),
        "p" => Some(Work::PairsRead),
        "K" => Some(Work::KeysWritten),
        "P" => Some(Work::PairsWritten),
        "s" => Some(Work::StopsMade),
        "b" => Some(Work::BucketsVerified),
        _ => None,
    }
}

/// Makes the steps of a text, in which a number sets the clock, and `x` takes away what is shown.
fn follow<W: Write>(progress: &mut Terminal<SetClock, W>, clock: &SetClock, text: &str) {
    for word in text.split_whitespace() {
        match (word.parse::<u64>(), work_of(word)) {
            (Ok(millis), _) => clock.millis.set(millis),
            (_, Some(work)) => progress.step(work),
            _ => progress.clear(),
        }
    }
}

/// What a line is erased by.
const ERASED: &[u8] = b"\r                                  \r";

/// Whether this was written, in which `~` erases a line.
fn is_written(written: &[u8], expected: &str) -> bool {
    let mut rest = written;
    for byte in expected.as_bytes() {
        let wanted = if *byte == b'~' {
            ERASED
        } else {
            slice::from_ref(byte)
        };
        match rest.strip_prefix(wanted) {
            Some(left) => rest = left,
            None => return false,
        }
    }
    rest.is_empty()
}

/// Whether the steps of a text, from second 5 on, are shown so.
fn is_shown(alloc: Global, terminals: Terminals, text: &str, expected: &str) -> bool {
    let clock = SetClock {
        millis: Cell::new(5000),
    };
    let mut written = Vec::new(alloc);
    let mut progress = Terminal::new(&clock, &mut written, terminals);
    follow(&mut progress, &clock, text);
    is_written(written.as_slice(), expected)
}

/// Whether this is shown where standard error alone is a terminal.
fn shows(alloc: Global, text: &str, expected: &str) -> bool {
    is_shown(alloc, ERROR, text, expected)
}

#[test]
fn a_line_comes_each_second_and_none_before_the_first(rt: HostRuntime) {
    assert!(rt; shows(rt.alloc(), "l l 5999 l x", ""));
    assert!(rt; shows(rt.alloc(), "l 6000 l l 6999 l", "~2 lines loaded"));
    let text = "6500 l l 7499 l 7500 l 7600 l x x";
    assert!(rt; shows(rt.alloc(), text, "~1 lines loaded~4 lines loaded~"));
}

#[test]
fn each_work_is_counted_by_itself(rt: HostRuntime) {
    let text = "k 6000 k k 7000 p x 8000 p P 9000 P x";
    let expected = "~2 keys read~1 pairs read~~2 pairs read~2 pairs written~";
    assert!(rt; shows(rt.alloc(), text, expected));
    assert!(rt; shows(rt.alloc(), "6000 K 7000 s", "~1 keys written~1 stops made"));
}

/// Whether nothing is in the way of another terminal.
fn leaves_other_terminals(alloc: Global) -> bool {
    let text = "6000 l k 7000 s p 8000 K P";
    let input = Terminals {
        input: true,
        ..ERROR
    };
    let output = Terminals {
        output: true,
        ..ERROR
    };
    is_shown(
        alloc,
        input,
        text,
        "~1 keys read~1 stops made~1 keys written",
    ) && is_shown(alloc, output, text, "~1 lines loaded~1 stops made")
}

#[test]
fn no_line_stands_among_those_of_the_work(rt: HostRuntime) {
    assert!(rt; leaves_other_terminals(rt.alloc()));
}

/// Whether nothing is shown.
fn is_silent(alloc: Global) -> bool {
    let error = Terminals {
        error: false,
        ..ERROR
    };
    is_shown(alloc, error, "l 6000 l 9000 l x", "")
        && is_shown(alloc, ERROR, "l 60000 l l x", "")
        && is_shown(alloc, ERROR, "l 4000 l l x", "")
}

#[test]
fn nothing_is_shown_without_a_terminal_or_a_clock(rt: HostRuntime) {
    assert!(rt; is_silent(rt.alloc()));
}

#[test]
fn a_failed_write_is_passed_over() {
    let clock = SetClock {
        millis: Cell::new(0),
    };
    follow(
        &mut Terminal::new(&clock, Refusing, ERROR),
        &clock,
        "2000 l l x",
    );
}
