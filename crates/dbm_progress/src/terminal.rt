// Progress on a terminal.
ghost use Rattle.std.specs.Prelude.{◌≡◌, None, false, true};
ghost use Rattle.dbm_progress.specs.InTheWay.{in_the_way};

use crate::{Progress, Work};
use std::io::Write;
use std::time::{Clock, Duration, Instant};

/// How many seconds nothing is shown at first, and each line then stands.
const PAUSE: u64 = 1;

/// Which of the standard streams are terminals.
#[derive(Clone, Copy, Debug, PartialEq, Eq)]
pub struct Terminals {
    pub input: bool,
    pub output: bool,
    pub error: bool,
}

/// Counts the steps in one line of standard error, which is written anew once a second at most, and
/// not in the first second. Nothing is written where that is no terminal, where the clock can't be
/// read, or in a work whose own lines are read from or written to a terminal. A write that fails is
/// passed over. A step looks at the clock, in a tenth of a microsecond, unless it shows nothing
/// anyway.
#[derive(Drop)]
pub struct Terminal<'a, C, W> {
    clock: &'a C,
    /// Standard error.
    writer: W,
    terminals: Terminals,
    /// When the next line may be written, if ever.
    due: Option<Instant>,
    /// The work under way, and how many steps of it are done.
    work: Option<Work>,
    done: u64,
    is_shown: bool,
}

impl<'a, C: Clock, W: Write> Terminal<'a, C, W> {
    /// A command begins. `writer` is standard error.
    pub fn new(clock: &'a C, writer: W, terminals: Terminals) -> Terminal<'a, C, W>
        ensures terminals { result.terminals ≡ terminals }
        ensures writer { result.writer ≡ writer }
        ensures none_is_due { terminals.error ≡ false → result.due ≡ None }
        ensures none_is_shown { result.is_shown ≡ false }
    {
        Terminal {
            clock,
            writer,
            terminals,
            due: if terminals.error { later(clock) } else { None },
            work: None,
            done: 0,
            is_shown: false,
        }
    }

    /// Whether a line would stand among those that the work reads or writes.
    fn is_in_the_way(&self, work: Work) -> bool
        ensures { result ≡ in_the_way self.now.terminals work }
    {
        match work {
            Work::LinesLoaded => self.terminals.input,
            Work::KeysWritten | Work::PairsWritten => self.terminals.output,
            Work::KeysRead | Work::PairsRead | Work::StopsMade | Work::BucketsVerified => false,
        }
    }

    /// Counts a step.
    fn count(&mut self, work: Work)
        ensures { (self.new.terminals ≡ self.old.terminals) × (self.new.writer ≡ self.old.writer)
            × (self.new.is_shown ≡ self.old.is_shown) }
    {
        if self.work != Some(work) {
            self.work = Some(work);
            self.done = 0;
        }
        self.done = self.done.saturating_add(1);
    }

    /// Whether a second has passed since the last line, or since the beginning.
    fn is_due(&self) -> bool {
        match (self.due, Instant::now(self.clock)) {
            (Some(due), Ok(now)) => due <= now,
            _ => false,
        }
    }

    /// Writes blanks over the line that stands, as many as the widest one has columns.
    fn erase(&mut self)
        ensures { self.new.terminals ≡ self.old.terminals }
    {
        let _ = write!(self.writer, "\r{:34}\r", "");
    }

    /// Writes the line anew.
    fn show(&mut self, work: Work)
        ensures { self.new.terminals ≡ self.old.terminals }
    {
        self.erase();
        let _ = write!(self.writer, "{} {}", self.done, work.steps());
        self.is_shown = true;
        self.due = later(self.clock);
    }
}

impl<C: Clock, W: Write> Progress for Terminal<'_, C, W> {
    fn step(&mut self, work: Work)
        ensures terminals { self.new.terminals ≡ self.old.terminals }
        ensures none_is_due { self.old.due ≡ None → self.new ≡ self.old }
        ensures in_the_way { in_the_way self.old.terminals work ≡ true
            → (self.new.writer ≡ self.old.writer) × (self.new.is_shown ≡ self.old.is_shown) }
    {
        if self.due.is_none() {
            return;
        }
        self.count(work);
        if !self.is_in_the_way(work) && self.is_due() {
            self.show(work);
        }
    }

    fn clear(&mut self)
        ensures terminals { self.new.terminals ≡ self.old.terminals }
        ensures none_is_shown { self.old.is_shown ≡ false → self.new ≡ self.old }
        ensures taken_away { self.new.is_shown ≡ false }
    {
        if self.is_shown {
            self.erase();
            self.is_shown = false;
        }
    }
}

/// When a pause is over that begins now.
fn later(clock: &impl Clock) -> Option<Instant> {
    Instant::now(clock)
        .ok()?
        .checked_add(Duration::from_secs(PAUSE))
}
