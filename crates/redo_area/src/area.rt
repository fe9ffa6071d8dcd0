// Where the pages of the last commit stand that wait.
ghost use Rattle.std.specs.Prelude.{◌≡◌, ◌<◌, ◌+◌, ◌*◌, ◌^◌, Some, None};
ghost use Rattle.redo_area.specs.declared.header.CommitKind.TheVariants.{Log};

use crate::header::CommitKind;

/// How many pages a log has.
pub const LOG_PAGES: usize = 32;

/// The newest commit of a log.
#[derive(Clone, Copy, Debug, PartialEq, Eq)]
pub struct LogPlace {
    /// Its number, from 1 on.
    pub number: u32,
    /// The first sector of the slot that has it.
    pub at: u32,
    /// The first sector of the other slot, which the next commit takes.
    pub beside: u32,
}

impl LogPlace {
    /// The commit that follows in the other slot.
    pub fn next(self) -> LogPlace
        requires { self.number + 1 < 2 ^ 32 }
        ensures { result
            ≡ record { number = self.number + 1; at = self.beside; beside = self.at } }
    {
        LogPlace {
            number: self.number + 1,
            at: self.beside,
            beside: self.at,
        }
    }
}

/// The redo area of a file: the pages behind its end that hold those of the last commit that wait.
#[derive(Clone, Copy, Debug, PartialEq, Eq)]
pub struct RedoArea {
    /// How the file's commits are made.
    pub kind: CommitKind,
    /// The first page that holds some: of the redo images, or of a log.
    pub start: u32,
    /// How many these are. None where no page waits.
    pub held: usize,
    /// Where they are a log.
    pub log: Option<LogPlace>,
}

impl RedoArea {
    /// That of a file where no page waits.
    pub fn empty(kind: CommitKind, end: u32) -> RedoArea
        ensures { result ≡ record { kind = kind; start = end; held = 0; log = None } }
    {
        RedoArea {
            kind,
            start: end,
            held: 0,
            log: None,
        }
    }

    /// Redo images from a page on.
    pub fn of_images(kind: CommitKind, start: u32, held: usize) -> RedoArea
        ensures { result ≡ record { kind = kind; start = start; held = held; log = None } }
    {
        RedoArea {
            kind,
            start,
            held,
            log: None,
        }
    }

    /// A log from a page on.
    pub fn in_log(start: u32, log: LogPlace) -> RedoArea
        ensures { result
            ≡ record { kind = Log; start = start; held = 32; log = Some log } }
    {
        RedoArea {
            kind: CommitKind::Log,
            start,
            held: LOG_PAGES,
            log: Some(log),
        }
    }

    /// A log from a page on, whose first slot has its first commit.
    pub fn of_log(start: u32) -> RedoArea
        requires { 4 * start + 64 < 2 ^ 32 }
        ensures { result ≡ record {
          kind = Log;
          start = start;
          held = 32;
          log = Some (record { number = 1; at = 4 * start; beside = 4 * start + 64 });
        } }
    {
        let log = LogPlace {
            number: 1,
            at: 4 * start,
            beside: 4 * start + 64,
        };
        RedoArea::in_log(start, log)
    }

    /// The same log with another newest commit.
    pub fn with_log(self, log: LogPlace) -> RedoArea
        ensures { result ≡ record {
          kind = self.kind;
          start = self.start;
          held = 32;
          log = Some log;
        } }
    {
        RedoArea {
            held: LOG_PAGES,
            log: Some(log),
            ..self
        }
    }
}
