// What a rehearsal counts.
ghost use Rattle.std.specs.Prelude.{◌≡◌, ◌+◌, ◌-◌, ◌^◌, ◌<◌, OnOk};
ghost use Rattle.std.specs.Io.KnownBytes.{Appends};
ghost use Rattle.dbm_rehearse.specs.Counts.{count_line, counts_text, AreCounted};

use std::io::{self, Write};

/// How a stop ended.
#[derive(Clone, Copy, Debug, PartialEq, Eq)]
pub enum Outcome {
    /// The database wasn't opened again.
    NotReopened,
    /// It was, and held something else than it may.
    Lost,
    Kept,
}

/// What a rehearsal counted.
#[derive(Clone, Copy, Debug, PartialEq, Eq)]
pub struct Rehearsed {
    /// The calls of the script.
    pub calls: u64,
    /// The device calls of the session that isn't stopped.
    pub device_calls: u64,
    pub stops: u64,
    /// The stops after which the database was opened again, whichever unsynced writes had happened.
    pub reopened: u64,
    /// Those of them after which it held what it may.
    pub kept: u64,
    /// How many device calls there were before the first stop that isn't one of those.
    pub first_lost: Option<u64>,
}

impl Rehearsed {
    /// With no stop.
    pub fn new(calls: u64, device_calls: u64) -> Rehearsed
        ensures counted { AreCounted result }
        ensures sizes { (result.calls ≡ calls) × (result.device_calls ≡ device_calls)
            × (result.stops ≡ 0) }
    {
        Rehearsed {
            calls,
            device_calls,
            stops: 0,
            reopened: 0,
            kept: 0,
            first_lost: None,
        }
    }

    /// Counts a stop after so many device calls.
    pub fn add(&mut self, stop: u64, outcome: Outcome)
        requires counted { AreCounted self.old }
        requires fits { self.old.stops < 2 ^ 64 - 1 }
        ensures counted { AreCounted self.new }
        ensures sizes { (self.new.calls ≡ self.old.calls)
            × (self.new.device_calls ≡ self.old.device_calls)
            × (self.new.stops ≡ self.old.stops + 1) }
    {
        self.stops += 1;
        if outcome != Outcome::NotReopened {
            self.reopened += 1;
        }
        if outcome == Outcome::Kept {
            self.kept += 1;
        } else if self.first_lost.is_none() {
            self.first_lost = Some(stop);
        }
    }
}

/// Writes the counts, one a line.
pub fn write_counts<W: Write>(writer: &mut W, counts: &Rehearsed) -> io::Result<()>
    ensures { OnOk result (Appends (W.contents writer.old) (W.contents writer.new)
        (counts_text counts.now)) }
{
    write_count(writer, "calls", counts.calls)?;
    write_count(writer, "device calls", counts.device_calls)?;
    write_count(writer, "stops", counts.stops)?;
    write_count(writer, "reopened", counts.reopened)?;
    write_count(writer, "kept", counts.kept)
}

// Writes a count behind its name.
fn write_count<W: Write>(writer: &mut W, name: &str, count: u64) -> io::Result<()>
    ensures { OnOk result (Appends (W.contents writer.old) (W.contents writer.new)
        (count_line name.now count)) }
{
    writeln!(writer, "{name} {count}")
}
