// The engine of a rehearsal.
ghost use Rattle.std.specs.Prelude.{◌≡◌, ◌≤◌, ◌<◌, ◌↔◌, ◌++◌, [], OnOk, IfOk, IfSome, IsSome, Some, length};
ghost use Rattle.std.specs.Io.KnownBytes.{Appends};
ghost use Rattle.dbm_fault.specs.Among.{IsErrAmong};
ghost use Rattle.dbm_lines.specs.Scripts.{script_of, calls_in};
ghost use Rattle.dbm_rehearse.specs.Counts.{counts_text, stops_of, AreCounted};
ghost use Rattle.dbm_rehearse.specs.Lines.{bad_lines};
ghost use Rattle.dbm_rehearse.specs.Faults.{database_faults, rehearsal_faults};

use crate::bounds::Bounds;
use crate::changes::changes_of;
use crate::reading::read_calls;
use crate::report::{Rehearsed, write_counts};
use crate::stopping::{Rehearsal, pairs_before, run_unstopped};
use dbm_fault::EngineFault;
use dbm_file::Call;
use dbm_progress::Progress;
use sect_dev::MemDev;
use std::alloc::Global;
use std::io::{BufRead, Write};

/// Reads a script to its end, makes its calls on a copy of the device, as a stop now leaves that
/// with none of its unsynced writes, and stops this session before each of its device calls, or
/// before as many of them as `stops` says, evenly spread. Where the device is blank a database is
/// made of the bounds `made`, if there are some. Each stop is looked at with four choices of the
/// unsynced writes, and its reopening is stopped once more. A line may have 139,264 bytes without
/// its line feed, and a text 4,294,967,295. `Memory` comes where a growth is refused, `Read` where
/// reading fails or the text is too long, `Write` where writing fails, and `Db` where the database
/// can't be opened or read that is on the device. Nothing is flushed. Each stop that was made is a
/// step of `progress`, which is cleared before the counts are written.
pub fn rehearse_script<R: BufRead, W: Write, P: Progress>(
    alloc: Global,
    dev: &MemDev,
    made: Option<Bounds>,
    stops: Option<u32>,
    reader: &mut R,
    writer: &mut W,
    progress: &mut P,
) -> Result<Rehearsed, EngineFault>
    // Each bad line is answered, and then the counts are told.
    ensures printed { IfOk result (λ counts. IfSome (R.remaining reader.old)
        (λ text. Appends (W.contents writer.old) (W.contents writer.new)
        (bad_lines (script_of text) ++ counts_text counts))) }
    ensures read { OnOk result (IfSome (R.remaining reader.old)
        (λ text. R.remaining reader.new ≡ Some [])) }
    ensures calls { IfOk result (λ counts. IfSome (R.remaining reader.old)
        (λ text. counts.calls ≡ length (calls_in (script_of text)))) }
    ensures stops { IfOk result (λ counts. counts.stops ≡ stops_of stops counts.device_calls) }
    ensures counted { IfOk result (λ counts.
        (counts.kept ≤ counts.reopened) × (counts.reopened ≤ counts.stops)) }
    ensures named { IfOk result (λ counts.
        IsSome counts.first_lost ↔ (counts.kept < counts.stops)) }
    ensures only { IsErrAmong result rehearsal_faults }
{
    let calls = read_calls(alloc, reader, writer)?;
    let counted = rehearse_calls(alloc, dev, made, stops, calls.as_slice(), progress);
    progress.clear();
    let counts = counted?;
    write_counts(writer, &counts).map_err(|_| EngineFault::Write)?;
    Ok(counts)
}

// Rehearses some calls.
fn rehearse_calls<P: Progress>(
    alloc: Global,
    dev: &MemDev,
    made: Option<Bounds>,
    stops: Option<u32>,
    calls: &[Call],
    progress: &mut P,
) -> Result<Rehearsed, EngineFault>
    ensures counted { IfOk result AreCounted }
    ensures sizes { IfOk result (λ counts. (counts.calls ≡ length calls.now)
        × (counts.stops ≡ stops_of stops counts.device_calls)) }
    ensures only { IsErrAmong result database_faults }
{
    let before = pairs_before(alloc, dev, made)?;
    let (replies, device_calls) = run_unstopped(alloc, dev, made, calls)?;
    let rehearsal = Rehearsal {
        alloc,
        dev,
        made,
        calls,
        changes: changes_of(alloc, &before, calls, replies.as_slice()).map_err(
            |_| EngineFault::Memory,
        )?,
        before,
    };
    rehearsal
        .make_stops(device_calls, stops, progress)
        .map_err(|_| EngineFault::Memory)
}
