// Tables that are replaced whole.
ghost use Rattle.std.specs.Prelude.{◌≡◌, ◌≤◌, OnOk, IfErr, IfSome, Some, [], length};
ghost use Rattle.dbm_aside.specs.Stops.{IsOfDatabase, IsOfLoad};

use crate::building::Building;
use crate::copying::copy_engine;
use crate::filling::fill;
use crate::stop::Stop;
use dbm_engines::{LoadStop, as_engine};
use dbm_lines::TextForm;
use dbm_progress::Progress;
use std::alloc::Global;
use std::fs::File;
use std::io::BufRead;
use std::rt::Files;

/// Replaces a table by one that has the pairs of a text, and answers how many these are. The new one
/// is built beside the old one (`begin_building`). It is loaded as by `fill`, closed, synced and
/// looked through, and then renamed, and the folder synced. The old table is open for reading all
/// the while: those that read it go on, and nobody writes it.
///
/// Whatever is refused, and wherever it is stopped, the table of the name is the old one whole or
/// the new one whole. It is refused as a load, a closing and `verify` are. Where the load is what
/// stopped, `load_stop` says at which line. Where the folder can't be synced after the renaming,
/// `Device`, and the new table stands.
pub fn replace<T: Files<File = File>, R: BufRead, P: Progress>(
    rt: &T,
    alloc: Global,
    building: Building,
    form: TextForm,
    input: &mut R,
    load_stop: &mut Option<LoadStop>,
    progress: &mut P,
) -> Result<u32, Stop>
    ensures read { OnOk result (IfSome (R.remaining input.old)
        (λ text. R.remaining input.new ≡ Some [])) }
    ensures size { OnOk result (IfSome (R.remaining input.old)
        (λ text. length text ≤ 4294967295)) }
    ensures only { IfErr result (λ stop. IsOfLoad stop.fault) }
{
    let mut building = building;
    let filled = fill(alloc, &mut building.new, input, form, progress);
    *load_stop = filled.err();
    building.end(rt, alloc, as_engine(filled), progress)
}

/// Replaces a table by one with the same pairs, which makes its file as small as a load does. It goes
/// as `replace`; `Full` where the table has more pairs than the limit of the new one allows, before a
/// pair is copied.
pub fn resize<T: Files<File = File>, P: Progress>(
    rt: &T,
    alloc: Global,
    building: Building,
    progress: &mut P,
) -> Result<u32, Stop>
    ensures { IfErr result (λ stop. IsOfDatabase stop.fault) }
{
    let mut building = building;
    let filled = copy_engine(alloc, &mut building.old, &mut building.new, progress);
    building.end(rt, alloc, filled, progress)
}
