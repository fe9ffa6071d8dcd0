// A script over a new database in memory.
ghost use Rattle.std.specs.Prelude.{◌≡◌, OnOk, IfOk, IfErr, IfSome, true, false};
ghost use Rattle.std.specs.FinMap.{empty};
ghost use Rattle.dbm_model.specs.Sizes.{is_limit};
ghost use Rattle.dbm_file.specs.Opened.{HasRoom, IsOpenedAt};
ghost use Rattle.dbm_engines.specs.MemoryFaults.{CanMeetInMemory, told_in_memory};
ghost use Rattle.dbm_engines.specs.Scripts.{AnswersInMemory, asked};

use crate::script_engine;
use dbm_fault::EngineFault;
use dbm_file::{Access, CommitKind, Db, Fault, OpenHow, Version, needed_sectors_of};
use dbm_lines::TextForm;
use sect_dev::MemDev;
use std::alloc::Global;
use std::io::{BufRead, Write};

/// Answers the script on `input`, which has lines of this form, by a new database in memory, of this
/// limit and version.
pub fn script_in_memory<R: BufRead, O: Write>(
    alloc: Global,
    limit: u32,
    version: Version,
    form: TextForm,
    input: &mut R,
    output: &mut O,
) -> Result<(), EngineFault>
    ensures answer { OnOk result (IfSome (R.remaining input.old)
        (λ text. AnswersInMemory form (asked limit version) text
        (O.contents output.old) (O.contents output.new))) }
    ensures limit { is_limit limit ≡ false → result ≡ Err (EngineFault.Db Fault.BadLimit) }
    ensures only { IfErr result (CanMeetInMemory limit) }
{
    let mut db = match new_in_memory(alloc, limit, version) {
        Ok(db) => db,
        Err(fault) => return Err(in_memory(fault)),
    };
    let done = script_engine(alloc, &mut db, form, input, output);
    let closed = close_in_memory(db);
    let flushed = output.flush();
    done?;
    closed?;
    flushed.map_err(|_| EngineFault::Write)
}

/// Closes a database in memory, which is refused where a growth of its device was.
fn close_in_memory(db: Db<MemDev>) -> Result<(), EngineFault>
    ensures { IfErr result (λ e. e ≡ EngineFault.Memory) }
{
    let (_, closed) = db.close();
    closed.map_err(in_memory)
}

/// Tells a fault of a database in memory. Its device fails only where a growth is refused.
fn in_memory(fault: Fault) -> EngineFault
    ensures { result ≡ told_in_memory fault }
{
    match fault {
        Fault::Device | Fault::Broken => EngineFault::Memory,
        other => EngineFault::Db(other),
    }
}

/// A new database of this version in memory, of at most `limit` pairs.
fn new_in_memory(alloc: Global, limit: u32, version: Version) -> Result<Db<MemDev>, Fault>
    ensures fresh { IfOk result (λ db. IsOpenedAt true db empty (asked limit version)) }
    ensures room { IfOk result HasRoom }
    ensures allowed { IfOk result (λ _. is_limit limit ≡ true) }
    ensures limit { is_limit limit ≡ false → result ≡ Err Fault.BadLimit }
    ensures only { is_limit limit ≡ true → IfErr result (λ e. e ≡ Fault.Device) }
{
    let Some(sectors) = needed_sectors_of(version, limit) else {
        return Err(Fault::BadLimit);
    };
    let how = OpenHow {
        access: Access::ReadWrite,
        create: true,
        exclusive: false,
        truncate: false,
        limit,
        version,
        commits: CommitKind::Images,
        kept_pages: None,
    };
    match Db::open(alloc, MemDev::new(alloc, sectors), how) {
        Ok(db) => Ok(db),
        Err((_, fault)) => Err(fault),
    }
}
