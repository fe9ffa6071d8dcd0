// What is in a database.
ghost use Rattle.std.specs.Prelude.{◌≡◌, true, IfOk};
ghost use Rattle.std.specs.FinMap.{entries};
ghost use Rattle.dbm_file.specs.Database.{AtEachHandle};
ghost use Rattle.dbm_engines.specs.Dumping.{bytes_of_pairs};
ghost use Rattle.dbm_fault.specs.Among.{IsAmong, IsErrAmong};
ghost use Rattle.dbm_rehearse.specs.Faults.{database_faults};

use crate::bounds::Bounds;
use crate::changes::Pairs;
use dbm_engines::gather_pairs;
use dbm_fault::EngineFault;
use dbm_file::{Access, CommitKind, Database, Db, Fault, OpenHow};
use dbm_progress::Silent;
use page_io::PageStore;
use sect_dev::MemDev;
use std::alloc::Global;

/// Opens a device for writing, and makes a database of these bounds where it is blank and there
/// are some.
pub fn open_device(
    alloc: Global,
    dev: MemDev,
    made: Option<Bounds>,
) -> Result<Db<MemDev>, EngineFault>
    ensures { IsErrAmong result database_faults }
{
    let Bounds { limit, version } = made.unwrap_or(Bounds::NONE);
    let how = OpenHow {
        access: Access::ReadWrite,
        create: made.is_some(),
        exclusive: false,
        truncate: false,
        limit,
        version,
        commits: CommitKind::Images,
        kept_pages: None,
    };
    match Db::open(alloc, dev, how) {
        Ok(db) => Ok(db),
        Err((_, fault)) => Err(engine_fault_of(fault)),
    }
}

/// The pairs of a database, by a pass and a fetch of each key. `Damaged` where the pass gives more
/// keys than the file counts pairs, or fewer, or one that fetch doesn't find.
pub fn pairs_in<S: PageStore>(alloc: Global, db: &mut Database<S>) -> Result<Pairs, EngineFault>
    ensures pairs { AtEachHandle db.old (λ h. h.state.usable ≡ true
        → IfOk result (λ pairs. bytes_of_pairs pairs ≡ entries h.state.map)) }
    ensures only { IsErrAmong result database_faults }
{
    match gather_pairs(alloc, db, &mut Silent) {
        Ok(pairs) => Ok(pairs),
        Err(EngineFault::Db(fault)) => Err(engine_fault_of(fault)),
        Err(_) => Err(EngineFault::Memory),
    }
}

/// A fault of a database in memory. Its device fails only where a growth is refused, and of the
/// others only damage explains those that it can't answer.
pub fn engine_fault_of(fault: Fault) -> EngineFault
    ensures { IsAmong result database_faults }
{
    match fault {
        Fault::Memory | Fault::Device | Fault::Broken => EngineFault::Memory,
        Fault::NotADatabase | Fault::Version | Fault::TooSmall | Fault::BadLimit => {
            EngineFault::Db(fault)
        }
        _ => EngineFault::Db(Fault::Damaged),
    }
}
