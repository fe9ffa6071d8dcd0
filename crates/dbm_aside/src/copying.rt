// The engine that copies pairs.
ghost use Rattle.std.specs.Prelude.{◌≡◌, ◌<◌, true, OnOk, IfOk, Err, map};
ghost use Rattle.std.specs.FinMap.{empty};
ghost use Rattle.dbm_fault.specs.Among.{IsErrAmong};
ghost use Rattle.dbm_file.specs.Answers.{IsSameDatabase};
ghost use Rattle.dbm_file.specs.Database.{meta_kept, AtEachHandle};
ghost use Rattle.dbm_engines.specs.Storing.{pair_of};
ghost use Rattle.dbm_engines.specs.Dumping.{Stays, bytes_of_pairs};
ghost use Rattle.dbm_aside.specs.Copying.{HasMap, CopiesPairs, StoresPairs, StopsWithinMap, copy_faults};

use dbm_engines::{gather_pairs, store_pairs};
use dbm_fault::EngineFault;
use dbm_file::{Database, Fault, Pair};
use dbm_progress::{Progress, Work};
use page_io::PageStore;
use std::alloc::{AllocError, Global};
use std::collections::BTreeMap;

/// Tells each pair that was stored as one that was written.
#[derive(Drop)]
struct Written<'a, P> {
    progress: &'a mut P,
}

impl<P: Progress> Progress for Written<'_, P> {
    fn step(&mut self, _work: Work) {
        self.progress.step(Work::PairsWritten);
    }

    fn clear(&mut self) {
        self.progress.clear();
    }
}

/// Stores each pair of one database in another one, in as few commits as they go into. It reads
/// everything before it stores, by a pass and a fetch of each key behind the step that gave it, and
/// keeps the pairs in memory until it ends. `Full` comes first, with no device call, where there are
/// more pairs than the limit of the other one; then the faults of a dump, and then those of a store,
/// with what was stored so far. Each pair that was read or stored is a step of `progress`, which is
/// cleared before the first one is stored.
pub fn copy_engine<S: PageStore, T: PageStore, P: Progress>(
    alloc: Global,
    from: &mut Database<S>,
    to: &mut Database<T>,
    progress: &mut P,
) -> Result<(), EngineFault>
    // An empty database has then exactly the map of the first one.
    ensures copies { AtEachHandle from.old (λ h. h.state.usable ≡ true → AtEachHandle to.old (λ t.
        t.state.map ≡ empty → OnOk result (HasMap to.new h.state.map))) }

    // Otherwise it has what it had, or some of the map's pairs, in the order of their keys.
    ensures stops { AtEachHandle from.old (λ h. h.state.usable ≡ true
        → StopsWithinMap result to.old to.new h.state.map) }

    // Whatever it answers, the map of the first one stays.
    ensures reads { AtEachHandle from.old (Stays from.old from.new) }

    // On any device.
    ensures counted { OnOk result (CopiesPairs (meta_kept from.old).pairs to.old to.new) }
    ensures full { (meta_kept to.old).bounds.limit < (meta_kept from.old).pairs
        → (result ≡ Err (EngineFault.Db Fault.Full)) × (to.new ≡ to.old) }
    ensures source { IsSameDatabase from.old from.new }
    ensures goes { IsSameDatabase to.old to.new }
    ensures only { IsErrAmong result copy_faults }
{
    if to.stat().limit < from.stat().pairs {
        return Err(EngineFault::Db(Fault::Full));
    }
    let pairs = gather_pairs(alloc, from, progress)?;
    progress.clear();
    store_map(alloc, to, pairs, progress)
}

/// Stores each of these pairs.
fn store_map<T: PageStore, P: Progress>(
    alloc: Global,
    to: &mut Database<T>,
    pairs: BTreeMap<Vec<u8>, Vec<u8>>,
    progress: &mut P,
) -> Result<(), EngineFault>
    ensures stores { StoresPairs result to.old to.new (bytes_of_pairs pairs) }
    ensures goes { IsSameDatabase to.old to.new }
    ensures only { IsErrAmong result copy_faults }
{
    let Ok(pairs) = listed(alloc, pairs) else {
        return Err(EngineFault::Memory);
    };
    match store_pairs(to, &pairs, &mut Written { progress }) {
        Ok(()) => Ok(()),
        Err(stop) => Err(EngineFault::Db(stop.fault)),
    }
}

/// These pairs as a list, in the order of their keys.
fn listed(alloc: Global, pairs: BTreeMap<Vec<u8>, Vec<u8>>) -> Result<Vec<Pair>, AllocError>
    ensures { IfOk result (λ listed. map pair_of listed.items ≡ bytes_of_pairs pairs) }
{
    let mut listed = Vec::new(alloc);
    for (key, content) in pairs {
        listed.push(Pair { key, content })?;
    }
    Ok(listed)
}
