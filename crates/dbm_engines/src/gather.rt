// The keys of a whole database, and copies of what its calls lend.
ghost use Rattle.std.specs.Prelude.{◌≡◌, true, false, IfOk, MatchResult, Err, ◌∷◌, []};
ghost use Rattle.dbm_fault.specs.Among.{IsErrAmong};
ghost use Rattle.std.specs.BTreeSet.{btree_set_len};
ghost use Rattle.std.specs.FinMap.{keys as map_keys};
ghost use Rattle.dbm_model.specs.Bounds.{V2};
ghost use Rattle.dbm_model.specs.Calls.{Fetch, First, Next, NoRecord, End};
ghost use Rattle.dbm_file.specs.Database.{meta_kept, page_state, AtEachHandle};
ghost use Rattle.dbm_engines.specs.Dumping.{Reads, IsChance, bytes_of_keys, IsCopied, CopiesStep};

use dbm_fault::EngineFault;
use dbm_file::{Database, Fault};
use dbm_progress::{Progress, Work};
use page_io::PageStore;
use std::alloc::Global;
use std::collections::BTreeSet;

/// The keys of the database, by a pass. `Damaged` where the pass gives more keys than the file
/// counts pairs, or fewer.
pub fn gather_keys<S: PageStore, P: Progress>(
    alloc: Global,
    db: &mut Database<S>,
    progress: &mut P,
) -> Result<BTreeSet<Vec<u8>>, EngineFault>
    ensures keys { AtEachHandle db.old (λ h.
        h.state.usable ≡ true → MatchResult result
        (λ keys. bytes_of_keys keys ≡ map_keys h.state.map) IsChance) }
    ensures counted { IfOk result (λ keys. btree_set_len keys ≡ (meta_kept db.old).pairs) }
    ensures reads { Reads db.old db.new result }
    ensures broken { (page_state db.old).usable ≡ false
        → result ≡ Err (EngineFault.Db Fault.Broken) }
    ensures only { IsErrAmong result
        (EngineFault.Memory ∷ EngineFault.Db Fault.Broken ∷ EngineFault.Db Fault.NoPass
        ∷ EngineFault.Db Fault.Device ∷ EngineFault.Db Fault.Damaged ∷ []) }
{
    let most = db.stat().pairs;
    let mut keys = BTreeSet::new(alloc);
    let mut given = copy_first(alloc, db)?;
    for _step in 0..most {
        let Some(key) = given else {
            return Err(EngineFault::Db(Fault::Damaged));
        };
        keys.insert(key).map_err(|_| EngineFault::Memory)?;
        progress.step(Work::KeysRead);
        given = copy_next(alloc, db)?;
    }
    if given.is_some() || keys.len() < most as usize {
        return Err(EngineFault::Db(Fault::Damaged));
    }
    Ok(keys)
}

/// The first key of a new pass.
pub fn copy_first<S: PageStore>(
    alloc: Global,
    db: &mut Database<S>,
) -> Result<Option<Vec<u8>>, EngineFault>
    ensures step { AtEachHandle db.old (λ h. CopiesStep db.old db.new h First End result) }
    ensures reads { Reads db.old db.new result }
    ensures broken { (page_state db.old).usable ≡ false
        → result ≡ Err (EngineFault.Db Fault.Broken) }
    ensures only { IsErrAmong result
        (EngineFault.Memory ∷ EngineFault.Db Fault.Broken ∷ EngineFault.Db Fault.Device
        ∷ EngineFault.Db Fault.Damaged ∷ []) }
{
    copied(alloc, db.firstkey())
}

/// The next key of the pass.
pub fn copy_next<S: PageStore>(
    alloc: Global,
    db: &mut Database<S>,
) -> Result<Option<Vec<u8>>, EngineFault>
    ensures step { AtEachHandle db.old (λ h. CopiesStep db.old db.new h Next End result) }
    ensures reads { Reads db.old db.new result }
    ensures only { IsErrAmong result
        (EngineFault.Memory ∷ EngineFault.Db Fault.Broken ∷ EngineFault.Db Fault.NoPass
        ∷ EngineFault.Db Fault.Device ∷ EngineFault.Db Fault.Damaged ∷ []) }
{
    copied(alloc, db.nextkey())
}

/// The content of the key.
pub fn copy_content<S: PageStore>(
    alloc: Global,
    db: &mut Database<S>,
    key: &[u8],
) -> Result<Option<Vec<u8>>, EngineFault>
    ensures step { AtEachHandle db.old
        (λ h. CopiesStep db.old db.new h (Fetch key.now) NoRecord result) }
    ensures reads { Reads db.old db.new result }
    ensures memory { result ≡ Err (EngineFault.Db Fault.Memory)
        → (meta_kept db.old).bounds.version ≡ V2 }
    ensures only { IsErrAmong result
        (EngineFault.Memory ∷ EngineFault.Db Fault.Broken ∷ EngineFault.Db Fault.Device
        ∷ EngineFault.Db Fault.Damaged ∷ EngineFault.Db Fault.Memory ∷ []) }
{
    copied(alloc, db.fetch(key))
}

/// A copy of the bytes that a call lends.
fn copied(alloc: Global, lent: Result<Option<&[u8]>, Fault>) -> Result<Option<Vec<u8>>, EngineFault>
    ensures { IsCopied lent.entry result }
{
    match lent {
        Ok(Some(bytes)) => match Vec::from_slice(alloc, bytes) {
            Ok(copy) => Ok(Some(copy)),
            Err(_) => Err(EngineFault::Memory),
        },
        Ok(None) => Ok(None),
        Err(fault) => Err(EngineFault::Db(fault)),
    }
}
