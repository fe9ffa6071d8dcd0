// The pairs of a whole database.
ghost use Rattle.std.specs.Prelude.{◌≡◌, true, false, IfOk, MatchResult, Err, ◌∷◌, []};
ghost use Rattle.dbm_fault.specs.Among.{IsErrAmong};
ghost use Rattle.std.specs.BTreeMap.{btree_map_len};
ghost use Rattle.std.specs.FinMap.{entries};
ghost use Rattle.dbm_model.specs.Bounds.{V2};
ghost use Rattle.dbm_file.specs.Database.{meta_kept, page_state, AtEachHandle};
ghost use Rattle.dbm_engines.specs.Dumping.{Reads, IsPairChance, bytes_of_pairs};

use crate::gather::{copy_content, copy_first, copy_next};
use dbm_fault::EngineFault;
use dbm_file::{Database, Fault};
use dbm_progress::{Progress, Work};
use page_io::PageStore;
use std::alloc::Global;
use std::collections::BTreeMap;

/// The pairs of the database, by a pass. Each content is fetched right behind the step that gave its
/// key, while their page is in memory. `Damaged` where the pass gives more keys than the file counts
/// pairs, or fewer, or a key that has no content.
pub fn gather_pairs<S: PageStore, P: Progress>(
    alloc: Global,
    db: &mut Database<S>,
    progress: &mut P,
) -> Result<BTreeMap<Vec<u8>, Vec<u8>>, EngineFault>
    ensures pairs { AtEachHandle db.old (λ h.
        h.state.usable ≡ true → MatchResult result
        (λ pairs. bytes_of_pairs pairs ≡ entries h.state.map) (IsPairChance h.state.map)) }
    ensures counted { IfOk result (λ pairs. btree_map_len pairs ≡ (meta_kept db.old).pairs) }
    ensures reads { Reads db.old db.new result }
    ensures broken { (page_state db.old).usable ≡ false
        → result ≡ Err (EngineFault.Db Fault.Broken) }
    ensures memory { result ≡ Err (EngineFault.Db Fault.Memory)
        → (meta_kept db.old).bounds.version ≡ V2 }
    ensures only { IsErrAmong result
        (EngineFault.Memory ∷ EngineFault.Db Fault.Broken ∷ EngineFault.Db Fault.NoPass
        ∷ EngineFault.Db Fault.Device ∷ EngineFault.Db Fault.Damaged
        ∷ EngineFault.Db Fault.Memory ∷ []) }
{
    let most = db.stat().pairs;
    let mut pairs = BTreeMap::new(alloc);
    let mut given = copy_first(alloc, db)?;
    for _step in 0..most {
        let Some(key) = given else {
            return Err(EngineFault::Db(Fault::Damaged));
        };
        let Some(content) = copy_content(alloc, db, &key)? else {
            return Err(EngineFault::Db(Fault::Damaged));
        };
        pairs.insert(key, content).map_err(|_| EngineFault::Memory)?;
        progress.step(Work::PairsRead);
        given = copy_next(alloc, db)?;
    }
    if given.is_some() || pairs.len() < most as usize {
        return Err(EngineFault::Db(Fault::Damaged));
    }
    Ok(pairs)
}
