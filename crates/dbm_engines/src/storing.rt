//! Stores of the pairs of lines, alone and many in one commit.
ghost use Rattle.std.specs.Prelude.{◌≡◌, ◌≤◌, ◌<◌, OnOk, IfErr, IfOk, [], length, map};
ghost use Rattle.dbm_fault.specs.Among.{IsAmong, IsErrAmong};
ghost use Rattle.dbm_file.specs.Answers.{IsSameDatabase};
ghost use Rattle.dbm_file.specs.Replies.{store_faults};
ghost use Rattle.dbm_engines.specs.LoadRefusals.{StopsByFault};
ghost use Rattle.dbm_engines.specs.Batches.{held_in, StoresBatch};
ghost use Rattle.dbm_engines.specs.Storing.{pair_of, StoresPair, StoresAlone, StoresSome, StoresEach};

use crate::batch::Batch;
use crate::load_stop::LoadStop;
use dbm_file::{Database, Fault, Pair, StoreMode};
use dbm_progress::{Progress, Work};
use page_io::PageStore;

/// A store of pairs that was refused.
#[derive(Clone, Copy, Debug, PartialEq, Eq)]
pub struct StoreStop {
    pub fault: Fault,
    /// How many of the pairs had been stored, from the first one on.
    pub stored: usize,
}

/// Stores a pair by a store of its own, in place of an older one of its key.
pub fn store_pair<S: PageStore>(
    db: &mut Database<S>,
    key: &[u8],
    content: &[u8],
) -> Result<(), Fault>
    ensures stores { StoresPair result db.old db.new (key.now, content.now) }
    ensures only { IsErrAmong result store_faults }
    ensures goes { IsSameDatabase db.old db.new }
{
    match db.store(key, content, StoreMode::Replace) {
        Ok(_) => Ok(()),
        Err(fault) => Err(fault),
    }
}

/// Stores the pair of the line of this number so.
pub fn store_alone<S: PageStore, P: Progress>(
    db: &mut Database<S>,
    line: u64,
    key: &[u8],
    content: &[u8],
    progress: &mut P,
) -> Result<(), LoadStop>
    ensures stores { StoresAlone result line db.old db.new (key.now, content.now) }
    ensures faults { StopsByFault result }
    ensures goes { IsSameDatabase db.old db.new }
{
    match store_pair(db, key, content) {
        Ok(()) => {
            progress.step(Work::LinesLoaded);
            Ok(())
        }
        Err(fault) => Err(LoadStop::Refused { line, fault }),
    }
}

/// Stores the pairs of a batch, which then has none.
pub fn store_batch<S: PageStore, P: Progress>(
    db: &mut Database<S>,
    batch: &mut Batch,
    progress: &mut P,
) -> Result<(), LoadStop>
    ensures stores { StoresBatch result db.old db.new (held_in batch.old) }
    ensures none { OnOk result (held_in batch.new ≡ []) }
    ensures faults { StopsByFault result }
    ensures goes { IsSameDatabase db.old db.new }
{
    match store_pairs(db, &batch.pairs, progress) {
        Ok(()) => {
            batch.clear();
            Ok(())
        }
        Err(stop) => Err(LoadStop::Refused {
            line: batch.lines[stop.stored],
            fault: stop.fault,
        }),
    }
}

/// Stores pairs, in as few commits as they go into. Each that was stored is a step of `progress`.
pub fn store_pairs<S: PageStore, P: Progress>(
    db: &mut Database<S>,
    pairs: &[Pair],
    progress: &mut P,
) -> Result<(), StoreStop>
    ensures stores { StoresEach result db.old db.new (map pair_of pairs.now) }
    ensures within { IfErr result (λ stop. stop.stored < length pairs.now) }
    ensures only { IfErr result (λ stop. IsAmong stop.fault store_faults) }
    ensures goes { IsSameDatabase db.old db.new }
{
    let mut done = 0;
    for _round in 0..pairs.len() {
        if done >= pairs.len() {
            return Ok(());
        }
        match store_some(db, &pairs[done..]) {
            Ok(stored) => {
                tell(progress, stored);
                done += stored;
            }
            Err(fault) => {
                return Err(StoreStop {
                    fault,
                    stored: done,
                });
            }
        }
    }
    Ok(())
}

/// So many lines were stored.
fn tell<P: Progress>(progress: &mut P, lines: usize) {
    for _ in 0..lines {
        progress.step(Work::LinesLoaded);
    }
}

/// Stores the first of the pairs, and those behind it that go into one commit with it, and answers
/// how many.
fn store_some<S: PageStore>(db: &mut Database<S>, pairs: &[Pair]) -> Result<usize, Fault>
    requires { 0 < length pairs.now }
    ensures stores { StoresSome result db.old db.new (map pair_of pairs.now) }
    ensures within { IfOk result (λ stored. (0 < stored) × (stored ≤ length pairs.now)) }
    ensures only { IsErrAmong result store_faults }
    ensures goes { IsSameDatabase db.old db.new }
{
    let stored = db.store_many(pairs)?;
    if stored > 0 {
        return Ok(stored);
    }
    let first = &pairs[0];
    store_pair(db, &first.key, &first.content)?;
    Ok(1)
}
