//! Loads in which lines share commits.
ghost use Rattle.std.specs.Prelude.{◌≡◌, ◌≤◌, Err, OnOk, IfSome, Some, [], length};
ghost use Rattle.dbm_file.specs.Answers.{IsSameDatabase};
ghost use Rattle.dbm_lines.specs.Forms.{pair_in, is_passed_in};
ghost use Rattle.dbm_engines.specs.Batches.{held_in, GroupsPair, GroupsLine};
ghost use Rattle.dbm_engines.specs.LoadEndings.{IsBadFor, TellsWhy};
ghost use Rattle.dbm_engines.specs.LoadRefusals.{StopsByFault};
ghost use Rattle.dbm_engines.specs.Loading.{Loads};

use crate::batch::Batch;
use crate::load_stop::LoadStop;
use crate::storing::{store_alone, store_batch};
use dbm_file::Database;
use dbm_lines::{Buffers, read_line};
use dbm_progress::Progress;
use page_io::PageStore;
use std::io::BufRead;

/// The engine with its buffers and a batch, which has no pair yet.
pub fn load_groups<S: PageStore, R: BufRead, P: Progress>(
    db: &mut Database<S>,
    reader: &mut R,
    buffers: &mut Buffers,
    batch: &mut Batch,
    progress: &mut P,
) -> Result<(), LoadStop>
    requires none { held_in batch.old ≡ [] }
    ensures loads { Loads buffers.old.form result (R.remaining reader.old) db.old db.new }
    ensures why { TellsWhy buffers.old.form result (R.remaining reader.old) }
    ensures read { OnOk result (IfSome (R.remaining reader.old)
        (λ text. R.remaining reader.new ≡ Some [])) }
    ensures size { OnOk result (IfSome (R.remaining reader.old)
        (λ text. length text ≤ 4294967295)) }
    ensures faults { StopsByFault result }
    ensures goes { IsSameDatabase db.old db.new }
    ensures no_memory { result ≡ Err LoadStop.Memory → ⊥ }
{
    let mut left = u32::MAX;
    for number in 1..u64::MAX {
        let Ok(read) = read_line(reader, buffers, &mut left) else {
            store_batch(db, batch, progress)?;
            return Err(LoadStop::Read);
        };
        if !read.is_line() {
            return store_batch(db, batch, progress);
        }
        group_line(db, buffers, batch, number, progress)?;
    }
    store_batch(db, batch, progress)?;
    Err(LoadStop::Read)
}

/// Puts the pair that the line says, which has this number, into the batch, and stores the batch
/// where it ends there. A line that is passed over leaves all as it is.
fn group_line<S: PageStore, P: Progress>(
    db: &mut Database<S>,
    buffers: &mut Buffers,
    batch: &mut Batch,
    number: u64,
    progress: &mut P,
) -> Result<(), LoadStop>
    ensures line { GroupsLine (is_passed_in buffers.old.form buffers.old.line.items) result
        (pair_in buffers.old.form buffers.old.line.items) number db.old db.new
        (held_in batch.old) (held_in batch.new) }
    ensures why { IsBadFor buffers.old.form buffers.old.line.items result }
    ensures form { buffers.new.form ≡ buffers.old.form }
    ensures faults { StopsByFault result }
    ensures goes { IsSameDatabase db.old db.new }
    ensures no_memory { result ≡ Err LoadStop.Memory → ⊥ }
{
    if buffers.is_passed_over() {
        return Ok(());
    }
    if !buffers.pair() {
        store_batch(db, batch, progress)?;
        let why = buffers.why_bad();
        return Err(LoadStop::Bad { line: number, why });
    }
    group_pair(db, batch, number, &buffers.key, &buffers.content, progress)
}

/// Puts the pair of the line of this number into the batch, and stores the batch where it is full,
/// or where there is no memory for the pair, which is then stored alone.
fn group_pair<S: PageStore, P: Progress>(
    db: &mut Database<S>,
    batch: &mut Batch,
    number: u64,
    key: &[u8],
    content: &[u8],
    progress: &mut P,
) -> Result<(), LoadStop>
    ensures pair { GroupsPair result (number, (key.now, content.now)) db.old db.new
        (held_in batch.old) (held_in batch.new) }
    ensures faults { StopsByFault result }
    ensures goes { IsSameDatabase db.old db.new }
{
    let Ok(()) = batch.keep(number, key, content) else {
        store_batch(db, batch, progress)?;
        return store_alone(db, number, key, content, progress);
    };
    if batch.is_full() {
        return store_batch(db, batch, progress);
    }
    Ok(())
}
