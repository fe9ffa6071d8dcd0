// The commands on one pair, and on the whole database.
ghost use Rattle.std.specs.Prelude.{◌≡◌, ◌≢◌, Ok, Err};
ghost use Rattle.dbm_file.specs.Replies.{told_of_store, told_of_delete, told_of_upgrade, told_of_bytes};
ghost use Rattle.dbm_file.specs.declared.calls.Call.TheVariants.{Store, Fetch, Delete, Upgrade};
ghost use Rattle.dbm_file.specs.declared.calls.Reply.TheVariants.{NoRecord};
ghost use Rattle.dbm_commands.specs.Outcomes.{IsTold, MakesCall};
ghost use Rattle.dbm_commands.specs.Printing.{IsFetched};

use crate::outcomes::unwritten;
use crate::printing::print_content;
use crate::{Failure, Outcome};
use dbm_command_line::Spelling;
use dbm_fault::{EngineFault, Fault};
use dbm_file::{Database, DeleteReply, StoreMode, StoreReply};
use page_io::PageStore;
use std::io::Write;

/// Stores a pair by one call, whose faults come in its order.
pub fn store<S: PageStore>(
    db: &mut Database<S>,
    key: &[u8],
    content: &[u8],
    mode: StoreMode,
) -> Result<Outcome, Failure>
    ensures { MakesCall db.old db.new (Store key.now content.now mode) (IsTold result) }
{
    store_outcome(db.store(key, content, mode))
}

/// Deletes a pair by one call, whose faults come in its order.
pub fn delete<S: PageStore>(db: &mut Database<S>, key: &[u8]) -> Result<Outcome, Failure>
    ensures { MakesCall db.old db.new (Delete key.now) (IsTold result) }
{
    delete_outcome(db.delete(key))
}

/// Makes the database one of version 2 by one call, whose faults come in its order.
pub fn upgrade<S: PageStore>(db: &mut Database<S>) -> Result<Outcome, Failure>
    ensures { MakesCall db.old db.new Upgrade (IsTold result) }
{
    upgrade_outcome(db.upgrade())
}

/// Prints the content that the key has, as it is or as a word, and a line feed, and flushes the
/// output. The call's faults come in its order, before anything is printed. After `Write` some of
/// the content may be out.
pub fn fetch<S: PageStore, W: Write>(
    db: &mut Database<S>,
    key: &[u8],
    spelling: Spelling,
    output: &mut W,
) -> Result<Outcome, Failure>
    ensures call { MakesCall db.old db.new (Fetch key.now)
        (IsFetched spelling (W.contents output.old) (W.contents output.new) result) }
    ensures quiet { result ≢ Ok Outcome.Done → result ≢ Err (Failure.Fault EngineFault.Write)
        → output.new ≡ output.old }
{
    print_fetched(db.fetch(key), spelling, output)
}

/// What a store tells.
fn store_outcome(ended: Result<StoreReply, Fault>) -> Result<Outcome, Failure>
    ensures { IsTold result (told_of_store ended) }
{
    match ended {
        Ok(StoreReply::Stored) => Ok(Outcome::Done),
        Ok(StoreReply::Kept) => Ok(Outcome::Nothing),
        Err(fault) => Err(Failure::from(fault)),
    }
}

/// What a delete tells.
fn delete_outcome(ended: Result<DeleteReply, Fault>) -> Result<Outcome, Failure>
    ensures { IsTold result (told_of_delete ended) }
{
    match ended {
        Ok(DeleteReply::Deleted) => Ok(Outcome::Done),
        Ok(DeleteReply::Absent) => Ok(Outcome::Nothing),
        Err(fault) => Err(Failure::from(fault)),
    }
}

/// What an upgrade tells.
fn upgrade_outcome(ended: Result<(), Fault>) -> Result<Outcome, Failure>
    ensures { IsTold result (told_of_upgrade ended) }
{
    match ended {
        Ok(()) => Ok(Outcome::Done),
        Err(fault) => Err(Failure::from(fault)),
    }
}

/// Prints the content that was fetched before the next call ends it.
fn print_fetched<W: Write>(
    found: Result<Option<&[u8]>, Fault>,
    spelling: Spelling,
    output: &mut W,
) -> Result<Outcome, Failure>
    ensures told { IsFetched spelling (W.contents output.old) (W.contents output.new) result
        (told_of_bytes NoRecord found.entry) }
    ensures quiet { result ≢ Ok Outcome.Done → result ≢ Err (Failure.Fault EngineFault.Write)
        → output.new ≡ output.old }
{
    match found {
        Ok(Some(content)) => match print_content(content, spelling, output) {
            Ok(()) => Ok(Outcome::Done),
            Err(error) => Err(unwritten(error)),
        },
        Ok(None) => Ok(Outcome::Nothing),
        Err(fault) => Err(Failure::from(fault)),
    }
}
