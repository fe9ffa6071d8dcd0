// The command that looks a file through.
ghost use Rattle.std.specs.Prelude.{◌≡◌, ◌≢◌, ℕ, Ok, Err, IfOk, IsSome, OnOk, length};
ghost use Rattle.std.specs.Fmt.{decimal};
ghost use Rattle.std.specs.Io.KnownBytes.{Appends};
ghost use Rattle.dbm_lines.specs.Lines.{with_line_feed};
ghost use Rattle.dbm_fault.specs.Among.{IsErrAmong};
ghost use Rattle.dbm_file.specs.Database.{store_of, page_state};
ghost use Rattle.dbm_file.specs.Verifying.{IsFileOf};
ghost use Rattle.dbm_commands.specs.Verifying.{TellsPairs, verify_failures};

use crate::outcomes::unwritten;
use crate::{Failure, Outcome};
use dbm_fault::{EngineFault, Fault};
use dbm_file::{Database, Flaw, Watch};
use dbm_progress::{Progress, Work};
use page_io::PageStore;
use std::alloc::{AllocError, Global};
use std::io::{self, Write};

/// Tells a progress each bucket that was looked at, and keeps the flaw that was found.
#[derive(Drop)]
struct Steps<'a, P> {
    progress: &'a mut P,
    flaw: Option<Flaw>,
}

impl<P: Progress> Watch for Steps<'_, P> {
    ghost has_told = { λ steps told. steps.flaw ≡ told };

    fn bucket(&mut self) {
        self.progress.step(Work::BucketsVerified);
    }

    fn flaw(&mut self, flaw: Flaw) {
        self.flaw = Some(flaw);
    }
}

/// Looks at every page of the file, prints how many pairs it has, and flushes the output. Each
/// bucket that was looked at is a step of `progress`, which is cleared before the number is
/// printed. `Memory` is answered where there is none for a mark of each page, before the file is
/// read; then the call's faults come in its order, before anything is printed. After `Write` some
/// of the number may be out. Where the file is damaged, `flaw` is the first page that breaks a rule,
/// with the rule.
pub fn verify<S: PageStore, W: Write, P: Progress>(
    alloc: Global,
    db: &mut Database<S>,
    output: &mut W,
    flaw: &mut Option<Flaw>,
    progress: &mut P,
) -> Result<Outcome, Failure>
    ensures good { S.honest (store_of db.old)
        → OnOk result (TellsPairs (S.committed (store_of db.old)) (W.contents output.old)
        (W.contents output.new)) }
    ensures damaged { S.honest (store_of db.old)
        → result ≡ Err (Failure.Fault (EngineFault.Db Fault.Damaged)) → (pairs : ℕ)
        → IsFileOf (S.committed (store_of db.old)) pairs → ⊥ }
    ensures flaw { result ≡ Err (Failure.Fault (EngineFault.Db Fault.Damaged)) → IsSome flaw.new }
    ensures none { result ≢ Err (Failure.Fault (EngineFault.Db Fault.Damaged))
        → flaw.new ≡ flaw.old }
    ensures quiet { result ≢ Ok Outcome.Done → result ≢ Err (Failure.Fault EngineFault.Write)
        → output.new ≡ output.old }
    ensures done { IfOk result (λ outcome. outcome ≡ Outcome.Done) }
    ensures only { IsErrAmong result verify_failures }
{
    let Ok(mut marks) = marks_of(alloc, db) else {
        return Err(Failure::Fault(EngineFault::Memory));
    };
    let mut steps = Steps {
        progress,
        flaw: *flaw,
    };
    let looked = db.verify(&mut marks, &mut steps);
    *flaw = steps.flaw;
    let pairs = match looked {
        Ok(pairs) => pairs,
        Err(fault) => return Err(Failure::from(fault)),
    };
    progress.clear();
    match print_pairs(pairs, output) {
        Ok(()) => Ok(Outcome::Done),
        Err(error) => Err(unwritten(error)),
    }
}

/// A mark for each page of the file.
fn marks_of<S: PageStore>(alloc: Global, db: &Database<S>) -> Result<Vec<bool>, AllocError>
    ensures { IfOk result (λ marks. length marks.items ≡ (page_state db.now).end) }
{
    let pages = db.stat().pages as usize;
    Ok(vec![in alloc; false; pages]?)
}

/// Prints the number alone.
fn print_pairs<W: Write>(pairs: u32, output: &mut W) -> io::Result<()>
    ensures { OnOk result (Appends (W.contents output.old) (W.contents output.new)
        (with_line_feed (decimal pairs))) }
{
    writeln!(output, "{pairs}")?;
    output.flush()
}
