// Sessions that are stopped.
ghost use Rattle.std.specs.Prelude.{◌≡◌, ◌<◌, ◌%◌, ◌↔◌, All, Contains, IfOk, length};
ghost use Rattle.dbm_fault.specs.Among.{IsErrAmong};
ghost use Rattle.rehearsal.specs.Rehearsals.{IsCutAfter};
ghost use Rattle.dbm_rehearse.specs.Counts.{stops_of, AreCounted};
ghost use Rattle.dbm_rehearse.specs.Faults.{database_faults};

use crate::bounds::Bounds;
use crate::changes::{Change, Pairs, acknowledged, is_kept};
use crate::choices::{CHOICES, Choice, marks};
use crate::finding::{engine_fault_of, open_device, pairs_in};
use crate::report::{Outcome, Rehearsed};
use dbm_fault::EngineFault;
use dbm_file::{Call, CommitKind, Fault, Reply};
use dbm_progress::{Progress, Work};
use rehearsal::{Ending, Opening, Stopped, stopped_session};
use sect_dev::MemDev;
use std::alloc::{AllocError, Global};

// The reopening is stopped after less device calls than this. One that ends a commit takes 33, and
// 57 where a bucket is split; a store takes 26, so with a prime each place in a store meets each of
// those in a reopening.
const REOPENING: u64 = 61;

/// A session on a device, to be stopped.
#[derive(Drop)]
pub struct Rehearsal<'a> {
    pub alloc: Global,
    pub dev: &'a MemDev,
    /// Of the database that is made where the device is blank.
    pub made: Option<Bounds>,
    pub calls: &'a [Call],
    /// What is in the database before.
    pub before: Pairs,
    /// What the calls change in it.
    pub changes: Vec<Change<'a>>,
}

impl<'a> Rehearsal<'a> {
    /// Stops the session before each of its device calls, or before so many of them, evenly spread.
    pub fn make_stops<P: Progress>(
        &self,
        device_calls: u64,
        most: Option<u32>,
        progress: &mut P,
    ) -> Result<Rehearsed, AllocError>
        ensures counted { IfOk result AreCounted }
        ensures sizes { IfOk result (λ counts. (counts.calls ≡ length self.now.calls.now)
            × (counts.device_calls ≡ device_calls)
            × (counts.stops ≡ stops_of most device_calls)) }
    {
        let stops = most.map_or(device_calls, |most| device_calls.min(u64::from(most)));
        let mut counts = Rehearsed::new(self.calls.len() as u64, device_calls);
        for i in 0..stops {
            let stop = spread(i, stops, device_calls);
            counts.add(stop, self.outcome_at(stop)?);
            progress.step(Work::StopsMade);
        }
        Ok(counts)
    }

    // Stops the session after so many device calls, and the reopening of what is left once more,
    // with each choice of the unsynced writes. The worst of them counts.
    fn outcome_at(&self, stop: u64) -> Result<Outcome, AllocError> {
        let (left, stopped) = self.stopped_at(stop)?;
        let acknowledged = acknowledged(replies_of(&stopped.ending)?);
        let mut outcomes = Vec::new(self.alloc);
        for choice in CHOICES {
            outcomes.push(self.reopen(&left, acknowledged, choice, stop)?)?;
        }
        Ok(worst(outcomes.as_slice()))
    }

    // The session, stopped.
    fn stopped_at(&self, stop: u64) -> Result<(MemDev, Stopped), AllocError>
        ensures cut { IfOk result (λ r. IsCutAfter stop r.1) }
    {
        cut_session(self.alloc, self.dev, &[], stop, self.made, self.calls)
    }

    // How it ends where these unsynced writes have happened.
    fn reopen(
        &self,
        left: &MemDev,
        acknowledged: usize,
        choice: Choice,
        stop: u64,
    ) -> Result<Outcome, AllocError> {
        let keep = marks(self.alloc, choice, left.pending(), stop)?;
        let (cut, _) = self.reopening_stopped(left, keep.as_slice(), stop)?;
        let keep = marks(self.alloc, choice, cut.pending(), stop)?;
        let left = cut.crashed(self.alloc, keep.as_slice())?;
        let mut db = match open_device(self.alloc, left, self.made) {
            Ok(db) => db,
            Err(EngineFault::Memory) => return Err(AllocError),
            Err(_) => return Ok(Outcome::NotReopened),
        };
        match pairs_in(self.alloc, &mut db) {
            Ok(found) => self.outcome_of(acknowledged, &found),
            Err(EngineFault::Memory) => Err(AllocError),
            Err(_) => Ok(Outcome::Lost),
        }
    }

    // The opening of what is left with these of the unsynced writes, stopped.
    fn reopening_stopped(
        &self,
        left: &MemDev,
        keep: &[bool],
        stop: u64,
    ) -> Result<(MemDev, Stopped), AllocError>
        ensures cut { IfOk result (λ r. IsCutAfter (stop % 61) r.1) }
    {
        cut_session(self.alloc, left, keep, stop % REOPENING, self.made, &[])
    }

    // How it ends where these pairs are found.
    fn outcome_of(&self, acknowledged: usize, found: &Pairs) -> Result<Outcome, AllocError> {
        let changes = self.changes.as_slice();
        let kept = is_kept(self.alloc, &self.before, changes, acknowledged, found)?;
        Ok(if kept { Outcome::Kept } else { Outcome::Lost })
    }
}

/// The replies of the session that isn't stopped, and how many device calls it makes.
pub fn run_unstopped(
    alloc: Global,
    dev: &MemDev,
    made: Option<Bounds>,
    calls: &[Call],
) -> Result<(Vec<Reply>, u64), EngineFault>
    ensures { IsErrAmong result database_faults }
{
    let Ok((_, stopped)) = cut_session(alloc, dev, &[], u64::MAX, made, calls) else {
        return Err(EngineFault::Memory);
    };
    let Stopped {
        ending,
        device_calls,
        is_cut: _,
    } = stopped;
    match ending {
        Ending::Rested(replies, _) => {
            if lacked_memory(replies.as_slice()) {
                return Err(EngineFault::Memory);
            }
            Ok((replies, device_calls))
        }
        Ending::NotOpened(fault) => Err(engine_fault_of(fault)),
        Ending::NoMemory | Ending::Unsettled(..) | Ending::Broke(_) | Ending::BrokeGroup(_) => {
            Err(EngineFault::Memory)
        }
    }
}

/// What is in the database before it.
pub fn pairs_before(alloc: Global, dev: &MemDev, made: Option<Bounds>) -> Result<Pairs, EngineFault>
    ensures { IsErrAmong result database_faults }
{
    match dev.crashed(alloc, &[]) {
        Ok(copy) => pairs_in(alloc, &mut open_device(alloc, copy, made)?),
        Err(_) => Err(EngineFault::Memory),
    }
}

// A session on what these of the unsynced writes leave of a device, which makes a database of these
// bounds where that is blank and there are some, cut after so many device calls.
fn cut_session(
    alloc: Global,
    dev: &MemDev,
    keep: &[bool],
    stop: u64,
    made: Option<Bounds>,
    calls: &[Call],
) -> Result<(MemDev, Stopped), AllocError>
    ensures cut { IfOk result (λ r. IsCutAfter stop r.1) }
{
    let Bounds { limit, version } = made.unwrap_or(Bounds::NONE);
    let how = Opening {
        create: made.is_some(),
        truncate: false,
        limit,
        version,
        commits: CommitKind::Images,
    };
    stopped_session(alloc, dev.crashed(alloc, keep)?, how, calls, &[], stop)
}

// The worst of these outcomes.
fn worst(outcomes: &[Outcome]) -> Outcome
    ensures refused { result ≡ Outcome.NotReopened ↔ Contains outcomes.now Outcome.NotReopened }
    ensures kept { result ≡ Outcome.Kept ↔ All (λ outcome. outcome ≡ Outcome.Kept) outcomes.now }
{
    if outcomes.contains(&Outcome::NotReopened) {
        Outcome::NotReopened
    } else if outcomes.contains(&Outcome::Lost) {
        Outcome::Lost
    } else {
        Outcome::Kept
    }
}

// The replies that were given before the stop.
fn replies_of(ending: &Ending) -> Result<&[Reply], AllocError> {
    let replies: &[Reply] = match ending {
        Ending::Rested(replies, _)
        | Ending::Unsettled(replies, _)
        | Ending::Broke(replies)
        | Ending::BrokeGroup(replies) => replies.as_slice(),
        Ending::NotOpened(_) => &[],
        Ending::NoMemory => return Err(AllocError),
    };
    if lacked_memory(replies) {
        return Err(AllocError);
    }
    Ok(replies)
}

// Whether a call was refused for want of memory. The session then made other changes than the one
// that it is compared with.
fn lacked_memory(replies: &[Reply]) -> bool {
    replies
        .iter()
        .any(|reply| matches!(reply, Reply::Refused(Fault::Memory)))
}

// Stop i of so many that are spread over the device calls. Where there are above 2^32 of these, the
// last ones come too early.
fn spread(i: u64, stops: u64, device_calls: u64) -> u64
    requires { i < stops }
{
    if stops == device_calls {
        i
    } else {
        i.saturating_mul(device_calls) / stops
    }
}
