//! A device that fails some calls on purpose.
ghost use Rattle.std.specs.Prelude.{◌≡◌, ◌⊎◌, ◌+◌, ◌-◌, ◌^◌, ◌<◌, ◌≤◌, min, ◌↔◌, ℕ, Bool, IsTrue, IsErr, OnOk, OnErr, true, false};
ghost use Rattle.sect_dev.specs.Device.{with_sector, IsImageOf, NoNewCandidate, with_candidate, IsStable, IsWrittenOrNot, Elapses, HasCause, MoreFaults};

use crate::{DevFault, SectorDev};

/// Which of the calls to come fail. The next call is call 0.
pub trait Schedule: Drop {
    /// Whether a read or a write that fails is passed on before.
    const LATE: bool;

    ghost LATE: { Bool };

    ghost fails: { Self → ℕ → Bool };

    /// Up to which moment the device inside may go where this is the moment, or 0 where the schedule
    /// doesn't end.
    ghost until: { Self → ℕ → ℕ };

    /// Counts a call, and says whether it fails.
    fn count(&mut self) -> bool
        ensures now { result ≡ fails self.old 0 }
        ensures next { (i : ℕ) → fails self.new i ≡ fails self.old (i + 1) }
        ensures until { (before now : ℕ) → now ≤ before + 1
            → (IsTrue result → LATE ≡ false → now ≤ before)
            → until self.new now ≤ until self.old before };
}

/// A device that fails calls of read, write and sync by a schedule, and counts each as a fault. A run is
/// a call for each of its sectors. `Fuse`, `FailOnce` and `FailLate` are the schedules that there are.
#[derive(Drop)]
pub struct Failing<D: SectorDev, P: Schedule> {
    inner: D,
    schedule: P,
    refused: u64,
}

// Counts a fault.
fn refuse(refused: &mut u64) -> Result<(), DevFault>
    ensures fails { IsErr result }
    ensures count { refused.new ≡ min (refused.old + 1) (2 ^ 64 - 1) }
    ensures cause { HasCause refused.old refused.new result }
{
    *refused = refused.saturating_add(1);
    Err(DevFault)
}

impl<D: SectorDev, P: Schedule> Failing<D, P> {
    ghost use Rattle.sect_dev.specs.Failing.{inner_of, schedule_of, own_faults, all_faults};

    pub(crate) fn with_schedule(inner: D, schedule: P) -> Failing<D, P>
        ensures inner { inner_of result ≡ inner }
        ensures schedule { schedule_of result ≡ schedule }
        ensures faults { all_faults D.faults result ≡ D.faults inner }
    {
        Failing {
            inner,
            schedule,
            refused: 0,
        }
    }

    /// How many calls it failed on purpose, up to 2^64 - 1.
    pub fn failed_on_purpose(&self) -> u64
        ensures { result ≡ own_faults self.now }
    {
        self.refused
    }

    /// Gives the device back.
    pub fn into_inner(self) -> D
        ensures { result ≡ inner_of self }
    {
        let Failing {
            inner,
            schedule: _,
            refused: _,
        } = self;
        inner
    }
}

impl<D: SectorDev, P: Schedule> SectorDev for Failing<D, P> {
    ghost use Rattle.sect_dev.specs.Failing.{inner_of, schedule_of, moment_of, all_faults, FollowsSchedule};

    ghost sectors = { λ f. D.sectors f.inner };

    ghost honest = { λ f. D.honest f.inner };

    ghost seen = { λ f. D.seen f.inner };

    ghost candidate = { λ f. D.candidate f.inner };

    ghost moment = { moment_of D.moment P.until };

    ghost left_since = { λ f. D.left_since f.inner };

    ghost faults = { λ f. D.faults f.inner + f.refused };

    ghost fits = { λ f. D.fits f.inner };

    ghost seen_may_stay = { λ f. D.seen_may_stay f.inner };

    ghost counts_now = { λ f. D.counts_now f.inner };

    ghost only_now = { λ f. D.only_now f.inner };

    fn capacity(&self) -> u32 {
        self.inner.capacity()
    }

    fn read(&mut self, n: u32, out: &mut [u8; 512]) -> Result<(), DevFault>
        requires { n < D.sectors (inner_of self.old) }
        ensures read { D.honest (inner_of self.old)
            → OnOk result (out.new ≡ D.seen (inner_of self.old) n) }
        ensures seen { D.honest (inner_of self.old)
            → D.seen (inner_of self.new) ≡ D.seen (inner_of self.old) }
        ensures candidates { D.honest (inner_of self.old)
            → NoNewCandidate (D.candidate (inner_of self.old)) (D.candidate (inner_of self.new)) }
        ensures keeps { D.honest (inner_of self.old)
            → NoNewCandidate (D.candidate (inner_of self.new)) (D.candidate (inner_of self.old)) }
        ensures time { D.honest (inner_of self.old)
            → Elapses (moment_of D.moment P.until self.old) (moment_of D.moment P.until self.new)
            (D.left_since (inner_of self.old)) (D.left_since (inner_of self.new))
            (IsImageOf (D.candidate (inner_of self.new))) }
        ensures still { (D.moment (inner_of self.new)).at ≡ (D.moment (inner_of self.old)).at }
        ensures honesty { D.honest (inner_of self.new) ↔ D.honest (inner_of self.old) }
        ensures cause { HasCause (all_faults D.faults self.old)
            (all_faults D.faults self.new) result }
        ensures quiet { OnOk result (all_faults D.faults self.new ≡ all_faults D.faults self.old) }
        ensures size { D.sectors (inner_of self.new) ≡ D.sectors (inner_of self.old) }

        ensures schedule { FollowsSchedule P.fails D.faults self.old self.new result }
        ensures kept { IsTrue (P.fails (schedule_of self.old) 0) → P.LATE ≡ false
            → inner_of self.new ≡ inner_of self.old }
        ensures passed_on { D.honest (inner_of self.old) → IsTrue (P.fails (schedule_of self.old) 0)
            → P.LATE ≡ true → (out.new ≡ D.seen (inner_of self.old) n)
            ⊎ MoreFaults (D.faults (inner_of self.old)) (D.faults (inner_of self.new)) }
    {
        let fails = self.schedule.count();
        if fails && !P::LATE {
            return refuse(&mut self.refused);
        }
        let outcome = self.inner.read(n, out);
        if fails {
            return refuse(&mut self.refused);
        }
        outcome
    }

    fn write(&mut self, n: u32, from: &[u8; 512]) -> Result<(), DevFault>
        requires { n < D.sectors (inner_of self.old) }
        ensures written { D.honest (inner_of self.old)
            → OnOk result (D.seen (inner_of self.new)
            ≡ with_sector (D.seen (inner_of self.old)) n from.now) }
        ensures failed { D.honest (inner_of self.old)
            → OnErr result (IsWrittenOrNot (D.seen (inner_of self.old)) n from.now
            (D.seen (inner_of self.new))) }
        ensures candidates { D.honest (inner_of self.old)
            → NoNewCandidate (with_candidate (D.candidate (inner_of self.old)) n from.now)
            (D.candidate (inner_of self.new)) }
        ensures keeps { D.honest (inner_of self.old)
            → NoNewCandidate (D.candidate (inner_of self.new)) (D.candidate (inner_of self.old)) }
        ensures time { D.honest (inner_of self.old)
            → Elapses (moment_of D.moment P.until self.old) (moment_of D.moment P.until self.new)
            (D.left_since (inner_of self.old)) (D.left_since (inner_of self.new))
            (IsImageOf (D.candidate (inner_of self.new))) }
        ensures step { (D.moment (inner_of self.new)).at ≤ (D.moment (inner_of self.old)).at + 1 }
        ensures honesty { D.honest (inner_of self.new) ↔ D.honest (inner_of self.old) }
        ensures cause { HasCause (all_faults D.faults self.old)
            (all_faults D.faults self.new) result }
        ensures quiet { OnOk result (all_faults D.faults self.new ≡ all_faults D.faults self.old) }
        ensures size { D.sectors (inner_of self.new) ≡ D.sectors (inner_of self.old) }

        ensures schedule { FollowsSchedule P.fails D.faults self.old self.new result }
        ensures kept { IsTrue (P.fails (schedule_of self.old) 0) → P.LATE ≡ false
            → inner_of self.new ≡ inner_of self.old }
        ensures passed_on { D.honest (inner_of self.old) → IsTrue (P.fails (schedule_of self.old) 0)
            → P.LATE ≡ true → (D.seen (inner_of self.new)
            ≡ with_sector (D.seen (inner_of self.old)) n from.now)
            ⊎ MoreFaults (D.faults (inner_of self.old)) (D.faults (inner_of self.new)) }
    {
        let fails = self.schedule.count();
        if fails && !P::LATE {
            return refuse(&mut self.refused);
        }
        let outcome = self.inner.write(n, from);
        if fails {
            return refuse(&mut self.refused);
        }
        outcome
    }

    fn sync(&mut self) -> Result<(), DevFault>
        ensures stable { D.honest (inner_of self.old)
            → OnOk result (IsStable (D.candidate (inner_of self.new))
            (D.seen (inner_of self.new))) }
        ensures seen { D.honest (inner_of self.old)
            → OnOk result (D.seen (inner_of self.new) ≡ D.seen (inner_of self.old)) }
        ensures candidates { D.honest (inner_of self.old)
            → NoNewCandidate (D.candidate (inner_of self.old)) (D.candidate (inner_of self.new)) }
        ensures keeps { D.honest (inner_of self.old)
            → OnErr result (NoNewCandidate (D.candidate (inner_of self.new))
            (D.candidate (inner_of self.old))) }
        ensures time { D.honest (inner_of self.old)
            → Elapses (moment_of D.moment P.until self.old) (moment_of D.moment P.until self.new)
            (D.left_since (inner_of self.old)) (D.left_since (inner_of self.new))
            (IsImageOf (D.candidate (inner_of self.new))) }
        ensures step { (D.moment (inner_of self.new)).at ≤ (D.moment (inner_of self.old)).at + 1 }
        ensures honesty { D.honest (inner_of self.new) ↔ D.honest (inner_of self.old) }
        ensures cause { HasCause (all_faults D.faults self.old)
            (all_faults D.faults self.new) result }
        ensures quiet { OnOk result (all_faults D.faults self.new ≡ all_faults D.faults self.old) }
        ensures size { D.sectors (inner_of self.new) ≡ D.sectors (inner_of self.old) }

        ensures schedule { FollowsSchedule P.fails D.faults self.old self.new result }
        ensures kept { IsTrue (P.fails (schedule_of self.old) 0)
            → inner_of self.new ≡ inner_of self.old }
    {
        if self.schedule.count() {
            return refuse(&mut self.refused);
        }
        self.inner.sync()
    }
}
