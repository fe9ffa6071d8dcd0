//! Devices that fail one call.
ghost use Rattle.std.specs.Prelude.{◌≡◌, ◌+◌, ◌↔◌, ℕ, IsTrue};
ghost use Rattle.sect_dev.specs.Schedule.{fails_once};

use crate::SectorDev;
use crate::failing::{Failing, Schedule};

/// Fails one call alone, and doesn't pass it on.
pub type FailOnce<D> = Failing<D, One>;

/// Fails one call alone. A read or a write is passed on before it fails, and a sync isn't.
pub type FailLate<D> = Failing<D, OneLate>;

/// Fails one call: so many are still to come before it, unless it has been.
#[derive(Drop)]
pub struct One(Option<u64>);

/// Fails one call as `One` does, but passes it on before if it is a read or a write.
#[derive(Drop)]
pub struct OneLate(Option<u64>);

// Counts a call, and says whether it fails.
fn count_down(calls_before: &mut Option<u64>) -> bool
    ensures now { result ≡ fails_once calls_before.old 0 }
    ensures next { (i : ℕ) → fails_once calls_before.new i ≡ fails_once calls_before.old (i + 1) }
{
    match *calls_before {
        None => false,
        Some(0) => {
            *calls_before = None;
            true
        }
        Some(n) => {
            *calls_before = Some(n - 1);
            false
        }
    }
}

impl Schedule for One {
    ghost use Rattle.std.specs.Prelude.{false};

    const LATE: bool = false;

    ghost LATE = { false };

    ghost fails = { λ p. fails_once p.0 };

    ghost until = { λ _ _. 0 };

    fn count(&mut self) -> bool {
        count_down(&mut self.0)
    }
}

impl Schedule for OneLate {
    ghost use Rattle.std.specs.Prelude.{true};

    const LATE: bool = true;

    ghost LATE = { true };

    ghost fails = { λ p. fails_once p.0 };

    ghost until = { λ _ _. 0 };

    fn count(&mut self) -> bool {
        count_down(&mut self.0)
    }
}

impl<D: SectorDev> Failing<D, One> {
    ghost use Rattle.sect_dev.specs.Failing.{inner_of, schedule_of, all_faults};

    /// A device that fails call `k`, counted from 0.
    pub fn new(dev: D, k: u64) -> FailOnce<D>
        ensures inner { inner_of result ≡ dev }
        ensures faults { all_faults D.faults result ≡ D.faults dev }
        ensures fails { (i : ℕ) → IsTrue (⟦<One as Schedule>⟧.fails (schedule_of result) i) ↔ (i ≡ k) }
    {
        Failing::with_schedule(dev, One(Some(k)))
    }
}

impl<D: SectorDev> Failing<D, OneLate> {
    ghost use Rattle.sect_dev.specs.Failing.{inner_of, schedule_of, all_faults};

    /// A device that fails call `k`, counted from 0.
    pub fn new(dev: D, k: u64) -> FailLate<D>
        ensures inner { inner_of result ≡ dev }
        ensures faults { all_faults D.faults result ≡ D.faults dev }
        ensures fails { (i : ℕ) → IsTrue (⟦<OneLate as Schedule>⟧.fails (schedule_of result) i) ↔ (i ≡ k) }
    {
        Failing::with_schedule(dev, OneLate(Some(k)))
    }
}
