//! A device that fails from some call on.
ghost use Rattle.std.specs.Prelude.{◌≡◌, ◌+◌, ◌≤◌, ◌↔◌, ℕ, IsTrue};

use crate::SectorDev;
use crate::failing::{Failing, Schedule};

/// Passes so many calls on, and fails every one after, which it doesn't pass on.
pub type Fuse<D> = Failing<D, AllAfter>;

/// Fails all calls after so many.
#[derive(Drop)]
pub struct AllAfter {
    calls_left: u64,
}

impl Schedule for AllAfter {
    ghost use Rattle.std.specs.Prelude.{leb, false, ◌+◌};

    const LATE: bool = false;

    ghost LATE = { false };

    ghost fails = { λ p i. leb p.calls_left i };

    ghost until = { λ p now. now + p.calls_left };

    fn count(&mut self) -> bool {
        if self.calls_left == 0 {
            return true;
        }
        self.calls_left -= 1;
        false
    }
}

impl<D: SectorDev> Failing<D, AllAfter> {
    ghost use Rattle.sect_dev.specs.Failing.{inner_of, schedule_of, all_faults};

    /// A device that passes `k` calls on.
    pub fn new(dev: D, k: u64) -> Fuse<D>
        ensures inner { inner_of result ≡ dev }
        ensures faults { all_faults D.faults result ≡ D.faults dev }
        ensures fails { (i : ℕ) → IsTrue (⟦<AllAfter as Schedule>⟧.fails (schedule_of result) i) ↔ (k ≤ i) }
        ensures until { (now : ℕ) → ⟦<AllAfter as Schedule>⟧.until (schedule_of result) now ≡ now + k }
    {
        Failing::with_schedule(dev, AllAfter { calls_left: k })
    }
}
