//! A device that counts its calls.
ghost use Rattle.std.specs.Prelude.{◌≡◌, ◌+◌, ◌^◌, ◌-◌, ◌||◌, min, false, is_err};

use sect_dev::{DevFault, SectorDev};

/// Passes each call on, counts the reads, writes and syncs, and keeps whether one has failed.
#[derive(Drop)]
pub struct Counting<D: SectorDev> {
    inner: D,
    calls: u64,
    failed: bool,
    ghost unfailed: { failed ≡ false → D.faults inner ≡ 0 },
}

// Counts a call that ended so.
fn count(calls: &mut u64, failed: &mut bool, outcome: Result<(), DevFault>) -> Result<(), DevFault>
    ensures outcome { result ≡ outcome }
    ensures counted { calls.new ≡ min (calls.old + 1) (2 ^ 64 - 1) }
    ensures failed { failed.new ≡ (failed.old || is_err outcome) }
{
    *calls = calls.saturating_add(1);
    *failed = *failed || outcome.is_err();
    outcome
}

impl<D: SectorDev> Counting<D> {
    ghost use Rattle.rehearsal.specs.Counting.{calls_of, device_in, has_failed};

    /// A device that has never failed, of which no call was made.
    pub fn new(inner: D) -> Counting<D>
        requires unfailed { D.faults inner ≡ 0 }
        ensures inner { device_in result ≡ inner }
        ensures calls { calls_of result ≡ 0 }
    {
        Counting {
            inner,
            calls: 0,
            failed: false,
        }
    }

    /// How many calls there were, up to 2^64 - 1.
    pub fn calls(&self) -> u64
        ensures { result ≡ calls_of self.now }
    {
        self.calls
    }

    /// Whether one of them has failed.
    pub fn has_failed(&self) -> bool
        ensures told { result ≡ has_failed self.now }
        ensures unfailed { result ≡ false → D.faults (device_in self.now) ≡ 0 }
    {
        self.failed
    }

    /// The device, without the count.
    pub fn into_inner(self) -> D
        ensures { result ≡ device_in self }
    {
        let Counting {
            inner,
            calls: _,
            failed: _,
        } = self;
        inner
    }
}

impl<D: SectorDev> SectorDev for Counting<D> {
    ghost sectors = { λ c. D.sectors c.inner };

    ghost honest = { λ c. D.honest c.inner };

    ghost seen = { λ c. D.seen c.inner };

    ghost candidate = { λ c. D.candidate c.inner };

    ghost moment = { λ c. D.moment c.inner };

    ghost left_since = { λ c. D.left_since c.inner };

    ghost faults = { λ c. D.faults c.inner };

    ghost fits = { λ c. D.fits c.inner };

    ghost seen_may_stay = { λ c. D.seen_may_stay c.inner };

    ghost counts_now = { λ c. D.counts_now c.inner };

    ghost only_now = { λ c. D.only_now c.inner };

    fn capacity(&self) -> u32 {
        self.inner.capacity()
    }

    fn read(&mut self, n: u32, out: &mut [u8; 512]) -> Result<(), DevFault> {
        let outcome = self.inner.read(n, out);
        count(&mut self.calls, &mut self.failed, outcome)
    }

    fn write(&mut self, n: u32, from: &[u8; 512]) -> Result<(), DevFault> {
        let outcome = self.inner.write(n, from);
        count(&mut self.calls, &mut self.failed, outcome)
    }

    fn sync(&mut self) -> Result<(), DevFault> {
        let outcome = self.inner.sync();
        count(&mut self.calls, &mut self.failed, outcome)
    }
}
