//! A device as the layers above see it.
ghost use Rattle.std.specs.Prelude.{◌≡◌, ◌+◌, ◌%◌, ◌^◌, ◌≤◌, ◌<◌, ◌↔◌, ℕ, OnOk, OnErr, length};
ghost use Rattle.sect_dev.specs.Device.{Image, Candidates, with_sector, IsImageOf, NoNewCandidate, with_candidate, IsStable, IsWrittenOrNot, Moment, Elapses, HasCause, sector_count, part_of, HasRun, IsRunWritten, IsRunPartlyWritten, with_run_candidates};

use thiserror::Error;

/// A call of the device failed.
#[derive(Clone, Copy, Debug, PartialEq, Eq, Error)]
#[error("the device failed")]
pub struct DevFault;

// Sector k of a run's bytes.
fn sector_of(bytes: &[u8], k: usize) -> [u8; 512]
    requires { k < sector_count bytes.now }
    ensures { result ≡ part_of bytes.now k }
{
    let mut content = [0; 512];
    let at = 512 * k;
    content.copy_from_slice(&bytes[at..at + 512]);
    content
}

// Puts a content in the place of sector k of a run's bytes.
fn put_sector(bytes: &mut [u8], k: usize, content: &[u8; 512])
    requires { k < sector_count bytes.old }
    ensures put { part_of bytes.new k ≡ content.now }
    ensures before { (j : ℕ) → j < k → part_of bytes.new j ≡ part_of bytes.old j }
{
    let at = 512 * k;
    bytes[at..at + 512].copy_from_slice(content);
}

/// A device of sectors of 512 bytes, numbered from 0.
pub trait SectorDev {
    /// How many sectors there are.
    ghost sectors: { Self → ℕ };

    /// The device keeps each sector whole, returns what was written and makes stable what it
    /// synced.
    ghost honest: { Self → Type 0 };

    /// What a read of each sector gives.
    ghost seen: { Self → Image };

    /// The contents that a stop at this moment may leave in a sector, whatever it leaves in the
    /// others.
    ghost candidate: { Self → Candidates };

    /// The moment, and up to which one a device may go that stops for good after so many calls.
    ghost moment: { Self → Moment };

    /// The images that a stop at some moment from that one on may have left, during a call or
    /// between two.
    ghost left_since: { Self → ℕ → Image → Type 0 };

    /// How often a call has failed.
    ghost faults: { Self → ℕ };

    /// How many sectors there are.
    fn capacity(&self) -> u32
        ensures { result ≡ sectors self.now };

    /// Reads a sector. Whatever it answers, it changes nothing.
    fn read(&mut self, n: u32, out: &mut [u8; 512]) -> Result<(), DevFault>
        requires { n < sectors self.old }
        ensures read { honest self.old → OnOk result (out.new ≡ seen self.old n) }
        ensures seen { honest self.old → seen self.new ≡ seen self.old }
        ensures candidates { honest self.old
            → NoNewCandidate (candidate self.old) (candidate self.new) }
        ensures keeps { honest self.old → NoNewCandidate (candidate self.new) (candidate self.old) }
        ensures time { honest self.old
            → Elapses (moment self.old) (moment self.new) (left_since self.old)
            (left_since self.new) (IsImageOf (candidate self.new)) }
        ensures still { (moment self.new).at ≡ (moment self.old).at }
        ensures honesty { honest self.new ↔ honest self.old }
        ensures cause { HasCause (faults self.old) (faults self.new) result }
        ensures quiet { OnOk result (faults self.new ≡ faults self.old) }
        ensures size { sectors self.new ≡ sectors self.old };

    /// Writes a sector. Until the next successful sync a stop may leave it or not. A failed write
    /// has happened or not.
    fn write(&mut self, n: u32, from: &[u8; 512]) -> Result<(), DevFault>
        requires { n < sectors self.old }
        ensures written { honest self.old
            → OnOk result (seen self.new ≡ with_sector (seen self.old) n from.now) }
        ensures failed { honest self.old
            → OnErr result (IsWrittenOrNot (seen self.old) n from.now (seen self.new)) }
        ensures candidates { honest self.old
            → NoNewCandidate (with_candidate (candidate self.old) n from.now) (candidate self.new) }
        ensures keeps { honest self.old → NoNewCandidate (candidate self.new) (candidate self.old) }
        ensures time { honest self.old
            → Elapses (moment self.old) (moment self.new) (left_since self.old)
            (left_since self.new) (IsImageOf (candidate self.new)) }
        ensures step { (moment self.new).at ≤ (moment self.old).at + 1 }
        ensures honesty { honest self.new ↔ honest self.old }
        ensures cause { HasCause (faults self.old) (faults self.new) result }
        ensures quiet { OnOk result (faults self.new ≡ faults self.old) }
        ensures size { sectors self.new ≡ sectors self.old };

    /// Reads adjacent sectors from sector n on, as many as `out` holds: each by a call of `read`, in
    /// order, up to the first that fails, where a device has no other way. At `Err` the bytes of
    /// `out` are unspecified. Whatever it answers, it changes nothing.
    fn read_run(&mut self, n: u32, out: &mut [u8]) -> Result<(), DevFault>
        requires whole { length out.old % 512 ≡ 0 }
        requires fits { n + sector_count out.old ≤ sectors self.old }
        ensures read { honest self.old → OnOk result (HasRun (seen self.old) n out.new) }
        ensures seen { honest self.old → seen self.new ≡ seen self.old }
        ensures candidates { honest self.old
            → NoNewCandidate (candidate self.old) (candidate self.new) }
        ensures keeps { honest self.old → NoNewCandidate (candidate self.new) (candidate self.old) }
        ensures time { honest self.old
            → Elapses (moment self.old) (moment self.new) (left_since self.old)
            (left_since self.new) (IsImageOf (candidate self.new)) }
        ensures still { (moment self.new).at ≡ (moment self.old).at }
        ensures honesty { honest self.new ↔ honest self.old }
        ensures cause { HasCause (faults self.old) (faults self.new) result }
        ensures quiet { OnOk result (faults self.new ≡ faults self.old) }
        ensures size { sectors self.new ≡ sectors self.old }
    {
        let mut content = [0; 512];
        for k in 0..out.len() / 512 {
            self.read(n + k as u32, &mut content)?;
            put_sector(out, k, &content);
        }
        Ok(())
    }

    /// Writes adjacent sectors from sector n on, as many as `from` holds: each by a call of `write`,
    /// in order, up to the first that fails, where a device has no other way. Until the next
    /// successful sync a stop may leave each or not, whatever it leaves of the others. At `Err` each
    /// has happened or not in the same way.
    fn write_run(&mut self, n: u32, from: &[u8]) -> Result<(), DevFault>
        requires whole { length from.now % 512 ≡ 0 }
        requires fits { n + sector_count from.now ≤ sectors self.old }
        ensures written { honest self.old
            → OnOk result (IsRunWritten (seen self.old) n from.now (seen self.new)) }
        ensures failed { honest self.old
            → OnErr result (IsRunPartlyWritten (seen self.old) n from.now (seen self.new)) }
        ensures candidates { honest self.old
            → NoNewCandidate (with_run_candidates (candidate self.old) n from.now)
            (candidate self.new) }
        ensures keeps { honest self.old → NoNewCandidate (candidate self.new) (candidate self.old) }
        ensures time { honest self.old
            → Elapses (moment self.old) (moment self.new) (left_since self.old)
            (left_since self.new) (IsImageOf (candidate self.new)) }
        ensures honesty { honest self.new ↔ honest self.old }
        ensures cause { HasCause (faults self.old) (faults self.new) result }
        ensures quiet { OnOk result (faults self.new ≡ faults self.old) }
        ensures size { sectors self.new ≡ sectors self.old }
    {
        for k in 0..from.len() / 512 {
            self.write(n + k as u32, &sector_of(from, k))?;
        }
        Ok(())
    }

    /// At `Ok` a stop leaves what a read gives. At `Err` nothing is made stable, and a read may give
    /// another of the candidates from then on.
    fn sync(&mut self) -> Result<(), DevFault>
        ensures stable { honest self.old
            → OnOk result (IsStable (candidate self.new) (seen self.new)) }
        ensures seen { honest self.old → OnOk result (seen self.new ≡ seen self.old) }
        ensures candidates { honest self.old
            → NoNewCandidate (candidate self.old) (candidate self.new) }
        ensures keeps { honest self.old
            → OnErr result (NoNewCandidate (candidate self.new) (candidate self.old)) }
        ensures time { honest self.old
            → Elapses (moment self.old) (moment self.new) (left_since self.old)
            (left_since self.new) (IsImageOf (candidate self.new)) }
        ensures step { (moment self.new).at ≤ (moment self.old).at + 1 }
        ensures honesty { honest self.new ↔ honest self.old }
        ensures cause { HasCause (faults self.old) (faults self.new) result }
        ensures quiet { OnOk result (faults self.new ≡ faults self.old) }
        ensures size { sectors self.new ≡ sectors self.old };

    /// A sector's number is a u32.
    ghost fits: { (dev : Self) → sectors dev < 2 ^ 32 };

    /// What a read gives is part of an image.
    ghost seen_may_stay: { (dev : Self) → honest dev → IsImageOf (candidate dev) (seen dev) };

    /// This moment is one of those since an earlier one.
    ghost counts_now: { (dev : Self) (t : ℕ) (image : Image) → honest dev → t ≤ (moment dev).at
        → IsImageOf (candidate dev) image → left_since dev t image };

    /// Since this moment there is no other.
    ghost only_now: { (dev : Self) (image : Image) → honest dev
        → left_since dev (moment dev).at image → IsImageOf (candidate dev) image };
}
