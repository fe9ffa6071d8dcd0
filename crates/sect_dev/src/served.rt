//! A device that somebody else serves: they carry out its changes, and bring it what its sectors hold.
ghost use Rattle.std.specs.Prelude.{◌≡◌, ◌↔◌, List};
ghost use Rattle.sect_dev.specs.Reads.{OnlyReads};
ghost use Rattle.sect_dev.specs.Serving.{IsTrueOf, listed_after};
ghost use Rattle.sect_dev.specs.declared.past.Event.{Event};

use crate::SectorDev;
use std::alloc::AllocError;

/// What a device is told by whoever serves it.
#[derive(Clone, Copy)]
pub enum Told {
    /// What this sector holds.
    Sector(u32, [u8; 512]),
    /// All changes that it listed were carried out, in their order.
    CarriedOut,
}

/// A device that lists its writes and syncs for somebody else to carry out, in their order, and has
/// to be told what a sector holds before it can read it.
pub trait ServedDev: SectorDev {
    /// What is to be carried out, the newest first.
    ghost listed: { Self → List Event };

    /// Takes what it is told, which changes nothing that it shows; or says that there is no memory
    /// for it.
    fn tell(&mut self, told: &Told) -> Result<(), AllocError>
        requires { Self.honest self.old → IsTrueOf (Self.seen self.old) told.now }
        ensures listed { listed self.new ≡ listed_after told.now (listed self.old) }
        ensures reads { Self.honest self.old → OnlyReads Self.SectorDev self.old self.new }
        ensures honesty { Self.honest self.new ↔ Self.honest self.old }
        ensures faults { Self.faults self.new ≡ Self.faults self.old }
        ensures size { Self.sectors self.new ≡ Self.sectors self.old };
}
