//! A store over a device that somebody else serves.
ghost use Rattle.std.specs.Prelude.{◌≡◌, List};
ghost use Rattle.sect_dev.specs.Device.{Image};
ghost use Rattle.sect_dev.specs.Serving.{IsTrueOf, listed_after};
ghost use Rattle.sect_dev.specs.declared.past.Event.{Event};
ghost use Rattle.page_io.specs.Views.{ReadsOnly};

use crate::PageStore;
use sect_dev::Told;
use std::alloc::AllocError;

/// A store whose device lists its changes for somebody else to carry out, and has to be told what a
/// sector holds before it can read it.
pub trait ServedStore: PageStore {
    /// What the device shows.
    ghost shows: { Self → Image };

    /// What is to be carried out, the newest first.
    ghost listed: { Self → List Event };

    /// Tells the device something, which changes nothing that the store shows; or says that there is
    /// no memory for it.
    fn tell(&mut self, told: &Told) -> Result<(), AllocError>
        requires { Self.honest self.old → IsTrueOf (shows self.old) told.now }
        ensures listed { listed self.new ≡ listed_after told.now (listed self.old) }
        ensures shows { Self.honest self.old → shows self.new ≡ shows self.old }
        ensures reads { ReadsOnly Self.PageStore self.old self.new }
        ensures faults { Self.faults self.new ≡ Self.faults self.old };
}
