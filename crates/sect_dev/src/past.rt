//! The writes and syncs of a device, as clauses see them. They take no memory.
ghost use Rattle.std.specs.Prelude.{◌≡◌, List, [], ◌∷◌};
ghost use Rattle.std.specs.Borrow.{ftrue};
ghost use Rattle.sect_dev.specs.declared.past.Event.{Event};

use std::marker::Model;

/// What a device did.
#[derive(Clone, Copy)]
pub enum Event {
    /// It wrote a sector.
    Wrote(u32, [u8; 512]),
    /// It synced all that it wrote before.
    Synced,
}

/// Events, the newest first. They exist for clauses alone: a program keeps none of them.
#[repr(C)]
#[derive(Drop)]
pub struct Past {
    pub ghost events: { List Event },
}

impl Model for Past {
    ghost also_owns = { λ _. ftrue };
}

impl Past {
    ghost use Rattle.sect_dev.specs.History.{at_last_sync};

    /// No event.
    pub fn none() -> Past
        ensures { result.events ≡ [] }
    {
        Past {}
    }

    /// One more.
    #[inline(always)]
    pub fn then(&self, _event: &Event) -> Past
        ensures { result.events ≡ _event.now ∷ self.now.events }
    {
        Past {}
    }

    /// Those up to the last sync.
    #[inline(always)]
    pub fn synced(&self) -> Past
        ensures { result.events ≡ at_last_sync self.now.events }
    {
        Past {}
    }
}
