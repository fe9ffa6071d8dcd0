//! The device.
ghost use Rattle.std.specs.Prelude.{◌≡◌, ◌^◌, ◌<◌, ℕ, [], None, Some, is_ok, IsErr, OnOk, OnErr, length, reverse};
ghost use Rattle.sect_dev.specs.Device.{HasCause, IsCounted, NoNewCandidate, endless};
ghost use Rattle.sect_dev.specs.History.{content_after};
ghost use Rattle.sect_dev.specs.Serving.{IsTrueOf, listed_after};
ghost use Rattle.sect_dev.specs.declared.past.Event.TheVariants.{Wrote, Synced};
ghost use Rattle.listed_dev.specs.Known.{IsKnown, AreLast};

use sect_dev::{DevFault, Event, Past, SectorDev, ServedDev, Told};
use std::alloc::{AllocError, Global};
use std::collections::HashMap;

// For how many sectors room is kept once all is carried out: those of 4 MB.
const MOST_KEPT: usize = 8_192;

/// A device that lists its writes and syncs, and reads those sectors that it was told or has
/// written. It uses some 600 bytes for each of these, and 516 for each change that is listed, until
/// it is told that all is carried out; the room of the list is kept, and that of up to 8,192 sectors.
#[derive(Drop)]
pub struct ListedDev {
    sectors: u32,
    known: HashMap<u32, [u8; 512]>,
    // What is to be carried out, the oldest first.
    listed: Vec<Event>,
    // What happened to the file, for clauses alone.
    past: Past,
    // The sector that the last read lacked which failed.
    lacked: Option<u32>,
    faults: u64,
    alloc: Global,
    ghost fits: { sectors < 2 ^ 32 },
    ghost is_known: { IsKnown known past.events },
    ghost are_last: { AreLast listed.items past.events },
}

impl ListedDev {
    ghost use Rattle.listed_dev.specs.Listed.{history, list_of, lacked_by, knows, KnowsToo, Lists, ListsNothing, IsSameBeside};

    /// A device of so many sectors over a file to which this happened before. It knows none of its
    /// sectors.
    pub fn new(alloc: Global, past: Past, sectors: u32) -> ListedDev
        ensures history { history result ≡ past.events }
        ensures listed { list_of result ≡ [] }
        ensures size { ⟦<ListedDev as SectorDev>⟧.sectors result ≡ sectors }
        ensures faults { ⟦<ListedDev as SectorDev>⟧.faults result ≡ 0 }
    {
        ListedDev {
            sectors,
            known: HashMap::new(alloc),
            listed: Vec::new(alloc),
            past,
            lacked: None,
            faults: 0,
            alloc,
        }
    }

    /// What is to be carried out, the oldest first.
    pub fn listed(&self) -> &[Event]
        ensures listed { list_of self.now ≡ reverse result.now }
        ensures last { AreLast result.now (history self.now) }
    {
        self.listed.as_slice()
    }

    /// The sector that the last read lacked which failed, until the device is told something.
    pub fn lacked(&self) -> Option<u32>
        ensures { result ≡ lacked_by self.now }
    {
        self.lacked
    }

    // Lists a write, or leaves all as it was.
    fn list_write(&mut self, n: u32, from: &[u8; 512]) -> Result<(), AllocError>
        ensures ok { OnOk result (Lists self.old self.new (Wrote n from.now)) }
        ensures known { OnOk result (KnowsToo self.old self.new n) }
        ensures err { OnErr result (ListsNothing self.old self.new) }
        ensures rest { IsSameBeside self.old self.new }
    {
        self.listed.try_reserve(1)?;
        self.known.insert(n, *from)?;
        // There is room for it.
        let _ = self.listed.push(Event::Wrote(n, *from));
        self.past = self.past.then(&Event::Wrote(n, *from));
        Ok(())
    }

    // Lists a sync, or leaves all as it was.
    fn list_sync(&mut self) -> Result<(), AllocError>
        ensures ok { OnOk result (Lists self.old self.new Synced) }
        ensures err { OnErr result (ListsNothing self.old self.new) }
        ensures rest { IsSameBeside self.old self.new }
    {
        self.listed.push(Event::Synced)?;
        self.past = self.past.then(&Event::Synced);
        Ok(())
    }

    // Keeps what a sector holds.
    fn learn(&mut self, n: u32, content: &[u8; 512]) -> Result<(), AllocError>
        requires { content.now ≡ content_after (history self.old) n }
        ensures known { OnOk result (KnowsToo self.old self.new n) }
        ensures nothing { ListsNothing self.old self.new }
        ensures rest { IsSameBeside self.old self.new }
    {
        self.known.insert(n, *content)?;
        Ok(())
    }

    // Forgets what was listed, and what it knows of the sectors.
    fn forget(&mut self)
        ensures history { history self.new ≡ history self.old }
        ensures listed { list_of self.new ≡ [] }
        ensures rest { IsSameBeside self.old self.new }
    {
        // Their room is kept, so that a commit finds it, but that of very many sectors.
        self.listed.clear();
        if self.known.len() > MOST_KEPT {
            self.known = HashMap::new(self.alloc);
        } else {
            self.known.clear();
        }
    }

    // Counts a fault.
    fn fail(&mut self) -> Result<(), DevFault>
        ensures fails { IsErr result }
        ensures nothing { ListsNothing self.old self.new }
        ensures cause { HasCause self.old.faults self.new.faults result }
        ensures count { IsCounted self.old.faults self.new.faults result }
        ensures size { self.new.sectors ≡ self.old.sectors }
        ensures lacked { lacked_by self.new ≡ lacked_by self.old }
        ensures still_known { (m : ℕ) → knows self.new m ≡ knows self.old m }
    {
        self.faults = self.faults.saturating_add(1);
        Err(DevFault)
    }
}

impl SectorDev for ListedDev {
    ghost use Rattle.sect_dev.specs.History.{IsCandidate, LeftSince, content_is_candidate, counts_now, only_now};
    ghost use Rattle.listed_dev.specs.Listed.{history, list_of, lacked_by, knows, KnowsToo, Lists, ListsNothing};

    ghost sectors = { λ d. d.sectors };

    ghost honest = { λ d. Unit {0} };

    ghost seen = { λ d. content_after (history d) };

    ghost candidate = { λ d. IsCandidate (history d) };

    ghost moment = { λ d. endless (length (history d)) };

    ghost left_since = { λ d. LeftSince (history d) };

    ghost faults = { λ d. d.faults };

    ghost fits = { λ d. d.fits };

    ghost seen_may_stay = { λ d h. content_is_candidate (history d) };

    ghost counts_now = { λ d t image h le now. counts_now (history d) t image now };

    ghost only_now = { λ d image h left. only_now (history d) image left };

    fn capacity(&self) -> u32 {
        self.sectors
    }

    /// Gives what is known of the sector. It fails where nothing is, and then the sector is what it
    /// lacked.
    fn read(&mut self, n: u32, out: &mut [u8; 512]) -> Result<(), DevFault>
        requires { n < ⟦<ListedDev as SectorDev>⟧.sectors self.old }
        ensures content { OnOk result (out.new ≡ ⟦<ListedDev as SectorDev>⟧.seen self.old n) }
        ensures known { is_ok result ≡ knows self.old n }
        ensures still_known { (m : ℕ) → knows self.new m ≡ knows self.old m }
        ensures lacks { OnErr result (lacked_by self.new ≡ Some n) }
        ensures nothing { ListsNothing self.old self.new }
        ensures cause { HasCause (⟦<ListedDev as SectorDev>⟧.faults self.old)
            (⟦<ListedDev as SectorDev>⟧.faults self.new) result }
        ensures count { IsCounted (⟦<ListedDev as SectorDev>⟧.faults self.old)
            (⟦<ListedDev as SectorDev>⟧.faults self.new) result }
        ensures size { ⟦<ListedDev as SectorDev>⟧.sectors self.new
            ≡ ⟦<ListedDev as SectorDev>⟧.sectors self.old }
    {
        match self.known.get(&n) {
            Some(content) => {
                *out = *content;
                Ok(())
            }
            None => {
                self.lacked = Some(n);
                self.fail()
            }
        }
    }

    /// Lists the write. It fails where there is no memory for it.
    fn write(&mut self, n: u32, from: &[u8; 512]) -> Result<(), DevFault>
        requires { n < ⟦<ListedDev as SectorDev>⟧.sectors self.old }
        ensures ok { OnOk result (Lists self.old self.new (Wrote n from.now)) }
        ensures known { OnOk result (KnowsToo self.old self.new n) }
        ensures err { OnErr result (ListsNothing self.old self.new) }
        ensures lacked { lacked_by self.new ≡ lacked_by self.old }
        ensures cause { HasCause (⟦<ListedDev as SectorDev>⟧.faults self.old)
            (⟦<ListedDev as SectorDev>⟧.faults self.new) result }
        ensures count { IsCounted (⟦<ListedDev as SectorDev>⟧.faults self.old)
            (⟦<ListedDev as SectorDev>⟧.faults self.new) result }
        ensures size { ⟦<ListedDev as SectorDev>⟧.sectors self.new
            ≡ ⟦<ListedDev as SectorDev>⟧.sectors self.old }
    {
        match self.list_write(n, from) {
            Ok(()) => Ok(()),
            Err(_) => self.fail(),
        }
    }

    /// Lists the sync. It fails where there is no memory for it.
    fn sync(&mut self) -> Result<(), DevFault>
        ensures ok { OnOk result (Lists self.old self.new Synced) }
        ensures err { OnErr result (ListsNothing self.old self.new) }
        ensures lacked { lacked_by self.new ≡ lacked_by self.old }
        ensures candidates { NoNewCandidate (⟦<ListedDev as SectorDev>⟧.candidate self.old)
            (⟦<ListedDev as SectorDev>⟧.candidate self.new) }
        ensures cause { HasCause (⟦<ListedDev as SectorDev>⟧.faults self.old)
            (⟦<ListedDev as SectorDev>⟧.faults self.new) result }
        ensures count { IsCounted (⟦<ListedDev as SectorDev>⟧.faults self.old)
            (⟦<ListedDev as SectorDev>⟧.faults self.new) result }
        ensures size { ⟦<ListedDev as SectorDev>⟧.sectors self.new
            ≡ ⟦<ListedDev as SectorDev>⟧.sectors self.old }
    {
        match self.list_sync() {
            Ok(()) => Ok(()),
            Err(_) => self.fail(),
        }
    }
}

impl ServedDev for ListedDev {
    ghost use Rattle.sect_dev.specs.Reads.{OnlyReads};
    ghost use Rattle.listed_dev.specs.Listed.{history, list_of, lacked_by, HasLearnt};

    ghost listed = { λ d. list_of d };

    fn tell(&mut self, told: &Told) -> Result<(), AllocError>
        requires { IsTrueOf (⟦<ListedDev as SectorDev>⟧.seen self.old) told.now }
        ensures listed { list_of self.new ≡ listed_after told.now (list_of self.old) }
        ensures history { history self.new ≡ history self.old }
        ensures reads { OnlyReads ⟦<ListedDev as SectorDev>⟧ self.old self.new }
        ensures learnt { OnOk result (HasLearnt told.now self.old self.new) }
        ensures lacked { lacked_by self.new ≡ None }
        ensures faults { ⟦<ListedDev as SectorDev>⟧.faults self.new
            ≡ ⟦<ListedDev as SectorDev>⟧.faults self.old }
        ensures size { ⟦<ListedDev as SectorDev>⟧.sectors self.new
            ≡ ⟦<ListedDev as SectorDev>⟧.sectors self.old }
    {
        self.lacked = None;
        match told {
            Told::Sector(n, content) => self.learn(*n, content),
            Told::CarriedOut => {
                self.forget();
                Ok(())
            }
        }
    }
}
