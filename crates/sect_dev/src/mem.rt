//! A device in memory.
ghost use Rattle.std.specs.Prelude.{◌≡◌, ◌+◌, ◌^◌, ◌<◌, ◌≤◌, [], ◌∷◌, ◌++◌, ℕ, reverse, map, length, OnOk, OnErr, IfOk, slice_index_or, false};
ghost use Rattle.sect_dev.specs.Sector.{zeros};
ghost use Rattle.sect_dev.specs.Device.{HasCause, IsCounted, IsImageOf, IsStable, NoNewCandidate, endless};
ghost use Rattle.sect_dev.specs.History.{content_after, pending_of, kept, content_in, at_last_sync};
ghost use Rattle.sect_dev.specs.Unsynced.{event_of, before_of, unsynced_of, overwritten};

use crate::past::{Event, Past};
use crate::{DevFault, SectorDev};
use std::alloc::{AllocError, Global};
use std::collections::HashMap;

// A write that was not synced.
#[derive(Clone, Copy)]
struct Write {
    sector: u32,
    bytes: [u8; 512],
    // What the sector had before.
    before: [u8; 512],
}

/// A device in memory, which is always honest. It uses 512 bytes for each sector that was ever
/// written, and 1,024 for each write since the last sync, or for as many as there once were between
/// two syncs.
#[derive(Drop)]
pub struct MemDev {
    capacity: u32,
    // What was last written to each sector.
    newest: HashMap<u32, [u8; 512]>,
    // The writes since the last sync, the oldest first.
    unsynced: Vec<Write>,
    // Every write and sync, for clauses alone.
    past: Past,
    faults: u64,
    ghost fits: { capacity < 2 ^ 32 },
    ghost unsynced_are: { reverse (map event_of unsynced.items) ≡ unsynced_of past.events },
    ghost before_are: { reverse (map before_of unsynced.items) ≡ overwritten past.events },
    ghost indexed: { (n : ℕ) → content_in newest n ≡ content_after past.events n },
}

// A sector that was never written.
#[tactic(auto, unfolding(crate::specs::Sector::zeros))]
fn blank() -> [u8; 512]
    ensures { result ≡ zeros }
{
    [0; 512]
}

fn is_marked(keep: &[bool], i: usize) -> bool
    ensures { result ≡ slice_index_or keep.now i false }
{
    i < keep.len() && keep[i]
}

impl MemDev {
    ghost use Rattle.sect_dev.specs.Mem.{history, IsSameButRecord};
    ghost use Rattle.sect_dev.specs.declared.past.Event.TheVariants.{Wrote, Synced};

    /// A device of zeros, all of them on the disk.
    pub fn new(alloc: Global, capacity: u32) -> MemDev
        ensures blank { ⟦<MemDev as SectorDev>⟧.seen result ≡ (λ _. zeros) }
        ensures stable { IsStable (⟦<MemDev as SectorDev>⟧.candidate result) (λ _. zeros) }
        ensures honest { ⟦<MemDev as SectorDev>⟧.honest result }
        ensures size { ⟦<MemDev as SectorDev>⟧.sectors result ≡ capacity }
        ensures faults { ⟦<MemDev as SectorDev>⟧.faults result ≡ 0 }
        ensures record { history result ≡ [] }
    {
        MemDev {
            capacity,
            newest: HashMap::new(alloc),
            unsynced: Vec::new(alloc),
            past: Past::none(),
            faults: 0,
        }
    }

    /// How many writes there were since the last sync.
    pub fn pending(&self) -> usize
        ensures { result ≡ pending_of (history self.now) }
    {
        self.unsynced.len()
    }

    /// The image in which the unsynced writes that are marked happened, in order, as a device with
    /// nothing pending. Mark 0 is the oldest write's, and a missing mark counts as false.
    pub fn crashed(&self, alloc: Global, keep: &[bool]) -> Result<MemDev, AllocError>
        ensures seen { IfOk result (λ after.
            ⟦<MemDev as SectorDev>⟧.seen after ≡ kept (history self.now) keep.now) }
        ensures image { IfOk result (λ after.
            IsImageOf (⟦<MemDev as SectorDev>⟧.candidate self.now)
            (⟦<MemDev as SectorDev>⟧.seen after)) }
        ensures stable { IfOk result (λ after.
            IsStable (⟦<MemDev as SectorDev>⟧.candidate after)
            (⟦<MemDev as SectorDev>⟧.seen after)) }
        ensures honest { IfOk result (λ after. ⟦<MemDev as SectorDev>⟧.honest after) }
        ensures size { IfOk result (λ after.
            ⟦<MemDev as SectorDev>⟧.sectors after ≡ ⟦<MemDev as SectorDev>⟧.sectors self.now) }
        ensures faults { IfOk result (λ after. ⟦<MemDev as SectorDev>⟧.faults after ≡ 0) }
        ensures pending { IfOk result (λ after. pending_of (history after) ≡ 0) }

        // Of its past it has no more than there was, and a sync.
        ensures moment { IfOk result (λ after. (⟦<MemDev as SectorDev>⟧.moment after).at
            ≤ (⟦<MemDev as SectorDev>⟧.moment self.now).at + 1) }
    {
        let mut after = self.at_last_sync(alloc)?;
        after.add_marked(self.unsynced.as_slice(), keep)?;
        after.make_stable();
        Ok(after)
    }

    // The device as it was at its last sync.
    fn at_last_sync(&self, alloc: Global) -> Result<MemDev, AllocError>
        ensures record { IfOk result (λ dev. history dev ≡ at_last_sync (history self.now)) }
        ensures size { IfOk result (λ dev. dev.capacity ≡ self.now.capacity) }
        ensures faults { IfOk result (λ dev. dev.faults ≡ 0) }
    {
        Ok(MemDev {
            capacity: self.capacity,
            newest: self.undone()?,
            unsynced: Vec::new(alloc),
            past: self.past.synced(),
            faults: 0,
        })
    }

    // The content of each sector with the unsynced writes undone, from the newest to the oldest.
    fn undone(&self) -> Result<HashMap<u32, [u8; 512]>, AllocError>
        ensures { IfOk result (λ contents. (n : ℕ) → content_in contents n
            ≡ content_after (at_last_sync (history self.now)) n) }
    {
        let mut contents = self.newest.clone()?;
        for i in (0..self.unsynced.len()).rev() {
            let write = &self.unsynced[i];
            contents.insert(write.sector, write.before)?;
        }
        Ok(contents)
    }

    // Writes a sector, or leaves all as it was.
    fn add(&mut self, sector: u32, bytes: &[u8; 512]) -> Result<(), AllocError>
        ensures ok { OnOk result (history self.new ≡ Wrote sector bytes.now ∷ history self.old) }
        ensures err { OnErr result (history self.new ≡ history self.old) }
        ensures rest { IsSameButRecord self.old self.new }
    {
        self.unsynced.try_reserve(1)?;
        let before = self.newest.insert(sector, *bytes)?.unwrap_or(blank());
        // There is room for it.
        let _ = self.unsynced.push(Write {
            sector,
            bytes: *bytes,
            before,
        });
        self.past = self.past.then(&Event::Wrote(sector, *bytes));
        Ok(())
    }

    // Syncs all writes.
    fn make_stable(&mut self)
        ensures record { history self.new ≡ Synced ∷ history self.old }
        ensures rest { IsSameButRecord self.old self.new }
    {
        self.unsynced.clear();
        self.past = self.past.then(&Event::Synced);
    }

    // Makes those of these writes again that are marked, where all before is synced.
    fn add_marked(&mut self, writes: &[Write], keep: &[bool]) -> Result<(), AllocError>
        requires { pending_of (reverse (map event_of writes.now) ++ history self.old)
            ≡ length writes.now }
        ensures ok { OnOk result (content_after (history self.new)
            ≡ kept (reverse (map event_of writes.now) ++ history self.old) keep.now) }
        ensures most { length (history self.new) ≤ length (history self.old) + length writes.now }
        ensures rest { IsSameButRecord self.old self.new }
    {
        for (i, write) in writes.iter().enumerate() {
            if is_marked(keep, i) {
                self.add(write.sector, &write.bytes)?;
            }
        }
        Ok(())
    }
}

impl SectorDev for MemDev {
    ghost use Rattle.std.specs.Prelude.{length, IsOk};
    ghost use Rattle.sect_dev.specs.Mem.{history, IsSameRecord, AddsWrite, AddsSync};
    ghost use Rattle.sect_dev.specs.History.{content_after, IsCandidate, LeftSince, content_is_candidate, counts_now, only_now};

    ghost sectors = { λ d. d.capacity };

    ghost honest = { λ d. Unit {0} };

    ghost seen = { λ d. content_after (history d) };

    ghost candidate = { λ d. IsCandidate (history d) };

    ghost moment = { λ d. endless (length (history d)) };

    ghost left_since = { λ d. LeftSince (history d) };

    ghost faults = { λ d. d.faults };

    ghost fits = { λ d. d.fits };

    ghost seen_may_stay = { λ d h. content_is_candidate (history d) };

    ghost counts_now = { λ d t image h le now. counts_now (history d) t image now };

    ghost only_now = { λ d image h left. only_now (history d) image left };

    fn capacity(&self) -> u32 {
        self.capacity
    }

    fn read(&mut self, n: u32, out: &mut [u8; 512]) -> Result<(), DevFault>
        requires { n < ⟦<MemDev as SectorDev>⟧.sectors self.old }
        ensures succeeds { IsOk result }
        ensures content { out.new ≡ ⟦<MemDev as SectorDev>⟧.seen self.old n }
        ensures same { self.new ≡ self.old }
    {
        *out = match self.newest.get(&n) {
            Some(content) => *content,
            None => blank(),
        };
        Ok(())
    }

    fn write(&mut self, n: u32, from: &[u8; 512]) -> Result<(), DevFault>
        requires { n < ⟦<MemDev as SectorDev>⟧.sectors self.old }
        ensures ok { OnOk result (AddsWrite self.old self.new n from.now) }
        ensures err { OnErr result (IsSameRecord self.old self.new) }
        ensures cause { HasCause (⟦<MemDev as SectorDev>⟧.faults self.old)
            (⟦<MemDev as SectorDev>⟧.faults self.new) result }
        ensures count { IsCounted (⟦<MemDev as SectorDev>⟧.faults self.old)
            (⟦<MemDev as SectorDev>⟧.faults self.new) result }
        ensures size { ⟦<MemDev as SectorDev>⟧.sectors self.new
            ≡ ⟦<MemDev as SectorDev>⟧.sectors self.old }
    {
        if self.add(n, from).is_err() {
            self.faults = self.faults.saturating_add(1);
            return Err(DevFault);
        }
        Ok(())
    }

    #[tactic(auto, using(crate::proofs::Events::synced_adds_none))]
    fn sync(&mut self) -> Result<(), DevFault>
        ensures succeeds { IsOk result }
        ensures adds { AddsSync self.old self.new }
        ensures candidates { NoNewCandidate (⟦<MemDev as SectorDev>⟧.candidate self.old)
            (⟦<MemDev as SectorDev>⟧.candidate self.new) }
        ensures cause { HasCause (⟦<MemDev as SectorDev>⟧.faults self.old)
            (⟦<MemDev as SectorDev>⟧.faults self.new) result }
        ensures count { IsCounted (⟦<MemDev as SectorDev>⟧.faults self.old)
            (⟦<MemDev as SectorDev>⟧.faults self.new) result }
        ensures size { ⟦<MemDev as SectorDev>⟧.sectors self.new
            ≡ ⟦<MemDev as SectorDev>⟧.sectors self.old }
    {
        self.make_stable();
        Ok(())
    }
}
