// What a command on a file has of the system.
ghost use Rattle.std.specs.Prelude.{◌≡◌, ◌*◌, Err, IfErr, IfOk, IsSome, OnOk, Result};
ghost use Rattle.file_opening.specs.Opening.{writes};
ghost use Rattle.dbm_file.specs.Named.{OpensFile};
ghost use Rattle.dbm_file.specs.Opened.{IsNewlyOpened};
ghost use Rattle.dbm_tool.specs.Files.{IsClosed, IsOpening, RefusesOpening, there};
ghost use Rattle.dbm_tool.specs.Waiting.{EndsWaiting, answer_of};

use crate::EngineFault;
use crate::waiting::open_waiting;
use dbm_command_line::Spelling;
use dbm_commands::{Failure, Outcome, close_after};
use dbm_engines::BadLine;
use dbm_file::{Access, CommitKind, Db, Fault, Flaw, OpenHow, Refusal, Version, open_named};
use page_cache::CachedPages;
use redo_area::Pager;
use sect_dev::{FileDev, SectorDev};
use std::alloc::Global;
use std::fs::File;
use std::io;
use std::rt::Files;
use std::time::Clock;

/// The store of the pages of a file.
pub type FileStore = CachedPages<Pager<FileDev>>;

/// Files and memory, and what the system told of them.
#[derive(Drop)]
pub struct Host<'a, T> {
    pub rt: &'a T,
    pub alloc: Global,
    /// How many seconds to wait for a file that another program has open.
    pub wait: u32,
    /// How many pages of a file are kept in memory at most, where that was asked for.
    pub kept_pages: Option<u32>,
    /// The system's error at the last call on a database's file that failed, if one has.
    pub cause: Option<io::Error>,
    /// The first line of a load that was not stored, where the database refused to.
    pub line: Option<u64>,
    /// Why the line of a load is bad, where one is, and how its words are spelled.
    pub bad_line: Option<(BadLine, Spelling)>,
    /// The first page of a file that was looked through and breaks a rule, and the rule.
    pub flaw: Option<Flaw>,
}

impl<'a, T> Host<'a, T> {
    /// Nothing was told yet.
    pub fn new(rt: &'a T, alloc: Global, wait: u32, kept_pages: Option<u32>) -> Host<'a, T> {
        Host {
            rt,
            alloc,
            wait,
            kept_pages,
            cause: None,
            line: None,
            bad_line: None,
            flaw: None,
        }
    }
}

/// Opens a database of which so many pages are kept in memory, and waits for nothing.
fn open_once<T: Files<File = File>>(
    rt: &T,
    alloc: Global,
    file: &str,
    how: OpenHow,
    kept_pages: Option<u32>,
) -> Result<Db<FileDev>, Refusal>
    ensures { IsOpening ⟦<FileDev as SectorDev>⟧ how result }
{
    open_named(rt, alloc, file, OpenHow { kept_pages, ..how })
}

impl<T: Files<File = File> + Clock> Host<'_, T> {
    /// Opens a database that is there.
    pub fn open_there(&mut self, file: &str, access: Access) -> Result<Db<FileDev>, Fault>
        ensures opens { IfOk result (OpensFile (there access)) }
        ensures fresh { IfOk result (IsNewlyOpened (writes access) 68250498) }
        ensures refused { IfErr result
            (RefusesOpening ⟦<FileDev as SectorDev>⟧ (there access)) }
    {
        self.open(
            file,
            OpenHow {
                access,
                create: false,
                exclusive: false,
                truncate: false,
                limit: 0,
                version: Version::V1,
                commits: CommitKind::Images,
                kept_pages: None,
            },
        )
    }

    /// Begins what is refused while another program has a file open, and waits for that.
    pub fn begin<B, F: Fn() -> Result<B, Refusal>>(&mut self, beginning: F) -> Result<B, Fault>
        requires { F.IsAlwaysCallable beginning }
        ensures waited { (ended : Result B Refusal)
            × EndsWaiting (F.post beginning) (self.old.wait * 10) ended
            × (result ≡ answer_of ended) }
    {
        match open_waiting(self.rt, self.wait, beginning) {
            Ok(begun) => Ok(begun),
            Err(refusal) => Err(self.keep_cause(refusal)),
        }
    }

    /// Opens a database, and waits for its file where another program has it open. It keeps as many
    /// pages as this one says, whatever `how` has.
    pub fn open(&mut self, file: &str, how: OpenHow) -> Result<Db<FileDev>, Fault>
        ensures opens { IfOk result (OpensFile how) }
        ensures fresh { IfOk result (IsNewlyOpened (writes how.access) 68250498) }
        ensures refused { IfErr result (RefusesOpening ⟦<FileDev as SectorDev>⟧ how) }
    {
        let rt = self.rt;
        let alloc = self.alloc;
        let kept = self.kept_pages;
        match open_waiting(rt, self.wait, || open_once(rt, alloc, file, how, kept)) {
            Ok(db) => Ok(db),
            Err(refusal) => Err(self.keep_cause(refusal)),
        }
    }

    /// The fault of a refused opening, whose cause is kept.
    pub fn keep_cause(&mut self, refusal: Refusal) -> Fault
        ensures fault { result ≡ refusal.fault }
        ensures cause { self.new.cause ≡ refusal.system }
    {
        self.cause = refusal.system;
        refusal.fault
    }

    /// Closes a database after what was done with it. Of two failures the earlier one is told.
    pub fn close(
        &mut self,
        db: Db<FileDev>,
        done: Result<Outcome, Failure>,
    ) -> Result<Outcome, Failure>
        ensures closed { IsClosed db done result }

        // A closing that fails has the system's error.
        ensures told { OnOk done (result ≡ Err (Failure.Fault (EngineFault.Db Fault.Device))
            → IsSome self.new.cause) }
    {
        let (dev, ended) = close_after(db, done);
        self.cause = dev.last_error();
        ended
    }
}
