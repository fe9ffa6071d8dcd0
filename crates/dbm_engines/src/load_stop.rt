//! Why a load stopped.
ghost use Rattle.std.specs.Prelude.{◌≡◌};
ghost use Rattle.dbm_engines.specs.LoadRefusals.{as_engine, stop_fault};

use dbm_fault::EngineFault;
use dbm_file::Fault;
use dbm_lines::BadLine;

/// Why a load stopped before the end of its text. Lines are counted from 1, all of them.
#[derive(Clone, Copy, Debug, PartialEq, Eq)]
pub enum LoadStop {
    /// There was no memory for a line. Nothing was read.
    Memory,
    /// The text could not be read, or is too long.
    Read,
    /// The line of this number is bad.
    Bad { line: u64, why: BadLine },
    /// The database refused to store. The line of this number is the first that was not stored.
    Refused { line: u64, fault: Fault },
}

impl LoadStop {
    /// It as the fault of an engine.
    pub fn fault(self) -> EngineFault
        ensures { result ≡ stop_fault self }
    {
        match self {
            LoadStop::Memory => EngineFault::Memory,
            LoadStop::Read => EngineFault::Read,
            LoadStop::Bad { line, .. } => EngineFault::Line(line),
            LoadStop::Refused { fault, .. } => EngineFault::Db(fault),
        }
    }
}

/// How a load ended, as an engine.
pub fn as_engine(loaded: Result<(), LoadStop>) -> Result<(), EngineFault>
    ensures { result ≡ as_engine loaded }
{
    match loaded {
        Ok(()) => Ok(()),
        Err(stop) => Err(stop.fault()),
    }
}
