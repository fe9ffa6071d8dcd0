// How a command ended.
ghost use Rattle.std.specs.Prelude.{◌≡◌};

use dbm_fault::{EngineFault, Fault};
use std::io;

/// How a command ended that met no fault.
#[derive(Clone, Copy, Debug, PartialEq, Eq)]
pub enum Outcome {
    Done,
    /// A fetched or deleted key isn't there, or an inserted one is.
    Nothing,
}

/// Why a command was not carried out to its end.
#[derive(Clone, Copy, Debug, PartialEq, Eq)]
pub enum Failure {
    /// A word that is to be hexadecimal is not.
    NotHex,
    /// One of the program's words is not UTF-8.
    NotText,
    Fault(EngineFault),
    /// A rehearsal that was stopped after so many device calls lost a change.
    NotKept(u64),
}

impl From<EngineFault> for Failure {
    ghost use Rattle.dbm_commands.specs.declared.outcomes.Failure.{Failure};

    ghost from_gives = { λ fault failure. failure ≡ Failure.Fault fault };

    fn from(fault: EngineFault) -> Failure {
        Failure::Fault(fault)
    }
}

impl From<Fault> for Failure {
    ghost use Rattle.dbm_fault.specs.declared.engine_fault.EngineFault.{EngineFault};
    ghost use Rattle.dbm_commands.specs.declared.outcomes.Failure.{Failure};

    ghost from_gives = { λ fault failure. failure ≡ Failure.Fault (EngineFault.Db fault) };

    fn from(fault: Fault) -> Failure {
        Failure::Fault(EngineFault::Db(fault))
    }
}

/// The failure of a command whose output failed.
pub fn unwritten(_: io::Error) -> Failure
    ensures { result ≡ Failure.Fault EngineFault.Write }
{
    Failure::Fault(EngineFault::Write)
}
