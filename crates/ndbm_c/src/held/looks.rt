// On what a handle holds: calls that change nothing but the error.
ghost use Rattle.std.specs.Prelude.{◌≡◌, ◌≢◌, pos};
ghost use Rattle.ndbm_c.specs.Looks.{TellsError, Clears, TellsNumbers, TellsVersion, Verifies};
ghost use Rattle.ndbm_c.specs.Held.{OnOpen};

use crate::handle::Open;
use crate::numbers::Numbers;
use dbm_file::Fault;
use ndbm_calls::refusal;
use std::alloc::Global;

impl Open {
    /// The number of the first fault since the opening or the last clearing, or 0.
    pub(crate) fn error(&mut self) -> i32
        ensures answered { OnOpen self.old self.new result
            (TellsError result) }
    {
        match self {
            Open::Database(opened) => opened.db.error(),
            _ => refusal(Fault::Broken),
        }
    }

    /// Forgets the first fault: 0.
    pub(crate) fn clearerr(&mut self) -> i32
        ensures answered { OnOpen self.old self.new result
            (Clears result) }
    {
        match self {
            Open::Database(opened) => opened.db.clearerr(),
            _ => refusal(Fault::Broken),
        }
    }

    /// The numbers of the database: 0.
    pub(crate) fn stat(&mut self, numbers: &mut Numbers) -> i32
        ensures answered { OnOpen self.old self.new result
            (TellsNumbers result numbers.new) }
        ensures untold { result ≢ pos 0 → numbers.new ≡ numbers.old }
    {
        match self {
            Open::Database(opened) => {
                *numbers = opened.numbers();
                0
            },
            _ => refusal(Fault::Broken),
        }
    }

    /// The number of the version of the database's format, 1 or 2.
    pub(crate) fn version(&mut self) -> i32
        ensures answered { OnOpen self.old self.new result
            (TellsVersion result) }
    {
        match self {
            Open::Database(opened) => opened.version_number(),
            _ => refusal(Fault::Broken),
        }
    }

    /// Whether the file is a good one: 0. The faults are those of `verify` of `ndbm_calls`.
    pub(crate) fn verify(&mut self, alloc: Global) -> i32
        ensures answered { OnOpen self.old self.new result
            (Verifies result) }
    {
        match self {
            Open::Database(opened) => ndbm_calls::verify(alloc, &mut opened.db),
            _ => refusal(Fault::Broken),
        }
    }
}
