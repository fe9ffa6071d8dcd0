// Why nothing was put in place.
ghost use Rattle.std.specs.Prelude.{◌≡◌, None, Some};
ghost use Rattle.dbm_fault.specs.declared.engine_fault.EngineFault.TheVariants.{Db};
ghost use Rattle.dbm_fault.specs.declared.fault.Fault.TheVariants.{Memory};
ghost use Rattle.dbm_aside.specs.Stops.{IsOfDatabase};

use dbm_fault::EngineFault;
use dbm_file::{Fault, Refusal};
use std::alloc::AllocError;
use std::io;

/// Why nothing was put in place.
#[derive(Clone, Copy, Debug)]
pub struct Stop {
    pub fault: EngineFault,
    /// The error of the system at the last of its calls that failed, if one has.
    pub system: Option<io::Error>,
}

impl Stop {
    /// As the refusal of an opening, which has a fault of a database.
    pub(crate) fn refusal(self) -> Refusal
        ensures fault { (fault : Fault) → self.fault ≡ Db fault → result.fault ≡ fault }
        ensures cause { result.system ≡ self.system }
    {
        let fault = match self.fault {
            EngineFault::Db(fault) => fault,
            _ => Fault::Memory,
        };
        Refusal {
            fault,
            system: self.system,
        }
    }
}

impl From<io::Error> for Stop {
    ghost from_gives = { λ error stop. IsOfDatabase stop.fault × (stop.system ≡ Some error) };

    fn from(error: io::Error) -> Stop {
        let fault = match error.kind() {
            io::ErrorKind::OutOfMemory => Fault::Memory,
            _ => Fault::Device,
        };
        Stop {
            fault: EngineFault::Db(fault),
            system: Some(error),
        }
    }
}

impl From<Refusal> for Stop {
    ghost from_gives = { λ refusal stop. IsOfDatabase stop.fault × (stop.fault ≡ Db refusal.fault)
        × (stop.system ≡ refusal.system) };

    fn from(refusal: Refusal) -> Stop {
        Stop {
            fault: EngineFault::Db(refusal.fault),
            system: refusal.system,
        }
    }
}

impl From<Fault> for Stop {
    ghost from_gives = { λ fault stop. IsOfDatabase stop.fault × (stop.fault ≡ Db fault)
        × (stop.system ≡ None) };

    fn from(fault: Fault) -> Stop {
        Stop {
            fault: EngineFault::Db(fault),
            system: None,
        }
    }
}

impl From<AllocError> for Stop {
    ghost from_gives = { λ refused stop. IsOfDatabase stop.fault × (stop.fault ≡ Db Memory)
        × (stop.system ≡ None) };

    fn from(_: AllocError) -> Stop {
        Stop::from(Fault::Memory)
    }
}
