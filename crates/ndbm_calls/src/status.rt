// What C is told.
ghost use Rattle.std.specs.Prelude.{◌≡◌};
ghost use Rattle.dbm_fault.specs.Faults.{fault_of};
ghost use Rattle.dbm_file.specs.Calls.{store_reply, delete_reply};
ghost use Rattle.ndbm_calls.specs.Statuses.{refusal_of, status_of, DoneTells};

use dbm_file::{DeleteReply, Fault, StoreReply};

/// The status of a refusal: minus the number of the fault.
pub fn refusal(fault: Fault) -> i32
    ensures { result ≡ refusal_of (fault_of fault) }
{
    -fault.number()
}

/// The status of a store: 0, or 1 where the key was there and its content stays.
pub(crate) fn of_store(answer: Result<StoreReply, Fault>) -> i32
    ensures { result ≡ status_of (store_reply answer) }
{
    match answer {
        Ok(StoreReply::Stored) => 0,
        Ok(StoreReply::Kept) => 1,
        Err(fault) => refusal(fault),
    }
}

/// The status of a delete: 0, or 1 where the key wasn't there.
pub(crate) fn of_delete(answer: Result<DeleteReply, Fault>) -> i32
    ensures { result ≡ status_of (delete_reply answer) }
{
    match answer {
        Ok(DeleteReply::Deleted) => 0,
        Ok(DeleteReply::Absent) => 1,
        Err(fault) => refusal(fault),
    }
}

/// The status of a call that has no other answer than that it is done.
pub(crate) fn of_done(answer: Result<(), Fault>) -> i32
    ensures { DoneTells answer result }
{
    match answer {
        Ok(()) => 0,
        Err(fault) => refusal(fault),
    }
}
