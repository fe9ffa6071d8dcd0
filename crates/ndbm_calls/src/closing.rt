// Closing a database.
ghost use Rattle.ndbm_calls.specs.Closing.{Closes};

use crate::status::of_done;
use dbm_file::Db;
use sect_dev::SectorDev;

/// Closes a database, and gives the device back with the status: 0, or that of `Broken` or
/// `Device` (`Database::close`).
pub fn close<D: SectorDev>(db: Db<D>) -> (D, i32)
    ensures { Closes D.SectorDev db result.0 result.1 }
{
    let (dev, closed) = db.close();
    (dev, of_done(closed))
}
