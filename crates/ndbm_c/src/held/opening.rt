// What a handle holds is opened and closed. What is moved here has tens of kilobytes, so each step has
// a place on the stack of its own.
ghost use Rattle.std.specs.Prelude.{◌≡◌, None};
ghost use Rattle.ndbm_c.specs.Held.{device_alone, database_alone};
ghost use Rattle.ndbm_c.specs.Opening.{OpensAs, ClosesAs};

use crate::handle::{Open, Opened};
use dbm_file::{Db, Fault, OpenHow};
use listed_dev::ListedDev;
use ndbm_calls::{Group, refusal};
use std::alloc::Global;
use std::mem::replace;

impl Open {
    /// The device, where no database is on it, and then nothing is left.
    #[inline(never)]
    fn take_device(&mut self) -> Option<ListedDev>
        ensures taken { result ≡ device_alone self.old }
        ensures same { result ≡ None → self.new ≡ self.old }
    {
        match replace(self, Open::Nothing) {
            Open::Device(dev) => Some(dev),
            other => {
                *self = other;
                None
            }
        }
    }

    /// The database, and then nothing is left.
    #[inline(never)]
    fn take_database(&mut self) -> Option<Opened>
        ensures taken { result ≡ database_alone self.old }
        ensures same { result ≡ None → self.new ≡ self.old }
    {
        match replace(self, Open::Nothing) {
            Open::Database(opened) => Some(opened),
            other => {
                *self = other;
                None
            }
        }
    }

    /// Opens the database on the device: 0, or the status of the fault, and then the device is as it
    /// was left.
    #[inline(never)]
    pub(crate) fn open(&mut self, alloc: Global, how: OpenHow) -> i32
        ensures { OpensAs how self.old self.new result }
    {
        let Some(dev) = self.take_device() else {
            return refusal(Fault::Broken);
        };
        match Db::open_again(alloc, dev, how) {
            Ok(db) => {
                *self = Open::Database(Opened {
                    db,
                    group: Group::new(alloc),
                });
                0
            }
            Err((dev, fault)) => {
                *self = Open::Device(dev);
                refusal(fault)
            }
        }
    }

    /// Closes the database, and leaves the device: 0, or the status of `Broken` or `Device`.
    #[inline(never)]
    pub(crate) fn close(&mut self) -> i32
        ensures { ClosesAs self.old self.new result }
    {
        let Some(opened) = self.take_database() else {
            return refusal(Fault::Broken);
        };
        let (dev, status) = ndbm_calls::close(opened.db);
        *self = Open::Device(dev);
        status
    }
}
