// What C holds.
ghost use Rattle.std.specs.Coded.{coded_option};
ghost use Rattle.ndbm_c.specs.contracts.handle.Open.{the_row};
ghost use Rattle.ndbm_c.specs.declared.handle.Open.{Open};
ghost use Rattle.ndbm_c.specs.Handle.{in_box, in_parts};
ghost use Rattle.std.specs.Prelude.{◌≡◌, Option, None, Some};

use crate::parts::Parts;
use dbm_file::Db;
use listed_dev::ListedDev;
use ndbm_calls::Group;
use sect_dev::{ServedDev, Told};
use std::alloc::{AllocError, Global};
use std::marker::Model;

/// What C holds.
#[derive(Drop)]
pub enum Open {
    /// Nothing more, which is so within a call alone.
    Nothing,
    /// A device over a file.
    Device(ListedDev),
    /// The database on it.
    Database(Opened),
}

/// An open database.
#[derive(Drop)]
pub struct Opened {
    pub(crate) db: Db<ListedDev>,
    // Pairs that are to be stored in one commit.
    pub(crate) group: Group,
}

impl Open {
    ghost use Rattle.ndbm_c.specs.Held.{device_of, lent};
    ghost use Rattle.ndbm_c.specs.Serving.{IsTrueOn, IsTold};

    /// The device.
    pub(crate) fn dev(&self) -> Option<&ListedDev>
        ensures { lent result ≡ device_of self.now }
    {
        match self {
            Open::Nothing => None,
            Open::Device(dev) => Some(dev),
            Open::Database(opened) => Some(opened.db.dev()),
        }
    }

    /// Tells the device something.
    pub(crate) fn tell(&mut self, told: &Told) -> Result<(), AllocError>
        requires { IsTrueOn (device_of self.old) told.now }
        ensures { IsTold told.now self.old self.new }
    {
        match self {
            Open::Nothing => Ok(()),
            Open::Device(dev) => dev.tell(told),
            Open::Database(opened) => opened.db.tell(told),
        }
    }
}

/// A value that C holds, or none. The type of its pointer names nothing of the value, which C may
/// not see.
#[repr(C)]
pub struct Handle {
    at: *mut u8,
    alloc: Global,
    is_open: bool,
    pub ghost held: { Option Open } by { coded_option the_row.coded },
}

impl Model for Handle {
    ghost use Rattle.ndbm_c.specs.Handle.{handle_owns};

    ghost also_owns = { λ h. handle_owns h.alloc h.at h.is_open h.held };
}

impl Handle {
    /// One that holds none.
    pub(crate) fn closed(alloc: Global) -> Handle
        ensures { result.held ≡ None }
    {
        Handle {
            at: std::ptr::null_mut(),
            alloc,
            is_open: false,
        }
    }

    /// One that holds what these are the parts of.
    fn of_parts(parts: Parts<Open, Global>) -> Handle
        ensures { result.held ≡ Some parts.value }
    {
        let Parts { at, alloc } = parts;
        Handle {
            at: at.cast::<u8>(),
            alloc,
            is_open: true,
        }
    }

    /// The parts of what it holds.
    fn into_parts(self) -> Option<Parts<Open, Global>>
        ensures { self.held ≡ in_parts result }
    {
        let Handle { at, alloc, is_open } = self;
        if is_open {
            Some(Parts {
                at: at.cast::<Open>(),
                alloc,
            })
        } else {
            None
        }
    }

    /// One that holds this.
    pub(crate) fn holding(made: Box<Open>) -> Handle
        ensures { result.held ≡ Some made.value }
    {
        Handle::of_parts(Parts::of(made))
    }

    /// What it holds.
    pub(crate) fn into_held(self) -> Option<Box<Open>>
        ensures { self.held ≡ in_box result }
    {
        match self.into_parts() {
            Some(parts) => Some(parts.into_box()),
            None => None,
        }
    }

    /// What the handle holds, which then holds none.
    pub(crate) fn take(&mut self, alloc: Global) -> Option<Box<Open>>
        ensures taken { self.old.held ≡ in_box result }
        ensures none { self.new.held ≡ None }
    {
        std::mem::replace(self, Handle::closed(alloc)).into_held()
    }

    /// Puts a value into a handle. What it held before is let go.
    pub(crate) fn put(&mut self, made: Box<Open>)
        ensures { self.new.held ≡ Some made.value }
    {
        drop(std::mem::replace(self, Handle::holding(made)).into_held());
    }
}

unsafe impl Send for Handle {}
