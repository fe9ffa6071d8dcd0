//! A device of sectors: what a read gives, and which images a stop may leave.
#![tactic(auto)]

mod device;
mod fail_one;
mod failing;
mod file_dev;
mod fuse;
mod laws;
mod mem;
mod past;
mod served;

pub use device::{DevFault, SectorDev};
pub use fail_one::{FailLate, FailOnce};
pub use failing::{Failing, Schedule};
pub use file_dev::{FileDev, FileFault};
pub use fuse::Fuse;
pub use laws::premise_can_be_met;
pub use mem::MemDev;
pub use past::{Event, Past};
pub use served::{ServedDev, Told};
