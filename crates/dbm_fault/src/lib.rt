//! Why a call or an opening of a database was refused, and why an engine over a database stopped.
#![tactic(auto)]

mod engine_fault;
mod fault;

pub use engine_fault::EngineFault;
pub use fault::Fault;
