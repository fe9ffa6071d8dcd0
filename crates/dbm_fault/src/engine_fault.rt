// Why an engine stopped.
use crate::fault::Fault;
use thiserror::Error;

/// Why an engine stopped before the end of its input.
#[derive(Clone, Copy, Debug, PartialEq, Eq, Error)]
pub enum EngineFault {
    /// A growth was refused.
    #[error("out of memory")]
    Memory,
    /// The input could not be read, or is too long.
    #[error("the input failed")]
    Read,
    /// The output could not be written.
    #[error("the output failed")]
    Write,
    /// The line of this number, from 1, is not as the format says.
    #[error("line {0} is bad")]
    Line(u64),
    /// A call or an opening was refused.
    #[error("{0}")]
    Db(Fault),
}
