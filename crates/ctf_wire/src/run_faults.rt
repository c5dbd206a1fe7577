//! Why a run ended before its input did.
use thiserror::Error;

/// What went wrong with the streams, not with a line.
#[derive(Clone, Copy, Debug, PartialEq, Eq, Error)]
pub enum RunFault {
    /// The reader failed.
    #[error("Read")]
    Read,
    /// A write or a flush failed, or a write took nothing.
    #[error("Write")]
    Write,
    /// The source did not end within the bound on reads.
    #[error("ReadBound")]
    ReadBound,
    /// The memory for buffers was refused, and nothing was read or written.
    #[error("Memory")]
    Memory,
}
