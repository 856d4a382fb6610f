//! Why a file is not read.
use thiserror::Error;

/// Why a file is not read.
#[derive(Clone, Copy, Debug, Drop, PartialEq, Eq, Error)]
pub enum JobFileFault {
    /// It is of this other version.
    #[error("it is of version {0}")]
    Version(u64),
    /// It is of another form.
    #[error("it is no file of a job")]
    Foreign,
    /// It is damaged.
    #[error("it is damaged")]
    Damaged,
    /// An allocation was refused.
    #[error("out of memory")]
    Memory,
}
