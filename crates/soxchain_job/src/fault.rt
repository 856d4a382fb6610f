//! Why a run ended without the output.
ghost use Rattle.std.specs.Prelude.{◌≡◌};
ghost use Rattle.soxchain_job.specs.Fault.{convert_fault, read_fault, resume_fault, run_fault};
ghost use Rattle.soxchain_job.specs.declared.fault.Fault.TheVariants.{Memory};

use crate::{ConversionFault, DiskFault, InputFault, ThawFault};
use std::alloc::{AllocError, AllocFailed};
use thiserror::Error;

/// Why a run ended without the output.
#[derive(Clone, Copy, Debug, PartialEq, Eq, Error)]
pub enum Fault {
    /// An allocation was refused.
    #[error("out of memory")]
    Memory,
    /// The disk failed.
    #[error("the disk failed")]
    Disk,
    /// The input could not be read.
    #[error("the input could not be read")]
    Input,
    /// The bytes of the input are not those that were announced.
    #[error("the input is not the one that was announced")]
    InputChanged,
    /// The output would have 2^64 bytes or more.
    #[error("the output is too long")]
    TooLong,
    /// The checkpoint is none that this program writes.
    #[error("the checkpoint is damaged")]
    BadCheckpoint,
}

impl From<AllocError> for Fault {
    ghost from_gives = { λ _ e. e ≡ Memory };

    fn from(_: AllocError) -> Self {
        Fault::Memory
    }
}

impl<T: Drop> From<AllocFailed<T>> for Fault {
    ghost from_gives = { λ _ e. e ≡ Memory };

    fn from(_: AllocFailed<T>) -> Self {
        Fault::Memory
    }
}

impl From<DiskFault> for Fault {
    ghost from_gives = { λ d e. e ≡ run_fault d };

    fn from(fault: DiskFault) -> Self {
        match fault {
            DiskFault::Memory => Fault::Memory,
            DiskFault::Failed => Fault::Disk,
        }
    }
}

impl From<InputFault> for Fault {
    ghost from_gives = { λ d e. e ≡ read_fault d };

    fn from(fault: InputFault) -> Self {
        match fault {
            InputFault::Memory => Fault::Memory,
            InputFault::Failed => Fault::Input,
            InputFault::Changed => Fault::InputChanged,
        }
    }
}

impl From<ConversionFault> for Fault {
    ghost from_gives = { λ d e. e ≡ convert_fault d };

    fn from(fault: ConversionFault) -> Self {
        match fault {
            ConversionFault::Memory => Fault::Memory,
            ConversionFault::InputChanged => Fault::InputChanged,
        }
    }
}

impl From<ThawFault> for Fault {
    ghost from_gives = { λ d e. e ≡ resume_fault d };

    fn from(fault: ThawFault) -> Self {
        match fault {
            ThawFault::Memory => Fault::Memory,
            ThawFault::BadSnapshot => Fault::BadCheckpoint,
        }
    }
}
