//! What a run did.
ghost use Rattle.std.specs.Prelude.{◌≡◌};

pub use fx_frame_base::stage::MAX_EFFECTS;
use thiserror::Error;

/// What a run did.
#[derive(Clone, Copy, Debug, Drop, PartialEq, Eq)]
pub struct Report {
    /// The frames that were read.
    pub frames_in: u64,
    /// The frames that the effects gave.
    pub frames_out: u64,
    /// The bytes that the writer took, the head among them.
    pub bytes_out: u64,
    /// How often the inlet or an effect handed over a frame.
    pub moves: u64,
    /// The samples that each effect clipped; 0 after the last effect.
    pub clips: [u64; MAX_EFFECTS],
    /// The samples that were clipped when they were written.
    pub out_clips: u64,
    /// The announced bytes that were not there.
    pub missing: u64,
    /// The bytes after the last whole frame.
    pub stray: u64,
}

/// Why a run stopped, with what it had done by then.
#[derive(Clone, Copy, Debug, Drop, PartialEq, Eq, Error)]
pub enum RunFault {
    /// A read failed. The frames that had come whole were written.
    #[error("the reader failed")]
    ReadFailed(Report),
    /// A write or the last flush failed. The writer has a prefix of the whole output.
    #[error("the writer failed")]
    WriteFailed(Report),
    /// A frame follows after 2^40 frames. Those were written.
    #[error("the sound is too long")]
    TooLong(Report),
}

impl RunFault {
    ghost use Rattle.fx_chain_run.specs.Report.{number_of_fault, report_at};

    /// What was done by then.
    pub fn report(&self) -> Report
        ensures { result ≡ report_at self.now }
    {
        match self {
            RunFault::ReadFailed(report)
            | RunFault::WriteFailed(report)
            | RunFault::TooLong(report) => *report,
        }
    }

    /// The number of the fault, 1 to 3 in the order above, whatever was done by then.
    pub fn number(&self) -> u8
        ensures { result ≡ number_of_fault self.now }
    {
        match self {
            RunFault::ReadFailed(_) => 1,
            RunFault::WriteFailed(_) => 2,
            RunFault::TooLong(_) => 3,
        }
    }
}

impl Report {
    ghost use Rattle.fx_chain_run.specs.Report.{no_report};

    /// The report of a conversion that ended before its run.
    pub fn none() -> Report
        ensures { result ≡ no_report }
    {
        Report {
            frames_in: 0,
            frames_out: 0,
            bytes_out: 0,
            moves: 0,
            clips: [0; MAX_EFFECTS],
            out_clips: 0,
            missing: 0,
            stray: 0,
        }
    }
}
