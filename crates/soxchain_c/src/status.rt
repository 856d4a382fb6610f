//! What a call returns to C, as a number.
ghost use Rattle.std.specs.Prelude.{◌≡◌};
ghost use Rattle.soxchain_c.specs.Status.{code};

/// What a call returns. The numbers are those of the header.
#[derive(Clone, Copy, Debug, PartialEq, Eq)]
pub enum Status {
    /// All went well.
    Fine,
    /// The words or the coefficient files are refused; a message gives the reason.
    Refused,
    /// The sound is refused or cut off, or no memory was found; a message gives the reason.
    Failed,
    /// No memory was found.
    NoMemory,
    /// The ends of words or files are not in order, or after the end of their bytes.
    BadEnds,
    /// The handle has no stream.
    NoStream,
    /// A rate of 0.
    BadRate,
    /// No channel, or more than 16.
    BadChannels,
    /// Samples that make no whole frames.
    PartOfFrame,
    /// More than 2^40 frames.
    TooLong,
    /// The end, where the stream does not wait for frames.
    NotWaiting,
    /// Bytes to which no stream of these words, rate and channels was frozen.
    BadSnapshot,
}

/// The number of a status.
pub fn number_of(status: Status) -> i32
    ensures { result ≡ code status }
{
    match status {
        Status::Fine => 0,
        Status::Refused => 1,
        Status::Failed => 2,
        Status::NoMemory => 3,
        Status::BadEnds => 4,
        Status::NoStream => 5,
        Status::BadRate => 6,
        Status::BadChannels => 7,
        Status::PartOfFrame => 8,
        Status::TooLong => 9,
        Status::NotWaiting => 10,
        Status::BadSnapshot => 11,
    }
}
