//! The content of the head of a sound.

ghost use Rattle.std.specs.Prelude.{◌<◌, ◌≤◌, IsTrue};
ghost use Rattle.fx_sound.specs.Kind.{is_coding_of};

use fx_frame_base::Coding;
use thiserror::Error;

/// The greatest offset at which a sound may begin.
pub(crate) const MAX_SOUND_OFFSET: u32 = 1 << 24;

/// A container of sound.
#[derive(Clone, Copy, Debug, PartialEq, Eq)]
pub enum Kind {
    /// RIFF WAVE.
    Wav,
    /// Sun AU.
    Au,
}

/// The content of the head of a sound: a rate of at least 1, 1 to 16 channels and a coding of its kind.
#[derive(Clone, Copy, Debug, PartialEq, Eq)]
pub struct Head {
    /// The container.
    pub kind: Kind,
    /// Frames per second.
    pub rate: u32,
    /// Samples per frame.
    pub channels: usize,
    /// How a sample is coded in bytes.
    pub coding: Coding,
    /// The announced bytes of sound; None where the size is unknown.
    pub announced: Option<u64>,
    pub ghost rated: { 0 < rate },
    pub ghost some: { 0 < channels },
    pub ghost maximum: { channels ≤ 16 },
    pub ghost coded: { IsTrue (is_coding_of kind coding) },
}

/// What is wrong with the head of a sound. The first fault is returned.
#[derive(Clone, Copy, Debug, PartialEq, Eq, Error)]
pub enum HeadFault {
    /// A read failed.
    #[error("the reader failed")]
    ReadFailed = 1,
    /// It is neither WAVE nor AU, or not the kind that was expected.
    #[error("the type is unknown")]
    UnknownType = 2,
    /// It ends before the sound begins.
    #[error("the head is cut off")]
    Truncated = 3,
    /// A field has an impossible value.
    #[error("the head is not well formed")]
    BadHeader = 4,
    /// Its coding is not integers of 8, 16, 24 or 32 bits.
    #[error("the coding is not in the profile")]
    NotInProfile = 5,
    /// It has more than 16 channels.
    #[error("there are too many channels")]
    TooManyChannels = 6,
    /// The sound would begin after offset 2^24.
    #[error("the head is too long")]
    HeadTooLong = 7,
}
