//! The meaning of the fields of a head.

use fx_frame_base::Coding;

/// The size from which on a WAVE sound goes up to the end of the input.
pub(crate) const WAV_UNKNOWN: u32 = 0x7FFF_F000;

/// The size of an AU sound that goes up to the end of the input.
pub(crate) const AU_UNKNOWN: u32 = 0xFFFF_FFFF;

/// The format tag of integer samples in WAVE.
pub const PLAIN: u16 = 1;

/// The format tag of an extensible format in WAVE.
pub const EXTENSIBLE: u16 = 0xFFFE;

/// The subformat GUID of integer samples in an extensible format.
pub const PCM_GUID: [u8; 16] = [1, 0, 0, 0, 0, 0, 16, 0, 128, 0, 0, 170, 0, 56, 155, 113];

/// The properties of the frames in a head.
#[derive(Clone, Copy, Debug, PartialEq, Eq)]
pub struct Format {
    /// Frames per second.
    pub rate: u32,
    /// Samples per frame.
    pub channels: usize,
    /// How a sample is coded in bytes.
    pub coding: Coding,
}

/// The content of a head, and where the sound after it begins.
#[derive(Clone, Copy, Debug, PartialEq, Eq)]
pub struct HeadFields {
    /// The frames.
    pub format: Format,
    /// The announced bytes of sound; None where the size is unknown.
    pub announced: Option<u64>,
    /// The offset of the sound's first byte, counted from the first byte of the input.
    pub offset: u32,
}
