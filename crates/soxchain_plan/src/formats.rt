//! What is wrong with the format of a WAVE, by the first bytes of the file.
ghost use Rattle.std.specs.Prelude.{◌≡◌, ◌+◌, ◌≤◌, is_some, length};
ghost use Rattle.fx_sound.specs.Wave.{half_at, wav_coding};
ghost use Rattle.soxchain_plan.specs.Formats.{fault_of_format, first_format, format_fault, has_unknown_guid, has_wrong_align};

use byteorder::{ByteOrder, LittleEndian};
use fx_sound::inner::{EXTENSIBLE, PCM_GUID, PLAIN};

/// What is wrong with a format that is not one of the profile.
#[derive(Clone, Copy, Debug, Drop, PartialEq, Eq)]
pub enum FormatFault {
    /// A frame has not as many bytes as its channels take.
    BlockAlign,
    /// It is extensible, and its GUID is no tag.
    UnknownGuid,
    /// Anything else, or the format is not the first chunk.
    Other,
}

/// The number of 16 bits at a place.
fn half(bytes: &[u8], place: usize) -> u16
    requires { place + 2 ≤ length bytes.now }
    ensures { result ≡ half_at place bytes.now }
{
    LittleEndian::read_u16(&bytes[place..place + 2])
}

/// Whether a sample of the profile has these bits.
fn is_width(bits: u16) -> bool
    ensures { result ≡ is_some (wav_coding bits) }
{
    matches!(bits, 8 | 16 | 24 | 32)
}

/// The data of the first chunk of a WAVE, where that is the format.
fn first_format(front: &[u8]) -> &[u8]
    ensures { result.now ≡ first_format front.now }
{
    if front.len() >= 20
        && &front[..4] == b"RIFF".as_slice()
        && &front[8..16] == b"WAVEfmt ".as_slice()
    {
        let (_, body) = front.split_at(20);
        body
    } else {
        &front[..0]
    }
}

/// Whether the GUID of an extensible format is no tag: one that is has the same bytes after it as that of integer samples.
fn has_unknown_guid(body: &[u8]) -> bool
    requires { 40 ≤ length body.now }
    ensures { result ≡ has_unknown_guid body.now }
{
    half(body, 0) == EXTENSIBLE && body[26..40] != PCM_GUID[2..]
}

/// Whether a frame has not as many bytes as its channels take.
fn has_wrong_align(body: &[u8]) -> bool
    requires { 16 ≤ length body.now }
    ensures { result ≡ has_wrong_align body.now }
{
    let channels = half(body, 2);
    let align = half(body, 12);
    let bits = half(body, 14);
    is_width(bits) && align as u32 != channels as u32 * (bits as u32 / 8)
}

/// What is wrong with a format, by the first bytes of it that are there.
fn fault_of(body: &[u8]) -> FormatFault
    ensures { result ≡ fault_of_format body.now }
{
    if body.len() < 16 {
        return FormatFault::Other;
    }
    let tag = half(body, 0);
    if tag == PLAIN {
        return if has_wrong_align(body) {
            FormatFault::BlockAlign
        } else {
            FormatFault::Other
        };
    }
    if body.len() < 40 {
        FormatFault::Other
    } else if has_unknown_guid(body) {
        FormatFault::UnknownGuid
    } else if tag == EXTENSIBLE && has_wrong_align(body) {
        FormatFault::BlockAlign
    } else {
        FormatFault::Other
    }
}

/// What is wrong with the format of a file that begins with these bytes.
pub fn format_fault(front: &[u8]) -> FormatFault
    ensures { result ≡ format_fault front.now }
{
    fault_of(first_format(front))
}
