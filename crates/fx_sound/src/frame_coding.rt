//! Frames as bytes, for the inner loop.

ghost use Rattle.std.specs.Prelude.{◌≡◌, ◌*◌, length};
ghost use Rattle.fx_sound.specs.FrameCoding.{frame_size, coded_samples, bytes_of, clips_of};
ghost use Rattle.fx_frame_base.specs.Frame.{IsChannelCount};

use crate::bulk::{decode_into, encode_into};
use fx_frame::{Coding, Frame};
use fx_frame_base::frame::MAX_CHANNELS;

/// The frame of 1 to 16 channels that the bytes are.
#[inline]
pub fn decoded(coding: Coding, channels: usize, bytes: &[u8]) -> Frame
    requires channels { IsChannelCount channels }
    requires bytes { length bytes.now ≡ frame_size coding channels }
    ensures samples { result ≡ coded_samples coding channels bytes.now }
    ensures channels { length result ≡ channels }
{
    match channels {
        1 => Frame::one(coding.read(bytes)),
        2 => {
            let (first, second) = bytes.split_at(coding.width());
            Frame::two(coding.read(first), coding.read(second))
        }
        _ => decoded_wide(coding, channels, bytes),
    }
}

// The same for any number of channels.
fn decoded_wide(coding: Coding, channels: usize, bytes: &[u8]) -> Frame
    requires channels { IsChannelCount channels }
    requires bytes { length bytes.now ≡ frame_size coding channels }
    ensures samples { result ≡ coded_samples coding channels bytes.now }
    ensures channels { length result ≡ channels }
{
    let mut samples = [0; MAX_CHANNELS];
    decode_into(coding, bytes, &mut samples[..channels]);
    Frame::of_first(channels, samples)
}

/// Writes the bytes of a frame, and returns how many of its samples were clipped.
#[inline]
pub fn encode(frame: &Frame, coding: Coding, out: &mut [u8]) -> u64
    requires { length out.old ≡ frame_size coding (length frame.now) }
    ensures bytes { out.new ≡ bytes_of coding frame.now }
    ensures size { length out.new ≡ frame_size coding (length frame.now) }
    ensures clips { result ≡ clips_of coding frame.now }
{
    match frame.samples() {
        [only] => u64::from(coding.write(*only, out)),
        [first, second] => {
            let (front, back) = out.split_at_mut(coding.width());
            let clips = u64::from(coding.write(*first, front));
            clips + u64::from(coding.write(*second, back))
        }
        others => encode_into(coding, others, out),
    }
}
