//! Samples of many frames as bytes.
ghost use Rattle.std.specs.Prelude.{◌≡◌, ◌*◌, length, ◌≤◌, ◌^◌};
ghost use Rattle.fx_frame_base.specs.Coding.{width_of};
ghost use Rattle.fx_sound.specs.Container.{DecodesFrames};
ghost use Rattle.fx_sound.specs.FrameCoding.{CountsFrameClips, EncodesFrames, bytes_of, clips_of, coded_samples, largest_unclipped};

use crate::fours::{read_four, write_four};
use fx_frame::Coding;

/// Writes the samples that the bytes are.
#[inline(always)]
fn decode_as(coding: Coding, bytes: &[u8], samples: &mut [i32])
    requires { length bytes.now ≡ length samples.old * width_of coding }
    ensures { samples.new ≡ coded_samples coding (length samples.old) bytes.now }
{
    let width = coding.width();
    'samples: for k in 0..samples.len() {
        let at = k * width;
        samples[k] = coding.read(&bytes[at..at + width]);
    }
}

/// The same where a sample has three bytes: by fours, and the rest one by one.
#[inline(always)]
fn decode_by_fours(coding: Coding, bytes: &[u8], samples: &mut [i32])
    requires width { width_of coding ≡ 3 }
    requires bytes { length bytes.now ≡ length samples.old * width_of coding }
    ensures { samples.new ≡ coded_samples coding (length samples.old) bytes.now }
{
    let fours = samples.len() / 4;
    'fours: for k in 0..fours {
        read_four(
            coding,
            &bytes[12 * k..12 * k + 12],
            &mut samples[4 * k..4 * k + 4],
        );
    }
    let done = 4 * fours;
    decode_as(coding, &bytes[3 * done..], &mut samples[done..]);
}

/// The same, with a loop for each coding.
fn decode_each(coding: Coding, bytes: &[u8], samples: &mut [i32])
    requires { length bytes.now ≡ length samples.old * width_of coding }
    ensures { samples.new ≡ coded_samples coding (length samples.old) bytes.now }
{
    match coding {
        Coding::U8 => decode_as(Coding::U8, bytes, samples),
        Coding::S8 => decode_as(Coding::S8, bytes, samples),
        Coding::S16Le => decode_as(Coding::S16Le, bytes, samples),
        Coding::S16Be => decode_as(Coding::S16Be, bytes, samples),
        Coding::S24Le => decode_by_fours(Coding::S24Le, bytes, samples),
        Coding::S24Be => decode_by_fours(Coding::S24Be, bytes, samples),
        Coding::S32Le => decode_as(Coding::S32Le, bytes, samples),
        Coding::S32Be => decode_as(Coding::S32Be, bytes, samples),
    }
}

/// Writes the samples that the bytes are: for any number of channels, the frames that the bytes are.
pub fn decode_into(coding: Coding, bytes: &[u8], samples: &mut [i32])
    requires { length bytes.now ≡ length samples.old * width_of coding }
    ensures samples { samples.new ≡ coded_samples coding (length samples.old) bytes.now }
    ensures frames { DecodesFrames coding (length samples.old) bytes.now samples.new }
{
    decode_each(coding, bytes, samples)
}

/// The maximum number of samples of a loop that counts in 32 bits.
const SAMPLES_OF_LOOP: usize = 1 << 16;

/// The largest sample that is not clipped on writing.
#[inline(always)]
fn largest_unclipped(coding: Coding) -> i32
    ensures { result ≡ largest_unclipped coding }
{
    match coding {
        Coding::U8 | Coding::S8 => 0x7f7f_ffff,
        Coding::S16Le | Coding::S16Be => 0x7fff_7fff,
        Coding::S24Le | Coding::S24Be => 0x7fff_ff7f,
        Coding::S32Le | Coding::S32Be => i32::MAX,
    }
}

/// How many of so few samples are clipped on writing.
#[inline(always)]
fn count_clips(coding: Coding, samples: &[i32]) -> u32
    requires bound { length samples.now ≤ 2 ^ 16 }
    ensures { result ≡ clips_of coding samples.now }
{
    let width = coding.width();
    let mut bytes = [0; 4];
    let mut clips = 0;
    'samples: for place in 0..samples.len() {
        if coding.write(samples[place], &mut bytes[..width]) {
            clips += 1;
        }
    }
    clips
}

/// Writes the bytes of so few samples, and returns how many samples were clipped.
// Most sounds have none, so the loop keeps the largest sample alone, which takes fewer instructions than a count.
#[inline(always)]
fn encode_batch(coding: Coding, samples: &[i32], out: &mut [u8]) -> u32
    requires bytes { length out.old ≡ length samples.now * width_of coding }
    requires bound { length samples.now ≤ 2 ^ 16 }
    ensures bytes { out.new ≡ bytes_of coding samples.now }
    ensures clips { result ≡ clips_of coding samples.now }
{
    let width = coding.width();
    let mut largest = i32::MIN;
    'samples: for (k, sample) in samples.iter().enumerate() {
        let at = k * width;
        // Before the write: a sample would be loaded again after it.
        largest = largest.max(*sample);
        let _is_clipped = coding.write(*sample, &mut out[at..at + width]);
    }
    if largest <= largest_unclipped(coding) {
        return 0;
    }
    count_clips(coding, samples)
}

/// Writes the bytes of samples, and returns how many samples were clipped.
#[inline(always)]
fn encode_as(coding: Coding, samples: &[i32], out: &mut [u8]) -> u64
    requires { length out.old ≡ length samples.now * width_of coding }
    ensures bytes { out.new ≡ bytes_of coding samples.now }
    ensures clips { result ≡ clips_of coding samples.now }
{
    let width = coding.width();
    let mut done = 0;
    let mut clips = 0;
    'pieces: while done < samples.len() {
        let end = done + SAMPLES_OF_LOOP.min(samples.len() - done);
        let piece = encode_batch(
            coding,
            &samples[done..end],
            &mut out[done * width..end * width],
        );
        clips += u64::from(piece);
        done = end;
    }
    clips
}

/// The same where a sample has three bytes: by fours, and the rest one by one.
#[inline(always)]
fn encode_by_fours(coding: Coding, samples: &[i32], out: &mut [u8]) -> u64
    requires width { width_of coding ≡ 3 }
    requires bytes { length out.old ≡ length samples.now * width_of coding }
    ensures bytes { out.new ≡ bytes_of coding samples.now }
    ensures clips { result ≡ clips_of coding samples.now }
{
    let fours = samples.len() / 4;
    let mut clips = 0;
    'fours: for k in 0..fours {
        let four = write_four(
            coding,
            &samples[4 * k..4 * k + 4],
            &mut out[12 * k..12 * k + 12],
        );
        clips += u64::from(four);
    }
    let done = 4 * fours;
    let left = encode_batch(coding, &samples[done..], &mut out[3 * done..]);
    clips + u64::from(left)
}

/// The same, with a loop for each coding.
fn encode_each(coding: Coding, samples: &[i32], out: &mut [u8]) -> u64
    requires { length out.old ≡ length samples.now * width_of coding }
    ensures bytes { out.new ≡ bytes_of coding samples.now }
    ensures clips { result ≡ clips_of coding samples.now }
{
    match coding {
        Coding::U8 => encode_as(Coding::U8, samples, out),
        Coding::S8 => encode_as(Coding::S8, samples, out),
        Coding::S16Le => encode_as(Coding::S16Le, samples, out),
        Coding::S16Be => encode_as(Coding::S16Be, samples, out),
        Coding::S24Le => encode_by_fours(Coding::S24Le, samples, out),
        Coding::S24Be => encode_by_fours(Coding::S24Be, samples, out),
        Coding::S32Le => encode_as(Coding::S32Le, samples, out),
        Coding::S32Be => encode_as(Coding::S32Be, samples, out),
    }
}

/// Writes the bytes of samples, and returns how many samples were clipped: for any number of channels, the bytes of the
/// frames, one after another, and their clips together.
pub fn encode_into(coding: Coding, samples: &[i32], out: &mut [u8]) -> u64
    requires { length out.old ≡ length samples.now * width_of coding }
    ensures bytes { out.new ≡ bytes_of coding samples.now }
    ensures clips { result ≡ clips_of coding samples.now }
    ensures frames { EncodesFrames coding samples.now out.new }
    ensures frame_clips { CountsFrameClips coding samples.now result }
{
    encode_each(coding, samples, out)
}
