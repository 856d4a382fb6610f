//! Sums of samples times gains, one for each channel, each rounded once.
ghost use Rattle.std.specs.Prelude.{◌≡◌, ◌<◌, ◌≤◌, ◌+◌, ◌*◌, ◌^◌, ℕ, ℤ, pos, ◌+ℤ◌, ◌*ℤ◌, length, map, slice_index_or, unsigned_abs};
ghost use Rattle.fx_fixed.specs.Rounding.{rounding};
ghost use Rattle.fx_frame_base.specs.Rounded.{clips_rounded, samples_of};
ghost use Rattle.fx_tap_sums.specs.Weights.{AreSmall};
ghost use Rattle.fx_tap_delays.specs.Sums.{AddsToEach, frame_of_sums};
ghost use Rattle.fx_frame_base.specs.Frame.{IsChannelCount};

use fx_fixed::inner::Denominator;
use fx_fixed::{Gain, UNIT, round_clip};
use fx_frame::Frame;
use fx_tap_sums::inner::{Sums, add_places};
use fx_tap_sums::weights::UNIT_SQUARED;

/// Adds a gain times each sample of a frame; the gain is at most 1 in magnitude.
#[inline(always)]
pub(crate) fn add_scaled(sums: &mut Sums, channels: usize, gain: Gain, frame: Frame)
    requires channels { channels ≤ 16 }
    requires gain { unsigned_abs gain ≤ UNIT }
    requires free { AreSmall (2 ^ 100) sums.old }
    ensures added { AddsToEach channels sums.old sums.new (λ k. gain *ℤ slice_index_or frame k (pos 0)) }
    ensures bound { (k : ℕ) → unsigned_abs (slice_index_or sums.new k (pos 0)) ≤ unsigned_abs (slice_index_or sums.old k (pos 0)) + UNIT * 2 ^ 31 }
{
    add_places(sums, channels, gain, &frame.places());
}

/// Writes the sums, each times a gain, rounded once, and counts how many samples were clipped.
#[inline(always)]
pub(crate) fn sums_into(sums: &Sums, gain: Gain, out: &mut [i32]) -> u64
    requires channels { length out.old ≤ 16 }
    requires small { AreSmall (29 * (UNIT * 2 ^ 31)) sums.now }
    ensures frame { out.new ≡ (frame_of_sums gain sums.now (length out.old)).samples }
    ensures clips { result ≡ (frame_of_sums gain sums.now (length out.old)).clips }
    ensures bound { result ≤ length out.old }
{
    let factor = i128::from(gain.trillionths());
    let mut clips = 0;
    for channel in 0..out.len() {
        let (sample, is_clipped) = round_clip(factor * sums[channel], UNIT_SQUARED as i128);
        out[channel] = sample;
        clips += u64::from(is_clipped);
    }
    clips
}

/// The frame of the sums, each times a gain, rounded once, and how many samples were clipped.
#[inline(always)]
pub(crate) fn rounded_sums(sums: &Sums, channels: usize, gain: Gain) -> (Frame, u64)
    requires channels { IsChannelCount channels }
    requires small { AreSmall (29 * (UNIT * 2 ^ 31)) sums.now }
    ensures frame { result.0 ≡ (frame_of_sums gain sums.now channels).samples }
    ensures clips { result.1 ≡ (frame_of_sums gain sums.now channels).clips }
    ensures bound { result.1 ≤ 16 }
    ensures channels { length result.0 ≡ channels }
{
    let mut out = [0; 16];
    let clips = sums_into(sums, gain, &mut out[..channels]);
    (Frame::of_first(channels, out), clips)
}

/// Writes the sample of each sum over the denominator, rounded once, and counts how many were clipped.
#[inline(always)]
pub(crate) fn round_sums(sums: &[i64], denominator: &Denominator, out: &mut [i32]) -> u64
    requires places { length out.old ≡ length sums.now }
    requires small { AreSmall (2 ^ 61) sums.now }
    ensures samples { out.new ≡ samples_of (map (λ z. rounding z denominator.now) sums.now) }
    ensures clips { result ≡ clips_rounded (map (λ z. rounding z denominator.now) sums.now) }
    ensures bound { result ≤ length sums.now }
{
    let mut clips = 0;
    'sums: for place in 0..sums.len() {
        out[place] = denominator.round_and_count(sums[place], &mut clips);
    }
    clips
}
