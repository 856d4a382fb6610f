//! Channels of frames whose samples lie one after another.
ghost use Rattle.std.specs.Prelude.{◌≡◌, ◌<◌, ◌≤◌, ◌+◌, ◌-◌, ◌*◌, ◌^◌, ◌+ℤ◌, ◌*ℤ◌, ◌≤ℤ◌, false, ℕ, pos, neg_ℤ, length, unsigned_abs, FitsSigned};
ghost use Rattle.std.specs.Int.{w32};
ghost use Rattle.fx_fixed.specs.Rounding.{rounding};
ghost use Rattle.fx_frame_base.specs.Lists.{tabulate};
ghost use Rattle.fx_frame_base.specs.Rounded.{clips_rounded};
ghost use Rattle.fx_tap_pointwise.specs.Channels.{mean_at, rounded_at, SumsStayWithin, AddsChannel};
ghost use Rattle.fx_tap_sums.specs.ChannelSamples.{sample_at, WritesChannel, WritesRounded, KeepsOtherPlaces};

use crate::per_sample::Sampling;

/// How many frames are read, and of how many channels each is.
#[derive(Clone, Copy)]
pub(crate) struct ChannelShape {
    pub count: usize,
    pub channels: usize,
}

/// The channel that is written, and how many channels each frame has that it is one of.
#[derive(Clone, Copy)]
pub(crate) struct Place {
    pub channel: usize,
    pub channels: usize,
}

/// Adds the samples of one channel of as many frames, each times a weight, to the sums.
#[inline(always)]
pub(crate) fn add_channel(
    frames: &[i32],
    channels: usize,
    channel: usize,
    weight: i32,
    sums: &mut [i64],
)
    requires channel { channel < channels }
    requires channels { channels ≤ 16 }
    requires frames { length sums.old * channels ≤ length frames.now }
    requires free { SumsStayWithin (2 ^ 62) sums.old frames.now channels channel weight }
    ensures added { AddsChannel sums.old sums.new frames.now channels channel weight }
    ensures samples { (i : ℕ) → i < length sums.old → unsigned_abs (sample_at frames.now channels channel i) ≤ 2 ^ 31 }
{
    let factor = i64::from(weight);
    let mut at = channel;
    'frames: for place in 0..sums.len() {
        sums[place] += i64::from(frames[at]) * factor;
        at += channels;
    }
}

/// Copies one channel of these frames over one of as many frames of other channels.
#[inline(always)]
pub(crate) fn place_channel(
    from: &[i32],
    shape: ChannelShape,
    channel: usize,
    to: &mut [i32],
    place: Place,
)
    requires channel { channel < shape.channels }
    requires inputs { shape.channels ≤ 16 }
    requires from { shape.count * shape.channels ≤ length from.now }
    requires place { place.channel < place.channels }
    requires outputs { place.channels ≤ 16 }
    requires to { shape.count * place.channels ≤ length to.old }
    ensures put { WritesChannel place.channels place.channel shape.count to.new (sample_at from.now shape.channels channel) }
    ensures others { KeepsOtherPlaces place.channels place.channel shape.count to.old to.new }
    ensures samples { (i : ℕ) → i < shape.count → FitsSigned w32 (sample_at from.now shape.channels channel i) }
{
    let mut read = channel;
    let mut at = place.channel;
    'frames: for _turn in 0..shape.count {
        to[at] = from[read];
        read += shape.channels;
        at += place.channels;
    }
}

/// Writes what an effect makes of each sample of one channel of these frames over a channel of as many frames of other
/// channels, and counts how many were clipped.
#[inline(always)]
pub(crate) fn place_rounded<S: Sampling>(
    sampling: &S,
    from: &[i32],
    shape: ChannelShape,
    channel: usize,
    to: &mut [i32],
    place: Place,
) -> u64
    requires channel { channel < shape.channels }
    requires inputs { shape.channels ≤ 16 }
    requires from { shape.count * shape.channels ≤ length from.now }
    requires place { place.channel < place.channels }
    requires outputs { place.channels ≤ 16 }
    requires to { shape.count * place.channels ≤ length to.old }
    ensures put { WritesRounded place.channels place.channel shape.count to.new (rounded_at (S.rounded sampling.now) from.now shape.channels channel) }
    ensures others { KeepsOtherPlaces place.channels place.channel shape.count to.old to.new }
    ensures clips { result ≡ clips_rounded (tabulate (rounded_at (S.rounded sampling.now) from.now shape.channels channel) 0 shape.count) }
    ensures bound { result ≤ shape.count }
{
    let mut read = channel;
    let mut at = place.channel;
    let mut clips = 0;
    'frames: for _turn in 0..shape.count {
        to[at] = sampling.round_and_count(from[read], &mut clips);
        read += shape.channels;
        at += place.channels;
    }
    clips
}

/// Half the sum of two samples, halves away from zero.
#[inline(always)]
pub(crate) fn halved(sum: i64) -> i32
    requires minimum { neg_ℤ (pos (2 ^ 32)) ≤ℤ sum }
    requires maximum { sum ≤ℤ pos (2 ^ 32 - 2) }
    ensures { rounding sum 2 ≡ (result, false) }
{
    ((sum + 1 + (sum >> 63)) >> 1) as i32
}

/// Writes the mean of two channels of these frames, rounded once, over a channel of as many frames of other channels. None
/// is clipped.
#[inline(always)]
pub(crate) fn place_mean(
    from: &[i32],
    shape: ChannelShape,
    first: usize,
    second: usize,
    to: &mut [i32],
    place: Place,
)
    requires first { first < shape.channels }
    requires second { second < shape.channels }
    requires inputs { shape.channels ≤ 16 }
    requires from { shape.count * shape.channels ≤ length from.now }
    requires place { place.channel < place.channels }
    requires outputs { place.channels ≤ 16 }
    requires to { shape.count * place.channels ≤ length to.old }
    ensures put { WritesRounded place.channels place.channel shape.count to.new (mean_at from.now shape.channels first second) }
    ensures unclipped { (i : ℕ) → i < shape.count → (mean_at from.now shape.channels first second i).1 ≡ false }
    ensures others { KeepsOtherPlaces place.channels place.channel shape.count to.old to.new }
{
    let mut left = first;
    let mut right = second;
    let mut at = place.channel;
    'frames: for _turn in 0..shape.count {
        to[at] = halved(i64::from(from[left]) + i64::from(from[right]));
        left += shape.channels;
        right += shape.channels;
        at += place.channels;
    }
}
