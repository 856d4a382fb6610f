//! Coefficients in two parts, for sums by transforms where they are not small.
ghost use Rattle.std.specs.Prelude.{◌≡◌, ◌<◌, ◌≤◌, ◌+◌, ◌*◌, ◌^◌, ℕ, true, pos, neg_ℤ, ◌≤ℤ◌, length, slice_index_or, unsigned_abs, All, IfOk, IfSome};
ghost use Rattle.fx_frame_base.specs.Lists.{tabulate};
ghost use Rattle.fx_frame_base.specs.Rounded.{clips_rounded};
ghost use Rattle.fx_tap_sums.specs.ChannelSamples.{KeepsOtherPlaces, WritesRounded};
ghost use Rattle.fx_tap_fir.specs.Rounds.{rounded_joined, rounded_joined_from};
ghost use Rattle.fx_tap_fir.specs.Split.{AddUpTo, AreSplit, joined_split};

use crate::kernel::rounded;
use crate::reduced::pays;
use fx_tap_sums::transforms::Spectrum;
use std::alloc::{AllocError, Global};
use std::marker::Model;

/// How many coefficients there are at least where two transforms pay.
const MIN_COEFFICIENTS: usize = 256;

/// How many products take as long as two transforms of 2,048 numbers.
const PRODUCTS_OF_TRANSFORMS: usize = 200_000;

/// How many sums are made at once at most: those of transforms of 2,048 numbers by 256 coefficients. Of a piece that takes several
/// transforms, the last few sums would take one too.
const MAX_SUMS: usize = 1792;

/// How many sums of `coefficients` products are best made at once by two transforms.
pub(crate) fn max_of_split(coefficients: usize) -> usize
    requires { coefficients ≤ 1024 }
    ensures { coefficients + result ≡ 2048 }
{
    2048 - coefficients
}

/// The high part of a coefficient, which counts 2^20 times, and the low one.
fn parts_of(coefficient: i64) -> (i32, i32)
    requires { unsigned_abs coefficient ≤ 10 ^ 15 }
    ensures { coefficient ≡ joined_split result.0 result.1 }
{
    let high = coefficient >> 20;
    (high as i32, (coefficient - high * (1 << 20)) as i32)
}

/// Writes the parts of each coefficient.
fn split_into(coefficients: &[i64], high: &mut [i32], low: &mut [i32])
    requires small { All (λ c. unsigned_abs c ≤ 10 ^ 15) coefficients.now }
    requires high { length high.old ≡ length coefficients.now }
    requires low { length low.old ≡ length coefficients.now }
    ensures { AreSplit coefficients.now high.new low.new }
{
    'coefficients: for place in 0..coefficients.len() {
        let (above, below) = parts_of(coefficients[place]);
        high[place] = above;
        low[place] = below;
    }
}

/// A sum of high parts and one of low parts, joined.
fn join(high: i64, low: i64) -> i128
    requires high { unsigned_abs high ≤ 2 ^ 61 }
    requires low { unsigned_abs low ≤ 2 ^ 61 }
    ensures value { result ≡ joined_split high low }
    ensures low { neg_ℤ (pos (2 ^ 102)) ≤ℤ result }
    ensures high { result ≤ℤ pos (2 ^ 102) }
{
    i128::from(high) * (1 << 20) + i128::from(low)
}

/// Writes sums of high parts and of low parts, joined and rounded, as one channel of as many frames, and counts how many
/// samples were clipped.
fn round_joined(high: &[i64], low: &[i64], channels: usize, channel: usize, out: &mut [i32]) -> u64
    requires channel { channel < channels }
    requires channels { channels ≤ 16 }
    requires many { length high.now ≡ length low.now }
    requires low { (i : ℕ) → i < length low.now → unsigned_abs (slice_index_or low.now i (pos 0)) ≤ 2 ^ 61 }
    requires high { (i : ℕ) → i < length high.now → unsigned_abs (slice_index_or high.now i (pos 0)) ≤ 2 ^ 61 }
    requires out { length low.now * channels ≤ length out.old }
    ensures put { WritesRounded channels channel (length low.now) out.new (rounded_joined high.now low.now) }
    ensures others { KeepsOtherPlaces channels channel (length low.now) out.old out.new }
    ensures clips { result ≡ clips_rounded (tabulate (rounded_joined high.now low.now) 0 (length low.now)) }
    ensures bound { result ≤ length low.now }
{
    let mut at = channel;
    let mut clips = 0;
    'frames: for place in 0..low.len() {
        let (sample, is_clipped) = rounded(join(high[place], low[place]));
        out[at] = sample;
        clips += u64::from(is_clipped);
        at += channels;
    }
    clips
}

/// The parts of coefficients, prepared for sums by transforms.
#[derive(Drop)]
pub(crate) struct Split {
    count: usize,
    high: Spectrum,
    low: Spectrum,
}

impl Model for Split {
    ghost use Rattle.fx_tap_fir.specs.Split.{SplitParts};

    ghost Value = { SplitParts };

    ghost view = { λ s. record { high = s.high; low = s.low } };
}

impl Split {
    /// Those of coefficients. None where transforms are no faster, or where the parts are too large for them.
    pub(crate) fn of(alloc: Global, coefficients: &[i64]) -> Result<Option<Split>, AllocError>
        requires { All (λ c. unsigned_abs c ≤ 10 ^ 15) coefficients.now }
        ensures { IfOk result (λ split. IfSome split (AddUpTo coefficients.now)) }
    {
        let count = coefficients.len();
        if count < MIN_COEFFICIENTS {
            return Ok(None);
        }
        let mut low = Vec::new(alloc);
        low.resize(count, 0)?;
        let mut high = Vec::new(alloc);
        high.resize(count, 0)?;
        split_into(coefficients, &mut high, &mut low);
        let Some(low) = Spectrum::of(alloc, &low)? else {
            return Ok(None);
        };
        let Some(high) = Spectrum::of(alloc, &high)? else {
            return Ok(None);
        };
        Ok(Some(Split { count, high, low }))
    }

    /// Tests that `sums` sums are faster by transforms than one by one, and no more than are made at once.
    pub(crate) fn pays(&self, sums: usize) -> bool
        ensures { result ≡ true → sums ≤ 1792 }
    {
        sums <= MAX_SUMS && pays(self.count, sums, PRODUCTS_OF_TRANSFORMS)
    }

    /// Writes one channel of as many frames as there are places for sums, and counts how many samples were clipped: the sums
    /// of the coefficients times as many samples of the window from each of its places on, rounded.
    pub(crate) fn filter_channel(
        &self,
        window: &[i32],
        sums: &mut [i64],
        channels: usize,
        channel: usize,
        out: &mut [i32],
    ) -> u64
        requires channel { channel < channels }
        requires channels { channels ≤ 16 }
        requires count { length sums.old ≤ 1792 }
        requires low { length self.now.low + length sums.old ≤ length window.now + 1 }
        requires high { length self.now.high + length sums.old ≤ length window.now + 1 }
        requires out { length sums.old * channels ≤ length out.old }
        ensures put { WritesRounded channels channel (length sums.old) out.new (rounded_joined_from self.now window.now) }
        ensures others { KeepsOtherPlaces channels channel (length sums.old) out.old out.new }
        ensures clips { result ≡ clips_rounded (tabulate (rounded_joined_from self.now window.now) 0 (length sums.old)) }
        ensures bound { result ≤ length sums.old }
    {
        let mut places = [0; MAX_SUMS];
        let high = &mut places[..sums.len()];
        self.low.convolve(window, sums);
        self.high.convolve(window, high);
        round_joined(high, sums, channels, channel, out)
    }
}
