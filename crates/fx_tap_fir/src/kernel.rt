//! The coefficients of a `fir`, prepared: in lowest terms, where sums of samples times them fit 64 bits.
ghost use Rattle.std.specs.Prelude.{◌≡◌, ◌+◌, ◌*◌, ◌^◌, ◌<◌, ◌≤◌, pos, neg_ℤ, ◌≤ℤ◌, length, drop, reverse, unsigned_abs, All, IfOk, IfSome};
ghost use Rattle.fx_fixed.specs.Rounding.{rounding};
ghost use Rattle.fx_tap_fir.specs.FirState.{samples_of_window};
ghost use Rattle.fx_tap_sums.specs.SmallWeights.{SumsAs};
ghost use Rattle.fx_tap_sums.specs.ChannelSamples.{KeepsOtherPlaces, WritesRounded};
ghost use Rattle.fx_tap_fir.specs.Rounds.{rounded_sum_from};
ghost use Rattle.fx_tap_fir.specs.Split.{AddUpTo};
ghost use Rattle.fx_frame_base.specs.Lists.{tabulate};
ghost use Rattle.fx_tap_sums.specs.Products.{sum_of_products};
ghost use Rattle.fx_frame_base.specs.Rounded.{clips_rounded};

use crate::reduced::{Reduced, SUMS_OF_PIECE};
use crate::split::{Split, max_of_split};
use fx_fixed::{Gain, UNIT, round_clip};
use fx_tap_sums::{dot, round_channel};
use std::alloc::{AllocError, Global};
use std::marker::Model;

/// The coefficients in trillionths, the last one first.
fn reversed(alloc: Global, coefficients: &[Gain]) -> Result<Vec<i64>, AllocError>
    ensures items { IfOk result (λ v. v.items ≡ reverse coefficients.now) }
    ensures small { IfOk result (λ v. All (λ c. unsigned_abs c ≤ 10 ^ 15) v.items) }
{
    let mut numbers = Vec::new(alloc);
    'coefficients: for coefficient in coefficients {
        numbers.push(coefficient.trillionths())?;
    }
    numbers.reverse();
    Ok(numbers)
}

/// At most 1024 coefficients, the last one first, and the same in lowest terms, where these are small, or else in two parts,
/// where they are many.
#[derive(Drop)]
pub(crate) struct Kernel {
    backwards: Vec<i64>,
    reduced: Option<Reduced>,
    split: Option<Split>,
}

impl Model for Kernel {
    ghost use Rattle.std.specs.Prelude.{◌≤◌, ◌^◌, ℤ, List, length, unsigned_abs, All, IfSome};
    ghost use Rattle.fx_fixed.specs.declared.gains.TheConstants.{UNIT};
    ghost use Rattle.fx_tap_sums.specs.SmallWeights.{SumsAs};
    ghost use Rattle.fx_tap_fir.specs.Split.{AddUpTo};

    ghost Value = { List ℤ };

    ghost view = { λ s. s.backwards.items };

    ghost invariant = { λ s. (length s.backwards.items ≤ 1024) × All (λ c. unsigned_abs c ≤ 10 ^ 15) s.backwards.items × IfSome s.reduced (SumsAs s.backwards.items UNIT) × IfSome s.split (AddUpTo s.backwards.items) };
}

/// A sample in trillionths, rounded, and whether it was clipped.
pub(crate) fn rounded(sum: i128) -> (i32, bool)
    requires low { neg_ℤ (pos (2 ^ 102)) ≤ℤ sum }
    requires high { sum ≤ℤ pos (2 ^ 102) }
    ensures { result ≡ rounding sum UNIT }
{
    round_clip(sum, i128::from(UNIT))
}

impl Kernel {
    /// That of at most 1024 coefficients.
    pub(crate) fn of(alloc: Global, coefficients: &[Gain]) -> Result<Kernel, AllocError>
        requires { length coefficients.now ≤ 1024 }
        ensures value { IfOk result (λ k. k ≡ reverse coefficients.now) }
        ensures small { IfOk result (λ k. All (λ c. unsigned_abs c ≤ 10 ^ 15) k) }
    {
        let backwards = reversed(alloc, coefficients)?;
        let reduced = Reduced::of(alloc, &backwards, UNIT)?;
        let split = match &reduced {
            Some(_reduced) => None,
            None => Split::of(alloc, &backwards)?,
        };
        Ok(Kernel {
            backwards,
            reduced,
            split,
        })
    }

    /// How many coefficients there are.
    #[inline(always)]
    pub(crate) fn len(&self) -> usize
        ensures { result ≡ length self.now }
    {
        self.backwards.len()
    }

    /// How many frames are best filtered at once.
    pub(crate) fn max_at_once(&self) -> usize
        ensures some { 1 ≤ result }
        ensures bound { result ≤ 3584 }
        ensures fits { length self.now + result ≤ 4096 }
    {
        if let Some(reduced) = &self.reduced {
            return reduced.max_at_once();
        }
        if self.split.is_none() {
            return SUMS_OF_PIECE;
        }
        max_of_split(self.len())
    }

    /// The sum of the coefficients from one on times as many samples, rounded, and whether it was clipped.
    #[inline(always)]
    fn weigh_from(&self, from: usize, samples: &[i32]) -> (i32, bool)
        requires { from + length samples.now ≤ length self.now }
        ensures { result ≡ rounding (sum_of_products samples.now (drop from self.now)) UNIT }
    {
        if let Some(reduced) = &self.reduced {
            return reduced.weigh(from, samples);
        }
        let coefficients = &self.backwards[from..from + samples.len()];
        rounded(dot(samples, coefficients))
    }

    /// The sum of the coefficients times the samples from one place of a window on backwards, rounded; and whether
    /// it was clipped. Outside of the window there is silence.
    pub(crate) fn weigh(&self, window: &[i32], place: usize) -> (i32, bool)
        requires place { place ≤ 2 ^ 20 }
        requires end { length window.now ≤ place + 1 }
        requires start { place + 1 ≤ length self.now + length window.now }
        ensures { result ≡ rounding (sum_of_products (samples_of_window window.now place (length self.now)) (reverse self.now)) UNIT }
    {
        let count = self.backwards.len();
        if place < count {
            return self.weigh_from(count - 1 - place, window);
        }
        self.weigh_from(0, &window[place + 1 - count..])
    }

    /// As `filter_channel`, one sum at a time.
    #[inline(never)]
    fn weigh_channel(
        &self,
        window: &[i32],
        count: usize,
        channels: usize,
        channel: usize,
        out: &mut [i32],
    ) -> u64
        requires channel { channel < channels }
        requires channels { channels ≤ 16 }
        requires window { length self.now + count ≤ length window.now + 1 }
        requires out { count * channels ≤ length out.old }
        ensures put { WritesRounded channels channel count out.new (rounded_sum_from self.now window.now) }
        ensures others { KeepsOtherPlaces channels channel count out.old out.new }
        ensures clips { result ≡ clips_rounded (tabulate (rounded_sum_from self.now window.now) 0 count) }
        ensures bound { result ≤ count }
    {
        let taps = self.len();
        let mut at = channel;
        let mut clips = 0;
        'frames: for place in 0..count {
            let (sample, is_clipped) = self.weigh_from(0, &window[place..place + taps]);
            out[at] = sample;
            clips += u64::from(is_clipped);
            at += channels;
        }
        clips
    }

    /// Writes one channel of as many frames as there are places for sums, and counts how many samples were clipped: the sums
    /// of the coefficients times as many samples of the window from each of its places on, rounded.
    pub(crate) fn filter_channel(
        &self,
        window: &[i32],
        sums: &mut [i64],
        channels: usize,
        channel: usize,
        out: &mut [i32],
    ) -> u64
        requires channel { channel < channels }
        requires channels { channels ≤ 16 }
        requires count { length sums.old ≤ 3584 }
        requires window { length self.now + length sums.old ≤ length window.now + 1 }
        requires out { length sums.old * channels ≤ length out.old }
        ensures put { WritesRounded channels channel (length sums.old) out.new (rounded_sum_from self.now window.now) }
        ensures others { KeepsOtherPlaces channels channel (length sums.old) out.old out.new }
        ensures clips { result ≡ clips_rounded (tabulate (rounded_sum_from self.now window.now) 0 (length sums.old)) }
        ensures bound { result ≤ length sums.old }
    {
        if let Some(reduced) = &self.reduced {
            reduced.convolve(window, sums);
            return round_channel(sums, reduced.denominator(), channels, channel, out);
        }
        if let Some(split) = &self.split {
            if split.pays(sums.len()) {
                return split.filter_channel(window, sums, channels, channel, out);
            }
        }
        self.weigh_channel(window, sums.len(), channels, channel, out)
    }
}
