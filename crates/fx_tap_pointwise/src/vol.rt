//! The effect `vol` of sox(1): each sample times a gain.
ghost use Rattle.std.specs.Prelude.{◌≡◌, ◌<◌, ◌≤◌, ◌+◌, ◌*◌, ℤ, length, map, IfOk, IfErr};
ghost use Rattle.fx_frame_base.specs.Lists.{tabulate};
ghost use Rattle.fx_frame_base.specs.Rounded.{clips_rounded, samples_of};
ghost use Rattle.fx_frame_base.specs.Stage.{Freezes, IsNew};
ghost use Rattle.fx_tap_pointwise.specs.Fractions.{fraction_sample};
ghost use Rattle.fx_tap_pointwise.specs.Vol.{scaled_sample};
ghost use Rattle.fx_tap_pointwise.specs.VolState.{vol_acts};
ghost use Rattle.fx_tap_pointwise.specs.PerSampleState.{RestoresEach};
ghost use Rattle.fx_tap_pointwise.specs.Channels.{rounded_at};
ghost use Rattle.fx_tap_sums.specs.ChannelSamples.{WritesRounded, KeepsOtherPlaces};
ghost use Rattle.fx_frame_base.specs.Frame.{IsChannelCount};

pub mod words;

use crate::both::{BothClips, rounded_by_both};
use crate::channels::{ChannelShape, Place, place_rounded};
use crate::mapped::Mapped;
use crate::per_sample::{
    PerSample, SamplesAfter, SamplesMany, Sampling, round_over, rounded_samples,
};
use crate::proper::ProperFraction;
use fx_fixed::inner::{Denominator, reduce, scale};
use fx_fixed::{Gain, UNIT};
use fx_frame::{ThawFault, WideFrame};
use std::marker::Model;

/// A gain in lowest terms: a weight of at most `2^30` in magnitude, over a prepared denominator.
#[derive(Drop)]
pub struct Fraction {
    weight: i32,
    denominator: Denominator,
}

impl Model for Fraction {
    ghost use Rattle.std.specs.Prelude.{◌≤◌, ◌^◌, unsigned_abs};
    ghost use Rattle.fx_tap_pointwise.specs.Fractions.{Ratio};

    ghost Value = { Ratio };

    ghost view = { λ f. record { weight = f.weight; denominator = f.denominator } };

    ghost invariant = { λ f. unsigned_abs f.weight ≤ 2 ^ 30 };
}

impl Sampling for Fraction {
    ghost rounded = { fraction_sample };

    #[inline(always)]
    fn round(&self, sample: i32) -> (i32, bool) {
        self.denominator
            .round(i64::from(self.weight) * i64::from(sample))
    }

    #[inline(always)]
    fn round_and_count(&self, sample: i32, clips: &mut u64) -> i32 {
        let sum = i64::from(self.weight) * i64::from(sample);
        self.denominator.round_and_count(sum, clips)
    }
}

/// A gain, and the same in lowest terms, where these are small.
#[derive(Drop)]
pub struct Scale {
    gain: Gain,
    fraction: Option<Fraction>,
    /// The same where it is from 0 to below 1 and its denominator is small: no sample is divided or clipped.
    proper: Option<ProperFraction>,
}

// It is the gain.
impl Model for Scale {
    ghost use Rattle.std.specs.Prelude.{ℤ, IfSome};
    ghost use Rattle.fx_tap_pointwise.specs.Fractions.{Rounds};

    ghost Value = { ℤ };

    ghost view = { λ s. s.gain };

    ghost invariant = { λ s. IfSome s.fraction (Rounds s.gain) × IfSome s.proper (Rounds s.gain) };
}

impl Scale {
    /// The gain, prepared.
    pub(crate) fn of(gain: Gain) -> Scale
        ensures { result ≡ gain }
    {
        let mut weights = [0];
        let reduced = reduce(&[gain.trillionths()], 1, u128::from(UNIT), &mut weights);
        let Some(denominator) = reduced else {
            return Scale {
                gain,
                fraction: None,
                proper: None,
            };
        };
        let weight = weights[0];
        let proper = ProperFraction::of(weight, denominator.value());
        Scale {
            gain,
            fraction: Some(Fraction {
                weight,
                denominator,
            }),
            proper,
        }
    }

    /// Writes what it makes of each sample of one channel of these frames over a channel of as many frames of other channels,
    /// and counts how many were clipped.
    pub(crate) fn place_channel(
        &self,
        from: &[i32],
        shape: ChannelShape,
        channel: usize,
        to: &mut [i32],
        place: Place,
    ) -> u64
        requires channel { channel < shape.channels }
        requires inputs { shape.channels ≤ 16 }
        requires from { shape.count * shape.channels ≤ length from.now }
        requires place { place.channel < place.channels }
        requires outputs { place.channels ≤ 16 }
        requires to { shape.count * place.channels ≤ length to.old }
        ensures put { WritesRounded place.channels place.channel shape.count to.new (rounded_at (scaled_sample self.now) from.now shape.channels channel) }
        ensures others { KeepsOtherPlaces place.channels place.channel shape.count to.old to.new }
        ensures clips { result ≡ clips_rounded (tabulate (rounded_at (scaled_sample self.now) from.now shape.channels channel) 0 shape.count) }
        ensures bound { result ≤ shape.count }
    {
        if let Some(proper) = &self.proper {
            return place_rounded(proper, from, shape, channel, to, place);
        }
        match &self.fraction {
            Some(fraction) => place_rounded(fraction, from, shape, channel, to, place),
            None => place_rounded(self, from, shape, channel, to, place),
        }
    }

    /// Writes what it makes of each sample over it, for a gain that is not small, and counts how many were clipped.
    #[inline(never)] // so that the loop over frames stays small enough for its stages to be inlined
    fn round_wide(&self, samples: &mut [i32]) -> u64
        ensures samples { samples.new ≡ samples_of (map (scaled_sample self.now) samples.old) }
        ensures clips { result ≡ clips_rounded (map (scaled_sample self.now) samples.old) }
        ensures bound { result ≤ length samples.old }
    {
        round_over(self, samples)
    }
}

impl Sampling for Scale {
    ghost rounded = { scaled_sample };

    #[inline(always)]
    fn round(&self, sample: i32) -> (i32, bool) {
        if let Some(proper) = &self.proper {
            return proper.round(sample);
        }
        match &self.fraction {
            Some(fraction) => fraction.round(sample),
            None => scale(self.gain, sample),
        }
    }
}

impl SamplesAfter for Scale {
    fn round_after<A: Sampling>(&self, first: &A, input: &[i32], output: &mut [i32]) -> BothClips {
        if let Some(proper) = &self.proper {
            return rounded_by_both(first, proper, input, output);
        }
        match &self.fraction {
            Some(fraction) => rounded_by_both(first, fraction, input, output),
            None => rounded_by_both(first, self, input, output),
        }
    }
}

impl SamplesMany for Scale {
    #[inline(always)]
    fn round_many(&self, input: &[i32], output: &mut [i32]) -> u64 {
        if let Some(proper) = &self.proper {
            proper.round_many(input, output);
            return 0;
        }
        match &self.fraction {
            Some(fraction) => rounded_samples(fraction, input, output),
            None => rounded_samples(self, input, output),
        }
    }

    fn round_before<B: SamplesAfter>(
        &self,
        second: &B,
        input: &[i32],
        output: &mut [i32],
    ) -> BothClips {
        if let Some(proper) = &self.proper {
            return second.round_after(proper, input, output);
        }
        match &self.fraction {
            Some(fraction) => second.round_after(fraction, input, output),
            None => second.round_after(self, input, output),
        }
    }

    #[inline(always)]
    fn round_all(&self, samples: &mut [i32]) -> u64 {
        if let Some(proper) = &self.proper {
            proper.round_over(samples);
            return 0;
        }
        match &self.fraction {
            Some(fraction) => round_over(fraction, samples),
            None => self.round_wide(samples),
        }
    }
}

/// The stage of `vol`: each sample times the gain, rounded once. A sample that is clipped counts for one clip.
pub type Vol = Mapped<PerSample<Scale>>;

impl Mapped<PerSample<Scale>> {
    /// The stage for frames of 1 to 16 channels. Allocates no memory.
    pub fn new(channels: usize, gain: Gain) -> Vol
        requires { IsChannelCount channels }
        ensures { IsNew vol_acts (record { channels = channels; sampling = gain }) result }
    {
        Mapped::each(channels, Scale::of(gain))
    }

    /// The stage that stored these frames and counted these numbers: whichever stage of these channels and this gain they
    /// came from, that stage is restored. BadSnapshot where there is no such stage. Allocates no memory.
    pub fn thaw(
        channels: usize,
        gain: Gain,
        frames: &[WideFrame],
        numbers: &[u64; 8],
    ) -> Result<Vol, ThawFault>
        requires { IsChannelCount channels }
        ensures recipe { IfOk result (λ t. vol_acts.recipe t ≡ record { channels = channels; sampling = gain }) }
        ensures frozen { IfOk result (λ t. Freezes vol_acts t frames.now numbers.now) }
        ensures thawed { RestoresEach vol_acts channels gain frames.now numbers.now result }
        ensures refused { IfErr result (λ e. e ≡ ThawFault.BadSnapshot) }
    {
        Mapped::each_thawed(channels, Scale::of(gain), frames, numbers)
    }
}
