//! Gains that are proper fractions: a sample times such a gain is rounded by two products of 32 bits.
ghost use Rattle.std.specs.Prelude.{◌≡◌, ◌<◌, ◌^◌, ◌↔◌, pos, neg_ℤ, ◌*ℤ◌, ◌≤ℤ◌, ◌<ℤ◌, length, map, IfSome, IsSome};
ghost use Rattle.fx_fixed.specs.Rounding.{nearest};
ghost use Rattle.fx_frame_base.specs.Rounded.{clips_rounded, samples_of};
ghost use Rattle.fx_tap_pointwise.specs.Fractions.{fraction_sample};

use crate::per_sample::Sampling;
use std::marker::Model;

/// The denominators are below this one, so that twice a sample times a denominator is below 2^62.
const DENOMINATORS: u32 = 1 << 30;

/// A gain from 0 to below 1 in lowest terms, prepared as a factor of 2^62 in two parts.
#[derive(Drop)]
pub struct ProperFraction {
    weight: u32,
    denominator: u32,
    /// The factor over 2^31, rounded down.
    high: i32,
    /// The remainder of the factor.
    low: i32,
}

impl Model for ProperFraction {
    ghost use Rattle.std.specs.Prelude.{pos};
    ghost use Rattle.fx_tap_pointwise.specs.Fractions.{IsProperFraction, Ratio};

    ghost Value = { Ratio };

    ghost view = { λ f. record { weight = pos f.weight; denominator = f.denominator } };

    ghost invariant = { λ f. IsProperFraction f.weight f.denominator f.high f.low };
}

impl ProperFraction {
    /// A weight over a denominator, prepared. None where that is below 0, or 1 or more, or where the denominator is too large.
    pub fn of(weight: i32, denominator: u64) -> Option<ProperFraction>
        ensures exact { IfSome result (λ f. f ≡ record { weight = weight; denominator = denominator }) }
        ensures proper { IsSome result ↔ ((pos 0 ≤ℤ weight) × (weight <ℤ pos denominator) × (denominator < 2 ^ 30)) }
    {
        let Ok(weight) = u32::try_from(weight) else {
            return None;
        };
        let Ok(denominator) = u32::try_from(denominator) else {
            return None;
        };
        if weight >= denominator || denominator >= DENOMINATORS {
            return None;
        }
        // The factor is above the exact one, so that halves below 0 are rounded away from zero as those above 0 are.
        let factor = (u128::from(weight) << 62) / u128::from(denominator) + 1;
        Some(ProperFraction {
            weight,
            denominator,
            high: (factor >> 31) as i32,
            low: (factor % (1 << 31)) as i32,
        })
    }

    /// The integer nearest to a sample times it, halves away from zero.
    #[inline(always)]
    fn nearest(&self, sample: i32) -> i64
        ensures value { result ≡ nearest (self.now.weight *ℤ sample) self.now.denominator }
        ensures low { neg_ℤ (pos (2 ^ 31)) ≤ℤ result }
        ensures high { result <ℤ pos (2 ^ 31) }
    {
        let sample = i64::from(sample);
        let low = (sample * i64::from(self.low)) >> 31;
        (sample * i64::from(self.high) + low + (1 << 30)) >> 31
    }

    /// Writes what it makes of each sample. None is clipped.
    #[inline(always)]
    pub fn round_many(&self, input: &[i32], output: &mut [i32])
        requires { length output.old ≡ length input.now }
        ensures samples { output.new ≡ samples_of (map (fraction_sample self.now) input.now) }
        ensures clips { clips_rounded (map (fraction_sample self.now) input.now) ≡ 0 }
    {
        'samples: for place in 0..input.len() {
            output[place] = self.nearest(input[place]) as i32;
        }
    }

    /// Writes what it makes of each sample over it. None is clipped.
    #[inline(always)]
    pub fn round_over(&self, samples: &mut [i32])
        ensures samples { samples.new ≡ samples_of (map (fraction_sample self.now) samples.old) }
        ensures clips { clips_rounded (map (fraction_sample self.now) samples.old) ≡ 0 }
    {
        'samples: for place in 0..samples.len() {
            samples[place] = self.nearest(samples[place]) as i32;
        }
    }
}

impl Sampling for ProperFraction {
    ghost rounded = { fraction_sample };

    #[inline(always)]
    fn round(&self, sample: i32) -> (i32, bool) {
        (self.nearest(sample) as i32, false)
    }
}
