//! Samples times the weights of a rise and of a fall, each rounded once.
ghost use Rattle.std.specs.Prelude.{◌≡◌, ◌<◌, ◌≤◌, ◌^◌, map, length, FitsSigned, IfSome};
ghost use Rattle.std.specs.Int.{w32};
ghost use Rattle.std.specs.List.{All};
ghost use Rattle.fx_cut.specs.Fade.{weight, weighted};
ghost use Rattle.fx_frame_base.specs.Rounded.{unclipped};

use fx_fixed::inner::Denominator;
use fx_fixed::round_clip;
use std::marker::Model;

/// The longest slope whose weights times samples fit the 64 bits that a `Denominator` rounds.
const MAX_PREPARED: u64 = 1 << 30;

/// A rise or a fall. Its length in frames is prepared as a denominator where it is from 1 to `2^30`.
#[derive(Drop)]
pub(crate) struct Slope {
    length: u64,
    prepared: Option<Denominator>,
}

impl Model for Slope {
    ghost use Rattle.std.specs.Prelude.{ℕ, ◌≡◌, ◌^◌, ◌≤◌, IfSome};

    ghost Value = { ℕ };

    ghost view = { λ s. s.length };

    ghost invariant = { λ s. IfSome s.prepared (λ d. (d ≡ s.length) × (s.length ≤ 2 ^ 30)) };
}

/// A sample times a weight of at most 1, rounded; by the prepared denominator, where there is one.
#[inline(always)]
fn weighted_sample(sample: i32, over: u128, under: u128, prepared: &Option<Denominator>) -> i32
    requires weight { (over ≤ under) × (0 < under) }
    requires small { under ≤ 2 ^ 80 }
    requires prepared { IfSome prepared.now (λ d. (d ≡ under) × (under ≤ 2 ^ 30)) }
    ensures { weighted (over, under) sample ≡ unclipped result }
{
    let Some(denominator) = prepared else {
        let (rounded, _clipped) = round_clip(i128::from(sample) * over as i128, under as i128);
        return rounded;
    };
    denominator.round_within(i64::from(sample) * over as i64)
}

/// Samples times a weight of at most 1, each rounded, in place.
#[inline(always)]
pub(crate) fn weigh_by(samples: &mut [i32], over: u128, under: u128, prepared: &Option<Denominator>)
    requires weight { (over ≤ under) × (0 < under) }
    requires small { under ≤ 2 ^ 80 }
    requires prepared { IfSome prepared.now (λ d. (d ≡ under) × (under ≤ 2 ^ 30)) }
    requires fit { All (FitsSigned w32) samples.old }
    ensures samples { map (weighted (over, under)) samples.old ≡ map unclipped samples.new }
    ensures fit { All (FitsSigned w32) samples.new }
    ensures len { length samples.new ≡ length samples.old }
{
    'samples: for place in 0..samples.len() {
        samples[place] = weighted_sample(samples[place], over, under, prepared);
    }
}

impl Slope {
    /// The slope of `length` frames; 0 for none.
    pub(crate) fn new(length: u64) -> Slope
        ensures { result ≡ length }
    {
        let prepared = if 0 < length && length <= MAX_PREPARED {
            Some(Denominator::new(length))
        } else {
            None
        };
        Slope { length, prepared }
    }

    /// `parts` parts of it, at most 1, as a numerator and a denominator.
    #[inline(always)]
    pub(crate) fn at(&self, parts: u64) -> (u64, u64)
        ensures { result ≡ weight self.now parts }
    {
        if self.length == 0 {
            return (1, 1);
        }
        (parts.min(self.length), self.length)
    }

    /// Samples times `parts` parts of it, each rounded, in place. Where that is 1 no sample is touched.
    #[inline(always)]
    pub(crate) fn weigh(&self, samples: &mut [i32], parts: u64)
        requires fit { All (FitsSigned w32) samples.old }
        requires short { self.now ≤ 2 ^ 40 }
        ensures samples { map (weighted (weight self.now parts)) samples.old ≡ map unclipped samples.new }
        ensures fit { All (FitsSigned w32) samples.new }
        ensures len { length samples.new ≡ length samples.old }
    {
        let (over, under) = self.at(parts);
        if over == under {
            return;
        }
        weigh_by(samples, u128::from(over), u128::from(under), &self.prepared);
    }
}
