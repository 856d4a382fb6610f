//! The effect `dcshift` of sox(1): each sample plus a shift.
ghost use Rattle.std.specs.Prelude.{◌≡◌, ◌*◌, ◌^◌, ◌<◌, ◌≤◌, ℤ, length, map, unsigned_abs, IfOk, IfErr, IfSome};
ghost use Rattle.fx_fixed.specs.Rounding.{clipping};
ghost use Rattle.fx_frame_base.specs.Rounded.{clips_rounded, samples_of};
ghost use Rattle.fx_frame_base.specs.Stage.{Freezes, IsNew};
ghost use Rattle.fx_tap_pointwise.specs.DcShift.{shifted_sample, units_of};
ghost use Rattle.fx_tap_pointwise.specs.DcShiftState.{dcshift_acts, steps_of};
ghost use Rattle.fx_tap_pointwise.specs.PerSampleState.{RestoresEach};
ghost use Rattle.fx_frame_base.specs.Frame.{IsChannelCount};

pub mod words;

use crate::both::{BothClips, rounded_by_both};
use crate::mapped::Mapped;
use crate::per_sample::{
    PerSample, SamplesAfter, SamplesMany, Sampling, round_over, rounded_samples,
};
use fx_fixed::{Gain, UNIT};
use fx_frame::{ThawFault, WideFrame};
use std::marker::Model;

/// The maximum number of samples whose clips are counted in 32 bits.
const MAX_COUNTED: usize = u32::MAX as usize;

/// A shift of no more steps than a sample has: a sample is limited first, so that the steps are added to it in 32 bits.
#[derive(Drop)]
pub struct WholeShift {
    shift: Gain,
    steps: i32,
    /// The range of samples that are not clipped.
    minimum: i32,
    maximum: i32,
}

impl Model for WholeShift {
    ghost use Rattle.std.specs.Prelude.{◌≡◌, ◌-◌, ◌^◌, ◌-ℤ◌, ℤ, pos, neg_ℤ};
    ghost use Rattle.std.specs.Int.{int_max, int_min};
    ghost use Rattle.fx_fixed.specs.declared.gains.TheConstants.{UNIT};
    ghost use Rattle.fx_tap_pointwise.specs.DcShift.{units_of};
    ghost use Rattle.fx_tap_pointwise.specs.DcShiftState.{steps_of};

    ghost Value = { ℤ };

    ghost view = { λ s. s.shift };

    ghost invariant = { λ s. (s.steps ≡ steps_of UNIT (units_of s.shift))
        × (s.minimum ≡ neg_ℤ (pos (2 ^ 31)) -ℤ int_min s.steps (pos 0)) × (s.maximum ≡ pos (2 ^ 31 - 1) -ℤ int_max s.steps (pos 0)) };
}

impl WholeShift {
    /// A shift of these steps; None where they are more than a sample may have.
    fn of(shift: Gain, steps: i64) -> Option<WholeShift>
        requires { steps ≡ steps_of UNIT (units_of shift) }
        ensures { IfSome result (λ whole. whole ≡ shift) }
    {
        if steps <= i64::from(i32::MIN) || steps > i64::from(i32::MAX) {
            return None;
        }
        let steps = steps as i32;
        Some(WholeShift {
            shift,
            steps,
            minimum: i32::MIN - steps.min(0),
            maximum: i32::MAX - steps.max(0),
        })
    }

    /// The same shift as a value of its own. A loop keeps it in registers, where a shift behind a reference is loaded again
    /// after each store.
    #[inline(always)]
    fn copied(&self) -> WholeShift
        ensures { result ≡ self.now }
    {
        WholeShift {
            shift: self.shift,
            steps: self.steps,
            minimum: self.minimum,
            maximum: self.maximum,
        }
    }

    /// Writes what it makes of each sample, and counts how many were clipped.
    // The count has 32 bits, as samples have: one of 64 bits would halve how many of them a vector holds.
    #[inline(always)]
    fn shift_samples(&self, input: &[i32], output: &mut [i32]) -> u32
        requires places { length output.old ≡ length input.now }
        requires bound { length input.now < 2 ^ 32 }
        ensures samples { output.new ≡ samples_of (map (shifted_sample self.now) input.now) }
        ensures clips { result ≡ clips_rounded (map (shifted_sample self.now) input.now) }
        ensures bound { result ≤ length input.now }
    {
        let mut clips = 0;
        'samples: for place in 0..input.len() {
            let (sample, is_clipped) = self.round(input[place]);
            output[place] = sample;
            clips += u32::from(is_clipped);
        }
        clips
    }
}

impl Sampling for WholeShift {
    ghost rounded = { shifted_sample };

    #[inline(always)]
    fn round(&self, sample: i32) -> (i32, bool) {
        // A minimum and a maximum are one instruction each; `clamp` compares.
        let limited = self.minimum.max(sample.min(self.maximum));
        (limited + self.steps, limited != sample)
    }
}

/// A shift, ready to be added: the nearest whole steps of a sample. No shift is just between two of these, since its
/// trillionths are whole.
#[derive(Drop)]
pub struct Shift {
    shift: Gain,
    steps: i64,
    /// The same where it is smaller than the range of samples.
    whole: Option<WholeShift>,
}

impl Model for Shift {
    ghost use Rattle.std.specs.Prelude.{◌≡◌, ◌^◌, ◌≤◌, ℤ, unsigned_abs, IfSome};
    ghost use Rattle.fx_fixed.specs.declared.gains.TheConstants.{UNIT};
    ghost use Rattle.fx_tap_pointwise.specs.DcShift.{units_of};
    ghost use Rattle.fx_tap_pointwise.specs.DcShiftState.{steps_of};

    ghost Value = { ℤ };

    ghost view = { λ s. s.shift };

    ghost invariant = { λ s. (unsigned_abs s.steps ≤ 2 ^ 33) × (s.steps ≡ steps_of UNIT (units_of s.shift))
        × IfSome s.whole (λ whole. whole ≡ s.shift) };
}

impl Shift {
    /// A shift from -2 to 2.
    fn of(shift: Gain) -> Shift
        requires { unsigned_abs shift ≤ 2 * UNIT }
        ensures { result ≡ shift }
    {
        let steps = steps_in(i128::from(shift.trillionths()) * 0x8000_0000);
        Shift {
            shift,
            steps,
            whole: WholeShift::of(shift, steps),
        }
    }
}

/// The nearest whole steps of a shift in units.
fn steps_in(units: i128) -> i64
    requires { unsigned_abs units ≤ 2 ^ 32 * UNIT }
    ensures steps { result ≡ steps_of UNIT units }
    ensures bound { unsigned_abs result ≤ 2 ^ 33 }
{
    let unit = i128::from(UNIT);
    let floor = units.div_euclid(unit) as i64;
    let over = units.rem_euclid(unit);
    if 2 * over > unit {
        return floor + 1;
    }
    floor
}

impl Sampling for Shift {
    ghost rounded = { shifted_sample };

    fn round(&self, sample: i32) -> (i32, bool) {
        clipped(i64::from(sample) + self.steps)
    }
}

impl SamplesAfter for Shift {
    fn round_after<A: Sampling>(&self, first: &A, input: &[i32], output: &mut [i32]) -> BothClips {
        match &self.whole {
            Some(whole) => rounded_by_both(first, &whole.copied(), input, output),
            None => rounded_by_both(first, self, input, output),
        }
    }
}

impl SamplesMany for Shift {
    fn round_many(&self, input: &[i32], output: &mut [i32]) -> u64 {
        match &self.whole {
            Some(whole) if input.len() <= MAX_COUNTED => {
                u64::from(whole.copied().shift_samples(input, output))
            }
            _ => rounded_samples(self, input, output),
        }
    }

    fn round_before<B: SamplesAfter>(
        &self,
        second: &B,
        input: &[i32],
        output: &mut [i32],
    ) -> BothClips {
        match &self.whole {
            Some(whole) => second.round_after(&whole.copied(), input, output),
            None => second.round_after(self, input, output),
        }
    }

    #[inline(always)]
    fn round_all(&self, samples: &mut [i32]) -> u64 {
        match &self.whole {
            Some(whole) => round_over(&whole.copied(), samples),
            None => round_over(self, samples),
        }
    }
}

/// The number clipped to the range of a sample, and whether it was clipped.
#[inline(always)]
fn clipped(sum: i64) -> (i32, bool)
    ensures { result ≡ clipping sum }
{
    let sample = sum.clamp(i64::from(i32::MIN), i64::from(i32::MAX));
    (sample as i32, sample != sum)
}

/// The stage of `dcshift`: each sample plus the shift, of which 1 is the greatest amplitude, rounded once. A sample that
/// is clipped counts for one clip.
pub type DcShift = Mapped<PerSample<Shift>>;

impl Mapped<PerSample<Shift>> {
    /// The stage for frames of 1 to 16 channels, with a shift from -2 to 2. Allocates no memory.
    pub fn new(channels: usize, shift: Gain) -> DcShift
        requires channels { IsChannelCount channels }
        requires shift { unsigned_abs shift ≤ 2 * UNIT }
        ensures { IsNew dcshift_acts (record { channels = channels; sampling = shift }) result }
    {
        Mapped::each(channels, Shift::of(shift))
    }

    /// The stage that stored these frames and counted these numbers: whichever stage of these channels and this shift they
    /// came from, that stage is restored. BadSnapshot where there is no such stage. Allocates no memory.
    pub fn thaw(
        channels: usize,
        shift: Gain,
        frames: &[WideFrame],
        numbers: &[u64; 8],
    ) -> Result<DcShift, ThawFault>
        requires channels { IsChannelCount channels }
        requires shift { unsigned_abs shift ≤ 2 * UNIT }
        ensures recipe { IfOk result (λ t. dcshift_acts.recipe t ≡ record { channels = channels; sampling = shift }) }
        ensures frozen { IfOk result (λ t. Freezes dcshift_acts t frames.now numbers.now) }
        ensures thawed { RestoresEach dcshift_acts channels shift frames.now numbers.now result }
        ensures refused { IfErr result (λ e. e ≡ ThawFault.BadSnapshot) }
    {
        Mapped::each_thawed(channels, Shift::of(shift), frames, numbers)
    }
}
