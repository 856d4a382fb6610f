//! Two effects one after the other, each of which rounds each sample alone: a sample goes through both before the next.
ghost use Rattle.std.specs.Prelude.{◌≡◌, ◌*◌, ◌≤◌, FitsSigned, drop, length, map, take};
ghost use Rattle.std.specs.Int.{w32};
ghost use Rattle.std.specs.List.{All};
ghost use Rattle.fx_frame_base.specs.Rounded.{clips_rounded, samples_of};
ghost use Rattle.fx_tap_pointwise.specs.Mapped.{ComesAfter, MayMapFrames};
ghost use Rattle.fx_tap_pointwise.specs.PerSampleState.{RanBoth};

use crate::mapped::{Mapped, Mapping};
use crate::per_sample::{PerSample, SamplesMany, Sampling};

/// How many samples each of two effects clipped.
#[derive(Clone, Copy)]
pub struct BothClips {
    pub first: u64,
    pub second: u64,
}

/// Writes what the second effect makes of what the first makes of each sample, and counts how many each clipped.
#[inline(always)]
pub(crate) fn rounded_by_both<A: Sampling, B: Sampling>(
    first: &A,
    second: &B,
    input: &[i32],
    output: &mut [i32],
) -> BothClips
    requires { length output.old ≡ length input.now }
    ensures samples { output.new ≡ samples_of (map (λ x. B.rounded second.now (A.rounded first.now x).0) input.now) }
    ensures first { result.first ≡ clips_rounded (map (A.rounded first.now) input.now) }
    ensures second { result.second ≡ clips_rounded (map (λ x. B.rounded second.now (A.rounded first.now x).0) input.now) }
    ensures bound { (result.first ≤ length input.now) × (result.second ≤ length input.now) }
    ensures fits { All (FitsSigned w32) input.now }
{
    let mut first_clips = 0;
    let mut second_clips = 0;
    'samples: for place in 0..input.len() {
        let between = first.round_and_count(input[place], &mut first_clips);
        output[place] = second.round_and_count(between, &mut second_clips);
    }
    BothClips {
        first: first_clips,
        second: second_clips,
    }
}

/// Passes `count` frames at the front of the input through two dry stages, each frame through both before the next, and writes
/// those that come out to the front of the output.
pub fn pass_both<A: SamplesMany + Drop, B: SamplesMany + Drop>(
    first: &mut Mapped<PerSample<A>>,
    second: &mut Mapped<PerSample<B>>,
    count: usize,
    input: &[i32],
    output: &mut [i32],
)
    requires first { MayMapFrames count first.old }
    requires second { ComesAfter first.old first.old.mapping.channels second.old second.old.mapping.channels }
    requires input { count * first.old.mapping.channels ≤ length input.now }
    requires free { count * first.old.mapping.channels ≤ length output.old }
    ensures samples { All (FitsSigned w32) (take (count * first.old.mapping.channels) input.now) }
    ensures through { RanBoth A.rounded B.rounded count input.now output.new first.old first.new second.old second.new }
    ensures rest_unchanged { let n = count * first.old.mapping.channels in drop n output.new ≡ drop n output.old }
{
    let samples = count * first.mapping().out_channels();
    let clips = first.mapping().sampling().round_before(
        second.mapping().sampling(),
        &input[..samples],
        &mut output[..samples],
    );
    first.count_passed(count, clips.first);
    second.count_passed(count, clips.second);
}
