//! Effects that round each sample alone, the same in every channel.
ghost use Rattle.std.specs.Prelude.{◌≡◌, ◌+◌, ◌^◌, ◌<◌, ◌≤◌, ℤ, Bool, FitsSigned, length, map, IfOk, IfErr};
ghost use Rattle.std.specs.Int.{w32};
ghost use Rattle.std.specs.List.{All};
ghost use Rattle.fx_fixed.specs.Rounding.{clip_count};
ghost use Rattle.fx_frame.specs.Made.{rounded_given};
ghost use Rattle.fx_frame_base.specs.Rounded.{clips_rounded, samples_of};
ghost use Rattle.fx_frame_base.specs.Frame.{IsChannelCount};
ghost use Rattle.fx_tap_pointwise.specs.PerSampleState.{RestoresEach};

use crate::both::{BothClips, rounded_by_both};
use crate::mapped::{Mapped, Mapping, MapsMany, PairWidths};
use fx_frame::{Frame, ThawFault, WideFrame};
use fx_frame_base::frame::MAX_CHANNELS;
use std::marker::Model;

/// What an effect makes of a sample, independent of its history and of its channel.
pub trait Sampling {
    /// The sample that it makes of a sample, and whether it was clipped.
    ghost rounded: { Self → ℤ → ℤ × Bool };

    /// The sample that it makes of a sample, and whether it was clipped.
    fn round(&self, sample: i32) -> (i32, bool)
        ensures { result ≡ rounded self.now sample };

    /// The same sample. Adds one to `clips` where it was clipped.
    #[inline(always)]
    fn round_and_count(&self, sample: i32, clips: &mut u64) -> i32
        requires { clips.old < 2 ^ 63 }
        ensures sample { result ≡ (rounded self.now sample).0 }
        ensures clips { clips.new ≡ clips.old + clip_count (rounded self.now sample) }
    {
        let (sample, is_clipped) = self.round(sample);
        *clips += u64::from(is_clipped);
        sample
    }
}

/// An effect that makes many samples of what another one makes of each.
pub trait SamplesAfter: Sampling {
    /// Writes what it makes of what another effect makes of each sample, and counts how many each clipped.
    fn round_after<A: Sampling>(&self, first: &A, input: &[i32], output: &mut [i32]) -> BothClips
        requires { length output.old ≡ length input.now }
        ensures samples { output.new ≡ samples_of (map (λ x. Self.rounded self.now (A.rounded first.now x).0) input.now) }
        ensures first { result.first ≡ clips_rounded (map (A.rounded first.now) input.now) }
        ensures second { result.second ≡ clips_rounded (map (λ x. Self.rounded self.now (A.rounded first.now x).0) input.now) }
        ensures bound { (result.first ≤ length input.now) × (result.second ≤ length input.now) }
        ensures fits { All (FitsSigned w32) input.now }
    {
        rounded_by_both(first, self, input, output)
    }
}

/// An effect that makes many samples in one call.
pub trait SamplesMany: SamplesAfter {
    /// Writes what it makes of each sample, and counts how many were clipped.
    fn round_many(&self, input: &[i32], output: &mut [i32]) -> u64
        requires { length output.old ≡ length input.now }
        ensures samples { output.new ≡ samples_of (map (Self.rounded self.now) input.now) }
        ensures clips { result ≡ clips_rounded (map (Self.rounded self.now) input.now) }
        ensures bound { result ≤ length input.now }
    {
        rounded_samples(self, input, output)
    }

    /// Writes what another effect makes of what it makes of each sample, and counts how many each clipped.
    fn round_before<B: SamplesAfter>(
        &self,
        second: &B,
        input: &[i32],
        output: &mut [i32],
    ) -> BothClips
        requires { length output.old ≡ length input.now }
        ensures samples { output.new ≡ samples_of (map (λ x. B.rounded second.now (Self.rounded self.now x).0) input.now) }
        ensures first { result.first ≡ clips_rounded (map (Self.rounded self.now) input.now) }
        ensures second { result.second ≡ clips_rounded (map (λ x. B.rounded second.now (Self.rounded self.now x).0) input.now) }
        ensures bound { (result.first ≤ length input.now) × (result.second ≤ length input.now) }
        ensures fits { All (FitsSigned w32) input.now }
    {
        second.round_after(self, input, output)
    }

    /// Writes what it makes of each sample over it, and counts how many were clipped.
    #[inline(always)]
    fn round_all(&self, samples: &mut [i32]) -> u64
        ensures samples { samples.new ≡ samples_of (map (Self.rounded self.now) samples.old) }
        ensures clips { result ≡ clips_rounded (map (Self.rounded self.now) samples.old) }
        ensures bound { result ≤ length samples.old }
    {
        round_over(self, samples)
    }
}

/// What an effect makes of each sample of a frame, and how many samples were clipped, at most one a channel.
#[inline(always)]
pub(crate) fn rounded_frame<S: Sampling>(sampling: &S, frame: Frame) -> (Frame, u64)
    ensures frame { result.0 ≡ (rounded_given (S.rounded sampling.now) frame).samples }
    ensures clips { result.1 ≡ (rounded_given (S.rounded sampling.now) frame).clips }
    ensures bound { result.1 ≤ length frame }
    ensures channels { length result.0 ≡ length frame }
{
    let channels = frame.channels();
    if channels == 1 {
        let (sample, is_clipped) = sampling.round(frame.get(0));
        return (Frame::one(sample), u64::from(is_clipped));
    }
    let samples = frame.places();
    let mut out = [0; MAX_CHANNELS];
    let mut clips = 0;
    for channel in 0..channels {
        let (sample, is_clipped) = sampling.round(samples[channel]);
        out[channel] = sample;
        clips += u64::from(is_clipped);
    }
    (Frame::of_first(channels, out), clips)
}

/// What an effect makes of each sample of many frames, and how many samples were clipped.
#[inline(always)]
pub(crate) fn rounded_samples<S: Sampling>(sampling: &S, input: &[i32], output: &mut [i32]) -> u64
    requires { length output.old ≡ length input.now }
    ensures samples { output.new ≡ samples_of (map (S.rounded sampling.now) input.now) }
    ensures clips { result ≡ clips_rounded (map (S.rounded sampling.now) input.now) }
    ensures bound { result ≤ length input.now }
{
    let mut clips = 0;
    'samples: for place in 0..input.len() {
        output[place] = sampling.round_and_count(input[place], &mut clips);
    }
    clips
}

/// What an effect makes of each sample, in its place, and how many samples were clipped.
#[inline(always)]
pub(crate) fn round_over<S: Sampling>(sampling: &S, samples: &mut [i32]) -> u64
    ensures samples { samples.new ≡ samples_of (map (S.rounded sampling.now) samples.old) }
    ensures clips { result ≡ clips_rounded (map (S.rounded sampling.now) samples.old) }
    ensures bound { result ≤ length samples.old }
{
    let mut clips = 0;
    'samples: for place in 0..samples.len() {
        samples[place] = sampling.round_and_count(samples[place], &mut clips);
    }
    clips
}

/// What an effect makes of each sample, for frames of 1 to 16 channels.
#[derive(Drop)]
pub struct PerSample<S: Sampling + Drop> {
    channels: usize,
    sampling: S,
}

impl<S: Sampling + Drop> Model for PerSample<S> {
    ghost use Rattle.fx_frame_base.specs.Frame.{IsChannelCount};
    ghost use Rattle.fx_tap_pointwise.specs.PerSample.{SampleArguments};

    ghost Value = { SampleArguments S };

    ghost view = { λ s. record { channels = s.channels; sampling = s.sampling } };

    ghost invariant = { λ s. IsChannelCount s.channels };
}

impl<S: Sampling + Drop> PerSample<S> {
    /// What it makes of a sample.
    #[inline(always)]
    pub(crate) fn sampling(&self) -> &S
        ensures { result.now ≡ self.now.sampling }
    {
        &self.sampling
    }
}

impl<S: SamplesMany + Drop> Mapping for PerSample<S> {
    ghost inputs = { λ m. m.channels };

    ghost outputs = { λ m. m.channels };

    ghost mapped = { λ m frame. rounded_given (S.rounded m.sampling) frame };

    fn map(&self, frame: Frame) -> (Frame, u64) {
        rounded_frame(&self.sampling, frame)
    }

    #[inline(always)]
    fn map_into(&self, frame: &[i32], out: &mut [i32]) -> u64 {
        rounded_samples(&self.sampling, frame, out)
    }

    #[inline(always)]
    fn map_over(&self, samples: &mut [i32]) -> u64 {
        self.sampling.round_all(samples)
    }

    fn in_channels(&self) -> usize {
        self.channels
    }

    fn out_channels(&self) -> usize {
        self.channels
    }
}

impl<S: SamplesMany + Drop> MapsMany for PerSample<S> {
    fn map_many(&self, input: &[i32], output: &mut [i32], count: usize) -> u64 {
        let samples = count * self.channels;
        self.sampling
            .round_many(&input[..samples], &mut output[..samples])
    }

    #[inline(always)]
    fn map_group(
        &self,
        _widths: PairWidths,
        _count: usize,
        input: &[i32],
        output: &mut [i32],
    ) -> u64 {
        self.sampling.round_many(input, output)
    }

    fn map_many_over(&self, samples: &mut [i32], _count: usize) -> u64 {
        self.sampling.round_all(samples)
    }
}

impl<S: SamplesMany + Drop> Mapped<PerSample<S>> {
    ghost use Rattle.fx_frame_base.specs.Stage.{Freezes, IsNew};
    ghost use Rattle.fx_tap_pointwise.specs.Mapped.{IsMapState, MapState};
    ghost use Rattle.fx_tap_pointwise.specs.PerSample.{SampleArguments};
    ghost use Rattle.fx_tap_pointwise.specs.PerSampleState.{sample_acts};

    /// The stage for frames of `channels` channels.
    pub(crate) fn each(channels: usize, sampling: S) -> Mapped<PerSample<S>>
        requires { IsChannelCount channels }
        ensures { IsNew (sample_acts S.rounded) (record { channels = channels; sampling = sampling }) result }
    {
        Mapped::of(PerSample { channels, sampling })
    }

    /// The stage for frames of `channels` channels that stored these frames and counted these numbers. BadSnapshot where there
    /// is none.
    pub(crate) fn each_thawed(
        channels: usize,
        sampling: S,
        frames: &[WideFrame],
        numbers: &[u64; 8],
    ) -> Result<Mapped<PerSample<S>>, ThawFault>
        requires { IsChannelCount channels }
        ensures recipe { IfOk result (λ t. (sample_acts S.rounded).recipe t ≡ record { channels = channels; sampling = sampling }) }
        ensures frozen { IfOk result (λ t. Freezes (sample_acts S.rounded) t frames.now numbers.now) }
        ensures thawed { RestoresEach (sample_acts S.rounded) channels sampling frames.now numbers.now result }
        ensures refused { IfErr result (λ e. e ≡ ThawFault.BadSnapshot) }
    {
        Mapped::thawed(PerSample { channels, sampling }, frames, numbers)
    }
}
