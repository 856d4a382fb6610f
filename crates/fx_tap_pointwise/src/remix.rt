//! The effect `remix` of sox(1): each channel is a sum of channels, each times a weight.
ghost use Rattle.std.specs.Prelude.{◌≡◌, ◌<◌, ◌≤◌, ◌+◌, ◌*◌, ◌^◌, [], ℕ, pos, map, drop, length, slice_index_or, sum_by, unsigned_abs, Err, IfOk};
ghost use Rattle.fx_tap_sums.specs.Products.{sum_of_products};
ghost use Rattle.std.specs.List.{All};
ghost use Rattle.fx_frame_base.specs.Stage.{Freezes, IsNew};
ghost use Rattle.fx_frame_base.specs.Lists.{pieces, tabulate};
ghost use Rattle.fx_frame.specs.Made.{clips_in, made_of};
ghost use Rattle.fx_frame_base.specs.Rounded.{clips_rounded};
ghost use Rattle.fx_tap_pointwise.specs.Mix.{MixFits, IsContribution, all_parts, contributing_samples, AreMixedSums, mixed_at};
ghost use Rattle.fx_tap_pointwise.specs.Remix.{RemixArguments, mixed_parts, remix_parts, remixed_frame, remixed_sample};
ghost use Rattle.fx_tap_pointwise.specs.RemixState.{remix_acts, remix_with, RestoresRemix};
ghost use Rattle.fx_tap_pointwise.specs.RemixWords.{specs_in};
ghost use Rattle.fx_tap_sums.specs.ChannelSamples.{WritesRounded, KeepsOtherPlaces};
ghost use Rattle.fx_frame_base.specs.Frame.{IsChannelCount};

pub mod words;

use crate::channels::{ChannelShape, Place, add_channel, halved, place_channel, place_mean};
use crate::mapped::{Mapped, Mapping, MapsMany, PairWidths};
use crate::out_spec::{OutSpec, Weight};
use crate::per_sample::Sampling;
use crate::vol::Scale;
use fx_fixed::{UNIT, round_clip};
use fx_frame::{Frame, ThawFault, WideFrame};
use fx_frame_base::feed::copy_samples;
use fx_frame_base::frame::MAX_CHANNELS;
use fx_tap_sums::inner::sample_or_silence;
use fx_tap_sums::round_channel;
use fx_tap_sums::small::{Small, small_of};
use std::alloc::{AllocError, Global};
use std::marker::Model;

/// A channel of the input, its weight, and the same in parts.
#[derive(Clone, Copy)]
struct Contribution {
    channel: usize,
    weight: Weight,
    parts: i64,
}

/// How the samples of an output channel are computed: the first of these forms that fits its contributions.
#[derive(Drop)]
enum Form {
    /// Silence, since nothing contributes to it.
    Silent,
    /// One channel unchanged.
    Copied(usize),
    /// The mean of two channels.
    Mean(usize, usize),
    /// One channel times a gain.
    Scaled(usize, Scale),
    /// Channels times weights in lowest terms, which are small.
    Small(Small),
    /// Channels times weights in whole parts.
    Wide,
}

/// The contributions to an output channel, each weight in whole parts, and how its samples are computed from them.
#[derive(Drop)]
struct Mix {
    contributions: Vec<Contribution>,
    form: Form,
}

impl Model for Mix {
    ghost use Rattle.std.specs.Prelude.{◌≤◌, map, length};
    ghost use Rattle.std.specs.List.{All};
    ghost use Rattle.fx_tap_pointwise.specs.Mix.{MixFits, IsContribution, pair_of};
    ghost use Rattle.fx_tap_pointwise.specs.Remix.{Contributions};

    ghost Value = { Contributions };

    ghost view = { λ s. map pair_of s.contributions.items };

    ghost invariant = { λ s. (length s.contributions.items ≤ 64) × All (IsContribution (length s.contributions.items)) s.contributions.items × MixFits s.contributions.items s.form };
}

/// A weight among `count` contributions in parts, as many of which are one as that number of units.
fn parts_of(count: usize, weight: Weight) -> i64
    requires { count ≤ 64 }
    ensures { result ≡ remix_parts count weight }
{
    match weight {
        Weight::Given(gain) => count as i64 * gain.trillionths(),
        Weight::Share => UNIT as i64,
        Weight::One => (count as u64 * UNIT) as i64,
    }
}

/// The parts of each contribution.
fn parts_in(alloc: Global, contributions: &[Contribution]) -> Result<Vec<i64>, AllocError>
    ensures { IfOk result (λ v. v.items ≡ all_parts contributions.now) }
{
    let mut parts = Vec::new(alloc);
    'contributions: for contribution in contributions {
        parts.push(contribution.parts)?;
    }
    Ok(parts)
}

impl Form {
    /// The form for at most 64 contributions.
    fn of(alloc: Global, contributions: &[Contribution]) -> Result<Form, AllocError>
        requires bound { length contributions.now ≤ 64 }
        requires made { All (IsContribution (length contributions.now)) contributions.now }
        ensures { IfOk result (MixFits contributions.now) }
    {
        match contributions {
            [] => Ok(Form::Silent),
            [only] if only.parts == UNIT as i64 => Ok(Form::Copied(only.channel)),
            [
                Contribution {
                    channel,
                    weight: Weight::Given(gain),
                    ..
                },
            ] => Ok(Form::Scaled(*channel, Scale::of(*gain))),
            [first, second] if first.parts == UNIT as i64 && second.parts == UNIT as i64 => {
                Ok(Form::Mean(first.channel, second.channel))
            }
            _ => Form::of_sum(alloc, contributions),
        }
    }

    /// The form for 1 to 64 contributions that are added.
    fn of_sum(alloc: Global, contributions: &[Contribution]) -> Result<Form, AllocError>
        requires some { 0 < length contributions.now }
        requires bound { length contributions.now ≤ 64 }
        ensures { IfOk result (MixFits contributions.now) }
    {
        let count = contributions.len() as u64;
        let parts = parts_in(alloc, contributions)?;
        Ok(match small_of(alloc, &parts, count * UNIT)? {
            Some(small) => Form::Small(small),
            None => Form::Wide,
        })
    }
}

impl Mix {
    /// The mix of at most 64 contributions, which name channels below 16.
    fn of(alloc: Global, out: &[(u8, Weight)]) -> Result<Mix, AllocError>
        requires bound { length out.now ≤ 64 }
        requires named { All (λ c. c.0 < 16) out.now }
        ensures { IfOk result (λ mix. mix ≡ out.now) }
    {
        let mut contributions = Vec::new(alloc);
        'contributions: for (channel, weight) in out {
            contributions.push(Contribution {
                channel: usize::from(*channel),
                weight: *weight,
                parts: parts_of(out.len(), *weight),
            })?;
        }
        let form = Form::of(alloc, &contributions)?;
        Ok(Mix {
            contributions,
            form,
        })
    }

    /// The channels times weights, added.
    #[inline(always)]
    fn small_sum(&self, weights: &[i32], samples: &[i32]) -> i64
        requires count { length weights.now ≡ length self.now }
        requires small { sum_by unsigned_abs weights.now ≤ 2 ^ 30 }
        ensures sum { result ≡ sum_of_products (contributing_samples self.now samples.now) weights.now }
        ensures bound { unsigned_abs result ≤ 2 ^ 61 }
    {
        let mut sum = 0;
        'contributions: for place in 0..self.contributions.len() {
            let sample = sample_or_silence(samples, self.contributions[place].channel);
            sum += i64::from(sample) * i64::from(weights[place]);
        }
        sum
    }

    /// The channels times their weights in parts, added.
    #[inline(always)]
    fn sum(&self, samples: &[i32]) -> i128
        ensures sum { result ≡ mixed_parts (length self.now) self.now samples.now }
        ensures small { unsigned_abs result ≤ 64 * (2 ^ 63 * 2 ^ 31) }
    {
        let mut sum = 0;
        'contributions: for contribution in &self.contributions {
            let sample = sample_or_silence(samples, contribution.channel);
            sum += i128::from(contribution.parts) * i128::from(sample);
        }
        sum
    }

    /// Adds to the sums, which are none yet, those of as many frames: their channels times weights.
    fn add_channels(&self, weights: &[i32], frames: &[i32], channels: usize, sums: &mut [i64])
        requires count { length weights.now ≡ length self.now }
        requires small { sum_by unsigned_abs weights.now ≤ 2 ^ 30 }
        requires channels { IsChannelCount channels }
        requires frames { length frames.now ≡ length sums.old * channels }
        requires empty { (i : ℕ) → slice_index_or sums.old i (pos 0) ≡ pos 0 }
        ensures sums { AreMixedSums self.now weights.now channels (length sums.old) frames.now sums.new }
        ensures bound { (i : ℕ) → i < length sums.old → unsigned_abs (slice_index_or sums.new i (pos 0)) ≤ 2 ^ 61 }
    {
        'contributions: for place in 0..self.contributions.len() {
            let channel = self.contributions[place].channel;
            if channel < channels {
                add_channel(frames, channels, channel, weights[place], sums);
            }
        }
    }

    /// The sample of the output channel, and whether it was clipped.
    #[inline(always)]
    fn sample(&self, samples: &[i32]) -> (i32, bool)
        ensures { result ≡ remixed_sample self.now samples.now }
    {
        match &self.form {
            Form::Silent => (0, false),
            Form::Copied(channel) => (sample_or_silence(samples, *channel), false),
            Form::Mean(first, second) => {
                let left = sample_or_silence(samples, *first);
                let right = sample_or_silence(samples, *second);
                (halved(i64::from(left) + i64::from(right)), false)
            }
            Form::Scaled(channel, scale) => scale.round(sample_or_silence(samples, *channel)),
            Form::Small(small) => small
                .denominator
                .round(self.small_sum(&small.weights, samples)),
            Form::Wide => {
                let one = self.contributions.len() as u64 * UNIT;
                round_clip(self.sum(samples), i128::from(one))
            }
        }
    }
}

/// The maximum number of frames of a piece: frames that are made at once.
const FRAMES_OF_PIECE: usize = 256;

/// Up to so many frames are added one by one, since the sums of a whole piece take longer to clear.
const MAX_FRAMES_ALONE: usize = 8;

impl Mix {
    /// Writes the output channel for these frames as one channel of as many, frame by frame, and counts how many of its
    /// samples were clipped.
    fn channel_by_frames(
        &self,
        frames: &[i32],
        shape: ChannelShape,
        out: &mut [i32],
        place: Place,
    ) -> u64
        requires inputs { IsChannelCount shape.channels }
        requires frames { length frames.now ≡ shape.count * shape.channels }
        requires channel { place.channel < place.channels }
        requires outputs { place.channels ≤ 16 }
        requires out { shape.count * place.channels ≤ length out.old }
        ensures put { WritesRounded place.channels place.channel shape.count out.new (mixed_at self.now shape.channels shape.count frames.now) }
        ensures others { KeepsOtherPlaces place.channels place.channel shape.count out.old out.new }
        ensures clips { result ≡ clips_rounded (tabulate (mixed_at self.now shape.channels shape.count frames.now) 0 shape.count) }
        ensures bound { result ≤ shape.count }
    {
        let mut from = 0;
        let mut at = place.channel;
        let mut clips = 0;
        'frames: for _turn in 0..shape.count {
            let (sample, is_clipped) = self.sample(&frames[from..from + shape.channels]);
            out[at] = sample;
            clips += u64::from(is_clipped);
            from += shape.channels;
            at += place.channels;
        }
        clips
    }

    /// The same for the frames of a piece, all of them at once where the form allows, for a form that weighs channels.
    #[inline(never)] // so that a group of a few frames that are copied or halved stays small enough to be unrolled
    fn channel_weighed(
        &self,
        frames: &[i32],
        shape: ChannelShape,
        out: &mut [i32],
        place: Place,
    ) -> u64
        requires inputs { IsChannelCount shape.channels }
        requires count { shape.count ≤ 256 }
        requires frames { length frames.now ≡ shape.count * shape.channels }
        requires channel { place.channel < place.channels }
        requires outputs { place.channels ≤ 16 }
        requires out { shape.count * place.channels ≤ length out.old }
        ensures put { WritesRounded place.channels place.channel shape.count out.new (mixed_at self.now shape.channels shape.count frames.now) }
        ensures others { KeepsOtherPlaces place.channels place.channel shape.count out.old out.new }
        ensures clips { result ≡ clips_rounded (tabulate (mixed_at self.now shape.channels shape.count frames.now) 0 shape.count) }
        ensures bound { result ≤ shape.count }
    {
        match &self.form {
            Form::Scaled(channel, scale) if *channel < shape.channels => {
                scale.place_channel(frames, shape, *channel, out, place)
            }
            Form::Small(small) if shape.count > MAX_FRAMES_ALONE => {
                let mut places = [0; FRAMES_OF_PIECE];
                let sums = &mut places[..shape.count];
                self.add_channels(&small.weights, frames, shape.channels, sums);
                round_channel(sums, &small.denominator, place.channels, place.channel, out)
            }
            _ => self.channel_by_frames(frames, shape, out, place),
        }
    }

    /// The same, for any form.
    #[inline(always)]
    fn channel_into(
        &self,
        frames: &[i32],
        shape: ChannelShape,
        out: &mut [i32],
        place: Place,
    ) -> u64
        requires inputs { IsChannelCount shape.channels }
        requires count { shape.count ≤ 256 }
        requires frames { length frames.now ≡ shape.count * shape.channels }
        requires channel { place.channel < place.channels }
        requires outputs { place.channels ≤ 16 }
        requires out { shape.count * place.channels ≤ length out.old }
        ensures put { WritesRounded place.channels place.channel shape.count out.new (mixed_at self.now shape.channels shape.count frames.now) }
        ensures others { KeepsOtherPlaces place.channels place.channel shape.count out.old out.new }
        ensures clips { result ≡ clips_rounded (tabulate (mixed_at self.now shape.channels shape.count frames.now) 0 shape.count) }
        ensures bound { result ≤ shape.count }
    {
        match &self.form {
            Form::Copied(channel) if *channel < shape.channels => {
                place_channel(frames, shape, *channel, out, place);
                0
            }
            Form::Mean(first, second) if *first < shape.channels && *second < shape.channels => {
                place_mean(frames, shape, *first, *second, out, place);
                0
            }
            _ => self.channel_weighed(frames, shape, out, place),
        }
    }
}

/// Makes the frames of a piece, channel by channel, and counts how many of their samples were clipped.
#[inline(always)]
fn mix_piece(
    mixes: &[Mix],
    channels: usize,
    frames: &[i32],
    shape: ChannelShape,
    out: &mut [i32],
) -> u64
    requires channels { channels ≡ length mixes.now }
    requires inputs { IsChannelCount shape.channels }
    requires outs { length mixes.now ≤ 16 }
    requires count { shape.count ≤ 256 }
    requires frames { length frames.now ≡ shape.count * shape.channels }
    requires out { length out.old ≡ shape.count * length mixes.now }
    ensures frames { pieces (length mixes.now) shape.count out.new ≡ made_of (remixed_frame mixes.now) (pieces shape.channels shape.count frames.now) }
    ensures clips { result ≡ clips_in (remixed_frame mixes.now) (pieces shape.channels shape.count frames.now) }
    ensures bound { result ≤ 16 * shape.count }
{
    let mut clips = 0;
    'mixes: for channel in 0..channels {
        clips += mixes[channel].channel_into(frames, shape, out, Place { channel, channels });
    }
    clips
}

/// Mixes `count` frames from the front of the input to the front of the output, some at a time, and counts how many of
/// their samples were clipped.
fn mix_frames(mixes: &[Mix], inputs: usize, input: &[i32], output: &mut [i32], count: usize) -> u64
    requires inputs { IsChannelCount inputs }
    requires outs { length mixes.now ≤ 16 }
    requires bound { count ≤ 2 ^ 56 }
    requires input { count * inputs ≤ length input.now }
    requires output { count * length mixes.now ≤ length output.old }
    ensures frames { pieces (length mixes.now) count output.new ≡ made_of (remixed_frame mixes.now) (pieces inputs count input.now) }
    ensures rest_unchanged { drop (count * length mixes.now) output.new ≡ drop (count * length mixes.now) output.old }
    ensures clips { result ≡ clips_in (remixed_frame mixes.now) (pieces inputs count input.now) }
    ensures bound { result ≤ 16 * count }
{
    let outputs = mixes.len();
    let mut done = 0;
    let mut clips = 0;
    'pieces: while done < count {
        let now = FRAMES_OF_PIECE.min(count - done);
        let from = done * inputs;
        let frames = &input[from..from + now * inputs];
        let shape = ChannelShape {
            count: now,
            channels: inputs,
        };
        let at = done * outputs;
        let made = &mut output[at..at + now * outputs];
        clips += mix_piece(mixes, outputs, frames, shape, made);
        done += now;
    }
    clips
}

/// What `remix` makes of a frame.
#[derive(Drop)]
pub struct Remixing {
    channels: usize,
    mixes: Vec<Mix>,
}

impl Model for Remixing {
    ghost use Rattle.fx_tap_pointwise.specs.Remix.{IsRemix, RemixArguments};

    ghost Value = { RemixArguments };

    ghost view = { λ s. record { channels = s.channels; outs = s.mixes.items } };

    ghost invariant = { λ s. IsRemix (record { channels = s.channels; outs = s.mixes.items }) };
}

/// Writes the samples of the output channels, and counts how many were clipped.
#[inline(always)]
fn mixed_into(mixes: &[Mix], frame: &[i32], out: &mut [i32]) -> u64
    requires { length out.old ≡ length mixes.now }
    ensures samples { out.new ≡ (remixed_frame mixes.now frame.now).samples }
    ensures clips { result ≡ (remixed_frame mixes.now frame.now).clips }
    ensures bound { result ≤ length mixes.now }
{
    let mut clips = 0;
    'mixes: for channel in 0..mixes.len() {
        let (sample, is_clipped) = mixes[channel].sample(frame);
        out[channel] = sample;
        clips += u64::from(is_clipped);
    }
    clips
}

impl Mapping for Remixing {
    ghost inputs = { λ a. a.channels };

    ghost outputs = { λ a. length a.outs };

    ghost mapped = { λ a frame. remixed_frame a.outs frame };

    fn map(&self, frame: Frame) -> (Frame, u64) {
        let count = self.mixes.len();
        let mut out = [0; MAX_CHANNELS];
        let clips = mixed_into(&self.mixes, frame.samples(), &mut out[..count]);
        (Frame::of_first(count, out), clips)
    }

    #[inline(always)]
    fn map_into(&self, frame: &[i32], out: &mut [i32]) -> u64 {
        mixed_into(&self.mixes, frame, out)
    }

    fn map_over(&self, samples: &mut [i32]) -> u64 {
        let mut places = [0; MAX_CHANNELS];
        let made = &mut places[..samples.len()];
        let clips = mixed_into(&self.mixes, samples, made);
        copy_samples(made, samples);
        clips
    }

    fn in_channels(&self) -> usize {
        self.channels
    }

    fn out_channels(&self) -> usize {
        self.mixes.len()
    }
}

/// The mixes of the output channels.
fn mixes_of(alloc: Global, outs: &[OutSpec]) -> Result<Vec<Mix>, AllocError>
    requires bound { All (λ out. length out.items ≤ 64) outs.now }
    requires named { All (λ out. All (λ c. c.0 < 16) out.items) outs.now }
    ensures { IfOk result (λ v. v.items ≡ map (λ out. out.items) outs.now) }
{
    let mut mixes = Vec::new(alloc);
    'outs: for out in outs {
        mixes.push(Mix::of(alloc, out.as_slice())?)?;
    }
    Ok(mixes)
}

/// The stage of `remix`: for each output channel the channels that go into it, each times its weight, added and rounded
/// once. A sample that is clipped counts for one clip.
pub type Remix = Mapped<Remixing>;

impl Mapped<Remixing> {
    /// The stage for frames of 1 to 16 channels, which makes 1 to 16 channels, each of at most 64 contributions that name
    /// channels of the input. AllocError where memory for them is refused.
    pub fn new(alloc: Global, channels: usize, outs: &[OutSpec]) -> Result<Remix, AllocError>
        requires channels { IsChannelCount channels }
        requires outs { IsChannelCount (length outs.now) }
        requires bound { All (λ out. length out.items ≤ 64) outs.now }
        requires named { All (λ out. All (λ c. c.0 < channels) out.items) outs.now }
        ensures { IfOk result (IsNew remix_acts (remix_with channels (specs_in outs.now))) }
    {
        let mixes = mixes_of(alloc, outs)?;
        Ok(Mapped::of(Remixing { channels, mixes }))
    }

    /// The stage that stored these frames and counted these numbers: whichever stage of these channels and out-specs they
    /// came from, that stage is restored, unless memory is refused. BadSnapshot where there is no such stage, Memory where a
    /// growth was refused.
    pub fn thaw(
        alloc: Global,
        channels: usize,
        outs: &[OutSpec],
        frames: &[WideFrame],
        numbers: &[u64; 8],
    ) -> Result<Remix, ThawFault>
        requires channels { IsChannelCount channels }
        requires outs { IsChannelCount (length outs.now) }
        requires bound { All (λ out. length out.items ≤ 64) outs.now }
        requires named { All (λ out. All (λ c. c.0 < channels) out.items) outs.now }
        ensures recipe { IfOk result (λ t. remix_acts.recipe t ≡ remix_with channels (specs_in outs.now)) }
        ensures frozen { IfOk result (λ t. Freezes remix_acts t frames.now numbers.now) }
        ensures thawed { RestoresRemix channels (specs_in outs.now) frames.now numbers.now result }
        ensures named { (result ≡ Err ThawFault.WrongPlan) → ⊥ }
    {
        let Ok(mixes) = mixes_of(alloc, outs) else {
            return Err(ThawFault::Memory);
        };
        Mapped::thawed(Remixing { channels, mixes }, frames, numbers)
    }
}

impl MapsMany for Remixing {
    fn map_many(&self, input: &[i32], output: &mut [i32], count: usize) -> u64 {
        mix_frames(&self.mixes, self.channels, input, output, count)
    }

    #[inline(always)]
    fn map_group(
        &self,
        widths: PairWidths,
        count: usize,
        input: &[i32],
        output: &mut [i32],
    ) -> u64 {
        let shape = ChannelShape {
            count,
            channels: widths.inputs,
        };
        mix_piece(&self.mixes, widths.outputs, input, shape, output)
    }
}
