//! Frames passed to a stage many at a time.
ghost use Rattle.std.specs.Prelude.{◌≡◌, ◌<◌, ◌≤◌, ◌+◌, ◌-◌, ◌*◌, ◌^◌, ◌++◌, true, false, FitsSigned, drop, length, take};
ghost use Rattle.std.specs.Int.{w32};
ghost use Rattle.std.specs.List.{All};
ghost use Rattle.fx_frame_base.specs.Feed.{FedBlock, IsAhead, IsForecast, IsNoneDue, IsOneToOne, KeepsRest, LeavesSpace, MayTakeAll, PassedOn, TookAll, TookWithinSpace, UsesInput};
ghost use Rattle.fx_frame_base.specs.Lists.{pieces};
ghost use Rattle.fx_frame_base.specs.Pipeline.{EachInPlace};
ghost use Rattle.fx_frame_base.specs.Stage.{IsDry, IsLined, kind, spent};
ghost use Rattle.fx_frame_base.specs.Frame.{IsChannelCount};

use crate::frame::Frame;
use crate::stage::Stage;

/// The samples for which `take_many` has space beside the stage. A stage passes frames as a piece only where it would have
/// space to give as many.
pub const SPACE: usize = 1024;

/// How many frames a stage took and gave.
#[derive(Clone, Copy, Debug, PartialEq, Eq)]
pub struct Passed {
    /// The frames taken.
    pub taken: usize,
    /// The frames given.
    pub given: usize,
}

/// The result of passing a frame to a stage.
#[derive(Clone, Copy, Debug, PartialEq, Eq)]
pub enum Passing {
    /// It was taken, and no frame is to be given now.
    Kept,
    /// A frame was given, and no other is to be given now.
    Through,
    /// A frame was given, and another is to be given now.
    More,
}

/// For how many of the next frames it is known what a stage does. Each number may be less than it could be, and 0 always holds.
#[derive(Clone, Copy)]
pub struct Forecast {
    /// For that many it has not had enough.
    pub ahead: u64,
    /// For each of that many it gives one.
    pub one_to_one: u64,
    /// For that many none is due.
    pub none_due: u64,
}

impl Forecast {
    /// That of a stage that never has enough, and gives a frame for each of the next `one_to_one` that it takes.
    #[inline(always)]
    pub const fn endless(one_to_one: u64) -> Forecast
        ensures { result ≡ record { ahead = 2 ^ 64 - 1; one_to_one = one_to_one; none_due = 0 } }
    {
        Forecast {
            ahead: u64::MAX,
            one_to_one,
            none_due: 0,
        }
    }
}

/// A stage that takes and gives many frames in one call.
///
/// Samples of frames lie one after another, channel by channel. `feed` does what `give` and `take` one by one would do: it
/// gives what waits, and where the stage is dry, not ended and not spent, it takes the next frame of the input, and so on,
/// until the output has no space for another frame, or the stage is dry and takes none.
pub trait Feeds: Stage {
    /// Takes frames from the front of the input, and writes those that are given to the front of the output. It takes a frame
    /// only while the output has space for one more; where it has no space for one frame, none is taken.
    fn feed(&mut self, input: &[i32], output: &mut [i32]) -> Passed
        requires channels { IsChannelCount (kind Self.acts self.old).inputs }
        requires below_limit { MayTakeAll Self.acts self.old input.now }
        ensures fed { FedBlock Self.acts self.old self.new result.taken input.now result.given output.new }
        ensures read { result.taken * (kind Self.acts self.old).inputs ≤ length input.now }
        ensures written { result.given * (kind Self.acts self.old).outputs ≤ length output.new }
        ensures rest_unchanged { KeepsRest Self.acts self.old result.given output.old output.new }
        ensures dry { LeavesSpace Self.acts self.old result.given output.new → Self.acts.dry self.new ≡ true }
        ensures used { UsesInput Self.acts self.old self.new result.taken input.now result.given output.new }
        ensures free { TookWithinSpace Self.acts self.old result.taken (length output.old) }
    {
        feed_by_frames(self, input, output)
    }

    /// Takes a frame, and puts the samples of the one that it gives then in the place of its samples, for a stage that gives as
    /// many channels as it takes. Where it gives none they may be any.
    fn pass_samples(&mut self, samples: &mut [i32]) -> Passing
        requires dry { Self.acts.dry self.old ≡ true }
        requires not_ended { (Self.acts.counts self.old).ended ≡ false }
        requires not_spent { spent Self.acts self.old ≡ false }
        requires channels { length samples.old ≡ (kind Self.acts self.old).inputs }
        requires same_channels { (kind Self.acts self.old).outputs ≡ (kind Self.acts self.old).inputs }
        requires frame { IsChannelCount (length samples.old) }
        requires below_limit { (Self.acts.counts self.old).taken < (kind Self.acts self.old).limit }
        ensures passed { PassedOn Self.acts result self.old self.new samples.old samples.new }
        ensures channels { length samples.new ≡ length samples.old }
        ensures determined { Self.acts.dry self.new ≡ true → IsDry Self.acts self.new }
    {
        let channels = samples.len();
        let mut frame = frame_at(samples, 0, channels);
        let passing = pass_by_calls(self, &mut frame);
        let _dry = self.is_dry();
        if let Passing::Kept = passing {
            return Passing::Kept;
        }
        put_frame(samples, 0, &frame);
        passing
    }

    /// As `pass_samples`, for any stage, in sixteen places: the samples of a frame of `channels` channels come first, and in their
    /// place come those of the one that it gives then, and its channels. Where it gives none, both may be any, and the places
    /// after those always.
    fn pass_places(&mut self, places: &mut [i32; 16], channels: &mut usize) -> Passing
        requires dry { Self.acts.dry self.old ≡ true }
        requires not_ended { (Self.acts.counts self.old).ended ≡ false }
        requires not_spent { spent Self.acts self.old ≡ false }
        requires channels { channels.old ≡ (kind Self.acts self.old).inputs }
        requires frame { IsChannelCount channels.old }
        requires below_limit { (Self.acts.counts self.old).taken < (kind Self.acts self.old).limit }
        ensures passed { PassedOn Self.acts result self.old self.new (take channels.old places.old) (take channels.new places.new) }
        ensures frame { IsChannelCount channels.new }
        ensures determined { Self.acts.dry self.new ≡ true → IsDry Self.acts self.new }
    {
        let mut frame = frame_at(places, 0, *channels);
        let passing = pass_by_calls(self, &mut frame);
        let _dry = self.is_dry();
        *channels = frame.channels();
        put_frame(places, 0, &frame);
        passing
    }

    /// What it does with the next frames.
    fn forecast(&self) -> Forecast
        ensures { IsForecast (kind Self.acts self.now) (Self.acts.counts self.now).taken result }
    {
        Forecast {
            ahead: ahead_by_calls(self),
            one_to_one: 0,
            none_due: 0,
        }
    }

    /// As `pass_samples`, for `count` frames one after another, for each of which it gives one.
    fn pass_frames(&mut self, count: usize, samples: &mut [i32])
        requires dry { Self.acts.dry self.old ≡ true }
        requires not_ended { (Self.acts.counts self.old).ended ≡ false }
        requires one_to_one { IsOneToOne Self.acts count self.old }
        requires ahead { IsAhead Self.acts count self.old }
        requires frame { IsChannelCount (kind Self.acts self.old).inputs }
        requires same_channels { (kind Self.acts self.old).outputs ≡ (kind Self.acts self.old).inputs }
        requires samples { length samples.old ≡ count * (kind Self.acts self.old).inputs }
        requires below_limit { (Self.acts.counts self.old).taken + count ≤ (kind Self.acts self.old).limit }
        ensures through { EachInPlace Self.acts count samples.old samples.new self.old self.new }
        ensures lined { IsLined Self.acts self.new }
    {
        let channels = self.in_channels();
        let _dry = self.is_dry();
        'frames: for turn in 0..count {
            let at = turn * channels;
            let _passing = self.pass_samples(&mut samples[at..at + channels]);
            let _determined = self.is_dry();
        }
    }
}

/// Takes `count` frames one after another, for which none is due. It is fast where they have at most `SPACE` samples.
pub fn take_many<S: Feeds>(stage: &mut S, count: usize, input: &[i32])
    requires dry { S.acts.dry stage.old ≡ true }
    requires not_ended { (S.acts.counts stage.old).ended ≡ false }
    requires none_due { IsNoneDue S.acts count stage.old }
    requires ahead { IsAhead S.acts count stage.old }
    requires channels { let k = kind S.acts stage.old in (1 ≤ k.inputs) × (k.inputs ≤ 16) × (k.outputs ≤ 16) }
    requires input { length input.now ≡ count * (kind S.acts stage.old).inputs }
    requires below_limit { (S.acts.counts stage.old).taken + count ≤ (kind S.acts stage.old).limit }
    ensures took { TookAll S.acts (pieces (kind S.acts stage.old).inputs count input.now) stage.old stage.new }
    ensures determined { IsDry S.acts stage.new }
    ensures dry { S.acts.dry stage.new ≡ true }
{
    let _determined = stage.is_dry();
    let mut space = [0; SPACE];
    let _passed = stage.feed(input, &mut space);
    let _dry = stage.is_dry();
}

/// What `ahead` returns, for any stage: one frame where it is dry and not spent.
pub fn ahead_by_calls<S: Stage>(stage: &S) -> u64
    ensures { IsAhead S.acts result stage.now }
{
    u64::from(stage.is_dry() && !stage.is_spent())
}

/// Takes a frame, and puts the one that the stage gives then in its place. Where it gives none, the frame may be any.
pub fn pass_by_calls<S: Stage>(stage: &mut S, frame: &mut Frame) -> Passing
    requires dry { S.acts.dry stage.old ≡ true }
    requires not_ended { (S.acts.counts stage.old).ended ≡ false }
    requires not_spent { spent S.acts stage.old ≡ false }
    requires channels { length frame.old ≡ (kind S.acts stage.old).inputs }
    requires below_limit { (S.acts.counts stage.old).taken < (kind S.acts stage.old).limit }
    ensures { PassedOn S.acts result stage.old stage.new frame.old frame.new }
{
    let _dry = stage.is_dry();
    stage.take(*frame);
    let _held = stage.held();
    let Some(given) = stage.give() else {
        return Passing::Kept;
    };
    let _held = stage.held();
    *frame = given;
    if stage.is_dry() {
        Passing::Through
    } else {
        Passing::More
    }
}

/// Writes a frame over the samples from a place on.
#[inline(always)]
pub fn put_frame(output: &mut [i32], at: usize, frame: &Frame)
    requires { at + length frame.now ≤ length output.old }
    ensures { output.new ≡ take at output.old ++ frame.now ++ drop (at + length frame.now) output.old }
{
    // A single sample is stored as such: a copy of so few is a call.
    if frame.channels() == 1 {
        output[at] = frame.get(0);
        return;
    }
    let samples = frame.samples();
    output[at..at + samples.len()].copy_from_slice(samples);
}

/// Copies samples over as many others.
#[inline(always)]
pub fn copy_samples(from: &[i32], to: &mut [i32])
    requires { length to.old ≡ length from.now }
    ensures { to.new ≡ from.now }
{
    // One or two samples are stored as such: a copy of so few is a call.
    if from.len() == 1 {
        to[0] = from[0];
        return;
    }
    if from.len() == 2 {
        to[0] = from[0];
        to[1] = from[1];
        return;
    }
    to.copy_from_slice(from);
}

/// The frame of `channels` channels that lies from a place on.
#[inline(always)]
pub fn frame_at(input: &[i32], at: usize, channels: usize) -> Frame
    requires channels { IsChannelCount channels }
    requires free { at + channels ≤ length input.now }
    ensures frame { result ≡ take channels (drop at input.now) }
    ensures channels { length result ≡ channels }
{
    if channels == 1 {
        return Frame::one(input[at]);
    }
    if channels == 2 {
        return Frame::two(input[at], input[at + 1]);
    }
    Frame::filled(&input[at..at + channels])
}

/// Reads samples to establish that they have 32 bits. It leaves no code in a program.
pub fn see_samples(samples: &[i32])
    ensures { All (FitsSigned w32) samples.now }
{
    'samples: for place in 0..samples.len() {
        let _sample = samples[place];
    }
}

/// Copies frames from the front of the input to the front of the output, as many as there are and fit.
pub fn copy_frames(input: &[i32], output: &mut [i32], channels: usize) -> usize
    requires { 1 ≤ channels }
    ensures frames { pieces channels result output.new ≡ pieces channels result input.now }
    ensures read { result * channels ≤ length input.now }
    ensures written { result * channels ≤ length output.new }
    ensures rest_unchanged { drop (result * channels) output.new ≡ drop (result * channels) output.old }
    ensures used { result * channels + channels ≤ length output.new → length input.now < result * channels + channels }
    ensures none { length output.old < channels → result ≡ 0 }
{
    let count = (input.len() / channels).min(output.len() / channels);
    let samples = count * channels;
    output[..samples].copy_from_slice(&input[..samples]);
    count
}

/// What `feed` does, for any stage, one frame at a time.
pub fn feed_by_frames<S: Stage>(stage: &mut S, input: &[i32], output: &mut [i32]) -> Passed
    requires channels { IsChannelCount (kind S.acts stage.old).inputs }
    requires below_limit { MayTakeAll S.acts stage.old input.now }
    ensures fed { FedBlock S.acts stage.old stage.new result.taken input.now result.given output.new }
    ensures read { result.taken * (kind S.acts stage.old).inputs ≤ length input.now }
    ensures written { result.given * (kind S.acts stage.old).outputs ≤ length output.new }
    ensures rest_unchanged { KeepsRest S.acts stage.old result.given output.old output.new }
    ensures dry { LeavesSpace S.acts stage.old result.given output.new → S.acts.dry stage.new ≡ true }
    ensures used { UsesInput S.acts stage.old stage.new result.taken input.now result.given output.new }
    ensures free { TookWithinSpace S.acts stage.old result.taken (length output.old) }
{
    let inputs = stage.in_channels();
    let outputs = stage.out_channels();
    let mut read = 0;
    let mut written = 0;
    let mut taken = 0;
    let mut given = 0;
    'turns: while output.len() - written >= outputs {
        if let Some(frame) = stage.give() {
            put_frame(output, written, &frame);
            written += frame.channels();
            given += 1;
        } else {
            if stage.is_ended() || stage.is_spent() || input.len() - read < inputs {
                return Passed { taken, given };
            }
            let _dry = stage.is_dry();
            stage.take(frame_at(input, read, inputs));
            read += inputs;
            taken += 1;
        }
        let _held = stage.held();
    }
    Passed { taken, given }
}
