//! Effects whose output frame depends on the input frame and on frames at fixed distances before it: a line, and a tail after
//! the end.
ghost use Rattle.std.specs.Prelude.{◌≡◌, ◌↔◌, ◌+◌, true, ◌<◌, ◌≤◌, ◌*◌, ◌^◌, ◌++◌, ◌∷◌, [], None, drop, length, Err, IfOk};
ghost use Rattle.fx_frame_line.specs.Line.{pushed, pushed_all};
ghost use Rattle.fx_frame_base.specs.Lists.{pieces};
ghost use Rattle.fx_frame_base.specs.Stage.{Freezes, Gave, IsNew, Restores};
ghost use Rattle.fx_frame.specs.Tapped.{AreTapCounts, IsNear, IsTapState, MakesBlock, TapState, Taps, tap_acts};
ghost use Rattle.fx_tap_delays.specs.Tapping.{CountsClips, IsLineFor, history_after};
ghost use Rattle.fx_frame_base.specs.Frame.{IsChannelCount};

use fx_frame::frozen::{stored_in, thawed_line_and_pending};
use fx_frame::groups::{SAMPLES_OF_GROUP, frames_of_group};
use fx_frame::numbers::{CoreNumbers, TailNumbers};
use fx_frame::{
    Counters, Feeds, Forecast, Frame, Line, Passed, Passing, Stage, ThawFault, WideFrame,
};
use fx_frame_base::StageCore;
use fx_frame_base::feed::{copy_samples, feed_by_frames, frame_at};
use fx_tap_sums::inner::sample_or_silence;
use std::alloc::{AllocError, Global};
use std::marker::Model;

/// What an effect makes of a frame and of its history.
pub trait Tapping {
    /// How it makes frames.
    ghost taps: { Taps Self };

    /// The frame that it makes of a frame which comes after those of the line, and how many of its samples were clipped.
    fn tap(&self, line: &Line, frame: Frame) -> (Frame, u64)
        ensures frame { result.0 ≡ (taps.made self.now (history_after line.now.items frame)).samples }
        ensures clips { result.1 ≡ (taps.made self.now (history_after line.now.items frame)).clips }
        ensures bound { result.1 ≤ taps.max_clips self.now }
        ensures channels { length result.0 ≡ taps.channels self.now };

    /// Writes the samples of the frame that it makes of those of a frame which comes after those of the line, and counts how
    /// many were clipped.
    fn tap_into(&self, line: &Line, frame: &[i32], out: &mut [i32]) -> u64
        requires frame { length frame.now ≡ taps.channels self.now }
        requires out { length out.old ≡ taps.channels self.now }
        ensures frame { out.new ≡ (taps.made self.now (history_after line.now.items frame.now)).samples }
        ensures clips { result ≡ (taps.made self.now (history_after line.now.items frame.now)).clips }
        ensures bound { result ≤ taps.max_clips self.now };

    /// The channels of the frames that it takes and makes.
    fn channels(&self) -> usize
        ensures value { result ≡ taps.channels self.now }
        ensures some { IsChannelCount result };

    /// How many samples of a frame may be clipped.
    fn max_clips(&self) -> u64
        ensures { result ≡ taps.max_clips self.now };

    /// No output frame depends on frames before the reach.
    ghost near: { IsNear taps };

    /// It has at most 16 channels to clip.
    ghost clips_max: { (m : Self) → taps.max_clips m ≤ 16 };
}

/// An effect that makes many frames in one call.
pub trait TapsMany: Tapping {
    /// Makes `count` frames from those at the front of the input, which come after those of the line, at the front of the
    /// output, and counts their clips. They go through the line.
    fn tap_many(&self, line: &mut Line, input: &[i32], output: &mut [i32], count: usize) -> u64
        requires line { IsLineFor Self.taps self.now line.old }
        requires bound { count ≤ 2 ^ 56 }
        requires input { count * Self.taps.channels self.now ≤ length input.now }
        requires output { count * Self.taps.channels self.now ≤ length output.old }
        ensures frames { MakesBlock Self.taps self.now line.old.items count input.now output.new }
        ensures rest_unchanged { let n = count * Self.taps.channels self.now in drop n output.new ≡ drop n output.old }
        ensures clips { CountsClips Self.taps self.now line.old.items count input.now result }
        ensures line { let coming = pieces (Self.taps.channels self.now) count input.now in
            line.new ≡ record line.old { items = pushed_all line.old coming } }
    {
        tap_by_frames(self, line, input, output, count)
    }

    /// Writes the samples of the frame that it makes of those of a frame which comes after those of the line over them, and
    /// counts how many were clipped. The frame that came goes into the line.
    #[inline(always)]
    fn tap_over(&self, line: &mut Line, samples: &mut [i32]) -> u64
        requires line { IsLineFor Self.taps self.now line.old }
        requires frame { length samples.old ≡ Self.taps.channels self.now }
        requires bound { length samples.old ≤ 16 }
        ensures frame { samples.new ≡ (Self.taps.made self.now (history_after line.old.items samples.old)).samples }
        ensures clips { result ≡ (Self.taps.made self.now (history_after line.old.items samples.old)).clips }
        ensures bound { result ≤ Self.taps.max_clips self.now }
        ensures line { line.new ≡ record line.old { items = pushed line.old samples.old } }
    {
        tap_and_push(self, line, samples)
    }

    /// Makes `count` frames in place from those of a group, which come after those of the line, and counts their clips.
    /// They go through the line.
    fn tap_frames(&self, line: &mut Line, samples: &mut [i32], count: usize) -> u64
        requires line { IsLineFor Self.taps self.now line.old }
        requires bound { count ≤ 2 ^ 56 }
        requires group { length samples.old ≤ 64 }
        requires samples { length samples.old ≡ count * Self.taps.channels self.now }
        ensures frames { MakesBlock Self.taps self.now line.old.items count samples.old samples.new }
        ensures clips { CountsClips Self.taps self.now line.old.items count samples.old result }
        ensures line { let coming = pieces (Self.taps.channels self.now) count samples.old in
            line.new ≡ record line.old { items = pushed_all line.old coming } }
    {
        tap_over_by_frames(self, line, samples, count)
    }
}

/// A sample of the frame `delay` places before this one, which comes after those of the line.
#[inline(always)]
pub(crate) fn sample(line: &Line, frame: &[i32], delay: usize, channel: usize) -> i32
    ensures { result ≡ history_after line.now.items frame.now delay channel }
{
    if delay == 0 {
        return sample_or_silence(frame, channel);
    }
    line.sample_back(delay - 1, channel)
}

/// Adds the frame of these samples to the line; the oldest goes where there is no space for one more.
#[inline(always)]
fn push_samples(line: &mut Line, samples: &[i32])
    requires channels { length samples.now ≡ line.old.channels }
    requires some { IsChannelCount (length samples.now) }
    ensures { line.new ≡ record line.old { items = pushed line.old samples.now } }
{
    let frame = match samples.len() {
        1 => Frame::one(samples[0]),
        2 => Frame::two(samples[0], samples[1]),
        channels => frame_at(samples, 0, channels),
    };
    line.push(frame);
}

/// What `tap_over` does, for any such effect, by way of a buffer for the frame that is made.
#[inline(always)]
fn tap_through<T: Tapping>(
    tapping: &T,
    line: &mut Line,
    samples: &mut [i32],
    made: &mut [i32],
) -> u64
    requires channels { line.old.channels ≡ T.taps.channels tapping.now }
    requires frame { length samples.old ≡ T.taps.channels tapping.now }
    requires bound { length samples.old ≤ 16 }
    requires free { length made.old ≡ length samples.old }
    ensures frame { samples.new ≡ (T.taps.made tapping.now (history_after line.old.items samples.old)).samples }
    ensures clips { result ≡ (T.taps.made tapping.now (history_after line.old.items samples.old)).clips }
    ensures bound { result ≤ T.taps.max_clips tapping.now }
    ensures line { line.new ≡ record line.old { items = pushed line.old samples.old } }
{
    let clips = tapping.tap_into(line, samples, made);
    line.push_over(samples);
    copy_samples(made, samples);
    clips
}

/// What `tap_over` does, for any such effect.
// Where there are one or two channels their number is known to the loops over them.
#[inline(always)]
pub fn tap_and_push<T: Tapping>(tapping: &T, line: &mut Line, samples: &mut [i32]) -> u64
    requires channels { line.old.channels ≡ T.taps.channels tapping.now }
    requires frame { length samples.old ≡ T.taps.channels tapping.now }
    requires bound { length samples.old ≤ 16 }
    ensures frame { samples.new ≡ (T.taps.made tapping.now (history_after line.old.items samples.old)).samples }
    ensures clips { result ≡ (T.taps.made tapping.now (history_after line.old.items samples.old)).clips }
    ensures bound { result ≤ T.taps.max_clips tapping.now }
    ensures line { line.new ≡ record line.old { items = pushed line.old samples.old } }
{
    match samples.len() {
        1 => tap_through(tapping, line, samples, &mut [0]),
        2 => tap_through(tapping, line, samples, &mut [0; 2]),
        _ => tap_through_places(tapping, line, samples),
    }
}

/// What `tap_over` does, for any such effect and as many channels as there may be.
// Stack space for sixteen samples is used only where this is called.
#[inline(never)]
fn tap_through_places<T: Tapping>(tapping: &T, line: &mut Line, samples: &mut [i32]) -> u64
    requires channels { line.old.channels ≡ T.taps.channels tapping.now }
    requires frame { length samples.old ≡ T.taps.channels tapping.now }
    requires bound { length samples.old ≤ 16 }
    ensures frame { samples.new ≡ (T.taps.made tapping.now (history_after line.old.items samples.old)).samples }
    ensures clips { result ≡ (T.taps.made tapping.now (history_after line.old.items samples.old)).clips }
    ensures bound { result ≤ T.taps.max_clips tapping.now }
    ensures line { line.new ≡ record line.old { items = pushed line.old samples.old } }
{
    let mut places = [0; 16];
    let came = &mut places[..samples.len()];
    tap_through(tapping, line, samples, came)
}

/// What `tap_many` does, for any such effect, one frame at a time.
pub(crate) fn tap_by_frames<T: Tapping>(
    tapping: &T,
    line: &mut Line,
    input: &[i32],
    output: &mut [i32],
    count: usize,
) -> u64
    requires line { IsLineFor T.taps tapping.now line.old }
    requires bound { count ≤ 2 ^ 56 }
    requires input { count * T.taps.channels tapping.now ≤ length input.now }
    requires output { count * T.taps.channels tapping.now ≤ length output.old }
    ensures frames { MakesBlock T.taps tapping.now line.old.items count input.now output.new }
    ensures rest_unchanged { let n = count * T.taps.channels tapping.now in drop n output.new ≡ drop n output.old }
    ensures clips { CountsClips T.taps tapping.now line.old.items count input.now result }
    ensures line { let coming = pieces (T.taps.channels tapping.now) count input.now in
        line.new ≡ record line.old { items = pushed_all line.old coming } }
{
    let channels = tapping.channels();
    let _held = line.len();
    let mut at = 0;
    let mut clips = 0;
    'frames: for _turn in 0..count {
        let frame = &input[at..at + channels];
        clips += tapping.tap_into(line, frame, &mut output[at..at + channels]);
        push_samples(line, frame);
        at += channels;
    }
    clips
}

/// What `tap_frames` does, for any such effect and any number of frames, one frame at a time.
pub(crate) fn tap_over_by_frames<T: Tapping>(
    tapping: &T,
    line: &mut Line,
    samples: &mut [i32],
    count: usize,
) -> u64
    requires line { IsLineFor T.taps tapping.now line.old }
    requires bound { count ≤ 2 ^ 56 }
    requires samples { length samples.old ≡ count * T.taps.channels tapping.now }
    ensures frames { MakesBlock T.taps tapping.now line.old.items count samples.old samples.new }
    ensures clips { CountsClips T.taps tapping.now line.old.items count samples.old result }
    ensures line { let coming = pieces (T.taps.channels tapping.now) count samples.old in
        line.new ≡ record line.old { items = pushed_all line.old coming } }
{
    let channels = tapping.channels();
    let _held = line.len();
    let mut from = 0;
    let mut clips = 0;
    'frames: for _turn in 0..count {
        clips += tap_and_push(tapping, line, &mut samples[from..from + channels]);
        from += channels;
    }
    clips
}

/// Makes `count` frames in the places of those that come after those of the line, a group at a time, and counts their clips.
/// They go through the line.
fn tap_groups<T: TapsMany>(tapping: &T, line: &mut Line, samples: &mut [i32], count: usize) -> u64
    requires line { IsLineFor T.taps tapping.now line.old }
    requires bound { count ≤ 2 ^ 56 }
    requires samples { length samples.old ≡ count * T.taps.channels tapping.now }
    ensures frames { MakesBlock T.taps tapping.now line.old.items count samples.old samples.new }
    ensures clips { CountsClips T.taps tapping.now line.old.items count samples.old result }
    ensures line { let coming = pieces (T.taps.channels tapping.now) count samples.old in
        line.new ≡ record line.old { items = pushed_all line.old coming } }
{
    // A single group, as in most chains, needs no division.
    if samples.len() <= SAMPLES_OF_GROUP {
        return tapping.tap_frames(line, samples, count);
    }
    let channels = tapping.channels();
    let maximum = frames_of_group(channels);
    let _held = line.len();
    let mut done = 0;
    let mut clips = 0;
    'groups: while done < count {
        let now = maximum.min(count - done);
        let from = done * channels;
        let to = from + now * channels;
        clips += tapping.tap_frames(line, &mut samples[from..to], now);
        done += now;
    }
    clips
}

/// Whether a stage of reach `reach`, with `maximum` clips a frame at most, that stores `stored` frames, can have counted these
/// numbers.
fn are_counts(reach: usize, maximum: u64, stored: usize, numbers: &TailNumbers) -> bool
    requires { reach ≤ 2 ^ 28 }
    ensures { result ≡ true ↔ AreTapCounts reach maximum stored numbers.now }
{
    let CoreNumbers {
        taken,
        given,
        ended,
        pending_count,
        ..
    } = numbers.core;
    let held = numbers.stored;
    let tail = numbers.tail;
    if !numbers.core.are_valid(maximum) || held != stored as u64 || (ended == 0 && tail != 0) {
        return false;
    }
    let made = taken + ended * reach as u64;
    if given > made || pending_count > made - given || tail != made - given - pending_count {
        return false;
    }
    pending_count <= held && held - pending_count == (given + pending_count).min(reach as u64)
}

/// The stage of an effect whose output frame depends on the input frame and on those before it. It holds as many frames as its
/// reach, and takes up to `2^56` frames.
#[derive(Drop)]
pub struct Tapped<T: Tapping + Drop> {
    core: StageCore,
    line: Line,
    tail: usize,
    arguments: T,
}

impl<T: Tapping + Drop> Model for Tapped<T> {
    ghost use Rattle.fx_frame.specs.Tapped.{TapState, IsTapState};

    ghost Value = { TapState T };

    ghost view = { λ s. record { core = s.core; line = s.line; tail = s.tail; arguments = s.arguments } };

    ghost invariant = { λ s. IsTapState T.taps (record { core = s.core; line = s.line; tail = s.tail; arguments = s.arguments }) };
}

impl<T: Tapping + Drop> Tapped<T> {
    ghost use Rattle.fx_frame.specs.Tapped.{IsTapState, TapState};

    /// The stage of an effect that reaches back `reach` frames; AllocError where memory for them is refused.
    pub(crate) fn of(alloc: Global, arguments: T, reach: usize) -> Result<Tapped<T>, AllocError>
        requires reach { reach ≡ T.taps.reach arguments }
        requires line { reach ≤ 2 ^ 28 }
        ensures { IfOk result (IsNew (tap_acts T.taps) arguments) }
    {
        let line = Line::new(alloc, arguments.channels(), reach)?;
        Ok(Tapped {
            core: StageCore::new(),
            line,
            tail: 0,
            arguments,
        })
    }

    /// The stage that stored these frames and counted these numbers. BadSnapshot where there is none, Memory where an
    /// allocation was refused.
    pub(crate) fn thawed(
        alloc: Global,
        arguments: T,
        reach: usize,
        frames: &[WideFrame],
        numbers: &[u64; 8],
    ) -> Result<Tapped<T>, ThawFault>
        requires reach { reach ≡ T.taps.reach arguments }
        requires line { reach ≤ 2 ^ 28 }
        ensures recipe { IfOk result (λ t. t.arguments ≡ arguments) }
        ensures frozen { IfOk result (λ t. Freezes (tap_acts T.taps) t frames.now numbers.now) }
        ensures thawed { Restores (tap_acts T.taps) (IsTapState T.taps) arguments frames.now numbers.now result }
        ensures named { (result ≡ Err ThawFault.WrongPlan) → ⊥ }
    {
        let maximum = arguments.max_clips();
        let numbers = TailNumbers::of(numbers);
        if !are_counts(reach, maximum, frames.len(), &numbers) {
            return Err(ThawFault::BadSnapshot);
        }
        let channels = arguments.channels();
        let (line, pending) = match thawed_line_and_pending(
            alloc,
            channels,
            reach,
            frames,
            numbers.core.pending_count,
        ) {
            Ok(stored) => stored,
            Err(fault) => return Err(fault),
        };
        Ok(Tapped {
            core: numbers.core.restored(pending),
            line,
            tail: numbers.tail as usize,
            arguments,
        })
    }

    /// Gives a frame that is made of silence, which comes after those of the line.
    #[inline(never)]
    fn give_of_tail(&mut self) -> Frame
        requires pending { self.old.core.pending ≡ None }
        requires tail { 0 < self.old.tail }
        ensures { Gave (tap_acts T.taps) self.old self.new result }
    {
        let silent_frame = Frame::silence(self.arguments.channels());
        let (made, clips) = self.arguments.tap(&self.line, silent_frame);
        self.line.push(silent_frame);
        let _held = self.line.len();
        self.tail -= 1;
        self.core.give_made(clips);
        made
    }
}

impl<T: Tapping + Drop> Stage for Tapped<T> {
    ghost use Rattle.fx_frame.specs.Tapped.{IsTapState, tap_acts, tap_rises};

    ghost Recipe = { T };

    ghost acts = { tap_acts T.taps };

    ghost sound = { λ s. IsTapState T.taps s };

    ghost rises = { λ m. tap_rises (T.taps.reach m) };

    fn take(&mut self, frame: Frame) {
        let (made, clips) = self.arguments.tap(&self.line, frame);
        let _channels = made.channels();
        self.line.push(frame);
        let _held = self.line.len();
        self.core.offer(made, clips);
    }

    fn end(&mut self) {
        self.tail = self.line.capacity();
        self.core.end();
    }

    fn give(&mut self) -> Option<Frame> {
        if self.core.is_pending() || self.tail == 0 {
            return self.core.give();
        }
        Some(self.give_of_tail())
    }

    fn is_dry(&self) -> bool {
        !self.core.is_pending() && self.tail == 0
    }

    #[inline(always)]
    fn counter_values(&self) -> Counters {
        self.core.counter_values()
    }

    fn is_spent(&self) -> bool {
        false
    }

    fn held(&self) -> u64 {
        self.line.len() as u64 + u64::from(self.core.is_pending())
    }

    fn hold(&self) -> u64 {
        self.line.capacity() as u64 + 1
    }

    fn in_channels(&self) -> usize {
        self.arguments.channels()
    }

    fn out_channels(&self) -> usize {
        self.arguments.channels()
    }

    fn state_counters(&self) -> [u64; 3] {
        [
            self.tail as u64,
            u64::from(self.core.is_pending()),
            self.core.pending_clips(),
        ]
    }

    fn stored(&self, j: usize) -> WideFrame {
        stored_in(&self.line, self.core.pending(), j)
    }
}

impl<T: TapsMany + Drop> Feeds for Tapped<T> {
    fn feed(&mut self, input: &[i32], output: &mut [i32]) -> Passed {
        if self.core.is_pending() || self.core.is_ended() {
            return feed_by_frames(self, input, output);
        }
        let channels = self.arguments.channels();
        let count = (input.len() / channels).min(output.len() / channels);
        let clips = self
            .arguments
            .tap_many(&mut self.line, input, output, count);
        let _held = self.line.len();
        self.core.pass(count, clips);
        Passed {
            taken: count,
            given: count,
        }
    }

    fn pass_samples(&mut self, samples: &mut [i32]) -> Passing {
        let clips = self.arguments.tap_over(&mut self.line, samples);
        let _held = self.line.len();
        self.core.pass(1, clips);
        Passing::Through
    }

    fn pass_frames(&mut self, count: usize, samples: &mut [i32]) {
        let clips = tap_groups(&self.arguments, &mut self.line, samples, count);
        let _held = self.line.len();
        self.core.pass(count, clips);
    }

    fn forecast(&self) -> Forecast {
        Forecast::endless(u64::MAX)
    }
}
