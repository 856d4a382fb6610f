//! The effect `delay` of sox(1): each channel is delayed by its own number of frames.
ghost use Rattle.std.specs.Prelude.{◌≡◌, ◌<◌, ◌≤◌, ◌⊎◌, if◌then◌else◌, ◌-◌, ◌*◌, ◌^◌, ◌++◌, ◌∷◌, [], ℕ, List, true, false, length, drop, replicate, slice_index, pos, Err, IfOk};
ghost use Rattle.fx_fixed.specs.Extents.{largest};
ghost use Rattle.fx_frame_base.specs.Frame.{IsChannelCount, IsFrame};
ghost use Rattle.fx_frame_line.specs.Line.{pushed, pushed_all};
ghost use Rattle.fx_frame_base.specs.Lists.{pieces};
ghost use Rattle.fx_frame_base.specs.Stage.{Freezes, IsNew};
ghost use Rattle.fx_tap_delays.specs.Delay.{delayed_frame, every_delay};
ghost use Rattle.fx_tap_delays.specs.DelayState.{delay_acts, delay_taps, RestoresDelay, NoShorterDelay, frame_leaving, frames_leaving};
ghost use Rattle.fx_tap_delays.specs.Near.{delays-near};
ghost use Rattle.std.proofs.Common.{zero-le};
ghost use Rattle.fx_tap_delays.specs.Tapping.{CountsClips, IsLineFor, history_after};
ghost use Rattle.fx_frame.specs.Tapped.{MakesBlock};

pub mod words;

use crate::echo::SAMPLES_OF_PIECE;
use crate::extents::max_delay;
use crate::tapped::{
    Tapped, Tapping, TapsMany, sample, tap_and_push, tap_by_frames, tap_over_by_frames,
};
use fx_frame::groups::{SAMPLES_OF_BATCH, SAMPLES_OF_GROUP};
use fx_frame::{Frame, Line, ThawFault, WideFrame};
use std::alloc::{AllocError, Global};
use std::marker::Model;

/// The delay of each of 1 to 16 channels, in frames.
#[derive(Drop)]
pub struct Delays {
    delays: Vec<u64>,
}

impl Model for Delays {
    ghost use Rattle.std.specs.Prelude.{ℕ, List, length};
    ghost use Rattle.fx_frame_base.specs.Frame.{IsChannelCount};

    ghost Value = { List ℕ };

    ghost view = { λ s. s.delays.items };

    ghost invariant = { λ s. IsChannelCount (length s.delays.items) };
}

/// Writes the samples of the frame whose channels are delayed.
#[inline(always)]
fn delayed_into(line: &Line, delays: &[u64], frame: &[i32], out: &mut [i32])
    requires { length out.old ≡ length delays.now }
    ensures { out.new ≡ delayed_frame delays.now (history_after line.now.items frame.now) }
{
    'channels: for channel in 0..delays.len() {
        out[channel] = sample(line, frame, delays[channel] as usize, channel);
    }
}

/// The frame whose channels are delayed.
fn delayed_frame(line: &Line, delays: &[u64], frame: Frame) -> Frame
    requires { IsChannelCount (length delays.now) }
    ensures value { result ≡ delayed_frame delays.now (history_after line.now.items frame) }
    ensures frame { IsFrame result × (length result ≡ length delays.now) }
{
    let mut out = [0; 16];
    delayed_into(line, delays, frame.samples(), &mut out[..delays.len()]);
    let made = Frame::of_first(delays.len(), out);
    let _channels = made.channels();
    made
}

/// The delay of each channel: those that are given, and then 0.
fn every_delay(alloc: Global, channels: usize, delays: &[u64]) -> Result<Vec<u64>, AllocError>
    requires { length delays.now ≤ channels }
    ensures items { IfOk result (λ v. v.items ≡ every_delay channels delays.now) }
    ensures count { IfOk result (λ v. length v.items ≡ channels) }
    ensures max_delay { IfOk result (λ v. largest v.items ≡ largest delays.now) }
{
    let mut every = Vec::new(alloc);
    every.extend_from_slice(delays)?;
    every.resize(channels, 0)?;
    Ok(every)
}

impl Tapping for Delays {
    ghost taps = { delay_taps };

    fn tap(&self, line: &Line, frame: Frame) -> (Frame, u64) {
        (delayed_frame(line, &self.delays, frame), 0)
    }

    fn tap_into(&self, line: &Line, frame: &[i32], out: &mut [i32]) -> u64 {
        delayed_into(line, &self.delays, frame, out);
        0
    }

    fn channels(&self) -> usize {
        self.delays.len()
    }

    fn max_clips(&self) -> u64 {
        0
    }

    ghost near = { delays-near };

    ghost clips_max = { λ m. zero-le };
}

/// The stage of `delay`: each channel is delayed by its own number of frames, silent before its first. No sample is
/// clipped.
pub type Delay = Tapped<Delays>;

impl Tapped<Delays> {
    /// The stage for frames of 1 to 16 channels, with at most one delay for each, in frames; a channel without one is not
    /// delayed. It holds as many frames as the longest delay has, at most `2^28`; AllocError where memory for them is refused.
    pub fn new(alloc: Global, channels: usize, delays: &[u64]) -> Result<Delay, AllocError>
        requires channels { IsChannelCount channels }
        requires delays { length delays.now ≤ channels }
        requires line { largest delays.now ≤ 2 ^ 28 }
        ensures { IfOk result (IsNew delay_acts (every_delay channels delays.now)) }
    {
        let reach = max_delay(delays) as usize;
        let delays = every_delay(alloc, channels, delays)?;
        Tapped::of(alloc, Delays { delays }, reach)
    }
    /// The stage that stored these frames and counted these numbers: whichever stage of these channels and delays they came
    /// from, that stage is restored, unless memory is refused. BadSnapshot where there is no such stage, Memory where an
    /// allocation was refused.
    pub fn thaw(
        alloc: Global,
        channels: usize,
        delays: &[u64],
        frames: &[WideFrame],
        numbers: &[u64; 8],
    ) -> Result<Delay, ThawFault>
        requires channels { IsChannelCount channels }
        requires delays { length delays.now ≤ channels }
        requires line { largest delays.now ≤ 2 ^ 28 }
        ensures recipe { IfOk result (λ t. delay_acts.recipe t ≡ every_delay channels delays.now) }
        ensures frozen { IfOk result (λ t. Freezes delay_acts t frames.now numbers.now) }
        ensures thawed { RestoresDelay (every_delay channels delays.now) frames.now numbers.now result }
        ensures named { (result ≡ Err ThawFault.WrongPlan) → ⊥ }
    {
        let reach = max_delay(delays) as usize;
        let Ok(delays) = every_delay(alloc, channels, delays) else {
            return Err(ThawFault::Memory);
        };
        Tapped::thawed(alloc, Delays { delays }, reach, frames, numbers)
    }
}

/// Whether each of the delays is that long.
fn all_are(delays: &[u64], reach: u64) -> bool
    ensures { result ≡ true → (k : ℕ) → k < length delays.now → slice_index delays.now k ≡ reach }
{
    'delays: for delay in delays {
        if *delay != reach {
            return false;
        }
    }
    true
}

/// Writes silence over `count` frames at the front of the output.
fn write_silence(output: &mut [i32], channels: usize, count: usize)
    requires { count * channels ≤ length output.old }
    ensures { output.new ≡ replicate (count * channels) (pos 0) ++ drop (count * channels) output.old }
{
    output[..count * channels].fill(0);
}

/// Writes `count` frames, each as many frames after its own as the line has places, and silence before the first. Those that
/// come go into the line.
fn delay_evenly(line: &mut Line, channels: usize, frames: &[i32], count: usize, output: &mut [i32])
    requires channels { channels ≡ line.old.channels }
    requires frames { length frames.now ≡ count * line.old.channels }
    requires free { count * line.old.channels ≤ length output.old }
    ensures frames { pieces line.old.channels count output.new ≡ frames_leaving line.old count frames.now }
    ensures rest_unchanged { drop (count * line.old.channels) output.new ≡ drop (count * line.old.channels) output.old }
    ensures line { let coming = pieces line.old.channels count frames.now in
        line.new ≡ record line.old { items = pushed_all line.old coming } }
{
    let silent_frames = (line.capacity() - line.len()).min(count);
    write_silence(output, channels, silent_frames);
    line.oldest_into(
        frames,
        count - silent_frames,
        &mut output[silent_frames * channels..],
    );
    line.push_frames(frames, count);
}

/// Writes the samples of the frame that came as many frames before one as the line has places over those of that one, which
/// goes into the line; silence where there was none.
#[inline(always)]
pub(crate) fn delay_over(line: &mut Line, samples: &mut [i32])
    requires { length samples.old ≡ line.old.channels }
    ensures frame { samples.new ≡ frame_leaving line.old samples.old }
    ensures line { line.new ≡ record line.old { items = pushed line.old samples.old } }
{
    if !line.push_over(samples) {
        samples.fill(0);
    }
}

/// Writes over `count` frames those that came as many frames before as the line has places; the new ones go into the line,
/// where each delay is so long and the line has them all. The frames that came then stand in `came`. Else it returns false, and
/// nothing changes.
fn exchange_evenly(
    delays: &[u64],
    line: &mut Line,
    samples: &mut [i32],
    count: usize,
    came: &mut [i32],
) -> bool
    requires channels { line.old.channels ≡ length delays.now }
    requires samples { length samples.old ≡ count * length delays.now }
    requires free { length came.old ≡ length samples.old }
    ensures kept { result ≡ false → (line.new ≡ line.old) × (samples.new ≡ samples.old) }
    ensures frames { result ≡ true → MakesBlock delay_taps delays.now line.old.items count samples.old samples.new }
    ensures line { let coming = pieces (length delays.now) count samples.old in
        result ≡ true → line.new ≡ record line.old { items = pushed_all line.old coming } }
    ensures len { length samples.new ≡ length samples.old }
{
    let _held = line.len();
    if all_are(delays, line.capacity() as u64) {
        return line.exchange_frames(samples, count, came);
    }
    false
}

/// The minimum number of frames of a piece: fewer take longer at once than one at a time.
const MIN_PIECE: usize = 8;

/// The maximum number of frames of a piece: few enough to stay in the first-level cache from channel to channel; and a channel
/// that is delayed is delayed by at least as many.
fn frames_of_piece(delays: &[u64]) -> usize
    requires { IsChannelCount (length delays.now) }
    ensures some { 1 ≤ result }
    ensures late { NoShorterDelay result delays.now }
{
    let mut maximum = SAMPLES_OF_PIECE / delays.len();
    'delays: for delay in delays {
        if *delay != 0 {
            maximum = maximum.min(*delay as usize);
        }
    }
    maximum
}

/// Writes `count` frames that follow those of the line, each channel delayed by its delay. No channel has a shorter delay.
fn delay_piece(delays: &[u64], line: &Line, frames: &[i32], count: usize, out: &mut [i32])
    requires some { IsChannelCount (length delays.now) }
    requires channels { line.now.channels ≡ length delays.now }
    requires late { NoShorterDelay count delays.now }
    requires frames { length frames.now ≡ count * length delays.now }
    requires out { length out.old ≡ count * length delays.now }
    ensures { MakesBlock delay_taps delays.now line.now.items count frames.now out.new }
{
    out.copy_from_slice(frames);
    'channels: for channel in 0..delays.len() {
        let late = delays[channel] as usize;
        if late != 0 {
            line.channel_before_into(late, count, channel, out);
        }
    }
}

/// Writes `count` frames from the front of the input, which come after those of the line, each channel delayed by its
/// delay, to the front of the output, some at a time. They go through the line.
fn delay_pieces(
    delays: &[u64],
    line: &mut Line,
    maximum: usize,
    input: &[i32],
    output: &mut [i32],
    count: usize,
)
    requires some { IsChannelCount (length delays.now) }
    requires channels { line.old.channels ≡ length delays.now }
    requires capacity { line.old.capacity ≡ largest delays.now }
    requires maximum { 1 ≤ maximum }
    requires late { NoShorterDelay maximum delays.now }
    requires bound { count ≤ 2 ^ 56 }
    requires input { count * length delays.now ≤ length input.now }
    requires output { count * length delays.now ≤ length output.old }
    ensures frames { MakesBlock delay_taps delays.now line.old.items count input.now output.new }
    ensures rest_unchanged { drop (count * length delays.now) output.new ≡ drop (count * length delays.now) output.old }
    ensures line { let coming = pieces (length delays.now) count input.now in
        line.new ≡ record line.old { items = pushed_all line.old coming } }
{
    let channels = delays.len();
    let _held = line.len();
    let mut done = 0;
    'pieces: while done < count {
        let now = maximum.min(count - done);
        let from = done * channels;
        let to = from + now * channels;
        let frames = &input[from..to];
        delay_piece(delays, line, frames, now, &mut output[from..to]);
        line.push_frames(frames, now);
        done += now;
    }
}

impl Delays {
    /// What `tap_frames` does, for at most `PLACES` samples.
    #[inline(never)]
    fn group_within<const PLACES: usize>(
        &self,
        line: &mut Line,
        samples: &mut [i32],
        count: usize,
    ) -> u64
        requires line { IsLineFor delay_taps self.now line.old }
        requires bound { count ≤ 2 ^ 56 }
        requires group { (length samples.old ≤ PLACES) × (PLACES ≤ 64) }
        requires samples { length samples.old ≡ count * length self.now }
        ensures frames { MakesBlock delay_taps self.now line.old.items count samples.old samples.new }
        ensures clips { CountsClips delay_taps self.now line.old.items count samples.old result }
        ensures line { let coming = pieces (length self.now) count samples.old in
            line.new ≡ record line.old { items = pushed_all line.old coming } }
    {
        let mut places = [0; PLACES];
        let came = &mut places[..samples.len()];
        if exchange_evenly(&self.delays, line, samples, count, came) {
            return 0;
        }
        if count > frames_of_piece(&self.delays) {
            return tap_over_by_frames(self, line, samples, count);
        }
        came.copy_from_slice(samples);
        delay_piece(&self.delays, line, came, count, samples);
        line.push_frames(came, count);
        0
    }
}

impl TapsMany for Delays {
    fn tap_many(&self, line: &mut Line, input: &[i32], output: &mut [i32], count: usize) -> u64 {
        let channels = self.channels();
        if all_are(&self.delays, line.capacity() as u64) {
            delay_evenly(line, channels, &input[..count * channels], count, output);
            return 0;
        }
        let maximum = frames_of_piece(&self.delays);
        if maximum < MIN_PIECE {
            return tap_by_frames(self, line, input, output, count);
        }
        delay_pieces(&self.delays, line, maximum, input, output, count);
        0
    }

    fn tap_over(&self, line: &mut Line, samples: &mut [i32]) -> u64 {
        if all_are(&self.delays, line.capacity() as u64) {
            delay_over(line, samples);
            return 0;
        }
        tap_and_push(self, line, samples)
    }

    fn tap_frames(&self, line: &mut Line, samples: &mut [i32], count: usize) -> u64 {
        if samples.len() <= SAMPLES_OF_BATCH {
            self.group_within::<SAMPLES_OF_BATCH>(line, samples, count)
        } else {
            self.group_within::<SAMPLES_OF_GROUP>(line, samples, count)
        }
    }
}
