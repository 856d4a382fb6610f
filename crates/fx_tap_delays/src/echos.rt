//! The effect `echos` of sox(1): echoes in series, each line taking the frame and what the line before it outputs.
ghost use Rattle.std.specs.Prelude.{◌≡◌, ◌↔◌, true, ◌<◌, ◌≤◌, ◌+◌, ◌*◌, ◌^◌, ◌+ℤ◌, ◌*ℤ◌, ℕ, pos, length, map, unsigned_abs, slice_get, slice_index_or, drop, Err, IfOk, IfSome};
ghost use Rattle.std.specs.List.{All};
ghost use Rattle.fx_tap_delays.specs.DelayExtents.{sum_of_delays};
ghost use Rattle.fx_frame_base.specs.Frame.{IsChannelCount, IsFrame, silence};
ghost use Rattle.fx_frame_line.specs.Line.{empty, pushed_out};
ghost use Rattle.fx_frame_base.specs.Lists.{pieces};
ghost use Rattle.fx_frame_base.specs.Stage.{Freezes, IsNew};
ghost use Rattle.fx_tap_delays.specs.Echo.{EchoArguments, IsEcho, echo_with};
ghost use Rattle.fx_tap_delays.specs.Echos.{decays};
ghost use Rattle.fx_tap_delays.specs.EchosState.{EchosState, IsEchos, after_push, echos_acts, fed, frames_of_lines, line_outputs, lines_after, or_silence, series_lines_after, AreEchoLines, AreSeriesLines, HaveCapacity, decayed_sum, frame_from_lines, SendsThrough, clips_through, AreLineSums, RestoresEchos};
ghost use Rattle.fx_tap_delays.specs.EchosStored.{AreEchosCounts};
ghost use Rattle.fx_tap_sums.specs.Weights.{AreSmall};
ghost use Rattle.fx_tap_delays.specs.EchoWeights.{Suits, ForAllSuited};
ghost use Rattle.fx_tap_delays.specs.Sums.{AddsToEach};

use crate::echo::{SAMPLES_OF_PIECE, are_late, copied, frames_of_piece};
use crate::extents::total_delay;
use crate::series_lines::thawed_series_and_pending;
use crate::sums::{add_scaled, round_sums, sums_into};
use fx_fixed::{Gain, UNIT};
use fx_frame::groups::{SAMPLES_OF_BATCH, SAMPLES_OF_GROUP};
use fx_frame::numbers::{CoreNumbers, TailNumbers};
use fx_frame::{
    Counters, Feeds, Forecast, Frame, Passed, Passing, Stage, ThawFault, WideFrame, WideLine,
};
use fx_frame_base::feed::{feed_by_frames, frame_at};
use fx_frame_base::frame::MAX_CHANNELS;
use fx_frame_base::pending::stored_pending;
use fx_frame_base::stage_core::StageCore;
use fx_tap_sums::inner::{Sums, add_places, add_products, add_samples, add_wide_products};
use fx_tap_sums::weights::{SmallWeights, small_of};
use std::alloc::{AllocError, Global};
use std::marker::Model;

/// The stage of `echos`: each frame times gain-in, and what each of several lines in series outputs times its decay, added,
/// times gain-out and rounded once. A sample that is clipped counts for one clip.
#[derive(Drop)]
pub struct Echos {
    core: StageCore,
    channels: usize,
    gain_in: Gain,
    gain_out: Gain,
    taps: Vec<(u64, Gain)>,
    small: Option<SmallWeights>,
    lines: Vec<WideLine>,
    tail: u64,
}

impl Model for Echos {
    ghost use Rattle.fx_tap_delays.specs.Echo.{echo_with};
    ghost use Rattle.std.specs.Prelude.{IfSome};
    ghost use Rattle.fx_tap_delays.specs.EchosState.{EchosState, IsEchos};
    ghost use Rattle.fx_tap_delays.specs.EchoWeights.{Suits};

    ghost Value = { EchosState };

    ghost view = { λ s. record { arguments = echo_with s.channels s.gain_in s.gain_out s.taps.items; lines = s.lines.items; core = s.core; tail = s.tail } };

    ghost invariant = { λ s. IsEchos (record { arguments = echo_with s.channels s.gain_in s.gain_out s.taps.items; lines = s.lines.items; core = s.core; tail = s.tail }) × IfSome s.small (Suits (echo_with s.channels s.gain_in s.gain_out s.taps.items)) };
}

/// A frame and what the line before output, added.
#[inline(always)]
fn fed_frame(channels: usize, frame: Frame, before: WideFrame) -> WideFrame
    requires channels { IsChannelCount channels }
    requires small { AreSmall (2 ^ 34) before }
    ensures value { result ≡ fed channels frame before }
    ensures count { length result ≡ channels }
{
    let samples = frame.places();
    let passed = before.places();
    let mut sums = [0i64; 16];
    'channels: for channel in 0..channels {
        sums[channel] = i64::from(samples[channel]) + passed[channel];
    }
    WideFrame::of_first(channels, sums)
}

/// Pushes a frame and what the line before output, added; returns what this line outputs, or silence.
#[inline(always)]
fn feed(line: &mut WideLine, channels: usize, frame: Frame, before: WideFrame) -> WideFrame
    requires channels { IsChannelCount channels }
    requires line { line.old.channels ≡ channels }
    requires small { AreSmall (2 ^ 34) before }
    ensures line_output { result ≡ or_silence channels (pushed_out line.old (fed channels frame before)) }
    ensures line { line.new ≡ after_push line.old (fed channels frame before) }
{
    let fed = fed_frame(channels, frame, before);
    let Some(line_output) = line.push(fed) else {
        return WideFrame::from_frame(Frame::silence(channels));
    };
    line_output
}

/// Adds what a line outputs, times a decay, which is at most 1 in magnitude.
#[inline(always)]
fn add_line_output(sums: &mut Sums, channels: usize, decay: Gain, line_output: WideFrame)
    requires channels { channels ≤ 16 }
    requires decay { unsigned_abs decay ≤ UNIT }
    requires small { AreSmall (2 ^ 34) line_output }
    requires free { AreSmall (2 ^ 100) sums.old }
    ensures added { AddsToEach channels sums.old sums.new (λ k. decay *ℤ slice_index_or line_output k (pos 0)) }
    ensures left { (k : ℕ) → channels ≤ k → slice_index_or sums.new k (pos 0) ≡ slice_index_or sums.old k (pos 0) }
{
    add_places(sums, channels, decay, &line_output.places());
}

/// Sends a frame through the lines, and adds what each outputs, times its decay.
fn pass(
    lines: &mut [WideLine],
    taps: &[(u64, Gain)],
    channels: usize,
    frame: Frame,
    sums: &mut Sums,
)
    requires channels { IsChannelCount channels }
    requires count { (length lines.old ≡ length taps.now) × (length lines.old ≤ 7) }
    requires lines { AreSeriesLines channels lines.old }
    requires decays { All (λ e. unsigned_abs e.1 ≤ UNIT) taps.now }
    requires free { AreSmall (UNIT * 2 ^ 31) sums.old }
    ensures lines { lines.new ≡ lines_after channels lines.old frame (silence channels) }
    ensures sums { AddsToEach channels sums.old sums.new (decayed_sum taps.now (line_outputs channels lines.old frame (silence channels))) }
    ensures small { AreSmall (29 * (UNIT * 2 ^ 31)) sums.new }
{
    let _count = frame.channels();
    let mut before = WideFrame::from_frame(Frame::silence(channels));
    'lines: for place in 0..lines.len() {
        let line_output = feed(&mut lines[place], channels, frame, before);
        add_line_output(sums, channels, taps[place].1, line_output);
        before = line_output;
    }
}

/// The greatest weight of small ones: of eight such products of what lines output the sum fits 61 bits.
const MAX_ECHOS_WEIGHT: u32 = 1 << 24;

/// Sends `count` frames, together at most `N` samples, through the lines, no more than each has places, and adds them and
/// what each line outputs, each times its weight.
fn pass_piece<const N: usize>(
    lines: &mut [WideLine],
    small: &SmallWeights,
    channels: usize,
    frames: &[i32],
    count: usize,
    sums: &mut [i64],
)
    requires channels { IsChannelCount channels }
    requires bound { length lines.old ≤ 7 }
    requires lines { AreSeriesLines channels lines.old }
    requires late { HaveCapacity count lines.old }
    requires weights { AreSmall (2 ^ 24) small.now.weights }
    requires places { N ≤ 256 }
    requires free { count * channels ≤ N }
    requires frames { length frames.now ≡ count * channels }
    requires sums { length sums.old ≡ count * channels }
    requires empty { (k : ℕ) → slice_index_or sums.old k (pos 0) ≡ pos 0 }
    ensures lines { lines.new ≡ series_lines_after channels lines.old (pieces channels count frames.now) }
    ensures value { AreLineSums small.now.weights channels lines.old count frames.now sums.new }
    ensures small { AreSmall (2 ^ 61) sums.new }
    ensures frames { (k : ℕ) → k < length frames.now → unsigned_abs (slice_index_or frames.now k (pos 0)) ≤ 2 ^ 31 }
{
    add_products(sums, frames, small.weights[0]);
    let mut passed = [0; N];
    let before = &mut passed[..frames.len()];
    let mut places = [0; N];
    let fed = &mut places[..frames.len()];
    'lines: for place in 0..lines.len() {
        add_samples(fed, frames, before);
        let line = &mut lines[place];
        line.before_into(line.capacity(), count, before);
        line.push_frames(fed, count);
        add_wide_products(sums, before, small.weights[place + 1]);
    }
}

/// Sends `count` frames, together at most `N` samples, through the lines, no more than each has places: writes the frames
/// that are given for them, and counts how many of their samples were clipped.
fn echo_piece<const N: usize>(
    lines: &mut [WideLine],
    small: &SmallWeights,
    channels: usize,
    frames: &[i32],
    count: usize,
    out: &mut [i32],
) -> u64
    requires channels { IsChannelCount channels }
    requires bound { length lines.old ≤ 7 }
    requires weights { AreSmall (2 ^ 24) small.now.weights }
    requires lines { AreSeriesLines channels lines.old }
    requires late { HaveCapacity count lines.old }
    requires places { N ≤ 256 }
    requires free { count * channels ≤ N }
    requires frames { length frames.now ≡ count * channels }
    requires out { length out.old ≡ count * channels }
    ensures lines { lines.new ≡ series_lines_after channels lines.old (pieces channels count frames.now) }
    ensures frames { ForAllSuited small.now channels lines.old (λ a. SendsThrough a lines.old channels count frames.now out.new) }
    ensures clips { ForAllSuited small.now channels lines.old (λ a. result ≡ clips_through a lines.old channels count frames.now) }
    ensures bound { result ≤ count * channels }
    ensures samples { (k : ℕ) → k < length frames.now → unsigned_abs (slice_index_or frames.now k (pos 0)) ≤ 2 ^ 31 }
{
    let mut places = [0; N];
    let sums = &mut places[..frames.len()];
    pass_piece::<N>(lines, small, channels, frames, count, sums);
    round_sums(sums, &small.denominator, out)
}

/// Sends the `count` frames of a batch, together at most `N` samples, through the lines, no more than each has places: writes
/// the frames that are given for them over them, and counts how many of their samples were clipped.
// Stack space for the sums of a batch is used only where this is called.
#[inline(never)]
fn echo_batch<const N: usize>(
    lines: &mut [WideLine],
    small: &SmallWeights,
    channels: usize,
    samples: &mut [i32],
    count: usize,
) -> u64
    requires channels { IsChannelCount channels }
    requires bound { length lines.old ≤ 7 }
    requires weights { AreSmall (2 ^ 24) small.now.weights }
    requires lines { AreSeriesLines channels lines.old }
    requires late { HaveCapacity count lines.old }
    requires batch { (length samples.old ≤ N) × (N ≤ 256) }
    requires samples { length samples.old ≡ count * channels }
    ensures lines { lines.new ≡ series_lines_after channels lines.old (pieces channels count samples.old) }
    ensures frames { ForAllSuited small.now channels lines.old (λ a. SendsThrough a lines.old channels count samples.old samples.new) }
    ensures clips { ForAllSuited small.now channels lines.old (λ a. result ≡ clips_through a lines.old channels count samples.old) }
    ensures bound { result ≤ count * channels }
    ensures small { (k : ℕ) → k < length samples.old → unsigned_abs (slice_index_or samples.old k (pos 0)) ≤ 2 ^ 31 }
{
    let mut places = [0; N];
    let sums = &mut places[..samples.len()];
    pass_piece::<N>(lines, small, channels, samples, count, sums);
    round_sums(sums, &small.denominator, samples)
}

/// Sends `count` frames at the front of the input through the lines, some at a time: writes the frames that are given for
/// them to the front of the output, and counts how many of their samples were clipped.
fn echo_many(
    lines: &mut [WideLine],
    taps: &[(u64, Gain)],
    small: &SmallWeights,
    channels: usize,
    input: &[i32],
    output: &mut [i32],
    count: usize,
) -> u64
    requires channels { IsChannelCount channels }
    requires taps { (length lines.old ≡ length taps.now) × (length lines.old ≤ 7) }
    requires delays { All (λ e. 1 ≤ e.0) taps.now }
    requires lines { (came : ℕ) × AreEchoLines channels came taps.now lines.old }
    requires weights { AreSmall (2 ^ 24) small.now.weights }
    requires bound { count ≤ 2 ^ 56 }
    requires input { count * channels ≤ length input.now }
    requires output { count * channels ≤ length output.old }
    ensures lines { lines.new ≡ series_lines_after channels lines.old (pieces channels count input.now) }
    ensures frames { ForAllSuited small.now channels lines.old (λ a. SendsThrough a lines.old channels count input.now output.new) }
    ensures clips { ForAllSuited small.now channels lines.old (λ a. result ≡ clips_through a lines.old channels count input.now) }
    ensures bound { result ≤ count * 16 }
    ensures rest_unchanged { drop (count * channels) output.new ≡ drop (count * channels) output.old }
    ensures sound { (came : ℕ) → AreEchoLines channels came taps.now lines.old → AreEchoLines channels (came + count) taps.now lines.new }
{
    let maximum = frames_of_piece(channels, taps);
    let mut done = 0;
    let mut clips = 0;
    'pieces: while done < count {
        let now = maximum.min(count - done);
        let from = done * channels;
        let to = from + now * channels;
        let frames = &input[from..to];
        let out = &mut output[from..to];
        clips += echo_piece::<SAMPLES_OF_PIECE>(lines, small, channels, frames, now, out);
        done += now;
    }
    clips
}

/// Sends a frame through the lines, whatever the gains: writes the samples of the frame that is given for it over its own,
/// and counts how many were clipped.
// Stack space for the wide sums is used only where this is called.
#[inline(never)]
fn wide_over(
    lines: &mut [WideLine],
    taps: &[(u64, Gain)],
    channels: usize,
    gains: (Gain, Gain),
    samples: &mut [i32],
) -> u64
    requires arguments { IsEcho (echo_with channels gains.0 gains.1 taps.now) }
    requires frame { length samples.old ≡ channels }
    requires count { length lines.old ≡ length taps.now }
    requires lines { AreSeriesLines channels lines.old }
    ensures lines { lines.new ≡ lines_after channels lines.old samples.old (silence channels) }
    ensures frame { samples.new ≡ (frame_from_lines (echo_with channels gains.0 gains.1 taps.now) lines.old samples.old).samples }
    ensures clips { result ≡ (frame_from_lines (echo_with channels gains.0 gains.1 taps.now) lines.old samples.old).clips }
    ensures bound { result ≤ 16 }
    ensures small { AreSmall (2 ^ 31) samples.old }
{
    let frame = frame_at(samples, 0, channels);
    let mut sums = [0; 16];
    add_scaled(&mut sums, channels, gains.0, frame);
    pass(lines, taps, channels, frame, &mut sums);
    let _count = frame.channels();
    sums_into(&sums, gains.1, samples)
}

/// Sends a frame through the lines: writes the samples of the frame that is given for it over its own, and counts how many
/// were clipped.
fn echo_over(
    lines: &mut [WideLine],
    taps: &[(u64, Gain)],
    small: &Option<SmallWeights>,
    channels: usize,
    gains: (Gain, Gain),
    samples: &mut [i32],
) -> u64
    requires arguments { IsEcho (echo_with channels gains.0 gains.1 taps.now) }
    requires frame { length samples.old ≡ channels }
    requires count { length lines.old ≡ length taps.now }
    requires lines { AreSeriesLines channels lines.old }
    requires late { HaveCapacity 1 lines.old }
    requires small { IfSome small.now (Suits (echo_with channels gains.0 gains.1 taps.now)) }
    ensures lines { lines.new ≡ lines_after channels lines.old samples.old (silence channels) }
    ensures frame { samples.new ≡ (frame_from_lines (echo_with channels gains.0 gains.1 taps.now) lines.old samples.old).samples }
    ensures clips { result ≡ (frame_from_lines (echo_with channels gains.0 gains.1 taps.now) lines.old samples.old).clips }
    ensures bound { result ≤ 16 }
    ensures small { AreSmall (2 ^ 31) samples.old }
{
    if let Some(small) = small {
        return echo_batch::<MAX_CHANNELS>(lines, small, channels, samples, 1);
    }
    wide_over(lines, taps, channels, gains, samples)
}

/// Sends `count` frames through the lines, one after another: writes the frames that are given for them over them, and
/// counts how many of their samples were clipped.
fn echo_over_by_frames(
    lines: &mut [WideLine],
    taps: &[(u64, Gain)],
    small: &Option<SmallWeights>,
    channels: usize,
    gains: (Gain, Gain),
    samples: &mut [i32],
    count: usize,
) -> u64
    requires arguments { IsEcho (echo_with channels gains.0 gains.1 taps.now) }
    requires taps { length lines.old ≡ length taps.now }
    requires lines { (came : ℕ) × AreEchoLines channels came taps.now lines.old }
    requires small { IfSome small.now (Suits (echo_with channels gains.0 gains.1 taps.now)) }
    requires bound { count ≤ 2 ^ 56 }
    requires samples { length samples.old ≡ count * channels }
    ensures lines { lines.new ≡ series_lines_after channels lines.old (pieces channels count samples.old) }
    ensures frames { SendsThrough (echo_with channels gains.0 gains.1 taps.now) lines.old channels count samples.old samples.new }
    ensures clips { result ≡ clips_through (echo_with channels gains.0 gains.1 taps.now) lines.old channels count samples.old }
    ensures bound { result ≤ count * 16 }
    ensures sound { (came : ℕ) → AreEchoLines channels came taps.now lines.old → AreEchoLines channels (came + count) taps.now lines.new }
{
    let mut clips = 0;
    'frames: for turn in 0..count {
        let from = turn * channels;
        let frame = &mut samples[from..from + channels];
        clips += echo_over(lines, taps, small, channels, (gains.0, gains.1), frame);
    }
    clips
}

/// Sends `count` frames through the lines, at once where there are few and none is an echo of another: writes the frames that
/// are given for them over them, and counts how many of their samples were clipped.
fn echo_frames(
    lines: &mut [WideLine],
    taps: &[(u64, Gain)],
    small: &Option<SmallWeights>,
    channels: usize,
    gains: (Gain, Gain),
    samples: &mut [i32],
    count: usize,
) -> u64
    requires arguments { IsEcho (echo_with channels gains.0 gains.1 taps.now) }
    requires taps { length lines.old ≡ length taps.now }
    requires lines { (came : ℕ) × AreEchoLines channels came taps.now lines.old }
    requires small { IfSome small.now (Suits (echo_with channels gains.0 gains.1 taps.now)) }
    requires bound { count ≤ 2 ^ 56 }
    requires samples { length samples.old ≡ count * channels }
    ensures lines { lines.new ≡ series_lines_after channels lines.old (pieces channels count samples.old) }
    ensures frames { SendsThrough (echo_with channels gains.0 gains.1 taps.now) lines.old channels count samples.old samples.new }
    ensures clips { result ≡ clips_through (echo_with channels gains.0 gains.1 taps.now) lines.old channels count samples.old }
    ensures bound { result ≤ count * 16 }
    ensures sound { (came : ℕ) → AreEchoLines channels came taps.now lines.old → AreEchoLines channels (came + count) taps.now lines.new }
{
    if let Some(small) = small {
        if samples.len() <= SAMPLES_OF_GROUP && are_late(taps, count) {
            return if samples.len() <= SAMPLES_OF_BATCH {
                echo_batch::<SAMPLES_OF_BATCH>(lines, small, channels, samples, count)
            } else {
                echo_batch::<SAMPLES_OF_GROUP>(lines, small, channels, samples, count)
            };
        }
    }
    echo_over_by_frames(lines, taps, small, channels, gains, samples, count)
}

/// Sends a frame through the lines: the frame that is given for it, and how many of its samples were clipped.
fn echoed(
    lines: &mut [WideLine],
    taps: &[(u64, Gain)],
    small: &Option<SmallWeights>,
    channels: usize,
    gains: (Gain, Gain),
    frame: Frame,
) -> (Frame, u64)
    requires arguments { IsEcho (echo_with channels gains.0 gains.1 taps.now) }
    requires frame { length frame ≡ channels }
    requires count { length lines.old ≡ length taps.now }
    requires lines { AreSeriesLines channels lines.old }
    requires late { HaveCapacity 1 lines.old }
    requires small { IfSome small.now (Suits (echo_with channels gains.0 gains.1 taps.now)) }
    ensures lines { lines.new ≡ lines_after channels lines.old frame (silence channels) }
    ensures frame { result.0 ≡ (frame_from_lines (echo_with channels gains.0 gains.1 taps.now) lines.old frame).samples }
    ensures clips { result.1 ≡ (frame_from_lines (echo_with channels gains.0 gains.1 taps.now) lines.old frame).clips }
    ensures bound { result.1 ≤ 16 }
    ensures fits { IsFrame result.0 × (length result.0 ≡ channels) }
{
    let mut out = frame.places();
    let clips = echo_over(lines, taps, small, channels, gains, &mut out[..channels]);
    let made = Frame::of_first(channels, out);
    let _count = made.channels();
    (made, clips)
}

/// A line for each echo, with no frame.
fn empty_lines(
    alloc: Global,
    channels: usize,
    taps: &[(u64, Gain)],
) -> Result<Vec<WideLine>, AllocError>
    requires channels { IsChannelCount channels }
    requires delays { All (λ e. e.0 ≤ 2 ^ 28) taps.now }
    ensures { IfOk result (λ v. v.items ≡ map (λ e. empty channels e.0) taps.now) }
{
    let mut lines = Vec::new(alloc);
    'taps: for echo in taps {
        let line = WideLine::new(alloc, channels, echo.0 as usize)?;
        lines.push(line)?;
    }
    Ok(lines)
}

/// How many frames the lines hold.
fn held_in(lines: &[WideLine]) -> u64
    requires { length (frames_of_lines lines.now) ≤ 2 ^ 32 }
    ensures { result ≡ length (frames_of_lines lines.now) }
{
    let mut count = 0;
    'lines: for line in lines {
        count += line.len() as u64;
    }
    count
}

/// The frame at a place, counted from the first line's oldest one.
fn stored_in(lines: &[WideLine], j: usize) -> Option<WideFrame>
    ensures { result ≡ slice_get (frames_of_lines lines.now) j }
{
    let mut place = j;
    'lines: for line in lines {
        let count = line.len();
        if place < count {
            return line.get(place);
        }
        place -= count;
    }
    None
}

impl Echos {
    /// The stage for frames of 1 to 16 channels, with 1 to 7 echoes, each with its delay in frames, at least 1, and its
    /// decay. Gain-in and the decays are at most 1, gain-out is at most 1000. Its lines together hold as many frames as the
    /// delays have, at most `2^28`; AllocError where memory for them is refused.
    pub fn new(
        alloc: Global,
        channels: usize,
        gain_in: Gain,
        gain_out: Gain,
        taps: &[(u64, Gain)],
    ) -> Result<Echos, AllocError>
        requires arguments { IsEcho (echo_with channels gain_in gain_out taps.now) }
        requires some_tap { 1 ≤ length taps.now }
        requires lines { sum_of_delays taps.now ≤ 2 ^ 28 }
        ensures { IfOk result (IsNew echos_acts (echo_with channels gain_in gain_out taps.now)) }
    {
        let small = small_of(gain_in, gain_out, taps, MAX_ECHOS_WEIGHT);
        let lines = empty_lines(alloc, channels, taps)?;
        let taps = copied(alloc, taps)?;
        Ok(Echos {
            core: StageCore::new(),
            channels,
            gain_in,
            gain_out,
            taps,
            small,
            lines,
            tail: 0,
        })
    }
}

/// Whether a stage whose delays have the sum `whole`, and that stores `stored` frames, can have counted these numbers.
fn are_counts(whole: u64, stored: usize, numbers: &TailNumbers) -> bool
    requires { whole ≤ 2 ^ 28 }
    ensures { result ≡ true ↔ AreEchosCounts whole stored numbers.now }
{
    let CoreNumbers {
        taken,
        given,
        ended,
        pending_count,
        ..
    } = numbers.core;
    let tail = numbers.tail;
    if !numbers.core.are_valid(MAX_CHANNELS as u64) || numbers.stored != stored as u64 {
        return false;
    }
    if pending_count > numbers.stored || (ended == 0 && tail != 0) {
        return false;
    }
    let made = taken + ended * whole;
    given <= made && pending_count <= made - given && tail == made - given - pending_count
}

impl Echos {
    /// The stage that stored these frames and counted these numbers, with the arguments of `new`: whichever stage of these
    /// arguments they came from, that stage is restored, unless memory is refused. BadSnapshot where there is no such stage,
    /// Memory where an allocation was refused.
    pub fn thaw(
        alloc: Global,
        channels: usize,
        gain_in: Gain,
        gain_out: Gain,
        taps: &[(u64, Gain)],
        frames: &[WideFrame],
        numbers: &[u64; 8],
    ) -> Result<Echos, ThawFault>
        requires arguments { IsEcho (echo_with channels gain_in gain_out taps.now) }
        requires some_tap { 1 ≤ length taps.now }
        requires lines { sum_of_delays taps.now ≤ 2 ^ 28 }
        ensures recipe { IfOk result (λ t. echos_acts.recipe t ≡ echo_with channels gain_in gain_out taps.now) }
        ensures frozen { IfOk result (λ t. Freezes echos_acts t frames.now numbers.now) }
        ensures thawed { RestoresEchos (echo_with channels gain_in gain_out taps.now) frames.now numbers.now result }
        ensures named { (result ≡ Err ThawFault.WrongPlan) → ⊥ }
    {
        let numbers = TailNumbers::of(numbers);
        if !are_counts(total_delay(taps), frames.len(), &numbers) {
            return Err(ThawFault::BadSnapshot);
        }
        let core = numbers.core;
        let small = small_of(gain_in, gain_out, taps, MAX_ECHOS_WEIGHT);
        let came = core.given + core.pending_count;
        let (lines, pending) = thawed_series_and_pending(
            alloc,
            channels,
            came,
            taps,
            frames,
            core.pending_count,
        )?;
        let Ok(taps) = copied(alloc, taps) else {
            return Err(ThawFault::Memory);
        };
        Ok(Echos {
            core: core.restored(pending),
            channels,
            gain_in,
            gain_out,
            taps,
            small,
            lines,
            tail: numbers.tail,
        })
    }
}

impl Stage for Echos {
    ghost use Rattle.fx_frame.specs.Tapped.{tap_rises};

    ghost Recipe = { EchoArguments };

    ghost acts = { echos_acts };

    ghost sound = { λ s. IsEchos s };

    ghost rises = { λ r. tap_rises (sum_of_delays r.echo.taps) };

    fn take(&mut self, frame: Frame) {
        let gains = (self.gain_in, self.gain_out);
        let _count = frame.channels();
        let (out, clips) = echoed(
            &mut self.lines,
            &self.taps,
            &self.small,
            self.channels,
            gains,
            frame,
        );
        self.core.offer(out, clips);
    }

    fn end(&mut self) {
        self.tail = total_delay(&self.taps);
        self.core.end();
    }

    fn give(&mut self) -> Option<Frame> {
        if self.core.is_pending() {
            return self.core.give();
        }
        if self.tail == 0 {
            return None;
        }
        let gains = (self.gain_in, self.gain_out);
        let silent_frame = Frame::silence(self.channels);
        let (out, clips) = echoed(
            &mut self.lines,
            &self.taps,
            &self.small,
            self.channels,
            gains,
            silent_frame,
        );
        self.tail -= 1;
        self.core.give_made(clips);
        Some(out)
    }

    fn is_dry(&self) -> bool {
        !self.core.is_pending() && self.tail == 0
    }

    #[inline(always)]
    fn counter_values(&self) -> Counters {
        self.core.counter_values()
    }

    fn is_spent(&self) -> bool {
        false
    }

    fn held(&self) -> u64 {
        held_in(&self.lines) + u64::from(self.core.is_pending())
    }

    fn hold(&self) -> u64 {
        total_delay(&self.taps) + 1
    }

    fn in_channels(&self) -> usize {
        self.channels
    }

    fn out_channels(&self) -> usize {
        self.channels
    }

    fn state_counters(&self) -> [u64; 3] {
        [
            self.tail,
            u64::from(self.core.is_pending()),
            self.core.pending_clips(),
        ]
    }

    fn stored(&self, j: usize) -> WideFrame {
        if let Some(frame) = stored_in(&self.lines, j) {
            return frame;
        }
        stored_pending(self.core.pending(), 0)
    }
}

impl Feeds for Echos {
    fn feed(&mut self, input: &[i32], output: &mut [i32]) -> Passed {
        if self.core.is_pending() || self.core.is_ended() {
            return feed_by_frames(self, input, output);
        }
        let Some(small) = &self.small else {
            return feed_by_frames(self, input, output);
        };
        let channels = self.channels;
        let count = (input.len() / channels).min(output.len() / channels);
        let lines = &mut self.lines;
        let clipped = echo_many(lines, &self.taps, small, channels, input, output, count);
        self.core.pass(count, clipped);
        Passed {
            taken: count,
            given: count,
        }
    }

    fn pass_samples(&mut self, samples: &mut [i32]) -> Passing {
        let gains = (self.gain_in, self.gain_out);
        let clips = echo_over(
            &mut self.lines,
            &self.taps,
            &self.small,
            self.channels,
            gains,
            samples,
        );
        self.core.pass(1, clips);
        Passing::Through
    }

    fn pass_frames(&mut self, count: usize, samples: &mut [i32]) {
        let gains = (self.gain_in, self.gain_out);
        let clips = echo_frames(
            &mut self.lines,
            &self.taps,
            &self.small,
            self.channels,
            gains,
            samples,
            count,
        );
        self.core.pass(count, clips);
    }

    fn forecast(&self) -> Forecast {
        Forecast::endless(u64::MAX)
    }
}
