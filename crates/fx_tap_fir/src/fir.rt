//! The effect `fir` of sox(1): each sample is a sum of the samples around it, times the coefficients.
ghost use Rattle.std.specs.Prelude.{◌≡◌, ◌↔◌, true, ◌+◌, ◌*◌, ◌^◌, ◌<◌, ◌≤◌, ◌++◌, length, reverse, drop, pos, All, IfOk, Err, cond, min, nat_eq};
ghost use Rattle.fx_frame_base.specs.Frame.{IsChannelCount, IsFrame};
ghost use Rattle.fx_frame_line.specs.Line.{channel_of, pushed, pushed_all};
ghost use Rattle.fx_frame_base.specs.Lists.{pieces};
ghost use Rattle.fx_frame_base.specs.Stage.{Freezes, IsNew};
ghost use Rattle.fx_tap_fir.specs.Fir.{FirArguments, centre, filtered_frame, filtered_next, filtered_sample, fir_with};
ghost use Rattle.fx_tap_fir.specs.FirState.{AreFirCounts, FirState, IsFir, RestoresFir, fir_acts, fir_taps};
ghost use Rattle.fx_frame.specs.Tapped.{MakesBlock, clips_in_block};

pub mod words;

use crate::channels::take_channel;
use crate::kernel::Kernel;
use crate::reduced::SUMS_OF_PIECE;
use fx_fixed::Gain;
use fx_frame::frozen::{stored_in, thawed_line_and_pending};
use fx_frame::groups::{SAMPLES_OF_BATCH, SAMPLES_OF_GROUP};
use fx_frame::numbers::{CoreNumbers, TailNumbers};
use fx_frame::{
    Counters, Feeds, Forecast, Frame, Line, Passed, Passing, Stage, ThawFault, WideFrame,
};
use fx_frame_base::StageCore;
use fx_frame_base::feed::{feed_by_frames, frame_at};
use fx_frame_base::frame::MAX_CHANNELS;
use std::alloc::{AllocError, Global};
use std::marker::Model;

/// The maximum number of coefficients that take a small window, which is cleared in less time.
const MAX_SMALL_TAPS: usize = 64;

/// The sums that a transform of 2,048 numbers gives by 1,024 coefficients. More of them take a larger buffer, which is cleared
/// in more time.
const SUMS_OF_HALF: usize = 1024;

/// The sums of a piece by transforms of 2,048 numbers, at most: those by 160 coefficients. Fewer take no transforms.
const SUMS_OF_TRANSFORM: usize = 1888;

/// The places of the window of such a piece.
const PLACES_OF_TRANSFORM: usize = 2047;

/// The frames of a block of 4,096 bytes, of one channel with 16 bits.
const SUMS_OF_MONO: usize = 2048;

/// The places of the window of such a block, however many coefficients there are.
const PLACES_OF_MONO: usize = 1023 + SUMS_OF_MONO;

/// The sums of a piece by transforms of 4,096 numbers, at most: those by 512 coefficients. Fewer take smaller transforms.
const SUMS_OF_LARGE: usize = 3584;

/// The places of the window of such a piece.
const PLACES_OF_LARGE: usize = 4095;

/// The places of the window of a block where there are few coefficients.
const PLACES_OF_BLOCK: usize = MAX_SMALL_TAPS + SUMS_OF_PIECE;

/// The places of the window of a short group where there are few coefficients.
const PLACES_OF_BATCH: usize = MAX_SMALL_TAPS + SAMPLES_OF_BATCH;

/// The places of the window of a group where there are few coefficients.
const PLACES_OF_GROUP: usize = MAX_SMALL_TAPS + SAMPLES_OF_GROUP;

/// The places of the window of a group, however many coefficients there are.
const MAX_PLACES_OF_GROUP: usize = 1024 + SAMPLES_OF_GROUP;

/// The stage of `fir`: each sample is the sum of the samples around it times the coefficients, rounded once.
#[derive(Drop)]
pub struct Fir {
    core: StageCore,
    channels: usize,
    kernel: Kernel,
    line: Line,
    tail: usize,
}

impl Model for Fir {
    ghost use Rattle.fx_tap_fir.specs.FirState.{FirState, IsFir};

    ghost Value = { FirState };

    ghost view = { λ s. record { channels = s.channels; backwards = s.kernel; line = s.line; core = s.core; tail = s.tail } };

    ghost invariant = { λ s. IsFir (record { channels = s.channels; backwards = s.kernel; line = s.line; core = s.core; tail = s.tail }) };
}

/// Fills the window with the samples of a channel: those of the line, the oldest first, and the latest.
fn fill_window(line: &Line, latest: &[Frame], channel: usize, window: &mut [i32])
    requires channel { channel < line.now.channels }
    requires latest { length latest.now ≤ 1 }
    requires fits { All (λ f. length f ≡ line.now.channels) latest.now }
    requires len { length window.old ≡ length line.now.items + length latest.now }
    ensures { window.new ≡ channel_of (line.now.items ++ latest.now) channel (pos 0) }
{
    let held = line.len();
    line.channel_into(channel, &mut window[..held]);
    let Some(frame) = latest.first() else {
        return;
    };
    window[held] = frame.get(channel);
}

/// The sample of a channel whose sum goes from one place on backwards, among the frames of the line and the latest. The
/// window has a place for each of them.
#[inline(always)]
fn filtered_within(
    line: &Line,
    latest: &[Frame],
    channel: usize,
    kernel: &Kernel,
    place: usize,
    window: &mut [i32],
) -> (i32, bool)
    requires channel { channel < line.now.channels }
    requires latest { length latest.now ≤ 1 }
    requires fits { All (λ f. length f ≡ line.now.channels) latest.now }
    requires place { place ≤ 2 ^ 20 }
    requires window { length window.old ≡ length line.now.items + length latest.now }
    requires end { length (line.now.items ++ latest.now) ≤ place + 1 }
    requires start { place + 1 ≤ length kernel.now + length (line.now.items ++ latest.now) }
    ensures { result ≡ filtered_sample (reverse kernel.now) (line.now.items ++ latest.now) place channel }
{
    fill_window(line, latest, channel, window);
    kernel.weigh(window, place)
}

/// The same for windows of up to 1024 places, which are cleared first: a short one takes less time.
fn filtered_sample(
    line: &Line,
    latest: &[Frame],
    channel: usize,
    kernel: &Kernel,
    place: usize,
) -> (i32, bool)
    requires channel { channel < line.now.channels }
    requires latest { length latest.now ≤ 1 }
    requires fits { All (λ f. length f ≡ line.now.channels) latest.now }
    requires place { place ≤ 2 ^ 20 }
    requires free { length line.now.items + 1 ≤ 1024 }
    requires end { length (line.now.items ++ latest.now) ≤ place + 1 }
    requires start { place + 1 ≤ length kernel.now + length (line.now.items ++ latest.now) }
    ensures { result ≡ filtered_sample (reverse kernel.now) (line.now.items ++ latest.now) place channel }
{
    let count = line.len() + latest.len();
    if count <= 64 {
        let mut window = [0; 64];
        let window = &mut window[..count];
        return filtered_within(line, latest, channel, kernel, place, window);
    }
    let mut window = [0; 1024];
    filtered_within(line, latest, channel, kernel, place, &mut window[..count])
}

/// Writes the samples of the frame whose sums go from one place on backwards, and counts how many were clipped.
fn filtered_into(
    line: &Line,
    latest: &[Frame],
    channels: usize,
    kernel: &Kernel,
    place: usize,
    out: &mut [i32],
) -> u64
    requires channels { channels ≡ line.now.channels }
    requires some { IsChannelCount channels }
    requires latest { length latest.now ≤ 1 }
    requires fits { All (λ f. length f ≡ line.now.channels) latest.now }
    requires place { place ≤ 2 ^ 20 }
    requires free { length line.now.items + 1 ≤ 1024 }
    requires end { length (line.now.items ++ latest.now) ≤ place + 1 }
    requires start { place + 1 ≤ length kernel.now + length (line.now.items ++ latest.now) }
    requires out { length out.old ≡ channels }
    ensures frame { out.new ≡ (filtered_frame (fir_with channels (reverse kernel.now)) (line.now.items ++ latest.now) place).samples }
    ensures clips { result ≡ (filtered_frame (fir_with channels (reverse kernel.now)) (line.now.items ++ latest.now) place).clips }
    ensures bound { result ≤ 16 }
{
    let mut clips = 0;
    'channels: for channel in 0..channels {
        let (sample, is_clipped) = filtered_sample(line, latest, channel, kernel, place);
        out[channel] = sample;
        clips += u64::from(is_clipped);
    }
    clips
}

/// The frame whose sums go from one place on backwards, and how many of its samples were clipped.
fn filtered_frame(
    line: &Line,
    latest: &[Frame],
    channels: usize,
    kernel: &Kernel,
    place: usize,
) -> (Frame, u64)
    requires channels { channels ≡ line.now.channels }
    requires some { IsChannelCount channels }
    requires latest { length latest.now ≤ 1 }
    requires fits { All (λ f. length f ≡ line.now.channels) latest.now }
    requires place { place ≤ 2 ^ 20 }
    requires free { length line.now.items + 1 ≤ 1024 }
    requires end { length (line.now.items ++ latest.now) ≤ place + 1 }
    requires start { place + 1 ≤ length kernel.now + length (line.now.items ++ latest.now) }
    ensures frame { result.0 ≡ (filtered_frame (fir_with channels (reverse kernel.now)) (line.now.items ++ latest.now) place).samples }
    ensures clips { result.1 ≡ (filtered_frame (fir_with channels (reverse kernel.now)) (line.now.items ++ latest.now) place).clips }
    ensures bound { result.1 ≤ 16 }
    ensures fits { IsFrame result.0 × (length result.0 ≡ channels) }
{
    let mut samples = [0; MAX_CHANNELS];
    let out = &mut samples[..channels];
    let clips = filtered_into(line, latest, channels, kernel, place, out);
    let out = Frame::of_first(channels, samples);
    let _channels = out.channels();
    (out, clips)
}

/// How many samples that come after a sample are in its sum, with `count` coefficients.
fn centre_of(count: usize) -> usize
    requires { 1 ≤ count }
    ensures { result ≡ centre count }
{
    (count - 1) / 2
}

/// How many of the frames taken are not made yet: none after the end.
fn due_late(ended: u64, taken: u64, centre: u64) -> u64
    ensures { result ≡ cond (nat_eq ended 0) (min taken centre) 0 }
{
    if ended != 0 {
        return 0;
    }
    taken.min(centre)
}

/// Fills the window with the samples of a channel: those of the line, the oldest first, and those of frames that come after
/// them.
fn fill_places(
    line: &Line,
    channels: usize,
    channel: usize,
    count: usize,
    frames: &[i32],
    window: &mut [i32],
)
    requires channels { channels ≡ line.now.channels }
    requires channel { channel < channels }
    requires window { length window.old ≡ length line.now.items + count }
    requires frames { count * channels ≤ length frames.now }
    ensures { window.new ≡ channel_of (line.now.items ++ pieces channels count frames.now) channel (pos 0) }
{
    let held = line.len();
    line.channel_into(channel, &mut window[..held]);
    take_channel(frames, channels, channel, &mut window[held..]);
}

/// Filters `count` frames, at most `SUMS`, that come after those of a full line, and counts how many samples were clipped.
/// The line and they fit `PLACES`.
fn filter_within<const PLACES: usize, const SUMS: usize>(
    kernel: &Kernel,
    line: &Line,
    channels: usize,
    count: usize,
    frames: &[i32],
    out: &mut [i32],
) -> u64
    requires channels { channels ≡ line.now.channels }
    requires full { length line.now.items + 1 ≡ length kernel.now }
    requires sizes { (PLACES ≤ 4096) × (SUMS ≤ 3584) }
    requires count { count ≤ SUMS }
    requires places { length line.now.items + count ≤ PLACES }
    requires frames { length frames.now ≡ count * channels }
    requires out { length out.old ≡ count * channels }
    ensures frames { MakesBlock fir_taps (fir_with channels (reverse kernel.now)) line.now.items count frames.now out.new }
    ensures clips { result ≡ clips_in_block fir_taps (fir_with channels (reverse kernel.now)) line.now.items count frames.now }
    ensures bound { result ≤ 16 * count }
{
    let mut window = [0; PLACES];
    let window = &mut window[..line.len() + count];
    let mut sums = [0; SUMS];
    let sums = &mut sums[..count];
    let mut clips = 0;
    'channels: for channel in 0..channels {
        fill_places(line, channels, channel, count, frames, window);
        clips += kernel.filter_channel(window, sums, channels, channel, out);
    }
    clips
}

/// What `filter_piece` does for more frames than its small buffers take. The fewer they are, the smaller are the buffers, which
/// are cleared first.
// Stack space for the large buffers is used only where this is called.
#[inline(never)]
fn filter_large_piece(
    kernel: &Kernel,
    line: &Line,
    channels: usize,
    count: usize,
    frames: &[i32],
    out: &mut [i32],
) -> u64
    requires channels { channels ≡ line.now.channels }
    requires full { length line.now.items + 1 ≡ length kernel.now }
    requires taps { length kernel.now ≤ 1024 }
    requires count { count ≤ 3584 }
    requires fits { length kernel.now + count ≤ 4096 }
    requires frames { length frames.now ≡ count * channels }
    requires out { length out.old ≡ count * channels }
    ensures frames { MakesBlock fir_taps (fir_with channels (reverse kernel.now)) line.now.items count frames.now out.new }
    ensures clips { result ≡ clips_in_block fir_taps (fir_with channels (reverse kernel.now)) line.now.items count frames.now }
    ensures bound { result ≤ 16 * count }
{
    if count > SUMS_OF_MONO {
        return filter_within::<PLACES_OF_LARGE, SUMS_OF_LARGE>(
            kernel, line, channels, count, frames, out,
        );
    }
    if count > SUMS_OF_TRANSFORM || line.len() + count > PLACES_OF_TRANSFORM {
        return filter_within::<PLACES_OF_MONO, SUMS_OF_MONO>(
            kernel, line, channels, count, frames, out,
        );
    }
    if count > SUMS_OF_HALF {
        return filter_within::<PLACES_OF_TRANSFORM, SUMS_OF_TRANSFORM>(
            kernel, line, channels, count, frames, out,
        );
    }
    filter_within::<PLACES_OF_TRANSFORM, SUMS_OF_HALF>(kernel, line, channels, count, frames, out)
}

/// Filters `count` frames, at most as many as the kernel makes at once, that come after those of a full line, and counts
/// how many samples were clipped. Few frames take a smaller buffer, which is cleared first.
fn filter_piece(
    kernel: &Kernel,
    line: &Line,
    channels: usize,
    count: usize,
    frames: &[i32],
    out: &mut [i32],
) -> u64
    requires channels { channels ≡ line.now.channels }
    requires full { length line.now.items + 1 ≡ length kernel.now }
    requires taps { length kernel.now ≤ 1024 }
    requires count { count ≤ 3584 }
    requires fits { length kernel.now + count ≤ 4096 }
    requires frames { length frames.now ≡ count * channels }
    requires out { length out.old ≡ count * channels }
    ensures frames { MakesBlock fir_taps (fir_with channels (reverse kernel.now)) line.now.items count frames.now out.new }
    ensures clips { result ≡ clips_in_block fir_taps (fir_with channels (reverse kernel.now)) line.now.items count frames.now }
    ensures bound { result ≤ 16 * count }
{
    if count > SUMS_OF_PIECE {
        return filter_large_piece(kernel, line, channels, count, frames, out);
    }
    if kernel.len() <= MAX_SMALL_TAPS {
        return filter_within::<PLACES_OF_BLOCK, SUMS_OF_PIECE>(
            kernel, line, channels, count, frames, out,
        );
    }
    filter_within::<1279, SUMS_OF_PIECE>(kernel, line, channels, count, frames, out)
}

/// Filters `count` of the frames at the front of the input, which come after those of a full line, to the front of the output,
/// and counts their clips. They go through the line.
fn filter_frames(
    kernel: &Kernel,
    line: &mut Line,
    channels: usize,
    count: usize,
    input: &[i32],
    output: &mut [i32],
) -> u64
    requires channels { channels ≡ line.old.channels }
    requires full { length line.old.items ≡ line.old.capacity }
    requires capacity { line.old.capacity + 1 ≡ length kernel.now }
    requires taps { length kernel.now ≤ 1024 }
    requires bound { count ≤ 2 ^ 56 }
    requires input { count * channels ≤ length input.now }
    requires output { count * channels ≤ length output.old }
    ensures frames { MakesBlock fir_taps (fir_with channels (reverse kernel.now)) line.old.items count input.now output.new }
    ensures rest_unchanged { drop (count * channels) output.new ≡ drop (count * channels) output.old }
    ensures clips { result ≡ clips_in_block fir_taps (fir_with channels (reverse kernel.now)) line.old.items count input.now }
    ensures bound { result ≤ 16 * count }
    ensures line { line.new
        ≡ record line.old { items = pushed_all line.old (pieces channels count input.now) } }
{
    let maximum = kernel.max_at_once();
    let mut done = 0;
    let mut clips = 0;
    'pieces: while done < count {
        let piece = (count - done).min(maximum);
        let from = done * channels;
        let to = from + piece * channels;
        let frames = &input[from..to];
        clips += filter_piece(kernel, line, channels, piece, frames, &mut output[from..to]);
        line.push_frames(frames, piece);
        let _held = line.len();
        done += piece;
    }
    clips
}

/// Filters a frame in its place, which comes after those of the line, and counts how many of its samples were clipped. It
/// goes through the line.
#[inline(always)]
fn filter_and_push(kernel: &Kernel, line: &mut Line, channels: usize, samples: &mut [i32]) -> u64
    requires channels { channels ≡ line.old.channels }
    requires some { IsChannelCount channels }
    requires free { length line.old.items + 1 ≤ 1024 }
    requires samples { length samples.old ≡ channels }
    ensures frame { samples.new ≡ (filtered_next (fir_with channels (reverse kernel.now)) line.old.items samples.old).samples }
    ensures clips { result ≡ (filtered_next (fir_with channels (reverse kernel.now)) line.old.items samples.old).clips }
    ensures bound { result ≤ 16 }
    ensures line { line.new ≡ record line.old { items = pushed line.old samples.old } }
{
    let came = frame_at(samples, 0, channels);
    let held = line.len();
    let clips = filtered_into(line, &[came], channels, kernel, held, samples);
    line.push(came);
    clips
}

/// What `filter_batch` does, for any line and any number of frames, one frame at a time.
fn filter_by_frames(
    kernel: &Kernel,
    line: &mut Line,
    channels: usize,
    count: usize,
    samples: &mut [i32],
) -> u64
    requires channels { channels ≡ line.old.channels }
    requires some { IsChannelCount channels }
    requires capacity { line.old.capacity + 1 ≡ length kernel.now }
    requires taps { length kernel.now ≤ 1024 }
    requires bound { count ≤ 2 ^ 56 }
    requires samples { length samples.old ≡ count * channels }
    ensures frames { MakesBlock fir_taps (fir_with channels (reverse kernel.now)) line.old.items count samples.old samples.new }
    ensures clips { result ≡ clips_in_block fir_taps (fir_with channels (reverse kernel.now)) line.old.items count samples.old }
    ensures bound { result ≤ 16 * count }
    ensures line { line.new
        ≡ record line.old { items = pushed_all line.old (pieces channels count samples.old) } }
{
    let _held = line.len();
    let mut from = 0;
    let mut clips = 0;
    'frames: for _turn in 0..count {
        clips += filter_and_push(kernel, line, channels, &mut samples[from..from + channels]);
        from += channels;
    }
    clips
}

/// What `filter_batch` does for a full line and at most `SAMPLES` samples, all frames at once. The line and they fit `PLACES`.
fn filter_group<const PLACES: usize, const SAMPLES: usize>(
    kernel: &Kernel,
    line: &mut Line,
    channels: usize,
    count: usize,
    samples: &mut [i32],
) -> u64
    requires channels { channels ≡ line.old.channels }
    requires some { 1 ≤ channels }
    requires full { length line.old.items + 1 ≡ length kernel.now }
    requires sizes { (PLACES ≤ 2048) × (SAMPLES ≤ 1920) }
    requires free { length samples.old ≤ SAMPLES }
    requires places { length line.old.items + count ≤ PLACES }
    requires samples { length samples.old ≡ count * channels }
    ensures frames { MakesBlock fir_taps (fir_with channels (reverse kernel.now)) line.old.items count samples.old samples.new }
    ensures clips { result ≡ clips_in_block fir_taps (fir_with channels (reverse kernel.now)) line.old.items count samples.old }
    ensures bound { result ≤ 16 * count }
    ensures line { line.new
        ≡ record line.old { items = pushed_all line.old (pieces channels count samples.old) } }
{
    let mut frames = [0; SAMPLES];
    let frames = &mut frames[..samples.len()];
    frames.copy_from_slice(samples);
    let clips = filter_within::<PLACES, SAMPLES>(kernel, line, channels, count, frames, samples);
    line.push_frames(frames, count);
    clips
}

/// Filters `count` frames in their places, which come after those of the line, and counts how many samples were clipped. They
/// go through the line. Few coefficients and few samples take small buffers, which are cleared first.
// Stack space for the windows is used only where this is called: other effects share the call of a batch.
#[inline(never)]
fn filter_batch(
    kernel: &Kernel,
    line: &mut Line,
    channels: usize,
    count: usize,
    samples: &mut [i32],
) -> u64
    requires channels { channels ≡ line.old.channels }
    requires some { IsChannelCount channels }
    requires capacity { line.old.capacity + 1 ≡ length kernel.now }
    requires taps { length kernel.now ≤ 1024 }
    requires bound { count ≤ 2 ^ 56 }
    requires samples { length samples.old ≡ count * channels }
    ensures frames { MakesBlock fir_taps (fir_with channels (reverse kernel.now)) line.old.items count samples.old samples.new }
    ensures clips { result ≡ clips_in_block fir_taps (fir_with channels (reverse kernel.now)) line.old.items count samples.old }
    ensures bound { result ≤ 16 * count }
    ensures line { line.new
        ≡ record line.old { items = pushed_all line.old (pieces channels count samples.old) } }
{
    if line.len() < line.capacity() || samples.len() > SAMPLES_OF_GROUP {
        return filter_by_frames(kernel, line, channels, count, samples);
    }
    if kernel.len() > MAX_SMALL_TAPS {
        return filter_group::<MAX_PLACES_OF_GROUP, SAMPLES_OF_GROUP>(
            kernel, line, channels, count, samples,
        );
    }
    if samples.len() > SAMPLES_OF_BATCH {
        return filter_group::<PLACES_OF_GROUP, SAMPLES_OF_GROUP>(
            kernel, line, channels, count, samples,
        );
    }
    filter_group::<PLACES_OF_BATCH, SAMPLES_OF_BATCH>(kernel, line, channels, count, samples)
}

impl Fir {
    /// The stage for frames of 1 to 16 channels, with 1 to 1024 coefficients. It holds one frame fewer than it has
    /// coefficients; AllocError where memory for them is refused.
    pub fn new(alloc: Global, channels: usize, coefficients: &[Gain]) -> Result<Fir, AllocError>
        requires channels { IsChannelCount channels }
        requires coefficients { (1 ≤ length coefficients.now) × (length coefficients.now ≤ 1024) }
        ensures { IfOk result (IsNew fir_acts (fir_with channels coefficients.now)) }
    {
        let kernel = Kernel::of(alloc, coefficients)?;
        let line = Line::new(alloc, channels, coefficients.len() - 1)?;
        Ok(Fir {
            core: StageCore::new(),
            channels,
            kernel,
            line,
            tail: 0,
        })
    }
}

/// Whether a stage with `count` coefficients that stores `stored` frames can have counted these numbers.
fn are_counts(count: usize, stored: usize, numbers: &TailNumbers) -> bool
    requires { (1 ≤ count) × (count ≤ 1024) }
    ensures { result ≡ true ↔ AreFirCounts count stored numbers.now }
{
    let CoreNumbers {
        taken,
        given,
        ended,
        pending_count,
        ..
    } = numbers.core;
    let held = numbers.stored;
    let tail = numbers.tail;
    let centre = centre_of(count) as u64;
    if !numbers.core.are_valid(MAX_CHANNELS as u64) || held != stored as u64 {
        return false;
    }
    if pending_count > held || held - pending_count != taken.min(count as u64 - 1) {
        return false;
    }
    let made = taken - due_late(ended, taken, centre);
    if given > made || pending_count > made - given || tail != made - given - pending_count {
        return false;
    }
    tail <= centre && tail <= held - pending_count && (ended != 0 || tail == 0)
}

impl Fir {
    /// The stage that stored these frames and counted these numbers, with the arguments of `new`. BadSnapshot where there is
    /// none, Memory where an allocation was refused.
    pub fn thaw(
        alloc: Global,
        channels: usize,
        coefficients: &[Gain],
        frames: &[WideFrame],
        numbers: &[u64; 8],
    ) -> Result<Fir, ThawFault>
        requires channels { IsChannelCount channels }
        requires coefficients { (1 ≤ length coefficients.now) × (length coefficients.now ≤ 1024) }
        ensures recipe { IfOk result (λ t. fir_acts.recipe t ≡ fir_with channels coefficients.now) }
        ensures frozen { IfOk result (λ t. Freezes fir_acts t frames.now numbers.now) }
        ensures named { (result ≡ Err ThawFault.WrongPlan) → ⊥ }
        ensures thawed { RestoresFir (fir_with channels coefficients.now) frames.now numbers.now result }
    {
        let numbers = TailNumbers::of(numbers);
        if !are_counts(coefficients.len(), frames.len(), &numbers) {
            return Err(ThawFault::BadSnapshot);
        }
        let (line, pending) = match thawed_line_and_pending(
            alloc,
            channels,
            coefficients.len() - 1,
            frames,
            numbers.core.pending_count,
        ) {
            Ok(stored) => stored,
            Err(fault) => return Err(fault),
        };
        let Ok(kernel) = Kernel::of(alloc, coefficients) else {
            return Err(ThawFault::Memory);
        };
        Ok(Fir {
            core: numbers.core.restored(pending),
            channels,
            kernel,
            line,
            tail: numbers.tail as usize,
        })
    }
}

impl Stage for Fir {
    ghost use Rattle.fx_tap_fir.specs.Fir.{FirArguments};

    ghost Recipe = { FirArguments };

    ghost acts = { fir_acts };

    ghost sound = { λ s. IsFir s };

    ghost rises = { λ r m n h. h };

    fn take(&mut self, frame: Frame) {
        let held = self.line.len();
        if held < centre_of(self.kernel.len()) {
            self.line.push(frame);
            let _held = self.line.len();
            self.core.take();
            return;
        }
        let (out, clips) = filtered_frame(&self.line, &[frame], self.channels, &self.kernel, held);
        self.line.push(frame);
        let _held = self.line.len();
        self.core.offer(out, clips);
    }

    fn end(&mut self) {
        self.tail = self.line.len().min(centre_of(self.kernel.len()));
        self.core.end();
    }

    fn give(&mut self) -> Option<Frame> {
        if self.core.is_pending() {
            return self.core.give();
        }
        if self.tail == 0 {
            return None;
        }
        let place = self.line.len() - self.tail + centre_of(self.kernel.len());
        let (out, clips) = filtered_frame(&self.line, &[], self.channels, &self.kernel, place);
        self.tail -= 1;
        self.core.give_made(clips);
        Some(out)
    }

    fn is_dry(&self) -> bool {
        !self.core.is_pending() && self.tail == 0
    }

    #[inline(always)]
    fn counter_values(&self) -> Counters {
        self.core.counter_values()
    }

    fn is_spent(&self) -> bool {
        false
    }

    fn held(&self) -> u64 {
        self.line.len() as u64 + u64::from(self.core.is_pending())
    }

    fn hold(&self) -> u64 {
        self.line.capacity() as u64 + 1
    }

    fn in_channels(&self) -> usize {
        self.channels
    }

    fn out_channels(&self) -> usize {
        self.channels
    }

    fn state_counters(&self) -> [u64; 3] {
        [
            self.tail as u64,
            u64::from(self.core.is_pending()),
            self.core.pending_clips(),
        ]
    }

    fn stored(&self, j: usize) -> WideFrame {
        stored_in(&self.line, self.core.pending(), j)
    }
}

impl Feeds for Fir {
    fn feed(&mut self, input: &[i32], output: &mut [i32]) -> Passed {
        if self.core.is_pending()
            || self.core.is_ended()
            || self.line.len() < self.line.capacity()
        {
            return feed_by_frames(self, input, output);
        }
        let channels = self.channels;
        let count = (input.len() / channels).min(output.len() / channels);
        let clipped = filter_frames(&self.kernel, &mut self.line, channels, count, input, output);
        let _held = self.line.len();
        self.core.pass(count, clipped);
        Passed {
            taken: count,
            given: count,
        }
    }

    fn pass_samples(&mut self, samples: &mut [i32]) -> Passing {
        let came = frame_at(samples, 0, samples.len());
        let held = self.line.len();
        if held < centre_of(self.kernel.len()) {
            self.line.push(came);
            let _held = self.line.len();
            self.core.take();
            return Passing::Kept;
        }
        let latest = &[came];
        let channels = self.channels;
        let clips = filtered_into(&self.line, latest, channels, &self.kernel, held, samples);
        self.line.push(came);
        let _held = self.line.len();
        self.core.pass(1, clips);
        Passing::Through
    }

    fn pass_frames(&mut self, count: usize, samples: &mut [i32]) {
        let channels = self.channels;
        let clips = filter_batch(&self.kernel, &mut self.line, channels, count, samples);
        let _held = self.line.len();
        self.core.pass(count, clips);
    }

    fn forecast(&self) -> Forecast {
        if self.core.taken() < centre_of(self.kernel.len()) as u64 {
            return Forecast::endless(0);
        }
        Forecast::endless(u64::MAX)
    }
}
