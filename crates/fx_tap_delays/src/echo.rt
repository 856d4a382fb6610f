//! The effect `echo` of sox(1): earlier frames are added again, each with a decay.
ghost use Rattle.std.specs.Prelude.{◌≡◌, ◌<◌, ◌≤◌, ◌+◌, ◌*◌, ◌^◌, ◌++◌, ◌∷◌, [], ℕ, true, pos, ◌+ℤ◌, ◌*ℤ◌, length, slice_index_or, unsigned_abs, Err, IfOk, IfSome, map};
ghost use Rattle.std.proofs.Common.{rules};
ghost use Rattle.std.specs.List.{All};
ghost use Rattle.fx_fixed.specs.Extents.{largest};
ghost use Rattle.fx_tap_delays.specs.DelayExtents.{tap_delay};
ghost use Rattle.fx_frame_line.specs.Line.{pushed, pushed_all};
ghost use Rattle.fx_frame_base.specs.Lists.{pieces};
ghost use Rattle.fx_frame_base.specs.Stage.{Freezes, IsNew};
ghost use Rattle.fx_tap_delays.specs.Echo.{EchoArguments, IsEcho, echo_sum, echoed_frame, echo_with};
ghost use Rattle.fx_tap_delays.specs.EchoState.{echo_acts, echo_taps, RestoresEcho};
ghost use Rattle.fx_tap_sums.specs.Weights.{AreSmall};
ghost use Rattle.fx_tap_delays.specs.EchoWeights.{weighed, one_echo_frame, AreEchoSums, SoundsAsEcho};
ghost use Rattle.fx_tap_delays.specs.Near.{taps-near};
ghost use Rattle.fx_tap_delays.specs.Sums.{AddsToEach};
ghost use Rattle.fx_tap_delays.specs.Tapping.{CountsClips, IsLineFor, history_after};
ghost use Rattle.fx_frame.specs.Tapped.{MakesBlock, clips_in_block};
ghost use Rattle.fx_frame_base.specs.Frame.{IsChannelCount};

pub mod words;

use crate::delay::delay_over;
use crate::extents::max_tap_delay;
use crate::sums::{add_scaled, round_sums, rounded_sums, sums_into};
use crate::tapped::{
    Tapped, Tapping, TapsMany, sample, tap_and_push, tap_by_frames, tap_over_by_frames,
};
use fx_fixed::{Gain, UNIT};
use fx_frame::groups::{SAMPLES_OF_BATCH, SAMPLES_OF_GROUP};
use fx_frame::{Frame, Line, ThawFault, WideFrame};
use fx_frame_base::feed::{copy_samples, frame_at};
use fx_tap_sums::inner::{Sums, add_products, product};
use fx_tap_sums::weights::{SmallWeights, small_of};
use std::alloc::{AllocError, Global};
use std::marker::Model;

/// The greatest weight of small ones: of eight such products of samples the sum fits 61 bits.
const MAX_ECHO_WEIGHT: u32 = 1 << 27;

/// What an `echo` is made with, and the same in lowest terms, where these are small.
#[derive(Drop)]
pub struct PreparedEcho {
    channels: usize,
    gain_in: Gain,
    gain_out: Gain,
    taps: Vec<(u64, Gain)>,
    small: Option<SmallWeights>,
}

impl Model for PreparedEcho {
    ghost use Rattle.std.specs.Prelude.{IfSome};
    ghost use Rattle.fx_tap_delays.specs.Echo.{EchoArguments, IsEcho, echo_with};
    ghost use Rattle.fx_tap_sums.specs.Weights.{SoundsAs};

    ghost Value = { EchoArguments };

    ghost view = { λ s. echo_with s.channels s.gain_in s.gain_out s.taps.items };

    ghost invariant = { λ s. IsEcho (echo_with s.channels s.gain_in s.gain_out s.taps.items) × IfSome s.small (SoundsAs s.gain_in s.gain_out s.taps.items) };
}

/// Adds the echo of a frame that comes after those of the line.
#[inline(always)]
fn add_echo(sums: &mut Sums, channels: usize, line: &Line, frame: Frame, echo: (u64, Gain))
    requires channels { channels ≤ 16 }
    requires late { 1 ≤ echo.0 }
    requires decay { unsigned_abs echo.1 ≤ UNIT }
    requires free { AreSmall (2 ^ 100) sums.old }
    ensures added { AddsToEach channels sums.old sums.new (λ k. echo.1 *ℤ history_after line.now.items frame echo.0 k) }
    ensures bound { (k : ℕ) → unsigned_abs (slice_index_or sums.new k (pos 0)) ≤ unsigned_abs (slice_index_or sums.old k (pos 0)) + UNIT * 2 ^ 31 }
{
    let (late, decay) = echo;
    let Some(from) = line.back(late as usize - 1) else {
        return;
    };
    add_scaled(sums, channels, decay, from);
}

impl PreparedEcho {
    /// Those of at most seven echoes, prepared.
    fn of(channels: usize, gain_in: Gain, gain_out: Gain, taps: Vec<(u64, Gain)>) -> PreparedEcho
        requires { IsEcho (echo_with channels gain_in gain_out taps.items) }
        ensures { result ≡ echo_with channels gain_in gain_out taps.items }
    {
        let small = small_of(gain_in, gain_out, &taps, MAX_ECHO_WEIGHT);
        PreparedEcho {
            channels,
            gain_in,
            gain_out,
            taps,
            small,
        }
    }

    /// A sample of a frame that comes after those of the line, and its echoes, each times its weight, added.
    #[inline(always)]
    fn small_sum(&self, small: &SmallWeights, line: &Line, frame: &[i32], channel: usize) -> i64
        ensures value { result ≡ echo_sum (weighed self.now.echo small.now.weights) (history_after line.now.items frame.now) channel }
        ensures small { unsigned_abs result ≤ 2 ^ 61 }
    {
        let mut sum = product(small.weights[0], sample(line, frame, 0, channel));
        'taps: for place in 0..self.taps.len() {
            let (late, _) = self.taps[place];
            let earlier = sample(line, frame, late as usize, channel);
            sum += product(small.weights[place + 1], earlier);
        }
        sum
    }

    /// Writes the samples of a frame that comes after those of the line, with their echoes, and counts how many were clipped.
    #[inline(always)]
    fn small_into(&self, small: &SmallWeights, line: &Line, frame: &[i32], out: &mut [i32]) -> u64
        requires sounds { SoundsAsEcho self.now.echo small.now }
        requires out { length out.old ≡ self.now.channels }
        ensures frame { out.new ≡ (echoed_frame self.now (history_after line.now.items frame.now)).samples }
        ensures clips { result ≡ (echoed_frame self.now (history_after line.now.items frame.now)).clips }
        ensures bound { result ≤ length out.old }
    {
        let mut clips = 0;
        'channels: for channel in 0..out.len() {
            let sum = self.small_sum(small, line, frame, channel);
            out[channel] = small.denominator.round_and_count(sum, &mut clips);
        }
        clips
    }

    /// The frame times gain-in, and its echoes, added.
    #[inline(always)]
    fn sums(&self, line: &Line, frame: Frame) -> Sums
        ensures value { (k : ℕ) → k < self.now.channels → slice_index_or result k (pos 0) ≡ echo_sum self.now.echo (history_after line.now.items frame) k }
        ensures small { AreSmall (8 * (UNIT * 2 ^ 31)) result }
    {
        let mut sums = [0; 16];
        add_scaled(&mut sums, self.channels, self.gain_in, frame);
        'taps: for echo in &self.taps {
            add_echo(&mut sums, self.channels, line, frame, *echo);
        }
        sums
    }
}

impl PreparedEcho {
    /// Writes the samples of a frame that comes after those of the line, with their echoes, whatever the gains, and counts how
    /// many were clipped.
    // Stack space for the wide sums is used only where this is called.
    #[inline(never)]
    fn wide_into(&self, line: &Line, frame: &[i32], out: &mut [i32]) -> u64
        requires frame { length frame.now ≡ self.now.channels }
        requires out { length out.old ≡ self.now.channels }
        ensures frame { out.new ≡ (echoed_frame self.now (history_after line.now.items frame.now)).samples }
        ensures clips { result ≡ (echoed_frame self.now (history_after line.now.items frame.now)).clips }
        ensures bound { result ≤ length out.old }
    {
        let frame = frame_at(frame, 0, self.channels);
        let sums = self.sums(line, frame);
        sums_into(&sums, self.gain_out, out)
    }
}

impl Tapping for PreparedEcho {
    ghost taps = { echo_taps };

    fn tap(&self, line: &Line, frame: Frame) -> (Frame, u64) {
        if let Some(small) = &self.small {
            let mut out = [0; 16];
            let clips = self.small_into(small, line, frame.samples(), &mut out[..self.channels]);
            return (Frame::of_first(self.channels, out), clips);
        }
        let sums = self.sums(line, frame);
        rounded_sums(&sums, self.channels, self.gain_out)
    }

    #[inline(always)]
    fn tap_into(&self, line: &Line, frame: &[i32], out: &mut [i32]) -> u64 {
        let Some(small) = &self.small else {
            return self.wide_into(line, frame, out);
        };
        self.small_into(small, line, frame, out)
    }

    fn channels(&self) -> usize {
        self.channels
    }

    fn max_clips(&self) -> u64 {
        16
    }

    ghost near = { taps-near };

    ghost clips_max = { λ m. Prim.search rules };
}

/// A list of the same echoes.
pub(crate) fn copied(alloc: Global, taps: &[(u64, Gain)]) -> Result<Vec<(u64, Gain)>, AllocError>
    ensures { IfOk result (λ v. v.items ≡ taps.now) }
{
    let mut copies = Vec::new(alloc);
    'taps: for echo in taps {
        copies.push(*echo)?;
    }
    Ok(copies)
}

/// The stage of `echo`: each frame times gain-in and the frames before it at the delays, each times its decay, added,
/// times gain-out and rounded once. A sample that is clipped counts for one clip.
pub type Echo = Tapped<PreparedEcho>;

impl Tapped<PreparedEcho> {
    /// The stage for frames of 1 to 16 channels, with 1 to 7 echoes, each with its delay in frames, at least 1, and its
    /// decay. Gain-in and the decays are at most 1, gain-out is at most 1000. It holds as many frames as the longest delay has, at
    /// most `2^28`; AllocError where memory for them is refused.
    pub fn new(
        alloc: Global,
        channels: usize,
        gain_in: Gain,
        gain_out: Gain,
        taps: &[(u64, Gain)],
    ) -> Result<Echo, AllocError>
        requires arguments { IsEcho (echo_with channels gain_in gain_out taps.now) }
        requires some_tap { 1 ≤ length taps.now }
        requires line { largest (map tap_delay taps.now) ≤ 2 ^ 28 }
        ensures { IfOk result (IsNew echo_acts (echo_with channels gain_in gain_out taps.now)) }
    {
        let reach = max_tap_delay(taps) as usize;
        let taps = copied(alloc, taps)?;
        let arguments = PreparedEcho::of(channels, gain_in, gain_out, taps);
        Tapped::of(alloc, arguments, reach)
    }
    /// The stage that stored these frames and counted these numbers: whichever stage of these arguments they came from, that
    /// stage is restored, unless memory is refused. BadSnapshot where there is no such stage, Memory where an allocation was
    /// refused.
    pub fn thaw(
        alloc: Global,
        channels: usize,
        gain_in: Gain,
        gain_out: Gain,
        taps: &[(u64, Gain)],
        frames: &[WideFrame],
        numbers: &[u64; 8],
    ) -> Result<Echo, ThawFault>
        requires arguments { IsEcho (echo_with channels gain_in gain_out taps.now) }
        requires some_tap { 1 ≤ length taps.now }
        requires line { largest (map tap_delay taps.now) ≤ 2 ^ 28 }
        ensures recipe { IfOk result (λ t. echo_acts.recipe t ≡ echo_with channels gain_in gain_out taps.now) }
        ensures frozen { IfOk result (λ t. Freezes echo_acts t frames.now numbers.now) }
        ensures thawed { RestoresEcho (echo_with channels gain_in gain_out taps.now) frames.now numbers.now result }
        ensures named { (result ≡ Err ThawFault.WrongPlan) → ⊥ }
    {
        let reach = max_tap_delay(taps) as usize;
        let Ok(taps) = copied(alloc, taps) else {
            return Err(ThawFault::Memory);
        };
        let arguments = PreparedEcho::of(channels, gain_in, gain_out, taps);
        Tapped::thawed(alloc, arguments, reach, frames, numbers)
    }
}

/// The maximum number of samples of a piece: frames that are made at once.
pub(crate) const SAMPLES_OF_PIECE: usize = 256;

/// The maximum number of frames of a piece: there is space for their samples, and none of them is an echo of another.
pub(crate) fn frames_of_piece(channels: usize, taps: &[(u64, Gain)]) -> usize
    requires channels { IsChannelCount channels }
    requires delays { All (λ e. 1 ≤ e.0) taps.now }
    ensures some { 1 ≤ result }
    ensures free { result * channels ≤ 256 }
    ensures late { All (λ e. result ≤ e.0) taps.now }
{
    let mut maximum = SAMPLES_OF_PIECE / channels;
    'taps: for echo in taps {
        maximum = maximum.min(echo.0 as usize);
    }
    maximum
}

impl PreparedEcho {
    /// Adds to the sums `count` frames that follow those of the line, and their echoes, each times its weight, by way of a buffer
    /// for the frames that an echo repeats.
    fn add_piece(
        &self,
        small: &SmallWeights,
        line: &Line,
        frames: &[i32],
        count: usize,
        earlier: &mut [i32],
        sums: &mut [i64],
    )
        requires channels { line.now.channels ≡ self.now.channels }
        requires late { All (λ e. count ≤ e.0) self.now.echo.taps }
        requires frames { length frames.now ≡ count * self.now.channels }
        requires earlier { length earlier.old ≡ count * self.now.channels }
        requires sums { length sums.old ≡ count * self.now.channels }
        requires empty { (k : ℕ) → slice_index_or sums.old k (pos 0) ≡ pos 0 }
        ensures value { AreEchoSums self.now small.now.weights line.now.items count frames.now sums.new }
        ensures small { AreSmall (2 ^ 61) sums.new }
    {
        add_products(sums, frames, small.weights[0]);
        'taps: for place in 0..self.taps.len() {
            let (late, _) = self.taps[place];
            line.before_into(late as usize, count, earlier);
            add_products(sums, earlier, small.weights[place + 1]);
        }
    }

    /// Writes `count` frames with their echoes, which come after those of the line, and counts how many of their samples
    /// were clipped. None of them is an echo of another.
    fn tap_piece(
        &self,
        small: &SmallWeights,
        line: &Line,
        frames: &[i32],
        count: usize,
        out: &mut [i32],
    ) -> u64
        requires sounds { SoundsAsEcho self.now.echo small.now }
        requires channels { line.now.channels ≡ self.now.channels }
        requires late { All (λ e. count ≤ e.0) self.now.echo.taps }
        requires free { count * self.now.channels ≤ 256 }
        requires frames { length frames.now ≡ count * self.now.channels }
        requires out { length out.old ≡ count * self.now.channels }
        ensures frames { MakesBlock echo_taps self.now line.now.items count frames.now out.new }
        ensures clips { result ≡ clips_in_block echo_taps self.now line.now.items count frames.now }
        ensures bound { result ≤ count * self.now.channels }
    {
        let mut places = [0; SAMPLES_OF_PIECE];
        let mut sum_places = [0; SAMPLES_OF_PIECE];
        let earlier = &mut places[..frames.len()];
        let sums = &mut sum_places[..frames.len()];
        self.add_piece(small, line, frames, count, earlier, sums);
        round_sums(sums, &small.denominator, out)
    }
}

/// Writes over each earlier sample the sum of the one that came and of itself, each times its weight, rounded once, and counts
/// how many were clipped.
#[inline(always)]
fn one_echo_over(small: &SmallWeights, came: &[i32], earlier: &mut [i32]) -> u64
    requires places { length came.now ≡ length earlier.old }
    ensures frame { earlier.new ≡ (one_echo_frame small.now came.now earlier.old).samples }
    ensures clips { result ≡ (one_echo_frame small.now came.now earlier.old).clips }
    ensures bound { result ≤ length earlier.old }
{
    let mut clips = 0;
    'channels: for channel in 0..earlier.len() {
        let direct = product(small.weights[0], came[channel]);
        let echo = product(small.weights[1], earlier[channel]);
        let sum = direct + echo;
        earlier[channel] = small.denominator.round_and_count(sum, &mut clips);
    }
    clips
}

impl PreparedEcho {
    /// What `tap_over` does where there is one echo and its weights are small, by way of a buffer for the samples that came.
    /// The frame that it needs is the one which leaves the line.
    #[inline(always)]
    fn one_through(
        &self,
        small: &SmallWeights,
        line: &mut Line,
        samples: &mut [i32],
        came: &mut [i32],
    ) -> u64
        requires sounds { SoundsAsEcho self.now.echo small.now }
        requires one { length self.now.echo.taps ≡ 1 }
        requires line { IsLineFor echo_taps self.now line.old }
        requires frame { length samples.old ≡ self.now.channels }
        requires bound { length samples.old ≤ 16 }
        requires free { length came.old ≡ length samples.old }
        ensures frame { samples.new ≡ (echoed_frame self.now (history_after line.old.items samples.old)).samples }
        ensures clips { result ≡ (echoed_frame self.now (history_after line.old.items samples.old)).clips }
        ensures bound { result ≤ 16 }
        ensures line { line.new ≡ record line.old { items = pushed line.old samples.old } }
    {
        let _held = line.len();
        copy_samples(samples, came);
        delay_over(line, samples);
        one_echo_over(small, came, samples)
    }

    /// What `tap_over` does where there is one echo and its weights are small.
    // Where there are one or two channels their number is known to the loops over them.
    #[inline(always)]
    fn one_over(&self, small: &SmallWeights, line: &mut Line, samples: &mut [i32]) -> u64
        requires sounds { SoundsAsEcho self.now.echo small.now }
        requires one { length self.now.echo.taps ≡ 1 }
        requires line { IsLineFor echo_taps self.now line.old }
        requires frame { length samples.old ≡ self.now.channels }
        requires bound { length samples.old ≤ 16 }
        ensures frame { samples.new ≡ (echoed_frame self.now (history_after line.old.items samples.old)).samples }
        ensures clips { result ≡ (echoed_frame self.now (history_after line.old.items samples.old)).clips }
        ensures bound { result ≤ 16 }
        ensures line { line.new ≡ record line.old { items = pushed line.old samples.old } }
    {
        match samples.len() {
            1 => self.one_through(small, line, samples, &mut [0]),
            2 => self.one_through(small, line, samples, &mut [0; 2]),
            _ => self.one_through_places(small, line, samples),
        }
    }

    /// What `tap_over` does where there is one echo and its weights are small, for as many channels as there may be.
    // Stack space for sixteen samples is used only where this is called.
    #[inline(never)]
    fn one_through_places(&self, small: &SmallWeights, line: &mut Line, samples: &mut [i32]) -> u64
        requires sounds { SoundsAsEcho self.now.echo small.now }
        requires one { length self.now.echo.taps ≡ 1 }
        requires line { IsLineFor echo_taps self.now line.old }
        requires frame { length samples.old ≡ self.now.channels }
        requires bound { length samples.old ≤ 16 }
        ensures frame { samples.new ≡ (echoed_frame self.now (history_after line.old.items samples.old)).samples }
        ensures clips { result ≡ (echoed_frame self.now (history_after line.old.items samples.old)).clips }
        ensures bound { result ≤ 16 }
        ensures line { line.new ≡ record line.old { items = pushed line.old samples.old } }
    {
        let mut places = [0; 16];
        let came = &mut places[..samples.len()];
        self.one_through(small, line, samples, came)
    }
}

impl PreparedEcho {
    /// What `tap_frames` does where there is one echo and its weights are small, for at most `PLACES` samples. The frames that it
    /// needs are those which leave the line.
    #[inline(never)]
    fn one_echo_within<const PLACES: usize>(
        &self,
        small: &SmallWeights,
        line: &mut Line,
        samples: &mut [i32],
        count: usize,
    ) -> u64
        requires sounds { SoundsAsEcho self.now.echo small.now }
        requires one { length self.now.echo.taps ≡ 1 }
        requires line { IsLineFor echo_taps self.now line.old }
        requires bound { count ≤ 2 ^ 56 }
        requires group { (length samples.old ≤ PLACES) × (PLACES ≤ 64) }
        requires samples { length samples.old ≡ count * self.now.channels }
        ensures frames { MakesBlock echo_taps self.now line.old.items count samples.old samples.new }
        ensures clips { CountsClips echo_taps self.now line.old.items count samples.old result }
        ensures line { let coming = pieces self.now.channels count samples.old in
            line.new ≡ record line.old { items = pushed_all line.old coming } }
    {
        let _held = line.len();
        let mut places = [0; PLACES];
        let came = &mut places[..samples.len()];
        if line.exchange_frames(samples, count, came) {
            return one_echo_over(small, came, samples);
        }
        tap_over_by_frames(self, line, samples, count)
    }

    /// What `tap_frames` does where the weights are small and no frame is an echo of another, for at most `PLACES` samples. The
    /// frames that an echo repeats stand in the line before the new ones go into it.
    #[inline(never)]
    fn taps_within<const PLACES: usize>(
        &self,
        small: &SmallWeights,
        line: &mut Line,
        samples: &mut [i32],
        count: usize,
    ) -> u64
        requires sounds { SoundsAsEcho self.now.echo small.now }
        requires late { All (λ e. count ≤ e.0) self.now.echo.taps }
        requires line { IsLineFor echo_taps self.now line.old }
        requires bound { count ≤ 2 ^ 56 }
        requires group { (length samples.old ≤ PLACES) × (PLACES ≤ 64) }
        requires samples { length samples.old ≡ count * self.now.channels }
        ensures frames { MakesBlock echo_taps self.now line.old.items count samples.old samples.new }
        ensures clips { CountsClips echo_taps self.now line.old.items count samples.old result }
        ensures line { let coming = pieces self.now.channels count samples.old in
            line.new ≡ record line.old { items = pushed_all line.old coming } }
    {
        let _held = line.len();
        let mut places = [0; PLACES];
        let mut sum_places = [0; PLACES];
        let earlier = &mut places[..samples.len()];
        let sums = &mut sum_places[..samples.len()];
        self.add_piece(small, line, samples, count, earlier, sums);
        line.push_frames(samples, count);
        round_sums(sums, &small.denominator, samples)
    }
}

/// Whether each echo comes at least `count` frames after its frame.
pub(crate) fn are_late(taps: &[(u64, Gain)], count: usize) -> bool
    ensures { result ≡ true → All (λ e. count ≤ e.0) taps.now }
{
    'taps: for echo in taps {
        if (echo.0 as usize) < count {
            return false;
        }
    }
    true
}

impl TapsMany for PreparedEcho {
    fn tap_many(&self, line: &mut Line, input: &[i32], output: &mut [i32], count: usize) -> u64 {
        let Some(small) = &self.small else {
            return tap_by_frames(self, line, input, output, count);
        };
        let channels = self.channels;
        let maximum = frames_of_piece(channels, &self.taps);
        let _held = line.len();
        let mut done = 0;
        let mut clips = 0;
        'pieces: while done < count {
            let now = maximum.min(count - done);
            let from = done * channels;
            let to = from + now * channels;
            let frames = &input[from..to];
            clips += self.tap_piece(small, line, frames, now, &mut output[from..to]);
            line.push_frames(frames, now);
            done += now;
        }
        clips
    }

    fn tap_frames(&self, line: &mut Line, samples: &mut [i32], count: usize) -> u64 {
        if let Some(small) = &self.small {
            let is_short = samples.len() <= SAMPLES_OF_BATCH;
            if self.taps.len() == 1 {
                return if is_short {
                    self.one_echo_within::<SAMPLES_OF_BATCH>(small, line, samples, count)
                } else {
                    self.one_echo_within::<SAMPLES_OF_GROUP>(small, line, samples, count)
                };
            }
            if are_late(&self.taps, count) {
                return if is_short {
                    self.taps_within::<SAMPLES_OF_BATCH>(small, line, samples, count)
                } else {
                    self.taps_within::<SAMPLES_OF_GROUP>(small, line, samples, count)
                };
            }
        }
        tap_over_by_frames(self, line, samples, count)
    }

    #[inline(always)]
    fn tap_over(&self, line: &mut Line, samples: &mut [i32]) -> u64 {
        if let Some(small) = &self.small {
            if self.taps.len() == 1 {
                return self.one_over(small, line, samples);
            }
        }
        tap_and_push(self, line, samples)
    }
}
