//! Memoryless effects: one frame out for each frame in, and no line.
ghost use Rattle.std.specs.Prelude.{◌≡◌, ◌≤◌, ◌*◌, ◌^◌, ℕ, drop, length, IfOk, IfErr};
ghost use Rattle.fx_frame_base.specs.Frame.{IsChannelCount, Samples};
ghost use Rattle.fx_frame_base.specs.Lists.{pieces};
ghost use Rattle.fx_frame_base.specs.Stage.{Freezes, Given, IsNew};
ghost use Rattle.fx_frame.specs.Made.{clips_in, made_of};
ghost use Rattle.fx_tap_pointwise.specs.Mapped.{MapsBlock, RestoresMapped};

use fx_frame::numbers::CoreNumbers;
use fx_frame::{Counters, Feeds, Forecast, Frame, Passed, Passing, Stage, ThawFault, WideFrame};
use fx_frame_base::StageCore;
use fx_frame_base::feed::{feed_by_frames, frame_at, put_frame};
use fx_frame_base::frame::MAX_CHANNELS;
use fx_frame_base::pending::{stored_pending, thawed_pending};
use std::marker::Model;

/// What an effect makes of a frame, independent of its history.
pub trait Mapping {
    /// The channels of the frames that it takes.
    ghost inputs: { Self → ℕ };

    /// The channels of the frames that it makes.
    ghost outputs: { Self → ℕ };

    /// What it makes of a frame.
    ghost mapped: { Self → Samples → Given };

    /// The frame that it makes of a frame, and how many of its samples were clipped.
    fn map(&self, frame: Frame) -> (Frame, u64)
        requires { length frame ≡ inputs self.now }
        ensures frame { result.0 ≡ (mapped self.now frame).samples }
        ensures clips { result.1 ≡ (mapped self.now frame).clips }
        ensures bound { result.1 ≤ 16 }
        ensures channels { length result.0 ≡ outputs self.now };

    /// Writes the samples of the frame that it makes of those of a frame, and counts how many were clipped.
    fn map_into(&self, frame: &[i32], out: &mut [i32]) -> u64
        requires frame { length frame.now ≡ inputs self.now }
        requires out { length out.old ≡ outputs self.now }
        ensures frame { out.new ≡ (mapped self.now frame.now).samples }
        ensures clips { result ≡ (mapped self.now frame.now).clips }
        ensures bound { result ≤ 16 };

    /// Writes the samples of the frame that it makes of those of a frame over them, and counts how many were clipped.
    #[inline(never)] // so that the loop over frames stays small enough for its stages to be inlined
    fn map_over(&self, samples: &mut [i32]) -> u64
        requires frame { IsChannelCount (length samples.old) }
        requires inputs { length samples.old ≡ inputs self.now }
        requires outputs { length samples.old ≡ outputs self.now }
        ensures frame { samples.new ≡ (mapped self.now samples.old).samples }
        ensures clips { result ≡ (mapped self.now samples.old).clips }
        ensures bound { result ≤ 16 }
    {
        let channels = samples.len();
        let (made, clips) = self.map(frame_at(samples, 0, channels));
        put_frame(samples, 0, &made);
        clips
    }

    /// The channels of the frames that it takes.
    fn in_channels(&self) -> usize
        ensures { result ≡ inputs self.now };

    /// The channels of the frames that it makes.
    fn out_channels(&self) -> usize
        ensures value { result ≡ outputs self.now }
        ensures frame { IsChannelCount result };
}

/// The channels of the frames that go in, and of those that come out.
#[derive(Clone, Copy)]
pub struct PairWidths {
    pub inputs: usize,
    pub outputs: usize,
}

/// A mapping that makes many frames in one call.
pub trait MapsMany: Mapping {
    /// Maps `count` frames from the front of the input to the front of the output, and counts their clips.
    fn map_many(&self, input: &[i32], output: &mut [i32], count: usize) -> u64
        requires channels { IsChannelCount (Self.inputs self.now) }
        requires bound { count ≤ 2 ^ 56 }
        requires input { count * Self.inputs self.now ≤ length input.now }
        requires output { count * Self.outputs self.now ≤ length output.old }
        ensures frames { MapsBlock Self.inputs Self.outputs Self.mapped self.now count input.now output.new }
        ensures rest_unchanged { let n = count * Self.outputs self.now in drop n output.new ≡ drop n output.old }
        ensures clips { result ≡ clips_in (Self.mapped self.now) (pieces (Self.inputs self.now) count input.now) }
        ensures bound { result ≤ 16 * count }
    {
        map_by_frames(self, input, output, count)
    }

    /// Maps a group of frames, and counts their clips, in code that the compiler unrolls where it knows the channels and the
    /// number of frames.
    fn map_group(&self, widths: PairWidths, count: usize, input: &[i32], output: &mut [i32]) -> u64
        requires inputs { widths.inputs ≡ Self.inputs self.now }
        requires outputs { widths.outputs ≡ Self.outputs self.now }
        requires channels { IsChannelCount widths.inputs }
        requires bound { count ≤ 256 }
        requires input { length input.now ≡ count * widths.inputs }
        requires output { length output.old ≡ count * widths.outputs }
        ensures frames { pieces widths.outputs count output.new ≡ made_of (Self.mapped self.now) (pieces widths.inputs count input.now) }
        ensures clips { result ≡ clips_in (Self.mapped self.now) (pieces widths.inputs count input.now) }
        ensures bound { result ≤ 16 * count };

    /// Maps `count` frames in place, and counts their clips, where it keeps the number of channels.
    fn map_many_over(&self, samples: &mut [i32], count: usize) -> u64
        requires channels { IsChannelCount (Self.inputs self.now) }
        requires keeps { Self.outputs self.now ≡ Self.inputs self.now }
        requires bound { count ≤ 2 ^ 56 }
        requires samples { length samples.old ≡ count * Self.inputs self.now }
        ensures frames { MapsBlock Self.inputs Self.inputs Self.mapped self.now count samples.old samples.new }
        ensures clips { result ≡ clips_in (Self.mapped self.now) (pieces (Self.inputs self.now) count samples.old) }
        ensures bound { result ≤ 16 * count }
    {
        let channels = self.in_channels();
        let mut clips = 0;
        'frames: for turn in 0..count {
            let at = turn * channels;
            clips += self.map_over(&mut samples[at..at + channels]);
        }
        clips
    }
}

/// What `map_many` does, for any mapping, one frame at a time.
pub fn map_by_frames<M: Mapping>(
    mapping: &M,
    input: &[i32],
    output: &mut [i32],
    count: usize,
) -> u64
    requires channels { IsChannelCount (M.inputs mapping.now) }
    requires bound { count ≤ 2 ^ 56 }
    requires input { count * M.inputs mapping.now ≤ length input.now }
    requires output { count * M.outputs mapping.now ≤ length output.old }
    ensures frames { MapsBlock M.inputs M.outputs M.mapped mapping.now count input.now output.new }
    ensures rest_unchanged { let n = count * M.outputs mapping.now in drop n output.new ≡ drop n output.old }
    ensures clips { result ≡ clips_in (M.mapped mapping.now) (pieces (M.inputs mapping.now) count input.now) }
    ensures bound { result ≤ 16 * count }
{
    let inputs = mapping.in_channels();
    let outputs = mapping.out_channels();
    let mut read = 0;
    let mut written = 0;
    let mut clips = 0;
    'frames: for _turn in 0..count {
        let frame = &input[read..read + inputs];
        clips += mapping.map_into(frame, &mut output[written..written + outputs]);
        read += inputs;
        written += outputs;
    }
    clips
}

/// The stage of a memoryless effect. It takes up to `2^56` frames.
#[derive(Drop)]
pub struct Mapped<M: Mapping + Drop> {
    core: StageCore,
    mapping: M,
}

impl<M: Mapping + Drop> Model for Mapped<M> {
    ghost use Rattle.fx_tap_pointwise.specs.Mapped.{MapState, IsMapState};

    ghost Value = { MapState M };

    ghost view = { λ s. record { mapping = s.mapping; core = s.core } };

    ghost invariant = { λ s. IsMapState M.outputs (record { mapping = s.mapping; core = s.core }) };
}

impl<M: Mapping + Drop> Mapped<M> {
    ghost use Rattle.fx_tap_pointwise.specs.Mapped.{MapState, IsMapState, map_acts};

    /// The stage of a mapping.
    pub(crate) fn of(mapping: M) -> Mapped<M>
        ensures { IsNew (map_acts M.inputs M.outputs M.mapped) mapping result }
    {
        Mapped {
            core: StageCore::new(),
            mapping,
        }
    }

    /// The stage of a mapping that stored these frames and counted these numbers. BadSnapshot where there is none.
    pub(crate) fn thawed(
        mapping: M,
        frames: &[WideFrame],
        numbers: &[u64; 8],
    ) -> Result<Mapped<M>, ThawFault>
        ensures recipe { IfOk result (λ t. t.mapping ≡ mapping) }
        ensures frozen { IfOk result (λ t. Freezes (map_acts M.inputs M.outputs M.mapped) t frames.now numbers.now) }
        ensures thawed { RestoresMapped M.inputs M.outputs M.mapped mapping frames.now numbers.now result }
        ensures refused { IfErr result (λ e. e ≡ ThawFault.BadSnapshot) }
    {
        let [
            taken,
            given,
            ended,
            clips,
            pending_count,
            pending_clips,
            second_counter,
            third_counter,
        ] = *numbers;
        let core = CoreNumbers {
            taken,
            given,
            ended,
            clips,
            pending_count,
            pending_clips,
        };
        if !core.are_valid(MAX_CHANNELS as u64) || second_counter != 0 || third_counter != 0 {
            return Err(ThawFault::BadSnapshot);
        }
        if pending_count != frames.len() as u64 || given > taken || pending_count != taken - given {
            return Err(ThawFault::BadSnapshot);
        }
        let pending = thawed_pending(frames, mapping.out_channels())?;
        Ok(Mapped {
            core: core.restored(pending),
            mapping,
        })
    }
}

impl<M: Mapping + Drop> Mapped<M> {
    ghost use Rattle.std.specs.Prelude.{◌+◌, None};
    ghost use Rattle.fx_tap_pointwise.specs.Mapped.{IsMapState};
    ghost use Rattle.fx_frame_base.specs.Stage.{max_taken};
    ghost use Rattle.fx_frame_base.specs.StageCore.{after_passing};

    /// What it makes of a frame.
    #[inline(always)]
    pub(crate) fn mapping(&self) -> &M
        ensures value { result.now ≡ self.now.mapping }
        ensures sound { IsMapState M.outputs self.now }
    {
        &self.mapping
    }

    /// Counts frames that it took and gave, and how many of their samples were clipped.
    #[inline(always)]
    pub(crate) fn count_passed(&mut self, count: usize, clips: u64)
        requires dry { self.old.core.pending ≡ None }
        requires bound { self.old.core.taken + count ≤ max_taken }
        requires clips_max { clips ≤ 16 * count }
        ensures { self.new ≡ record self.old { core = after_passing count clips self.old.core } }
    {
        self.core.pass(count, clips);
    }
}

impl<M: Mapping + Drop> Stage for Mapped<M> {
    ghost use Rattle.fx_tap_pointwise.specs.Mapped.{IsMapState, map_acts};

    ghost Recipe = { M };

    ghost acts = { map_acts M.inputs M.outputs M.mapped };

    ghost sound = { λ s. IsMapState M.outputs s };

    ghost rises = { λ r m n h. h };

    fn take(&mut self, frame: Frame) {
        let (made, clips) = self.mapping.map(frame);
        let _channels = made.channels();
        self.core.offer(made, clips);
    }

    fn end(&mut self) {
        self.core.end();
    }

    fn give(&mut self) -> Option<Frame> {
        self.core.give()
    }

    fn is_dry(&self) -> bool {
        !self.core.is_pending()
    }

    #[inline(always)]
    fn counter_values(&self) -> Counters {
        self.core.counter_values()
    }

    fn is_spent(&self) -> bool {
        false
    }

    fn held(&self) -> u64 {
        u64::from(self.core.is_pending())
    }

    fn hold(&self) -> u64 {
        1
    }

    fn in_channels(&self) -> usize {
        self.mapping.in_channels()
    }

    fn out_channels(&self) -> usize {
        self.mapping.out_channels()
    }

    fn state_counters(&self) -> [u64; 3] {
        [self.core.pending_clips(), 0, 0]
    }

    fn stored(&self, j: usize) -> WideFrame {
        stored_pending(self.core.pending(), j)
    }
}

impl<M: MapsMany + Drop> Feeds for Mapped<M> {
    fn feed(&mut self, input: &[i32], output: &mut [i32]) -> Passed {
        let inputs = self.mapping.in_channels();
        let outputs = self.mapping.out_channels();
        if self.core.is_pending() || self.core.is_ended() || outputs == 0 {
            return feed_by_frames(self, input, output);
        }
        let count = (input.len() / inputs).min(output.len() / outputs);
        let clips = self.mapping.map_many(input, output, count);
        self.core.pass(count, clips);
        Passed {
            taken: count,
            given: count,
        }
    }

    #[inline(always)]
    fn pass_samples(&mut self, samples: &mut [i32]) -> Passing {
        let clips = self.mapping.map_over(samples);
        self.core.pass(1, clips);
        Passing::Through
    }

    #[inline(always)]
    fn pass_places(&mut self, places: &mut [i32; 16], channels: &mut usize) -> Passing {
        let samples = *places;
        let outputs = self.mapping.out_channels();
        let made = &mut places[..outputs];
        let clips = self.mapping.map_into(&samples[..*channels], made);
        *channels = outputs;
        self.core.pass(1, clips);
        Passing::Through
    }

    fn pass_frames(&mut self, count: usize, samples: &mut [i32]) {
        let clips = self.mapping.map_many_over(samples, count);
        self.core.pass(count, clips);
    }

    fn forecast(&self) -> Forecast {
        Forecast::endless(u64::MAX)
    }
}
