//! The effect `upsample` of sox(1): each frame is followed by silence.
ghost use Rattle.std.specs.Prelude.{◌≡◌, ◌≤◌, ◌-◌, ◌*◌, ◌++◌, Ok, IfOk, IfErr, drop, length, pos, replicate};
ghost use Rattle.fx_frame_base.specs.Lists.{pieces};
ghost use Rattle.fx_frame_base.specs.Stage.{Freezes, IsNew, RestoresAlways};
ghost use Rattle.fx_cut.specs.Factor.{FactorArguments, IsFactor, factor_with};
ghost use Rattle.fx_cut.specs.UpsampleState.{UpsampleState, IsUpsample, upsample_acts};
ghost use Rattle.fx_cut.specs.Strides.{spread};

use crate::many::{PassesMany, feed_by_pieces};
use fx_frame::{Counters, Feeds, Forecast, Frame, Passed, Stage, ThawFault, WideFrame};
use fx_frame_base::StageCore;
use fx_frame_base::pending::{stored_pending, thawed_pending};
use fx_frame_base::stage::MAX_TAKEN;
use std::marker::Model;

/// Fills a group with a frame and silence after it.
#[inline(always)]
fn fill_group(group: &mut [i32], frame: &[i32])
    requires { length frame.now ≤ length group.old }
    ensures { group.new ≡ frame.now ++ replicate (length group.old - length frame.now) (pos 0) }
{
    let channels = frame.len();
    group[..channels].copy_from_slice(frame);
    group[channels..].fill(0);
}

/// Copies `count` frames at the front of the input to the front of the output, each with the silence after it.
#[inline(always)]
fn spread_each(input: &[i32], output: &mut [i32], channels: usize, factor: usize, count: usize)
    requires factor { 1 ≤ factor }
    requires input { count * channels ≤ length input.now }
    requires output { count * (factor * channels) ≤ length output.old }
    ensures frames { pieces channels (count * factor) output.new ≡ spread channels factor count input.now }
    ensures rest_unchanged { drop (count * (factor * channels)) output.new ≡ drop (count * (factor * channels)) output.old }
{
    let mut read = 0;
    let mut written = 0;
    'frames: for _frame in 0..count {
        let group = &mut output[written..written + factor * channels];
        fill_group(group, &input[read..read + channels]);
        read += channels;
        written += factor * channels;
    }
}

/// As `spread_each`, where the number of channels is often known beforehand: a copy of a known size is no call.
fn spread_frames(input: &[i32], output: &mut [i32], channels: usize, factor: usize, count: usize)
    requires factor { 1 ≤ factor }
    requires input { count * channels ≤ length input.now }
    requires output { count * (factor * channels) ≤ length output.old }
    ensures frames { pieces channels (count * factor) output.new ≡ spread channels factor count input.now }
    ensures rest_unchanged { drop (count * (factor * channels)) output.new ≡ drop (count * (factor * channels)) output.old }
{
    match channels {
        1 => spread_each(input, output, 1, factor, count),
        2 => spread_each(input, output, 2, factor, count),
        8 => spread_each(input, output, 8, factor, count),
        _ => spread_each(input, output, channels, factor, count),
    }
}

/// The stage of `upsample`: each frame, followed by f - 1 silent frames, where f is the factor. It takes up to
/// `2^56` divided by f frames.
#[derive(Drop)]
pub struct Upsample {
    core: StageCore,
    channels: usize,
    factor: u64,
    silent: u64,
}

impl Model for Upsample {
    ghost use Rattle.fx_cut.specs.UpsampleState.{UpsampleState, IsUpsample};

    ghost Value = { UpsampleState };

    ghost view = { λ s. record { core = s.core; recipe = record { channels = s.channels; factor = s.factor }; silent = s.silent } };

    ghost invariant = { λ s. IsUpsample (record { core = s.core; recipe = record { channels = s.channels; factor = s.factor }; silent = s.silent }) };
}

impl Upsample {
    /// The stage for frames of 1 to 16 channels and a factor from 1 to 256. Allocates no memory.
    pub fn new(channels: usize, factor: u64) -> Upsample
        requires { IsFactor (factor_with channels factor) }
        ensures { IsNew upsample_acts (factor_with channels factor) result }
    {
        Upsample {
            core: StageCore::new(),
            channels,
            factor,
            silent: 0,
        }
    }

    /// The stage that stored these frames and counted these numbers: whichever stage of these arguments they came from, that
    /// stage is restored. BadSnapshot where there is none. Allocates no memory.
    pub fn thaw(
        channels: usize,
        factor: u64,
        frames: &[WideFrame],
        numbers: &[u64; 8],
    ) -> Result<Upsample, ThawFault>
        requires { IsFactor (factor_with channels factor) }
        ensures recipe { IfOk result (λ t. t.recipe ≡ factor_with channels factor) }
        ensures frozen { IfOk result (λ t. Freezes upsample_acts t frames.now numbers.now) }
        ensures thawed { RestoresAlways upsample_acts IsUpsample
            (factor_with channels factor) frames.now numbers.now result }
        ensures refused { IfErr result (λ e. e ≡ ThawFault.BadSnapshot) }
    {
        let [taken, given, ended, 0, held, silent, 0, 0] = *numbers else {
            return Err(ThawFault::BadSnapshot);
        };
        if ended > 1 || held != frames.len() as u64 || taken > MAX_TAKEN / factor {
            return Err(ThawFault::BadSnapshot);
        }
        let made = taken * factor;
        if given > made || held > made - given || silent != made - given - held {
            return Err(ThawFault::BadSnapshot);
        }
        if silent >= factor
            || (held != 0 && silent + 1 != factor)
            || (ended != 0 && given != made)
        {
            return Err(ThawFault::BadSnapshot);
        }
        let pending = thawed_pending(frames, channels)?;
        let counters = Counters {
            taken,
            given,
            clips: 0,
            ended: ended == 1,
        };
        Ok(Upsample {
            core: StageCore::restored(pending, 0, counters),
            channels,
            factor,
            silent,
        })
    }
}

impl Stage for Upsample {
    ghost use Rattle.std.proofs.Math.Nat.{mul-le-mul_right};

    ghost Recipe = { FactorArguments };

    ghost acts = { upsample_acts };

    ghost sound = { λ s. IsUpsample s };

    ghost rises = { λ r m n h. mul-le-mul_right r.factor h };

    fn take(&mut self, frame: Frame) {
        let _channels = frame.channels();
        self.core.offer(frame, 0);
        self.silent = self.factor - 1;
    }

    fn end(&mut self) {
        self.core.end();
    }

    fn give(&mut self) -> Option<Frame> {
        if self.core.is_pending() || self.silent == 0 {
            return self.core.give();
        }
        self.silent -= 1;
        self.core.give_made(0);
        Some(Frame::silence(self.channels))
    }

    fn is_dry(&self) -> bool {
        !self.core.is_pending() && self.silent == 0
    }

    #[inline(always)]
    fn counter_values(&self) -> Counters {
        self.core.counter_values()
    }

    fn is_spent(&self) -> bool {
        false
    }

    fn held(&self) -> u64 {
        u64::from(self.core.is_pending())
    }

    fn state_counters(&self) -> [u64; 3] {
        [self.silent, 0, 0]
    }

    fn stored(&self, j: usize) -> WideFrame {
        stored_pending(self.core.pending(), j)
    }

    fn hold(&self) -> u64 {
        1
    }

    fn in_channels(&self) -> usize {
        self.channels
    }

    fn out_channels(&self) -> usize {
        self.channels
    }
}

impl PassesMany for Upsample {
    /// Passes each frame with the silence after it.
    fn pass_many(&mut self, input: &[i32], output: &mut [i32]) -> Passed {
        let channels = self.channels;
        if self.core.is_pending() || self.silent != 0 || self.core.is_ended() {
            return Passed { taken: 0, given: 0 };
        }
        let factor = self.factor as usize;
        let count = (input.len() / channels).min(output.len() / channels / factor);
        spread_frames(input, output, channels, factor, count);
        self.core.take_many(count as u64);
        self.core.give_many((count * factor) as u64);
        Passed {
            taken: count,
            given: count * factor,
        }
    }
}

impl Feeds for Upsample {
    fn feed(&mut self, input: &[i32], output: &mut [i32]) -> Passed {
        feed_by_pieces(self, input, output)
    }

    fn forecast(&self) -> Forecast {
        Forecast::endless(0)
    }
}
