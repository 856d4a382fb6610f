//! The effect `downsample` of sox(1): the first frame of every group of as many frames as the factor.
ghost use Rattle.std.specs.Prelude.{◌≡◌, ◌≤◌, ◌*◌, Ok, IfOk, IfErr, drop, length};
ghost use Rattle.fx_frame_base.specs.Lists.{pieces};
ghost use Rattle.fx_frame_base.specs.Stage.{Freezes, IsNew, RestoresAlways};
ghost use Rattle.fx_cut.specs.Factor.{FactorArguments, IsFactor, factor_with};
ghost use Rattle.fx_cut.specs.DownsampleState.{DownsampleState, IsDownsample, downsample_acts};
ghost use Rattle.fx_cut.specs.Strides.{firsts};

use crate::many::{PassesMany, feed_by_pieces};
use fx_frame::{Counters, Feeds, Forecast, Frame, Passed, Stage, ThawFault, WideFrame};
use fx_frame_base::StageCore;
use fx_frame_base::pending::{stored_pending, thawed_pending};
use fx_frame_base::stage::MAX_TAKEN;
use std::marker::Model;

/// Copies the first frame of each of `groups` groups at the front of the input to the front of the output.
#[inline(always)]
fn copy_groups(input: &[i32], output: &mut [i32], channels: usize, step: usize, groups: usize)
    requires step { 1 ≤ step }
    requires input { groups * (step * channels) ≤ length input.now }
    requires output { groups * channels ≤ length output.old }
    ensures frames { pieces channels groups output.new ≡ firsts channels step groups input.now }
    ensures rest_unchanged { drop (groups * channels) output.new ≡ drop (groups * channels) output.old }
{
    let mut read = 0;
    let mut written = 0;
    'groups: for _group in 0..groups {
        output[written..written + channels].copy_from_slice(&input[read..read + channels]);
        read += step * channels;
        written += channels;
    }
}

/// As `copy_groups`, where the number of channels is often known beforehand: a copy of a known size is no call.
fn copy_firsts(input: &[i32], output: &mut [i32], channels: usize, step: usize, groups: usize)
    requires step { 1 ≤ step }
    requires input { groups * (step * channels) ≤ length input.now }
    requires output { groups * channels ≤ length output.old }
    ensures frames { pieces channels groups output.new ≡ firsts channels step groups input.now }
    ensures rest_unchanged { drop (groups * channels) output.new ≡ drop (groups * channels) output.old }
{
    match channels {
        1 => copy_groups(input, output, 1, step, groups),
        2 => copy_groups(input, output, 2, step, groups),
        8 => copy_groups(input, output, 8, step, groups),
        _ => copy_groups(input, output, channels, step, groups),
    }
}

/// The stage of `downsample`: frames 0, f, 2f and so on of the sound, where f is the factor. It takes up to
/// `2^56` frames.
#[derive(Drop)]
pub struct Downsample {
    core: StageCore,
    channels: usize,
    factor: u64,
    skip: u64,
}

impl Model for Downsample {
    ghost use Rattle.fx_cut.specs.DownsampleState.{DownsampleState, IsDownsample};

    ghost Value = { DownsampleState };

    ghost view = { λ s. record { core = s.core; recipe = record { channels = s.channels; factor = s.factor }; skip = s.skip } };

    ghost invariant = { λ s. IsDownsample (record { core = s.core; recipe = record { channels = s.channels; factor = s.factor }; skip = s.skip }) };
}

impl Downsample {
    /// The stage for frames of 1 to 16 channels and a factor from 1 to 256. Allocates no memory.
    pub fn new(channels: usize, factor: u64) -> Downsample
        requires { IsFactor (factor_with channels factor) }
        ensures { IsNew downsample_acts (factor_with channels factor) result }
    {
        Downsample {
            core: StageCore::new(),
            channels,
            factor,
            skip: 0,
        }
    }

    /// The stage that stored these frames and counted these numbers: whichever stage of these arguments they came from, that
    /// stage is restored. BadSnapshot where there is none. Allocates no memory.
    pub fn thaw(
        channels: usize,
        factor: u64,
        frames: &[WideFrame],
        numbers: &[u64; 8],
    ) -> Result<Downsample, ThawFault>
        requires { IsFactor (factor_with channels factor) }
        ensures recipe { IfOk result (λ t. t.recipe ≡ factor_with channels factor) }
        ensures frozen { IfOk result (λ t. Freezes downsample_acts t frames.now numbers.now) }
        ensures thawed { RestoresAlways downsample_acts IsDownsample
            (factor_with channels factor) frames.now numbers.now result }
        ensures refused { IfErr result (λ e. e ≡ ThawFault.BadSnapshot) }
    {
        let [taken, given, ended, 0, held, skip, 0, 0] = *numbers else {
            return Err(ThawFault::BadSnapshot);
        };
        if ended > 1 || held != frames.len() as u64 || taken > MAX_TAKEN {
            return Err(ThawFault::BadSnapshot);
        }
        let made = taken.div_ceil(factor);
        if given > made || held != made - given || skip != made * factor - taken {
            return Err(ThawFault::BadSnapshot);
        }
        if held != 0 && (ended != 0 || skip + 1 != factor) {
            return Err(ThawFault::BadSnapshot);
        }
        let pending = thawed_pending(frames, channels)?;
        let counters = Counters {
            taken,
            given,
            clips: 0,
            ended: ended == 1,
        };
        Ok(Downsample {
            core: StageCore::restored(pending, 0, counters),
            channels,
            factor,
            skip,
        })
    }
}

impl Stage for Downsample {
    ghost use Rattle.fx_cut.specs.Ceil.{ceil_rises};

    ghost Recipe = { FactorArguments };

    ghost acts = { downsample_acts };

    ghost sound = { λ s. IsDownsample s };

    ghost rises = { λ r m n h. ceil_rises m n r.factor h };

    fn take(&mut self, frame: Frame) {
        let _channels = frame.channels();
        if self.skip > 0 {
            self.skip -= 1;
            self.core.take();
            return;
        }
        self.core.offer(frame, 0);
        self.skip = self.factor - 1;
    }

    fn end(&mut self) {
        self.core.end();
    }

    fn give(&mut self) -> Option<Frame> {
        self.core.give()
    }

    fn is_dry(&self) -> bool {
        !self.core.is_pending()
    }

    #[inline(always)]
    fn counter_values(&self) -> Counters {
        self.core.counter_values()
    }

    fn is_spent(&self) -> bool {
        false
    }

    fn held(&self) -> u64 {
        u64::from(self.core.is_pending())
    }

    fn hold(&self) -> u64 {
        1
    }

    fn in_channels(&self) -> usize {
        self.channels
    }

    fn out_channels(&self) -> usize {
        self.channels
    }

    fn state_counters(&self) -> [u64; 3] {
        [self.skip, 0, 0]
    }

    fn stored(&self, j: usize) -> WideFrame {
        stored_pending(self.core.pending(), j)
    }
}

impl PassesMany for Downsample {
    /// Passes the frames that are to be left out, and then whole groups of a frame that is kept and those left out after it,
    /// while the output has space for a frame after that of the group.
    fn pass_many(&mut self, input: &[i32], output: &mut [i32]) -> Passed {
        let channels = self.channels;
        if self.core.is_pending() || self.core.is_ended() || output.len() < channels {
            return Passed { taken: 0, given: 0 };
        }
        let frames = input.len() / channels;
        let left_out = self.skip.min(frames as u64) as usize;
        self.skip -= left_out as u64;
        self.core.take_many(left_out as u64);
        if self.skip != 0 {
            return Passed {
                taken: left_out,
                given: 0,
            };
        }
        let factor = self.factor as usize;
        let groups = ((frames - left_out) / factor).min((output.len() - channels) / channels);
        copy_firsts(
            &input[left_out * channels..],
            output,
            channels,
            factor,
            groups,
        );
        self.core.take_many((groups * factor) as u64);
        self.core.give_many(groups as u64);
        Passed {
            taken: left_out + groups * factor,
            given: groups,
        }
    }
}

impl Feeds for Downsample {
    fn feed(&mut self, input: &[i32], output: &mut [i32]) -> Passed {
        feed_by_pieces(self, input, output)
    }

    fn forecast(&self) -> Forecast {
        Forecast::endless(0)
    }
}
