// Written by scripts/effects from effects/*.toml. Do not edit.
//! All effects as one type: each with its resolved arguments, and what it does to rate, channels and lengths.
ghost use Rattle.std.specs.Prelude.{◌≡◌, ◌-◌, ◌^◌, IfOk, Some, min};
ghost use Rattle.fx_plan_effects.specs.Effects.{Fits, Usable, act, channels_after, layout_after, name_text};
ghost use Rattle.fx_plan_effects.specs.Meanings.{line_of_act, max_of_act};

use crate::effect::{Layout, copy_echo, copy_specs};
use fx_cut::extents::{all_pads, effective_stop, max_pad_end, stop_line};
use fx_cut::fade::words::Fading;
use fx_cut::pad::words::PadList;
use fx_cut::trim::words::Positions;
use fx_fixed::Gain;
use fx_fixed::inner::max_end;
use fx_tap_delays::delay::words::DelayList;
use fx_tap_delays::echo::words::Echoing;
use fx_tap_delays::extents::{max_delay, max_tap_delay, total_delay};
use fx_tap_pointwise::OutSpec;
use smallvec::SmallVec;
use std::alloc::{AllocError, Global};

/// An effect with its resolved arguments; lengths and times are in frames.
#[derive(Debug, Drop, PartialEq, Eq)]
pub enum Effect {
    /// The positions between which frames are kept.
    Trim(Positions),
    /// Lengths of silence and where they go.
    Pad(PadList),
    /// The delays of the first channels.
    Delay(DelayList),
    /// Echoes of the input.
    Echo(Echoing),
    /// Echoes in series.
    Echos(Echoing),
    /// Fades at both ends.
    Fade(Fading),
    /// A gain.
    Vol(Gain),
    /// A shift, where 1 is full scale.
    DcShift(Gain),
    /// Coefficients.
    Fir(Vec<Gain>),
    /// The sums that make the channels of the output.
    Remix(Vec<OutSpec>),
    /// A factor from 1 to 256.
    Upsample(u32),
    /// A factor from 1 to 256.
    Downsample(u32),
}

impl Effect {
    /// The layout of the sound after the effect.
    pub fn layout_after(&self, layout: Layout) -> Layout
        requires { Fits layout (act self.now) }
        ensures { result ≡ layout_after layout (Some (act self.now)) }
    {
        match self {
            Effect::Remix(specs) => Layout {
                channels: specs.len(),
                ..layout
            },
            Effect::Upsample(factor) => Layout {
                rate: layout.rate * factor,
                ..layout
            },
            Effect::Downsample(factor) => Layout {
                rate: layout.rate / factor,
                ..layout
            },
            _ => layout,
        }
    }

    /// The channels of the frames that the effect gives, where it takes frames of `channels` channels.
    pub fn channels_after(&self, channels: usize) -> usize
        ensures { result ≡ channels_after channels (act self.now) }
    {
        match self {
            Effect::Remix(specs) => specs.len(),
            _ => channels,
        }
    }

    /// The frames that the line of the effect holds, or `u64::MAX` where it is more.
    pub fn line(&self) -> u64
        ensures { result ≡ min (line_of_act (act self.now)) (2 ^ 64 - 1) }
    {
        match self {
            Effect::Trim(positions) => max_end(positions),
            Effect::Pad(pads) => max_pad_end(pads),
            Effect::Delay(delays) => max_delay(delays),
            Effect::Echo(echo) => max_tap_delay(&echo.taps),
            Effect::Echos(echos) => total_delay(&echos.taps),
            Effect::Fade(fade) => stop_line(effective_stop(fade.stop), fade.fade_out),
            Effect::Fir(gains) => (gains.len() as u64).saturating_sub(1),
            _ => 0,
        }
    }

    /// The maximum number of frames that the effect makes of `frames` frames, or `u64::MAX` where it is more.
    pub fn max_frames(&self, frames: u64) -> u64
        requires { Usable (act self.now) }
        ensures { result ≡ min (max_of_act (act self.now) frames) (2 ^ 64 - 1) }
    {
        match self {
            Effect::Pad(pads) => frames.saturating_add(all_pads(pads)),
            Effect::Delay(delays) => frames.saturating_add(max_delay(delays)),
            Effect::Echo(echo) => frames.saturating_add(max_tap_delay(&echo.taps)),
            Effect::Echos(echos) => frames.saturating_add(total_delay(&echos.taps)),
            Effect::Upsample(factor) => frames.saturating_mul(u64::from(*factor)),
            Effect::Downsample(factor) => frames.div_ceil(u64::from(*factor)),
            _ => frames,
        }
    }

    /// The effect's name.
    pub fn name(&self) -> &'static str
        ensures { result.now ≡ name_text (act self.now) }
    {
        match self {
            Effect::Trim(_) => "trim",
            Effect::Pad(_) => "pad",
            Effect::Delay(_) => "delay",
            Effect::Echo(_) => "echo",
            Effect::Echos(_) => "echos",
            Effect::Fade(_) => "fade",
            Effect::Vol(_) => "vol",
            Effect::DcShift(_) => "dcshift",
            Effect::Fir(_) => "fir",
            Effect::Remix(_) => "remix",
            Effect::Upsample(_) => "upsample",
            Effect::Downsample(_) => "downsample",
        }
    }

    /// A copy of the effect.
    pub fn copy(&self, alloc: Global) -> Result<Effect, AllocError>
        ensures { IfOk result (λ copy. act copy ≡ act self.now) }
    {
        match self {
            Effect::Trim(positions) => SmallVec::from_slice(alloc, positions).map(Effect::Trim),
            Effect::Pad(pads) => SmallVec::from_slice(alloc, pads).map(Effect::Pad),
            Effect::Delay(delays) => SmallVec::from_slice(alloc, delays).map(Effect::Delay),
            Effect::Echo(echo) => copy_echo(alloc, echo).map(Effect::Echo),
            Effect::Echos(echos) => copy_echo(alloc, echos).map(Effect::Echos),
            Effect::Fade(fade) => Ok(Effect::Fade(*fade)),
            Effect::Vol(gain) => Ok(Effect::Vol(*gain)),
            Effect::DcShift(shift) => Ok(Effect::DcShift(*shift)),
            Effect::Fir(gains) => Vec::from_slice(alloc, gains).map(Effect::Fir),
            Effect::Remix(specs) => copy_specs(alloc, specs).map(Effect::Remix),
            Effect::Upsample(factor) => Ok(Effect::Upsample(*factor)),
            Effect::Downsample(factor) => Ok(Effect::Downsample(*factor)),
        }
    }
}
