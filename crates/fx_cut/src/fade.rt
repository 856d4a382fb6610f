//! The effect `fade` of sox(1), of the type t: a linear rise at the start and a linear fall before the stop.
ghost use Rattle.std.specs.Prelude.{ℕ, ◌≡◌, ◌≤◌, ◌<◌, ◌+◌, ◌*◌, ◌^◌, length, map, Err, FitsSigned, IfOk, false, option_to_list, true};
ghost use Rattle.std.specs.Int.{w32};
ghost use Rattle.std.specs.List.{All};
ghost use Rattle.fx_cut.specs.FadeExtents.{effective, stop_line};
ghost use Rattle.fx_frame_base.specs.PendingFrame.{IsPending};
ghost use Rattle.fx_frame_base.specs.Stage.{Freezes, IsNew, Restores};
ghost use Rattle.fx_frame_base.specs.Given.{plain};
ghost use Rattle.fx_frame_base.specs.Rounded.{unclipped};
ghost use Rattle.fx_cut.specs.Fade.{FadeArguments, fade_line, stop_in, until, weighted, weights, fade_with};
ghost use Rattle.fx_cut.specs.FadeState.{fade_acts, fade_selects, faded_here, is_before, stop_determined, weights_determined};
ghost use Rattle.fx_cut.specs.Selected.{IsSelectedState};
ghost use Rattle.fx_frame_base.specs.Frame.{IsChannelCount};

pub mod words;

use crate::extents::{effective_stop, stop_line};
use crate::fade::words::Fading;
use crate::selected::{FrameRun, Selected, Selection};
use crate::slopes::{Slope, weigh_by};
use fx_fixed::At;
use fx_frame::{Frame, ThawFault, WideFrame};
use std::alloc::{AllocError, Global};
use std::marker::Model;

/// Whether the frame at this place lies before the stop.
#[inline(always)]
fn is_ahead(stop: Option<u64>, place: u64) -> bool
    ensures { result ≡ is_before stop place }
{
    match stop {
        None => true,
        Some(stop) => place < stop,
    }
}

/// What a fade does to the frames of a sound, with its rise and its fall prepared.
#[derive(Drop)]
pub struct PreparedFade {
    channels: usize,
    shape: Fading,
    rise: Slope,
    fall: Slope,
}

// It is what a fade is made with.
impl Model for PreparedFade {
    ghost use Rattle.std.specs.Prelude.{◌≡◌};
    ghost use Rattle.fx_cut.specs.Fade.{FadeArguments, IsShape};

    ghost Value = { FadeArguments };

    ghost view = { λ s. record { channels = s.channels; shape = s.shape } };

    ghost invariant = { λ s. IsShape s.shape × ((s.rise ≡ s.shape.fade_in) × (s.fall ≡ s.shape.fade_out)) };
}

impl PreparedFade {
    /// Prepares the rise and the fall of a fade. A stop at 0 from the start means the end.
    fn of(channels: usize, fade_in: u64, stop: Option<At>, fade_out: u64) -> PreparedFade
        requires fades { (fade_in ≤ 2 ^ 40) × (fade_out ≤ 2 ^ 40) }
        ensures { result ≡ fade_with channels fade_in (effective stop) fade_out }
    {
        let rise = Slope::new(fade_in);
        let fall = Slope::new(fade_out);
        let stop = effective_stop(stop);
        PreparedFade {
            channels,
            shape: Fading {
                fade_in,
                stop,
                fade_out,
            },
            rise,
            fall,
        }
    }

    /// Where the stop lies in a sound of `frames` frames.
    fn stop(&self, frames: u64) -> Option<u64>
        ensures { result ≡ stop_in frames self.now.shape.stop }
    {
        match self.shape.stop {
            None => None,
            Some(At::Start(start)) => Some(start),
            Some(At::End(distance)) => Some(frames.saturating_sub(distance)),
        }
    }

    /// The frames of the line that the stop needs.
    fn line(&self) -> u64
        requires { fade_line self.now.shape ≤ 2 ^ 28 }
        ensures { result ≡ fade_line self.now.shape }
    {
        stop_line(self.shape.stop, self.shape.fade_out)
    }

    /// Where the stop lies as far as is determined when the frame at this place falls out of the line: a stop from the end lies
    /// farther after that frame than the length of the fall.
    #[inline(always)]
    fn next_stop(&self, place: u64) -> Option<u64>
        requires place { place ≤ 2 ^ 56 }
        ensures { result ≡ stop_determined self.now.shape place }
    {
        match self.shape.stop {
            None => None,
            Some(At::Start(start)) => Some(start),
            Some(At::End(_)) => Some(place + self.shape.fade_out + 1),
        }
    }

    /// How many frames from this place on lie between the rise and the fall, as far as is determined when they fall out of the
    /// line.
    #[inline(always)]
    fn flat_from(&self, place: u64) -> u64
        ensures whole { (n : ℕ) → n < result → let w = weights_determined self.now.shape (place + n) in w.0 ≡ w.1 }
        ensures before { (n : ℕ) → n < result → is_before (stop_determined self.now.shape (place + n)) (place + n) ≡ true }
    {
        if place < self.shape.fade_in {
            return 0;
        }
        let Some(At::Start(start)) = self.shape.stop else {
            return u64::MAX;
        };
        start
            .saturating_sub(self.shape.fade_out)
            .saturating_sub(place)
    }

    /// Weighs, in place, the samples of the frame at this place, where the sound stops at another or does not stop.
    #[inline(always)]
    fn weigh(&self, samples: &mut [i32], stop: Option<u64>, place: u64)
        requires fit { All (FitsSigned w32) samples.old }
        ensures samples { map (weighted (weights self.now.shape stop place)) samples.old ≡ map unclipped samples.new }
        ensures fit { All (FitsSigned w32) samples.new }
        ensures len { length samples.new ≡ length samples.old }
    {
        let Some(stop) = stop else {
            self.rise.weigh(samples, place);
            return;
        };
        let left = stop.saturating_sub(place);
        let (over, under) = self.rise.at(place);
        let (out_over, out_under) = self.fall.at(left);
        if over == under {
            self.fall.weigh(samples, left);
        } else if out_over == out_under {
            self.rise.weigh(samples, place);
        } else {
            let over = u128::from(over) * u128::from(out_over);
            weigh_by(
                samples,
                over,
                u128::from(under) * u128::from(out_under),
                &None,
            );
        }
    }

    /// The same as `select_over`, for a frame that may lie on the rise or the fall.
    #[inline(never)]
    fn weigh_sloped(&self, samples: &mut [i32], place: u64) -> bool
        requires fit { All (FitsSigned w32) samples.old }
        requires place { place ≤ 2 ^ 56 }
        ensures before { result ≡ is_before (stop_determined self.now.shape place) place }
        ensures samples { result ≡ true → map (weighted (weights_determined self.now.shape place)) samples.old ≡ map unclipped samples.new }
        ensures left { result ≡ false → samples.new ≡ samples.old }
        ensures fit { All (FitsSigned w32) samples.new }
        ensures len { length samples.new ≡ length samples.old }
    {
        let stop = self.next_stop(place);
        if !is_ahead(stop, place) {
            return false;
        }
        self.weigh(samples, stop, place);
        true
    }

    /// What is given of the frame at this place, in a sound that stops at another or does not stop: nothing after the stop.
    #[inline(always)]
    fn faded(&self, frame: Frame, stop: Option<u64>, place: u64) -> Option<Frame>
        ensures value { map plain (option_to_list result) ≡ faded_here self.now.shape stop place frame }
        ensures fits { IsPending (length frame) result }
    {
        if !is_ahead(stop, place) {
            return None;
        }
        let channels = frame.channels();
        let mut samples = frame.places();
        self.weigh(&mut samples[..channels], stop, place);
        Some(Frame::of_first(channels, samples))
    }
}

/// How many of `frames` frames lie before the stop.
fn frames_until(stop: Option<u64>, frames: u64) -> u64
    ensures { result ≡ until stop frames }
{
    match stop {
        Some(stop) => frames.min(stop),
        None => frames,
    }
}

impl Selection for PreparedFade {
    ghost use Rattle.fx_cut.specs.FadeState.{fade_selects};
    ghost use Rattle.fx_cut.specs.FadeDetermined.{fade-determined};

    ghost selects = { fade_selects };

    ghost determined = { fade-determined };

    fn channels(&self) -> usize {
        self.channels
    }

    /// Those before a stop from the start.
    #[inline(always)]
    fn enough(&self) -> Option<u64> {
        match self.shape.stop {
            Some(At::Start(enough)) => Some(enough),
            _ => None,
        }
    }

    fn due(&self, taken: u64) -> u64 {
        match self.shape.stop {
            None => taken,
            Some(At::Start(start)) => taken.min(start),
            Some(At::End(distance)) => taken
                .saturating_sub(distance)
                .saturating_sub(self.shape.fade_out),
        }
    }

    fn given_before(&self, frames: u64, place: u64) -> u64 {
        frames_until(self.stop(frames), place)
    }

    fn frame_run_from(&self, place: u64) -> FrameRun {
        let Some(At::Start(start)) = self.shape.stop else {
            return FrameRun {
                is_given: true,
                frames: u64::MAX,
            };
        };
        if place < start {
            return FrameRun {
                is_given: true,
                frames: start - place,
            };
        }
        FrameRun {
            is_given: false,
            frames: u64::MAX,
        }
    }

    fn select(&mut self, frame: Frame, place: u64) -> Option<Frame> {
        let stop = self.next_stop(place);
        self.faded(frame, stop, place)
    }

    /// Between the rise and the fall no sample is touched.
    #[inline(always)]
    fn select_over(&mut self, samples: &mut [i32], place: u64) -> bool {
        if self.flat_from(place) > 0 {
            return true;
        }
        self.weigh_sloped(samples, place)
    }

    fn selected_in(&self, frame: Frame, frames: u64, place: u64) -> Option<Frame> {
        let stop = self.stop(frames);
        self.faded(frame, stop, place)
    }

    fn select_many(&self, samples: &mut [i32], channels: usize, count: usize, place: u64) {
        if count as u64 <= self.flat_from(place) {
            return;
        }
        let mut at = 0;
        'frames: for turn in 0..count {
            let here = place + turn as u64;
            let stop = self.next_stop(here);
            self.weigh(&mut samples[at..at + channels], stop, here);
            at += channels;
        }
    }
}

/// The stage of `fade`: the frames before the stop, or all of them, each sample times the weights of the rise and of the fall,
/// rounded once. No sample is clipped. It takes up to `2^56` frames.
pub type Fade = Selected<PreparedFade>;

impl Selected<PreparedFade> {
    /// The stage for frames of 1 to 16 channels, with a rise and a fall of at most `2^40` frames. Without a stop there is no
    /// fall; a stop at 0 from the start means the end. A stop from the end needs a line of its distance and the fall, at most
    /// `2^28` frames; AllocError where memory for it is refused.
    pub fn new(
        alloc: Global,
        channels: usize,
        fade_in: u64,
        stop: Option<At>,
        fade_out: u64,
    ) -> Result<Fade, AllocError>
        requires channels { IsChannelCount channels }
        requires fades { (fade_in ≤ 2 ^ 40) × (fade_out ≤ 2 ^ 40) }
        requires line { stop_line (effective stop) fade_out ≤ 2 ^ 28 }
        ensures { IfOk result (IsNew fade_acts (fade_with channels fade_in (effective stop) fade_out)) }
    {
        let fading = PreparedFade::of(channels, fade_in, stop, fade_out);
        let reach = fading.line();
        Selected::of(alloc, fading, reach)
    }

    /// The stage that stored these frames and counted these numbers: whichever stage of these arguments they came from, that
    /// stage is restored, unless memory is refused. BadSnapshot where there is no such stage, Memory where memory is refused.
    pub fn thaw(
        alloc: Global,
        channels: usize,
        fade_in: u64,
        stop: Option<At>,
        fade_out: u64,
        frames: &[WideFrame],
        numbers: &[u64; 8],
    ) -> Result<Fade, ThawFault>
        requires channels { IsChannelCount channels }
        requires fades { (fade_in ≤ 2 ^ 40) × (fade_out ≤ 2 ^ 40) }
        requires line { stop_line (effective stop) fade_out ≤ 2 ^ 28 }
        ensures recipe { IfOk result (λ t. t.arguments ≡ fade_with channels fade_in (effective stop) fade_out) }
        ensures frozen { IfOk result (λ t. Freezes fade_acts t frames.now numbers.now) }
        ensures named { (result ≡ Err ThawFault.WrongPlan) → ⊥ }
        ensures thawed { Restores fade_acts (IsSelectedState fade_selects)
            (fade_with channels fade_in (effective stop) fade_out) frames.now numbers.now result }
    {
        let fading = PreparedFade::of(channels, fade_in, stop, fade_out);
        let reach = fading.line();
        Selected::thawed(alloc, fading, reach, frames, numbers)
    }
}
